// Bits in a slice of bytes, the lowest bit of a byte first.
ghost use Rattle.std.specs.Prelude.{◌≡◌, ◌≤◌, ◌<◌, ◌+◌, ◌*◌, ◌/◌, ◌%◌, ◌==◌, ◌&&◌, ◌||◌, ℕ, length, not, nat_le, nat_lt, ◌^◌, if◌then◌else◌, IsTrue, get_or};
ghost use Rattle.std.specs.Int.{bit_at};
ghost use Rattle.bfs_bitmap.specs.Bits.{bit_of, is_clear, in_run, Fills, IsFirst};

/// Is the bit 0?
fn bit_is_clear(bytes: &[u8], i: usize) -> bool
    requires { i < 8 * length bytes.now }
    ensures { result ≡ is_clear bytes.now i }
{
    let byte = bytes[i / 8];
    (byte >> (i % 8)) & 1 == 0
}

/// A byte of eight bits that are set, or clear.
fn whole_byte(used: bool) -> u8
    ensures { result ≡ (if used then 255 else 0) }
{
    if used { 255 } else { 0 }
}

/// The byte with one bit set, or cleared.
fn with_bit(byte: u8, bit: usize, used: bool) -> u8
    requires { bit < 8 }
    ensures { (j : ℕ) → j < 8 → bit_at result j ≡ (if j == bit then (if used then 1 else 0) else bit_at byte j) }
{
    if used {
        byte | (1 << bit)
    } else {
        byte & !(1 << bit)
    }
}

/// Sets a bit, or clears it.
fn put_bit(bytes: &mut [u8], i: usize, used: bool)
    requires { i < 8 * length bytes.old }
    ensures { (k : ℕ) → bit_of bytes.new k ≡ (if k == i then (if used then 1 else 0) else bit_of bytes.old k) }
{
    let byte = bytes[i / 8];
    bytes[i / 8] = with_bit(byte, i % 8, used);
}

/// Are eight bytes all this one?
fn are_eight(bytes: &[u8], at: usize, byte: u8) -> bool
    requires { at + 8 ≤ length bytes.now }
    ensures { IsTrue result → (j : ℕ) → at ≤ j → j < at + 8 → get_or bytes.now j 0 ≡ byte }
{
    bytes[at..at + 8] == [byte; 8]
}

/// How many bits from a place on are all set, or all clear, as far as one look at a byte or at eight tells.
fn skipped(bytes: &[u8], i: usize, to: usize, clear: bool) -> usize
    requires order { i < to }
    requires inside { to ≤ 8 * length bytes.now }
    ensures up_to { i + result ≤ to }
    ensures same { (k : ℕ) → i ≤ k → k < i + result → is_clear bytes.now k ≡ not clear }
{
    let whole = whole_byte(clear);
    if i % 8 != 0 || to - i < 8 {
        return 0;
    }
    let byte = bytes[i / 8];
    if byte != whole {
        return 0;
    }
    if to - i < 64 {
        return 8;
    }
    if are_eight(bytes, i / 8, whole) {
        return 64;
    }
    8
}

/// The first bit between two places that is clear, or that is set; the second place where there is none.
pub fn first_bit(bytes: &[u8], from: usize, to: usize, clear: bool) -> usize
    requires order { from ≤ to }
    requires inside { to ≤ 8 * length bytes.now }
    ensures { IsFirst bytes.now from to clear result }
{
    let mut at = from;
    while at < to {
        let skip = skipped(bytes, at, to, clear);
        if skip == 0 {
            if bit_is_clear(bytes, at) == clear {
                return at;
            }
            at += 1;
        } else {
            at += skip;
        }
    }
    at
}

/// Sets the bits between two places, or clears them.
pub fn fill_bits(bytes: &mut [u8], from: usize, to: usize, used: bool)
    requires order { from ≤ to }
    requires inside { to ≤ 8 * length bytes.old }
    ensures { Fills from to (if used then 1 else 0) bytes.old bytes.new }
{
    let mut at = from;
    while at < to {
        if at % 8 == 0 && 8 <= to - at {
            bytes[at / 8] = whole_byte(used);
            at += 8;
        } else {
            put_bit(bytes, at, used);
            at += 1;
        }
    }
}

/// Sets the bits of a run, as far as they are among those of the bytes, the first of which has the number `base`.
pub fn mark_run(bytes: &mut [u8], base: u64, first: u64, len: u64)
    requires { base + 8 * length bytes.old < 2 ^ 62 }
    ensures { (i : ℕ) → i < 8 * length bytes.old → is_clear bytes.new i ≡ (is_clear bytes.old i && not (in_run first len (base + i))) }
{
    let end = base + 8 * bytes.len() as u64;
    let from = first.max(base);
    let to = first.saturating_add(len).min(end);
    if from < to {
        fill_bits(bytes, (from - base) as usize, (to - base) as usize, true);
    }
}

/// Clears the bits of a run, as far as they are among those of the bytes.
pub fn clear_run(bytes: &mut [u8], first: u64, len: u64)
    requires { 8 * length bytes.old < 2 ^ 62 }
    ensures { (i : ℕ) → i < 8 * length bytes.old → is_clear bytes.new i ≡ (in_run first len i || is_clear bytes.old i) }
{
    let end = 8 * bytes.len() as u64;
    let to = first.saturating_add(len).min(end);
    if first < to {
        fill_bits(bytes, first as usize, to as usize, false);
    }
}
