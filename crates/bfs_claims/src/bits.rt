// Bits in a slice of bytes, the lowest bit of a byte first.
ghost use Rattle.std.specs.Prelude.{◌≡◌, ◌≤◌, ◌<◌, ◌+◌, ◌*◌, ◌/◌, ◌%◌, ◌==◌, ℕ, length, true, false, if◌then◌else◌};
ghost use Rattle.std.specs.Int.{bit_at};
ghost use Rattle.bfs_bitmap.specs.Bits.{bit_of, is_clear, Fills, IsFirst};

/// Is the bit 0?
pub fn bit_is_clear(bytes: &[u8], i: usize) -> bool
    requires { i < 8 * length bytes.now }
    ensures { result ≡ is_clear bytes.now i }
{
    let byte = bytes[i / 8];
    (byte >> (i % 8)) & 1 == 0
}

/// The byte with one bit set.
fn with_bit(byte: u8, bit: usize) -> u8
    requires { bit < 8 }
    ensures { (j : ℕ) → j < 8 → bit_at result j ≡ (if j == bit then 1 else bit_at byte j) }
{
    byte | (1 << bit)
}

/// Sets a bit.
fn set_bit(bytes: &mut [u8], i: usize)
    requires { i < 8 * length bytes.old }
    ensures { (k : ℕ) → bit_of bytes.new k ≡ (if k == i then 1 else bit_of bytes.old k) }
{
    let byte = bytes[i / 8];
    bytes[i / 8] = with_bit(byte, i % 8);
}

/// The first bit between two places that is set; the second place where there is none.
pub(crate) fn first_set(bytes: &[u8], from: usize, to: usize) -> usize
    requires order { from ≤ to }
    requires inside { to ≤ 8 * length bytes.now }
    ensures { IsFirst bytes.now from to false result }
{
    let mut at = from;
    while at < to {
        if at % 8 == 0 && 8 <= to - at && bytes[at / 8] == 0 {
            at += 8;
        } else {
            if !bit_is_clear(bytes, at) {
                return at;
            }
            at += 1;
        }
    }
    at
}

/// Sets the bits between two places.
pub(crate) fn set_bits(bytes: &mut [u8], from: usize, to: usize)
    requires order { from ≤ to }
    requires inside { to ≤ 8 * length bytes.old }
    ensures { Fills from to 1 bytes.old bytes.new }
{
    let mut at = from;
    while at < to {
        if at % 8 == 0 && 8 <= to - at {
            bytes[at / 8] = 255;
            at += 8;
        } else {
            set_bit(bytes, at);
            at += 1;
        }
    }
}
