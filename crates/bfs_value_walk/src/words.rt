// The sixteen bits of a word.
ghost use Rattle.std.specs.Prelude.{◌≡◌, ◌<◌, ◌==◌, ℕ, if◌then◌else◌};
ghost use Rattle.std.specs.Int.{bit_at};

/// Is the bit set?
pub fn has_bit(word: u16, bit: usize) -> bool
    requires { bit < 16 }
    ensures { result ≡ (bit_at word bit == 1) }
{
    (word >> bit) & 1 == 1
}

/// The word with one bit set.
pub fn with_bit(word: u16, bit: usize) -> u16
    requires { bit < 16 }
    ensures { (j : ℕ) → j < 16 → bit_at result j ≡ (if j == bit then 1 else bit_at word j) }
{
    word | (1 << bit)
}
