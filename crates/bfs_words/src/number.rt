// Numbers in decimal digits.
ghost use Rattle.std.specs.Prelude.{◌≡◌, ◌≤◌, ℕ, MatchOption};
ghost use Rattle.bfs_super.specs.Geometry.{IsBlockSize};
ghost use Rattle.bfs_words.specs.Numbers.{IsNumber};

/// Reads 1 to 20 decimal digits, which spell a number that is at most this one.
pub(crate) fn read_number(word: &[u8], most: u64) -> Option<u64>
    ensures { MatchOption result ((n : ℕ) → IsNumber word.now n → n ≤ most → ⊥) (λ n. IsNumber word.now n × (n ≤ most)) }
{
    if word.is_empty() || word.len() > 20 {
        return None;
    }
    let mut value: u64 = 0;
    'digits: for at in 0..word.len() {
        let digit = word[at];
        if !digit.is_ascii_digit() {
            return None;
        }
        let Some(tens) = value.checked_mul(10) else {
            return None;
        };
        let Some(more) = tens.checked_add(u64::from(digit - b'0')) else {
            return None;
        };
        if more > most {
            return None;
        }
        value = more;
    }
    Some(value)
}

/// Reads the size of a block in bytes.
pub(crate) fn read_size(word: &[u8]) -> Option<u32>
    ensures { MatchOption result ((n : ℕ) → IsNumber word.now n → IsBlockSize n → ⊥) (λ n. IsNumber word.now n × IsBlockSize n) }
{
    match read_number(word, 8192)? {
        1024 => Some(1024),
        2048 => Some(2048),
        4096 => Some(4096),
        8192 => Some(8192),
        _ => None,
    }
}
