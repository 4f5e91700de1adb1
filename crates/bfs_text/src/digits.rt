// Numbers in digits.
ghost use Rattle.std.specs.Prelude.{◌≡◌, ◌≤◌, ◌^◌, ◌⊎◌, ℕ, Bool, Some, MatchOption};
ghost use Rattle.bfs_text.specs.Words.{digits_of, decimal_of, integer_of, session_of, i32_of, u32_of, i64_of, u64_of};

/// Reads a number of `least` to `most` digits of a base.
fn read_digits(word: &[u8], base: u64, least: usize, most: usize) -> Option<u64>
    requires base { (base ≡ 8) ⊎ (base ≡ 10) }
    requires most { most ≤ 19 }
    ensures { result ≡ digits_of base least most word.now }
{
    if word.len() < least || most < word.len() {
        return None;
    }
    let mut value = 0;
    'digits: for at in 0..word.len() {
        let digit = u64::from(word[at]);
        if digit < 48 || 48 + base <= digit {
            return None;
        }
        value = base * value + (digit - 48);
    }
    Some(value)
}

/// A decimal number of 1 to 19 digits.
pub fn read_number(word: &[u8]) -> Option<u64>
    ensures { result ≡ digits_of 10 1 19 word.now }
{
    read_digits(word, 10, 1, 19)
}

/// An octal number of 1 to 4 digits.
pub fn read_octal(word: &[u8]) -> Option<u64>
    ensures { result ≡ digits_of 8 1 4 word.now }
{
    read_digits(word, 8, 1, 4)
}

/// A session: 1 to 16, without a leading zero.
pub fn read_session(word: &[u8]) -> Option<u32>
    ensures { result ≡ session_of word.now }
{
    if let [b'0', ..] = word {
        return None;
    }
    let session = read_digits(word, 10, 1, 2)?;
    if session <= 16 {
        Some(session as u32)
    } else {
        None
    }
}

/// A decimal number of any length that 64 bits hold.
fn read_decimal(word: &[u8]) -> Option<u64>
    ensures { MatchOption result ((n : ℕ) → decimal_of word.now ≡ Some n → 2 ^ 64 ≤ n) (λ n. decimal_of word.now ≡ Some n) }
{
    if word.is_empty() {
        return None;
    }
    let mut value: u64 = 0;
    'digits: for at in 0..word.len() {
        let digit = u64::from(word[at]);
        if digit < 48 || 58 <= digit {
            return None;
        }
        let Some(tens) = value.checked_mul(10) else {
            return None;
        };
        let Some(more) = tens.checked_add(digit - 48) else {
            return None;
        };
        value = more;
    }
    Some(value)
}

/// A number with an optional `-`: whether it is below zero, and how far from zero.
#[derive(Clone, Copy)]
struct Integer {
    negative: bool,
    size: u64,
}

/// Reads an integer whose size 64 bits hold.
fn read_integer(text: &[u8]) -> Option<Integer>
    ensures { MatchOption result ((n : Bool × ℕ) → integer_of text.now ≡ Some n → 2 ^ 64 ≤ n.1) (λ i. integer_of text.now ≡ Some (i.negative, i.size)) }
{
    if let [b'-', digits @ ..] = text {
        let Some(size) = read_decimal(digits) else {
            return None;
        };
        return Some(Integer {
            negative: true,
            size,
        });
    }
    let Some(size) = read_decimal(text) else {
        return None;
    };
    Some(Integer {
        negative: false,
        size,
    })
}

/// A number of 32 bits with a sign.
pub fn read_i32(text: &[u8]) -> Option<i32>
    ensures { result ≡ i32_of text.now }
{
    let Some(Integer { negative, size }) = read_integer(text) else {
        return None;
    };
    if negative {
        if size <= 1 << 31 {
            Some((-(size as i64)) as i32)
        } else {
            None
        }
    } else if size < 1 << 31 {
        Some(size as i32)
    } else {
        None
    }
}

/// A number of 32 bits without a sign.
pub fn read_u32(text: &[u8]) -> Option<u32>
    ensures { result ≡ u32_of text.now }
{
    let Some(Integer { negative, size }) = read_integer(text) else {
        return None;
    };
    if negative {
        if size == 0 { Some(0) } else { None }
    } else if size < 1 << 32 {
        Some(size as u32)
    } else {
        None
    }
}

/// A number of 64 bits with a sign.
pub fn read_i64(text: &[u8]) -> Option<i64>
    ensures { result ≡ i64_of text.now }
{
    let Some(Integer { negative, size }) = read_integer(text) else {
        return None;
    };
    if negative {
        if size == 1 << 63 {
            Some(i64::MIN)
        } else if size < 1 << 63 {
            Some(-(size as i64))
        } else {
            None
        }
    } else if size < 1 << 63 {
        Some(size as i64)
    } else {
        None
    }
}

/// A number of 64 bits without a sign.
pub fn read_u64(text: &[u8]) -> Option<u64>
    ensures { result ≡ u64_of text.now }
{
    let Some(Integer { negative, size }) = read_integer(text) else {
        return None;
    };
    if negative {
        if size == 0 { Some(0) } else { None }
    } else {
        Some(size)
    }
}
