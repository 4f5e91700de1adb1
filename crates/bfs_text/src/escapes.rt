// Bytes that are written as two hexadecimal digits, alone or behind `%`.
ghost use Rattle.std.specs.Prelude.{◌≡◌, ◌<◌, ◌≤◌, IfOk, MatchOption, None, length, drop};
ghost use Rattle.bfs_text.specs.Words.{hex_of, byte_of, unescaped, hex_bytes, name_of, before};

use bfs_tree::Bytes;
use std::alloc::{AllocError, Global};

/// The value of a hexadecimal digit; where `small` is set, `a` to `f` are digits too.
fn read_hex(small: bool, digit: u8) -> Option<u8>
    ensures { result ≡ hex_of small digit }
{
    match digit {
        b'0'..=b'9' => Some(digit - 48),
        b'A'..=b'F' => Some(digit - 55),
        b'a'..=b'f' if small => Some(digit - 87),
        _ => None,
    }
}

/// The byte of two hexadecimal digits.
pub fn read_byte(small: bool, high: u8, low: u8) -> Option<u8>
    ensures { result ≡ byte_of small high low }
{
    match (read_hex(small, high), read_hex(small, low)) {
        (Some(high), Some(low)) => Some(16 * high + low),
        _ => None,
    }
}

/// Puts the next byte of a word with escapes behind the others, and tells where the one after it stands, or nothing where
/// an escape is spelled wrong.
fn put_escaped(bytes: &mut Vec<u8>, word: &[u8], at: usize) -> Result<Option<usize>, AllocError>
    requires { at < length word.now }
    ensures { IfOk result (λ r. MatchOption r (unescaped (drop at word.now) ≡ None) (λ next. (at < next) × (next ≤ length word.now)
        × (before bytes.old.items (unescaped (drop at word.now)) ≡ before bytes.new.items (unescaped (drop next word.now))))) }
{
    if word[at] != b'%' {
        bytes.push(word[at])?;
        return Ok(Some(at + 1));
    }
    if word.len() - at < 3 {
        return Ok(None);
    }
    let Some(byte) = read_byte(false, word[at + 1], word[at + 2]) else {
        return Ok(None);
    };
    bytes.push(byte)?;
    Ok(Some(at + 3))
}

/// The bytes of a word with escapes, or None where one is spelled wrong.
pub fn read_escaped(alloc: Global, word: &[u8]) -> Result<Option<Bytes>, AllocError>
    ensures { IfOk result (λ r. r ≡ unescaped word.now) }
{
    let mut bytes = Vec::with_capacity(alloc, word.len())?;
    let mut at = 0;
    while at < word.len() {
        let Some(next) = put_escaped(&mut bytes, word, at)? else {
            return Ok(None);
        };
        at = next;
    }
    Ok(Some(Bytes::new(bytes)))
}

/// Puts the byte of the next pair of hexadecimal digits behind the others, and tells where the pair after it stands, or
/// nothing where there is none.
fn put_pair(bytes: &mut Vec<u8>, word: &[u8], at: usize) -> Result<Option<usize>, AllocError>
    requires { at < length word.now }
    ensures { IfOk result (λ r. MatchOption r (hex_bytes (drop at word.now) ≡ None) (λ next. (at < next) × (next ≤ length word.now)
        × (before bytes.old.items (hex_bytes (drop at word.now)) ≡ before bytes.new.items (hex_bytes (drop next word.now))))) }
{
    if word.len() - at < 2 {
        return Ok(None);
    }
    let Some(byte) = read_byte(true, word[at], word[at + 1]) else {
        return Ok(None);
    };
    bytes.push(byte)?;
    Ok(Some(at + 2))
}

/// The bytes of pairs of hexadecimal digits.
pub fn read_pairs(alloc: Global, word: &[u8]) -> Result<Option<Bytes>, AllocError>
    ensures { IfOk result (λ r. r ≡ hex_bytes word.now) }
{
    let mut bytes = Vec::with_capacity(alloc, word.len() / 2)?;
    let mut at = 0;
    while at < word.len() {
        let Some(next) = put_pair(&mut bytes, word, at)? else {
            return Ok(None);
        };
        at = next;
    }
    Ok(Some(Bytes::new(bytes)))
}

/// A name, a target or a part of a path: its bytes, of which there is one at least.
pub fn read_name(alloc: Global, word: &[u8]) -> Result<Option<Bytes>, AllocError>
    ensures { IfOk result (λ r. r ≡ name_of word.now) }
{
    if word.is_empty() {
        return Ok(None);
    }
    read_escaped(alloc, word)
}
