// Whether words are in the grammar, told without reading what they say.
ghost use Rattle.std.specs.Prelude.{◌≡◌, ◌<◌, ◌≤◌, length, drop, MatchOption, None, Some};
ghost use Rattle.std.specs.Option.{is_some};
ghost use Rattle.bfs_text.specs.Words.{unescaped, hex_bytes, name_of, path_of, node_of, bytes_of, value_of, key_of, keyed, text_bytes, typed_bytes, parts_of};
ghost use Rattle.bfs_text.specs.Cutting.{cut_at};
ghost use Rattle.bfs_text.specs.Skips.{behind_byte};

use crate::digits::{read_i32, read_i64, read_number, read_u32, read_u64};
use crate::escapes::read_byte;
use crate::values::{CSTR, LLNG, LONG, ULLG, ULNG};
use crate::words::read_type;

/// The place behind the byte that is spelled here, or nothing where an escape is spelled wrong.
fn skip_byte(word: &[u8], at: usize) -> Option<usize>
    requires { at < length word.now }
    ensures { MatchOption result (behind_byte (drop at word.now) ≡ None) (λ next. (at < next) × (next ≤ length word.now) × (behind_byte (drop at word.now) ≡ Some (drop next word.now))) }
{
    if word[at] != b'%' {
        return Some(at + 1);
    }
    if word.len() - at < 3 {
        return None;
    }
    match read_byte(false, word[at + 1], word[at + 2]) {
        Some(_) => Some(at + 3),
        None => None,
    }
}

/// Is every escape spelled right?
pub fn is_escaped(word: &[u8]) -> bool
    ensures { result ≡ is_some (unescaped word.now) }
{
    let mut at = 0;
    while at < word.len() {
        let Some(next) = skip_byte(word, at) else {
            return false;
        };
        at = next;
    }
    true
}

/// A name, a target or a part of a path: at least a byte.
pub fn is_name(word: &[u8]) -> bool
    ensures { result ≡ is_some (name_of word.now) }
{
    !word.is_empty() && is_escaped(word)
}

/// Are these pairs of hexadecimal digits?
fn are_pairs(word: &[u8]) -> bool
    ensures { result ≡ is_some (hex_bytes word.now) }
{
    let mut at = 0;
    while at < word.len() {
        if word.len() - at < 2 {
            return false;
        }
        let Some(_) = read_byte(true, word[at], word[at + 1]) else {
            return false;
        };
        at += 2;
    }
    true
}

/// Are these parts of a path, with slashes between them?
fn are_parts(bytes: &[u8]) -> bool
    ensures { result ≡ is_some (parts_of (cut_at 47 bytes.now)) }
{
    let mut at = 0;
    let mut fresh = true;
    while at < bytes.len() {
        if bytes[at] == b'/' {
            if fresh {
                return false;
            }
            fresh = true;
            at += 1;
        } else {
            let Some(next) = skip_byte(bytes, at) else {
                return false;
            };
            fresh = false;
            at = next;
        }
    }
    !fresh
}

pub fn is_path(word: &[u8]) -> bool
    ensures { result ≡ is_some (path_of word.now) }
{
    match word {
        [b'/'] => true,
        [b'/', behind @ ..] => are_parts(behind),
        _ => false,
    }
}

/// A path other than that of the root.
pub fn is_node(word: &[u8]) -> bool
    ensures { result ≡ is_some (node_of word.now) }
{
    if word.len() < 2 {
        return false;
    }
    is_path(word)
}

/// Bytes: `:` and text, `#` and hexadecimal digits, or `*` and how many times the letter z.
pub fn is_bytes(word: &[u8]) -> bool
    ensures { result ≡ is_some (bytes_of word.now) }
{
    match word {
        [b':', text @ ..] => is_escaped(text),
        [b'#', digits @ ..] => are_pairs(digits),
        [b'*', digits @ ..] => match read_number(digits) {
            Some(count) => count <= 99_999,
            None => false,
        },
        _ => false,
    }
}

/// Is this the text of a key of the type?
fn is_keyed(code: u32, text: &[u8]) -> bool
    ensures { result ≡ is_some (keyed code text.now) }
{
    match code {
        LONG => read_i32(text).is_some(),
        ULNG => read_u32(text).is_some(),
        LLNG => read_i64(text).is_some(),
        ULLG => read_u64(text).is_some(),
        CSTR => is_escaped(text),
        _ => false,
    }
}

/// A key: a type of an index, `:`, and the number or the text.
pub fn is_key(word: &[u8]) -> bool
    ensures { result ≡ is_some (key_of word.now) }
{
    let [_, _, _, _, b':', text @ ..] = word else {
        return false;
    };
    match read_type(&word[..4]) {
        Some(code) => is_keyed(code, text),
        None => false,
    }
}

/// Is this the text of a value of the type?
fn is_text(code: u32, text: &[u8]) -> bool
    ensures { result ≡ is_some (text_bytes code text.now) }
{
    if matches!(code, LONG | ULNG | LLNG | ULLG) {
        return is_keyed(code, text);
    }
    is_escaped(text)
}

/// What stands behind the type of a value.
fn is_typed(code: u32, rest: &[u8]) -> bool
    ensures { result ≡ is_some (typed_bytes code rest.now) }
{
    match rest {
        [b':', text @ ..] => is_text(code, text),
        _ => is_bytes(rest),
    }
}

/// A value: its type and its bytes.
pub fn is_value(word: &[u8]) -> bool
    ensures { result ≡ is_some (value_of word.now) }
{
    if word.len() < 4 {
        return false;
    }
    match read_type(&word[..4]) {
        Some(code) => is_typed(code, &word[4..]),
        None => false,
    }
}
