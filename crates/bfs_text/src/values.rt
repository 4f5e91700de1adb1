// Bytes, attributes' values and keys, as a script spells them.
ghost use Rattle.std.specs.Prelude.{◌≡◌, IfOk, replicate};
ghost use Rattle.std.specs.Option.{option_map};
ghost use Rattle.bfs_text.specs.Words.{bytes_of, text_bytes, typed_bytes, value_of, key_of, keyed, key_behind, is_number_code, unescaped};

use crate::digits::{read_i32, read_i64, read_number, read_u32, read_u64};
use crate::escapes::{read_escaped, read_pairs};
use crate::words::read_type;
use bfs_tree::{Bytes, Key};
use std::alloc::{AllocError, Global};

pub const CSTR: u32 = 0x4353_5452;

pub const LONG: u32 = 0x4c4f_4e47;

pub const ULNG: u32 = 0x554c_4e47;

pub const LLNG: u32 = 0x4c4c_4e47;

pub const ULLG: u32 = 0x554c_4c47;

/// So many letters z.
fn letters(alloc: Global, count: usize) -> Result<Bytes, AllocError>
    ensures { IfOk result (λ r. r ≡ replicate count 122) }
{
    let bytes = vec![in alloc; b'z'; count]?;
    Ok(Bytes::new(bytes))
}

/// Bytes: `:` and text, `#` and hexadecimal digits, or `*` and how many times the letter z.
pub fn read_bytes(alloc: Global, word: &[u8]) -> Result<Option<Bytes>, AllocError>
    ensures { IfOk result (λ r. r ≡ bytes_of word.now) }
{
    match word {
        [b':', text @ ..] => read_escaped(alloc, text),
        [b'#', digits @ ..] => read_pairs(alloc, digits),
        [b'*', digits @ ..] => match read_number(digits) {
            Some(count) if count <= 99_999 => Ok(Some(letters(alloc, count as usize)?)),
            _ => Ok(None),
        },
        _ => Ok(None),
    }
}

/// The text of a key, by its type.
fn read_keyed(alloc: Global, code: u32, text: &[u8]) -> Result<Option<Key>, AllocError>
    ensures { IfOk result (λ r. r ≡ keyed code text.now) }
{
    match code {
        LONG => Ok(read_i32(text).map(Key::I32)),
        ULNG => Ok(read_u32(text).map(Key::U32)),
        LLNG => Ok(read_i64(text).map(Key::I64)),
        ULLG => Ok(read_u64(text).map(Key::U64)),
        CSTR => Ok(read_escaped(alloc, text)?.map(Key::Text)),
        _ => Ok(None),
    }
}

/// A key: a type of an index, `:`, and the number or the text.
pub fn read_key(alloc: Global, word: &[u8]) -> Result<Option<Key>, AllocError>
    ensures { IfOk result (λ r. r ≡ key_of word.now) }
{
    let [_, _, _, _, b':', text @ ..] = word else {
        return Ok(None);
    };
    let Some(code) = read_type(&word[..4]) else {
        return Ok(None);
    };
    read_keyed(alloc, code, text)
}

/// The bytes of a value's text, by its type.
fn read_text(alloc: Global, code: u32, text: &[u8]) -> Result<Option<Bytes>, AllocError>
    ensures { IfOk result (λ r. r ≡ text_bytes code text.now) }
{
    if matches!(code, LONG | ULNG | LLNG | ULLG) {
        return match read_keyed(alloc, code, text)? {
            Some(key) => Ok(Some(key.bytes(alloc)?)),
            None => Ok(None),
        };
    }
    match read_escaped(alloc, text)? {
        Some(bytes) if code == CSTR => {
            let mut bytes = bytes.into_vec();
            bytes.push(0)?;
            Ok(Some(Bytes::new(bytes)))
        }
        bytes => Ok(bytes),
    }
}

/// An attribute's value: its type code, and its bytes.
#[derive(Drop)]
pub struct Value {
    pub kind: u32,
    pub bytes: Bytes,
}

/// The bytes of a value behind its type: behind `:` the type says what the text means.
fn read_typed(alloc: Global, code: u32, rest: &[u8]) -> Result<Option<Bytes>, AllocError>
    ensures { IfOk result (λ r. r ≡ typed_bytes code rest.now) }
{
    match rest {
        [b':', text @ ..] => read_text(alloc, code, text),
        _ => read_bytes(alloc, rest),
    }
}

/// A value: its type and its bytes.
pub fn read_value(alloc: Global, word: &[u8]) -> Result<Option<Value>, AllocError>
    ensures { IfOk result (λ r. option_map (λ v. (v.kind, v.bytes)) r ≡ value_of word.now) }
{
    if word.len() < 4 {
        return Ok(None);
    }
    let Some(kind) = read_type(&word[..4]) else {
        return Ok(None);
    };
    match read_typed(alloc, kind, &word[4..])? {
        Some(bytes) => Ok(Some(Value { kind, bytes })),
        None => Ok(None),
    }
}
