// The words behind a verb: types, values, keys and paths.
ghost use Rattle.std.specs.Prelude.{◌≡◌, ◌==◌, IfOk, MatchOption, None, Some, count_by};
ghost use Rattle.bfs_text.specs.Words.{type_of, is_type_byte, bytes_of, text_bytes, typed_bytes, value_of, key_of, keyed, key_behind, kind_by, kind_of, parts_of, path_of, node_of};
ghost use Rattle.bfs_text.specs.Cutting.{cut_at};

use crate::Path;
use crate::escapes::read_name;
use crate::pieces::Pieces;
use bfs_tree::KeyKind;
use std::alloc::{AllocError, Global};

/// May the byte stand in a type code?
fn is_type_byte(byte: u8) -> bool
    ensures { result ≡ is_type_byte byte }
{
    (0x21..=0x7e).contains(&byte) && !matches!(byte, b'%' | b':' | b'#' | b'*' | b'=')
}

/// A type code, the highest byte first.
pub fn read_type(word: &[u8]) -> Option<u32>
    ensures { result ≡ type_of word.now }
{
    let [a, b, c, d] = word else {
        return None;
    };
    if is_type_byte(*a) && is_type_byte(*b) && is_type_byte(*c) && is_type_byte(*d) {
        let high = 256 * u32::from(*a) + u32::from(*b);
        Some(256 * (256 * high + u32::from(*c)) + u32::from(*d))
    } else {
        None
    }
}

/// The kind of an index, by its type code.
pub fn read_kind(word: &[u8]) -> Option<KeyKind>
    ensures { result ≡ kind_of word.now }
{
    let code = read_type(word)?;
    kind_by(code)
}

fn kind_by(code: u32) -> Option<KeyKind>
    ensures { result ≡ kind_by code }
{
    match code {
        0x4353_5452 => Some(KeyKind::Text),
        0x4c4f_4e47 => Some(KeyKind::I32),
        0x554c_4e47 => Some(KeyKind::U32),
        0x4c4c_4e47 => Some(KeyKind::I64),
        0x554c_4c47 => Some(KeyKind::U64),
        0x464c_4f54 => Some(KeyKind::F32),
        0x4442_4c45 => Some(KeyKind::F64),
        _ => None,
    }
}

/// How many slashes a word has.
fn count_slashes(word: &[u8]) -> usize
    ensures { result ≡ count_by (λ b. b == 47) word.now }
{
    let mut slashes = 0;
    'bytes: for at in 0..word.len() {
        if word[at] == b'/' {
            slashes += 1;
        }
    }
    slashes
}

/// The parts of a path, with slashes between them; so many are made room for.
fn read_parts(alloc: Global, room: usize, bytes: &[u8]) -> Result<Option<Path>, AllocError>
    ensures { IfOk result (λ r. r ≡ parts_of (cut_at 47 bytes.now)) }
{
    let mut names = Vec::with_capacity(alloc, room)?;
    let mut parts = Pieces::of(bytes, b'/');
    while let Some(part) = parts.next() {
        let Some(name) = read_name(alloc, part)? else {
            return Ok(None);
        };
        names.push(name)?;
    }
    Ok(Some(Path::new(names)))
}

/// A path, which begins with a slash.
pub fn read_path(alloc: Global, word: &[u8]) -> Result<Option<Path>, AllocError>
    ensures { IfOk result (λ r. r ≡ path_of word.now) }
{
    match word {
        [b'/'] => Ok(Some(Path::new(Vec::new(alloc)))),
        [b'/', behind @ ..] => read_parts(alloc, count_slashes(word), behind),
        _ => Ok(None),
    }
}

/// A path other than that of the root.
pub fn read_node(alloc: Global, word: &[u8]) -> Result<Option<Path>, AllocError>
    ensures { IfOk result (λ r. r ≡ node_of word.now) }
{
    match read_path(alloc, word)? {
        Some(path) if !path.names().is_empty() => Ok(Some(path)),
        _ => Ok(None),
    }
}
