// The next of some words, read in a way.
ghost use Rattle.std.specs.Prelude.{◌≡◌, IfOk};
ghost use Rattle.std.specs.Option.{option_map};
ghost use Rattle.bfs_text.specs.Words.{number_of, octal_of, name_of, path_of, node_of, bytes_of, value_of, key_of, kind_of};
ghost use Rattle.bfs_command.specs.Grammar.{reads, owner_of, length_of};

use bfs_text::{
    Path, Pieces, Value, read_bytes, read_key, read_kind, read_name, read_node, read_number,
    read_octal, read_path, read_value,
};
use bfs_tree::{Bytes, Key, KeyKind};
use std::alloc::{AllocError, Global};

pub fn next_path(alloc: Global, words: &mut Pieces<'_>) -> Result<Option<Path>, AllocError>
    ensures { IfOk result (λ r. option_map (λ a. (a, words.new)) r ≡ reads path_of words.old) }
{
    match words.next() {
        Some(word) => read_path(alloc, word),
        None => Ok(None),
    }
}

pub fn next_node(alloc: Global, words: &mut Pieces<'_>) -> Result<Option<Path>, AllocError>
    ensures { IfOk result (λ r. option_map (λ a. (a, words.new)) r ≡ reads node_of words.old) }
{
    match words.next() {
        Some(word) => read_node(alloc, word),
        None => Ok(None),
    }
}

pub fn next_name(alloc: Global, words: &mut Pieces<'_>) -> Result<Option<Bytes>, AllocError>
    ensures { IfOk result (λ r. option_map (λ a. (a, words.new)) r ≡ reads name_of words.old) }
{
    match words.next() {
        Some(word) => read_name(alloc, word),
        None => Ok(None),
    }
}

pub fn next_bytes(alloc: Global, words: &mut Pieces<'_>) -> Result<Option<Bytes>, AllocError>
    ensures { IfOk result (λ r. option_map (λ a. (a, words.new)) r ≡ reads bytes_of words.old) }
{
    match words.next() {
        Some(word) => read_bytes(alloc, word),
        None => Ok(None),
    }
}

pub fn next_key(alloc: Global, words: &mut Pieces<'_>) -> Result<Option<Key>, AllocError>
    ensures { IfOk result (λ r. option_map (λ a. (a, words.new)) r ≡ reads key_of words.old) }
{
    match words.next() {
        Some(word) => read_key(alloc, word),
        None => Ok(None),
    }
}

pub fn next_value(alloc: Global, words: &mut Pieces<'_>) -> Result<Option<Value>, AllocError>
    ensures { IfOk result (λ r. option_map (λ v. ((v.kind, v.bytes), words.new)) r ≡ reads value_of words.old) }
{
    match words.next() {
        Some(word) => read_value(alloc, word),
        None => Ok(None),
    }
}

pub fn next_number(words: &mut Pieces<'_>) -> Option<u64>
    ensures { option_map (λ n. (n, words.new)) result ≡ reads number_of words.old }
{
    read_number(words.next()?)
}

pub fn next_kind(words: &mut Pieces<'_>) -> Option<KeyKind>
    ensures { option_map (λ k. (k, words.new)) result ≡ reads kind_of words.old }
{
    read_kind(words.next()?)
}

pub fn next_octal(words: &mut Pieces<'_>) -> Option<u32>
    ensures { option_map (λ n. (n, words.new)) result ≡ reads octal_of words.old }
{
    let word = words.next()?;
    let number = read_octal(word)?;
    Some(number as u32)
}

/// A user or a group, below 2^31.
pub fn next_owner(words: &mut Pieces<'_>) -> Option<i32>
    ensures { option_map (λ n. (n, words.new)) result ≡ reads owner_of words.old }
{
    match read_number(words.next()?) {
        Some(number) if number <= 2_147_483_647 => Some(number as i32),
        _ => None,
    }
}

/// The length of a piece, at most 65,536.
pub fn next_length(words: &mut Pieces<'_>) -> Option<u64>
    ensures { option_map (λ n. (n, words.new)) result ≡ reads length_of words.old }
{
    match read_number(words.next()?) {
        Some(number) if number <= 65_536 => Some(number),
        _ => None,
    }
}
