// A command's words, one after another.
ghost use Rattle.std.specs.Prelude.{◌≡◌, IfOk};
ghost use Rattle.bfs_command.specs.declared.verbs.Verb.TheVariants as verbs;
ghost use Rattle.bfs_command.specs.Grammar.{command_of, ended};

use crate::Command;
use crate::next::{
    next_bytes, next_key, next_kind, next_length, next_name, next_node, next_number, next_octal,
    next_owner, next_path, next_value,
};
use crate::verbs::Verb;
use bfs_text::Pieces;
use std::alloc::{AllocError, Global};

/// The command, where no word is left.
fn ended(words: &mut Pieces<'_>, command: Command) -> Option<Command>
    ensures { result ≡ ended words.old command }
{
    match words.next() {
        None => Some(command),
        Some(_) => None,
    }
}

fn make(alloc: Global, words: &mut Pieces<'_>) -> Result<Option<Command>, AllocError>
    ensures { IfOk result (λ r. r ≡ command_of verbs.Make words.old) }
{
    let Some(path) = next_node(alloc, words)? else {
        return Ok(None);
    };
    Ok(ended(words, Command::Make { path }))
}

fn make_dir(alloc: Global, words: &mut Pieces<'_>) -> Result<Option<Command>, AllocError>
    ensures { IfOk result (λ r. r ≡ command_of verbs.MakeDir words.old) }
{
    let Some(path) = next_node(alloc, words)? else {
        return Ok(None);
    };
    Ok(ended(words, Command::MakeDir { path }))
}

fn make_link(alloc: Global, words: &mut Pieces<'_>) -> Result<Option<Command>, AllocError>
    ensures { IfOk result (λ r. r ≡ command_of verbs.MakeLink words.old) }
{
    let Some(path) = next_node(alloc, words)? else {
        return Ok(None);
    };
    let Some(target) = next_name(alloc, words)? else {
        return Ok(None);
    };
    Ok(ended(words, Command::MakeLink { path, target }))
}

fn remove(alloc: Global, words: &mut Pieces<'_>) -> Result<Option<Command>, AllocError>
    ensures { IfOk result (λ r. r ≡ command_of verbs.Remove words.old) }
{
    let Some(path) = next_node(alloc, words)? else {
        return Ok(None);
    };
    Ok(ended(words, Command::Remove { path }))
}

fn rename(alloc: Global, words: &mut Pieces<'_>) -> Result<Option<Command>, AllocError>
    ensures { IfOk result (λ r. r ≡ command_of verbs.Rename words.old) }
{
    let Some(path) = next_node(alloc, words)? else {
        return Ok(None);
    };
    let Some(to) = next_node(alloc, words)? else {
        return Ok(None);
    };
    Ok(ended(words, Command::Rename { path, to }))
}

fn list(alloc: Global, words: &mut Pieces<'_>) -> Result<Option<Command>, AllocError>
    ensures { IfOk result (λ r. r ≡ command_of verbs.List words.old) }
{
    let Some(path) = next_path(alloc, words)? else {
        return Ok(None);
    };
    Ok(ended(words, Command::List { path }))
}

fn stat(alloc: Global, words: &mut Pieces<'_>) -> Result<Option<Command>, AllocError>
    ensures { IfOk result (λ r. r ≡ command_of verbs.Stat words.old) }
{
    let Some(path) = next_path(alloc, words)? else {
        return Ok(None);
    };
    Ok(ended(words, Command::Stat { path }))
}

fn set_mode(alloc: Global, words: &mut Pieces<'_>) -> Result<Option<Command>, AllocError>
    ensures { IfOk result (λ r. r ≡ command_of verbs.SetMode words.old) }
{
    let Some(path) = next_path(alloc, words)? else {
        return Ok(None);
    };
    let Some(mode) = next_octal(words) else {
        return Ok(None);
    };
    let Some(uid) = next_owner(words) else {
        return Ok(None);
    };
    let Some(gid) = next_owner(words) else {
        return Ok(None);
    };
    Ok(ended(
        words,
        Command::SetMode {
            path,
            mode,
            uid,
            gid,
        },
    ))
}

fn set_size(alloc: Global, words: &mut Pieces<'_>) -> Result<Option<Command>, AllocError>
    ensures { IfOk result (λ r. r ≡ command_of verbs.SetSize words.old) }
{
    let Some(path) = next_path(alloc, words)? else {
        return Ok(None);
    };
    let Some(size) = next_number(words) else {
        return Ok(None);
    };
    Ok(ended(words, Command::SetSize { path, size }))
}

fn read_link(alloc: Global, words: &mut Pieces<'_>) -> Result<Option<Command>, AllocError>
    ensures { IfOk result (λ r. r ≡ command_of verbs.ReadLink words.old) }
{
    let Some(path) = next_path(alloc, words)? else {
        return Ok(None);
    };
    Ok(ended(words, Command::ReadLink { path }))
}

fn attr_write(alloc: Global, words: &mut Pieces<'_>) -> Result<Option<Command>, AllocError>
    ensures { IfOk result (λ r. r ≡ command_of verbs.AttrWrite words.old) }
{
    let Some(path) = next_path(alloc, words)? else {
        return Ok(None);
    };
    let Some(name) = next_name(alloc, words)? else {
        return Ok(None);
    };
    let Some(value) = next_value(alloc, words)? else {
        return Ok(None);
    };
    Ok(ended(
        words,
        Command::AttrWrite {
            path,
            name,
            kind: value.kind,
            bytes: value.bytes,
        },
    ))
}

fn attr_read(alloc: Global, words: &mut Pieces<'_>) -> Result<Option<Command>, AllocError>
    ensures { IfOk result (λ r. r ≡ command_of verbs.AttrRead words.old) }
{
    let Some(path) = next_path(alloc, words)? else {
        return Ok(None);
    };
    let Some(name) = next_name(alloc, words)? else {
        return Ok(None);
    };
    Ok(ended(words, Command::AttrRead { path, name }))
}

fn attr_remove(alloc: Global, words: &mut Pieces<'_>) -> Result<Option<Command>, AllocError>
    ensures { IfOk result (λ r. r ≡ command_of verbs.AttrRemove words.old) }
{
    let Some(path) = next_path(alloc, words)? else {
        return Ok(None);
    };
    let Some(name) = next_name(alloc, words)? else {
        return Ok(None);
    };
    Ok(ended(words, Command::AttrRemove { path, name }))
}

fn attr_list(alloc: Global, words: &mut Pieces<'_>) -> Result<Option<Command>, AllocError>
    ensures { IfOk result (λ r. r ≡ command_of verbs.AttrList words.old) }
{
    let Some(path) = next_path(alloc, words)? else {
        return Ok(None);
    };
    Ok(ended(words, Command::AttrList { path }))
}

fn write(alloc: Global, words: &mut Pieces<'_>) -> Result<Option<Command>, AllocError>
    ensures { IfOk result (λ r. r ≡ command_of verbs.Write words.old) }
{
    let Some(path) = next_path(alloc, words)? else {
        return Ok(None);
    };
    let Some(at) = next_number(words) else {
        return Ok(None);
    };
    let Some(bytes) = next_bytes(alloc, words)? else {
        return Ok(None);
    };
    Ok(ended(words, Command::Write { path, at, bytes }))
}

fn read(alloc: Global, words: &mut Pieces<'_>) -> Result<Option<Command>, AllocError>
    ensures { IfOk result (λ r. r ≡ command_of verbs.Read words.old) }
{
    let Some(path) = next_path(alloc, words)? else {
        return Ok(None);
    };
    let Some(at) = next_number(words) else {
        return Ok(None);
    };
    let Some(length) = next_length(words) else {
        return Ok(None);
    };
    Ok(ended(words, Command::Read { path, at, length }))
}

fn index_make(alloc: Global, words: &mut Pieces<'_>) -> Result<Option<Command>, AllocError>
    ensures { IfOk result (λ r. r ≡ command_of verbs.IndexMake words.old) }
{
    let Some(name) = next_name(alloc, words)? else {
        return Ok(None);
    };
    let Some(kind) = next_kind(words) else {
        return Ok(None);
    };
    Ok(ended(words, Command::IndexMake { name, kind }))
}

fn index_remove(alloc: Global, words: &mut Pieces<'_>) -> Result<Option<Command>, AllocError>
    ensures { IfOk result (λ r. r ≡ command_of verbs.IndexRemove words.old) }
{
    let Some(name) = next_name(alloc, words)? else {
        return Ok(None);
    };
    Ok(ended(words, Command::IndexRemove { name }))
}

fn index_find(alloc: Global, words: &mut Pieces<'_>) -> Result<Option<Command>, AllocError>
    ensures { IfOk result (λ r. r ≡ command_of verbs.IndexFind words.old) }
{
    let Some(name) = next_name(alloc, words)? else {
        return Ok(None);
    };
    let Some(low) = next_key(alloc, words)? else {
        return Ok(None);
    };
    let Some(high) = next_key(alloc, words)? else {
        return Ok(None);
    };
    Ok(ended(words, Command::IndexFind { name, low, high }))
}

/// The command of a verb with the words behind it.
pub fn read_command(
    alloc: Global,
    verb: Verb,
    words: &mut Pieces<'_>,
) -> Result<Option<Command>, AllocError>
    ensures { IfOk result (λ r. r ≡ command_of verb words.old) }
{
    match verb {
        Verb::Make => make(alloc, words),
        Verb::MakeDir => make_dir(alloc, words),
        Verb::MakeLink => make_link(alloc, words),
        Verb::Remove => remove(alloc, words),
        Verb::Rename => rename(alloc, words),
        Verb::List => list(alloc, words),
        Verb::Stat => stat(alloc, words),
        Verb::SetMode => set_mode(alloc, words),
        Verb::SetSize => set_size(alloc, words),
        Verb::ReadLink => read_link(alloc, words),
        Verb::AttrWrite => attr_write(alloc, words),
        Verb::AttrRead => attr_read(alloc, words),
        Verb::AttrRemove => attr_remove(alloc, words),
        Verb::AttrList => attr_list(alloc, words),
        Verb::Write => write(alloc, words),
        Verb::Read => read(alloc, words),
        Verb::IndexMake => index_make(alloc, words),
        Verb::IndexRemove => index_remove(alloc, words),
        Verb::IndexFind => index_find(alloc, words),
        Verb::IndexList => Ok(ended(words, Command::IndexList)),
        Verb::Sync => Ok(ended(words, Command::Sync)),
    }
}
