// What a line of a script says.
ghost use Rattle.std.specs.Prelude.{◌≡◌, IfOk};
ghost use Rattle.std.specs.Option.{option_map, is_some};
ghost use Rattle.bfs_text.specs.Cutting.{words_of};
ghost use Rattle.bfs_command.specs.Grammar.{spoken, said, line_kind};

use crate::Command;
use crate::commands::read_command;
use crate::shapes::is_command;
use crate::verbs::read_verb;
use bfs_text::{Pieces, read_session};
use std::alloc::{AllocError, Global};

/// A session's command.
#[derive(Drop)]
pub struct Spoken {
    pub session: u32,
    pub command: Command,
}

/// Whether a line says nothing, a command, or something that isn't in the grammar.
#[derive(Clone, Copy, Debug, PartialEq, Eq)]
pub enum LineKind {
    Blank,
    Command,
    Bad,
}

/// Reads the words of a line that isn't empty and no comment.
pub fn read_spoken(alloc: Global, line: &[u8]) -> Result<Option<Spoken>, AllocError>
    ensures { IfOk result (λ r. option_map (λ s. (s.session, s.command)) r ≡ spoken (words_of line.now)) }
{
    let mut words = Pieces::of(line, b' ');
    let Some(word) = words.next() else {
        return Ok(None);
    };
    let Some(session) = read_session(word) else {
        return Ok(None);
    };
    let Some(word) = words.next() else {
        return Ok(None);
    };
    let Some(verb) = read_verb(word) else {
        return Ok(None);
    };
    match read_command(alloc, verb, &mut words)? {
        Some(command) => Ok(Some(Spoken { session, command })),
        None => Ok(None),
    }
}

/// Are the words of a line a session's command?
fn is_spoken(line: &[u8]) -> bool
    ensures { result ≡ is_some (spoken (words_of line.now)) }
{
    let mut words = Pieces::of(line, b' ');
    let Some(word) = words.next() else {
        return false;
    };
    let Some(_) = read_session(word) else {
        return false;
    };
    let Some(word) = words.next() else {
        return false;
    };
    let Some(verb) = read_verb(word) else {
        return false;
    };
    is_command(verb, &mut words)
}

/// What kind of line this is.
pub fn line_kind(line: &[u8]) -> LineKind
    ensures { result ≡ line_kind (said line.now) }
{
    if let [] | [b'#', ..] = line {
        return LineKind::Blank;
    }
    if is_spoken(line) {
        LineKind::Command
    } else {
        LineKind::Bad
    }
}
