// A script as its bytes and the places of its lines.
ghost use Rattle.std.specs.Prelude.{◌≡◌, ◌<◌, ◌==◌, ◌∷◌, [], Some, IfOk, length};
ghost use Rattle.std.specs.List.{All, slice_get};
ghost use Rattle.bfs_script.specs.Places.{line_at, lines_at, IsPlace};

use bfs_command::{Line, Spoken, read_spoken};
use std::alloc::{AllocError, Global};
use std::marker::Model;

/// Where a line with a command stands, and its number.
#[derive(Clone, Copy, Debug)]
pub struct Place {
    pub number: u32,
    pub start: u32,
    pub end: u32,
}

/// The lines with commands, in their order. Empty lines and comments are left out. It keeps the bytes that it was read from,
/// and twelve bytes for each line; a line's words are read when it is asked for.
#[derive(Debug, Drop)]
pub struct Script {
    bytes: Vec<u8>,
    places: Vec<Place>,
}

impl Model for Script {
    ghost use Rattle.std.specs.Prelude.{List};
    ghost use Rattle.std.specs.List.{All};
    ghost use Rattle.bfs_command.specs.declared.line.Line.{Line};
    ghost use Rattle.bfs_script.specs.Places.{lines_at, IsPlace};

    ghost Value = { List Line };

    ghost view = { λ s. lines_at s.bytes.items s.places.items };

    ghost invariant = { λ s. All (IsPlace s.bytes.items) s.places.items };
}

/// The script of these bytes, whose lines with commands stand at these places.
pub fn script_at(bytes: Vec<u8>, places: Vec<Place>) -> Script
    requires { All (IsPlace bytes.items) places.items }
    ensures { result ≡ lines_at bytes.items places.items }
{
    Script { bytes, places }
}

/// Reads the line at a place.
fn read_at(alloc: Global, bytes: &[u8], place: Place) -> Result<Line, AllocError>
    requires { IsPlace bytes.now place }
    ensures { IfOk result (λ line. line_at bytes.now place ≡ line ∷ []) }
{
    let Place { number, start, end } = place;
    match read_spoken(alloc, &bytes[start as usize..end as usize])? {
        Some(Spoken { session, command }) => Ok(Line {
            number,
            session,
            command,
        }),
        None => unreachable!(),
    }
}

impl Script {
    /// How many lines there are.
    pub fn len(&self) -> usize
        ensures { result ≡ length self.now }
    {
        self.places.len()
    }

    /// Are there no lines?
    pub fn is_empty(&self) -> bool
        ensures { result ≡ (length self.now == 0) }
    {
        self.len() == 0
    }

    /// Reads the line at a place in the list.
    pub fn line(&self, alloc: Global, at: usize) -> Result<Line, AllocError>
        requires { at < length self.now }
        ensures { IfOk result (λ line. slice_get self.now at ≡ Some line) }
    {
        let place = self.places[at];
        match read_at(alloc, &self.bytes, place) {
            Ok(line) => Ok(line),
            Err(fault) => Err(fault),
        }
    }
}
