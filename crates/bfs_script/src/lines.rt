// The lines of a script, one after the other.
ghost use Rattle.std.specs.Prelude.{◌≡◌, ◌++◌, ◌∷◌, ◌≤◌, ◌<◌, ◌+◌, ◌-◌, ◌==◌, List, [], false, length, drop, IfErr, OnOk, Some, None, if◌then◌else◌};
ghost use Rattle.std.specs.List.{All};
ghost use Rattle.bfs_text.specs.Cutting.{lines_of};
ghost use Rattle.bfs_command.specs.Grammar.{said};
ghost use Rattle.bfs_command.specs.declared.line.Line.{Line};
ghost use Rattle.bfs_script.specs.Scripts.{said_on, is_bad, line_too_far, IsFaultAt};
ghost use Rattle.bfs_script.specs.Places.{between, lines_at, IsPlace, IsLineEnd, IsNumber, passes_limit};

use crate::ScriptFault;
use crate::script::Place;
use bfs_command::{LineKind, line_kind};
use memchr::memchr;
use std::alloc::AllocError;

/// The place of the first line feed from a place on, or the end of the bytes.
fn find_feed(bytes: &[u8], start: usize) -> usize
    requires { start < length bytes.now }
    ensures { IsLineEnd bytes.now start result }
{
    match memchr(b'\n', &bytes[start..]) {
        None => bytes.len(),
        Some(at) => start + at,
    }
}

/// Where the line that begins at a place ends: at its line feed, or at the end of the bytes.
pub fn end_of_line(bytes: &[u8], start: usize) -> usize
    requires { start < length bytes.now }
    ensures end { IsLineEnd bytes.now start result }
    ensures lines { lines_of (drop start bytes.now) ≡ between start result bytes.now ∷ lines_of (drop (result + 1) bytes.now) }
{
    find_feed(bytes, start)
}

/// Does the script pass 268,435,456 bytes in this line?
fn is_too_far(bytes: &[u8], number: u32, start: usize, end: usize) -> bool
    requires inside { start < length bytes.now }
    requires end { IsLineEnd bytes.now start end }
    requires number { IsNumber bytes.now start number }
    requires before { start ≤ 268435456 }
    ensures far { result ≡ (number == line_too_far bytes.now) }
    ensures near { result ≡ false → (end ≤ 268435456) × (end < length bytes.now → end < 268435456) }
{
    end >= 268_435_456 && bytes.len() > 268_435_456
}

/// Is a limit passed at this line?
fn is_over(bytes: &[u8], number: u32, start: usize, end: usize) -> bool
    requires inside { start < length bytes.now }
    requires end { IsLineEnd bytes.now start end }
    requires number { IsNumber bytes.now start number }
    requires before { start ≤ 268435456 }
    ensures over { result ≡ passes_limit (line_too_far bytes.now) number (end - start) }
    ensures near { result ≡ false → (end ≤ 268435456) × (end < length bytes.now → end < 268435456) }
{
    is_too_far(bytes, number, start, end) || number > 1_048_576 || end - start > 4_096
}

/// Puts a place behind the others.
fn push_place(
    places: &mut Vec<Place>,
    number: u32,
    start: usize,
    end: usize,
) -> Result<(), AllocError>
    requires ordered { start ≤ end }
    requires near { end ≤ 268435456 }
    ensures { OnOk result (places.new.items ≡ places.old.items ++ record { number = number; start = start; end = end } ∷ []) }
{
    places.push(Place {
        number,
        start: start as u32,
        end: end as u32,
    })?;
    Ok(())
}

/// Puts the place of a line behind those of the lines before it, where it has a command.
pub fn take_line(
    number: u32,
    bytes: &[u8],
    start: usize,
    end: usize,
    places: &mut Vec<Place>,
) -> Result<(), ScriptFault>
    requires inside { start < length bytes.now }
    requires end { IsLineEnd bytes.now start end }
    requires number { IsNumber bytes.now start number }
    requires before { start ≤ 268435456 }
    ensures good { OnOk result (is_bad (line_too_far bytes.now) number (between start end bytes.now) ≡ false) }
    ensures said { OnOk result ((more : List Line) → lines_at bytes.now places.old.items ++ said_on number (said (between start end bytes.now)) more ≡ lines_at bytes.now places.new.items ++ more) }
    ensures near { OnOk result (end < length bytes.now → end < 268435456) }
    ensures places { OnOk result (All (IsPlace bytes.now) places.old.items → All (IsPlace bytes.now) places.new.items) }
    ensures fault { IfErr result (IsFaultAt (if is_bad (line_too_far bytes.now) number (between start end bytes.now) then Some number else None)) }
{
    if is_over(bytes, number, start, end) {
        return Err(ScriptFault::Line { number });
    }
    match line_kind(&bytes[start..end]) {
        LineKind::Blank => Ok(()),
        LineKind::Bad => Err(ScriptFault::Line { number }),
        LineKind::Command => match push_place(places, number, start, end) {
            Ok(()) => Ok(()),
            Err(_) => Err(ScriptFault::NoMemory),
        },
    }
}
