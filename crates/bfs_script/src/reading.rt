// A script is read line by line.
ghost use Rattle.std.specs.Prelude.{◌≡◌, None, IfOk, IfErr};
ghost use Rattle.std.specs.List.{All};
ghost use Rattle.bfs_script.specs.Scripts.{script_of, bad_line, IsFaultAt};
ghost use Rattle.bfs_script.specs.Places.{lines_at, IsPlace};

use crate::lines::{end_of_line, take_line};
use crate::script::{Place, script_at};
use crate::{Script, ScriptFault};
use std::alloc::Global;

/// How many lines there are at most: one more than line feeds, and no more than a script may have.
fn most_lines(bytes: &[u8]) -> usize {
    let mut feeds = 0;
    'bytes: for at in 0..bytes.len() {
        if bytes[at] == b'\n' {
            feeds += 1;
        }
    }
    if feeds < 1_048_576 {
        feeds + 1
    } else {
        1_048_576
    }
}

/// The places of a script's lines with commands.
fn read_places(alloc: Global, bytes: &[u8]) -> Result<Vec<Place>, ScriptFault>
    ensures good { IfOk result (λ places. bad_line bytes.now ≡ None) }
    ensures lines { IfOk result (λ places. lines_at bytes.now places.items ≡ script_of bytes.now) }
    ensures places { IfOk result (λ places. All (IsPlace bytes.now) places.items) }
    ensures fault { IfErr result (IsFaultAt (bad_line bytes.now)) }
{
    let Ok(mut places) = Vec::with_capacity(alloc, most_lines(bytes)) else {
        return Err(ScriptFault::NoMemory);
    };
    let mut at = 0;
    let mut number = 1;
    while at < bytes.len() {
        let end = end_of_line(bytes, at);
        match take_line(number, bytes, at, end, &mut places) {
            Ok(()) => {}
            Err(fault) => return Err(fault),
        }
        number += 1;
        at = end + 1;
    }
    Ok(places)
}

/// The script in these bytes. Each line ends with a line feed, which the last may lack.
///
/// A line that isn't in the grammar is refused, and so is one of more than 4,096 bytes, the line behind the 1,048,576th, and
/// the one in which the script passes 268,435,456 bytes: the first such line is told.
pub fn parse_vec(alloc: Global, bytes: Vec<u8>) -> Result<Script, ScriptFault>
    ensures good { IfOk result (λ s. bad_line bytes.items ≡ None) }
    ensures script { IfOk result (λ s. s ≡ script_of bytes.items) }
    ensures fault { IfErr result (IsFaultAt (bad_line bytes.items)) }
{
    match read_places(alloc, &bytes) {
        Ok(places) => Ok(script_at(bytes, places)),
        Err(fault) => Err(fault),
    }
}

/// The script in a copy of these bytes: see [`parse_vec`].
pub fn parse(alloc: Global, bytes: &[u8]) -> Result<Script, ScriptFault>
    ensures good { IfOk result (λ s. bad_line bytes.now ≡ None) }
    ensures script { IfOk result (λ s. s ≡ script_of bytes.now) }
    ensures fault { IfErr result (IsFaultAt (bad_line bytes.now)) }
{
    match Vec::from_slice(alloc, bytes) {
        Ok(bytes) => parse_vec(alloc, bytes),
        Err(_) => Err(ScriptFault::NoMemory),
    }
}
