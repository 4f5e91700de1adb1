// A script is read from a source to its end.
ghost use Rattle.std.specs.Prelude.{◌≡◌, ◌≤◌, ◌<◌, ℕ, List, [], true, false, Some, length, IfOk, OnOk, Err};
ghost use Rattle.bfs_base.specs.Counts.{Rose};
ghost use Rattle.bfs_run.specs.Sources.{IsReadOf, HasRead};

use bfs_ports::Source;
use std::alloc::Global;
use thiserror::Error;

/// The most bytes that a script may have.
const MOST: usize = 268_435_456;

/// How many bytes a source is asked for at once.
const PIECE: usize = 65_536;

/// Why a script isn't read.
#[derive(Clone, Copy, Debug, PartialEq, Eq, Error)]
pub enum Unread {
    #[error("the script can't be read")]
    Failed,
    #[error("no memory was found")]
    NoMemory,
}

/// Takes some more bytes, and tells whether there were any.
fn take_more<R: Source>(
    source: &mut R,
    piece: &mut [u8],
    bytes: &mut Vec<u8>,
) -> Result<bool, Unread>
    requires { 0 < length piece.old }
    ensures length { length piece.new ≡ length piece.old }
    ensures more { (first left : List ℕ) → HasRead (R.left source.old) first bytes.old.items left → IfOk result (λ more. (rest : List ℕ) × HasRead (R.left source.new) first bytes.new.items rest × (more ≡ false → rest ≡ [])) }
    ensures some { IfOk result (λ more. more ≡ true → length bytes.old.items < length bytes.new.items) }
    ensures failed { result ≡ Err Unread.Failed → Rose (R.faults source.old) (R.faults source.new) }
    ensures later { R.faults source.old ≤ R.faults source.new }
{
    let Ok(n) = source.take(piece) else {
        return Err(Unread::Failed);
    };
    match bytes.extend_from_slice(&piece[..n]) {
        Ok(()) => Ok(n > 0),
        Err(_) => Err(Unread::NoMemory),
    }
}

/// Takes bytes until a source has come to its end, or there are more than a script may have.
fn take_all<R: Source>(source: &mut R, piece: &mut [u8], bytes: &mut Vec<u8>) -> Result<(), Unread>
    requires some { 0 < length piece.old }
    requires empty { bytes.old.items ≡ [] }
    ensures read { (left : List ℕ) → R.left source.old ≡ Some left → OnOk result (IsReadOf left bytes.new.items) }
    ensures failed { result ≡ Err Unread.Failed → Rose (R.faults source.old) (R.faults source.new) }
    ensures later { R.faults source.old ≤ R.faults source.new }
{
    'pieces: while bytes.len() <= MOST {
        match take_more(source, piece, bytes) {
            Ok(true) => {}
            Ok(false) => return Ok(()),
            Err(fault) => return Err(fault),
        }
    }
    Ok(())
}

/// Reads a source to its end, or until it has more bytes than a script may have.
pub fn read_source<R: Source>(alloc: Global, source: &mut R) -> Result<Vec<u8>, Unread>
    ensures read { (left : List ℕ) → R.left source.old ≡ Some left → IfOk result (λ bytes. IsReadOf left bytes.items) }
    ensures failed { result ≡ Err Unread.Failed → Rose (R.faults source.old) (R.faults source.new) }
    ensures later { R.faults source.old ≤ R.faults source.new }
{
    let Ok(mut piece) = vec![in alloc; 0u8; PIECE] else {
        return Err(Unread::NoMemory);
    };
    let mut bytes = Vec::new(alloc);
    match take_all(source, &mut piece, &mut bytes) {
        Ok(()) => Ok(bytes),
        Err(fault) => Err(fault),
    }
}
