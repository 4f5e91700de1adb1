// The bytes of files that are known, each at the id of its file and its place there.
ghost use Rattle.std.specs.Prelude.{◌≡◌, ◌↔◌, IfOk, OnOk, IsTrue};
ghost use Rattle.std.specs.FinMap.{get, insert, retain_keys};
ghost use Rattle.bfs_tree.specs.States.{AgreesWith, learn};
ghost use Rattle.bfs_known.specs.Known.{known_of, is_among, stays, fits_at};

use std::alloc::AllocError;
use std::collections::BTreeMap;

/// Places of a file: all of them, those from one on, or so many from one on.
#[derive(Clone, Copy)]
pub enum Places {
    All,
    From { place: u64 },
    Piece { at: u64, count: u64 },
}

impl Places {
    fn has(self, place: u64) -> bool
        ensures { result ≡ is_among self place }
    {
        match self {
            Places::All => true,
            Places::From { place: first } => first <= place,
            Places::Piece { at, count } => at <= place && place - at < count,
        }
    }
}

fn does_stay(id: u64, places: Places, place: (u64, u64)) -> bool
    ensures { result ≡ stays id places place }
{
    !(places.has(place.1) && place.0 == id)
}

/// These places of a file are known no more.
pub fn forget(known: &mut BTreeMap<(u64, u64), u8>, id: u64, places: Places)
    ensures { known_of known.new.entries ≡ retain_keys (known_of known.old.entries) (stays id places) }
{
    known.retain(|place, _| does_stay(id, places, *place));
}

fn put_byte(
    known: &mut BTreeMap<(u64, u64), u8>,
    place: (u64, u64),
    byte: u8,
) -> Result<(), AllocError>
    ensures { OnOk result (known_of known.new.entries ≡ insert (known_of known.old.entries) place byte) }
{
    match known.insert(place, byte) {
        Ok(_) => Ok(()),
        Err(_) => Err(AllocError),
    }
}

/// What is known, and these bytes of a file from a place on. Places end at 2^64 - 1, and what would go past
/// them finds no memory.
pub fn learn(
    known: &BTreeMap<(u64, u64), u8>,
    id: u64,
    at: u64,
    bytes: &[u8],
) -> Result<BTreeMap<(u64, u64), u8>, AllocError>
    ensures { IfOk result (λ m. known_of m.entries ≡ learn (known_of known.now.entries) id at bytes.now) }
{
    let mut all = known.clone()?;
    for (i, byte) in bytes.iter().enumerate() {
        let Some(place) = at.checked_add(i as u64) else {
            return Err(AllocError);
        };
        put_byte(&mut all, (id, place), *byte)?;
    }
    Ok(all)
}

/// The byte that is known at a place of a file.
pub fn byte_at(known: &BTreeMap<(u64, u64), u8>, id: u64, place: u64) -> Option<u8>
    ensures { result ≡ get (known_of known.now.entries) (id, place) }
{
    known.get(&(id, place)).copied()
}

/// The place lies outside these bytes of a file from a place on, or the byte there is this one.
fn fits(place: (u64, u64), byte: u8, id: u64, at: u64, bytes: &[u8]) -> bool
    ensures { result ≡ fits_at id at bytes.now (place, byte) }
{
    if place.1 >= at && place.1 - at < bytes.len() as u64 && place.0 == id {
        bytes[(place.1 - at) as usize] == byte
    } else {
        true
    }
}

/// The bytes are those that are known, wherever one is known.
pub fn agrees(known: &BTreeMap<(u64, u64), u8>, id: u64, at: u64, bytes: &[u8]) -> bool
    ensures { IsTrue result ↔ AgreesWith (known_of known.now.entries) id at bytes.now }
{
    for (place, byte) in known.iter() {
        if !fits(*place, *byte, id, at, bytes) {
            return false;
        }
    }
    true
}
