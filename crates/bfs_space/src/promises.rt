// The entry of a hold, and the promise that a hold which was taken gives its session: room for the entry of its release.
ghost use Rattle.std.specs.Prelude.{◌≡◌, ◌≤◌, ◌<◌, ◌+◌, ◌^◌, ◌++◌, ◌∷◌, [], List, ℕ, IsTrue, IsFalse, OnOk, length};
ghost use Rattle.std.specs.Vec.{vec_capacity};
ghost use Rattle.bfs_space.specs.Faces.{promised_after};
ghost use Rattle.bfs_space.specs.Holds.{held_next};

use crate::holds::note_holds;
use crate::space::append;
use bfs_tree::{Call, Entry, Hold, Reply};
use std::alloc::AllocError;

/// Takes room for one entry, one promise and one hold more, where so many entries and promises may be.
pub fn make_room(
    history: &mut Vec<Entry>,
    promised: &mut Vec<u32>,
    holds: &mut Vec<Hold>,
) -> Result<(), AllocError>
    requires few { length history.old.items + length promised.old.items + 1 < 2 ^ 60 }
    ensures history { history.new.items ≡ history.old.items }
    ensures promised { promised.new.items ≡ promised.old.items }
    ensures holds { holds.new.items ≡ holds.old.items }
    ensures entries { OnOk result (length history.old.items + length promised.old.items + 2 ≤ vec_capacity history.new) }
    ensures promise { OnOk result (length promised.old.items < vec_capacity promised.new) }
    ensures hold { OnOk result (length holds.old.items + length promised.old.items + 2 ≤ vec_capacity holds.new) }
    ensures no_less { vec_capacity history.old ≤ vec_capacity history.new }
    ensures no_fewer { vec_capacity holds.old ≤ vec_capacity holds.new }
{
    let more = promised.len() + 2;
    match history.reserve(more) {
        Ok(()) => {}
        Err(fault) => return Err(fault),
    }
    match holds.reserve(more) {
        Ok(()) => {}
        Err(fault) => return Err(fault),
    }
    promised.reserve(1)
}

/// Whether a hold was taken by an entry.
fn is_taken(entry: &Entry) -> bool
    ensures taken { (promised : List ℕ) → IsTrue result → promised_after entry.now.session entry.now.call entry.now.reply promised ≡ promised ++ entry.now.session ∷ [] }
    ensures other { (promised : List ℕ) → IsFalse result → promised_after entry.now.session entry.now.call entry.now.reply promised ≡ promised }
{
    match &entry.call {
        Call::Hold { .. } => match &entry.reply {
            Reply::Done => true,
            _ => false,
        },
        _ => false,
    }
}

/// Appends a promise, for which there is room.
fn add_promise(promised: &mut Vec<u32>, session: u32)
    requires { length promised.old.items < vec_capacity promised.old }
    ensures items { promised.new.items ≡ promised.old.items ++ session ∷ [] }
{
    match promised.push(session) {
        Ok(()) => {}
        Err(_) => {}
    }
}

/// Promises the session of an entry one more, where a hold was taken, for which there is room.
fn promise_release(promised: &mut Vec<u32>, entry: &Entry)
    requires { length promised.old.items < vec_capacity promised.old }
    ensures items { promised.new.items ≡ promised_after entry.now.session entry.now.call entry.now.reply promised.old.items }
    ensures few { length promised.new.items ≤ length promised.old.items + 1 }
{
    if is_taken(entry) {
        add_promise(promised, entry.session);
    }
}

/// Appends an entry, for which there is room, and what it leaves of holds and promises.
pub fn take_entry(
    history: &mut Vec<Entry>,
    promised: &mut Vec<u32>,
    holds: &mut Vec<Hold>,
    entry: Entry,
)
    requires entries { length history.old.items < vec_capacity history.old }
    requires promise { length promised.old.items < vec_capacity promised.old }
    requires hold { length holds.old.items < vec_capacity holds.old }
    ensures history { history.new.items ≡ history.old.items ++ entry ∷ [] }
    ensures promised { promised.new.items ≡ promised_after entry.session entry.call entry.reply promised.old.items }
    ensures holds { holds.new.items ≡ held_next holds.old.items entry }
    ensures few { length promised.new.items ≤ length promised.old.items + 1 }
    ensures fewer { length holds.new.items ≤ length holds.old.items + 1 }
    ensures entry_room { vec_capacity history.old ≤ vec_capacity history.new }
    ensures hold_room { vec_capacity holds.old ≤ vec_capacity holds.new }
{
    note_holds(holds, &entry);
    promise_release(promised, &entry);
    append(history, entry);
}
