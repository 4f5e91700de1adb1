// The holds of sessions, as entries make them.
ghost use Rattle.std.specs.Prelude.{◌≡◌, ◌≤◌, ◌<◌, ◌+◌, ◌++◌, ◌∷◌, [], None, IsSome, MatchOption, length};
ghost use Rattle.std.specs.List.{remove};
ghost use Rattle.std.specs.Vec.{vec_capacity};
ghost use Rattle.bfs_tree.specs.States.{is_hold_of, last_hold, without_last};
ghost use Rattle.bfs_space.specs.Holds.{held_next, without_hold};

use bfs_tree::{Call, Entry, Hold};

/// Whether a hold is the session's, on this node.
fn is_hold_of(hold: &Hold, session: u32, id: u64) -> bool
    ensures { result ≡ is_hold_of session id hold.now }
{
    hold.session == session && hold.id == id
}

/// Where the session's last hold on a node stands, where it has one there.
fn last_place(holds: &[Hold], session: u32, id: u64) -> Option<usize>
    ensures { MatchOption result (last_hold holds.now session id ≡ None) (λ i. (i < length holds.now) × IsSome (last_hold holds.now session id) × (without_last holds.now session id ≡ remove holds.now i)) }
{
    let mut at = holds.len();
    while at > 0 {
        at -= 1;
        if is_hold_of(&holds[at], session, id) {
            return Some(at);
        }
    }
    None
}

/// Ends the session's last hold on a node, where it has one there.
fn end_hold(holds: &mut Vec<Hold>, session: u32, id: u64)
    ensures items { holds.new.items ≡ without_hold holds.old.items session id (last_hold holds.old.items session id) }
    ensures few { length holds.new.items ≤ length holds.old.items }
    ensures room { vec_capacity holds.old ≤ vec_capacity holds.new }
{
    match last_place(holds.as_slice(), session, id) {
        Some(at) => {
            let _ = holds.remove(at);
        }
        None => {}
    }
}

/// Appends a hold, for which there is room.
fn begin_hold(holds: &mut Vec<Hold>, hold: Hold)
    requires { length holds.old.items < vec_capacity holds.old }
    ensures items { holds.new.items ≡ holds.old.items ++ hold ∷ [] }
    ensures room { vec_capacity holds.old ≤ vec_capacity holds.new }
{
    match holds.push(hold) {
        Ok(()) => {}
        Err(_) => {}
    }
}

/// Makes the holds those that an entry leaves, with room for one more. Takes no memory.
pub fn note_holds(holds: &mut Vec<Hold>, entry: &Entry)
    requires { length holds.old.items < vec_capacity holds.old }
    ensures items { holds.new.items ≡ held_next holds.old.items entry.now }
    ensures few { length holds.new.items ≤ length holds.old.items + 1 }
    ensures room { vec_capacity holds.old ≤ vec_capacity holds.new }
{
    if !entry.reply.is_done() {
        return;
    }
    match &entry.call {
        Call::Hold {
            id,
            at,
            length,
            write,
        } => begin_hold(
            holds,
            Hold {
                session: entry.session,
                id: *id,
                at: *at,
                length: *length,
                write: *write,
            },
        ),
        Call::Release { id, .. } => end_hold(holds, entry.session, *id),
        _ => {}
    }
}
