// Lists of holds on pieces of files: the last of a session, and the first in conflict.
ghost use Rattle.std.specs.Prelude.{◌≡◌, ◌<◌, ◌&&◌, OnOk, OnErr, IsSome, Some, length, slice_index_or, if◌then◌else◌, MatchOption, None, ◌==◌};
ghost use Rattle.std.specs.FinMap.{len, entries};
ghost use Rattle.std.specs.List.{remove};
ghost use Rattle.bfs_tree.specs.declared.state.Hold.{Hold};
ghost use Rattle.bfs_tree.specs.States.{is_hold_of, last_hold, without_last, learn, conflict};
ghost use Rattle.bfs_tree.specs.Refusals.{is_past};
ghost use Rattle.bfs_known.specs.Known.{known_of};

use bfs_known::learn;
use bfs_tree::Hold;
use std::alloc::AllocError;
use std::collections::BTreeMap;

/// The piece goes past the end of the file.
pub fn is_past(size: u64, at: u64, length: u64) -> bool
    ensures { result ≡ is_past size at length }
{
    at > size || length > size - at
}

fn is_hold_of(hold: &Hold, session: u32, id: u64) -> bool
    ensures { result ≡ is_hold_of session id hold.now }
{
    hold.session == session && hold.id == id
}

/// What a session wrote is known where its hold for writing ends whole.
pub fn learn_whole(
    known: &mut BTreeMap<(u64, u64), u8>,
    id: u64,
    hold: Hold,
    bytes: &[u8],
    whole: bool,
) -> Result<(), AllocError>
    ensures ok { OnOk result (known_of known.new.entries ≡ (if whole && hold.write then learn (known_of known.old.entries) id hold.at bytes.now else known_of known.old.entries)) }
    ensures err { OnErr result (known.new.entries ≡ known.old.entries) }
{
    if whole && hold.write {
        *known = learn(known, id, hold.at, bytes)?;
    }
    Ok(())
}

/// Where the session's last hold on a node stands in the list.
pub fn last_hold_at(holds: &Vec<Hold>, session: u32, id: u64) -> usize
    requires { IsSome (last_hold holds.now.items session id) }
    ensures within { result < length holds.now.items }
    ensures found { (d : Hold) → last_hold holds.now.items session id ≡ Some (slice_index_or holds.now.items result d) }
    ensures without { without_last holds.now.items session id ≡ remove holds.now.items result }
{
    let mut at = holds.len();
    while at > 0 {
        at -= 1;
        if is_hold_of(&holds[at], session, id) {
            return at;
        }
    }
    unreachable!()
}

/// The session's last hold on a node.
pub fn last_hold_of(holds: &Vec<Hold>, session: u32, id: u64) -> Option<Hold>
    ensures { result ≡ last_hold holds.now.items session id }
{
    let mut last = None;
    for hold in holds {
        if is_hold_of(hold, session, id) {
            last = Some(*hold);
        }
    }
    last
}

/// The first hold on a node that is in conflict: with a call that writes each is, and else those for writing.
pub fn conflict_at(holds: &Vec<Hold>, id: u64, writes: bool) -> Option<Hold>
    ensures { MatchOption result (conflict holds.now.items id writes ≡ None) (λ h. conflict holds.now.items id writes ≡ Some h) }
{
    for hold in holds {
        if hold.id == id && (writes || hold.write) {
            return Some(*hold);
        }
    }
    None
}
