// Whether a call that holds a piece of a file is refused.
ghost use Rattle.std.specs.Prelude.{◌≡◌, ◌<◌, ◌≤◌, ℕ, List, Option, Some, None, Bool, true, IfSome, IfOk, IfErr, MatchOption, MatchResult};
ghost use Rattle.bfs_super.specs.Conditions.{IsValid, natural};
ghost use Rattle.bfs_super.specs.Geometry.{geometry_of};
ghost use Rattle.bfs_bitmap.specs.Runs.{Room};
ghost use Rattle.bfs_txn.specs.Faults.{AreLater};
ghost use Rattle.bfs_tree.specs.declared.call.Call.TheVariants as calls;
ghost use Rattle.bfs_tree.specs.Refusals.{own_refusal, is_past};
ghost use Rattle.bfs_tree.specs.States.{State, conflict};
ghost use Rattle.bfs_tree.specs.Trees.{Node, Tree, IsNode};
ghost use Rattle.bfs_maps.specs.Refused.{IsUndone, HasReadCause};
ghost use Rattle.bfs_shift.specs.Lists.{Lists};
ghost use Rattle.bfs_look.specs.Ready.{IsReady, HasReady};
ghost use Rattle.bfs_calls.specs.Refusals.{is_own};

use bfs_bitmap::Bitmap;
use bfs_look::{Site, info_at, node_at};
use bfs_stream_pages::MapFault;
use bfs_super::Super;
use bfs_tree::{Hold, Reply};
use bfs_txn::Edits;
use std::alloc::Global;

/// The largest piece that may be held, in bytes.
const LARGEST: u64 = 65536;

/// The first hold on a file that is in conflict with a new one: two holds for reading never are.
fn conflict_on(holds: &[Hold], id: u64, write: bool) -> Option<Hold>
    ensures { MatchOption result (conflict holds.now id write ≡ None) (λ h. conflict holds.now id write ≡ Some h) }
{
    for hold in holds {
        if hold.id == id && (write || hold.write) {
            return Some(*hold);
        }
    }
    None
}

/// Whether a piece goes past the end of a file of this size.
fn is_past(size: u64, at: u64, count: u64) -> bool
    ensures { result ≡ is_past size at count }
{
    at > size || count > size - at
}

/// The size of a file.
fn size_at<E: Edits>(alloc: Global, sup: &Super, edits: &mut E, id: u64) -> Result<u64, MapFault>
    requires valid { IsValid sup.now }
    requires size { E.size edits.old ≡ sup.now.block_size }
    ensures found { (v : Room) (m : ℕ → Option (List ℕ)) (tree : Tree) (lists : Lists) (n : Node) → E.told edits.old ≡ Some m → IsReady (geometry_of sup.now) v m tree lists → IsNode tree id n → MatchResult result (λ size. size ≡ n.size) IsUndone }
    ensures told { E.told edits.new ≡ E.told edits.old }
    ensures changed { E.changed edits.new ≡ E.changed edits.old }
    ensures size { E.size edits.new ≡ E.size edits.old }
    ensures frame { E.frame edits.new ≡ E.frame edits.old }
    ensures later { AreLater (E.counts edits.old) (E.counts edits.new) }
    ensures cause { IfErr result (HasReadCause (E.counts edits.old) (E.counts edits.new)) }
{
    let site = Site { alloc, sup: *sup };
    match info_at(site, edits, id) {
        Ok(info) => Ok(info.size),
        Err(fault) => Err(fault),
    }
}

/// The refusal that a call has of its own which holds a piece of a file, or None where it may be held: `count` bytes from `at` on, to be
/// written or only to be read. The holds are those that sessions have.
pub fn hold_refusal<E: Edits>(
    alloc: Global,
    sup: &Super,
    bitmap: &mut Bitmap,
    edits: &mut E,
    holds: &[Hold],
    id: u64,
    at: u64,
    count: u64,
    write: bool,
) -> Result<Option<Reply>, MapFault>
    requires valid { IsValid sup.now }
    requires size { E.size edits.old ≡ sup.now.block_size }
    requires ready { (m : ℕ → Option (List ℕ)) → E.told edits.old ≡ Some m → HasReady (geometry_of sup.now) bitmap.old m }
    ensures refused { (m : ℕ → Option (List ℕ)) (tree : Tree) (lists : Lists) (s : State) → E.told edits.old ≡ Some m → IsReady (geometry_of sup.now) bitmap.old m tree lists → s.tree ≡ tree → s.holds ≡ holds.now → MatchResult result (λ o. o ≡ own_refusal (calls.Hold id at count write) s) IsUndone }
    ensures own { IfOk result (λ o. IfSome o (λ reply. is_own reply ≡ true)) }
    ensures may { IfOk result (λ o. o ≡ None → (id < natural sup.now.num_blocks) × (count ≤ 65536)) }
    ensures bitmap { bitmap.new ≡ bitmap.old }
    ensures told { E.told edits.new ≡ E.told edits.old }
    ensures changed { E.changed edits.new ≡ E.changed edits.old }
    ensures size { E.size edits.new ≡ E.size edits.old }
    ensures frame { E.frame edits.new ≡ E.frame edits.old }
    ensures later { AreLater (E.counts edits.old) (E.counts edits.new) }
    ensures cause { IfErr result (HasReadCause (E.counts edits.old) (E.counts edits.new)) }
{
    let there = match node_at(alloc, sup, bitmap, edits, id) {
        Ok(there) => there,
        Err(fault) => return Err(fault),
    };
    let kind = match there {
        Some(kind) => kind,
        None => return Ok(Some(Reply::NotFound)),
    };
    if !kind.is_file() {
        return Ok(Some(Reply::NotFile));
    }
    if count > LARGEST {
        return Ok(Some(Reply::TooBig));
    }
    let size = match size_at(alloc, sup, edits, id) {
        Ok(size) => size,
        Err(fault) => return Err(fault),
    };
    if is_past(size, at, count) {
        return Ok(Some(Reply::PastEnd { size }));
    }
    match conflict_on(holds, id, write) {
        Some(hold) => Ok(Some(Reply::Held {
            session: hold.session,
        })),
        None => Ok(None),
    }
}
