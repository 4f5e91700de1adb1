// Whether a call that gives a file a size is refused.
ghost use Rattle.std.specs.Prelude.{◌≡◌, ◌<◌, ◌≤◌, ℕ, List, Option, Some, None, true, IfSome, IfOk, IfErr, MatchOption, MatchResult};
ghost use Rattle.bfs_super.specs.Conditions.{IsValid, natural};
ghost use Rattle.bfs_super.specs.Geometry.{geometry_of};
ghost use Rattle.bfs_txn.specs.Faults.{AreLater};
ghost use Rattle.bfs_tree.specs.declared.call.Call.TheVariants.{SetSize};
ghost use Rattle.bfs_tree.specs.Refusals.{own_refusal};
ghost use Rattle.bfs_tree.specs.States.{State, conflict};
ghost use Rattle.bfs_tree.specs.Trees.{Tree};
ghost use Rattle.bfs_maps.specs.Refused.{IsUndone, HasReadCause};
ghost use Rattle.bfs_shift.specs.Lists.{Lists};
ghost use Rattle.bfs_look.specs.Ready.{IsReady, HasReady};
ghost use Rattle.bfs_calls.specs.Refusals.{is_own};
ghost use Rattle.bfs_set_size.specs.Sized.{MayBeSized};

use bfs_bitmap::Bitmap;
use bfs_look::node_at;
use bfs_stream_pages::MapFault;
use bfs_super::Super;
use bfs_tree::{Hold, Reply};
use bfs_txn::Edits;
use std::alloc::Global;

/// The largest size of a file, in bytes.
const LARGEST: u64 = 1073741824;

/// The first hold on a file, each of which is in conflict with a change of its size.
fn hold_on(holds: &[Hold], id: u64) -> Option<Hold>
    ensures { MatchOption result (conflict holds.now id true ≡ None) (λ h. conflict holds.now id true ≡ Some h) }
{
    for hold in holds {
        if hold.id == id {
            return Some(*hold);
        }
    }
    None
}

/// The refusal that a call has of its own which gives a file a size, or None where it may get it. The holds are those that sessions have.
pub fn set_size_refusal<E: Edits>(
    alloc: Global,
    sup: &Super,
    bitmap: &mut Bitmap,
    edits: &mut E,
    holds: &[Hold],
    id: u64,
    size: u64,
) -> Result<Option<Reply>, MapFault>
    requires valid { IsValid sup.now }
    requires size { E.size edits.old ≡ sup.now.block_size }
    requires ready { (m : ℕ → Option (List ℕ)) → E.told edits.old ≡ Some m → HasReady (geometry_of sup.now) bitmap.old m }
    ensures refused { (m : ℕ → Option (List ℕ)) (tree : Tree) (lists : Lists) (s : State) → E.told edits.old ≡ Some m → IsReady (geometry_of sup.now) bitmap.old m tree lists → s.tree ≡ tree → s.holds ≡ holds.now → MatchResult result (λ o. o ≡ own_refusal (SetSize id size) s) IsUndone }
    ensures own { IfOk result (λ o. IfSome o (λ reply. is_own reply ≡ true)) }
    ensures may { IfOk result (λ o. o ≡ None → MayBeSized (natural sup.now.num_blocks) id size) }
    ensures bitmap { bitmap.new ≡ bitmap.old }
    ensures told { E.told edits.new ≡ E.told edits.old }
    ensures changed { E.changed edits.new ≡ E.changed edits.old }
    ensures size { E.size edits.new ≡ E.size edits.old }
    ensures frame { E.frame edits.new ≡ E.frame edits.old }
    ensures later { AreLater (E.counts edits.old) (E.counts edits.new) }
    ensures cause { IfErr result (HasReadCause (E.counts edits.old) (E.counts edits.new)) }
{
    let there = match node_at(alloc, sup, bitmap, edits, id) {
        Ok(there) => there,
        Err(fault) => return Err(fault),
    };
    let kind = match there {
        Some(kind) => kind,
        None => return Ok(Some(Reply::NotFound)),
    };
    if !kind.is_file() {
        return Ok(Some(Reply::NotFile));
    }
    if size > LARGEST {
        return Ok(Some(Reply::TooBig));
    }
    match hold_on(holds, id) {
        Some(hold) => Ok(Some(Reply::Held {
            session: hold.session,
        })),
        None => Ok(None),
    }
}
