// How many blocks a call may change that holds a piece of a file to be written.
ghost use Rattle.std.specs.Prelude.{◌≡◌, ◌≤◌, ◌+◌, ◌*◌, ℕ, List, Option, Some, true, is_some, IfOk, IfErr, MatchResult, if◌then◌else◌};
ghost use Rattle.bfs_super.specs.Conditions.{IsValid};
ghost use Rattle.bfs_super.specs.Geometry.{geometry_of};
ghost use Rattle.bfs_txn.specs.Faults.{AreLater};
ghost use Rattle.bfs_tree.specs.declared.call.Call.TheVariants.{Hold};
ghost use Rattle.bfs_tree.specs.Trees.{Tree};
ghost use Rattle.bfs_maps.specs.Refused.{IsUndone};
ghost use Rattle.bfs_sound.specs.Need.{logged_need, need};
ghost use Rattle.bfs_shift.specs.Lists.{Lists};
ghost use Rattle.bfs_shift.specs.Shifts.{volume_in};
ghost use Rattle.bfs_look.specs.Ready.{IsReady, HasReady};
ghost use Rattle.bfs_calls.specs.Allowances.{allowance};
ghost use Rattle.bfs_calls.specs.Done.{HasAnswerCause};

use bfs_bitmap::Bitmap;
use bfs_calls::built_in_indices;
use bfs_stream_pages::MapFault;
use bfs_super::Super;
use bfs_txn::Edits;
use std::alloc::Global;

/// How many blocks are allowed where there is such an index of stamps, or none.
fn counted(index: Option<u64>) -> u64
    ensures value { result ≡ 28 * (if is_some index then 2 else 0) + 8 }
    ensures few { result ≤ 64 }
{
    let rows = if index.is_some() { 2 } else { 0 };
    28 * rows + 8
}

/// How many blocks a call may change at most that holds a piece of a file to be written, and how many may be taken. They are at most what the
/// format's bounds on a call's blocks say, since each tree counts as one of a single level; which file it is, and which piece, is all the same.
pub fn hold_allowance<E: Edits>(
    alloc: Global,
    sup: &Super,
    bitmap: &mut Bitmap,
    edits: &mut E,
) -> Result<u64, MapFault>
    requires valid { IsValid sup.now }
    requires size { E.size edits.old ≡ sup.now.block_size }
    requires ready { (m : ℕ → Option (List ℕ)) → E.told edits.old ≡ Some m → HasReady (geometry_of sup.now) bitmap.old m }
    ensures allowed { (m : ℕ → Option (List ℕ)) (tree : Tree) (lists : Lists) (id at count : ℕ) → E.told edits.old ≡ Some m → IsReady (geometry_of sup.now) bitmap.old m tree lists → MatchResult result (λ n. n ≡ allowance (volume_in (geometry_of sup.now) m) tree (Hold id at count true)) IsUndone }
    ensures within { (m : ℕ → Option (List ℕ)) (tree : Tree) (lists : Lists) (id at count : ℕ) → E.told edits.old ≡ Some m → IsReady (geometry_of sup.now) bitmap.old m tree lists → IfOk result (λ n. (n ≤ logged_need (volume_in (geometry_of sup.now) m) tree (Hold id at count true)) × (n ≤ need (volume_in (geometry_of sup.now) m) tree (Hold id at count true))) }
    ensures few { IfOk result (λ n. n ≤ 64) }
    ensures bitmap { bitmap.new ≡ bitmap.old }
    ensures told { E.told edits.new ≡ E.told edits.old }
    ensures changed { E.changed edits.new ≡ E.changed edits.old }
    ensures size { E.size edits.new ≡ E.size edits.old }
    ensures frame { E.frame edits.new ≡ E.frame edits.old }
    ensures later { AreLater (E.counts edits.old) (E.counts edits.new) }
    ensures cause { IfErr result (HasAnswerCause (E.counts edits.old) (E.counts edits.new)) }
{
    match built_in_indices(alloc, sup, bitmap, edits) {
        Ok(indices) => Ok(counted(indices.last_modified)),
        Err(fault) => Err(fault),
    }
}
