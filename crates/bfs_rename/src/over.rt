// Whether a node that another one is to replace keeps it from coming.
ghost use Rattle.std.specs.Prelude.{◌≡◌, ℕ, List, Option, Some, true, IfSome, IfOk, IfErr, MatchResult};
ghost use Rattle.bfs_super.specs.Conditions.{IsValid};
ghost use Rattle.bfs_super.specs.Geometry.{geometry_of};
ghost use Rattle.bfs_txn.specs.Faults.{AreLater};
ghost use Rattle.bfs_tree.specs.Refusals.{first, is_one_dir};
ghost use Rattle.bfs_tree.specs.States.{State};
ghost use Rattle.bfs_tree.specs.Trees.{Node, Tree, IsNode};
ghost use Rattle.bfs_tree.specs.declared.call.Kind.TheVariants.{Dir};
ghost use Rattle.bfs_maps.specs.Refused.{IsUndone, HasReadCause};
ghost use Rattle.bfs_shift.specs.Lists.{Lists};
ghost use Rattle.bfs_look.specs.Ready.{IsReady, HasReady};
ghost use Rattle.bfs_calls.specs.Refusals.{is_own};
ghost use Rattle.bfs_rename.specs.Refused.{over_refusals};

use bfs_bitmap::Bitmap;
use bfs_look::lookup;
use bfs_remove_node::{Child, child_in, held_by, is_full};
use bfs_stream_pages::MapFault;
use bfs_super::Super;
use bfs_tree::{Hold, Kind, Reply};
use bfs_txn::Edits;
use std::alloc::Global;

/// Is just one of two nodes a directory?
fn is_one_dir(first: Kind, second: Kind) -> bool
    ensures { result ≡ is_one_dir first second }
{
    if first.is_dir() {
        !second.is_dir()
    } else {
        second.is_dir()
    }
}

/// The refusal of a call that gives a node a name in a directory, by the node that has the name there. Where it is a directory, its names
/// are listed.
pub(crate) fn over_refusal<E: Edits>(
    alloc: Global,
    sup: &Super,
    bitmap: &mut Bitmap,
    edits: &mut E,
    holds: &[Hold],
    child: Child,
    to_dir: u64,
    to_name: &[u8],
) -> Result<Option<Reply>, MapFault>
    requires valid { IsValid sup.now }
    requires size { E.size edits.old ≡ sup.now.block_size }
    requires ready { (m : ℕ → Option (List ℕ)) → E.told edits.old ≡ Some m → HasReady (geometry_of sup.now) bitmap.old m }
    ensures refused { (m : ℕ → Option (List ℕ)) (tree : Tree) (lists : Lists) (s : State) (t : Node) → E.told edits.old ≡ Some m → IsReady (geometry_of sup.now) bitmap.old m tree lists → s.tree ≡ tree → s.holds ≡ holds.now → IsNode tree to_dir t → t.kind ≡ Dir → MatchResult result (λ o. o ≡ first (over_refusals s child.id child.kind to_dir to_name.now)) IsUndone }
    ensures own { IfOk result (λ o. IfSome o (λ reply. is_own reply ≡ true)) }
    ensures bitmap { bitmap.new ≡ bitmap.old }
    ensures told { E.told edits.new ≡ E.told edits.old }
    ensures changed { E.changed edits.new ≡ E.changed edits.old }
    ensures size { E.size edits.new ≡ E.size edits.old }
    ensures frame { E.frame edits.new ≡ E.frame edits.old }
    ensures later { AreLater (E.counts edits.old) (E.counts edits.new) }
    ensures cause { IfErr result (HasReadCause (E.counts edits.old) (E.counts edits.new)) }
{
    let found = match lookup(alloc, sup, bitmap, edits, to_dir, to_name) {
        Ok(found) => found,
        Err(fault) => return Err(fault),
    };
    let other = match child_in(&found) {
        Some(other) => other,
        None => return Ok(None),
    };
    if other.id == child.id {
        return Ok(None);
    }
    if is_one_dir(child.kind, other.kind) {
        return Ok(Some(Reply::Exists));
    }
    let full = match is_full(alloc, sup, bitmap, edits, other) {
        Ok(full) => full,
        Err(fault) => return Err(fault),
    };
    if full {
        return Ok(Some(Reply::NotEmpty));
    }
    Ok(held_by(holds, other.id))
}
