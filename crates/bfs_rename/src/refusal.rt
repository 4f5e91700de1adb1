// Whether a call that renames a node is refused.
ghost use Rattle.std.specs.Prelude.{◌≡◌, ◌<◌, ℕ, List, Option, Some, None, true, IfSome, IfOk, IfErr, MatchResult};
ghost use Rattle.bfs_super.specs.Conditions.{IsValid, natural};
ghost use Rattle.bfs_super.specs.Geometry.{geometry_of};
ghost use Rattle.bfs_txn.specs.Faults.{AreLater};
ghost use Rattle.bfs_tree.specs.declared.call.Call.TheVariants.{Rename};
ghost use Rattle.bfs_tree.specs.Refusals.{own_refusal};
ghost use Rattle.bfs_tree.specs.States.{State};
ghost use Rattle.bfs_tree.specs.Trees.{Tree};
ghost use Rattle.bfs_maps.specs.Refused.{IsUndone, HasReadCause};
ghost use Rattle.bfs_shift.specs.Lists.{Lists};
ghost use Rattle.bfs_look.specs.Ready.{IsReady, HasReady};
ghost use Rattle.bfs_calls.specs.Refusals.{is_own};
ghost use Rattle.bfs_rename.specs.Refused.{IsPlace};

use crate::into::into_refusal;
use bfs_bitmap::Bitmap;
use bfs_calls::damaged;
use bfs_look::lookup;
use bfs_make::blocks_in;
use bfs_remove_node::{child_in, refusal_by};
use bfs_stream_pages::MapFault;
use bfs_super::Super;
use bfs_tree::{Hold, Reply};
use bfs_txn::Edits;
use std::alloc::Global;

/// The refusal that a call has of its own which renames a node, by the holds that sessions have, or None where the node may be renamed. The
/// inodes from the new directory up to the root are read where a directory is renamed, and the names of one that it is to replace are listed.
pub fn rename_refusal<E: Edits>(
    alloc: Global,
    sup: &Super,
    bitmap: &mut Bitmap,
    edits: &mut E,
    holds: &[Hold],
    dir: u64,
    name: &[u8],
    to_dir: u64,
    to_name: &[u8],
) -> Result<Option<Reply>, MapFault>
    requires valid { IsValid sup.now }
    requires size { E.size edits.old ≡ sup.now.block_size }
    requires ready { (m : ℕ → Option (List ℕ)) → E.told edits.old ≡ Some m → HasReady (geometry_of sup.now) bitmap.old m }
    ensures refused { (m : ℕ → Option (List ℕ)) (tree : Tree) (lists : Lists) (s : State) → E.told edits.old ≡ Some m → IsReady (geometry_of sup.now) bitmap.old m tree lists → s.tree ≡ tree → s.holds ≡ holds.now → MatchResult result (λ o. o ≡ own_refusal (Rename dir name.now to_dir to_name.now) s) IsUndone }
    ensures own { IfOk result (λ o. IfSome o (λ reply. is_own reply ≡ true)) }
    ensures from { IfOk result (λ o. o ≡ None → dir < natural sup.now.num_blocks) }
    ensures place { IfOk result (λ o. o ≡ None → IsPlace (natural sup.now.num_blocks) to_dir to_name.now) }
    ensures bitmap { bitmap.new ≡ bitmap.old }
    ensures told { E.told edits.new ≡ E.told edits.old }
    ensures changed { E.changed edits.new ≡ E.changed edits.old }
    ensures size { E.size edits.new ≡ E.size edits.old }
    ensures frame { E.frame edits.new ≡ E.frame edits.old }
    ensures later { AreLater (E.counts edits.old) (E.counts edits.new) }
    ensures cause { IfErr result (HasReadCause (E.counts edits.old) (E.counts edits.new)) }
{
    let found = match lookup(alloc, sup, bitmap, edits, dir, name) {
        Ok(found) => found,
        Err(fault) => return Err(fault),
    };
    let child = match child_in(&found) {
        Some(child) => child,
        None => return Ok(Some(refusal_by(&found))),
    };
    if dir >= blocks_in(*sup) {
        return Err(damaged(dir));
    }
    match into_refusal(alloc, sup, bitmap, edits, holds, child, to_dir, to_name) {
        Ok(refusal) => Ok(refusal),
        Err(fault) => Err(fault),
    }
}
