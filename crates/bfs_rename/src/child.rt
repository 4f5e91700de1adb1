// The node that a renamed one replaces.
ghost use Rattle.std.specs.Prelude.{◌≡◌, ◌<◌, ℕ, List, Option, Some, IfSome, IfOk, IfErr, MatchResult};
ghost use Rattle.bfs_super.specs.Conditions.{IsValid, natural};
ghost use Rattle.bfs_super.specs.Geometry.{geometry_of};
ghost use Rattle.bfs_txn.specs.Faults.{AreLater};
ghost use Rattle.bfs_tree.specs.Refusals.{replaced};
ghost use Rattle.bfs_tree.specs.Trees.{Node, Tree, IsNode, child};
ghost use Rattle.bfs_tree.specs.declared.call.Kind.TheVariants.{Dir};
ghost use Rattle.bfs_maps.specs.Refused.{IsUndone, HasReadCause};
ghost use Rattle.bfs_shift.specs.Lists.{Lists};
ghost use Rattle.bfs_look.specs.Ready.{IsReady, HasReady};
ghost use Rattle.bfs_rename.specs.Counted.{AreOf};

use bfs_bitmap::Bitmap;
use bfs_calls::damaged;
use bfs_look::lookup;
use bfs_make::blocks_in;
use bfs_remove_node::{Child, child_in};
use bfs_stream_pages::MapFault;
use bfs_super::Super;
use bfs_txn::Edits;
use std::alloc::Global;

/// The node that has a name in a directory of the tree, and that a node of this id replaces: it is none itself.
pub(crate) fn other_at<E: Edits>(
    alloc: Global,
    sup: &Super,
    bitmap: &mut Bitmap,
    edits: &mut E,
    id: u64,
    to_dir: u64,
    to_name: &[u8],
) -> Result<Option<Child>, MapFault>
    requires valid { IsValid sup.now }
    requires size { E.size edits.old ≡ sup.now.block_size }
    requires ready { (m : ℕ → Option (List ℕ)) → E.told edits.old ≡ Some m → HasReady (geometry_of sup.now) bitmap.old m }
    ensures found { (m : ℕ → Option (List ℕ)) (tree : Tree) (lists : Lists) (t : Node) → E.told edits.old ≡ Some m → IsReady (geometry_of sup.now) bitmap.old m tree lists → IsNode tree to_dir t → t.kind ≡ Dir → MatchResult result (AreOf (replaced id (child tree to_dir to_name.now))) IsUndone }
    ensures inside { IfOk result (λ o. IfSome o (λ c. c.id < natural sup.now.num_blocks)) }
    ensures bitmap { bitmap.new ≡ bitmap.old }
    ensures told { E.told edits.new ≡ E.told edits.old }
    ensures changed { E.changed edits.new ≡ E.changed edits.old }
    ensures size { E.size edits.new ≡ E.size edits.old }
    ensures frame { E.frame edits.new ≡ E.frame edits.old }
    ensures later { AreLater (E.counts edits.old) (E.counts edits.new) }
    ensures cause { IfErr result (HasReadCause (E.counts edits.old) (E.counts edits.new)) }
{
    let found = match lookup(alloc, sup, bitmap, edits, to_dir, to_name) {
        Ok(found) => found,
        Err(fault) => return Err(fault),
    };
    let other = match child_in(&found) {
        Some(other) => other,
        None => return Ok(None),
    };
    if other.id >= blocks_in(*sup) {
        return Err(damaged(to_dir));
    }
    if other.id == id {
        return Ok(None);
    }
    Ok(Some(other))
}
