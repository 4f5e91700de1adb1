// An attribute is removed.
ghost use Rattle.std.specs.Prelude.{◌≡◌, ℕ, List, Option, Some, OnOk, IfErr};
ghost use Rattle.bfs_super.specs.Conditions.{IsValid};
ghost use Rattle.bfs_super.specs.Geometry.{geometry_of};
ghost use Rattle.bfs_bitmap.specs.Runs.{as_kept};
ghost use Rattle.bfs_txn.specs.Faults.{AreLater};
ghost use Rattle.bfs_txn.specs.Told.{StaysChanged};
ghost use Rattle.bfs_stream.specs.Grown.{IsOfVolume};
ghost use Rattle.bfs_stream.specs.Sizes.{sizes_of};
ghost use Rattle.bfs_stream.specs.Standing.{standing};
ghost use Rattle.bfs_tree.specs.Trees.{Tree};
ghost use Rattle.bfs_maps.specs.Refused.{IsUndone};
ghost use Rattle.bfs_shift.specs.Lists.{Lists};
ghost use Rattle.bfs_look.specs.Ready.{IsReady, HasReady};
ghost use Rattle.bfs_unmake.specs.Done.{HasAnswerCause};
ghost use Rattle.bfs_attr_calls.specs.Removed.{HasAttributeAt, IsAttributeRemoved};

use crate::stamping::put_changed;
use crate::taking::take_attribute;
use crate::unlisting::unlist_attribute;
use bfs_bitmap::Bitmap;
use bfs_stream_pages::MapFault;
use bfs_super::Super;
use bfs_txn::Edits;
use bfs_unmake::calls::blocked;
use std::alloc::Global;

/// Removes an attribute that a node has, where the call has no refusal of its own: the index of its name lists the node under it no more, the
/// attribute's blocks are given back, and the node gets the stamp of the call as that of the last change of its status. After a fault the
/// call is to be dropped.
pub fn remove_attr<E: Edits>(
    alloc: Global,
    sup: &Super,
    bitmap: &mut Bitmap,
    edits: &mut E,
    id: u64,
    name: &[u8],
    stamp: i64,
) -> Result<(), MapFault>
    requires valid { IsValid sup.now }
    requires size { E.size edits.old ≡ sup.now.block_size }
    requires volume { IsOfVolume (sizes_of sup.now) bitmap.old }
    requires ready { (m : ℕ → Option (List ℕ)) → E.told edits.old ≡ Some m → HasReady (geometry_of sup.now) bitmap.old m }
    requires there { (m : ℕ → Option (List ℕ)) (tree : Tree) (lists : Lists) → E.told edits.old ≡ Some m → IsReady (geometry_of sup.now) bitmap.old m tree lists → HasAttributeAt tree id name.now }
    ensures removed { (m : ℕ → Option (List ℕ)) (tree : Tree) (lists : Lists) → E.told edits.old ≡ Some m → IsReady (geometry_of sup.now) bitmap.old m tree lists → OnOk result (IsAttributeRemoved (geometry_of sup.now) bitmap.old bitmap.new m tree id name.now stamp (E.told edits.new) (E.changed edits.old) (E.changed edits.new)) }
    ensures undone { (m : ℕ → Option (List ℕ)) (tree : Tree) (lists : Lists) → E.told edits.old ≡ Some m → IsReady (geometry_of sup.now) bitmap.old m tree lists → IfErr result IsUndone }
    ensures cause { IfErr result (HasAnswerCause (E.counts edits.old) (E.counts edits.new)) }
    ensures rest { bitmap.new ≡ record bitmap.old { given = bitmap.new.given; tally = bitmap.new.tally } }
    ensures kept { as_kept bitmap.new ≡ as_kept bitmap.old }
    ensures standing { standing bitmap.new ≡ standing bitmap.old }
    ensures stays { StaysChanged (E.changed edits.old) (E.changed edits.new) }
    ensures size { E.size edits.new ≡ E.size edits.old }
    ensures frame { E.frame edits.new ≡ E.frame edits.old }
    ensures later { AreLater (E.counts edits.old) (E.counts edits.new) }
{
    match unlist_attribute(alloc, sup, bitmap, edits, id, name) {
        Ok(()) => {}
        Err(fault) => return Err(fault),
    }
    match take_attribute(alloc, sup, bitmap, edits, id, name) {
        Ok(()) => {}
        Err(fault) => return Err(fault),
    }
    match put_changed(alloc, sup, edits, id, stamp) {
        Ok(()) => Ok(()),
        Err(fault) => Err(blocked(fault)),
    }
}
