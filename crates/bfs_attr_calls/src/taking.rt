// An attribute of a node is taken, and its blocks are given back.
ghost use Rattle.std.specs.Prelude.{◌≡◌, ℕ, List, Option, Some, IsSome, OnOk, IfErr};
ghost use Rattle.std.specs.FinMap.{get, remove};
ghost use Rattle.bfs_super.specs.Conditions.{IsValid};
ghost use Rattle.bfs_super.specs.Geometry.{geometry_of};
ghost use Rattle.bfs_bitmap.specs.Runs.{as_kept};
ghost use Rattle.bfs_txn.specs.Faults.{AreLater};
ghost use Rattle.bfs_txn.specs.Told.{StaysChanged};
ghost use Rattle.bfs_stream.specs.Grown.{IsOfVolume};
ghost use Rattle.bfs_stream.specs.Sizes.{sizes_of};
ghost use Rattle.bfs_stream.specs.Standing.{standing};
ghost use Rattle.bfs_tree.specs.Trees.{Node, Tree, IsNode};
ghost use Rattle.bfs_maps.specs.Refused.{IsUndone};
ghost use Rattle.bfs_shift.specs.Lists.{Lists};
ghost use Rattle.bfs_shift.specs.Work.{IsAtWork};
ghost use Rattle.bfs_unmake.specs.Leaving.{IsClear, IsLeft};
ghost use Rattle.bfs_unmake.specs.Done.{HasAnswerCause};
ghost use Rattle.bfs_attr_calls.specs.Attributed.{with_attributes};
ghost use Rattle.bfs_attr_calls.specs.Removed.{HasBearerAt};

use bfs_attrs::take;
use bfs_bitmap::Bitmap;
use bfs_make::Site;
use bfs_query::moves::check_inode;
use bfs_stream_pages::MapFault;
use bfs_super::Super;
use bfs_txn::Edits;
use bfs_unmake::calls::not_taken;
use std::alloc::Global;

/// Takes an attribute that a node has, from its small data or with the attribute's inode; the last one that isn't in small data goes with
/// the attribute directory. The inode is read before and after. An index that lists the node under it does so still.
pub(crate) fn take_attribute<E: Edits>(
    alloc: Global,
    sup: &Super,
    bitmap: &mut Bitmap,
    edits: &mut E,
    id: u64,
    name: &[u8],
) -> Result<(), MapFault>
    requires valid { IsValid sup.now }
    requires size { E.size edits.old ≡ sup.now.block_size }
    requires volume { IsOfVolume (sizes_of sup.now) bitmap.old }
    requires bearer { (m : ℕ → Option (List ℕ)) → E.told edits.old ≡ Some m → HasBearerAt (geometry_of sup.now) bitmap.old m id }
    ensures left { (m : ℕ → Option (List ℕ)) (tree : Tree) (lists : Lists) (loose : List ℕ) (n : Node) → E.told edits.old ≡ Some m → IsAtWork (geometry_of sup.now) bitmap.old m tree lists loose → IsClear (geometry_of sup.now) bitmap.old m → IsNode tree id n → OnOk result (IsLeft (geometry_of sup.now) bitmap.old bitmap.new m tree (with_attributes tree id n (remove n.attributes name.now)) lists loose (E.told edits.new) (E.changed edits.old) (E.changed edits.new)) }
    ensures undone { (m : ℕ → Option (List ℕ)) (tree : Tree) (lists : Lists) (loose : List ℕ) (n : Node) → E.told edits.old ≡ Some m → IsAtWork (geometry_of sup.now) bitmap.old m tree lists loose → IsNode tree id n → IsSome (get n.attributes name.now) → IfErr result IsUndone }
    ensures cause { IfErr result (HasAnswerCause (E.counts edits.old) (E.counts edits.new)) }
    ensures rest { bitmap.new ≡ record bitmap.old { given = bitmap.new.given; tally = bitmap.new.tally } }
    ensures kept { as_kept bitmap.new ≡ as_kept bitmap.old }
    ensures standing { standing bitmap.new ≡ standing bitmap.old }
    ensures stays { StaysChanged (E.changed edits.old) (E.changed edits.new) }
    ensures size { E.size edits.new ≡ E.size edits.old }
    ensures frame { E.frame edits.new ≡ E.frame edits.old }
    ensures later { AreLater (E.counts edits.old) (E.counts edits.new) }
{
    match check_inode(alloc, sup, edits, id) {
        Ok(()) => {}
        Err(fault) => return Err(fault),
    }
    let site = Site { alloc, sup: *sup };
    match take(site, bitmap, edits, id, name) {
        Ok(()) => {}
        Err(fault) => return Err(not_taken(fault, id)),
    }
    match check_inode(alloc, sup, edits, id) {
        Ok(()) => Ok(()),
        Err(fault) => Err(fault),
    }
}
