// An attribute of a node is put, in the place of the one of its name.
ghost use Rattle.std.specs.Prelude.{◌≡◌, ◌<◌, ℕ, List, Option, Some, false, max, length, OnOk, IfErr};
ghost use Rattle.std.specs.FinMap.{insert};
ghost use Rattle.bfs_super.specs.Conditions.{IsValid, ceil, natural};
ghost use Rattle.bfs_super.specs.Geometry.{geometry_of};
ghost use Rattle.bfs_bitmap.specs.Runs.{as_kept};
ghost use Rattle.bfs_txn.specs.Faults.{AreLater};
ghost use Rattle.bfs_txn.specs.Told.{StaysChanged};
ghost use Rattle.bfs_stream.specs.Grown.{IsOfVolume};
ghost use Rattle.bfs_stream.specs.Sizes.{sizes_of};
ghost use Rattle.bfs_stream.specs.Standing.{standing};
ghost use Rattle.bfs_tree.specs.Names.{is_bad_attribute_name};
ghost use Rattle.bfs_tree.specs.Trees.{Node, Tree, IsNode};
ghost use Rattle.bfs_shift.specs.Lists.{Lists};
ghost use Rattle.bfs_shift.specs.Work.{IsAtWork};
ghost use Rattle.bfs_attr_calls.specs.LeaveLeaving.{IsClear, IsLeft};
ghost use Rattle.bfs_attr_calls.specs.Done.{IsUnanswered};
ghost use Rattle.bfs_attr_calls.specs.Attributed.{with_attributes};
ghost use Rattle.bfs_attr_calls.specs.Removed.{HasBearerAt};
ghost use Rattle.bfs_attr_put.specs.Written.{HasWriteCause};

use bfs_attr_calls::attrs::put;
use bfs_attr_calls::calls::not_put;
use bfs_attr_calls::moves::check_inode;
use bfs_bitmap::Bitmap;
use bfs_make::Site;
use bfs_stream_pages::MapFault;
use bfs_super::Super;
use bfs_txn::Edits;
use std::alloc::Global;

/// Puts an attribute of a node, in its small data where it fits there, else with an inode of its own; the one of its name goes. The node's
/// inode is read before and after. An index lists the node as it did.
pub(crate) fn put_attribute<E: Edits>(
    alloc: Global,
    sup: &Super,
    bitmap: &mut Bitmap,
    edits: &mut E,
    id: u64,
    name: &[u8],
    kind: u32,
    bytes: &[u8],
    stamp: i64,
) -> Result<(), MapFault>
    requires valid { IsValid sup.now }
    requires inside { id < natural sup.now.num_blocks }
    requires size { E.size edits.old ≡ sup.now.block_size }
    requires volume { IsOfVolume (sizes_of sup.now) bitmap.old }
    requires good { is_bad_attribute_name name.now ≡ false }
    requires bearer { (m : ℕ → Option (List ℕ)) → E.told edits.old ≡ Some m → HasBearerAt (geometry_of sup.now) bitmap.old m id }
    ensures left { (m : ℕ → Option (List ℕ)) (tree : Tree) (lists : Lists) (loose : List ℕ) (n : Node) → E.told edits.old ≡ Some m → IsAtWork (geometry_of sup.now) bitmap.old m tree lists loose → IsClear (geometry_of sup.now) bitmap.old m → IsNode tree id n → OnOk result (IsLeft (geometry_of sup.now) bitmap.old bitmap.new m tree (with_attributes tree id n (insert n.attributes name.now (record { code = kind; bytes = bytes.now }))) lists loose (E.told edits.new) (E.changed edits.old) (E.changed edits.new)) }
    ensures unanswered { (m : ℕ → Option (List ℕ)) (tree : Tree) (lists : Lists) (loose : List ℕ) (n : Node) → E.told edits.old ≡ Some m → IsAtWork (geometry_of sup.now) bitmap.old m tree lists loose → IsNode tree id n → IfErr result IsUnanswered }
    ensures cause { IfErr result (HasWriteCause (max 1 (max (ceil 2048 sup.now.block_size) (ceil (length bytes.now) sup.now.block_size))) (E.counts edits.old) (E.counts edits.new)) }
    ensures rest { bitmap.new ≡ record bitmap.old { given = bitmap.new.given; tally = bitmap.new.tally } }
    ensures kept { as_kept bitmap.new ≡ as_kept bitmap.old }
    ensures standing { standing bitmap.new ≡ standing bitmap.old }
    ensures stays { StaysChanged (E.changed edits.old) (E.changed edits.new) }
    ensures size { E.size edits.new ≡ E.size edits.old }
    ensures frame { E.frame edits.new ≡ E.frame edits.old }
    ensures later { AreLater (E.counts edits.old) (E.counts edits.new) }
{
    match check_inode(alloc, sup, edits, id) {
        Ok(()) => {}
        Err(fault) => return Err(fault),
    }
    let site = Site { alloc, sup: *sup };
    match put(site, bitmap, edits, id, kind, name, bytes, stamp) {
        Ok(()) => {}
        Err(fault) => return Err(not_put(fault, id)),
    }
    match check_inode(alloc, sup, edits, id) {
        Ok(()) => Ok(()),
        Err(fault) => Err(fault),
    }
}
