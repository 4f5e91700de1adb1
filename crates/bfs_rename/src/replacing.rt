// A node leaves the tree that another one replaces.
ghost use Rattle.std.specs.Prelude.{◌≡◌, ◌<◌, ℕ, List, Option, Some, OnOk, IfErr};
ghost use Rattle.bfs_super.specs.Conditions.{IsValid, natural};
ghost use Rattle.bfs_super.specs.Geometry.{geometry_of};
ghost use Rattle.bfs_bitmap.specs.Runs.{as_kept};
ghost use Rattle.bfs_txn.specs.Faults.{AreLater};
ghost use Rattle.bfs_txn.specs.Told.{StaysChanged};
ghost use Rattle.bfs_stream.specs.Grown.{IsOfVolume};
ghost use Rattle.bfs_stream.specs.Sizes.{sizes_of};
ghost use Rattle.bfs_stream.specs.Standing.{standing};
ghost use Rattle.bfs_tree.specs.Trees.{Node, Tree};
ghost use Rattle.bfs_maps.specs.Refused.{IsUndone};
ghost use Rattle.bfs_shift.specs.Lists.{Lists};
ghost use Rattle.bfs_look.specs.Ready.{IsReady};
ghost use Rattle.bfs_calls.specs.Done.{HasAnswerCause};
ghost use Rattle.bfs_rename.specs.Replacing.{StandsEmpty, HasEmptyAt, HasLeftReady};

use crate::rows::take_row;
use bfs_bitmap::Bitmap;
use bfs_make::Site;
use bfs_remove_node::unlist::unlist_node;
use bfs_remove_node::unmake::give_node;
use bfs_stream_pages::MapFault;
use bfs_super::Super;
use bfs_txn::Edits;
use std::alloc::Global;

/// Takes a node out of every index that lists it, out of its directory and out of the tree, and gives all its blocks back. No run is taken.
/// After a fault the call is to be dropped.
pub(crate) fn leave_tree<E: Edits>(
    alloc: Global,
    sup: &Super,
    bitmap: &mut Bitmap,
    edits: &mut E,
    id: u64,
    dir: u64,
    name: &[u8],
) -> Result<(), MapFault>
    requires valid { IsValid sup.now }
    requires inside { id < natural sup.now.num_blocks }
    requires dir_inside { dir < natural sup.now.num_blocks }
    requires size { E.size edits.old ≡ sup.now.block_size }
    requires volume { IsOfVolume (sizes_of sup.now) bitmap.old }
    requires node { (m : ℕ → Option (List ℕ)) → E.told edits.old ≡ Some m → HasEmptyAt (geometry_of sup.now) bitmap.old m id dir name.now }
    ensures left { (m : ℕ → Option (List ℕ)) (tree : Tree) (lists : Lists) (node : Node) → E.told edits.old ≡ Some m → IsReady (geometry_of sup.now) bitmap.old m tree lists → StandsEmpty tree id node dir name.now → OnOk result (HasLeftReady (geometry_of sup.now) bitmap.old bitmap.new m tree id (E.told edits.new) (E.changed edits.old) (E.changed edits.new)) }
    ensures undone { (m : ℕ → Option (List ℕ)) (tree : Tree) (lists : Lists) (node : Node) → E.told edits.old ≡ Some m → IsReady (geometry_of sup.now) bitmap.old m tree lists → StandsEmpty tree id node dir name.now → IfErr result IsUndone }
    ensures cause { IfErr result (HasAnswerCause (E.counts edits.old) (E.counts edits.new)) }
    ensures rest { bitmap.new ≡ record bitmap.old { given = bitmap.new.given; tally = bitmap.new.tally } }
    ensures kept { as_kept bitmap.new ≡ as_kept bitmap.old }
    ensures standing { standing bitmap.new ≡ standing bitmap.old }
    ensures stays { StaysChanged (E.changed edits.old) (E.changed edits.new) }
    ensures size { E.size edits.new ≡ E.size edits.old }
    ensures frame { E.frame edits.new ≡ E.frame edits.old }
    ensures later { AreLater (E.counts edits.old) (E.counts edits.new) }
{
    match unlist_node(alloc, sup, bitmap, edits, id) {
        Ok(()) => {}
        Err(fault) => return Err(fault),
    }
    match take_row(alloc, sup, bitmap, edits, dir, name) {
        Ok(()) => {}
        Err(fault) => return Err(fault),
    }
    let site = Site { alloc, sup: *sup };
    match give_node(site, bitmap, edits, id) {
        Ok(()) => Ok(()),
        Err(fault) => Err(fault),
    }
}
