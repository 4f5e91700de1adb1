// A node leaves the tree, and all its blocks are given back: its own, and those of its attribute directory and of its attributes.
ghost use Rattle.std.specs.Prelude.{◌≡◌, ◌<◌, ◌++◌, ℕ, List, length, Option, Some, OnOk, IfErr, get_or};
ghost use Rattle.std.specs.List.{flat_map};
ghost use Rattle.bfs_super.specs.Conditions.{IsValid, natural};
ghost use Rattle.bfs_super.specs.Geometry.{geometry_of};
ghost use Rattle.bfs_bitmap.specs.Runs.{Fits, as_kept};
ghost use Rattle.bfs_txn.specs.Faults.{AreLater};
ghost use Rattle.bfs_txn.specs.Told.{StaysChanged};
ghost use Rattle.bfs_stream.specs.Faults.{IsCauseIn};
ghost use Rattle.bfs_stream.specs.Grown.{IsOfVolume};
ghost use Rattle.bfs_stream.specs.Scans.{IsDamage};
ghost use Rattle.bfs_stream.specs.Sizes.{sizes_of};
ghost use Rattle.bfs_stream.specs.Standing.{standing};
ghost use Rattle.bfs_tree.specs.Trees.{Node, Tree, IsNode};
ghost use Rattle.bfs_maps.specs.Refused.{HasReadCause, IsUndone};
ghost use Rattle.bfs_sound.specs.Inodes.{inode_blocks};
ghost use Rattle.bfs_shift.specs.Lists.{Lists};
ghost use Rattle.bfs_shift.specs.Shifts.{volume_in};
ghost use Rattle.bfs_shift.specs.Work.{IsAtWork};
ghost use Rattle.bfs_leave.specs.Given.{AreGivenBack, AreLoose};
ghost use Rattle.bfs_leave.specs.Leaving.{IsClear, IsLeft, tree_without};
ghost use Rattle.bfs_unmake.specs.Whole.{HoldsNode, alone_in, AllBelow};

use crate::inodes::{blocked, stands_alone, stream_inodes};
use bfs_bitmap::Bitmap;
use bfs_leave::give_inodes;
use bfs_make::{Site, give_block};
use bfs_stream_pages::MapFault;
use bfs_txn::{BlockFault, Edits};

/// Gives inodes back with their streams, and then, where it stands alone, one more, which has its own block alone.
fn give_all<E: Edits>(
    site: Site,
    bitmap: &mut Bitmap,
    edits: &mut E,
    ids: &[u64],
    id: u64,
    alone: bool,
) -> Result<(), BlockFault>
    requires valid { IsValid site.sup }
    requires inside { id < natural site.sup.num_blocks }
    requires below { AllBelow (natural site.sup.num_blocks) ids.now }
    requires size { E.size edits.old ≡ site.sup.block_size }
    requires volume { IsOfVolume (sizes_of site.sup) bitmap.old }
    ensures given { (m : ℕ → Option (List ℕ)) → E.told edits.old ≡ Some m → Fits bitmap.old m → AreLoose (geometry_of site.sup) m ids.now → OnOk result (AreGivenBack bitmap.old bitmap.new (flat_map (inode_blocks (volume_in (geometry_of site.sup) m)) ids.now ++ alone_in id alone) m (E.told edits.new) (E.changed edits.old) (E.changed edits.new)) }
    ensures sound { (m : ℕ → Option (List ℕ)) → E.told edits.old ≡ Some m → Fits bitmap.old m → AreLoose (geometry_of site.sup) m ids.now → IfErr result (λ fault. ¬ IsDamage fault) }
    ensures rest { bitmap.new ≡ record bitmap.old { given = bitmap.new.given; tally = bitmap.new.tally } }
    ensures kept { as_kept bitmap.new ≡ as_kept bitmap.old }
    ensures standing { standing bitmap.new ≡ standing bitmap.old }
    ensures stays { StaysChanged (E.changed edits.old) (E.changed edits.new) }
    ensures size { E.size edits.new ≡ E.size edits.old }
    ensures frame { E.frame edits.new ≡ E.frame edits.old }
    ensures later { AreLater (E.counts edits.old) (E.counts edits.new) }
    ensures cause { IfErr result (IsCauseIn (E.counts edits.old) (E.counts edits.new)) }
{
    match give_inodes(site, bitmap, edits, ids) {
        Ok(()) => {}
        Err(fault) => return Err(fault),
    }
    if alone {
        match give_block(site, bitmap, edits, id) {
            Ok(()) => Ok(()),
            Err(fault) => Err(fault),
        }
    } else {
        Ok(())
    }
}

/// Gives back all blocks of a node, which leaves the tree: its inode, its array blocks and those of its stream, and all of these of its
/// attribute directory and of each attribute there. After a fault the call is to be dropped.
pub fn give_node<E: Edits>(
    site: Site,
    bitmap: &mut Bitmap,
    edits: &mut E,
    id: u64,
) -> Result<(), MapFault>
    requires valid { IsValid site.sup }
    requires inside { id < natural site.sup.num_blocks }
    requires size { E.size edits.old ≡ site.sup.block_size }
    requires volume { IsOfVolume (sizes_of site.sup) bitmap.old }
    requires node { (m : ℕ → Option (List ℕ)) → E.told edits.old ≡ Some m → HoldsNode (geometry_of site.sup) bitmap.old m id }
    ensures given { (m : ℕ → Option (List ℕ)) (tree : Tree) (lists : Lists) (loose : List ℕ) (n : Node) → E.told edits.old ≡ Some m → IsAtWork (geometry_of site.sup) bitmap.old m tree lists loose → IsClear (geometry_of site.sup) bitmap.old m → IsNode tree id n → OnOk result (IsLeft (geometry_of site.sup) bitmap.old bitmap.new m tree (tree_without tree id) lists loose (E.told edits.new) (E.changed edits.old) (E.changed edits.new)) }
    ensures sound { (m : ℕ → Option (List ℕ)) (tree : Tree) (lists : Lists) (loose : List ℕ) (n : Node) → E.told edits.old ≡ Some m → IsAtWork (geometry_of site.sup) bitmap.old m tree lists loose → IsNode tree id n → IfErr result IsUndone }
    ensures rest { bitmap.new ≡ record bitmap.old { given = bitmap.new.given; tally = bitmap.new.tally } }
    ensures kept { as_kept bitmap.new ≡ as_kept bitmap.old }
    ensures standing { standing bitmap.new ≡ standing bitmap.old }
    ensures stays { StaysChanged (E.changed edits.old) (E.changed edits.new) }
    ensures size { E.size edits.new ≡ E.size edits.old }
    ensures frame { E.frame edits.new ≡ E.frame edits.old }
    ensures later { AreLater (E.counts edits.old) (E.counts edits.new) }
    ensures cause { IfErr result (HasReadCause (E.counts edits.old) (E.counts edits.new)) }
{
    let alone = match stands_alone(site, edits, id) {
        Ok(alone) => alone,
        Err(fault) => return Err(fault),
    };
    let ids = match stream_inodes(site, edits, id, alone) {
        Ok(ids) => ids,
        Err(fault) => return Err(fault),
    };
    match give_all(site, bitmap, edits, &ids, id, alone) {
        Ok(()) => Ok(()),
        Err(fault) => Err(blocked(fault)),
    }
}
