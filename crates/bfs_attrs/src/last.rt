// The last attribute of an attribute directory, which is taken with the directory.
ghost use Rattle.std.specs.Prelude.{◌≡◌, ◌<◌, ◌⊎◌, ℕ, true, List, Option, Some, OnOk, IfErr, IfSome, IsSome};
ghost use Rattle.std.specs.FinMap.{remove};
ghost use Rattle.bfs_bitmap.specs.Runs.{as_kept};
ghost use Rattle.bfs_super.specs.Conditions.{IsValid, natural};
ghost use Rattle.bfs_super.specs.Geometry.{geometry_of};
ghost use Rattle.bfs_txn.specs.Faults.{AreLater, IsCauseOf};
ghost use Rattle.bfs_txn.specs.Told.{StaysChanged};
ghost use Rattle.bfs_stream.specs.Grown.{IsOfVolume};
ghost use Rattle.bfs_stream.specs.Sizes.{sizes_of};
ghost use Rattle.bfs_stream.specs.Standing.{standing};
ghost use Rattle.bfs_maps.specs.Refused.{HasTakeCause};
ghost use Rattle.bfs_make.specs.Made.{zero_run};
ghost use Rattle.bfs_attr.specs.Bearers.{bearer_of, volume_at, attributes_at};
ghost use Rattle.bfs_attr_write.specs.Directories.{HasAddress};
ghost use Rattle.bfs_attr_write.specs.Removal.{IsNotTakenOut, KeepsClear};
ghost use Rattle.bfs_attrs.specs.Last.{IsAlone, HasLastTaken};

use bfs_attr_write::{give_named, no_run, put_address};
use bfs_bitmap::Bitmap;
use bfs_make::{Site, give_inode};
use bfs_maps::{TreeAt, number_at};
use bfs_node::{KeyKind, TreeFault};
use bfs_stream::GrowFault;
use bfs_stream_pages::MapFault;
use bfs_txn::{BlockFault, Edits};

/// Writes the zero run into the block of an inode, as the address of its attribute directory.
fn clear_address<E: Edits>(site: Site, edits: &mut E, inode: u64) -> Result<(), BlockFault>
    requires valid { IsValid site.sup }
    requires size { E.size edits.old ≡ site.sup.block_size }
    ensures written { (m : ℕ → Option (List ℕ)) → E.told edits.old ≡ Some m → IsSome (m inode) → OnOk result (HasAddress m inode zero_run (E.told edits.new)) }
    ensures changed { (k : ℕ) → E.changed edits.new k ≡ true → (E.changed edits.old k ≡ true) ⊎ (k ≡ inode) }
    ensures stays { StaysChanged (E.changed edits.old) (E.changed edits.new) }
    ensures size { E.size edits.new ≡ E.size edits.old }
    ensures frame { E.frame edits.new ≡ E.frame edits.old }
    ensures later { AreLater (E.counts edits.old) (E.counts edits.new) }
    ensures cause { IfErr result (IsCauseOf (E.counts edits.old) (E.counts edits.new)) }
{
    put_address(site, edits, inode, no_run())
}

/// Takes the one attribute of an attribute directory, with the directory. After a fault the call is to be dropped.
pub(crate) fn take_last<E: Edits>(
    site: Site,
    bitmap: &mut Bitmap,
    edits: &mut E,
    inode: u64,
    directory: u64,
    name: &[u8],
) -> Result<(), MapFault>
    requires valid { IsValid site.sup }
    requires inside { directory < natural site.sup.num_blocks }
    requires size { E.size edits.old ≡ site.sup.block_size }
    requires volume { IsOfVolume (sizes_of site.sup) bitmap.old }
    requires alone { (m : ℕ → Option (List ℕ)) → E.told edits.old ≡ Some m → IsAlone (bearer_of inode site.sup) bitmap.old m directory name.now }
    ensures taken { (m : ℕ → Option (List ℕ)) → E.told edits.old ≡ Some m → OnOk result (HasLastTaken (bearer_of inode site.sup) bitmap.old bitmap.new m (remove (attributes_at (volume_at (geometry_of site.sup) m) inode) name.now) (E.told edits.new) (E.changed edits.old) (E.changed edits.new)) }
    ensures clear { (m : ℕ → Option (List ℕ)) → E.told edits.old ≡ Some m → OnOk result (IfSome (E.told edits.new) (KeepsClear bitmap.old bitmap.new m)) }
    ensures faults { (m : ℕ → Option (List ℕ)) → E.told edits.old ≡ Some m → IfErr result (IsNotTakenOut (volume_at (geometry_of site.sup) m) inode name.now) }
    ensures rest { bitmap.new ≡ record bitmap.old { given = bitmap.new.given; tally = bitmap.new.tally } }
    ensures kept { as_kept bitmap.new ≡ as_kept bitmap.old }
    ensures standing { standing bitmap.new ≡ standing bitmap.old }
    ensures stays { StaysChanged (E.changed edits.old) (E.changed edits.new) }
    ensures size { E.size edits.new ≡ E.size edits.old }
    ensures frame { E.frame edits.new ≡ E.frame edits.old }
    ensures later { AreLater (E.counts edits.old) (E.counts edits.new) }
    ensures cause { IfErr result (HasTakeCause (E.counts edits.old) (E.counts edits.new)) }
{
    let tree = TreeAt {
        alloc: site.alloc,
        inode: directory,
        sup: site.sup,
        kind: KeyKind::Text,
    };
    let id = match number_at(tree, edits, name) {
        Ok(Some(id)) => id,
        Ok(None) => return Err(TreeFault::Absent),
        Err(fault) => return Err(fault),
    };
    match give_named(site, bitmap, edits, directory, id) {
        Ok(()) => {}
        Err(fault) => return Err(fault),
    }
    match give_inode(site, bitmap, edits, directory) {
        Ok(()) => {}
        Err(fault) => return Err(TreeFault::Pages(GrowFault::Block(fault))),
    }
    match clear_address(site, edits, inode) {
        Ok(()) => Ok(()),
        Err(fault) => Err(TreeFault::Pages(GrowFault::Block(fault))),
    }
}
