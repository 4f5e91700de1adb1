// The row of an attribute that is taken, with the inode that it names.
ghost use Rattle.std.specs.Prelude.{◌≡◌, ◌<◌, ℕ, List, Option, Some, OnOk, IfErr, IfSome, IsSome};
ghost use Rattle.std.specs.FinMap.{get, remove};
ghost use Rattle.bfs_super.specs.Conditions.{IsValid, natural};
ghost use Rattle.bfs_super.specs.Geometry.{geometry_of};
ghost use Rattle.bfs_bitmap.specs.Runs.{as_kept};
ghost use Rattle.bfs_txn.specs.Faults.{AreLater};
ghost use Rattle.bfs_txn.specs.Told.{StaysChanged};
ghost use Rattle.bfs_stream.specs.Grown.{IsOfVolume};
ghost use Rattle.bfs_stream.specs.Sizes.{sizes_of};
ghost use Rattle.bfs_stream.specs.Standing.{standing};
ghost use Rattle.bfs_maps.specs.Mapped.{HasHeld};
ghost use Rattle.bfs_maps.specs.Refused.{IsUndone, HasTakeCause};
ghost use Rattle.bfs_make.specs.Given.{HasGivenBack};
ghost use Rattle.bfs_make.specs.Sites.{stream_in};
ghost use Rattle.bfs_attr.specs.Bearers.{bearer_of, volume_at, origin, attributes_at};
ghost use Rattle.bfs_attr.specs.Refused.{IsNoPage};
ghost use Rattle.bfs_attr_write.specs.Removal.{CanTake, HasRowTaken, IsNotTakenOut, IsTakenOutFault, KeepsClear};

use bfs_bitmap::Bitmap;
use bfs_make::{Site, blocks_in, give_inode};
use bfs_maps::{TreeAt, take_row};
use bfs_node::{KeyKind, TreeFault};
use bfs_stream::GrowFault;
use bfs_stream_pages::MapFault;
use bfs_txn::{BlockFault, Edits};

/// Gives back the inode that a row of an attribute directory names. The directory is damaged where that is no block of the volume.
pub fn give_named<E: Edits>(
    site: Site,
    bitmap: &mut Bitmap,
    edits: &mut E,
    directory: u64,
    id: u64,
) -> Result<(), MapFault>
    requires valid { IsValid site.sup }
    requires size { E.size edits.old ≡ site.sup.block_size }
    requires volume { IsOfVolume (sizes_of site.sup) bitmap.old }
    ensures given { (m : ℕ → Option (List ℕ)) → E.told edits.old ≡ Some m → HasHeld (stream_in site id) bitmap.old m → OnOk result (HasGivenBack (stream_in site id) bitmap.old bitmap.new m (E.told edits.new) (E.changed edits.old) (E.changed edits.new)) }
    ensures sound { (m : ℕ → Option (List ℕ)) → E.told edits.old ≡ Some m → HasHeld (stream_in site id) bitmap.old m → id < natural site.sup.num_blocks → IfErr result IsUndone }
    ensures pages { IfErr result IsNoPage }
    ensures rest { bitmap.new ≡ record bitmap.old { given = bitmap.new.given; tally = bitmap.new.tally } }
    ensures kept { as_kept bitmap.new ≡ as_kept bitmap.old }
    ensures standing { standing bitmap.new ≡ standing bitmap.old }
    ensures stays { StaysChanged (E.changed edits.old) (E.changed edits.new) }
    ensures size { E.size edits.new ≡ E.size edits.old }
    ensures frame { E.frame edits.new ≡ E.frame edits.old }
    ensures later { AreLater (E.counts edits.old) (E.counts edits.new) }
    ensures cause { IfErr result (HasTakeCause (E.counts edits.old) (E.counts edits.new)) }
{
    if id < blocks_in(site.sup) {
        match give_inode(site, bitmap, edits, id) {
            Ok(()) => Ok(()),
            Err(fault) => Err(TreeFault::Pages(GrowFault::Block(fault))),
        }
    } else {
        Err(TreeFault::Pages(GrowFault::Block(BlockFault::Damaged { block: directory })))
    }
}

/// Takes the row of an attribute out of the attribute directory at a block, and gives the attribute's inode back with all its
/// blocks. The directory stays, also without rows. After a fault the call is to be dropped.
pub fn take_attribute_row<E: Edits>(
    site: Site,
    bitmap: &mut Bitmap,
    edits: &mut E,
    directory: u64,
    name: &[u8],
) -> Result<(), MapFault>
    requires valid { IsValid site.sup }
    requires inside { directory < natural site.sup.num_blocks }
    requires size { E.size edits.old ≡ site.sup.block_size }
    requires volume { IsOfVolume (sizes_of site.sup) bitmap.old }
    requires stream { (m : ℕ → Option (List ℕ)) → E.told edits.old ≡ Some m → HasHeld (origin (geometry_of site.sup) directory) bitmap.old m }
    ensures taken { (inode : ℕ) (m : ℕ → Option (List ℕ)) → E.told edits.old ≡ Some m → CanTake (bearer_of inode site.sup) bitmap.old m directory name.now → OnOk result (HasRowTaken (bearer_of inode site.sup) bitmap.old bitmap.new m (remove (attributes_at (volume_at (geometry_of site.sup) m) inode) name.now) (E.told edits.new) (E.changed edits.old) (E.changed edits.new)) }
    ensures there { (inode : ℕ) (m : ℕ → Option (List ℕ)) → E.told edits.old ≡ Some m → CanTake (bearer_of inode site.sup) bitmap.old m directory name.now → OnOk result (IsSome (get (attributes_at (volume_at (geometry_of site.sup) m) inode) name.now)) }
    ensures clear { (inode : ℕ) (m : ℕ → Option (List ℕ)) → E.told edits.old ≡ Some m → CanTake (bearer_of inode site.sup) bitmap.old m directory name.now → OnOk result (IfSome (E.told edits.new) (KeepsClear bitmap.old bitmap.new m)) }
    ensures faults { (inode : ℕ) (m : ℕ → Option (List ℕ)) → E.told edits.old ≡ Some m → CanTake (bearer_of inode site.sup) bitmap.old m directory name.now → IfErr result (IsNotTakenOut (volume_at (geometry_of site.sup) m) inode name.now) }
    ensures blamed { (m : ℕ → Option (List ℕ)) → E.told edits.old ≡ Some m → IfErr result (IsTakenOutFault site.sup directory name.now bitmap.old m (E.told edits.new)) }
    ensures rest { bitmap.new ≡ record bitmap.old { given = bitmap.new.given; tally = bitmap.new.tally } }
    ensures kept { as_kept bitmap.new ≡ as_kept bitmap.old }
    ensures standing { standing bitmap.new ≡ standing bitmap.old }
    ensures stays { StaysChanged (E.changed edits.old) (E.changed edits.new) }
    ensures size { E.size edits.new ≡ E.size edits.old }
    ensures frame { E.frame edits.new ≡ E.frame edits.old }
    ensures later { AreLater (E.counts edits.old) (E.counts edits.new) }
    ensures cause { IfErr result (HasTakeCause (E.counts edits.old) (E.counts edits.new)) }
{
    let tree = TreeAt {
        alloc: site.alloc,
        inode: directory,
        sup: site.sup,
        kind: KeyKind::Text,
    };
    let id = match take_row(tree, bitmap, edits, name) {
        Ok(id) => id,
        Err(fault) => return Err(fault),
    };
    give_named(site, bitmap, edits, directory, id)
}
