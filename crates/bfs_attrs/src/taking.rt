// An attribute that is taken, wherever it stands.
ghost use Rattle.std.specs.Prelude.{◌≡◌, ◌<◌, ℕ, List, Option, Some, drop, OnOk, IfErr, IfSome};
ghost use Rattle.bfs_bitmap.specs.Runs.{as_kept};
ghost use Rattle.bfs_super.specs.Conditions.{IsValid, natural};
ghost use Rattle.bfs_super.specs.Geometry.{geometry_of};
ghost use Rattle.bfs_txn.specs.Faults.{AreLater};
ghost use Rattle.bfs_txn.specs.Told.{StaysChanged};
ghost use Rattle.bfs_stream.specs.Grown.{IsOfVolume};
ghost use Rattle.bfs_stream.specs.Sizes.{sizes_of};
ghost use Rattle.bfs_stream.specs.Standing.{standing};
ghost use Rattle.bfs_stream.specs.Told.{contents};
ghost use Rattle.bfs_maps.specs.Refused.{HasTakeCause};
ghost use Rattle.bfs_attr.specs.Bearers.{bearer_of, volume_at};
ghost use Rattle.bfs_attr.specs.Changed.{Holds, HasTaken};
ghost use Rattle.bfs_attr_write.specs.Removal.{KeepsClear};
ghost use Rattle.bfs_attrs.specs.Removed.{FitAlike, IsBeyond, IsNotRemoved, IsUntouched, LosesItem};

use crate::last::take_last;
use crate::rows::names_one;
use bfs_attr::{directory_at, has_attribute_row, take_from_small};
use bfs_attr_write::take_attribute_row;
use bfs_bitmap::Bitmap;
use bfs_make::Site;
use bfs_node::TreeFault;
use bfs_stream_pages::MapFault;
use bfs_txn::Edits;

/// Takes the attribute of a name, which isn't in small data, out of the attribute directory at a block; the last one with the
/// directory. Absent is answered exactly where there is none, and nothing was written
/// then. After another fault the call is to be dropped.
pub(crate) fn take_stored<E: Edits>(
    site: Site,
    bitmap: &mut Bitmap,
    edits: &mut E,
    inode: u64,
    directory: u64,
    name: &[u8],
) -> Result<(), MapFault>
    requires valid { IsValid site.sup }
    requires inside { directory < natural site.sup.num_blocks }
    requires size { E.size edits.old ≡ site.sup.block_size }
    requires volume { IsOfVolume (sizes_of site.sup) bitmap.old }
    requires holds { (m : ℕ → Option (List ℕ)) → E.told edits.old ≡ Some m → IsBeyond (bearer_of inode site.sup) bitmap.old m directory name.now }
    ensures taken { (m : ℕ → Option (List ℕ)) → E.told edits.old ≡ Some m → OnOk result (HasTaken (bearer_of inode site.sup) bitmap.old bitmap.new m name.now (E.told edits.new) (E.changed edits.old) (E.changed edits.new)) }
    ensures small { (m : ℕ → Option (List ℕ)) → E.told edits.old ≡ Some m → OnOk result (IfSome (E.told edits.new) (λ map. drop 232 (contents map inode) ≡ drop 232 (contents m inode))) }
    ensures clear { (m : ℕ → Option (List ℕ)) → E.told edits.old ≡ Some m → OnOk result (IfSome (E.told edits.new) (KeepsClear bitmap.old bitmap.new m)) }
    ensures faults { (m : ℕ → Option (List ℕ)) → E.told edits.old ≡ Some m → IfErr result (IsNotRemoved (volume_at (geometry_of site.sup) m) inode name.now) }
    ensures absent { (m : ℕ → Option (List ℕ)) → E.told edits.old ≡ Some m → IfErr result (IsUntouched (bearer_of inode site.sup) bitmap.old bitmap.new m (E.told edits.new) (E.changed edits.old) (E.changed edits.new)) }
    ensures rest { bitmap.new ≡ record bitmap.old { given = bitmap.new.given; tally = bitmap.new.tally } }
    ensures kept { as_kept bitmap.new ≡ as_kept bitmap.old }
    ensures standing { standing bitmap.new ≡ standing bitmap.old }
    ensures stays { StaysChanged (E.changed edits.old) (E.changed edits.new) }
    ensures size { E.size edits.new ≡ E.size edits.old }
    ensures frame { E.frame edits.new ≡ E.frame edits.old }
    ensures later { AreLater (E.counts edits.old) (E.counts edits.new) }
    ensures cause { IfErr result (HasTakeCause (E.counts edits.old) (E.counts edits.new)) }
{
    let there = match has_attribute_row(site, edits, directory, name) {
        Ok(there) => there,
        Err(fault) => return Err(fault),
    };
    if !there {
        return Err(TreeFault::Absent);
    }
    let last = match names_one(site, edits, directory) {
        Ok(last) => last,
        Err(fault) => return Err(fault),
    };
    if last {
        take_last(site, bitmap, edits, inode, directory, name)
    } else {
        take_attribute_row(site, bitmap, edits, directory, name)
    }
}

/// Takes the attribute of a name of the inode at a block out of its small data or its attribute directory, and the directory with its
/// last one. Absent is answered exactly where there is none, and nothing was written
/// then. After another fault the call is to be dropped.
pub fn take<E: Edits>(
    site: Site,
    bitmap: &mut Bitmap,
    edits: &mut E,
    inode: u64,
    name: &[u8],
) -> Result<(), MapFault>
    requires valid { IsValid site.sup }
    requires size { E.size edits.old ≡ site.sup.block_size }
    requires volume { IsOfVolume (sizes_of site.sup) bitmap.old }
    requires holds { (m : ℕ → Option (List ℕ)) → E.told edits.old ≡ Some m → Holds (bearer_of inode site.sup) bitmap.old m }
    ensures taken { (m : ℕ → Option (List ℕ)) → E.told edits.old ≡ Some m → OnOk result (HasTaken (bearer_of inode site.sup) bitmap.old bitmap.new m name.now (E.told edits.new) (E.changed edits.old) (E.changed edits.new)) }
    ensures alike { (m : ℕ → Option (List ℕ)) → E.told edits.old ≡ Some m → OnOk result (IfSome (E.told edits.new) (λ map. FitAlike name.now (drop 232 (contents m inode)) (drop 232 (contents map inode)))) }
    ensures clear { (m : ℕ → Option (List ℕ)) → E.told edits.old ≡ Some m → OnOk result (IfSome (E.told edits.new) (KeepsClear bitmap.old bitmap.new m)) }
    ensures items { (m : ℕ → Option (List ℕ)) → E.told edits.old ≡ Some m → OnOk result (IfSome (E.told edits.new) (λ map. LosesItem name.now (drop 232 (contents m inode)) (drop 232 (contents map inode)))) }
    ensures faults { (m : ℕ → Option (List ℕ)) → E.told edits.old ≡ Some m → IfErr result (IsNotRemoved (volume_at (geometry_of site.sup) m) inode name.now) }
    ensures absent { (m : ℕ → Option (List ℕ)) → E.told edits.old ≡ Some m → IfErr result (IsUntouched (bearer_of inode site.sup) bitmap.old bitmap.new m (E.told edits.new) (E.changed edits.old) (E.changed edits.new)) }
    ensures rest { bitmap.new ≡ record bitmap.old { given = bitmap.new.given; tally = bitmap.new.tally } }
    ensures kept { as_kept bitmap.new ≡ as_kept bitmap.old }
    ensures standing { standing bitmap.new ≡ standing bitmap.old }
    ensures stays { StaysChanged (E.changed edits.old) (E.changed edits.new) }
    ensures size { E.size edits.new ≡ E.size edits.old }
    ensures frame { E.frame edits.new ≡ E.frame edits.old }
    ensures later { AreLater (E.counts edits.old) (E.counts edits.new) }
    ensures cause { IfErr result (HasTakeCause (E.counts edits.old) (E.counts edits.new)) }
{
    let taken = match take_from_small(site, edits, inode, name) {
        Ok(taken) => taken,
        Err(fault) => return Err(fault),
    };
    if taken {
        return Ok(());
    }
    match directory_at(site, edits, inode) {
        Ok(Some(directory)) => take_stored(site, bitmap, edits, inode, directory, name),
        Ok(None) => Err(TreeFault::Absent),
        Err(fault) => Err(fault),
    }
}
