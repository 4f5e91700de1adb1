// An attribute that is new, put where it belongs.
ghost use Rattle.std.specs.Prelude.{◌≡◌, ◌≤◌, ◌<◌, ℕ, List, max, length, drop, true, false, Option, Some, OnOk, IfErr, IfSome};
ghost use Rattle.std.specs.FinMap.{insert};
ghost use Rattle.std.specs.Str.{bytes_eq};
ghost use Rattle.bfs_super.specs.Conditions.{IsValid, ceil, natural};
ghost use Rattle.bfs_super.specs.Geometry.{geometry_of};
ghost use Rattle.bfs_txn.specs.Faults.{AreLater};
ghost use Rattle.bfs_txn.specs.Told.{StaysChanged};
ghost use Rattle.bfs_stream.specs.Grown.{IsOfVolume};
ghost use Rattle.bfs_stream.specs.Sizes.{sizes_of};
ghost use Rattle.bfs_stream.specs.Standing.{standing};
ghost use Rattle.bfs_stream.specs.Told.{contents};
ghost use Rattle.bfs_sound.specs.Attributes.{own_name};
ghost use Rattle.bfs_sound.specs.Inodes.{is_proper};
ghost use Rattle.bfs_attr.specs.Bearers.{bearer_of, volume_at, attributes_at};
ghost use Rattle.bfs_attr.specs.Changed.{HasPut};
ghost use Rattle.bfs_attr_write.specs.Removal.{KeepsClear};
ghost use Rattle.bfs_attrs.specs.Put.{IsUnknown, IsNotPutNew, GainsItem};
ghost use Rattle.bfs_attrs.specs.Replaced.{HasAllBlocks};
ghost use Rattle.bfs_attrs.specs.Stored.{HasAddCause, HasBegun};

use crate::storing::{put_first, put_stored};
use bfs_attr::{directory_at, put_in_small};
use bfs_bitmap::Bitmap;
use bfs_make::Site;
use bfs_stream_pages::MapFault;
use bfs_txn::Edits;

/// Puts an attribute of a name that none of the inode at a block has into its attribute directory, which is made where there is none.
/// After a fault the call is to be dropped.
pub(crate) fn put_beyond<E: Edits>(
    site: Site,
    bitmap: &mut Bitmap,
    edits: &mut E,
    inode: u64,
    kind: u32,
    name: &[u8],
    bytes: &[u8],
    stamp: i64,
) -> Result<(), MapFault>
    requires valid { IsValid site.sup }
    requires inside { inode < natural site.sup.num_blocks }
    requires size { E.size edits.old ≡ site.sup.block_size }
    requires volume { IsOfVolume (sizes_of site.sup) bitmap.old }
    requires some { 1 ≤ length name.now }
    requires short { length name.now ≤ 255 }
    requires proper { is_proper name.now ≡ true }
    requires unknown { (m : ℕ → Option (List ℕ)) → E.told edits.old ≡ Some m → IsUnknown (bearer_of inode site.sup) bitmap.old m name.now }
    ensures put { (m : ℕ → Option (List ℕ)) → E.told edits.old ≡ Some m → OnOk result (HasBegun (bearer_of inode site.sup) bitmap.old bitmap.new m (insert (attributes_at (volume_at (geometry_of site.sup) m) inode) name.now (record { code = kind; bytes = bytes.now })) (E.told edits.new) (E.changed edits.old) (E.changed edits.new)) }
    ensures keeps { (m : ℕ → Option (List ℕ)) → E.told edits.old ≡ Some m → OnOk result (HasAllBlocks (bearer_of inode site.sup) m (E.told edits.new)) }
    ensures faults { (m : ℕ → Option (List ℕ)) → E.told edits.old ≡ Some m → IfErr result (IsNotPutNew (bearer_of inode site.sup) bitmap.old m (record { code = kind; bytes = bytes.now }) (ceil (length bytes.now) site.sup.block_size)) }
    ensures rest { bitmap.new ≡ record bitmap.old { tally = bitmap.new.tally } }
    ensures stays { StaysChanged (E.changed edits.old) (E.changed edits.new) }
    ensures size { E.size edits.new ≡ E.size edits.old }
    ensures frame { E.frame edits.new ≡ E.frame edits.old }
    ensures later { AreLater (E.counts edits.old) (E.counts edits.new) }
    ensures cause { IfErr result (HasAddCause (max 1 (max (ceil 2048 site.sup.block_size) (ceil (length bytes.now) site.sup.block_size))) (E.counts edits.old) (E.counts edits.new)) }
{
    match directory_at(site, edits, inode) {
        Ok(Some(directory)) => put_stored(
            site, bitmap, edits, inode, directory, kind, name, bytes, stamp,
        ),
        Ok(None) => put_first(site, bitmap, edits, inode, kind, name, bytes, stamp),
        Err(fault) => Err(fault),
    }
}

/// Puts an attribute of a name that none of the inode at a block has: into its small data where it fits there, else into its attribute
/// directory, which is made where there is none. After a fault the call is to be dropped.
pub fn put_new<E: Edits>(
    site: Site,
    bitmap: &mut Bitmap,
    edits: &mut E,
    inode: u64,
    kind: u32,
    name: &[u8],
    bytes: &[u8],
    stamp: i64,
) -> Result<(), MapFault>
    requires valid { IsValid site.sup }
    requires inside { inode < natural site.sup.num_blocks }
    requires size { E.size edits.old ≡ site.sup.block_size }
    requires volume { IsOfVolume (sizes_of site.sup) bitmap.old }
    requires some { 1 ≤ length name.now }
    requires short { length name.now ≤ 255 }
    requires other { bytes_eq name.now own_name ≡ false }
    requires proper { is_proper name.now ≡ true }
    requires unknown { (m : ℕ → Option (List ℕ)) → E.told edits.old ≡ Some m → IsUnknown (bearer_of inode site.sup) bitmap.old m name.now }
    ensures put { (m : ℕ → Option (List ℕ)) → E.told edits.old ≡ Some m → OnOk result (HasPut (bearer_of inode site.sup) bitmap.old bitmap.new m name.now (record { code = kind; bytes = bytes.now }) (E.told edits.new) (E.changed edits.old) (E.changed edits.new)) }
    ensures keeps { (m : ℕ → Option (List ℕ)) → E.told edits.old ≡ Some m → OnOk result (HasAllBlocks (bearer_of inode site.sup) m (E.told edits.new)) }
    ensures clear { (m : ℕ → Option (List ℕ)) → E.told edits.old ≡ Some m → OnOk result (IfSome (E.told edits.new) (KeepsClear bitmap.old bitmap.new m)) }
    ensures items { (m : ℕ → Option (List ℕ)) → E.told edits.old ≡ Some m → OnOk result (IfSome (E.told edits.new) (λ map. GainsItem (record { kind = kind; name = name.now; bytes = bytes.now }) (drop 232 (contents m inode)) (drop 232 (contents map inode)))) }
    ensures faults { (m : ℕ → Option (List ℕ)) → E.told edits.old ≡ Some m → IfErr result (IsNotPutNew (bearer_of inode site.sup) bitmap.old m (record { code = kind; bytes = bytes.now }) (ceil (length bytes.now) site.sup.block_size)) }
    ensures rest { bitmap.new ≡ record bitmap.old { tally = bitmap.new.tally } }
    ensures standing { standing bitmap.new ≡ standing bitmap.old }
    ensures stays { StaysChanged (E.changed edits.old) (E.changed edits.new) }
    ensures size { E.size edits.new ≡ E.size edits.old }
    ensures frame { E.frame edits.new ≡ E.frame edits.old }
    ensures later { AreLater (E.counts edits.old) (E.counts edits.new) }
    ensures cause { IfErr result (HasAddCause (max 1 (max (ceil 2048 site.sup.block_size) (ceil (length bytes.now) site.sup.block_size))) (E.counts edits.old) (E.counts edits.new)) }
{
    let fitted = match put_in_small(site, edits, inode, kind, name, bytes) {
        Ok(fitted) => fitted,
        Err(fault) => return Err(fault),
    };
    if fitted {
        return Ok(());
    }
    put_beyond(site, bitmap, edits, inode, kind, name, bytes, stamp)
}
