// An attribute that is put into the attribute directory, with an inode of its own.
ghost use Rattle.std.specs.Prelude.{◌≡◌, ◌≤◌, ◌<◌, ℕ, List, max, length, Option, Some, OnOk, IfErr};
ghost use Rattle.std.specs.FinMap.{insert};
ghost use Rattle.bfs_super.specs.Conditions.{IsValid, ceil, natural};
ghost use Rattle.bfs_super.specs.Geometry.{geometry_of};
ghost use Rattle.bfs_txn.specs.Faults.{AreLater};
ghost use Rattle.bfs_txn.specs.Told.{StaysChanged};
ghost use Rattle.bfs_stream.specs.Grown.{IsOfVolume};
ghost use Rattle.bfs_stream.specs.Sizes.{sizes_of};
ghost use Rattle.bfs_attr.specs.Bearers.{bearer_of, volume_at, attributes_at};
ghost use Rattle.bfs_attr_write.specs.Adding.{CanAdd, HasRowPut};
ghost use Rattle.bfs_attrs.specs.Stored.{CanBegin, HasBegun, IsNotAdded, IsNotBegun, HasAddCause};

use bfs_attr::store_attribute;
use bfs_attr_write::{make_attribute_directory, put_attribute_row};
use bfs_bitmap::Bitmap;
use bfs_make::{Site, run_of, run_start};
use bfs_node::TreeFault;
use bfs_stream_pages::MapFault;
use bfs_txn::Edits;

/// Stores an attribute of a name that none has, of an inode whose attribute directory stands at a block: an inode with its type and
/// bytes, and a row for that. After a fault the call is to be dropped.
pub(crate) fn put_stored<E: Edits>(
    site: Site,
    bitmap: &mut Bitmap,
    edits: &mut E,
    inode: u64,
    directory: u64,
    kind: u32,
    name: &[u8],
    bytes: &[u8],
    stamp: i64,
) -> Result<(), MapFault>
    requires valid { IsValid site.sup }
    requires inside { directory < natural site.sup.num_blocks }
    requires size { E.size edits.old ≡ site.sup.block_size }
    requires volume { IsOfVolume (sizes_of site.sup) bitmap.old }
    requires some { 1 ≤ length name.now }
    requires short { length name.now ≤ 255 }
    requires can { (m : ℕ → Option (List ℕ)) → E.told edits.old ≡ Some m → CanAdd (bearer_of inode site.sup) bitmap.old m directory name.now }
    ensures put { (m : ℕ → Option (List ℕ)) → E.told edits.old ≡ Some m → OnOk result (HasRowPut (bearer_of inode site.sup) bitmap.old bitmap.new m (insert (attributes_at (volume_at (geometry_of site.sup) m) inode) name.now (record { code = kind; bytes = bytes.now })) (E.told edits.new) (E.changed edits.old) (E.changed edits.new)) }
    ensures faults { (m : ℕ → Option (List ℕ)) → E.told edits.old ≡ Some m → IfErr result (IsNotAdded (bearer_of inode site.sup) bitmap.old m directory (record { code = kind; bytes = bytes.now }) (ceil (length bytes.now) site.sup.block_size)) }
    ensures rest { bitmap.new ≡ record bitmap.old { tally = bitmap.new.tally } }
    ensures stays { StaysChanged (E.changed edits.old) (E.changed edits.new) }
    ensures size { E.size edits.new ≡ E.size edits.old }
    ensures frame { E.frame edits.new ≡ E.frame edits.old }
    ensures later { AreLater (E.counts edits.old) (E.counts edits.new) }
    ensures cause { IfErr result (HasAddCause (max 1 (ceil (length bytes.now) site.sup.block_size)) (E.counts edits.old) (E.counts edits.new)) }
{
    let _ = inode;
    let parent = run_of(site, directory);
    let address = match store_attribute(site, bitmap, edits, parent, kind, bytes, stamp) {
        Ok(address) => address,
        Err(fault) => return Err(TreeFault::Pages(fault)),
    };
    let id = run_start(site, address);
    put_attribute_row(site, bitmap, edits, directory, name, id)
}

/// Makes the attribute directory of an inode that has none, and stores an attribute there of a name that none has. After a fault the
/// call is to be dropped.
pub(crate) fn put_first<E: Edits>(
    site: Site,
    bitmap: &mut Bitmap,
    edits: &mut E,
    inode: u64,
    kind: u32,
    name: &[u8],
    bytes: &[u8],
    stamp: i64,
) -> Result<(), MapFault>
    requires valid { IsValid site.sup }
    requires inside { inode < natural site.sup.num_blocks }
    requires size { E.size edits.old ≡ site.sup.block_size }
    requires volume { IsOfVolume (sizes_of site.sup) bitmap.old }
    requires some { 1 ≤ length name.now }
    requires short { length name.now ≤ 255 }
    requires can { (m : ℕ → Option (List ℕ)) → E.told edits.old ≡ Some m → CanBegin (bearer_of inode site.sup) bitmap.old m name.now }
    ensures put { (m : ℕ → Option (List ℕ)) → E.told edits.old ≡ Some m → OnOk result (HasBegun (bearer_of inode site.sup) bitmap.old bitmap.new m (insert (attributes_at (volume_at (geometry_of site.sup) m) inode) name.now (record { code = kind; bytes = bytes.now })) (E.told edits.new) (E.changed edits.old) (E.changed edits.new)) }
    ensures faults { (m : ℕ → Option (List ℕ)) → E.told edits.old ≡ Some m → IfErr result (IsNotBegun (bearer_of inode site.sup) bitmap.old m (record { code = kind; bytes = bytes.now }) (ceil (length bytes.now) site.sup.block_size)) }
    ensures rest { bitmap.new ≡ record bitmap.old { tally = bitmap.new.tally } }
    ensures stays { StaysChanged (E.changed edits.old) (E.changed edits.new) }
    ensures size { E.size edits.new ≡ E.size edits.old }
    ensures frame { E.frame edits.new ≡ E.frame edits.old }
    ensures later { AreLater (E.counts edits.old) (E.counts edits.new) }
    ensures cause { IfErr result (HasAddCause (max 1 (max (ceil 2048 site.sup.block_size) (ceil (length bytes.now) site.sup.block_size))) (E.counts edits.old) (E.counts edits.new)) }
{
    let directory = match make_attribute_directory(site, bitmap, edits, inode, stamp) {
        Ok(directory) => directory,
        Err(fault) => return Err(fault),
    };
    put_stored(
        site, bitmap, edits, inode, directory, kind, name, bytes, stamp,
    )
}
