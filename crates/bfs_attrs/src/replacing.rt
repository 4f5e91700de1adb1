// An attribute that is put, whether or not there is one of its name.
ghost use Rattle.std.specs.Prelude.{◌≡◌, ◌≢◌, ◌≤◌, ◌<◌, ℕ, List, max, length, drop, true, false, Option, Some, OnOk, IfErr, IfSome};
ghost use Rattle.std.specs.Str.{bytes_eq};
ghost use Rattle.bfs_bitmap.specs.Runs.{as_kept};
ghost use Rattle.bfs_super.specs.Conditions.{IsValid, ceil, natural};
ghost use Rattle.bfs_txn.specs.Faults.{AreLater};
ghost use Rattle.bfs_txn.specs.Told.{StaysChanged};
ghost use Rattle.bfs_stream.specs.Grown.{IsOfVolume};
ghost use Rattle.bfs_stream.specs.Sizes.{sizes_of};
ghost use Rattle.bfs_stream.specs.Standing.{standing};
ghost use Rattle.bfs_stream.specs.Told.{contents};
ghost use Rattle.bfs_maps.specs.Refused.{HasTakeCause, IsUndone};
ghost use Rattle.bfs_sound.specs.Attributes.{own_name};
ghost use Rattle.bfs_sound.specs.Inodes.{is_proper};
ghost use Rattle.bfs_attr.specs.Bearers.{bearer_of};
ghost use Rattle.bfs_attr.specs.Changed.{Holds, HasPut};
ghost use Rattle.bfs_attr_write.specs.Removal.{KeepsClear};
ghost use Rattle.bfs_attrs.specs.Removed.{LosesItem};
ghost use Rattle.bfs_attrs.specs.Replaced.{HasCleared, IsNotPut, ExchangesItem};
ghost use Rattle.bfs_attrs.specs.Stored.{HasAddCause};

use crate::putting::put_new;
use crate::taking::take;
use bfs_bitmap::Bitmap;
use bfs_make::Site;
use bfs_node::TreeFault;
use bfs_stream_pages::MapFault;
use bfs_txn::Edits;

/// A fault but that there is none.
fn unless_absent(fault: MapFault) -> Result<(), MapFault>
    ensures none { OnOk result (fault ≡ TreeFault.Absent) }
    ensures other { IfErr result (λ other. (other ≡ fault) × (fault ≢ TreeFault.Absent)) }
{
    match fault {
        TreeFault::Absent => Ok(()),
        TreeFault::Exists => Err(TreeFault::Exists),
        TreeFault::Damaged { page, kind } => Err(TreeFault::Damaged { page, kind }),
        TreeFault::Pages(fault) => Err(TreeFault::Pages(fault)),
        TreeFault::NoMemory => Err(TreeFault::NoMemory),
    }
}

/// Takes the attribute of a name of the inode at a block, where there is one. After a fault the call is to be dropped.
fn clear<E: Edits>(
    site: Site,
    bitmap: &mut Bitmap,
    edits: &mut E,
    inode: u64,
    name: &[u8],
) -> Result<(), MapFault>
    requires valid { IsValid site.sup }
    requires size { E.size edits.old ≡ site.sup.block_size }
    requires volume { IsOfVolume (sizes_of site.sup) bitmap.old }
    requires holds { (m : ℕ → Option (List ℕ)) → E.told edits.old ≡ Some m → Holds (bearer_of inode site.sup) bitmap.old m }
    ensures cleared { (m : ℕ → Option (List ℕ)) → E.told edits.old ≡ Some m → OnOk result (HasCleared (bearer_of inode site.sup) bitmap.old bitmap.new m name.now (E.told edits.new) (E.changed edits.old) (E.changed edits.new)) }
    ensures clear { (m : ℕ → Option (List ℕ)) → E.told edits.old ≡ Some m → OnOk result (IfSome (E.told edits.new) (KeepsClear bitmap.old bitmap.new m)) }
    ensures items { (m : ℕ → Option (List ℕ)) → E.told edits.old ≡ Some m → OnOk result (IfSome (E.told edits.new) (λ map. LosesItem name.now (drop 232 (contents m inode)) (drop 232 (contents map inode)))) }
    ensures undone { (m : ℕ → Option (List ℕ)) → E.told edits.old ≡ Some m → IfErr result IsUndone }
    ensures rest { bitmap.new ≡ record bitmap.old { given = bitmap.new.given; tally = bitmap.new.tally } }
    ensures kept { as_kept bitmap.new ≡ as_kept bitmap.old }
    ensures standing { standing bitmap.new ≡ standing bitmap.old }
    ensures stays { StaysChanged (E.changed edits.old) (E.changed edits.new) }
    ensures size { E.size edits.new ≡ E.size edits.old }
    ensures frame { E.frame edits.new ≡ E.frame edits.old }
    ensures later { AreLater (E.counts edits.old) (E.counts edits.new) }
    ensures cause { IfErr result (λ fault. (fault ≢ TreeFault.Absent) × HasTakeCause (E.counts edits.old) (E.counts edits.new) fault) }
{
    match take(site, bitmap, edits, inode, name) {
        Ok(()) => Ok(()),
        Err(fault) => unless_absent(fault),
    }
}

/// Puts an attribute of the inode at a block, in the place of the one of its name if there is one: into its small data where it fits
/// there, else into its attribute directory, which is made where there is none. It stands nowhere else since. After a fault the call
/// is to be dropped.
pub fn put<E: Edits>(
    site: Site,
    bitmap: &mut Bitmap,
    edits: &mut E,
    inode: u64,
    kind: u32,
    name: &[u8],
    bytes: &[u8],
    stamp: i64,
) -> Result<(), MapFault>
    requires valid { IsValid site.sup }
    requires inside { inode < natural site.sup.num_blocks }
    requires size { E.size edits.old ≡ site.sup.block_size }
    requires volume { IsOfVolume (sizes_of site.sup) bitmap.old }
    requires some { 1 ≤ length name.now }
    requires short { length name.now ≤ 255 }
    requires other { bytes_eq name.now own_name ≡ false }
    requires proper { is_proper name.now ≡ true }
    requires holds { (m : ℕ → Option (List ℕ)) → E.told edits.old ≡ Some m → Holds (bearer_of inode site.sup) bitmap.old m }
    ensures put { (m : ℕ → Option (List ℕ)) → E.told edits.old ≡ Some m → OnOk result (HasPut (bearer_of inode site.sup) bitmap.old bitmap.new m name.now (record { code = kind; bytes = bytes.now }) (E.told edits.new) (E.changed edits.old) (E.changed edits.new)) }
    ensures clear { (m : ℕ → Option (List ℕ)) → E.told edits.old ≡ Some m → OnOk result (IfSome (E.told edits.new) (KeepsClear bitmap.old bitmap.new m)) }
    ensures items { (m : ℕ → Option (List ℕ)) → E.told edits.old ≡ Some m → OnOk result (IfSome (E.told edits.new) (λ map. ExchangesItem (record { kind = kind; name = name.now; bytes = bytes.now }) (drop 232 (contents m inode)) (drop 232 (contents map inode)))) }
    ensures faults { (m : ℕ → Option (List ℕ)) → E.told edits.old ≡ Some m → IfErr result (IsNotPut (bearer_of inode site.sup) bitmap.old m name.now (record { code = kind; bytes = bytes.now }) (ceil (length bytes.now) site.sup.block_size)) }
    ensures rest { bitmap.new ≡ record bitmap.old { given = bitmap.new.given; tally = bitmap.new.tally } }
    ensures kept { as_kept bitmap.new ≡ as_kept bitmap.old }
    ensures standing { standing bitmap.new ≡ standing bitmap.old }
    ensures stays { StaysChanged (E.changed edits.old) (E.changed edits.new) }
    ensures size { E.size edits.new ≡ E.size edits.old }
    ensures frame { E.frame edits.new ≡ E.frame edits.old }
    ensures later { AreLater (E.counts edits.old) (E.counts edits.new) }
    ensures cause { IfErr result (HasAddCause (max 1 (max (ceil 2048 site.sup.block_size) (ceil (length bytes.now) site.sup.block_size))) (E.counts edits.old) (E.counts edits.new)) }
{
    match clear(site, bitmap, edits, inode, name) {
        Ok(()) => {}
        Err(fault) => return Err(fault),
    }
    put_new(site, bitmap, edits, inode, kind, name, bytes, stamp)
}
