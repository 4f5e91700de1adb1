// An attribute that moves out of small data.
ghost use Rattle.std.specs.Prelude.{◌≡◌, ◌≤◌, ◌<◌, ℕ, List, max, length, true, Option, Some, OnOk, IfErr};
ghost use Rattle.bfs_super.specs.Conditions.{IsValid, ceil, natural};
ghost use Rattle.bfs_txn.specs.Faults.{AreLater};
ghost use Rattle.bfs_txn.specs.Told.{StaysChanged};
ghost use Rattle.bfs_stream.specs.Grown.{IsOfVolume};
ghost use Rattle.bfs_stream.specs.Sizes.{sizes_of};
ghost use Rattle.bfs_sound.specs.Inodes.{is_proper};
ghost use Rattle.bfs_attr.specs.Bearers.{bearer_of};
ghost use Rattle.bfs_attrs.specs.Moved.{IsWithin, HasMovedOut, IsNotMoved};
ghost use Rattle.bfs_attrs.specs.Replaced.{HasAllBlocks};
ghost use Rattle.bfs_attrs.specs.Stored.{HasAddCause};

use crate::putting::put_beyond;
use bfs_attr::take_from_small;
use bfs_bitmap::Bitmap;
use bfs_make::Site;
use bfs_stream_pages::MapFault;
use bfs_txn::Edits;

/// Moves an attribute, which stands in the small data of the inode at a block with this type and these bytes, to the attribute
/// directory, which is made where there is none. After a fault the call is to be dropped.
pub fn move_out<E: Edits>(
    site: Site,
    bitmap: &mut Bitmap,
    edits: &mut E,
    inode: u64,
    kind: u32,
    name: &[u8],
    bytes: &[u8],
    stamp: i64,
) -> Result<(), MapFault>
    requires valid { IsValid site.sup }
    requires inside { inode < natural site.sup.num_blocks }
    requires size { E.size edits.old ≡ site.sup.block_size }
    requires volume { IsOfVolume (sizes_of site.sup) bitmap.old }
    requires some { 1 ≤ length name.now }
    requires short { length name.now ≤ 255 }
    requires proper { is_proper name.now ≡ true }
    requires within { (m : ℕ → Option (List ℕ)) → E.told edits.old ≡ Some m → IsWithin (bearer_of inode site.sup) bitmap.old m name.now (record { code = kind; bytes = bytes.now }) }
    ensures moved { (m : ℕ → Option (List ℕ)) → E.told edits.old ≡ Some m → OnOk result (HasMovedOut (bearer_of inode site.sup) bitmap.old bitmap.new m name.now (E.told edits.new) (E.changed edits.old) (E.changed edits.new)) }
    ensures keeps { (m : ℕ → Option (List ℕ)) → E.told edits.old ≡ Some m → OnOk result (HasAllBlocks (bearer_of inode site.sup) m (E.told edits.new)) }
    ensures faults { (m : ℕ → Option (List ℕ)) → E.told edits.old ≡ Some m → IfErr result (IsNotMoved (bearer_of inode site.sup) bitmap.old m name.now (record { code = kind; bytes = bytes.now }) (ceil (length bytes.now) site.sup.block_size)) }
    ensures rest { bitmap.new ≡ record bitmap.old { tally = bitmap.new.tally } }
    ensures stays { StaysChanged (E.changed edits.old) (E.changed edits.new) }
    ensures size { E.size edits.new ≡ E.size edits.old }
    ensures frame { E.frame edits.new ≡ E.frame edits.old }
    ensures later { AreLater (E.counts edits.old) (E.counts edits.new) }
    ensures cause { IfErr result (HasAddCause (max 1 (max (ceil 2048 site.sup.block_size) (ceil (length bytes.now) site.sup.block_size))) (E.counts edits.old) (E.counts edits.new)) }
{
    let taken = match take_from_small(site, edits, inode, name) {
        Ok(taken) => taken,
        Err(fault) => return Err(fault),
    };
    let _ = taken;
    put_beyond(site, bitmap, edits, inode, kind, name, bytes, stamp)
}
