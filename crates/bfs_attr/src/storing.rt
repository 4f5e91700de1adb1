// The inodes of attribute directories and of attributes, as they are made.
ghost use Rattle.std.specs.Prelude.{◌≡◌, ◌≤◌, ℕ, List, max, length, Option, Some, IfOk, IfErr, IfSome};
ghost use Rattle.bfs_super.specs.Conditions.{IsValid, ceil};
ghost use Rattle.bfs_super.specs.Geometry.{geometry_of};
ghost use Rattle.bfs_txn.specs.Faults.{AreLater};
ghost use Rattle.bfs_txn.specs.Told.{StaysChanged};
ghost use Rattle.bfs_stream.specs.Faults.{IsGrowCause};
ghost use Rattle.bfs_stream.specs.Grown.{IsOfVolume};
ghost use Rattle.bfs_stream.specs.Sizes.{sizes_of, IsInVolume, first_block};
ghost use Rattle.bfs_make.specs.Made.{formed_at, HasBits, HasStored, IsNotStored};
ghost use Rattle.bfs_attr.specs.Bearers.{volume_at};
ghost use Rattle.bfs_attr.specs.Made.{attribute_form, IsAttributeInode};

use bfs_bitmap::Bitmap;
use bfs_bytes::Run;
use bfs_make::{InodeForm, Site, store};
use bfs_stream::GrowFault;
use bfs_txn::Edits;

/// What the inode of an attribute of a type is made with, of the attribute directory at an address.
fn attribute_inode(parent: Run, kind: u32, stamp: i64) -> InodeForm
    ensures { result ≡ attribute_form parent kind stamp }
{
    InodeForm {
        parent,
        mode: 0x100081a4,
        flags: 5,
        kind,
        stamp,
    }
}

/// Makes the inode of an attribute of a type with these bytes, of the attribute directory at an address. Answers its own address.
pub fn store_attribute<E: Edits>(
    site: Site,
    bitmap: &mut Bitmap,
    edits: &mut E,
    parent: Run,
    kind: u32,
    bytes: &[u8],
    stamp: i64,
) -> Result<Run, GrowFault>
    requires valid { IsValid site.sup }
    requires size { E.size edits.old ≡ site.sup.block_size }
    requires volume { IsOfVolume (sizes_of site.sup) bitmap.old }
    ensures inside { IfOk result (IsInVolume (sizes_of site.sup)) }
    ensures one { IfOk result (λ run. run.len ≡ 1) }
    ensures stored { (m : ℕ → Option (List ℕ)) → E.told edits.old ≡ Some m → HasBits bitmap.old m → IfOk result (λ run. HasStored (sizes_of site.sup) bitmap.old bitmap.new m (formed_at run (attribute_form parent kind stamp)) bytes.now (E.told edits.new) (E.changed edits.old) (E.changed edits.new)) }
    ensures attribute { (m : ℕ → Option (List ℕ)) → E.told edits.old ≡ Some m → HasBits bitmap.old m → IfOk result (λ run. IfSome (E.told edits.new) (λ map. IsAttributeInode (volume_at (geometry_of site.sup) map) (first_block (sizes_of site.sup) run) (record { code = kind; bytes = bytes.now }))) }
    ensures faults { (m : ℕ → Option (List ℕ)) → E.told edits.old ≡ Some m → HasBits bitmap.old m → IfErr result (IsNotStored (sizes_of site.sup) bitmap.old m (ceil (length bytes.now) site.sup.block_size)) }
    ensures rest { bitmap.new ≡ record bitmap.old { tally = bitmap.new.tally } }
    ensures stays { StaysChanged (E.changed edits.old) (E.changed edits.new) }
    ensures size { E.size edits.new ≡ E.size edits.old }
    ensures frame { E.frame edits.new ≡ E.frame edits.old }
    ensures later { AreLater (E.counts edits.old) (E.counts edits.new) }
    ensures cause { IfErr result (IsGrowCause (max 1 (ceil (length bytes.now) site.sup.block_size)) (E.counts edits.old) (E.counts edits.new)) }
{
    store(
        site,
        bitmap,
        edits,
        attribute_inode(parent, kind, stamp),
        bytes,
    )
}
