// A row for an attribute that was stored.
ghost use Rattle.std.specs.Prelude.{◌≡◌, ◌≤◌, ◌<◌, ◌⊎◌, ℕ, true, List, Bool, length, Option, Some, OnOk, IfErr};
ghost use Rattle.std.specs.FinMap.{insert};
ghost use Rattle.bfs_base.specs.declared.kind.KeyKind.TheVariants.{Text};
ghost use Rattle.bfs_super.specs.Conditions.{IsValid, natural};
ghost use Rattle.bfs_super.specs.Geometry.{geometry_of};
ghost use Rattle.bfs_bitmap.specs.Fills.{IsBitmapBlock};
ghost use Rattle.bfs_bitmap.specs.Runs.{Room};
ghost use Rattle.bfs_txn.specs.Faults.{AreLater};
ghost use Rattle.bfs_txn.specs.Told.{StaysChanged};
ghost use Rattle.bfs_pages.specs.Answers.{IsOfKind};
ghost use Rattle.bfs_stream.specs.Grown.{IsOfVolume};
ghost use Rattle.bfs_stream.specs.Sizes.{sizes_of};
ghost use Rattle.bfs_tree.specs.Trees.{Attribute};
ghost use Rattle.bfs_maps.specs.Mapped.{HasHeld};
ghost use Rattle.bfs_maps.specs.Refused.{IsChangeFault, HasPutCause};
ghost use Rattle.bfs_attr.specs.Bearers.{bearer_of, volume_at, origin, attributes_at};
ghost use Rattle.bfs_attr_write.specs.Adding.{CanAdd, IsStored, HasRowPut, IsRowFault};

use bfs_bitmap::Bitmap;
use bfs_make::Site;
use bfs_maps::{TreeAt, put_row};
use bfs_node::KeyKind;
use bfs_stream_pages::MapFault;
use bfs_txn::Edits;

/// Puts a row for an attribute, whose inode was stored at a block in the same call, into the attribute directory at a block.
/// After a fault the call is to be dropped.
pub fn put_attribute_row<E: Edits>(
    site: Site,
    bitmap: &mut Bitmap,
    edits: &mut E,
    directory: u64,
    name: &[u8],
    id: u64,
) -> Result<(), MapFault>
    requires valid { IsValid site.sup }
    requires inside { directory < natural site.sup.num_blocks }
    requires size { E.size edits.old ≡ site.sup.block_size }
    requires volume { IsOfVolume (sizes_of site.sup) bitmap.old }
    requires some { 1 ≤ length name.now }
    requires short { length name.now ≤ 255 }
    requires number { id < natural site.sup.num_blocks }
    requires stream { (m : ℕ → Option (List ℕ)) → E.told edits.old ≡ Some m → HasHeld (origin (geometry_of site.sup) directory) bitmap.old m }
    ensures added { (inode : ℕ) (v : Room) (m map : ℕ → Option (List ℕ)) (attribute : Attribute) (old : ℕ → Bool) → E.told edits.old ≡ Some map → CanAdd (bearer_of inode site.sup) v m directory name.now → IsStored (bearer_of inode site.sup) v bitmap.old m map id attribute old (E.changed edits.old) → OnOk result (HasRowPut (bearer_of inode site.sup) v bitmap.new m (insert (attributes_at (volume_at (geometry_of site.sup) m) inode) name.now attribute) (E.told edits.new) old (E.changed edits.new)) }
    ensures faults { (inode : ℕ) (v : Room) (m map : ℕ → Option (List ℕ)) (attribute : Attribute) (old : ℕ → Bool) → E.told edits.old ≡ Some map → CanAdd (bearer_of inode site.sup) v m directory name.now → IsStored (bearer_of inode site.sup) v bitmap.old m map id attribute old (E.changed edits.old) → IfErr result (IsRowFault (origin (geometry_of site.sup) directory) bitmap.old map) }
    ensures blamed { (m : ℕ → Option (List ℕ)) → E.told edits.old ≡ Some m → IfErr result (IsChangeFault (IsOfKind Text) (origin (geometry_of site.sup) directory) bitmap.old m (E.told edits.new)) }
    ensures rest { bitmap.new ≡ record bitmap.old { tally = bitmap.new.tally } }
    ensures changed { (k : ℕ) → E.changed edits.new k ≡ true → (E.changed edits.old k ≡ true) ⊎ (IsBitmapBlock bitmap.old k ⊎ (k < natural site.sup.num_blocks)) }
    ensures stays { StaysChanged (E.changed edits.old) (E.changed edits.new) }
    ensures size { E.size edits.new ≡ E.size edits.old }
    ensures frame { E.frame edits.new ≡ E.frame edits.old }
    ensures later { AreLater (E.counts edits.old) (E.counts edits.new) }
    ensures cause { IfErr result (HasPutCause (E.counts edits.old) (E.counts edits.new)) }
{
    let tree = TreeAt {
        alloc: site.alloc,
        inode: directory,
        sup: site.sup,
        kind: KeyKind::Text,
    };
    put_row(tree, bitmap, edits, name, id)
}
