// Changes of a tree in a stream, all of whose values are plain numbers.
ghost use Rattle.std.specs.Prelude.{◌≡◌, ◌<◌, ◌⊎◌, ◌^◌, ℕ, pos, true, List, Option, None, Some, OnOk, IfOk, IfErr};
ghost use Rattle.bfs_base.specs.Keys.{IsKey, IsTreeKind};
ghost use Rattle.bfs_super.specs.Conditions.{IsValid, natural};
ghost use Rattle.bfs_bitmap.specs.Fills.{IsBitmapBlock};
ghost use Rattle.bfs_node.specs.Search.{IsSought};
ghost use Rattle.bfs_txn.specs.Faults.{AreLater};
ghost use Rattle.bfs_txn.specs.Told.{StaysChanged};
ghost use Rattle.bfs_pages.specs.Answers.{IsOfKind};
ghost use Rattle.bfs_pages.specs.Maps.{assoc, put, without};
ghost use Rattle.bfs_stream.specs.Grown.{IsOfVolume};
ghost use Rattle.bfs_stream.specs.Sizes.{sizes_of};
ghost use Rattle.bfs_maps.specs.Mapped.{origin_of, rows_of, HasHeld, IsMap, HasRowsNow};
ghost use Rattle.bfs_maps.specs.Refused.{IsNumberPage, IsChangeFault, IsTakingFault, IsPutFault, IsTakeFault, HasPutCause, HasTakeCause};

use crate::TreeAt;
use crate::writing::{put_row, take_row};
use bfs_bitmap::Bitmap;
use bfs_stream_pages::MapFault;
use bfs_txn::Edits;

/// Puts a key with a number into a tree, where the key isn't there.
pub fn put_number<E: Edits>(
    tree: TreeAt,
    bitmap: &mut Bitmap,
    edits: &mut E,
    key: &[u8],
    number: u64,
) -> Result<(), MapFault>
    requires valid { IsValid tree.sup }
    requires inside { tree.inode < natural tree.sup.num_blocks }
    requires kind { IsTreeKind tree.kind }
    requires key { IsKey tree.kind key.now }
    requires number { number < 2 ^ 62 }
    requires size { E.size edits.old ≡ tree.sup.block_size }
    requires volume { IsOfVolume (sizes_of tree.sup) bitmap.old }
    requires stream { (m : ℕ → Option (List ℕ)) → E.told edits.old ≡ Some m → HasHeld (origin_of tree) bitmap.old m }
    ensures put { (m : ℕ → Option (List ℕ)) → E.told edits.old ≡ Some m → IsMap tree.kind (origin_of tree) bitmap.old m → OnOk result (HasRowsNow tree.kind (origin_of tree) bitmap.old bitmap.new m (put tree.kind (rows_of tree.kind (origin_of tree) m) key.now (pos number)) (E.told edits.new) (E.changed edits.old) (E.changed edits.new)) }
    ensures absent { (m : ℕ → Option (List ℕ)) → E.told edits.old ≡ Some m → IsMap tree.kind (origin_of tree) bitmap.old m → OnOk result (assoc tree.kind (rows_of tree.kind (origin_of tree) m) key.now ≡ None) }
    ensures refused { (m : ℕ → Option (List ℕ)) → E.told edits.old ≡ Some m → IsMap tree.kind (origin_of tree) bitmap.old m → IfErr result (IsPutFault tree.kind (origin_of tree) bitmap.old m (rows_of tree.kind (origin_of tree) m) key.now) }
    ensures blamed { (m : ℕ → Option (List ℕ)) → E.told edits.old ≡ Some m → IfErr result (IsChangeFault (IsOfKind tree.kind) (origin_of tree) bitmap.old m (E.told edits.new)) }
    ensures rest { bitmap.new ≡ record bitmap.old { tally = bitmap.new.tally } }
    ensures changed { (k : ℕ) → E.changed edits.new k ≡ true → (E.changed edits.old k ≡ true) ⊎ (IsBitmapBlock bitmap.old k ⊎ (k < natural tree.sup.num_blocks)) }
    ensures stays { StaysChanged (E.changed edits.old) (E.changed edits.new) }
    ensures size { E.size edits.new ≡ E.size edits.old }
    ensures frame { E.frame edits.new ≡ E.frame edits.old }
    ensures later { AreLater (E.counts edits.old) (E.counts edits.new) }
    ensures cause { IfErr result (HasPutCause (E.counts edits.old) (E.counts edits.new)) }
{
    put_row(tree, bitmap, edits, key, number)
}

/// Takes a key out of a tree, and tells its number.
pub fn take_number<E: Edits>(
    tree: TreeAt,
    bitmap: &mut Bitmap,
    edits: &mut E,
    key: &[u8],
) -> Result<u64, MapFault>
    requires valid { IsValid tree.sup }
    requires inside { tree.inode < natural tree.sup.num_blocks }
    requires kind { IsTreeKind tree.kind }
    requires key { IsSought tree.kind key.now }
    requires size { E.size edits.old ≡ tree.sup.block_size }
    requires volume { IsOfVolume (sizes_of tree.sup) bitmap.old }
    requires stream { (m : ℕ → Option (List ℕ)) → E.told edits.old ≡ Some m → HasHeld (origin_of tree) bitmap.old m }
    ensures taken { (m : ℕ → Option (List ℕ)) → E.told edits.old ≡ Some m → IsMap tree.kind (origin_of tree) bitmap.old m → OnOk result (HasRowsNow tree.kind (origin_of tree) bitmap.old bitmap.new m (without tree.kind (rows_of tree.kind (origin_of tree) m) key.now) (E.told edits.new) (E.changed edits.old) (E.changed edits.new)) }
    ensures number { (m : ℕ → Option (List ℕ)) → E.told edits.old ≡ Some m → IsMap tree.kind (origin_of tree) bitmap.old m → IfOk result (λ number. assoc tree.kind (rows_of tree.kind (origin_of tree) m) key.now ≡ Some (pos number)) }
    ensures refused { (m : ℕ → Option (List ℕ)) → E.told edits.old ≡ Some m → IsMap tree.kind (origin_of tree) bitmap.old m → IfErr result (IsTakeFault tree.kind (rows_of tree.kind (origin_of tree) m) key.now) }
    ensures blamed { (m : ℕ → Option (List ℕ)) → E.told edits.old ≡ Some m → IfErr result (IsTakingFault (IsNumberPage tree.kind) (origin_of tree) m (E.told edits.new)) }
    ensures rest { bitmap.new ≡ record bitmap.old { tally = bitmap.new.tally } }
    ensures changed { (k : ℕ) → E.changed edits.new k ≡ true → (E.changed edits.old k ≡ true) ⊎ (IsBitmapBlock bitmap.old k ⊎ (k < natural tree.sup.num_blocks)) }
    ensures stays { StaysChanged (E.changed edits.old) (E.changed edits.new) }
    ensures size { E.size edits.new ≡ E.size edits.old }
    ensures frame { E.frame edits.new ≡ E.frame edits.old }
    ensures later { AreLater (E.counts edits.old) (E.counts edits.new) }
    ensures cause { IfErr result (HasTakeCause (E.counts edits.old) (E.counts edits.new)) }
{
    take_row(tree, bitmap, edits, key)
}
