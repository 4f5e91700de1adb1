// Changes of a tree in a stream, at a key whose value is a plain number.
ghost use Rattle.std.specs.Prelude.{◌≡◌, ◌≤◌, ◌<◌, ◌⊎◌, ◌^◌, ◌%◌, ℕ, pos, true, List, Option, None, Some, OnOk, IfOk, IfErr};
ghost use Rattle.bfs_base.specs.Keys.{IsKey, IsTreeKind};
ghost use Rattle.bfs_super.specs.Conditions.{IsValid, natural};
ghost use Rattle.bfs_bitmap.specs.Fills.{IsBitmapBlock};
ghost use Rattle.bfs_node.specs.Search.{IsSought};
ghost use Rattle.bfs_txn.specs.Faults.{AreLater};
ghost use Rattle.bfs_txn.specs.Told.{StaysChanged};
ghost use Rattle.bfs_pages.specs.Answers.{IsOfKind};
ghost use Rattle.bfs_pages.specs.Maps.{assoc, put, without};
ghost use Rattle.bfs_stream.specs.Grown.{IsOfVolume};
ghost use Rattle.bfs_stream.specs.Sizes.{sizes_of};
ghost use Rattle.bfs_stream_pages.specs.Held.{Held, stream_of, IsInodeOf};
ghost use Rattle.bfs_values.specs.Reached.{IsWholeTree};
ghost use Rattle.bfs_maps.specs.Mapped.{origin_of, rows_of, HasHeld};
ghost use Rattle.bfs_maps.specs.NumberTrees.{HoldsNumber};
ghost use Rattle.bfs_maps.specs.RowTrees.{HasTree, HasTreeWith, AreRowsNow};
ghost use Rattle.bfs_maps.specs.Refused.{IsNumberPage, IsChangeFault, IsTakingFault, IsPutFault, IsTakeFault, HasPutCause, HasTakeCause};

use crate::TreeAt;
use crate::over_pages::{put_in, take_in};
use crate::size::stream_size;
use bfs_bitmap::Bitmap;
use bfs_node::{KeyKind, TreeFault};
use bfs_stream_pages::{MapFault, StreamPages};
use bfs_txn::{Edits, Steps};
use std::marker::Brand;
use std::sync::ledger::{Blank, Ledger};

/// Puts a key with a number.
fn put_over<E: Edits, L: Ledger>(
    pages: &mut StreamPages<'_, '_, E>,
    kind: KeyKind,
    key: &[u8],
    number: u64,
    steps: &mut Steps<L>,
) -> Result<(), MapFault>
    requires unfailed { pages.old.failed ≡ None }
    requires begun { pages.old.start.value ≡ pages.old.edits.now }
    requires kind { IsTreeKind kind }
    requires key { IsKey kind key.now }
    requires number { number < 2 ^ 62 }
    ensures put { (m : ℕ → Option (List ℕ)) → E.told pages.old.edits.now ≡ Some m → Held pages.old.backing pages.old.bitmap.now pages.old.length m → IsWholeTree kind (stream_of pages.old.backing m) → OnOk result (AreRowsNow kind pages.old.backing pages.old.bitmap.now pages.new.bitmap.now m (put kind (rows_of kind pages.old.backing m) key.now (pos number)) (E.told pages.new.edits.now) (E.changed pages.old.edits.now) (E.changed pages.new.edits.now)) }
    ensures absent { (m : ℕ → Option (List ℕ)) → E.told pages.old.edits.now ≡ Some m → Held pages.old.backing pages.old.bitmap.now pages.old.length m → IsWholeTree kind (stream_of pages.old.backing m) → OnOk result (assoc kind (rows_of kind pages.old.backing m) key.now ≡ None) }
    ensures refused { (m : ℕ → Option (List ℕ)) → E.told pages.old.edits.now ≡ Some m → Held pages.old.backing pages.old.bitmap.now pages.old.length m → IsWholeTree kind (stream_of pages.old.backing m) → IfErr result (IsPutFault kind pages.old.backing pages.old.bitmap.now m (rows_of kind pages.old.backing m) key.now) }
    ensures blamed { (m : ℕ → Option (List ℕ)) → E.told pages.old.edits.now ≡ Some m → Held pages.old.backing pages.old.bitmap.now pages.old.length m → IfErr result (IsChangeFault (IsOfKind kind) pages.old.backing pages.old.bitmap.now m (E.told pages.new.edits.now)) }
    ensures rest { pages.new.bitmap.now ≡ record pages.old.bitmap.now { tally = pages.new.bitmap.now.tally } }
    ensures backing { pages.new.backing ≡ pages.old.backing }
    ensures changed { (k : ℕ) → E.changed pages.new.edits.now k ≡ true → (E.changed pages.old.edits.now k ≡ true) ⊎ (IsBitmapBlock pages.old.bitmap.now k ⊎ (k < pages.old.backing.sizes.blocks)) }
    ensures stays { StaysChanged (E.changed pages.old.edits.now) (E.changed pages.new.edits.now) }
    ensures edits_name { pages.new.edits.ghost_name ≡ pages.old.edits.ghost_name }
    ensures bitmap_name { pages.new.bitmap.ghost_name ≡ pages.old.bitmap.ghost_name }
    ensures frame { E.frame pages.new.edits.now ≡ E.frame pages.old.edits.now }
    ensures later { AreLater (E.counts pages.old.edits.now) (E.counts pages.new.edits.now) }
    ensures cause { IfErr result (HasPutCause (E.counts pages.old.edits.now) (E.counts pages.new.edits.now)) }
{
    put_in(pages, kind, key, number, steps)
}

/// Puts a key with a number, in a stream of so many bytes.
fn put_with<E: Edits, L: Ledger>(
    tree: TreeAt,
    length: u64,
    bytes: &[u8],
    bitmap: &mut Bitmap,
    edits: &mut E,
    key: &[u8],
    number: u64,
    ledger: Blank,
) -> Result<(), MapFault>
    requires name { ledger.name ≡ L.name }
    requires parts { ledger.parts ≡ L.parts }
    requires some { 0 < L.parts }
    requires valid { IsValid tree.sup }
    requires inside { tree.inode < natural tree.sup.num_blocks }
    requires kind { IsTreeKind tree.kind }
    requires key { IsKey tree.kind key.now }
    requires number { number < 2 ^ 62 }
    requires size { E.size edits.old ≡ tree.sup.block_size }
    requires volume { IsOfVolume (sizes_of tree.sup) bitmap.old }
    requires whole { length % 1024 ≡ 0 }
    requires bytes { IsInodeOf (origin_of tree) (E.told edits.old) bytes.now }
    requires held { (m : ℕ → Option (List ℕ)) → E.told edits.old ≡ Some m → ∥ Held (origin_of tree) bitmap.old length m ∥₁ }
    ensures put { (m : ℕ → Option (List ℕ)) → E.told edits.old ≡ Some m → Held (origin_of tree) bitmap.old length m → IsWholeTree tree.kind (stream_of (origin_of tree) m) → OnOk result (AreRowsNow tree.kind (origin_of tree) bitmap.old bitmap.new m (put tree.kind (rows_of tree.kind (origin_of tree) m) key.now (pos number)) (E.told edits.new) (E.changed edits.old) (E.changed edits.new)) }
    ensures absent { (m : ℕ → Option (List ℕ)) → E.told edits.old ≡ Some m → Held (origin_of tree) bitmap.old length m → IsWholeTree tree.kind (stream_of (origin_of tree) m) → OnOk result (assoc tree.kind (rows_of tree.kind (origin_of tree) m) key.now ≡ None) }
    ensures refused { (m : ℕ → Option (List ℕ)) → E.told edits.old ≡ Some m → Held (origin_of tree) bitmap.old length m → IsWholeTree tree.kind (stream_of (origin_of tree) m) → IfErr result (IsPutFault tree.kind (origin_of tree) bitmap.old m (rows_of tree.kind (origin_of tree) m) key.now) }
    ensures blamed { (m : ℕ → Option (List ℕ)) → E.told edits.old ≡ Some m → Held (origin_of tree) bitmap.old length m → IfErr result (IsChangeFault (IsOfKind tree.kind) (origin_of tree) bitmap.old m (E.told edits.new)) }
    ensures rest { bitmap.new ≡ record bitmap.old { tally = bitmap.new.tally } }
    ensures changed { (k : ℕ) → E.changed edits.new k ≡ true → (E.changed edits.old k ≡ true) ⊎ (IsBitmapBlock bitmap.old k ⊎ (k < natural tree.sup.num_blocks)) }
    ensures stays { StaysChanged (E.changed edits.old) (E.changed edits.new) }
    ensures size { E.size edits.new ≡ E.size edits.old }
    ensures frame { E.frame edits.new ≡ E.frame edits.old }
    ensures later { AreLater (E.counts edits.old) (E.counts edits.new) }
    ensures cause { IfErr result (HasPutCause (E.counts edits.old) (E.counts edits.new)) }
{
    let mut steps = Steps::<L>::begin(ledger);
    let mut pages = StreamPages::over(
        tree.alloc,
        edits,
        bitmap,
        tree.inode,
        &tree.sup,
        length,
        false,
        Some(bytes),
    );
    put_over(&mut pages, tree.kind, key, number, &mut steps)
}

/// Puts a key with a number into a tree, where the key isn't there. Rows that mean anything else stay.
pub fn put_row<E: Edits>(
    tree: TreeAt,
    bitmap: &mut Bitmap,
    edits: &mut E,
    key: &[u8],
    number: u64,
) -> Result<(), MapFault>
    requires valid { IsValid tree.sup }
    requires inside { tree.inode < natural tree.sup.num_blocks }
    requires kind { IsTreeKind tree.kind }
    requires key { IsKey tree.kind key.now }
    requires number { number < 2 ^ 62 }
    requires size { E.size edits.old ≡ tree.sup.block_size }
    requires volume { IsOfVolume (sizes_of tree.sup) bitmap.old }
    requires stream { (m : ℕ → Option (List ℕ)) → E.told edits.old ≡ Some m → HasHeld (origin_of tree) bitmap.old m }
    ensures put { (m : ℕ → Option (List ℕ)) → E.told edits.old ≡ Some m → HasTree tree.kind (origin_of tree) bitmap.old m → OnOk result (AreRowsNow tree.kind (origin_of tree) bitmap.old bitmap.new m (put tree.kind (rows_of tree.kind (origin_of tree) m) key.now (pos number)) (E.told edits.new) (E.changed edits.old) (E.changed edits.new)) }
    ensures absent { (m : ℕ → Option (List ℕ)) → E.told edits.old ≡ Some m → HasTree tree.kind (origin_of tree) bitmap.old m → OnOk result (assoc tree.kind (rows_of tree.kind (origin_of tree) m) key.now ≡ None) }
    ensures refused { (m : ℕ → Option (List ℕ)) → E.told edits.old ≡ Some m → HasTree tree.kind (origin_of tree) bitmap.old m → IfErr result (IsPutFault tree.kind (origin_of tree) bitmap.old m (rows_of tree.kind (origin_of tree) m) key.now) }
    ensures blamed { (m : ℕ → Option (List ℕ)) → E.told edits.old ≡ Some m → IfErr result (IsChangeFault (IsOfKind tree.kind) (origin_of tree) bitmap.old m (E.told edits.new)) }
    ensures rest { bitmap.new ≡ record bitmap.old { tally = bitmap.new.tally } }
    ensures changed { (k : ℕ) → E.changed edits.new k ≡ true → (E.changed edits.old k ≡ true) ⊎ (IsBitmapBlock bitmap.old k ⊎ (k < natural tree.sup.num_blocks)) }
    ensures stays { StaysChanged (E.changed edits.old) (E.changed edits.new) }
    ensures size { E.size edits.new ≡ E.size edits.old }
    ensures frame { E.frame edits.new ≡ E.frame edits.old }
    ensures later { AreLater (E.counts edits.old) (E.counts edits.new) }
    ensures cause { IfErr result (HasPutCause (E.counts edits.old) (E.counts edits.new)) }
{
    let opened = match stream_size(tree, edits) {
        Ok(opened) => opened,
        Err(fault) => return Err(TreeFault::Pages(fault)),
    };
    put_with::<E, Brand>(
        tree,
        opened.length,
        &opened.inode,
        bitmap,
        edits,
        key,
        number,
        Blank::new(1),
    )
}

/// Takes a key out, and tells its number.
fn take_over<E: Edits, L: Ledger>(
    pages: &mut StreamPages<'_, '_, E>,
    kind: KeyKind,
    key: &[u8],
    steps: &mut Steps<L>,
) -> Result<u64, MapFault>
    requires unfailed { pages.old.failed ≡ None }
    requires fixed { pages.old.fixed ≡ true }
    requires begun { pages.old.start.value ≡ pages.old.edits.now }
    requires kind { IsTreeKind kind }
    requires key { IsSought kind key.now }
    ensures taken { (m : ℕ → Option (List ℕ)) → E.told pages.old.edits.now ≡ Some m → Held pages.old.backing pages.old.bitmap.now pages.old.length m → HoldsNumber kind key.now (stream_of pages.old.backing m) → OnOk result (AreRowsNow kind pages.old.backing pages.old.bitmap.now pages.new.bitmap.now m (without kind (rows_of kind pages.old.backing m) key.now) (E.told pages.new.edits.now) (E.changed pages.old.edits.now) (E.changed pages.new.edits.now)) }
    ensures number { (m : ℕ → Option (List ℕ)) → E.told pages.old.edits.now ≡ Some m → Held pages.old.backing pages.old.bitmap.now pages.old.length m → HoldsNumber kind key.now (stream_of pages.old.backing m) → IfOk result (λ number. assoc kind (rows_of kind pages.old.backing m) key.now ≡ Some (pos number)) }
    ensures refused { (m : ℕ → Option (List ℕ)) → E.told pages.old.edits.now ≡ Some m → Held pages.old.backing pages.old.bitmap.now pages.old.length m → HoldsNumber kind key.now (stream_of pages.old.backing m) → IfErr result (IsTakeFault kind (rows_of kind pages.old.backing m) key.now) }
    ensures blamed { (m : ℕ → Option (List ℕ)) → E.told pages.old.edits.now ≡ Some m → Held pages.old.backing pages.old.bitmap.now pages.old.length m → IfErr result (IsTakingFault (IsNumberPage kind) pages.old.backing m (E.told pages.new.edits.now)) }
    ensures rest { pages.new.bitmap.now ≡ record pages.old.bitmap.now { tally = pages.new.bitmap.now.tally } }
    ensures backing { pages.new.backing ≡ pages.old.backing }
    ensures changed { (k : ℕ) → E.changed pages.new.edits.now k ≡ true → (E.changed pages.old.edits.now k ≡ true) ⊎ (IsBitmapBlock pages.old.bitmap.now k ⊎ (k < pages.old.backing.sizes.blocks)) }
    ensures stays { StaysChanged (E.changed pages.old.edits.now) (E.changed pages.new.edits.now) }
    ensures edits_name { pages.new.edits.ghost_name ≡ pages.old.edits.ghost_name }
    ensures bitmap_name { pages.new.bitmap.ghost_name ≡ pages.old.bitmap.ghost_name }
    ensures frame { E.frame pages.new.edits.now ≡ E.frame pages.old.edits.now }
    ensures later { AreLater (E.counts pages.old.edits.now) (E.counts pages.new.edits.now) }
    ensures cause { IfErr result (HasTakeCause (E.counts pages.old.edits.now) (E.counts pages.new.edits.now)) }
{
    take_in(pages, kind, key, steps)
}

/// Takes a key out, in a stream of so many bytes.
fn take_with<E: Edits, L: Ledger>(
    tree: TreeAt,
    length: u64,
    bytes: &[u8],
    bitmap: &mut Bitmap,
    edits: &mut E,
    key: &[u8],
    ledger: Blank,
) -> Result<u64, MapFault>
    requires name { ledger.name ≡ L.name }
    requires parts { ledger.parts ≡ L.parts }
    requires some { 0 < L.parts }
    requires valid { IsValid tree.sup }
    requires inside { tree.inode < natural tree.sup.num_blocks }
    requires kind { IsTreeKind tree.kind }
    requires key { IsSought tree.kind key.now }
    requires size { E.size edits.old ≡ tree.sup.block_size }
    requires volume { IsOfVolume (sizes_of tree.sup) bitmap.old }
    requires whole { length % 1024 ≡ 0 }
    requires bytes { IsInodeOf (origin_of tree) (E.told edits.old) bytes.now }
    requires held { (m : ℕ → Option (List ℕ)) → E.told edits.old ≡ Some m → ∥ Held (origin_of tree) bitmap.old length m ∥₁ }
    ensures taken { (m : ℕ → Option (List ℕ)) → E.told edits.old ≡ Some m → Held (origin_of tree) bitmap.old length m → HoldsNumber tree.kind key.now (stream_of (origin_of tree) m) → OnOk result (AreRowsNow tree.kind (origin_of tree) bitmap.old bitmap.new m (without tree.kind (rows_of tree.kind (origin_of tree) m) key.now) (E.told edits.new) (E.changed edits.old) (E.changed edits.new)) }
    ensures number { (m : ℕ → Option (List ℕ)) → E.told edits.old ≡ Some m → Held (origin_of tree) bitmap.old length m → HoldsNumber tree.kind key.now (stream_of (origin_of tree) m) → IfOk result (λ number. assoc tree.kind (rows_of tree.kind (origin_of tree) m) key.now ≡ Some (pos number)) }
    ensures refused { (m : ℕ → Option (List ℕ)) → E.told edits.old ≡ Some m → Held (origin_of tree) bitmap.old length m → HoldsNumber tree.kind key.now (stream_of (origin_of tree) m) → IfErr result (IsTakeFault tree.kind (rows_of tree.kind (origin_of tree) m) key.now) }
    ensures blamed { (m : ℕ → Option (List ℕ)) → E.told edits.old ≡ Some m → Held (origin_of tree) bitmap.old length m → IfErr result (IsTakingFault (IsNumberPage tree.kind) (origin_of tree) m (E.told edits.new)) }
    ensures rest { bitmap.new ≡ record bitmap.old { tally = bitmap.new.tally } }
    ensures changed { (k : ℕ) → E.changed edits.new k ≡ true → (E.changed edits.old k ≡ true) ⊎ (IsBitmapBlock bitmap.old k ⊎ (k < natural tree.sup.num_blocks)) }
    ensures stays { StaysChanged (E.changed edits.old) (E.changed edits.new) }
    ensures size { E.size edits.new ≡ E.size edits.old }
    ensures frame { E.frame edits.new ≡ E.frame edits.old }
    ensures later { AreLater (E.counts edits.old) (E.counts edits.new) }
    ensures cause { IfErr result (HasTakeCause (E.counts edits.old) (E.counts edits.new)) }
{
    let mut steps = Steps::<L>::begin(ledger);
    let mut pages = StreamPages::over(
        tree.alloc,
        edits,
        bitmap,
        tree.inode,
        &tree.sup,
        length,
        true,
        Some(bytes),
    );
    take_over(&mut pages, tree.kind, key, &mut steps)
}

/// Takes a key with a plain number out of a tree, and tells that. Rows that mean anything else stay.
pub fn take_row<E: Edits>(
    tree: TreeAt,
    bitmap: &mut Bitmap,
    edits: &mut E,
    key: &[u8],
) -> Result<u64, MapFault>
    requires valid { IsValid tree.sup }
    requires inside { tree.inode < natural tree.sup.num_blocks }
    requires kind { IsTreeKind tree.kind }
    requires key { IsSought tree.kind key.now }
    requires size { E.size edits.old ≡ tree.sup.block_size }
    requires volume { IsOfVolume (sizes_of tree.sup) bitmap.old }
    requires stream { (m : ℕ → Option (List ℕ)) → E.told edits.old ≡ Some m → HasHeld (origin_of tree) bitmap.old m }
    ensures taken { (m : ℕ → Option (List ℕ)) → E.told edits.old ≡ Some m → HasTreeWith tree.kind key.now (origin_of tree) bitmap.old m → OnOk result (AreRowsNow tree.kind (origin_of tree) bitmap.old bitmap.new m (without tree.kind (rows_of tree.kind (origin_of tree) m) key.now) (E.told edits.new) (E.changed edits.old) (E.changed edits.new)) }
    ensures number { (m : ℕ → Option (List ℕ)) → E.told edits.old ≡ Some m → HasTreeWith tree.kind key.now (origin_of tree) bitmap.old m → IfOk result (λ number. assoc tree.kind (rows_of tree.kind (origin_of tree) m) key.now ≡ Some (pos number)) }
    ensures refused { (m : ℕ → Option (List ℕ)) → E.told edits.old ≡ Some m → HasTreeWith tree.kind key.now (origin_of tree) bitmap.old m → IfErr result (IsTakeFault tree.kind (rows_of tree.kind (origin_of tree) m) key.now) }
    ensures blamed { (m : ℕ → Option (List ℕ)) → E.told edits.old ≡ Some m → IfErr result (IsTakingFault (IsNumberPage tree.kind) (origin_of tree) m (E.told edits.new)) }
    ensures rest { bitmap.new ≡ record bitmap.old { tally = bitmap.new.tally } }
    ensures changed { (k : ℕ) → E.changed edits.new k ≡ true → (E.changed edits.old k ≡ true) ⊎ (IsBitmapBlock bitmap.old k ⊎ (k < natural tree.sup.num_blocks)) }
    ensures stays { StaysChanged (E.changed edits.old) (E.changed edits.new) }
    ensures size { E.size edits.new ≡ E.size edits.old }
    ensures frame { E.frame edits.new ≡ E.frame edits.old }
    ensures later { AreLater (E.counts edits.old) (E.counts edits.new) }
    ensures cause { IfErr result (HasTakeCause (E.counts edits.old) (E.counts edits.new)) }
{
    let opened = match stream_size(tree, edits) {
        Ok(opened) => opened,
        Err(fault) => return Err(TreeFault::Pages(fault)),
    };
    take_with::<E, Brand>(
        tree,
        opened.length,
        &opened.inode,
        bitmap,
        edits,
        key,
        Blank::new(1),
    )
}
