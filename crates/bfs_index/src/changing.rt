// Changes of an index in a stream.
ghost use Rattle.std.specs.Prelude.{◌≡◌, ◌<◌, ◌⊎◌, ◌^◌, ◌%◌, ℕ, true, List, Option, None, Some, OnOk, IfErr};
ghost use Rattle.bfs_base.specs.Keys.{IsKey, IsTreeKind};
ghost use Rattle.bfs_super.specs.Conditions.{IsValid, natural};
ghost use Rattle.bfs_bitmap.specs.Fills.{IsBitmapBlock};
ghost use Rattle.bfs_node.specs.Search.{IsSought};
ghost use Rattle.bfs_txn.specs.Faults.{AreLater};
ghost use Rattle.bfs_txn.specs.Told.{StaysChanged};
ghost use Rattle.bfs_stream.specs.Grown.{IsOfVolume};
ghost use Rattle.bfs_stream.specs.Sizes.{sizes_of};
ghost use Rattle.bfs_stream_pages.specs.Held.{Held, stream_of, IsInodeOf};
ghost use Rattle.bfs_values.specs.Reached.{IsWholeTree};
ghost use Rattle.bfs_maps.specs.Mapped.{origin_of, HasHeld, StreamNow};
ghost use Rattle.bfs_maps.specs.Refused.{IsChangeFault, IsTakingFault, IsUndone, HasReadCause};
ghost use Rattle.bfs_index.specs.Indices.{IsIndex, HasWith, HasWithout};
ghost use Rattle.bfs_index.specs.Refused.{IsPairPage, IsPairFault, HasPairCause};

use crate::adding::add_in;
use crate::taking::take_in;
use bfs_bitmap::Bitmap;
use bfs_maps::{TreeAt, stream_size};
use bfs_node::{KeyKind, TreeFault};
use bfs_stream_pages::{MapFault, StreamPages};
use bfs_txn::{Edits, Steps};
use std::marker::Brand;
use std::sync::ledger::{Blank, Ledger};

/// Adds a pair.
fn add_over<E: Edits, L: Ledger>(
    pages: &mut StreamPages<'_, '_, E>,
    kind: KeyKind,
    key: &[u8],
    id: u64,
    steps: &mut Steps<L>,
) -> Result<(), MapFault>
    requires unfailed { pages.old.failed ≡ None }
    requires begun { pages.old.start.value ≡ pages.old.edits.now }
    requires kind { IsTreeKind kind }
    requires key { IsKey kind key.now }
    requires id { id < 2 ^ 62 }
    ensures added { (m : ℕ → Option (List ℕ)) → E.told pages.old.edits.now ≡ Some m → Held pages.old.backing pages.old.bitmap.now pages.old.length m → IsWholeTree kind (stream_of pages.old.backing m) → OnOk result (StreamNow pages.old.backing pages.old.bitmap.now pages.new.bitmap.now m (HasWith kind (stream_of pages.old.backing m) key.now id) (E.told pages.new.edits.now) (E.changed pages.old.edits.now) (E.changed pages.new.edits.now)) }
    ensures refused { (m : ℕ → Option (List ℕ)) → E.told pages.old.edits.now ≡ Some m → Held pages.old.backing pages.old.bitmap.now pages.old.length m → IsWholeTree kind (stream_of pages.old.backing m) → IfErr result (IsPairFault pages.old.backing pages.old.bitmap.now m) }
    ensures blamed { (m : ℕ → Option (List ℕ)) → E.told pages.old.edits.now ≡ Some m → Held pages.old.backing pages.old.bitmap.now pages.old.length m → IfErr result (IsChangeFault (IsPairPage kind key.now) pages.old.backing pages.old.bitmap.now m (E.told pages.new.edits.now)) }
    ensures rest { pages.new.bitmap.now ≡ record pages.old.bitmap.now { tally = pages.new.bitmap.now.tally } }
    ensures backing { pages.new.backing ≡ pages.old.backing }
    ensures changed { (k : ℕ) → E.changed pages.new.edits.now k ≡ true → (E.changed pages.old.edits.now k ≡ true) ⊎ (IsBitmapBlock pages.old.bitmap.now k ⊎ (k < pages.old.backing.sizes.blocks)) }
    ensures stays { StaysChanged (E.changed pages.old.edits.now) (E.changed pages.new.edits.now) }
    ensures edits_name { pages.new.edits.ghost_name ≡ pages.old.edits.ghost_name }
    ensures bitmap_name { pages.new.bitmap.ghost_name ≡ pages.old.bitmap.ghost_name }
    ensures frame { E.frame pages.new.edits.now ≡ E.frame pages.old.edits.now }
    ensures later { AreLater (E.counts pages.old.edits.now) (E.counts pages.new.edits.now) }
    ensures cause { IfErr result (HasPairCause (E.counts pages.old.edits.now) (E.counts pages.new.edits.now)) }
{
    add_in(pages, kind, key, id, steps)
}

/// Adds a pair, in a stream of so many bytes.
fn add_with<E: Edits, L: Ledger>(
    tree: TreeAt,
    length: u64,
    bytes: &[u8],
    bitmap: &mut Bitmap,
    edits: &mut E,
    key: &[u8],
    id: u64,
    ledger: Blank,
) -> Result<(), MapFault>
    requires name { ledger.name ≡ L.name }
    requires parts { ledger.parts ≡ L.parts }
    requires some { 0 < L.parts }
    requires valid { IsValid tree.sup }
    requires inside { tree.inode < natural tree.sup.num_blocks }
    requires kind { IsTreeKind tree.kind }
    requires key { IsKey tree.kind key.now }
    requires id { id < 2 ^ 62 }
    requires size { E.size edits.old ≡ tree.sup.block_size }
    requires volume { IsOfVolume (sizes_of tree.sup) bitmap.old }
    requires whole { length % 1024 ≡ 0 }
    requires bytes { IsInodeOf (origin_of tree) (E.told edits.old) bytes.now }
    requires held { (m : ℕ → Option (List ℕ)) → E.told edits.old ≡ Some m → ∥ Held (origin_of tree) bitmap.old length m ∥₁ }
    ensures added { (m : ℕ → Option (List ℕ)) → E.told edits.old ≡ Some m → Held (origin_of tree) bitmap.old length m → IsWholeTree tree.kind (stream_of (origin_of tree) m) → OnOk result (StreamNow (origin_of tree) bitmap.old bitmap.new m (HasWith tree.kind (stream_of (origin_of tree) m) key.now id) (E.told edits.new) (E.changed edits.old) (E.changed edits.new)) }
    ensures refused { (m : ℕ → Option (List ℕ)) → E.told edits.old ≡ Some m → Held (origin_of tree) bitmap.old length m → IsWholeTree tree.kind (stream_of (origin_of tree) m) → IfErr result (IsPairFault (origin_of tree) bitmap.old m) }
    ensures blamed { (m : ℕ → Option (List ℕ)) → E.told edits.old ≡ Some m → Held (origin_of tree) bitmap.old length m → IfErr result (IsChangeFault (IsPairPage tree.kind key.now) (origin_of tree) bitmap.old m (E.told edits.new)) }
    ensures rest { bitmap.new ≡ record bitmap.old { tally = bitmap.new.tally } }
    ensures changed { (k : ℕ) → E.changed edits.new k ≡ true → (E.changed edits.old k ≡ true) ⊎ (IsBitmapBlock bitmap.old k ⊎ (k < natural tree.sup.num_blocks)) }
    ensures stays { StaysChanged (E.changed edits.old) (E.changed edits.new) }
    ensures size { E.size edits.new ≡ E.size edits.old }
    ensures frame { E.frame edits.new ≡ E.frame edits.old }
    ensures later { AreLater (E.counts edits.old) (E.counts edits.new) }
    ensures cause { IfErr result (HasPairCause (E.counts edits.old) (E.counts edits.new)) }
{
    let mut steps = Steps::<L>::begin(ledger);
    let mut pages = StreamPages::over(
        tree.alloc,
        edits,
        bitmap,
        tree.inode,
        &tree.sup,
        length,
        false,
        Some(bytes),
    );
    add_over(&mut pages, tree.kind, key, id, &mut steps)
}

/// Adds a pair to an index. One that is there stays.
pub(crate) fn add_pair<E: Edits>(
    tree: TreeAt,
    bitmap: &mut Bitmap,
    edits: &mut E,
    key: &[u8],
    id: u64,
) -> Result<(), MapFault>
    requires valid { IsValid tree.sup }
    requires inside { tree.inode < natural tree.sup.num_blocks }
    requires kind { IsTreeKind tree.kind }
    requires key { IsKey tree.kind key.now }
    requires id { id < 2 ^ 62 }
    requires size { E.size edits.old ≡ tree.sup.block_size }
    requires volume { IsOfVolume (sizes_of tree.sup) bitmap.old }
    requires stream { (m : ℕ → Option (List ℕ)) → E.told edits.old ≡ Some m → HasHeld (origin_of tree) bitmap.old m }
    ensures added { (m : ℕ → Option (List ℕ)) → E.told edits.old ≡ Some m → IsIndex (record { origin = origin_of tree; kind = tree.kind }) bitmap.old m → OnOk result (StreamNow (origin_of tree) bitmap.old bitmap.new m (HasWith tree.kind (stream_of (origin_of tree) m) key.now id) (E.told edits.new) (E.changed edits.old) (E.changed edits.new)) }
    ensures refused { (m : ℕ → Option (List ℕ)) → E.told edits.old ≡ Some m → IsIndex (record { origin = origin_of tree; kind = tree.kind }) bitmap.old m → IfErr result (IsPairFault (origin_of tree) bitmap.old m) }
    ensures blamed { (m : ℕ → Option (List ℕ)) → E.told edits.old ≡ Some m → IfErr result (IsChangeFault (IsPairPage tree.kind key.now) (origin_of tree) bitmap.old m (E.told edits.new)) }
    ensures rest { bitmap.new ≡ record bitmap.old { tally = bitmap.new.tally } }
    ensures changed { (k : ℕ) → E.changed edits.new k ≡ true → (E.changed edits.old k ≡ true) ⊎ (IsBitmapBlock bitmap.old k ⊎ (k < natural tree.sup.num_blocks)) }
    ensures stays { StaysChanged (E.changed edits.old) (E.changed edits.new) }
    ensures size { E.size edits.new ≡ E.size edits.old }
    ensures frame { E.frame edits.new ≡ E.frame edits.old }
    ensures later { AreLater (E.counts edits.old) (E.counts edits.new) }
    ensures cause { IfErr result (HasPairCause (E.counts edits.old) (E.counts edits.new)) }
{
    let opened = match stream_size(tree, edits) {
        Ok(opened) => opened,
        Err(fault) => return Err(TreeFault::Pages(fault)),
    };
    add_with::<E, Brand>(
        tree,
        opened.length,
        &opened.inode,
        bitmap,
        edits,
        key,
        id,
        Blank::new(1),
    )
}

/// Takes a pair out.
fn take_over<E: Edits, L: Ledger>(
    pages: &mut StreamPages<'_, '_, E>,
    kind: KeyKind,
    key: &[u8],
    id: u64,
    steps: &mut Steps<L>,
) -> Result<(), MapFault>
    requires unfailed { pages.old.failed ≡ None }
    requires fixed { pages.old.fixed ≡ true }
    requires begun { pages.old.start.value ≡ pages.old.edits.now }
    requires kind { IsTreeKind kind }
    requires key { IsSought kind key.now }
    ensures taken { (m : ℕ → Option (List ℕ)) → E.told pages.old.edits.now ≡ Some m → Held pages.old.backing pages.old.bitmap.now pages.old.length m → IsWholeTree kind (stream_of pages.old.backing m) → OnOk result (StreamNow pages.old.backing pages.old.bitmap.now pages.new.bitmap.now m (HasWithout kind (stream_of pages.old.backing m) key.now id) (E.told pages.new.edits.now) (E.changed pages.old.edits.now) (E.changed pages.new.edits.now)) }
    ensures refused { (m : ℕ → Option (List ℕ)) → E.told pages.old.edits.now ≡ Some m → Held pages.old.backing pages.old.bitmap.now pages.old.length m → IsWholeTree kind (stream_of pages.old.backing m) → IfErr result IsUndone }
    ensures blamed { (m : ℕ → Option (List ℕ)) → E.told pages.old.edits.now ≡ Some m → Held pages.old.backing pages.old.bitmap.now pages.old.length m → IfErr result (IsTakingFault (IsPairPage kind key.now) pages.old.backing m (E.told pages.new.edits.now)) }
    ensures rest { pages.new.bitmap.now ≡ record pages.old.bitmap.now { tally = pages.new.bitmap.now.tally } }
    ensures backing { pages.new.backing ≡ pages.old.backing }
    ensures changed { (k : ℕ) → E.changed pages.new.edits.now k ≡ true → (E.changed pages.old.edits.now k ≡ true) ⊎ (IsBitmapBlock pages.old.bitmap.now k ⊎ (k < pages.old.backing.sizes.blocks)) }
    ensures stays { StaysChanged (E.changed pages.old.edits.now) (E.changed pages.new.edits.now) }
    ensures edits_name { pages.new.edits.ghost_name ≡ pages.old.edits.ghost_name }
    ensures bitmap_name { pages.new.bitmap.ghost_name ≡ pages.old.bitmap.ghost_name }
    ensures frame { E.frame pages.new.edits.now ≡ E.frame pages.old.edits.now }
    ensures later { AreLater (E.counts pages.old.edits.now) (E.counts pages.new.edits.now) }
    ensures cause { IfErr result (HasReadCause (E.counts pages.old.edits.now) (E.counts pages.new.edits.now)) }
{
    take_in(pages, kind, key, id, steps)
}

/// Takes a pair out, in a stream of so many bytes.
fn take_with<E: Edits, L: Ledger>(
    tree: TreeAt,
    length: u64,
    bytes: &[u8],
    bitmap: &mut Bitmap,
    edits: &mut E,
    key: &[u8],
    id: u64,
    ledger: Blank,
) -> Result<(), MapFault>
    requires name { ledger.name ≡ L.name }
    requires parts { ledger.parts ≡ L.parts }
    requires some { 0 < L.parts }
    requires valid { IsValid tree.sup }
    requires inside { tree.inode < natural tree.sup.num_blocks }
    requires kind { IsTreeKind tree.kind }
    requires key { IsSought tree.kind key.now }
    requires size { E.size edits.old ≡ tree.sup.block_size }
    requires volume { IsOfVolume (sizes_of tree.sup) bitmap.old }
    requires whole { length % 1024 ≡ 0 }
    requires bytes { IsInodeOf (origin_of tree) (E.told edits.old) bytes.now }
    requires held { (m : ℕ → Option (List ℕ)) → E.told edits.old ≡ Some m → ∥ Held (origin_of tree) bitmap.old length m ∥₁ }
    ensures taken { (m : ℕ → Option (List ℕ)) → E.told edits.old ≡ Some m → Held (origin_of tree) bitmap.old length m → IsWholeTree tree.kind (stream_of (origin_of tree) m) → OnOk result (StreamNow (origin_of tree) bitmap.old bitmap.new m (HasWithout tree.kind (stream_of (origin_of tree) m) key.now id) (E.told edits.new) (E.changed edits.old) (E.changed edits.new)) }
    ensures refused { (m : ℕ → Option (List ℕ)) → E.told edits.old ≡ Some m → Held (origin_of tree) bitmap.old length m → IsWholeTree tree.kind (stream_of (origin_of tree) m) → IfErr result IsUndone }
    ensures blamed { (m : ℕ → Option (List ℕ)) → E.told edits.old ≡ Some m → Held (origin_of tree) bitmap.old length m → IfErr result (IsTakingFault (IsPairPage tree.kind key.now) (origin_of tree) m (E.told edits.new)) }
    ensures rest { bitmap.new ≡ record bitmap.old { tally = bitmap.new.tally } }
    ensures changed { (k : ℕ) → E.changed edits.new k ≡ true → (E.changed edits.old k ≡ true) ⊎ (IsBitmapBlock bitmap.old k ⊎ (k < natural tree.sup.num_blocks)) }
    ensures stays { StaysChanged (E.changed edits.old) (E.changed edits.new) }
    ensures size { E.size edits.new ≡ E.size edits.old }
    ensures frame { E.frame edits.new ≡ E.frame edits.old }
    ensures later { AreLater (E.counts edits.old) (E.counts edits.new) }
    ensures cause { IfErr result (HasReadCause (E.counts edits.old) (E.counts edits.new)) }
{
    let mut steps = Steps::<L>::begin(ledger);
    let mut pages = StreamPages::over(
        tree.alloc,
        edits,
        bitmap,
        tree.inode,
        &tree.sup,
        length,
        true,
        Some(bytes),
    );
    take_over(&mut pages, tree.kind, key, id, &mut steps)
}

/// Takes a pair out of an index. Where it isn't there, nothing changes.
pub(crate) fn take_pair<E: Edits>(
    tree: TreeAt,
    bitmap: &mut Bitmap,
    edits: &mut E,
    key: &[u8],
    id: u64,
) -> Result<(), MapFault>
    requires valid { IsValid tree.sup }
    requires inside { tree.inode < natural tree.sup.num_blocks }
    requires kind { IsTreeKind tree.kind }
    requires key { IsSought tree.kind key.now }
    requires size { E.size edits.old ≡ tree.sup.block_size }
    requires volume { IsOfVolume (sizes_of tree.sup) bitmap.old }
    requires stream { (m : ℕ → Option (List ℕ)) → E.told edits.old ≡ Some m → HasHeld (origin_of tree) bitmap.old m }
    ensures taken { (m : ℕ → Option (List ℕ)) → E.told edits.old ≡ Some m → IsIndex (record { origin = origin_of tree; kind = tree.kind }) bitmap.old m → OnOk result (StreamNow (origin_of tree) bitmap.old bitmap.new m (HasWithout tree.kind (stream_of (origin_of tree) m) key.now id) (E.told edits.new) (E.changed edits.old) (E.changed edits.new)) }
    ensures refused { (m : ℕ → Option (List ℕ)) → E.told edits.old ≡ Some m → IsIndex (record { origin = origin_of tree; kind = tree.kind }) bitmap.old m → IfErr result IsUndone }
    ensures blamed { (m : ℕ → Option (List ℕ)) → E.told edits.old ≡ Some m → IfErr result (IsTakingFault (IsPairPage tree.kind key.now) (origin_of tree) m (E.told edits.new)) }
    ensures rest { bitmap.new ≡ record bitmap.old { tally = bitmap.new.tally } }
    ensures changed { (k : ℕ) → E.changed edits.new k ≡ true → (E.changed edits.old k ≡ true) ⊎ (IsBitmapBlock bitmap.old k ⊎ (k < natural tree.sup.num_blocks)) }
    ensures stays { StaysChanged (E.changed edits.old) (E.changed edits.new) }
    ensures size { E.size edits.new ≡ E.size edits.old }
    ensures frame { E.frame edits.new ≡ E.frame edits.old }
    ensures later { AreLater (E.counts edits.old) (E.counts edits.new) }
    ensures cause { IfErr result (HasReadCause (E.counts edits.old) (E.counts edits.new)) }
{
    let opened = match stream_size(tree, edits) {
        Ok(opened) => opened,
        Err(fault) => return Err(TreeFault::Pages(fault)),
    };
    take_with::<E, Brand>(
        tree,
        opened.length,
        &opened.inode,
        bitmap,
        edits,
        key,
        id,
        Blank::new(1),
    )
}
