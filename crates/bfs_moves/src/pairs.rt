// The pairs of an index.
ghost use Rattle.std.specs.Prelude.{◌≡◌, ◌<◌, ◌⊎◌, ◌↔◌, ◌^◌, ℕ, pos, List, Option, Some, true, OnOk, IfErr};
ghost use Rattle.std.specs.List.{Contains};
ghost use Rattle.std.specs.List.Sorted.{IsStrictlySortedBy};
ghost use Rattle.bfs_base.specs.Keys.{IsKey, IsTreeKind};
ghost use Rattle.bfs_base.specs.declared.kind.KeyKind.TheVariants.{Text};
ghost use Rattle.bfs_super.specs.Conditions.{IsValid, natural};
ghost use Rattle.bfs_super.specs.Geometry.{geometry_of};
ghost use Rattle.bfs_bitmap.specs.Fills.{IsBitmapBlock};
ghost use Rattle.bfs_node.specs.Search.{IsSought};
ghost use Rattle.bfs_txn.specs.Faults.{AreLater};
ghost use Rattle.bfs_txn.specs.Told.{StaysChanged};
ghost use Rattle.bfs_pages.specs.Maps.{assoc};
ghost use Rattle.bfs_stream.specs.Grown.{IsOfVolume};
ghost use Rattle.bfs_stream.specs.Sizes.{sizes_of};
ghost use Rattle.bfs_stream_pages.specs.Held.{stream_of};
ghost use Rattle.bfs_tree.specs.Listings.{pair_cmp};
ghost use Rattle.bfs_tree.specs.Trees.{Tree};
ghost use Rattle.bfs_make.specs.Mapped.{HasHeld};
ghost use Rattle.bfs_index.specs.Indices.{IsIndex, HasWith, HasWithout};
ghost use Rattle.bfs_make.specs.Refused.{IsUndone, HasReadCause};
ghost use Rattle.bfs_index.specs.Refused.{IsPairFault, HasPairCause};
ghost use Rattle.bfs_shift.specs.Lists.{Lists, with_pairs};
ghost use Rattle.bfs_shift.specs.Work.{IsAtWork, IsStepped};
ghost use Rattle.bfs_moves.specs.Written.{HasIndexAt, HasStreamSince};

use crate::inode::check_inode;
use bfs_bitmap::Bitmap;
use bfs_index::Index;
use bfs_node::KeyKind;
use bfs_stream_pages::MapFault;
use bfs_super::Super;
use bfs_txn::Edits;
use std::alloc::Global;

/// Adds a pair to an index, whose inode is read before.
fn add_pair<E: Edits>(
    alloc: Global,
    sup: &Super,
    bitmap: &mut Bitmap,
    edits: &mut E,
    inode: u64,
    kind: KeyKind,
    key: &[u8],
    id: u64,
) -> Result<(), MapFault>
    requires valid { IsValid sup.now }
    requires inside { inode < natural sup.now.num_blocks }
    requires kind { IsTreeKind kind }
    requires size { E.size edits.old ≡ sup.now.block_size }
    requires volume { IsOfVolume (sizes_of sup.now) bitmap.old }
    requires stream { (m : ℕ → Option (List ℕ)) → E.told edits.old ≡ Some m → HasHeld (record { id = inode; sizes = sizes_of sup.now }) bitmap.old m }
    requires key { IsKey kind key.now }
    requires id { id < 2 ^ 62 }
    ensures added { (m : ℕ → Option (List ℕ)) → E.told edits.old ≡ Some m → IsIndex (record { origin = record { id = inode; sizes = sizes_of sup.now }; kind = kind }) bitmap.old m → OnOk result (HasStreamSince (record { id = inode; sizes = sizes_of sup.now }) bitmap.old bitmap.new m (HasWith kind (stream_of (record { id = inode; sizes = sizes_of sup.now }) m) key.now id) (E.told edits.new) (E.changed edits.old) (E.changed edits.new)) }
    ensures refused { (m : ℕ → Option (List ℕ)) → E.told edits.old ≡ Some m → IsIndex (record { origin = record { id = inode; sizes = sizes_of sup.now }; kind = kind }) bitmap.old m → IfErr result (IsPairFault (record { id = inode; sizes = sizes_of sup.now }) bitmap.old m) }
    ensures rest { bitmap.new ≡ record bitmap.old { tally = bitmap.new.tally } }
    ensures changed { (k : ℕ) → E.changed edits.new k ≡ true → (E.changed edits.old k ≡ true) ⊎ (IsBitmapBlock bitmap.old k ⊎ (k < natural sup.now.num_blocks)) }
    ensures stays { StaysChanged (E.changed edits.old) (E.changed edits.new) }
    ensures size { E.size edits.new ≡ E.size edits.old }
    ensures frame { E.frame edits.new ≡ E.frame edits.old }
    ensures later { AreLater (E.counts edits.old) (E.counts edits.new) }
    ensures cause { IfErr result (HasPairCause (E.counts edits.old) (E.counts edits.new)) }
{
    match check_inode(alloc, sup, edits, inode) {
        Ok(()) => {}
        Err(fault) => return Err(fault),
    }
    let mut index = Index::at(alloc, inode, kind, sup);
    match index.add(bitmap, edits, key, id) {
        Ok(()) => Ok(()),
        Err(fault) => Err(fault),
    }
}

/// Lists a node under a key in an index. The pairs that it lists then are those from before, and this one.
pub fn list_pair<E: Edits>(
    alloc: Global,
    sup: &Super,
    bitmap: &mut Bitmap,
    edits: &mut E,
    inode: u64,
    kind: KeyKind,
    key: &[u8],
    id: u64,
) -> Result<(), MapFault>
    requires valid { IsValid sup.now }
    requires inside { inode < natural sup.now.num_blocks }
    requires kind { IsTreeKind kind }
    requires size { E.size edits.old ≡ sup.now.block_size }
    requires volume { IsOfVolume (sizes_of sup.now) bitmap.old }
    requires index { (m : ℕ → Option (List ℕ)) → E.told edits.old ≡ Some m → HasIndexAt (geometry_of sup.now) bitmap.old m inode kind }
    requires key { IsKey kind key.now }
    requires id { id < 2 ^ 62 }
    ensures listed { (m : ℕ → Option (List ℕ)) (tree : Tree) (lists : Lists) (loose : List ℕ) (name : List ℕ) (pairs : List (List ℕ × ℕ)) → E.told edits.old ≡ Some m → IsAtWork (geometry_of sup.now) bitmap.old m tree lists loose → assoc Text lists.names name ≡ Some (pos inode) → lists.kinds name ≡ kind → IsStrictlySortedBy (pair_cmp kind) pairs → ((k : List ℕ) (n : ℕ) → Contains pairs (k, n) ↔ (Contains (lists.pairs name) (k, n) ⊎ ((k ≡ key.now) × (n ≡ id)))) → OnOk result (IsStepped (geometry_of sup.now) bitmap.old bitmap.new m tree tree (with_pairs lists name pairs) loose (E.told edits.new) (E.changed edits.old) (E.changed edits.new)) }
    ensures refused { (m : ℕ → Option (List ℕ)) (tree : Tree) (lists : Lists) (loose : List ℕ) (name : List ℕ) → E.told edits.old ≡ Some m → IsAtWork (geometry_of sup.now) bitmap.old m tree lists loose → assoc Text lists.names name ≡ Some (pos inode) → lists.kinds name ≡ kind → IfErr result (IsPairFault (record { id = inode; sizes = sizes_of sup.now }) bitmap.old m) }
    ensures rest { bitmap.new ≡ record bitmap.old { tally = bitmap.new.tally } }
    ensures changed { (k : ℕ) → E.changed edits.new k ≡ true → (E.changed edits.old k ≡ true) ⊎ (IsBitmapBlock bitmap.old k ⊎ (k < natural sup.now.num_blocks)) }
    ensures stays { StaysChanged (E.changed edits.old) (E.changed edits.new) }
    ensures size { E.size edits.new ≡ E.size edits.old }
    ensures frame { E.frame edits.new ≡ E.frame edits.old }
    ensures later { AreLater (E.counts edits.old) (E.counts edits.new) }
    ensures cause { IfErr result (HasPairCause (E.counts edits.old) (E.counts edits.new)) }
{
    match add_pair(alloc, sup, bitmap, edits, inode, kind, key, id) {
        Ok(()) => {}
        Err(fault) => return Err(fault),
    }
    match check_inode(alloc, sup, edits, inode) {
        Ok(()) => Ok(()),
        Err(fault) => Err(fault),
    }
}

/// Takes a pair out of an index, whose inode is read before.
fn take_pair<E: Edits>(
    alloc: Global,
    sup: &Super,
    bitmap: &mut Bitmap,
    edits: &mut E,
    inode: u64,
    kind: KeyKind,
    key: &[u8],
    id: u64,
) -> Result<(), MapFault>
    requires valid { IsValid sup.now }
    requires inside { inode < natural sup.now.num_blocks }
    requires kind { IsTreeKind kind }
    requires size { E.size edits.old ≡ sup.now.block_size }
    requires volume { IsOfVolume (sizes_of sup.now) bitmap.old }
    requires stream { (m : ℕ → Option (List ℕ)) → E.told edits.old ≡ Some m → HasHeld (record { id = inode; sizes = sizes_of sup.now }) bitmap.old m }
    requires key { IsSought kind key.now }
    ensures taken { (m : ℕ → Option (List ℕ)) → E.told edits.old ≡ Some m → IsIndex (record { origin = record { id = inode; sizes = sizes_of sup.now }; kind = kind }) bitmap.old m → OnOk result (HasStreamSince (record { id = inode; sizes = sizes_of sup.now }) bitmap.old bitmap.new m (HasWithout kind (stream_of (record { id = inode; sizes = sizes_of sup.now }) m) key.now id) (E.told edits.new) (E.changed edits.old) (E.changed edits.new)) }
    ensures refused { (m : ℕ → Option (List ℕ)) → E.told edits.old ≡ Some m → IsIndex (record { origin = record { id = inode; sizes = sizes_of sup.now }; kind = kind }) bitmap.old m → IfErr result IsUndone }
    ensures rest { bitmap.new ≡ record bitmap.old { tally = bitmap.new.tally } }
    ensures changed { (k : ℕ) → E.changed edits.new k ≡ true → (E.changed edits.old k ≡ true) ⊎ (IsBitmapBlock bitmap.old k ⊎ (k < natural sup.now.num_blocks)) }
    ensures stays { StaysChanged (E.changed edits.old) (E.changed edits.new) }
    ensures size { E.size edits.new ≡ E.size edits.old }
    ensures frame { E.frame edits.new ≡ E.frame edits.old }
    ensures later { AreLater (E.counts edits.old) (E.counts edits.new) }
    ensures cause { IfErr result (HasReadCause (E.counts edits.old) (E.counts edits.new)) }
{
    match check_inode(alloc, sup, edits, inode) {
        Ok(()) => {}
        Err(fault) => return Err(fault),
    }
    let mut index = Index::at(alloc, inode, kind, sup);
    match index.remove(bitmap, edits, key, id) {
        Ok(()) => Ok(()),
        Err(fault) => Err(fault),
    }
}

/// Takes a node out of an index, where it is listed under a key. The pairs that it lists then are those from before, without this one.
pub fn unlist_pair<E: Edits>(
    alloc: Global,
    sup: &Super,
    bitmap: &mut Bitmap,
    edits: &mut E,
    inode: u64,
    kind: KeyKind,
    key: &[u8],
    id: u64,
) -> Result<(), MapFault>
    requires valid { IsValid sup.now }
    requires inside { inode < natural sup.now.num_blocks }
    requires kind { IsTreeKind kind }
    requires size { E.size edits.old ≡ sup.now.block_size }
    requires volume { IsOfVolume (sizes_of sup.now) bitmap.old }
    requires index { (m : ℕ → Option (List ℕ)) → E.told edits.old ≡ Some m → HasIndexAt (geometry_of sup.now) bitmap.old m inode kind }
    requires key { IsSought kind key.now }
    ensures unlisted { (m : ℕ → Option (List ℕ)) (tree : Tree) (lists : Lists) (loose : List ℕ) (name : List ℕ) (pairs : List (List ℕ × ℕ)) → E.told edits.old ≡ Some m → IsAtWork (geometry_of sup.now) bitmap.old m tree lists loose → assoc Text lists.names name ≡ Some (pos inode) → lists.kinds name ≡ kind → IsStrictlySortedBy (pair_cmp kind) pairs → ((k : List ℕ) (n : ℕ) → Contains pairs (k, n) ↔ (Contains (lists.pairs name) (k, n) × ((k ≡ key.now) × (n ≡ id) → ⊥))) → OnOk result (IsStepped (geometry_of sup.now) bitmap.old bitmap.new m tree tree (with_pairs lists name pairs) loose (E.told edits.new) (E.changed edits.old) (E.changed edits.new)) }
    ensures refused { (m : ℕ → Option (List ℕ)) (tree : Tree) (lists : Lists) (loose : List ℕ) (name : List ℕ) → E.told edits.old ≡ Some m → IsAtWork (geometry_of sup.now) bitmap.old m tree lists loose → assoc Text lists.names name ≡ Some (pos inode) → lists.kinds name ≡ kind → IfErr result IsUndone }
    ensures rest { bitmap.new ≡ record bitmap.old { tally = bitmap.new.tally } }
    ensures changed { (k : ℕ) → E.changed edits.new k ≡ true → (E.changed edits.old k ≡ true) ⊎ (IsBitmapBlock bitmap.old k ⊎ (k < natural sup.now.num_blocks)) }
    ensures stays { StaysChanged (E.changed edits.old) (E.changed edits.new) }
    ensures size { E.size edits.new ≡ E.size edits.old }
    ensures frame { E.frame edits.new ≡ E.frame edits.old }
    ensures later { AreLater (E.counts edits.old) (E.counts edits.new) }
    ensures cause { IfErr result (HasReadCause (E.counts edits.old) (E.counts edits.new)) }
{
    match take_pair(alloc, sup, bitmap, edits, inode, kind, key, id) {
        Ok(()) => {}
        Err(fault) => return Err(fault),
    }
    match check_inode(alloc, sup, edits, inode) {
        Ok(()) => Ok(()),
        Err(fault) => Err(fault),
    }
}
