// An index.
ghost use Rattle.std.specs.Prelude.{◌≡◌, ◌<◌, ◌⊎◌, ◌^◌, ℕ, true, List, Option, Some, OnOk, IfErr, MatchResult};
ghost use Rattle.bfs_base.specs.Keys.{IsKey, IsTreeKind};
ghost use Rattle.bfs_super.specs.Conditions.{IsValid, natural};
ghost use Rattle.bfs_bitmap.specs.Fills.{IsBitmapBlock};
ghost use Rattle.bfs_node.specs.Search.{IsSought};
ghost use Rattle.bfs_txn.specs.Faults.{AreLater};
ghost use Rattle.bfs_txn.specs.Told.{StaysChanged};
ghost use Rattle.bfs_stream.specs.Grown.{IsOfVolume};
ghost use Rattle.bfs_stream.specs.Sizes.{sizes_of};
ghost use Rattle.bfs_stream_pages.specs.Held.{stream_of};
ghost use Rattle.bfs_values.specs.Kinds.{IsWanted};
ghost use Rattle.bfs_values.specs.Reached.{IsWholeTree};
ghost use Rattle.bfs_maps.specs.Mapped.{HasReadable, HasHeld};
ghost use Rattle.bfs_maps.specs.Refused.{IsChangeFault, IsTakingFault, IsReadFault, IsUndone, HasReadCause};
ghost use Rattle.bfs_index.specs.Indices.{IsIndex, HasAdded, HasTaken, pairs_at, found_between};
ghost use Rattle.bfs_index.specs.Refused.{IsPairPage, IsPairFault, HasPairCause};

use crate::changing::{add_pair, take_pair};
use crate::found::{Pairs, pairs_of_rows};
use bfs_bitmap::Bitmap;
use bfs_maps::{TreeAt, rows_from};
use bfs_node::{KeyKind, TreeFault};
use bfs_stream_pages::MapFault;
use bfs_super::Super;
use bfs_txn::Edits;
use std::alloc::Global;
use std::marker::Model;

/// The index whose inode is at a block: a set of pairs of a key and an id. A key is given by its bytes, as they stand in a page of
/// the index. Nothing of it is kept in memory.
#[derive(Drop)]
pub struct Index {
    alloc: Global,
    inode: u64,
    kind: KeyKind,
    sup: Super,
}

impl Model for Index {
    ghost use Rattle.std.specs.Prelude.{◌≡◌, ◌<◌};
    ghost use Rattle.bfs_base.specs.Keys.{IsTreeKind};
    ghost use Rattle.bfs_super.specs.Conditions.{IsValid, natural};
    ghost use Rattle.bfs_stream.specs.Sizes.{sizes_of};
    ghost use Rattle.bfs_index.specs.Indices.{Place};

    ghost Value = { Place };

    ghost view = { λ d. record { origin = record { id = d.inode; sizes = sizes_of d.sup }; kind = d.kind } };

    ghost invariant = { λ d. IsValid d.sup × (d.inode < natural d.sup.num_blocks) × IsTreeKind d.kind };
}

impl Index {
    ghost use Rattle.bfs_index.specs.Indices.{Place};

    /// The index whose inode is at this block, with this kind of keys. Takes no memory.
    pub fn at(alloc: Global, inode: u64, kind: KeyKind, sup: &Super) -> Index
        requires valid { IsValid sup.now }
        requires inside { inode < natural sup.now.num_blocks }
        requires kind { IsTreeKind kind }
        ensures { result ≡ record { origin = record { id = inode; sizes = sizes_of sup.now }; kind = kind } }
    {
        Index {
            alloc,
            inode,
            kind,
            sup: *sup,
        }
    }

    /// Adds a pair. One that is there stays.
    pub fn add<E: Edits>(
        &mut self,
        bitmap: &mut Bitmap,
        edits: &mut E,
        key: &[u8],
        id: u64,
    ) -> Result<(), MapFault>
        requires size { E.size edits.old ≡ self.old.origin.sizes.block_size }
        requires volume { IsOfVolume self.old.origin.sizes bitmap.old }
        requires stream { (m : ℕ → Option (List ℕ)) → E.told edits.old ≡ Some m → HasHeld self.old.origin bitmap.old m }
        requires key { IsKey self.old.kind key.now }
        requires id { id < 2 ^ 62 }
        ensures added { (m : ℕ → Option (List ℕ)) → E.told edits.old ≡ Some m → IsIndex self.old bitmap.old m → OnOk result (HasAdded self.old bitmap.old bitmap.new m key.now id (E.told edits.new) (E.changed edits.old) (E.changed edits.new)) }
        ensures refused { (m : ℕ → Option (List ℕ)) → E.told edits.old ≡ Some m → IsIndex self.old bitmap.old m → IfErr result (IsPairFault self.old.origin bitmap.old m) }
        ensures blamed { (m : ℕ → Option (List ℕ)) → E.told edits.old ≡ Some m → IfErr result (IsChangeFault (IsPairPage self.old.kind key.now) self.old.origin bitmap.old m (E.told edits.new)) }
        ensures same { self.new ≡ self.old }
        ensures rest { bitmap.new ≡ record bitmap.old { tally = bitmap.new.tally } }
        ensures changed { (k : ℕ) → E.changed edits.new k ≡ true → (E.changed edits.old k ≡ true) ⊎ (IsBitmapBlock bitmap.old k ⊎ (k < self.old.origin.sizes.blocks)) }
        ensures stays { StaysChanged (E.changed edits.old) (E.changed edits.new) }
        ensures size { E.size edits.new ≡ E.size edits.old }
        ensures frame { E.frame edits.new ≡ E.frame edits.old }
        ensures later { AreLater (E.counts edits.old) (E.counts edits.new) }
        ensures cause { IfErr result (HasPairCause (E.counts edits.old) (E.counts edits.new)) }
    {
        let tree = TreeAt {
            alloc: self.alloc,
            inode: self.inode,
            sup: self.sup,
            kind: self.kind,
        };
        add_pair(tree, bitmap, edits, key, id)
    }

    /// Takes a pair out. Where it isn't there, nothing changes.
    pub fn remove<E: Edits>(
        &mut self,
        bitmap: &mut Bitmap,
        edits: &mut E,
        key: &[u8],
        id: u64,
    ) -> Result<(), MapFault>
        requires size { E.size edits.old ≡ self.old.origin.sizes.block_size }
        requires volume { IsOfVolume self.old.origin.sizes bitmap.old }
        requires stream { (m : ℕ → Option (List ℕ)) → E.told edits.old ≡ Some m → HasHeld self.old.origin bitmap.old m }
        requires key { IsSought self.old.kind key.now }
        ensures taken { (m : ℕ → Option (List ℕ)) → E.told edits.old ≡ Some m → IsIndex self.old bitmap.old m → OnOk result (HasTaken self.old bitmap.old bitmap.new m key.now id (E.told edits.new) (E.changed edits.old) (E.changed edits.new)) }
        ensures refused { (m : ℕ → Option (List ℕ)) → E.told edits.old ≡ Some m → IsIndex self.old bitmap.old m → IfErr result IsUndone }
        ensures blamed { (m : ℕ → Option (List ℕ)) → E.told edits.old ≡ Some m → IfErr result (IsTakingFault (IsPairPage self.old.kind key.now) self.old.origin m (E.told edits.new)) }
        ensures same { self.new ≡ self.old }
        ensures rest { bitmap.new ≡ record bitmap.old { tally = bitmap.new.tally } }
        ensures changed { (k : ℕ) → E.changed edits.new k ≡ true → (E.changed edits.old k ≡ true) ⊎ (IsBitmapBlock bitmap.old k ⊎ (k < self.old.origin.sizes.blocks)) }
        ensures stays { StaysChanged (E.changed edits.old) (E.changed edits.new) }
        ensures size { E.size edits.new ≡ E.size edits.old }
        ensures frame { E.frame edits.new ≡ E.frame edits.old }
        ensures later { AreLater (E.counts edits.old) (E.counts edits.new) }
        ensures cause { IfErr result (HasReadCause (E.counts edits.old) (E.counts edits.new)) }
    {
        let tree = TreeAt {
            alloc: self.alloc,
            inode: self.inode,
            sup: self.sup,
            kind: self.kind,
        };
        take_pair(tree, bitmap, edits, key, id)
    }

    /// The pairs with a key from one to another, both inclusive, by key, then by id. Only the index's own blocks are read.
    pub fn range<E: Edits>(
        &mut self,
        bitmap: &mut Bitmap,
        edits: &mut E,
        low: &[u8],
        high: &[u8],
    ) -> Result<Pairs, MapFault>
        requires size { E.size edits.old ≡ self.old.origin.sizes.block_size }
        requires stream { (m : ℕ → Option (List ℕ)) → E.told edits.old ≡ Some m → HasReadable self.old.origin m }
        requires low { IsSought self.old.kind low.now }
        requires high { IsSought self.old.kind high.now }
        ensures found { (m : ℕ → Option (List ℕ)) → E.told edits.old ≡ Some m → IsWholeTree self.old.kind (stream_of self.old.origin m) → MatchResult result (λ pairs. pairs ≡ found_between self.old.kind low.now high.now (pairs_at self.old m)) IsUndone }
        ensures refused { (m : ℕ → Option (List ℕ)) → E.told edits.old ≡ Some m → IfErr result (IsReadFault (IsWanted self.old.kind (stream_of self.old.origin m)) self.old.origin m) }
        ensures same { self.new ≡ self.old }
        ensures bitmap { bitmap.new ≡ bitmap.old }
        ensures told { E.told edits.new ≡ E.told edits.old }
        ensures changed { E.changed edits.new ≡ E.changed edits.old }
        ensures pairs { E.pairs edits.new ≡ E.pairs edits.old }
        ensures size { E.size edits.new ≡ E.size edits.old }
        ensures frame { E.frame edits.new ≡ E.frame edits.old }
        ensures later { AreLater (E.counts edits.old) (E.counts edits.new) }
        ensures cause { IfErr result (HasReadCause (E.counts edits.old) (E.counts edits.new)) }
    {
        let _ = bitmap;
        let tree = TreeAt {
            alloc: self.alloc,
            inode: self.inode,
            sup: self.sup,
            kind: self.kind,
        };
        let ranged = match rows_from(tree, edits, Some(low), Some(high)) {
            Ok(ranged) => ranged,
            Err(fault) => return Err(fault),
        };
        match pairs_of_rows(self.alloc, &ranged) {
            Ok(pairs) => Ok(pairs),
            Err(_) => Err(TreeFault::NoMemory),
        }
    }
}
