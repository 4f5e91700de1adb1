// A directory.
ghost use Rattle.std.specs.Prelude.{◌≡◌, ◌≤◌, ◌<◌, ◌⊎◌, ◌^◌, ℕ, pos, true, List, Option, None, Some, OnOk, IfOk, IfErr, MatchResult};
ghost use Rattle.bfs_base.specs.Keys.{IsKey};
ghost use Rattle.bfs_base.specs.declared.kind.KeyKind.TheVariants.{Text};
ghost use Rattle.bfs_super.specs.Conditions.{IsValid, natural};
ghost use Rattle.bfs_bitmap.specs.Fills.{IsBitmapBlock};
ghost use Rattle.bfs_txn.specs.Faults.{AreLater};
ghost use Rattle.bfs_txn.specs.Told.{StaysChanged};
ghost use Rattle.bfs_pages.specs.Answers.{IsOfKind};
ghost use Rattle.bfs_pages.specs.Maps.{assoc, put, without};
ghost use Rattle.bfs_stream.specs.Grown.{IsOfVolume};
ghost use Rattle.bfs_stream.specs.Sizes.{sizes_of};
ghost use Rattle.bfs_stream_pages.specs.Held.{stream_of};
ghost use Rattle.bfs_values.specs.Kinds.{IsWanted};
ghost use Rattle.bfs_maps.specs.Mapped.{HasReadable, HasHeld, HasRowsNow};
ghost use Rattle.bfs_maps.specs.NumberTrees.{IsNumberTree, IsNumberAt, HoldsNumber};
ghost use Rattle.bfs_maps.specs.Refused.{IsNumberPage, IsChangeFault, IsTakingFault, IsReadFault, IsUndone, IsPutFault, IsTakeFault, HasReadCause, HasPutCause, HasTakeCause};
ghost use Rattle.bfs_dir.specs.Directories.{IsDirectory, names_of, listed};

use crate::rows::{DirRows, dir_rows_of};
use bfs_bitmap::Bitmap;
use bfs_maps::{TreeAt, number_at, put_number, rows_from, take_number};
use bfs_node::{KeyKind, TreeFault};
use bfs_stream_pages::MapFault;
use bfs_super::Super;
use bfs_txn::Edits;
use std::alloc::Global;
use std::marker::Model;

/// The directory whose inode is at a block: a map from names to ids, in which `.` and `..` are rows as others. Nothing of it is
/// kept in memory.
#[derive(Drop)]
pub struct Dir {
    alloc: Global,
    inode: u64,
    sup: Super,
}

impl Model for Dir {
    ghost use Rattle.std.specs.Prelude.{◌≡◌, ◌<◌};
    ghost use Rattle.bfs_super.specs.Conditions.{IsValid, natural};
    ghost use Rattle.bfs_stream.specs.Sizes.{Origin, sizes_of};

    ghost Value = { Origin };

    ghost view = { λ d. record { id = d.inode; sizes = sizes_of d.sup } };

    ghost invariant = { λ d. IsValid d.sup × (d.inode < natural d.sup.num_blocks) };
}

impl Dir {
    ghost use Rattle.bfs_stream.specs.Sizes.{Origin};

    /// The directory whose inode is at this block. Takes no memory.
    pub fn at(alloc: Global, inode: u64, sup: &Super) -> Dir
        requires valid { IsValid sup.now }
        requires inside { inode < natural sup.now.num_blocks }
        ensures { result ≡ record { id = inode; sizes = sizes_of sup.now } }
    {
        Dir {
            alloc,
            inode,
            sup: *sup,
        }
    }

    /// The id of a name, or None where the name isn't there. Only the directory's own blocks are read.
    pub fn get<E: Edits>(
        &mut self,
        bitmap: &mut Bitmap,
        edits: &mut E,
        name: &[u8],
    ) -> Result<Option<u64>, MapFault>
        requires size { E.size edits.old ≡ self.old.sizes.block_size }
        requires stream { (m : ℕ → Option (List ℕ)) → E.told edits.old ≡ Some m → HasReadable self.old m }
        ensures found { (m : ℕ → Option (List ℕ)) → E.told edits.old ≡ Some m → HoldsNumber Text name.now (stream_of self.old m) → MatchResult result (IsNumberAt Text (names_of self.old m) name.now) IsUndone }
        ensures refused { (m : ℕ → Option (List ℕ)) → E.told edits.old ≡ Some m → IfErr result (IsReadFault (IsNumberPage Text (stream_of self.old m)) self.old m) }
        ensures same { self.new ≡ self.old }
        ensures bitmap { bitmap.new ≡ bitmap.old }
        ensures told { E.told edits.new ≡ E.told edits.old }
        ensures changed { E.changed edits.new ≡ E.changed edits.old }
        ensures pairs { E.pairs edits.new ≡ E.pairs edits.old }
        ensures size { E.size edits.new ≡ E.size edits.old }
        ensures frame { E.frame edits.new ≡ E.frame edits.old }
        ensures later { AreLater (E.counts edits.old) (E.counts edits.new) }
        ensures cause { IfErr result (HasReadCause (E.counts edits.old) (E.counts edits.new)) }
    {
        let _ = bitmap;
        let tree = TreeAt {
            alloc: self.alloc,
            inode: self.inode,
            sup: self.sup,
            kind: KeyKind::Text,
        };
        number_at(tree, edits, name)
    }

    /// Puts a name with an id, where the name isn't there.
    pub fn put<E: Edits>(
        &mut self,
        bitmap: &mut Bitmap,
        edits: &mut E,
        name: &[u8],
        id: u64,
    ) -> Result<(), MapFault>
        requires size { E.size edits.old ≡ self.old.sizes.block_size }
        requires volume { IsOfVolume self.old.sizes bitmap.old }
        requires stream { (m : ℕ → Option (List ℕ)) → E.told edits.old ≡ Some m → HasHeld self.old bitmap.old m }
        requires name { IsKey Text name.now }
        requires id { id < 2 ^ 62 }
        ensures put { (m : ℕ → Option (List ℕ)) → E.told edits.old ≡ Some m → IsDirectory self.old bitmap.old m → OnOk result (HasRowsNow Text self.old bitmap.old bitmap.new m (put Text (names_of self.old m) name.now (pos id)) (E.told edits.new) (E.changed edits.old) (E.changed edits.new)) }
        ensures absent { (m : ℕ → Option (List ℕ)) → E.told edits.old ≡ Some m → IsDirectory self.old bitmap.old m → OnOk result (assoc Text (names_of self.old m) name.now ≡ None) }
        ensures refused { (m : ℕ → Option (List ℕ)) → E.told edits.old ≡ Some m → IsDirectory self.old bitmap.old m → IfErr result (IsPutFault Text self.old bitmap.old m (names_of self.old m) name.now) }
        ensures blamed { (m : ℕ → Option (List ℕ)) → E.told edits.old ≡ Some m → IfErr result (IsChangeFault (IsOfKind Text) self.old bitmap.old m (E.told edits.new)) }
        ensures same { self.new ≡ self.old }
        ensures rest { bitmap.new ≡ record bitmap.old { tally = bitmap.new.tally } }
        ensures changed { (k : ℕ) → E.changed edits.new k ≡ true → (E.changed edits.old k ≡ true) ⊎ (IsBitmapBlock bitmap.old k ⊎ (k < self.old.sizes.blocks)) }
        ensures stays { StaysChanged (E.changed edits.old) (E.changed edits.new) }
        ensures size { E.size edits.new ≡ E.size edits.old }
        ensures frame { E.frame edits.new ≡ E.frame edits.old }
        ensures later { AreLater (E.counts edits.old) (E.counts edits.new) }
        ensures cause { IfErr result (HasPutCause (E.counts edits.old) (E.counts edits.new)) }
    {
        let tree = TreeAt {
            alloc: self.alloc,
            inode: self.inode,
            sup: self.sup,
            kind: KeyKind::Text,
        };
        put_number(tree, bitmap, edits, name, id)
    }

    /// Takes a name out, and tells its id.
    pub fn take<E: Edits>(
        &mut self,
        bitmap: &mut Bitmap,
        edits: &mut E,
        name: &[u8],
    ) -> Result<u64, MapFault>
        requires size { E.size edits.old ≡ self.old.sizes.block_size }
        requires volume { IsOfVolume self.old.sizes bitmap.old }
        requires stream { (m : ℕ → Option (List ℕ)) → E.told edits.old ≡ Some m → HasHeld self.old bitmap.old m }
        ensures taken { (m : ℕ → Option (List ℕ)) → E.told edits.old ≡ Some m → IsDirectory self.old bitmap.old m → OnOk result (HasRowsNow Text self.old bitmap.old bitmap.new m (without Text (names_of self.old m) name.now) (E.told edits.new) (E.changed edits.old) (E.changed edits.new)) }
        ensures id { (m : ℕ → Option (List ℕ)) → E.told edits.old ≡ Some m → IsDirectory self.old bitmap.old m → IfOk result (λ id. assoc Text (names_of self.old m) name.now ≡ Some (pos id)) }
        ensures refused { (m : ℕ → Option (List ℕ)) → E.told edits.old ≡ Some m → IsDirectory self.old bitmap.old m → IfErr result (IsTakeFault Text (names_of self.old m) name.now) }
        ensures blamed { (m : ℕ → Option (List ℕ)) → E.told edits.old ≡ Some m → IfErr result (IsTakingFault (IsNumberPage Text) self.old m (E.told edits.new)) }
        ensures same { self.new ≡ self.old }
        ensures rest { bitmap.new ≡ record bitmap.old { tally = bitmap.new.tally } }
        ensures changed { (k : ℕ) → E.changed edits.new k ≡ true → (E.changed edits.old k ≡ true) ⊎ (IsBitmapBlock bitmap.old k ⊎ (k < self.old.sizes.blocks)) }
        ensures stays { StaysChanged (E.changed edits.old) (E.changed edits.new) }
        ensures size { E.size edits.new ≡ E.size edits.old }
        ensures frame { E.frame edits.new ≡ E.frame edits.old }
        ensures later { AreLater (E.counts edits.old) (E.counts edits.new) }
        ensures cause { IfErr result (HasTakeCause (E.counts edits.old) (E.counts edits.new)) }
    {
        let tree = TreeAt {
            alloc: self.alloc,
            inode: self.inode,
            sup: self.sup,
            kind: KeyKind::Text,
        };
        take_number(tree, bitmap, edits, name)
    }

    /// All names with their ids, by name, `.` and `..` among them. Only the directory's own blocks are read.
    pub fn list<E: Edits>(
        &mut self,
        bitmap: &mut Bitmap,
        edits: &mut E,
    ) -> Result<DirRows, MapFault>
        requires size { E.size edits.old ≡ self.old.sizes.block_size }
        requires stream { (m : ℕ → Option (List ℕ)) → E.told edits.old ≡ Some m → HasReadable self.old m }
        ensures listed { (m : ℕ → Option (List ℕ)) → E.told edits.old ≡ Some m → IsNumberTree Text (stream_of self.old m) → MatchResult result (λ rows. rows ≡ listed (names_of self.old m)) IsUndone }
        ensures refused { (m : ℕ → Option (List ℕ)) → E.told edits.old ≡ Some m → IfErr result (IsReadFault (IsWanted Text (stream_of self.old m)) self.old m) }
        ensures same { self.new ≡ self.old }
        ensures bitmap { bitmap.new ≡ bitmap.old }
        ensures told { E.told edits.new ≡ E.told edits.old }
        ensures changed { E.changed edits.new ≡ E.changed edits.old }
        ensures pairs { E.pairs edits.new ≡ E.pairs edits.old }
        ensures size { E.size edits.new ≡ E.size edits.old }
        ensures frame { E.frame edits.new ≡ E.frame edits.old }
        ensures later { AreLater (E.counts edits.old) (E.counts edits.new) }
        ensures cause { IfErr result (HasReadCause (E.counts edits.old) (E.counts edits.new)) }
    {
        let _ = bitmap;
        let tree = TreeAt {
            alloc: self.alloc,
            inode: self.inode,
            sup: self.sup,
            kind: KeyKind::Text,
        };
        let ranged = match rows_from(tree, edits, None, None) {
            Ok(ranged) => ranged,
            Err(fault) => return Err(fault),
        };
        match dir_rows_of(self.alloc, &ranged) {
            Ok(rows) => Ok(rows),
            Err(_) => Err(TreeFault::NoMemory),
        }
    }
}
