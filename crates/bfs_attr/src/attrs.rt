// The attributes of an inode.
ghost use Rattle.std.specs.Prelude.{◌≡◌, ◌<◌, ℕ, List, Option, Some, IfErr, MatchResult};
ghost use Rattle.std.specs.FinMap.{get};
ghost use Rattle.std.specs.Option.{option_map};
ghost use Rattle.bfs_super.specs.Conditions.{IsValid, natural};
ghost use Rattle.bfs_tree.specs.Answers.{rows_of_attributes};
ghost use Rattle.bfs_txn.specs.Faults.{AreLater};
ghost use Rattle.bfs_maps.specs.Refused.{HasReadCause, IsUndone};
ghost use Rattle.bfs_attr.specs.Bearers.{volume_at, bearer_of, HasAttributes, CanRead, attributes_at, entries_at, shown};
ghost use Rattle.bfs_attr.specs.Refused.{IsAttributeFault};

use crate::reading::{attribute_of, rows_of};
use crate::rows::{AttrItem, AttrRows};
use bfs_bitmap::Bitmap;
use bfs_make::Site;
use bfs_stream_pages::MapFault;
use bfs_super::Super;
use bfs_txn::Edits;
use std::alloc::Global;
use std::marker::Model;

/// The attributes of the inode at a block: a map from names to types with bytes. Nothing of it is kept in memory.
#[derive(Drop)]
pub struct Attrs {
    alloc: Global,
    inode: u64,
    sup: Super,
}

impl Model for Attrs {
    ghost use Rattle.std.specs.Prelude.{◌<◌};
    ghost use Rattle.bfs_super.specs.Conditions.{IsValid, natural};
    ghost use Rattle.bfs_attr.specs.Bearers.{Bearer, bearer_of};

    ghost Value = { Bearer };

    ghost view = { λ a. bearer_of a.inode a.sup };

    ghost invariant = { λ a. IsValid a.sup × (a.inode < natural a.sup.num_blocks) };
}

impl Attrs {
    /// The attributes of the inode at this block. Takes no memory.
    pub fn at(alloc: Global, inode: u64, sup: &Super) -> Attrs
        requires valid { IsValid sup.now }
        requires inside { inode < natural sup.now.num_blocks }
        ensures { result ≡ bearer_of inode sup.now }
    {
        Attrs {
            alloc,
            inode,
            sup: *sup,
        }
    }

    /// The attribute of a name, or None where there is none. Only the inode's own blocks are read, and those of its attribute
    /// directory and of the attribute.
    pub fn get<E: Edits>(
        &mut self,
        bitmap: &mut Bitmap,
        edits: &mut E,
        name: &[u8],
    ) -> Result<Option<AttrItem>, MapFault>
        requires size { E.size edits.old ≡ self.old.geometry.block_size }
        requires readable { (m : ℕ → Option (List ℕ)) → E.told edits.old ≡ Some m → CanRead self.old m }
        ensures found { (m : ℕ → Option (List ℕ)) → E.told edits.old ≡ Some m → HasAttributes (volume_at self.old.geometry m) self.old.id → MatchResult result (λ o. option_map shown o ≡ get (attributes_at (volume_at self.old.geometry m) self.old.id) name.now) IsUndone }
        ensures refused { (m : ℕ → Option (List ℕ)) → E.told edits.old ≡ Some m → IfErr result (IsAttributeFault (volume_at self.old.geometry m) self.old.id) }
        ensures same { self.new ≡ self.old }
        ensures bitmap { bitmap.new ≡ bitmap.old }
        ensures told { E.told edits.new ≡ E.told edits.old }
        ensures changed { E.changed edits.new ≡ E.changed edits.old }
        ensures pairs { E.pairs edits.new ≡ E.pairs edits.old }
        ensures size { E.size edits.new ≡ E.size edits.old }
        ensures frame { E.frame edits.new ≡ E.frame edits.old }
        ensures later { AreLater (E.counts edits.old) (E.counts edits.new) }
        ensures cause { IfErr result (HasReadCause (E.counts edits.old) (E.counts edits.new)) }
    {
        let _ = bitmap;
        let site = Site {
            alloc: self.alloc,
            sup: self.sup,
        };
        attribute_of(site, edits, self.inode, name)
    }

    /// The types and names of all attributes: those in small data in their order there, and then those of the attribute
    /// directory by name. Only the inode's own blocks are read, those of its attribute directory, and the inodes of its
    /// attributes.
    pub fn list<E: Edits>(
        &mut self,
        bitmap: &mut Bitmap,
        edits: &mut E,
    ) -> Result<AttrRows, MapFault>
        requires size { E.size edits.old ≡ self.old.geometry.block_size }
        requires readable { (m : ℕ → Option (List ℕ)) → E.told edits.old ≡ Some m → CanRead self.old m }
        ensures listed { (m : ℕ → Option (List ℕ)) → E.told edits.old ≡ Some m → HasAttributes (volume_at self.old.geometry m) self.old.id → MatchResult result (λ rows. rows ≡ rows_of_attributes (entries_at (volume_at self.old.geometry m) self.old.id)) IsUndone }
        ensures refused { (m : ℕ → Option (List ℕ)) → E.told edits.old ≡ Some m → IfErr result (IsAttributeFault (volume_at self.old.geometry m) self.old.id) }
        ensures same { self.new ≡ self.old }
        ensures bitmap { bitmap.new ≡ bitmap.old }
        ensures told { E.told edits.new ≡ E.told edits.old }
        ensures changed { E.changed edits.new ≡ E.changed edits.old }
        ensures pairs { E.pairs edits.new ≡ E.pairs edits.old }
        ensures size { E.size edits.new ≡ E.size edits.old }
        ensures frame { E.frame edits.new ≡ E.frame edits.old }
        ensures later { AreLater (E.counts edits.old) (E.counts edits.new) }
        ensures cause { IfErr result (HasReadCause (E.counts edits.old) (E.counts edits.new)) }
    {
        let _ = bitmap;
        let site = Site {
            alloc: self.alloc,
            sup: self.sup,
        };
        rows_of(site, edits, self.inode)
    }
}
