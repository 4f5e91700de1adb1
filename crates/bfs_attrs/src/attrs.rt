// The attributes of an inode as a map that is changed.
ghost use Rattle.std.specs.Prelude.{◌≡◌, ◌≤◌, ◌<◌, ℕ, List, max, length, true, false, Option, Some, OnOk, IfErr};
ghost use Rattle.std.specs.Str.{bytes_eq};
ghost use Rattle.bfs_bitmap.specs.Runs.{as_kept};
ghost use Rattle.bfs_super.specs.Conditions.{IsValid, ceil, natural};
ghost use Rattle.bfs_txn.specs.Faults.{AreLater};
ghost use Rattle.bfs_txn.specs.Told.{StaysChanged};
ghost use Rattle.bfs_stream.specs.Grown.{IsOfVolume};
ghost use Rattle.bfs_maps.specs.Refused.{HasTakeCause};
ghost use Rattle.bfs_sound.specs.Attributes.{own_name};
ghost use Rattle.bfs_sound.specs.Inodes.{is_proper};
ghost use Rattle.bfs_sound.specs.Volumes.{sizes};
ghost use Rattle.bfs_attr.specs.Bearers.{bearer_of, volume_at};
ghost use Rattle.bfs_attr.specs.Changed.{Holds, HasPut, HasTaken};
ghost use Rattle.bfs_attrs.specs.Removed.{IsNotRemoved, IsUntouched};
ghost use Rattle.bfs_attrs.specs.Replaced.{IsNotPut};
ghost use Rattle.bfs_attrs.specs.Stored.{HasAddCause};

use crate::replacing::put;
use crate::taking::take;
use bfs_attr::Attrs;
use bfs_bitmap::Bitmap;
use bfs_make::Site;
use bfs_stream_pages::MapFault;
use bfs_super::Super;
use bfs_txn::Edits;
use std::alloc::Global;
use std::marker::Model;

/// The attributes of the inode at a block: a map from names to types with bytes, which is changed. Nothing of it is kept in memory.
#[derive(Drop)]
pub struct AttrsMut {
    alloc: Global,
    inode: u64,
    sup: Super,
}

impl Model for AttrsMut {
    ghost use Rattle.std.specs.Prelude.{◌<◌};
    ghost use Rattle.bfs_super.specs.Conditions.{IsValid, natural};
    ghost use Rattle.bfs_attr.specs.Bearers.{Bearer, bearer_of};

    ghost Value = { Bearer };

    ghost view = { λ a. bearer_of a.inode a.sup };

    ghost invariant = { λ a. IsValid a.sup × (a.inode < natural a.sup.num_blocks) };
}

impl AttrsMut {
    /// The attributes of the inode at this block. Takes no memory.
    pub fn at(alloc: Global, inode: u64, sup: &Super) -> AttrsMut
        requires valid { IsValid sup.now }
        requires inside { inode < natural sup.now.num_blocks }
        ensures { result ≡ bearer_of inode sup.now }
    {
        AttrsMut {
            alloc,
            inode,
            sup: *sup,
        }
    }

    /// The same attributes, to be read: one by its name, or the types and names of all.
    pub fn read(&mut self) -> Attrs
        ensures value { result ≡ self.old }
        ensures same { self.new ≡ self.old }
    {
        let sup = self.sup;
        Attrs::at(self.alloc, self.inode, &sup)
    }

    /// Puts an attribute, in the place of the one of its name if there is one: into small data where it fits there, else into the
    /// attribute directory, which is made where there is none. It stands nowhere else since. After a fault the call is to be
    /// dropped.
    pub fn put<E: Edits>(
        &mut self,
        bitmap: &mut Bitmap,
        edits: &mut E,
        name: &[u8],
        kind: u32,
        bytes: &[u8],
        stamp: i64,
    ) -> Result<(), MapFault>
        requires size { E.size edits.old ≡ self.old.geometry.block_size }
        requires volume { IsOfVolume (sizes self.old.geometry) bitmap.old }
        requires some { 1 ≤ length name.now }
        requires short { length name.now ≤ 255 }
        requires other { bytes_eq name.now own_name ≡ false }
        requires proper { is_proper name.now ≡ true }
        requires holds { (m : ℕ → Option (List ℕ)) → E.told edits.old ≡ Some m → Holds self.old bitmap.old m }
        ensures put { (m : ℕ → Option (List ℕ)) → E.told edits.old ≡ Some m → OnOk result (HasPut self.old bitmap.old bitmap.new m name.now (record { code = kind; bytes = bytes.now }) (E.told edits.new) (E.changed edits.old) (E.changed edits.new)) }
        ensures faults { (m : ℕ → Option (List ℕ)) → E.told edits.old ≡ Some m → IfErr result (IsNotPut self.old bitmap.old m name.now (record { code = kind; bytes = bytes.now }) (ceil (length bytes.now) self.old.geometry.block_size)) }
        ensures same { self.new ≡ self.old }
        ensures rest { bitmap.new ≡ record bitmap.old { given = bitmap.new.given; tally = bitmap.new.tally } }
        ensures kept { as_kept bitmap.new ≡ as_kept bitmap.old }
        ensures stays { StaysChanged (E.changed edits.old) (E.changed edits.new) }
        ensures size { E.size edits.new ≡ E.size edits.old }
        ensures frame { E.frame edits.new ≡ E.frame edits.old }
        ensures later { AreLater (E.counts edits.old) (E.counts edits.new) }
        ensures cause { IfErr result (HasAddCause (max 1 (max (ceil 2048 self.old.geometry.block_size) (ceil (length bytes.now) self.old.geometry.block_size))) (E.counts edits.old) (E.counts edits.new)) }
    {
        let site = Site {
            alloc: self.alloc,
            sup: self.sup,
        };
        put(site, bitmap, edits, self.inode, kind, name, bytes, stamp)
    }

    /// Takes the attribute of a name out of small data or the attribute directory, and the directory with its last one. Absent is
    /// answered exactly where there is none, and nothing was written then. After another fault the call is to be dropped.
    pub fn take<E: Edits>(
        &mut self,
        bitmap: &mut Bitmap,
        edits: &mut E,
        name: &[u8],
    ) -> Result<(), MapFault>
        requires size { E.size edits.old ≡ self.old.geometry.block_size }
        requires volume { IsOfVolume (sizes self.old.geometry) bitmap.old }
        requires holds { (m : ℕ → Option (List ℕ)) → E.told edits.old ≡ Some m → Holds self.old bitmap.old m }
        ensures taken { (m : ℕ → Option (List ℕ)) → E.told edits.old ≡ Some m → OnOk result (HasTaken self.old bitmap.old bitmap.new m name.now (E.told edits.new) (E.changed edits.old) (E.changed edits.new)) }
        ensures faults { (m : ℕ → Option (List ℕ)) → E.told edits.old ≡ Some m → IfErr result (IsNotRemoved (volume_at self.old.geometry m) self.old.id name.now) }
        ensures absent { (m : ℕ → Option (List ℕ)) → E.told edits.old ≡ Some m → IfErr result (IsUntouched self.old bitmap.old bitmap.new m (E.told edits.new) (E.changed edits.old) (E.changed edits.new)) }
        ensures same { self.new ≡ self.old }
        ensures rest { bitmap.new ≡ record bitmap.old { given = bitmap.new.given; tally = bitmap.new.tally } }
        ensures kept { as_kept bitmap.new ≡ as_kept bitmap.old }
        ensures stays { StaysChanged (E.changed edits.old) (E.changed edits.new) }
        ensures size { E.size edits.new ≡ E.size edits.old }
        ensures frame { E.frame edits.new ≡ E.frame edits.old }
        ensures later { AreLater (E.counts edits.old) (E.counts edits.new) }
        ensures cause { IfErr result (HasTakeCause (E.counts edits.old) (E.counts edits.new)) }
    {
        let site = Site {
            alloc: self.alloc,
            sup: self.sup,
        };
        take(site, bitmap, edits, self.inode, name)
    }
}
