// Laws of Core where what a crash since each mark might have left is held as a proposition: each event keeps it, as it keeps the
// whole. Each is the contract of a function that does nothing.
ghost use Rattle.std.specs.Prelude.{◌≡◌, ℕ, List, Some};
ghost use Rattle.bfs_disk.specs.State.{State};
ghost use Rattle.bfs_disk.specs.Blocks.{contents_of};
ghost use Rattle.bfs_txn.specs.declared.group.Group.{Group};
ghost use Rattle.bfs_tree.specs.declared.reply.Entry.{Entry};
ghost use Rattle.bfs_tree.specs.Histories.{Mounted};
ghost use Rattle.bfs_device.specs.Layouts.{layout_of};
ghost use Rattle.bfs_device.specs.Books.{Books, IsOnDisk};
ghost use Rattle.bfs_device.specs.Seals.{sealed_with};
ghost use Rattle.bfs_core.specs.Spaces.{SpaceView, Entered, IsFaceData, IsGroupFor, released_space, sealed_space};
ghost use Rattle.bfs_core.specs.Cores.{IsKnown, newest_map};
ghost use Rattle.bfs_core.specs.KnownBytes.{HasKnown, HasKnownIn, KeepsFiles};
ghost use Rattle.bfs_core.specs.Chains.{IsLinked};
ghost use Rattle.bfs_core.specs.Moments.{Adoption, IsCore, DeviceMoves, DeviceWrites};
ghost use Rattle.bfs_device_blocks.specs.Lent.{HasCore, HasImages, IsBehindEntry, IsWrittenOver};

use bfs_disk::Disk;

/// Core from adoption on is held, as mounting gives it, where the disk has the known bytes, and the image is there that begins the chain.
pub fn core_is_held<D: Disk>(disk: &D)
    ensures { (t0 : Mounted) (adopted : Adoption) (sp : SpaceView) (b : Books)
        → IsCore t0 adopted sp b (D.state disk.now) (D.clock disk.now) (D.since disk.now) → ((st : State) → D.state disk.now ≡ Some st → HasKnown t0 sp b st) → HasImages t0 adopted sp b (D.state disk.now)
        → HasCore t0 adopted sp b (D.state disk.now) (D.clock disk.now) (D.since disk.now) }
{}

/// A step of the device, a read of it, or room.
pub fn move_is_held<D: Disk>(old: &D, new: &D)
    ensures { (t0 : Mounted) (adopted : Adoption) (sp : SpaceView) (b next : Books)
        → IsOnDisk (D.size new.now) next.sup → DeviceMoves b next (D.state old.now) (D.state new.now) (D.clock old.now) (D.clock new.now) (D.since old.now) (D.since new.now)
        → HasCore t0 adopted sp b (D.state old.now) (D.clock old.now) (D.since old.now) → HasCore t0 adopted sp next (D.state new.now) (D.clock new.now) (D.since new.now) }
{}

/// A data write at a block that is file data in Face, after which the block has its own known bytes. An entry stands in front of it.
pub fn write_is_held<D: Disk>(old: &D, new: &D)
    ensures { (t0 : Mounted) (adopted : Adoption) (sp : SpaceView) (block : ℕ) (b next : Books) → ((st : State) → D.state old.now ≡ Some st → IsFaceData t0 sp (newest_map b st) block)
        → ((st next : State) → D.state old.now ≡ Some st → D.state new.now ≡ Some next → HasKnownIn t0 sp (newest_map b st) block (contents_of next (layout_of b.sup).sectors block))
        → (bytes : List ℕ) → IsWrittenOver t0 sp b (D.state old.now) (D.state new.now) block bytes → IsOnDisk (D.size new.now) next.sup → IsBehindEntry adopted sp → DeviceWrites block b next (D.state old.now) (D.state new.now) (D.clock old.now) (D.clock new.now) (D.since old.now) (D.since new.now)
        → HasCore t0 adopted sp b (D.state old.now) (D.clock old.now) (D.since old.now) → HasCore t0 adopted sp next (D.state new.now) (D.clock new.now) (D.since new.now) }
{}

/// A call of the space, or a note, that appends an entry, which is caused between Face before it and Face after it, and keeps the files.
pub fn entry_is_held<D: Disk>(disk: &D)
    ensures { (t0 : Mounted) (adopted : Adoption) (sp new : SpaceView) (b : Books) (e : Entry) → ((st : State) → D.state disk.now ≡ Some st → Entered t0 sp new (newest_map b st) e) → IsKnown b e
        → ((st : State) → D.state disk.now ≡ Some st → KeepsFiles t0 sp new (newest_map b st) (contents_of st (layout_of b.sup).sectors))
        → IsOnDisk (D.size disk.now) b.sup → ((st : State) → D.state disk.now ≡ Some st → IsLinked t0 sp new (newest_map b st) e)
        → HasCore t0 adopted sp b (D.state disk.now) (D.clock disk.now) (D.since disk.now) → HasCore t0 adopted new b (D.state disk.now) (D.clock disk.now) (D.since disk.now) }
{}

/// A release of what has left the log.
pub fn release_is_held<D: Disk>(disk: &D)
    ensures { (t0 : Mounted) (adopted : Adoption) (sp : SpaceView) (b : Books)
        → HasCore t0 adopted sp b (D.state disk.now) (D.clock disk.now) (D.since disk.now) → HasCore t0 adopted (released_space b.left sp) b (D.state disk.now) (D.clock disk.now) (D.since disk.now) }
{}

/// A seal.
pub fn seal_is_held<D: Disk>(disk: &D)
    ensures { (t0 : Mounted) (adopted : Adoption) (sp : SpaceView) (b : Books) (g : Group) → IsGroupFor sp g
        → HasCore t0 adopted sp b (D.state disk.now) (D.clock disk.now) (D.since disk.now) → HasCore t0 adopted (sealed_space sp) (sealed_with b g) (D.state disk.now) (D.clock disk.now) (D.since disk.now) }
{}
