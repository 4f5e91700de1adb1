// Laws of Core from adoption on, with what a crash since each mark might have left. They are stated over the disk of the device,
// of which one value stands for the disk before a call and one for that after it. The functions do nothing.
ghost use Rattle.std.specs.Prelude.{◌≡◌, ◌≤◌, ℕ, List, [], Option, Some};
ghost use Rattle.bfs_super.specs.declared.sup.Super.{Super};
ghost use Rattle.bfs_sound.specs.Volumes.{IsMarked};
ghost use Rattle.bfs_disk.specs.State.{State, Tells, Holds};
ghost use Rattle.bfs_log.specs.Replay.{super_of, Replayed};
ghost use Rattle.bfs_txn.specs.declared.group.Group.{Group};
ghost use Rattle.bfs_tree.specs.declared.reply.Entry.{Entry};
ghost use Rattle.bfs_tree.specs.Histories.{Mounted};
ghost use Rattle.bfs_sound.specs.Whole.{Recovers};
ghost use Rattle.bfs_device.specs.Books.{Books, IsOnDisk};
ghost use Rattle.bfs_device.specs.Seals.{adopted, sealed_with};
ghost use Rattle.bfs_core.specs.Spaces.{SpaceView, Entered, IsFaceData, IsGroupFor, opened, released_space, sealed_space};
ghost use Rattle.bfs_core.specs.Chains.{Image};
ghost use Rattle.bfs_core.specs.Cores.{IsKnown, newest_map};
ghost use Rattle.bfs_core.specs.Moments.{Adoption, IsCore, KeptSince, DeviceMoves, DeviceWrites, adopted_from};
ghost use Rattle.bfs_core.specs.Stories.{Story, Words, IsStory, SpaceFits, FitsSince, IsMetadataIn, Longer, with_numbers, end_of};

use bfs_disk::Disk;

/// Mounting: a quiet disk that holds what replay of an image that recovers gives is adopted at this moment. What led there began at one since which a
/// crash might have left only what recovers to the same tree.
pub fn mount_is_kept<D: Disk>(disk: &D)
    ensures { (t0 : Mounted) (begun : ℕ) (first : Option Image) (image result : List ℕ) → begun ≤ D.clock disk.now → KeptSince t0 [] (D.clock disk.now) (D.since disk.now) begun 0
        → Recovers image t0.tree → Replayed image result → Tells (D.state disk.now) (Holds result) → IsOnDisk (D.size disk.now) (super_of result)
        → IsCore t0 (adopted_from begun (D.clock disk.now) first) (opened (super_of result)) (adopted (super_of result)) (D.state disk.now) (D.clock disk.now) (D.since disk.now) }
{}

/// A step of the device, a read of it, or room.
pub fn move_is_kept<D: Disk>(old: &D, new: &D)
    ensures { (t0 : Mounted) (adopted : Adoption) (sp : SpaceView) (b next : Books)
        → DeviceMoves b next (D.state old.now) (D.state new.now) (D.clock old.now) (D.clock new.now) (D.since old.now) (D.since new.now)
        → IsCore t0 adopted sp b (D.state old.now) (D.clock old.now) (D.since old.now) → IsCore t0 adopted sp next (D.state new.now) (D.clock new.now) (D.since new.now) }
{}

/// A data write at a block that is file data in Face.
pub fn write_is_kept<D: Disk>(old: &D, new: &D)
    ensures { (t0 : Mounted) (adopted : Adoption) (sp : SpaceView) (block : ℕ) (b next : Books) → ((st : State) → D.state old.now ≡ Some st → IsFaceData t0 sp (newest_map b st) block)
        → DeviceWrites block b next (D.state old.now) (D.state new.now) (D.clock old.now) (D.clock new.now) (D.since old.now) (D.since new.now)
        → IsCore t0 adopted sp b (D.state old.now) (D.clock old.now) (D.since old.now) → IsCore t0 adopted sp next (D.state new.now) (D.clock new.now) (D.since new.now) }
{}

/// A call of the space, or a note, that appends an entry.
pub fn entry_is_kept<D: Disk>(disk: &D)
    ensures { (t0 : Mounted) (adopted : Adoption) (sp new : SpaceView) (b : Books) (e : Entry) → ((st : State) → D.state disk.now ≡ Some st → Entered t0 sp new (newest_map b st) e) → IsKnown b e
        → IsCore t0 adopted sp b (D.state disk.now) (D.clock disk.now) (D.since disk.now) → IsCore t0 adopted new b (D.state disk.now) (D.clock disk.now) (D.since disk.now) }
{}

/// A release of what has left the log.
pub fn release_is_kept<D: Disk>(disk: &D)
    ensures { (t0 : Mounted) (adopted : Adoption) (sp : SpaceView) (b : Books)
        → IsCore t0 adopted sp b (D.state disk.now) (D.clock disk.now) (D.since disk.now) → IsCore t0 adopted (released_space b.left sp) b (D.state disk.now) (D.clock disk.now) (D.since disk.now) }
{}

/// A seal.
pub fn seal_is_kept<D: Disk>(disk: &D)
    ensures { (t0 : Mounted) (adopted : Adoption) (sp : SpaceView) (b : Books) (g : Group) → IsGroupFor sp g
        → IsCore t0 adopted sp b (D.state disk.now) (D.clock disk.now) (D.since disk.now) → IsCore t0 adopted (sealed_space sp) (sealed_with b g) (D.state disk.now) (D.clock disk.now) (D.since disk.now) }
{}

/// A step of the device, a read of it, or room, where the space isn't at hand: the device fits the story, with its own numbers.
pub fn fit_is_moved<D: Disk>(old: &D, new: &D)
    ensures { (y : Story) (w : Words) (s : Super) (adopted : Adoption) (b next : Books) → IsStory y w.left → w.sealed ≤ end_of y
        → DeviceMoves b next (D.state old.now) (D.state new.now) (D.clock old.now) (D.clock new.now) (D.since old.now) (D.since new.now)
        → FitsSince y w s adopted b (D.state old.now) (D.clock old.now) (D.since old.now) → FitsSince y (with_numbers w next) s adopted next (D.state new.now) (D.clock new.now) (D.since new.now) }
{}

/// A data write at a block that is file data in the last volume.
pub fn fit_is_written<D: Disk>(old: &D, new: &D)
    ensures { (y : Story) (w : Words) (s : Super) (adopted : Adoption) (block : ℕ) (b next : Books) → IsStory y w.left → w.sealed ≤ end_of y → IsMarked (y.faces (end_of y)) block → ¬ IsMetadataIn y (end_of y) block
        → DeviceWrites block b next (D.state old.now) (D.state new.now) (D.clock old.now) (D.clock new.now) (D.since old.now) (D.since new.now)
        → FitsSince y w s adopted b (D.state old.now) (D.clock old.now) (D.since old.now) → FitsSince y w s adopted next (D.state new.now) (D.clock new.now) (D.since new.now) }
{}

/// A longer story.
pub fn fit_is_longer<D: Disk>(disk: &D)
    ensures { (y z : Story) (w : Words) (s : Super) (adopted : Adoption) (b : Books) (e : Entry) → Longer y z e → IsKnown b e → w.sealed ≤ end_of y
        → FitsSince y w s adopted b (D.state disk.now) (D.clock disk.now) (D.since disk.now) → FitsSince z w s adopted b (D.state disk.now) (D.clock disk.now) (D.since disk.now) }
{}

/// A seal, at which the space is at hand too.
pub fn fit_is_sealed<D: Disk>(disk: &D)
    ensures { (y : Story) (w : Words) (sp : SpaceView) (adopted : Adoption) (b : Books) (g : Group) → IsStory y w.left → SpaceFits y w sp → IsGroupFor sp g
        → FitsSince y w sp.sup adopted b (D.state disk.now) (D.clock disk.now) (D.since disk.now)
        → (let u : Words = record w { sealed = end_of y } in SpaceFits y u (sealed_space sp) × FitsSince y u sp.sup adopted (sealed_with b g) (D.state disk.now) (D.clock disk.now) (D.since disk.now)) }
{}

/// A space and a device that fit one story are a Core from adoption on.
pub fn fit_is_core<D: Disk>(disk: &D)
    ensures { (y : Story) (w : Words) (sp : SpaceView) (adopted : Adoption) (b : Books) → IsStory y w.left → SpaceFits y w sp
        → FitsSince y w sp.sup adopted b (D.state disk.now) (D.clock disk.now) (D.since disk.now) → IsCore y.t0 adopted sp b (D.state disk.now) (D.clock disk.now) (D.since disk.now) }
{}
