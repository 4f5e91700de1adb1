// Laws of a device that was lent, and of what it tells a space: each is the contract of a function that does nothing.
ghost use Rattle.std.specs.Prelude.{◌≤◌, ℕ};
ghost use Rattle.bfs_super.specs.declared.sup.Super.{Super};
ghost use Rattle.bfs_tree.specs.Histories.{Mounted};
ghost use Rattle.bfs_device.specs.Books.{Books};
ghost use Rattle.bfs_core.specs.Spaces.{SpaceView};
ghost use Rattle.bfs_core.specs.Moments.{Adoption, IsCore};
ghost use Rattle.bfs_core.specs.Stories.{Story, Words, IsStory, FitsSince, with_numbers, end_of};
ghost use Rattle.bfs_device_blocks.specs.Lent.{HasBeenRead};
ghost use Rattle.bfs_device_blocks.specs.Faced.{CoreStandsOver, NewestIsSealed, NewestIsWritten, NewestStays};

use bfs_disk::Disk;

/// Any number of reads keeps Core.
pub fn core_is_read<D: Disk>(old: &D, new: &D)
    ensures { (t0 : Mounted) (adopted : Adoption) (sp : SpaceView) (b next : Books)
        → HasBeenRead b next (D.state old.now) (D.state new.now) (D.clock old.now) (D.clock new.now) (D.since old.now) (D.since new.now)
        → IsCore t0 adopted sp b (D.state old.now) (D.clock old.now) (D.since old.now) → IsCore t0 adopted sp next (D.state new.now) (D.clock new.now) (D.since new.now) }
{}

/// And where the space isn't at hand the device fits its story still.
pub fn fit_is_read<D: Disk>(old: &D, new: &D)
    ensures { (y : Story) (w : Words) (s : Super) (adopted : Adoption) (b next : Books) → IsStory y w.left → w.sealed ≤ end_of y
        → HasBeenRead b next (D.state old.now) (D.state new.now) (D.clock old.now) (D.clock new.now) (D.since old.now) (D.since new.now)
        → FitsSince y w s adopted b (D.state old.now) (D.clock old.now) (D.since old.now) → FitsSince y (with_numbers w next) s adopted next (D.state new.now) (D.clock new.now) (D.since new.now) }
{}

/// With Core, a space stands over what its device tells.
pub fn core_stands_over()
    ensures { CoreStandsOver }
{}

/// A step of the device, a read of it, and room leave what it tells as it was.
pub fn newest_stays()
    ensures { NewestStays }
{}

/// A seal puts the open group over it.
pub fn newest_is_sealed()
    ensures { NewestIsSealed }
{}

/// A data write leaves what it tells of every other block, whether it succeeds or fails.
pub fn newest_is_written()
    ensures { NewestIsWritten }
{}
