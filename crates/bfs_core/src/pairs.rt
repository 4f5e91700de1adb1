// Laws of a space and a device over one story: each is the contract of a function that does nothing. The space's laws don't
// speak of the device, nor the device's of the space, so that each may be kept where the other isn't at hand.
ghost use Rattle.bfs_core.specs.StoryLaws.{DeviceGoesOn, DeviceIsLonger, DeviceIsWritten, DeviceRecovers, DeviceTells, DeviceWritesApart, PairIsCore, PairIsOpened, PairIsSealed, SpaceIsEntered, SpaceIsRaised, SpaceIsReleased, StoryIsRaised};

/// A space and a device that fit one story are a Core.
pub fn pair_is_core()
    ensures { PairIsCore }
{}

/// Mounting a whole image begins a story, which the space and the device fit.
pub fn pair_is_opened()
    ensures { PairIsOpened }
{}

/// A seal keeps both.
pub fn pair_is_sealed()
    ensures { PairIsSealed }
{}

/// A call, or a note, that appends an entry makes a longer story, which the space fits.
pub fn space_is_entered()
    ensures { SpaceIsEntered }
{}

/// The device fits the longer story.
pub fn device_is_longer()
    ensures { DeviceIsLonger }
{}

/// A device tells the sealed volume, which is what a call of the space stands on.
pub fn device_tells()
    ensures { DeviceTells }
{}

/// What a crash may leave of a device that fits recovers to the tree after a prefix of the story.
pub fn device_recovers()
    ensures { DeviceRecovers }
{}

/// A space that releases what has left the log fits still.
pub fn space_is_released()
    ensures { SpaceIsReleased }
{}

/// So it does where more entries are durable or have left the log.
pub fn space_is_raised()
    ensures { SpaceIsRaised }
{}

/// And so does the story.
pub fn story_is_raised()
    ensures { StoryIsRaised }
{}

/// A step of the device, a read of it, and room keep it, whether they succeed or fail.
pub fn device_goes_on()
    ensures { DeviceGoesOn }
{}

/// No waiting group has a block that is file data in the last volume, so the device may write it.
pub fn device_writes_apart()
    ensures { DeviceWritesApart }
{}

/// A write of such a block keeps the device, whether it succeeds or fails.
pub fn device_is_written()
    ensures { DeviceIsWritten }
{}
