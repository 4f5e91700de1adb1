// Laws of Core over plain data: each is the contract of a function that does nothing.
ghost use Rattle.bfs_core.specs.Laws.{AllRecovers, CoreComesBack, CoreGoesOn, CoreIsEntered, CoreIsMounted, CoreIsOpened, CoreIsOrdered, CoreIsReleased, CoreIsSealed, CoreIsWhole, CoreMaySeal, NewestIsSized, NoteIsEntered, CoreRecovers, CoreReserves, PieceIsApart, PieceIsKept, StepTouches, VersionRecovers};

/// Mounting a whole image begins with Core, and with an empty history. So a fresh volume is one.
pub fn core_is_opened()
    ensures { CoreIsOpened }
{}

/// Mounting an image that recovers, after its log was replayed, begins with Core and an empty history.
pub fn core_is_mounted()
    ensures { CoreIsMounted }
{}

/// A step of the device, a read of it, and room keep Core, whether they succeed or fail.
pub fn core_goes_on()
    ensures { CoreGoesOn }
{}

/// A step touches no block, and where a group leaves the log none is touched any more.
pub fn step_touches()
    ensures { StepTouches }
{}

/// A call of the space, or a note, that appends an entry keeps Core.
pub fn core_is_entered()
    ensures { CoreIsEntered }
{}

/// A note that leaves the tree as it is, as that of a sync, is entered and sets no block.
pub fn note_is_entered()
    ensures { NoteIsEntered }
{}

/// A release of what has left the log keeps Core.
pub fn core_is_released()
    ensures { CoreIsReleased }
{}

/// The device may take the group of a seal.
pub fn core_may_seal()
    ensures { CoreMaySeal }
{}

/// A seal keeps Core.
pub fn core_is_sealed()
    ensures { CoreIsSealed }
{}

/// No waiting group has a block that is file data, so the device may write it.
pub fn piece_is_apart()
    ensures { PieceIsApart }
{}

/// A write of one block of a file's data keeps Core, whether it succeeds or fails.
pub fn piece_is_kept()
    ensures { PieceIsKept }
{}

/// Face is whole with the tree after the history.
pub fn core_is_whole()
    ensures { CoreIsWhole }
{}

/// What a device tells of a block has a block's length.
pub fn newest_is_sized()
    ensures { NewestIsSized }
{}

/// What has left the log is at most what is durable, that at most what is sealed, and that at most the history.
pub fn core_is_ordered()
    ensures { CoreIsOrdered }
{}

/// What a crash may leave now recovers to the tree after the durable entries, or after more of the sealed ones.
pub fn core_recovers()
    ensures { CoreRecovers }
{}

/// The same of an image that replay takes to one of the device's versions, as a crash in a call leaves it.
pub fn version_recovers()
    ensures { VersionRecovers }
{}

/// After a crash, mounting what it left is a Core again, of the tree after such a prefix.
pub fn core_comes_back()
    ensures { CoreComesBack }
{}

/// Where all entries are durable, what a crash may leave recovers to the tree after all of them.
pub fn all_recovers()
    ensures { AllRecovers }
{}

/// What a crash may bring back is metadata now or reserved, and no reserved block is marked.
pub fn core_reserves()
    ensures { CoreReserves }
{}
