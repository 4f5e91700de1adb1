// Laws of the known bytes of files, beside Core: each is the contract of a function that does nothing.
ghost use Rattle.bfs_core.specs.KnownLaws.{FileIsData, KnownGoesOn, KnownIsEntered, KnownIsHalfWritten, KnownIsOpened, KnownIsReleased, KnownIsSealed, KnownIsWritten, WrittenIsHalf};

/// The blocks of a regular file's stream are file data in Face.
pub fn file_is_data()
    ensures { FileIsData }
{}

/// Mounting begins with the bytes that the image's files have.
pub fn known_is_opened()
    ensures { KnownIsOpened }
{}

/// A step of the device, a read of it, and room keep known bytes.
pub fn known_goes_on()
    ensures { KnownGoesOn }
{}

/// A call of the space, or a note, that keeps the files keeps them.
pub fn known_is_entered()
    ensures { KnownIsEntered }
{}

/// A release of what has left the log keeps them.
pub fn known_is_released()
    ensures { KnownIsReleased }
{}

/// A seal keeps them.
pub fn known_is_sealed()
    ensures { KnownIsSealed }
{}

/// A write of one block of a file's data keeps them, where the block has its own known bytes after it.
pub fn known_is_written()
    ensures { KnownIsWritten }
{}

/// It has them where what it had and what is written have them, even if only some of its sectors were written.
pub fn known_is_half_written()
    ensures { KnownIsHalfWritten }
{}

/// A write that succeeded is one that leaves each sector new.
pub fn written_is_half()
    ensures { WrittenIsHalf }
{}
