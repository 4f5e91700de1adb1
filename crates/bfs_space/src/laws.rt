// What a call of a space begins with, and what it leaves.
ghost use Rattle.bfs_replies.specs.Called.{FaceIsAtWork, FaceIsReady, CallIsEntered, DoneIsCalled, LeftIsCalled};
ghost use Rattle.bfs_replies.specs.Answered.{DoneIsAnswered, LeftIsAnswered};
ghost use Rattle.bfs_space.specs.FileLaws.{EnteredKeepsFiles, NoteKeepsFiles};
ghost use Rattle.bfs_replies.specs.Files.{KnownStays};
ghost use Rattle.bfs_space.specs.Holds.{EntryIsHeld, EntryKeepsHolds, HeldIsAfter};

/// A call begins.
pub fn face_is_at_work()
    ensures { FaceIsAtWork }
{}

/// A call that was kept is an entry.
pub fn call_is_entered()
    ensures { CallIsEntered }
{}

/// A call finds the volume ready.
pub fn face_is_ready()
    ensures { FaceIsReady }
{}

/// What a call that gives nothing back has done is what is asked of it.
pub fn done_is_called()
    ensures { DoneIsCalled }
{}

/// And so is its answer.
pub fn done_is_answered()
    ensures { DoneIsAnswered }
{}

/// What a call that may have given blocks back has done is what is asked of it.
pub fn left_is_called()
    ensures { LeftIsCalled }
{}

/// And so is its answer.
pub fn left_is_answered()
    ensures { LeftIsAnswered }
{}

/// The holds after a history are those that its entries leave.
pub fn held_is_after()
    ensures { HeldIsAfter }
{}

/// An entry that is no Hold and no Release, or isn't done, leaves them.
pub fn entry_keeps_holds()
    ensures { EntryKeepsHolds }
{}

/// The holds that a history leaves with one entry more.
pub fn entry_is_held()
    ensures { EntryIsHeld }
{}

/// What is known after an entry that lets no piece go was known before it, at a place of a file that is one still.
pub fn known_stays()
    ensures { KnownStays }
{}

/// A call that was entered, and lets no piece go, has kept the files: what is known stays in its blocks.
pub fn entered_keeps_files()
    ensures { EnteredKeepsFiles }
{}

/// And so has a note of one that leaves the tree.
pub fn note_keeps_files()
    ensures { NoteKeepsFiles }
{}
