// How steps that may give blocks back are put together.
ghost use Rattle.bfs_leave.specs.Laws.{GoesOnGives, GivesBackTwice, CallIsLeft};

/// A step that gives nothing back is one that may.
pub fn goes_on_gives()
    ensures { GoesOnGives }
{}

/// Two steps were made.
pub fn gives_back_twice()
    ensures { GivesBackTwice }
{}

/// A call ends, and may have given blocks back.
pub fn call_is_left()
    ensures { CallIsLeft }
{}
