// How the steps of a call are put together.
ghost use Rattle.bfs_moves.specs.Laws.{GoesOnSame, GoesOnTwice, WorkBegins, CallIsKept, UsedIsReach, WorkEnds, NodeIsListed};

/// Nothing was done.
pub fn goes_on_same()
    ensures { GoesOnSame }
{}

/// Two steps were made.
pub fn goes_on_twice()
    ensures { GoesOnTwice }
{}

/// A call begins.
pub fn work_begins()
    ensures { WorkBegins }
{}

/// What a call has kept.
pub fn call_is_kept()
    ensures { CallIsKept }
{}

/// What the bitmap counts is what is reached.
pub fn used_is_reach()
    ensures { UsedIsReach }
{}

/// A call ends.
pub fn work_ends()
    ensures { WorkEnds }
{}

/// The pairs of an index once a node has come.
pub fn node_is_listed()
    ensures { NodeIsListed }
{}
