// A law of walks: the contract of a function that does nothing.
ghost use Rattle.bfs_walk.specs.Walked.{WalkedIsWhole};

/// Bytes over which a walk has gone to its end are those of a whole tree.
pub fn walked_is_whole()
    ensures { WalkedIsWhole }
{}
