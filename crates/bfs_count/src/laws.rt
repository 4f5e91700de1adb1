// A law of steps: the contract of a function that does nothing.
ghost use Rattle.bfs_count.specs.CountLaws.{NodesAreCounted};

/// A step leaves as many nodes as its entry makes of those that were there.
pub fn nodes_are_counted()
    ensures { NodesAreCounted }
{}
