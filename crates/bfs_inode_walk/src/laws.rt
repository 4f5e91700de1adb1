// Laws of what is gone over: each is the contract of a function that does nothing.
ghost use Rattle.bfs_inode_walk.specs.Records.{RecordIsNode};
ghost use Rattle.bfs_inode_walk.specs.Visited.{BlocksAreByRole};

/// The blocks of an inode by the way that leads to it are those by its place.
pub fn blocks_are_by_role()
    ensures { BlocksAreByRole }
{}

/// A node whose inode was gone over has the record that stands in it, where its other parts were found right.
pub fn record_is_node()
    ensures { RecordIsNode }
{}
