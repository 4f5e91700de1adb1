// What a call that isn't refused has found.
ghost use Rattle.bfs_remove_node.specs.Removed.{RefusalAllows};

/// Where the call has no refusal of its own, its directory and its node are there, and the node is no directory with children.
pub fn may_be_removed()
    ensures { RefusalAllows }
{}
