// What attributes have to do with nodes: the contract of a function that does nothing.
ghost use Rattle.bfs_attr.specs.Laws.{NodesBearAttributes, SmallDataChanges};

/// The attributes of a node's inode are those of the node's record.
pub fn nodes_bear_attributes()
    ensures { NodesBearAttributes }
{}

/// A change of an inode's small data leaves the attributes of its attribute directory.
pub fn small_data_changes()
    ensures { SmallDataChanges }
{}
