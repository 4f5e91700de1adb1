// Which nodes can be named: the contract of a function that does nothing.
ghost use Rattle.bfs_set_name.specs.Laws.{NodesCanBeNamed};

/// What `set_name` asks of a node holds where its attributes are held, if it isn't the root.
pub fn nodes_can_be_named()
    ensures { NodesCanBeNamed }
{}
