// What a change of attributes leaves of a volume and of its lists: contracts of functions that do nothing.
ghost use Rattle.bfs_attr_calls.specs.Laws.{AttributesLeave, NodeHolds};
ghost use Rattle.bfs_attr_calls.specs.Removed.{AttributeUnlists, PairsLess};

/// The attributes of a node have changed, and the volume stands for the tree in which it has them.
pub fn attributes_leave()
    ensures { AttributesLeave }
{}

/// A node has an attribute no more, and the index of that name lists it no more.
pub fn attribute_unlists()
    ensures { AttributeUnlists }
{}

/// The attributes of a node stand and are held.
pub fn node_holds()
    ensures { NodeHolds }
{}

/// An index lists a node no more.
pub fn pairs_less()
    ensures { PairsLess }
{}
