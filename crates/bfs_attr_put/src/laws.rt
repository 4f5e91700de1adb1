// What a written attribute leaves of the lists of a volume: contracts of functions that do nothing.
ghost use Rattle.bfs_attr_put.specs.Written.{AttributeLists};

/// A node has an attribute, and the index of that name lists it under the attribute's key.
pub fn attribute_lists()
    ensures { AttributeLists }
{}
