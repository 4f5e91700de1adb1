// What a change of one inode's stream keeps.
ghost use Rattle.bfs_shift.specs.StreamLaws.{DirectoryHasRows, FreshIsNode, NamesHaveRows, GrownShift, TrimmedShift, MovesShift, NodeIsRestated, RowsChange, IndexChanges, IndexJoins, IndexLeaves, NamesChange, StatusChanges, IndexHasPairs, ContentChanges, OwnerIsHeld, RowsAreNumbers, DirectoryIsMap, StatusIsSound, AttributeShifts, AttributeRowsShift};

/// A node whose inode was written is the node of the new record.
pub fn node_is_restated()
    ensures { NodeIsRestated }
{}

/// A directory's rows change.
pub fn rows_change()
    ensures { RowsChange }
{}

/// An index's pairs change.
pub fn index_changes()
    ensures { IndexChanges }
{}

/// The index directory's rows change.
pub fn names_change()
    ensures { NamesChange }
{}

/// What is written and added to a stream is a shift of its inode's blocks.
pub fn moves_shift()
    ensures { MovesShift }
{}

/// An index joins.
pub fn index_joins()
    ensures { IndexJoins }
{}

/// An index leaves.
pub fn index_leaves()
    ensures { IndexLeaves }
{}

/// A node's status is written.
pub fn status_changes()
    ensures { StatusChanges }
{}

/// A fresh inode is a node.
pub fn fresh_is_node()
    ensures { FreshIsNode }
{}

/// A stream that has grown is a shift of its inode's blocks.
pub fn grown_shift()
    ensures { GrownShift }
{}

/// A stream that was cut is a shift of its inode's blocks.
pub fn trimmed_shift()
    ensures { TrimmedShift }
{}

/// What a call on a directory's map makes of the volume.
pub fn directory_has_rows()
    ensures { DirectoryHasRows }
{}

/// What a call on the index directory's map makes of it.
pub fn names_have_rows()
    ensures { NamesHaveRows }
{}

/// What a call on an index makes of the volume.
pub fn index_has_pairs()
    ensures { IndexHasPairs }
{}

/// A node's stream changes.
pub fn content_changes()
    ensures { ContentChanges }
{}

/// A stream that owns its blocks is held.
pub fn owner_is_held()
    ensures { OwnerIsHeld }
{}

/// The rows of a directory are numbers.
pub fn rows_are_numbers()
    ensures { RowsAreNumbers }
{}

/// A directory is a map.
pub fn directory_is_map()
    ensures { DirectoryIsMap }
{}

/// A whole call that writes a node's status.
pub fn status_is_sound()
    ensures { StatusIsSound }
{}

/// A change of an attribute's stream is a shift of its node.
pub fn attribute_shifts()
    ensures { AttributeShifts }
{}

/// A change of an attribute directory's rows is a shift of its node.
pub fn attribute_rows_shift()
    ensures { AttributeRowsShift }
{}
