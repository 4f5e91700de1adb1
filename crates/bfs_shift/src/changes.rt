// What each change within a call keeps of a volume.
ghost use Rattle.bfs_shift.specs.Laws.{SoundIsStocked, StockedIsSound, NodeChanges, NodeJoins, NodeLeaves, LooseChanges, IndicesChange, LooseInAnyOrder, RowsElsewhere, IndicesAreFree, CountIsFree, CountIsReach, CountedIsSound, LengthIsSame};

/// A sound volume is stocked, with lists that agree with its tree.
pub fn sound_is_stocked()
    ensures { SoundIsStocked }
{}

/// A stocked volume whose lists agree with its tree is sound.
pub fn stocked_is_sound()
    ensures { StockedIsSound }
{}

/// A node changes, with all its blocks.
pub fn node_changes()
    ensures { NodeChanges }
{}

/// Loose blocks become a node.
pub fn node_joins()
    ensures { NodeJoins }
{}

/// A node leaves, and its blocks are loose.
pub fn node_leaves()
    ensures { NodeLeaves }
{}

/// Loose blocks change.
pub fn loose_changes()
    ensures { LooseChanges }
{}

/// The indices change, with all their blocks.
pub fn indices_change()
    ensures { IndicesChange }
{}

/// The order of the loose blocks doesn't matter.
pub fn loose_in_any_order()
    ensures { LooseInAnyOrder }
{}

/// Rows that are listed of no directory don't matter.
pub fn rows_elsewhere()
    ensures { RowsElsewhere }
{}

/// The tree's indices are not read.
pub fn indices_are_free()
    ensures { IndicesAreFree }
{}

/// The count of used blocks is not read.
pub fn count_is_free()
    ensures { CountIsFree }
{}

/// What a bitmap counts is what is reached.
pub fn count_is_reach()
    ensures { CountIsReach }
{}

/// A stocked volume whose lists agree with its tree is sound, counted anew.
pub fn counted_is_sound()
    ensures { CountedIsSound }
{}

/// Where the same blocks are marked, as many are reached.
pub fn length_is_same()
    ensures { LengthIsSame }
{}
