// What the steps of a call that takes an attribute leave, and which attribute can move: contracts of functions that do nothing.
ghost use Rattle.bfs_attrs.specs.Laws.{LastLeaves, LongestCanMove, OthersStay};

/// The one attribute of an attribute directory is gone with the directory.
pub fn last_leaves()
    ensures { LastLeaves }
{}

/// An attribute is left in an attribute directory that named others than the one that was taken.
pub fn others_stay()
    ensures { OthersStay }
{}

/// The longest attribute in small data stands there under its name alone, and can move out.
pub fn longest_can_move()
    ensures { LongestCanMove }
{}
