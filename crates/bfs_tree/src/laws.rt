// Laws of steps and histories: each is the contract of a function that does nothing.
ghost use Rattle.bfs_tree.specs.ListedLaws.{ListedHas, ListedAscends, ListedIsUnique, ListedStays, ListedMoves, MovedHas, ListedPut, ListedTaken, ListedKept, KeyDependsOn};
ghost use Rattle.bfs_tree.specs.Laws.{DrawnIsLater, EmptyIsPlain, HistoryKeepsPlain, InsideIsBelow, StateIsDetermined, StepKeepsIndices, StepKeepsPlain, RefusalIsUnique, LegalGoesOn, PrefixIsLegal};

/// The state before an entry and the entry determine the state after it.
pub fn state_is_determined()
    ensures { StateIsDetermined }
{}

/// Where an own refusal's condition holds, the first is the only reply but a fault of the disk.
pub fn refusal_is_unique()
    ensures { RefusalIsUnique }
{}

/// A legal history goes on by an entry that may follow it.
pub fn legal_goes_on()
    ensures { LegalGoesOn }
{}

/// What a legal history begins with is legal.
pub fn prefix_is_legal()
    ensures { PrefixIsLegal }
{}

/// The tree of a new volume is plain.
pub fn empty_is_plain()
    ensures { EmptyIsPlain }
{}

/// `Inside` is answered just where the node is a directory on the way up from the other one.
pub fn inside_is_below()
    ensures { InsideIsBelow }
{}

/// A step keeps a tree plain.
pub fn step_keeps_plain()
    ensures { StepKeepsPlain }
{}

/// A step keeps the built-in indices, and makes none on a tree without indices.
pub fn step_keeps_indices()
    ensures { StepKeepsIndices }
{}

/// A legal history that begins with a plain tree keeps it plain.
pub fn history_keeps_plain()
    ensures { HistoryKeepsPlain }
{}

/// A pair stands in an index's list exactly where the index lists the node of its id under its key.
pub fn listed_has()
    ensures { ListedHas }
{}

/// The pairs of an index's list strictly ascend.
pub fn listed_ascends()
    ensures { ListedAscends }
{}

/// Pairs that strictly ascend and are just those that the index lists are its list.
pub fn listed_is_unique()
    ensures { ListedIsUnique }
{}

/// An index's list stays where each node has the key that it had.
pub fn listed_stays()
    ensures { ListedStays }
{}

/// Where one node alone has another key, its old pair goes and its new one comes.
pub fn listed_moves()
    ensures { ListedMoves }
{}

/// What stands in the list then.
pub fn moved_has()
    ensures { MovedHas }
{}

/// The list where a node is put at an id.
pub fn listed_put()
    ensures { ListedPut }
{}

/// The list where a node is taken.
pub fn listed_taken()
    ensures { ListedTaken }
{}

/// The list where a node is put in the place of one that has the same key.
pub fn listed_kept()
    ensures { ListedKept }
{}

/// What the key of a node depends on.
pub fn key_depends_on()
    ensures { KeyDependsOn }
{}

/// A stamp that is drawn after a legal history is above all of its stamps.
pub fn drawn_is_later()
    ensures { DrawnIsLater }
{}
