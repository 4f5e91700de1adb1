// What steps of the plain tree do to lists that agree with it.
ghost use Rattle.bfs_shift.specs.TreeLaws.{AgreesFollows, AgreesStays, IndexMakeAgrees, IndexRemoveAgrees, MakeAgrees, MakeChangesSeat, RemoveAgrees, RemoveChangesSeat, RenameAgrees, RenameChangesSeat, ReplacedAgrees, StatusAgrees, ListsAt, KeyOfNew, MadeNodes, DroppedNodes, MovedNodes};

/// Lists that follow the one node that came, went or moved agree with the tree.
pub fn agrees_follows()
    ensures { AgreesFollows }
{}

/// Where all nodes stand where they did, the lists agree still.
pub fn agrees_stays()
    ensures { AgreesStays }
{}

/// Lists that gain a node agree with the tree in which it was made.
pub fn make_agrees()
    ensures { MakeAgrees }
{}

/// Lists that lose a node agree with the tree without it.
pub fn remove_agrees()
    ensures { RemoveAgrees }
{}

/// Lists agree where a node has another record.
pub fn status_agrees()
    ensures { StatusAgrees }
{}

/// Lists that gain an index agree with the tree that has it.
pub fn index_make_agrees()
    ensures { IndexMakeAgrees }
{}

/// Lists that lose an index agree with the tree without it.
pub fn index_remove_agrees()
    ensures { IndexRemoveAgrees }
{}

/// Lists where a node has moved agree with the tree in which it has.
pub fn rename_agrees()
    ensures { RenameAgrees }
{}

/// A node that a move replaces leaves a plain tree, and lists that lose it agree.
pub fn replaced_agrees()
    ensures { ReplacedAgrees }
{}

/// Making a node gives one node alone a place.
pub fn make_changes_seat()
    ensures { MakeChangesSeat }
{}

/// Removing a node takes the place of one node alone.
pub fn remove_changes_seat()
    ensures { RemoveChangesSeat }
{}

/// Renaming a node gives one node alone another place.
pub fn rename_changes_seat()
    ensures { RenameChangesSeat }
{}

/// Lists with one thing changed.
pub fn lists_at()
    ensures { ListsAt }
{}

/// The key of a new node.
pub fn key_of_new()
    ensures { KeyOfNew }
{}

/// The nodes after one was made.
pub fn made_nodes()
    ensures { MadeNodes }
{}

/// The nodes after one was removed.
pub fn dropped_nodes()
    ensures { DroppedNodes }
{}

/// The nodes after one has moved.
pub fn moved_nodes()
    ensures { MovedNodes }
{}
