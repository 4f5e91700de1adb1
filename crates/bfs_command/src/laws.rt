// Laws of the entries of lines: each is the contract of a function that does nothing.
ghost use Rattle.bfs_command.specs.SpelledLaws.{NothingIsSpelled, LineIsSpelled, OwnEntriesAreSpelled, StopIsSpelled};

/// A script without lines spells a history without entries.
pub fn nothing_is_spelled()
    ensures { NothingIsSpelled }
{}

/// The entries of one more line, behind a history that is spelled, are spelled with it.
pub fn line_is_spelled()
    ensures { LineIsSpelled }
{}

/// Entries of session 0 change nothing.
pub fn own_entries_are_spelled()
    ensures { OwnEntriesAreSpelled }
{}

/// Where a line stops on its way, the history is spelled so far.
pub fn stop_is_spelled()
    ensures { StopIsSpelled }
{}
