// Laws of rows, each the contract of a function that does nothing.
ghost use Rattle.bfs_maps.specs.Laws.{PutsAtKey, TakesAtKey, NamesDiffer};

/// A row that is put changes the value at its key alone.
pub fn puts_at_key()
    ensures { PutsAtKey }
{}

/// A row that is taken leaves the values at other keys.
pub fn takes_at_key()
    ensures { TakesAtKey }
{}

/// Names that differ are different keys.
pub fn names_differ()
    ensures { NamesDiffer }
{}
