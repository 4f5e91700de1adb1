// Laws of rows, and of the pages that their values reach: each is the contract of a function that does nothing.
ghost use Rattle.bfs_values.specs.Laws.{RowsAreThose, RowsAscend, LeafStays, PutReaches, TakenReaches, ReplacedReaches};

/// A tree's rows are those of its stream's bytes, whatever shape it is seen in.
pub fn rows_are_those()
    ensures { RowsAreThose }
{}

/// The keys of a tree's rows ascend.
pub fn rows_ascend()
    ensures { RowsAscend }
{}

/// A leaf has the same rows wherever a tree of one shape stands.
pub fn leaf_stays()
    ensures { LeafStays }
{}

/// Values reach the same pages where a row with a plain value is put.
pub fn put_reaches()
    ensures { PutReaches }
{}

/// Values reach the same pages where a row with a plain value is taken.
pub fn taken_reaches()
    ensures { TakenReaches }
{}

/// Values reach the same pages where a plain value takes the place of another.
pub fn replaced_reaches()
    ensures { ReplacedReaches }
{}
