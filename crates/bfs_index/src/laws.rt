// Laws of an index's pairs: each is the contract of a function that does nothing.
ghost use Rattle.bfs_index.specs.Laws.{PairsAscend, WrittenIsUnique, AddedIsWritten, TakenIsWritten};

/// The pairs of an index strictly ascend, by key, then by id.
pub fn pairs_ascend()
    ensures { PairsAscend }
{}

/// An index's pairs are any list that strictly ascends and has just these pairs.
pub fn written_is_unique()
    ensures { WrittenIsUnique }
{}

/// An index's list, where a pair was added.
pub fn added_is_written()
    ensures { AddedIsWritten }
{}

/// An index's list, where a pair was taken out.
pub fn taken_is_written()
    ensures { TakenIsWritten }
{}
