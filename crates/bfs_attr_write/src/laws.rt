// How the steps of a call follow one another: the contracts of functions that do nothing.
ghost use Rattle.bfs_attr_write.specs.Laws.{AttributesAreStored, ChangesFollow, DirectoriesStayHeld, EntriesPart, ExchangesFollow, RowsLeave};

/// What storing an attribute's inode leaves is what putting its row begins with.
pub fn attributes_are_stored()
    ensures { AttributesAreStored }
{}

/// While an attribute is stored, the attribute directory's stream stays held.
pub fn directories_stay_held()
    ensures { DirectoriesStayHeld }
{}

/// Two changes of attributes that follow one another are one.
pub fn changes_follow()
    ensures { ChangesFollow }
{}

/// Two exchanges of blocks that follow one another are one.
pub fn exchanges_follow()
    ensures { ExchangesFollow }
{}

/// An attribute taken from among others leaves the map without its name.
pub fn entries_part()
    ensures { EntriesPart }
{}

/// A row that was taken, and the inode that it named given back, leave the attributes without its name.
pub fn rows_leave()
    ensures { RowsLeave }
{}
