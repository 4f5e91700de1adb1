// What the calls below make of a volume's blocks.
ghost use Rattle.bfs_shift.specs.Shifts.{TakenShift, GivenShift, WritesShift, ShiftWidens, ShiftInAnyOrder, LooseOwns, OwnerOwns, DirectoryOwns, NamesOwn, IndexOwns, OwnersAre};

/// A run that is taken comes.
pub fn taken_shift()
    ensures { TakenShift }
{}

/// A run that is given back goes.
pub fn given_shift()
    ensures { GivenShift }
{}

/// Blocks that are written are a shift of themselves.
pub fn writes_shift()
    ensures { WritesShift }
{}

/// A shift is one of more blocks too.
pub fn shift_widens()
    ensures { ShiftWidens }
{}

/// The order of the blocks of a shift doesn't matter.
pub fn shift_in_any_order()
    ensures { ShiftInAnyOrder }
{}

/// The stream of an owner owns its blocks.
pub fn owner_owns()
    ensures { OwnerOwns }
{}

/// A stream of loose blocks owns them.
pub fn loose_owns()
    ensures { LooseOwns }
{}

/// A directory owns its blocks.
pub fn directory_owns()
    ensures { DirectoryOwns }
{}

/// The index directory owns its blocks.
pub fn names_own()
    ensures { NamesOwn }
{}

/// An index owns its blocks.
pub fn index_owns()
    ensures { IndexOwns }
{}

/// Who owns.
pub fn owners_are()
    ensures { OwnersAre }
{}
