// Laws of an index whose pairs were held against those that it has to list: each is the contract of a function that does nothing.
ghost use Rattle.bfs_index_check.specs.Laws.{DifferenceIsUnlisted, SameIsListed};

/// What is said of the pairs is a finding that is true of the volume.
pub fn difference_is_unlisted()
    ensures { DifferenceIsUnlisted }
{}

/// Where the pairs are the same, the index lists what it has to.
pub fn same_is_listed()
    ensures { SameIsListed }
{}
