// Laws of findings: each is the contract of a function that does nothing.
ghost use Rattle.bfs_finding.specs.Laws.{BrokenExcludes, FindingExcludes, SoundStands};
ghost use Rattle.bfs_finding.specs.Worked.{NamesAreWorked, StreamsAreWorked, WalksAreWorked};

/// The tree of a sound volume stands on it, in blocks of the volume.
pub fn sound_stands()
    ensures { SoundStands }
{}

/// A finding on a volume's inodes, streams, trees, rows or names excludes that a tree stands on it.
pub fn broken_excludes()
    ensures { BrokenExcludes }
{}

/// A finding that is true of an image excludes that the image is whole with any tree.
pub fn finding_excludes()
    ensures { FindingExcludes }
{}

/// What is met in a tree, worked out by hand.
pub fn walks_are_worked()
    ensures { WalksAreWorked }
{}

/// Wrong streams, worked out by hand.
pub fn streams_are_worked()
    ensures { StreamsAreWorked }
{}

/// The name that an item says, worked out by hand.
pub fn names_are_worked()
    ensures { NamesAreWorked }
{}
