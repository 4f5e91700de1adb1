// Volumes with one thing broken: that each is whole with no tree is the contract of a function that does nothing.
ghost use Rattle.bfs_sound_tests.specs.Directory.{AstrayIsBroken, LoggedIsBroken, MiscountedIsBroken, NamelessIsBroken, OvermarkedIsBroken, RenamedIsBroken, SharedIsBroken, TruncatedIsBroken, UnindexedIsBroken, UnlistedIsBroken, UnmarkedIsBroken};
ghost use Rattle.bfs_sound_tests.specs.Files.{DescendingIsBroken, UnevenIsBroken, UnfilledIsBroken, UnnamedIsBroken};
ghost use Rattle.bfs_sound_tests.specs.Attributes.{ClaimedIsBroken};
ghost use Rattle.bfs_sound_tests.specs.Levels.{ShortRunIsBroken};
ghost use Rattle.bfs_sound_tests.specs.Logged.{UnreplayedIsBroken};
ghost use Rattle.bfs_sound_tests.specs.Nested.{CircledIsBroken, DoubledIsBroken, EnteredIsBroken, MisplacedIsBroken};
ghost use Rattle.bfs_sound_tests.specs.Pages.{LoopedIsBroken, MismeasuredIsBroken, UnreachedIsBroken};
ghost use Rattle.bfs_sound_tests.specs.Links.{ClashingIsBroken, OutsideIsBroken, RepeatedIsBroken, UnendedIsBroken, UntypedIsBroken};

/// The bit of the directory's inode is clear.
pub fn unmarked_is_broken()
    ensures { UnmarkedIsBroken }
{}

/// The root directory has no row for the directory.
pub fn unlisted_is_broken()
    ensures { UnlistedIsBroken }
{}

/// Two indices have their streams in the same blocks.
pub fn shared_is_broken()
    ensures { SharedIsBroken }
{}

/// The index `name` has no row for the directory.
pub fn unindexed_is_broken()
    ensures { UnindexedIsBroken }
{}

/// The superblock counts one used block more than there are.
pub fn miscounted_is_broken()
    ensures { MiscountedIsBroken }
{}

/// The bit of a block is set that nothing reaches.
pub fn overmarked_is_broken()
    ensures { OvermarkedIsBroken }
{}

/// The log isn't empty.
pub fn logged_is_broken()
    ensures { LoggedIsBroken }
{}

/// The image lacks its last byte.
pub fn truncated_is_broken()
    ensures { TruncatedIsBroken }
{}

/// No zero ends the target of the short link.
pub fn unended_is_broken()
    ensures { UnendedIsBroken }
{}

/// The stream of the long link lies past the volume's end.
pub fn outside_is_broken()
    ensures { OutsideIsBroken }
{}

/// An attribute is in small data twice.
pub fn repeated_is_broken()
    ensures { RepeatedIsBroken }
{}

/// The attribute directory has a row of a name that small data has too.
pub fn clashing_is_broken()
    ensures { ClashingIsBroken }
{}

/// The inode of an attribute isn't marked as one.
pub fn untyped_is_broken()
    ensures { UntypedIsBroken }
{}

/// A file has an indirect table although its direct runs aren't all used.
pub fn unfilled_is_broken()
    ensures { UnfilledIsBroken }
{}

/// A fragment is in use that no row names.
pub fn unnamed_is_broken()
    ensures { UnnamedIsBroken }
{}

/// The numbers of a fragment don't ascend.
pub fn descending_is_broken()
    ensures { DescendingIsBroken }
{}

/// The header of a tree says another size than its stream's.
pub fn mismeasured_is_broken()
    ensures { MismeasuredIsBroken }
{}

/// A page of duplicates leads to itself.
pub fn looped_is_broken()
    ensures { LoopedIsBroken }
{}

/// A directory names another parent than the directory whose row it is.
pub fn misplaced_is_broken()
    ensures { MisplacedIsBroken }
{}

/// Two directories have a row for one directory.
pub fn doubled_is_broken()
    ensures { DoubledIsBroken }
{}

/// The log has an entry that wasn't replayed.
pub fn unreplayed_is_broken()
    ensures { UnreplayedIsBroken }
{}

/// A data run under the double indirect level has three blocks.
pub fn short_run_is_broken()
    ensures { ShortRunIsBroken }
{}

/// The row `.` of a directory names another directory.
pub fn astray_is_broken()
    ensures { AstrayIsBroken }
{}

/// A directory's inode has no item with its own name.
pub fn nameless_is_broken()
    ensures { NamelessIsBroken }
{}

/// A directory's inode has the item with its own name twice.
pub fn renamed_is_broken()
    ensures { RenamedIsBroken }
{}

/// The stream of a tree has 2,560 bytes.
pub fn uneven_is_broken()
    ensures { UnevenIsBroken }
{}

/// A page of a tree's stream is in the tree as little as in the free list, and no value reaches it.
pub fn unreached_is_broken()
    ensures { UnreachedIsBroken }
{}

/// Two directories are each other's parents, and the root directory doesn't lead to them.
pub fn circled_is_broken()
    ensures { CircledIsBroken }
{}

/// The root directory leads to two directories that are each other's parents.
pub fn entered_is_broken()
    ensures { EnteredIsBroken }
{}

/// Two attribute directories name the same attribute.
pub fn claimed_is_broken()
    ensures { ClaimedIsBroken }
{}
