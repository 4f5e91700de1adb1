// Laws of sound volumes: each is the contract of a function that does nothing.
ghost use Rattle.bfs_sound.specs.Laws.{ImageIsCarried, OthersStay, PartsAreCarried, WholeIsCarried};
ghost use Rattle.bfs_sound.specs.Worked.{NeedIsWorked};
ghost use Rattle.bfs_sound.specs.OwnerLaws.{OtherOwnersStay, OwnerStays, OwnersAreApart, ReachIsByOwners};

/// A superblock with blocks that agrees with a whole one in its geometry and at every metadata block but block 0 and those
/// of the log is whole with the same tree, where it is valid and its log is empty.
pub fn whole_is_carried()
    ensures { WholeIsCarried }
{}

/// The same of two images.
pub fn image_is_carried()
    ensures { ImageIsCarried }
{}

/// Across equal metadata each part of a sound volume is carried by itself, whatever becomes of the count: its nodes, its
/// indices, what is reached and what of it is metadata, and which bits are set.
pub fn parts_are_carried()
    ensures { PartsAreCarried }
{}

/// In a sound volume a change of one node's blocks leaves the record and the blocks of every other node.
pub fn others_stay()
    ensures { OthersStay }
{}

/// What is reached is block 0, the log, the bitmap, and the blocks of each owner.
pub fn reach_is_by_owners()
    ensures { ReachIsByOwners }
{}

/// Where each block is reached once, two owners share none.
pub fn owners_are_apart()
    ensures { OwnersAreApart }
{}

/// Where a volume agrees at an owner's blocks, the owner stays as it is.
pub fn owner_stays()
    ensures { OwnerStays }
{}

/// A change at one owner's blocks, and at blocks that no owner has, leaves all others.
pub fn other_owners_stay()
    ensures { OtherOwnersStay }
{}

/// What calls need, worked out by hand.
pub fn need_is_worked()
    ensures { NeedIsWorked }
{}
