// Laws of whole images: each is the contract of a function that does nothing.
ghost use Rattle.bfs_finding.specs.OneTree.{RecoveredTreeIsOne, SoundTreeIsOne, StandingTreeIsOne, TreeIsOne};

/// At most one tree is whole with an image.
pub fn tree_is_one()
    ensures { TreeIsOne }
{}

/// At most one tree stands on a volume, whatever the rest of the volume holds.
pub fn standing_tree_is_one()
    ensures { StandingTreeIsOne }
{}

/// A volume is sound with at most one tree.
pub fn sound_tree_is_one()
    ensures { SoundTreeIsOne }
{}

/// An image recovers to at most one tree.
pub fn recovered_tree_is_one()
    ensures { RecoveredTreeIsOne }
{}
