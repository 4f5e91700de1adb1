// Laws of verdicts: each is the contract of a function that does nothing.
ghost use Rattle.bfs_check.specs.Laws.{FindingIsOfImage, RecoveryIsExact, VerdictIsExact};

use bfs_finding::finding_excludes;
use bfs_log::replay_gives_one;
use bfs_sound::image_is_carried;

/// An image of which a finding is true is whole with no tree.
pub fn verdict_is_exact()
    ensures { VerdictIsExact }
{
    image_is_carried();
    finding_excludes();
}

/// An image that is replayed to one of which a finding is true recovers to no tree.
pub fn recovery_is_exact()
    ensures { RecoveryIsExact }
{
    replay_gives_one();
    verdict_is_exact();
}

/// Where nothing stands behind the volume on an image, a finding is true of the image itself.
pub fn finding_is_of_image()
    ensures { FindingIsOfImage }
{}
