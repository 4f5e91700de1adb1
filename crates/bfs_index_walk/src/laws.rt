// Laws of a walk over the nodes, their attributes and the indices.
ghost use Rattle.std.specs.Prelude.{◌≡◌};
ghost use Rattle.bfs_sound.specs.Volumes.{Volume};
ghost use Rattle.bfs_index_walk.specs.Laws.{NoneIsRowless, WalkIsTour, WalkStands};

use bfs_claims::Claims;
use bfs_tour::{tour_ends, tour_stands};

/// An index directory of which no index was found has no row.
pub fn none_is_rowless()
    ensures { NoneIsRowless }
{}

/// A walk over all nodes with their attributes and over the indices is a whole tour.
pub fn walk_is_tour()
    ensures { WalkIsTour }
{
    tour_ends();
}

/// The tree that was walked over stands on the volume.
pub fn walk_stands(claims: &Claims)
    ensures { (v : Volume) → claims.now.blocks ≡ v.geometry.blocks → WalkStands v claims.now }
{
    walk_is_tour();
    tour_stands();
    let _ = claims.blocks();
}
