// Laws of a tour over the nodes of a volume: each is the contract of a function that does nothing.
ghost use Rattle.bfs_tour.specs.Pairs.{GatheredAreListed, PairsAreListed};
ghost use Rattle.bfs_tour.specs.Touring.{RoundEnds, TourBegins, TourEnds, TourGoesOn};
ghost use Rattle.bfs_tour.specs.Tours.{TourReaches, TourStands, RoundIsUnbroken};

/// A tour begins with the root, whose rows lead on.
pub fn tour_begins()
    ensures { TourBegins }
{}

/// It goes on with the first row that leads on.
pub fn tour_goes_on()
    ensures { TourGoesOn }
{}

/// Where no row leads on, and the index directory was gone over, it is a round.
pub fn round_ends()
    ensures { RoundEnds }
{}

/// Where besides the index directory has a row, if it is there, it is whole.
pub fn tour_ends()
    ensures { TourEnds }
{}

/// What was claimed on a tour is what the tree reaches that was toured.
pub fn tour_reaches()
    ensures { TourReaches }
{}

/// Where no block was claimed twice and none outside of the volume, the tree that was toured stands on the volume.
pub fn tour_stands()
    ensures { TourStands }
{}

/// Pairs that rise and are those of the nodes that were visited are what the tree lists.
pub fn pairs_are_listed()
    ensures { PairsAreListed }
{}

/// The pairs of the nodes that were visited, gathered in any order and then put in order, are what the tree lists.
pub fn gathered_are_listed()
    ensures { GatheredAreListed }
{}

/// Nothing is broken where a round over all nodes and indices was gone, and no block claimed twice nor outside of the volume.
pub fn round_is_unbroken()
    ensures { RoundIsUnbroken }
{}
