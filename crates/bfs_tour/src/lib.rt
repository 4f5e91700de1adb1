// What a check knows once it has gone over all nodes of a volume, and that this is then a tree which stands on it: specs/Tours.antt; and
// that sorted pairs are what an index lists.
// The functions are laws over these words, and do nothing.
#![tactic(auto)]

mod laws;

pub use laws::{
    gathered_are_listed, pairs_are_listed, round_ends, round_is_unbroken, tour_begins, tour_ends,
    tour_goes_on, tour_reaches, tour_stands,
};
