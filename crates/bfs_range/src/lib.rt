// The rows of a tree of pages in a range of keys, each with the numbers of its value.
#![tactic(auto)]

mod ends;
mod ranged;
mod ranging;
mod rows;

pub use bfs_values::Numbers;
pub use ends::{end_for, least_key, low_or_least};
pub use ranged::{KeyBytes, Ranged, RangedRow};
pub use ranging::{range, range_from};
pub use rows::{take_leaf, take_rows};
