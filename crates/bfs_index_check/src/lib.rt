// Holds the pairs that stand in an index against those that it has to list. What is said of them where they differ is in
// specs/Compared.antt.
#![tactic(auto)]

mod compare;
mod laws;
mod sorting;

pub use compare::compare_pairs;
pub use laws::{difference_is_unlisted, same_is_listed};
pub use sorting::sort_pairs;
