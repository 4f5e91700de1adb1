// How many nodes a tree has after a call, of so many before it (specs/Counts.antt).
#![tactic(auto)]

mod counts;
mod laws;

pub use counts::{counted, replaces};
pub use laws::nodes_are_counted;
