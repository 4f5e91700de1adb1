// Reads a whole tree that may hold anything, and answers that it is whole, with all its pages and values, or what is wrong with it.
// Here the values of a tree of names, which are plain numbers.
#![tactic(auto)]

mod names;
mod row;
mod unmet;
mod values;

pub use names::walk_names;
pub use row::OtherRow;
pub use unmet::check_met;
pub use values::check_values;
