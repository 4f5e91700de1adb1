// Which of some inodes has a block: the second look of a check, where a block has two owners or isn't marked. What is found stands in
// specs/Owned.antt.
#![tactic(auto)]

mod place;
mod search;

pub use place::Place;
pub use search::find_owner;
