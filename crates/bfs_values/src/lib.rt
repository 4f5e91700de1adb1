// What the values of a tree's leaves mean: a number, the numbers of a fragment, or those of a chain of duplicate pages. And
// what the rows of a tree's stream are (specs/Rows.antt), which pages their values reach, and when a stream is a tree with
// all its pages (specs/Reached.antt).
#![tactic(auto)]

mod chain;
mod laws;
mod link;
mod numbers;
mod packed;
mod setting;

pub use chain::add_chain;
pub use laws::{
    leaf_stays, put_reaches, replaced_reaches, rows_are_those, rows_ascend, taken_reaches,
};
pub use link::{Link, is_named, link_of};
pub use numbers::{Numbers, numbers_of};
pub use packed::{add_numbers, ascends, duplicates_size, fragment_size, number_at};
pub use setting::set_value;
