// What a whole image determines, its tree (specs/OneTree.antt), and what a check finds wrong with a volume, and when that is true of
// an image: specs/Findings.antt has the last word, and the others lead there in the order of specs/Lib.antt. The functions are laws
// over these words, and do nothing: at most one tree is whole with an image, and a finding that is true of it excludes that one is.
#![tactic(auto)]

mod finding;
mod laws;
mod numbers;
mod one_tree;

pub use finding::{Finding, InodePart, PagePart};
pub use laws::{
    broken_excludes, finding_excludes, names_are_worked, sound_stands, streams_are_worked,
    walks_are_worked,
};
pub use numbers::{fault_number, inode_number, page_number};
pub use one_tree::{recovered_tree_is_one, sound_tree_is_one, standing_tree_is_one, tree_is_one};
