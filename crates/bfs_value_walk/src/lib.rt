// Reads a whole tree whose values may mean several numbers, and answers its keys with their numbers, or gives them to a sink one after the
// other; or what is wrong with it. What
// the tree's pages are is read by bfs_tree_check; here are its values: plain numbers, fragments, and chains of duplicate pages.
#![tactic(auto)]

mod chain;
mod leaves;
mod naming;
mod parts;
mod rows;
mod several;
mod sink;
mod value;
mod walk;
mod words;

pub use bfs_tree_walk as tree_walk;
pub use sink::{KeptRows, NoRows, RowSink};
pub use walk::{check_values, walk_rows, walk_values};
