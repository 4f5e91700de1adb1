// Holds all indices of a volume that may hold anything against its nodes, which were gone over with them: the built-in ones are there, and
// each lists what the tree's rule says. What each answer says stands in specs/.
#![tactic(auto)]

mod built_in;
mod index;
mod pass;
mod same;

pub use bfs_index_walk as index_walk;
pub use bfs_index_walk::attrs_walk as attrs_walk;
pub use pass::check_indices;
