// Goes over the nodes of a volume that may hold anything: the rows of a tree of names, and what those of a directory have to be. What
// each answer says stands in specs/.
#![tactic(auto)]

mod fault;
mod listing;
mod names;
mod node;
mod row;

pub use bfs_names_walk as names_walk;
pub use fault::{page_fault, tree_fault};
pub use listing::check_listing;
pub use names::{read_names, size_in};
pub use node::{VisitedNode, name_fault, visit_child, visit_root};
pub use row::check_rows;
