// Goes over the attributes of all nodes of a volume that may hold anything: the names of a node's items and of the rows of its attribute
// directory, that directory with the inodes that it names, and so on for each node that was gone over.
#![tactic(auto)]

mod node;
mod owners;
mod pass;
mod told;

pub use bfs_attr_walk as attr_walk;
pub use node::visit_attributes;
pub use owners::{find_attribute, find_before, find_node, find_owner_in};
pub use pass::visit_all;
