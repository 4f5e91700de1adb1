// Gathers the pairs that an index has to list, of the nodes that a check has gone over: the key of each, with its number, in the index's
// order. What is known of the nodes then stands in specs/Gathered.antt.
#![tactic(auto)]

mod fault;
mod gather;
mod inode_keys;
mod key;
mod wanted;

pub use bfs_nodes_walk as nodes_walk;
pub use wanted::wanted_pairs;
