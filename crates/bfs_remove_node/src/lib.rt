// The call that removes a node: whether it is refused, and the node leaves its directory, every index that lists it, and the tree, and its
// blocks are given back. What the volume then stands for is `IsRemovedIn` in specs/Removed.antt.
#![tactic(auto)]

mod allowance;
mod child;
mod conflict;
mod full;
mod laws;
mod listed;
mod naming;
mod refusal;
mod removing;
mod streams;

pub use allowance::{built_in_count, remove_allowance};
pub use bfs_unlist as unlist;
pub use bfs_unmake as unmake;
pub use child::{Child, child_at, child_in, refusal_by};
pub use conflict::held_by;
pub use full::is_full;
pub use laws::may_be_removed;
pub use listed::attribute_indices;
pub use refusal::remove_refusal;
pub use removing::remove_node;
pub use streams::node_streams;
