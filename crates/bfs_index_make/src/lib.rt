// The call that makes an index: the pairs that it is to list are gathered from the nodes that the index of names lists, its inode is made
// with a tree without rows and its name put in the index directory, and then each pair is put. What the tree is since is `with_new_index`
// in specs/Made.antt.
#![tactic(auto)]

mod allowance;
mod filling;
mod gather;
mod growing;
mod joining;
mod making;
mod refusal;

pub use allowance::index_make_allowance;
pub use bfs_attr_put as attr_put;
pub use bfs_attr_put::attr_calls as attr_calls;
pub use bfs_remove_index as remove_index;
pub use bfs_remove_index::query as query;
pub use making::make_index;
pub use refusal::index_make_refusal;
