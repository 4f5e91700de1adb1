// A node leaves every index that lists it. Its record and the rows of the index directory are read first; then of each index its kind and
// the node's key are read, and the node is taken out.
// What the indices list then is `ListsWithout` in specs/Without.antt.
#![tactic(auto)]

mod reading;
mod unlisting;

pub use bfs_query as query;
pub use unlisting::unlist_node;
