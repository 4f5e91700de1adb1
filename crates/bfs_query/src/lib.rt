// The calls that read what a node bears and what the indices of a volume list: one attribute or the rows of all, the indices, and the
// nodes that one of them lists between two keys. Each contract speaks of the plain tree for which the volume stands, and nothing
// changes.
#![tactic(auto)]

mod attributes;
mod finding;
mod kind;
mod listing;
mod order;

pub use attributes::{attr_list, attr_read};
pub use bfs_moves as moves;
pub use finding::index_find;
pub use kind::{IndexAt, damaged, index_at, index_of};
pub use listing::index_list;
