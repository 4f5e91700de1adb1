// Goes over the index directory of a volume that may hold anything, and over the indices that its rows name: the inode of each, its
// stream and blocks, the kind of its keys, and its whole tree with the numbers of its keys.
#![tactic(auto)]

mod clash;
mod directory;
mod found;
mod header;
mod index;
mod laws;
mod owners;
mod places;
mod row;
mod values;
mod walk;

pub use bfs_attrs_walk as attrs_walk;
pub use bfs_value_walk::RowSink;
pub use found::FoundIndex;
pub use header::find_kind;
pub use index::visit_index;
pub use laws::{none_is_rowless, walk_is_tour, walk_stands};
pub use owners::find_index_owner;
pub use values::{read_rows, read_values};
pub use walk::visit_indices;
