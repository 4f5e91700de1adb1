// The pages of B+trees: the definitions that contracts on trees cite, reading and writing of pages, pages that are taken
// for a tree, the way of a key down, and a stream of pages in memory.
#![tactic(auto)]

mod beside;
mod finding;
mod look;
mod memory;
mod places;
mod read;
mod take;
mod write;

pub use beside::{read_beside, write_beside};
pub use bfs_txn as txn;
pub use finding::{Found, find, leaf_for};
pub use look::{child_for, child_link, look_up, place_for};
pub use memory::MemPages;
pub use places::{is_child, is_link, place};
pub use read::{read_header, read_interior, read_leaf};
pub use take::{Fresh, take_page};
pub use write::{add_page, write_header, write_page};
