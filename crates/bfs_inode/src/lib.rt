// The inode of a node, attribute or index in its block: readers and writers for each field of it and of its
// data stream. A block is the inode of a number exactly by `IsInode` of specs/Refusals.antt, and is refused by
// the first condition that it breaks (`IsRefusal`). What its fields are, `inode_at` and `stream_at` of
// specs/Inode.antt say. A writer changes its own bytes alone.
#![tactic(auto)]

mod check_inode;
mod edit;
mod fault;
mod view;

pub use check_inode::check;
pub use edit::InodeMut;
pub use fault::InodeFault;
pub use view::{InodeView, SMALL_DATA};
