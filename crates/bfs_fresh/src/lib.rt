// The block of a new node's inode, as it is made: its fields, an empty stream or a short target, and the item with its name alone
// (specs/Fresh.antt).
#![tactic(auto)]

mod block;
mod fields;
mod naming;

pub use block::{fresh_block, link_block};
pub use fields::NewNode;
pub use naming::address;
