// Making inodes: a block is taken for one, its fields are written, and its stream is given bytes; and giving them back with all
// their blocks. What an inode is that is made, and what has changed since, stands in specs/Made.antt, and what is left of one
// that was given back in specs/Given.antt.
#![tactic(auto)]

mod filling;
mod giving;
mod making;
mod reading;
mod site;
mod storing;
mod tree;

pub use giving::{give_block, give_inode, run_of};
pub use making::{InodeForm, NewInode, make_inode, new_inode, run_start, take_block};
pub use reading::{read_block, stream_bytes};
pub use site::{Site, blocks_in, has_long_blocks, has_short_blocks};
pub use storing::{blocks_for, store, write_stream};
pub use tree::{empty_tree, tree_header};
