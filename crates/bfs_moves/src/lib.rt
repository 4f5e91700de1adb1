// What a call of a space does to a volume, step by step: each step is a function over blocks that can be changed, whose contract
// speaks of the volume within the call (specs/Work.antt) and of nothing below it.
#![tactic(auto)]

mod birth;
mod find;
mod first_tree;
mod grown;
mod inode;
mod laws;
mod listing;
mod node;
mod pairs;
mod rows;
mod stamp;
mod status;
mod take;

pub use bfs_dir as dir;
pub use find::find_index;
pub use grown::{make_directory, make_long_link};
pub use inode::{buffer, check_inode, load_inode};
pub use laws::{
    call_is_kept, goes_on_same, goes_on_twice, node_is_listed, used_is_reach, work_begins,
    work_ends,
};
pub use listing::list_where;
pub use node::{make_file, make_link};
pub use pairs::{list_pair, unlist_pair};
pub use rows::put_name;
pub use stamp::stamp_directory;
pub use status::{Status, set_status};
pub use take::take_block;
