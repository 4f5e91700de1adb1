// The attributes of an inode: items of its small data, and rows of its attribute directory, each of which names an inode whose
// type is the attribute's and whose stream has its bytes. What the attributes of an inode are is `entries_at`, as a list, and
// `attributes_at`, as a map, in specs/Bearers.antt.
#![tactic(auto)]

mod area;
mod attrs;
mod bearing;
mod directory;
mod inode;
mod laws;
mod longest;
mod reading;
mod rows;
mod small;
mod storing;

pub use area::{puts_attribute, takes_attribute};
pub use attrs::Attrs;
pub use bearing::{put_in_small, put_own_name, take_from_small};
pub use directory::{InodeRow, has_attribute_row, is_directory_empty, named_inodes};
pub use laws::{nodes_bear_attributes, small_data_changes};
pub use longest::longest_attribute;
pub use reading::{attribute_of, directory_at, rows_of};
pub use rows::{AttrItem, AttrRows};
pub use storing::store_attribute;
