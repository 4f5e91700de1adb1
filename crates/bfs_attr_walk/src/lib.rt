// Goes over the attributes of a node of a volume that may hold anything: the address of its attribute directory, the inode of that with its
// rows, and the inodes that these name. Whether their names differ is bfs_attrs_walk's.
#![tactic(auto)]

mod address;
mod attribute;
mod directory;
mod owner;
mod places;
mod stored;

pub use address::directory_of;
pub use attribute::{is_proper_name, number_of, visit_rows};
pub use directory::{rows_in, visit_directory};
pub use owner::find_stored;
pub use places::push_places;
pub use stored::visit_stored;
