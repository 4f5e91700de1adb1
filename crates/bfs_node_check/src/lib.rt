// Holds the block of an inode against what its place asks for: its fields, its mode, and for a node its small data, its target, its
// name and its parent. Each call answers Ok exactly where this is right, and else a finding that is true of
// each volume in which the inode is reached so.
#![tactic(auto)]

mod area;
mod fault;
mod inode;
mod mode;
mod name;
mod parent;
mod role;
mod target;

pub use area::{goes_on, name_size_at, size_at};
pub use fault::NodeFault;
pub use inode::{InodeWrong, check_inode};
pub use mode::kind_of;
pub use name::check_name;
pub use parent::check_parent;
pub use role::Role;
