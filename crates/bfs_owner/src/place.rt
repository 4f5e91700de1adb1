// An inode in its place.
use bfs_node_check::Role;

/// An inode by the number of its block, and how it is reached.
#[derive(Clone, Copy, Debug)]
pub struct Place {
    pub id: u64,
    pub role: Role,
}
