// Where a tree stands.
use bfs_node::KeyKind;
use bfs_super::Super;
use std::alloc::Global;

/// A tree in the stream of the inode at a block of a volume, and the kind of its keys.
#[derive(Clone, Copy)]
pub struct TreeAt {
    pub alloc: Global,
    pub inode: u64,
    pub sup: Super,
    pub kind: KeyKind,
}
