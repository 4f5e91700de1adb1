// An index that was found.
use bfs_node::KeyKind;
use bfs_tree::Bytes;

/// An index: its name, the block of its inode, and the kind of its keys.
#[derive(Debug, Drop)]
pub struct FoundIndex {
    pub name: Bytes,
    pub id: u64,
    pub kind: KeyKind,
}
