// A row of a tree of names.
use bfs_tree::Bytes;

/// A name, and its value, whatever that says.
#[derive(Debug, Drop)]
pub struct NameRow {
    pub name: Bytes,
    pub value: i64,
}
