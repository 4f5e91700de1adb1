// The place of an inode.

/// How an inode is reached: as the root, by a row of a directory, as the attribute directory of a node, as an attribute, or as the
/// index directory or an index.
#[derive(Clone, Copy, Debug, PartialEq, Eq)]
pub enum Role {
    Root,
    Child,
    AttributeDirectory,
    Attribute,
    Index,
}
