// What stands on a level of a tree.

/// One thing on a level of a tree, from left to right: a page, or between two pages the key that parts them, by its place in a page
/// above. A page goes by its first byte in the stream.
#[derive(Clone, Copy, Debug, PartialEq, Eq)]
pub enum Item {
    Page { at: u64 },
    Key { page: u64, index: usize },
}
