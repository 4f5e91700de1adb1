// The links of a page.

/// The links of a page, as byte offsets in the tree's stream, or -1 where there is none.
#[derive(Clone, Copy, Debug, PartialEq, Eq)]
pub struct Links {
    /// The page to the left; of a free page, the next free one.
    pub left: i64,
    /// The page to the right.
    pub right: i64,
    /// The last child of an interior page; -1 of a leaf, and -2 of a free page.
    pub overflow: i64,
}

/// The links of a page that has no neighbours and no child.
pub const NULL_LINKS: Links = Links {
    left: -1,
    right: -1,
    overflow: -1,
};
