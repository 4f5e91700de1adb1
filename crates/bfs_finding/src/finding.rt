// What a check finds wrong with a volume.
use bfs_super::SuperFault;
use bfs_tree::{Bytes, Key};

/// What is wrong with an inode: its magic number, the address of itself, its flags, its size, its mode, its small data, or the
/// target of a short link.
#[derive(Clone, Copy, Debug, PartialEq, Eq)]
pub enum InodePart {
    Magic,
    Number,
    Flags,
    Size,
    Mode,
    SmallData,
    Target,
}

/// What is wrong with a page of a tree: the magic number of its header, a size, the kind of its keys, its bounds, the ends of its
/// keys, or a value, a fragment or a duplicate page.
#[derive(Clone, Copy, Debug, PartialEq, Eq)]
pub enum PagePart {
    Magic,
    Size,
    Kind,
    Bounds,
    Ends,
    Content,
}

/// One thing that is wrong with a volume. An inode goes by the number of its block, and a page by its first byte in the stream.
#[derive(Debug, Drop)]
pub enum Finding {
    /// The superblock is refused.
    Super(SuperFault),
    /// The log isn't empty.
    Log {
        start: i64,
        end: i64,
    },
    /// A field of an inode is wrong.
    Inode {
        block: u64,
        part: InodePart,
        found: i64,
    },
    /// A run, a range or the size of a stream is wrong, or the run of an attribute directory.
    Stream {
        owner: u64,
        found: i64,
        wanted: i64,
    },
    /// Two owners have a block, or one has it twice. The owner 0 is the superblock, the bitmap and the log.
    Shared {
        block: u64,
        first: u64,
        second: u64,
    },
    /// A row or a key of a page is out of order.
    TreeOrder {
        owner: u64,
        page: u64,
        index: u64,
    },
    /// A link, the level of a page or the free list is wrong, or a page is met twice or never.
    TreeLink {
        owner: u64,
        page: u64,
        found: i64,
        wanted: i64,
    },
    /// A page of a tree isn't one of its kind.
    TreePage {
        owner: u64,
        page: u64,
        part: PagePart,
    },
    /// A row names no block of the volume.
    Row {
        owner: u64,
        value: i64,
    },
    /// A row and the node's own name differ, or the name is bad. Without an item of its own name the node has none.
    Name {
        id: u64,
        row: Bytes,
        item: Option<Bytes>,
    },
    /// The parent of a node is wrong, or the row `.` or `..` of a directory.
    Parent {
        id: u64,
        found: i64,
        wanted: u64,
    },
    /// A name stands twice among a node's items or attributes.
    Attribute {
        id: u64,
        name: Bytes,
    },
    /// A built-in index is missing, or has keys of another kind.
    IndexMissing {
        name: Bytes,
    },
    /// An index lacks a row.
    RowMissing {
        index: Bytes,
        key: Key,
        id: u64,
    },
    /// An index has a row too many.
    RowExtra {
        index: Bytes,
        key: Key,
        id: u64,
    },
    /// A block that is reached isn't marked.
    BitUnset {
        block: u64,
        owner: u64,
    },
    /// A block that is marked isn't reached.
    BitExtra {
        block: u64,
    },
    /// The count of used blocks is wrong.
    Used {
        found: i64,
        wanted: u64,
    },
}
