// Why bytes are no header and no page of a tree, and why a call on a tree is refused.
use thiserror::Error;

/// The first condition that a page breaks. `Magic`, `Size` and `Kind` are of a header, `Bounds` and `Ends` of
/// every other page.
#[derive(Clone, Copy, Debug, PartialEq, Eq, Error)]
pub enum PageFault {
    /// The first field isn't 0x69f6c2e8.
    #[error("the tree's magic number is {found}")]
    Magic { found: u32 },
    /// The size of a page isn't 1,024.
    #[error("the tree has pages of {found} bytes")]
    Size { found: u32 },
    /// The kind of the keys is neither text nor one of the four kinds of whole numbers.
    #[error("the tree has keys of kind {found}")]
    Kind { found: u32 },
    /// So many keys with so many bytes don't fit into the page.
    #[error("{count} keys of {bytes} bytes do not fit into a page")]
    Bounds { count: u16, bytes: u16 },
    /// The key at this place ends before it starts or has a length that its kind hasn't. Where `index` is the
    /// number of keys, each of them is right, but the last one doesn't end where the keys' bytes do.
    #[error("key {index} of a page has no length of its kind")]
    Ends { index: usize },
}

/// What a page of a tree's stream is.
#[derive(Clone, Copy, Debug, PartialEq, Eq)]
pub enum PageKind {
    Header,
    Interior,
    Leaf,
    Fragment,
    Duplicates,
}

/// Why a call on a tree is refused. `F` is the fault of the calls on the tree's pages.
#[derive(Debug, Drop, Error)]
pub enum TreeFault<F> {
    /// The key is there already.
    #[error("the key is there already")]
    Exists,
    /// The key isn't there.
    #[error("the key is not there")]
    Absent,
    /// The page at this byte of the stream isn't of this kind.
    #[error("the page at byte {page} of a tree is damaged")]
    Damaged { page: u64, kind: PageKind },
    #[error("the pages of the tree could not be had")]
    Pages(F),
    #[error("no memory was found")]
    NoMemory,
}
