// What is wrong with a tree.
use bfs_finding::PagePart;
use thiserror::Error;

/// A page of a tree isn't one of its kind; a link, the level of a page or the free list is wrong; or a row or a key of a page is out
/// of order. A page goes by its first byte in the stream.
#[derive(Clone, Copy, Debug, PartialEq, Eq, Error)]
pub enum TreeWrong {
    #[error("the page at byte {page} of a tree is damaged")]
    Page { page: u64, part: PagePart },
    #[error("the page at byte {page} of a tree links to {found} where {wanted} is wanted")]
    Link { page: u64, found: i64, wanted: i64 },
    #[error("row {index} of the page at byte {page} of a tree is out of order")]
    Order { page: u64, index: u64 },
}

/// Why a tree couldn't be walked over: something is wrong with it; a call of its pages failed; or there was no memory. `F` is the
/// fault of the calls on the pages.
#[derive(Debug, Drop, Error)]
pub enum WalkFault<F> {
    #[error("{0}")]
    Wrong(TreeWrong),
    #[error("the pages of the tree could not be had")]
    Pages(F),
    #[error("no memory was found")]
    NoMemory,
}
