// Why what a stream is can't be said.
use bfs_txn::BlockFault;
use thiserror::Error;

/// A value that breaks the format of a stream, and the one that is wanted there.
#[derive(Clone, Copy, Debug, PartialEq, Eq, Error)]
#[error("a stream has {found} where {wanted} is wanted")]
pub struct Wrong {
    pub found: i64,
    pub wanted: i64,
}

/// The stream breaks its format; or a block could not be had, or there was no memory.
#[derive(Clone, Copy, Debug, PartialEq, Eq, Error)]
pub enum ReadFault {
    #[error("{0}")]
    Wrong(Wrong),
    #[error("{0}")]
    Block(BlockFault),
}
