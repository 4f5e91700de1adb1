// How a bitmap differs from what is claimed.
use bfs_txn::BlockFault;
use thiserror::Error;

/// A block is claimed and its bit isn't set; its bit is set and the block isn't claimed; or a block of the bitmap could not be had, or
/// there was no memory.
#[derive(Clone, Copy, Debug, PartialEq, Eq, Error)]
pub enum BitFault {
    #[error("block {block} is in use and not marked")]
    Unset { block: u64 },
    #[error("block {block} is marked and not in use")]
    Extra { block: u64 },
    #[error("{0}")]
    Block(BlockFault),
}
