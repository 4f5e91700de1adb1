// Why a stream has no block at a place, or could not grow.
use bfs_txn::BlockFault;
use thiserror::Error;

/// The stream ends before the place, after so many blocks; or a block could not be had.
#[derive(Clone, Copy, Debug, PartialEq, Eq, Error)]
pub enum StreamFault {
    #[error("the stream has {blocks} blocks")]
    PastEnd { blocks: u64 },
    #[error("{0}")]
    Block(BlockFault),
}

/// There is no free run of so many blocks, and so many blocks are free; the double indirect level can take so many blocks
/// more, which is less than was asked for; or a block could not be had.
#[derive(Clone, Copy, Debug, PartialEq, Eq, Error)]
pub enum GrowFault {
    #[error("no {wanted} blocks in a row are free, of {free} free ones")]
    NoRun { wanted: u16, free: u64 },
    #[error("the stream takes {room} blocks more")]
    Full { room: u64 },
    #[error("{0}")]
    Block(BlockFault),
}
