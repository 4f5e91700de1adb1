// Why a part of a volume could not be gone over.
use bfs_finding::Finding;
use bfs_txn::BlockFault;
use thiserror::Error;

/// A finding; a block of an inode, the owner, that was claimed before that inode was gone over; or a block that could not be had, or there was no
/// memory.
#[derive(Debug, Drop, Error)]
pub enum VisitFault {
    #[error("the volume is not whole")]
    Wrong(Finding),
    #[error("block {block} of inode {owner} has another owner")]
    Taken { block: u64, owner: u64 },
    #[error("{0}")]
    Block(BlockFault),
}
