// Why a block could not be had.
use thiserror::Error;

/// A read of the disk failed, and its count of faults rose from `before` to `after`; the disk had stopped, with so
/// many durable entries and the count of faults then; the bytes of a block are not what stands there; or there was no
/// memory.
#[derive(Clone, Copy, Debug, PartialEq, Eq, Error)]
pub enum BlockFault {
    #[error("a disk call failed")]
    Disk { before: u64, after: u64 },
    #[error("the device has stopped with {durable} durable entries")]
    Stopped { durable: u64, faults: u64 },
    #[error("block {block} is damaged")]
    Damaged { block: u64 },
    #[error("no memory was found")]
    NoMemory,
}
