// Why no run could be had.
use bfs_txn::BlockFault;
use thiserror::Error;

/// There is no free run of so many blocks, and so many blocks are free; or a block of the bitmap could not be had.
#[derive(Clone, Copy, Debug, PartialEq, Eq, Error)]
pub enum RunFault {
    #[error("no {wanted} blocks in a row are free, of {free} free ones")]
    NoRun { wanted: u16, free: u64 },
    #[error("{0}")]
    Block(BlockFault),
}

impl From<BlockFault> for RunFault {
    ghost use Rattle.std.specs.Prelude.{◌≡◌};
    ghost use Rattle.bfs_bitmap.specs.declared.fault.RunFault.TheVariants.{Block};

    ghost from_gives = { λ fault result. result ≡ Block fault };

    fn from(fault: BlockFault) -> RunFault {
        RunFault::Block(fault)
    }
}
