// A stream by its inode.
ghost use Rattle.std.specs.Prelude.{◌≡◌, ◌≤◌, ◌<◌, ◌^◌, IfOk, length};
ghost use Rattle.bfs_super.specs.Conditions.{IsValid, natural};
ghost use Rattle.bfs_stream.specs.Sizes.{sizes_of, HasSizes};

use bfs_super::Super;
use std::alloc::{AllocError, Global};
use std::marker::Model;

/// The data stream of the inode at a block: three levels of runs of blocks. Nothing of it is kept in memory.
#[derive(Drop)]
pub struct Stream {
    pub(crate) alloc: Global,
    pub(crate) inode: u64,
    pub(crate) block_size: u32,
    pub(crate) blocks: u64,
    pub(crate) group_blocks: u64,
}

impl Model for Stream {
    ghost use Rattle.std.specs.Prelude.{◌<◌};
    ghost use Rattle.bfs_stream.specs.Sizes.{Origin, HasSizes};

    ghost Value = { Origin };

    ghost view = { λ t. record { id = t.inode; sizes = record { block_size = t.block_size; blocks = t.blocks; group_blocks = t.group_blocks } } };

    ghost invariant = { λ t. HasSizes (record { block_size = t.block_size; blocks = t.blocks; group_blocks = t.group_blocks }) × (t.inode < t.blocks) };
}

impl Stream {
    ghost use Rattle.bfs_stream.specs.Sizes.{Origin};

    /// The stream of the inode at this block. Takes no memory.
    pub fn at(alloc: Global, inode: u64, sup: &Super) -> Stream
        requires valid { IsValid sup.now }
        requires inside { inode < natural sup.now.num_blocks }
        ensures { result ≡ record { id = inode; sizes = sizes_of sup.now } }
    {
        Stream {
            alloc,
            inode,
            block_size: sup.block_size,
            blocks: natural_long(sup.num_blocks),
            group_blocks: power(natural_int(sup.ag_shift)),
        }
    }

    /// The block of its inode.
    pub fn inode(&self) -> u64
        ensures { result ≡ self.now.id }
    {
        self.inode
    }

    /// Room for a block, in zeros, where the stream takes its memory.
    pub fn buffer(&self) -> Result<Vec<u8>, AllocError>
        ensures { IfOk result (λ v. length v.items ≡ self.now.sizes.block_size) }
    {
        vec![in self.alloc; 0u8; self.block_size as usize]
    }
}

/// A number that isn't negative, or 0.
pub(crate) fn natural_long(value: i64) -> u64
    ensures { result ≡ natural value }
{
    if value < 0 { 0 } else { value as u64 }
}

/// The same of 32 bits.
fn natural_int(value: i32) -> u32
    ensures { result ≡ natural value }
{
    if value < 0 { 0 } else { value as u32 }
}

/// Two to this power.
fn power(shift: u32) -> u64
    requires { shift ≤ 16 }
    ensures { result ≡ 2 ^ shift }
{
    1 << shift
}
