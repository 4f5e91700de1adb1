// Volumes of blocks of 1,024 bytes in memory, made by hand.
ghost use Rattle.std.specs.Prelude.{◌≡◌, ◌≤◌, length, IfOk};

use bfs_txn::MemBlocks;
use bfs_volume_fixtures::{Silent, put_item};
use std::alloc::{AllocError, Global};

/// The bytes of a block.
pub(crate) const BLOCK: usize = 1024;

/// Type codes: four letters as a number, the first the highest.
const CSTR: u32 = 0x43535452;

pub(crate) const RAWT: u32 = 0x52415754;

/// Writes the first eight blocks of a volume, which are in use: the inode at block 4 has its own name and three attributes in small data, the
/// first and the last with these names.
fn put_volume(bytes: &mut [u8], first: u8, last: u8)
    requires { 8192 ≤ length bytes.old }
    ensures { length bytes.new ≡ length bytes.old }
{
    let at = 4 * BLOCK + 232;
    bytes[BLOCK] = 255;
    put_item(bytes, at, CSTR, &[0x13], b"own");
    put_item(bytes, at + 16, RAWT, &[first], &[1; 100]);
    put_item(bytes, at + 129, RAWT, b"b", &[2; 250]);
    put_item(bytes, at + 392, RAWT, &[last], &[3; 250]);
}

/// That volume, by the size of its blocks, which is 1,024.
pub(crate) fn volume(alloc: Global, size: u32, first: u8, last: u8) -> Result<Silent, AllocError>
    requires some { 1024 ≤ size }
    requires small { size ≤ 2048 }
    ensures { IfOk result (λ s. s.blocks.block_size ≡ size) }
{
    let block = size as usize;
    let mut bytes = vec![in alloc; 0u8; block * 8]?;
    put_volume(&mut bytes, first, last);
    Ok(Silent {
        blocks: MemBlocks::new(bytes, size),
    })
}
