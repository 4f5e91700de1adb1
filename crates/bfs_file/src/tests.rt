// A file of three blocks in two runs, on a volume with blocks of 1,024 bytes.
ghost use Rattle.std.specs.Prelude.{◌≡◌, ◌≤◌, ◌*◌, IfOk, length};
ghost use Rattle.bfs_super.specs.Conditions.{IsValid};

use crate::File;
use bfs_bytes::{Run, put_i64, put_run, put_u32};
use bfs_stream::StreamFault;
use bfs_super::{Super, SuperFault};
use bfs_txn::MemBlocks;
use std::alloc::{AllocError, Global};
use std::test::Fail;

fn run(start: u16, len: u16) -> Run {
    Run {
        group: 0,
        start,
        len,
    }
}

/// The superblock of a volume of 4,096 blocks.
fn superblock() -> Result<Super, SuperFault>
    ensures valid { IfOk result IsValid }
{
    let mut sector = [0u8; 512];
    put_u32(&mut sector, 32, 0x42465331);
    put_u32(&mut sector, 36, 0x42494745);
    put_u32(&mut sector, 40, 1024);
    put_u32(&mut sector, 44, 10);
    put_u32(&mut sector, 48, 4096);
    put_u32(&mut sector, 64, 1024);
    put_u32(&mut sector, 68, 0xdd121031);
    put_u32(&mut sector, 72, 1);
    put_u32(&mut sector, 76, 13);
    put_u32(&mut sector, 80, 1);
    put_run(&mut sector, 88, run(2, 512));
    put_u32(&mut sector, 112, 0x15b6830e);
    put_run(&mut sector, 116, run(600, 1));
    put_run(&mut sector, 124, run(601, 1));
    Super::parse(&sector)
}

/// Blocks 0 to 7: the file's inode is block 6, and its runs are the two blocks from 1,000 on and the one at 2,000.
fn memory(alloc: Global, size: u32) -> Result<MemBlocks, AllocError>
    requires some { 1024 ≤ size }
    requires small { size ≤ 8192 }
    ensures { IfOk result (λ m. m.block_size ≡ size) }
{
    let block = size as usize;
    let mut bytes = vec![in alloc; 0u8; block * 8]?;
    put_run(&mut bytes, 6 * block + 72, run(1000, 2));
    put_run(&mut bytes, 6 * block + 80, run(2000, 1));
    put_i64(&mut bytes, 6 * block + 168, 3072);
    put_i64(&mut bytes, 6 * block + 208, 3000);
    Ok(MemBlocks::new(bytes, size))
}

/// The blocks of bytes at the edges of the file's blocks.
fn are_at_their_blocks(file: &mut File, under: &mut MemBlocks) -> bool
    requires { under.old.block_size ≡ file.old.sizes.block_size }
    ensures same { file.new ≡ file.old }
    ensures size { under.new.block_size ≡ under.old.block_size }
{
    let mut good = true;
    for (at, block) in [
        (0, 1000),
        (1023, 1000),
        (1024, 1001),
        (2047, 1001),
        (2048, 2000),
        (3071, 2000),
    ] {
        if file.place(under, at) != Ok(block) {
            good = false;
        }
    }
    good
}

#[test]
fn a_byte_is_in_the_block_of_its_place(rt: HostRuntime) -> Result<(), Fail> {
    let alloc = rt.alloc();
    let sup = superblock()?;
    assert_eq!(rt; sup.block_size, 1024);
    assert_eq!(rt; sup.num_blocks, 4096);
    let mut under = memory(alloc, 1024)?;
    let mut file = File::at(alloc, 6, &sup);
    let found = are_at_their_blocks(&mut file, &mut under);
    let past = file.place(&mut under, 3072);
    assert_eq!(rt;
        (found, past),
        (true, Err(StreamFault::PastEnd { blocks: 3 }))
    );
    Ok(())
}
