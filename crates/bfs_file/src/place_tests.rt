// Streams of hand-made inodes and arrays, for each size of blocks, in volumes of three allocation groups.
ghost use Rattle.std.specs.Prelude.{◌≡◌, ◌⊎◌, ◌≤◌, ◌<◌, ◌+◌, ◌*◌, IfOk, length};
ghost use Rattle.bfs_super.specs.Conditions.{IsValid};
ghost use Rattle.bfs_super.specs.Geometry.{IsBlockSize};

use bfs_bytes::{Run, put_i32, put_i64, put_run, put_u32};
use bfs_stream::{Stream, StreamFault};
use bfs_super::{Super, SuperFault};
use bfs_txn::MemBlocks;
use std::alloc::{AllocError, Global};
use std::test::Fail;

/// The superblock of a volume with blocks of this size, 4,096 of them behind two whole groups.
pub(crate) fn superblock(size: u32, shift: u32) -> Result<Super, SuperFault>
    requires small { size ≤ 8192 }
    requires low { shift ≤ 13 }
    ensures valid { IfOk result IsValid }
{
    let mut sector = [0u8; 512];
    put_u32(&mut sector, 32, 0x42465331);
    put_u32(&mut sector, 36, 0x42494745);
    put_u32(&mut sector, 40, size);
    put_u32(&mut sector, 44, shift);
    put_u32(&mut sector, 48, 16 * size + 4096);
    put_u32(&mut sector, 64, size);
    put_u32(&mut sector, 68, 0xdd121031);
    put_u32(&mut sector, 72, 1);
    put_u32(&mut sector, 76, shift + 3);
    put_u32(&mut sector, 80, 3);
    put_run(&mut sector, 88, run(0, 4, 512));
    put_u32(&mut sector, 112, 0x15b6830e);
    put_run(&mut sector, 116, run(0, 600, 1));
    put_run(&mut sector, 124, run(0, 601, 1));
    Super::parse(&sector)
}

fn run(group: i32, start: u16, len: u16) -> Run {
    Run { group, start, len }
}

/// Where the parts of a stream stand in memory: its inode is block 1, and then come the array of the indirect level, the
/// array of the double indirect level, and the one array that this lists.
#[derive(Clone, Copy)]
struct Shape {
    size: u32,
    whole: u16,
}

/// Writes so many runs of one block.
fn fill_table(bytes: &mut [u8], at: usize, runs: usize)
    requires inside { at + 8 * runs ≤ length bytes.old }
    requires few { runs ≤ 1024 }
{
    for k in 0..runs {
        put_run(bytes, at + 8 * k, run(0, 2000 + 2 * k as u16, 1));
    }
}

/// Writes an inode with 11 direct runs of two blocks and one in the second group, an indirect level of so many blocks,
/// and a double indirect level of two runs.
fn fill_inode(bytes: &mut [u8], shape: Shape, runs: u32)
    requires long { 216 ≤ length bytes.old }
    requires small { shape.size ≤ 8192 }
    requires whole { shape.whole ≤ 4 }
    requires few { runs ≤ 1024 }
{
    for i in 0..11usize {
        put_run(bytes, 72 + 8 * i, run(0, 1000 + 10 * i as u16, 2));
    }
    put_run(bytes, 160, run(1, 5, 2));
    let size = i64::from(shape.size);
    let direct = size * 24;
    let indirect = size * i64::from(24 + runs);
    let double = size * i64::from(24 + runs + 2 * u32::from(shape.whole));
    put_i64(bytes, 168, direct);
    put_run(bytes, 176, run(0, 2, shape.whole));
    put_i64(bytes, 184, indirect);
    put_run(bytes, 192, run(0, 2 + shape.whole, shape.whole));
    put_i64(bytes, 200, double);
    put_i64(bytes, 208, double);
}

fn memory(alloc: Global, shape: Shape) -> Result<MemBlocks, AllocError>
    requires some { 1024 ≤ shape.size }
    requires small { shape.size ≤ 8192 }
    requires whole { shape.whole ≤ 4 }
    ensures { IfOk result (λ m. m.block_size ≡ shape.size) }
{
    let block = shape.size as usize;
    let array = block.max(4096);
    let mut bytes = vec![in alloc; 0u8; block * 14]?;
    fill_inode(&mut bytes[block..], shape, (array / 8) as u32);
    fill_table(&mut bytes, 2 * block, array / 8);
    let slice = bytes.as_mut_slice();
    put_run(
        slice,
        2 * block + array,
        run(0, 2 + 2 * shape.whole, shape.whole),
    );
    put_run(slice, 2 * block + 2 * array, run(0, 3000, shape.whole));
    put_run(slice, 2 * block + 2 * array + 8, run(0, 3010, shape.whole));
    Ok(MemBlocks::new(bytes, shape.size))
}

#[test]
fn a_place_is_looked_up_in_its_level_for_each_size_of_blocks(rt: HostRuntime) -> Result<(), Fail> {
    let alloc = rt.alloc();
    let sizes: [(u32, u32, u16, u64); 4] = [
        (1024, 10, 4, 512),
        (2048, 11, 2, 512),
        (4096, 12, 1, 512),
        (8192, 13, 1, 1024),
    ];
    for (size, shift, whole, runs) in sizes {
        let sup = superblock(size, shift)?;
        assert_eq!(rt; sup.block_size, size);
        let shape = Shape { size, whole };
        let mut under = memory(alloc, shape)?;
        let mut stream = Stream::at(alloc, 1, &sup);
        let group = 8 * u64::from(size);
        let last = 24 + runs + 2 * u64::from(whole);
        let found: [(u64, u64); 9] = [
            (0, 1000),
            (1, 1001),
            (21, 1101),
            (22, group + 5),
            (23, group + 6),
            (24, 2000),
            (23 + runs, 1998 + 2 * runs),
            (24 + runs, 3000),
            (last - 1, 3009 + u64::from(whole)),
        ];
        for (place, block) in found {
            assert_eq!(rt; stream.block(&mut under, place), Ok(block));
        }
        assert_eq!(rt;
            stream.block(&mut under, last),
            Err(StreamFault::PastEnd { blocks: last })
        );
    }
    Ok(())
}
