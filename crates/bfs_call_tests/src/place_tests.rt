// The blocks of pieces of a file of three blocks in two runs, on a volume with blocks of 1,024 bytes.
ghost use Rattle.std.specs.Prelude.{◌≡◌, ◌≤◌, ◌<◌, ◌*◌, IfOk};
ghost use Rattle.bfs_super.specs.Conditions.{IsValid, natural};

use bfs_bytes::{put_i64, put_run};
use bfs_hold::find_places;
use bfs_super::Super;
use bfs_txn::{BlockFault, MemBlocks};
use bfs_volume_fixtures::{run, superblock};
use std::alloc::{AllocError, Global};
use std::test::Fail;

/// The inode of the file.
const FILE: u64 = 6;

/// Blocks 0 to 7: the file's runs are two blocks from this one on, and the one at 2,000.
fn memory(alloc: Global, size: u32, first: u16) -> Result<MemBlocks, AllocError>
    requires some { 1024 ≤ size }
    requires small { size ≤ 8192 }
    ensures { IfOk result (λ m. m.block_size ≡ size) }
{
    let block = size as usize;
    let mut bytes = vec![in alloc; 0u8; block * 8]?;
    put_run(&mut bytes, 6 * block + 72, run(first, 2));
    put_run(&mut bytes, 6 * block + 80, run(2000, 1));
    put_i64(&mut bytes, 6 * block + 168, 3072);
    put_i64(&mut bytes, 6 * block + 208, 3000);
    Ok(MemBlocks::new(bytes, size))
}

/// A number in a list, or 0 behind its end.
fn nth(numbers: &[u64], k: usize) -> u64 {
    if k < numbers.len() {
        return numbers[k];
    }
    0
}

/// How many blocks a piece has, and the first three of them; what the list held before goes.
fn found(
    alloc: Global,
    sup: &Super,
    under: &mut MemBlocks,
    at: u64,
    count: u64,
) -> Result<[u64; 4], BlockFault>
    requires valid { IsValid sup.now }
    requires inside { 6 < natural sup.now.num_blocks }
    requires size { under.old.block_size ≡ sup.now.block_size }
    requires short { count ≤ 65536 }
    ensures size { under.new.block_size ≡ under.old.block_size }
{
    let mut places = match vec![in alloc; 7u64; 2] {
        Ok(places) => places,
        Err(_) => return Err(BlockFault::NoMemory),
    };
    match find_places(alloc, sup, under, FILE, at, count, &mut places) {
        Ok(()) => {}
        Err(fault) => return Err(fault),
    }
    let all = places.len() as u64;
    Ok([all, nth(&places, 0), nth(&places, 1), nth(&places, 2)])
}

/// Pieces inside of a block, across blocks and across runs.
fn are_found(alloc: Global, sup: &Super, under: &mut MemBlocks) -> bool
    requires valid { IsValid sup.now }
    requires inside { 6 < natural sup.now.num_blocks }
    requires size { under.old.block_size ≡ sup.now.block_size }
    ensures size { under.new.block_size ≡ under.old.block_size }
{
    let mut good = true;
    for (at, count, blocks) in [
        (0, 0, [0, 0, 0, 0]),
        (0, 1, [1, 1000, 0, 0]),
        (1023, 2, [2, 1000, 1001, 0]),
        (1024, 1024, [1, 1001, 0, 0]),
        (1000, 1100, [3, 1000, 1001, 2000]),
        (2048, 952, [1, 2000, 0, 0]),
    ] {
        if found(alloc, sup, under, at, count) != Ok(blocks) {
            good = false;
        }
    }
    good
}

/// That the file is damaged.
fn damaged() -> Result<[u64; 4], BlockFault> {
    Err(BlockFault::Damaged { block: FILE })
}

#[test]
fn a_piece_has_the_blocks_of_its_bytes_in_order(rt: HostRuntime) -> Result<(), Fail> {
    let alloc = rt.alloc();
    let sup = superblock(1024, 10, 4096, 1, 2)?;
    assert_eq!(rt; sup.block_size, 1024);
    assert_eq!(rt; sup.num_blocks, 4096);
    let mut under = memory(alloc, 1024, 1000)?;
    let good = are_found(alloc, &sup, &mut under);
    let past = found(alloc, &sup, &mut under, 3000, 100) == damaged();
    assert_eq!(rt; [good, past], [true, true]);
    Ok(())
}

#[test]
fn a_block_of_the_log_is_damage_of_the_file(rt: HostRuntime) -> Result<(), Fail> {
    let alloc = rt.alloc();
    let sup = superblock(1024, 10, 4096, 1, 2)?;
    assert_eq!(rt; sup.block_size, 1024);
    assert_eq!(rt; sup.num_blocks, 4096);
    let mut under = memory(alloc, 1024, 513)?;
    let last = found(alloc, &sup, &mut under, 1023, 1) == damaged();
    let behind = found(alloc, &sup, &mut under, 1024, 1) == Ok([1, 514, 0, 0]);
    assert_eq!(rt; [last, behind], [true, true]);
    Ok(())
}
