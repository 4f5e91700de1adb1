// Hand-made streams, whole and broken, in a volume of 20,480 blocks of 1,024 bytes in three groups of 8,192.
ghost use Rattle.std.specs.Prelude.{◌≡◌, ◌<◌, ◌≤◌, ◌+◌, ◌*◌, IfOk, length};
ghost use Rattle.bfs_super.specs.Conditions.{IsValid, natural};

use bfs_bytes::{Run, put_i64, put_run};
use bfs_stream_check::{ReadFault, read_stream};
use bfs_super::Super;
use bfs_txn::MemBlocks;
use bfs_volume_fixtures::small_superblock;
use std::alloc::{AllocError, Global};
use std::test::Fail;

fn run(group: i32, start: u16, len: u16) -> Run {
    Run { group, start, len }
}

/// Writes so many runs of one block.
fn fill_table(bytes: &mut [u8], runs: usize)
    requires inside { 2048 + 8 * runs ≤ length bytes.old }
    requires few { runs ≤ 512 }
{
    for k in 0..runs {
        put_run(bytes, 2048 + 8 * k, run(0, 2000 + 2 * k as u16, 1));
    }
}

/// Fills the direct runs of the inode in block 1: 24 blocks.
fn fill_direct(bytes: &mut [u8])
    requires { 2048 ≤ length bytes.old }
{
    for i in 0..12usize {
        put_run(bytes, 1096 + 8 * i, run(1, 1000 + 10 * i as u16, 2));
    }
    put_i64(bytes, 1024 + 168, 24 * 1024);
}

/// Fourteen blocks: the inode in block 1 has 24 direct blocks, an indirect level of 512 blocks with its array from block 2 on, and a
/// double indirect level of 8 blocks with its array from block 6 on, which lists the array from block 10 on. Its size is that of all.
fn stream(alloc: Global, size: usize) -> Result<Vec<u8>, AllocError>
    requires { size ≡ 14336 }
    ensures { IfOk result (λ v. length v.items ≡ 14336) }
{
    let mut bytes = vec![in alloc; 0u8; size]?;
    let slice = bytes.as_mut_slice();
    fill_direct(slice);
    fill_table(slice, 512);
    put_run(slice, 1024 + 176, run(0, 2, 4));
    put_i64(slice, 1024 + 184, 536 * 1024);
    put_run(slice, 1024 + 192, run(0, 6, 4));
    put_i64(slice, 1024 + 200, 544 * 1024);
    put_i64(slice, 1024 + 208, 544 * 1024);
    put_run(slice, 6 * 1024, run(0, 10, 4));
    put_run(slice, 10 * 1024, run(0, 3000, 4));
    put_run(slice, 10 * 1024 + 8, run(2, 0, 4));
    Ok(bytes)
}

/// What is wrong with the stream in these blocks, where anything is: the value found and the one wanted.
fn fault_of(alloc: Global, sup: &Super, bytes: Vec<u8>) -> Option<(i64, i64)>
    requires valid { IsValid sup.now }
    requires size { sup.now.block_size ≡ 1024 }
    requires blocks { 1 < natural sup.now.num_blocks }
    requires length { length bytes.items ≡ 14336 }
{
    let mut under = MemBlocks::new(bytes, 1024);
    match read_stream(alloc, &mut under, 1, sup) {
        Err(ReadFault::Wrong(wrong)) => Some((wrong.found, wrong.wanted)),
        _ => None,
    }
}

/// The same of the stream with another run at this byte.
fn with_run(
    alloc: Global,
    sup: &Super,
    at: usize,
    other: Run,
) -> Result<Option<(i64, i64)>, AllocError>
    requires valid { IsValid sup.now }
    requires size { sup.now.block_size ≡ 1024 }
    requires blocks { 1 < natural sup.now.num_blocks }
{
    if at > 14328 {
        return Ok(None);
    }
    let mut bytes = stream(alloc, 14336)?;
    put_run(bytes.as_mut_slice(), at, other);
    Ok(fault_of(alloc, sup, bytes))
}

/// The same of the stream with another number at this byte.
fn with_number(
    alloc: Global,
    sup: &Super,
    at: usize,
    other: i64,
) -> Result<Option<(i64, i64)>, AllocError>
    requires valid { IsValid sup.now }
    requires size { sup.now.block_size ≡ 1024 }
    requires blocks { 1 < natural sup.now.num_blocks }
    requires inside { at + 8 ≤ 14336 }
{
    let mut bytes = stream(alloc, 14336)?;
    put_i64(bytes.as_mut_slice(), at, other);
    Ok(fault_of(alloc, sup, bytes))
}

/// The runs of the arrays and of the blocks of the stream, as (group, start, length), at the places where the levels begin and end.
fn runs_of(alloc: Global, sup: &Super, bytes: Vec<u8>) -> Option<(usize, usize, Run, Run, Run, Run)>
    requires valid { IsValid sup.now }
    requires size { sup.now.block_size ≡ 1024 }
    requires blocks { 1 < natural sup.now.num_blocks }
    requires length { length bytes.items ≡ 14336 }
{
    let mut under = MemBlocks::new(bytes, 1024);
    match read_stream(alloc, &mut under, 1, sup) {
        Ok(all) => {
            let arrays = all.arrays.len();
            let runs = all.runs.len();
            if arrays < 3 || runs < 526 {
                return None;
            }
            Some((
                arrays,
                runs,
                all.arrays[2],
                all.runs[11],
                all.runs[12],
                all.runs[525],
            ))
        }
        Err(_) => None,
    }
}

#[test]
fn a_whole_stream_is_read_with_its_arrays(rt: HostRuntime) -> Result<(), Fail> {
    let alloc = rt.alloc();
    let sup = small_superblock(20480, 3, [run(0, 4, 512), run(0, 600, 1), run(0, 601, 1)])?;
    assert_eq!(rt; sup.block_size, 1024);
    assert_eq!(rt; sup.num_blocks, 20480);
    let bytes = stream(alloc, 14336)?;
    let found = runs_of(alloc, &sup, bytes);
    let wanted = (
        3,
        526,
        run(0, 10, 4),
        run(1, 1110, 2),
        run(0, 2000, 1),
        run(2, 0, 4),
    );
    assert_eq!(rt; found, Some(wanted));
    Ok(())
}

#[test]
fn each_run_that_breaks_the_format_is_found(rt: HostRuntime) -> Result<(), Fail> {
    let alloc = rt.alloc();
    let sup = small_superblock(20480, 3, [run(0, 4, 512), run(0, 600, 1), run(0, 601, 1)])?;
    assert_eq!(rt; sup.block_size, 1024);
    assert_eq!(rt; sup.num_blocks, 20480);
    let rows: [(usize, Run, i64, i64); 10] = [
        // a direct run: its group, its end, and its last block
        (1096, run(-1, 1000, 2), -1, 0),
        (1104, run(0, 8191, 2), 8193, 8192),
        (1112, run(2, 4095, 2), 20481, 20480),
        // the last direct run has no blocks, and the indirect level is used
        (1184, run(0, 0, 0), 4, 0),
        // a run of the indirect level leaves its group
        (2088, run(0, 8190, 3), 8193, 8192),
        // the indirect level has no run, or not all of them, and the double indirect one is used
        (2048, run(0, 0, 0), 4, 0),
        (6136, run(0, 0, 0), 4, 0),
        // the array of the double indirect level, one that it lists, and a run of it are of another length
        (1216, run(0, 6, 3), 3, 4),
        (6144, run(0, 10, 2), 2, 4),
        (10240, run(0, 3000, 5), 5, 4),
    ];
    for (at, other, found, wanted) in rows {
        assert_eq!(rt; with_run(alloc, &sup, at, other)?, Some((found, wanted)));
    }
    Ok(())
}

#[test]
fn each_range_and_the_size_are_held_against_the_runs(rt: HostRuntime) -> Result<(), Fail> {
    let alloc = rt.alloc();
    let sup = small_superblock(20480, 3, [run(0, 4, 512), run(0, 600, 1), run(0, 601, 1)])?;
    assert_eq!(rt; sup.block_size, 1024);
    assert_eq!(rt; sup.num_blocks, 20480);
    let rows: [(usize, i64, i64); 5] = [
        (1192, 24575, 24576),
        (1208, 0, 548864),
        (1224, 557057, 557056),
        (1232, -1, 557056),
        (1232, 557057, 557056),
    ];
    for (at, found, wanted) in rows {
        assert_eq!(rt; with_number(alloc, &sup, at, found)?, Some((found, wanted)));
    }
    // a smaller size leaves blocks behind it, which belong to the stream
    assert_eq!(rt; with_number(alloc, &sup, 1232, 0)?, None);
    Ok(())
}
