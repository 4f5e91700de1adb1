// The bitmap of a volume of 4,096 blocks of 1,024 bytes, of which the first 529 are used when it is new.
ghost use Rattle.std.specs.Prelude.{◌≡◌, ◌≤◌, ◌<◌, ◌+◌, ◌*◌, IfOk, length};
ghost use Rattle.bfs_super.specs.Conditions.{IsValid};

use bfs_bitmap::{Bitmap, RunFault};
use bfs_bytes::Run;
use bfs_super::{Super, SuperFault};
use bfs_txn::{Blocks, Changed, Edits, MemBlocks, Overlay};
use std::alloc::{AllocError, Global};
use std::test::Fail;

/// The superblock of the volume, by its fields' bytes.
fn superblock() -> Result<Super, SuperFault>
    ensures { IfOk result IsValid }
{
    let mut sector = [0u8; 512];
    sector[0..8].copy_from_slice(b"untitled");
    sector[32..44].copy_from_slice(&[0x31, 0x53, 0x46, 0x42, 0x45, 0x47, 0x49, 0x42, 0, 4, 0, 0]);
    sector[44..52].copy_from_slice(&[10, 0, 0, 0, 0, 0x10, 0, 0]);
    sector[56..60].copy_from_slice(&[0x11, 2, 0, 0]);
    sector[64..76].copy_from_slice(&[0, 4, 0, 0, 0x31, 0x10, 0x12, 0xdd, 1, 0, 0, 0]);
    sector[76..88].copy_from_slice(&[13, 0, 0, 0, 1, 0, 0, 0, 0x4e, 0x45, 0x4c, 0x43]);
    sector[88..96].copy_from_slice(&[0, 0, 0, 0, 2, 0, 0, 2]);
    sector[112..124].copy_from_slice(&[0x0e, 0x83, 0xb6, 0x15, 0, 0, 0, 0, 2, 2, 1, 0]);
    sector[124..132].copy_from_slice(&[0, 0, 0, 0, 5, 2, 1, 0]);
    Super::parse(&sector)
}

/// Two blocks, the second of which is a bitmap with so many bytes of used blocks, and one byte more.
fn memory(alloc: Global, blocks: usize, full: usize, last: u8) -> Result<MemBlocks, AllocError>
    requires some { 2 ≤ blocks }
    requires few { blocks < 1000 }
    requires inside { full < 1024 }
    ensures { IfOk result (λ m. m.block_size ≡ 1024) }
{
    let mut bytes = vec![in alloc; 0u8; 1024 * blocks]?;
    for i in 0..full {
        bytes[1024 + i] = 255;
    }
    bytes[1024 + full] = last;
    Ok(MemBlocks::new(bytes, 1024))
}

/// Takes two runs, gives the first back, and takes a third.
fn takes<E: Edits>(bitmap: &mut Bitmap, edits: &mut E) -> Result<[Run; 3], RunFault>
    requires { E.size edits.old ≡ bitmap.old.block_size }
    ensures size { E.size edits.new ≡ E.size edits.old }
    ensures frame { E.frame edits.new ≡ E.frame edits.old }
    ensures block { bitmap.new.block_size ≡ bitmap.old.block_size }
    ensures last { bitmap.new.last ≡ bitmap.old.last }
{
    let first = bitmap.take_run(edits, 1, 4)?;
    let second = bitmap.take_run(edits, 1, 1)?;
    bitmap.give_back(edits, first)?;
    let third = bitmap.take_run(edits, 4, 4)?;
    Ok([first, second, third])
}

/// Takes three runs, one of which is given back; and once more behind the groups: the four runs.
fn takes_again<E: Edits>(bitmap: &mut Bitmap, edits: &mut E) -> Result<[Run; 4], RunFault>
    requires block { E.size edits.old ≡ bitmap.old.block_size }
    requires none { bitmap.old.last ≡ 0 }
    ensures size { E.size edits.new ≡ E.size edits.old }
    ensures frame { E.frame edits.new ≡ E.frame edits.old }
{
    let [first, second, third] = takes(bitmap, edits)?;
    bitmap.keep();
    bitmap.close_group(1);
    bitmap.release(1);
    let again = bitmap.take_run(edits, 4, 4)?;
    bitmap.drop_call();
    Ok([first, second, third, again])
}

#[test]
fn the_lowest_run_is_taken_and_one_given_back_waits_for_its_group(
    rt: HostRuntime,
) -> Result<(), Fail> {
    let alloc = rt.alloc();
    let sup = superblock()?;
    assert_eq!(rt; sup.block_size, 1024);
    let mut under = memory(alloc, 2, 66, 1)?;
    let mut open = Changed::new(alloc);
    let mut bitmap = Bitmap::of(alloc, &sup);
    let mut edits = Overlay::begin(&mut open, &mut under);
    let taken = takes_again(&mut bitmap, &mut edits);
    edits.drop_call();
    let used = bitmap.used();
    let run = |start, len| Run {
        group: 0,
        start,
        len,
    };
    assert_eq!(rt;
        taken?,
        [run(529, 4), run(533, 1), run(534, 4), run(529, 4)]
    );
    assert_eq!(rt; used, 534);
    Ok(())
}

#[test]
fn where_no_run_is_free_the_free_blocks_are_counted(rt: HostRuntime) -> Result<(), Fail> {
    let alloc = rt.alloc();
    let sup = superblock()?;
    assert_eq!(rt; sup.block_size, 1024);
    let mut open = Changed::new(alloc);
    let mut bitmap = Bitmap::of(alloc, &sup);
    let mut under = memory(alloc, 2, 512, 0)?;
    let mut edits = Overlay::begin(&mut open, &mut under);
    let full = bitmap.take_run(&mut edits, 1, 1);
    edits.drop_call();
    let mut under = memory(alloc, 2, 511, 0b1010_0101)?;
    let mut edits = Overlay::begin(&mut open, &mut under);
    let short = bitmap.take_run(&mut edits, 3, 8);
    edits.drop_call();
    let none = matches!(full, Err(RunFault::NoRun { wanted: 1, free: 0 }));
    let four = matches!(short, Err(RunFault::NoRun { wanted: 3, free: 4 }));
    assert!(rt; none);
    assert!(rt; four);
    Ok(())
}

#[test]
fn free_runs_are_counted_that_share_no_block(rt: HostRuntime) -> Result<(), Fail> {
    let alloc = rt.alloc();
    let sup = superblock()?;
    assert_eq!(rt; sup.block_size, 1024);
    let bitmap = Bitmap::of(alloc, &sup);
    // Of the last eight blocks the third, fifth, sixth and eighth stay free.
    let mut under = memory(alloc, 2, 511, 0b0100_1011)?;
    let single = matches!(bitmap.free_runs(&mut under, 1, 9), Ok(4));
    let double = matches!(bitmap.free_runs(&mut under, 2, 9), Ok(1));
    let triple = matches!(bitmap.free_runs(&mut under, 3, 9), Ok(0));
    let most = matches!(bitmap.free_runs(&mut under, 1, 3), Ok(3));
    assert_eq!(rt; [single, double, triple, most], [true, true, true, true]);
    Ok(())
}
