// Windows over disks in memory that count their calls: one stops after so many, one fails at calls with given numbers. The disk
// has 160 sectors, two windows and a half.
ghost use Rattle.std.specs.Prelude.{◌≡◌, ◌≤◌, ◌<◌, ◌%◌, ◌^◌, length, IfOk};
ghost use Rattle.bfs_disk.specs.Disk.{HasSectors};
ghost use Rattle.bfs_check.specs.Slots.{AreKept};

use bfs_check::Windows;
use bfs_disk::{Disk, MemDisk, Stopping};
use bfs_txn::BlockFault;
use std::alloc::{AllocError, Global};
use std::test::Fail;

fn zeros(alloc: Global, count: usize) -> Result<Vec<u8>, AllocError>
    requires { count < 2 ^ 62 }
    ensures { IfOk result (λ v. length v.items ≡ count) }
{
    vec![in alloc; 0; count]
}

// Zeros, but that each pair of sectors ends with its number.
fn numbered(alloc: Global, size: usize) -> Result<Vec<u8>, AllocError>
    requires { size ≤ 131072 }
    ensures { IfOk result (λ v. length v.items ≡ size) }
{
    let mut bytes = zeros(alloc, size)?;
    for at in 0..size {
        if at % 1024 == 1023 {
            bytes[at] = (at / 1024) as u8;
        }
    }
    Ok(bytes)
}

// Reads two sectors, and answers their last byte.
fn last_byte<D: Disk>(windows: &mut Windows, disk: &mut D, first: u64) -> Result<u8, BlockFault>
    requires low { first < 159 }
    requires within { first % 64 ≤ 62 }
    requires sectors { HasSectors (D.size disk.old) 160 }
    requires kept { AreKept (D.state disk.old) windows.old.tags windows.old.bytes.items }
    ensures kept { AreKept (D.state disk.new) windows.new.tags windows.new.bytes.items }
    ensures size { D.size disk.new ≡ D.size disk.old }
{
    let mut into = [9; 1024];
    match windows.read(disk, 160, first, &mut into) {
        Ok(()) => Ok(into[1023]),
        Err(fault) => Err(fault),
    }
}

// How many of the 80 pairs of sectors end with their number, as they are read in order.
fn right<D: Disk>(windows: &mut Windows, disk: &mut D) -> u64
    requires sectors { HasSectors (D.size disk.old) 160 }
    requires kept { AreKept (D.state disk.old) windows.old.tags windows.old.bytes.items }
{
    let mut right = 0u64;
    for pair in 0..80u64 {
        if last_byte(windows, disk, 2 * pair) == Ok(pair as u8) {
            right = right.wrapping_add(1);
        }
    }
    right
}

#[test]
fn a_volume_is_read_in_a_call_a_window(rt: HostRuntime) -> Result<(), Fail> {
    let alloc = rt.alloc();
    // (two windows, and the last 16 pairs of sectors by themselves)
    let mut disk = Stopping::after(MemDisk::new(alloc, numbered(alloc, 81920)?), 18);
    let mut windows = Windows::new(alloc);
    assert_eq!(rt; right(&mut windows, &mut disk), 80);
    Ok(())
}

#[test]
fn a_window_is_read_in_one_disk_call(rt: HostRuntime) -> Result<(), Fail> {
    let alloc = rt.alloc();
    let mut disk = Stopping::after(MemDisk::new(alloc, numbered(alloc, 81920)?), 3);
    let mut windows = Windows::new(alloc);
    assert_eq!(rt; last_byte(&mut windows, &mut disk, 62), Ok(31));
    assert_eq!(rt; last_byte(&mut windows, &mut disk, 64), Ok(32));
    assert_eq!(rt; last_byte(&mut windows, &mut disk, 2), Ok(1));
    assert_eq!(rt; last_byte(&mut windows, &mut disk, 128), Ok(64));
    let stopped = BlockFault::Disk {
        before: 0,
        after: 1,
    };
    assert_eq!(rt; last_byte(&mut windows, &mut disk, 130), Err(stopped));
    Ok(())
}

#[test]
fn a_window_is_read_once_more_of_it_is_asked_for(rt: HostRuntime) -> Result<(), Fail> {
    let alloc = rt.alloc();
    // (two sectors by themselves, and then their window)
    let mut disk = Stopping::after(MemDisk::new(alloc, numbered(alloc, 81920)?), 2);
    let mut windows = Windows::new(alloc);
    assert_eq!(rt; last_byte(&mut windows, &mut disk, 64), Ok(32));
    assert_eq!(rt; last_byte(&mut windows, &mut disk, 70), Ok(35));
    assert_eq!(rt; last_byte(&mut windows, &mut disk, 100), Ok(50));
    let stopped = BlockFault::Disk {
        before: 0,
        after: 1,
    };
    assert_eq!(rt; last_byte(&mut windows, &mut disk, 128), Err(stopped));
    Ok(())
}

#[test]
fn a_window_that_fails_is_read_block_by_block(rt: HostRuntime) -> Result<(), Fail> {
    let alloc = rt.alloc();
    let plan = Vec::from_slice(alloc, &[1, 3, 4])?;
    let mut disk = MemDisk::failing(alloc, numbered(alloc, 81920)?, plan);
    let mut windows = Windows::new(alloc);
    assert_eq!(rt; last_byte(&mut windows, &mut disk, 62), Ok(31));
    let both = BlockFault::Disk {
        before: 2,
        after: 3,
    };
    assert_eq!(rt; last_byte(&mut windows, &mut disk, 64), Err(both));
    assert_eq!(rt; last_byte(&mut windows, &mut disk, 64), Ok(32));
    Ok(())
}
