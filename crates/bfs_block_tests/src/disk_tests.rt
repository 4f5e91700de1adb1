// The disks in memory: which calls fail, and what a crash leaves.
use bfs_disk::{Disk, MemDisk, Stopping};
use std::alloc::AllocError;
use std::test::Fail;

#[test]
fn a_disk_fails_exactly_its_planned_calls(rt: HostRuntime) -> Result<(), Fail> {
    let alloc = rt.alloc();
    let plan = vec![in alloc; 2u64, 3, 6]?;
    let mut disk = MemDisk::failing(alloc, vec![in alloc; 0u8; 1024]?, plan);
    let mut into = [7u8; 512];
    let made = [
        disk.sectors().is_ok(),
        disk.read(0, &mut into).is_ok(),
        disk.write(0, &[1; 512]).is_ok(),
        disk.write(1, &[2; 512]).is_ok(),
        disk.barrier().is_ok(),
        disk.barrier().is_ok(),
        disk.read(1, &mut into).is_ok(),
    ];
    let faults = disk.faults();
    assert_eq!(rt; made, [true, false, false, true, true, false, true]);
    assert_eq!(rt; (into[511], faults, disk.wants()), (2, 3, 0));
    Ok(())
}

/// The first byte of the second sector that a crash leaves, where all are old and where this one is new.
fn left(disk: &MemDisk) -> Result<[Option<u8>; 2], AllocError> {
    let old = disk.crash(0)?.get(512).copied();
    let new = disk.crash(2)?.get(512).copied();
    Ok([old, new])
}

#[test]
fn a_crash_leaves_a_written_sector_old_or_new_until_the_barrier(
    rt: HostRuntime,
) -> Result<(), Fail> {
    let alloc = rt.alloc();
    let mut disk = MemDisk::new(alloc, vec![in alloc; 0u8; 1024]?);
    let written = disk.write(1, &[5; 512]).is_ok();
    let before = left(&disk)?;
    let safe = disk.barrier().is_ok();
    let after = left(&disk)?;
    assert!(rt; written && safe);
    assert_eq!(rt; before, [Some(0), Some(5)]);
    assert_eq!(rt; after[0], Some(5));
    Ok(())
}

#[test]
fn a_stopped_disk_passes_so_many_calls_and_no_more(rt: HostRuntime) -> Result<(), Fail> {
    let alloc = rt.alloc();
    let mut disk = Stopping::after(MemDisk::new(alloc, vec![in alloc; 0u8; 512]?), 2);
    let made = [
        disk.sectors().is_ok(),
        disk.write(0, &[9; 512]).is_ok(),
        disk.write(0, &[8; 512]).is_ok(),
        disk.barrier().is_ok(),
    ];
    let faults = disk.faults();
    let first = disk.inner().bytes().get(0).copied();
    assert_eq!(rt; made, [true, true, false, false]);
    assert_eq!(rt; (faults, first), (2, Some(9)));
    Ok(())
}
