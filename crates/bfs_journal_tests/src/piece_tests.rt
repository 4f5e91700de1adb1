// Devices over disks in memory. The volume is made here by hand.
ghost use Rattle.std.specs.Prelude.{◌≤◌, ◌<◌, ◌+◌, length, IsTrue};
ghost use Rattle.std.specs.List.{All};
ghost use Rattle.bfs_device.specs.Layouts.{IsData, layout_of};

use crate::devices::{disk_of, opened_on};
use bfs_device::{Device, DeviceFault};
use bfs_disk::{Disk, MemDisk};
use bfs_pieces::{read_piece, write_piece};
use std::alloc::Global;
use std::test::Fail;

// Are these blocks that a piece may have?
fn are_data(device: &Device<MemDisk>, places: &[u64]) -> bool
    ensures { IsTrue result → All (IsData (layout_of device.now.books.sup)) places.now }
{
    let mut at = 0;
    while at < places.len() {
        if !device.is_data(places[at]) {
            return false;
        }
        at += 1;
    }
    true
}

// What a write of a piece and a read of one answer, in three blocks of a device over this disk. Nothing where there is no device.
fn put_and_get(
    alloc: Global,
    disk: MemDisk,
    from: &[u8],
    at: usize,
    into: &mut [u8],
) -> Option<[Result<(), DeviceFault>; 2]>
    requires start { at < 1024 }
    requires from_fits { 1000 + length from.now ≤ 3072 }
    requires into_fits { at + length into.old ≤ 3072 }
{
    let Some((_, mut device)) = opened_on(alloc, disk) else {
        return None;
    };
    let places = [16, 18, 17];
    if !are_data(&device, &places) {
        return None;
    }
    let mut block = [0; 1024];
    let written = write_piece(&mut device, &places, 1000, from, &mut block);
    let read = read_piece(&mut device, &places, at, into, &mut block);
    Some([written, read])
}

// Bytes that are all others than their neighbours.
fn some_bytes() -> [u8; 1100] {
    let mut bytes = [0; 1100];
    for at in 0..1100 {
        bytes[at] = (at % 251) as u8;
    }
    bytes
}

/// Whether these bytes stand at this place.
fn has(bytes: &[u8], at: usize, field: &[u8]) -> bool {
    at <= bytes.len() && field.len() <= bytes.len() - at && &bytes[at..at + field.len()] == field
}

#[test]
fn a_piece_across_three_blocks_is_written_and_read_back(rt: HostRuntime) -> Result<(), Fail> {
    let alloc = rt.alloc();
    let from = some_bytes();
    let mut into = [9; 1100];
    assert_eq!(rt;
        put_and_get(alloc, disk_of(alloc, 0, 32_768)?, &from, 1000, &mut into),
        Some([Ok(()), Ok(())])
    );
    assert_eq!(rt; into, from);
    // The other bytes of the first block and of the last one stay.
    let mut all = [9; 3072];
    assert_eq!(rt;
        put_and_get(alloc, disk_of(alloc, 0, 32_768)?, &from, 0, &mut all),
        Some([Ok(()), Ok(())])
    );
    assert_eq!(rt; has(&all, 0, &[5; 1000]), true);
    assert_eq!(rt; has(&all, 1000, &from), true);
    assert_eq!(rt; has(&all, 2100, &[0; 972]), true);
    Ok(())
}

#[test]
fn faults_of_a_piece_tell_their_counts(rt: HostRuntime) -> Result<(), Fail> {
    let alloc = rt.alloc();
    let from = some_bytes();
    let failed = |stops| DeviceFault::Disk {
        before: 0,
        after: 1,
        stops,
    };
    let stopped = DeviceFault::Stopped {
        durable: 0,
        faults: 1,
    };
    // The first call asks for the sectors. The first block is read and written, the second one written, the third one read and
    // written; and then each is read.
    for (call, answers) in [
        (2, [Err(failed(false)), Ok(())]),
        (3, [Err(failed(true)), Err(stopped)]),
        (4, [Err(failed(true)), Err(stopped)]),
        (5, [Err(failed(false)), Ok(())]),
        (6, [Err(failed(true)), Err(stopped)]),
        (8, [Ok(()), Err(failed(false))]),
        (10, [Ok(()), Ok(())]),
    ] {
        let mut all = [9; 3072];
        assert_eq!(rt;
            put_and_get(alloc, disk_of(alloc, call, 32_768)?, &from, 0, &mut all),
            Some(answers),
            "{call}"
        );
    }
    // A piece of no byte takes no call.
    assert_eq!(rt;
        put_and_get(alloc, disk_of(alloc, 3, 32_768)?, &from, 0, &mut []),
        Some([Err(failed(true)), Ok(())])
    );
    Ok(())
}
