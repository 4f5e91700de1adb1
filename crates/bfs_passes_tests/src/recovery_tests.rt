// Recovery over disks in memory: a volume of 16 blocks of 1,024 bytes, whose log has the blocks 2 to 9, with two entries that
// wrap at the log's end.
use bfs_disk::{MemDisk, Stopping};
use bfs_log::EntryFault;
use bfs_replay::{MountFault, recover};
use bfs_super::SuperFault;
use std::alloc::{AllocError, Global};
use std::test::Fail;

// The fields of the superblock, by the offset in its sector. The log is in use from place 6 to place 2.
const SUPERBLOCK: [(usize, &[u8]); 13] = [
    (0, b"untitled"),
    (32, b"1SFBEGIB"),
    (40, &[0, 4, 0, 0, 10, 0, 0, 0]),
    (48, &[16, 0, 0, 0, 0, 0, 0, 0]),
    (56, &[12, 0, 0, 0, 0, 0, 0, 0]),
    (64, &[0, 4, 0, 0, 0x31, 0x10, 0x12, 0xdd]),
    (72, &[1, 0, 0, 0, 13, 0, 0, 0, 1, 0, 0, 0]),
    (84, b"TRID"),
    (88, &[0, 0, 0, 0, 2, 0, 8, 0]),
    (96, &[6, 0, 0, 0, 0, 0, 0, 0, 2, 0, 0, 0, 0, 0, 0, 0]),
    (112, &[0x0e, 0x83, 0xb6, 0x15]),
    (116, &[0, 0, 0, 0, 10, 0, 1, 0]),
    (124, &[0, 0, 0, 0, 11, 0, 1, 0]),
];

// Array blocks of one run each, which name the blocks 13 and 14.
const ENTRIES: [(usize, &[u8]); 2] = [
    (
        8 * 1024,
        &[1, 0, 0, 0, 127, 0, 0, 0, 0, 0, 0, 0, 13, 0, 1, 0],
    ),
    (
        2 * 1024,
        &[1, 0, 0, 0, 127, 0, 0, 0, 0, 0, 0, 0, 14, 0, 1, 0],
    ),
];

fn put(bytes: &mut [u8], at: usize, part: &[u8]) {
    if at <= bytes.len() && part.len() <= bytes.len() - at {
        bytes[at..at + part.len()].copy_from_slice(part);
    }
}

// Puts a field of the superblock.
fn put_field(bytes: &mut [u8], at: usize, field: &[u8]) {
    if at <= 512 {
        put(bytes, 512 + at, field);
    }
}

fn fill(bytes: &mut [u8], block: usize, byte: u8) {
    if block < 16 {
        put(bytes, 1024 * block, &[byte; 1024]);
    }
}

// The volume with its log, and these bytes put over it.
fn volume(alloc: Global, changes: &[(usize, &[u8])]) -> Result<Vec<u8>, AllocError> {
    let mut bytes = vec![in alloc; 0x55u8; 16384]?;
    put(&mut bytes, 512, &[0; 512]);
    for (at, field) in SUPERBLOCK {
        put_field(&mut bytes, at, field);
    }
    for (at, entry) in ENTRIES {
        put(&mut bytes, at, entry);
    }
    fill(&mut bytes, 9, 0xaa);
    fill(&mut bytes, 3, 0xbb);
    for (at, part) in changes {
        put(&mut bytes, *at, part);
    }
    Ok(bytes)
}

// What replay gives: both blocks at home, the log empty at its end, and CLEN.
fn replayed(alloc: Global) -> Result<Vec<u8>, AllocError> {
    let mut bytes = volume(alloc, &[])?;
    fill(&mut bytes, 13, 0xaa);
    fill(&mut bytes, 14, 0xbb);
    put_field(&mut bytes, 96, &[2]);
    put_field(&mut bytes, 84, b"NELC");
    Ok(bytes)
}

#[test]
fn blocks_come_home_and_the_log_is_empty(rt: HostRuntime) -> Result<(), Fail> {
    let alloc = rt.alloc();
    let bytes = volume(alloc, &[])?;
    assert_eq!(rt; bytes.len() % 512, 0);
    let mut disk = MemDisk::new(alloc, bytes);
    let places = match recover(alloc, &mut disk) {
        Ok(sup) => (sup.log_start, sup.log_end),
        Err(_) => (0, 0),
    };
    assert_eq!(rt; places, (2, 2));
    assert!(rt; disk.bytes() == replayed(alloc)?);
    Ok(())
}

// Is this image recovered, to what replay gives?
fn is_replayed(alloc: Global, image: Vec<u8>) -> Result<bool, AllocError> {
    if image.len() % 512 != 0 {
        return Ok(false);
    }
    let mut disk = MemDisk::new(alloc, image);
    if recover(alloc, &mut disk).is_err() {
        return Ok(false);
    }
    Ok(disk.bytes() == replayed(alloc)?)
}

// Is each image that a crash leaves of this disk?
fn is_replayed_after(alloc: Global, disk: &MemDisk) -> Result<bool, AllocError> {
    for pick in [0, u64::MAX, 0xaaaa_aaaa_aaaa_aaaa, 0x5555_5555_5555_5555] {
        if !is_replayed(alloc, disk.crash(pick)?)? {
            return Ok(false);
        }
    }
    Ok(true)
}

// Recovers the volume on a disk that stops after so many calls: whether it is done, and whether each crash is recovered then.
fn stopped_after(alloc: Global, calls: u64) -> Result<(bool, bool), AllocError> {
    let bytes = volume(alloc, &[])?;
    if bytes.len() % 512 != 0 {
        return Err(AllocError);
    }
    let mut disk = Stopping::after(MemDisk::new(alloc, bytes), calls);
    let done = recover(alloc, &mut disk).is_ok();
    Ok((done, is_replayed_after(alloc, &disk.inner())?))
}

#[test]
fn a_recovery_that_was_stopped_is_done_by_the_next_one(rt: HostRuntime) -> Result<(), Fail> {
    let alloc = rt.alloc();
    // sectors, superblock, two array blocks; for each entry its array block, its block, and the write; then the last three
    for calls in 0..15 {
        assert_eq!(rt;
            stopped_after(alloc, calls)?,
            (calls >= 13, true),
            "after {calls}"
        );
    }
    Ok(())
}

// Recovers these bytes, and tells whether it is refused so with no byte changed.
fn is_refused(alloc: Global, bytes: Vec<u8>, want: MountFault) -> Result<bool, AllocError> {
    if bytes.len() % 512 != 0 {
        return Ok(false);
    }
    let before = bytes.to_vec(alloc)?;
    let mut disk = MemDisk::new(alloc, bytes);
    match recover(alloc, &mut disk) {
        Ok(_) => Ok(false),
        Err(fault) => Ok(fault == want && disk.bytes() == before),
    }
}

#[test]
fn a_volume_that_cannot_be_recovered_is_left_as_it_was(rt: HostRuntime) -> Result<(), Fail> {
    let alloc = rt.alloc();
    let short = MountFault::Short {
        sectors: 1,
        needed: 2,
    };
    assert!(rt; is_refused(alloc, vec![in alloc; 0u8; 512]?, short)?);
    let few = MountFault::Short {
        sectors: 32,
        needed: 34,
    };
    assert!(rt; is_refused(alloc, volume(alloc, &[(560, &[17])])?, few)?);
    let order = MountFault::Super(SuperFault::ByteOrder { found: 0 });
    assert!(rt; is_refused(alloc, volume(alloc, &[(548, &[0, 0, 0, 0])])?, order)?);
    // the second entry counts no run: the first one isn't written either
    let entry = MountFault::Entry(EntryFault::Count {
        count: 0,
        max_runs: 127,
    });
    assert!(rt; is_refused(alloc, volume(alloc, &[(2048, &[0])])?, entry)?);
    Ok(())
}

#[test]
fn an_empty_log_is_left_alone(rt: HostRuntime) -> Result<(), Fail> {
    let alloc = rt.alloc();
    let bytes = volume(alloc, &[(608, &[2])])?;
    let before = bytes.to_vec(alloc)?;
    assert_eq!(rt; bytes.len() % 512, 0);
    let mut disk = MemDisk::new(alloc, bytes);
    assert!(rt; recover(alloc, &mut disk).is_ok());
    assert!(rt; disk.bytes() == before);
    Ok(())
}
