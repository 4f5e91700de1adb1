// `check` over disks in memory: the volume that `mk --blocks 4096` makes, and the same with some bytes changed.
use crate::make_tests::{has, volume};
use crate::tests::{ends, run_bytes, run_failing};
use bfs_bytes::put_bytes;
use bfs_ports::Mem;
use std::alloc::AllocError;
use std::test::Fail;

fn put(bytes: &mut [u8], at: usize, field: &[u8]) {
    if at <= bytes.len() && field.len() <= bytes.len() - at {
        put_bytes(bytes, at, field);
    }
}

// A new volume of 4,096 blocks of 1,024 bytes, with these bytes put over it.
fn changed(rt: &HostRuntime, at: usize, field: &[u8]) -> Result<Vec<u8>, AllocError> {
    let mut bytes = volume(rt, 0, 4_194_304)?;
    put(&mut bytes, at, field);
    Ok(bytes)
}

// Does `check` end so, and leave every byte of the disk?
fn keeps(rt: &HostRuntime, bytes: Vec<u8>, want: u8, line: &str) -> Result<bool, AllocError> {
    let before = bytes.to_vec(rt.alloc())?;
    ends(rt, &["check"], bytes, want, line.as_bytes(), &before)
}

// Nothing; the log ends behind a block of zeros; the run of the log begins with block 0; the bit of block 800 is set.
const CHANGES: [(usize, &[u8], u8, &str); 4] = [
    (0, &[], 0, "whole nodes 1 used 529\n"),
    (512 + 104, &[1], 3, "finding entry 0 0\n"),
    (512 + 92, &[0, 0], 3, "finding super 7\n"),
    (1024 + 100, &[1], 8, "finding bitextra 800\n"),
];

// How many volumes with such a change end so, before the first that doesn't.
fn count_told(rt: &HostRuntime, cases: &[(usize, &[u8], u8, &str)]) -> Result<usize, AllocError> {
    for at in 0..cases.len() {
        let (place, field, want, line) = cases[at];
        let bytes = changed(rt, place, field)?;
        if !keeps(rt, bytes, want, line)? {
            return Ok(at);
        }
    }
    Ok(cases.len())
}

#[test]
fn a_new_volume_is_whole_and_what_is_wrong_with_one_is_told(rt: HostRuntime) -> Result<(), Fail> {
    assert_eq!(rt; count_told(&rt, &CHANGES)?, 4);
    Ok(())
}

// The same volume with one entry in its log, whose block of bytes goes to a free block, and what replay gives of it.
fn with_log(rt: &HostRuntime) -> Result<(Vec<u8>, Vec<u8>), AllocError> {
    let mut bytes = changed(
        rt,
        2 * 1024,
        &[1, 0, 0, 0, 127, 0, 0, 0, 0, 0, 0, 0, 0x58, 2, 1, 0],
    )?;
    put(&mut bytes, 3 * 1024, &[0xaa; 1024]);
    let mut replayed = bytes.to_vec(rt.alloc())?;
    // the end of the log; its start and end
    put(&mut bytes, 512 + 104, &[2]);
    put(&mut replayed, 512 + 96, &[2, 0, 0, 0, 0, 0, 0, 0, 2]);
    put(&mut replayed, 600 * 1024, &[0xaa; 1024]);
    Ok((bytes, replayed))
}

#[test]
fn the_log_is_replayed_before_a_check(rt: HostRuntime) -> Result<(), Fail> {
    let (bytes, replayed) = with_log(&rt)?;
    assert!(rt;
        ends(
            &rt,
            &["check"],
            bytes,
            0,
            b"whole nodes 1 used 529\n",
            &replayed
        )?
    );
    Ok(())
}

#[test]
fn one_sector_is_too_short_for_a_volume(rt: HostRuntime) -> Result<(), Fail> {
    let mut bytes = volume(&rt, 0, 4_194_304)?;
    bytes.truncate(512);
    assert!(rt; keeps(&rt, bytes, 3, "finding short 1 2\n")?);
    Ok(())
}

#[test]
fn a_failed_call_of_a_check_is_told(rt: HostRuntime) -> Result<(), Fail> {
    let bytes = volume(&rt, 0, 4_194_304)?;
    assert_eq!(rt; run_failing(&rt, &["check"], bytes, 1)?, [4, 1, 0]);
    Ok(())
}

// Does the status tell of an output that takes so many bytes?
fn is_full(rt: &HostRuntime, room: u64) -> Result<bool, AllocError> {
    let mut out = Mem::full_sink(rt.alloc(), room);
    let bytes = volume(rt, 0, 4_194_304)?;
    let (status, _left) = run_bytes(rt, &["check"], bytes, &mut out)?;
    Ok(status == 6 && has(b"whole nodes 1 used 529\n", 0, out.bytes()))
}

#[test]
fn a_volume_is_checked_where_the_output_fails(rt: HostRuntime) -> Result<(), Fail> {
    assert!(rt; is_full(&rt, 0)?);
    assert!(rt; is_full(&rt, 7)?);
    Ok(())
}
