// `sh` and `soak` over disks in memory: scripts and workloads on the volume that `mk --blocks 4096` makes, which printed what stands beside them.
use crate::make_tests::{has, volume};
use crate::tests::{run_bytes, words, zeros};
use bfs_disk::MemDisk;
use bfs_ports::{Fixed, Mem, MemSink, NoGate};
use bfs_run::{Unwatched, run_workload};
use bfs_tool::bfs;
use std::alloc::AllocError;
use std::test::Fail;

// Runs `sh` with this script on a disk of these bytes. Its reader fails the calls with these numbers. The status, and what is left.
fn shell(
    rt: &HostRuntime,
    script: &[u8],
    failing: &[u64],
    bytes: Vec<u8>,
    out: &mut MemSink,
) -> Result<(u8, Vec<u8>), AllocError> {
    let alloc = rt.alloc();
    if bytes.len() % 512 != 0 {
        return Ok((u8::MAX, bytes));
    }
    let disk = MemDisk::new(alloc, bytes);
    let words = words(alloc, &["sh"])?;
    let mut script = Mem::failing_source(script.to_vec(alloc)?, failing.to_vec(alloc)?);
    let (status, disk) = bfs(
        rt,
        &words,
        disk,
        &mut script,
        out,
        Fixed::clock(1000),
        &NoGate,
    );
    Ok((status, disk.bytes()))
}

// Does `sh` end so on these bytes? And what it leaves.
fn ends(
    rt: &HostRuntime,
    bytes: Vec<u8>,
    script: &[u8],
    failing: &[u64],
    want: u8,
    text: &[u8],
) -> Result<Option<Vec<u8>>, AllocError> {
    let mut out = Mem::sink(rt.alloc());
    let (status, left) = shell(rt, script, failing, bytes, &mut out)?;
    if status != want || out.bytes() != text {
        return Ok(None);
    }
    Ok(Some(left))
}

// Does `sh` end so on a new volume?
fn runs(
    rt: &HostRuntime,
    script: &[u8],
    failing: &[u64],
    want: u8,
    text: &[u8],
) -> Result<bool, AllocError> {
    let bytes = volume(rt, 0, 4_194_304)?;
    let left = ends(rt, bytes, script, failing, want, text)?;
    Ok(left.is_some())
}

const SCRIPTS: [(&[u8], &[u8]); 4] = [
    (b"", b""),
    (b"# nothing\n\n", b""),
    (
        b"1 mkdir /a\n2 ls /\n1 mv /a /b\n1 ls /\n1 sync\n",
        b"1 1 ok\n2 2 ok 1 a\n3 1 ok\n4 1 ok 1 b\n5 1 ok\n",
    ),
    (
        b"1 make /f\n1 size /f 9\n1 write /f 2 :abc\n1 read /f 3 2\n1 read /f 3 9\n1 rmindex name",
        b"1 1 ok\n2 1 ok\n3 1 ok\n4 1 ok 2 6263\n5 1 pastend 9\n6 1 builtin\n",
    ),
];

// How many of these scripts print their text, before the first that doesn't.
fn count_printed(rt: &HostRuntime, cases: &[(&[u8], &[u8])]) -> Result<usize, AllocError> {
    for at in 0..cases.len() {
        let (script, text) = cases[at];
        if !runs(rt, script, &[], 0, text)? {
            return Ok(at);
        }
    }
    Ok(cases.len())
}

#[test]
fn each_line_is_run_and_printed(rt: HostRuntime) -> Result<(), Fail> {
    assert_eq!(rt; count_printed(&rt, &SCRIPTS)?, 4);
    Ok(())
}

// Is a volume of these bytes whole?
fn is_whole(rt: &HostRuntime, bytes: Vec<u8>) -> Result<bool, AllocError> {
    let mut out = Mem::sink(rt.alloc());
    let (status, _left) = run_bytes(rt, &["check"], bytes, &mut out)?;
    Ok(status == 0)
}

// Is there in a second run what the first one left, and is the volume whole after it?
fn goes_on(rt: &HostRuntime, bytes: Vec<u8>) -> Result<bool, AllocError> {
    let script = b"1 ls /a\n1 rm /a\n";
    let left = ends(rt, bytes, script, &[], 0, b"1 1 ok 1 f\n2 1 notempty\n")?;
    match left {
        Some(bytes) => is_whole(rt, bytes),
        None => Ok(false),
    }
}

fn begins_and_goes_on(rt: &HostRuntime) -> Result<bool, AllocError> {
    let bytes = volume(rt, 0, 4_194_304)?;
    let script = b"1 mkdir /a\n1 make /a/f\n";
    let left = ends(rt, bytes, script, &[], 0, b"1 1 ok\n2 1 ok\n")?;
    match left {
        Some(bytes) => goes_on(rt, bytes),
        None => Ok(false),
    }
}

#[test]
fn a_run_goes_on_from_what_the_last_one_left(rt: HostRuntime) -> Result<(), Fail> {
    assert!(rt; begins_and_goes_on(&rt)?);
    Ok(())
}

// Does `sh` end so on a new volume, and leave it?
fn keeps(
    rt: &HostRuntime,
    script: &[u8],
    failing: &[u64],
    want: u8,
    text: &[u8],
) -> Result<bool, AllocError> {
    let bytes = volume(rt, 0, 4_194_304)?;
    let left = ends(rt, bytes, script, failing, want, text)?;
    Ok(left == Some(volume(rt, 0, 4_194_304)?))
}

const REFUSED: [(&[u8], &[u64], u8, &[u8]); 4] = [
    (b"1 nonsense\n", &[], 9, b"line 1\n"),
    (b"1 mkdir /a\n\n17 ls /\n", &[], 9, b"line 3\n"),
    (b"1 mkdir /a\n", &[1], 5, b""),
    (b"1 mkdir /a\n", &[2], 5, b""),
];

// How many of these scripts end so and leave the volume, before the first that doesn't.
fn count_kept(rt: &HostRuntime, cases: &[(&[u8], &[u64], u8, &[u8])]) -> Result<usize, AllocError> {
    for at in 0..cases.len() {
        let (script, failing, want, text) = cases[at];
        if !keeps(rt, script, failing, want, text)? {
            return Ok(at);
        }
    }
    Ok(cases.len())
}

#[test]
fn a_script_that_cannot_be_run_leaves_the_volume(rt: HostRuntime) -> Result<(), Fail> {
    assert_eq!(rt; count_kept(&rt, &REFUSED)?, 4);
    Ok(())
}

#[test]
fn what_is_no_volume_is_not_mounted(rt: HostRuntime) -> Result<(), Fail> {
    let bytes = zeros(rt.alloc(), 32768)?;
    assert!(rt; ends(&rt, bytes, b"1 ls /\n", &[], 3, b"finding super 1\n")?.is_some());
    Ok(())
}

// Is an output that takes three bytes told?
fn is_full(rt: &HostRuntime) -> Result<bool, AllocError> {
    let mut out = Mem::full_sink(rt.alloc(), 3);
    let bytes = volume(rt, 0, 4_194_304)?;
    let (status, _left) = shell(rt, b"1 mkdir /a\n", &[], bytes, &mut out)?;
    Ok(status == 6 && out.bytes() == b"1 1".as_slice())
}

#[test]
fn an_output_that_fails_is_told(rt: HostRuntime) -> Result<(), Fail> {
    assert!(rt; is_full(&rt)?);
    Ok(())
}

// Runs `soak 7` with so many commands on these bytes. What it leaves is nothing where it doesn't end well.
fn soak(
    rt: &HostRuntime,
    bytes: Vec<u8>,
    count: &str,
    out: &mut MemSink,
) -> Result<Vec<u8>, AllocError> {
    let (status, left) = run_bytes(rt, &["soak", "7", count], bytes, out)?;
    if status != 0 {
        return Ok(Vec::new(rt.alloc()));
    }
    Ok(left)
}

// Does a workload of so many commands end well so many times, one run behind the other, and print a text that begins so?
fn soaks(rt: &HostRuntime, count: &str, times: usize, text: &[u8]) -> Result<bool, AllocError> {
    let mut out = Mem::sink(rt.alloc());
    let mut bytes = volume(rt, 0, 4_194_304)?;
    for _ in 0..times {
        bytes = soak(rt, bytes, count, &mut out)?;
    }
    Ok(bytes.len() == 4_194_304 && has(out.bytes(), 0, text))
}

#[test]
fn the_folders_of_a_workload_are_made_once(rt: HostRuntime) -> Result<(), Fail> {
    let text = b"lines 4 ok 4 refused 0 nodes 5\nlines 4 ok 0 refused 4 nodes 5\n".as_slice();
    assert!(rt; soaks(&rt, "0", 2, text)?);
    Ok(())
}

#[test]
fn a_workload_is_run_and_summed_up(rt: HostRuntime) -> Result<(), Fail> {
    assert!(rt; soaks(&rt, "40", 1, b"lines 44 ok ")?);
    Ok(())
}

// What a workload leaves, where there is room for so many read blocks meanwhile.
fn leaves(rt: &HostRuntime, cache: u32) -> Result<Vec<u8>, AllocError> {
    let alloc = rt.alloc();
    let bytes = volume(rt, 0, 4_194_304)?;
    if bytes.len() % 512 != 0 {
        return Ok(Vec::new(alloc));
    }
    let disk = MemDisk::new(alloc, bytes);
    let clock = Fixed::clock(1000);
    let (_run, disk) = run_workload(alloc, disk, clock, 7, 2000, cache, &Unwatched);
    Ok(disk.bytes())
}

#[test]
fn room_for_eight_read_blocks_leaves_what_room_for_1024_leaves(
    rt: HostRuntime,
) -> Result<(), Fail> {
    let few = leaves(&rt, 8)?;
    let many = leaves(&rt, 1024)?;
    assert!(rt; few.len() == 4_194_304 && few.as_slice() == many.as_slice());
    Ok(())
}
