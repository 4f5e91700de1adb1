// `mk` over disks in memory, with a clock that stands at 1,000 seconds.
use crate::tests::{run, run_bytes, run_failing, tells, zeros};
use bfs_disk::{MemDisk, Stopping};
use bfs_ports::Mem;
use std::alloc::AllocError;
use std::test::Fail;

// The words of `mk` over a disk of so many zero bytes, the status, and what is printed.
fn makes(
    rt: &HostRuntime,
    texts: &[&str],
    length: usize,
    want: u8,
    line: &str,
) -> Result<bool, AllocError> {
    let bytes = zeros(rt.alloc(), length)?;
    if bytes.len() != length {
        return Ok(false);
    }
    tells(rt, texts, bytes, want, line.as_bytes())
}

const MADE: [(&[&str], usize, u8, &str); 8] = [
    (
        &["mk", "--blocks", "4096"],
        4_194_304,
        0,
        "made 4096 used 529\n",
    ),
    (
        &["mk", "--blocks", "529"],
        4_194_304,
        0,
        "made 529 used 529\n",
    ),
    (&["mk", "--blocks", "528"], 4_194_304, 10, "small 528 529\n"),
    (&["mk", "--blocks", "0"], 0, 10, "small 0 528\n"),
    (
        &["mk", "--blocks", "4096"],
        4_193_792,
        10,
        "small 8191 8192\n",
    ),
    (
        &["mk", "--blocks", "20480"],
        20_971_520,
        0,
        "made 20480 used 531\n",
    ),
    (
        &["mk", "--blocks", "20481"],
        20_972_544,
        0,
        "made 20481 used 2067\n",
    ),
    (
        &[
            "mk",
            "--blocks",
            "524",
            "--block-size",
            "8192",
            "--name",
            "a",
        ],
        4_292_608,
        0,
        "made 524 used 524\n",
    ),
];

// How many of these end so, before the first that doesn't.
fn count_made(rt: &HostRuntime, cases: &[(&[&str], usize, u8, &str)]) -> Result<usize, AllocError> {
    for at in 0..cases.len() {
        let (texts, length, want, line) = cases[at];
        if !makes(rt, texts, length, want, line)? {
            return Ok(at);
        }
    }
    Ok(cases.len())
}

#[test]
fn a_new_volume_is_told_with_its_used_blocks(rt: HostRuntime) -> Result<(), Fail> {
    assert_eq!(rt; count_made(&rt, &MADE)?, 8);
    Ok(())
}

// Do these bytes stand at this place?
pub(crate) fn has(bytes: &[u8], at: usize, field: &[u8]) -> bool {
    at <= bytes.len() && field.len() <= bytes.len() - at && &bytes[at..at + field.len()] == field
}

// Are the bytes of two images the same from one place to another?
fn same(a: &[u8], b: &[u8], from: usize, to: usize) -> bool {
    from <= to && to <= a.len() && to <= b.len() && a[from..to] == b[from..to]
}

// The image that `mk --blocks 4096` makes of a disk full of some byte.
pub(crate) fn volume(rt: &HostRuntime, byte: u8, length: usize) -> Result<Vec<u8>, AllocError> {
    let alloc = rt.alloc();
    let mut out = Mem::sink(alloc);
    let bytes = vec![in alloc; byte; length]?;
    let (_, left) = run_bytes(rt, &["mk", "--blocks", "4096"], bytes, &mut out)?;
    Ok(left)
}

// Does the image begin a volume that was made at 1,000 seconds?
fn is_new(made: &[u8]) -> bool {
    has(made, 512, b"untitled\0")
        && has(made, 544, b"1SFBEGIB")
        // the stamps of the root directory: 1,000 seconds in the upper 48 bits
        && has(made, 514 * 1024 + 28, &[0, 0, 0xe8, 3, 0, 0, 0, 0])
}

// Is it the other image with the label `new`?
fn is_named(named: &[u8], made: &[u8]) -> bool {
    named.len() == made.len()
        && has(named, 512, b"new\0\0\0\0\0\0")
        && same(named, made, 0, 512)
        && same(named, made, 544, 4_194_304)
}

// What `label` leaves of a new volume, and its status.
fn named_volume(rt: &HostRuntime) -> Result<(u8, Vec<u8>), AllocError> {
    let mut out = Mem::sink(rt.alloc());
    let bytes = volume(rt, 0, 4_194_304)?;
    run_bytes(rt, &["label", "new"], bytes, &mut out)
}

#[test]
fn a_new_volume_takes_a_label_and_keeps_every_other_byte(rt: HostRuntime) -> Result<(), Fail> {
    let made = volume(&rt, 0, 4_194_304)?;
    let (status, named) = named_volume(&rt)?;
    assert!(rt; status == 0 && is_new(&made) && is_named(&named, &made));
    Ok(())
}

// Is this byte at each place from one to another?
fn is_full_of(image: &[u8], from: usize, to: usize, byte: u8) -> bool {
    from <= to && to <= image.len() && image[from..to].iter().all(|b| *b == byte)
}

#[test]
fn blocks_outside_of_the_format_keep_their_bytes(rt: HostRuntime) -> Result<(), Fail> {
    let made = volume(&rt, 0x7e, 4_194_304)?;
    assert!(rt;
        is_full_of(&made, 0, 512, 0x7e)
            && is_full_of(&made, 2048, 514 * 1024, 0x7e)
            && is_full_of(&made, 529 * 1024, 4_194_304, 0x7e)
    );
    Ok(())
}

// The superblock comes last: where it stands in what is left, all else does.
fn leaves(disk: &MemDisk, made: &[u8], done: bool, pick: u64) -> Result<bool, AllocError> {
    let image = disk.crash(pick)?;
    let whole = same(&image, made, 1024, 2048) && same(&image, made, 514 * 1024, 529 * 1024);
    let all = same(&image, made, 0, 4_194_304);
    Ok((whole || !has(&image, 544, b"1SFBEGIB")) && (all || !done))
}

fn leaves_each(disk: &MemDisk, made: &[u8], done: bool) -> Result<bool, AllocError> {
    for pick in [0, u64::MAX, 0xaaaa_aaaa_aaaa_aaaa, 2] {
        if !leaves(disk, made, done, pick)? {
            return Ok(false);
        }
    }
    Ok(true)
}

// Stops the disk behind so many calls of `mk`. Is the status right, and is what is left no volume or the whole one?
fn stops(rt: &HostRuntime, made: &[u8], calls: u64) -> Result<bool, AllocError> {
    let alloc = rt.alloc();
    let other = vec![in alloc; 0x7eu8; made.len()]?;
    if other.len() % 512 != 0 {
        return Ok(false);
    }
    let mut out = Mem::sink(alloc);
    let disk = Stopping::after(MemDisk::new(alloc, other), calls);
    let (status, disk) = run(rt, &["mk", "--blocks", "4096"], disk, &mut out)?;
    let disk = disk.inner();
    let done = calls >= 8;
    if status != if done { 0 } else { 4 } {
        return Ok(false);
    }
    leaves_each(&disk, made, done)
}

// The same for each number of calls.
fn stops_each(rt: &HostRuntime, made: &[u8]) -> Result<bool, AllocError> {
    for calls in 0..9 {
        if !stops(rt, made, calls)? {
            return Ok(false);
        }
    }
    Ok(true)
}

#[test]
fn a_stop_at_any_call_leaves_no_volume_or_the_whole_one(rt: HostRuntime) -> Result<(), Fail> {
    let made = volume(&rt, 0x7e, 4_194_304)?;
    assert!(rt; stops_each(&rt, &made)?);
    Ok(())
}

#[test]
fn a_failed_call_of_a_format_is_told(rt: HostRuntime) -> Result<(), Fail> {
    for call in 1..10 {
        let bytes = zeros(rt.alloc(), 541_696)?;
        let [status, faults, printed] = run_failing(&rt, &["mk", "--blocks", "529"], bytes, call)?;
        assert!(rt; [status, faults] == if call < 9 { [4, 1] } else { [0, 0] });
        assert!(rt; (printed == 0) == (call < 9));
    }
    Ok(())
}

// Is the volume made, and does the status tell of an output that takes so many bytes?
fn is_full(rt: &HostRuntime, room: u64) -> Result<bool, AllocError> {
    let mut out = Mem::full_sink(rt.alloc(), room);
    let bytes = zeros(rt.alloc(), 541_696)?;
    let (status, left) = run_bytes(rt, &["mk", "--blocks", "529"], bytes, &mut out)?;
    let printed = has(b"made 529 used 529\n", 0, out.bytes());
    Ok(status == 6 && printed && has(&left, 544, b"1SFBEGIB"))
}

#[test]
fn a_volume_is_made_where_the_output_fails(rt: HostRuntime) -> Result<(), Fail> {
    assert!(rt; is_full(&rt, 0)?);
    assert!(rt; is_full(&rt, 7)?);
    Ok(())
}
