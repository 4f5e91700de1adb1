// The program over disks in memory. The volume is one of 4,096 blocks of 1,024 bytes with the label `untitled`,
// given by the bytes of its superblock.
use bfs_bytes::put_bytes;
use bfs_disk::{Disk, MemDisk, Stopping};
use bfs_ports::{Fixed, Mem, MemSink, NoGate};
use bfs_tool::bfs;
use bfs_words::Argument;
use std::alloc::{AllocError, Global};
use std::test::Fail;

const USAGE: &str =
    "usage: bfs IMAGE (label NAME | mk --blocks N [--block-size B] [--name NAME] | check | sh [-j N] | soak SEED COUNT [-j N])\n";

const SUPERBLOCK: [(usize, &[u8]); 12] = [
    (0, b"untitled"),
    (32, b"1SFBEGIB"),
    (40, &[0, 4, 0, 0, 10, 0, 0, 0]),
    (48, &[0, 16, 0, 0, 0, 0, 0, 0]),
    (56, &[17, 2, 0, 0, 0, 0, 0, 0]),
    (64, &[0, 4, 0, 0, 0x31, 0x10, 0x12, 0xdd]),
    (72, &[1, 0, 0, 0, 13, 0, 0, 0]),
    (80, &[1, 0, 0, 0, b'N', b'E', b'L', b'C']),
    (88, &[0, 0, 0, 0, 2, 0, 0, 2]),
    (112, &[0x0e, 0x83, 0xb6, 0x15]),
    (116, &[0, 0, 0, 0, 2, 2, 1, 0]),
    (124, &[0, 0, 0, 0, 5, 2, 1, 0]),
];

pub(crate) fn zeros(alloc: Global, count: usize) -> Result<Vec<u8>, AllocError> {
    vec![in alloc; 0; count]
}

// Puts a field of the superblock, where it lies inside.
fn put(bytes: &mut [u8], at: usize, field: &[u8]) {
    if at <= 512 && field.len() <= 512 && bytes.len() >= 1536 {
        put_bytes(bytes, 512 + at, field);
    }
}

fn put_each(bytes: &mut [u8], fields: &[(usize, &[u8])]) {
    for (at, field) in fields {
        put(bytes, *at, field);
    }
}

// The first 64 sectors of the volume, with these fields of its superblock changed.
fn volume(alloc: Global, changes: &[(usize, &[u8])]) -> Result<Vec<u8>, AllocError> {
    let mut bytes = zeros(alloc, 32768)?;
    put_each(&mut bytes, &SUPERBLOCK);
    put_each(&mut bytes, changes);
    Ok(bytes)
}

pub(crate) fn words(alloc: Global, texts: &[&str]) -> Result<Vec<Argument>, AllocError> {
    let mut words = Vec::new(alloc);
    for text in texts {
        words.push(Argument::of(alloc, text)?)?;
    }
    Ok(words)
}

// Runs the program with these words, and tells what it printed.
pub(crate) fn run<D: Disk + Send + Drop>(
    rt: &HostRuntime,
    texts: &[&str],
    disk: D,
    out: &mut MemSink,
) -> Result<(u8, D), AllocError> {
    let alloc = rt.alloc();
    let words = words(alloc, texts)?;
    let mut script = Mem::source(alloc, Vec::new(alloc));
    Ok(bfs(
        rt,
        &words,
        disk,
        &mut script,
        out,
        Fixed::clock(1000),
        &NoGate,
    ))
}

// Runs the program with these words on a disk of these bytes, and tells the status and what is left.
pub(crate) fn run_bytes(
    rt: &HostRuntime,
    texts: &[&str],
    bytes: Vec<u8>,
    out: &mut MemSink,
) -> Result<(u8, Vec<u8>), AllocError> {
    if bytes.len() % 512 != 0 {
        return Ok((u8::MAX, bytes));
    }
    let (status, disk) = run(rt, texts, MemDisk::new(rt.alloc(), bytes), out)?;
    Ok((status, disk.bytes()))
}

// Does it end with this status, print this text, and leave these bytes?
pub(crate) fn ends(
    rt: &HostRuntime,
    texts: &[&str],
    bytes: Vec<u8>,
    want: u8,
    text: &[u8],
    left: &[u8],
) -> Result<bool, AllocError> {
    let mut out = Mem::sink(rt.alloc());
    let (status, after) = run_bytes(rt, texts, bytes, &mut out)?;
    Ok(status == want && out.bytes() == text && after.as_slice() == left)
}

// Does it end with this status, and print this text?
pub(crate) fn tells(
    rt: &HostRuntime,
    texts: &[&str],
    bytes: Vec<u8>,
    want: u8,
    text: &[u8],
) -> Result<bool, AllocError> {
    let mut out = Mem::sink(rt.alloc());
    let (status, _after) = run_bytes(rt, texts, bytes, &mut out)?;
    Ok(status == want && out.bytes() == text)
}

// Where the disk fails the call with this number: the status, how many calls failed, and how many bytes were printed.
pub(crate) fn run_failing(
    rt: &HostRuntime,
    texts: &[&str],
    bytes: Vec<u8>,
    call: u64,
) -> Result<[u64; 3], AllocError> {
    let alloc = rt.alloc();
    if bytes.len() % 512 != 0 {
        return Ok([u64::MAX; 3]);
    }
    let disk = MemDisk::failing(alloc, bytes, vec![in alloc; call]?);
    let mut out = Mem::sink(alloc);
    let (status, disk) = run(rt, texts, disk, &mut out)?;
    Ok([u64::from(status), disk.faults(), out.bytes().len() as u64])
}

// Does the program refuse the volume with these fields so, and leave it?
fn refuses(
    rt: &HostRuntime,
    texts: &[&str],
    changes: &[(usize, &[u8])],
    want: u8,
    text: &str,
) -> Result<bool, AllocError> {
    let left = volume(rt.alloc(), changes)?;
    let bytes = volume(rt.alloc(), changes)?;
    ends(rt, texts, bytes, want, text.as_bytes(), &left)
}

const NO_COMMANDS: [(&[&str], u8); 18] = [
    (&[], 0),
    (&["mk", "--blocks"], 2),
    (&["label"], 2),
    (&["label", ""], 2),
    (&["label", "a/b"], 2),
    (&["label", "letters-letters-letters-letters-"], 2),
    (&["label", "new", "new"], 2),
    (&["LABEL", "new"], 2),
    (&["mk"], 2),
    (&["mk", "--blocks", "+529"], 2),
    (&["mk", "--blocks", "4194305"], 2),
    (&["mk", "--blocks", "99999999999999999999"], 2),
    (&["mk", "--blocks", "000000000000000000529"], 2),
    (&["mk", "--blocks", "529", "--block-size", "512"], 2),
    (&["mk", "--blocks", "529", "--block-size"], 2),
    (&["mk", "--blocks", "529", "--name", "a/b"], 2),
    (&["mk", "--blocks", "529", "529"], 2),
    (&["mk", "--blocks", ""], 2),
];

// How many of these end so with the usage, before the first that doesn't.
fn count_usages(rt: &HostRuntime, cases: &[(&[&str], u8)]) -> Result<usize, AllocError> {
    for at in 0..cases.len() {
        let (texts, want) = cases[at];
        if !refuses(rt, texts, &[], want, USAGE)? {
            return Ok(at);
        }
    }
    Ok(cases.len())
}

#[test]
fn words_that_are_no_command_print_the_usage(rt: HostRuntime) -> Result<(), Fail> {
    assert_eq!(rt; count_usages(&rt, &NO_COMMANDS)?, 18);
    Ok(())
}

// Labels the volume with these fields, and compares every byte.
fn label_it(rt: &HostRuntime, changes: &[(usize, &[u8])]) -> Result<bool, AllocError> {
    let mut want = volume(rt.alloc(), changes)?;
    put(&mut want, 0, b"new\0\0\0\0\0");
    let bytes = volume(rt.alloc(), changes)?;
    ends(rt, &["label", "new"], bytes, 0, b"", &want)
}

#[test]
fn label_changes_32_bytes_and_no_other(rt: HostRuntime) -> Result<(), Fail> {
    assert!(rt; label_it(&rt, &[])?);
    let rest = [0xff; 32];
    assert!(rt; label_it(&rt, &[(84, b"TRID"), (96, &[7]), (104, &[7]), (132, &rest)])?);
    // a volume without an index directory
    assert!(rt; label_it(&rt, &[(124, &[0, 0, 0, 0, 0, 0, 0, 0])])?);
    Ok(())
}

// Does a stop before the disk's next call leave this image at the earliest, and that one at the latest?
fn leaves(disk: &MemDisk, first: &[u8], last: &[u8]) -> Result<bool, AllocError> {
    let oldest = disk.crash(0)?;
    let newest = disk.crash(u64::MAX)?;
    Ok(oldest.as_slice() == first && newest.as_slice() == last)
}

// Stops the disk behind so many calls of `label`. Is this the status, and are these the images that are left?
fn stops(
    rt: &HostRuntime,
    calls: u64,
    want: u8,
    first: &[u8],
    last: &[u8],
) -> Result<bool, AllocError> {
    let alloc = rt.alloc();
    let bytes = volume(alloc, &[])?;
    if bytes.len() % 512 != 0 {
        return Ok(false);
    }
    let mut out = Mem::sink(alloc);
    let disk = Stopping::after(MemDisk::new(alloc, bytes), calls);
    let (status, disk) = run(rt, &["label", "new"], disk, &mut out)?;
    let disk = disk.inner();
    if status != want {
        return Ok(false);
    }
    leaves(&disk, first, last)
}

// Before the write the old label is there, inside it the old or the new one, and after the barrier the new one.
fn leaves_old_or_new(rt: &HostRuntime, old: &[u8], new: &[u8]) -> Result<bool, AllocError> {
    for calls in 0..3 {
        if !stops(rt, calls, 4, old, old)? {
            return Ok(false);
        }
    }
    let inside = stops(rt, 3, 4, old, new)?;
    let after = stops(rt, 4, 0, new, new)?;
    Ok(inside && after)
}

#[test]
fn a_stop_at_each_disk_call_leaves_the_old_label_or_the_new_one(
    rt: HostRuntime,
) -> Result<(), Fail> {
    let old = volume(rt.alloc(), &[])?;
    let new = volume(rt.alloc(), &[(0, b"new\0\0\0\0\0")])?;
    assert!(rt; leaves_old_or_new(&rt, &old, &new)?);
    Ok(())
}

const BROKEN: [(&[(usize, &[u8])], &str); 18] = [
    (&[(32, &[0])], "finding super 1\n"),
    (&[(68, &[0])], "finding super 1\n"),
    (&[(112, &[0])], "finding super 1\n"),
    (&[(36, b"BIGE")], "finding super 2\n"),
    (&[(44, &[11])], "finding super 3\n"),
    (&[(40, &[0, 0x40]), (44, &[14])], "finding super 3\n"),
    (&[(64, &[1])], "finding super 4\n"),
    (&[(48, &[0, 0])], "finding super 5\n"),
    (&[(48, &[1, 0, 0x40])], "finding super 5\n"),
    (&[(80, &[2])], "finding super 6\n"),
    (&[(76, &[17])], "finding super 6\n"),
    (&[(92, &[0, 0])], "finding super 7\n"),
    (&[(94, &[1, 0])], "finding super 7\n"),
    (&[(104, &[0, 2])], "finding super 8\n"),
    (&[(120, &[1, 0])], "finding super 9\n"),
    (&[(128, &[2, 2])], "finding super 10\n"),
    (&[(124, &[0, 0, 0, 0, 0, 0, 1, 0])], "finding super 10\n"),
    (&[(64, &[1]), (36, b"BIGE")], "finding super 2\n"),
];

// How many of these changes are refused with their line, before the first that isn't.
fn count_refused(
    rt: &HostRuntime,
    cases: &[(&[(usize, &[u8])], &str)],
) -> Result<usize, AllocError> {
    for at in 0..cases.len() {
        let (changes, line) = cases[at];
        if !refuses(rt, &["label", "new"], changes, 3, line)? {
            return Ok(at);
        }
    }
    Ok(cases.len())
}

#[test]
fn the_first_broken_field_is_found(rt: HostRuntime) -> Result<(), Fail> {
    assert_eq!(rt; count_refused(&rt, &BROKEN)?, 18);
    Ok(())
}

#[test]
fn a_busy_log_and_a_short_disk_are_told(rt: HostRuntime) -> Result<(), Fail> {
    let busy: [(usize, &[u8]); 2] = [(96, &[7]), (104, &[8])];
    assert!(rt; refuses(&rt, &["label", "new"], &busy, 11, "log 7 8\n")?);
    for (length, line) in [(0, "finding short 0 2\n"), (512, "finding short 1 2\n")] {
        let bytes = zeros(rt.alloc(), length)?;
        assert!(rt; tells(&rt, &["label", "new"], bytes, 3, line.as_bytes())?);
    }
    Ok(())
}

// The status with a disk of one sector of zeros.
fn status_on_sector(rt: &HostRuntime, texts: &[&str], out: &mut MemSink) -> Result<u8, AllocError> {
    let bytes = zeros(rt.alloc(), 512)?;
    let (status, _left) = run_bytes(rt, texts, bytes, out)?;
    Ok(status)
}

// The status where the output takes no byte.
fn status_when_full(rt: &HostRuntime, texts: &[&str]) -> Result<u8, AllocError> {
    let mut out = Mem::full_sink(rt.alloc(), 0);
    status_on_sector(rt, texts, &mut out)
}

// The status of no words where the output fails the first call.
fn status_when_failing(rt: &HostRuntime) -> Result<u8, AllocError> {
    let alloc = rt.alloc();
    let mut out = Mem::failing_sink(alloc, vec![in alloc; 1]?);
    status_on_sector(rt, &[], &mut out)
}

#[test]
fn a_failed_call_and_a_full_sink_are_told(rt: HostRuntime) -> Result<(), Fail> {
    let alloc = rt.alloc();
    for call in 1..6 {
        let told = run_failing(&rt, &["label", "new"], volume(alloc, &[])?, call)?;
        assert!(rt; told == if call < 5 { [4, 1, 0] } else { [0, 0, 0] });
    }
    assert_eq!(rt; status_when_full(&rt, &[])?, 6);
    assert_eq!(rt; status_when_full(&rt, &["label", "new"])?, 3);
    assert_eq!(rt; status_when_failing(&rt)?, 6);
    Ok(())
}

// The next of a sequence of numbers.
fn next(x: u64) -> u64 {
    x.wrapping_mul(6364136223846793005)
        .wrapping_add(1442695040888963407)
}

// The volume with a superblock of other numbers. From the third case on the magic numbers stay, so that the later conditions are reached.
fn spoil(bytes: &mut [u8], case: u64, x: &mut u64) {
    for at in 0..512 {
        *x = next(*x);
        let byte = match case {
            0 => 0xff,
            1 => 0,
            _ => (*x >> 56) as u8,
        };
        if case < 2 || at >= 48 && at < 68 || at >= 72 && at < 112 || at >= 116 {
            put(bytes, at, &[byte]);
        }
    }
}

// The status of `label` on a volume that is spoiled so.
fn status_of_spoiled(rt: &HostRuntime, case: u64, x: &mut u64) -> Result<u8, AllocError> {
    let mut bytes = volume(rt.alloc(), &[])?;
    spoil(&mut bytes, case, x);
    let mut out = Mem::sink(rt.alloc());
    let (status, _left) = run_bytes(rt, &["label", "new"], bytes, &mut out)?;
    Ok(status)
}

#[test]
fn any_sector_gets_an_answer(rt: HostRuntime) -> Result<(), Fail> {
    let mut x = 7;
    for case in 0..64 {
        assert_eq!(rt; status_of_spoiled(&rt, case, &mut x)?, 3);
    }
    Ok(())
}
