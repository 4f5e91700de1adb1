// New volumes on disks in memory. The expected bytes are those of the format for a volume of 4,096 blocks of 1,024 bytes
// that is made when the clock stands at 1,000 seconds.
use bfs_disk::{Disk, MemDisk, Stopping};
use bfs_mkfs::{format, layout_of};
use bfs_super::TooSmall;
use std::alloc::{AllocError, Global};
use std::test::Fail;

const STAMP: i64 = 65_536_000;

fn bytes_of(alloc: Global, count: usize, byte: u8) -> Result<Vec<u8>, AllocError> {
    vec![in alloc; byte; count]
}

// Formats a disk that is large enough with 4,096 blocks of 1,024 bytes, and tells whether it worked.
fn make<D: Disk>(alloc: Global, disk: &mut D) -> bool {
    let Ok(geometry) = layout_of(4096, 1024) else {
        return false;
    };
    let Ok(sectors) = disk.sectors() else {
        return false;
    };
    if sectors < geometry.blocks * u64::from(geometry.block_size / 512) {
        return false;
    }
    format(alloc, disk, &geometry, b"untitled", STAMP).is_ok()
}

// Do these bytes stand at this place?
pub(crate) fn has(bytes: &[u8], at: usize, field: &[u8]) -> bool {
    at <= bytes.len() && field.len() <= bytes.len() - at && &bytes[at..at + field.len()] == field
}

// Are all bytes between two places zero?
fn is_zero(bytes: &[u8], from: usize, to: usize) -> bool {
    from <= to && to <= bytes.len() && bytes[from..to].iter().all(|b| *b == 0)
}

// The place of the first field that doesn't stand there.
fn first_without(bytes: &[u8], cases: &[(usize, &[u8])]) -> Option<usize> {
    for (at, field) in cases {
        if !has(bytes, *at, field) {
            return Some(*at);
        }
    }
    None
}

#[test]
fn a_new_volume_has_the_bytes_of_the_format(rt: HostRuntime) -> Result<(), Fail> {
    let alloc = rt.alloc();
    let zeros = bytes_of(alloc, 4_194_304, 0)?;
    assert_eq!(rt; zeros.len(), 4_194_304);
    let mut disk = MemDisk::new(alloc, zeros);
    assert!(rt; make(alloc, &mut disk));
    let bytes = disk.bytes();
    let root = 514 * 1024;
    let cases: [(usize, &[u8]); 27] = [
        (512, b"untitled"),
        (544, b"1SFBEGIB"),
        (552, &[0, 4, 0, 0, 10, 0, 0, 0]),
        (560, &[0, 16, 0, 0, 0, 0, 0, 0]),
        (568, &[0x11, 2, 0, 0, 0, 0, 0, 0]),
        (576, &[0, 4, 0, 0, 0x31, 0x10, 0x12, 0xdd]),
        (584, &[1, 0, 0, 0, 13, 0, 0, 0, 1, 0, 0, 0]),
        (596, b"NELC"),
        (600, &[0, 0, 0, 0, 2, 0, 0, 2]),
        (624, &[0x0e, 0x83, 0xb6, 0x15]),
        (628, &[0, 0, 0, 0, 2, 2, 1, 0]),
        (636, &[0, 0, 0, 0, 5, 2, 1, 0]),
        (1024, &[0xff; 66]),
        (1090, &[1, 0]),
        (root, &[0xd9, 0x0a, 0xbe, 0x3b, 0, 0, 0, 0, 2, 2, 1, 0]),
        (root + 20, &[0xed, 0x41, 0, 0, 1, 0, 0, 0]),
        (
            root + 28,
            &[0, 0, 0xe8, 3, 0, 0, 0, 0, 0, 0, 0xe8, 3, 0, 0, 0, 0],
        ),
        (root + 72, &[0, 0, 0, 0, 3, 2, 2, 0]),
        (root + 168, &[0, 8, 0, 0, 0, 0, 0, 0]),
        (root + 208, &[0, 8, 0, 0, 0, 0, 0, 0]),
        (
            root + 1024,
            &[0xe8, 0xc2, 0xf6, 0x69, 0, 4, 0, 0, 1, 0, 0, 0, 0, 0, 0, 0],
        ),
        (
            root + 1040,
            &[
                0, 4, 0, 0, 0, 0, 0, 0, 255, 255, 255, 255, 255, 255, 255, 255, 0, 8, 0, 0, 0, 0,
                0, 0,
            ],
        ),
        (root + 2048, &[255; 24]),
        (root + 2072, &[2, 0, 3, 0, b'.', b'.', b'.', 0, 1, 0, 3, 0]),
        (
            root + 2084,
            &[2, 2, 0, 0, 0, 0, 0, 0, 2, 2, 0, 0, 0, 0, 0, 0],
        ),
        (519 * 1024 + 24, &[3, 0, 21, 0]),
        (519 * 1024 + 28, b"last_modifiednamesize"),
    ];
    assert_eq!(rt; first_without(&bytes, &cases), None);
    assert!(rt;
        is_zero(&bytes, 520, 544) && is_zero(&bytes, 608, 624) && is_zero(&bytes, 644, 1024)
    );
    assert!(rt;
        is_zero(&bytes, 0, 512)
            && is_zero(&bytes, 1091, 2048)
            && is_zero(&bytes, 529 * 1024, 4_194_304)
    );
    Ok(())
}

// Makes a volume on a disk that stops after so many calls: whether it is done, and whether a crash leaves the superblock and the root.
fn made_until(alloc: Global, calls: u64) -> Result<[bool; 3], AllocError> {
    let other = bytes_of(alloc, 4_194_304, 0x7e)?;
    if other.len() != 4_194_304 {
        return Err(AllocError);
    }
    let mut disk = Stopping::after(MemDisk::new(alloc, other), calls);
    let done = make(alloc, &mut disk);
    let image = disk.inner().crash(u64::MAX)?;
    Ok([
        done,
        has(&image, 544, b"1SFBEGIB"),
        has(&image, 514 * 1024, &[0xd9, 0x0a, 0xbe, 0x3b]),
    ])
}

#[test]
fn a_stop_leaves_no_volume_or_the_whole_one(rt: HostRuntime) -> Result<(), Fail> {
    let alloc = rt.alloc();
    for calls in 1..9 {
        let [done, there, root] = made_until(alloc, calls)?;
        // the seventh call writes the superblock
        assert_eq!(rt; (done, there), (calls >= 8, calls >= 7));
        assert!(rt; there == root || calls >= 5);
    }
    Ok(())
}

#[test]
fn layouts_have_the_numbers_of_the_format(rt: HostRuntime) -> Result<(), Fail> {
    // blocks, block size, groups, shift, bitmap blocks of a group, the log's first block and length, used blocks
    let cases = [
        (529, 1024, 1, 13, 1, 2, 512, 529),
        (4096, 1024, 1, 13, 1, 2, 512, 529),
        (20_480, 1024, 3, 13, 1, 4, 512, 531),
        (20_481, 1024, 3, 13, 1, 4, 2048, 2067),
        (524, 8192, 1, 16, 1, 2, 512, 524),
        (458_752, 1024, 56, 13, 1, 57, 2048, 2120),
        (458_753, 1024, 29, 14, 2, 58, 2048, 2121),
        (4_194_304, 1024, 64, 16, 8, 513, 2048, 2576),
    ];
    for (blocks, size, groups, shift, per_group, log, length, used) in cases {
        if size != 1024 && size != 8192 || blocks > 4_194_304 {
            continue;
        }
        let Ok(geometry) = layout_of(blocks, size) else {
            assert!(rt; false, "at {blocks}");
            continue;
        };
        assert_eq!(rt; geometry.groups, groups, "groups at {blocks}");
        assert_eq!(rt; geometry.shift, shift, "shift at {blocks}");
        assert_eq!(rt; geometry.per_group, per_group, "bitmap blocks at {blocks}");
        assert_eq!(rt; geometry.log.start, log, "log at {blocks}");
        assert_eq!(rt; geometry.log.len, length, "length at {blocks}");
        assert_eq!(rt; geometry.used, used, "used at {blocks}");
    }
    assert!(rt;
        layout_of(528, 1024)
            == Err(TooSmall {
                have: 528,
                need: 529
            })
    );
    Ok(())
}
