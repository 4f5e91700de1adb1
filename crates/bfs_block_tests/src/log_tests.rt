// Entries by hand, entries that were written, and blocks of any bytes.
ghost use Rattle.std.specs.Prelude.{◌≡◌, ◌≤◌, ◌<◌, length, IfSome};
ghost use Rattle.bfs_log.specs.Entry.{IsPlace};

use bfs_bytes::Run;
use bfs_log::{EntryFault, Place, log_entry, log_print, ring_next, ring_used};
use bfs_super::Super;
use std::test::Fail;

// The superblock of a volume of 4,096 blocks of 1,024 bytes, with the log at 2 to 513.
const SUPER: [(usize, &[u8]); 12] = [
    (0, &[0x75, 0x6e, 0x74, 0x69, 0x74, 0x6c, 0x65, 0x64]),
    (32, &[0x31, 0x53, 0x46, 0x42, 0x45, 0x47, 0x49, 0x42]),
    (40, &[0, 4, 0, 0, 0x0a, 0, 0, 0, 0, 0x10]),
    (56, &[0x11, 2, 0, 0, 0, 0, 0, 0]),
    (64, &[0, 4, 0, 0, 0x31, 0x10, 0x12, 0xdd]),
    (72, &[1, 0, 0, 0, 0x0d, 0, 0, 0, 1, 0, 0, 0]),
    (84, &[0x4e, 0x45, 0x4c, 0x43]),
    (88, &[0, 0, 0, 0, 2, 0, 0, 2]),
    (112, &[0x0e, 0x83, 0xb6, 0x15]),
    (116, &[0, 0, 0, 0, 2, 2, 1, 0]),
    (124, &[0, 0, 0, 0, 5, 2, 1, 0]),
    (132, &[]),
];

fn put_parts(bytes: &mut [u8], parts: &[(usize, &[u8])]) {
    for (at, part) in parts {
        let mut place = *at;
        for byte in *part {
            if place < bytes.len() {
                bytes[place] = *byte;
                place += 1;
            }
        }
    }
}

fn place_in_log(start: u64, end: u64) -> Option<Place>
    ensures { IfSome result IsPlace }
{
    let mut sector = [0u8; 512];
    put_parts(&mut sector, &SUPER);
    match Super::parse(&sector) {
        Err(_) => None,
        Ok(sup) => {
            let geometry = sup.geometry();
            let length = u64::from(geometry.log.len);
            if length <= start || length <= end {
                return None;
            }
            Some(Place {
                geometry,
                length,
                start,
                end,
            })
        }
    }
}

fn run(group: i32, start: u16, len: u16) -> Run {
    Run { group, start, len }
}

// Prints an entry where its blocks are of the volume, and reads it again.
fn printed(place: &Place, blocks: &[u64]) -> Option<(usize, Run, Run)>
    requires { IsPlace place.now }
{
    let last = place.geometry.blocks;
    if blocks.is_empty() || blocks.len() > 126 || !blocks.iter().all(|b| *b < last) {
        return None;
    }
    let mut block = [0u8; 1024];
    log_print(&mut block, blocks, place);
    match log_entry(&block, place) {
        Err(_) => None,
        Ok(found) => {
            if found.count == 0 || found.count > 126 {
                return None;
            }
            Some((
                found.count,
                found.runs[found.count - 1],
                found.runs[found.count],
            ))
        }
    }
}

#[test]
fn an_entry_of_1_and_of_126_blocks_is_read_as_it_was_written(rt: HostRuntime) -> Result<(), Fail> {
    let place = place_in_log(0, 511).ok_or("no place")?;
    let none = run(0, 0, 0);
    assert_eq!(rt; printed(&place, &[514]), Some((1, run(0, 514, 1), none)));
    let mut many = [0u64; 126];
    for i in 0..126 {
        many[i] = 4095 - i as u64;
    }
    assert_eq!(rt; printed(&place, &many), Some((126, run(0, 3970, 1), none)));
    let full = place_in_log(511, 126).ok_or("no place")?;
    assert_eq!(rt; printed(&full, &many), Some((126, run(0, 3970, 1), none)));
    let short = place_in_log(511, 125).ok_or("no place")?;
    assert_eq!(rt; printed(&short, &many), None);
    Ok(())
}

#[test]
fn an_array_block_has_count_127_and_a_run_for_each_block(rt: HostRuntime) -> Result<(), Fail> {
    let place = place_in_log(0, 511).ok_or("no place")?;
    let blocks = [514, 4095];
    let last = place.geometry.blocks;
    assert!(rt; blocks.iter().all(|b| *b < last));
    let mut block = [0xffu8; 1024];
    let bytes = [
        2, 0, 0, 0, 0x7f, 0, 0, 0, 0, 0, 0, 0, 2, 2, 1, 0, 0, 0, 0, 0, 0xff, 0x0f, 1, 0, 0, 0,
    ];
    if blocks[0] < last && blocks[1] < last {
        log_print(&mut block, &blocks, &place);
    }
    assert!(rt; block.starts_with(&bytes));
    assert!(rt; block[24..].iter().all(|b| *b == 0));
    Ok(())
}

#[test]
fn each_fault_has_its_cause_and_comes_in_its_order(rt: HostRuntime) -> Result<(), Fail> {
    let place = place_in_log(0, 1).ok_or("no place")?;
    let count = |count, max_runs| EntryFault::Count { count, max_runs };
    let bad = |group, start, len| EntryFault::RunPlace {
        run: Run { group, start, len },
    };
    let zeros: &[u8] = &[];
    let no_run: &[u8] = &[1, 0, 0, 0, 126];
    let past_end: &[u8] = &[1, 0, 0, 0, 126, 0, 0, 0, 0, 0, 0, 0, 0x58, 2, 1];
    let block_0: &[u8] = &[1, 0, 0, 0, 126, 0, 0, 0, 0, 0, 0, 0, 0, 0, 1];
    let of_log: &[u8] = &[1, 0, 0, 0, 1, 0, 0, 0, 0, 0, 0, 0, 1, 0, 2];
    let group_1: &[u8] = &[1, 0, 0, 0, 1, 0, 0, 0, 1, 0, 0, 0, 0, 0, 1];
    let minus_1: &[u8] = &[1, 0, 0, 0, 1, 0, 0, 0, 255, 255, 255, 255, 2, 2, 1];
    let past_volume: &[u8] = &[1, 0, 0, 0, 1, 0, 0, 0, 0, 0, 0, 0, 0xff, 0x0f, 2];
    let many: &[u8] = &[128, 0, 0, 0, 128];
    let below: &[u8] = &[2, 0, 0, 0, 1];
    let negative: &[u8] = &[255, 255, 255, 255, 127];
    let rows = [
        (zeros, count(0, 0)),
        (many, count(128, 128)),
        (below, count(2, 1)),
        (negative, count(-1, 127)),
        (no_run, bad(0, 0, 0)),
        (block_0, bad(0, 0, 1)),
        (of_log, bad(0, 1, 2)),
        (group_1, bad(1, 0, 1)),
        (minus_1, bad(-1, 514, 1)),
        (past_volume, bad(0, 4095, 2)),
        (past_end, EntryFault::PastEnd { blocks: 2, room: 1 }),
    ];
    for (head, fault) in rows {
        let mut block = [0u8; 1024];
        put_parts(&mut block, &[(0, head)]);
        match log_entry(&block, &place) {
            Ok(_) => assert!(rt; false),
            Err(found) => assert_eq!(rt; found, fault),
        }
    }
    Ok(())
}

#[test]
fn the_ring_wraps_at_its_length(rt: HostRuntime) {
    for (at, by, length, next) in [
        (0u64, 1u64, 512u64, 1u64),
        (511, 1, 512, 0),
        (510, 3, 512, 1),
        (0, 512, 512, 0),
        (65534, 65535, 65535, 65534),
        (1, 1, 2, 0),
    ] {
        if at < length && by <= length && length <= 65535 {
            assert_eq!(rt; ring_next(at, by, length), next);
        }
    }
    for (start, end, length, used) in [
        (0u64, 0u64, 512u64, 0u64),
        (0, 511, 512, 511),
        (511, 0, 512, 1),
        (7, 6, 512, 511),
        (65534, 65533, 65535, 65534),
    ] {
        if start < length && end < length && length <= 65535 {
            assert_eq!(rt; ring_used(start, end, length), used);
        }
    }
}

#[test]
fn a_block_of_any_bytes_has_an_answer(rt: HostRuntime) -> Result<(), Fail> {
    let place = place_in_log(500, 200).ok_or("no place")?;
    let mut state = 7u64;
    let mut read = 0u32;
    for _ in 0..1000 {
        let mut block = [0u8; 1024];
        for byte in block.iter_mut() {
            state = state
                .wrapping_mul(6364136223846793005)
                .wrapping_add(1442695040888963407);
            let drawn = (state >> 56) as u8;
            *byte = if drawn < 160 { 0 } else { drawn & 15 };
        }
        block[0] &= 3;
        block[4] = 127;
        if log_entry(&block, &place).is_ok() {
            read = read.wrapping_add(1);
        }
    }
    assert!(rt; read < 1000);
    Ok(())
}
