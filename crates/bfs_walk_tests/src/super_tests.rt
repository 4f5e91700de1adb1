// Superblocks by hand.
use bfs_bytes::{Run, put_run, put_u32};
use bfs_finding::{Finding, fault_number};
use bfs_super_check::{check_log, check_super, check_used};
use std::test::Fail;

fn run(group: i32, start: u16, len: u16) -> Run {
    Run { group, start, len }
}

/// The sector of a volume of 20,480 blocks, which counts 700 used blocks, with another number at this byte.
fn sector_with(at: usize, value: u32) -> [u8; 512] {
    let mut sector = [0u8; 512];
    put_u32(&mut sector, 32, 0x42465331);
    put_u32(&mut sector, 36, 0x42494745);
    put_u32(&mut sector, 40, 1024);
    put_u32(&mut sector, 44, 10);
    put_u32(&mut sector, 48, 20480);
    put_u32(&mut sector, 56, 700);
    put_u32(&mut sector, 64, 1024);
    put_u32(&mut sector, 68, 0xdd121031);
    put_u32(&mut sector, 72, 1);
    put_u32(&mut sector, 76, 13);
    put_u32(&mut sector, 80, 3);
    put_run(&mut sector, 88, run(0, 4, 512));
    put_u32(&mut sector, 112, 0x15b6830e);
    put_run(&mut sector, 116, run(0, 600, 1));
    put_run(&mut sector, 124, run(0, 601, 1));
    if at <= 508 {
        put_u32(&mut sector, at, value);
    }
    sector
}

/// The number of the condition that the superblock breaks, or 0.
fn refusal_of(at: usize, value: u32) -> u8 {
    match check_super(&sector_with(at, value)) {
        Ok(_) => 0,
        Err(Finding::Super(fault)) => fault_number(fault),
        Err(_) => 99,
    }
}

/// The places of a log that isn't empty.
fn log_of(at: usize, value: u32) -> Option<(i64, i64)> {
    match check_super(&sector_with(at, value)) {
        Ok(sup) => match check_log(&sup) {
            Err(Finding::Log { start, end }) => Some((start, end)),
            _ => None,
        },
        Err(_) => None,
    }
}

/// The count of used blocks, and the one that is wanted.
fn used_of(at: usize, value: u32, count: u64) -> Option<(i64, u64)> {
    match check_super(&sector_with(at, value)) {
        Ok(sup) => match check_used(&sup, count) {
            Err(Finding::Used { found, wanted }) => Some((found, wanted)),
            _ => None,
        },
        Err(_) => None,
    }
}

#[test]
fn each_condition_has_its_finding(rt: HostRuntime) -> Result<(), Fail> {
    let rows: [(usize, u32, u8); 11] = [
        (512, 0, 0),
        (32, 1, 1),
        (36, 1, 2),
        (44, 11, 3),
        (64, 2048, 4),
        (48, 0, 5),
        (80, 2, 6),
        // the log has one block
        (92, 0x0001_0004, 7),
        (96, 512, 8),
        // the root stands in the log, and the index directory where the root stands
        (120, 0x0001_0004, 9),
        (128, 0x0001_0258, 10),
    ];
    for (at, value, wanted) in rows {
        assert_eq!(rt; refusal_of(at, value), wanted);
    }
    Ok(())
}

#[test]
fn a_log_with_blocks_and_a_wrong_count_are_found(rt: HostRuntime) -> Result<(), Fail> {
    assert_eq!(rt; log_of(512, 0), None);
    assert_eq!(rt; log_of(96, 3), Some((3, 0)));
    assert_eq!(rt; log_of(104, 7), Some((0, 7)));
    assert_eq!(rt; used_of(512, 0, 700), None);
    assert_eq!(rt; used_of(512, 0, 699), Some((700, 699)));
    // the count is -4294966596
    assert_eq!(rt; used_of(60, 0xffff_ffff, 700), Some((-4294966596, 700)));
    Ok(())
}
