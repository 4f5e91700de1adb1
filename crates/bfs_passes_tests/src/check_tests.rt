// Checks of disks that have no volume.
use bfs_check::{CheckFault, Verdict, check};
use bfs_disk::MemDisk;
use bfs_finding::Finding;
use bfs_super::SuperFault;
use std::alloc::{AllocError, Global};
use std::test::Fail;

fn zeros(alloc: Global, count: usize) -> Result<Vec<u8>, AllocError> {
    vec![in alloc; 0; count]
}

// What a check of so many zero bytes says, whose disk calls with these numbers fail.
fn checked(
    alloc: Global,
    length: usize,
    failing: Vec<u64>,
) -> Result<Option<Result<Verdict, CheckFault>>, AllocError> {
    let bytes = zeros(alloc, length)?;
    if bytes.len() % 512 != 0 {
        return Ok(None);
    }
    let mut disk = MemDisk::failing(alloc, bytes, failing);
    Ok(Some(check(alloc, &mut disk)))
}

#[test]
fn a_superblock_of_zeros_is_refused(rt: HostRuntime) -> Result<(), Fail> {
    let alloc = rt.alloc();
    let found = match checked(alloc, 1024, Vec::new(alloc))? {
        Some(Ok(Verdict::No(Finding::Super(fault)))) => Some(fault),
        _ => None,
    };
    assert_eq!(rt; found, Some(SuperFault::Magic { which: 1, found: 0 }));
    Ok(())
}

#[test]
fn one_sector_has_no_superblock(rt: HostRuntime) -> Result<(), Fail> {
    let alloc = rt.alloc();
    let fault = match checked(alloc, 512, Vec::new(alloc))? {
        Some(Err(fault)) => Some(fault),
        _ => None,
    };
    let short = CheckFault::Short {
        sectors: 1,
        needed: 2,
    };
    assert_eq!(rt; fault, Some(short));
    Ok(())
}

#[test]
fn each_disk_call_may_fail(rt: HostRuntime) -> Result<(), Fail> {
    let alloc = rt.alloc();
    for call in 1..3 {
        let fault = match checked(alloc, 1024, vec![in alloc; call]?)? {
            Some(Err(fault)) => Some(fault),
            _ => None,
        };
        let failed = CheckFault::Disk {
            before: 0,
            after: 1,
        };
        assert_eq!(rt; fault, Some(failed));
    }
    Ok(())
}
