// A cache over disks in memory that count their calls: one stops after so many, one fails at a call with a given number. A block
// has 1,024 bytes here, and each byte of block k is k.
ghost use Rattle.std.specs.Prelude.{◌≡◌, ◌≤◌, ◌<◌, length, IfOk};
ghost use Rattle.bfs_disk.specs.Disk.{HasSectors};
ghost use Rattle.bfs_cache.specs.Agreement.{Agrees};

use bfs_cache::Cache;
use bfs_disk::{Disk, Failed, MemDisk, Stopping};
use std::alloc::{AllocError, Global};
use std::test::Fail;

// The bytes of four blocks.
fn filled(alloc: Global, size: usize) -> Result<Vec<u8>, AllocError>
    requires { size ≡ 4096 }
    ensures { IfOk result (λ v. length v.items ≡ 4096) }
{
    let mut bytes = vec![in alloc; 0u8; size]?;
    bytes[1024..].fill(1);
    bytes[2048..].fill(2);
    bytes[3072..].fill(3);
    Ok(bytes)
}

// Reads a block, and answers its last byte.
fn last_byte<D: Disk>(cache: &mut Cache, disk: &mut D, block: u64) -> Result<u8, Failed>
    requires low { block < 4 }
    requires sectors { HasSectors (D.size disk.old) 8 }
    requires agrees { Agrees (D.state disk.old) 2 cache.old.kept }
    ensures agrees { Agrees (D.state disk.new) 2 cache.new.kept }
    ensures size { D.size disk.new ≡ D.size disk.old }
{
    let mut into = [9; 1024];
    match cache.read(disk, block, &mut into) {
        Ok(()) => Ok(into[1023]),
        Err(failed) => Err(failed),
    }
}

#[test]
fn a_block_that_is_read_twice_takes_one_disk_call(rt: HostRuntime) -> Result<(), Fail> {
    let alloc = rt.alloc();
    let mut disk = Stopping::after(MemDisk::new(alloc, filled(alloc, 4096)?), 1);
    let mut cache = Cache::new(alloc, 2)?;
    assert!(rt; !cache.has(3));
    assert_eq!(rt; last_byte(&mut cache, &mut disk, 3), Ok(3));
    assert!(rt; cache.has(3));
    assert_eq!(rt; last_byte(&mut cache, &mut disk, 3), Ok(3));
    assert_eq!(rt; cache.unkept(), 0);
    assert_eq!(rt; last_byte(&mut cache, &mut disk, 1), Err(Failed));
    Ok(())
}

#[test]
fn the_block_that_was_read_the_longest_ago_goes(rt: HostRuntime) -> Result<(), Fail> {
    let alloc = rt.alloc();
    let mut disk = MemDisk::new(alloc, filled(alloc, 4096)?);
    let mut cache = Cache::new(alloc, 2)?;
    assert_eq!(rt; last_byte(&mut cache, &mut disk, 1), Ok(1));
    assert_eq!(rt; last_byte(&mut cache, &mut disk, 2), Ok(2));
    assert_eq!(rt; last_byte(&mut cache, &mut disk, 1), Ok(1));
    assert_eq!(rt; last_byte(&mut cache, &mut disk, 3), Ok(3));
    assert_eq!(rt; cache.len(), 2);
    assert!(rt; cache.has(1));
    assert!(rt; !cache.has(2));
    assert!(rt; cache.has(3));
    Ok(())
}

#[test]
fn a_forgotten_block_is_read_again(rt: HostRuntime) -> Result<(), Fail> {
    let alloc = rt.alloc();
    let mut disk = MemDisk::new(alloc, filled(alloc, 4096)?);
    let mut cache = Cache::new(alloc, 2)?;
    assert_eq!(rt; last_byte(&mut cache, &mut disk, 2), Ok(2));
    cache.forget(2);
    assert!(rt; cache.is_empty());
    assert!(rt; disk.write(5, &[7; 512]).is_ok());
    assert_eq!(rt; last_byte(&mut cache, &mut disk, 2), Ok(7));
    Ok(())
}

#[test]
fn a_disk_call_that_fails_leaves_the_cache_as_it_was(rt: HostRuntime) -> Result<(), Fail> {
    let alloc = rt.alloc();
    let plan = vec![in alloc; 2u64]?;
    let mut disk = MemDisk::failing(alloc, filled(alloc, 4096)?, plan);
    let mut cache = Cache::new(alloc, 1)?;
    assert_eq!(rt; last_byte(&mut cache, &mut disk, 1), Ok(1));
    assert_eq!(rt; last_byte(&mut cache, &mut disk, 2), Err(Failed));
    assert!(rt; cache.has(1));
    assert_eq!(rt; cache.len(), 1);
    assert_eq!(rt; last_byte(&mut cache, &mut disk, 2), Ok(2));
    assert!(rt; !cache.has(1));
    Ok(())
}

#[test]
fn a_cache_for_no_blocks_keeps_none(rt: HostRuntime) -> Result<(), Fail> {
    let alloc = rt.alloc();
    let mut disk = Stopping::after(MemDisk::new(alloc, filled(alloc, 4096)?), 1);
    let mut cache = Cache::new(alloc, 0)?;
    assert_eq!(rt; last_byte(&mut cache, &mut disk, 1), Ok(1));
    assert!(rt; cache.is_empty());
    assert_eq!(rt; last_byte(&mut cache, &mut disk, 1), Err(Failed));
    assert_eq!(rt; cache.unkept(), 0);
    Ok(())
}
