// Images of new volumes of 1,024 bytes a block.
ghost use Rattle.std.specs.Prelude.{◌≡◌, ◌≤◌, ◌*◌, IfOk, IfSome, length};
ghost use Rattle.bfs_super.specs.Conditions.{IsValid};

use bfs_disk::{Disk, MemDisk};
use bfs_mkfs::{format, layout_with_log};
use bfs_super::Super;
use std::alloc::{AllocError, Global};

/// Formats a disk that is large enough with so many blocks of 1,024 bytes and a log of so many, and tells whether it worked.
fn formats(alloc: Global, disk: &mut MemDisk, blocks: u64, log: u16) -> bool
    requires few { blocks ≤ 4194304 }
    requires low { 2 ≤ log }
    requires high { log ≤ 2048 }
{
    let Ok(geometry) = layout_with_log(blocks, 1024, log) else {
        return false;
    };
    let Ok(sectors) = disk.sectors() else {
        return false;
    };
    if sectors < geometry.blocks * u64::from(geometry.block_size / 512) {
        return false;
    }
    format(alloc, disk, &geometry, b"untitled", 65_536_000).is_ok()
}

/// The bytes of a new volume of so many blocks of 1,024 bytes, with a log of so many; none where they can't be had.
pub fn new_volume(alloc: Global, blocks: u64, log: u16) -> Result<Option<Vec<u8>>, AllocError>
    requires some { 1 ≤ blocks }
    requires few { blocks ≤ 4096 }
    requires low { 2 ≤ log }
    requires high { log ≤ 2048 }
    ensures { IfOk result (λ found. IfSome found (λ image. length image.items ≡ 1024 * blocks)) }
{
    let bytes = vec![in alloc; 0u8; 1024 * blocks as usize]?;
    let mut disk = MemDisk::new(alloc, bytes);
    if !formats(alloc, &mut disk, blocks, log) {
        return Ok(None);
    }
    let image = disk.bytes();
    if image.len() != 1024 * blocks as usize {
        return Ok(None);
    }
    Ok(Some(image))
}

/// The image of a new volume of 4,096 blocks of 1,024 bytes.
pub fn new_image(alloc: Global) -> Result<Vec<u8>, AllocError>
    ensures { IfOk result (λ image. length image.items ≡ 4194304) }
{
    match new_volume(alloc, 4096, 512)? {
        Some(image) => Ok(image),
        None => Err(AllocError),
    }
}

/// The superblock of an image.
pub fn superblock_of(bytes: &[u8]) -> Option<Super>
    ensures valid { IfSome result IsValid }
{
    if bytes.len() < 1024 {
        return None;
    }
    let mut sector = [0u8; 512];
    sector.copy_from_slice(&bytes[512..1024]);
    Super::parse(&sector).ok()
}
