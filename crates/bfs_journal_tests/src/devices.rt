// Devices over disks in memory, on which nothing is sealed. The volume is made here by hand.
ghost use Rattle.std.specs.Prelude.{◌≡◌, ◌≤◌, ◌<◌, IsTrue, IfSome};
ghost use Rattle.bfs_super.specs.Conditions.{IsValid};
ghost use Rattle.bfs_device.specs.Layouts.{IsData, layout_of};
ghost use Rattle.bfs_device.specs.Seals.{adopted};

use crate::groups::is_data;
use bfs_device::Device;
use bfs_disk::{Disk, MemDisk};
use bfs_super::Super;
use std::alloc::{AllocError, Global};

// The fields of a volume with an empty log at a place. The log is behind the bitmap, and has the root and the indices behind it.
pub(crate) fn fields(shift: u32, blocks: i64, log_blocks: u16, place: i64) -> Super
    requires { shift ≤ 13 }
{
    let run = |start, len| bfs_bytes::Run {
        group: 0,
        start,
        len,
    };
    let size = 1u32 << shift;
    Super {
        name: [0; 32],
        magic1: 0x42465331,
        fs_byte_order: 0x42494745,
        block_size: size,
        block_shift: shift,
        num_blocks: blocks,
        used_blocks: 20,
        inode_size: size as i32,
        magic2: -586018767,
        blocks_per_ag: 1,
        ag_shift: shift as i32 + 3,
        num_ags: 1,
        flags: 0x434c454e,
        log_blocks: run(2, log_blocks),
        log_start: place,
        log_end: place,
        magic3: 0x15b6830e,
        root_dir: run(log_blocks.wrapping_add(2), 1),
        indices: run(log_blocks.wrapping_add(3), 1),
        rest: [0; 380],
    }
}

// A disk with the volume of the tests, of which block 16 is filled with fives. It fails at one of its calls, or at none.
pub(crate) fn disk_of(alloc: Global, call: u64, size: usize) -> Result<MemDisk, AllocError> {
    let mut bytes = vec![in alloc; 0u8; size]?;
    let sector = fields(10, 32, 12, 10).print();
    if bytes.len() != 32_768 {
        return Err(AllocError);
    }
    bytes[512..1024].copy_from_slice(&sector);
    bytes[16_384..17_408].fill(5);
    Ok(MemDisk::failing(alloc, bytes, Vec::from_slice(alloc, &[call])?))
}

fn has_empty_log(sup: Super) -> bool
    ensures { IsTrue result → sup.log_start ≡ sup.log_end }
{
    sup.log_start == sup.log_end
}

// A device over this disk with the volume of the tests, and its superblock.
pub(crate) fn opened_on<D: Disk + Drop>(alloc: Global, mut disk: D) -> Option<(Super, Device<D>)>
    ensures books { IfSome result (λ p. p.1.books ≡ adopted p.0) }
    ensures valid { IfSome result (λ p. IsValid p.0) }
    ensures size { IfSome result (λ p. p.0.block_size ≡ 1024) }
    ensures place { IfSome result (λ p. IsData (layout_of p.0) 16) }
    ensures below { IfSome result (λ p. 16 < (layout_of p.0).blocks) }
{
    let Ok(sup) = Super::parse(&fields(10, 32, 12, 10).print()) else {
        return None;
    };
    let Ok(sectors) = disk.sectors() else {
        return None;
    };
    let needed = u64::from(sup.block_size / 512).checked_mul(sup.geometry().blocks)?;
    if !has_empty_log(sup) {
        return None;
    }
    if sectors < needed || sup.block_size != 1024 || !is_data(&sup, 16) {
        return None;
    }
    match Device::adopt(alloc, disk, sup) {
        Ok(device) => Some((sup, device)),
        Err(_) => None,
    }
}
