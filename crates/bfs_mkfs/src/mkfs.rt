// Formats a disk.
ghost use Rattle.std.specs.Prelude.{◌≡◌, ◌⊎◌, ◌≤◌, ◌<◌, ◌+◌, ◌*◌, ◌/◌, ℕ, List, length, OnOk, IfErr};
ghost use Rattle.bfs_base.specs.Counts.{Rose};
ghost use Rattle.bfs_base.specs.Moments.{Passed};
ghost use Rattle.bfs_disk.specs.State.{State, Tells, Holds, IsQuiet, ReadsAs};
ghost use Rattle.bfs_disk.specs.Disk.{HasSectors};
ghost use Rattle.bfs_super.specs.Label.{IsLabel};
ghost use Rattle.bfs_mkfs.specs.Laid.{IsPlanned};
ghost use Rattle.bfs_mkfs.specs.Format.{IsNew, IsRefused, HasCauseIn};

use crate::steps::write_volume;
use crate::volume::{bitmap, superblock, trees};
use bfs_disk::Disk;
use bfs_super::Geometry;
use std::alloc::Global;
use thiserror::Error;

/// Why a volume could not be formatted.
#[derive(Clone, Copy, Debug, PartialEq, Eq, Error)]
pub enum FormatFault {
    /// A disk call failed: the disk's count of faults rose from one number to the other.
    #[error("a disk call failed")]
    Disk { before: u64, after: u64 },
    #[error("no memory was found")]
    NoMemory,
}

/// Makes the disk a new, empty volume with this layout, label and stamp (seconds in the upper 48 bits).
///
/// All memory is taken before the disk is touched. Blocks that are neighbours go in one disk call: the superblock's
/// sector is cleared, then come the bitmap and the five trees, and last the superblock, with a barrier after each.
pub fn format<D: Disk>(
    alloc: Global,
    disk: &mut D,
    geometry: &Geometry,
    label: &[u8],
    stamp: i64,
) -> Result<(), FormatFault>
    requires plan { IsPlanned geometry.now }
    requires label { IsLabel label.now }
    requires room { HasSectors (D.size disk.old) (geometry.now.blocks * (geometry.now.block_size / 512)) }

    // At Ok the disk is quiet and reads as the new volume, which is whole with the empty tree.
    ensures made { (image : List ℕ) → Tells (D.state disk.old) (Holds image)
        → OnOk result (Tells (D.state disk.new) (λ s. IsQuiet s × ((c : List ℕ) → ReadsAs s c → IsNew geometry.now label.now stamp c))) }

    // A crash at any moment leaves the old image, one whose superblock is refused, or the new volume; so it is for the
    // moments since an earlier one.
    ensures time { (image : List ℕ) → Tells (D.state disk.old) (Holds image)
        → Passed (D.clock disk.old) (D.clock disk.new) (D.since disk.old) (D.since disk.new) (λ c. (c ≡ image) ⊎ (IsRefused c ⊎ IsNew geometry.now label.now stamp c)) }
    ensures moments { (image : List ℕ) → Tells (D.state disk.old) (Holds image) → (c : List ℕ) → D.since disk.new (D.clock disk.old) c
        → (c ≡ image) ⊎ (IsRefused c ⊎ IsNew geometry.now label.now stamp c) }

    // Want of memory leaves the disk as it was. A failed disk has its cause in a count that rose.
    ensures untouched { IfErr result (λ fault. fault ≡ FormatFault.NoMemory → D.state disk.new ≡ D.state disk.old) }
    ensures size { D.size disk.new ≡ D.size disk.old }
    ensures clock { D.clock disk.old ≤ D.clock disk.new }
    ensures later { D.faults disk.old ≤ D.faults disk.new }
    ensures cause { IfErr result (HasCauseIn (D.faults disk.old) (D.faults disk.new)) }
{
    let Ok(bitmap) = bitmap(alloc, *geometry) else {
        return Err(FormatFault::NoMemory);
    };
    let Ok(trees) = trees(alloc, *geometry, stamp) else {
        return Err(FormatFault::NoMemory);
    };
    let block = superblock(*geometry, label).print();
    let at = u64::from(geometry.block_size / 512);
    let before = disk.faults();
    match write_volume(disk, &block, at, &bitmap, at * geometry.root, &trees) {
        Ok(()) => Ok(()),
        Err(_) => Err(FormatFault::Disk {
            before,
            after: disk.faults(),
        }),
    }
}
