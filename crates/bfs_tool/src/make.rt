// The command `mk`: it lays the volume out, asks for the sectors and the time, and formats the disk.
ghost use Rattle.std.specs.Prelude.{◌≡◌, ◌⊎◌, ◌≤◌, ◌<◌, ◌*◌, ◌^◌, ℕ, pos, List};
ghost use Rattle.bfs_base.specs.Counts.{Rose};
ghost use Rattle.bfs_disk.specs.State.{State, Tells, Holds, IsQuiet, ReadsAs};
ghost use Rattle.bfs_mkfs.specs.Format.{IsRefused};
ghost use Rattle.bfs_super.specs.Geometry.{IsBlockSize};
ghost use Rattle.bfs_super.specs.Label.{IsLabel};
ghost use Rattle.bfs_tool.specs.Make.{MakesBy, IsNewVolume, IsMade, LeavesDisk, making_status, making_text};

use crate::line::Line;
use bfs_disk::Disk;
use bfs_mkfs::{FormatFault, format, layout_of};
use bfs_ports::Clock;
use itoa::Buffer;
use std::alloc::Global;

/// How `mk` ended.
#[derive(Clone, Copy)]
pub enum Making {
    /// A volume of so many blocks, and how many of them are in use.
    Made { blocks: u64, used: u64 },
    /// The volume has fewer blocks than it takes, or the disk fewer sectors.
    Small { have: u64, need: u64 },
    DiskFailed,
    NoMemory,
}

// The stamp of a second: it stands in the upper 48 bits.
fn stamp_at(seconds: u64) -> i64
    requires { seconds < 2 ^ 40 }
    ensures { result ≡ pos (seconds * 65536) }
{
    (seconds << 16).cast_signed()
}

/// Formats the disk with a new, empty volume.
pub fn make_volume<D: Disk, C: Clock>(
    alloc: Global,
    disk: &mut D,
    clock: &mut C,
    blocks: u64,
    block_size: u32,
    label: &[u8],
) -> Making
    requires size { IsBlockSize block_size }
    requires few { blocks ≤ 4194304 }
    requires label { IsLabel label.now }

    // The ending follows from the numbers, but for a failed disk and want of memory.
    ensures ends { MakesBy (D.size disk.new) blocks block_size result }
    ensures failed { result ≡ Making.DiskFailed → Rose (D.faults disk.old) (D.faults disk.new) }
    ensures later { D.faults disk.old ≤ D.faults disk.new }

    // A volume that was made is on the disk.
    ensures made { (image : List ℕ) → Tells (D.state disk.old) (Holds image) → IsMade result
        → Tells (D.state disk.new) (λ s. IsQuiet s × ((c : List ℕ) → ReadsAs s c → IsNewVolume blocks block_size label.now (C.stands clock.old) c)) }

    // A crash at any moment leaves the old image, one whose superblock is refused, or the new volume.
    ensures moments { (image : List ℕ) → Tells (D.state disk.old) (Holds image) → (c : List ℕ) → D.since disk.new (D.clock disk.old) c
        → (c ≡ image) ⊎ (IsRefused c ⊎ IsNewVolume blocks block_size label.now (C.stands clock.old) c) }
    ensures kept { LeavesDisk result → D.state disk.new ≡ D.state disk.old }
    ensures clock { D.clock disk.old ≤ D.clock disk.new }
{
    let geometry = match layout_of(blocks, block_size) {
        Ok(geometry) => geometry,
        Err(small) => {
            return Making::Small {
                have: small.have,
                need: small.need,
            };
        }
    };
    let sectors = match disk.sectors() {
        Ok(sectors) => sectors,
        Err(_) => return Making::DiskFailed,
    };
    let need = geometry.blocks * u64::from(geometry.block_size / 512);
    if sectors < need {
        return Making::Small {
            have: sectors,
            need,
        };
    }
    let stamp = stamp_at(clock.seconds());
    match format(alloc, disk, &geometry, label, stamp) {
        Ok(()) => Making::Made {
            blocks: geometry.blocks,
            used: geometry.used,
        },
        Err(FormatFault::Disk { .. }) => Making::DiskFailed,
        Err(FormatFault::NoMemory) => Making::NoMemory,
    }
}

impl Making {
    /// The status of the program.
    pub fn status(self) -> u8
        ensures { result ≡ making_status self }
    {
        match self {
            Making::Made { .. } => 0,
            Making::Small { .. } => 10,
            Making::DiskFailed => 4,
            Making::NoMemory => 7,
        }
    }

    /// What is printed.
    pub fn line(self) -> Line
        ensures { result ≡ making_text self }
    {
        let mut line = Line::new();
        let mut number = Buffer::new();
        match self {
            Making::Made { blocks, used } => {
                line.push(b"made ");
                line.push(number.format(blocks).as_bytes());
                line.push(b" used ");
                line.push(number.format(used).as_bytes());
                line.push(b"\n");
            }
            Making::Small { have, need } => {
                line.push(b"small ");
                line.push(number.format(have).as_bytes());
                line.push(b" ");
                line.push(number.format(need).as_bytes());
                line.push(b"\n");
            }
            Making::DiskFailed | Making::NoMemory => {}
        }
        line
    }
}
