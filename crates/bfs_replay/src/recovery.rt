// Recovers a volume.
ghost use Rattle.std.specs.Prelude.{◌≡◌, ◌≢◌, ◌≤◌, ◌<◌, ◌^◌, ℕ, List, length, Bool, IfOk, IfErr, None};
ghost use Rattle.bfs_base.specs.Counts.{Rose};
ghost use Rattle.bfs_base.specs.Moments.{Passed};
ghost use Rattle.bfs_disk.specs.State.{State, ReadsAs, Tells, Holds};
ghost use Rattle.bfs_disk.specs.Disk.{MayLeave, HasSectors, StaysKnown};
ghost use Rattle.bfs_super.specs.declared.sup.Super.{Super};
ghost use Rattle.bfs_super.specs.Conditions.{IsValid};
ghost use Rattle.bfs_super.specs.Layout.{super_at};
ghost use Rattle.bfs_log.specs.Replay.{Valid, super_of};
ghost use Rattle.bfs_replay.specs.Homing.{Reads};
ghost use Rattle.bfs_replay.specs.Steps.{sectors_of};
ghost use Rattle.bfs_replay.specs.Recover.{EndsIn, FindsIn, FitsDisk, GoesOn, HasCauseIn, IsEndingBy, IsJudged, IsMountFault, IsMountFaultBy, IsRecovered, IsSound, LeavesDisk};

use crate::calls::empty_log;
use crate::home::write_homes;
use crate::log::{Halt, check_log};
use bfs_disk::Disk;
use bfs_log::EntryFault;
use bfs_super::{Super, SuperFault};
use std::alloc::{AllocError, Global};
use thiserror::Error;

/// Why a volume is not recovered.
#[derive(Clone, Copy, Debug, PartialEq, Eq, Error)]
pub enum MountFault {
    /// The disk has fewer than two sectors, or fewer than the superblock counts.
    #[error("the disk has {sectors} sectors where {needed} are needed")]
    Short { sectors: u64, needed: u64 },
    /// The first condition that the superblock breaks.
    #[error("{0}")]
    Super(SuperFault),
    /// The first entry of the log that is malformed.
    #[error("{0}")]
    Entry(EntryFault),
    /// A disk call failed: the disk's count of faults rose from one number to the other.
    #[error("a disk call failed")]
    Disk { before: u64, after: u64 },
    #[error("no memory was found")]
    NoMemory,
}

/// How a recovery ends once its memory is taken.
pub enum Ending {
    Done(Super),
    Short { sectors: u64, needed: u64 },
    Refused(SuperFault),
    Malformed(EntryFault),
    Failed,
}

/// What the superblock's sector has: a volume that fits the disk, a disk that is too short, the first condition that is broken, or
/// nothing, where a disk call failed.
pub enum Loaded {
    Volume(Super),
    Short { sectors: u64, needed: u64 },
    Refused(SuperFault),
    Failed,
}

// The sectors that a volume fills.
fn volume_sectors(sup: &Super) -> u64
    requires { IsValid sup.now }
    ensures { result ≡ sectors_of sup.now }
{
    u64::from(sup.block_size / 512) * sup.geometry().blocks
}

// The bytes of a block.
fn block_length(sup: &Super) -> usize
    requires { IsValid sup.now }
    ensures value { result ≡ sup.now.block_size }
    ensures bound { result ≤ 8192 }
{
    sup.block_size as usize
}

// What the superblock's sector says on a disk of so many sectors.
fn judge(sector: &[u8; 512], sectors: u64) -> Loaded
    ensures { IsJudged (super_at sector.now) sectors result }
{
    match Super::parse(sector) {
        Ok(sup) => {
            let needed = volume_sectors(&sup);
            if sectors < needed {
                return Loaded::Short { sectors, needed };
            }
            Loaded::Volume(sup)
        }
        Err(fault) => Loaded::Refused(fault),
    }
}

/// Reads the superblock's sector. Takes no memory.
pub fn load<D: Disk>(disk: &mut D) -> Loaded
    ensures found { (image : List ℕ) → Tells (D.state disk.old) (λ s. ReadsAs s image) → FindsIn image result }
    ensures fits { FitsDisk (D.size disk.new) result }
    ensures known { StaysKnown (D.size disk.old) (D.size disk.new) }
    ensures state { D.state disk.new ≡ D.state disk.old }
    ensures time { Passed (D.clock disk.old) (D.clock disk.new) (D.since disk.old) (D.since disk.new) (MayLeave (D.state disk.old)) }
    ensures later { D.faults disk.old ≤ D.faults disk.new }
    ensures cause { result ≡ Loaded.Failed → Rose (D.faults disk.old) (D.faults disk.new) }
    ensures stops { D.stops disk.old ≤ D.stops disk.new }
{
    let sectors = match disk.sectors() {
        Ok(sectors) => sectors,
        Err(_) => return Loaded::Failed,
    };
    if sectors < 2 {
        return Loaded::Short { sectors, needed: 2 };
    }
    let mut sector = [0; 512];
    match disk.read(1, &mut sector) {
        Ok(()) => judge(&sector, sectors),
        Err(_) => Loaded::Failed,
    }
}

// Replays a log that isn't empty.
fn replay_log<D: Disk>(disk: &mut D, sup: &Super, array: &mut [u8], buffer: &mut [u8]) -> Ending
    requires valid { IsValid sup.now }
    requires full { sup.now.log_start ≢ sup.now.log_end }
    requires on_disk { HasSectors (D.size disk.old) (sectors_of sup.now) }
    requires array { length array.old ≡ sup.now.block_size }
    requires long { length buffer.old ≡ sup.now.block_size }
    ensures ends { (quiet : Bool) (image : List ℕ) → super_of image ≡ sup.now → Valid image → Tells (D.state disk.old) (Reads quiet image) → EndsIn quiet image (D.state disk.old) (D.state disk.new) result }
    ensures time { (image : List ℕ) → super_of image ≡ sup.now → Valid image → Tells (D.state disk.old) (Holds image)
        → Passed (D.clock disk.old) (D.clock disk.new) (D.since disk.old) (D.since disk.new) (GoesOn image) }
    ensures sound { IsSound (λ s. IsValid s × (s.log_start ≡ s.log_end) × (sectors_of s ≡ sectors_of sup.now)) result }
    ensures by { IsEndingBy (D.size disk.new) result }
    ensures size { D.size disk.new ≡ D.size disk.old }
    ensures later { D.faults disk.old ≤ D.faults disk.new }
    ensures cause { result ≡ Ending.Failed → Rose (D.faults disk.old) (D.faults disk.new) }
    ensures stops { D.stops disk.old ≤ D.stops disk.new }
    ensures clock { D.clock disk.old ≤ D.clock disk.new }
    ensures silent { D.state disk.old ≡ None → D.state disk.new ≡ None }
{
    match check_log(disk, sup, array) {
        Ok(()) => {}
        Err(Halt::Malformed(fault)) => return Ending::Malformed(fault),
        Err(Halt::Failed) => return Ending::Failed,
    }
    match write_homes(disk, sup, array, buffer) {
        Ok(()) => {}
        Err(Halt::Malformed(fault)) => return Ending::Malformed(fault),
        Err(Halt::Failed) => return Ending::Failed,
    }
    match empty_log(disk, sup) {
        Ok(emptied) => Ending::Done(emptied),
        Err(_) => Ending::Failed,
    }
}

// Recovers a volume, with room for two blocks of any size.
fn replay<D: Disk>(disk: &mut D, array: &mut [u8], buffer: &mut [u8]) -> Ending
    requires array { length array.old ≡ 8192 }
    requires long { length buffer.old ≡ 8192 }
    ensures ends { (quiet : Bool) (image : List ℕ) → Tells (D.state disk.old) (Reads quiet image) → EndsIn quiet image (D.state disk.old) (D.state disk.new) result }
    ensures time { (image : List ℕ) → Tells (D.state disk.old) (Holds image) → Passed (D.clock disk.old) (D.clock disk.new) (D.since disk.old) (D.since disk.new) (GoesOn image) }
    ensures unwritten { (image : List ℕ) → Tells (D.state disk.old) (λ s. ReadsAs s image) → (super_of image).log_start ≡ (super_of image).log_end → D.state disk.new ≡ D.state disk.old }
    ensures sound { IsSound (λ s. IsValid s × (s.log_start ≡ s.log_end) × HasSectors (D.size disk.new) (sectors_of s)) result }
    ensures by { IsEndingBy (D.size disk.new) result }
    ensures known { StaysKnown (D.size disk.old) (D.size disk.new) }
    ensures later { D.faults disk.old ≤ D.faults disk.new }
    ensures cause { result ≡ Ending.Failed → Rose (D.faults disk.old) (D.faults disk.new) }
    ensures stops { D.stops disk.old ≤ D.stops disk.new }
    ensures clock { D.clock disk.old ≤ D.clock disk.new }
    ensures silent { D.state disk.old ≡ None → D.state disk.new ≡ None }
{
    let sup = match load(disk) {
        Loaded::Volume(sup) => sup,
        Loaded::Short { sectors, needed } => return Ending::Short { sectors, needed },
        Loaded::Refused(fault) => return Ending::Refused(fault),
        Loaded::Failed => return Ending::Failed,
    };
    if sup.log_start == sup.log_end {
        return Ending::Done(sup);
    }
    let size = block_length(&sup);
    replay_log(disk, &sup, &mut array[..size], &mut buffer[..size])
}

// So many zeros.
fn zeros(alloc: Global, count: usize) -> Result<Vec<u8>, AllocError>
    requires { count < 2 ^ 62 }
    ensures { IfOk result (λ v. length v.items ≡ count) }
{
    vec![in alloc; 0; count]
}

/// Recovers the volume on a disk: replays its log, where it isn't empty. It tells the superblock then, whose log is empty.
///
/// All memory is taken before the disk is touched: two buffers for the largest block. Every entry is read before anything is
/// written. Then each block goes to its place, in order, a barrier, the superblock with an empty log and CLEN, a barrier. It
/// runs wherever the log isn't empty, whatever the flags say.
pub fn recover<D: Disk>(alloc: Global, disk: &mut D) -> Result<Super, MountFault>
    // At Ok the disk reads as what replay gives. It is quiet where it was.
    ensures recovered { (quiet : Bool) (image : List ℕ) → Tells (D.state disk.old) (Reads quiet image) → IfOk result (IsRecovered quiet image (D.state disk.new)) }

    // A crash at any moment, and after a fault too, leaves the image or one that is replayed to the same.
    ensures time { (image : List ℕ) → Tells (D.state disk.old) (Holds image)
        → Passed (D.clock disk.old) (D.clock disk.new) (D.since disk.old) (D.since disk.new) (GoesOn image) }
    ensures moments { (image : List ℕ) → Tells (D.state disk.old) (Holds image) → (c : List ℕ) → D.since disk.new (D.clock disk.old) c → GoesOn image c }

    // Each fault but a failed disk and want of memory comes only by its condition, and leaves the disk as it was.
    ensures fault { (image : List ℕ) → Tells (D.state disk.old) (λ s. ReadsAs s image) → IfErr result (IsMountFault image) }
    ensures kept { (image : List ℕ) → Tells (D.state disk.old) (λ s. ReadsAs s image) → IfErr result (λ fault. LeavesDisk fault → D.state disk.new ≡ D.state disk.old) }

    // Over any disk such a fault has its cause in the number of sectors, or in a superblock.
    ensures by { IfErr result (IsMountFaultBy (D.size disk.new)) }

    // Where the log is empty nothing is written.
    ensures unwritten { (image : List ℕ) → Tells (D.state disk.old) (λ s. ReadsAs s image) → (super_of image).log_start ≡ (super_of image).log_end → D.state disk.new ≡ D.state disk.old }
    ensures untouched { IfErr result (λ fault. fault ≡ MountFault.NoMemory → disk.new ≡ disk.old) }
    ensures sound { IfOk result (λ s. IsValid s × (s.log_start ≡ s.log_end) × HasSectors (D.size disk.new) (sectors_of s)) }
    ensures known { StaysKnown (D.size disk.old) (D.size disk.new) }
    ensures later { D.faults disk.old ≤ D.faults disk.new }
    ensures cause { IfErr result (HasCauseIn (D.faults disk.old) (D.faults disk.new)) }
    ensures stops { D.stops disk.old ≤ D.stops disk.new }
    ensures clock { D.clock disk.old ≤ D.clock disk.new }
    ensures silent { D.state disk.old ≡ None → D.state disk.new ≡ None }
{
    let Ok(mut array) = zeros(alloc, 8192) else {
        return Err(MountFault::NoMemory);
    };
    let Ok(mut buffer) = zeros(alloc, 8192) else {
        return Err(MountFault::NoMemory);
    };
    let before = disk.faults();
    match replay(disk, &mut array, &mut buffer) {
        Ending::Done(sup) => Ok(sup),
        Ending::Short { sectors, needed } => Err(MountFault::Short { sectors, needed }),
        Ending::Refused(fault) => Err(MountFault::Super(fault)),
        Ending::Malformed(fault) => Err(MountFault::Entry(fault)),
        Ending::Failed => Err(MountFault::Disk {
            before,
            after: disk.faults(),
        }),
    }
}
