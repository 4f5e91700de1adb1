// The check.
ghost use Rattle.std.specs.Prelude.{◌≡◌, ◌≤◌, ℕ, List, Option, IfOk, IfErr};
ghost use Rattle.bfs_base.specs.Moments.{Passed};
ghost use Rattle.bfs_disk.specs.State.{State, ReadsAs, Tells, Holds};
ghost use Rattle.bfs_disk.specs.Disk.{MayLeave, HasSectors, StaysKnown};
ghost use Rattle.bfs_super.specs.Conditions.{IsValid};
ghost use Rattle.bfs_log.specs.Replay.{Valid, super_of};
ghost use Rattle.bfs_replay.specs.Steps.{sectors_of};
ghost use Rattle.bfs_check.specs.Checked.{HasCauseIn, HasVolume, IsCheckFault, IsFaultBy, IsOfReading, IsPassCauseIn, IsPassOfReading, IsReadCause, IsVerdict, IsVerdictBy, IsWholeWith, IsWrongOf};

use crate::ahead::AheadBlocks;
use crate::windows::Windows;
use bfs_disk::Disk;
use bfs_finding::Finding;
use bfs_passes::{PassFault, Summary, check_passes};
use bfs_replay::{Loaded, load};
use bfs_sound::image_is_carried;
use bfs_super::Super;
use bfs_txn::BlockFault;
use std::alloc::Global;
use thiserror::Error;

/// What a check says of a volume.
#[derive(Debug, Drop)]
pub enum Verdict {
    /// It is whole.
    Yes(Summary),
    /// This is wrong with it.
    No(Finding),
}

/// Why a volume is not checked.
#[derive(Clone, Copy, Debug, PartialEq, Eq, Error)]
pub enum CheckFault {
    /// The disk has fewer than two sectors, or fewer than the superblock counts.
    #[error("the disk has {sectors} sectors where {needed} are needed")]
    Short { sectors: u64, needed: u64 },
    /// A disk call failed: the disk's count of faults rose from one number to the other.
    #[error("a disk call failed")]
    Disk { before: u64, after: u64 },
    #[error("no memory was found")]
    NoMemory,
}

/// The passes over a volume whose superblock is valid.
fn pass<D: Disk>(alloc: Global, disk: &mut D, sup: &Super) -> Result<Summary, PassFault>
    requires valid { IsValid sup.now }
    requires on_disk { HasSectors (D.size disk.old) (sectors_of sup.now) }
    ensures passed { (image : List ℕ) → Tells (D.state disk.old) (λ s. ReadsAs s image) → sup.now ≡ super_of image → Valid image → IfOk result (IsWholeWith image) }
    ensures wrong { (image : List ℕ) → Tells (D.state disk.old) (λ s. ReadsAs s image) → sup.now ≡ super_of image → Valid image → IfErr result (IsWrongOf image) }
    ensures state { D.state disk.new ≡ D.state disk.old }
    ensures size { D.size disk.new ≡ D.size disk.old }
    ensures time { ∥ Passed (D.clock disk.old) (D.clock disk.new) (D.since disk.old) (D.since disk.new) (MayLeave (D.state disk.old)) ∥₁ }
    ensures later { D.faults disk.old ≤ D.faults disk.new }
    ensures cause { IfErr result (IsPassCauseIn (D.faults disk.old) (D.faults disk.new)) }
    ensures stops { D.stops disk.new ≡ D.stops disk.old }
{
    image_is_carried();
    let mut windows = Windows::new(alloc);
    let mut blocks = AheadBlocks::over(disk, &mut windows, sup);
    let result = check_passes(alloc, &mut blocks, sup);
    blocks.done();
    result
}

/// Why a disk that is only read isn't checked.
fn unread(fault: BlockFault) -> CheckFault
    requires { IsOfReading fault }
    ensures cause { (old new : ℕ) → IsReadCause old new fault → HasCauseIn old new result }
    ensures image { (image : List ℕ) → IsCheckFault image result }
    ensures any { (size : Option ℕ) → IsFaultBy size result }
{
    match fault {
        BlockFault::Disk { before, after } => CheckFault::Disk { before, after },
        BlockFault::NoMemory => CheckFault::NoMemory,
        BlockFault::Stopped { .. } | BlockFault::Damaged { .. } => unreachable!(),
    }
}

/// What the passes say, as a verdict.
fn verdict_of(passed: Result<Summary, PassFault>) -> Result<Verdict, CheckFault>
    requires { IfErr passed IsPassOfReading }
    ensures verdict { (image : List ℕ) → Valid image → IfOk passed (IsWholeWith image) → IfErr passed (IsWrongOf image) → IfOk result (IsVerdict image) }
    ensures fault { (image : List ℕ) → IfErr result (IsCheckFault image) }
    ensures cause { (old new : ℕ) → IfErr passed (IsPassCauseIn old new) → IfErr result (HasCauseIn old new) }
    ensures any { (size : Option ℕ) → HasVolume size → IfOk result (IsVerdictBy size) }
    ensures short { (size : Option ℕ) → IfErr result (IsFaultBy size) }
{
    match passed {
        Ok(summary) => Ok(Verdict::Yes(summary)),
        Err(PassFault::Wrong(finding)) => Ok(Verdict::No(finding)),
        Err(PassFault::Block(fault)) => Err(unread(fault)),
    }
}

/// Checks the volume on a disk. Nothing is written. It reads the superblock first, and then the blocks of the volume with their
/// neighbours, but for the data of files.
pub fn check<D: Disk>(alloc: Global, disk: &mut D) -> Result<Verdict, CheckFault>
    // On a disk that reads as an image the verdict is true of the image.
    ensures verdict { (image : List ℕ) → Tells (D.state disk.old) (λ s. ReadsAs s image) → IfOk result (IsVerdict image) }
    ensures fault { (image : List ℕ) → Tells (D.state disk.old) (λ s. ReadsAs s image) → IfErr result (IsCheckFault image) }

    // Over any disk what is answered has its cause in the number of sectors, or in a superblock.
    ensures causes { IfOk result (IsVerdictBy (D.size disk.new)) }
    ensures short { IfErr result (IsFaultBy (D.size disk.new)) }

    // The disk is only read: a crash meanwhile leaves nothing else than before.
    ensures state { D.state disk.new ≡ D.state disk.old }
    ensures time { ∥ Passed (D.clock disk.old) (D.clock disk.new) (D.since disk.old) (D.since disk.new) (MayLeave (D.state disk.old)) ∥₁ }
    ensures moments { (image : List ℕ) → Tells (D.state disk.old) (Holds image) → (c : List ℕ) → D.since disk.new (D.clock disk.old) c → c ≡ image }
    ensures clock { D.clock disk.old ≤ D.clock disk.new }
    ensures known { StaysKnown (D.size disk.old) (D.size disk.new) }
    ensures later { D.faults disk.old ≤ D.faults disk.new }
    ensures cause { IfErr result (HasCauseIn (D.faults disk.old) (D.faults disk.new)) }
    ensures stops { D.stops disk.old ≤ D.stops disk.new }
{
    let before = disk.faults();
    let sup = match load(disk) {
        Loaded::Volume(sup) => sup,
        Loaded::Short { sectors, needed } => return Err(CheckFault::Short { sectors, needed }),
        Loaded::Refused(fault) => return Ok(Verdict::No(Finding::Super(fault))),
        Loaded::Failed => {
            return Err(CheckFault::Disk {
                before,
                after: disk.faults(),
            });
        }
    };
    let passed = pass(alloc, disk, &sup);
    verdict_of(passed)
}
