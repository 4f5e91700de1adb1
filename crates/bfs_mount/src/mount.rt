// What goes before a volume is opened: its log is replayed, and it is checked.
ghost use Rattle.std.specs.Prelude.{◌≡◌, ◌≤◌, ℕ, List, None, IfOk, IfErr, OnOk};
ghost use Rattle.bfs_base.specs.Moments.{Passed};
ghost use Rattle.bfs_disk.specs.State.{Tells, Holds};
ghost use Rattle.bfs_super.specs.Conditions.{IsValid};
ghost use Rattle.bfs_tree.specs.Trees.{Tree};
ghost use Rattle.bfs_sound.specs.Whole.{Recovers};
ghost use Rattle.bfs_log.specs.Replay.{Replayed};
ghost use Rattle.bfs_device.specs.Books.{IsOnDisk};
ghost use Rattle.bfs_replay.specs.Recover.{GoesOn, HasCauseIn, IsMountFault};
ghost use Rattle.bfs_check.specs.Checked as check;
ghost use Rattle.bfs_mount.specs.Mounts.{IsHeld, IsHeldWhole, IsUnshort, IsUnmounted, HasUnmountedCause};

use bfs_check::{CheckFault, Verdict, check};
use bfs_disk::Disk;
use bfs_finding::Finding;
use bfs_replay::{MountFault, recover};
use bfs_super::Super;
use std::alloc::Global;
use thiserror::Error;

/// Why a volume is not mounted.
#[derive(Debug, Drop, Error)]
pub enum Unmounted {
    /// Its log can't be replayed, or the disk can't be read, or there is no memory.
    #[error("{0}")]
    Unread(MountFault),
    /// This is wrong with it once its log was replayed.
    #[error("the volume is not whole")]
    Wrong(Finding),
}

/// Why a volume that was recovered isn't checked: not because it is short.
fn unchecked(fault: CheckFault) -> MountFault
    ensures told { (image : List ℕ) → IsUnshort fault → IsMountFault image result }
    ensures cause { (old new : ℕ) → check.HasCauseIn old new fault → HasCauseIn old new result }
{
    match fault {
        CheckFault::Short { sectors, needed } => MountFault::Short { sectors, needed },
        CheckFault::Disk { before, after } => MountFault::Disk { before, after },
        CheckFault::NoMemory => MountFault::NoMemory,
    }
}

/// Replays the log of a volume, and checks it. Answers its superblock where it is whole, and how many nodes it has.
pub fn replay_and_check<D: Disk>(alloc: Global, disk: &mut D) -> Result<(Super, u64), Unmounted>
    requires held { IsHeld (D.state disk.old) }
    ensures valid { IfOk result (λ s. IsValid s.0) }
    ensures empty { IfOk result (λ s. s.0.log_start ≡ s.0.log_end) }
    ensures on_disk { IfOk result (λ s. IsOnDisk (D.size disk.new) s.0) }
    ensures whole { IfOk result (λ s. IsHeldWhole s.0 s.1 (D.state disk.new)) }
    ensures recovers { (image : List ℕ) → Tells (D.state disk.old) (Holds image) → OnOk result ((tree : Tree) × Recovers image tree) }
    ensures replayed { (image : List ℕ) → Tells (D.state disk.old) (Holds image) → OnOk result ((next : List ℕ) × Replayed image next × Tells (D.state disk.new) (Holds next)) }
    ensures refused { (image : List ℕ) → Tells (D.state disk.old) (Holds image) → IfErr result (IsUnmounted image) }
    ensures cause { IfErr result (HasUnmountedCause (D.faults disk.old) (D.faults disk.new)) }
    // A crash meanwhile leaves the image, or one that is replayed to the same.
    ensures time { (image : List ℕ) → Tells (D.state disk.old) (Holds image) → ∥ Passed (D.clock disk.old) (D.clock disk.new) (D.since disk.old) (D.since disk.new) (GoesOn image) ∥₁ }
    ensures clock { D.clock disk.old ≤ D.clock disk.new }
    ensures later { D.faults disk.old ≤ D.faults disk.new }
    ensures stops { D.stops disk.old ≤ D.stops disk.new }
    ensures silent { D.state disk.old ≡ None → D.state disk.new ≡ None }
{
    let sup = match recover(alloc, disk) {
        Ok(sup) => sup,
        Err(fault) => return Err(Unmounted::Unread(fault)),
    };
    match check(alloc, disk) {
        Ok(Verdict::Yes(summary)) => Ok((sup, summary.nodes)),
        Ok(Verdict::No(finding)) => Err(Unmounted::Wrong(finding)),
        Err(fault) => Err(Unmounted::Unread(unchecked(fault))),
    }
}
