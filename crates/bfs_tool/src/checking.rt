// The command `check`: it replays the log as mounting does, and checks what is left.
ghost use Rattle.std.specs.Prelude.{◌≡◌, ◌≤◌, ◌++◌, ℕ, List, Bool, Option, OnOk, OnErr, IfOk, IfErr, codes};
ghost use Rattle.std.specs.Fmt.{decimal};
ghost use Rattle.bfs_base.specs.Counts.{Rose};
ghost use Rattle.bfs_disk.specs.State.{State, ReadsAs, Tells, Holds};
ghost use Rattle.bfs_log.specs.Replay.{Replayed};
ghost use Rattle.bfs_replay.specs.Homing.{Reads};
ghost use Rattle.bfs_replay.specs.Recover.{GoesOn, HasCauseIn as HasMountCause, IsMountFault, IsMountFaultBy, LeavesDisk};
ghost use Rattle.bfs_run.specs.Checked.{HasCauseIn, IsCheckFault, IsFaultBy, IsVerdict, IsVerdictBy};
ghost use Rattle.bfs_tool.specs.Check.{ChecksBy, HasText, IsCheckedBy, IsNotShort, IsRefusing, IsReplayedOn, LeavesBy, checking_status, checking_text};

use bfs_disk::Disk;
use bfs_finding::Finding;
use bfs_finding_text::{put_entry_line, put_line, put_short_line};
use bfs_log::EntryFault;
use bfs_replay::{MountFault, recover};
use bfs_run::check::{CheckFault, Verdict, check};
use bfs_super::SuperFault;
use bfs_text::put::{put, put_number};
use std::alloc::{AllocError, Global};

/// How `check` ended.
#[derive(Drop)]
pub enum Checking {
    /// The volume is whole, with so many nodes, and so many blocks in use.
    Whole { nodes: u64, used: u64 },
    /// Its log was replayed, and this is wrong with it.
    Wrong(Finding),
    /// The disk has fewer than two sectors, or fewer than the superblock counts.
    Short { sectors: u64, needed: u64 },
    NotVolume(SuperFault),
    /// An entry of the log is malformed.
    Malformed(EntryFault),
    DiskFailed,
    NoMemory,
}

/// How it ends where the log isn't replayed.
fn unreplayed(fault: MountFault) -> Checking
    ensures ends { (image : List ℕ) → IsMountFault image fault → ChecksBy image result }
    ensures by { (size : Option ℕ) → IsMountFaultBy size fault → IsCheckedBy size result }
    ensures left { (quiet : Bool) (image : List ℕ) (old new : Option State) → (LeavesDisk fault → new ≡ old) → LeavesBy quiet image old new result }
    ensures refused { IsRefusing result → LeavesDisk fault }
    ensures failed { (old new : ℕ) → HasMountCause old new fault → result ≡ Checking.DiskFailed → Rose old new }
{
    match fault {
        MountFault::Short { sectors, needed } => Checking::Short { sectors, needed },
        MountFault::Super(fault) => Checking::NotVolume(fault),
        MountFault::Entry(fault) => Checking::Malformed(fault),
        MountFault::Disk { .. } => Checking::DiskFailed,
        MountFault::NoMemory => Checking::NoMemory,
    }
}

/// How it ends where it was replayed.
fn checked(verdict: Result<Verdict, CheckFault>) -> Checking
    ensures ends { (image replayed : List ℕ) → Replayed image replayed → IfErr verdict IsNotShort → IfOk verdict (IsVerdict replayed) → ChecksBy image result }
    ensures by { (size : Option ℕ) → IfOk verdict (IsVerdictBy size) → IfErr verdict (IsFaultBy size) → IsCheckedBy size result }
    ensures left { (quiet : Bool) (image : List ℕ) (old new : Option State) → IfErr verdict IsNotShort → IsReplayedOn quiet image new → LeavesBy quiet image old new result }
    ensures refused { IsRefusing result → IfErr verdict IsNotShort → ⊥ }
    ensures failed { (old new : ℕ) → IfErr verdict (HasCauseIn old new) → result ≡ Checking.DiskFailed → Rose old new }
{
    match verdict {
        Ok(Verdict::Yes(summary)) => Checking::Whole {
            nodes: summary.nodes,
            used: summary.used,
        },
        Ok(Verdict::No(finding)) => Checking::Wrong(finding),
        Err(CheckFault::Short { sectors, needed }) => Checking::Short { sectors, needed },
        Err(CheckFault::Disk { .. }) => Checking::DiskFailed,
        Err(CheckFault::NoMemory) => Checking::NoMemory,
    }
}

/// Replays the log, and checks the volume.
pub fn check_volume<D: Disk>(alloc: Global, disk: &mut D) -> Checking
    // On a disk that reads as an image the ending follows from the image, but for a failed disk and want of memory.
    ensures ends { (image : List ℕ) → Tells (D.state disk.old) (λ s. ReadsAs s image) → ChecksBy image result }
    ensures failed { result ≡ Checking.DiskFailed → Rose (D.faults disk.old) (D.faults disk.new) }

    // Over any disk the ending has its cause in the number of sectors, or in a superblock.
    ensures by { IsCheckedBy (D.size disk.new) result }

    // What is left: what replay gives, or the disk as it was.
    ensures left { (quiet : Bool) (image : List ℕ) → Tells (D.state disk.old) (Reads quiet image) → LeavesBy quiet image (D.state disk.old) (D.state disk.new) result }
    ensures refused { IsRefusing result → D.state disk.new ≡ D.state disk.old }

    // A crash at any moment leaves the image, or one that is replayed to the same.
    ensures moments { (image : List ℕ) → Tells (D.state disk.old) (Holds image) → (c : List ℕ) → D.since disk.new (D.clock disk.old) c → ∥ GoesOn image c ∥₁ }
    ensures clock { D.clock disk.old ≤ D.clock disk.new }
    ensures later { D.faults disk.old ≤ D.faults disk.new }
{
    match recover(alloc, disk) {
        Ok(_) => {}
        Err(fault) => return unreplayed(fault),
    }
    let verdict = check(alloc, disk);
    checked(verdict)
}

/// A word and a number.
fn put_counted(out: &mut Vec<u8>, word: &[u8], number: u64) -> Result<(), AllocError>
    ensures { OnOk result (out.new.items ≡ out.old.items ++ (word.now ++ decimal number)) }
{
    put(out, word)?;
    put_number(out, number)
}

/// The line of a whole volume.
fn put_whole(out: &mut Vec<u8>, nodes: u64, used: u64) -> Result<(), AllocError>
    ensures { OnOk result (out.new.items ≡ out.old.items ++ (codes "whole nodes " ++ (decimal nodes ++ (codes " used " ++ (decimal used ++ codes "\n"))))) }
{
    put_counted(out, b"whole nodes ", nodes)?;
    put_counted(out, b" used ", used)?;
    put(out, b"\n")
}

impl Checking {
    /// The status of the program.
    pub fn status(&self) -> u8
        ensures { result ≡ checking_status self.now }
    {
        match self {
            Checking::Whole { .. } => 0,
            Checking::Short { .. } | Checking::NotVolume(_) | Checking::Malformed(_) => 3,
            Checking::DiskFailed => 4,
            Checking::NoMemory => 7,
            Checking::Wrong(_) => 8,
        }
    }

    /// Puts what is printed behind a text.
    fn put_text(&self, out: &mut Vec<u8>) -> Result<(), AllocError>
        ensures put { OnOk result (out.new.items ≡ out.old.items ++ checking_text self.now) }
        ensures some { OnErr result (HasText self.now) }
    {
        match self {
            Checking::Whole { nodes, used } => put_whole(out, *nodes, *used),
            Checking::Wrong(finding) => put_line(out, finding),
            Checking::Short { sectors, needed } => put_short_line(out, *sectors, *needed),
            Checking::NotVolume(fault) => put_line(out, &Finding::Super(*fault)),
            Checking::Malformed(fault) => put_entry_line(out, *fault),
            Checking::DiskFailed | Checking::NoMemory => Ok(()),
        }
    }

    /// What is printed.
    pub fn text(&self, alloc: Global) -> Result<Vec<u8>, AllocError>
        ensures text { IfOk result (λ v. v.items ≡ checking_text self.now) }
        ensures some { OnErr result (HasText self.now) }
    {
        let mut out = Vec::new(alloc);
        match self.put_text(&mut out) {
            Ok(()) => Ok(out),
            Err(error) => Err(error),
        }
    }
}
