// The command `sh`: a script is run on a volume.
ghost use Rattle.std.specs.Prelude.{◌≡◌, ◌≢◌, ◌⊎◌, ◌≤◌, ◌++◌, ◌||◌, ℕ, List, [], IfOk, OnOk, IsTrue, codes, is_some};
ghost use Rattle.std.specs.Fmt.{decimal};
ghost use Rattle.bfs_base.specs.Counts.{Rose};
ghost use Rattle.bfs_disk.specs.State.{Tells, Holds};
ghost use Rattle.bfs_ports.specs.Ports.{appended};
ghost use Rattle.bfs_tree.specs.Histories.{Mounted};
ghost use Rattle.bfs_tree.specs.Steps.{is_by_disk};
ghost use Rattle.bfs_command.specs.declared.line.Line as line;
ghost use Rattle.bfs_run.specs.Mounts.{IsMountedFrom, mounted_image};
ghost use Rattle.bfs_run.specs.Runs.{AreLinesOf, HasRun, IsUnmountedRun, SaysScript, HasRunFailures};
ghost use Rattle.bfs_run.specs.declared.run.Run as runs;
ghost use Rattle.bfs_tool.specs.Shell.{EndsAs, LeavesUnmounted, RunsBy, closed_status, fault_status, fault_text, has_damage, has_failed, is_broken, is_damage, run_status, run_text, unmounted_status, unmounted_text};
ghost use Rattle.bfs_tool.specs.Tool.{Prints};

use crate::output::report;
use crate::progress::Progress;
use bfs_disk::Disk;
use bfs_finding::Finding;
use bfs_finding_text::{put_entry_line, put_line, put_short_line};
use bfs_ports::{Clock, Sink, Source};
use bfs_replay::MountFault;
use bfs_run::{Closed, Run, Unmounted, run_shell};
use bfs_script::text;
use bfs_text::put::{put, put_number};
use bfs_tree::{Call, Entry, Reply};
use std::alloc::{AllocError, Global};
use std::time;

/// For how many read blocks there is room beside a mounted volume.
pub const CACHE: u32 = 1024;

/// Whether a failed disk has answered the entry, or has spoiled the piece that it lets go.
fn is_failed(entry: &Entry) -> bool
    ensures { result ≡ (is_by_disk entry.now.reply || is_broken entry.now.call) }
{
    if matches!(
        &entry.reply,
        Reply::DiskFault { .. } | Reply::Stopped { .. }
    ) {
        return true;
    }
    match &entry.call {
        Call::Release { whole, .. } => !*whole,
        _ => false,
    }
}

/// Whether the entry tells of damage.
fn is_damaged(entry: &Entry) -> bool
    ensures { result ≡ is_damage entry.now.reply }
{
    matches!(&entry.reply, Reply::Damaged { .. })
}

/// Whether some entry was answered or spoiled by a failed disk.
fn has_failed(history: &[Entry]) -> bool
    ensures { result ≡ has_failed history.now }
{
    history.iter().any(is_failed)
}

/// Whether some entry tells of damage.
fn has_damage(history: &[Entry]) -> bool
    ensures { result ≡ has_damage history.now }
{
    history.iter().any(is_damaged)
}

/// The status of a volume that was closed behind the run.
fn closed_status(closed: &Closed) -> u8
    ensures { result ≡ closed_status closed.now }
{
    let failed = has_failed(closed.history.as_slice());
    if closed.ended.is_err() || failed {
        return 4;
    }
    let damaged = has_damage(closed.history.as_slice());
    if damaged {
        return 14;
    }
    0
}

fn fault_status(fault: &MountFault) -> u8
    ensures { result ≡ fault_status fault.now }
{
    match fault {
        MountFault::Short { .. } | MountFault::Super(_) | MountFault::Entry(_) => 3,
        MountFault::Disk { .. } => 4,
        MountFault::NoMemory => 7,
    }
}

fn unmounted_status(why: &Unmounted) -> u8
    ensures { result ≡ unmounted_status why.now }
{
    match why {
        Unmounted::Unread(fault) => fault_status(fault),
        Unmounted::Wrong(_) => 3,
    }
}

fn status_of(run: &Run) -> u8
    ensures { result ≡ run_status run.now }
{
    match run {
        Run::Unmounted(why) => unmounted_status(why),
        Run::Unread => 5,
        Run::NoMemory => 7,
        Run::BadLine(_) => 9,
        Run::Closed(closed) => closed_status(closed),
    }
}

fn put_fault(out: &mut Vec<u8>, fault: &MountFault) -> Result<(), AllocError>
    ensures { OnOk result (out.new.items ≡ out.old.items ++ fault_text fault.now) }
{
    match fault {
        MountFault::Short { sectors, needed } => put_short_line(out, *sectors, *needed),
        MountFault::Super(fault) => put_line(out, &Finding::Super(*fault)),
        MountFault::Entry(fault) => put_entry_line(out, *fault),
        MountFault::Disk { .. } | MountFault::NoMemory => Ok(()),
    }
}

pub fn put_unmounted(out: &mut Vec<u8>, why: &Unmounted) -> Result<(), AllocError>
    ensures { OnOk result (out.new.items ≡ out.old.items ++ unmounted_text why.now) }
{
    match why {
        Unmounted::Unread(fault) => put_fault(out, fault),
        Unmounted::Wrong(finding) => put_line(out, finding),
    }
}

fn put_bad_line(out: &mut Vec<u8>, number: u32) -> Result<(), AllocError>
    ensures { OnOk result (out.new.items ≡ out.old.items ++ (codes "line " ++ decimal number ++ codes "\n")) }
{
    put(out, b"line ")?;
    put_number(out, u64::from(number))?;
    put(out, b"\n")
}

/// What is printed of a run.
fn text_of(alloc: Global, run: &Run) -> Result<Vec<u8>, AllocError>
    ensures { IfOk result (λ v. v.items ≡ run_text run.now) }
{
    let mut out = Vec::new(alloc);
    match run {
        Run::Unmounted(why) => put_unmounted(&mut out, why)?,
        Run::BadLine(number) => put_bad_line(&mut out, *number)?,
        Run::Closed(closed) => return text(alloc, closed.history.as_slice()),
        Run::Unread | Run::NoMemory => {}
    }
    Ok(out)
}

/// Whether a count of faults rose. At its end it stands still.
fn has_risen(before: u64, after: u64) -> bool
    ensures { IsTrue result → Rose before after }
{
    before < after || (before == u64::MAX && after == u64::MAX)
}

/// Prints what is to be printed of a run, and tells the status.
fn print_text<W: Sink>(text: Result<Vec<u8>, AllocError>, run: &Run, status: u8, out: &mut W) -> u8
    requires status { status ≡ run_status run.now }
    ensures ends { EndsAs run.now result }
    ensures printed { (expected : List ℕ) → IfOk text (λ v. v.items ≡ expected) → result ≢ 7 → Prints (W.written out.old) (W.written out.new) (W.faults out.old) (W.faults out.new) expected }
    ensures whole { (expected : List ℕ) → IfOk text (λ v. v.items ≡ expected) → result ≡ 0 → W.written out.new ≡ appended (W.written out.old) expected }
    ensures silent { result ≡ 7 → W.written out.new ≡ appended (W.written out.old) [] }
    ensures failed { result ≡ 4 → status ≡ 4 }
    ensures unread { result ≡ 5 → status ≡ 5 }
    ensures bad_line { result ≡ 9 → status ≡ 9 }
    ensures output_failed { result ≡ 6 → Rose (W.faults out.old) (W.faults out.new) }
    ensures others { (result ≡ 2) ⊎ ((result ≡ 8) ⊎ ((result ≡ 10) ⊎ (result ≡ 11))) → ⊥ }
    ensures output_later { W.faults out.old ≤ W.faults out.new }
{
    if status == 7 {
        return 7;
    }
    match text {
        Ok(text) => report(out, &text, status),
        Err(_) => 7,
    }
}

/// Prints what is to be printed of a run, where its failed disk shows in the disk's counts of faults before and after it. Where it doesn't, the
/// status is that of want of memory.
pub fn print_run<W: Sink>(
    text: Result<Vec<u8>, AllocError>,
    run: &Run,
    before: u64,
    after: u64,
    out: &mut W,
) -> u8
    ensures ends { EndsAs run.now result }
    ensures printed { (expected : List ℕ) → IfOk text (λ v. v.items ≡ expected) → result ≢ 7 → Prints (W.written out.old) (W.written out.new) (W.faults out.old) (W.faults out.new) expected }
    ensures whole { (expected : List ℕ) → IfOk text (λ v. v.items ≡ expected) → result ≡ 0 → W.written out.new ≡ appended (W.written out.old) expected }
    ensures silent { result ≡ 7 → W.written out.new ≡ appended (W.written out.old) [] }
    ensures failed { result ≡ 4 → Rose before after }
    ensures unread { result ≡ 5 → run_status run.now ≡ 5 }
    ensures bad_line { result ≡ 9 → run_status run.now ≡ 9 }
    ensures output_failed { result ≡ 6 → Rose (W.faults out.old) (W.faults out.new) }
    ensures others { (result ≡ 2) ⊎ ((result ≡ 8) ⊎ ((result ≡ 10) ⊎ (result ≡ 11))) → ⊥ }
    ensures output_later { W.faults out.old ≤ W.faults out.new }
{
    let status = status_of(run);
    let risen = has_risen(before, after);
    if status == 4 && !risen {
        return 7;
    }
    print_text(text, run, status, out)
}

/// Runs the shell on the disk's volume, and prints how it ended. That it ended by the disk is said where the disk's count of faults rose.
pub fn shell<D: Disk, R: Source, C: Clock + Drop, W: Sink, X: AllocGlobal + Eprint + time::Clock>(
    alloc: Global,
    disk: D,
    script: &mut R,
    clock: C,
    out: &mut W,
    progress: &Progress<'_, X>,
) -> (u8, D)
    ensures ends { (run : runs.Run) × EndsAs run result.0
        × (result.0 ≢ 7 → Prints (W.written out.old) (W.written out.new) (W.faults out.old) (W.faults out.new) (run_text run))
        × (result.0 ≡ 0 → W.written out.new ≡ appended (W.written out.old) (run_text run))
        × ((image : List ℕ) → Tells (D.state disk) (Holds image) → RunsBy image run × LeavesUnmounted image run (D.clock disk) (D.since result.1))
        × SaysScript (R.left script.old) run
        × ((t0 : Mounted) (image : List ℕ) → Tells (D.state disk) (Holds image) → (mounted : IsMountedFrom image t0)
        → IsUnmountedRun run ⊎ ((lines : List line.Line) × HasRun t0 (mounted_image mounted) run lines (D.state result.1) (D.clock disk) (D.since result.1) (C.stands clock) (D.faults disk) (D.faults result.1) (D.stops disk) (D.stops result.1) × AreLinesOf (R.left script.old) run lines))
        × (IsUnmountedRun run ⊎ HasRunFailures run (D.faults disk) (D.faults result.1) (D.stops disk) (D.stops result.1)) }
    ensures silent { result.0 ≡ 7 → W.written out.new ≡ appended (W.written out.old) [] }
    ensures disk_failed { result.0 ≡ 4 → Rose (D.faults disk) (D.faults result.1) }
    ensures script_failed { result.0 ≡ 5 → Rose (R.faults script.old) (R.faults script.new) }
    ensures output_failed { result.0 ≡ 6 → Rose (W.faults out.old) (W.faults out.new) }
    ensures others { (result.0 ≡ 2) ⊎ ((result.0 ≡ 8) ⊎ ((result.0 ≡ 10) ⊎ (result.0 ≡ 11))) → ⊥ }
    ensures disk_later { D.faults disk ≤ D.faults result.1 }
    ensures disk_clock { D.clock disk ≤ D.clock result.1 }
    ensures output_later { W.faults out.old ≤ W.faults out.new }
{
    let before = disk.faults();
    let (run, disk) = run_shell(alloc, disk, script, clock, CACHE, progress);
    progress.end();
    let after = disk.faults();
    let text = text_of(alloc, &run);
    let shown = print_run(text, &run, before, after, out);
    (shown, disk)
}
