// A whole run: a volume is mounted, a script is read or a workload made, its lines are run, and the volume is closed.
ghost use Rattle.std.specs.Prelude.{◌≡◌, ◌⊎◌, ◌≤◌, ℕ, List, [], Some, None, IfOk, IfErr, MatchResult};
ghost use Rattle.std.specs.List.{All};
ghost use Rattle.bfs_base.specs.Counts.{Rose};
ghost use Rattle.bfs_disk.specs.State.{Tells, Holds};
ghost use Rattle.bfs_tree.specs.Histories.{Mounted};
ghost use Rattle.bfs_command.specs.declared.line.Line as line;
ghost use Rattle.bfs_command.specs.Forms.{IsLineInForm};
ghost use Rattle.bfs_replay.specs.Recover.{GoesOn};
ghost use Rattle.bfs_script.specs.Scripts.{script_of, bad_line};
ghost use Rattle.bfs_device_blocks.specs.Lent.{HasCore};
ghost use Rattle.bfs_core.specs.Chains.{Image};
ghost use Rattle.bfs_core.specs.Moments.{Adoption, adopted_from};
ghost use Rattle.bfs_volume.specs.Mounts.{IsMountedFrom, IsUnmounted, HasUnmountedCause, mounted_image};
ghost use Rattle.bfs_volume.specs.Unmounted as mounting;
ghost use Rattle.bfs_soak.specs.Workload.{workload};
ghost use Rattle.bfs_run.specs.Sources.{IsReadOf};
ghost use Rattle.bfs_run.specs.Runs.{AreLinesOf, HasNoScript, HasRun, HasRunFailures, IsEarly, IsScriptOf, IsUnmountedRun, SaysScript};

use crate::lines::run_script;
use crate::quiet::make_quiet;
use crate::source::{Unread, read_source};
use crate::watch::Watcher;
use bfs_device::DeviceFault;
use bfs_disk::Disk;
use bfs_ports::{Clock, Source};
use bfs_replay::MountFault;
use bfs_script::{Script, ScriptFault, lines_are_in_form, parse_vec};
use bfs_soak::{make_workload, workload_is_in_form};
use bfs_tree::Entry;
use bfs_volume::{Unmounted, Volume};
use std::alloc::Global;

/// A volume on which all lines were run, and that was closed: its entries, how closing has ended, and how many nodes the tree has after them.
#[derive(Debug, Drop)]
pub struct Closed {
    pub history: Vec<Entry>,
    pub ended: Result<(), DeviceFault>,
    pub nodes: u64,
}

/// How a run has ended.
#[derive(Debug, Drop)]
pub enum Run {
    /// The volume isn't mounted.
    Unmounted(Unmounted),
    /// The script can't be read.
    Unread,
    /// This line of the script is wrong, and no line was run.
    BadLine(u32),
    /// No memory was found. Some lines may have been run.
    NoMemory,
    /// All lines were run, and the volume was closed.
    Closed(Closed),
}

/// Reads a script from a source.
fn read_script<R: Source>(alloc: Global, source: &mut R) -> Result<Script, Run>
    ensures form { IfOk result (All IsLineInForm) }
    ensures script { (left : List ℕ) → R.left source.old ≡ Some left → IfOk result (λ lines. (read : List ℕ) × IsReadOf left read × (lines ≡ script_of read) × (bad_line read ≡ None)) }
    ensures refused { (left : List ℕ) → R.left source.old ≡ Some left → IfErr result (λ run. HasNoScript run ⊎ ((read : List ℕ) × IsReadOf left read × IsScriptOf run read)) }
    ensures unread { IfErr result (λ run. run ≡ Run.Unread → Rose (R.faults source.old) (R.faults source.new)) }
    ensures early { IfErr result IsEarly }
    ensures later { R.faults source.old ≤ R.faults source.new }
{
    lines_are_in_form();
    let bytes = match read_source(alloc, source) {
        Ok(bytes) => bytes,
        Err(Unread::Failed) => return Err(Run::Unread),
        Err(Unread::NoMemory) => return Err(Run::NoMemory),
    };
    match parse_vec(alloc, bytes) {
        Ok(script) => Ok(script),
        Err(ScriptFault::Line { number }) => Err(Run::BadLine(number)),
        Err(ScriptFault::NoMemory) => Err(Run::NoMemory),
    }
}

/// Runs the lines of a script on a volume, and closes it.
fn run_lines<D: Disk, C: Clock + Drop, P: Watcher>(
    alloc: Global,
    mut volume: Volume<D, C>,
    script: &Script,
    watcher: &P,
) -> (Run, D)
    requires form { All IsLineInForm script.now }
    requires fresh { volume.space.view.history ≡ [] }
    ensures run { (t0 : Mounted) (adopted : Adoption) (first : Image) → adopted.first ≡ Some first → HasCore t0 adopted volume.space.view volume.device.books (D.state volume.device.disk) (D.clock volume.device.disk) (D.since volume.device.disk) → volume.device.books.stop ≡ None
        → HasRun t0 first result.0 script.now (D.state result.1) adopted.begun (D.since result.1) (C.stands volume.clock) (D.faults volume.device.disk) (D.faults result.1) (D.stops volume.device.disk) (D.stops result.1) }
    ensures failures { volume.device.books.stop ≡ None → HasRunFailures result.0 (D.faults volume.device.disk) (D.faults result.1) (D.stops volume.device.disk) (D.stops result.1) }
    ensures script { (read : List ℕ) → bad_line read ≡ None → IsScriptOf result.0 read }
    ensures ended { IsUnmountedRun result.0 → ⊥ }
    ensures read { result.0 ≡ Run.Unread → ⊥ }
    ensures good { (number : ℕ) → result.0 ≡ Run.BadLine number → ⊥ }
    ensures later { D.faults volume.device.disk ≤ D.faults result.1 }
    ensures disk_clock { D.clock volume.device.disk ≤ D.clock result.1 }
{
    let root = volume.root();
    let ran = run_script(alloc, &mut volume, root, script, watcher);
    let nodes = volume.nodes();
    let (disk, _clock, history, ended) = volume.close();
    match ran {
        Ok(()) => {
            let closed = Closed {
                history,
                ended,
                nodes,
            };
            (Run::Closed(closed), disk)
        }
        Err(_) => (Run::NoMemory, disk),
    }
}

/// Gives a volume up on which nothing was run.
fn give_up<D: Disk, C: Clock + Drop>(volume: Volume<D, C>, end: Run) -> (Run, D)
    requires fresh { volume.space.view.history ≡ [] }
    requires early { IsEarly end }
    ensures end { result.0 ≡ end }
    ensures disk { result.1 ≡ volume.device.disk }
    ensures run { (t0 : Mounted) (adopted : Adoption) (first : Image) (lines : List line.Line) → adopted.first ≡ Some first → HasCore t0 adopted volume.space.view volume.device.books (D.state volume.device.disk) (D.clock volume.device.disk) (D.since volume.device.disk) → volume.device.books.stop ≡ None
        → HasRun t0 first result.0 lines (D.state result.1) adopted.begun (D.since result.1) (C.stands volume.clock) (D.faults volume.device.disk) (D.faults result.1) (D.stops volume.device.disk) (D.stops result.1) }
    ensures failures { volume.device.books.stop ≡ None → HasRunFailures result.0 (D.faults volume.device.disk) (D.faults result.1) (D.stops volume.device.disk) (D.stops result.1) }
{
    let (disk, _clock, _history) = volume.abandon();
    (end, disk)
}

/// Mounts the volume on a disk, which a barrier has made quiet first.
fn mount_quiet<D: Disk, C: Clock + Drop>(
    alloc: Global,
    mut disk: D,
    clock: C,
    cache: u32,
) -> Result<Volume<D, C>, (Unmounted, D)>
    ensures core { (t0 : Mounted) (image : List ℕ) → Tells (D.state disk) (Holds image) → (mounted : IsMountedFrom image t0)
        → IfOk result (λ v. HasCore t0 (adopted_from (D.clock disk) (D.clock v.device.disk) (Some (mounted_image mounted))) v.space.view v.device.books (D.state v.device.disk) (D.clock v.device.disk) (D.since v.device.disk)) }
    ensures clock { IfOk result (λ v. v.clock ≡ clock) }
    ensures fresh { IfOk result (λ v. v.space.view.history ≡ []) }
    ensures refused { (image : List ℕ) → Tells (D.state disk) (Holds image) → IfErr result (λ e. IsUnmounted image e.0) }
    ensures moments { (image : List ℕ) → Tells (D.state disk) (Holds image) → IfErr result (λ e. (c : List ℕ) → D.since e.1 (D.clock disk) c → ∥ GoesOn image c ∥₁) }
    ensures cause { IfErr result (λ e. HasUnmountedCause (D.faults disk) (D.faults e.1) e.0) }
    ensures going { IfOk result (λ v. v.device.books.stop ≡ None) }
    ensures stops { MatchResult result (λ v. D.stops disk ≤ D.stops v.device.disk) (λ e. D.stops disk ≤ D.stops e.1) }
    ensures later { MatchResult result (λ v. D.faults disk ≤ D.faults v.device.disk) (λ e. D.faults disk ≤ D.faults e.1) }
    ensures disk_clock { MatchResult result (λ v. D.clock disk ≤ D.clock v.device.disk) (λ e. D.clock disk ≤ D.clock e.1) }
{
    let before = disk.faults();
    match make_quiet(&mut disk) {
        Ok(()) => {}
        Err(_) => {
            let after = disk.faults();
            let fault = MountFault::Disk { before, after };
            return Err((Unmounted::Unread(fault), disk));
        }
    }
    match Volume::mount(alloc, disk, clock, cache) {
        Ok(volume) => Ok(volume),
        Err((why, disk, _clock)) => Err((why, disk)),
    }
}

/// Runs the shell: a volume is mounted on the disk, a script is read from the source to its end, its lines are run one after the other, and the volume
/// is closed. `cache` is for how many read blocks there is room meanwhile. The watcher is told how many lines are run. The disk is handed back.
pub fn run_shell<D: Disk, R: Source, C: Clock + Drop, P: Watcher>(
    alloc: Global,
    disk: D,
    source: &mut R,
    clock: C,
    cache: u32,
    watcher: &P,
) -> (Run, D)
    // Why it isn't mounted is true of what the disk held, a failed disk has its cause, and a crash meanwhile left the image, or one that is replayed to
    // the same.
    ensures unmounted { (image : List ℕ) → Tells (D.state disk) (Holds image) → (why : mounting.Unmounted) → result.0 ≡ Run.Unmounted why → IsUnmounted image why }
    ensures unmounted_moments { (image : List ℕ) → Tells (D.state disk) (Holds image) → IsUnmountedRun result.0 → (c : List ℕ) → D.since result.1 (D.clock disk) c → ∥ GoesOn image c ∥₁ }
    ensures cause { (why : mounting.Unmounted) → result.0 ≡ Run.Unmounted why → HasUnmountedCause (D.faults disk) (D.faults result.1) why }
    ensures unread { result.0 ≡ Run.Unread → Rose (R.faults source.old) (R.faults source.new) }
    ensures later { D.faults disk ≤ D.faults result.1 }
    ensures disk_clock { D.clock disk ≤ D.clock result.1 }
    // Of each failed entry the disk's counts of faults, and of a stop, are told, whatever the disk tells.
    ensures failures { IsUnmountedRun result.0 ⊎ HasRunFailures result.0 (D.faults disk) (D.faults result.1) (D.stops disk) (D.stops result.1) }
    // What a script is refused for is true of it, whatever the disk tells.
    ensures script { SaysScript (R.left source.old) result.0 }
    // Over what the disk tells, it is a run of the lines that were read, on the volume that the image recovers to; from the call on.
    ensures run { (t0 : Mounted) (image : List ℕ) → Tells (D.state disk) (Holds image) → (mounted : IsMountedFrom image t0)
        → IsUnmountedRun result.0 ⊎ ((lines : List line.Line) × HasRun t0 (mounted_image mounted) result.0 lines (D.state result.1) (D.clock disk) (D.since result.1) (C.stands clock) (D.faults disk) (D.faults result.1) (D.stops disk) (D.stops result.1) × AreLinesOf (R.left source.old) result.0 lines) }
{
    let volume = match mount_quiet(alloc, disk, clock, cache) {
        Ok(volume) => volume,
        Err((why, disk)) => return (Run::Unmounted(why), disk),
    };
    match read_script(alloc, source) {
        Ok(script) => run_lines(alloc, volume, &script, watcher),
        Err(end) => give_up(volume, end),
    }
}

/// Runs a workload on the volume of a disk, as `run_shell` runs a script: the lines that follow from a seed, `count` of them behind the first four.
pub fn run_workload<D: Disk, C: Clock + Drop, P: Watcher>(
    alloc: Global,
    disk: D,
    clock: C,
    seed: u64,
    count: u32,
    cache: u32,
    watcher: &P,
) -> (Run, D)
    requires count { count ≤ 1048572 }
    ensures unmounted { (image : List ℕ) → Tells (D.state disk) (Holds image) → (why : mounting.Unmounted) → result.0 ≡ Run.Unmounted why → IsUnmounted image why }
    ensures unmounted_moments { (image : List ℕ) → Tells (D.state disk) (Holds image) → IsUnmountedRun result.0 → (c : List ℕ) → D.since result.1 (D.clock disk) c → ∥ GoesOn image c ∥₁ }
    ensures cause { (why : mounting.Unmounted) → result.0 ≡ Run.Unmounted why → HasUnmountedCause (D.faults disk) (D.faults result.1) why }
    // No script is read, and no line is wrong.
    ensures unread { result.0 ≡ Run.Unread → ⊥ }
    ensures good { (number : ℕ) → result.0 ≡ Run.BadLine number → ⊥ }
    ensures later { D.faults disk ≤ D.faults result.1 }
    ensures disk_clock { D.clock disk ≤ D.clock result.1 }
    // Of each failed entry the disk's counts of faults, and of a stop, are told, whatever the disk tells.
    ensures failures { IsUnmountedRun result.0 ⊎ HasRunFailures result.0 (D.faults disk) (D.faults result.1) (D.stops disk) (D.stops result.1) }
    // Over what the disk tells, it is a run of the workload's lines, on the volume that the image recovers to; from the call on.
    ensures run { (t0 : Mounted) (image : List ℕ) → Tells (D.state disk) (Holds image) → (mounted : IsMountedFrom image t0)
        → IsUnmountedRun result.0 ⊎ HasRun t0 (mounted_image mounted) result.0 (workload seed count) (D.state result.1) (D.clock disk) (D.since result.1) (C.stands clock) (D.faults disk) (D.faults result.1) (D.stops disk) (D.stops result.1) }
{
    workload_is_in_form();
    let volume = match mount_quiet(alloc, disk, clock, cache) {
        Ok(volume) => volume,
        Err((why, disk)) => return (Run::Unmounted(why), disk),
    };
    match make_workload(alloc, seed, count) {
        Ok(script) => run_lines(alloc, volume, &script, watcher),
        Err(_) => give_up(volume, Run::NoMemory),
    }
}
