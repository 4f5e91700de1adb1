// The command `soak`: a workload is run on a volume.
ghost use Rattle.std.specs.Prelude.{◌≡◌, ◌≢◌, ◌⊎◌, ◌≤◌, ◌+◌, ℕ, List, [], IfOk};
ghost use Rattle.bfs_base.specs.Counts.{Rose};
ghost use Rattle.bfs_disk.specs.State.{Tells, Holds};
ghost use Rattle.bfs_ports.specs.Ports.{appended};
ghost use Rattle.bfs_tree.specs.Histories.{Mounted};
ghost use Rattle.bfs_run.specs.Mounts.{IsMountedFrom, mounted_image};
ghost use Rattle.bfs_run.specs.Runs.{HasRun, IsUnmountedRun, HasRunFailures};
ghost use Rattle.bfs_run.specs.declared.run.Run as runs;
ghost use Rattle.bfs_soak.specs.Workload.{workload};
ghost use Rattle.bfs_tool.specs.Shell.{EndsAs, LeavesUnmounted, RunsBy, soak_text};
ghost use Rattle.bfs_tool.specs.Tool.{Prints};

use crate::progress::Progress;
use crate::shell::{CACHE, print_run, put_unmounted};
use bfs_disk::Disk;
use bfs_ports::{Clock, Sink};
use bfs_run::{Run, run_workload};
use bfs_soak::summarize;
use std::alloc::{AllocError, Global};
use std::time;

/// What is printed of a run over so many lines.
fn summary_of(alloc: Global, lines: u64, run: &Run) -> Result<Vec<u8>, AllocError>
    ensures { IfOk result (λ v. v.items ≡ soak_text lines run.now) }
{
    let mut out = Vec::new(alloc);
    match run {
        Run::Unmounted(why) => put_unmounted(&mut out, why)?,
        Run::Closed(closed) => {
            return summarize(alloc, lines, closed.history.as_slice(), closed.nodes);
        }
        Run::Unread | Run::BadLine(_) | Run::NoMemory => {}
    }
    Ok(out)
}

/// Runs the workload of a seed and a count on the disk's volume, as `shell` runs a script, and prints one line of it. That it ended by the disk is
/// said where the disk's count of faults rose.
pub fn soak<D: Disk, C: Clock + Drop, W: Sink, X: AllocGlobal + Eprint + time::Clock>(
    alloc: Global,
    disk: D,
    clock: C,
    seed: u64,
    count: u32,
    out: &mut W,
    progress: &Progress<'_, X>,
) -> (u8, D)
    requires count { count ≤ 1048572 }
    ensures ends { (run : runs.Run) × EndsAs run result.0
        × (result.0 ≢ 7 → Prints (W.written out.old) (W.written out.new) (W.faults out.old) (W.faults out.new) (soak_text (4 + count) run))
        × (result.0 ≡ 0 → W.written out.new ≡ appended (W.written out.old) (soak_text (4 + count) run))
        × ((image : List ℕ) → Tells (D.state disk) (Holds image) → RunsBy image run × LeavesUnmounted image run (D.clock disk) (D.since result.1))
        × ((t0 : Mounted) (image : List ℕ) → Tells (D.state disk) (Holds image) → (mounted : IsMountedFrom image t0)
        → IsUnmountedRun run ⊎ HasRun t0 (mounted_image mounted) run (workload seed count) (D.state result.1) (D.clock disk) (D.since result.1) (C.stands clock) (D.faults disk) (D.faults result.1) (D.stops disk) (D.stops result.1))
        × (IsUnmountedRun run ⊎ HasRunFailures run (D.faults disk) (D.faults result.1) (D.stops disk) (D.stops result.1)) }
    ensures silent { result.0 ≡ 7 → W.written out.new ≡ appended (W.written out.old) [] }
    ensures disk_failed { result.0 ≡ 4 → Rose (D.faults disk) (D.faults result.1) }
    ensures output_failed { result.0 ≡ 6 → Rose (W.faults out.old) (W.faults out.new) }
    ensures others { (result.0 ≡ 2) ⊎ ((result.0 ≡ 5) ⊎ ((result.0 ≡ 8) ⊎ ((result.0 ≡ 9) ⊎ ((result.0 ≡ 10) ⊎ (result.0 ≡ 11))))) → ⊥ }
    ensures disk_later { D.faults disk ≤ D.faults result.1 }
    ensures disk_clock { D.clock disk ≤ D.clock result.1 }
    ensures output_later { W.faults out.old ≤ W.faults out.new }
{
    let before = disk.faults();
    let (run, disk) = run_workload(alloc, disk, clock, seed, count, CACHE, progress);
    progress.end();
    let after = disk.faults();
    let text = summary_of(alloc, 4 + u64::from(count), &run);
    let shown = print_run(text, &run, before, after, out);
    (shown, disk)
}
