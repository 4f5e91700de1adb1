// All lines of a script, one after the other.
ghost use Rattle.std.specs.Prelude.{◌≡◌, ◌≤◌, ◌<◌, ◌+◌, ℕ, [], Some, take, length, OnOk, OnErr};
ghost use Rattle.std.specs.List.{All, slice_get};
ghost use Rattle.bfs_tree.specs.Histories.{Mounted};
ghost use Rattle.bfs_device_blocks.specs.Lent.{HasCore};
ghost use Rattle.bfs_core.specs.Moments.{Adoption};
ghost use Rattle.bfs_command.specs.Forms.{IsLineInForm};
ghost use Rattle.bfs_command.specs.Spelled.{Spelled, SpelledSoFar};
ghost use Rattle.bfs_volume.specs.Stamps.{HasDrawn};
ghost use Rattle.bfs_volume.specs.Failing.{HasFailures};

use crate::line::run_line;
use crate::watch::Watcher;
use bfs_command::{Line, line_is_spelled, nothing_is_spelled, stop_is_spelled};
use bfs_disk::Disk;
use bfs_ports::Clock;
use bfs_script::Script;
use bfs_volume::Volume;
use std::alloc::{AllocError, Global};

/// Runs the line of a place, behind those in front of it.
fn run_read<D: Disk, C: Clock>(
    alloc: Global,
    volume: &mut Volume<D, C>,
    root: u64,
    script: &Script,
    at: usize,
    line: &Line,
) -> Result<(), AllocError>
    requires item { slice_get script.now at ≡ Some line.now }
    requires line { IsLineInForm line.now }
    requires spelled { Spelled root volume.old.space.view.history (take at script.now) }
    ensures spelled { OnOk result (Spelled root volume.new.space.view.history (take (at + 1) script.now)) }
    ensures so_far { OnErr result (SpelledSoFar root volume.new.space.view.history script.now) }
    ensures clock { C.stands volume.new.clock ≡ C.stands volume.old.clock }
    ensures stamps { (s : ℕ) → C.stands volume.old.clock ≡ Some s → HasDrawn volume.old.space.view.history volume.new.space.view.history s }
    ensures core { (t0 : Mounted) (adopted : Adoption) → HasCore t0 adopted volume.old.space.view volume.old.device.books (D.state volume.old.device.disk) (D.clock volume.old.device.disk) (D.since volume.old.device.disk)
        → HasCore t0 adopted volume.new.space.view volume.new.device.books (D.state volume.new.device.disk) (D.clock volume.new.device.disk) (D.since volume.new.device.disk) }
    ensures later { D.faults volume.old.device.disk ≤ D.faults volume.new.device.disk }
    ensures disk_clock { D.clock volume.old.device.disk ≤ D.clock volume.new.device.disk }
    ensures failures { HasFailures volume.old.space.view.history volume.new.space.view.history volume.old.device.books.stop volume.new.device.books.stop (D.faults volume.old.device.disk) (D.faults volume.new.device.disk) (D.stops volume.old.device.disk) (D.stops volume.new.device.disk) }
{
    let _ = script;
    let _ = at;
    line_is_spelled();
    stop_is_spelled();
    match run_line(alloc, volume, root, line) {
        Ok(()) => Ok(()),
        Err(fault) => Err(fault),
    }
}

/// Reads the line at a place, and runs it.
fn run_next<D: Disk, C: Clock>(
    alloc: Global,
    volume: &mut Volume<D, C>,
    root: u64,
    script: &Script,
    at: usize,
) -> Result<(), AllocError>
    requires at { at < length script.now }
    requires form { All IsLineInForm script.now }
    requires spelled { Spelled root volume.old.space.view.history (take at script.now) }
    ensures spelled { OnOk result (Spelled root volume.new.space.view.history (take (at + 1) script.now)) }
    ensures so_far { OnErr result (SpelledSoFar root volume.new.space.view.history script.now) }
    ensures clock { C.stands volume.new.clock ≡ C.stands volume.old.clock }
    ensures stamps { (s : ℕ) → C.stands volume.old.clock ≡ Some s → HasDrawn volume.old.space.view.history volume.new.space.view.history s }
    ensures core { (t0 : Mounted) (adopted : Adoption) → HasCore t0 adopted volume.old.space.view volume.old.device.books (D.state volume.old.device.disk) (D.clock volume.old.device.disk) (D.since volume.old.device.disk)
        → HasCore t0 adopted volume.new.space.view volume.new.device.books (D.state volume.new.device.disk) (D.clock volume.new.device.disk) (D.since volume.new.device.disk) }
    ensures later { D.faults volume.old.device.disk ≤ D.faults volume.new.device.disk }
    ensures disk_clock { D.clock volume.old.device.disk ≤ D.clock volume.new.device.disk }
    ensures failures { HasFailures volume.old.space.view.history volume.new.space.view.history volume.old.device.books.stop volume.new.device.books.stop (D.faults volume.old.device.disk) (D.faults volume.new.device.disk) (D.stops volume.old.device.disk) (D.stops volume.new.device.disk) }
{
    stop_is_spelled();
    match script.line(alloc, at) {
        Ok(line) => run_read(alloc, volume, root, script, at, &line),
        Err(fault) => Err(fault),
    }
}

/// Tells a watcher how many lines are run.
fn tell<D: Disk, C: Clock, P: Watcher>(
    volume: &Volume<D, C>,
    done: usize,
    all: usize,
    watcher: &P,
) {
    let entries = volume.history().len() as u64;
    watcher.lines(done as u64, all as u64, entries, volume.groups());
}

/// Runs the lines of a script on a volume, one after the other, as one worker does; their paths begin at `root`. Where no memory is found it stops:
/// the entries so far are the first of those of the lines. Behind each line the watcher is told how far it has come.
pub fn run_script<D: Disk, C: Clock, P: Watcher>(
    alloc: Global,
    volume: &mut Volume<D, C>,
    root: u64,
    script: &Script,
    watcher: &P,
) -> Result<(), AllocError>
    requires form { All IsLineInForm script.now }
    requires fresh { volume.old.space.view.history ≡ [] }
    ensures spelled { OnOk result (Spelled root volume.new.space.view.history script.now) }
    ensures so_far { OnErr result (SpelledSoFar root volume.new.space.view.history script.now) }
    ensures clock { C.stands volume.new.clock ≡ C.stands volume.old.clock }
    ensures stamps { (s : ℕ) → C.stands volume.old.clock ≡ Some s → HasDrawn volume.old.space.view.history volume.new.space.view.history s }
    // What the volume was over what its disk tells, it is.
    ensures core { (t0 : Mounted) (adopted : Adoption) → HasCore t0 adopted volume.old.space.view volume.old.device.books (D.state volume.old.device.disk) (D.clock volume.old.device.disk) (D.since volume.old.device.disk)
        → HasCore t0 adopted volume.new.space.view volume.new.device.books (D.state volume.new.device.disk) (D.clock volume.new.device.disk) (D.since volume.new.device.disk) }
    ensures later { D.faults volume.old.device.disk ≤ D.faults volume.new.device.disk }
    ensures disk_clock { D.clock volume.old.device.disk ≤ D.clock volume.new.device.disk }
    ensures failures { HasFailures volume.old.space.view.history volume.new.space.view.history volume.old.device.books.stop volume.new.device.books.stop (D.faults volume.old.device.disk) (D.faults volume.new.device.disk) (D.stops volume.old.device.disk) (D.stops volume.new.device.disk) }
{
    nothing_is_spelled();
    'lines: for at in 0..script.len() {
        match run_next(alloc, volume, root, script, at) {
            Ok(()) => tell(volume, at + 1, script.len(), watcher),
            Err(fault) => return Err(fault),
        }
    }
    Ok(())
}
