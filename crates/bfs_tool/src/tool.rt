// The top call.
ghost use Rattle.std.specs.Prelude.{◌≡◌, ◌≢◌, ◌⊎◌, ◌↔◌, ◌≤◌, ◌+◌, ℕ, List, [], Bool, Ok, IfOk, MatchOption};
ghost use Rattle.bfs_base.specs.Counts.{Rose};
ghost use Rattle.bfs_disk.specs.State.{State, IsQuiet, ReadsAs, Tells, Holds};
ghost use Rattle.bfs_mkfs.specs.Format.{IsRefused};
ghost use Rattle.bfs_ports.specs.Ports.{appended};
ghost use Rattle.bfs_super.specs.Geometry.{IsBlockSize};
ghost use Rattle.bfs_super.specs.Label.{IsLabel};
ghost use Rattle.bfs_replay.specs.Homing.{Reads};
ghost use Rattle.bfs_replay.specs.Recover.{GoesOn};
ghost use Rattle.bfs_tool.specs.declared.checking.Checking.{Checking};
ghost use Rattle.bfs_tool.specs.Check.{ChecksBy, HasText, IsCheckedBy, IsReplayedOn, IsWhole, checking_status, checking_text};
ghost use Rattle.bfs_tool.specs.declared.label.Ending.{Ending};
ghost use Rattle.bfs_tool.specs.Label.{EndsBy, LabelsBy, OldOrNew, labelled, label_status, label_text};
ghost use Rattle.bfs_tool.specs.declared.make.Making.{Making};
ghost use Rattle.bfs_tool.specs.Make.{IsNewVolume, IsMade, MakesBy, making_status, making_text};
ghost use Rattle.bfs_tool.specs.Complete.{CanBeDone, IsCompleteStatus};
ghost use Rattle.bfs_tool.specs.Tool.{Prints, Runs, usage_text};
ghost use Rattle.bfs_words.specs.declared.command.Command.TheVariants as commands;
ghost use Rattle.bfs_words.specs.declared.command.Workload.{Workload};
ghost use Rattle.bfs_words.specs.Words.{Asks, IsLabelCommand, IsMakeCommand, IsCheckCommand, IsFaulty, IsShellCommand, IsSoakCommand};
ghost use Rattle.bfs_tree.specs.Histories.{Mounted};
ghost use Rattle.bfs_command.specs.declared.line.Line as line;
ghost use Rattle.bfs_run.specs.Mounts.{IsMountedFrom, mounted_image};
ghost use Rattle.bfs_run.specs.Runs.{AreLinesOf, HasRun, IsUnmountedRun, SaysScript, HasRunFailures};
ghost use Rattle.bfs_run.specs.declared.run.Run as runs;
ghost use Rattle.bfs_soak.specs.Workload.{workload};
ghost use Rattle.bfs_tool.specs.Shell.{EndsAs, LeavesUnmounted, RunsBy, run_text, soak_text};

use crate::checking::{Checking, check_volume};
use crate::label::relabel;
use crate::make::make_volume;
use crate::output::report;
use crate::progress::{Progress, Terminal};
use crate::shell::shell;
use crate::soaking::soak;
use crate::watched::WatchedDisk;
use bfs_disk::Disk;
use bfs_ports::{Clock, Gate, Sink, Source};
use bfs_words::{Argument, Command, Workload, read_words};
use std::alloc::{AllocError, Global};
use std::time;

const USAGE: &str =
    "usage: bfs IMAGE (label NAME | mk --blocks N [--block-size B] [--name NAME] | check | sh [-j N] | soak SEED COUNT [-j N])\n";

// Prints how `label` ended, and tells the status.
fn label<D: Disk, W: Sink>(disk: &mut D, name: &[u8], out: &mut W) -> u8
    requires { IsLabel name.now }
    ensures ends { (ending : Ending) × (result ≡ label_status ending)
        × Prints (W.written out.old) (W.written out.new) (W.faults out.old) (W.faults out.new) (label_text ending)
        × LabelsBy (D.size disk.new) ending × (result ≡ 0 → W.written out.new ≡ appended (W.written out.old) (label_text ending))
        × ((image : List ℕ) → Tells (D.state disk.old) (λ s. ReadsAs s image) → EndsBy image ending) }
    ensures refused { (result ≡ 3) ⊎ (result ≡ 11) → D.state disk.new ≡ D.state disk.old }
    ensures done { (image : List ℕ) → Tells (D.state disk.old) (Holds image) → result ≡ 0 → Tells (D.state disk.new) (Holds (labelled name.now image)) }
    ensures moments { (image : List ℕ) → Tells (D.state disk.old) (Holds image) → (c : List ℕ) → D.since disk.new (D.clock disk.old) c → OldOrNew name.now image c }
    ensures disk_failed { result ≡ 4 → Rose (D.faults disk.old) (D.faults disk.new) }
    ensures others { (result ≡ 2) ⊎ (result ≡ 6) → ⊥ }
    ensures script { result ≡ 5 → ⊥ }
    ensures disk_later { D.faults disk.old ≤ D.faults disk.new }
    ensures clock_later { D.clock disk.old ≤ D.clock disk.new }
    ensures output_later { W.faults out.old ≤ W.faults out.new }
{
    let ending = relabel(disk, name);
    let line = ending.line();
    report(out, line.bytes(), ending.status())
}

// Prints how `mk` ended, and tells the status.
fn make<D: Disk, C: Clock, W: Sink>(
    alloc: Global,
    disk: &mut D,
    clock: &mut C,
    blocks: u64,
    block_size: u32,
    name: &[u8],
    out: &mut W,
) -> u8
    requires size { IsBlockSize block_size }
    requires few { blocks ≤ 4194304 }
    requires label { IsLabel name.now }
    ensures ends { (making : Making) × ((result ≡ making_status making) ⊎ (IsMade making × (result ≡ 6)))
        × Prints (W.written out.old) (W.written out.new) (W.faults out.old) (W.faults out.new) (making_text making)
        × MakesBy (D.size disk.new) blocks block_size making × (result ≡ 0 → W.written out.new ≡ appended (W.written out.old) (making_text making)) }
    ensures refused { (result ≡ 7) ⊎ (result ≡ 10) → D.state disk.new ≡ D.state disk.old }
    ensures made { (image : List ℕ) → Tells (D.state disk.old) (Holds image) → (result ≡ 0) ⊎ (result ≡ 6)
        → Tells (D.state disk.new) (λ s. IsQuiet s × ((c : List ℕ) → ReadsAs s c → IsNewVolume blocks block_size name.now (C.stands clock.old) c)) }
    ensures moments { (image : List ℕ) → Tells (D.state disk.old) (Holds image) → (c : List ℕ) → D.since disk.new (D.clock disk.old) c
        → (c ≡ image) ⊎ (IsRefused c ⊎ IsNewVolume blocks block_size name.now (C.stands clock.old) c) }
    ensures disk_failed { result ≡ 4 → Rose (D.faults disk.old) (D.faults disk.new) }
    ensures output_failed { result ≡ 6 → Rose (W.faults out.old) (W.faults out.new) }
    ensures others { (result ≡ 2) ⊎ ((result ≡ 3) ⊎ (result ≡ 11)) → ⊥ }
    ensures script { result ≡ 5 → ⊥ }
    ensures disk_later { D.faults disk.old ≤ D.faults disk.new }
    ensures clock_later { D.clock disk.old ≤ D.clock disk.new }
    ensures output_later { W.faults out.old ≤ W.faults out.new }
{
    let making = make_volume(alloc, disk, clock, blocks, block_size, name);
    let line = making.line();
    report(out, line.bytes(), making.status())
}

// Prints how a check ended, and tells the status. Where no memory is found for the text, nothing is printed.
fn print_checking<W: Sink>(alloc: Global, checking: &Checking, out: &mut W) -> u8
    ensures ends { ((result ≡ 7) × HasText checking.now) ⊎ (((result ≡ checking_status checking.now) ⊎ (IsWhole checking.now × (result ≡ 6)))
        × Prints (W.written out.old) (W.written out.new) (W.faults out.old) (W.faults out.new) (checking_text checking.now)
        × (result ≡ 0 → W.written out.new ≡ appended (W.written out.old) (checking_text checking.now))) }
    ensures silent { result ≡ 7 → W.written out.new ≡ appended (W.written out.old) [] }
    ensures output_failed { result ≡ 6 → Rose (W.faults out.old) (W.faults out.new) }
    ensures output_later { W.faults out.old ≤ W.faults out.new }
{
    match checking.text(alloc) {
        Ok(text) => report(out, &text, checking.status()),
        Err(_) => 7,
    }
}

// Prints how `check` ended, and tells the status.
fn check<D: Disk, W: Sink, X: AllocGlobal + Eprint + time::Clock>(
    alloc: Global,
    disk: &mut D,
    out: &mut W,
    progress: &Progress<'_, X>,
) -> u8
    ensures ends { (result ≡ 7) ⊎ ((checking : Checking) × ((result ≡ checking_status checking) ⊎ (IsWhole checking × (result ≡ 6)))
        × Prints (W.written out.old) (W.written out.new) (W.faults out.old) (W.faults out.new) (checking_text checking)
        × IsCheckedBy (D.size disk.new) checking × (result ≡ 0 → W.written out.new ≡ appended (W.written out.old) (checking_text checking))
        × ((image : List ℕ) → Tells (D.state disk.old) (λ s. ReadsAs s image) → ChecksBy image checking)) }
    ensures silent { result ≡ 7 → W.written out.new ≡ appended (W.written out.old) [] }
    ensures refused { result ≡ 3 → D.state disk.new ≡ D.state disk.old }
    ensures replayed { (quiet : Bool) (image : List ℕ) → Tells (D.state disk.old) (Reads quiet image) → (result ≡ 0) ⊎ (result ≡ 6) ⊎ (result ≡ 8) → IsReplayedOn quiet image (D.state disk.new) }
    ensures unfinished { (quiet : Bool) (image : List ℕ) → Tells (D.state disk.old) (Reads quiet image) → result ≡ 7 → (D.state disk.new ≡ D.state disk.old) ⊎ IsReplayedOn quiet image (D.state disk.new) }
    ensures moments { (image : List ℕ) → Tells (D.state disk.old) (Holds image) → (c : List ℕ) → D.since disk.new (D.clock disk.old) c → ∥ GoesOn image c ∥₁ }
    ensures disk_failed { result ≡ 4 → Rose (D.faults disk.old) (D.faults disk.new) }
    ensures output_failed { result ≡ 6 → Rose (W.faults out.old) (W.faults out.new) }
    ensures others { (result ≡ 2) ⊎ ((result ≡ 10) ⊎ (result ≡ 11)) → ⊥ }
    ensures script { result ≡ 5 → ⊥ }
    ensures disk_later { D.faults disk.old ≤ D.faults disk.new }
    ensures clock_later { D.clock disk.old ≤ D.clock disk.new }
    ensures output_later { W.faults out.old ≤ W.faults out.new }
{
    let checking = check_volume(alloc, disk);
    progress.end();
    print_checking(alloc, &checking, out)
}

// Runs the command that the words ask for, but for `sh` and `soak`. The words are read by now, unless memory is wanting.
fn run<X: AllocGlobal + Eprint + time::Clock, D: Disk, C: Clock, W: Sink>(
    rt: &X,
    words: &[Argument],
    command: Result<Command, AllocError>,
    disk: &mut D,
    clock: &mut C,
    out: &mut W,
    progress: &Progress<'_, X>,
) -> u8
    requires asks { IfOk command (Asks words.now) }
    requires no_shell { command ≡ Ok commands.Shell → ⊥ }
    requires no_soak { (w : Workload) → command ≡ Ok (commands.Soak w) → ⊥ }
    ensures usage { words.now ≡ [] → (result ≡ 0) ⊎ (result ≡ 6) }
    ensures faulty { result ≡ 2 → IsFaulty words.now }
    ensures refused_words { IsFaulty words.now → (result ≡ 2) ⊎ (result ≡ 7) }
    ensures texts { words.now ≡ [] ⊎ (result ≡ 2) → Prints (W.written out.old) (W.written out.new) (W.faults out.old) (W.faults out.new) usage_text }
    ensures whole { words.now ≡ [] → result ≡ 0 → W.written out.new ≡ appended (W.written out.old) usage_text }
    ensures idle { words.now ≡ [] ⊎ IsFaulty words.now → D.state disk.new ≡ D.state disk.old }
    ensures silent { result ≡ 7 → W.written out.new ≡ appended (W.written out.old) [] }
    ensures label { (name : List ℕ) → IsLabelCommand words.now name → (result ≡ 7) ⊎ ((ending : Ending) × (result ≡ label_status ending)
        × Prints (W.written out.old) (W.written out.new) (W.faults out.old) (W.faults out.new) (label_text ending)
        × LabelsBy (D.size disk.new) ending × (result ≡ 0 → W.written out.new ≡ appended (W.written out.old) (label_text ending))
        × ((image : List ℕ) → Tells (D.state disk.old) (λ s. ReadsAs s image) → EndsBy image ending)) }
    ensures make { (blocks size : ℕ) (label : List ℕ) → IsMakeCommand words.now blocks size label → (result ≡ 7) ⊎ ((making : Making)
        × ((result ≡ making_status making) ⊎ (IsMade making × (result ≡ 6)))
        × Prints (W.written out.old) (W.written out.new) (W.faults out.old) (W.faults out.new) (making_text making) × MakesBy (D.size disk.new) blocks size making
        × (result ≡ 0 → W.written out.new ≡ appended (W.written out.old) (making_text making))) }
    ensures check { IsCheckCommand words.now → (result ≡ 7) ⊎ ((checking : Checking) × ((result ≡ checking_status checking) ⊎ (IsWhole checking × (result ≡ 6)))
        × Prints (W.written out.old) (W.written out.new) (W.faults out.old) (W.faults out.new) (checking_text checking)
        × IsCheckedBy (D.size disk.new) checking × (result ≡ 0 → W.written out.new ≡ appended (W.written out.old) (checking_text checking))
        × ((image : List ℕ) → Tells (D.state disk.old) (λ s. ReadsAs s image) → ChecksBy image checking)) }
    ensures runs { Runs words.now → (result ≡ 7) × (disk.new ≡ disk.old) }
    ensures refused { (result ≡ 3) ⊎ (result ≡ 11) ⊎ ((result ≡ 7) × ¬ IsCheckCommand words.now) ⊎ (result ≡ 10) → D.state disk.new ≡ D.state disk.old }
    ensures replayed { (quiet : Bool) (image : List ℕ) → IsCheckCommand words.now → Tells (D.state disk.old) (Reads quiet image) → (result ≡ 0) ⊎ (result ≡ 6) ⊎ (result ≡ 8) → IsReplayedOn quiet image (D.state disk.new) }
    ensures unfinished { (quiet : Bool) (image : List ℕ) → IsCheckCommand words.now → Tells (D.state disk.old) (Reads quiet image) → result ≡ 7 → (D.state disk.new ≡ D.state disk.old) ⊎ IsReplayedOn quiet image (D.state disk.new) }
    ensures labelled { (name image : List ℕ) → IsLabelCommand words.now name → Tells (D.state disk.old) (Holds image) → result ≡ 0 → Tells (D.state disk.new) (Holds (labelled name image)) }
    ensures made { (blocks size : ℕ) (label image : List ℕ) → IsMakeCommand words.now blocks size label → Tells (D.state disk.old) (Holds image) → (result ≡ 0) ⊎ (result ≡ 6)
        → Tells (D.state disk.new) (λ s. IsQuiet s × ((c : List ℕ) → ReadsAs s c → IsNewVolume blocks size label (C.stands clock.old) c)) }
    ensures moments { (image : List ℕ) → Tells (D.state disk.old) (Holds image) → (c : List ℕ) → D.since disk.new (D.clock disk.old) c
        → (c ≡ image) ⊎ ((name : List ℕ) × IsLabelCommand words.now name × (c ≡ labelled name image))
        ⊎ ((blocks : ℕ) × (size : ℕ) × (label : List ℕ) × IsMakeCommand words.now blocks size label × (IsRefused c ⊎ IsNewVolume blocks size label (C.stands clock.old) c))
        ⊎ (IsCheckCommand words.now × ∥ GoesOn image c ∥₁) }
    ensures disk_failed { result ≡ 4 → Rose (D.faults disk.old) (D.faults disk.new) }
    ensures script_whole { result ≡ 5 → ⊥ }
    ensures output_failed { result ≡ 6 → Rose (W.faults out.old) (W.faults out.new) }
    ensures disk_later { D.faults disk.old ≤ D.faults disk.new }
    ensures clock_later { D.clock disk.old ≤ D.clock disk.new }
    ensures output_later { W.faults out.old ≤ W.faults out.new }
{
    if words.is_empty() {
        return report(out, USAGE.as_bytes(), 0);
    }
    let Ok(command) = command else {
        return 7;
    };
    match command {
        Command::Usage | Command::Shell | Command::Soak(_) => unreachable!(),
        Command::Faulty(complaint) => {
            let _ = rt.eprint(complaint);
            report(out, USAGE.as_bytes(), 2)
        }
        Command::Check => check(rt.alloc(), disk, out, progress),
        Command::Label(name) => label(disk, name, out),
        Command::Make(volume) => make(
            rt.alloc(),
            disk,
            clock,
            volume.blocks,
            volume.block_size,
            volume.label,
            out,
        ),
    }
}

// The workload that is asked for, where it is one.
fn workload_of(command: &Result<Command, AllocError>) -> Option<Workload>
    ensures { MatchOption result ((w : Workload) → command.now ≡ Ok (commands.Soak w) → ⊥) (λ w. command.now ≡ Ok (commands.Soak w)) }
{
    match command {
        Ok(Command::Soak(workload)) => Some(*workload),
        _ => None,
    }
}

/// Whether the command that is asked for may take long.
fn is_long(command: &Result<Command, AllocError>) -> bool {
    matches!(
        command,
        Ok(Command::Shell | Command::Soak(_) | Command::Check)
    )
}

/// Runs the command that the words ask for, and hands the disk back with the status. Which word is wrong goes to the standard
/// error; where that is a terminal, so does a line that tells how far `sh`, `soak` and `check` have come, and that is wiped before
/// anything is printed.
///
/// Statuses: 0 done, 2 faulty words, 3 not a volume, 4 the disk failed, 5 the script can't be read, 6 the output failed, 7 no memory, 8 the volume
/// isn't whole, 9 a line of the script is wrong, 10 too small for a volume, 11 the log isn't empty, 14 the volume is damaged. `clock` gives the second
/// at which a new volume is made, and those of stamps.
pub fn bfs<
    X: AllocGlobal + Eprint + Terminal + time::Clock,
    D: Disk + Send,
    R: Source,
    W: Sink,
    C: Clock + Send + Drop,
    G: Gate + Sync,
>(
    rt: &X,
    words: &[Argument],
    disk: D,
    script: &mut R,
    out: &mut W,
    mut clock: C,
    _gate: &G,
) -> (u8, D)
    // No words print the usage text, all of it at status 0. Status 2 comes only where the words are no command, and there
    // always, unless memory is wanting.
    ensures usage { words.now ≡ [] → (result.0 ≡ 0) ⊎ (result.0 ≡ 6) }
    ensures faulty { result.0 ≡ 2 → IsFaulty words.now }
    ensures refused_words { IsFaulty words.now → (result.0 ≡ 2) ⊎ (result.0 ≡ 7) }
    ensures texts { words.now ≡ [] ⊎ (result.0 ≡ 2) → Prints (W.written out.old) (W.written out.new) (W.faults out.old) (W.faults out.new) usage_text }
    ensures whole { words.now ≡ [] → result.0 ≡ 0 → W.written out.new ≡ appended (W.written out.old) usage_text }
    ensures idle { words.now ≡ [] ⊎ IsFaulty words.now → D.state result.1 ≡ D.state disk }

    // Where memory is wanting nothing is printed.
    ensures silent { result.0 ≡ 7 → W.written out.new ≡ appended (W.written out.old) [] }

    // `label NAME` ends by what the disk reads, with the status and the text of that ending, which is printed whole at status 0.
    // Over a disk that tells nothing it has its cause in the number of sectors, or in a superblock.
    ensures label { (name : List ℕ) → IsLabelCommand words.now name → (result.0 ≡ 7) ⊎ ((ending : Ending) × (result.0 ≡ label_status ending)
        × Prints (W.written out.old) (W.written out.new) (W.faults out.old) (W.faults out.new) (label_text ending)
        × LabelsBy (D.size result.1) ending × (result.0 ≡ 0 → W.written out.new ≡ appended (W.written out.old) (label_text ending))
        × ((image : List ℕ) → Tells (D.state disk) (λ s. ReadsAs s image) → EndsBy image ending)) }

    // `mk` ends by its numbers and those of the disk, with the status and the text of that ending, or with 6 where it
    // was made and the output failed.
    ensures make { (blocks size : ℕ) (label : List ℕ) → IsMakeCommand words.now blocks size label → (result.0 ≡ 7) ⊎ ((making : Making)
        × ((result.0 ≡ making_status making) ⊎ (IsMade making × (result.0 ≡ 6)))
        × Prints (W.written out.old) (W.written out.new) (W.faults out.old) (W.faults out.new) (making_text making) × MakesBy (D.size result.1) blocks size making
        × (result.0 ≡ 0 → W.written out.new ≡ appended (W.written out.old) (making_text making))) }

    // `check` ends by what the disk reads, with the status and the text of that ending, or with 6 where the volume is whole and
    // the output failed.
    ensures check { IsCheckCommand words.now → (result.0 ≡ 7) ⊎ ((checking : Checking) × ((result.0 ≡ checking_status checking) ⊎ (IsWhole checking × (result.0 ≡ 6)))
        × Prints (W.written out.old) (W.written out.new) (W.faults out.old) (W.faults out.new) (checking_text checking)
        × IsCheckedBy (D.size result.1) checking × (result.0 ≡ 0 → W.written out.new ≡ appended (W.written out.old) (checking_text checking))
        × ((image : List ℕ) → Tells (D.state disk) (λ s. ReadsAs s image) → ChecksBy image checking)) }

    // `sh` makes a run of the script, and ends and prints by it: with its status, for want of memory, or where all was well by the output. Why a volume
    // isn't mounted is true of the image; a line that is refused is the first bad one of the script. On a volume that recovers, its entries are one
    // history of the plain tree, spelled by the script's lines; and what a crash then leaves recovers to the tree after so many of them that all is
    // there which a sync has acknowledged, and after all of them where the volume was closed well. What a crash at any moment of the call leaves,
    // replay's own writes included, recovers to the tree after a prefix of them; and where the volume isn't mounted, it is replayed to the same.
    // Whatever the disk tells, the failures of the entries lie one behind the other between its counts of faults before and after the call.
    ensures shell { IsShellCommand words.now → ((result.0 ≡ 7) × (result.1 ≡ disk)) ⊎ ((run : runs.Run) × EndsAs run result.0
        × (result.0 ≢ 7 → Prints (W.written out.old) (W.written out.new) (W.faults out.old) (W.faults out.new) (run_text run))
        × (result.0 ≡ 0 → W.written out.new ≡ appended (W.written out.old) (run_text run))
        × ((image : List ℕ) → Tells (D.state disk) (Holds image) → RunsBy image run × LeavesUnmounted image run (D.clock disk) (D.since result.1))
        × SaysScript (R.left script.old) run
        × ((t0 : Mounted) (image : List ℕ) → Tells (D.state disk) (Holds image) → (mounted : IsMountedFrom image t0)
        → IsUnmountedRun run ⊎ ((lines : List line.Line) × HasRun t0 (mounted_image mounted) run lines (D.state result.1) (D.clock disk) (D.since result.1) (C.stands clock) (D.faults disk) (D.faults result.1) (D.stops disk) (D.stops result.1) × AreLinesOf (R.left script.old) run lines))
        × (IsUnmountedRun run ⊎ HasRunFailures run (D.faults disk) (D.faults result.1) (D.stops disk) (D.stops result.1))) }

    // `soak SEED COUNT` makes a run of that workload as `sh` makes one of a script, on a volume that recovers one of its 4 + COUNT lines, and prints the
    // line of it: how many lines there were, how many of its entries are done and how many refused, and how many nodes the tree has after it. No
    // script is read.
    ensures soak { (seed count : ℕ) → IsSoakCommand words.now seed count → ((result.0 ≡ 7) × (result.1 ≡ disk)) ⊎ ((run : runs.Run) × EndsAs run result.0
        × (result.0 ≢ 7 → Prints (W.written out.old) (W.written out.new) (W.faults out.old) (W.faults out.new) (soak_text (4 + count) run))
        × (result.0 ≡ 0 → W.written out.new ≡ appended (W.written out.old) (soak_text (4 + count) run))
        × ((image : List ℕ) → Tells (D.state disk) (Holds image) → RunsBy image run × LeavesUnmounted image run (D.clock disk) (D.since result.1))
        × ((t0 : Mounted) (image : List ℕ) → Tells (D.state disk) (Holds image) → (mounted : IsMountedFrom image t0)
        → IsUnmountedRun run ⊎ HasRun t0 (mounted_image mounted) run (workload seed count) (D.state result.1) (D.clock disk) (D.since result.1) (C.stands clock) (D.faults disk) (D.faults result.1) (D.stops disk) (D.stops result.1))
        × (IsUnmountedRun run ⊎ HasRunFailures run (D.faults disk) (D.faults result.1) (D.stops disk) (D.stops result.1))) }
    ensures no_script { (seed count : ℕ) → IsSoakCommand words.now seed count → (result.0 ≡ 5) ⊎ (result.0 ≡ 9) → ⊥ }

    // But for `sh` and `soak`, the disk is as before at the statuses 3, 10 and 11, and so it is at 7, but for `check`. At 0 the label is on the disk, or the
    // new volume.
    ensures refused { (Runs words.now → ⊥) → (result.0 ≡ 3) ⊎ (result.0 ≡ 11) ⊎ ((result.0 ≡ 7) × ¬ IsCheckCommand words.now) ⊎ (result.0 ≡ 10) → D.state result.1 ≡ D.state disk }
    ensures labelled { (name image : List ℕ) → IsLabelCommand words.now name → Tells (D.state disk) (Holds image) → result.0 ≡ 0 → Tells (D.state result.1) (Holds (labelled name image)) }
    ensures made { (blocks size : ℕ) (label image : List ℕ) → IsMakeCommand words.now blocks size label → Tells (D.state disk) (Holds image) → (result.0 ≡ 0) ⊎ (result.0 ≡ 6)
        → Tells (D.state result.1) (λ s. IsQuiet s × ((c : List ℕ) → ReadsAs s c → IsNewVolume blocks size label (C.stands clock) c)) }

    // `check` leaves what replay gives at 0, 6 and 8, and that or the disk as it was at 7. It is quiet where it was.
    ensures replayed { (quiet : Bool) (image : List ℕ) → IsCheckCommand words.now → Tells (D.state disk) (Reads quiet image) → (result.0 ≡ 0) ⊎ (result.0 ≡ 6) ⊎ (result.0 ≡ 8) → IsReplayedOn quiet image (D.state result.1) }
    ensures unfinished { (quiet : Bool) (image : List ℕ) → IsCheckCommand words.now → Tells (D.state disk) (Reads quiet image) → result.0 ≡ 7 → (D.state result.1 ≡ D.state disk) ⊎ IsReplayedOn quiet image (D.state result.1) }

    // But for `sh` and `soak`, a crash at any moment leaves the old image or the one with the new label; of `mk` the old image, one whose
    // superblock is refused, or the new volume; of `check` the old image, or one that is replayed to the same.
    ensures moments { (Runs words.now → ⊥) → (image : List ℕ) → Tells (D.state disk) (Holds image) → (c : List ℕ) → D.since result.1 (D.clock disk) c
        → (c ≡ image) ⊎ ((name : List ℕ) × IsLabelCommand words.now name × (c ≡ labelled name image))
        ⊎ ((blocks : ℕ) × (size : ℕ) × (label : List ℕ) × IsMakeCommand words.now blocks size label × (IsRefused c ⊎ IsNewVolume blocks size label (C.stands clock) c))
        ⊎ (IsCheckCommand words.now × ∥ GoesOn image c ∥₁) }

    // A failed disk, a failed script and a failed output each have their cause in a risen count.
    ensures disk_failed { result.0 ≡ 4 → Rose (D.faults disk) (D.faults result.1) }
    ensures script_failed { result.0 ≡ 5 → Rose (R.faults script.old) (R.faults script.new) }
    ensures output_failed { result.0 ≡ 6 → Rose (W.faults out.old) (W.faults out.new) }
    ensures disk_later { D.faults disk ≤ D.faults result.1 }
    ensures clock_later { D.clock disk ≤ D.clock result.1 }
    ensures output_later { W.faults out.old ≤ W.faults out.new }

    // Where what is asked for can be done and none of these counts rises, it is done, unless memory is wanting.
    ensures complete { (image : List ℕ) → Tells (D.state disk) (Holds image) → CanBeDone words.now (D.size result.1) image (R.left script.old)
        → ¬ Rose (D.faults disk) (D.faults result.1) → ¬ Rose (R.faults script.old) (R.faults script.new) → ¬ Rose (W.faults out.old) (W.faults out.new) → IsCompleteStatus result.0 }
{
    let command = read_words(rt.alloc(), words);
    let progress = Progress::over(rt, is_long(&command) && rt.is_terminal());
    if let Ok(Command::Shell) = command {
        return shell(rt.alloc(), disk, script, clock, out, &progress);
    }
    let asked = workload_of(&command);
    if let Some(workload) = asked {
        let Workload { seed, count } = workload;
        return soak(rt.alloc(), disk, clock, seed, count, out, &progress);
    }
    let mut watched = WatchedDisk {
        disk,
        progress: &progress,
        read: 0,
        volume: None,
    };
    let disk = &mut watched;
    let status = run(rt, words, command, disk, &mut clock, out, &progress);
    let WatchedDisk {
        disk,
        progress: _,
        read: _,
        volume: _,
    } = watched;
    (status, disk)
}
