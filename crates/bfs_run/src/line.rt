// One line, call by call.
ghost use Rattle.std.specs.Prelude.{◌≡◌, ◌≤◌, ◌<◌, ◌+◌, ℕ, List, [], Some, true, false, IfOk, OnOk, OnErr};
ghost use Rattle.bfs_tree.specs.declared.reply.Entry.{Entry};
ghost use Rattle.bfs_tree.specs.Histories.{Mounted};
ghost use Rattle.bfs_device_blocks.specs.Lent.{HasCore};
ghost use Rattle.bfs_core.specs.Moments.{Adoption};
ghost use Rattle.bfs_text.specs.Printed.{is_held};
ghost use Rattle.bfs_command.specs.Forms.{InForm, IsLineInForm};
ghost use Rattle.bfs_command.specs.Left.{left, due_of, makes, most_left};
ghost use Rattle.bfs_volume.specs.Stamps.{HasDrawn};
ghost use Rattle.bfs_volume.specs.Failing.{HasFailures};
ghost use Rattle.bfs_run.specs.Scripts.{HasMade, HasGone, HasLine, HasBegun};

use crate::ask::ask;
use bfs_command::{Calls, Line};
use bfs_disk::Disk;
use bfs_ports::Clock;
use bfs_tree::{Entry, Reply};
use bfs_volume::Volume;
use std::alloc::{AllocError, Global};

/// Was a call put off?
fn is_held(reply: &Reply) -> bool
    ensures { result ≡ is_held reply.now }
{
    matches!(reply, Reply::Held { .. })
}

/// Hands on the reply of the last entry, and tells whether it puts the call off.
fn answer(line: &Line, calls: &mut Calls, history: &[Entry]) -> bool
    requires made { (before : List Entry) × HasMade before history.now line.now.session line.now.number (makes (due_of calls.old)) }
    ensures gone { (before : List Entry) → HasMade before history.now line.now.session line.now.number (makes (due_of calls.old)) → HasGone line.now calls.old calls.new before history.now }
    ensures held { result ≡ true → calls.new ≡ calls.old }
    ensures fewer { result ≡ false → most_left calls.new < most_left calls.old }
    ensures command { calls.new.command ≡ calls.old.command }
{
    let Some(last) = history.last() else {
        unreachable!();
    };
    calls.answered(&last.reply);
    is_held(&last.reply)
}

/// Counts a call that was put off. A hold ends within its own call, so that none is met where one worker calls; so the line is given up
/// behind the last of these, as where no memory is found.
fn count_held(held: bool, holds: &mut u32) -> Result<(), AllocError>
    ensures less { OnOk result (held ≡ true → holds.new < holds.old) }
    ensures same { OnOk result (held ≡ false → holds.new ≡ holds.old) }
{
    if !held {
        return Ok(());
    }
    if *holds == 0 {
        return Err(AllocError);
    }
    *holds -= 1;
    Ok(())
}

/// Makes the call that is due, and tells whether the line has ended. Of a call that is put off, so many more are made.
fn turn<D: Disk, C: Clock>(
    alloc: Global,
    volume: &mut Volume<D, C>,
    line: &Line,
    calls: &mut Calls,
    holds: &mut u32,
) -> Result<bool, AllocError>
    requires line { IsLineInForm line.now }
    requires form { InForm calls.old.command }
    ensures ended { IfOk result (λ ended. ended ≡ true → left calls.new []) }
    ensures less { IfOk result (λ ended. ended ≡ false → most_left calls.new + holds.new < most_left calls.old + holds.old) }
    ensures gone { HasGone line.now calls.old calls.new volume.old.space.view.history volume.new.space.view.history }
    ensures command { calls.new.command ≡ calls.old.command }
    ensures clock { C.stands volume.new.clock ≡ C.stands volume.old.clock }
    ensures stamps { (s : ℕ) → C.stands volume.old.clock ≡ Some s → HasDrawn volume.old.space.view.history volume.new.space.view.history s }
    ensures core { (t0 : Mounted) (adopted : Adoption) → HasCore t0 adopted volume.old.space.view volume.old.device.books (D.state volume.old.device.disk) (D.clock volume.old.device.disk) (D.since volume.old.device.disk)
        → HasCore t0 adopted volume.new.space.view volume.new.device.books (D.state volume.new.device.disk) (D.clock volume.new.device.disk) (D.since volume.new.device.disk) }
    ensures later { D.faults volume.old.device.disk ≤ D.faults volume.new.device.disk }
    ensures disk_clock { D.clock volume.old.device.disk ≤ D.clock volume.new.device.disk }
    ensures failures { HasFailures volume.old.space.view.history volume.new.space.view.history volume.old.device.books.stop volume.new.device.books.stop (D.faults volume.old.device.disk) (D.faults volume.new.device.disk) (D.stops volume.old.device.disk) (D.stops volume.new.device.disk) }
{
    let due = match calls.due(alloc) {
        Ok(due) => due,
        Err(fault) => return Err(fault),
    };
    match ask(alloc, volume, line.session, line.number, due) {
        Ok(true) => {}
        Ok(false) => return Ok(true),
        Err(fault) => return Err(fault),
    }
    let held = answer(line, calls, volume.history());
    match count_held(held, holds) {
        Ok(()) => Ok(false),
        Err(fault) => Err(fault),
    }
}

/// Runs a line.
pub fn run_line<D: Disk, C: Clock>(
    alloc: Global,
    volume: &mut Volume<D, C>,
    root: u64,
    line: &Line,
) -> Result<(), AllocError>
    requires line { IsLineInForm line.now }
    ensures done { OnOk result (HasLine root line.now volume.old.space.view.history volume.new.space.view.history) }
    ensures begun { OnErr result (HasBegun root line.now volume.old.space.view.history volume.new.space.view.history) }
    ensures clock { C.stands volume.new.clock ≡ C.stands volume.old.clock }
    ensures stamps { (s : ℕ) → C.stands volume.old.clock ≡ Some s → HasDrawn volume.old.space.view.history volume.new.space.view.history s }
    ensures core { (t0 : Mounted) (adopted : Adoption) → HasCore t0 adopted volume.old.space.view volume.old.device.books (D.state volume.old.device.disk) (D.clock volume.old.device.disk) (D.since volume.old.device.disk)
        → HasCore t0 adopted volume.new.space.view volume.new.device.books (D.state volume.new.device.disk) (D.clock volume.new.device.disk) (D.since volume.new.device.disk) }
    ensures later { D.faults volume.old.device.disk ≤ D.faults volume.new.device.disk }
    ensures disk_clock { D.clock volume.old.device.disk ≤ D.clock volume.new.device.disk }
    ensures failures { HasFailures volume.old.space.view.history volume.new.space.view.history volume.old.device.books.stop volume.new.device.books.stop (D.faults volume.old.device.disk) (D.faults volume.new.device.disk) (D.stops volume.old.device.disk) (D.stops volume.new.device.disk) }
{
    let mut calls = Calls::of(root, &line.command);
    let mut holds = 1000;
    'turns: loop {
        let ended = turn(alloc, volume, line, &mut calls, &mut holds);
        match ended {
            Ok(true) => return Ok(()),
            Ok(false) => {}
            Err(fault) => return Err(fault),
        }
    }
}
