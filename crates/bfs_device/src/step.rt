// A step of a device: one disk call, and what is kept of it.
ghost use Rattle.std.specs.Prelude.{◌≡◌, ◌⊎◌, IsSome, ◌≤◌, ◌<◌, ◌+◌, ◌*◌, ◌^◌, ℕ, List, [], length, Bool, true, OnOk, OnErr, IfOk, IfErr, Option, Some, None};
ghost use Rattle.bfs_base.specs.Counts.{HasCause, Rose};
ghost use Rattle.bfs_base.specs.Moments.{Elapses, Passed};
ghost use Rattle.bfs_disk.specs.State.{State, Tells};
ghost use Rattle.bfs_disk.specs.Disk.{MayLeave};
ghost use Rattle.bfs_device.specs.Layouts.{IsSameVolume, layout_of};
ghost use Rattle.bfs_device.specs.Books.{Ready, IsOnDisk, IsRight, IsVersion, RecoversOne, AreSame, Books, books_of, durable_of, version, used_of};
ghost use Rattle.bfs_device.specs.Steps.{told_front, FailedFront, LeftFront, ReadFront, still_touched, halted, stepped, progress_to, IsStepFault, IsUnmoved, HasMoved, calls_left};
ghost use Rattle.bfs_device.specs.Told.{HasCalled, HasMarked, HasCounted};
ghost use Rattle.bfs_device.specs.Kept.{KeepsAgreed, written_front};
ghost use Rattle.bfs_device.specs.Ahead.{GoesOn};
ghost use Rattle.bfs_device.specs.Contents.{KeepsContents};

use crate::calls::perform;
use crate::journal::{DeviceFault, Journal, Progress, Stop};
use crate::turn::{advance, durable_number};
use bfs_cache::{barrier_keeps, failed_write_keeps, write_keeps};
use bfs_disk::{Disk, Failed};

// Makes the disk call of the first group's phase.
fn act<D: Disk>(disk: &mut D, journal: &mut Journal) -> Result<(), Failed>
    requires ready { Ready journal.old }
    requires some { 0 < length journal.old.groups.items }
    requires on_disk { IsOnDisk (D.size disk.old) journal.old.sup }
    ensures ready { Ready journal.new }
    ensures books { books_of journal.new ≡ books_of journal.old }
    ensures size { D.size disk.new ≡ D.size disk.old }
    ensures done { OnOk result (D.state disk.new ≡ told_front journal.old.sup journal.old.groups.items journal.old.phase (D.state disk.old)) }
    ensures failed { OnErr result (FailedFront journal.old.sup journal.old.groups.items journal.old.phase (D.state disk.old) (D.state disk.new)) }
    ensures time { Elapses (D.state disk.old) result (D.clock disk.old) (D.clock disk.new) (D.since disk.old) (D.since disk.new) (LeftFront journal.old.sup journal.old.groups.items journal.old.phase (D.state disk.old)) }
    ensures cause { HasCause (D.faults disk.old) (D.faults disk.new) result }
    ensures stops { HasCause (D.stops disk.old) (D.stops disk.new) result }
    ensures read { ReadFront journal.old.sup journal.old.groups.items journal.old.phase }
{
    let phase = journal.phase;
    let group = &journal.groups[0];
    perform(
        disk,
        &journal.sup,
        group,
        phase,
        journal.buffer.as_mut_slice(),
    )
}

// Stops for good.
pub fn halt(journal: &mut Journal, before: u64, after: u64) -> DeviceFault
    requires { Ready journal.old }
    ensures ready { Ready journal.new }
    ensures books { books_of journal.new ≡ halted (books_of journal.old) after }
    ensures fault { result ≡ DeviceFault.Disk before after true }
{
    journal.moment = journal.moment.saturating_add(1);
    journal.stop = Some(Stop {
        durable: durable_number(journal),
        faults: after,
    });
    DeviceFault::Disk {
        before,
        after,
        stops: true,
    }
}

// The answer of a device that has stopped.
pub fn stopped(stop: Stop) -> DeviceFault
    ensures { result ≡ DeviceFault.Stopped stop.durable stop.faults }
{
    DeviceFault::Stopped {
        durable: stop.durable,
        faults: stop.faults,
    }
}

/// One disk call, or none where the device has stopped or has no group.
pub fn step_of<D: Disk>(disk: &mut D, journal: &mut Journal) -> Result<Progress, DeviceFault>
    requires ready { Ready journal.old }
    requires on_disk { IsOnDisk (D.size disk.old) journal.old.sup }
    ensures ready { Ready journal.new }
    ensures size { D.size disk.new ≡ D.size disk.old }
    ensures ok { IfOk result (λ p. (journal.old.stop ≡ None) × (p ≡ progress_to journal.old.groups.items journal.old.phase) × (books_of journal.new ≡ stepped (books_of journal.old))) }
    ensures call { OnOk result (D.state disk.new ≡ told_front journal.old.sup journal.old.groups.items journal.old.phase (D.state disk.old)) }
    ensures volume { IsSameVolume journal.old.sup journal.new.sup }
    ensures ahead { GoesOn (books_of journal.old) (books_of journal.new) }
    ensures called { IfOk result (HasCalled (layout_of journal.old.sup) (D.state disk.old) (D.state disk.new)) }
    ensures marked { IfOk result (HasMarked (books_of journal.old) (books_of journal.new)) }
    ensures counted { IfOk result (HasCounted (calls_left (books_of journal.old)) (calls_left (books_of journal.new))) }
    ensures failed { journal.old.stop ≡ None → OnErr result (FailedFront journal.old.sup journal.old.groups.items journal.old.phase (D.state disk.old) (D.state disk.new)) }
    ensures agrees { KeepsAgreed (written_front journal.old.sup journal.old.groups.items journal.old.phase) (layout_of journal.old.sup).sectors (D.state disk.old) (D.state disk.new) }
    ensures fault { IfErr result (IsStepFault (books_of journal.old) (books_of journal.new) (D.faults disk.old) (D.faults disk.new) (D.stops disk.old) (D.stops disk.new)) }
    ensures unmoved { IsUnmoved (books_of journal.old) → disk.new ≡ disk.old }
    ensures faults { D.faults disk.old ≤ D.faults disk.new }
    ensures disk_clock { D.clock disk.old ≤ D.clock disk.new }
    ensures stops { D.stops disk.old ≤ D.stops disk.new }
    ensures moved { HasMoved (D.clock disk.old) journal.old.moment (D.clock disk.new) journal.new.moment }
    ensures right { (t : ℕ → Bool) (right : Tells (D.state disk.old) (IsRight (books_of journal.old) t))
        → OnOk result (Tells (D.state disk.new) (λ s. IsRight (books_of journal.new) (still_touched (books_of journal.old) t) s × AreSame (books_of journal.old) right.0 (books_of journal.new) s)) }
    ensures still_right { (t : ℕ → Bool) (right : Tells (D.state disk.old) (IsRight (books_of journal.old) t))
        → OnErr result (Tells (D.state disk.new) (λ s. IsRight (books_of journal.new) t s × AreSame (books_of journal.old) right.0 (books_of journal.new) s)) }
    ensures contents { (st next : State) → D.state disk.old ≡ Some st → D.state disk.new ≡ Some next → KeepsContents (books_of journal.old) (books_of journal.new) st next }
    ensures used { (n : ℕ) → IsVersion (books_of journal.new) n → used_of (books_of journal.new) n ≡ used_of (books_of journal.old) n }
    ensures one { IsSome (D.state disk.old) → IfOk result (λ p. (p ≡ Progress.Idle) ⊎ (D.clock disk.new ≡ D.clock disk.old + 1)) }
    ensures moments { (t : ℕ → Bool) → Tells (D.state disk.old) (IsRight (books_of journal.old) t)
        → Passed (D.clock disk.old) (D.clock disk.new) (D.since disk.old) (D.since disk.new) (λ c. Tells (D.state disk.old) (λ s. RecoversOne (books_of journal.old) t s c)) }
{
    if let Some(stop) = journal.stop {
        return Err(stopped(stop));
    }
    if journal.groups.is_empty() {
        return Ok(Progress::Idle);
    }
    write_keeps();
    failed_write_keeps();
    barrier_keeps();
    let before = disk.faults();
    match act(disk, journal) {
        Ok(()) => Ok(advance(journal)),
        Err(_) => Err(halt(journal, before, disk.faults())),
    }
}
