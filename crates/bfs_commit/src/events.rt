// The events of a space over its device: a call, a step, a seal.
ghost use Rattle.std.specs.Prelude.{◌≡◌, ◌≢◌, ◌≤◌, ◌<◌, ◌+◌, ◌^◌, ℕ, List, Option, Some, None, true, length, IsTrue, IsFalse, IfOk, IfErr, OnOk, OnErr};
ghost use Rattle.bfs_disk.specs.State.{State};
ghost use Rattle.bfs_tree.specs.declared.call.Call.TheVariants.{Sync};
ghost use Rattle.bfs_tree.specs.Answers.{KeepsRanges};
ghost use Rattle.bfs_tree.specs.Histories.{Mounted};
ghost use Rattle.bfs_device.specs.Books.{durable_of, sealed_of};
ghost use Rattle.bfs_device.specs.Data.{IsRested};
ghost use Rattle.bfs_device.specs.Steps.{calls_left, progress_to, stepped, IsStepFault};
ghost use Rattle.bfs_device.specs.Told.{HasCounted, HasMarked};
ghost use Rattle.bfs_core.specs.Cores.{newest_map};
ghost use Rattle.bfs_core.specs.Moments.{Adoption};
ghost use Rattle.bfs_device_blocks.specs.Lent.{HasCore};
ghost use Rattle.bfs_space.specs.Faces.{IsFaceOf, IsOutcome, HasOutcome};
ghost use Rattle.bfs_space.specs.Holds.{keeps_holds};
ghost use Rattle.bfs_commit.specs.Open.{IsOpen, OpenView};
ghost use Rattle.bfs_commit.specs.Volumes.{AreJoined};
ghost use Rattle.bfs_commit.specs.Entries.{counts_of};
ghost use Rattle.bfs_commit.specs.Failing.{HasFailures, KeepsCounts};
ghost use Rattle.bfs_commit.specs.Stamps.{HasDrawn};

use bfs_device::{Device, DeviceFault, Progress};
use bfs_device_blocks::DeviceBlocks;
use bfs_disk::Disk;
use bfs_space::{Answers, Outcome, Space, entered_keeps_files};
use bfs_tree::Call;
use std::alloc::AllocError;
use thiserror::Error;

/// Why a sync has not made all entries durable: the disk failed in it, or had stopped before; or no memory was found, and nothing was done.
#[derive(Clone, Copy, Debug, PartialEq, Eq, Error)]
pub enum SyncFault {
    #[error("a disk call failed")]
    Disk {
        before: u64,
        after: u64,
        stops: bool,
    },
    #[error("the device has stopped with {durable} durable entries")]
    Stopped {
        durable: u64,
        faults: u64,
    },
    #[error("no memory was found")]
    NoMemory,
}

/// One step of the device, after which the space frees what has left the log.
pub fn step<D: Disk>(space: &mut Space, device: &mut Device<D>) -> Result<Progress, DeviceFault>
    requires joined { AreJoined space.old device.old.books (D.state device.old.disk) }
    ensures joined { AreJoined space.new device.new.books (D.state device.new.disk) }
    ensures history { space.new.view.history ≡ space.old.view.history }
    ensures promised { space.new.promised ≡ space.old.promised }
    ensures ok { IfOk result (λ p. (device.old.books.stop ≡ None) × (p ≡ progress_to device.old.books.groups device.old.books.phase) × (device.new.books ≡ stepped device.old.books)) }
    ensures counted { IfOk result (HasCounted (calls_left device.old.books) (calls_left device.new.books)) }
    ensures marked { IfOk result (HasMarked device.old.books device.new.books) }
    ensures fault { IfErr result (IsStepFault device.old.books device.new.books (D.faults device.old.disk) (D.faults device.new.disk) (D.stops device.old.disk) (D.stops device.new.disk)) }
    ensures stop { OnOk result ((device.old.books.stop ≡ None) × (device.new.books.stop ≡ None)) }
    ensures faults { D.faults device.old.disk ≤ D.faults device.new.disk }
    ensures disk_clock { D.clock device.old.disk ≤ D.clock device.new.disk }
    ensures spare { device.new.books.spare ≡ device.old.books.spare }
    ensures sealed { sealed_of device.new.books ≡ sealed_of device.old.books }
    ensures durable { durable_of device.old.books ≤ durable_of device.new.books }
    ensures counts { KeepsCounts device.old.books.stop device.new.books.stop (D.faults device.old.disk) (D.faults device.new.disk) (D.stops device.old.disk) (D.stops device.new.disk) }
    ensures open { (p : OpenView) → IsOpen p space.old.view device.old.books (D.state device.old.disk) → IsOpen p space.new.view device.new.books (D.state device.new.disk) }
    ensures core { (t0 : Mounted) (adopted : Adoption) → HasCore t0 adopted space.old.view device.old.books (D.state device.old.disk) (D.clock device.old.disk) (D.since device.old.disk)
        → HasCore t0 adopted space.new.view device.new.books (D.state device.new.disk) (D.clock device.new.disk) (D.since device.new.disk) }
{
    let result = device.step();
    device.steady();
    let _durable = device.durable();
    space.released(device.left());
    result
}

/// Seals what is open as one group, where something is, and tells whether something was. The device may take one more.
pub fn seal<D: Disk>(space: &mut Space, device: &mut Device<D>) -> bool
    requires joined { AreJoined space.old device.old.books (D.state device.old.disk) }
    requires may { length device.old.books.groups < 16 }
    requires spare { 1 ≤ device.old.books.spare }
    ensures joined { AreJoined space.new device.new.books (D.state device.new.disk) }
    ensures history { space.new.view.history ≡ space.old.view.history }
    ensures promised { space.new.promised ≡ space.old.promised }
    ensures disk { device.new.disk ≡ device.old.disk }
    ensures stop { device.new.books.stop ≡ device.old.books.stop }
    ensures some { IsTrue result → space.old.view.sealed < length space.old.view.history }
    ensures none { IsFalse result → (device.new ≡ device.old) × (space.new ≡ space.old) × (space.old.view.sealed ≡ length space.old.view.history) }
    ensures sealed { sealed_of device.new.books ≡ length space.old.view.history }
    ensures spare { device.old.books.spare ≤ device.new.books.spare + 1 }
    ensures durable { durable_of device.new.books ≡ durable_of device.old.books }
    ensures open { (p : OpenView) → IsOpen p space.old.view device.old.books (D.state device.old.disk) → IsOpen p space.new.view device.new.books (D.state device.new.disk) }
    ensures core { (t0 : Mounted) (adopted : Adoption) → HasCore t0 adopted space.old.view device.old.books (D.state device.old.disk) (D.clock device.old.disk) (D.since device.old.disk)
        → HasCore t0 adopted space.new.view device.new.books (D.state device.new.disk) (D.clock device.new.disk) (D.since device.new.disk) }
{
    match space.seal() {
        None => false,
        Some(group) => {
            device.seal(group);
            device.steady();
            true
        }
    }
}

/// A call of the space over the device.
pub fn ask<A: Answers, D: Disk>(
    space: &mut Space,
    device: &mut Device<D>,
    answers: &A,
    session: u32,
    tag: u32,
    now: u64,
    call: Call,
) -> Result<Outcome, AllocError>
    requires joined { AreJoined space.old device.old.books (D.state device.old.disk) }
    requires now { now < 2 ^ 40 }
    requires session { session ≢ 0 }
    requires call { call ≢ Sync }
    requires serves { A.serves call ≡ true }
    requires stays { keeps_holds call ≡ true }
    requires ranges { KeepsRanges call }
    ensures joined { AreJoined space.new device.new.books (D.state device.new.disk) }
    ensures rests { IsRested device.old.books device.new.books }
    ensures state { D.state device.new.disk ≡ D.state device.old.disk }
    ensures faults { D.faults device.old.disk ≤ D.faults device.new.disk }
    ensures disk_clock { D.clock device.old.disk ≤ D.clock device.new.disk }
    ensures noted { IfOk result (HasOutcome (counts_of (D.faults device.old.disk) (D.stops device.old.disk) device.old.books.stop) (counts_of (D.faults device.new.disk) (D.stops device.new.disk) device.new.books.stop) space.old space.new session tag now call) }
    ensures no_memory { OnErr result (space.new ≡ space.old) }
    // What the disk tells, the call is entered on, or put off.
    ensures entered { (t0 : Mounted) (st : State) → D.state device.old.disk ≡ Some st → IsFaceOf t0 space.old (newest_map device.old.books st) → IfOk result (IsOutcome t0 space.old space.new (newest_map device.old.books st) session tag now call) }
    ensures stamps { HasDrawn space.old.view.history space.new.view.history now }
    ensures failures { device.old.books.stop ≡ None → HasFailures space.old.view.history space.new.view.history device.old.books.stop device.new.books.stop (D.faults device.old.disk) (D.faults device.new.disk) (D.stops device.old.disk) (D.stops device.new.disk) }
    ensures open { (p : OpenView) → p.hold.session ≢ session → IsOpen p space.old.view device.old.books (D.state device.old.disk) → IsOpen p space.new.view device.new.books (D.state device.new.disk) }
    ensures core { (t0 : Mounted) (adopted : Adoption) → HasCore t0 adopted space.old.view device.old.books (D.state device.old.disk) (D.clock device.old.disk) (D.since device.old.disk)
        → HasCore t0 adopted space.new.view device.new.books (D.state device.new.disk) (D.clock device.new.disk) (D.since device.new.disk) }
{
    entered_keeps_files();
    space.steady();
    let mut blocks = DeviceBlocks::over(device);
    let outcome = space.call(answers, &mut blocks, session, tag, now, call);
    blocks.done();
    device.steady();
    outcome
}
