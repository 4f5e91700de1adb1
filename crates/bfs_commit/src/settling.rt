// Steps of the device until nothing waits, or until enough is durable.
ghost use Rattle.std.specs.Prelude.{◌≡◌, ◌≤◌, ◌<◌, ◌+◌, ℕ, [], true, false, IfOk, OnOk, IfErr, None, length};
ghost use Rattle.bfs_tree.specs.Histories.{Mounted};
ghost use Rattle.bfs_device.specs.Books.{durable_of, sealed_of};
ghost use Rattle.bfs_device.specs.Steps.{calls_left};
ghost use Rattle.bfs_device_blocks.specs.Lent.{HasCore};
ghost use Rattle.bfs_core.specs.Moments.{Adoption};
ghost use Rattle.bfs_commit.specs.Open.{IsOpen, OpenView};
ghost use Rattle.bfs_commit.specs.Volumes.{AreJoined};
ghost use Rattle.bfs_commit.specs.Faults.{HasStepCause};
ghost use Rattle.bfs_commit.specs.Failing.{KeepsCounts};

use crate::events::{seal, step};
use bfs_device::{Device, DeviceFault, Progress};
use bfs_disk::Disk;
use bfs_space::Space;

// One step, and whether nothing waited. Where something did, one call less is left.
fn push_on<D: Disk>(space: &mut Space, device: &mut Device<D>) -> Result<bool, DeviceFault>
    requires joined { AreJoined space.old device.old.books (D.state device.old.disk) }
    ensures joined { AreJoined space.new device.new.books (D.state device.new.disk) }
    ensures history { space.new.view.history ≡ space.old.view.history }
    ensures promised { space.new.promised ≡ space.old.promised }
    ensures done { IfOk result (λ idle. idle ≡ true → (device.new.books.groups ≡ []) × (calls_left device.new.books ≡ 0)) }
    ensures less { IfOk result (λ idle. idle ≡ false → calls_left device.new.books < calls_left device.old.books) }
    ensures fault { IfErr result (HasStepCause device.old.books.stop device.new.books.stop (D.faults device.old.disk) (D.faults device.new.disk)) }
    ensures stop { OnOk result ((device.old.books.stop ≡ None) × (device.new.books.stop ≡ None)) }
    ensures faults { D.faults device.old.disk ≤ D.faults device.new.disk }
    ensures disk_clock { D.clock device.old.disk ≤ D.clock device.new.disk }
    ensures spare { device.new.books.spare ≡ device.old.books.spare }
    ensures sealed { sealed_of device.new.books ≡ sealed_of device.old.books }
    ensures durable { durable_of device.old.books ≤ durable_of device.new.books }
    ensures counts { KeepsCounts device.old.books.stop device.new.books.stop (D.faults device.old.disk) (D.faults device.new.disk) (D.stops device.old.disk) (D.stops device.new.disk) }
    ensures open { (p : OpenView) → IsOpen p space.old.view device.old.books (D.state device.old.disk) → IsOpen p space.new.view device.new.books (D.state device.new.disk) }
    ensures core { (t0 : Mounted) (adopted : Adoption) → HasCore t0 adopted space.old.view device.old.books (D.state device.old.disk) (D.clock device.old.disk) (D.since device.old.disk)
        → HasCore t0 adopted space.new.view device.new.books (D.state device.new.disk) (D.clock device.new.disk) (D.since device.new.disk) }
{
    match step(space, device) {
        Ok(Progress::Idle) => Ok(true),
        Ok(_) => Ok(false),
        Err(fault) => Err(fault),
    }
}

/// Steps until nothing waits.
pub fn rest<D: Disk>(space: &mut Space, device: &mut Device<D>) -> Result<(), DeviceFault>
    requires joined { AreJoined space.old device.old.books (D.state device.old.disk) }
    ensures joined { AreJoined space.new device.new.books (D.state device.new.disk) }
    ensures history { space.new.view.history ≡ space.old.view.history }
    ensures promised { space.new.promised ≡ space.old.promised }
    ensures done { OnOk result ((device.new.books.groups ≡ []) × (calls_left device.new.books ≡ 0)) }
    ensures fault { IfErr result (HasStepCause device.old.books.stop device.new.books.stop (D.faults device.old.disk) (D.faults device.new.disk)) }
    ensures stop { OnOk result ((device.old.books.stop ≡ None) × (device.new.books.stop ≡ None)) }
    ensures faults { D.faults device.old.disk ≤ D.faults device.new.disk }
    ensures disk_clock { D.clock device.old.disk ≤ D.clock device.new.disk }
    ensures spare { device.new.books.spare ≡ device.old.books.spare }
    ensures sealed { sealed_of device.new.books ≡ sealed_of device.old.books }
    ensures durable { durable_of device.old.books ≤ durable_of device.new.books }
    ensures counts { KeepsCounts device.old.books.stop device.new.books.stop (D.faults device.old.disk) (D.faults device.new.disk) (D.stops device.old.disk) (D.stops device.new.disk) }
    ensures open { (p : OpenView) → IsOpen p space.old.view device.old.books (D.state device.old.disk) → IsOpen p space.new.view device.new.books (D.state device.new.disk) }
    ensures core { (t0 : Mounted) (adopted : Adoption) → HasCore t0 adopted space.old.view device.old.books (D.state device.old.disk) (D.clock device.old.disk) (D.since device.old.disk)
        → HasCore t0 adopted space.new.view device.new.books (D.state device.new.disk) (D.clock device.new.disk) (D.since device.new.disk) }
{
    loop {
        let pushed = push_on(space, device);
        match pushed {
            Ok(true) => return Ok(()),
            Ok(false) => {}
            Err(fault) => return Err(fault),
        }
    }
}

// One step, and whether so many entries are durable then. Where they aren't, one call less is left.
fn push_to<D: Disk>(
    space: &mut Space,
    device: &mut Device<D>,
    upto: u64,
) -> Result<bool, DeviceFault>
    requires joined { AreJoined space.old device.old.books (D.state device.old.disk) }
    requires sealed { upto ≤ sealed_of device.old.books }
    ensures joined { AreJoined space.new device.new.books (D.state device.new.disk) }
    ensures history { space.new.view.history ≡ space.old.view.history }
    ensures promised { space.new.promised ≡ space.old.promised }
    ensures done { IfOk result (λ done. done ≡ true → upto ≤ durable_of device.new.books) }
    ensures less { IfOk result (λ done. done ≡ false → calls_left device.new.books < calls_left device.old.books) }
    ensures fault { IfErr result (HasStepCause device.old.books.stop device.new.books.stop (D.faults device.old.disk) (D.faults device.new.disk)) }
    ensures stop { OnOk result ((device.old.books.stop ≡ None) × (device.new.books.stop ≡ None)) }
    ensures faults { D.faults device.old.disk ≤ D.faults device.new.disk }
    ensures disk_clock { D.clock device.old.disk ≤ D.clock device.new.disk }
    ensures spare { device.new.books.spare ≡ device.old.books.spare }
    ensures sealed { sealed_of device.new.books ≡ sealed_of device.old.books }
    ensures durable { durable_of device.old.books ≤ durable_of device.new.books }
    ensures counts { KeepsCounts device.old.books.stop device.new.books.stop (D.faults device.old.disk) (D.faults device.new.disk) (D.stops device.old.disk) (D.stops device.new.disk) }
    ensures open { (p : OpenView) → IsOpen p space.old.view device.old.books (D.state device.old.disk) → IsOpen p space.new.view device.new.books (D.state device.new.disk) }
    ensures core { (t0 : Mounted) (adopted : Adoption) → HasCore t0 adopted space.old.view device.old.books (D.state device.old.disk) (D.clock device.old.disk) (D.since device.old.disk)
        → HasCore t0 adopted space.new.view device.new.books (D.state device.new.disk) (D.clock device.new.disk) (D.since device.new.disk) }
{
    match push_on(space, device) {
        Ok(_idle) => {
            device.steady();
            Ok(device.durable() >= upto)
        }
        Err(fault) => Err(fault),
    }
}

/// Steps until so many entries are durable, one at least.
pub fn flush<D: Disk>(
    space: &mut Space,
    device: &mut Device<D>,
    upto: u64,
) -> Result<(), DeviceFault>
    requires joined { AreJoined space.old device.old.books (D.state device.old.disk) }
    requires sealed { upto ≤ sealed_of device.old.books }
    ensures joined { AreJoined space.new device.new.books (D.state device.new.disk) }
    ensures history { space.new.view.history ≡ space.old.view.history }
    ensures promised { space.new.promised ≡ space.old.promised }
    ensures done { OnOk result (upto ≤ durable_of device.new.books) }
    ensures fault { IfErr result (HasStepCause device.old.books.stop device.new.books.stop (D.faults device.old.disk) (D.faults device.new.disk)) }
    ensures stop { OnOk result ((device.old.books.stop ≡ None) × (device.new.books.stop ≡ None)) }
    ensures faults { D.faults device.old.disk ≤ D.faults device.new.disk }
    ensures disk_clock { D.clock device.old.disk ≤ D.clock device.new.disk }
    ensures spare { device.new.books.spare ≡ device.old.books.spare }
    ensures sealed { sealed_of device.new.books ≡ sealed_of device.old.books }
    ensures durable { durable_of device.old.books ≤ durable_of device.new.books }
    ensures counts { KeepsCounts device.old.books.stop device.new.books.stop (D.faults device.old.disk) (D.faults device.new.disk) (D.stops device.old.disk) (D.stops device.new.disk) }
    ensures open { (p : OpenView) → IsOpen p space.old.view device.old.books (D.state device.old.disk) → IsOpen p space.new.view device.new.books (D.state device.new.disk) }
    ensures core { (t0 : Mounted) (adopted : Adoption) → HasCore t0 adopted space.old.view device.old.books (D.state device.old.disk) (D.clock device.old.disk) (D.since device.old.disk)
        → HasCore t0 adopted space.new.view device.new.books (D.state device.new.disk) (D.clock device.new.disk) (D.since device.new.disk) }
{
    loop {
        let pushed = push_to(space, device, upto);
        match pushed {
            Ok(true) => return Ok(()),
            Ok(false) => {}
            Err(fault) => return Err(fault),
        }
    }
}

/// Steps until the device may take one group more.
fn make_place<D: Disk>(space: &mut Space, device: &mut Device<D>) -> Result<(), DeviceFault>
    requires joined { AreJoined space.old device.old.books (D.state device.old.disk) }
    ensures joined { AreJoined space.new device.new.books (D.state device.new.disk) }
    ensures history { space.new.view.history ≡ space.old.view.history }
    ensures promised { space.new.promised ≡ space.old.promised }
    ensures may { OnOk result (length device.new.books.groups < 16) }
    ensures fault { IfErr result (HasStepCause device.old.books.stop device.new.books.stop (D.faults device.old.disk) (D.faults device.new.disk)) }
    ensures stop { OnOk result (device.new.books.stop ≡ device.old.books.stop) }
    ensures faults { D.faults device.old.disk ≤ D.faults device.new.disk }
    ensures disk_clock { D.clock device.old.disk ≤ D.clock device.new.disk }
    ensures spare { device.new.books.spare ≡ device.old.books.spare }
    ensures sealed { sealed_of device.new.books ≡ sealed_of device.old.books }
    ensures durable { durable_of device.old.books ≤ durable_of device.new.books }
    ensures counts { KeepsCounts device.old.books.stop device.new.books.stop (D.faults device.old.disk) (D.faults device.new.disk) (D.stops device.old.disk) (D.stops device.new.disk) }
    ensures open { (p : OpenView) → IsOpen p space.old.view device.old.books (D.state device.old.disk) → IsOpen p space.new.view device.new.books (D.state device.new.disk) }
    ensures core { (t0 : Mounted) (adopted : Adoption) → HasCore t0 adopted space.old.view device.old.books (D.state device.old.disk) (D.clock device.old.disk) (D.since device.old.disk)
        → HasCore t0 adopted space.new.view device.new.books (D.state device.new.disk) (D.clock device.new.disk) (D.since device.new.disk) }
{
    if device.may_seal() {
        return Ok(());
    }
    rest(space, device)
}

/// Seals what is open, and steps until all entries are durable, one step at least.
pub fn make_durable<D: Disk>(space: &mut Space, device: &mut Device<D>) -> Result<(), DeviceFault>
    requires joined { AreJoined space.old device.old.books (D.state device.old.disk) }
    requires spare { 1 ≤ device.old.books.spare }
    ensures joined { AreJoined space.new device.new.books (D.state device.new.disk) }
    ensures history { space.new.view.history ≡ space.old.view.history }
    ensures promised { space.new.promised ≡ space.old.promised }
    ensures done { OnOk result (length space.old.view.history ≤ durable_of device.new.books) }
    ensures fault { IfErr result (HasStepCause device.old.books.stop device.new.books.stop (D.faults device.old.disk) (D.faults device.new.disk)) }
    ensures stop { OnOk result ((device.old.books.stop ≡ None) × (device.new.books.stop ≡ None)) }
    ensures faults { D.faults device.old.disk ≤ D.faults device.new.disk }
    ensures disk_clock { D.clock device.old.disk ≤ D.clock device.new.disk }
    ensures spare { device.old.books.spare ≤ device.new.books.spare + 1 }
    ensures durable { durable_of device.old.books ≤ durable_of device.new.books }
    ensures counts { KeepsCounts device.old.books.stop device.new.books.stop (D.faults device.old.disk) (D.faults device.new.disk) (D.stops device.old.disk) (D.stops device.new.disk) }
    ensures open { (p : OpenView) → IsOpen p space.old.view device.old.books (D.state device.old.disk) → IsOpen p space.new.view device.new.books (D.state device.new.disk) }
    ensures core { (t0 : Mounted) (adopted : Adoption) → HasCore t0 adopted space.old.view device.old.books (D.state device.old.disk) (D.clock device.old.disk) (D.since device.old.disk)
        → HasCore t0 adopted space.new.view device.new.books (D.state device.new.disk) (D.clock device.new.disk) (D.since device.new.disk) }
{
    let upto = space.history().len() as u64;
    make_place(space, device)?;
    seal(space, device);
    flush(space, device, upto)
}

/// Seals what is open, and steps until nothing waits.
pub fn settle<D: Disk>(space: &mut Space, device: &mut Device<D>) -> Result<(), DeviceFault>
    requires joined { AreJoined space.old device.old.books (D.state device.old.disk) }
    requires spare { 1 ≤ device.old.books.spare }
    ensures joined { AreJoined space.new device.new.books (D.state device.new.disk) }
    ensures history { space.new.view.history ≡ space.old.view.history }
    ensures promised { space.new.promised ≡ space.old.promised }
    ensures done { OnOk result ((device.new.books.groups ≡ []) × (length space.old.view.history ≤ durable_of device.new.books)) }
    ensures fault { IfErr result (HasStepCause device.old.books.stop device.new.books.stop (D.faults device.old.disk) (D.faults device.new.disk)) }
    ensures stop { OnOk result ((device.old.books.stop ≡ None) × (device.new.books.stop ≡ None)) }
    ensures faults { D.faults device.old.disk ≤ D.faults device.new.disk }
    ensures disk_clock { D.clock device.old.disk ≤ D.clock device.new.disk }
    ensures spare { device.old.books.spare ≤ device.new.books.spare + 1 }
    ensures durable { durable_of device.old.books ≤ durable_of device.new.books }
    ensures counts { KeepsCounts device.old.books.stop device.new.books.stop (D.faults device.old.disk) (D.faults device.new.disk) (D.stops device.old.disk) (D.stops device.new.disk) }
    ensures open { (p : OpenView) → IsOpen p space.old.view device.old.books (D.state device.old.disk) → IsOpen p space.new.view device.new.books (D.state device.new.disk) }
    ensures core { (t0 : Mounted) (adopted : Adoption) → HasCore t0 adopted space.old.view device.old.books (D.state device.old.disk) (D.clock device.old.disk) (D.since device.old.disk)
        → HasCore t0 adopted space.new.view device.new.books (D.state device.new.disk) (D.clock device.new.disk) (D.since device.new.disk) }
{
    make_place(space, device)?;
    seal(space, device);
    rest(space, device)?;
    device.steady();
    Ok(())
}
