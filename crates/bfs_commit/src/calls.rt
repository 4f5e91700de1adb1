// Calls and syncs of a session: each appends one entry, or finds no memory and changes nothing of the history.
ghost use Rattle.std.specs.Prelude.{◌≡◌, ◌≢◌, ◌≤◌, ◌<◌, ◌⊎◌, ◌++◌, ◌^◌, ℕ, [], ◌∷◌, Some, true, false, length, IfOk, IfErr, OnOk, OnErr};
ghost use Rattle.bfs_tree.specs.declared.call.Call.TheVariants.{Sync};
ghost use Rattle.bfs_tree.specs.declared.reply.Reply.TheVariants.{Synced};
ghost use Rattle.bfs_tree.specs.Answers.{KeepsRanges};
ghost use Rattle.bfs_tree.specs.Histories.{Mounted};
ghost use Rattle.bfs_base.specs.Lists.{times};
ghost use Rattle.bfs_device.specs.Books.{durable_of};
ghost use Rattle.bfs_device.specs.declared.journal.Stop as stops;
ghost use Rattle.bfs_device_blocks.specs.Lent.{HasCore};
ghost use Rattle.bfs_core.specs.Spaces.{SpaceView};
ghost use Rattle.bfs_core.specs.Moments.{Adoption};
ghost use Rattle.bfs_space.specs.Books.{SpaceBooks};
ghost use Rattle.bfs_space.specs.Files.{lets_go};
ghost use Rattle.bfs_space.specs.Holds.{keeps_holds};
ghost use Rattle.bfs_commit.specs.Open.{IsOpen, OpenView};
ghost use Rattle.bfs_commit.specs.Volumes.{AreJoined};
ghost use Rattle.bfs_commit.specs.Causes.{HasSyncCause};
ghost use Rattle.bfs_commit.specs.Entries.{HasEntry, HasEntryOf, HasFailedSync, HasReplyIn, IsAnsweredIn, IsEnded, IsStoppedEntry, IsStoppedSync, sync_fault_of};
ghost use Rattle.bfs_commit.specs.Failing.{HasFailures};
ghost use Rattle.bfs_commit.specs.Stamps.{HasDrawn};

use crate::events::{SyncFault, ask};
use crate::notes::{as_reply, note};
use crate::settling::{make_durable, settle};
use bfs_device::{Device, DeviceFault, Stop};
use bfs_disk::Disk;
use bfs_space::{Answers, Outcome, Space};
use bfs_tree::{Call, Reply};
use std::alloc::AllocError;

/// Room for the marks of a seal.
pub fn make_room<D: Disk>(device: &mut Device<D>) -> Result<(), AllocError>
    ensures joined { (sp : SpaceBooks) → AreJoined sp device.old.books (D.state device.old.disk) → AreJoined sp device.new.books (D.state device.new.disk) }
    ensures ok { OnOk result (2 ≤ device.new.books.spare) }
    ensures rest { device.new.books ≡ record device.old.books { spare = device.new.books.spare } }
    ensures spare { device.old.books.spare ≤ device.new.books.spare }
    ensures disk { device.new.disk ≡ device.old.disk }
    ensures open { (p : OpenView) (sp : SpaceView) → IsOpen p sp device.old.books (D.state device.old.disk) → IsOpen p sp device.new.books (D.state device.new.disk) }
    ensures core { (t0 : Mounted) (adopted : Adoption) (sp : SpaceView) → HasCore t0 adopted sp device.old.books (D.state device.old.disk) (D.clock device.old.disk) (D.since device.old.disk)
        → HasCore t0 adopted sp device.new.books (D.state device.new.disk) (D.clock device.new.disk) (D.since device.new.disk) }
{
    let made = device.room();
    device.steady();
    let _durable = device.durable();
    made
}

/// Room for an entry of the session and for the marks of a seal; without both nothing is promised.
pub fn prepare<D: Disk>(
    space: &mut Space,
    device: &mut Device<D>,
    session: u32,
) -> Result<(), AllocError>
    requires joined { AreJoined space.old device.old.books (D.state device.old.disk) }
    requires free { times session space.old.promised ≡ 0 }
    requires session { session ≢ 0 }
    requires spare { 1 ≤ device.old.books.spare }
    ensures joined { AreJoined space.new device.new.books (D.state device.new.disk) }
    ensures history { space.new.view.history ≡ space.old.view.history }
    ensures view { space.new.view ≡ space.old.view }
    ensures ok { OnOk result ((space.new.promised ≡ space.old.promised ++ session ∷ []) × (2 ≤ device.new.books.spare)) }
    ensures err { OnErr result ((space.new.promised ≡ space.old.promised) × (1 ≤ device.new.books.spare)) }
    ensures stop { device.new.books.stop ≡ device.old.books.stop }
    ensures disk { device.new.disk ≡ device.old.disk }
    ensures open { (p : OpenView) → p.hold.session ≢ session → IsOpen p space.old.view device.old.books (D.state device.old.disk) → IsOpen p space.new.view device.new.books (D.state device.new.disk) }
    ensures core { (t0 : Mounted) (adopted : Adoption) → HasCore t0 adopted space.old.view device.old.books (D.state device.old.disk) (D.clock device.old.disk) (D.since device.old.disk)
        → HasCore t0 adopted space.new.view device.new.books (D.state device.new.disk) (D.clock device.new.disk) (D.since device.new.disk) }
{
    make_room(device)?;
    space.promise(session)
}

/// Answers a call once no more is held back than the log and the bitmap have room for. Where it is put off, what is open is sealed and all that
/// waits leaves the log first.
pub fn answer<A: Answers, D: Disk>(
    space: &mut Space,
    device: &mut Device<D>,
    answers: &A,
    session: u32,
    tag: u32,
    now: u64,
    call: Call,
) -> Result<(), AllocError>
    requires joined { AreJoined space.old device.old.books (D.state device.old.disk) }
    requires free { times session space.old.promised ≡ 0 }
    requires now { now < 2 ^ 40 }
    requires session { session ≢ 0 }
    requires call { call ≢ Sync }
    requires serves { A.serves call ≡ true }
    requires stays { keeps_holds call ≡ true }
    requires goes { lets_go call ≡ false }
    requires ranges { KeepsRanges call }
    requires spare { 1 ≤ device.old.books.spare }
    ensures joined { AreJoined space.new device.new.books (D.state device.new.disk) }
    ensures promised { space.new.promised ≡ space.old.promised }
    ensures spare { 1 ≤ device.new.books.spare }
    ensures entry { OnOk result (HasEntry space.old.view.history space.new.view.history session tag call) }
    ensures no_memory { OnErr result (space.new.view.history ≡ space.old.view.history) }
    ensures later { D.faults device.old.disk ≤ D.faults device.new.disk }
    ensures disk_clock { D.clock device.old.disk ≤ D.clock device.new.disk }
    // The space has replied, or the device has ended it.
    ensures noted { OnOk result (HasReplyIn space.old space.new (D.faults device.old.disk) (D.faults device.new.disk) session tag call ⊎ IsEnded space.old.view.history space.new.view.history session tag call device.old.books.stop (D.faults device.old.disk) (D.faults device.new.disk)) }
    ensures answered { (t0 : Mounted) (adopted : Adoption) → HasCore t0 adopted space.old.view device.old.books (D.state device.old.disk) (D.clock device.old.disk) (D.since device.old.disk)
        → OnOk result (IsAnsweredIn t0 space.old space.new device.new.books (D.state device.new.disk) session tag call ⊎ IsEnded space.old.view.history space.new.view.history session tag call device.old.books.stop (D.faults device.old.disk) (D.faults device.new.disk)) }
    // Of a device that had stopped the call is answered so, also where the disk tells nothing.
    ensures stopped { (s : stops.Stop) → device.old.books.stop ≡ Some s → OnOk result (IsStoppedEntry space.old.view.history space.new.view.history session tag call s) }
    // And it stays stopped, whatever is answered.
    ensures stays_stopped { (s : stops.Stop) → device.old.books.stop ≡ Some s → device.new.books.stop ≡ Some s }
    ensures stamps { HasDrawn space.old.view.history space.new.view.history now }
    ensures failures { HasFailures space.old.view.history space.new.view.history device.old.books.stop device.new.books.stop (D.faults device.old.disk) (D.faults device.new.disk) (D.stops device.old.disk) (D.stops device.new.disk) }
    ensures open { (p : OpenView) → p.hold.session ≢ session → IsOpen p space.old.view device.old.books (D.state device.old.disk) → IsOpen p space.new.view device.new.books (D.state device.new.disk) }
    ensures core { (t0 : Mounted) (adopted : Adoption) → HasCore t0 adopted space.old.view device.old.books (D.state device.old.disk) (D.clock device.old.disk) (D.since device.old.disk)
        → HasCore t0 adopted space.new.view device.new.books (D.state device.new.disk) (D.clock device.new.disk) (D.since device.new.disk) }
{
    prepare(space, device, session)?;
    if let Some(Stop { durable, faults }) = device.stopped() {
        let reply = Reply::Stopped { durable, faults };
        note(space, device, session, tag, now, call, reply);
        return Ok(());
    }
    let call = match ask(space, device, answers, session, tag, now, call) {
        Ok(Outcome::Drain(call)) => call,
        Ok(Outcome::Replied) => {
            space.unpromise(session);
            return Ok(());
        }
        Err(fault) => {
            space.unpromise(session);
            return Err(fault);
        }
    };
    if let Err(fault) = settle(space, device) {
        note(space, device, session, tag, now, call, as_reply(fault));
        return Ok(());
    }
    let outcome = ask(space, device, answers, session, tag, now, call);
    space.unpromise(session);
    match outcome {
        Ok(Outcome::Replied) => Ok(()),
        Ok(Outcome::Drain(_)) => Err(AllocError),
        Err(fault) => Err(fault),
    }
}

/// The fault of a sync that met a fault of the device.
fn as_sync_fault(fault: DeviceFault) -> SyncFault
    ensures { result ≡ sync_fault_of fault }
{
    match fault {
        DeviceFault::Disk {
            before,
            after,
            stops,
        } => SyncFault::Disk {
            before,
            after,
            stops,
        },
        DeviceFault::Stopped { durable, faults } => SyncFault::Stopped { durable, faults },
    }
}

/// Makes all entries durable, and appends one that says so, or why it wasn't done.
pub fn sync<D: Disk>(
    space: &mut Space,
    device: &mut Device<D>,
    session: u32,
    tag: u32,
    now: u64,
) -> Result<u64, SyncFault>
    requires joined { AreJoined space.old device.old.books (D.state device.old.disk) }
    requires free { times session space.old.promised ≡ 0 }
    requires now { now < 2 ^ 40 }
    requires session { session ≢ 0 }
    requires spare { 1 ≤ device.old.books.spare }
    ensures joined { AreJoined space.new device.new.books (D.state device.new.disk) }
    ensures promised { space.new.promised ≡ space.old.promised }
    ensures spare { 1 ≤ device.new.books.spare }
    ensures ok { IfOk result (λ n. (n ≡ length space.old.view.history) × (n ≤ durable_of device.new.books)) }
    ensures entry { IfOk result (λ n. HasEntryOf space.old.view.history space.new.view.history session tag Sync (Synced n)) }
    ensures failed { IfErr result (HasFailedSync space.old.view.history space.new.view.history session tag) }
    ensures cause { IfErr result (HasSyncCause device.old.books.stop (D.faults device.old.disk) (D.faults device.new.disk)) }
    ensures later { D.faults device.old.disk ≤ D.faults device.new.disk }
    ensures disk_clock { D.clock device.old.disk ≤ D.clock device.new.disk }
    // Of a device that had stopped nothing is made durable any more, and the sync is answered so, also where the disk tells nothing.
    ensures stopped { (s : stops.Stop) → device.old.books.stop ≡ Some s → IsStoppedSync space.old.view.history space.new.view.history session tag s result }
    // And it stays stopped, whatever is answered.
    ensures stays_stopped { (s : stops.Stop) → device.old.books.stop ≡ Some s → device.new.books.stop ≡ Some s }
    ensures stamps { HasDrawn space.old.view.history space.new.view.history now }
    ensures failures { HasFailures space.old.view.history space.new.view.history device.old.books.stop device.new.books.stop (D.faults device.old.disk) (D.faults device.new.disk) (D.stops device.old.disk) (D.stops device.new.disk) }
    ensures open { (p : OpenView) → p.hold.session ≢ session → IsOpen p space.old.view device.old.books (D.state device.old.disk) → IsOpen p space.new.view device.new.books (D.state device.new.disk) }
    ensures core { (t0 : Mounted) (adopted : Adoption) → HasCore t0 adopted space.old.view device.old.books (D.state device.old.disk) (D.clock device.old.disk) (D.since device.old.disk)
        → HasCore t0 adopted space.new.view device.new.books (D.state device.new.disk) (D.clock device.new.disk) (D.since device.new.disk) }
{
    if prepare(space, device, session).is_err() {
        return Err(SyncFault::NoMemory);
    }
    let upto = space.history().len() as u64;
    match make_durable(space, device) {
        Ok(()) => {
            note(
                space,
                device,
                session,
                tag,
                now,
                Call::Sync,
                Reply::Synced { upto },
            );
            Ok(upto)
        }
        Err(fault) => {
            note(
                space,
                device,
                session,
                tag,
                now,
                Call::Sync,
                as_reply(fault),
            );
            Err(as_sync_fault(fault))
        }
    }
}
