// One event of a volume: a call or a hold that is asked once, the next disk call of a piece, the release of one, a seal, or a step of the device. Between two of them a volume may be left as it is: a crash there
// recovers as one inside an event does.
ghost use Rattle.std.specs.Prelude.{◌≡◌, ◌≢◌, ◌≤◌, ◌<◌, ◌⊎◌, ◌^◌, Some, true, false, length, Ok, Err, IfOk, IfErr, IsSome, OnErr};
ghost use Rattle.bfs_base.specs.Lists.{times};
ghost use Rattle.bfs_tree.specs.declared.call.Call.TheVariants.{Hold as HoldCall, Sync};
ghost use Rattle.bfs_tree.specs.Answers.{KeepsRanges};
ghost use Rattle.bfs_tree.specs.Histories.{Mounted};
ghost use Rattle.bfs_device.specs.Books.{sealed_of};
ghost use Rattle.bfs_device.specs.declared.journal.Stop as stops;
ghost use Rattle.bfs_device_blocks.specs.Lent.{HasCore};
ghost use Rattle.bfs_core.specs.Moments.{Adoption};
ghost use Rattle.bfs_file_io.specs.Files.{lets_go};
ghost use Rattle.bfs_file_io.specs.Holds.{keeps_holds};
ghost use Rattle.bfs_file_io.specs.Open.{IsOpen, OpenView, AreOpen};
ghost use Rattle.bfs_file_io.specs.Volumes.{AreJoined};
ghost use Rattle.bfs_file_io.specs.Looks.{is_built};
ghost use Rattle.bfs_volume.specs.declared.event.Happened.TheVariants as happens;
ghost use Rattle.bfs_file_io.specs.Entries.{IsEnded, IsStoppedEntry};
ghost use Rattle.bfs_volume.specs.Events.{HasCountsOf, HasOutcomeIn, HasReplied, HasTried, IsAsked, IsCalled, IsHappened, IsOneCall, IsOutcomeIn, IsSealing, IsStoppedEvent, IsStoppedTry, MayHappen, MayWantMemory, Opens, happened_by};
ghost use Rattle.bfs_file_io.specs.Failing.{HasFailures};
ghost use Rattle.bfs_file_io.specs.Stamps.{HasDrawn};

use crate::beside::{find_piece, hold_open, let_piece_go, make_piece};
use bfs_device::{Device, DeviceFault, Progress, Stop};
use bfs_disk::Disk;
use bfs_file_io::commit::{ask, make_room, note, prepare, seal, step};
use bfs_file_io::space::{Answers, Calls, Outcome, Space};
use bfs_file_io::{OpenPiece, Piece};
use bfs_tree::{Bytes, Call, Reply};
use std::alloc::{AllocError, Global};

/// One event of a volume.
#[derive(Debug, Drop)]
pub enum Event {
    /// A call of a session that holds no piece, with the tag that its entry has.
    Call {
        session: u32,
        tag: u32,
        call: Call,
    },
    /// A session that holds none takes hold of a piece of a file, to write these bytes from the byte `at` on.
    HoldWrite {
        session: u32,
        tag: u32,
        id: u64,
        at: u64,
        bytes: Bytes,
    },
    /// A session that holds none takes hold of a piece of a file, to read so many bytes from the byte `at` on.
    HoldRead {
        session: u32,
        tag: u32,
        id: u64,
        at: u64,
        length: u64,
    },
    /// The next disk call of the session's piece: its next block is written or read, but one of which a part is to be written is read in a call before.
    Piece {
        session: u32,
    },
    /// The session's piece is let go, once nothing of it is left or a fault was met: whole with its bytes, or with the counts of the fault.
    Release {
        session: u32,
        tag: u32,
    },
    /// What is open becomes a group that is to be made durable.
    Seal,
    /// One step of the device, which makes at most one disk call.
    Step,
}

/// What has become of an event.
#[derive(Clone, Copy, Debug)]
pub enum Happened {
    /// The call, the hold or the release has an entry, the last one of the history, with its reply.
    Replied,
    /// The call or the hold was put off: what is held back has to leave the log first.
    Drain,
    /// How many disk calls of the session's piece are left: 0 where it holds none, or has met a fault. A piece of which some is left isn't let go.
    Pieced { left: u64 },
    /// Whether something was sealed: false where nothing is open, or 16 groups wait.
    Sealed(bool),
    Stepped(Progress),
    Fault(DeviceFault),
}

/// Asks a call once. Once the device has stopped, that is the reply.
pub fn attempt<A: Answers, D: Disk>(
    space: &mut Space,
    device: &mut Device<D>,
    answers: &A,
    session: u32,
    tag: u32,
    now: u64,
    call: Call,
) -> Result<Outcome, AllocError>
    requires joined { AreJoined space.old device.old.books (D.state device.old.disk) }
    requires free { times session space.old.promised ≡ 0 }
    requires now { now < 2 ^ 40 }
    requires session { session ≢ 0 }
    requires call { call ≢ Sync }
    requires serves { A.serves call ≡ true }
    requires stays { keeps_holds call ≡ true }
    requires goes { lets_go call ≡ false }
    requires ranges { KeepsRanges call }
    requires spare { 1 ≤ device.old.books.spare }
    ensures joined { AreJoined space.new device.new.books (D.state device.new.disk) }
    ensures promised { space.new.promised ≡ space.old.promised }
    ensures spare { 1 ≤ device.new.books.spare }
    ensures entry { IfOk result (HasTried space.old.view.history space.new.view.history session tag call) }
    ensures no_memory { OnErr result (space.new.view.history ≡ space.old.view.history) }
    // The space has answered, or the device had stopped.
    ensures noted { IfOk result (λ o. HasOutcomeIn space.old space.new (D.faults device.old.disk) (D.faults device.new.disk) session tag call o ⊎ IsEnded space.old.view.history space.new.view.history session tag call device.old.books.stop (D.faults device.old.disk) (D.faults device.new.disk)) }
    ensures answered { (t0 : Mounted) (adopted : Adoption) → HasCore t0 adopted space.old.view device.old.books (D.state device.old.disk) (D.clock device.old.disk) (D.since device.old.disk)
        → IfOk result (λ o. IsOutcomeIn t0 space.old space.new device.new.books (D.state device.new.disk) session tag call o ⊎ IsEnded space.old.view.history space.new.view.history session tag call device.old.books.stop (D.faults device.old.disk) (D.faults device.new.disk)) }
    // Of a device that had stopped the call is answered so, also where the disk tells nothing.
    ensures stopped { (s : stops.Stop) → device.old.books.stop ≡ Some s → IfOk result (IsStoppedTry space.old.view.history space.new.view.history session tag call s) }
    // And it stays stopped, whatever is answered.
    ensures stays_stopped { (s : stops.Stop) → device.old.books.stop ≡ Some s → device.new.books.stop ≡ Some s }
    ensures stamps { HasDrawn space.old.view.history space.new.view.history now }
    ensures failures { HasFailures space.old.view.history space.new.view.history device.old.books.stop device.new.books.stop (D.faults device.old.disk) (D.faults device.new.disk) (D.stops device.old.disk) (D.stops device.new.disk) }
    ensures disk_clock { D.clock device.old.disk ≤ D.clock device.new.disk }
    ensures open { (p : OpenView) → p.hold.session ≢ session → IsOpen p space.old.view device.old.books (D.state device.old.disk) → IsOpen p space.new.view device.new.books (D.state device.new.disk) }
    ensures core { (t0 : Mounted) (adopted : Adoption) → HasCore t0 adopted space.old.view device.old.books (D.state device.old.disk) (D.clock device.old.disk) (D.since device.old.disk)
        → HasCore t0 adopted space.new.view device.new.books (D.state device.new.disk) (D.clock device.new.disk) (D.since device.new.disk) }
{
    prepare(space, device, session)?;
    if let Some(Stop { durable, faults }) = device.stopped() {
        let reply = Reply::Stopped { durable, faults };
        note(space, device, session, tag, now, call, reply);
        return Ok(Outcome::Replied);
    }
    let outcome = ask(space, device, answers, session, tag, now, call);
    space.unpromise(session);
    outcome
}

/// What has become of a call that was asked once.
pub fn as_happened(tried: Result<Outcome, AllocError>) -> Result<Happened, AllocError>
    ensures ok { IfOk tried (λ o. result ≡ Ok (happened_by o)) }
    ensures err { IfErr tried (λ e. result ≡ Err e) }
{
    match tried {
        Ok(Outcome::Replied) => Ok(Happened::Replied),
        Ok(Outcome::Drain(_)) => Ok(Happened::Drain),
        Err(fault) => Err(fault),
    }
}

/// A call that is asked once, of a session that holds no piece, beside the pieces of others. A session that holds one is answered as if memory were
/// wanting.
fn call_event<D: Disk>(
    space: &mut Space,
    device: &mut Device<D>,
    pieces: &[OpenPiece],
    session: u32,
    tag: u32,
    now: u64,
    call: Call,
) -> Result<Happened, AllocError>
    requires joined { AreJoined space.old device.old.books (D.state device.old.disk) }
    requires open { AreOpen pieces.now space.old device.old.books (D.state device.old.disk) }
    requires now { now < 2 ^ 40 }
    requires session { session ≢ 0 }
    requires call { call ≢ Sync }
    requires built { is_built call ≡ true }
    requires ranges { KeepsRanges call }
    requires spare { 1 ≤ device.old.books.spare }
    ensures joined { AreJoined space.new device.new.books (D.state device.new.disk) }
    ensures open { AreOpen pieces.now space.new device.new.books (D.state device.new.disk) }
    ensures spare { 1 ≤ device.new.books.spare }
    ensures asked { IfOk result (IsAsked space.old space.new device.old.books.stop (D.faults device.old.disk) (D.faults device.new.disk) session tag call) }
    ensures no_memory { OnErr result (space.new.view.history ≡ space.old.view.history) }
    ensures later { D.faults device.old.disk ≤ D.faults device.new.disk }
    ensures disk_clock { D.clock device.old.disk ≤ D.clock device.new.disk }
    ensures replied { (t0 : Mounted) (adopted : Adoption) → HasCore t0 adopted space.old.view device.old.books (D.state device.old.disk) (D.clock device.old.disk) (D.since device.old.disk)
        → IfOk result (IsCalled t0 space.old space.new device.old.books device.new.books (D.state device.new.disk) (D.faults device.old.disk) (D.faults device.new.disk) session tag call) }
    // Of a device that had stopped it is answered so, also where the disk tells nothing.
    ensures stopped { (s : stops.Stop) → device.old.books.stop ≡ Some s → IfOk result (λ h. (h ≡ happens.Replied) × IsStoppedEntry space.old.view.history space.new.view.history session tag call s) }
    // And it stays stopped, whatever is answered.
    ensures stays_stopped { (s : stops.Stop) → device.old.books.stop ≡ Some s → device.new.books.stop ≡ Some s }
    ensures stamps { HasDrawn space.old.view.history space.new.view.history now }
    ensures failures { HasFailures space.old.view.history space.new.view.history device.old.books.stop device.new.books.stop (D.faults device.old.disk) (D.faults device.new.disk) (D.stops device.old.disk) (D.stops device.new.disk) }
    ensures core { (t0 : Mounted) (adopted : Adoption) → HasCore t0 adopted space.old.view device.old.books (D.state device.old.disk) (D.clock device.old.disk) (D.since device.old.disk)
        → HasCore t0 adopted space.new.view device.new.books (D.state device.new.disk) (D.clock device.new.disk) (D.since device.new.disk) }
{
    if find_piece(pieces, session).is_some() {
        return Err(AllocError);
    }
    as_happened(attempt(space, device, &Calls {}, session, tag, now, call))
}

/// A hold that is asked for once, of a session that holds no piece, beside the pieces of others.
fn hold_event<D: Disk>(
    alloc: Global,
    space: &mut Space,
    device: &mut Device<D>,
    pieces: &mut Vec<OpenPiece>,
    piece: Piece,
    bytes: Vec<u8>,
) -> Result<Happened, AllocError>
    requires joined { AreJoined space.old device.old.books (D.state device.old.disk) }
    requires open { AreOpen pieces.old.items space.old device.old.books (D.state device.old.disk) }
    requires now { piece.now < 2 ^ 40 }
    requires session { piece.session ≢ 0 }
    requires spare { 1 ≤ device.old.books.spare }
    requires long { length bytes.items ≡ piece.length }
    ensures joined { AreJoined space.new device.new.books (D.state device.new.disk) }
    ensures open { AreOpen pieces.new.items space.new device.new.books (D.state device.new.disk) }
    ensures spare { 1 ≤ device.new.books.spare }
    ensures opens { Opens space.old.view.history space.new.view.history pieces.old.items pieces.new.items (record { session = piece.session; id = piece.id; at = piece.at; length = piece.length; write = piece.write }) (λ given. given ≡ bytes.items) }
    ensures asked { IfOk result (IsAsked space.old space.new device.old.books.stop (D.faults device.old.disk) (D.faults device.new.disk) piece.session piece.tag (HoldCall piece.id piece.at piece.length piece.write)) }
    ensures no_memory { OnErr result (space.new.view.history ≡ space.old.view.history) }
    ensures later { D.faults device.old.disk ≤ D.faults device.new.disk }
    ensures disk_clock { D.clock device.old.disk ≤ D.clock device.new.disk }
    ensures replied { (t0 : Mounted) (adopted : Adoption) → HasCore t0 adopted space.old.view device.old.books (D.state device.old.disk) (D.clock device.old.disk) (D.since device.old.disk)
        → IfOk result (IsCalled t0 space.old space.new device.old.books device.new.books (D.state device.new.disk) (D.faults device.old.disk) (D.faults device.new.disk) piece.session piece.tag (HoldCall piece.id piece.at piece.length piece.write)) }
    // Of a device that had stopped it is answered so, also where the disk tells nothing.
    ensures stopped { (s : stops.Stop) → device.old.books.stop ≡ Some s → IfOk result (λ h. (h ≡ happens.Replied) × IsStoppedEntry space.old.view.history space.new.view.history piece.session piece.tag (HoldCall piece.id piece.at piece.length piece.write) s) }
    // And it stays stopped, whatever is answered.
    ensures stays_stopped { (s : stops.Stop) → device.old.books.stop ≡ Some s → device.new.books.stop ≡ Some s }
    ensures stamps { HasDrawn space.old.view.history space.new.view.history piece.now }
    ensures failures { HasFailures space.old.view.history space.new.view.history device.old.books.stop device.new.books.stop (D.faults device.old.disk) (D.faults device.new.disk) (D.stops device.old.disk) (D.stops device.new.disk) }
    ensures core { (t0 : Mounted) (adopted : Adoption) → HasCore t0 adopted space.old.view device.old.books (D.state device.old.disk) (D.clock device.old.disk) (D.since device.old.disk)
        → HasCore t0 adopted space.new.view device.new.books (D.state device.new.disk) (D.clock device.new.disk) (D.since device.new.disk) }
{
    as_happened(hold_open(alloc, space, device, pieces, piece, bytes))
}

/// Seals what is open, where something is and the device may take one group more, and tells whether it was.
pub fn seal_open<D: Disk>(space: &mut Space, device: &mut Device<D>) -> Result<bool, AllocError>
    requires joined { AreJoined space.old device.old.books (D.state device.old.disk) }
    requires spare { 1 ≤ device.old.books.spare }
    ensures joined { AreJoined space.new device.new.books (D.state device.new.disk) }
    ensures promised { space.new.promised ≡ space.old.promised }
    ensures history { space.new.view.history ≡ space.old.view.history }
    ensures spare { 1 ≤ device.new.books.spare }
    ensures sealed { IfOk result (IsSealing space.old space.new device.old.books device.new.books) }
    ensures no_memory { OnErr result ((space.new ≡ space.old) × (sealed_of device.new.books ≡ sealed_of device.old.books)) }
    ensures stop { device.new.books.stop ≡ device.old.books.stop }
    ensures disk { device.new.disk ≡ device.old.disk }
    ensures open { (p : OpenView) → IsOpen p space.old.view device.old.books (D.state device.old.disk) → IsOpen p space.new.view device.new.books (D.state device.new.disk) }
    ensures core { (t0 : Mounted) (adopted : Adoption) → HasCore t0 adopted space.old.view device.old.books (D.state device.old.disk) (D.clock device.old.disk) (D.since device.old.disk)
        → HasCore t0 adopted space.new.view device.new.books (D.state device.new.disk) (D.clock device.new.disk) (D.since device.new.disk) }
{
    let may = device.may_seal();
    if !may {
        return Ok(false);
    }
    make_room(device)?;
    Ok(seal(space, device))
}

/// Makes one event of a space over its device, beside the pieces that are held, at this second of the clock.
pub fn make_event<D: Disk>(
    alloc: Global,
    space: &mut Space,
    device: &mut Device<D>,
    pieces: &mut Vec<OpenPiece>,
    now: u64,
    event: Event,
) -> Result<Happened, AllocError>
    requires joined { AreJoined space.old device.old.books (D.state device.old.disk) }
    requires open { AreOpen pieces.old.items space.old device.old.books (D.state device.old.disk) }
    requires now { now < 2 ^ 40 }
    requires spare { 1 ≤ device.old.books.spare }
    requires may { MayHappen event }
    ensures joined { AreJoined space.new device.new.books (D.state device.new.disk) }
    ensures open { AreOpen pieces.new.items space.new device.new.books (D.state device.new.disk) }
    ensures spare { 1 ≤ device.new.books.spare }
    ensures happened { IfOk result (IsHappened space.old space.new pieces.old.items pieces.new.items device.old.books device.new.books (D.faults device.old.disk) (D.faults device.new.disk) (D.stops device.old.disk) (D.stops device.new.disk) event) }
    ensures one { IsSome (D.state device.old.disk) → IfOk result (IsOneCall space.old.view.sup.block_size pieces.old.items (D.clock device.old.disk) (D.clock device.new.disk) event) }
    ensures no_memory { OnErr result (space.new.view.history ≡ space.old.view.history) }
    ensures wants { OnErr result (MayWantMemory (D.state device.old.disk) event) }
    ensures replied { (t0 : Mounted) (adopted : Adoption) → HasCore t0 adopted space.old.view device.old.books (D.state device.old.disk) (D.clock device.old.disk) (D.since device.old.disk)
        → IfOk result (HasReplied t0 space.old space.new device.old.books device.new.books (D.state device.new.disk) (D.faults device.old.disk) (D.faults device.new.disk) event) }
    ensures stopped { (s : stops.Stop) → device.old.books.stop ≡ Some s → IfOk result (IsStoppedEvent space.old.view.history space.new.view.history s event) }
    ensures stays_stopped { (s : stops.Stop) → device.old.books.stop ≡ Some s → device.new.books.stop ≡ Some s }
    ensures stamps { HasDrawn space.old.view.history space.new.view.history now }
    ensures failures { HasCountsOf event space.old.view.history space.new.view.history device.old.books.stop device.new.books.stop (D.faults device.old.disk) (D.faults device.new.disk) (D.stops device.old.disk) (D.stops device.new.disk) }
    ensures disk_clock { D.clock device.old.disk ≤ D.clock device.new.disk }
    ensures core { (t0 : Mounted) (adopted : Adoption) → HasCore t0 adopted space.old.view device.old.books (D.state device.old.disk) (D.clock device.old.disk) (D.since device.old.disk)
        → HasCore t0 adopted space.new.view device.new.books (D.state device.new.disk) (D.clock device.new.disk) (D.since device.new.disk) }
{
    match event {
        Event::Call { session, tag, call } => {
            call_event(space, device, pieces.as_slice(), session, tag, now, call)
        }
        Event::HoldWrite {
            session,
            tag,
            id,
            at,
            bytes,
        } => {
            let bytes = bytes.into_vec();
            let length = bytes.len() as u64;
            let piece = to_hold(session, tag, now, id, at, length, true);
            hold_event(alloc, space, device, pieces, piece, bytes)
        }
        Event::HoldRead {
            session,
            tag,
            id,
            at,
            length,
        } => {
            let bytes = match vec![in alloc; 0u8; length as usize] {
                Ok(bytes) => bytes,
                Err(fault) => return Err(fault),
            };
            let piece = to_hold(session, tag, now, id, at, length, false);
            hold_event(alloc, space, device, pieces, piece, bytes)
        }
        Event::Piece { session } => make_piece(space, device, pieces, session),
        Event::Release { session, tag } => Ok(let_piece_go(
            alloc, space, device, pieces, session, tag, now,
        )),
        Event::Seal => match seal_open(space, device) {
            Ok(sealed) => Ok(Happened::Sealed(sealed)),
            Err(fault) => Err(fault),
        },
        Event::Step => match step(space, device) {
            Ok(progress) => Ok(Happened::Stepped(progress)),
            Err(fault) => Ok(Happened::Fault(fault)),
        },
    }
}

/// A piece that a session asks for.
fn to_hold(session: u32, tag: u32, now: u64, id: u64, at: u64, length: u64, write: bool) -> Piece
    ensures { result ≡ record { session = session; tag = tag; now = now; id = id; at = at; length = length; write = write } }
{
    Piece {
        session,
        tag,
        now,
        id,
        at,
        length,
        write,
    }
}
