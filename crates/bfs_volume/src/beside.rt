// Holds of pieces beside each other: a hold is asked for once, the next disk call of a piece is made, and a piece is let go, while other sessions hold theirs.
ghost use Rattle.std.specs.Vec.{vec_capacity};
ghost use Rattle.std.specs.Prelude.{List, ◌++◌, ◌∷◌, [], MatchOption, ◌≡◌, ◌≢◌, ◌≤◌, ◌<◌, ◌⊎◌, ◌^◌, Some, None, length, IfOk, IsSome, OnErr};
ghost use Rattle.bfs_base.specs.Lists.{Has, times};
ghost use Rattle.bfs_tree.specs.declared.call.Call.TheVariants.{Hold as HoldCall};
ghost use Rattle.bfs_tree.specs.declared.reply.Entry as entries;
ghost use Rattle.bfs_tree.specs.Histories.{Mounted};
ghost use Rattle.bfs_tree.specs.Steps.{is_done};
ghost use Rattle.bfs_device.specs.declared.journal.DeviceFault.TheVariants as faults;
ghost use Rattle.bfs_device.specs.declared.journal.Stop as stops;
ghost use Rattle.bfs_core.specs.Moments.{Adoption};
ghost use Rattle.bfs_device_blocks.specs.Lent.{HasCore};
ghost use Rattle.bfs_file_io.specs.Books.{without};
ghost use Rattle.bfs_volume.specs.declared.event.Happened.TheVariants as happens;
ghost use Rattle.bfs_file_io.specs.Entries.{IsEnded};
ghost use Rattle.bfs_volume.specs.Events.{HasCalled, HasCalledOnce, HasEnded, HasGoneOn, HasNoPiece, HasOutcomeIn, HasPieced, HasTried, IsOutcomeIn, IsStoppedTry, Opens};
ghost use Rattle.bfs_file_io.specs.Open.{made_of, AreOpen, calls_left, HoldsAt, HoldsNone, kept_if, IsOpen, OpenView};
ghost use Rattle.bfs_file_io.specs.Failing.{HasFailures, KeepsCounts};
ghost use Rattle.bfs_file_io.specs.Held.{HasLetGo, HasTriedHold};
ghost use Rattle.bfs_file_io.specs.Holding.{HasHeld};
ghost use Rattle.bfs_file_io.specs.Stamps.{HasDrawn};
ghost use Rattle.bfs_file_io.specs.Volumes.{AreJoined};

use crate::event::Happened;
use bfs_device::{Device, Stop};
use bfs_disk::Disk;
use bfs_file_io::commit::{note, prepare};
use bfs_file_io::space::{Outcome, Space};
use bfs_file_io::{
    LARGEST, OpenPiece, Piece, ask_hold, hold_of, is_taken, let_go, make_next, size_of,
};
use bfs_tree::Reply;
use std::alloc::{AllocError, Global};

/// Asks once for a hold of a piece, beside the pieces of other sessions. Once the device has stopped, that is the reply. Where it was taken, `places` are
/// the blocks that have the piece's bytes.
fn attempt_hold<D: Disk>(
    space: &mut Space,
    device: &mut Device<D>,
    piece: Piece,
    places: &mut Vec<u64>,
) -> Result<Outcome, AllocError>
    requires joined { AreJoined space.old device.old.books (D.state device.old.disk) }
    requires free { times piece.session space.old.promised ≡ 0 }
    requires now { piece.now < 2 ^ 40 }
    requires session { piece.session ≢ 0 }
    requires spare { 1 ≤ device.old.books.spare }
    ensures joined { AreJoined space.new device.new.books (D.state device.new.disk) }
    ensures spare { 1 ≤ device.new.books.spare }
    ensures tried { IfOk result (HasTriedHold space.old space.new device.new.books (D.state device.new.disk) piece.session piece.tag piece.id piece.at piece.length piece.write places.new.items) }
    ensures entry { IfOk result (HasTried space.old.view.history space.new.view.history piece.session piece.tag (HoldCall piece.id piece.at piece.length piece.write)) }
    ensures no_memory { OnErr result ((space.new.view.history ≡ space.old.view.history) × (space.new.promised ≡ space.old.promised)) }
    ensures later { D.faults device.old.disk ≤ D.faults device.new.disk }
    ensures disk_clock { D.clock device.old.disk ≤ D.clock device.new.disk }
    // The space has answered, or the device had stopped.
    ensures noted { IfOk result (λ o. HasOutcomeIn space.old space.new (D.faults device.old.disk) (D.faults device.new.disk) piece.session piece.tag (HoldCall piece.id piece.at piece.length piece.write) o ⊎ IsEnded space.old.view.history space.new.view.history piece.session piece.tag (HoldCall piece.id piece.at piece.length piece.write) device.old.books.stop (D.faults device.old.disk) (D.faults device.new.disk)) }
    ensures answered { (t0 : Mounted) (adopted : Adoption) → HasCore t0 adopted space.old.view device.old.books (D.state device.old.disk) (D.clock device.old.disk) (D.since device.old.disk)
        → IfOk result (λ o. IsOutcomeIn t0 space.old space.new device.new.books (D.state device.new.disk) piece.session piece.tag (HoldCall piece.id piece.at piece.length piece.write) o ⊎ IsEnded space.old.view.history space.new.view.history piece.session piece.tag (HoldCall piece.id piece.at piece.length piece.write) device.old.books.stop (D.faults device.old.disk) (D.faults device.new.disk)) }
    // Of a device that had stopped the hold is answered so, also where the disk tells nothing.
    ensures stopped { (s : stops.Stop) → device.old.books.stop ≡ Some s → IfOk result (IsStoppedTry space.old.view.history space.new.view.history piece.session piece.tag (HoldCall piece.id piece.at piece.length piece.write) s) }
    // And it stays stopped, whatever is answered.
    ensures stays_stopped { (s : stops.Stop) → device.old.books.stop ≡ Some s → device.new.books.stop ≡ Some s }
    ensures stamps { HasDrawn space.old.view.history space.new.view.history piece.now }
    ensures failures { HasFailures space.old.view.history space.new.view.history device.old.books.stop device.new.books.stop (D.faults device.old.disk) (D.faults device.new.disk) (D.stops device.old.disk) (D.stops device.new.disk) }
    ensures open { (p : OpenView) → p.hold.session ≢ piece.session → IsOpen p space.old.view device.old.books (D.state device.old.disk) → IsOpen p space.new.view device.new.books (D.state device.new.disk) }
    ensures core { (t0 : Mounted) (adopted : Adoption) → HasCore t0 adopted space.old.view device.old.books (D.state device.old.disk) (D.clock device.old.disk) (D.since device.old.disk)
        → HasCore t0 adopted space.new.view device.new.books (D.state device.new.disk) (D.clock device.new.disk) (D.since device.new.disk) }
{
    prepare(space, device, piece.session)?;
    if let Some(Stop { durable, faults }) = device.stopped() {
        let reply = Reply::Stopped { durable, faults };
        let call = hold_of(piece);
        note(
            space,
            device,
            piece.session,
            piece.tag,
            piece.now,
            call,
            reply,
        );
        return Ok(Outcome::Replied);
    }
    space.unpromise(piece.session);
    ask_hold(space, device, piece, places)
}

/// Keeps a piece that was taken hold of, for which there is room.
fn keep_piece(pieces: &mut Vec<OpenPiece>, piece: OpenPiece)
    requires room { length pieces.old.items < vec_capacity pieces.old }
    ensures items { pieces.new.items ≡ pieces.old.items ++ piece ∷ [] }
{
    match pieces.push(piece) {
        Ok(()) => {}
        Err(_) => {}
    }
}

/// Keeps a piece where the last entry's call, its hold, was done.
fn keep_taken(space: &Space, pieces: &mut Vec<OpenPiece>, piece: OpenPiece)
    requires room { length pieces.old.items < vec_capacity pieces.old }
    ensures kept { (before : List entries.Entry) (e : entries.Entry) → space.now.view.history ≡ before ++ e ∷ [] → pieces.new.items ≡ kept_if (is_done e.reply) pieces.old.items piece }
{
    if is_taken(space) {
        keep_piece(pieces, piece);
    }
}

/// The place of a session's piece among those that are held.
pub fn find_piece(pieces: &[OpenPiece], session: u32) -> Option<usize>
    ensures { MatchOption result (HoldsNone pieces.now session) (λ i. HoldsAt pieces.now session i) }
{
    match pieces {
        [] => None,
        [piece, rest @ ..] => {
            if piece.session() == session {
                return Some(0);
            }
            match find_piece(rest, session) {
                Some(i) => Some(i + 1),
                None => None,
            }
        }
    }
}

/// Takes hold of a piece for a session that holds none, beside those of other sessions: `bytes` are those that are to be written, or room for those that
/// are to be read. Memory is taken first, so that want of it comes before any entry.
pub fn hold_open<D: Disk>(
    alloc: Global,
    space: &mut Space,
    device: &mut Device<D>,
    pieces: &mut Vec<OpenPiece>,
    piece: Piece,
    bytes: Vec<u8>,
) -> Result<Outcome, AllocError>
    requires joined { AreJoined space.old device.old.books (D.state device.old.disk) }
    requires open { AreOpen pieces.old.items space.old device.old.books (D.state device.old.disk) }
    requires now { piece.now < 2 ^ 40 }
    requires session { piece.session ≢ 0 }
    requires spare { 1 ≤ device.old.books.spare }
    requires long { length bytes.items ≡ piece.length }
    ensures joined { AreJoined space.new device.new.books (D.state device.new.disk) }
    ensures open { AreOpen pieces.new.items space.new device.new.books (D.state device.new.disk) }
    ensures spare { 1 ≤ device.new.books.spare }
    ensures opens { Opens space.old.view.history space.new.view.history pieces.old.items pieces.new.items (record { session = piece.session; id = piece.id; at = piece.at; length = piece.length; write = piece.write }) (λ given. given ≡ bytes.items) }
    ensures entry { IfOk result (HasTried space.old.view.history space.new.view.history piece.session piece.tag (HoldCall piece.id piece.at piece.length piece.write)) }
    ensures no_memory { OnErr result (space.new.view.history ≡ space.old.view.history) }
    ensures later { D.faults device.old.disk ≤ D.faults device.new.disk }
    ensures disk_clock { D.clock device.old.disk ≤ D.clock device.new.disk }
    // The space has answered, or the device had stopped.
    ensures noted { IfOk result (λ o. HasOutcomeIn space.old space.new (D.faults device.old.disk) (D.faults device.new.disk) piece.session piece.tag (HoldCall piece.id piece.at piece.length piece.write) o ⊎ IsEnded space.old.view.history space.new.view.history piece.session piece.tag (HoldCall piece.id piece.at piece.length piece.write) device.old.books.stop (D.faults device.old.disk) (D.faults device.new.disk)) }
    ensures answered { (t0 : Mounted) (adopted : Adoption) → HasCore t0 adopted space.old.view device.old.books (D.state device.old.disk) (D.clock device.old.disk) (D.since device.old.disk)
        → IfOk result (λ o. IsOutcomeIn t0 space.old space.new device.new.books (D.state device.new.disk) piece.session piece.tag (HoldCall piece.id piece.at piece.length piece.write) o ⊎ IsEnded space.old.view.history space.new.view.history piece.session piece.tag (HoldCall piece.id piece.at piece.length piece.write) device.old.books.stop (D.faults device.old.disk) (D.faults device.new.disk)) }
    // Of a device that had stopped the hold is answered so, also where the disk tells nothing.
    ensures stopped { (s : stops.Stop) → device.old.books.stop ≡ Some s → IfOk result (IsStoppedTry space.old.view.history space.new.view.history piece.session piece.tag (HoldCall piece.id piece.at piece.length piece.write) s) }
    // And it stays stopped, whatever is answered.
    ensures stays_stopped { (s : stops.Stop) → device.old.books.stop ≡ Some s → device.new.books.stop ≡ Some s }
    ensures stamps { HasDrawn space.old.view.history space.new.view.history piece.now }
    ensures failures { HasFailures space.old.view.history space.new.view.history device.old.books.stop device.new.books.stop (D.faults device.old.disk) (D.faults device.new.disk) (D.stops device.old.disk) (D.stops device.new.disk) }
    ensures core { (t0 : Mounted) (adopted : Adoption) → HasCore t0 adopted space.old.view device.old.books (D.state device.old.disk) (D.clock device.old.disk) (D.since device.old.disk)
        → HasCore t0 adopted space.new.view device.new.books (D.state device.new.disk) (D.clock device.new.disk) (D.since device.new.disk) }
{
    if find_piece(pieces.as_slice(), piece.session).is_some() {
        return Err(AllocError);
    }
    match pieces.reserve(1) {
        Ok(()) => {}
        Err(fault) => return Err(fault),
    }
    let block = match vec![in alloc; 0u8; LARGEST] {
        Ok(block) => block,
        Err(fault) => return Err(fault),
    };
    let mut places = Vec::new(alloc);
    match attempt_hold(space, device, piece, &mut places) {
        Ok(Outcome::Replied) => {
            keep_taken(space, pieces, OpenPiece::new(piece, places, bytes, block));
            Ok(Outcome::Replied)
        }
        Ok(Outcome::Drain(call)) => Ok(Outcome::Drain(call)),
        Err(fault) => Err(fault),
    }
}

/// Makes the next disk call of a piece, and tells how many are left. Where a waiting group has the block that is to be written it isn't, and memory is said
/// to be wanting: over what a disk tells no group has a block of a file.
fn make_one<D: Disk>(
    space: &Space,
    device: &mut Device<D>,
    piece: &mut OpenPiece,
) -> Result<Happened, AllocError>
    requires joined { AreJoined space.now device.old.books (D.state device.old.disk) }
    requires open { IsOpen piece.old space.now.view device.old.books (D.state device.old.disk) }
    ensures joined { AreJoined space.now device.new.books (D.state device.new.disk) }
    ensures open { IsOpen piece.new space.now.view device.new.books (D.state device.new.disk) }
    ensures others { (q : OpenView) → q.hold.session ≢ piece.old.hold.session → IsOpen q space.now.view device.old.books (D.state device.old.disk) → IsOpen q space.now.view device.new.books (D.state device.new.disk) }
    ensures hold { piece.new.hold ≡ piece.old.hold }
    ensures made { IfOk result (HasGoneOn space.now.view.sup.block_size piece.old piece.new device.old.books.stop (D.faults device.old.disk) (D.faults device.new.disk)) }
    ensures one { IsSome (D.state device.old.disk) → IfOk result (HasCalled (calls_left space.now.view.sup.block_size piece.old) (D.clock device.old.disk) (D.clock device.new.disk)) }
    ensures wants { OnErr result ((D.state device.old.disk ≡ None) × (piece.new ≡ piece.old)) }
    // Of a device that had stopped nothing is asked.
    ensures stopped { (s : stops.Stop) → device.old.books.stop ≡ Some s → IfOk result (λ h. (h ≡ happens.Pieced 0) ⊎ (h ≡ happens.Fault (faults.Stopped s.durable s.faults))) }
    ensures spare { device.new.books.spare ≡ device.old.books.spare }
    ensures later { D.faults device.old.disk ≤ D.faults device.new.disk }
    ensures disk_clock { D.clock device.old.disk ≤ D.clock device.new.disk }
    ensures counts { KeepsCounts device.old.books.stop device.new.books.stop (D.faults device.old.disk) (D.faults device.new.disk) (D.stops device.old.disk) (D.stops device.new.disk) }
    ensures core { (t0 : Mounted) (adopted : Adoption) → HasCore t0 adopted space.now.view device.old.books (D.state device.old.disk) (D.clock device.old.disk) (D.since device.old.disk)
        → HasCore t0 adopted space.now.view device.new.books (D.state device.new.disk) (D.clock device.new.disk) (D.since device.new.disk) }
{
    device.steady();
    let size = size_of(space) as usize;
    if piece.calls_left(size) == 0 {
        return Ok(Happened::Pieced { left: 0 });
    }
    if piece.waits(device, size) {
        return Err(AllocError);
    }
    match make_next(device, piece, size) {
        Ok(()) => Ok(Happened::Pieced {
            left: piece.calls_left(size),
        }),
        Err(fault) => Ok(Happened::Fault(fault)),
    }
}

/// Makes the next disk call of a session's piece, where it holds one.
pub fn make_piece<D: Disk>(
    space: &Space,
    device: &mut Device<D>,
    pieces: &mut Vec<OpenPiece>,
    session: u32,
) -> Result<Happened, AllocError>
    requires joined { AreJoined space.now device.old.books (D.state device.old.disk) }
    requires open { AreOpen pieces.old.items space.now device.old.books (D.state device.old.disk) }
    ensures joined { AreJoined space.now device.new.books (D.state device.new.disk) }
    ensures open { AreOpen pieces.new.items space.now device.new.books (D.state device.new.disk) }
    ensures made { IfOk result (λ h. HasNoPiece pieces.old.items pieces.new.items session h ⊎ HasPieced space.now.view.sup.block_size pieces.old.items pieces.new.items session device.old.books.stop (D.faults device.old.disk) (D.faults device.new.disk) h) }
    ensures one { IsSome (D.state device.old.disk) → IfOk result (HasCalledOnce space.now.view.sup.block_size pieces.old.items session (D.clock device.old.disk) (D.clock device.new.disk)) }
    ensures wants { OnErr result (D.state device.old.disk ≡ None) }
    // Of a device that had stopped nothing is asked.
    ensures stopped { (s : stops.Stop) → device.old.books.stop ≡ Some s → IfOk result (λ h. (h ≡ happens.Pieced 0) ⊎ (h ≡ happens.Fault (faults.Stopped s.durable s.faults))) }
    ensures spare { device.new.books.spare ≡ device.old.books.spare }
    ensures later { D.faults device.old.disk ≤ D.faults device.new.disk }
    ensures disk_clock { D.clock device.old.disk ≤ D.clock device.new.disk }
    ensures counts { KeepsCounts device.old.books.stop device.new.books.stop (D.faults device.old.disk) (D.faults device.new.disk) (D.stops device.old.disk) (D.stops device.new.disk) }
    ensures core { (t0 : Mounted) (adopted : Adoption) → HasCore t0 adopted space.now.view device.old.books (D.state device.old.disk) (D.clock device.old.disk) (D.since device.old.disk)
        → HasCore t0 adopted space.now.view device.new.books (D.state device.new.disk) (D.clock device.new.disk) (D.since device.new.disk) }
{
    match find_piece(pieces.as_slice(), session) {
        Some(i) => make_one(space, device, &mut pieces[i]),
        None => Ok(Happened::Pieced { left: 0 }),
    }
}

/// Lets a piece go of which nothing is left, with the entry of its release.
fn let_one_go<D: Disk>(
    alloc: Global,
    space: &mut Space,
    device: &Device<D>,
    piece: OpenPiece,
    tag: u32,
    now: u64,
)
    requires joined { AreJoined space.old device.now.books (D.state device.now.disk) }
    requires open { IsOpen piece space.old.view device.now.books (D.state device.now.disk) }
    requires none { calls_left space.old.view.sup.block_size piece ≡ 0 }
    requires promised { Has space.old.promised piece.hold.session }
    requires held { HasHeld space.old.view.history piece.hold.session piece.hold.id piece.hold.at piece.hold.length piece.hold.write }
    requires session { piece.hold.session ≢ 0 }
    requires now { now < 2 ^ 40 }
    ensures joined { AreJoined space.new device.now.books (D.state device.now.disk) }
    ensures promised { space.new.promised ≡ without piece.hold.session space.old.promised }
    ensures gone { HasLetGo space.old.view.history space.new.view.history piece.hold.session tag piece.hold.id (made_of piece.fault) piece.bytes }
    ensures others { (q : OpenView) → q.hold.session ≢ piece.hold.session → IsOpen q space.old.view device.now.books (D.state device.now.disk) → IsOpen q space.new.view device.now.books (D.state device.now.disk) }
    ensures stamps { HasDrawn space.old.view.history space.new.view.history now }
    ensures core { (t0 : Mounted) (adopted : Adoption) → HasCore t0 adopted space.old.view device.now.books (D.state device.now.disk) (D.clock device.now.disk) (D.since device.now.disk)
        → HasCore t0 adopted space.new.view device.now.books (D.state device.now.disk) (D.clock device.now.disk) (D.since device.now.disk) }
{
    device.steady();
    let (piece, made, bytes) = piece.into_parts(tag, now);
    let_go(alloc, space, device, piece, made, bytes);
}

/// Lets a session's piece go, of which nothing is left; else tells how many disk calls are. Takes no memory.
pub fn let_piece_go<D: Disk>(
    alloc: Global,
    space: &mut Space,
    device: &Device<D>,
    pieces: &mut Vec<OpenPiece>,
    session: u32,
    tag: u32,
    now: u64,
) -> Happened
    requires joined { AreJoined space.old device.now.books (D.state device.now.disk) }
    requires open { AreOpen pieces.old.items space.old device.now.books (D.state device.now.disk) }
    requires now { now < 2 ^ 40 }
    ensures joined { AreJoined space.new device.now.books (D.state device.now.disk) }
    ensures open { AreOpen pieces.new.items space.new device.now.books (D.state device.now.disk) }
    ensures gone { HasEnded space.old space.new pieces.old.items pieces.new.items session tag result }
    ensures stamps { HasDrawn space.old.view.history space.new.view.history now }
    ensures core { (t0 : Mounted) (adopted : Adoption) → HasCore t0 adopted space.old.view device.now.books (D.state device.now.disk) (D.clock device.now.disk) (D.since device.now.disk)
        → HasCore t0 adopted space.new.view device.now.books (D.state device.now.disk) (D.clock device.now.disk) (D.since device.now.disk) }
{
    device.steady();
    let Some(i) = find_piece(pieces.as_slice(), session) else {
        return Happened::Pieced { left: 0 };
    };
    let size = size_of(space) as usize;
    let left = pieces.as_slice()[i].calls_left(size);
    if left > 0 {
        return Happened::Pieced { left };
    }
    let piece = pieces.remove(i);
    let_one_go(alloc, space, device, piece, tag, now);
    Happened::Replied
}
