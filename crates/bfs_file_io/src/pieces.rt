// Pieces of files: a piece is held, its bytes are written or read beside the groups, and it is let go. The entry of a hold is the space's; that of a
// release comes by the promise that a hold which was taken gives its session.
ghost use Rattle.std.specs.Prelude.{◌≡◌, ◌≢◌, ◌≤◌, ◌<◌, ◌⊎◌, ◌++◌, ◌∷◌, ◌%◌, ◌^◌, ℕ, List, [], Some, None, true, false, length, IfOk, IfErr, OnOk, OnErr};
ghost use Rattle.std.specs.List.{All};
ghost use Rattle.bfs_base.specs.Lists.{Has, times};
ghost use Rattle.bfs_disk.specs.State.{State};
ghost use Rattle.bfs_tree.specs.declared.call.Call.TheVariants.{Hold, Release};
ghost use Rattle.bfs_tree.specs.declared.reply.Reply.TheVariants.{Done};
ghost use Rattle.bfs_tree.specs.declared.reply.Entry as entries;
ghost use Rattle.bfs_tree.specs.declared.state.Hold as holds;
ghost use Rattle.bfs_tree.specs.Histories.{Mounted};
ghost use Rattle.bfs_tree.specs.Steps.{is_done};
ghost use Rattle.bfs_device.specs.Data.{IsRested, newest_in};
ghost use Rattle.bfs_device.specs.declared.journal.Stop as stops;
ghost use Rattle.bfs_device.specs.Layouts.{IsData, layout_of};
ghost use Rattle.bfs_core.specs.Cores.{newest_map};
ghost use Rattle.bfs_core.specs.Moments.{Adoption};
ghost use Rattle.bfs_device_blocks.specs.Lent.{HasCore};
ghost use Rattle.bfs_stream.specs.Grown.{IsOfVolume};
ghost use Rattle.bfs_stream.specs.Sizes.{sizes_of};
ghost use Rattle.bfs_commit.specs.Places.{piece_blocks};
ghost use Rattle.bfs_commit.specs.Books.{SpaceBooks, without};
ghost use Rattle.bfs_commit.specs.Faces.{IsFaceOf, IsOutcome, HasOutcome};
ghost use Rattle.bfs_commit.specs.Holds.{held_by};
ghost use Rattle.bfs_commit.specs.Taken.{ArePlaces, HavePiece};
ghost use Rattle.bfs_pieces.specs.Pieces.{HasPieceCause};
ghost use Rattle.bfs_commit.specs.Open.{IsOpen, OpenView};
ghost use Rattle.bfs_commit.specs.Volumes.{AreJoined};
ghost use Rattle.bfs_commit.specs.Entries.{HasEntryOf, HasReplyIn, IsAnsweredIn, IsEnded, IsStoppedEntry, IsToldBy, counts_of, reply_of};
ghost use Rattle.bfs_commit.specs.Failing.{HasFailures, KeepsCounts};
ghost use Rattle.bfs_commit.specs.Faults.{HasStepCause};
ghost use Rattle.bfs_commit.specs.Held.{HasGone, HasLetGo, HasPlaces, IsAwaited, IsOnDisk, IsPlain, TookHold, counts_round};
ghost use Rattle.bfs_file_io.specs.Asking.{asked_by, HasAsked, OnReply};
ghost use Rattle.bfs_commit.specs.Holding.{HasHeld, IsInWriting, IsOneOf};
ghost use Rattle.bfs_commit.specs.Pieces.{HasPiece, HasHoldIn, HasReleaseCause, HasUntaken, IsHoldIn};
ghost use Rattle.bfs_commit.specs.Stamps.{HasDrawn};

use bfs_commit::space::{Outcome, Space, entered_keeps_files};
use bfs_commit::{as_reply, note, prepare, rest, settle};
use bfs_device::{Device, DeviceFault, Stop};
use bfs_device_blocks::DeviceBlocks;
use bfs_disk::Disk;
use bfs_pieces::{read_piece, write_piece};
use bfs_tree::{Bytes, Call, Reply};
use std::alloc::{AllocError, Global};

/// The most bytes that a block has.
pub const LARGEST: usize = 8192;

/// A piece of a file that a session asks for, to be read or written; with the tag of its entries, and the seconds of the clock.
#[derive(Clone, Copy, Debug)]
pub struct Piece {
    pub session: u32,
    pub tag: u32,
    pub now: u64,
    pub id: u64,
    pub at: u64,
    pub length: u64,
    pub write: bool,
}

/// The call that holds a piece.
pub fn hold_of(piece: Piece) -> Call
    ensures { result ≡ Hold piece.id piece.at piece.length piece.write }
{
    Call::Hold {
        id: piece.id,
        at: piece.at,
        length: piece.length,
        write: piece.write,
    }
}

/// Asks the space over the device for a hold of a piece. Where it was taken, `places` are the blocks that have the piece's bytes.
pub fn ask_hold<D: Disk>(
    space: &mut Space,
    device: &mut Device<D>,
    piece: Piece,
    places: &mut Vec<u64>,
) -> Result<Outcome, AllocError>
    requires joined { AreJoined space.old device.old.books (D.state device.old.disk) }
    requires now { piece.now < 2 ^ 40 }
    requires session { piece.session ≢ 0 }
    requires unpromised { times piece.session space.old.promised ≡ 0 }
    ensures joined { AreJoined space.new device.new.books (D.state device.new.disk) }
    ensures rests { IsRested device.old.books device.new.books }
    ensures state { D.state device.new.disk ≡ D.state device.old.disk }
    ensures faults { D.faults device.old.disk ≤ D.faults device.new.disk }
    ensures disk_clock { D.clock device.old.disk ≤ D.clock device.new.disk }
    ensures noted { IfOk result (HasOutcome (counts_of (D.faults device.old.disk) (D.stops device.old.disk) device.old.books.stop) (counts_of (D.faults device.new.disk) (D.stops device.new.disk) device.new.books.stop) space.old space.new piece.session piece.tag piece.now (Hold piece.id piece.at piece.length piece.write)) }
    ensures no_memory { OnErr result (space.new ≡ space.old) }
    ensures plain { IfOk result (λ o. IsPlain space.old.view.history space.new.view.history) }
    ensures places { IfOk result (λ o. ArePlaces space.old space.new piece.at piece.length places.new.items) }
    ensures piece { (st : State) → D.state device.old.disk ≡ Some st → IfOk result (λ o. HavePiece space.old space.new (newest_map device.old.books st) piece.id piece.at piece.length places.new.items) }
    // What the disk tells, the call is entered on, or put off.
    ensures entered { (t0 : Mounted) (st : State) → D.state device.old.disk ≡ Some st → IsFaceOf t0 space.old (newest_map device.old.books st) → IfOk result (IsOutcome t0 space.old space.new (newest_map device.old.books st) piece.session piece.tag piece.now (Hold piece.id piece.at piece.length piece.write)) }
    ensures stamps { HasDrawn space.old.view.history space.new.view.history piece.now }
    ensures failures { device.old.books.stop ≡ None → HasFailures space.old.view.history space.new.view.history device.old.books.stop device.new.books.stop (D.faults device.old.disk) (D.faults device.new.disk) (D.stops device.old.disk) (D.stops device.new.disk) }
    ensures open { (p : OpenView) → p.hold.session ≢ piece.session → IsOpen p space.old.view device.old.books (D.state device.old.disk) → IsOpen p space.new.view device.new.books (D.state device.new.disk) }
    ensures core { (t0 : Mounted) (adopted : Adoption) → HasCore t0 adopted space.old.view device.old.books (D.state device.old.disk) (D.clock device.old.disk) (D.since device.old.disk)
        → HasCore t0 adopted space.new.view device.new.books (D.state device.new.disk) (D.clock device.new.disk) (D.since device.new.disk) }
{
    entered_keeps_files();
    space.steady();
    let mut blocks = DeviceBlocks::over(device);
    let outcome = space.hold(
        &mut blocks,
        piece.session,
        piece.tag,
        piece.now,
        piece.id,
        piece.at,
        piece.length,
        piece.write,
        places,
    );
    blocks.done();
    device.steady();
    outcome
}

/// Whether the last entry says that its call was done.
pub fn is_taken(space: &Space) -> bool
    ensures taken { (before : List entries.Entry) (e : entries.Entry) → space.now.view.history ≡ before ++ e ∷ [] → result ≡ is_done e.reply }
{
    match space.history().last() {
        Some(entry) => entry.reply.is_done(),
        None => false,
    }
}

/// What has become of a piece that was asked for once.
#[derive(Clone, Copy, Debug)]
pub enum Asked {
    /// It is held, and the session is promised an entry.
    Taken,
    /// The hold has an entry, whose reply is no hold.
    Refused,
    /// It was put off: what is held back has to leave the log first.
    PutOff,
}

/// What has become of a piece that was asked for, by what the space says, and by whether the last entry's call was done.
fn as_asked(asked: Result<Outcome, AllocError>, done: bool) -> Result<Asked, AllocError>
    ensures { result ≡ asked_by asked done }
{
    match asked {
        Ok(Outcome::Replied) => {
            if done {
                Ok(Asked::Taken)
            } else {
                Ok(Asked::Refused)
            }
        }
        Ok(Outcome::Drain(_)) => Ok(Asked::PutOff),
        Err(fault) => Err(fault),
    }
}

/// Asks once for a hold of a piece, of a device that goes on; one that is to be written, while no group waits.
fn ask_once<D: Disk>(
    space: &mut Space,
    device: &mut Device<D>,
    piece: Piece,
    places: &mut Vec<u64>,
) -> Result<Asked, AllocError>
    requires joined { AreJoined space.old device.old.books (D.state device.old.disk) }
    requires free { times piece.session space.old.promised ≡ 0 }
    requires now { piece.now < 2 ^ 40 }
    requires session { piece.session ≢ 0 }
    requires going { device.old.books.stop ≡ None }
    requires empty { piece.write ≡ true → device.old.books.groups ≡ [] }
    ensures joined { AreJoined space.new device.new.books (D.state device.new.disk) }
    ensures rests { IsRested device.old.books device.new.books }
    ensures faults { D.faults device.old.disk ≤ D.faults device.new.disk }
    ensures disk_clock { D.clock device.old.disk ≤ D.clock device.new.disk }
    ensures asked { IfOk result (HasAsked space.old space.new device.old.books device.new.books (D.state device.new.disk) piece.session piece.tag piece.id piece.at piece.length piece.write places.new.items) }
    ensures no_memory { OnErr result (space.new ≡ space.old) }
    ensures noted { IfOk result (OnReply (HasReplyIn space.old space.new (D.faults device.old.disk) (D.faults device.new.disk) piece.session piece.tag (Hold piece.id piece.at piece.length piece.write))) }
    ensures answered { (t0 : Mounted) (adopted : Adoption) → HasCore t0 adopted space.old.view device.old.books (D.state device.old.disk) (D.clock device.old.disk) (D.since device.old.disk)
        → IfOk result (OnReply (IsAnsweredIn t0 space.old space.new device.new.books (D.state device.new.disk) piece.session piece.tag (Hold piece.id piece.at piece.length piece.write))) }
    ensures stamps { HasDrawn space.old.view.history space.new.view.history piece.now }
    ensures failures { HasFailures space.old.view.history space.new.view.history device.old.books.stop device.new.books.stop (D.faults device.old.disk) (D.faults device.new.disk) (D.stops device.old.disk) (D.stops device.new.disk) }
    ensures open { (p : OpenView) → p.hold.session ≢ piece.session → IsOpen p space.old.view device.old.books (D.state device.old.disk) → IsOpen p space.new.view device.new.books (D.state device.new.disk) }
    ensures core { (t0 : Mounted) (adopted : Adoption) → HasCore t0 adopted space.old.view device.old.books (D.state device.old.disk) (D.clock device.old.disk) (D.since device.old.disk)
        → HasCore t0 adopted space.new.view device.new.books (D.state device.new.disk) (D.clock device.new.disk) (D.since device.new.disk) }
{
    let asked = ask_hold(space, device, piece, places);
    let done = is_taken(space);
    as_asked(asked, done)
}

/// Waits until no group does, where that is wanted.
fn rest_for<D: Disk>(
    space: &mut Space,
    device: &mut Device<D>,
    wanted: bool,
) -> Result<(), DeviceFault>
    requires joined { AreJoined space.old device.old.books (D.state device.old.disk) }
    requires going { device.old.books.stop ≡ None }
    ensures joined { AreJoined space.new device.new.books (D.state device.new.disk) }
    ensures history { space.new.view.history ≡ space.old.view.history }
    ensures promised { space.new.promised ≡ space.old.promised }
    ensures empty { OnOk result (wanted ≡ true → device.new.books.groups ≡ []) }
    ensures fault { IfErr result (HasStepCause device.old.books.stop device.new.books.stop (D.faults device.old.disk) (D.faults device.new.disk)) }
    ensures stop { OnOk result (device.new.books.stop ≡ None) }
    ensures faults { D.faults device.old.disk ≤ D.faults device.new.disk }
    ensures disk_clock { D.clock device.old.disk ≤ D.clock device.new.disk }
    ensures spare { device.new.books.spare ≡ device.old.books.spare }
    ensures counts { KeepsCounts device.old.books.stop device.new.books.stop (D.faults device.old.disk) (D.faults device.new.disk) (D.stops device.old.disk) (D.stops device.new.disk) }
    ensures open { (p : OpenView) → IsOpen p space.old.view device.old.books (D.state device.old.disk) → IsOpen p space.new.view device.new.books (D.state device.new.disk) }
    ensures core { (t0 : Mounted) (adopted : Adoption) → HasCore t0 adopted space.old.view device.old.books (D.state device.old.disk) (D.clock device.old.disk) (D.since device.old.disk)
        → HasCore t0 adopted space.new.view device.new.books (D.state device.new.disk) (D.clock device.new.disk) (D.since device.new.disk) }
{
    if !wanted {
        return Ok(());
    }
    rest(space, device)
}

/// The entry of a hold that the device has ended by this fault.
fn end_hold<D: Disk>(space: &mut Space, device: &Device<D>, piece: Piece, fault: DeviceFault)
    requires joined { AreJoined space.old device.now.books (D.state device.now.disk) }
    requires promised { Has space.old.promised piece.session }
    requires now { piece.now < 2 ^ 40 }
    requires session { piece.session ≢ 0 }
    requires told { IsToldBy device.now.books space.old.view.history (Hold piece.id piece.at piece.length piece.write) (reply_of fault) }
    ensures joined { AreJoined space.new device.now.books (D.state device.now.disk) }
    ensures promised { space.new.promised ≡ without piece.session space.old.promised }
    ensures entry { HasEntryOf space.old.view.history space.new.view.history piece.session piece.tag (Hold piece.id piece.at piece.length piece.write) (reply_of fault) }
    ensures stamps { HasDrawn space.old.view.history space.new.view.history piece.now }
    ensures open { (p : OpenView) → p.hold.session ≢ piece.session → IsOpen p space.old.view device.now.books (D.state device.now.disk) → IsOpen p space.new.view device.now.books (D.state device.now.disk) }
    ensures core { (t0 : Mounted) (adopted : Adoption) → HasCore t0 adopted space.old.view device.now.books (D.state device.now.disk) (D.clock device.now.disk) (D.since device.now.disk)
        → HasCore t0 adopted space.new.view device.now.books (D.state device.now.disk) (D.clock device.now.disk) (D.since device.now.disk) }
{
    let call = hold_of(piece);
    let reply = as_reply(fault);
    note(
        space,
        device,
        piece.session,
        piece.tag,
        piece.now,
        call,
        reply,
    );
}

/// Waits until no group does, where a piece is to be written; once the device has stopped, that is the reply to its hold. Tells whether the piece may
/// be asked for.
fn make_quiet<D: Disk>(
    space: &mut Space,
    device: &mut Device<D>,
    piece: Piece,
) -> Result<bool, AllocError>
    requires joined { AreJoined space.old device.old.books (D.state device.old.disk) }
    requires free { times piece.session space.old.promised ≡ 0 }
    requires now { piece.now < 2 ^ 40 }
    requires session { piece.session ≢ 0 }
    requires spare { 1 ≤ device.old.books.spare }
    ensures joined { AreJoined space.new device.new.books (D.state device.new.disk) }
    ensures spare { 1 ≤ device.new.books.spare }
    ensures faults { D.faults device.old.disk ≤ D.faults device.new.disk }
    ensures disk_clock { D.clock device.old.disk ≤ D.clock device.new.disk }
    ensures ready { IfOk result (λ ready. ready ≡ true → IsAwaited space.old space.new device.old.books device.new.books piece.write) }
    ensures ended { IfOk result (λ ready. ready ≡ false → IsEnded space.old.view.history space.new.view.history piece.session piece.tag (Hold piece.id piece.at piece.length piece.write) device.old.books.stop (D.faults device.old.disk) (D.faults device.new.disk) × (space.new.promised ≡ space.old.promised)) }
    ensures no_memory { OnErr result ((space.new.view.history ≡ space.old.view.history) × (space.new.promised ≡ space.old.promised)) }
    // Of a device that had stopped the hold is answered so, also where the disk tells nothing.
    ensures stopped { (s : stops.Stop) → device.old.books.stop ≡ Some s → IfOk result (λ ready. (ready ≡ false) × IsStoppedEntry space.old.view.history space.new.view.history piece.session piece.tag (Hold piece.id piece.at piece.length piece.write) s) }
    // And it stays stopped, whatever is answered.
    ensures stays_stopped { (s : stops.Stop) → device.old.books.stop ≡ Some s → device.new.books.stop ≡ Some s }
    ensures stamps { HasDrawn space.old.view.history space.new.view.history piece.now }
    ensures failures { HasFailures space.old.view.history space.new.view.history device.old.books.stop device.new.books.stop (D.faults device.old.disk) (D.faults device.new.disk) (D.stops device.old.disk) (D.stops device.new.disk) }
    ensures open { (p : OpenView) → p.hold.session ≢ piece.session → IsOpen p space.old.view device.old.books (D.state device.old.disk) → IsOpen p space.new.view device.new.books (D.state device.new.disk) }
    ensures core { (t0 : Mounted) (adopted : Adoption) → HasCore t0 adopted space.old.view device.old.books (D.state device.old.disk) (D.clock device.old.disk) (D.since device.old.disk)
        → HasCore t0 adopted space.new.view device.new.books (D.state device.new.disk) (D.clock device.new.disk) (D.since device.new.disk) }
{
    prepare(space, device, piece.session)?;
    if let Some(Stop { durable, faults }) = device.stopped() {
        let reply = Reply::Stopped { durable, faults };
        let call = hold_of(piece);
        note(
            space,
            device,
            piece.session,
            piece.tag,
            piece.now,
            call,
            reply,
        );
        return Ok(false);
    }
    match rest_for(space, device, piece.write) {
        Ok(()) => {}
        Err(fault) => {
            end_hold(space, device, piece, fault);
            return Ok(false);
        }
    }
    space.unpromise(piece.session);
    Ok(true)
}

/// Seals what is open, and waits until nothing is held back. Tells whether the piece may be asked for; else the hold has the reply of the device.
fn make_empty<D: Disk>(
    space: &mut Space,
    device: &mut Device<D>,
    piece: Piece,
) -> Result<bool, AllocError>
    requires joined { AreJoined space.old device.old.books (D.state device.old.disk) }
    requires free { times piece.session space.old.promised ≡ 0 }
    requires now { piece.now < 2 ^ 40 }
    requires session { piece.session ≢ 0 }
    requires spare { 1 ≤ device.old.books.spare }
    ensures joined { AreJoined space.new device.new.books (D.state device.new.disk) }
    ensures spare { 1 ≤ device.new.books.spare }
    ensures faults { D.faults device.old.disk ≤ D.faults device.new.disk }
    ensures disk_clock { D.clock device.old.disk ≤ D.clock device.new.disk }
    ensures ready { IfOk result (λ ready. ready ≡ true → IsAwaited space.old space.new device.old.books device.new.books piece.write) }
    ensures ended { IfOk result (λ ready. ready ≡ false → IsEnded space.old.view.history space.new.view.history piece.session piece.tag (Hold piece.id piece.at piece.length piece.write) device.old.books.stop (D.faults device.old.disk) (D.faults device.new.disk) × (space.new.promised ≡ space.old.promised)) }
    ensures no_memory { OnErr result ((space.new.view.history ≡ space.old.view.history) × (space.new.promised ≡ space.old.promised)) }
    ensures stamps { HasDrawn space.old.view.history space.new.view.history piece.now }
    ensures failures { HasFailures space.old.view.history space.new.view.history device.old.books.stop device.new.books.stop (D.faults device.old.disk) (D.faults device.new.disk) (D.stops device.old.disk) (D.stops device.new.disk) }
    ensures open { (p : OpenView) → p.hold.session ≢ piece.session → IsOpen p space.old.view device.old.books (D.state device.old.disk) → IsOpen p space.new.view device.new.books (D.state device.new.disk) }
    ensures core { (t0 : Mounted) (adopted : Adoption) → HasCore t0 adopted space.old.view device.old.books (D.state device.old.disk) (D.clock device.old.disk) (D.since device.old.disk)
        → HasCore t0 adopted space.new.view device.new.books (D.state device.new.disk) (D.clock device.new.disk) (D.since device.new.disk) }
{
    prepare(space, device, piece.session)?;
    match settle(space, device) {
        Ok(()) => {}
        Err(fault) => {
            end_hold(space, device, piece, fault);
            return Ok(false);
        }
    }
    space.unpromise(piece.session);
    Ok(true)
}

/// Asks again for a piece that was put off, once nothing is held back.
fn ask_again<D: Disk>(
    space: &mut Space,
    device: &mut Device<D>,
    piece: Piece,
    places: &mut Vec<u64>,
) -> Result<bool, AllocError>
    requires joined { AreJoined space.old device.old.books (D.state device.old.disk) }
    requires free { times piece.session space.old.promised ≡ 0 }
    requires now { piece.now < 2 ^ 40 }
    requires session { piece.session ≢ 0 }
    requires spare { 1 ≤ device.old.books.spare }
    ensures joined { AreJoined space.new device.new.books (D.state device.new.disk) }
    ensures spare { 1 ≤ device.new.books.spare }
    ensures faults { D.faults device.old.disk ≤ D.faults device.new.disk }
    ensures disk_clock { D.clock device.old.disk ≤ D.clock device.new.disk }
    ensures taken { IfOk result (λ taken. taken ≡ true → TookHold space.old space.new device.old.books device.new.books (D.state device.new.disk) piece.session piece.tag piece.id piece.at piece.length piece.write places.new.items) }
    ensures untaken { IfOk result (λ taken. taken ≡ false → HasUntaken space.old.view.history space.new.view.history piece.session piece.tag (Hold piece.id piece.at piece.length piece.write) × (space.new.promised ≡ space.old.promised)) }
    ensures no_memory { OnErr result ((space.new.view.history ≡ space.old.view.history) × (space.new.promised ≡ space.old.promised)) }
    // The space has replied, or the device has ended it.
    ensures noted { OnOk result (HasReplyIn space.old space.new (D.faults device.old.disk) (D.faults device.new.disk) piece.session piece.tag (Hold piece.id piece.at piece.length piece.write) ⊎ IsEnded space.old.view.history space.new.view.history piece.session piece.tag (Hold piece.id piece.at piece.length piece.write) device.old.books.stop (D.faults device.old.disk) (D.faults device.new.disk)) }
    ensures answered { (t0 : Mounted) (adopted : Adoption) → HasCore t0 adopted space.old.view device.old.books (D.state device.old.disk) (D.clock device.old.disk) (D.since device.old.disk)
        → OnOk result (IsAnsweredIn t0 space.old space.new device.new.books (D.state device.new.disk) piece.session piece.tag (Hold piece.id piece.at piece.length piece.write) ⊎ IsEnded space.old.view.history space.new.view.history piece.session piece.tag (Hold piece.id piece.at piece.length piece.write) device.old.books.stop (D.faults device.old.disk) (D.faults device.new.disk)) }
    ensures stamps { HasDrawn space.old.view.history space.new.view.history piece.now }
    ensures failures { HasFailures space.old.view.history space.new.view.history device.old.books.stop device.new.books.stop (D.faults device.old.disk) (D.faults device.new.disk) (D.stops device.old.disk) (D.stops device.new.disk) }
    ensures open { (p : OpenView) → p.hold.session ≢ piece.session → IsOpen p space.old.view device.old.books (D.state device.old.disk) → IsOpen p space.new.view device.new.books (D.state device.new.disk) }
    ensures core { (t0 : Mounted) (adopted : Adoption) → HasCore t0 adopted space.old.view device.old.books (D.state device.old.disk) (D.clock device.old.disk) (D.since device.old.disk)
        → HasCore t0 adopted space.new.view device.new.books (D.state device.new.disk) (D.clock device.new.disk) (D.since device.new.disk) }
{
    match make_empty(space, device, piece) {
        Ok(true) => {}
        Ok(false) => return Ok(false),
        Err(fault) => return Err(fault),
    }
    match ask_once(space, device, piece, places) {
        Ok(Asked::Taken) => Ok(true),
        Ok(Asked::Refused) => Ok(false),
        Ok(Asked::PutOff) => Err(AllocError),
        Err(fault) => Err(fault),
    }
}

/// Holds a piece once no more is held back than the log and the bitmap have room for, as a call is answered; one that is to be written, once no
/// group waits. Tells whether the hold was taken: then its session is promised an entry, and `places` are the blocks that have the piece's bytes.
fn hold<D: Disk>(
    space: &mut Space,
    device: &mut Device<D>,
    piece: Piece,
    places: &mut Vec<u64>,
) -> Result<bool, AllocError>
    requires joined { AreJoined space.old device.old.books (D.state device.old.disk) }
    requires free { times piece.session space.old.promised ≡ 0 }
    requires now { piece.now < 2 ^ 40 }
    requires session { piece.session ≢ 0 }
    requires spare { 1 ≤ device.old.books.spare }
    ensures joined { AreJoined space.new device.new.books (D.state device.new.disk) }
    ensures spare { 1 ≤ device.new.books.spare }
    ensures faults { D.faults device.old.disk ≤ D.faults device.new.disk }
    ensures disk_clock { D.clock device.old.disk ≤ D.clock device.new.disk }
    ensures taken { IfOk result (λ taken. taken ≡ true → TookHold space.old space.new device.old.books device.new.books (D.state device.new.disk) piece.session piece.tag piece.id piece.at piece.length piece.write places.new.items) }
    ensures untaken { IfOk result (λ taken. taken ≡ false → HasUntaken space.old.view.history space.new.view.history piece.session piece.tag (Hold piece.id piece.at piece.length piece.write) × (space.new.promised ≡ space.old.promised)) }
    ensures no_memory { OnErr result ((space.new.view.history ≡ space.old.view.history) × (space.new.promised ≡ space.old.promised)) }
    // The space has replied, or the device has ended it.
    ensures noted { OnOk result (HasReplyIn space.old space.new (D.faults device.old.disk) (D.faults device.new.disk) piece.session piece.tag (Hold piece.id piece.at piece.length piece.write) ⊎ IsEnded space.old.view.history space.new.view.history piece.session piece.tag (Hold piece.id piece.at piece.length piece.write) device.old.books.stop (D.faults device.old.disk) (D.faults device.new.disk)) }
    ensures answered { (t0 : Mounted) (adopted : Adoption) → HasCore t0 adopted space.old.view device.old.books (D.state device.old.disk) (D.clock device.old.disk) (D.since device.old.disk)
        → OnOk result (IsAnsweredIn t0 space.old space.new device.new.books (D.state device.new.disk) piece.session piece.tag (Hold piece.id piece.at piece.length piece.write) ⊎ IsEnded space.old.view.history space.new.view.history piece.session piece.tag (Hold piece.id piece.at piece.length piece.write) device.old.books.stop (D.faults device.old.disk) (D.faults device.new.disk)) }
    // Of a device that had stopped the hold is answered so, also where the disk tells nothing.
    ensures stopped { (s : stops.Stop) → device.old.books.stop ≡ Some s → IfOk result (λ taken. (taken ≡ false) × IsStoppedEntry space.old.view.history space.new.view.history piece.session piece.tag (Hold piece.id piece.at piece.length piece.write) s) }
    // And it stays stopped, whatever is answered.
    ensures stays_stopped { (s : stops.Stop) → device.old.books.stop ≡ Some s → device.new.books.stop ≡ Some s }
    ensures stamps { HasDrawn space.old.view.history space.new.view.history piece.now }
    ensures failures { HasFailures space.old.view.history space.new.view.history device.old.books.stop device.new.books.stop (D.faults device.old.disk) (D.faults device.new.disk) (D.stops device.old.disk) (D.stops device.new.disk) }
    ensures open { (p : OpenView) → p.hold.session ≢ piece.session → IsOpen p space.old.view device.old.books (D.state device.old.disk) → IsOpen p space.new.view device.new.books (D.state device.new.disk) }
    ensures core { (t0 : Mounted) (adopted : Adoption) → HasCore t0 adopted space.old.view device.old.books (D.state device.old.disk) (D.clock device.old.disk) (D.since device.old.disk)
        → HasCore t0 adopted space.new.view device.new.books (D.state device.new.disk) (D.clock device.new.disk) (D.since device.new.disk) }
{
    match make_quiet(space, device, piece) {
        Ok(true) => {}
        Ok(false) => return Ok(false),
        Err(fault) => return Err(fault),
    }
    match ask_once(space, device, piece, places) {
        Ok(Asked::Taken) => Ok(true),
        Ok(Asked::Refused) => Ok(false),
        Ok(Asked::PutOff) => ask_again(space, device, piece, places),
        Err(fault) => Err(fault),
    }
}

/// Where in its first block a piece begins.
pub fn begin_in(at: u64, size: usize) -> usize
    requires some { 1 ≤ size }
    ensures value { result ≡ at % size }
    ensures low { result < size }
{
    (at % size as u64) as usize
}

/// Writes bytes of a piece that is held into its blocks, which no waiting group has. A piece of no byte takes no disk call.
fn write_bytes<D: Disk>(
    device: &mut Device<D>,
    places: &[u64],
    at: u64,
    bytes: &[u8],
    block: &mut [u8],
) -> Result<(), DeviceFault>
    requires blocks { All (IsData (layout_of device.old.books.sup)) places.now }
    requires going { device.old.books.stop ≡ None }
    requires apart { All (λ k. newest_in device.old.books.groups k ≡ None) places.now }
    requires many { length places.now ≡ piece_blocks device.old.books.sup.block_size at (length bytes.now) }
    requires buffer { length block.old ≡ device.old.books.sup.block_size }
    ensures joined { (sp : SpaceBooks) (id : ℕ) → AreJoined sp device.old.books (D.state device.old.disk) → IsOfVolume (sizes_of sp.view.sup) sp.room → IsInWriting sp.view.history id at (length bytes.now)
        → HasPlaces sp.view device.old.books (D.state device.old.disk) id at (length bytes.now) places.now
        → AreJoined sp device.new.books (D.state device.new.disk) × OnOk result (IsOnDisk sp.view device.new.books (D.state device.new.disk) id at bytes.now) }
    ensures counts { KeepsCounts device.old.books.stop device.new.books.stop (D.faults device.old.disk) (D.faults device.new.disk) (D.stops device.old.disk) (D.stops device.new.disk) }
    ensures open { (sp : SpaceBooks) (h : holds.Hold) (q : OpenView) → AreJoined sp device.old.books (D.state device.old.disk) → IsOneOf h (held_by sp.view.history) → h.write ≡ true
        → HasPlaces sp.view device.old.books (D.state device.old.disk) h.id at (length bytes.now) places.now → q.hold.session ≢ h.session
        → IsOpen q sp.view device.old.books (D.state device.old.disk) → IsOpen q sp.view device.new.books (D.state device.new.disk) }
    ensures core { (t0 : Mounted) (adopted : Adoption) (sp : SpaceBooks) (id : ℕ) → AreJoined sp device.old.books (D.state device.old.disk) → IsOfVolume (sizes_of sp.view.sup) sp.room → IsInWriting sp.view.history id at (length bytes.now)
        → HasPlaces sp.view device.old.books (D.state device.old.disk) id at (length bytes.now) places.now
        → HasCore t0 adopted sp.view device.old.books (D.state device.old.disk) (D.clock device.old.disk) (D.since device.old.disk)
        → HasCore t0 adopted sp.view device.new.books (D.state device.new.disk) (D.clock device.new.disk) (D.since device.new.disk) }
    ensures rest { device.new.books ≡ record device.old.books { moment = device.new.books.moment; stop = device.new.books.stop } }
    ensures cause { IfErr result (HasPieceCause device.old.books.stop (D.faults device.old.disk) (D.faults device.new.disk)) }
    ensures faults { D.faults device.old.disk ≤ D.faults device.new.disk }
    ensures disk_clock { D.clock device.old.disk ≤ D.clock device.new.disk }
{
    if bytes.len() == 0 {
        return Ok(());
    }
    device.steady();
    let _durable = device.durable();
    let skip = begin_in(at, block.len());
    write_piece(device, places, skip, bytes, block)
}

/// Reads the bytes of a piece that is held from its blocks. A piece of no byte takes no disk call.
fn read_bytes<D: Disk>(
    device: &mut Device<D>,
    places: &[u64],
    at: u64,
    into: &mut [u8],
    block: &mut [u8],
) -> Result<(), DeviceFault>
    requires blocks { All (IsData (layout_of device.old.books.sup)) places.now }
    requires many { length places.now ≡ piece_blocks device.old.books.sup.block_size at (length into.old) }
    requires buffer { length block.old ≡ device.old.books.sup.block_size }
    ensures length { length into.new ≡ length into.old }
    ensures joined { (sp : SpaceBooks) (id : ℕ) → AreJoined sp device.old.books (D.state device.old.disk) → HasPlaces sp.view device.old.books (D.state device.old.disk) id at (length into.old) places.now
        → AreJoined sp device.new.books (D.state device.new.disk) × OnOk result (IsOnDisk sp.view device.new.books (D.state device.new.disk) id at into.new) }
    ensures counts { KeepsCounts device.old.books.stop device.new.books.stop (D.faults device.old.disk) (D.faults device.new.disk) (D.stops device.old.disk) (D.stops device.new.disk) }
    ensures open { (sp : SpaceBooks) (q : OpenView) → IsOpen q sp.view device.old.books (D.state device.old.disk) → IsOpen q sp.view device.new.books (D.state device.new.disk) }
    ensures core { (t0 : Mounted) (adopted : Adoption) (sp : SpaceBooks) → HasCore t0 adopted sp.view device.old.books (D.state device.old.disk) (D.clock device.old.disk) (D.since device.old.disk)
        → HasCore t0 adopted sp.view device.new.books (D.state device.new.disk) (D.clock device.new.disk) (D.since device.new.disk) }
    ensures rests { IsRested device.old.books device.new.books }
    ensures cause { IfErr result (HasPieceCause device.old.books.stop (D.faults device.old.disk) (D.faults device.new.disk)) }
    ensures faults { D.faults device.old.disk ≤ D.faults device.new.disk }
    ensures disk_clock { D.clock device.old.disk ≤ D.clock device.new.disk }
{
    if into.len() == 0 {
        return Ok(());
    }
    device.steady();
    let skip = begin_in(at, block.len());
    read_piece(device, places, skip, into, block)
}

/// Appends the entry of a release, by the promise of the session that holds the piece, which ends with it. Takes no memory.
fn release<D: Disk>(
    space: &mut Space,
    device: &Device<D>,
    piece: Piece,
    bytes: Bytes,
    whole: bool,
    before: u64,
    after: u64,
)
    requires joined { AreJoined space.old device.now.books (D.state device.now.disk) }
    requires promised { Has space.old.promised piece.session }
    requires now { piece.now < 2 ^ 40 }
    requires session { piece.session ≢ 0 }
    requires held { HasHeld space.old.view.history piece.session piece.id piece.at piece.length piece.write }
    requires many { whole ≡ true → length bytes ≡ piece.length }
    requires on { whole ≡ true → IsOnDisk space.old.view device.now.books (D.state device.now.disk) piece.id piece.at bytes }
    ensures joined { AreJoined space.new device.now.books (D.state device.now.disk) }
    ensures promised { space.new.promised ≡ without piece.session space.old.promised }
    ensures entry { HasEntryOf space.old.view.history space.new.view.history piece.session piece.tag (Release piece.id bytes whole before after) Done }
    ensures stamps { HasDrawn space.old.view.history space.new.view.history piece.now }
    ensures open { (p : OpenView) → p.hold.session ≢ piece.session → IsOpen p space.old.view device.now.books (D.state device.now.disk) → IsOpen p space.new.view device.now.books (D.state device.now.disk) }
    ensures core { (t0 : Mounted) (adopted : Adoption) → HasCore t0 adopted space.old.view device.now.books (D.state device.now.disk) (D.clock device.now.disk) (D.since device.now.disk)
        → HasCore t0 adopted space.new.view device.now.books (D.state device.now.disk) (D.clock device.now.disk) (D.since device.now.disk) }
{
    device.steady();
    let call = Call::Release {
        id: piece.id,
        bytes,
        whole,
        before,
        after,
    };
    space.note(
        piece.session,
        piece.tag,
        piece.now,
        call,
        Reply::Done,
        device.durable(),
    );
}

/// The counts of faults round a call that failed, or the count of a device that had stopped.
fn counts_round(fault: DeviceFault) -> (u64, u64)
    ensures { (result.0, result.1) ≡ counts_round fault }
{
    match fault {
        DeviceFault::Disk { before, after, .. } => (before, after),
        DeviceFault::Stopped { faults, .. } => (faults, faults),
    }
}

/// Lets a piece go that was written or read so: whole with its bytes, or after a fault with its counts.
pub fn let_go<D: Disk>(
    alloc: Global,
    space: &mut Space,
    device: &Device<D>,
    piece: Piece,
    made: Result<(), DeviceFault>,
    bytes: Vec<u8>,
)
    requires joined { AreJoined space.old device.now.books (D.state device.now.disk) }
    requires promised { Has space.old.promised piece.session }
    requires now { piece.now < 2 ^ 40 }
    requires session { piece.session ≢ 0 }
    requires held { HasHeld space.old.view.history piece.session piece.id piece.at piece.length piece.write }
    requires many { length bytes.items ≡ piece.length }
    requires on { OnOk made (IsOnDisk space.old.view device.now.books (D.state device.now.disk) piece.id piece.at bytes.items) }
    ensures joined { AreJoined space.new device.now.books (D.state device.now.disk) }
    ensures promised { space.new.promised ≡ without piece.session space.old.promised }
    ensures gone { HasLetGo space.old.view.history space.new.view.history piece.session piece.tag piece.id made bytes.items }
    ensures stamps { HasDrawn space.old.view.history space.new.view.history piece.now }
    ensures open { (p : OpenView) → p.hold.session ≢ piece.session → IsOpen p space.old.view device.now.books (D.state device.now.disk) → IsOpen p space.new.view device.now.books (D.state device.now.disk) }
    ensures core { (t0 : Mounted) (adopted : Adoption) → HasCore t0 adopted space.old.view device.now.books (D.state device.now.disk) (D.clock device.now.disk) (D.since device.now.disk)
        → HasCore t0 adopted space.new.view device.now.books (D.state device.now.disk) (D.clock device.now.disk) (D.since device.now.disk) }
{
    match made {
        Ok(()) => release(space, device, piece, Bytes::new(bytes), true, 0, 0),
        Err(fault) => {
            let (before, after) = counts_round(fault);
            let none = Bytes::new(Vec::new(alloc));
            release(space, device, piece, none, false, before, after);
        }
    }
}

/// Writes the bytes of a piece that is held, while no group waits, and lets it go.
fn write_held<D: Disk>(
    alloc: Global,
    space: &mut Space,
    device: &mut Device<D>,
    piece: Piece,
    places: &[u64],
    bytes: &[u8],
    copy: Vec<u8>,
    block: &mut [u8],
)
    requires joined { AreJoined space.old device.old.books (D.state device.old.disk) }
    requires promised { Has space.old.promised piece.session }
    requires now { piece.now < 2 ^ 40 }
    requires session { piece.session ≢ 0 }
    requires held { HasHeld space.old.view.history piece.session piece.id piece.at piece.length piece.write }
    requires going { device.old.books.stop ≡ None }
    requires blocks { All (IsData (layout_of device.old.books.sup)) places.now }
    requires has { HasPlaces space.old.view device.old.books (D.state device.old.disk) piece.id piece.at piece.length places.now }
    requires writes { piece.write ≡ true }
    requires empty { device.old.books.groups ≡ [] }
    requires long { length bytes.now ≡ piece.length }
    requires copy { copy.items ≡ bytes.now }
    requires room { length block.old ≡ 8192 }
    ensures joined { AreJoined space.new device.new.books (D.state device.new.disk) }
    ensures promised { space.new.promised ≡ without piece.session space.old.promised }
    ensures spare { device.new.books.spare ≡ device.old.books.spare }
    ensures gone { HasGone space.old.view.history space.new.view.history piece.session piece.tag piece.id (D.faults device.old.disk) (D.faults device.new.disk) bytes.now }
    ensures faults { D.faults device.old.disk ≤ D.faults device.new.disk }
    ensures disk_clock { D.clock device.old.disk ≤ D.clock device.new.disk }
    ensures stamps { HasDrawn space.old.view.history space.new.view.history piece.now }
    ensures failures { HasFailures space.old.view.history space.new.view.history device.old.books.stop device.new.books.stop (D.faults device.old.disk) (D.faults device.new.disk) (D.stops device.old.disk) (D.stops device.new.disk) }
    ensures open { (p : OpenView) → p.hold.session ≢ piece.session → IsOpen p space.old.view device.old.books (D.state device.old.disk) → IsOpen p space.new.view device.new.books (D.state device.new.disk) }
    ensures core { (t0 : Mounted) (adopted : Adoption) → HasCore t0 adopted space.old.view device.old.books (D.state device.old.disk) (D.clock device.old.disk) (D.since device.old.disk)
        → HasCore t0 adopted space.new.view device.new.books (D.state device.new.disk) (D.clock device.new.disk) (D.since device.new.disk) }
{
    let size = size_of(space) as usize;
    let block = &mut block[..size];
    let made = write_bytes(device, places, piece.at, bytes, block);
    let_go(alloc, space, device, piece, made, copy);
}

/// Reads the bytes of a piece that is held, and lets it go. `copy` is as long as the piece.
fn read_held<D: Disk>(
    alloc: Global,
    space: &mut Space,
    device: &mut Device<D>,
    piece: Piece,
    places: &[u64],
    into: &mut [u8],
    copy: Vec<u8>,
    block: &mut [u8],
)
    requires joined { AreJoined space.old device.old.books (D.state device.old.disk) }
    requires promised { Has space.old.promised piece.session }
    requires now { piece.now < 2 ^ 40 }
    requires session { piece.session ≢ 0 }
    requires held { HasHeld space.old.view.history piece.session piece.id piece.at piece.length piece.write }
    requires going { device.old.books.stop ≡ None }
    requires blocks { All (IsData (layout_of device.old.books.sup)) places.now }
    requires has { HasPlaces space.old.view device.old.books (D.state device.old.disk) piece.id piece.at piece.length places.now }
    requires reads { piece.write ≡ false }
    requires long { length into.old ≡ piece.length }
    requires copy { length copy.items ≡ length into.old }
    requires room { length block.old ≡ 8192 }
    ensures length { length into.new ≡ length into.old }
    ensures joined { AreJoined space.new device.new.books (D.state device.new.disk) }
    ensures promised { space.new.promised ≡ without piece.session space.old.promised }
    ensures spare { device.new.books.spare ≡ device.old.books.spare }
    ensures gone { HasGone space.old.view.history space.new.view.history piece.session piece.tag piece.id (D.faults device.old.disk) (D.faults device.new.disk) into.new }
    ensures faults { D.faults device.old.disk ≤ D.faults device.new.disk }
    ensures disk_clock { D.clock device.old.disk ≤ D.clock device.new.disk }
    ensures stamps { HasDrawn space.old.view.history space.new.view.history piece.now }
    ensures failures { HasFailures space.old.view.history space.new.view.history device.old.books.stop device.new.books.stop (D.faults device.old.disk) (D.faults device.new.disk) (D.stops device.old.disk) (D.stops device.new.disk) }
    ensures open { (p : OpenView) → p.hold.session ≢ piece.session → IsOpen p space.old.view device.old.books (D.state device.old.disk) → IsOpen p space.new.view device.new.books (D.state device.new.disk) }
    ensures core { (t0 : Mounted) (adopted : Adoption) → HasCore t0 adopted space.old.view device.old.books (D.state device.old.disk) (D.clock device.old.disk) (D.since device.old.disk)
        → HasCore t0 adopted space.new.view device.new.books (D.state device.new.disk) (D.clock device.new.disk) (D.since device.new.disk) }
{
    let size = size_of(space) as usize;
    let block = &mut block[..size];
    let made = read_bytes(device, places, piece.at, into, block);
    let mut copy = copy;
    copy.copy_from_slice(into);
    let_go(alloc, space, device, piece, made, copy);
}

/// How many bytes a block has.
pub fn size_of(space: &Space) -> u32
    ensures value { result ≡ space.now.view.sup.block_size }
    ensures small { result ≤ 8192 }
    ensures volume { IsOfVolume (sizes_of space.now.view.sup) space.now.room }
{
    space.block_size()
}

/// Writes bytes of a file: holds their piece, writes them, and lets it go. Buffers are taken first, so that want of memory comes before any entry.
pub fn write<D: Disk>(
    alloc: Global,
    space: &mut Space,
    device: &mut Device<D>,
    piece: Piece,
    bytes: &[u8],
) -> Result<(), AllocError>
    requires joined { AreJoined space.old device.old.books (D.state device.old.disk) }
    requires free { times piece.session space.old.promised ≡ 0 }
    requires now { piece.now < 2 ^ 40 }
    requires session { piece.session ≢ 0 }
    requires spare { 1 ≤ device.old.books.spare }
    requires long { piece.length ≡ length bytes.now }
    requires way { piece.write ≡ true }
    ensures joined { AreJoined space.new device.new.books (D.state device.new.disk) }
    ensures promised { space.new.promised ≡ space.old.promised }
    ensures spare { 1 ≤ device.new.books.spare }
    ensures entries { OnOk result (HasPiece space.old.view.history space.new.view.history piece.session piece.tag (Hold piece.id piece.at (length bytes.now) true) piece.id (λ given. given ≡ bytes.now)) }
    ensures no_memory { OnErr result (space.new.view.history ≡ space.old.view.history) }
    ensures later { D.faults device.old.disk ≤ D.faults device.new.disk }
    ensures disk_clock { D.clock device.old.disk ≤ D.clock device.new.disk }
    ensures noted { OnOk result (HasHoldIn space.old (D.faults device.old.disk) (D.faults device.new.disk) piece.session piece.tag (Hold piece.id piece.at (length bytes.now) true) device.old.books.stop) }
    ensures answered { (t0 : Mounted) (adopted : Adoption) → HasCore t0 adopted space.old.view device.old.books (D.state device.old.disk) (D.clock device.old.disk) (D.since device.old.disk)
        → OnOk result (IsHoldIn t0 space.old (D.faults device.old.disk) (D.faults device.new.disk) piece.session piece.tag (Hold piece.id piece.at (length bytes.now) true) device.old.books.stop) }
    ensures released { OnOk result (HasReleaseCause space.old.view.history space.new.view.history device.old.books.stop (D.faults device.old.disk) (D.faults device.new.disk)) }
    // Of a device that had stopped the one entry is that of the hold, which is answered so, also where the disk tells nothing.
    ensures stopped { (s : stops.Stop) → device.old.books.stop ≡ Some s → OnOk result (IsStoppedEntry space.old.view.history space.new.view.history piece.session piece.tag (Hold piece.id piece.at (length bytes.now) true) s) }
    // And it stays stopped, whatever is answered.
    ensures stays_stopped { (s : stops.Stop) → device.old.books.stop ≡ Some s → device.new.books.stop ≡ Some s }
    ensures stamps { HasDrawn space.old.view.history space.new.view.history piece.now }
    ensures failures { HasFailures space.old.view.history space.new.view.history device.old.books.stop device.new.books.stop (D.faults device.old.disk) (D.faults device.new.disk) (D.stops device.old.disk) (D.stops device.new.disk) }
    ensures open { (p : OpenView) → p.hold.session ≢ piece.session → IsOpen p space.old.view device.old.books (D.state device.old.disk) → IsOpen p space.new.view device.new.books (D.state device.new.disk) }
    ensures core { (t0 : Mounted) (adopted : Adoption) → HasCore t0 adopted space.old.view device.old.books (D.state device.old.disk) (D.clock device.old.disk) (D.since device.old.disk)
        → HasCore t0 adopted space.new.view device.new.books (D.state device.new.disk) (D.clock device.new.disk) (D.since device.new.disk) }
{
    let mut block = match vec![in alloc; 0u8; LARGEST] {
        Ok(block) => block,
        Err(fault) => return Err(fault),
    };
    let copy = match Vec::from_slice(alloc, bytes) {
        Ok(copy) => copy,
        Err(fault) => return Err(fault),
    };
    let mut places = Vec::new(alloc);
    match hold(space, device, piece, &mut places) {
        Ok(true) => {}
        Ok(false) => return Ok(()),
        Err(fault) => return Err(fault),
    }
    write_held(
        alloc,
        space,
        device,
        piece,
        places.as_slice(),
        bytes,
        copy,
        block.as_mut_slice(),
    );
    Ok(())
}

/// Reads bytes of a file into the whole slice: holds their piece, reads them, and lets it go. Buffers are taken first, so that want of memory comes
/// before any entry.
pub fn read<D: Disk>(
    alloc: Global,
    space: &mut Space,
    device: &mut Device<D>,
    piece: Piece,
    into: &mut [u8],
) -> Result<(), AllocError>
    requires joined { AreJoined space.old device.old.books (D.state device.old.disk) }
    requires free { times piece.session space.old.promised ≡ 0 }
    requires now { piece.now < 2 ^ 40 }
    requires session { piece.session ≢ 0 }
    requires spare { 1 ≤ device.old.books.spare }
    requires long { piece.length ≡ length into.old }
    requires way { piece.write ≡ false }
    ensures length { length into.new ≡ length into.old }
    ensures joined { AreJoined space.new device.new.books (D.state device.new.disk) }
    ensures promised { space.new.promised ≡ space.old.promised }
    ensures spare { 1 ≤ device.new.books.spare }
    ensures entries { OnOk result (HasPiece space.old.view.history space.new.view.history piece.session piece.tag (Hold piece.id piece.at (length into.old) false) piece.id (λ given. given ≡ into.new)) }
    ensures no_memory { OnErr result (space.new.view.history ≡ space.old.view.history) }
    ensures later { D.faults device.old.disk ≤ D.faults device.new.disk }
    ensures disk_clock { D.clock device.old.disk ≤ D.clock device.new.disk }
    ensures noted { OnOk result (HasHoldIn space.old (D.faults device.old.disk) (D.faults device.new.disk) piece.session piece.tag (Hold piece.id piece.at (length into.old) false) device.old.books.stop) }
    ensures answered { (t0 : Mounted) (adopted : Adoption) → HasCore t0 adopted space.old.view device.old.books (D.state device.old.disk) (D.clock device.old.disk) (D.since device.old.disk)
        → OnOk result (IsHoldIn t0 space.old (D.faults device.old.disk) (D.faults device.new.disk) piece.session piece.tag (Hold piece.id piece.at (length into.old) false) device.old.books.stop) }
    ensures released { OnOk result (HasReleaseCause space.old.view.history space.new.view.history device.old.books.stop (D.faults device.old.disk) (D.faults device.new.disk)) }
    // Of a device that had stopped the one entry is that of the hold, which is answered so, also where the disk tells nothing.
    ensures stopped { (s : stops.Stop) → device.old.books.stop ≡ Some s → OnOk result (IsStoppedEntry space.old.view.history space.new.view.history piece.session piece.tag (Hold piece.id piece.at (length into.old) false) s) }
    // And it stays stopped, whatever is answered.
    ensures stays_stopped { (s : stops.Stop) → device.old.books.stop ≡ Some s → device.new.books.stop ≡ Some s }
    ensures stamps { HasDrawn space.old.view.history space.new.view.history piece.now }
    ensures failures { HasFailures space.old.view.history space.new.view.history device.old.books.stop device.new.books.stop (D.faults device.old.disk) (D.faults device.new.disk) (D.stops device.old.disk) (D.stops device.new.disk) }
    ensures open { (p : OpenView) → p.hold.session ≢ piece.session → IsOpen p space.old.view device.old.books (D.state device.old.disk) → IsOpen p space.new.view device.new.books (D.state device.new.disk) }
    ensures core { (t0 : Mounted) (adopted : Adoption) → HasCore t0 adopted space.old.view device.old.books (D.state device.old.disk) (D.clock device.old.disk) (D.since device.old.disk)
        → HasCore t0 adopted space.new.view device.new.books (D.state device.new.disk) (D.clock device.new.disk) (D.since device.new.disk) }
{
    let mut block = match vec![in alloc; 0u8; LARGEST] {
        Ok(block) => block,
        Err(fault) => return Err(fault),
    };
    let copy = match vec![in alloc; 0u8; into.len()] {
        Ok(copy) => copy,
        Err(fault) => return Err(fault),
    };
    let mut places = Vec::new(alloc);
    match hold(space, device, piece, &mut places) {
        Ok(true) => {}
        Ok(false) => return Ok(()),
        Err(fault) => return Err(fault),
    }
    read_held(
        alloc,
        space,
        device,
        piece,
        places.as_slice(),
        into,
        copy,
        block.as_mut_slice(),
    );
    Ok(())
}
