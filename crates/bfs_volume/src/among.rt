// Calls, syncs and pieces of a session that holds no piece, while others hold theirs. A session that holds one makes none of them before it has let it go.
ghost use Rattle.std.specs.Prelude.{◌≡◌, ◌≢◌, ◌≤◌, ◌<◌, ◌⊎◌, ◌^◌, Some, true, false, length, IfOk, IfErr, OnOk, OnErr};
ghost use Rattle.bfs_tree.specs.declared.call.Call.TheVariants.{Hold, Sync};
ghost use Rattle.bfs_tree.specs.declared.reply.Reply.TheVariants.{Synced};
ghost use Rattle.bfs_tree.specs.Answers.{KeepsRanges};
ghost use Rattle.bfs_tree.specs.Histories.{Mounted};
ghost use Rattle.bfs_device.specs.Books.{durable_of};
ghost use Rattle.bfs_device.specs.declared.journal.Stop as stops;
ghost use Rattle.bfs_device_blocks.specs.Lent.{HasCore};
ghost use Rattle.bfs_core.specs.Moments.{Adoption};
ghost use Rattle.bfs_file_io.specs.Files.{lets_go};
ghost use Rattle.bfs_file_io.specs.Holds.{keeps_holds};
ghost use Rattle.bfs_file_io.specs.Causes.{HasSyncCause};
ghost use Rattle.bfs_file_io.specs.Entries.{HasEntry, HasEntryOf, HasFailedSync, HasReplyIn, IsAnsweredIn, IsEnded, IsStoppedEntry, IsStoppedSync};
ghost use Rattle.bfs_file_io.specs.Failing.{HasFailures};
ghost use Rattle.bfs_file_io.specs.Open.{AreOpen};
ghost use Rattle.bfs_file_io.specs.Pieces.{HasPiece, HasHoldIn, HasReleaseCause, IsHoldIn};
ghost use Rattle.bfs_file_io.specs.Stamps.{HasDrawn};
ghost use Rattle.bfs_file_io.specs.Volumes.{AreJoined};

use crate::beside::find_piece;
use bfs_device::Device;
use bfs_disk::Disk;
use bfs_file_io::commit::{SyncFault, answer, sync};
use bfs_file_io::space::{Answers, Space};
use bfs_file_io::{OpenPiece, Piece, read, write};
use bfs_tree::Call;
use std::alloc::{AllocError, Global};

/// Answers a call of a session, beside the pieces that others hold. A session that holds a piece has to let it go first: till then it is answered as if
/// memory were wanting.
pub fn answer_among<A: Answers, D: Disk>(
    pieces: &[OpenPiece],
    space: &mut Space,
    device: &mut Device<D>,
    answers: &A,
    session: u32,
    tag: u32,
    now: u64,
    call: Call,
) -> Result<(), AllocError>
    requires joined { AreJoined space.old device.old.books (D.state device.old.disk) }
    requires open { AreOpen pieces.now space.old device.old.books (D.state device.old.disk) }
    requires now { now < 2 ^ 40 }
    requires session { session ≢ 0 }
    requires call { call ≢ Sync }
    requires serves { A.serves call ≡ true }
    requires stays { keeps_holds call ≡ true }
    requires goes { lets_go call ≡ false }
    requires ranges { KeepsRanges call }
    requires spare { 1 ≤ device.old.books.spare }
    ensures joined { AreJoined space.new device.new.books (D.state device.new.disk) }
    ensures spare { 1 ≤ device.new.books.spare }
    ensures entry { OnOk result (HasEntry space.old.view.history space.new.view.history session tag call) }
    ensures no_memory { OnErr result (space.new.view.history ≡ space.old.view.history) }
    ensures later { D.faults device.old.disk ≤ D.faults device.new.disk }
    ensures disk_clock { D.clock device.old.disk ≤ D.clock device.new.disk }
    // The space has replied, or the device has ended it.
    ensures noted { OnOk result (HasReplyIn space.old space.new (D.faults device.old.disk) (D.faults device.new.disk) session tag call ⊎ IsEnded space.old.view.history space.new.view.history session tag call device.old.books.stop (D.faults device.old.disk) (D.faults device.new.disk)) }
    ensures answered { (t0 : Mounted) (adopted : Adoption) → HasCore t0 adopted space.old.view device.old.books (D.state device.old.disk) (D.clock device.old.disk) (D.since device.old.disk)
        → OnOk result (IsAnsweredIn t0 space.old space.new device.new.books (D.state device.new.disk) session tag call ⊎ IsEnded space.old.view.history space.new.view.history session tag call device.old.books.stop (D.faults device.old.disk) (D.faults device.new.disk)) }
    // Of a device that had stopped the call is answered so, also where the disk tells nothing.
    ensures stopped { (s : stops.Stop) → device.old.books.stop ≡ Some s → OnOk result (IsStoppedEntry space.old.view.history space.new.view.history session tag call s) }
    // And it stays stopped, whatever is answered.
    ensures stays_stopped { (s : stops.Stop) → device.old.books.stop ≡ Some s → device.new.books.stop ≡ Some s }
    ensures stamps { HasDrawn space.old.view.history space.new.view.history now }
    ensures failures { HasFailures space.old.view.history space.new.view.history device.old.books.stop device.new.books.stop (D.faults device.old.disk) (D.faults device.new.disk) (D.stops device.old.disk) (D.stops device.new.disk) }
    ensures open { AreOpen pieces.now space.new device.new.books (D.state device.new.disk) }
    ensures core { (t0 : Mounted) (adopted : Adoption) → HasCore t0 adopted space.old.view device.old.books (D.state device.old.disk) (D.clock device.old.disk) (D.since device.old.disk)
        → HasCore t0 adopted space.new.view device.new.books (D.state device.new.disk) (D.clock device.new.disk) (D.since device.new.disk) }
{
    if find_piece(pieces, session).is_some() {
        return Err(AllocError);
    }
    answer(space, device, answers, session, tag, now, call)
}

/// Makes all entries durable, beside the pieces that others hold. A session that holds a piece has to let it go first: till then it is answered as if
/// memory were wanting.
pub fn sync_among<D: Disk>(
    pieces: &[OpenPiece],
    space: &mut Space,
    device: &mut Device<D>,
    session: u32,
    tag: u32,
    now: u64,
) -> Result<u64, SyncFault>
    requires joined { AreJoined space.old device.old.books (D.state device.old.disk) }
    requires open { AreOpen pieces.now space.old device.old.books (D.state device.old.disk) }
    requires now { now < 2 ^ 40 }
    requires session { session ≢ 0 }
    requires spare { 1 ≤ device.old.books.spare }
    ensures joined { AreJoined space.new device.new.books (D.state device.new.disk) }
    ensures spare { 1 ≤ device.new.books.spare }
    ensures ok { IfOk result (λ n. (n ≡ length space.old.view.history) × (n ≤ durable_of device.new.books)) }
    ensures entry { IfOk result (λ n. HasEntryOf space.old.view.history space.new.view.history session tag Sync (Synced n)) }
    ensures failed { IfErr result (HasFailedSync space.old.view.history space.new.view.history session tag) }
    ensures cause { IfErr result (HasSyncCause device.old.books.stop (D.faults device.old.disk) (D.faults device.new.disk)) }
    ensures later { D.faults device.old.disk ≤ D.faults device.new.disk }
    ensures disk_clock { D.clock device.old.disk ≤ D.clock device.new.disk }
    // Of a device that had stopped nothing is made durable any more, and the sync is answered so, also where the disk tells nothing.
    ensures stopped { (s : stops.Stop) → device.old.books.stop ≡ Some s → IsStoppedSync space.old.view.history space.new.view.history session tag s result }
    // And it stays stopped, whatever is answered.
    ensures stays_stopped { (s : stops.Stop) → device.old.books.stop ≡ Some s → device.new.books.stop ≡ Some s }
    ensures stamps { HasDrawn space.old.view.history space.new.view.history now }
    ensures failures { HasFailures space.old.view.history space.new.view.history device.old.books.stop device.new.books.stop (D.faults device.old.disk) (D.faults device.new.disk) (D.stops device.old.disk) (D.stops device.new.disk) }
    ensures open { AreOpen pieces.now space.new device.new.books (D.state device.new.disk) }
    ensures core { (t0 : Mounted) (adopted : Adoption) → HasCore t0 adopted space.old.view device.old.books (D.state device.old.disk) (D.clock device.old.disk) (D.since device.old.disk)
        → HasCore t0 adopted space.new.view device.new.books (D.state device.new.disk) (D.clock device.new.disk) (D.since device.new.disk) }
{
    if find_piece(pieces, session).is_some() {
        return Err(SyncFault::NoMemory);
    }
    sync(space, device, session, tag, now)
}

/// Writes bytes of a file, beside the pieces that others hold. A session that holds a piece has to let it go first: till then it is answered as if
/// memory were wanting.
pub fn write_among<D: Disk>(
    pieces: &[OpenPiece],
    alloc: Global,
    space: &mut Space,
    device: &mut Device<D>,
    piece: Piece,
    bytes: &[u8],
) -> Result<(), AllocError>
    requires joined { AreJoined space.old device.old.books (D.state device.old.disk) }
    requires open { AreOpen pieces.now space.old device.old.books (D.state device.old.disk) }
    requires now { piece.now < 2 ^ 40 }
    requires session { piece.session ≢ 0 }
    requires spare { 1 ≤ device.old.books.spare }
    requires long { piece.length ≡ length bytes.now }
    requires way { piece.write ≡ true }
    ensures joined { AreJoined space.new device.new.books (D.state device.new.disk) }
    ensures spare { 1 ≤ device.new.books.spare }
    ensures entries { OnOk result (HasPiece space.old.view.history space.new.view.history piece.session piece.tag (Hold piece.id piece.at (length bytes.now) true) piece.id (λ given. given ≡ bytes.now)) }
    ensures no_memory { OnErr result (space.new.view.history ≡ space.old.view.history) }
    ensures later { D.faults device.old.disk ≤ D.faults device.new.disk }
    ensures disk_clock { D.clock device.old.disk ≤ D.clock device.new.disk }
    ensures noted { OnOk result (HasHoldIn space.old (D.faults device.old.disk) (D.faults device.new.disk) piece.session piece.tag (Hold piece.id piece.at (length bytes.now) true) device.old.books.stop) }
    ensures answered { (t0 : Mounted) (adopted : Adoption) → HasCore t0 adopted space.old.view device.old.books (D.state device.old.disk) (D.clock device.old.disk) (D.since device.old.disk)
        → OnOk result (IsHoldIn t0 space.old (D.faults device.old.disk) (D.faults device.new.disk) piece.session piece.tag (Hold piece.id piece.at (length bytes.now) true) device.old.books.stop) }
    ensures released { OnOk result (HasReleaseCause space.old.view.history space.new.view.history device.old.books.stop (D.faults device.old.disk) (D.faults device.new.disk)) }
    // Of a device that had stopped the one entry is that of the hold, which is answered so, also where the disk tells nothing.
    ensures stopped { (s : stops.Stop) → device.old.books.stop ≡ Some s → OnOk result (IsStoppedEntry space.old.view.history space.new.view.history piece.session piece.tag (Hold piece.id piece.at (length bytes.now) true) s) }
    // And it stays stopped, whatever is answered.
    ensures stays_stopped { (s : stops.Stop) → device.old.books.stop ≡ Some s → device.new.books.stop ≡ Some s }
    ensures stamps { HasDrawn space.old.view.history space.new.view.history piece.now }
    ensures failures { HasFailures space.old.view.history space.new.view.history device.old.books.stop device.new.books.stop (D.faults device.old.disk) (D.faults device.new.disk) (D.stops device.old.disk) (D.stops device.new.disk) }
    ensures open { AreOpen pieces.now space.new device.new.books (D.state device.new.disk) }
    ensures core { (t0 : Mounted) (adopted : Adoption) → HasCore t0 adopted space.old.view device.old.books (D.state device.old.disk) (D.clock device.old.disk) (D.since device.old.disk)
        → HasCore t0 adopted space.new.view device.new.books (D.state device.new.disk) (D.clock device.new.disk) (D.since device.new.disk) }
{
    if find_piece(pieces, piece.session).is_some() {
        return Err(AllocError);
    }
    write(alloc, space, device, piece, bytes)
}

/// Reads bytes of a file, beside the pieces that others hold. A session that holds a piece has to let it go first: till then it is answered as if
/// memory were wanting.
pub fn read_among<D: Disk>(
    pieces: &[OpenPiece],
    alloc: Global,
    space: &mut Space,
    device: &mut Device<D>,
    piece: Piece,
    into: &mut [u8],
) -> Result<(), AllocError>
    requires joined { AreJoined space.old device.old.books (D.state device.old.disk) }
    requires open { AreOpen pieces.now space.old device.old.books (D.state device.old.disk) }
    requires now { piece.now < 2 ^ 40 }
    requires session { piece.session ≢ 0 }
    requires spare { 1 ≤ device.old.books.spare }
    requires long { piece.length ≡ length into.old }
    requires way { piece.write ≡ false }
    ensures length { length into.new ≡ length into.old }
    ensures joined { AreJoined space.new device.new.books (D.state device.new.disk) }
    ensures spare { 1 ≤ device.new.books.spare }
    ensures entries { OnOk result (HasPiece space.old.view.history space.new.view.history piece.session piece.tag (Hold piece.id piece.at (length into.old) false) piece.id (λ given. given ≡ into.new)) }
    ensures no_memory { OnErr result (space.new.view.history ≡ space.old.view.history) }
    ensures later { D.faults device.old.disk ≤ D.faults device.new.disk }
    ensures disk_clock { D.clock device.old.disk ≤ D.clock device.new.disk }
    ensures noted { OnOk result (HasHoldIn space.old (D.faults device.old.disk) (D.faults device.new.disk) piece.session piece.tag (Hold piece.id piece.at (length into.old) false) device.old.books.stop) }
    ensures answered { (t0 : Mounted) (adopted : Adoption) → HasCore t0 adopted space.old.view device.old.books (D.state device.old.disk) (D.clock device.old.disk) (D.since device.old.disk)
        → OnOk result (IsHoldIn t0 space.old (D.faults device.old.disk) (D.faults device.new.disk) piece.session piece.tag (Hold piece.id piece.at (length into.old) false) device.old.books.stop) }
    ensures released { OnOk result (HasReleaseCause space.old.view.history space.new.view.history device.old.books.stop (D.faults device.old.disk) (D.faults device.new.disk)) }
    // Of a device that had stopped the one entry is that of the hold, which is answered so, also where the disk tells nothing.
    ensures stopped { (s : stops.Stop) → device.old.books.stop ≡ Some s → OnOk result (IsStoppedEntry space.old.view.history space.new.view.history piece.session piece.tag (Hold piece.id piece.at (length into.old) false) s) }
    // And it stays stopped, whatever is answered.
    ensures stays_stopped { (s : stops.Stop) → device.old.books.stop ≡ Some s → device.new.books.stop ≡ Some s }
    ensures stamps { HasDrawn space.old.view.history space.new.view.history piece.now }
    ensures failures { HasFailures space.old.view.history space.new.view.history device.old.books.stop device.new.books.stop (D.faults device.old.disk) (D.faults device.new.disk) (D.stops device.old.disk) (D.stops device.new.disk) }
    ensures open { AreOpen pieces.now space.new device.new.books (D.state device.new.disk) }
    ensures core { (t0 : Mounted) (adopted : Adoption) → HasCore t0 adopted space.old.view device.old.books (D.state device.old.disk) (D.clock device.old.disk) (D.since device.old.disk)
        → HasCore t0 adopted space.new.view device.new.books (D.state device.new.disk) (D.clock device.new.disk) (D.since device.new.disk) }
{
    if find_piece(pieces, piece.session).is_some() {
        return Err(AllocError);
    }
    read(alloc, space, device, piece, into)
}
