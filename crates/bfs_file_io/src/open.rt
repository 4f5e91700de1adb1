// Pieces of files that stay held between events: each is written or read a block at a time, and let go once nothing is left of it.
ghost use Rattle.std.specs.Prelude.{◌≡◌, ◌≢◌, ◌⊎◌, ◌≤◌, ◌<◌, ◌+◌, ◌-◌, ◌/◌, ◌%◌, ℕ, List, [], Option, Some, None, true, length, min, take, slice_index, Err, IfErr, IfOk, IsOk, OnOk, is_some, IsTrue, IsFalse, IsSome};
ghost use Rattle.std.specs.List.{All};
ghost use Rattle.bfs_tree.specs.declared.state.Hold as holds;
ghost use Rattle.bfs_tree.specs.Histories.{Mounted};
ghost use Rattle.bfs_disk.specs.State.{State};
ghost use Rattle.bfs_device.specs.declared.journal.DeviceFault as device_faults;
ghost use Rattle.bfs_device.specs.declared.journal.Stop as stops;
ghost use Rattle.bfs_device.specs.Data.{IsRested, newest_in};
ghost use Rattle.bfs_device.specs.Layouts.{IsData, layout_of};
ghost use Rattle.bfs_core.specs.Moments.{Adoption};
ghost use Rattle.bfs_device_blocks.specs.Lent.{HasCore};
ghost use Rattle.bfs_stream.specs.Grown.{IsOfVolume};
ghost use Rattle.bfs_stream.specs.Sizes.{sizes_of};
ghost use Rattle.bfs_commit.specs.Books.{SpaceBooks};
ghost use Rattle.bfs_commit.specs.Places.{piece_blocks};
ghost use Rattle.bfs_pieces.specs.Pieces.{HasPieceCause};
ghost use Rattle.bfs_commit.specs.Failing.{KeepsCounts};
ghost use Rattle.bfs_commit.specs.Open.{made_of, calls_left, HasMade, IsEven, IsOpen, OpenView, next_place, open_of, open_with, reads_left, reads_next, told_block, whole_blocks};
ghost use Rattle.bfs_commit.specs.Volumes.{AreJoined};

use crate::pieces::{Piece, begin_in};
use bfs_device::{Device, DeviceFault, Stop};
use bfs_disk::Disk;
use bfs_pieces::{read_block, read_part, write_block};
use bfs_tree::Hold;
use std::marker::Model;

/// A piece of a file that a session holds: the blocks that have it, its bytes (of a read, as many, of which those that were read are told), a buffer of
/// the largest block, how many bytes were written or read, the fault that it met, and how many bytes of the block that is written next the buffer has.
#[derive(Drop)]
pub struct OpenPiece {
    hold: Hold,
    places: Vec<u64>,
    bytes: Vec<u8>,
    block: Vec<u8>,
    done: usize,
    fault: Option<DeviceFault>,
    loaded: usize,
}

impl Model for OpenPiece {
    ghost use Rattle.std.specs.Prelude.{◌≡◌, ◌≤◌, length, take};
    ghost use Rattle.bfs_commit.specs.Open.{OpenView};

    ghost Value = { OpenView };

    ghost view = { λ p. record { hold = p.hold; places = p.places.items; bytes = p.bytes.items; done = p.done; fault = p.fault; loaded = take p.loaded p.block.items } };

    ghost invariant = { λ p. (length p.block.items ≡ 8192) × (p.done ≤ length p.bytes.items) × (p.loaded ≤ 8192) };
}

/// How many bytes are made next, where so many are left: up to the end of the block.
fn count_next(left: usize, size: usize, from: usize) -> usize
    requires inside { from < size }
    ensures { result ≡ min left (size - from) }
{
    let room = size - from;
    if left < room { left } else { room }
}

/// Writes the next block of a piece, which no waiting group has, in one disk call. Where a part of it is written, the buffer has what was read of it.
/// Tells how many bytes were written.
fn write_next<D: Disk>(
    device: &mut Device<D>,
    places: &[u64],
    at: u64,
    bytes: &[u8],
    done: usize,
    block: &mut [u8],
    size: usize,
) -> Result<usize, DeviceFault>
    requires going { device.old.books.stop ≡ None }
    requires size { size ≡ device.old.books.sup.block_size }
    requires room { size ≤ length block.old }
    requires more { done < length bytes.now }
    requires blocks { All (IsData (layout_of device.old.books.sup)) places.now }
    requires many { length places.now ≡ piece_blocks device.old.books.sup.block_size at (length bytes.now) }
    requires apart { newest_in device.old.books.groups (slice_index places.now ((at % device.old.books.sup.block_size + done) / device.old.books.sup.block_size)) ≡ None }
    requires even { (done ≡ 0) ⊎ ((at + done) % device.old.books.sup.block_size ≡ 0) }
    ensures count { IfOk result (λ n. n ≡ min (length bytes.now - done) (device.old.books.sup.block_size - (at + done) % device.old.books.sup.block_size)) }
    ensures open { (sp : SpaceBooks) (h : holds.Hold) (fault : Option device_faults.DeviceFault) (loaded : List ℕ) → AreJoined sp device.old.books (D.state device.old.disk) → IsOfVolume (sizes_of sp.view.sup) sp.room → h.at ≡ at → h.write ≡ true
        → IsOpen (open_with h places.now bytes.now done fault loaded) sp.view device.old.books (D.state device.old.disk)
        → (min (length bytes.now - done) (size - (at + done) % size) ≡ size) ⊎ (loaded ≡ take size block.old)
        → AreJoined sp device.new.books (D.state device.new.disk) × IsOpen (open_of h places.now bytes.now done fault) sp.view device.new.books (D.state device.new.disk)
        × IfOk result (λ n. IsOpen (open_of h places.now bytes.now (done + n) fault) sp.view device.new.books (D.state device.new.disk)) }
    ensures others { (sp : SpaceBooks) (h : holds.Hold) (fault : Option device_faults.DeviceFault) (q : OpenView) → AreJoined sp device.old.books (D.state device.old.disk) → h.at ≡ at → h.write ≡ true
        → IsOpen (open_of h places.now bytes.now done fault) sp.view device.old.books (D.state device.old.disk) → q.hold.session ≢ h.session
        → IsOpen q sp.view device.old.books (D.state device.old.disk) → IsOpen q sp.view device.new.books (D.state device.new.disk) }
    ensures core { (t0 : Mounted) (adopted : Adoption) (sp : SpaceBooks) (h : holds.Hold) (fault : Option device_faults.DeviceFault) (loaded : List ℕ) → AreJoined sp device.old.books (D.state device.old.disk) → IsOfVolume (sizes_of sp.view.sup) sp.room → h.at ≡ at → h.write ≡ true
        → IsOpen (open_with h places.now bytes.now done fault loaded) sp.view device.old.books (D.state device.old.disk)
        → (min (length bytes.now - done) (size - (at + done) % size) ≡ size) ⊎ (loaded ≡ take size block.old)
        → HasCore t0 adopted sp.view device.old.books (D.state device.old.disk) (D.clock device.old.disk) (D.since device.old.disk)
        → HasCore t0 adopted sp.view device.new.books (D.state device.new.disk) (D.clock device.new.disk) (D.since device.new.disk) }
    ensures one { IsSome (D.state device.old.disk) → IfOk result (λ n. D.clock device.new.disk ≡ D.clock device.old.disk + 1) }
    ensures counts { KeepsCounts device.old.books.stop device.new.books.stop (D.faults device.old.disk) (D.faults device.new.disk) (D.stops device.old.disk) (D.stops device.new.disk) }
    ensures rest { device.new.books ≡ record device.old.books { moment = device.new.books.moment; stop = device.new.books.stop } }
    ensures cause { IfErr result (HasPieceCause device.old.books.stop (D.faults device.old.disk) (D.faults device.new.disk)) }
    ensures faults { D.faults device.old.disk ≤ D.faults device.new.disk }
    ensures disk_clock { D.clock device.old.disk ≤ D.clock device.new.disk }
{
    device.steady();
    let _durable = device.durable();
    let start = begin_in(at, size) + done;
    let from = start % size;
    let count = count_next(bytes.len() - done, size, from);
    let place = places[start / size];
    match write_block(
        device,
        place,
        from,
        &bytes[done..done + count],
        &mut block[..size],
    ) {
        Ok(()) => Ok(count),
        Err(fault) => Err(fault),
    }
}

/// Reads the next block of a piece, in one disk call. Tells how many bytes were read.
fn read_next<D: Disk>(
    device: &mut Device<D>,
    places: &[u64],
    at: u64,
    into: &mut [u8],
    done: usize,
    block: &mut [u8],
    size: usize,
) -> Result<usize, DeviceFault>
    requires size { size ≡ device.old.books.sup.block_size }
    requires room { size ≤ length block.old }
    requires more { done < length into.old }
    requires blocks { All (IsData (layout_of device.old.books.sup)) places.now }
    requires many { length places.now ≡ piece_blocks device.old.books.sup.block_size at (length into.old) }
    ensures count { IfOk result (λ n. n ≡ min (length into.old - done) (device.old.books.sup.block_size - (at + done) % device.old.books.sup.block_size)) }
    ensures length { length into.new ≡ length into.old }
    ensures open { (sp : SpaceBooks) (h : holds.Hold) (fault : Option device_faults.DeviceFault) → AreJoined sp device.old.books (D.state device.old.disk) → h.at ≡ at
        → IsOpen (open_of h places.now into.old done fault) sp.view device.old.books (D.state device.old.disk)
        → IsOpen (open_of h places.now into.new done fault) sp.view device.new.books (D.state device.new.disk)
        × IfOk result (λ n. IsOpen (open_of h places.now into.new (done + n) fault) sp.view device.new.books (D.state device.new.disk)) }
    ensures core { (t0 : Mounted) (adopted : Adoption) (sp : SpaceBooks) → HasCore t0 adopted sp.view device.old.books (D.state device.old.disk) (D.clock device.old.disk) (D.since device.old.disk)
        → HasCore t0 adopted sp.view device.new.books (D.state device.new.disk) (D.clock device.new.disk) (D.since device.new.disk) }
    ensures one { IsSome (D.state device.old.disk) → IfOk result (λ n. D.clock device.new.disk ≡ D.clock device.old.disk + 1) }
    ensures counts { KeepsCounts device.old.books.stop device.new.books.stop (D.faults device.old.disk) (D.faults device.new.disk) (D.stops device.old.disk) (D.stops device.new.disk) }
    ensures rests { IsRested device.old.books device.new.books }
    ensures state { D.state device.new.disk ≡ D.state device.old.disk }
    ensures cause { IfErr result (HasPieceCause device.old.books.stop (D.faults device.old.disk) (D.faults device.new.disk)) }
    ensures faults { D.faults device.old.disk ≤ D.faults device.new.disk }
    ensures disk_clock { D.clock device.old.disk ≤ D.clock device.new.disk }
{
    device.steady();
    let start = begin_in(at, size) + done;
    let from = start % size;
    let count = count_next(into.len() - done, size, from);
    let place = places[start / size];
    match read_part(
        device,
        place,
        from,
        &mut into[done..done + count],
        &mut block[..size],
    ) {
        Ok(()) => Ok(count),
        Err(fault) => Err(fault),
    }
}

/// What has become of the next block of a piece is noted: so many bytes more are made, or there is a fault.
fn note_made(open: &mut OpenPiece, made: Result<usize, DeviceFault>) -> Result<(), DeviceFault>
    requires inside { IfOk made (λ n. open.old.done + n ≤ length open.old.bytes) }
    ensures ok { IfOk made (λ n. IsOk result × (open.new ≡ record open.old { done = open.old.done + n; loaded = [] })) }
    ensures failed { IfErr made (λ fault. (result ≡ Err fault) × (open.new ≡ record open.old { fault = Some fault; loaded = [] })) }
{
    open.loaded = 0;
    match made {
        Ok(count) => {
            open.done += count;
            Ok(())
        }
        Err(fault) => {
            open.fault = Some(fault);
            Err(fault)
        }
    }
}

/// Reads a block that no waiting group has into a buffer, in one disk call.
fn load_block<D: Disk>(
    device: &mut Device<D>,
    place: u64,
    block: &mut [u8],
    size: usize,
) -> Result<(), DeviceFault>
    requires size { size ≡ device.old.books.sup.block_size }
    requires room { size ≤ length block.old }
    requires data { IsData (layout_of device.old.books.sup) place }
    requires apart { newest_in device.old.books.groups place ≡ None }
    ensures length { length block.new ≡ length block.old }
    ensures told { (st : State) → D.state device.new.disk ≡ Some st → OnOk result (take size block.new ≡ told_block device.new.books st place) }
    ensures core { (t0 : Mounted) (adopted : Adoption) (sp : SpaceBooks) → HasCore t0 adopted sp.view device.old.books (D.state device.old.disk) (D.clock device.old.disk) (D.since device.old.disk)
        → HasCore t0 adopted sp.view device.new.books (D.state device.new.disk) (D.clock device.new.disk) (D.since device.new.disk) }
    ensures one { IsSome (D.state device.old.disk) → OnOk result (D.clock device.new.disk ≡ D.clock device.old.disk + 1) }
    ensures counts { KeepsCounts device.old.books.stop device.new.books.stop (D.faults device.old.disk) (D.faults device.new.disk) (D.stops device.old.disk) (D.stops device.new.disk) }
    ensures rests { IsRested device.old.books device.new.books }
    ensures state { D.state device.new.disk ≡ D.state device.old.disk }
    ensures cause { IfErr result (HasPieceCause device.old.books.stop (D.faults device.old.disk) (D.faults device.new.disk)) }
    ensures faults { D.faults device.old.disk ≤ D.faults device.new.disk }
    ensures disk_clock { D.clock device.old.disk ≤ D.clock device.new.disk }
{
    device.steady();
    read_block(device, place, &mut block[..size])
}

/// Reads the next block of a piece into its buffer, in one disk call: a part of the block is to be written. No waiting group has that block.
fn load_next<D: Disk>(
    device: &mut Device<D>,
    open: &mut OpenPiece,
    size: usize,
) -> Result<(), DeviceFault>
    requires size { size ≡ device.old.books.sup.block_size }
    requires more { open.old.done < length open.old.bytes }
    requires blocks { All (IsData (layout_of device.old.books.sup)) open.old.places }
    requires many { length open.old.places ≡ piece_blocks size open.old.hold.at (length open.old.bytes) }
    requires apart { newest_in device.old.books.groups (next_place size open.old) ≡ None }
    ensures ok { OnOk result (HasMade size open.old open.new true) }
    ensures failed { IfErr result (λ fault. open.new ≡ record open.old { fault = Some fault; loaded = [] }) }
    ensures open { (sp : SpaceBooks) → AreJoined sp device.old.books (D.state device.old.disk) → IsOpen open.old sp.view device.old.books (D.state device.old.disk)
        → IsOpen open.new sp.view device.new.books (D.state device.new.disk) }
    ensures core { (t0 : Mounted) (adopted : Adoption) (sp : SpaceBooks) → HasCore t0 adopted sp.view device.old.books (D.state device.old.disk) (D.clock device.old.disk) (D.since device.old.disk)
        → HasCore t0 adopted sp.view device.new.books (D.state device.new.disk) (D.clock device.new.disk) (D.since device.new.disk) }
    ensures one { IsSome (D.state device.old.disk) → OnOk result (D.clock device.new.disk ≡ D.clock device.old.disk + 1) }
    ensures counts { KeepsCounts device.old.books.stop device.new.books.stop (D.faults device.old.disk) (D.faults device.new.disk) (D.stops device.old.disk) (D.stops device.new.disk) }
    ensures rests { IsRested device.old.books device.new.books }
    ensures state { D.state device.new.disk ≡ D.state device.old.disk }
    ensures cause { IfErr result (HasPieceCause device.old.books.stop (D.faults device.old.disk) (D.faults device.new.disk)) }
    ensures faults { D.faults device.old.disk ≤ D.faults device.new.disk }
    ensures disk_clock { D.clock device.old.disk ≤ D.clock device.new.disk }
{
    device.steady();
    let places = open.places.as_slice();
    let place = places[index_at(open.hold.at, open.done, size)];
    let block = open.block.as_mut_slice();
    match load_block(device, place, block, size) {
        Ok(()) => {
            open.loaded = size;
            Ok(())
        }
        Err(fault) => note_made(open, Err(fault)),
    }
}

/// Makes the next disk call of a piece: its next block is written or read, but one of which a part is to be written is read first, in a call of its own. A
/// device that had stopped is asked for nothing. Of a piece that is written no waiting group has that block. Takes no memory.
pub fn make_next<D: Disk>(
    device: &mut Device<D>,
    open: &mut OpenPiece,
    size: usize,
) -> Result<(), DeviceFault>
    requires size { size ≡ device.old.books.sup.block_size }
    requires more { open.old.done < length open.old.bytes }
    requires even { IsEven size open.old }
    requires blocks { All (IsData (layout_of device.old.books.sup)) open.old.places }
    requires many { length open.old.places ≡ piece_blocks size open.old.hold.at (length open.old.bytes) }
    requires apart { open.old.hold.write ≡ true → newest_in device.old.books.groups (next_place size open.old) ≡ None }
    ensures ok { OnOk result (HasMade size open.old open.new (reads_next size open.old)) }
    ensures failed { IfErr result (λ fault. open.new ≡ record open.old { fault = Some fault; bytes = open.new.bytes; loaded = [] }) }
    ensures bytes { open.old.hold.write ≡ true → open.new.bytes ≡ open.old.bytes }
    ensures long { length open.new.bytes ≡ length open.old.bytes }
    ensures even { IsEven size open.new }
    ensures open { (sp : SpaceBooks) → AreJoined sp device.old.books (D.state device.old.disk) → IsOfVolume (sizes_of sp.view.sup) sp.room → IsOpen open.old sp.view device.old.books (D.state device.old.disk)
        → AreJoined sp device.new.books (D.state device.new.disk) × IsOpen open.new sp.view device.new.books (D.state device.new.disk) }
    ensures others { (sp : SpaceBooks) (q : OpenView) → AreJoined sp device.old.books (D.state device.old.disk) → IsOfVolume (sizes_of sp.view.sup) sp.room → IsOpen open.old sp.view device.old.books (D.state device.old.disk)
        → q.hold.session ≢ open.old.hold.session → IsOpen q sp.view device.old.books (D.state device.old.disk) → IsOpen q sp.view device.new.books (D.state device.new.disk) }
    ensures core { (t0 : Mounted) (adopted : Adoption) (sp : SpaceBooks) → AreJoined sp device.old.books (D.state device.old.disk) → IsOfVolume (sizes_of sp.view.sup) sp.room → IsOpen open.old sp.view device.old.books (D.state device.old.disk)
        → HasCore t0 adopted sp.view device.old.books (D.state device.old.disk) (D.clock device.old.disk) (D.since device.old.disk)
        → HasCore t0 adopted sp.view device.new.books (D.state device.new.disk) (D.clock device.new.disk) (D.since device.new.disk) }
    ensures one { IsSome (D.state device.old.disk) → OnOk result (D.clock device.new.disk ≡ D.clock device.old.disk + 1) }
    ensures counts { KeepsCounts device.old.books.stop device.new.books.stop (D.faults device.old.disk) (D.faults device.new.disk) (D.stops device.old.disk) (D.stops device.new.disk) }
    ensures spare { device.new.books.spare ≡ device.old.books.spare }
    ensures groups { device.new.books.groups ≡ device.old.books.groups }
    // Of a device that had stopped nothing is asked.
    ensures stopped { (s : stops.Stop) → device.old.books.stop ≡ Some s → OnOk result ⊥ }
    ensures cause { IfErr result (HasPieceCause device.old.books.stop (D.faults device.old.disk) (D.faults device.new.disk)) }
    ensures faults { D.faults device.old.disk ≤ D.faults device.new.disk }
    ensures disk_clock { D.clock device.old.disk ≤ D.clock device.new.disk }
{
    if let Some(Stop { durable, faults }) = device.stopped() {
        return note_made(open, Err(DeviceFault::Stopped { durable, faults }));
    }
    device.steady();
    let at = open.hold.at;
    let done = open.done;
    if open.hold.write {
        if open.reads_next(size) {
            return load_next(device, open, size);
        }
        let places = open.places.as_slice();
        let bytes = open.bytes.as_slice();
        let block = open.block.as_mut_slice();
        let made = write_next(device, places, at, bytes, done, block, size);
        return note_made(open, made);
    }
    let blocks = open.places.as_slice();
    let into = open.bytes.as_mut_slice();
    let buffer = open.block.as_mut_slice();
    let made = read_next(device, blocks, at, into, done, buffer, size);
    note_made(open, made)
}

/// Whether a group that waits has a block.
fn has_waiting<D: Disk>(device: &Device<D>, block: u64) -> bool
    ensures { result ≡ is_some (newest_in device.now.books.groups block) }
{
    device.waits(block)
}

/// How many blocks have the bytes from `done` on of a piece of so many bytes that begins at the byte `at`.
fn count_blocks(at: u64, done: usize, length: usize, size: usize) -> u64
    requires some { 0 < size }
    requires small { size ≤ 8192 }
    requires within { done ≤ length }
    ensures { result ≡ piece_blocks size (at + done) (length - done) }
{
    let left = length - done;
    if left == 0 {
        return 0;
    }
    let skip = (at % size as u64) as usize;
    let begin = (skip + done % size) % size;
    (left / size + (begin + left % size + size - 1) / size) as u64
}

/// How many whole blocks there are in so many bytes that begin `from` bytes behind the start of a block.
fn count_whole(left: usize, from: usize, size: usize) -> u64
    requires inside { from < size }
    ensures { result ≡ whole_blocks size from left }
{
    let head = (size - from) % size;
    if left < head {
        return 0;
    }
    ((left - head) / size) as u64
}

/// How far behind the start of its block the byte number `done` of a piece is, where it begins at the byte `at` of its file.
fn skip_at(at: u64, done: usize, size: usize) -> usize
    requires some { 0 < size }
    requires small { size ≤ 8192 }
    ensures value { result ≡ (at + done) % size }
    ensures low { result < size }
{
    let skip = (at % size as u64) as usize;
    (skip + done % size) % size
}

/// In which of a piece's blocks its byte number `done` is, where it begins at the byte `at` of its file.
fn index_at(at: u64, done: usize, size: usize) -> usize
    requires some { 0 < size }
    requires small { size ≤ 8192 }
    ensures { result ≡ (at % size + done) / size }
{
    let skip = (at % size as u64) as usize;
    done / size + (skip + done % size) / size
}

impl OpenPiece {
    /// A piece that was taken hold of, of which nothing was written or read yet.
    pub fn new(piece: Piece, places: Vec<u64>, bytes: Vec<u8>, block: Vec<u8>) -> OpenPiece
        requires room { length block.items ≡ 8192 }
        ensures { result ≡ record { hold = record { session = piece.session; id = piece.id; at = piece.at; length = piece.length; write = piece.write }; places = places.items; bytes = bytes.items; done = 0; fault = None; loaded = [] } }
    {
        OpenPiece {
            hold: Hold {
                session: piece.session,
                id: piece.id,
                at: piece.at,
                length: piece.length,
                write: piece.write,
            },
            places,
            bytes,
            block,
            done: 0,
            fault: None,
            loaded: 0,
        }
    }

    /// The session that holds it.
    pub fn session(&self) -> u32
        ensures { result ≡ self.now.hold.session }
    {
        self.hold.session
    }

    /// How many blocks are left that are read before they are written: those of which it has only a part, unless the buffer has the next one already.
    fn reads_left(&self, size: usize) -> u64
        requires some { 0 < size }
        requires small { size ≤ 8192 }
        ensures value { result ≡ reads_left size self.now }
        ensures few { result ≤ 2 }
    {
        if !self.hold.write {
            return 0;
        }
        let blocks = count_blocks(self.hold.at, self.done, self.bytes.len(), size);
        let from = skip_at(self.hold.at, self.done, size);
        let whole = count_whole(self.bytes.len() - self.done, from, size);
        let parts = blocks.saturating_sub(whole);
        if self.loaded == size {
            return parts.saturating_sub(1);
        }
        parts
    }

    /// How many disk calls are left to write or read it: none, once a fault was met.
    pub fn calls_left(&self, size: usize) -> u64
        requires some { 0 < size }
        requires small { size ≤ 8192 }
        ensures { result ≡ calls_left size self.now }
    {
        if self.fault.is_some() {
            return 0;
        }
        let blocks = count_blocks(self.hold.at, self.done, self.bytes.len(), size);
        blocks + self.reads_left(size)
    }

    /// Whether its next disk call reads a block of which a part is to be written.
    fn reads_next(&self, size: usize) -> bool
        requires some { 0 < size }
        requires small { size ≤ 8192 }
        ensures { result ≡ reads_next size self.now }
    {
        let from = skip_at(self.hold.at, self.done, size);
        let count = count_next(self.bytes.len() - self.done, size, from);
        self.hold.write && count < size && self.loaded != size
    }

    /// Whether a waiting group has the block that is to be written next; none is asked for of a piece that is read.
    pub fn waits<D: Disk>(&self, device: &Device<D>, size: usize) -> bool
        requires some { 0 < size }
        requires small { size ≤ 8192 }
        requires more { self.now.done < length self.now.bytes }
        requires many { length self.now.places ≡ piece_blocks size self.now.hold.at (length self.now.bytes) }
        ensures none { IsFalse result → self.now.hold.write ≡ true → newest_in device.now.books.groups (next_place size self.now) ≡ None }
        ensures some { IsTrue result → (self.now.hold.write ≡ true) × IsSome (newest_in device.now.books.groups (next_place size self.now)) }
    {
        if !self.hold.write {
            return false;
        }
        has_waiting(device, self.places[index_at(self.hold.at, self.done, size)])
    }

    /// The piece as it is let go, with this tag and this time, how it was made, and its bytes.
    pub fn into_parts(self, tag: u32, now: u64) -> (Piece, Result<(), DeviceFault>, Vec<u8>)
        ensures piece { result.0 ≡ record { session = self.hold.session; tag = tag; now = now; id = self.hold.id; at = self.hold.at; length = self.hold.length; write = self.hold.write } }
        ensures made { result.1 ≡ made_of self.fault }
        ensures bytes { result.2.items ≡ self.bytes }
    {
        let OpenPiece {
            hold,
            places: _,
            bytes,
            block: _,
            done: _,
            fault,
            loaded: _,
        } = self;
        let made = match fault {
            Some(fault) => Err(fault),
            None => Ok(()),
        };
        let piece = Piece {
            session: hold.session,
            tag,
            now,
            id: hold.id,
            at: hold.at,
            length: hold.length,
            write: hold.write,
        };
        (piece, made, bytes)
    }
}
