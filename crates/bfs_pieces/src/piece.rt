// Reads and writes of a piece, block by block.
ghost use Rattle.std.specs.Prelude.{◌≡◌, ◌⊎◌, ◌∷◌, [], ◌≤◌, ◌<◌, ◌+◌, ◌*◌, ℕ, length, Some, None, min, OnOk, IfErr, IsOk, IsSome};
ghost use Rattle.std.specs.List.{All};
ghost use Rattle.bfs_disk.specs.State.{State};
ghost use Rattle.bfs_disk.specs.Blocks.{AreRead, contents_of};
ghost use Rattle.bfs_tree.specs.Histories.{Mounted, state_after};
ghost use Rattle.bfs_device.specs.Layouts.{IsData, layout_of};
ghost use Rattle.bfs_device.specs.Data.{newest_in, IsRested};
ghost use Rattle.bfs_core.specs.Spaces.{SpaceView};
ghost use Rattle.bfs_core.specs.Cores.{newest_map};
ghost use Rattle.bfs_core.specs.Moments.{Adoption};
ghost use Rattle.bfs_device_blocks.specs.Lent.{HasCore, IsBehindEntry};
ghost use Rattle.bfs_pieces.specs.Parts.{KeepsOthers};
ghost use Rattle.bfs_pieces.specs.Pieces.{HasHalted, HasPieceCause, IsHeldPiece, IsPieceOf, IsUnknown, TellsStop};

use crate::block::{read_part, write_in, write_part};
use bfs_device::{Device, DeviceFault};
use bfs_disk::Disk;

// The lesser of two lengths.
fn least(left: usize, room: usize) -> usize
    ensures { result ≡ min left room }
{
    if left < room { left } else { room }
}

/// Reads a piece from its blocks, which are those at `places`: it begins so many bytes behind the start of the first. Each block takes
/// one disk call. `block` is a buffer of a block's length. A piece of no byte is read without a call, by a device that has stopped too.
/// A read that fails leaves the device usable; what it left in the slices has no meaning. Takes no memory.
pub fn read_piece<D: Disk>(
    device: &mut Device<D>,
    places: &[u64],
    skip: usize,
    into: &mut [u8],
    block: &mut [u8],
) -> Result<(), DeviceFault>
    requires below { All (λ k. k < (layout_of device.old.books.sup).blocks) places.now }
    requires buffer { length block.old ≡ device.old.books.sup.block_size }
    requires skip { skip < device.old.books.sup.block_size }
    requires covers { skip + length into.old ≤ device.old.books.sup.block_size * length places.now }
    ensures bytes { (st : State) → D.state device.old.disk ≡ Some st → OnOk result (IsPieceOf (contents_of st (layout_of device.old.books.sup).sectors) device.old.books.sup.block_size places.now skip into.new) }
    ensures length { length into.new ≡ length into.old }
    ensures buffer_length { length block.new ≡ length block.old }
    ensures none { length into.old ≡ 0 → IsOk result × (device.new ≡ device.old) }
    ensures rests { IsRested device.old.books device.new.books }
    ensures state { D.state device.new.disk ≡ D.state device.old.disk }
    ensures size { D.size device.new.disk ≡ D.size device.old.disk }
    ensures core { (t0 : Mounted) (adopted : Adoption) (sp : SpaceView) → HasCore t0 adopted sp device.old.books (D.state device.old.disk) (D.clock device.old.disk) (D.since device.old.disk)
        → HasCore t0 adopted sp device.new.books (D.state device.new.disk) (D.clock device.new.disk) (D.since device.new.disk) }
    ensures cause { IfErr result (HasPieceCause device.old.books.stop (D.faults device.old.disk) (D.faults device.new.disk)) }
    // A failed read stops no device.
    ensures stopped { IfErr result (TellsStop device.new.books.stop) }
    ensures faults { D.faults device.old.disk ≤ D.faults device.new.disk }
    ensures disk_clock { D.clock device.old.disk ≤ D.clock device.new.disk }
    ensures stops { D.stops device.new.disk ≡ D.stops device.old.disk }
{
    let size = block.len();
    let mut index = 0;
    let mut from = skip;
    let mut done = 0;
    while done < into.len() {
        let count = least(into.len() - done, size - from);
        match read_part(
            device,
            places[index],
            from,
            &mut into[done..done + count],
            block,
        ) {
            Ok(()) => {}
            Err(fault) => return Err(fault),
        }
        index += 1;
        from = 0;
        done += count;
    }
    Ok(())
}

/// Writes the bytes of a piece that are in one of its blocks, which no waiting group has, in one disk call. Where they are less than the block, `block` has
/// what the disk has there: it was read before. A write that fails stops the device, and some of the bytes may be on the disk. Core and each known byte of
/// files stay, whether it succeeds or fails, where an entry stands in front of it. Takes no memory.
pub fn write_block<D: Disk>(
    device: &mut Device<D>,
    place: u64,
    skip: usize,
    from: &[u8],
    block: &mut [u8],
) -> Result<(), DeviceFault>
    requires data { IsData (layout_of device.old.books.sup) place }
    requires apart { newest_in device.old.books.groups place ≡ None }
    requires buffer { length block.old ≡ device.old.books.sup.block_size }
    requires inside { skip + length from.now ≤ device.old.books.sup.block_size }
    requires some { 0 < length from.now }
    ensures written { (t0 : Mounted) (adopted : Adoption) (sp : SpaceView) (id at : ℕ) → HasCore t0 adopted sp device.old.books (D.state device.old.disk) (D.clock device.old.disk) (D.since device.old.disk)
        → IsBehindEntry adopted sp → ((st : State) → D.state device.old.disk ≡ Some st → IsHeldPiece t0 sp (newest_map device.old.books st) id at (length from.now) skip (place ∷ []))
        → IsUnknown (state_after t0 sp.history).known id at (length from.now)
        → (length from.now ≡ device.old.books.sup.block_size) ⊎ AreRead (D.state device.old.disk) (layout_of device.old.books.sup).sectors place block.old
        → HasCore t0 adopted sp device.new.books (D.state device.new.disk) (D.clock device.new.disk) (D.since device.new.disk)
        × ((next : State) → D.state device.new.disk ≡ Some next → IsHeldPiece t0 sp (newest_map device.new.books next) id at (length from.now) skip (place ∷ [])
        × OnOk result (IsPieceOf (contents_of next (layout_of device.old.books.sup).sectors) device.old.books.sup.block_size (place ∷ []) skip from.now)) }
    ensures others { KeepsOthers (layout_of device.old.books.sup).sectors (place ∷ []) (D.state device.old.disk) (D.state device.new.disk) }
    ensures buffer_length { length block.new ≡ length block.old }
    ensures one { IsSome (D.state device.old.disk) → OnOk result (D.clock device.new.disk ≡ D.clock device.old.disk + 1) }
    ensures rest { device.new.books ≡ record device.old.books { moment = device.new.books.moment; stop = device.new.books.stop } }
    ensures stop { OnOk result (device.new.books.stop ≡ device.old.books.stop) }
    ensures size { D.size device.new.disk ≡ D.size device.old.disk }
    ensures cause { IfErr result (HasPieceCause device.old.books.stop (D.faults device.old.disk) (D.faults device.new.disk)) }
    // A failed write stops the device, and a failed read before it doesn't.
    ensures stopped { IfErr result (TellsStop device.new.books.stop) }
    ensures faults { D.faults device.old.disk ≤ D.faults device.new.disk }
    ensures disk_clock { D.clock device.old.disk ≤ D.clock device.new.disk }
    ensures stops { D.stops device.old.disk ≤ D.stops device.new.disk }
    ensures halted { IfErr result (HasHalted device.new.books.stop (D.stops device.old.disk) (D.stops device.new.disk)) }
{
    write_in(device, place, skip, from, block)
}

/// Writes a piece into its blocks, which are those at `places`: it begins so many bytes behind the start of the first. A block that the
/// piece has whole takes one disk call; the first and the last, where it has some of their bytes alone, are read before. `block` is a
/// buffer of a block's length. A piece of no byte is written without a call, by a device that has stopped too. A write that fails stops
/// the device, and some of the piece may be on the disk. Core and each known byte of files stay, whether it succeeds or fails, where an
/// entry stands in front of it. Takes no memory.
pub fn write_piece<D: Disk>(
    device: &mut Device<D>,
    places: &[u64],
    skip: usize,
    from: &[u8],
    block: &mut [u8],
) -> Result<(), DeviceFault>
    requires data { All (IsData (layout_of device.old.books.sup)) places.now }
    requires apart { All (λ k. newest_in device.old.books.groups k ≡ None) places.now }
    requires buffer { length block.old ≡ device.old.books.sup.block_size }
    requires skip { skip < device.old.books.sup.block_size }
    requires covers { skip + length from.now ≤ device.old.books.sup.block_size * length places.now }
    ensures written { (t0 : Mounted) (adopted : Adoption) (sp : SpaceView) (id at : ℕ) → HasCore t0 adopted sp device.old.books (D.state device.old.disk) (D.clock device.old.disk) (D.since device.old.disk)
        → IsBehindEntry adopted sp → ((st : State) → D.state device.old.disk ≡ Some st → IsHeldPiece t0 sp (newest_map device.old.books st) id at (length from.now) skip places.now)
        → IsUnknown (state_after t0 sp.history).known id at (length from.now)
        → HasCore t0 adopted sp device.new.books (D.state device.new.disk) (D.clock device.new.disk) (D.since device.new.disk)
        × ((next : State) → D.state device.new.disk ≡ Some next → IsHeldPiece t0 sp (newest_map device.new.books next) id at (length from.now) skip places.now
        × OnOk result (IsPieceOf (contents_of next (layout_of device.old.books.sup).sectors) device.old.books.sup.block_size places.now skip from.now)) }
    ensures others { KeepsOthers (layout_of device.old.books.sup).sectors places.now (D.state device.old.disk) (D.state device.new.disk) }
    ensures buffer_length { length block.new ≡ length block.old }
    ensures none { length from.now ≡ 0 → IsOk result × (device.new ≡ device.old) }
    ensures rest { device.new.books ≡ record device.old.books { moment = device.new.books.moment; stop = device.new.books.stop } }
    ensures stop { OnOk result (device.new.books.stop ≡ device.old.books.stop) }
    ensures size { D.size device.new.disk ≡ D.size device.old.disk }
    ensures cause { IfErr result (HasPieceCause device.old.books.stop (D.faults device.old.disk) (D.faults device.new.disk)) }
    // A failed write stops the device, and a failed read before it doesn't.
    ensures stopped { IfErr result (TellsStop device.new.books.stop) }
    ensures faults { D.faults device.old.disk ≤ D.faults device.new.disk }
    ensures disk_clock { D.clock device.old.disk ≤ D.clock device.new.disk }
    ensures stops { D.stops device.old.disk ≤ D.stops device.new.disk }
    ensures halted { IfErr result (HasHalted device.new.books.stop (D.stops device.old.disk) (D.stops device.new.disk)) }
{
    let size = block.len();
    let mut index = 0;
    let mut skipped = skip;
    let mut done = 0;
    while done < from.len() {
        let count = least(from.len() - done, size - skipped);
        match write_part(
            device,
            places[index],
            skipped,
            &from[done..done + count],
            block,
        ) {
            Ok(()) => {}
            Err(fault) => return Err(fault),
        }
        index += 1;
        skipped = 0;
        done += count;
    }
    Ok(())
}
