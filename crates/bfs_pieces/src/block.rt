// Reads and writes of a part of one block.
ghost use Rattle.std.specs.Prelude.{◌≡◌, ◌⊎◌, ◌≤◌, ◌<◌, ◌+◌, ℕ, List, length, Option, Some, None, OnOk, IfErr, IfSome, IsSome};
ghost use Rattle.bfs_disk.specs.State.{State};
ghost use Rattle.bfs_disk.specs.Blocks.{AreRead, contents_of};
ghost use Rattle.bfs_tree.specs.Histories.{Mounted};
ghost use Rattle.bfs_device.specs.Layouts.{IsData, layout_of};
ghost use Rattle.bfs_device.specs.Data.{newest_in, IsRested};
ghost use Rattle.bfs_core.specs.Spaces.{SpaceView, IsFaceData};
ghost use Rattle.bfs_core.specs.Cores.{newest_map};
ghost use Rattle.bfs_core.specs.KnownBytes.{HasKnownIn};
ghost use Rattle.bfs_core.specs.Moments.{Adoption};
ghost use Rattle.bfs_device_blocks.specs.Lent.{HasCore, IsBehindEntry};
ghost use Rattle.bfs_pieces.specs.Pieces.{HasPieceCause, TellsStop, HasHalted};
ghost use Rattle.bfs_pieces.specs.Parts.{IsPartOf, MayWrite, TellsBut, ReadsBut};

use bfs_device::{Device, DeviceFault};
use bfs_disk::Disk;

/// Reads a block as the disk has it, in one disk call.
pub fn read_block<D: Disk>(
    device: &mut Device<D>,
    place: u64,
    into: &mut [u8],
) -> Result<(), DeviceFault>
    requires below { place < (layout_of device.old.books.sup).blocks }
    requires long { length into.old ≡ device.old.books.sup.block_size }
    ensures bytes { OnOk result (AreRead (D.state device.old.disk) (layout_of device.old.books.sup).sectors place into.new) }
    ensures rests { IsRested device.old.books device.new.books }
    ensures state { D.state device.new.disk ≡ D.state device.old.disk }
    ensures size { D.size device.new.disk ≡ D.size device.old.disk }
    ensures core { (t0 : Mounted) (adopted : Adoption) (sp : SpaceView) → HasCore t0 adopted sp device.old.books (D.state device.old.disk) (D.clock device.old.disk) (D.since device.old.disk)
        → HasCore t0 adopted sp device.new.books (D.state device.new.disk) (D.clock device.new.disk) (D.since device.new.disk) }
    ensures cause { IfErr result (HasPieceCause device.old.books.stop (D.faults device.old.disk) (D.faults device.new.disk)) }
    ensures stopped { IfErr result (TellsStop device.new.books.stop) }
    ensures faults { D.faults device.old.disk ≤ D.faults device.new.disk }
    ensures disk_clock { D.clock device.old.disk ≤ D.clock device.new.disk }
    ensures stops { D.stops device.new.disk ≡ D.stops device.old.disk }
    ensures one { IsSome (D.state device.old.disk) → OnOk result (D.clock device.new.disk ≡ D.clock device.old.disk + 1) }
{
    let result = device.data_read(place, into);
    device.steady();
    let _durable = device.durable();
    result
}

// Reads a part of a block that is less than the block, by a buffer.
fn read_some<D: Disk>(
    device: &mut Device<D>,
    place: u64,
    skip: usize,
    into: &mut [u8],
    block: &mut [u8],
) -> Result<(), DeviceFault>
    requires below { place < (layout_of device.old.books.sup).blocks }
    requires buffer { length block.old ≡ device.old.books.sup.block_size }
    requires inside { skip + length into.old ≤ device.old.books.sup.block_size }
    ensures bytes { (st : State) → D.state device.old.disk ≡ Some st → OnOk result (IsPartOf (contents_of st (layout_of device.old.books.sup).sectors place) skip into.new) }
    ensures rests { IsRested device.old.books device.new.books }
    ensures state { D.state device.new.disk ≡ D.state device.old.disk }
    ensures size { D.size device.new.disk ≡ D.size device.old.disk }
    ensures core { (t0 : Mounted) (adopted : Adoption) (sp : SpaceView) → HasCore t0 adopted sp device.old.books (D.state device.old.disk) (D.clock device.old.disk) (D.since device.old.disk)
        → HasCore t0 adopted sp device.new.books (D.state device.new.disk) (D.clock device.new.disk) (D.since device.new.disk) }
    ensures cause { IfErr result (HasPieceCause device.old.books.stop (D.faults device.old.disk) (D.faults device.new.disk)) }
    ensures stopped { IfErr result (TellsStop device.new.books.stop) }
    ensures faults { D.faults device.old.disk ≤ D.faults device.new.disk }
    ensures disk_clock { D.clock device.old.disk ≤ D.clock device.new.disk }
    ensures stops { D.stops device.new.disk ≡ D.stops device.old.disk }
    ensures one { IsSome (D.state device.old.disk) → OnOk result (D.clock device.new.disk ≡ D.clock device.old.disk + 1) }
{
    match read_block(device, place, block) {
        Ok(()) => {
            into.copy_from_slice(&block[skip..skip + into.len()]);
            Ok(())
        }
        Err(fault) => Err(fault),
    }
}

/// Reads a part of a block, in one disk call. What is the whole block needs no buffer.
pub fn read_part<D: Disk>(
    device: &mut Device<D>,
    place: u64,
    skip: usize,
    into: &mut [u8],
    block: &mut [u8],
) -> Result<(), DeviceFault>
    requires below { place < (layout_of device.old.books.sup).blocks }
    requires buffer { length block.old ≡ device.old.books.sup.block_size }
    requires inside { skip + length into.old ≤ device.old.books.sup.block_size }
    ensures bytes { (st : State) → D.state device.old.disk ≡ Some st → OnOk result (IsPartOf (contents_of st (layout_of device.old.books.sup).sectors place) skip into.new) }
    ensures rests { IsRested device.old.books device.new.books }
    ensures state { D.state device.new.disk ≡ D.state device.old.disk }
    ensures size { D.size device.new.disk ≡ D.size device.old.disk }
    ensures core { (t0 : Mounted) (adopted : Adoption) (sp : SpaceView) → HasCore t0 adopted sp device.old.books (D.state device.old.disk) (D.clock device.old.disk) (D.since device.old.disk)
        → HasCore t0 adopted sp device.new.books (D.state device.new.disk) (D.clock device.new.disk) (D.since device.new.disk) }
    ensures cause { IfErr result (HasPieceCause device.old.books.stop (D.faults device.old.disk) (D.faults device.new.disk)) }
    ensures stopped { IfErr result (TellsStop device.new.books.stop) }
    ensures faults { D.faults device.old.disk ≤ D.faults device.new.disk }
    ensures disk_clock { D.clock device.old.disk ≤ D.clock device.new.disk }
    ensures stops { D.stops device.new.disk ≡ D.stops device.old.disk }
    ensures one { IsSome (D.state device.old.disk) → OnOk result (D.clock device.new.disk ≡ D.clock device.old.disk + 1) }
{
    if into.len() == block.len() {
        return read_block(device, place, into);
    }
    read_some(device, place, skip, into, block)
}

// Writes a whole block that no waiting group has.
fn write_whole<D: Disk>(device: &mut Device<D>, place: u64, from: &[u8]) -> Result<(), DeviceFault>
    requires data { IsData (layout_of device.old.books.sup) place }
    requires apart { newest_in device.old.books.groups place ≡ None }
    requires long { length from.now ≡ device.old.books.sup.block_size }
    ensures bytes { OnOk result (AreRead (D.state device.new.disk) (layout_of device.old.books.sup).sectors place from.now) }
    ensures others { ReadsBut (layout_of device.old.books.sup).sectors place (D.state device.old.disk) (D.state device.new.disk) }
    ensures silent { D.state device.old.disk ≡ None → D.state device.new.disk ≡ None }
    ensures core { (t0 : Mounted) (adopted : Adoption) (sp : SpaceView) → HasCore t0 adopted sp device.old.books (D.state device.old.disk) (D.clock device.old.disk) (D.since device.old.disk)
        → IsBehindEntry adopted sp → ((st : State) → D.state device.old.disk ≡ Some st → IsFaceData t0 sp (newest_map device.old.books st) place × HasKnownIn t0 sp (newest_map device.old.books st) place from.now)
        → HasCore t0 adopted sp device.new.books (D.state device.new.disk) (D.clock device.new.disk) (D.since device.new.disk)
        × TellsBut place device.old.books device.new.books (D.state device.old.disk) (D.state device.new.disk) }
    ensures rest { device.new.books ≡ record device.old.books { moment = device.new.books.moment; stop = device.new.books.stop } }
    ensures stop { OnOk result (device.new.books.stop ≡ device.old.books.stop) }
    ensures size { D.size device.new.disk ≡ D.size device.old.disk }
    ensures cause { IfErr result (HasPieceCause device.old.books.stop (D.faults device.old.disk) (D.faults device.new.disk)) }
    ensures stopped { IfErr result (TellsStop device.new.books.stop) }
    ensures faults { D.faults device.old.disk ≤ D.faults device.new.disk }
    ensures disk_clock { D.clock device.old.disk ≤ D.clock device.new.disk }
    ensures stops { D.stops device.old.disk ≤ D.stops device.new.disk }
    ensures halted { IfErr result (HasHalted device.new.books.stop (D.stops device.old.disk) (D.stops device.new.disk)) }
    ensures one { IsSome (D.state device.old.disk) → OnOk result (D.clock device.new.disk ≡ D.clock device.old.disk + 1) }
{
    device.steady();
    let result = device.data_write(place, from);
    let _durable = device.durable();
    result
}

/// Writes a part of a block that no waiting group has, in one disk call. Where it is less than the block, `block` has what the disk has there: the block
/// was read before, and is written with the part in its place.
pub fn write_in<D: Disk>(
    device: &mut Device<D>,
    place: u64,
    skip: usize,
    from: &[u8],
    block: &mut [u8],
) -> Result<(), DeviceFault>
    requires data { IsData (layout_of device.old.books.sup) place }
    requires apart { newest_in device.old.books.groups place ≡ None }
    requires buffer { length block.old ≡ device.old.books.sup.block_size }
    requires inside { skip + length from.now ≤ device.old.books.sup.block_size }
    ensures bytes { (st : State) → D.state device.new.disk ≡ Some st → OnOk result (IsPartOf (contents_of st (layout_of device.old.books.sup).sectors place) skip from.now) }
    ensures others { ReadsBut (layout_of device.old.books.sup).sectors place (D.state device.old.disk) (D.state device.new.disk) }
    ensures silent { D.state device.old.disk ≡ None → D.state device.new.disk ≡ None }
    ensures core { (t0 : Mounted) (adopted : Adoption) (sp : SpaceView) → HasCore t0 adopted sp device.old.books (D.state device.old.disk) (D.clock device.old.disk) (D.since device.old.disk)
        → IsBehindEntry adopted sp → MayWrite t0 sp device.old.books (D.state device.old.disk) place skip (length from.now)
        → (length from.now ≡ device.old.books.sup.block_size) ⊎ AreRead (D.state device.old.disk) (layout_of device.old.books.sup).sectors place block.old
        → HasCore t0 adopted sp device.new.books (D.state device.new.disk) (D.clock device.new.disk) (D.since device.new.disk)
        × TellsBut place device.old.books device.new.books (D.state device.old.disk) (D.state device.new.disk) }
    ensures rest { device.new.books ≡ record device.old.books { moment = device.new.books.moment; stop = device.new.books.stop } }
    ensures stop { OnOk result (device.new.books.stop ≡ device.old.books.stop) }
    ensures size { D.size device.new.disk ≡ D.size device.old.disk }
    ensures cause { IfErr result (HasPieceCause device.old.books.stop (D.faults device.old.disk) (D.faults device.new.disk)) }
    ensures stopped { IfErr result (TellsStop device.new.books.stop) }
    ensures faults { D.faults device.old.disk ≤ D.faults device.new.disk }
    ensures disk_clock { D.clock device.old.disk ≤ D.clock device.new.disk }
    ensures stops { D.stops device.old.disk ≤ D.stops device.new.disk }
    ensures halted { IfErr result (HasHalted device.new.books.stop (D.stops device.old.disk) (D.stops device.new.disk)) }
    ensures buffer_length { length block.new ≡ length block.old }
    ensures one { IsSome (D.state device.old.disk) → OnOk result (D.clock device.new.disk ≡ D.clock device.old.disk + 1) }
{
    if from.len() == block.len() {
        return write_whole(device, place, from);
    }
    block[skip..skip + from.len()].copy_from_slice(from);
    write_whole(device, place, block)
}

// Writes a part of a block that is less than the block: the block is read, and written with the part in its place.
fn write_some<D: Disk>(
    device: &mut Device<D>,
    place: u64,
    skip: usize,
    from: &[u8],
    block: &mut [u8],
) -> Result<(), DeviceFault>
    requires data { IsData (layout_of device.old.books.sup) place }
    requires apart { newest_in device.old.books.groups place ≡ None }
    requires buffer { length block.old ≡ device.old.books.sup.block_size }
    requires inside { skip + length from.now ≤ device.old.books.sup.block_size }
    ensures bytes { (st : State) → D.state device.new.disk ≡ Some st → OnOk result (IsPartOf (contents_of st (layout_of device.old.books.sup).sectors place) skip from.now) }
    ensures others { ReadsBut (layout_of device.old.books.sup).sectors place (D.state device.old.disk) (D.state device.new.disk) }
    ensures silent { D.state device.old.disk ≡ None → D.state device.new.disk ≡ None }
    ensures core { (t0 : Mounted) (adopted : Adoption) (sp : SpaceView) → HasCore t0 adopted sp device.old.books (D.state device.old.disk) (D.clock device.old.disk) (D.since device.old.disk)
        → IsBehindEntry adopted sp → MayWrite t0 sp device.old.books (D.state device.old.disk) place skip (length from.now)
        → HasCore t0 adopted sp device.new.books (D.state device.new.disk) (D.clock device.new.disk) (D.since device.new.disk)
        × TellsBut place device.old.books device.new.books (D.state device.old.disk) (D.state device.new.disk) }
    ensures rest { device.new.books ≡ record device.old.books { moment = device.new.books.moment; stop = device.new.books.stop } }
    ensures stop { OnOk result (device.new.books.stop ≡ device.old.books.stop) }
    ensures size { D.size device.new.disk ≡ D.size device.old.disk }
    ensures cause { IfErr result (HasPieceCause device.old.books.stop (D.faults device.old.disk) (D.faults device.new.disk)) }
    ensures stopped { IfErr result (TellsStop device.new.books.stop) }
    ensures faults { D.faults device.old.disk ≤ D.faults device.new.disk }
    ensures disk_clock { D.clock device.old.disk ≤ D.clock device.new.disk }
    ensures stops { D.stops device.old.disk ≤ D.stops device.new.disk }
    ensures halted { IfErr result (HasHalted device.new.books.stop (D.stops device.old.disk) (D.stops device.new.disk)) }
{
    match read_block(device, place, block) {
        Ok(()) => write_in(device, place, skip, from, block),
        Err(fault) => Err(fault),
    }
}

/// Writes a part of a block that no waiting group has. What is the whole block is written in one disk call; else the block is read
/// first, and its other bytes stay.
pub fn write_part<D: Disk>(
    device: &mut Device<D>,
    place: u64,
    skip: usize,
    from: &[u8],
    block: &mut [u8],
) -> Result<(), DeviceFault>
    requires data { IsData (layout_of device.old.books.sup) place }
    requires apart { newest_in device.old.books.groups place ≡ None }
    requires buffer { length block.old ≡ device.old.books.sup.block_size }
    requires inside { skip + length from.now ≤ device.old.books.sup.block_size }
    ensures bytes { (st : State) → D.state device.new.disk ≡ Some st → OnOk result (IsPartOf (contents_of st (layout_of device.old.books.sup).sectors place) skip from.now) }
    ensures others { ReadsBut (layout_of device.old.books.sup).sectors place (D.state device.old.disk) (D.state device.new.disk) }
    ensures silent { D.state device.old.disk ≡ None → D.state device.new.disk ≡ None }
    ensures core { (t0 : Mounted) (adopted : Adoption) (sp : SpaceView) → HasCore t0 adopted sp device.old.books (D.state device.old.disk) (D.clock device.old.disk) (D.since device.old.disk)
        → IsBehindEntry adopted sp → MayWrite t0 sp device.old.books (D.state device.old.disk) place skip (length from.now)
        → HasCore t0 adopted sp device.new.books (D.state device.new.disk) (D.clock device.new.disk) (D.since device.new.disk)
        × TellsBut place device.old.books device.new.books (D.state device.old.disk) (D.state device.new.disk) }
    ensures rest { device.new.books ≡ record device.old.books { moment = device.new.books.moment; stop = device.new.books.stop } }
    ensures stop { OnOk result (device.new.books.stop ≡ device.old.books.stop) }
    ensures size { D.size device.new.disk ≡ D.size device.old.disk }
    ensures cause { IfErr result (HasPieceCause device.old.books.stop (D.faults device.old.disk) (D.faults device.new.disk)) }
    ensures stopped { IfErr result (TellsStop device.new.books.stop) }
    ensures faults { D.faults device.old.disk ≤ D.faults device.new.disk }
    ensures disk_clock { D.clock device.old.disk ≤ D.clock device.new.disk }
    ensures stops { D.stops device.old.disk ≤ D.stops device.new.disk }
    ensures halted { IfErr result (HasHalted device.new.books.stop (D.stops device.old.disk) (D.stops device.new.disk)) }
{
    if from.len() == block.len() {
        return write_whole(device, place, from);
    }
    write_some(device, place, skip, from, block)
}
