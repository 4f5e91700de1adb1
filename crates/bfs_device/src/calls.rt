// The disk calls of a device. Each contract names the call, and says what it makes of the disk.
ghost use Rattle.std.specs.Prelude.{◌≡◌, ◌≤◌, ◌<◌, ◌+◌, ◌-◌, ◌*◌, ◌/◌, ◌^◌, ℕ, List, length, take, drop, map, min, OnOk, OnErr, Option, Some};
ghost use Rattle.std.specs.Option.{option_map};
ghost use Rattle.bfs_base.specs.Counts.{HasCause};
ghost use Rattle.bfs_base.specs.Moments.{Elapses};
ghost use Rattle.bfs_base.specs.Images.{IsBytes};
ghost use Rattle.bfs_disk.specs.Disk.{MayLeave, told_written, HalfWritten};
ghost use Rattle.bfs_super.specs.Conditions.{natural, IsValid};
ghost use Rattle.bfs_super.specs.Geometry.{geometry_of};
ghost use Rattle.bfs_super.specs.Layout.{super_at, sector_of};
ghost use Rattle.bfs_log.specs.Entry.{entry_bytes, log_first, IsPlace};
ghost use Rattle.bfs_log.specs.Replay.{log_from};
ghost use Rattle.bfs_txn.specs.Changed.{bytes_at, number_at};
ghost use Rattle.bfs_device.specs.Layouts.{IsGood, IsData, layout_of, slot, ring_count, named_in, log_block, behind, opened_of, closed_of};
ghost use Rattle.bfs_device.specs.Calls.{Call, Write, Barrier, told_after, IsFailed, LeftDuring, HasTwo};
ghost use Rattle.bfs_device.specs.Books.{IsOnDisk, IsSealed, IsPhaseOf};
ghost use Rattle.bfs_device.specs.Steps.{call_of, ReadsBack, PrintsBack};
ghost use Rattle.bfs_device.specs.Kept.{written_in};

use crate::journal::Phase;
use bfs_disk::{Disk, Failed};
use bfs_log::{Place, log_print, ring_next};
use bfs_super::Super;
use bfs_txn::{Changed, Group};

// How many blocks of the log a group takes.
pub fn log_blocks(blocks: &Changed) -> usize
    requires { length blocks.now < 65536 }
    ensures { result ≡ ring_count blocks.now }
{
    blocks.len() + (blocks.len() + 125) / 126
}

// The place behind a group in the log.
fn place_behind(sup: &Super, group: &Group) -> u64
    requires valid { IsValid sup.now }
    requires sealed { IsSealed (layout_of sup.now) sup.now.block_size group.now }
    ensures value { result ≡ behind sup.now group.now.blocks }
    ensures inside { result < sup.now.log_blocks.len }
{
    let length = u64::from(sup.log_blocks.len);
    let start = sup.log_start as u64;
    ring_next(start, log_blocks(&group.blocks) as u64, length)
}

/// The superblock that opens the gate.
pub fn opened(sup: &Super, group: &Group) -> Super
    requires valid { IsValid sup.now }
    requires sealed { IsSealed (layout_of sup.now) sup.now.block_size group.now }
    ensures { result ≡ opened_of sup.now group.now }
{
    let mut opened = *sup;
    opened.log_end = place_behind(sup, group) as i64;
    opened.flags = 0x44495254;
    opened.used_blocks = group.used as i64;
    opened
}

/// The superblock once a group has left the log.
pub fn closed(sup: &Super, group: &Group) -> Super
    requires valid { IsValid sup.now }
    requires sealed { IsSealed (layout_of sup.now) sup.now.block_size group.now }
    ensures { result ≡ closed_of sup.now group.now }
{
    let mut closed = *sup;
    let place = place_behind(sup, group) as i64;
    closed.log_start = place;
    closed.log_end = place;
    closed.flags = 0x434c454e;
    closed.used_blocks = group.used as i64;
    closed
}

// The numbers of some changed blocks.
fn numbers(blocks: &Changed, first: usize, count: usize) -> [u64; 126]
    requires few { count ≤ 126 }
    requires fits { length blocks.now < 65536 }
    requires inside { first + count ≤ length blocks.now }
    ensures { take count result ≡ map (λ p. p.0) (take count (drop first blocks.now)) }
{
    let mut numbers = [0u64; 126];
    for i in 0..count {
        numbers[i] = blocks.block(first + i);
    }
    numbers
}

// How many blocks one entry names, of so many that are left.
fn named_count(rest: usize) -> usize
    ensures { result ≡ min 126 rest }
{
    if rest < 126 { rest } else { 126 }
}

// Makes the array block of an entry.
fn make_array(sup: &Super, blocks: &Changed, entry: usize, buffer: &mut [u8])
    requires valid { IsValid sup.now }
    requires buffer { length buffer.old ≡ sup.now.block_size }
    requires some { 126 * entry < length blocks.now }
    requires few { length blocks.now < 65536 }
    requires volume { (i : ℕ) → i < length blocks.now → number_at blocks.now i < natural sup.now.num_blocks }
    ensures { buffer.new ≡ entry_bytes (geometry_of sup.now) (named_in blocks.now entry) sup.now.block_size }
{
    let first = 126 * entry;
    let count = named_count(blocks.len() - first);
    let named = numbers(blocks, first, count);
    let geometry = sup.geometry();
    let place = Place {
        geometry,
        length: u64::from(geometry.log.len),
        start: 0,
        end: 0,
    };
    log_print(buffer, &named[..count], &place);
}

// Writes a block.
pub fn write_block<D: Disk>(
    disk: &mut D,
    sup: &Super,
    place: u64,
    bytes: &[u8],
) -> Result<(), Failed>
    requires valid { IsValid sup.now }
    requires on_disk { IsOnDisk (D.size disk.old) sup.now }
    requires place { place < (layout_of sup.now).blocks }
    requires long { length bytes.now ≡ sup.now.block_size }
    ensures size { D.size disk.new ≡ D.size disk.old }
    ensures written { OnOk result (D.state disk.new ≡ told_written (D.state disk.old) ((layout_of sup.now).sectors * place) bytes.now) }
    ensures half { OnErr result (HalfWritten (D.state disk.old) ((layout_of sup.now).sectors * place) bytes.now (D.state disk.new)) }
    ensures time { Elapses (D.state disk.old) result (D.clock disk.old) (D.clock disk.new) (D.since disk.old) (D.since disk.new) (MayLeave (told_written (D.state disk.old) ((layout_of sup.now).sectors * place) bytes.now)) }
    ensures cause { HasCause (D.faults disk.old) (D.faults disk.new) result }
    ensures stops { HasCause (D.stops disk.old) (D.stops disk.new) result }
{
    let sectors = u64::from(sup.block_size / 512);
    disk.write(sectors * place, bytes)
}

// Writes the superblock.
fn write_super<D: Disk>(disk: &mut D, sup: &Super) -> Result<(), Failed>
    requires { HasTwo (D.size disk.old) }
    ensures size { D.size disk.new ≡ D.size disk.old }
    ensures written { OnOk result (D.state disk.new ≡ told_written (D.state disk.old) 1 (sector_of sup.now)) }
    ensures half { OnErr result (HalfWritten (D.state disk.old) 1 (sector_of sup.now) (D.state disk.new)) }
    ensures time { Elapses (D.state disk.old) result (D.clock disk.old) (D.clock disk.new) (D.since disk.old) (D.since disk.new) (MayLeave (told_written (D.state disk.old) 1 (sector_of sup.now))) }
    ensures cause { HasCause (D.faults disk.old) (D.faults disk.new) result }
    ensures stops { HasCause (D.stops disk.old) (D.stops disk.new) result }
    ensures read { ReadsBack sup.now }
{
    let sector = sup.print();
    disk.write(1, &sector)
}

// The block of the log that is so far behind its end.
fn log_place(sup: &Super, at: usize) -> u64
    requires valid { IsValid sup.now }
    requires inside { at < sup.now.log_blocks.len }
    ensures value { result ≡ slot (layout_of sup.now) (log_from sup.now) at }
    ensures volume { result < (layout_of sup.now).blocks }
{
    let start = sup.log_start as u64;
    sup.block_of(sup.log_blocks) + ring_next(start, at as u64, u64::from(sup.log_blocks.len))
}

// Writes a block of the group into the log.
fn write_log<D: Disk>(
    disk: &mut D,
    sup: &Super,
    group: &Group,
    at: usize,
    buffer: &mut [u8],
) -> Result<(), Failed>
    requires valid { IsValid sup.now }
    requires sealed { IsSealed (layout_of sup.now) sup.now.block_size group.now }
    requires at { at < ring_count group.now.blocks }
    requires on_disk { IsOnDisk (D.size disk.old) sup.now }
    requires buffer { length buffer.old ≡ sup.now.block_size }
    ensures size { D.size disk.new ≡ D.size disk.old }
    ensures written { OnOk result (D.state disk.new ≡ told_written (D.state disk.old) ((layout_of sup.now).sectors * slot (layout_of sup.now) (log_from sup.now) at) (log_block sup.now group.now.blocks at)) }
    ensures half { OnErr result (HalfWritten (D.state disk.old) ((layout_of sup.now).sectors * slot (layout_of sup.now) (log_from sup.now) at) (log_block sup.now group.now.blocks at) (D.state disk.new)) }
    ensures time { Elapses (D.state disk.old) result (D.clock disk.old) (D.clock disk.new) (D.since disk.old) (D.since disk.new) (MayLeave (told_written (D.state disk.old) ((layout_of sup.now).sectors * slot (layout_of sup.now) (log_from sup.now) at) (log_block sup.now group.now.blocks at))) }
    ensures cause { HasCause (D.faults disk.old) (D.faults disk.new) result }
    ensures stops { HasCause (D.stops disk.old) (D.stops disk.new) result }
{
    let place = log_place(sup, at);
    let entry = at / 127;
    let inside = at % 127;
    if inside == 0 {
        make_array(sup, &group.blocks, entry, buffer);
        write_block(disk, sup, place, buffer)
    } else {
        write_block(
            disk,
            sup,
            place,
            group.blocks.bytes(126 * entry + (inside - 1)),
        )
    }
}

//// The block that the disk call of a phase writes.
pub fn written_block(sup: &Super, group: &Group, phase: Phase) -> Option<u64>
    requires valid { IsValid sup.now }
    requires sealed { IsSealed (layout_of sup.now) sup.now.block_size group.now }
    requires phase { IsPhaseOf group.now.blocks phase }
    ensures { result ≡ written_in sup.now group.now phase }
{
    match phase {
        Phase::Log(at) => Some(log_place(sup, at)),
        Phase::Home(at) => Some(group.blocks.block(at)),
        Phase::Open | Phase::Tail => Some(0),
        Phase::LogSafe | Phase::OpenSafe | Phase::HomeSafe | Phase::TailSafe | Phase::Pass => None,
    }
}

/// Makes the disk call of a phase.
pub fn perform<D: Disk>(
    disk: &mut D,
    sup: &Super,
    group: &Group,
    phase: Phase,
    buffer: &mut [u8],
) -> Result<(), Failed>
    requires valid { IsValid sup.now }
    requires sealed { IsSealed (layout_of sup.now) sup.now.block_size group.now }
    requires phase { IsPhaseOf group.now.blocks phase }
    requires on_disk { IsOnDisk (D.size disk.old) sup.now }
    requires buffer { length buffer.old ≡ sup.now.block_size }
    ensures size { D.size disk.new ≡ D.size disk.old }
    ensures done { OnOk result (D.state disk.new ≡ told_after (call_of sup.now group.now phase) (D.state disk.old)) }
    ensures failed { OnErr result (IsFailed (call_of sup.now group.now phase) (D.state disk.old) (D.state disk.new)) }
    ensures time { Elapses (D.state disk.old) result (D.clock disk.old) (D.clock disk.new) (D.since disk.old) (D.since disk.new) (LeftDuring (call_of sup.now group.now phase) (D.state disk.old)) }
    ensures cause { HasCause (D.faults disk.old) (D.faults disk.new) result }
    ensures stops { HasCause (D.stops disk.old) (D.stops disk.new) result }
    ensures read { PrintsBack sup.now group.now phase }
{
    match phase {
        Phase::Log(at) => write_log(disk, sup, group, at, buffer),
        Phase::LogSafe => disk.barrier(),
        Phase::Open => write_super(disk, &opened(sup, group)),
        Phase::OpenSafe => disk.barrier(),
        Phase::Home(at) => {
            let place = group.blocks.block(at);
            write_block(disk, sup, place, group.blocks.bytes(at))
        }
        Phase::HomeSafe => disk.barrier(),
        Phase::Tail => write_super(disk, &closed(sup, group)),
        Phase::TailSafe => disk.barrier(),
        Phase::Pass => disk.barrier(),
    }
}
