// Reads the entries of the log, and finds the first that is malformed.
ghost use Rattle.std.specs.Prelude.{◌≡◌, ◌≤◌, ◌<◌, ◌+◌, ℕ, List, length, All, OnOk, IfOk, IfErr};
ghost use Rattle.bfs_base.specs.Moments.{Passed};
ghost use Rattle.bfs_bytes.specs.declared.Run.{Run};
ghost use Rattle.bfs_disk.specs.State.{State, ReadsAs, Tells};
ghost use Rattle.bfs_disk.specs.Disk.{MayLeave, HasSectors};
ghost use Rattle.bfs_super.specs.Conditions.{IsValid};
ghost use Rattle.bfs_super.specs.Geometry.{geometry_of};
ghost use Rattle.bfs_super.specs.declared.geometry.Geometry.{Geometry};
ghost use Rattle.bfs_log.specs.Entry.{IsPlace, IsEntry, runs_of, blocks_in, log_first};
ghost use Rattle.bfs_log.specs.Found.{HasRuns};
ghost use Rattle.bfs_log.specs.Replay.{super_of, block_sectors, log_from, log_to};
ghost use Rattle.bfs_log.specs.Ring.{next_place};
ghost use Rattle.bfs_replay.specs.Steps.{AreRead, HasEntries, HasFault, HasRisen, IsFaultAt, place_at, sectors_of};

use crate::calls::read_block;
use bfs_bytes::Run;
use bfs_disk::Disk;
use bfs_log::{EntryFault, Place, Runs, log_entry, ring_next};
use bfs_super::Super;
use thiserror::Error;

/// Why a walk over the log ends early: a disk call failed, or an entry is malformed.
#[derive(Clone, Copy, Debug, PartialEq, Eq, Error)]
pub enum Halt {
    #[error("a disk call failed")]
    Failed,
    #[error("{0}")]
    Malformed(EntryFault),
}

/// Where the log starts and ends.
pub fn log_start(sup: &Super) -> u64
    requires { IsValid sup.now }
    ensures value { result ≡ log_from sup.now }
    ensures inside { result < sup.now.log_blocks.len }
{
    sup.log_start as u64
}

pub fn log_end(sup: &Super) -> u64
    requires { IsValid sup.now }
    ensures value { result ≡ log_to sup.now }
    ensures inside { result < sup.now.log_blocks.len }
{
    sup.log_end as u64
}

// A place in the log.
fn place_of(sup: &Super, at: u64) -> Place
    requires valid { IsValid sup.now }
    requires at { at < sup.now.log_blocks.len }
    ensures value { result ≡ place_at sup.now at }
    ensures place { IsPlace result }
{
    let geometry = sup.geometry();
    Place {
        geometry,
        length: u64::from(geometry.log.len),
        start: at,
        end: log_end(sup),
    }
}

/// Reads the entry at a place.
pub fn read_entry<D: Disk>(
    disk: &mut D,
    sup: &Super,
    at: u64,
    buffer: &mut [u8],
) -> Result<Runs, Halt>
    requires valid { IsValid sup.now }
    requires on_disk { HasSectors (D.size disk.old) (sectors_of sup.now) }
    requires at { at < sup.now.log_blocks.len }
    requires long { length buffer.old ≡ sup.now.block_size }
    ensures entry { IfOk result (λ runs. IsEntry (place_at sup.now at) buffer.new × HasRuns (runs_of buffer.new) runs) }
    ensures read { IfOk result (λ _. AreRead (D.state disk.old) (block_sectors sup.now) (log_first (geometry_of sup.now) + at) buffer.new) }
    ensures fault { IfErr result (IsFaultAt (D.state disk.old) (block_sectors sup.now) (log_first (geometry_of sup.now) + at) (place_at sup.now at) buffer.new) }
    ensures cause { IfErr result (HasRisen (D.faults disk.old) (D.faults disk.new)) }
    ensures stops { D.stops disk.old ≤ D.stops disk.new }
    ensures later { D.faults disk.old ≤ D.faults disk.new }
    ensures state { D.state disk.new ≡ D.state disk.old }
    ensures size { D.size disk.new ≡ D.size disk.old }
    ensures time { Passed (D.clock disk.old) (D.clock disk.new) (D.since disk.old) (D.since disk.new) (MayLeave (D.state disk.old)) }
{
    let block = sup.block_of(sup.log_blocks) + at;
    match read_block(disk, sup, block, buffer) {
        Ok(()) => {}
        Err(_) => return Err(Halt::Failed),
    }
    let place = place_of(sup, at);
    match log_entry(buffer, &place) {
        Ok(runs) => Ok(runs),
        Err(fault) => Err(Halt::Malformed(fault)),
    }
}

/// The place so many blocks further on in the log.
pub fn place_on(sup: &Super, at: u64, by: u64) -> u64
    requires valid { IsValid sup.now }
    requires at { at < sup.now.log_blocks.len }
    requires by { by ≤ sup.now.log_blocks.len }
    ensures value { result ≡ next_place at by sup.now.log_blocks.len }
    ensures inside { result < sup.now.log_blocks.len }
{
    ring_next(at, by, u64::from(sup.log_blocks.len))
}

// How many blocks these runs have.
fn count_blocks(runs: &[Run]) -> u64
    requires { length runs.now ≤ 127 }
    ensures { (g : Geometry) → result ≡ length (blocks_in g runs.now) }
{
    let mut total = 0;
    for run in runs {
        total += u64::from(run.len);
    }
    total
}

/// The place behind the entry at a place that names these runs.
pub fn place_behind(sup: &Super, at: u64, runs: &[Run]) -> u64
    requires valid { IsValid sup.now }
    requires at { at < sup.now.log_blocks.len }
    requires few { length runs.now ≤ 127 }
    requires inside { 1 + length (blocks_in (geometry_of sup.now) runs.now) ≤ sup.now.log_blocks.len }
    ensures value { result ≡ next_place at (1 + length (blocks_in (geometry_of sup.now) runs.now)) sup.now.log_blocks.len }
    ensures inside { result < sup.now.log_blocks.len }
{
    let length = u64::from(sup.log_blocks.len);
    ring_next(at, 1 + count_blocks(runs), length)
}

/// Reads every entry of the log.
pub fn check_log<D: Disk>(disk: &mut D, sup: &Super, buffer: &mut [u8]) -> Result<(), Halt>
    requires valid { IsValid sup.now }
    requires on_disk { HasSectors (D.size disk.old) (sectors_of sup.now) }
    requires long { length buffer.old ≡ sup.now.block_size }
    ensures entries { (image : List ℕ) → super_of image ≡ sup.now → Tells (D.state disk.old) (λ s. ReadsAs s image) → OnOk result (HasEntries image) }
    ensures fault { (image : List ℕ) → super_of image ≡ sup.now → Tells (D.state disk.old) (λ s. ReadsAs s image) → IfErr result (HasFault image) }
    ensures cause { IfErr result (HasRisen (D.faults disk.old) (D.faults disk.new)) }
    ensures stops { D.stops disk.old ≤ D.stops disk.new }
    ensures later { D.faults disk.old ≤ D.faults disk.new }
    ensures state { D.state disk.new ≡ D.state disk.old }
    ensures size { D.size disk.new ≡ D.size disk.old }
    ensures time { Passed (D.clock disk.old) (D.clock disk.new) (D.since disk.old) (D.since disk.new) (MayLeave (D.state disk.old)) }
    ensures long { length buffer.new ≡ sup.now.block_size }
{
    let end = log_end(sup);
    let mut at = log_start(sup);
    while at != end {
        let found = match read_entry(disk, sup, at, buffer) {
            Ok(found) => found,
            Err(halt) => return Err(halt),
        };
        at = place_behind(sup, at, &found.runs[..found.count]);
    }
    Ok(())
}
