// Writes the blocks that the log has home.
ghost use Rattle.std.specs.Prelude.{◌≡◌, ◌≤◌, ◌<◌, ◌+◌, ◌++◌, [], ℕ, List, length, All, OnOk, IfErr, Bool, true, None};
ghost use Rattle.bfs_base.specs.Counts.{HasCause};
ghost use Rattle.bfs_base.specs.Lists.{Has, counted_from};
ghost use Rattle.bfs_base.specs.Moments.{Passed};
ghost use Rattle.bfs_disk.specs.State.{State, Tells};
ghost use Rattle.bfs_disk.specs.Disk.{HasSectors};
ghost use Rattle.bfs_super.specs.Conditions.{natural, IsValid};
ghost use Rattle.bfs_super.specs.Geometry.{geometry_of};
ghost use Rattle.bfs_log.specs.Entry.{HasPlace, blocks_in};
ghost use Rattle.bfs_log.specs.Replay.{Home, AgreeBut, block_sectors, blocks_of, home_places, homes_from, homes_of};
ghost use Rattle.bfs_replay.specs.Homing.{Homing, IsLogOf};
ghost use Rattle.bfs_replay.specs.Steps.{HasEntriesIn, HasRisen, sectors_of};

use crate::calls::write_home;
use crate::log::{Halt, log_end, log_start, place_behind, place_on, read_entry};
use bfs_bytes::Run;
use bfs_disk::{Disk, Failed};
use bfs_super::Super;

// Writes the blocks of a run home. Their bytes stand in the log from a place on.
fn write_run<D: Disk>(
    disk: &mut D,
    sup: &Super,
    at: u64,
    first: u64,
    len: u64,
    buffer: &mut [u8],
) -> Result<(), Failed>
    requires valid { IsValid sup.now }
    requires on_disk { HasSectors (D.size disk.old) (sectors_of sup.now) }
    requires at { at < sup.now.log_blocks.len }
    requires volume { first + len ≤ natural sup.now.num_blocks }
    requires few { len ≤ sup.now.log_blocks.len }
    requires long { length buffer.old ≡ sup.now.block_size }
    ensures long { length buffer.new ≡ sup.now.block_size }
    ensures size { D.size disk.new ≡ D.size disk.old }
    ensures cause { HasCause (D.faults disk.old) (D.faults disk.new) result }
    ensures stops { D.stops disk.old ≤ D.stops disk.new }
    ensures clock { D.clock disk.old ≤ D.clock disk.new }
    ensures silent { D.state disk.old ≡ None → D.state disk.new ≡ None }
    ensures next { (quiet : Bool) (image : List ℕ) (all done : List Home) → IsLogOf image sup.now all → ((k : ℕ) → first ≤ k → k < first + len → Has (home_places all) k) → Tells (D.state disk.old) (Homing quiet (block_sectors sup.now) all done image)
        → OnOk result (Tells (D.state disk.new) (Homing quiet (block_sectors sup.now) all (done ++ homes_from (geometry_of sup.now) (blocks_of image) at (counted_from first len)) image)) }
    ensures time { (image : List ℕ) (all done : List Home) → IsLogOf image sup.now all → ((k : ℕ) → first ≤ k → k < first + len → Has (home_places all) k) → Tells (D.state disk.old) (Homing true (block_sectors sup.now) all done image)
        → Passed (D.clock disk.old) (D.clock disk.new) (D.since disk.old) (D.since disk.new) (AgreeBut (block_sectors sup.now) all image) }
{
    for i in 0..len {
        match write_home(disk, sup, place_on(sup, at, i), first + i, buffer) {
            Ok(()) => {}
            Err(failed) => return Err(failed),
        }
    }
    Ok(())
}

/// Writes the blocks of an entry's runs home. Their bytes stand in the log from a place on.
pub fn write_runs<D: Disk>(
    disk: &mut D,
    sup: &Super,
    at: u64,
    runs: &[Run],
    buffer: &mut [u8],
) -> Result<(), Failed>
    requires valid { IsValid sup.now }
    requires on_disk { HasSectors (D.size disk.old) (sectors_of sup.now) }
    requires at { at < sup.now.log_blocks.len }
    requires places { All (HasPlace (geometry_of sup.now)) runs.now }
    requires few { length (blocks_in (geometry_of sup.now) runs.now) ≤ sup.now.log_blocks.len }
    requires long { length buffer.old ≡ sup.now.block_size }
    ensures long { length buffer.new ≡ sup.now.block_size }
    ensures size { D.size disk.new ≡ D.size disk.old }
    ensures cause { HasCause (D.faults disk.old) (D.faults disk.new) result }
    ensures stops { D.stops disk.old ≤ D.stops disk.new }
    ensures clock { D.clock disk.old ≤ D.clock disk.new }
    ensures silent { D.state disk.old ≡ None → D.state disk.new ≡ None }
    ensures next { (quiet : Bool) (image : List ℕ) (all done : List Home) → IsLogOf image sup.now all → ((k : ℕ) → Has (blocks_in (geometry_of sup.now) runs.now) k → Has (home_places all) k) → Tells (D.state disk.old) (Homing quiet (block_sectors sup.now) all done image)
        → OnOk result (Tells (D.state disk.new) (Homing quiet (block_sectors sup.now) all (done ++ homes_from (geometry_of sup.now) (blocks_of image) at (blocks_in (geometry_of sup.now) runs.now)) image)) }
    ensures time { (image : List ℕ) (all done : List Home) → IsLogOf image sup.now all → ((k : ℕ) → Has (blocks_in (geometry_of sup.now) runs.now) k → Has (home_places all) k) → Tells (D.state disk.old) (Homing true (block_sectors sup.now) all done image)
        → Passed (D.clock disk.old) (D.clock disk.new) (D.since disk.old) (D.since disk.new) (AgreeBut (block_sectors sup.now) all image) }
{
    let mut place = at;
    for run in runs {
        let len = u64::from(run.len);
        match write_run(disk, sup, place, sup.block_of(*run), len, buffer) {
            Ok(()) => {}
            Err(failed) => return Err(failed),
        }
        place = place_on(sup, place, len);
    }
    Ok(())
}

/// Writes the blocks of all entries of the log home, in order.
pub fn write_homes<D: Disk>(
    disk: &mut D,
    sup: &Super,
    array: &mut [u8],
    buffer: &mut [u8],
) -> Result<(), Halt>
    requires valid { IsValid sup.now }
    requires on_disk { HasSectors (D.size disk.old) (sectors_of sup.now) }
    requires array { length array.old ≡ sup.now.block_size }
    requires long { length buffer.old ≡ sup.now.block_size }
    ensures size { D.size disk.new ≡ D.size disk.old }
    ensures later { D.faults disk.old ≤ D.faults disk.new }
    ensures cause { IfErr result (HasRisen (D.faults disk.old) (D.faults disk.new)) }
    ensures stops { D.stops disk.old ≤ D.stops disk.new }
    ensures clock { D.clock disk.old ≤ D.clock disk.new }
    ensures silent { D.state disk.old ≡ None → D.state disk.new ≡ None }
    ensures next { (quiet : Bool) (image : List ℕ) (log : HasEntriesIn image sup.now) → IsLogOf image sup.now (homes_of log.0) → Tells (D.state disk.old) (Homing quiet (block_sectors sup.now) (homes_of log.0) [] image)
        → OnOk result (Tells (D.state disk.new) (Homing quiet (block_sectors sup.now) (homes_of log.0) (homes_of log.0) image)) }
    ensures time { (image : List ℕ) (log : HasEntriesIn image sup.now) → IsLogOf image sup.now (homes_of log.0) → Tells (D.state disk.old) (Homing true (block_sectors sup.now) (homes_of log.0) [] image)
        → Passed (D.clock disk.old) (D.clock disk.new) (D.since disk.old) (D.since disk.new) (AgreeBut (block_sectors sup.now) (homes_of log.0) image) }
    // No entry is malformed that was read before.
    ensures good { (quiet : Bool) (image : List ℕ) (log : HasEntriesIn image sup.now) → IsLogOf image sup.now (homes_of log.0) → Tells (D.state disk.old) (Homing quiet (block_sectors sup.now) (homes_of log.0) [] image)
        → IfErr result (λ halt. halt ≡ Halt.Failed) }
{
    let end = log_end(sup);
    let mut at = log_start(sup);
    while at != end {
        let found = match read_entry(disk, sup, at, array) {
            Ok(found) => found,
            Err(halt) => return Err(halt),
        };
        let runs = &found.runs[..found.count];
        match write_runs(disk, sup, place_on(sup, at, 1), runs, buffer) {
            Ok(()) => {}
            Err(_) => return Err(Halt::Failed),
        }
        at = place_behind(sup, at, runs);
    }
    Ok(())
}
