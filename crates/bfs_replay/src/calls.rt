// The disk calls of a recovery: a block is read, a block of the log is written home, the superblock is written.
ghost use Rattle.std.specs.Prelude.{◌≡◌, ◌⊎◌, ◌≤◌, ◌<◌, ◌+◌, ◌*◌, ◌/◌, ◌++◌, [], ◌∷◌, ℕ, List, length, OnOk, OnErr, IfOk, IfSome, Bool, true, None};
ghost use Rattle.bfs_base.specs.Counts.{HasCause};
ghost use Rattle.bfs_base.specs.Images.{overwritten};
ghost use Rattle.bfs_base.specs.Lists.{Has};
ghost use Rattle.bfs_base.specs.Moments.{Elapses, Passed};
ghost use Rattle.bfs_disk.specs.State.{State, Tells, Holds};
ghost use Rattle.bfs_disk.specs.Disk.{MayLeave, HasSectors, told_written};
ghost use Rattle.bfs_super.specs.declared.sup.Super.{Super};
ghost use Rattle.bfs_super.specs.Conditions.{natural, IsValid};
ghost use Rattle.bfs_super.specs.Geometry.{geometry_of};
ghost use Rattle.bfs_super.specs.Layout.{super_at, sector_of};
ghost use Rattle.bfs_log.specs.Entry.{log_first};
ghost use Rattle.bfs_log.specs.Replay.{Home, AgreeBut, block_sectors, blocks_of, emptied, home_places, with_homes};
ghost use Rattle.bfs_replay.specs.Homing.{Homing, ClosedOrNot, IsLogOf};
ghost use Rattle.bfs_replay.specs.Steps.{AreRead, sectors_of};

use bfs_disk::{Disk, Failed};
use bfs_super::Super;

// Reads a block of the volume.
pub fn read_block<D: Disk>(
    disk: &mut D,
    sup: &Super,
    place: u64,
    into: &mut [u8],
) -> Result<(), Failed>
    requires valid { IsValid sup.now }
    requires on_disk { HasSectors (D.size disk.old) (sectors_of sup.now) }
    requires place { place < natural sup.now.num_blocks }
    requires long { length into.old ≡ sup.now.block_size }
    ensures bytes { OnOk result (AreRead (D.state disk.old) (block_sectors sup.now) place into.new) }
    ensures state { D.state disk.new ≡ D.state disk.old }
    ensures size { D.size disk.new ≡ D.size disk.old }
    ensures time { Elapses (D.state disk.old) result (D.clock disk.old) (D.clock disk.new) (D.since disk.old) (D.since disk.new) (MayLeave (D.state disk.old)) }
    ensures cause { HasCause (D.faults disk.old) (D.faults disk.new) result }
    ensures stops { D.stops disk.old ≤ D.stops disk.new }
{
    let sectors = u64::from(sup.block_size / 512);
    disk.read(sectors * place, into)
}

// Writes a block of the log home.
pub fn write_home<D: Disk>(
    disk: &mut D,
    sup: &Super,
    at: u64,
    home: u64,
    buffer: &mut [u8],
) -> Result<(), Failed>
    requires valid { IsValid sup.now }
    requires on_disk { HasSectors (D.size disk.old) (sectors_of sup.now) }
    requires at { at < sup.now.log_blocks.len }
    requires home { home < natural sup.now.num_blocks }
    requires long { length buffer.old ≡ sup.now.block_size }
    ensures size { D.size disk.new ≡ D.size disk.old }
    ensures cause { HasCause (D.faults disk.old) (D.faults disk.new) result }
    ensures stops { D.stops disk.old ≤ D.stops disk.new }
    ensures clock { D.clock disk.old ≤ D.clock disk.new }
    ensures silent { D.state disk.old ≡ None → D.state disk.new ≡ None }
    ensures next { (quiet : Bool) (image : List ℕ) (all done : List Home) → IsLogOf image sup.now all → Has (home_places all) home → Tells (D.state disk.old) (Homing quiet (block_sectors sup.now) all done image)
        → OnOk result (Tells (D.state disk.new) (Homing quiet (block_sectors sup.now) all (done ++ record { place = home; bytes = blocks_of image (log_first (geometry_of sup.now) + at) } ∷ []) image)) }
    ensures time { (image : List ℕ) (all done : List Home) → IsLogOf image sup.now all → Has (home_places all) home → Tells (D.state disk.old) (Homing true (block_sectors sup.now) all done image)
        → Passed (D.clock disk.old) (D.clock disk.new) (D.since disk.old) (D.since disk.new) (AgreeBut (block_sectors sup.now) all image) }
{
    let place = sup.block_of(sup.log_blocks) + at;
    match read_block(disk, sup, place, buffer) {
        Ok(()) => {}
        Err(failed) => return Err(failed),
    }
    let sectors = u64::from(sup.block_size / 512);
    disk.write(sectors * home, buffer)
}

// The superblock of a volume whose log was replayed.
fn without_log(sup: &Super) -> Super
    ensures { result ≡ emptied sup.now }
{
    let mut emptied = *sup;
    emptied.log_start = sup.log_end;
    emptied.flags = 0x434c454e;
    emptied
}

// Writes the superblock's sector.
fn write_super<D: Disk>(disk: &mut D, sector: &[u8; 512]) -> Result<(), Failed>
    requires { HasSectors (D.size disk.old) 2 }
    ensures size { D.size disk.new ≡ D.size disk.old }
    ensures written { OnOk result (D.state disk.new ≡ told_written (D.state disk.old) 1 sector.now) }
    ensures time { Elapses (D.state disk.old) result (D.clock disk.old) (D.clock disk.new) (D.since disk.old) (D.since disk.new) (MayLeave (told_written (D.state disk.old) 1 sector.now)) }
    ensures cause { HasCause (D.faults disk.old) (D.faults disk.new) result }
    ensures stops { D.stops disk.old ≤ D.stops disk.new }
    ensures silent { D.state disk.old ≡ None → D.state disk.new ≡ None }
{
    disk.write(1, sector)
}

// Makes what was written home last, and then empties the log: its start moves to its end.
pub fn empty_log<D: Disk>(disk: &mut D, sup: &Super) -> Result<Super, Failed>
    requires { HasSectors (D.size disk.old) 2 }
    ensures size { D.size disk.new ≡ D.size disk.old }
    ensures cause { HasCause (D.faults disk.old) (D.faults disk.new) result }
    ensures stops { D.stops disk.old ≤ D.stops disk.new }
    ensures clock { D.clock disk.old ≤ D.clock disk.new }
    ensures silent { D.state disk.old ≡ None → D.state disk.new ≡ None }
    ensures superblock { IfOk result (λ s. (s ≡ emptied sup.now) × (super_at (sector_of s) ≡ s)) }
    ensures done { (quiet : Bool) (r : ℕ) (image : List ℕ) (all : List Home) → Tells (D.state disk.old) (Homing quiet r all all image)
        → OnOk result (Tells (D.state disk.new) (Holds (overwritten 1 (sector_of (emptied sup.now)) (with_homes r all image)))) }
    ensures time { (r : ℕ) (image : List ℕ) (all : List Home) → Tells (D.state disk.old) (Homing true r all all image)
        → Passed (D.clock disk.old) (D.clock disk.new) (D.since disk.old) (D.since disk.new) (ClosedOrNot r all image (emptied sup.now)) }
{
    let emptied = without_log(sup);
    let sector = emptied.print();
    disk.barrier()?;
    write_super(disk, &sector)?;
    disk.barrier()?;
    Ok(emptied)
}
