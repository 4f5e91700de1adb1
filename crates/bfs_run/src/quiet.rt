// A disk is made quiet: what was written to it before stays.
ghost use Rattle.std.specs.Prelude.{◌≡◌, ◌≤◌, ℕ, List, OnOk, OnErr};
ghost use Rattle.bfs_base.specs.Counts.{Rose};
ghost use Rattle.bfs_disk.specs.State.{Tells, Holds};
ghost use Rattle.bfs_volume.specs.Mounts.{IsHeld};

use bfs_disk::{Disk, Failed};

/// Makes a disk quiet by a barrier, in two disk calls. What it reads as stays.
pub fn make_quiet<D: Disk>(disk: &mut D) -> Result<(), Failed>
    ensures held { OnOk result (IsHeld (D.state disk.new)) }
    ensures same { (image : List ℕ) → Tells (D.state disk.old) (Holds image) → OnOk result (Tells (D.state disk.new) (Holds image)) }
    // A crash meanwhile leaves what a quiet disk holds.
    ensures moments { (image : List ℕ) → Tells (D.state disk.old) (Holds image) → (c : List ℕ) → D.since disk.new (D.clock disk.old) c → c ≡ image }
    ensures clock { D.clock disk.old ≤ D.clock disk.new }
    ensures kept { OnErr result (D.state disk.new ≡ D.state disk.old) }
    ensures cause { OnErr result (Rose (D.faults disk.old) (D.faults disk.new)) }
    ensures later { D.faults disk.old ≤ D.faults disk.new }
    ensures stops { D.stops disk.old ≤ D.stops disk.new }
{
    match disk.sectors() {
        Ok(_) => {}
        Err(fault) => return Err(fault),
    }
    match disk.barrier() {
        Ok(()) => Ok(()),
        Err(fault) => Err(fault),
    }
}
