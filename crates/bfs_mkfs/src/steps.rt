// The disk calls of a format, in three steps: the superblock's sector is cleared, the two areas are filled, the
// superblock is written. Each step ends with a barrier.
ghost use Rattle.std.specs.Prelude.{◌≡◌, ◌⊎◌, ◌≤◌, ◌<◌, ◌+◌, ◌*◌, ◌/◌, ℕ, List, length, OnOk, OnErr};
ghost use Rattle.bfs_base.specs.Counts.{HasCause};
ghost use Rattle.bfs_base.specs.Moments.{Passed};
ghost use Rattle.bfs_disk.specs.State.{State, Tells, Holds, IsQuiet};
ghost use Rattle.bfs_disk.specs.Disk.{MayLeave, HasSectors};
ghost use Rattle.bfs_mkfs.specs.Written.{Meets, IsBlank, Area, AreBehind, end_of, area, Cleared, Filled, Opened, IsWritten};

use bfs_disk::{Disk, Failed};

/// Clears the superblock's sector.
pub fn clear<D: Disk>(disk: &mut D) -> Result<(), Failed>
    requires { HasSectors (D.size disk.old) 2 }
    ensures size { D.size disk.new ≡ D.size disk.old }
    ensures clock { D.clock disk.old ≤ D.clock disk.new }
    ensures cause { HasCause (D.faults disk.old) (D.faults disk.new) result }
    ensures next { (image : List ℕ) → Tells (D.state disk.old) (Holds image) → OnOk result (Tells (D.state disk.new) (Meets Cleared Cleared)) }
    ensures time { (image : List ℕ) → Tells (D.state disk.old) (Holds image)
        → Passed (D.clock disk.old) (D.clock disk.new) (D.since disk.old) (D.since disk.new) (λ c. (c ≡ image) ⊎ IsBlank c) }
{
    disk.write(1, &[0; 512])?;
    disk.barrier()
}

/// Writes the two areas, which are whole sectors behind the superblock's.
pub fn fill<D: Disk>(
    disk: &mut D,
    at: u64,
    first: &[u8],
    behind: u64,
    second: &[u8],
) -> Result<(), Failed>
    requires whole { length first.now ≡ 512 * (length first.now / 512) }
    requires whole_second { length second.now ≡ 512 * (length second.now / 512) }
    requires low { 2 ≤ at }
    requires order { at + length first.now / 512 ≤ behind }
    requires range { HasSectors (D.size disk.old) (behind + length second.now / 512) }
    ensures size { D.size disk.new ≡ D.size disk.old }
    ensures clock { D.clock disk.old ≤ D.clock disk.new }
    ensures cause { HasCause (D.faults disk.old) (D.faults disk.new) result }
    ensures next { Tells (D.state disk.old) (Meets Cleared Cleared) → OnOk result (Tells (D.state disk.new) (Meets (Filled (area at first.now) (area behind second.now)) (Filled (area at first.now) (area behind second.now)))) }
    ensures time { Tells (D.state disk.old) (Meets Cleared Cleared) → Passed (D.clock disk.old) (D.clock disk.new) (D.since disk.old) (D.since disk.new) IsBlank }
{
    disk.write(at, first)?;
    disk.write(behind, second)?;
    disk.barrier()
}

/// Writes the superblock's sector.
pub fn open<D: Disk>(disk: &mut D, block: &[u8; 512]) -> Result<(), Failed>
    requires { HasSectors (D.size disk.old) 2 }
    ensures size { D.size disk.new ≡ D.size disk.old }
    ensures clock { D.clock disk.old ≤ D.clock disk.new }
    ensures cause { HasCause (D.faults disk.old) (D.faults disk.new) result }
    ensures next { (a b : Area) → AreBehind a b → HasSectors (D.size disk.old) (end_of b) → Tells (D.state disk.old) (Meets (Filled a b) (Filled a b))
        → OnOk result (Tells (D.state disk.new) (λ s. IsQuiet s × Meets (Opened block.now a b) (Opened block.now a b) s)) }
    ensures time { (a b : Area) (n : ℕ) → AreBehind a b → end_of b ≤ n → HasSectors (D.size disk.old) n → Tells (D.state disk.old) (Meets (Filled a b) (Filled a b))
        → Passed (D.clock disk.old) (D.clock disk.new) (D.since disk.old) (D.since disk.new) (λ c. IsBlank c ⊎ IsWritten block.now a b n c) }
{
    disk.write(1, block)?;
    disk.barrier()
}

/// All three steps.
pub fn write_volume<D: Disk>(
    disk: &mut D,
    block: &[u8; 512],
    at: u64,
    first: &[u8],
    behind: u64,
    second: &[u8],
) -> Result<(), Failed>
    requires whole { length first.now ≡ 512 * (length first.now / 512) }
    requires whole_second { length second.now ≡ 512 * (length second.now / 512) }
    requires low { 2 ≤ at }
    requires order { at + length first.now / 512 ≤ behind }
    requires range { HasSectors (D.size disk.old) (behind + length second.now / 512) }
    ensures size { D.size disk.new ≡ D.size disk.old }
    ensures clock { D.clock disk.old ≤ D.clock disk.new }
    ensures cause { HasCause (D.faults disk.old) (D.faults disk.new) result }
    ensures done { (image : List ℕ) → Tells (D.state disk.old) (Holds image)
        → OnOk result (Tells (D.state disk.new) (λ s. IsQuiet s × Meets (Opened block.now (area at first.now) (area behind second.now)) (Opened block.now (area at first.now) (area behind second.now)) s)) }
    ensures time { (n : ℕ) (image : List ℕ) → behind + length second.now / 512 ≤ n → HasSectors (D.size disk.old) n → Tells (D.state disk.old) (Holds image)
        → Passed (D.clock disk.old) (D.clock disk.new) (D.since disk.old) (D.since disk.new) (λ c. (c ≡ image) ⊎ (IsBlank c ⊎ IsWritten block.now (area at first.now) (area behind second.now) n c)) }
{
    clear(disk)?;
    fill(disk, at, first, behind, second)?;
    open(disk, block)
}
