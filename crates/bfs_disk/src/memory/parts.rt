// The parts of a disk in memory, over its bytes, its record and its counters.
ghost use Rattle.std.specs.Prelude.{◌≡◌, ◌≤◌, ◌*◌, ◌/◌, ◌+◌, ◌-◌, ◌^◌, ◌⊎◌, min, ◌∷◌, ◌++◌, length, take, drop, OnOk, OnErr, IsTrue, true, false, Contains, ◌↔◌};
ghost use Rattle.bfs_base.specs.Counts.{HasCause, Rose};
ghost use Rattle.bfs_base.specs.Images.{overwritten};
ghost use Rattle.bfs_disk.specs.Memory.{part, are_bytes};
ghost use Rattle.bfs_disk.specs.declared.memory.Call.TheVariants.{Write, Barrier};

use crate::Failed;
use crate::memory::Call;
use std::alloc::{AllocError, Global};
use std::collections::VecDeque;

/// Counts a call. Is it one that is to fail?
pub fn is_planned(plan: &[u64], made: &mut u64) -> bool
    ensures count { made.new ≡ min (made.old + 1) (2 ^ 64 - 1) }
    ensures planned { IsTrue result ↔ Contains plan.now made.new }
{
    *made = made.saturating_add(1);
    plan.contains(made)
}

/// Sees that each number is below 256.
pub fn see(bytes: &[u8])
    ensures { are_bytes bytes.now ≡ true }
{
    for at in 0..bytes.len() {
        let _seen = bytes[at];
    }
}

/// Fails a call, which changed no content.
pub fn refuse(idle: &mut u64, faults: &mut u64) -> Failed
    ensures idle { (idle.new ≡ idle.old) ⊎ (idle.new ≡ idle.old + 1) }
    ensures later { faults.old ≤ faults.new }
    ensures rose { Rose faults.old faults.new }
{
    *idle = idle.saturating_add(1);
    *faults = faults.saturating_add(1);
    Failed
}

/// Counts a call that changes nothing. It fails where it is to fail, or where the counter stands at its last value.
pub fn count(idle: &mut u64, planned: bool, faults: &mut u64) -> Result<(), Failed>
    ensures ok { OnOk result (idle.new ≡ idle.old + 1) }
    ensures plan { OnOk result (planned ≡ false) }
    ensures err { OnErr result ((idle.new ≡ idle.old) ⊎ (idle.new ≡ idle.old + 1)) }
    ensures why { OnErr result ((planned ≡ true) ⊎ (idle.old ≡ 2 ^ 64 - 1)) }
    ensures cause { HasCause faults.old faults.new result }
{
    if planned {
        return Err(refuse(idle, faults));
    }
    if *idle == u64::MAX {
        return Err(refuse(idle, faults));
    }
    *idle += 1;
    Ok(())
}

/// Records a barrier.
pub fn settle(calls: &mut VecDeque<Call>, idle: &mut u64) -> Result<(), AllocError>
    ensures calls { OnOk result (calls.new.items ≡ Barrier idle.old ∷ calls.old.items) }
    ensures idle { OnOk result (idle.new ≡ 0) }
    ensures calls_kept { OnErr result (calls.new.items ≡ calls.old.items) }
    ensures idle_kept { OnErr result (idle.new ≡ idle.old) }
{
    calls.push_front(Call::Barrier { idle: *idle })?;
    *idle = 0;
    Ok(())
}

/// Writes the sectors, and keeps what they held.
pub fn overwrite(
    alloc: Global,
    bytes: &mut Vec<u8>,
    calls: &mut VecDeque<Call>,
    idle: &mut u64,
    at: u64,
    from: &[u8],
) -> Result<(), AllocError>
    requires { 512 * at + length from.now ≤ length bytes.old.items }
    ensures bytes { OnOk result (bytes.new.items ≡ overwritten at from.now bytes.old.items) }
    ensures calls { OnOk result ((old : _) × (old.items ≡ part at (length from.now) bytes.old.items) × (calls.new.items ≡ Write at old idle.old ∷ calls.old.items)) }
    ensures idle { OnOk result (idle.new ≡ 0) }
    ensures bytes_kept { OnErr result (bytes.new.items ≡ bytes.old.items) }
    ensures calls_kept { OnErr result (calls.new.items ≡ calls.old.items) }
    ensures idle_kept { OnErr result (idle.new ≡ idle.old) }
{
    let start = 512 * at as usize;
    let replaced = bytes[start..start + from.len()].to_vec(alloc)?;
    calls.push_front(Call::Write {
        at,
        replaced,
        idle: *idle,
    })?;
    bytes[start..start + from.len()].copy_from_slice(from);
    *idle = 0;
    Ok(())
}
