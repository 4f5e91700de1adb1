// A bit for each block, set where the block is reserved: in a run that was given back and isn't free yet.
ghost use Rattle.std.specs.Prelude.{◌≡◌, ◌≤◌, ◌<◌, ◌+◌, ◌*◌, ◌&&◌, ◌||◌, ◌==◌, ℕ, length, not, filter, IfOk, OnOk, replicate};
ghost use Rattle.std.specs.Int.{bit_at};
ghost use Rattle.bfs_bitmap.specs.Bits.{is_clear};
ghost use Rattle.bfs_bitmap.specs.Runs.{AreKeptFirst, is_reserved};
ghost use Rattle.bfs_bitmap.specs.Reserved.{HasReserved};
ghost use Rattle.bfs_bitmap.specs.Givens.{is_left};

use crate::Given;
use crate::bits::{clear_run, mark_run};
use crate::given::{are_settled, drop_left, drop_unsettled};
use std::alloc::{AllocError, Global};

/// The byte with the bits set that are set in one of two.
fn either(a: u8, b: u8) -> u8
    ensures { (j : ℕ) → j < 8 → (bit_at result j == 0) ≡ ((bit_at a j == 0) && (bit_at b j == 0)) }
{
    a | b
}

/// Sets the bits that are set in other bytes, from one of these on.
pub fn cover(bytes: &mut [u8], over: &[u8], at: usize)
    ensures { (i : ℕ) → i < 8 * length bytes.old → is_clear bytes.new i ≡ (is_clear bytes.old i && is_clear over.now (8 * at + i)) }
{
    let end = bytes.len().min(over.len().saturating_sub(at));
    for i in 0..end {
        let byte = bytes[i];
        let other = over[at + i];
        bytes[i] = either(byte, other);
    }
}

/// Sets the bits of runs.
fn mark_all(bytes: &mut [u8], given: &[Given])
    requires { length bytes.old ≤ 524289 }
    ensures { (k : ℕ) → k < 8 * length bytes.old → is_clear bytes.new k ≡ (is_clear bytes.old k && not (is_reserved given.now k)) }
{
    for i in 0..given.len() {
        let run = given[i];
        mark_run(bytes, 0, run.first, run.len);
    }
}

/// Clears the bits of runs.
fn clear_all(bytes: &mut [u8], given: &[Given])
    requires { length bytes.old ≤ 524289 }
    ensures { (k : ℕ) → k < 8 * length bytes.old → is_clear bytes.new k ≡ (is_clear bytes.old k || is_reserved given.now k) }
{
    for i in 0..given.len() {
        let run = given[i];
        clear_run(bytes, run.first, run.len);
    }
}

/// Takes out the runs whose call was not kept, and lets the bits be those of the others.
pub fn forget_unsettled(given: &mut Vec<Given>, bytes: &mut [u8])
    requires few { length bytes.old ≤ 524289 }
    requires kept { AreKeptFirst given.old.items }
    ensures given { given.new.items ≡ filter (λ g. g.kept) given.old.items }
    ensures bits { (blocks : ℕ) → HasReserved blocks given.old.items bytes.old → HasReserved blocks given.new.items bytes.new }
{
    if are_settled(given) {
        return;
    }
    clear_all(bytes, given);
    drop_unsettled(given);
    mark_all(bytes, given);
}

/// Takes out the runs whose group has left the log, and lets the bits be those of the others.
pub fn forget_left(given: &mut Vec<Given>, bytes: &mut [u8], group: u64)
    requires { length bytes.old ≤ 524289 }
    ensures given { given.new.items ≡ filter (λ g. not (is_left group g)) given.old.items }
    ensures bits { (blocks : ℕ) → HasReserved blocks given.old.items bytes.old → HasReserved blocks given.new.items bytes.new }
{
    clear_all(bytes, given);
    drop_left(given, group);
    mark_all(bytes, given);
}

/// So many bytes of 0.
fn zeros(alloc: Global, size: usize) -> Result<Vec<u8>, AllocError>
    ensures { IfOk result (λ v. v.items ≡ replicate size 0) }
{
    let bytes = vec![in alloc; 0u8; size]?;
    Ok(bytes)
}

/// Gets a bit for each block of the volume, all clear, where there are none yet.
pub fn get_bits(bytes: &mut Vec<u8>, alloc: Global, blocks: u64) -> Result<(), AllocError>
    requires blocks { blocks ≤ 4194304 }
    requires few { length bytes.old.items ≤ 524289 }
    requires long { 0 < length bytes.old.items → blocks ≤ 8 * length bytes.old.items }
    ensures same { (k : ℕ) → is_clear bytes.new.items k ≡ is_clear bytes.old.items k }
    ensures few { length bytes.new.items ≤ 524289 }
    ensures long { 0 < length bytes.new.items → blocks ≤ 8 * length bytes.new.items }
    ensures all { OnOk result (blocks ≤ 8 * length bytes.new.items) }
{
    if bytes.len() > 0 {
        return Ok(());
    }
    match zeros(alloc, (blocks / 8 + 1) as usize) {
        Ok(new) => {
            *bytes = new;
            Ok(())
        }
        Err(fault) => Err(fault),
    }
}
