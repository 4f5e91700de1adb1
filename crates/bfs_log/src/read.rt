// Reads an entry's array block.
ghost use Rattle.std.specs.Prelude.{◌≡◌, ◌⊎◌, ◌<◌, ◌≤◌, ◌≤ℤ◌, ◌<ℤ◌, ◌↔◌, ◌+◌, ◌-◌, ◌*◌, ◌^◌, ℕ, pos, length, take, drop, replicate, All, IsTrue, OnOk, IfOk, IfErr};
ghost use Rattle.bfs_bytes.specs.declared.Run.{Run};
ghost use Rattle.bfs_super.specs.Conditions.{natural};
ghost use Rattle.bfs_log.specs.Entry.{IsPlace, IsOfSuper, IsEntry, IsFault, IsFirstBad, HasCount, HasPlace, first_of, log_first, count_in, max_in, runs_of, runs_from, blocks_in};
ghost use Rattle.bfs_log.specs.Found.{HasRuns};

use crate::ring::ring_used;
use crate::{EntryFault, Place, Runs};
use bfs_bytes::{Run, i32_at, run_at};
use bfs_super::Geometry;

// A number that isn't negative, or 0.
pub fn natural_of(value: i32) -> u64
    ensures value { result ≡ natural value }
    ensures bound { result < 2 ^ 31 }
{
    if value < 0 { 0 } else { value as u64 }
}

// The first block of a group of 2 to this power blocks.
#[tactic(auto, using(crate::proofs::Bounds::scaled))]
fn shifted(group: u64, shift: u32) -> u64
    requires group { group < 2 ^ 31 }
    requires shift { shift ≤ 16 }
    ensures value { result ≡ group * 2 ^ shift }
    ensures bound { result < 2 ^ 47 }
{
    group << shift
}

// The first block of a run.
pub fn first_block(geometry: Geometry, run: Run) -> u64
    requires { geometry.shift ≤ 16 }
    ensures value { result ≡ first_of geometry run }
    ensures bound { result < 2 ^ 48 }
{
    shifted(natural_of(run.group), geometry.shift) + u64::from(run.start)
}

// Has a part of the volume no block of the log?
fn is_apart(first: u64, len: u64, log: u64, log_len: u64) -> bool
    requires first { first + len < 2 ^ 62 }
    requires log { log + log_len < 2 ^ 62 }
    ensures { IsTrue result ↔ ((first + len ≤ log) ⊎ (log + log_len ≤ first)) }
{
    first + len <= log || log + log_len <= first
}

// May an entry name this run?
fn has_place(geometry: Geometry, run: Run) -> bool
    requires { IsOfSuper geometry }
    ensures { IsTrue result ↔ HasPlace geometry run }
{
    if run.group < 0 || i64::from(geometry.groups) <= i64::from(run.group) {
        return false;
    }
    let len = u64::from(run.len);
    if len == 0 || 1 << geometry.shift < u64::from(run.start) + len {
        return false;
    }
    let first = first_block(geometry, run);
    if first == 0 || geometry.blocks < first + len {
        return false;
    }
    let log = first_block(geometry, geometry.log);
    is_apart(first, len, log, u64::from(geometry.log.len))
}

// How many blocks the runs have, or the first that an entry may not name.
fn named_blocks(geometry: Geometry, runs: &[Run]) -> Result<u64, EntryFault>
    requires geometry { IsOfSuper geometry }
    requires few { length runs.now ≤ 127 }
    ensures ok { IfOk result (λ n. All (HasPlace geometry) runs.now × (n ≡ length (blocks_in geometry runs.now)) × (n < 2 ^ 24)) }
    ensures err { IfErr result (λ fault. (run : Run) × (fault ≡ EntryFault.RunPlace run) × IsFirstBad geometry runs.now run) }
{
    let mut total = 0;
    for run in runs {
        if !has_place(geometry, *run) {
            return Err(EntryFault::RunPlace { run: *run });
        }
        total += u64::from(run.len);
    }
    Ok(total)
}

// The runs of an array block, so many.
fn read_runs(block: &[u8], count: usize) -> Runs
    requires block { 1024 ≤ length block.now }
    requires count { count ≤ 127 }
    ensures { HasRuns (runs_from count 8 block.now) result }
{
    let zero = Run {
        group: 0,
        start: 0,
        len: 0,
    };
    let mut runs = [zero; 127];
    for i in 0..count {
        runs[i] = run_at(block, 8 + 8 * i);
    }
    Runs { count, runs }
}

// Are count and max_runs those of an entry?
fn has_count(block: &[u8]) -> bool
    requires { 1024 ≤ length block.now }
    ensures { IsTrue result ↔ HasCount block.now }
{
    let count = i32_at(block, 0);
    let max_runs = i32_at(block, 4);
    1 <= count && count <= 127 && count <= max_runs && max_runs <= 127
}

// How many runs an entry has.
fn count_at(block: &[u8]) -> usize
    requires block { 1024 ≤ length block.now }
    requires count { HasCount block.now }
    ensures value { result ≡ natural (count_in block.now) }
    ensures bound { result ≤ 127 }
{
    natural_of(i32_at(block, 0)) as usize
}

// The runs of an array block, if its count is one.
fn entry_runs(block: &[u8]) -> Result<Runs, EntryFault>
    requires { 1024 ≤ length block.now }
    ensures ok { IfOk result (λ runs. HasCount block.now × HasRuns (runs_of block.now) runs × (length (runs_of block.now) ≤ 127)) }
    ensures err { IfErr result (λ fault. ¬ HasCount block.now × (fault ≡ EntryFault.Count (count_in block.now) (max_in block.now))) }
{
    if !has_count(block) {
        let count = i32_at(block, 0);
        let max_runs = i32_at(block, 4);
        return Err(EntryFault::Count { count, max_runs });
    }
    Ok(read_runs(block, count_at(block)))
}

/// The runs of the entry whose array block this is, or the first condition that it breaks: the count, the
/// first run without a place, the end. The block has a block's length, which is at least 1,024 bytes.
pub fn log_entry(block: &[u8], place: &Place) -> Result<Runs, EntryFault>
    requires block { 1024 ≤ length block.now }
    requires place { IsPlace place.now }
    ensures ok { IfOk result (λ runs. IsEntry place.now block.now × HasRuns (runs_of block.now) runs) }
    ensures err { IfErr result (IsFault place.now block.now) }
{
    let found = match entry_runs(block) {
        Ok(found) => found,
        Err(fault) => return Err(fault),
    };
    let named = match named_blocks(place.geometry, &found.runs[..found.count]) {
        Ok(named) => named,
        Err(fault) => return Err(fault),
    };
    let blocks = 1 + named;
    let length = u64::from(place.geometry.log.len);
    let room = ring_used(place.start, place.end, length);
    if room < blocks {
        return Err(EntryFault::PastEnd { blocks, room });
    }
    Ok(found)
}
