// Writes an entry's array block.
ghost use Rattle.std.specs.Prelude.{◌≡◌, ◌<◌, ◌≤◌, ◌+◌, ◌-◌, ◌*◌, ◌/◌, ◌%◌, ◌^◌, ◌++◌, length, take, drop, replicate, map, All};
ghost use Rattle.bfs_log.specs.Entry.{IsPlace, IsOfSuper, IsEntry, IsHome, run_at_block, entry_bytes, runs_of, blocks_in};
ghost use Rattle.bfs_log.specs.Ring.{in_use};

use crate::Place;
use bfs_bytes::{Run, put_i32, put_run};
use bfs_super::Geometry;

// 2 to this power.
#[tactic(auto, using(crate::proofs::Bounds::power_low))]
fn power(shift: u32) -> u64
    requires { shift ≤ 16 }
    ensures value { result ≡ 2 ^ shift }
    ensures some { 0 < result }
    ensures bound { result ≤ 65536 }
{
    1 << shift
}

// The run of length 1 that is this block.
#[tactic(auto, using(crate::proofs::Bounds::part_low, crate::proofs::Bounds::rest_low))]
fn run_of(geometry: Geometry, block: u64) -> Run
    requires geometry { IsOfSuper geometry }
    requires block { block < geometry.blocks }
    ensures { result ≡ run_at_block geometry block }
{
    let size = power(geometry.shift);
    Run {
        group: (block / size) as i32,
        start: (block % size) as u16,
        len: 1,
    }
}

// Writes zeros from a place to the block's end.
fn clear(block: &mut [u8], from: usize)
    requires { from ≤ length block.old }
    ensures { block.new ≡ take from block.old ++ replicate (length block.old - from) 0 }
{
    block[from..].fill(0);
}

// Writes the bytes of an array block.
fn write_entry(block: &mut [u8], blocks: &[u64], geometry: Geometry)
    requires block { 1024 ≤ length block.old }
    requires geometry { IsOfSuper geometry }
    requires few { length blocks.now ≤ 126 }
    requires volume { All (λ b. b < geometry.blocks) blocks.now }
    ensures { block.new ≡ entry_bytes geometry blocks.now (length block.old) }
{
    put_i32(block, 0, blocks.len() as i32);
    put_i32(block, 4, 127);
    for i in 0..blocks.len() {
        put_run(block, 8 + 8 * i, run_of(geometry, blocks[i]));
    }
    clear(block, 8 + 8 * blocks.len());
}

/// Writes the array block of an entry of 1 to 126 blocks, which stand in the log behind it in this order: the
/// count, 127, a run of length 1 for each, and zeros. Each block is one of the volume.
pub fn log_print(block: &mut [u8], blocks: &[u64], place: &Place)
    requires block { 1024 ≤ length block.old }
    requires place { IsPlace place.now }
    requires some { 1 ≤ length blocks.now }
    requires few { length blocks.now ≤ 126 }
    requires volume { All (λ b. b < place.now.geometry.blocks) blocks.now }
    ensures bytes { block.new ≡ entry_bytes place.now.geometry blocks.now (length block.old) }
    ensures runs { runs_of block.new ≡ map (run_at_block place.now.geometry) blocks.now }
    ensures blocks { blocks_in place.now.geometry (runs_of block.new) ≡ blocks.now }
    // It is an entry where each block may be named and what is in use has room for all.
    ensures entry { All (IsHome place.now.geometry) blocks.now → 1 + length blocks.now ≤ in_use place.now.start place.now.end place.now.length → IsEntry place.now block.new }
{
    write_entry(block, blocks, place.geometry);
}
