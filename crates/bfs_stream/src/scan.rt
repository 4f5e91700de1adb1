// Looks through tables of runs.
ghost use Rattle.std.specs.Prelude.{◌≡◌, ◌<◌, ◌≤◌, ◌↔◌, ◌+◌, ◌*◌, IsTrue, IfSome, length, take};
ghost use Rattle.bfs_bytes.specs.Fields.{run_in};
ghost use Rattle.bfs_inode.specs.Inode.{runs_in};
ghost use Rattle.bfs_stream.specs.Sizes.{IsInVolume, first_block};
ghost use Rattle.bfs_stream.specs.Scans.{IsScan, IsBelow, HasStopped, IsPast, AreFour};

use crate::Stream;
use bfs_bytes::{Run, run_at};

/// The block at a place among runs; or it lies behind them, so many blocks on; or the runs end before it, or one of
/// them leaves the volume.
#[derive(Clone, Copy)]
pub enum Scan {
    Found(u64),
    Past(u64),
    Broken,
}

/// How many blocks the run at a byte has.
fn len_at(bytes: &[u8], at: usize) -> u64
    requires { at + 8 ≤ length bytes.now }
    ensures value { result ≡ (run_in bytes.now at).len }
    ensures few { result ≤ 65535 }
{
    u64::from(run_at(bytes, at).len)
}

/// How many blocks four runs have, the first of which stands at a byte, if each of them has any.
fn four_at(bytes: &[u8], at: usize) -> Option<u64>
    requires { at + 32 ≤ length bytes.now }
    ensures { IfSome result (AreFour bytes.now at) }
{
    let first = len_at(bytes, at);
    let second = len_at(bytes, at + 8);
    let third = len_at(bytes, at + 16);
    let fourth = len_at(bytes, at + 24);
    if first == 0 || second == 0 || third == 0 || fourth == 0 {
        return None;
    }
    Some(first + second + third + fourth)
}

impl Stream {
    /// Does the run lie in one group of the volume?
    pub(crate) fn holds(&self, run: Run) -> bool
        ensures { IsTrue result ↔ IsInVolume self.now.sizes run }
    {
        if run.group < 0 {
            return false;
        }
        let len = u64::from(run.len);
        let first = run.group as u64 * self.group_blocks + u64::from(run.start);
        u64::from(run.start) + len <= self.group_blocks && first + len <= self.blocks
    }

    /// Is it a run with blocks, all of the volume?
    pub fn is_used(&self, run: Run) -> bool
        ensures { IsTrue result ↔ ((0 < run.len) × IsInVolume self.now.sizes run) }
    {
        run.len != 0 && self.holds(run)
    }

    /// The first block of a run.
    pub fn first_block(&self, run: Run) -> u64
        requires { IsInVolume self.now.sizes run }
        ensures value { result ≡ first_block self.now.sizes run }
        ensures inside { result + run.len ≤ self.now.sizes.blocks }
        ensures few { result + run.len ≤ 4194304 }
    {
        run.group as u64 * self.group_blocks + u64::from(run.start)
    }

    /// Passes over runs by fours, from a byte on, as long as they have blocks that all lie before a place, and answers how many runs these are and how many
    /// blocks the place lies behind them.
    fn pass(&self, bytes: &[u8], at: usize, runs: usize, place: u64) -> (usize, u64)
        requires { at + 8 * runs ≤ length bytes.now }
        ensures inside { result.0 ≤ runs }
        ensures past { IsPast self.now.sizes (take result.0 (runs_in runs bytes.now at)) place result.1 }
    {
        let mut left = place;
        for i in 0..runs / 4 {
            let Some(len) = four_at(bytes, at + 32 * i) else {
                return (4 * i, left);
            };
            if left < len {
                return (4 * i, left);
            }
            left -= len;
        }
        (runs / 4 * 4, left)
    }

    /// Looks through some runs, from a byte on, for the block at a place. Of a run that is passed over only the length is read.
    pub(crate) fn scan(&self, bytes: &[u8], at: usize, runs: usize, place: u64) -> Scan
        requires { at + 8 * runs ≤ length bytes.now }
        ensures scan { IsScan self.now.sizes (runs_in runs bytes.now at) place result }
        ensures below { IsBelow self.now.sizes result }
        ensures stopped { HasStopped self.now.sizes (runs_in runs bytes.now at) place result }
    {
        let passed = self.pass(bytes, at, runs, place);
        let mut left = passed.1;
        for i in passed.0..runs {
            let run = run_at(bytes, at + 8 * i);
            let len = u64::from(run.len);
            if left < len {
                if !self.holds(run) {
                    return Scan::Broken;
                }
                return Scan::Found(self.first_block(run) + left);
            }
            if len == 0 {
                return Scan::Broken;
            }
            left -= len;
        }
        Scan::Past(left)
    }
}
