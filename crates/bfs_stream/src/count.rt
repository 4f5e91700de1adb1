// Counts runs that are used.
ghost use Rattle.std.specs.Prelude.{◌≡◌, ◌<◌, ◌≤◌, ◌+◌, ◌*◌, ◌++◌, ℕ, List, length, Option, Some, IfOk};
ghost use Rattle.bfs_bytes.specs.declared.Run.{Run};
ghost use Rattle.bfs_inode.specs.Inode.{runs_in};
ghost use Rattle.bfs_txn.specs.Faults.{IsCaused};
ghost use Rattle.bfs_stream.specs.Sizes.{IsInVolume, runs_per_block};
ghost use Rattle.bfs_stream.specs.Places.{run_blocks, used_runs, array_runs};
ghost use Rattle.bfs_stream.specs.Told.{contents, AreTold};

use crate::Stream;
use bfs_bytes::{Run, run_at};
use bfs_txn::{BlockFault, Blocks};

/// How many runs are used, among some that stand from a byte on and behind which more may follow.
pub fn count_used(bytes: &[u8], at: usize, runs: usize) -> usize
    requires { at + 8 * runs ≤ length bytes.now }
    ensures few { result ≤ runs }
    ensures ends { result < runs → (more : List Run) → length (used_runs (runs_in runs bytes.now at ++ more)) ≡ result }
    ensures all { result ≡ runs → (more : List Run) → length (used_runs (runs_in runs bytes.now at ++ more)) ≡ runs + length (used_runs more) }
{
    for i in 0..runs {
        if run_at(bytes, at + 8 * i).len == 0 {
            return i;
        }
    }
    runs
}

impl Stream {
    /// How many runs of an array are used.
    pub(crate) fn used_in<B: Blocks>(
        &self,
        under: &mut B,
        bytes: &mut [u8],
        array: Run,
    ) -> Result<u64, BlockFault>
        requires size { B.size under.old ≡ self.now.sizes.block_size }
        requires length { length bytes.old ≡ self.now.sizes.block_size }
        requires array { IsInVolume self.now.sizes array }
        ensures used { (m : ℕ → Option (List ℕ)) → B.told under.old ≡ Some m → AreTold m (run_blocks self.now.sizes array) → IfOk result (λ n. n ≡ length (used_runs (array_runs self.now.sizes (contents m) array))) }
        ensures few { IfOk result (λ n. n ≤ array.len * runs_per_block self.now.sizes) }
        ensures length { length bytes.new ≡ self.now.sizes.block_size }
        ensures told { B.told under.new ≡ B.told under.old }
        ensures changed { B.changed under.new ≡ B.changed under.old }
        ensures size { B.size under.new ≡ B.size under.old }
        ensures frame { B.frame under.new ≡ B.frame under.old }
        ensures cause { IsCaused (B.counts under.old) (B.counts under.new) result }
    {
        let runs = self.runs_per_block() as usize;
        let first = self.first_block(array);
        let mut used = 0;
        for i in 0..u64::from(array.len) {
            match under.get(first + i, bytes) {
                Ok(()) => {}
                Err(fault) => return Err(fault),
            }
            let here = count_used(bytes, 0, runs);
            used += here as u64;
            if here < runs {
                return Ok(used);
            }
        }
        Ok(used)
    }
}
