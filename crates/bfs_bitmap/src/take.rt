// Takes runs.
ghost use Rattle.std.specs.Prelude.{◌≡◌, ◌≤◌, ◌<◌, ◌⊎◌, ◌+◌, ◌%◌, ◌^◌, ℕ, List, length, Option, Some, OnOk, OnErr, IfOk, IfErr, true, false, min};
ghost use Rattle.bfs_bitmap.specs.Runs.{Fits, HasBitmap, IsCounted, IsFreeRun, IsTaken, IsMarked, IsInside, IsNoRun, IsRunCause, LosesFree, NoRunBelow, first_of, is_free};
ghost use Rattle.bfs_bitmap.specs.Tallies.{raised};
ghost use Rattle.bfs_bitmap.specs.Fills.{IsBitmapBlock, HasBitOf, IsTold};
ghost use Rattle.bfs_txn.specs.Faults.{AreLater, IsCaused};
ghost use Rattle.bfs_txn.specs.Told.{StaysChanged};

use crate::search::Search;
use crate::tally::raise;
use crate::window::Window;
use crate::{Bitmap, RunFault};
use bfs_super::bytes::Run;
use bfs_txn::{BlockFault, Edits};

impl Bitmap {
    /// The run from a block on.
    fn run_at(&self, first: u64, len: u64) -> Run
        requires one_group { first % self.now.group_blocks + len ≤ self.now.group_blocks }
        requires inside { first + len ≤ self.now.blocks }
        requires short { len < 2 ^ 16 }
        ensures first { first_of self.now result ≡ first }
        ensures len { result.len ≡ len }
        ensures inside { IsInside self.now result }
    {
        Run {
            group: (first / self.group_blocks) as i32,
            start: (first % self.group_blocks) as u16,
            len: len as u16,
        }
    }

    /// Sets the bits of a run that was found, and raises what is known of the free space.
    fn mark<E: Edits>(
        &mut self,
        edits: &mut E,
        bytes: &mut [u8],
        first: u64,
        len: u64,
        low: u64,
        wanted: u16,
    ) -> Result<(), BlockFault>
        requires size { E.size edits.old ≡ self.old.block_size }
        requires length { length bytes.old ≡ self.old.block_size }
        requires inside { first + len ≤ self.old.blocks }
        requires low { low ≤ first }
        ensures marked { (m : ℕ → Option (List ℕ)) → E.told edits.old ≡ Some m → Fits self.old m → ((k : ℕ) → k < low → is_free self.old m k ≡ false) → NoRunBelow self.old m wanted first → OnOk result (IsMarked self.old self.new first len 1 m (E.told edits.new)) }
        ensures counted { (m : ℕ → Option (List ℕ)) → E.told edits.old ≡ Some m → HasBitmap self.old m → IsFreeRun self.old m first len → IsCounted self.old m → OnOk result (IsTold (IsCounted self.new) (E.told edits.new)) }
        ensures free { (m : ℕ → Option (List ℕ)) → E.told edits.old ≡ Some m → HasBitmap self.old m → IsFreeRun self.old m first len → OnOk result (IsTold (LosesFree self.old self.new len m) (E.told edits.new)) }
        ensures tally { OnOk result (self.new ≡ record self.old { tally = raised wanted first len low self.old.blocks self.old.tally }) }
        ensures rest { self.new ≡ record self.old { tally = self.new.tally } }
        ensures err { OnErr result (self.new ≡ self.old) }
        ensures changed { (k : ℕ) → E.changed edits.new k ≡ true → (E.changed edits.old k ≡ true) ⊎ HasBitOf self.old first len k }
        ensures stays { StaysChanged (E.changed edits.old) (E.changed edits.new) }
        ensures size { E.size edits.new ≡ E.size edits.old }
        ensures frame { E.frame edits.new ≡ E.frame edits.old }
        ensures cause { IsCaused (E.counts edits.old) (E.counts edits.new) result }
    {
        match self.fill(edits, bytes, first, len, true) {
            Ok(()) => {}
            Err(fault) => return Err(fault),
        }
        self.sizes();
        self.tally = raise(self.tally, u64::from(wanted), first, len, low, self.blocks);
        Ok(())
    }

    /// Takes the free run with the lowest first block among those of at least `wanted` blocks, or as many as `longest`
    /// of its blocks. A run lies in one allocation group. Blocks that were given back are not free until their group
    /// is released. After a refusal the call that asked is to be dropped.
    pub fn take_run<E: Edits>(
        &mut self,
        edits: &mut E,
        wanted: u16,
        longest: u16,
    ) -> Result<Run, RunFault>
        requires size { E.size edits.old ≡ self.old.block_size }
        requires some { 1 ≤ wanted }
        requires order { wanted ≤ longest }
        ensures inside { IfOk result (IsInside self.old) }
        ensures long { IfOk result (λ run. (wanted ≤ run.len) × (run.len ≤ longest)) }
        ensures taken { (m : ℕ → Option (List ℕ)) → E.told edits.old ≡ Some m → Fits self.old m → IfOk result (λ run. IsTaken self.old m wanted longest (first_of self.old run) run.len) }
        ensures marked { (m : ℕ → Option (List ℕ)) → E.told edits.old ≡ Some m → Fits self.old m → IfOk result (λ run. IsMarked self.old self.new (first_of self.old run) run.len 1 m (E.told edits.new)) }
        ensures no_run { (m : ℕ → Option (List ℕ)) → E.told edits.old ≡ Some m → Fits self.old m → IfErr result (IsNoRun self.old m wanted) }

        ensures counted { (m : ℕ → Option (List ℕ)) → E.told edits.old ≡ Some m → Fits self.old m → IsCounted self.old m → OnOk result (IsTold (IsCounted self.new) (E.told edits.new)) }
        ensures free { (m : ℕ → Option (List ℕ)) → E.told edits.old ≡ Some m → Fits self.old m → IfOk result (λ run. IsTold (LosesFree self.old self.new run.len m) (E.told edits.new)) }

        // Only what is known of the free space changes beside the disk.
        ensures rest { self.new ≡ record self.old { tally = self.new.tally } }
        ensures used { IfOk result (λ run. self.new.tally.used ≡ min (self.old.tally.used + run.len) self.old.blocks) }
        ensures err { OnErr result (self.new ≡ self.old) }
        ensures changed { (k : ℕ) → E.changed edits.new k ≡ true → (E.changed edits.old k ≡ true) ⊎ IsBitmapBlock self.old k }
        ensures stays { StaysChanged (E.changed edits.old) (E.changed edits.new) }
        ensures bits { IfOk result (λ run. (k : ℕ) → E.changed edits.new k ≡ true → (E.changed edits.old k ≡ true) ⊎ HasBitOf self.old (first_of self.old run) run.len k) }
        ensures size { E.size edits.new ≡ E.size edits.old }
        ensures frame { E.frame edits.new ≡ E.frame edits.old }
        ensures later { AreLater (E.counts edits.old) (E.counts edits.new) }
        ensures cause { IfErr result (IsRunCause (E.counts edits.old) (E.counts edits.new)) }
    {
        let mut window = match Window::new(self.alloc, self.block_size) {
            Ok(window) => window,
            Err(_) => return Err(RunFault::Block(BlockFault::NoMemory)),
        };
        let found = match self.search(edits, &mut window, wanted, longest) {
            Ok(found) => found,
            Err(fault) => return Err(RunFault::Block(fault)),
        };
        match found {
            Search::Full { free } => Err(RunFault::NoRun { wanted, free }),
            Search::Found { first, len, low } => {
                match self.mark(edits, &mut window.bytes, first, len, low, wanted) {
                    Ok(()) => Ok(self.run_at(first, len)),
                    Err(fault) => Err(RunFault::Block(fault)),
                }
            }
        }
    }
}
