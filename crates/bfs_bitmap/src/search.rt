// Looks for the lowest free run.
ghost use Rattle.std.specs.Prelude.{◌≡◌, ◌≤◌, ◌<◌, ◌+◌, ◌*◌, ◌%◌, ℕ, List, length, Option, Some, OnOk, IfOk};
ghost use Rattle.bfs_bitmap.specs.Runs.{Fits, HasBitmap, HasSizes, NoRunBelow};
ghost use Rattle.bfs_txn.specs.Faults.{IsCaused};

use crate::Bitmap;
use crate::tally::start_for;
use crate::window::Window;
use bfs_txn::{BlockFault, Blocks};

/// The lowest free run, and a block below which nothing is free; or how many blocks are free in shorter runs.
#[derive(Clone, Copy)]
pub enum Search {
    Found { first: u64, len: u64, low: u64 },
    Full { free: u64 },
}

impl Bitmap {
    ghost use Rattle.bfs_bitmap.specs.Windows.{IsShown};
    ghost use Rattle.bfs_bitmap.specs.Searches.{IsSound, IsAnswer, IsAnswerFrom, BeginsFrom, IsLimit};

    /// Where a run that begins here has to end.
    pub(crate) fn limit(&self, at: u64, longest: u16) -> u64
        requires inside { at < self.now.blocks }
        requires some { 1 ≤ longest }
        ensures { IsLimit self.now at longest result }
    {
        let group_end = at - at % self.group_blocks + self.group_blocks;
        group_end.min(at + u64::from(longest)).min(self.blocks)
    }

    /// The lowest free run of at least `wanted` blocks among those that begin from a place on, cut to `longest`.
    fn search_from<B: Blocks>(
        &self,
        under: &mut B,
        window: &mut Window,
        start: u64,
        wanted: u16,
        longest: u16,
    ) -> Result<Search, BlockFault>
        requires size { B.size under.old ≡ self.now.block_size }
        requires length { length window.old.bytes.items ≡ self.now.block_size }
        requires inside { start ≤ self.now.blocks }
        requires some { 1 ≤ wanted }
        requires order { wanted ≤ longest }
        ensures sound { IfOk result (IsSound self.now wanted longest) }
        ensures from { IfOk result (BeginsFrom start) }
        ensures answer { (m : ℕ → Option (List ℕ)) → B.told under.old ≡ Some m → HasBitmap self.now m → NoRunBelow self.now m wanted start → IsShown self.now m window.old → IfOk result (IsAnswerFrom self.now m start wanted longest) }
        ensures shown { (m : ℕ → Option (List ℕ)) → B.told under.old ≡ Some m → HasBitmap self.now m → IsShown self.now m window.old → OnOk result (IsShown self.now m window.new) }
        ensures length { length window.new.bytes.items ≡ self.now.block_size }
        ensures told { B.told under.new ≡ B.told under.old }
        ensures changed { B.changed under.new ≡ B.changed under.old }
        ensures size { B.size under.new ≡ B.size under.old }
        ensures frame { B.frame under.new ≡ B.frame under.old }
        ensures cause { IsCaused (B.counts under.old) (B.counts under.new) result }
    {
        let blocks = self.blocks;
        let low = match self.next(under, window, start, blocks, true) {
            Ok(low) => low,
            Err(fault) => return Err(fault),
        };
        let mut at = low;
        let mut free = 0;
        while at < blocks {
            let limit = self.limit(at, longest);
            let end = match self.next(under, window, at + 1, limit, false) {
                Ok(end) => end,
                Err(fault) => return Err(fault),
            };
            let len = end - at;
            if len >= u64::from(wanted) {
                return Ok(Search::Found {
                    first: at,
                    len,
                    low,
                });
            }
            free += len;
            at = match self.next(under, window, end, blocks, true) {
                Ok(next) => next,
                Err(fault) => return Err(fault),
            };
        }
        Ok(Search::Full { free })
    }

    /// The lowest free run of at least `wanted` blocks, cut to `longest`. Where what is known of wide runs lets the search
    /// begin further up and it finds none, the free blocks are counted from the lowest.
    pub(crate) fn search<B: Blocks>(
        &self,
        under: &mut B,
        window: &mut Window,
        wanted: u16,
        longest: u16,
    ) -> Result<Search, BlockFault>
        requires size { B.size under.old ≡ self.now.block_size }
        requires length { length window.old.bytes.items ≡ self.now.block_size }
        requires some { 1 ≤ wanted }
        requires order { wanted ≤ longest }
        ensures sound { IfOk result (IsSound self.now wanted longest) }
        ensures answer { (m : ℕ → Option (List ℕ)) → B.told under.old ≡ Some m → Fits self.now m → IsShown self.now m window.old → IfOk result (IsAnswer self.now m wanted longest) }
        ensures length { length window.new.bytes.items ≡ self.now.block_size }
        ensures told { B.told under.new ≡ B.told under.old }
        ensures changed { B.changed under.new ≡ B.changed under.old }
        ensures size { B.size under.new ≡ B.size under.old }
        ensures frame { B.frame under.new ≡ B.frame under.old }
        ensures cause { IsCaused (B.counts under.old) (B.counts under.new) result }
    {
        let tally = self.tally();
        let start = start_for(tally, u64::from(wanted));
        if start <= tally.low {
            return self.search_from(under, window, tally.low, wanted, longest);
        }
        match self.search_from(under, window, start, wanted, longest) {
            Ok(Search::Found { first, len, low: _ }) => Ok(Search::Found {
                first,
                len,
                low: tally.low,
            }),
            Ok(Search::Full { free: _ }) => {
                self.search_from(under, window, tally.low, wanted, longest)
            }
            Err(fault) => Err(fault),
        }
    }
}
