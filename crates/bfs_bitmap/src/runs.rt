// Counts free runs of one length.
ghost use Rattle.std.specs.Prelude.{◌≡◌, ◌≤◌, ◌<◌, ◌+◌, ◌-◌, ◌*◌, ◌%◌, ℕ, List, length, Option, Some, OnOk, IfOk, Bool, true, false};
ghost use Rattle.bfs_bitmap.specs.Counted.{HasRuns, NoMoreRuns, IsStretch};
ghost use Rattle.bfs_bitmap.specs.Runs.{HasBitmap};
ghost use Rattle.bfs_txn.specs.Faults.{IsCaused};

use crate::Bitmap;
use crate::window::Window;
use bfs_txn::{BlockFault, Blocks};

/// A stretch of blocks up to `end` in which a free run of the wanted length begins, which ends there, or none begins.
#[derive(Clone, Copy)]
pub struct Stretch {
    pub end: u64,
    pub whole: bool,
}

impl Bitmap {
    ghost use Rattle.bfs_bitmap.specs.Windows.{IsShown};

    /// From a place on, the stretch up to the end of the first free run of so many blocks, or up to a block behind which to look on.
    fn stretch<B: Blocks>(
        &self,
        under: &mut B,
        window: &mut Window,
        at: u64,
        len: u16,
    ) -> Result<Stretch, BlockFault>
        requires size { B.size under.old ≡ self.now.block_size }
        requires length { length window.old.bytes.items ≡ self.now.block_size }
        requires inside { at < self.now.blocks }
        requires some { 1 ≤ len }
        ensures bounds { IfOk result (λ s. (at < s.end) × (s.end ≤ self.now.blocks)) }
        ensures stretch { (m : ℕ → Option (List ℕ)) → B.told under.old ≡ Some m → HasBitmap self.now m → IsShown self.now m window.old → IfOk result (λ s. IsStretch self.now m len at s.end s.whole) }
        ensures shown { (m : ℕ → Option (List ℕ)) → B.told under.old ≡ Some m → HasBitmap self.now m → IsShown self.now m window.old → OnOk result (IsShown self.now m window.new) }
        ensures length { length window.new.bytes.items ≡ self.now.block_size }
        ensures told { B.told under.new ≡ B.told under.old }
        ensures changed { B.changed under.new ≡ B.changed under.old }
        ensures size { B.size under.new ≡ B.size under.old }
        ensures frame { B.frame under.new ≡ B.frame under.old }
        ensures cause { IsCaused (B.counts under.old) (B.counts under.new) result }
    {
        let blocks = self.blocks;
        let first = match self.next(under, window, at, blocks, true) {
            Ok(first) => first,
            Err(fault) => return Err(fault),
        };
        if first >= blocks {
            return Ok(Stretch {
                end: blocks,
                whole: false,
            });
        }
        let limit = self.limit(first, len);
        let end = match self.next(under, window, first + 1, limit, false) {
            Ok(end) => end,
            Err(fault) => return Err(fault),
        };
        if end - first >= u64::from(len) {
            return Ok(Stretch { end, whole: true });
        }
        Ok(Stretch { end, whole: false })
    }

    /// How many free runs of so many blocks there are that share no block, or `most` where there are at least so many. A run lies in
    /// one allocation group; a block that was given back and isn't released yet is not free.
    pub fn free_runs<B: Blocks>(
        &self,
        under: &mut B,
        len: u16,
        most: u64,
    ) -> Result<u64, BlockFault>
        requires size { B.size under.old ≡ self.now.block_size }
        requires some { 1 ≤ len }
        ensures few { IfOk result (λ n. n ≤ most) }
        ensures runs { (m : ℕ → Option (List ℕ)) → B.told under.old ≡ Some m → HasBitmap self.now m → IfOk result (HasRuns self.now m len) }
        ensures no_more { (m : ℕ → Option (List ℕ)) → B.told under.old ≡ Some m → HasBitmap self.now m → IfOk result (λ n. n < most → NoMoreRuns self.now m len n) }
        ensures told { B.told under.new ≡ B.told under.old }
        ensures changed { B.changed under.new ≡ B.changed under.old }
        ensures size { B.size under.new ≡ B.size under.old }
        ensures frame { B.frame under.new ≡ B.frame under.old }
        ensures cause { IsCaused (B.counts under.old) (B.counts under.new) result }
    {
        let mut window = match Window::new(self.alloc, self.block_size) {
            Ok(window) => window,
            Err(_) => return Err(BlockFault::NoMemory),
        };
        let blocks = self.blocks;
        let mut at = 0;
        let mut runs = 0;
        while at < blocks {
            if runs >= most {
                return Ok(runs);
            }
            let stretch = match self.stretch(under, &mut window, at, len) {
                Ok(stretch) => stretch,
                Err(fault) => return Err(fault),
            };
            at = stretch.end;
            if stretch.whole {
                runs += 1;
            }
        }
        Ok(runs)
    }
}
