// Sets and clears the bits of runs on the disk.
ghost use Rattle.std.specs.Prelude.{◌≡◌, ◌≤◌, ◌<◌, ◌⊎◌, ◌+◌, ◌-◌, ◌*◌, ℕ, List, length, Option, Some, OnOk, OnErr, true, if◌then◌else◌};
ghost use Rattle.bfs_bitmap.specs.Runs.{HasBitmap, Marks, per_block};
ghost use Rattle.bfs_bitmap.specs.Fills.{IsTold, IsBitmapBlock, HasBitOf};
ghost use Rattle.bfs_txn.specs.Faults.{IsCaused};
ghost use Rattle.bfs_txn.specs.Told.{StaysChanged};

use crate::Bitmap;
use crate::bits::fill_bits;
use bfs_txn::{BlockFault, Edits};

impl Bitmap {
    /// Sets or clears bits of one block of the bitmap.
    fn fill_part<E: Edits>(
        &self,
        edits: &mut E,
        bytes: &mut [u8],
        j: u64,
        from: u64,
        to: u64,
        used: bool,
    ) -> Result<(), BlockFault>
        requires size { E.size edits.old ≡ self.now.block_size }
        requires length { length bytes.old ≡ self.now.block_size }
        requires inside { per_block self.now * j < self.now.blocks }
        requires order { from ≤ to }
        requires bits { to ≤ per_block self.now }
        requires end { per_block self.now * j + to ≤ self.now.blocks }
        ensures marks { (m : ℕ → Option (List ℕ)) → E.told edits.old ≡ Some m → HasBitmap self.now m → OnOk result (IsTold (Marks self.now (per_block self.now * j + from) (to - from) (if used then 1 else 0) m) (E.told edits.new)) }
        ensures changed { (k : ℕ) → E.changed edits.new k ≡ true → (E.changed edits.old k ≡ true) ⊎ (k ≡ 1 + j) }
        ensures stays { StaysChanged (E.changed edits.old) (E.changed edits.new) }
        ensures length { length bytes.new ≡ self.now.block_size }
        ensures size { E.size edits.new ≡ E.size edits.old }
        ensures frame { E.frame edits.new ≡ E.frame edits.old }
        ensures cause { IsCaused (E.counts edits.old) (E.counts edits.new) result }
    {
        self.sizes();
        match edits.get(1 + j, bytes) {
            Ok(()) => {}
            Err(fault) => return Err(fault),
        }
        fill_bits(bytes, from as usize, to as usize, used);
        match edits.set(1 + j, bytes) {
            Ok(()) => Ok(()),
            Err(_) => Err(BlockFault::NoMemory),
        }
    }

    /// Sets or clears the bits of a run.
    pub(crate) fn fill<E: Edits>(
        &self,
        edits: &mut E,
        bytes: &mut [u8],
        first: u64,
        len: u64,
        used: bool,
    ) -> Result<(), BlockFault>
        requires size { E.size edits.old ≡ self.now.block_size }
        requires length { length bytes.old ≡ self.now.block_size }
        requires inside { first + len ≤ self.now.blocks }
        ensures marks { (m : ℕ → Option (List ℕ)) → E.told edits.old ≡ Some m → HasBitmap self.now m → OnOk result (IsTold (Marks self.now first len (if used then 1 else 0) m) (E.told edits.new)) }
        ensures changed { (k : ℕ) → E.changed edits.new k ≡ true → (E.changed edits.old k ≡ true) ⊎ HasBitOf self.now first len k }
        ensures stays { StaysChanged (E.changed edits.old) (E.changed edits.new) }
        ensures length { length bytes.new ≡ self.now.block_size }
        ensures size { E.size edits.new ≡ E.size edits.old }
        ensures frame { E.frame edits.new ≡ E.frame edits.old }
        ensures cause { IsCaused (E.counts edits.old) (E.counts edits.new) result }
    {
        let bits = self.per_block();
        let end = first + len;
        let mut at = first;
        while at < end {
            let j = at / bits;
            let from = at % bits;
            let to = (end - (at - from)).min(bits);
            match self.fill_part(edits, bytes, j, from, to, used) {
                Ok(()) => {}
                Err(fault) => return Err(fault),
            }
            at = at - from + to;
        }
        Ok(())
    }
}
