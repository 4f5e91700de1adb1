// Looks for free blocks through one block of the bitmap at a time.
ghost use Rattle.std.specs.Prelude.{◌≡◌, ◌≤◌, ◌<◌, ◌+◌, ◌*◌, ◌^◌, ◌&&◌, ℕ, List, length, not, Option, Some, IfSome, OnOk, IfOk, Bool, None, IsTrue, ◌↔◌};
ghost use Rattle.bfs_bitmap.specs.Bits.{is_clear};
ghost use Rattle.bfs_bitmap.specs.Runs.{is_reserved, HasBitmap, HasSizes, Shows, IsNext, per_block};
ghost use Rattle.bfs_txn.specs.Faults.{IsCaused};

use crate::Bitmap;
use crate::bits::{first_bit, mark_run};
use crate::reserved::cover;
use bfs_txn::{BlockFault, Blocks};
use std::alloc::{AllocError, Global};

/// The bytes of one block of the bitmap, with the bits of reserved blocks set too.
#[derive(Drop)]
pub struct Window {
    pub bytes: Vec<u8>,
    pub shown: Option<u64>,
}

impl Window {
    pub fn new(alloc: Global, size: u32) -> Result<Window, AllocError>
        ensures length { IfOk result (λ w. length w.bytes.items ≡ size) }
        ensures none { IfOk result (λ w. w.shown ≡ None) }
    {
        let bytes = vec![in alloc; 0u8; size as usize]?;
        Ok(Window { bytes, shown: None })
    }

    fn is_at(&self, j: u64) -> bool
        ensures { IsTrue result ↔ (self.now.shown ≡ Some j) }
    {
        match self.shown {
            Some(shown) => shown == j,
            None => false,
        }
    }
}

impl Bitmap {
    ghost use Rattle.bfs_bitmap.specs.Windows.{IsShown};

    /// Sets the bits of the reserved blocks, where the bytes are those of the bitmap from one on.
    fn reserve(&self, bytes: &mut [u8], at: u64)
        ensures { (i : ℕ) → i < 8 * length bytes.old → is_clear bytes.new i ≡ (is_clear bytes.old i && not (is_reserved self.now.given (8 * at + i))) }
    {
        cover(bytes, &self.reserved, at as usize);
    }

    /// Reads a block of the bitmap, and sets the bits of reserved blocks and of those past the volume's end.
    fn load<B: Blocks>(&self, under: &mut B, j: u64, bytes: &mut [u8]) -> Result<(), BlockFault>
        requires size { B.size under.old ≡ self.now.block_size }
        requires length { length bytes.old ≡ self.now.block_size }
        requires inside { per_block self.now * j < self.now.blocks }
        ensures shows { (m : ℕ → Option (List ℕ)) → B.told under.old ≡ Some m → HasBitmap self.now m → OnOk result (Shows self.now m j bytes.new) }
        ensures told { B.told under.new ≡ B.told under.old }
        ensures changed { B.changed under.new ≡ B.changed under.old }
        ensures size { B.size under.new ≡ B.size under.old }
        ensures frame { B.frame under.new ≡ B.frame under.old }
        ensures cause { IsCaused (B.counts under.old) (B.counts under.new) result }
    {
        let bits = self.per_block();
        let base = bits * j;
        under.get(1 + j, bytes)?;
        self.reserve(bytes, base / 8);
        mark_run(bytes, base, self.blocks, bits);
        Ok(())
    }

    /// Lets the window show a block of the bitmap.
    fn show<B: Blocks>(&self, under: &mut B, window: &mut Window, j: u64) -> Result<(), BlockFault>
        requires size { B.size under.old ≡ self.now.block_size }
        requires length { length window.old.bytes.items ≡ self.now.block_size }
        requires inside { per_block self.now * j < self.now.blocks }
        ensures shows { (m : ℕ → Option (List ℕ)) → B.told under.old ≡ Some m → HasBitmap self.now m → IsShown self.now m window.old → OnOk result (Shows self.now m j window.new.bytes.items) }
        ensures shown { (m : ℕ → Option (List ℕ)) → B.told under.old ≡ Some m → HasBitmap self.now m → IsShown self.now m window.old → OnOk result (IsShown self.now m window.new) }
        ensures length { length window.new.bytes.items ≡ self.now.block_size }
        ensures told { B.told under.new ≡ B.told under.old }
        ensures changed { B.changed under.new ≡ B.changed under.old }
        ensures size { B.size under.new ≡ B.size under.old }
        ensures frame { B.frame under.new ≡ B.frame under.old }
        ensures cause { IsCaused (B.counts under.old) (B.counts under.new) result }
    {
        if window.is_at(j) {
            return Ok(());
        }
        window.shown = None;
        self.load(under, j, &mut window.bytes)?;
        window.shown = Some(j);
        Ok(())
    }

    /// The first block between two that is free, or that isn't; the second where there is none.
    pub(crate) fn next<B: Blocks>(
        &self,
        under: &mut B,
        window: &mut Window,
        from: u64,
        to: u64,
        clear: bool,
    ) -> Result<u64, BlockFault>
        requires size { B.size under.old ≡ self.now.block_size }
        requires length { length window.old.bytes.items ≡ self.now.block_size }
        requires order { from ≤ to }
        requires inside { to ≤ self.now.blocks }
        ensures bounds { IfOk result (λ at. (from ≤ at) × (at ≤ to)) }
        ensures next { (m : ℕ → Option (List ℕ)) → B.told under.old ≡ Some m → HasBitmap self.now m → IsShown self.now m window.old → IfOk result (λ at. IsNext self.now m from to clear at) }
        ensures shown { (m : ℕ → Option (List ℕ)) → B.told under.old ≡ Some m → HasBitmap self.now m → IsShown self.now m window.old → OnOk result (IsShown self.now m window.new) }
        ensures length { length window.new.bytes.items ≡ self.now.block_size }
        ensures told { B.told under.new ≡ B.told under.old }
        ensures changed { B.changed under.new ≡ B.changed under.old }
        ensures size { B.size under.new ≡ B.size under.old }
        ensures frame { B.frame under.new ≡ B.frame under.old }
        ensures cause { IsCaused (B.counts under.old) (B.counts under.new) result }
    {
        let bits = self.per_block();
        let mut at = from;
        while at < to {
            let j = at / bits;
            let first = at % bits;
            let base = at - first;
            match self.show(under, window, j) {
                Ok(()) => {}
                Err(fault) => return Err(fault),
            }
            let end = (to - base).min(bits);
            let bit = first_bit(&window.bytes, first as usize, end as usize, clear) as u64;
            at = base + bit;
            if bit < end {
                return Ok(at);
            }
        }
        Ok(at)
    }
}
