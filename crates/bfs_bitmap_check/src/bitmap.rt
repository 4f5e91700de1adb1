// Reads the bitmap, block by block.
ghost use Rattle.std.specs.Prelude.{◌≡◌, ◌≤◌, ◌<◌, ◌+◌, ◌*◌, ℕ, List, length, min, Option, Some, OnOk, IfErr, true};
ghost use Rattle.bfs_txn.specs.Faults.{Counts, AreLater};
ghost use Rattle.bfs_claims.specs.Claims.{is_claimed};
ghost use Rattle.bfs_bitmap_check.specs.Bitmaps.{IsBitmapTold, AreSameIn, IsFirstIn, IsBitCause};

use crate::BitFault;
use crate::difference::first_difference;
use bfs_claims::{Claims, bit_is_clear};
use bfs_txn::Blocks;

/// How a bit in one block of the bitmap differs from the claim of its block, where one does.
fn compare(bytes: &[u8], j: u64, claims: &Claims) -> Result<(), BitFault>
    requires some { 0 < length bytes.now }
    requires few { length bytes.now ≤ 8192 }
    requires inside { 8 * length bytes.now * j < claims.now.blocks }
    ensures same { (m : ℕ → Option (List ℕ)) → m (1 + j) ≡ Some bytes.now → OnOk result (AreSameIn (8 * length bytes.now) m claims.now (8 * length bytes.now * j) (min claims.now.blocks (8 * length bytes.now * j + 8 * length bytes.now))) }
    ensures wrong { (m : ℕ → Option (List ℕ)) → m (1 + j) ≡ Some bytes.now → IfErr result (IsFirstIn (8 * length bytes.now) m claims.now (8 * length bytes.now * j)) }
    ensures cause { (old new : Counts) → IfErr result (IsBitCause old new) }
{
    let blocks = claims.blocks();
    let bits = claims.bits();
    let per_block = 8 * bytes.len() as u64;
    let base = per_block * j;
    let to = (blocks - base).min(per_block) as usize;
    let from = bytes.len() * j as usize;
    let at = first_difference(bytes, &bits[from..], to);
    if at == to {
        return Ok(());
    }
    let block = base + at as u64;
    if bit_is_clear(bytes, at) {
        Err(BitFault::Unset { block })
    } else {
        Err(BitFault::Extra { block })
    }
}

/// Reads the blocks of the bitmap one after the other, and tells how the first bit that differs from the claim of its block does.
pub(crate) fn compare_all<B: Blocks>(
    under: &mut B,
    bytes: &mut [u8],
    claims: &Claims,
) -> Result<(), BitFault>
    requires size { B.size under.old ≡ length bytes.old }
    requires some { 0 < length bytes.old }
    requires few { length bytes.old ≤ 8192 }
    ensures same { (m : ℕ → Option (List ℕ)) → B.told under.old ≡ Some m → IsBitmapTold (8 * length bytes.old) m claims.now.blocks → OnOk result (AreSameIn (8 * length bytes.old) m claims.now 0 claims.now.blocks) }
    ensures wrong { (m : ℕ → Option (List ℕ)) → B.told under.old ≡ Some m → IsBitmapTold (8 * length bytes.old) m claims.now.blocks → IfErr result (IsFirstIn (8 * length bytes.old) m claims.now 0) }
    ensures inside { (k : ℕ) → is_claimed claims.now k ≡ true → k < claims.now.blocks }
    ensures told { B.told under.new ≡ B.told under.old }
    ensures changed { B.changed under.new ≡ B.changed under.old }
    ensures pairs { B.pairs under.new ≡ B.pairs under.old }
    ensures size { B.size under.new ≡ B.size under.old }
    ensures frame { B.frame under.new ≡ B.frame under.old }
    ensures later { AreLater (B.counts under.old) (B.counts under.new) }
    ensures cause { IfErr result (IsBitCause (B.counts under.old) (B.counts under.new)) }
{
    let blocks = claims.blocks();
    let per_block = 8 * bytes.len() as u64;
    let mut j = 0;
    let mut at = 0;
    while at < blocks {
        match under.get(1 + j, bytes) {
            Ok(()) => {}
            Err(fault) => return Err(BitFault::Block(fault)),
        }
        match compare(bytes, j, claims) {
            Ok(()) => {}
            Err(fault) => return Err(fault),
        }
        j += 1;
        at += per_block;
    }
    Ok(())
}
