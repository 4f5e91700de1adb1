// The bitmap of a volume against what is claimed.
ghost use Rattle.std.specs.Prelude.{◌≡◌, ◌↔◌, ℕ, List, Option, Some, OnOk, IfErr, true};
ghost use Rattle.bfs_super.specs.Conditions.{IsValid, natural};
ghost use Rattle.bfs_txn.specs.Faults.{AreLater};
ghost use Rattle.bfs_stream.specs.Sizes.{sizes_of};
ghost use Rattle.bfs_stream.specs.Told.{contents};
ghost use Rattle.bfs_stream_check.specs.Known.{IsAllTold};
ghost use Rattle.bfs_sound.specs.Volumes.{IsMarked};
ghost use Rattle.bfs_sound.specs.Owners.{Marks};
ghost use Rattle.bfs_sound.specs.Whole.{volume_of};
ghost use Rattle.bfs_claims.specs.Claims.{is_claimed, AreClaimed};
ghost use Rattle.bfs_bitmap_check.specs.Bitmaps.{IsBitCause};
ghost use Rattle.bfs_bitmap_check.specs.Marks.{IsWrongBit, IsMarkFault};

use crate::BitFault;
use crate::bitmap::compare_all;
use bfs_claims::Claims;
use bfs_super::Super;
use bfs_txn::{BlockFault, Blocks};
use std::alloc::Global;

/// Is each block of the volume marked in the bitmap just where it is claimed? Else the first that isn't so, and how. The blocks of the
/// bitmap are read one after the other, each once, and bits past the volume's end aren't looked at. Takes the memory of a block.
pub fn check_bitmap<B: Blocks>(
    alloc: Global,
    under: &mut B,
    sup: &Super,
    claims: &Claims,
) -> Result<(), BitFault>
    requires valid { IsValid sup.now }
    requires size { B.size under.old ≡ sup.now.block_size }
    requires blocks { claims.now.blocks ≡ natural sup.now.num_blocks }
    ensures marked { (m : ℕ → Option (List ℕ)) → B.told under.old ≡ Some m → IsAllTold (sizes_of sup.now) m → OnOk result ((k : ℕ) → IsMarked (volume_of sup.now (contents m)) k ↔ (is_claimed claims.now k ≡ true)) }
    ensures marks { (m : ℕ → Option (List ℕ)) → B.told under.old ≡ Some m → IsAllTold (sizes_of sup.now) m → (xs : List ℕ) → AreClaimed claims.now xs → OnOk result (Marks (volume_of sup.now (contents m)) xs) }
    ensures wrong { (m : ℕ → Option (List ℕ)) → B.told under.old ≡ Some m → IsAllTold (sizes_of sup.now) m → IfErr result (IsWrongBit (volume_of sup.now (contents m)) claims.now) }
    ensures found { (m : ℕ → Option (List ℕ)) → B.told under.old ≡ Some m → IsAllTold (sizes_of sup.now) m → (xs : List ℕ) → AreClaimed claims.now xs → IfErr result (IsMarkFault (volume_of sup.now (contents m)) xs) }
    ensures told { B.told under.new ≡ B.told under.old }
    ensures changed { B.changed under.new ≡ B.changed under.old }
    ensures pairs { B.pairs under.new ≡ B.pairs under.old }
    ensures size { B.size under.new ≡ B.size under.old }
    ensures frame { B.frame under.new ≡ B.frame under.old }
    ensures later { AreLater (B.counts under.old) (B.counts under.new) }
    ensures cause { IfErr result (IsBitCause (B.counts under.old) (B.counts under.new)) }
{
    let mut bytes = match vec![in alloc; 0u8; sup.block_size as usize] {
        Ok(bytes) => bytes,
        Err(_) => return Err(BitFault::Block(BlockFault::NoMemory)),
    };
    match compare_all(under, &mut bytes, claims) {
        Ok(()) => Ok(()),
        Err(fault) => Err(fault),
    }
}
