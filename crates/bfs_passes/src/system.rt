// The blocks of the system, which are claimed first of all: block 0, the bitmap and the log.
ghost use Rattle.std.specs.Prelude.{◌≡◌, ℕ, List, IfOk, IfErr};
ghost use Rattle.bfs_super.specs.Conditions.{IsValid, natural};
ghost use Rattle.bfs_super.specs.Geometry.{bitmap_length};
ghost use Rattle.bfs_sound.specs.Whole.{volume_of};
ghost use Rattle.bfs_claims.specs.Claims.{AreClaimed};
ghost use Rattle.bfs_indices_check.specs.Laws.{system_blocks};

use crate::PassFault;
use bfs_claims::Claims;
use bfs_super::Super;
use bfs_txn::BlockFault;
use std::alloc::Global;

/// How many blocks the bitmap has.
fn bitmap_blocks(sup: &Super) -> u64
    requires { IsValid sup.now }
    ensures { result ≡ bitmap_length (natural sup.now.num_blocks) sup.now.block_size }
{
    let bits = u64::from(sup.block_size) * 8;
    (sup.geometry().blocks + (bits - 1)) / bits
}

/// Claims the blocks of the system, and no others. The log of a valid superblock stands behind its bitmap, so that none is claimed twice.
pub(crate) fn claim_system(alloc: Global, sup: &Super) -> Result<Claims, PassFault>
    requires valid { IsValid sup.now }
    ensures claimed { (blocks : ℕ → List ℕ) → IfOk result (λ c. AreClaimed c (system_blocks (volume_of sup.now blocks))) }
    ensures blocks { IfOk result (λ c. c.blocks ≡ natural sup.now.num_blocks) }
    ensures memory { IfErr result (λ f. f ≡ PassFault.Block BlockFault.NoMemory) }
{
    let mut claims = match Claims::new(alloc, sup.geometry().blocks) {
        Ok(claims) => claims,
        Err(_) => return Err(PassFault::Block(BlockFault::NoMemory)),
    };
    match claims.claim(0, 1 + bitmap_blocks(sup)) {
        Ok(()) => {}
        Err(_) => return Err(PassFault::Block(BlockFault::NoMemory)),
    }
    let log = sup.log_blocks;
    match claims.claim(sup.block_of(log), u64::from(log.len)) {
        Ok(()) => Ok(claims),
        Err(_) => Err(PassFault::Block(BlockFault::NoMemory)),
    }
}
