// The inode among some that has a block.
ghost use Rattle.std.specs.Prelude.{◌≡◌, ◌<◌, ℕ, List, Option, Some, IfOk, IfErr};
ghost use Rattle.bfs_super.specs.Conditions.{IsValid, natural};
ghost use Rattle.bfs_txn.specs.Faults.{AreLater};
ghost use Rattle.bfs_stream.specs.Sizes.{sizes_of};
ghost use Rattle.bfs_stream.specs.Told.{contents};
ghost use Rattle.bfs_stream_check.specs.Known.{IsAllTold};
ghost use Rattle.bfs_sound.specs.Whole.{volume_of};
ghost use Rattle.bfs_inode_walk.specs.Visited.{IsTrueOf, IsUntaken, IsVisitCause};
ghost use Rattle.bfs_owner.specs.Owned.{ArePlaced, AreInside, IsFound};

use crate::Place;
use bfs_inode_walk::{VisitFault, has_block};
use bfs_super::Super;
use bfs_txn::Blocks;
use std::alloc::Global;

/// Finds the first of some inodes that has a block. Each up to that one is read again, with its array blocks. It takes the memory of one inode.
pub fn find_owner<B: Blocks>(
    alloc: Global,
    under: &mut B,
    sup: &Super,
    places: &[Place],
    block: u64,
) -> Result<Option<Place>, VisitFault>
    requires valid { IsValid sup.now }
    requires inside { AreInside (natural sup.now.num_blocks) places.now }
    requires size { B.size under.old ≡ sup.now.block_size }
    requires all { (m : ℕ → Option (List ℕ)) → B.told under.old ≡ Some m → IsAllTold (sizes_of sup.now) m }
    ensures found { (m : ℕ → Option (List ℕ)) → B.told under.old ≡ Some m → IfOk result (IsFound (volume_of sup.now (contents m)) places.now block) }
    ensures wrong { (m : ℕ → Option (List ℕ)) → B.told under.old ≡ Some m → ArePlaced (volume_of sup.now (contents m)) places.now → IfErr result (IsTrueOf (volume_of sup.now (contents m))) }
    ensures untaken { IfErr result IsUntaken }
    ensures told { B.told under.new ≡ B.told under.old }
    ensures changed { B.changed under.new ≡ B.changed under.old }
    ensures pairs { B.pairs under.new ≡ B.pairs under.old }
    ensures size { B.size under.new ≡ B.size under.old }
    ensures frame { B.frame under.new ≡ B.frame under.old }
    ensures later { AreLater (B.counts under.old) (B.counts under.new) }
    ensures cause { IfErr result (IsVisitCause (B.counts under.old) (B.counts under.new)) }
{
    for i in 0..places.len() {
        let place: &Place = &places[i];
        let there = match has_block(alloc, under, sup, place.id, place.role, block) {
            Ok(there) => there,
            Err(fault) => return Err(fault),
        };
        if there {
            return Ok(Some(*place));
        }
    }
    Ok(None)
}
