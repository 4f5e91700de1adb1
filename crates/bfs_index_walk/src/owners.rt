// Which of the index directory and the indices has a block.
ghost use Rattle.std.specs.Prelude.{◌≡◌, ℕ, List, Option, Some, IfOk, IfErr};
ghost use Rattle.bfs_super.specs.Conditions.{IsValid, natural};
ghost use Rattle.bfs_txn.specs.Faults.{AreLater};
ghost use Rattle.bfs_stream.specs.Sizes.{sizes_of};
ghost use Rattle.bfs_stream.specs.Told.{contents};
ghost use Rattle.bfs_stream_check.specs.Known.{IsAllTold};
ghost use Rattle.bfs_sound.specs.Whole.{volume_of};
ghost use Rattle.bfs_claims.specs.Claims.{Claimed};
ghost use Rattle.bfs_inode_walk.specs.Visited.{IsTrueOf, IsUntaken, IsVisitCause};
ghost use Rattle.bfs_index_walk.specs.Indices.{AreInside, AreWalked, IsIndexOwner};

use crate::FoundIndex;
use crate::places::index_places;
use bfs_inode_walk::VisitFault;
use bfs_owner::find_owner;
use bfs_super::Super;
use bfs_txn::Blocks;
use std::alloc::Global;

/// Finds the first among the index directory, where the volume has one, and the indices that were found that has a block, and answers the number of
/// its inode. Each up to that one is read again, with its array blocks. It takes the memory of one inode and of as many places as there are indices.
pub fn find_index_owner<B: Blocks>(
    alloc: Global,
    under: &mut B,
    sup: &Super,
    found: &[FoundIndex],
    block: u64,
) -> Result<Option<u64>, VisitFault>
    requires valid { IsValid sup.now }
    requires inside { AreInside (natural sup.now.num_blocks) found.now }
    requires size { B.size under.old ≡ sup.now.block_size }
    requires all { (m : ℕ → Option (List ℕ)) → B.told under.old ≡ Some m → IsAllTold (sizes_of sup.now) m }
    ensures owner { (m : ℕ → Option (List ℕ)) (first : List ℕ) (claims : Claimed) → B.told under.old ≡ Some m → AreWalked (volume_of sup.now (contents m)) first claims found.now → IfOk result (IsIndexOwner (volume_of sup.now (contents m)) block) }
    ensures wrong { (m : ℕ → Option (List ℕ)) (first : List ℕ) (claims : Claimed) → B.told under.old ≡ Some m → AreWalked (volume_of sup.now (contents m)) first claims found.now → IfErr result (IsTrueOf (volume_of sup.now (contents m))) }
    ensures untaken { IfErr result IsUntaken }
    ensures told { B.told under.new ≡ B.told under.old }
    ensures changed { B.changed under.new ≡ B.changed under.old }
    ensures pairs { B.pairs under.new ≡ B.pairs under.old }
    ensures size { B.size under.new ≡ B.size under.old }
    ensures frame { B.frame under.new ≡ B.frame under.old }
    ensures later { AreLater (B.counts under.old) (B.counts under.new) }
    ensures cause { IfErr result (IsVisitCause (B.counts under.old) (B.counts under.new)) }
{
    let directory = sup.geometry().indices;
    if directory == 0 {
        return Ok(None);
    }
    let places = match index_places(alloc, directory, found) {
        Ok(places) => places,
        Err(fault) => return Err(fault),
    };
    let owner = match find_owner(alloc, under, sup, &places, block) {
        Ok(owner) => owner,
        Err(fault) => return Err(fault),
    };
    match owner {
        Some(place) => Ok(Some(place.id)),
        None => Ok(None),
    }
}
