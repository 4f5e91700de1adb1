// The index directory with all indices.
ghost use Rattle.std.specs.Prelude.{◌≡◌, ◌≢◌, ◌<◌, ◌++◌, ℕ, List, Option, Some, IfOk, IfErr};
ghost use Rattle.bfs_super.specs.Conditions.{IsValid, natural, block_of_run};
ghost use Rattle.bfs_txn.specs.Faults.{AreLater};
ghost use Rattle.bfs_stream.specs.Sizes.{sizes_of};
ghost use Rattle.bfs_stream.specs.Told.{contents};
ghost use Rattle.bfs_stream_check.specs.Known.{IsAllTold};
ghost use Rattle.bfs_sound.specs.Whole.{volume_of};
ghost use Rattle.bfs_claims.specs.Claims.{AreClaimed};
ghost use Rattle.bfs_inode_walk.specs.Visited.{IsTrueOf, IsTakenFirst, IsVisitCause};
ghost use Rattle.bfs_index_walk.specs.Indices.{AreInside, AreWalked, IsIndexWay};

use crate::FoundIndex;
use crate::directory::visit_directory;
use crate::row::visit_rows;
use bfs_claims::Claims;
use bfs_inode_walk::VisitFault;
use bfs_super::Super;
use bfs_txn::Blocks;
use std::alloc::Global;

/// Goes over the index directory, which is at this block, and the indices that its rows name.
fn visit_there<B: Blocks>(
    alloc: Global,
    under: &mut B,
    sup: &Super,
    directory: u64,
    claims: &mut Claims,
) -> Result<Vec<FoundIndex>, VisitFault>
    requires valid { IsValid sup.now }
    requires there { directory ≡ block_of_run sup.now sup.now.indices }
    requires some { directory ≢ 0 }
    requires size { B.size under.old ≡ sup.now.block_size }
    requires all { (m : ℕ → Option (List ℕ)) → B.told under.old ≡ Some m → IsAllTold (sizes_of sup.now) m }
    requires blocks { claims.old.blocks ≡ natural sup.now.num_blocks }
    ensures walked { (m : ℕ → Option (List ℕ)) (xs : List ℕ) → B.told under.old ≡ Some m → AreClaimed claims.old xs → IfOk result (λ found. AreWalked (volume_of sup.now (contents m)) xs claims.new found.items) }
    ensures inside { IfOk result (λ found. AreInside (natural sup.now.num_blocks) found.items) }
    ensures wrong { (m : ℕ → Option (List ℕ)) (xs : List ℕ) → B.told under.old ≡ Some m → AreClaimed claims.old xs → IfErr result (IsTrueOf (volume_of sup.now (contents m))) }
    ensures taken { (m : ℕ → Option (List ℕ)) (xs : List ℕ) → B.told under.old ≡ Some m → AreClaimed claims.old xs → IfErr result (IsTakenFirst IsIndexWay (volume_of sup.now (contents m)) xs) }
    ensures blocks { claims.new.blocks ≡ claims.old.blocks }
    ensures told { B.told under.new ≡ B.told under.old }
    ensures changed { B.changed under.new ≡ B.changed under.old }
    ensures pairs { B.pairs under.new ≡ B.pairs under.old }
    ensures size { B.size under.new ≡ B.size under.old }
    ensures frame { B.frame under.new ≡ B.frame under.old }
    ensures later { AreLater (B.counts under.old) (B.counts under.new) }
    ensures cause { IfErr result (IsVisitCause (B.counts under.old) (B.counts under.new)) }
{
    let rows = match visit_directory(alloc, under, sup, directory, claims) {
        Ok(rows) => rows,
        Err(fault) => return Err(fault),
    };
    match visit_rows(alloc, under, sup, directory, &rows, claims) {
        Ok(found) => Ok(found),
        Err(fault) => Err(fault),
    }
}

/// Goes over the index directory of a volume, where it has one, and over the indices that its rows name: the inode of each with its stream,
/// and its whole tree. Their blocks are claimed. Answers the indices in the order of their names; or what is wrong, such as a block that two of
/// them have, or one that the directory has too; or a block of them that was claimed at first. An index that two rows name shares its block with
/// itself. It takes the memory of the rows, and beside that of one index with all its keys, or of as many places as there are rows. What an index
/// has to list isn't looked at.
pub fn visit_indices<B: Blocks>(
    alloc: Global,
    under: &mut B,
    sup: &Super,
    claims: &mut Claims,
) -> Result<Vec<FoundIndex>, VisitFault>
    requires valid { IsValid sup.now }
    requires size { B.size under.old ≡ sup.now.block_size }
    requires all { (m : ℕ → Option (List ℕ)) → B.told under.old ≡ Some m → IsAllTold (sizes_of sup.now) m }
    requires blocks { claims.old.blocks ≡ natural sup.now.num_blocks }
    ensures walked { (m : ℕ → Option (List ℕ)) (xs : List ℕ) → B.told under.old ≡ Some m → AreClaimed claims.old xs → IfOk result (λ found. AreWalked (volume_of sup.now (contents m)) xs claims.new found.items) }
    ensures inside { IfOk result (λ found. AreInside (natural sup.now.num_blocks) found.items) }
    ensures wrong { (m : ℕ → Option (List ℕ)) → B.told under.old ≡ Some m → IfErr result (IsTrueOf (volume_of sup.now (contents m))) }
    ensures taken { (m : ℕ → Option (List ℕ)) (xs : List ℕ) → B.told under.old ≡ Some m → AreClaimed claims.old xs → IfErr result (IsTakenFirst IsIndexWay (volume_of sup.now (contents m)) xs) }
    ensures blocks { claims.new.blocks ≡ claims.old.blocks }
    ensures told { B.told under.new ≡ B.told under.old }
    ensures changed { B.changed under.new ≡ B.changed under.old }
    ensures pairs { B.pairs under.new ≡ B.pairs under.old }
    ensures size { B.size under.new ≡ B.size under.old }
    ensures frame { B.frame under.new ≡ B.frame under.old }
    ensures later { AreLater (B.counts under.old) (B.counts under.new) }
    ensures cause { IfErr result (IsVisitCause (B.counts under.old) (B.counts under.new)) }
{
    let directory = sup.geometry().indices;
    if directory == 0 {
        return Ok(Vec::new(alloc));
    }
    let _ = claims.count();
    visit_there(alloc, under, sup, directory, claims)
}
