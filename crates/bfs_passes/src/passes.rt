// The passes, one after the other.
ghost use Rattle.std.specs.Prelude.{◌≡◌, ℕ, List, Option, Some, IfOk, IfErr};
ghost use Rattle.bfs_super.specs.Conditions.{IsValid};
ghost use Rattle.bfs_txn.specs.Faults.{AreLater};
ghost use Rattle.bfs_stream.specs.Sizes.{sizes_of};
ghost use Rattle.bfs_stream.specs.Told.{contents};
ghost use Rattle.bfs_stream_check.specs.Known.{IsAllTold};
ghost use Rattle.bfs_sound.specs.Whole.{volume_of};
ghost use Rattle.bfs_passes.specs.Passed.{IsFaultOf, IsPassCause, IsPassed};

use crate::PassFault;
use crate::holding::hold;
use crate::system::claim_system;
use crate::walk::go_round;
use bfs_super::Super;
use bfs_super_check::check_log;
use bfs_txn::Blocks;
use std::alloc::Global;

/// How many nodes a volume has, and how many blocks are in use.
#[derive(Clone, Copy, Debug, PartialEq, Eq)]
pub struct Summary {
    pub nodes: u64,
    pub used: u64,
}

/// Passes a volume whose superblock is valid: its log is empty, and it is sound with a tree. Else what is wrong is told, or a block that is
/// shared, or one that is reached and not marked. Nothing is written, and no file's data is read. It takes one bit for each block, the names of
/// all nodes, the size and the stamp of each file, and the pairs that one index has to list.
pub fn check_passes<B: Blocks>(
    alloc: Global,
    under: &mut B,
    sup: &Super,
) -> Result<Summary, PassFault>
    requires valid { IsValid sup.now }
    requires size { B.size under.old ≡ sup.now.block_size }
    requires all { (m : ℕ → Option (List ℕ)) → B.told under.old ≡ Some m → IsAllTold (sizes_of sup.now) m }
    ensures passed { (m : ℕ → Option (List ℕ)) → B.told under.old ≡ Some m → IfOk result (IsPassed sup.now (volume_of sup.now (contents m))) }
    ensures wrong { (m : ℕ → Option (List ℕ)) → B.told under.old ≡ Some m → IfErr result (IsFaultOf sup.now (volume_of sup.now (contents m))) }
    ensures told { B.told under.new ≡ B.told under.old }
    ensures changed { B.changed under.new ≡ B.changed under.old }
    ensures pairs { B.pairs under.new ≡ B.pairs under.old }
    ensures size { B.size under.new ≡ B.size under.old }
    ensures frame { B.frame under.new ≡ B.frame under.old }
    ensures later { AreLater (B.counts under.old) (B.counts under.new) }
    ensures cause { IfErr result (IsPassCause (B.counts under.old) (B.counts under.new)) }
{
    match check_log(sup) {
        Ok(()) => {}
        Err(finding) => return Err(PassFault::Wrong(finding)),
    }
    let mut claims = match claim_system(alloc, sup) {
        Ok(claims) => claims,
        Err(fault) => return Err(fault),
    };
    let root = sup.block_of(sup.root_dir);
    let round = match go_round(alloc, under, sup, root, &mut claims) {
        Ok(round) => round,
        Err(fault) => return Err(fault),
    };
    match hold(alloc, under, sup, root, &round, &claims) {
        Ok(summary) => Ok(summary),
        Err(fault) => Err(fault),
    }
}
