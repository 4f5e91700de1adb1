// A second look at an inode: whether it has a block.
ghost use Rattle.std.specs.Prelude.{◌≡◌, ◌<◌, ℕ, List, Option, Some, IfOk, IfErr};
ghost use Rattle.bfs_super.specs.Conditions.{IsValid, natural};
ghost use Rattle.bfs_txn.specs.Faults.{AreLater};
ghost use Rattle.bfs_stream.specs.Sizes.{sizes_of};
ghost use Rattle.bfs_stream.specs.Told.{contents};
ghost use Rattle.bfs_stream_check.specs.Known.{IsAllTold};
ghost use Rattle.bfs_sound.specs.Whole.{volume_of};
ghost use Rattle.bfs_finding.specs.Ways.{Way, Arrives};
ghost use Rattle.bfs_node_check.specs.Roles.{role_of};
ghost use Rattle.bfs_inode_walk.specs.Visited.{role_blocks, IsHad, IsTrueOf, IsUntaken, IsVisitCause};

use crate::VisitFault;
use crate::block::{has_no_stream, look_at_inode};
use crate::runs::count_in;
use crate::stream::look_at_stream;
use bfs_node_check::Role;
use bfs_super::Super;
use bfs_txn::Blocks;
use std::alloc::Global;

/// Whether the inode at a block, which has this place, has a block: its own, one of its array blocks, or one of its stream. Nothing is claimed.
pub fn has_block<B: Blocks>(
    alloc: Global,
    under: &mut B,
    sup: &Super,
    id: u64,
    role: Role,
    block: u64,
) -> Result<bool, VisitFault>
    requires valid { IsValid sup.now }
    requires inside { id < natural sup.now.num_blocks }
    requires size { B.size under.old ≡ sup.now.block_size }
    requires all { (m : ℕ → Option (List ℕ)) → B.told under.old ≡ Some m → IsAllTold (sizes_of sup.now) m }
    ensures had { (m : ℕ → Option (List ℕ)) → B.told under.old ≡ Some m → IfOk result (IsHad (role_blocks (volume_of sup.now (contents m)) role id) block) }
    ensures wrong { (m : ℕ → Option (List ℕ)) (way : Way) → B.told under.old ≡ Some m → role_of way ≡ Some role → Arrives (volume_of sup.now (contents m)) way id → IfErr result (IsTrueOf (volume_of sup.now (contents m))) }
    ensures untaken { IfErr result IsUntaken }
    ensures told { B.told under.new ≡ B.told under.old }
    ensures changed { B.changed under.new ≡ B.changed under.old }
    ensures pairs { B.pairs under.new ≡ B.pairs under.old }
    ensures size { B.size under.new ≡ B.size under.old }
    ensures frame { B.frame under.new ≡ B.frame under.old }
    ensures later { AreLater (B.counts under.old) (B.counts under.new) }
    ensures cause { IfErr result (IsVisitCause (B.counts under.old) (B.counts under.new)) }
{
    let bytes = match look_at_inode(alloc, under, *sup, id, role) {
        Ok(bytes) => bytes,
        Err(fault) => return Err(fault),
    };
    if block == id {
        return Ok(true);
    }
    let alone = has_no_stream(&bytes, role);
    if alone {
        return Ok(false);
    }
    let found = match look_at_stream(alloc, under, sup, id) {
        Ok(found) => found,
        Err(fault) => return Err(fault),
    };
    let in_arrays = count_in(*sup, &found.arrays, block);
    let in_runs = count_in(*sup, &found.runs, block);
    Ok(in_arrays.min(1) + in_runs.min(1) > 0)
}
