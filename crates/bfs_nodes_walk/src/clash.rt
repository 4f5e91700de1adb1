// Which node has a block that is taken.
ghost use Rattle.std.specs.Prelude.{◌≡◌, ◌<◌, ◌++◌, ℕ, List, Option, Some, IfOk, IfErr};
ghost use Rattle.bfs_super.specs.Conditions.{IsValid, natural};
ghost use Rattle.bfs_txn.specs.Faults.{AreLater, Counts};
ghost use Rattle.bfs_stream.specs.Sizes.{sizes_of};
ghost use Rattle.bfs_stream.specs.Told.{contents};
ghost use Rattle.bfs_stream_check.specs.Known.{IsAllTold};
ghost use Rattle.bfs_sound.specs.Whole.{volume_of};
ghost use Rattle.bfs_inode_walk.specs.Visited.{IsTrueOf, IsTakenFirst, IsUntaken, IsVisitCause};
ghost use Rattle.bfs_owner.specs.Owned.{ArePlaced, IsFound, blocks_of_places};
ghost use Rattle.bfs_nodes_walk.specs.Clashes.{IsApart};
ghost use Rattle.bfs_nodes_walk.specs.Leads.{AreInside, places_of_nodes};
ghost use Rattle.bfs_nodes_walk.specs.Walks.{IsNodeWay};

use crate::{NodeLead, node_places};
use bfs_finding::Finding;
use bfs_inode_walk::VisitFault;
use bfs_owner::{Place, find_owner};
use bfs_super::Super;
use bfs_txn::Blocks;
use std::alloc::Global;

/// Finds the first among the root and the nodes that rows name that has a block.
fn owner_among<B: Blocks>(
    alloc: Global,
    under: &mut B,
    sup: &Super,
    root: u64,
    leads: &[NodeLead],
    block: u64,
) -> Result<Option<Place>, VisitFault>
    requires valid { IsValid sup.now }
    requires root { root < natural sup.now.num_blocks }
    requires leads { AreInside (natural sup.now.num_blocks) leads.now }
    requires size { B.size under.old ≡ sup.now.block_size }
    requires all { (m : ℕ → Option (List ℕ)) → B.told under.old ≡ Some m → IsAllTold (sizes_of sup.now) m }
    ensures found { (m : ℕ → Option (List ℕ)) → B.told under.old ≡ Some m → IfOk result (IsFound (volume_of sup.now (contents m)) (places_of_nodes root leads.now) block) }
    ensures wrong { (m : ℕ → Option (List ℕ)) → B.told under.old ≡ Some m → ArePlaced (volume_of sup.now (contents m)) (places_of_nodes root leads.now) → IfErr result (IsTrueOf (volume_of sup.now (contents m))) }
    ensures untaken { IfErr result IsUntaken }
    ensures told { B.told under.new ≡ B.told under.old }
    ensures changed { B.changed under.new ≡ B.changed under.old }
    ensures pairs { B.pairs under.new ≡ B.pairs under.old }
    ensures size { B.size under.new ≡ B.size under.old }
    ensures frame { B.frame under.new ≡ B.frame under.old }
    ensures later { AreLater (B.counts under.old) (B.counts under.new) }
    ensures cause { IfErr result (IsVisitCause (B.counts under.old) (B.counts under.new)) }
{
    let places = match node_places(alloc, root, leads) {
        Ok(places) => places,
        Err(fault) => return Err(fault),
    };
    match find_owner(alloc, under, sup, &places, block) {
        Ok(found) => Ok(found),
        Err(fault) => Err(fault),
    }
}

/// What is answered where a node couldn't be gone over: where a block of it is taken, and the root or a node that these rows name has it, that it is
/// shared with the first of them that has it. What else is wrong stays.
pub(crate) fn refusal<B: Blocks>(
    alloc: Global,
    under: &mut B,
    sup: &Super,
    root: u64,
    leads: &[NodeLead],
    fault: VisitFault,
) -> VisitFault
    requires valid { IsValid sup.now }
    requires root { root < natural sup.now.num_blocks }
    requires leads { AreInside (natural sup.now.num_blocks) leads.now }
    requires size { B.size under.old ≡ sup.now.block_size }
    requires all { (m : ℕ → Option (List ℕ)) → B.told under.old ≡ Some m → IsAllTold (sizes_of sup.now) m }
    ensures wrong { (m : ℕ → Option (List ℕ)) → B.told under.old ≡ Some m → IsTrueOf (volume_of sup.now (contents m)) fault → IsApart (volume_of sup.now (contents m)) (places_of_nodes root leads.now) fault → IsTrueOf (volume_of sup.now (contents m)) result }
    ensures taken { (m : ℕ → Option (List ℕ)) (first : List ℕ) → B.told under.old ≡ Some m → IsTakenFirst IsNodeWay (volume_of sup.now (contents m)) (first ++ blocks_of_places (volume_of sup.now (contents m)) (places_of_nodes root leads.now)) fault → IsTakenFirst IsNodeWay (volume_of sup.now (contents m)) first result }
    ensures told { B.told under.new ≡ B.told under.old }
    ensures changed { B.changed under.new ≡ B.changed under.old }
    ensures pairs { B.pairs under.new ≡ B.pairs under.old }
    ensures size { B.size under.new ≡ B.size under.old }
    ensures frame { B.frame under.new ≡ B.frame under.old }
    ensures later { AreLater (B.counts under.old) (B.counts under.new) }
    ensures cause { (old : Counts) → AreLater old (B.counts under.old) → IsVisitCause old (B.counts under.old) fault → IsVisitCause old (B.counts under.new) result }
{
    let (block, owner) = match fault {
        VisitFault::Taken { block, owner } => (block, owner),
        other => return other,
    };
    match owner_among(alloc, under, sup, root, leads, block) {
        Ok(Some(place)) => VisitFault::Wrong(Finding::Shared {
            block,
            first: place.id,
            second: owner,
        }),
        Ok(None) => VisitFault::Taken { block, owner },
        Err(fault) => fault,
    }
}
