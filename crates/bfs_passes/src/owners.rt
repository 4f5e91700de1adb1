// The second look: whose a block is that two inodes have, or that isn't marked.
ghost use Rattle.std.specs.Prelude.{◌≡◌, ◌<◌, ◌∷◌, ◌++◌, ℕ, List, Option, Some, IfOk, IfErr};
ghost use Rattle.std.specs.List.{flat_map};
ghost use Rattle.bfs_base.specs.Lists.{Has};
ghost use Rattle.bfs_super.specs.Conditions.{IsValid, natural, block_of_run};
ghost use Rattle.bfs_txn.specs.Faults.{AreLater};
ghost use Rattle.bfs_stream.specs.Sizes.{sizes_of};
ghost use Rattle.bfs_stream.specs.Told.{contents};
ghost use Rattle.bfs_stream_check.specs.Known.{IsAllTold};
ghost use Rattle.bfs_tree.specs.Trees.{Tree};
ghost use Rattle.bfs_sound.specs.Owners.{node_blocks};
ghost use Rattle.bfs_sound.specs.Volumes.{IsMarked};
ghost use Rattle.bfs_sound.specs.Whole.{volume_of, HasSoundIndices};
ghost use Rattle.bfs_finding.specs.Findings.{Standing};
ghost use Rattle.bfs_finding.specs.Ways.{IsOwned};
ghost use Rattle.bfs_claims.specs.Claims as claims;
ghost use Rattle.bfs_inode_walk.specs.Visited.{IsTrueOf, IsUntaken, IsClaimedFirst, IsVisitCause};
ghost use Rattle.bfs_nodes_walk.specs.Leads.{AreInside as AreLeadsInside};
ghost use Rattle.bfs_tour.specs.Tours.{claimed};
ghost use Rattle.bfs_indices_check.specs.Passes.{IsWhole, IsWholeOf};
ghost use Rattle.bfs_indices_check.specs.Indices.{AreInside, IsIndexWay};
ghost use Rattle.bfs_indices_check.specs.Laws.{system_blocks};
ghost use Rattle.bfs_passes.specs.Passed.{IsFaultOf, IsPassCause, IsGoneRound};

use crate::PassFault;
use crate::fault::{shared, walked};
use bfs_finding::Finding;
use bfs_indices_check::attrs_walk::find_owner_in;
use bfs_indices_check::index_walk::{FoundIndex, find_index_owner};
use bfs_inode_walk::VisitFault;
use bfs_nodes_walk::NodeLead;
use bfs_super::Super;
use bfs_txn::Blocks;
use std::alloc::Global;

/// A block of the index directory or of an index that was claimed before is one of a node or an attribute, or else of the system.
pub(crate) fn shared_index<B: Blocks>(
    alloc: Global,
    under: &mut B,
    sup: &Super,
    root: u64,
    leads: &[NodeLead],
    block: u64,
    owner: u64,
) -> PassFault
    requires valid { IsValid sup.now }
    requires root { root ≡ block_of_run sup.now sup.now.root_dir }
    requires inside { root < natural sup.now.num_blocks }
    requires size { B.size under.old ≡ sup.now.block_size }
    requires all { (m : ℕ → Option (List ℕ)) → B.told under.old ≡ Some m → IsAllTold (sizes_of sup.now) m }
    requires leads { AreLeadsInside (natural sup.now.num_blocks) leads.now }
    requires whole { (m : ℕ → Option (List ℕ)) → B.told under.old ≡ Some m → IsWholeOf (volume_of sup.now (contents m)) leads.now }
    ensures wrong { (m : ℕ → Option (List ℕ)) (nodes : claims.Claimed) → B.told under.old ≡ Some m → sup.now.log_start ≡ sup.now.log_end → (w : IsWhole (volume_of sup.now (contents m)) (system_blocks (volume_of sup.now (contents m))) nodes leads.now)
        → IsClaimedFirst IsIndexWay (volume_of sup.now (contents m)) (system_blocks (volume_of sup.now (contents m)) ++ flat_map (node_blocks (volume_of sup.now (contents m))) (w.top ∷ w.visits)) block owner → IsFaultOf sup.now (volume_of sup.now (contents m)) result }
    ensures told { B.told under.new ≡ B.told under.old }
    ensures changed { B.changed under.new ≡ B.changed under.old }
    ensures pairs { B.pairs under.new ≡ B.pairs under.old }
    ensures size { B.size under.new ≡ B.size under.old }
    ensures frame { B.frame under.new ≡ B.frame under.old }
    ensures later { AreLater (B.counts under.old) (B.counts under.new) }
    ensures cause { IsPassCause (B.counts under.old) (B.counts under.new) result }
{
    match find_owner_in(alloc, under, sup, root, leads, block) {
        Ok(Some(first)) => PassFault::Wrong(shared(block, first, owner)),
        Ok(None) => PassFault::Wrong(shared(block, 0, owner)),
        Err(fault) => walked(fault),
    }
}

/// The owner of a block that is reached: a node or an attribute, an index or the index directory, or else the system, which is 0.
fn owner_of<B: Blocks>(
    alloc: Global,
    under: &mut B,
    sup: &Super,
    root: u64,
    leads: &[NodeLead],
    found: &[FoundIndex],
    block: u64,
) -> Result<u64, VisitFault>
    requires valid { IsValid sup.now }
    requires root { root ≡ block_of_run sup.now sup.now.root_dir }
    requires inside { root < natural sup.now.num_blocks }
    requires size { B.size under.old ≡ sup.now.block_size }
    requires all { (m : ℕ → Option (List ℕ)) → B.told under.old ≡ Some m → IsAllTold (sizes_of sup.now) m }
    requires leads { AreLeadsInside (natural sup.now.num_blocks) leads.now }
    requires whole { (m : ℕ → Option (List ℕ)) → B.told under.old ≡ Some m → IsWholeOf (volume_of sup.now (contents m)) leads.now }
    requires found { AreInside (natural sup.now.num_blocks) found.now }
    ensures owned { (m : ℕ → Option (List ℕ)) (all : claims.Claimed) → B.told under.old ≡ Some m → (gone : IsGoneRound (volume_of sup.now (contents m)) all leads.now found.now)
        → Has (claimed (volume_of sup.now (contents m)) (gone.whole.top ∷ gone.whole.visits)) block → IfOk result (λ owner. IsOwned (volume_of sup.now (contents m)) owner block) }
    ensures wrong { (m : ℕ → Option (List ℕ)) (all : claims.Claimed) → B.told under.old ≡ Some m → IsGoneRound (volume_of sup.now (contents m)) all leads.now found.now → IfErr result (IsTrueOf (volume_of sup.now (contents m))) }
    ensures untaken { IfErr result IsUntaken }
    ensures told { B.told under.new ≡ B.told under.old }
    ensures changed { B.changed under.new ≡ B.changed under.old }
    ensures pairs { B.pairs under.new ≡ B.pairs under.old }
    ensures size { B.size under.new ≡ B.size under.old }
    ensures frame { B.frame under.new ≡ B.frame under.old }
    ensures later { AreLater (B.counts under.old) (B.counts under.new) }
    ensures cause { IfErr result (IsVisitCause (B.counts under.old) (B.counts under.new)) }
{
    match find_owner_in(alloc, under, sup, root, leads, block) {
        Ok(Some(owner)) => return Ok(owner),
        Ok(None) => {}
        Err(fault) => return Err(fault),
    }
    match find_index_owner(alloc, under, sup, found, block) {
        Ok(Some(owner)) => Ok(owner),
        Ok(None) => Ok(0),
        Err(fault) => Err(fault),
    }
}

/// A block that is reached isn't marked.
pub(crate) fn unmarked<B: Blocks>(
    alloc: Global,
    under: &mut B,
    sup: &Super,
    root: u64,
    leads: &[NodeLead],
    found: &[FoundIndex],
    block: u64,
) -> PassFault
    requires valid { IsValid sup.now }
    requires root { root ≡ block_of_run sup.now sup.now.root_dir }
    requires inside { root < natural sup.now.num_blocks }
    requires size { B.size under.old ≡ sup.now.block_size }
    requires all { (m : ℕ → Option (List ℕ)) → B.told under.old ≡ Some m → IsAllTold (sizes_of sup.now) m }
    requires leads { AreLeadsInside (natural sup.now.num_blocks) leads.now }
    requires whole { (m : ℕ → Option (List ℕ)) → B.told under.old ≡ Some m → IsWholeOf (volume_of sup.now (contents m)) leads.now }
    requires found { AreInside (natural sup.now.num_blocks) found.now }
    ensures wrong { (m : ℕ → Option (List ℕ)) (all : claims.Claimed) (tree : Tree) → B.told under.old ≡ Some m → sup.now.log_start ≡ sup.now.log_end → (gone : IsGoneRound (volume_of sup.now (contents m)) all leads.now found.now)
        → Has (claimed (volume_of sup.now (contents m)) (gone.whole.top ∷ gone.whole.visits)) block → ¬ IsMarked (volume_of sup.now (contents m)) block → Standing (volume_of sup.now (contents m)) tree → HasSoundIndices (volume_of sup.now (contents m)) tree
        → IsFaultOf sup.now (volume_of sup.now (contents m)) result }
    ensures told { B.told under.new ≡ B.told under.old }
    ensures changed { B.changed under.new ≡ B.changed under.old }
    ensures pairs { B.pairs under.new ≡ B.pairs under.old }
    ensures size { B.size under.new ≡ B.size under.old }
    ensures frame { B.frame under.new ≡ B.frame under.old }
    ensures later { AreLater (B.counts under.old) (B.counts under.new) }
    ensures cause { IsPassCause (B.counts under.old) (B.counts under.new) result }
{
    match owner_of(alloc, under, sup, root, leads, found, block) {
        Ok(owner) => PassFault::Wrong(Finding::BitUnset { block, owner }),
        Err(fault) => walked(fault),
    }
}
