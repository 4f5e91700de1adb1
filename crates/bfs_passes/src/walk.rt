// All nodes with their attributes, and all indices.
ghost use Rattle.std.specs.Prelude.{◌≡◌, ◌<◌, ℕ, List, length, Option, Some, IfOk, IfErr};
ghost use Rattle.bfs_super.specs.Conditions.{IsValid, natural, block_of_run};
ghost use Rattle.bfs_txn.specs.Faults.{AreLater};
ghost use Rattle.bfs_stream.specs.Sizes.{sizes_of};
ghost use Rattle.bfs_stream.specs.Told.{contents};
ghost use Rattle.bfs_stream_check.specs.Known.{IsAllTold};
ghost use Rattle.bfs_sound.specs.Whole.{volume_of};
ghost use Rattle.bfs_claims.specs.Claims.{AreClaimed};
ghost use Rattle.bfs_nodes_walk.specs.Facts.{AreFactsOf};
ghost use Rattle.bfs_nodes_walk.specs.Leads.{AreInside as AreLeadsInside};
ghost use Rattle.bfs_indices_check.specs.Passes.{IsWhole, IsWholeOf};
ghost use Rattle.bfs_indices_check.specs.Indices.{AreInside};
ghost use Rattle.bfs_indices_check.specs.Laws.{system_blocks};
ghost use Rattle.bfs_passes.specs.Passed.{IsFaultOf, IsPassCause, IsGoneRound};

use crate::PassFault;
use crate::fault::walked;
use crate::owners::shared_index;
use bfs_claims::Claims;
use bfs_indices_check::attrs_walk::visit_all;
use bfs_indices_check::index_walk::{FoundIndex, visit_indices};
use bfs_inode_walk::VisitFault;
use bfs_nodes_walk::{NodeFacts, NodeLead, WalkedNodes, walk_nodes};
use bfs_super::Super;
use bfs_txn::Blocks;
use std::alloc::Global;

/// What was gone over: the rows of all nodes but the root's, in the order of the walk, with what is kept of each node, and the indices.
#[derive(Drop)]
pub(crate) struct Round {
    pub(crate) leads: Vec<NodeLead>,
    pub(crate) facts: Vec<NodeFacts>,
    pub(crate) found: Vec<FoundIndex>,
}

/// The nodes with their attributes.
fn go_over_nodes<B: Blocks>(
    alloc: Global,
    under: &mut B,
    sup: &Super,
    root: u64,
    claims: &mut Claims,
) -> Result<WalkedNodes, PassFault>
    requires valid { IsValid sup.now }
    requires root { root ≡ block_of_run sup.now sup.now.root_dir }
    requires inside { root < natural sup.now.num_blocks }
    requires size { B.size under.old ≡ sup.now.block_size }
    requires all { (m : ℕ → Option (List ℕ)) → B.told under.old ≡ Some m → IsAllTold (sizes_of sup.now) m }
    requires blocks { claims.old.blocks ≡ natural sup.now.num_blocks }
    ensures whole { (m : ℕ → Option (List ℕ)) → B.told under.old ≡ Some m → AreClaimed claims.old (system_blocks (volume_of sup.now (contents m))) → IfOk result (λ all. IsWhole (volume_of sup.now (contents m)) (system_blocks (volume_of sup.now (contents m))) claims.new all.leads.items) }
    ensures wrong { (m : ℕ → Option (List ℕ)) → B.told under.old ≡ Some m → AreClaimed claims.old (system_blocks (volume_of sup.now (contents m))) → sup.now.log_start ≡ sup.now.log_end → IfErr result (IsFaultOf sup.now (volume_of sup.now (contents m))) }
    ensures some { (m : ℕ → Option (List ℕ)) → B.told under.old ≡ Some m → IfOk result (λ all. IsWholeOf (volume_of sup.now (contents m)) all.leads.items) }
    ensures inside { IfOk result (λ all. AreLeadsInside (natural sup.now.num_blocks) all.leads.items) }
    ensures many { IfOk result (λ all. length all.facts.items ≡ length all.leads.items) }
    ensures facts { (m : ℕ → Option (List ℕ)) → B.told under.old ≡ Some m → IfOk result (λ all. AreFactsOf (volume_of sup.now (contents m)) all.leads.items all.facts.items) }
    ensures blocks { claims.new.blocks ≡ claims.old.blocks }
    ensures told { B.told under.new ≡ B.told under.old }
    ensures changed { B.changed under.new ≡ B.changed under.old }
    ensures pairs { B.pairs under.new ≡ B.pairs under.old }
    ensures size { B.size under.new ≡ B.size under.old }
    ensures frame { B.frame under.new ≡ B.frame under.old }
    ensures later { AreLater (B.counts under.old) (B.counts under.new) }
    ensures cause { IfErr result (IsPassCause (B.counts under.old) (B.counts under.new)) }
{
    let _ = claims.count();
    let all = match walk_nodes(alloc, under, sup, root, claims) {
        Ok(all) => all,
        Err(fault) => return Err(walked(fault)),
    };
    match visit_all(alloc, under, sup, root, &all.leads, &all.facts, claims) {
        Ok(()) => Ok(all),
        Err(fault) => Err(walked(fault)),
    }
}

/// Goes over all nodes with their attributes, and all indices, where the blocks of the system are claimed, and no others.
pub(crate) fn go_round<B: Blocks>(
    alloc: Global,
    under: &mut B,
    sup: &Super,
    root: u64,
    claims: &mut Claims,
) -> Result<Round, PassFault>
    requires valid { IsValid sup.now }
    requires root { root ≡ block_of_run sup.now sup.now.root_dir }
    requires inside { root < natural sup.now.num_blocks }
    requires size { B.size under.old ≡ sup.now.block_size }
    requires all { (m : ℕ → Option (List ℕ)) → B.told under.old ≡ Some m → IsAllTold (sizes_of sup.now) m }
    requires blocks { claims.old.blocks ≡ natural sup.now.num_blocks }
    ensures gone { (m : ℕ → Option (List ℕ)) → B.told under.old ≡ Some m → AreClaimed claims.old (system_blocks (volume_of sup.now (contents m))) → IfOk result (λ r. IsGoneRound (volume_of sup.now (contents m)) claims.new r.leads.items r.found.items) }
    ensures wrong { (m : ℕ → Option (List ℕ)) → B.told under.old ≡ Some m → AreClaimed claims.old (system_blocks (volume_of sup.now (contents m))) → sup.now.log_start ≡ sup.now.log_end → IfErr result (IsFaultOf sup.now (volume_of sup.now (contents m))) }
    ensures leads { IfOk result (λ r. AreLeadsInside (natural sup.now.num_blocks) r.leads.items) }
    ensures many { IfOk result (λ r. length r.facts.items ≡ length r.leads.items) }
    ensures facts { (m : ℕ → Option (List ℕ)) → B.told under.old ≡ Some m → IfOk result (λ r. AreFactsOf (volume_of sup.now (contents m)) r.leads.items r.facts.items) }
    ensures inside { IfOk result (λ r. AreInside (natural sup.now.num_blocks) r.found.items) }
    ensures blocks { claims.new.blocks ≡ claims.old.blocks }
    ensures told { B.told under.new ≡ B.told under.old }
    ensures changed { B.changed under.new ≡ B.changed under.old }
    ensures pairs { B.pairs under.new ≡ B.pairs under.old }
    ensures size { B.size under.new ≡ B.size under.old }
    ensures frame { B.frame under.new ≡ B.frame under.old }
    ensures later { AreLater (B.counts under.old) (B.counts under.new) }
    ensures cause { IfErr result (IsPassCause (B.counts under.old) (B.counts under.new)) }
{
    let WalkedNodes { leads, facts } = match go_over_nodes(alloc, under, sup, root, claims) {
        Ok(all) => all,
        Err(fault) => return Err(fault),
    };
    match visit_indices(alloc, under, sup, claims) {
        Ok(found) => Ok(Round {
            leads,
            facts,
            found,
        }),
        Err(VisitFault::Taken { block, owner }) => {
            let rows: &[NodeLead] = &leads;
            Err(shared_index(alloc, under, sup, root, rows, block, owner))
        }
        Err(VisitFault::Wrong(finding)) => Err(PassFault::Wrong(finding)),
        Err(VisitFault::Block(fault)) => Err(PassFault::Block(fault)),
    }
}
