// What was gone over, held against the rules that are left: what the indices list, the bitmap, and the number of used blocks.
ghost use Rattle.std.specs.Prelude.{◌≡◌, ◌≢◌, ◌<◌, ℕ, List, [], length, true, false, Option, Some, OnOk, IfOk, IfErr};
ghost use Rattle.bfs_super.specs.Conditions.{IsValid, natural, block_of_run};
ghost use Rattle.bfs_super.specs.declared.sup.Super.{Super as Fields};
ghost use Rattle.bfs_txn.specs.Faults.{AreLater, Counts};
ghost use Rattle.bfs_stream.specs.Sizes.{sizes_of};
ghost use Rattle.bfs_stream.specs.Told.{contents};
ghost use Rattle.bfs_stream_check.specs.Known.{IsAllTold};
ghost use Rattle.bfs_sound.specs.Volumes.{Volume};
ghost use Rattle.bfs_sound.specs.Whole.{volume_of};
ghost use Rattle.bfs_nodes_walk.specs.Facts.{AreFactsOf};
ghost use Rattle.bfs_nodes_walk.specs.Leads.{AreInside as AreLeadsInside};
ghost use Rattle.bfs_nodes_walk.specs.declared.lead.NodeLead.{NodeLead as Lead};
ghost use Rattle.bfs_indices_check.specs.Indices.{AreInside};
ghost use Rattle.bfs_indices_check.specs.FoundIndex.{FoundIndex as Index};
ghost use Rattle.bfs_passes.specs.Passed.{IsFaultOf, IsPassCause, IsGoneRound, IsListedRound, IsSoundRound, IsPassed};

use crate::PassFault;
use crate::fault::listed;
use crate::owners::unmarked;
use crate::passes::Summary;
use crate::walk::Round;
use bfs_bitmap_check::{BitFault, check_bitmap};
use bfs_claims::Claims;
use bfs_finding::Finding;
use bfs_indices_check::check_indices;
use bfs_indices_check::index_walk::{FoundIndex, walk_is_tour, walk_stands};
use bfs_nodes_walk::{NodeFacts, NodeLead};
use bfs_super::Super;
use bfs_super_check::check_used;
use bfs_tour::{round_ends, round_is_unbroken, tour_reaches};
use bfs_tree::{BY_NAME, Bytes};
use bfs_txn::{BlockFault, Blocks};
use std::alloc::Global;

/// Is there an index directory?
fn has_indices(sup: &Super) -> bool
    requires { IsValid sup.now }
    ensures some { result ≡ true → block_of_run sup.now sup.now.indices ≢ 0 }
    ensures none { result ≡ false → block_of_run sup.now sup.now.indices ≡ 0 }
{
    sup.block_of(sup.indices) != 0
}

/// The index directory has no row: the built-in indices are missing.
fn rowless(alloc: Global, claims: &Claims) -> PassFault
    ensures told { (s : Fields) (v : Volume) (leads : List Lead) → s.log_start ≡ s.log_end → claims.now.blocks ≡ v.geometry.blocks → v.geometry.indices ≢ 0 → IsGoneRound v claims.now leads [] → IsFaultOf s v result }
    ensures cause { (old new : Counts) → IsPassCause old new result }
{
    round_ends();
    round_is_unbroken();
    let _ = claims.blocks();
    match Bytes::from_slice(alloc, BY_NAME) {
        Ok(name) => PassFault::Wrong(Finding::IndexMissing { name }),
        Err(_) => PassFault::Block(BlockFault::NoMemory),
    }
}

/// Holds the indices against the nodes.
fn hold_indices<B: Blocks>(
    alloc: Global,
    under: &mut B,
    sup: &Super,
    root: u64,
    leads: &[NodeLead],
    facts: &[NodeFacts],
    found: &[FoundIndex],
    claims: &Claims,
) -> Result<(), PassFault>
    requires valid { IsValid sup.now }
    requires root { root ≡ block_of_run sup.now sup.now.root_dir }
    requires inside { root < natural sup.now.num_blocks }
    requires size { B.size under.old ≡ sup.now.block_size }
    requires all { (m : ℕ → Option (List ℕ)) → B.told under.old ≡ Some m → IsAllTold (sizes_of sup.now) m }
    requires blocks { claims.now.blocks ≡ natural sup.now.num_blocks }
    requires leads { AreLeadsInside (natural sup.now.num_blocks) leads.now }
    requires many { length facts.now ≡ length leads.now }
    requires facts { (m : ℕ → Option (List ℕ)) → B.told under.old ≡ Some m → AreFactsOf (volume_of sup.now (contents m)) leads.now facts.now }
    requires found { AreInside (natural sup.now.num_blocks) found.now }
    requires gone { (m : ℕ → Option (List ℕ)) → B.told under.old ≡ Some m → IsGoneRound (volume_of sup.now (contents m)) claims.now leads.now found.now }
    ensures listed { (m : ℕ → Option (List ℕ)) → B.told under.old ≡ Some m → OnOk result (IsListedRound (volume_of sup.now (contents m)) claims.now leads.now found.now) }
    ensures wrong { (m : ℕ → Option (List ℕ)) → B.told under.old ≡ Some m → sup.now.log_start ≡ sup.now.log_end → IfErr result (IsFaultOf sup.now (volume_of sup.now (contents m))) }
    ensures told { B.told under.new ≡ B.told under.old }
    ensures changed { B.changed under.new ≡ B.changed under.old }
    ensures pairs { B.pairs under.new ≡ B.pairs under.old }
    ensures size { B.size under.new ≡ B.size under.old }
    ensures frame { B.frame under.new ≡ B.frame under.old }
    ensures later { AreLater (B.counts under.old) (B.counts under.new) }
    ensures cause { IfErr result (IsPassCause (B.counts under.old) (B.counts under.new)) }
{
    if found.is_empty() && has_indices(sup) {
        return Err(rowless(alloc, claims));
    }
    let _ = claims.blocks();
    walk_stands(claims);
    match check_indices(alloc, under, sup, root, leads, facts, found) {
        Ok(()) => Ok(()),
        Err(fault) => Err(listed(fault)),
    }
}

/// Holds the bitmap and the count of used blocks against what is claimed.
fn hold_bits<B: Blocks>(
    alloc: Global,
    under: &mut B,
    sup: &Super,
    root: u64,
    leads: &[NodeLead],
    found: &[FoundIndex],
    claims: &Claims,
) -> Result<(), PassFault>
    requires valid { IsValid sup.now }
    requires root { root ≡ block_of_run sup.now sup.now.root_dir }
    requires inside { root < natural sup.now.num_blocks }
    requires size { B.size under.old ≡ sup.now.block_size }
    requires all { (m : ℕ → Option (List ℕ)) → B.told under.old ≡ Some m → IsAllTold (sizes_of sup.now) m }
    requires blocks { claims.now.blocks ≡ natural sup.now.num_blocks }
    requires leads { AreLeadsInside (natural sup.now.num_blocks) leads.now }
    requires found { AreInside (natural sup.now.num_blocks) found.now }
    requires listed { (m : ℕ → Option (List ℕ)) → B.told under.old ≡ Some m → IsListedRound (volume_of sup.now (contents m)) claims.now leads.now found.now }
    ensures sound { (m : ℕ → Option (List ℕ)) → B.told under.old ≡ Some m → sup.now.log_start ≡ sup.now.log_end → OnOk result (IsSoundRound (volume_of sup.now (contents m)) claims.now leads.now found.now) }
    ensures wrong { (m : ℕ → Option (List ℕ)) → B.told under.old ≡ Some m → sup.now.log_start ≡ sup.now.log_end → IfErr result (IsFaultOf sup.now (volume_of sup.now (contents m))) }
    ensures told { B.told under.new ≡ B.told under.old }
    ensures changed { B.changed under.new ≡ B.changed under.old }
    ensures pairs { B.pairs under.new ≡ B.pairs under.old }
    ensures size { B.size under.new ≡ B.size under.old }
    ensures frame { B.frame under.new ≡ B.frame under.old }
    ensures later { AreLater (B.counts under.old) (B.counts under.new) }
    ensures cause { IfErr result (IsPassCause (B.counts under.old) (B.counts under.new)) }
{
    walk_is_tour();
    tour_reaches();
    match check_bitmap(alloc, under, sup, claims) {
        Ok(()) => {}
        Err(BitFault::Unset { block }) => {
            return Err(unmarked(alloc, under, sup, root, leads, found, block));
        }
        Err(BitFault::Extra { block }) => {
            return Err(PassFault::Wrong(Finding::BitExtra { block }));
        }
        Err(BitFault::Block(fault)) => return Err(PassFault::Block(fault)),
    }
    match check_used(sup, claims.count()) {
        Ok(()) => Ok(()),
        Err(finding) => Err(PassFault::Wrong(finding)),
    }
}

/// Holds what was gone over against the rules that are left, and tells how many nodes there are and how many blocks they reach.
pub(crate) fn hold<B: Blocks>(
    alloc: Global,
    under: &mut B,
    sup: &Super,
    root: u64,
    round: &Round,
    claims: &Claims,
) -> Result<Summary, PassFault>
    requires valid { IsValid sup.now }
    requires root { root ≡ block_of_run sup.now sup.now.root_dir }
    requires inside { root < natural sup.now.num_blocks }
    requires size { B.size under.old ≡ sup.now.block_size }
    requires all { (m : ℕ → Option (List ℕ)) → B.told under.old ≡ Some m → IsAllTold (sizes_of sup.now) m }
    requires blocks { claims.now.blocks ≡ natural sup.now.num_blocks }
    requires leads { AreLeadsInside (natural sup.now.num_blocks) round.now.leads.items }
    requires many { length round.now.facts.items ≡ length round.now.leads.items }
    requires facts { (m : ℕ → Option (List ℕ)) → B.told under.old ≡ Some m → AreFactsOf (volume_of sup.now (contents m)) round.now.leads.items round.now.facts.items }
    requires found { AreInside (natural sup.now.num_blocks) round.now.found.items }
    requires gone { (m : ℕ → Option (List ℕ)) → B.told under.old ≡ Some m → IsGoneRound (volume_of sup.now (contents m)) claims.now round.now.leads.items round.now.found.items }
    ensures passed { (m : ℕ → Option (List ℕ)) → B.told under.old ≡ Some m → sup.now.log_start ≡ sup.now.log_end → IfOk result (IsPassed sup.now (volume_of sup.now (contents m))) }
    ensures wrong { (m : ℕ → Option (List ℕ)) → B.told under.old ≡ Some m → sup.now.log_start ≡ sup.now.log_end → IfErr result (IsFaultOf sup.now (volume_of sup.now (contents m))) }
    ensures told { B.told under.new ≡ B.told under.old }
    ensures changed { B.changed under.new ≡ B.changed under.old }
    ensures pairs { B.pairs under.new ≡ B.pairs under.old }
    ensures size { B.size under.new ≡ B.size under.old }
    ensures frame { B.frame under.new ≡ B.frame under.old }
    ensures later { AreLater (B.counts under.old) (B.counts under.new) }
    ensures cause { IfErr result (IsPassCause (B.counts under.old) (B.counts under.new)) }
{
    let leads: &[NodeLead] = &round.leads;
    let facts: &[NodeFacts] = &round.facts;
    let found: &[FoundIndex] = &round.found;
    match hold_indices(alloc, under, sup, root, leads, facts, found, claims) {
        Ok(()) => {}
        Err(fault) => return Err(fault),
    }
    match hold_bits(alloc, under, sup, root, leads, found, claims) {
        Ok(()) => {}
        Err(fault) => return Err(fault),
    }
    let nodes = leads.len() as u64 + 1;
    let used = claims.count();
    Ok(Summary { nodes, used })
}
