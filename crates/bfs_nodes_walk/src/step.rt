// The root, and one node that a row names, each with its rows.
ghost use Rattle.std.specs.Prelude.{◌≡◌, ◌≤◌, ◌<◌, ◌+◌, ◌++◌, ℕ, List, get_or, length, take, pos, Option, Some, OnOk, IfOk, IfErr};
ghost use Rattle.bfs_super.specs.Conditions.{IsValid, natural, block_of_run};
ghost use Rattle.bfs_txn.specs.Faults.{AreLater};
ghost use Rattle.bfs_stream.specs.Sizes.{sizes_of};
ghost use Rattle.bfs_stream.specs.Told.{contents};
ghost use Rattle.bfs_stream_check.specs.Known.{IsAllTold};
ghost use Rattle.bfs_sound.specs.Whole.{volume_of};
ghost use Rattle.bfs_claims.specs.Claims.{AreClaimed};
ghost use Rattle.bfs_node_check.specs.declared.role.Role.TheVariants as roles;
ghost use Rattle.bfs_inode_walk.specs.Visited.{role_blocks, IsSoundIn, IsTrueOf, IsTakenFirst, IsVisitCause};
ghost use Rattle.bfs_node_walk.specs.Nodes.{AreRowsOf, IsNamedBy};
ghost use Rattle.bfs_nodes_walk.specs.Facts.{IsFactOf};
ghost use Rattle.bfs_nodes_walk.specs.Leads.{AreInside, IsRowOf, IsTakenBy};
ghost use Rattle.bfs_nodes_walk.specs.Walks.{IsWalkedTo, IsNodeWay};

use crate::NodeLead;
use crate::clash::refusal;
use crate::facts::{NodeFacts, facts_in};
use crate::lead::{block_of, push_leads};
use bfs_claims::Claims;
use bfs_inode_walk::VisitFault;
use bfs_node_walk::{VisitedNode, visit_child, visit_root};
use bfs_super::Super;
use bfs_txn::Blocks;
use std::alloc::Global;

/// The number of a node that a row names, and what it is.
#[derive(Debug, Drop)]
struct FoundNode {
    id: u64,
    node: VisitedNode,
}

/// The number of a volume's blocks.
fn blocks_in(sup: Super) -> u64
    ensures { result ≡ natural sup.num_blocks }
{
    if sup.num_blocks < 0 {
        0
    } else {
        sup.num_blocks as u64
    }
}

/// Goes over the node that a row names.
fn visit_lead<B: Blocks>(
    alloc: Global,
    under: &mut B,
    sup: &Super,
    lead: &NodeLead,
    claims: &mut Claims,
) -> Result<FoundNode, VisitFault>
    requires valid { IsValid sup.now }
    requires size { B.size under.old ≡ sup.now.block_size }
    requires all { (m : ℕ → Option (List ℕ)) → B.told under.old ≡ Some m → IsAllTold (sizes_of sup.now) m }
    requires blocks { claims.old.blocks ≡ natural sup.now.num_blocks }
    ensures number { IfOk result (λ found. lead.now.row.value ≡ pos found.id) }
    ensures below { IfOk result (λ found. found.id < natural sup.now.num_blocks) }
    ensures sound { (m : ℕ → Option (List ℕ)) → B.told under.old ≡ Some m → IfOk result (λ found. IsSoundIn (volume_of sup.now (contents m)) roles.Child found.id) }
    ensures named { (m : ℕ → Option (List ℕ)) → B.told under.old ≡ Some m → IfOk result (λ found. IsNamedBy (volume_of sup.now (contents m)) found.id lead.now.dir lead.now.row.name) }
    ensures rows { (m : ℕ → Option (List ℕ)) → B.told under.old ≡ Some m → IfOk result (λ found. AreRowsOf (volume_of sup.now (contents m)) found.id lead.now.dir found.node.rows.items) }
    ensures bytes { (m : ℕ → Option (List ℕ)) → B.told under.old ≡ Some m → IfOk result (λ found. found.node.bytes.items ≡ contents m found.id) }
    ensures length { IfOk result (λ found. length found.node.bytes.items ≡ sup.now.block_size) }
    ensures long { IfOk result (λ found. 1024 ≤ length found.node.bytes.items) }
    ensures claimed { (m : ℕ → Option (List ℕ)) (xs : List ℕ) → B.told under.old ≡ Some m → AreClaimed claims.old xs → IfOk result (λ found. AreClaimed claims.new (xs ++ role_blocks (volume_of sup.now (contents m)) roles.Child found.id)) }
    ensures wrong { (m : ℕ → Option (List ℕ)) → B.told under.old ≡ Some m → IsRowOf (volume_of sup.now (contents m)) lead.now → IfErr result (IsTrueOf (volume_of sup.now (contents m))) }
    ensures taken { (m : ℕ → Option (List ℕ)) (xs : List ℕ) → B.told under.old ≡ Some m → AreClaimed claims.old xs → IfErr result (IsTakenBy (volume_of sup.now (contents m)) xs lead.now) }
    ensures more { OnOk result (claims.old.count < claims.new.count) }
    ensures blocks { claims.new.blocks ≡ claims.old.blocks }
    ensures told { B.told under.new ≡ B.told under.old }
    ensures changed { B.changed under.new ≡ B.changed under.old }
    ensures pairs { B.pairs under.new ≡ B.pairs under.old }
    ensures size { B.size under.new ≡ B.size under.old }
    ensures frame { B.frame under.new ≡ B.frame under.old }
    ensures later { AreLater (B.counts under.old) (B.counts under.new) }
    ensures cause { IfErr result (IsVisitCause (B.counts under.old) (B.counts under.new)) }
{
    let id = match block_of(lead, blocks_in(*sup)) {
        Ok(id) => id,
        Err(fault) => return Err(fault),
    };
    match visit_child(
        alloc,
        under,
        sup,
        id,
        lead.dir,
        lead.row.name.as_slice(),
        claims,
    ) {
        Ok(node) => Ok(FoundNode { id, node }),
        Err(fault) => Err(fault),
    }
}

/// Goes over what the row at a place names, puts its rows behind the others, and answers what is kept of it.
pub(crate) fn follow<B: Blocks>(
    alloc: Global,
    under: &mut B,
    sup: &Super,
    root: u64,
    leads: &mut Vec<NodeLead>,
    at: usize,
    claims: &mut Claims,
) -> Result<NodeFacts, VisitFault>
    requires valid { IsValid sup.now }
    requires root { root ≡ block_of_run sup.now sup.now.root_dir }
    requires root_inside { root < natural sup.now.num_blocks }
    requires size { B.size under.old ≡ sup.now.block_size }
    requires all { (m : ℕ → Option (List ℕ)) → B.told under.old ≡ Some m → IsAllTold (sizes_of sup.now) m }
    requires blocks { claims.old.blocks ≡ natural sup.now.num_blocks }
    requires at { at < length leads.old.items }
    requires before { AreInside (natural sup.now.num_blocks) (take at leads.old.items) }
    ensures inside { OnOk result (AreInside (natural sup.now.num_blocks) (take (at + 1) leads.new.items)) }
    ensures on { (m : ℕ → Option (List ℕ)) (xs : List ℕ) → B.told under.old ≡ Some m → IsWalkedTo (volume_of sup.now (contents m)) xs claims.old leads.old.items at → OnOk result (IsWalkedTo (volume_of sup.now (contents m)) xs claims.new leads.new.items (at + 1)) }
    ensures facts { (m : ℕ → Option (List ℕ)) (l : NodeLead) → B.told under.old ≡ Some m → l ≡ get_or leads.old.items at l → IfOk result (IsFactOf (volume_of sup.now (contents m)) (natural l.row.value)) }
    ensures behind { OnOk result ((more : List NodeLead) × (leads.new.items ≡ leads.old.items ++ more)) }
    ensures wrong { (m : ℕ → Option (List ℕ)) (xs : List ℕ) → B.told under.old ≡ Some m → IsWalkedTo (volume_of sup.now (contents m)) xs claims.old leads.old.items at → IfErr result (IsTrueOf (volume_of sup.now (contents m))) }
    ensures taken { (m : ℕ → Option (List ℕ)) (xs : List ℕ) → B.told under.old ≡ Some m → IsWalkedTo (volume_of sup.now (contents m)) xs claims.old leads.old.items at → IfErr result (IsTakenFirst IsNodeWay (volume_of sup.now (contents m)) xs) }
    ensures more { OnOk result (claims.old.count < claims.new.count) }
    ensures blocks { claims.new.blocks ≡ claims.old.blocks }
    ensures told { B.told under.new ≡ B.told under.old }
    ensures changed { B.changed under.new ≡ B.changed under.old }
    ensures pairs { B.pairs under.new ≡ B.pairs under.old }
    ensures size { B.size under.new ≡ B.size under.old }
    ensures frame { B.frame under.new ≡ B.frame under.old }
    ensures later { AreLater (B.counts under.old) (B.counts under.new) }
    ensures cause { IfErr result (IsVisitCause (B.counts under.old) (B.counts under.new)) }
{
    let found = match visit_lead(alloc, under, sup, &leads[at], claims) {
        Ok(found) => found,
        Err(fault) => {
            let before: &[NodeLead] = &leads[..at];
            return Err(refusal(alloc, under, sup, root, before, fault));
        }
    };
    match push_leads(alloc, found.id, &found.node.rows, leads) {
        Ok(()) => Ok(facts_in(alloc, &found.node.bytes, *sup, found.id)),
        Err(fault) => Err(fault),
    }
}

/// Goes over the root, whose rows lead on.
pub(crate) fn begin<B: Blocks>(
    alloc: Global,
    under: &mut B,
    sup: &Super,
    root: u64,
    claims: &mut Claims,
) -> Result<Vec<NodeLead>, VisitFault>
    requires valid { IsValid sup.now }
    requires root { root ≡ block_of_run sup.now sup.now.root_dir }
    requires inside { root < natural sup.now.num_blocks }
    requires size { B.size under.old ≡ sup.now.block_size }
    requires all { (m : ℕ → Option (List ℕ)) → B.told under.old ≡ Some m → IsAllTold (sizes_of sup.now) m }
    requires blocks { claims.old.blocks ≡ natural sup.now.num_blocks }
    ensures begun { (m : ℕ → Option (List ℕ)) (xs : List ℕ) → B.told under.old ≡ Some m → AreClaimed claims.old xs → IfOk result (λ leads. IsWalkedTo (volume_of sup.now (contents m)) xs claims.new leads.items 0) }
    ensures wrong { (m : ℕ → Option (List ℕ)) → B.told under.old ≡ Some m → IfErr result (IsTrueOf (volume_of sup.now (contents m))) }
    ensures taken { (m : ℕ → Option (List ℕ)) (xs : List ℕ) → B.told under.old ≡ Some m → AreClaimed claims.old xs → IfErr result (IsTakenFirst IsNodeWay (volume_of sup.now (contents m)) xs) }
    ensures blocks { claims.new.blocks ≡ claims.old.blocks }
    ensures told { B.told under.new ≡ B.told under.old }
    ensures changed { B.changed under.new ≡ B.changed under.old }
    ensures pairs { B.pairs under.new ≡ B.pairs under.old }
    ensures size { B.size under.new ≡ B.size under.old }
    ensures frame { B.frame under.new ≡ B.frame under.old }
    ensures later { AreLater (B.counts under.old) (B.counts under.new) }
    ensures cause { IfErr result (IsVisitCause (B.counts under.old) (B.counts under.new)) }
{
    let node = match visit_root(alloc, under, sup, root, claims) {
        Ok(node) => node,
        Err(fault) => return Err(fault),
    };
    let mut leads = Vec::new(alloc);
    match push_leads(alloc, root, &node.rows, &mut leads) {
        Ok(()) => Ok(leads),
        Err(fault) => Err(fault),
    }
}
