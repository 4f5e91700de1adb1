// The attributes of all nodes.
ghost use Rattle.std.specs.Prelude.{◌≡◌, ◌<◌, ◌++◌, ◌∷◌, ℕ, List, length, Option, Some, OnOk, IfErr};
ghost use Rattle.bfs_super.specs.Conditions.{IsValid, natural, block_of_run};
ghost use Rattle.bfs_txn.specs.Faults.{AreLater};
ghost use Rattle.bfs_stream.specs.Sizes.{sizes_of};
ghost use Rattle.bfs_stream.specs.Told.{contents};
ghost use Rattle.bfs_stream_check.specs.Known.{IsAllTold};
ghost use Rattle.bfs_sound.specs.Attributes.{attribute_directory};
ghost use Rattle.bfs_sound.specs.Whole.{volume_of};
ghost use Rattle.bfs_finding.specs.Ways.{IsReached};
ghost use Rattle.bfs_claims.specs.Claims.{Claimed, AreClaimed};
ghost use Rattle.bfs_inode_walk.specs.Visited.{IsTrueOf, IsTakenFirst, IsVisitCause};
ghost use Rattle.bfs_node_walk.specs.Listed.{NamesBlock};
ghost use Rattle.bfs_nodes_walk.specs.Facts.{IsFactOf, AreFactsOf};
ghost use Rattle.bfs_nodes_walk.specs.Leads.{AreInside};
ghost use Rattle.bfs_nodes_walk.specs.Walks.{HasAttributes, blocks_of_visits, IsWalked};
ghost use Rattle.bfs_attrs_walk.specs.Passes.{id_of, attribute_blocks, blocks_of_leads, HaveThose, IsTakenIn, IsWhole, IsAttributeWay};

use crate::node::visit_attributes;
use crate::told::{tell_owner, tell_root};
use bfs_attr_walk::number_of;
use bfs_claims::Claims;
use bfs_inode_walk::VisitFault;
use bfs_nodes_walk::{NodeFacts, NodeLead, facts_at};
use bfs_super::Super;
use bfs_txn::Blocks;
use std::alloc::Global;

/// Goes over the attributes of the node that a row names, unless it is known that all of them are items, and right.
fn visit_lead<B: Blocks>(
    alloc: Global,
    under: &mut B,
    sup: &Super,
    lead: &NodeLead,
    facts: NodeFacts,
    claims: &mut Claims,
) -> Result<(), VisitFault>
    requires valid { IsValid sup.now }
    requires facts { (m : ℕ → Option (List ℕ)) → B.told under.old ≡ Some m → IsFactOf (volume_of sup.now (contents m)) (id_of lead.now) facts }
    requires lead { NamesBlock (natural sup.now.num_blocks) (lead.now.row.name, lead.now.row.value) }
    requires size { B.size under.old ≡ sup.now.block_size }
    requires all { (m : ℕ → Option (List ℕ)) → B.told under.old ≡ Some m → IsAllTold (sizes_of sup.now) m }
    requires blocks { claims.old.blocks ≡ natural sup.now.num_blocks }
    ensures right { (m : ℕ → Option (List ℕ)) → B.told under.old ≡ Some m → OnOk result (HasAttributes (volume_of sup.now (contents m)) (id_of lead.now)) }
    ensures claimed { (m : ℕ → Option (List ℕ)) (xs : List ℕ) → B.told under.old ≡ Some m → AreClaimed claims.old xs → OnOk result (AreClaimed claims.new (xs ++ attribute_blocks (volume_of sup.now (contents m)) (id_of lead.now))) }
    ensures wrong { (m : ℕ → Option (List ℕ)) → B.told under.old ≡ Some m → IsReached (volume_of sup.now (contents m)) (id_of lead.now) → IfErr result (IsTrueOf (volume_of sup.now (contents m))) }
    ensures taken { (m : ℕ → Option (List ℕ)) (xs : List ℕ) → B.told under.old ≡ Some m → AreClaimed claims.old xs → IfErr result (IsTakenIn (volume_of sup.now (contents m)) xs (attribute_directory (volume_of sup.now (contents m)) (id_of lead.now))) }
    ensures blocks { claims.new.blocks ≡ claims.old.blocks }
    ensures told { B.told under.new ≡ B.told under.old }
    ensures changed { B.changed under.new ≡ B.changed under.old }
    ensures pairs { B.pairs under.new ≡ B.pairs under.old }
    ensures size { B.size under.new ≡ B.size under.old }
    ensures frame { B.frame under.new ≡ B.frame under.old }
    ensures later { AreLater (B.counts under.old) (B.counts under.new) }
    ensures cause { IfErr result (IsVisitCause (B.counts under.old) (B.counts under.new)) }
{
    if facts.plain {
        return Ok(());
    }
    let id = number_of(lead.row.value);
    visit_attributes(alloc, under, sup, id, claims)
}

/// Goes over the attributes of the nodes that rows name, one after the other, where the nodes and the attributes of the root were gone over. Where one
/// of their blocks is taken, these and the attributes before are looked at a second time.
fn visit_leads<B: Blocks>(
    alloc: Global,
    under: &mut B,
    sup: &Super,
    root: u64,
    leads: &[NodeLead],
    facts: &[NodeFacts],
    claims: &mut Claims,
) -> Result<(), VisitFault>
    requires valid { IsValid sup.now }
    requires root { root ≡ block_of_run sup.now sup.now.root_dir }
    requires root_inside { root < natural sup.now.num_blocks }
    requires inside { AreInside (natural sup.now.num_blocks) leads.now }
    requires many { length facts.now ≡ length leads.now }
    requires facts { (m : ℕ → Option (List ℕ)) → B.told under.old ≡ Some m → AreFactsOf (volume_of sup.now (contents m)) leads.now facts.now }
    requires size { B.size under.old ≡ sup.now.block_size }
    requires all { (m : ℕ → Option (List ℕ)) → B.told under.old ≡ Some m → IsAllTold (sizes_of sup.now) m }
    requires have { (m : ℕ → Option (List ℕ)) → B.told under.old ≡ Some m → HasAttributes (volume_of sup.now (contents m)) root }
    requires blocks { claims.old.blocks ≡ natural sup.now.num_blocks }
    ensures right { (m : ℕ → Option (List ℕ)) → B.told under.old ≡ Some m → OnOk result (HaveThose (volume_of sup.now (contents m)) leads.now) }
    ensures claimed { (m : ℕ → Option (List ℕ)) (xs : List ℕ) → B.told under.old ≡ Some m → AreClaimed claims.old xs → OnOk result (AreClaimed claims.new (xs ++ blocks_of_leads (volume_of sup.now (contents m)) leads.now)) }
    ensures wrong { (m : ℕ → Option (List ℕ)) (xs : List ℕ) (c : Claimed) (w : IsWalked (volume_of sup.now (contents m)) xs c leads.now) → B.told under.old ≡ Some m → AreClaimed claims.old ((xs ++ blocks_of_visits (volume_of sup.now (contents m)) (w.top ∷ w.visits)) ++ attribute_blocks (volume_of sup.now (contents m)) root) → IfErr result (IsTrueOf (volume_of sup.now (contents m))) }
    ensures taken { (m : ℕ → Option (List ℕ)) (xs : List ℕ) (c : Claimed) (w : IsWalked (volume_of sup.now (contents m)) xs c leads.now) → B.told under.old ≡ Some m → AreClaimed claims.old ((xs ++ blocks_of_visits (volume_of sup.now (contents m)) (w.top ∷ w.visits)) ++ attribute_blocks (volume_of sup.now (contents m)) root) → IfErr result (IsTakenFirst IsAttributeWay (volume_of sup.now (contents m)) xs) }
    ensures blocks { claims.new.blocks ≡ claims.old.blocks }
    ensures told { B.told under.new ≡ B.told under.old }
    ensures changed { B.changed under.new ≡ B.changed under.old }
    ensures pairs { B.pairs under.new ≡ B.pairs under.old }
    ensures size { B.size under.new ≡ B.size under.old }
    ensures frame { B.frame under.new ≡ B.frame under.old }
    ensures later { AreLater (B.counts under.old) (B.counts under.new) }
    ensures cause { IfErr result (IsVisitCause (B.counts under.old) (B.counts under.new)) }
{
    for i in 0..leads.len() {
        let one = facts_at(facts, i);
        match visit_lead(alloc, under, sup, &leads[i], one, claims) {
            Ok(()) => {}
            Err(fault) => {
                return Err(tell_owner(alloc, under, sup, root, leads, &leads[..i], fault));
            }
        }
    }
    Ok(())
}

/// Goes over the attributes of all nodes: of the root at this block, and of those that rows name which were followed. Where it is kept of a node
/// that all of them are items, and right, its inode isn't read again. The blocks of the attributes are claimed. Where one of them is taken by a node or by attributes that were gone over, this is found. It takes the memory of one node with the rows of
/// its attribute directory, and there of a place for each node.
pub fn visit_all<B: Blocks>(
    alloc: Global,
    under: &mut B,
    sup: &Super,
    root: u64,
    leads: &[NodeLead],
    facts: &[NodeFacts],
    claims: &mut Claims,
) -> Result<(), VisitFault>
    requires valid { IsValid sup.now }
    requires root { root ≡ block_of_run sup.now sup.now.root_dir }
    requires root_inside { root < natural sup.now.num_blocks }
    requires inside { AreInside (natural sup.now.num_blocks) leads.now }
    requires many { length facts.now ≡ length leads.now }
    requires facts { (m : ℕ → Option (List ℕ)) → B.told under.old ≡ Some m → AreFactsOf (volume_of sup.now (contents m)) leads.now facts.now }
    requires size { B.size under.old ≡ sup.now.block_size }
    requires all { (m : ℕ → Option (List ℕ)) → B.told under.old ≡ Some m → IsAllTold (sizes_of sup.now) m }
    requires blocks { claims.old.blocks ≡ natural sup.now.num_blocks }
    ensures whole { (m : ℕ → Option (List ℕ)) (xs : List ℕ) → B.told under.old ≡ Some m → IsWalked (volume_of sup.now (contents m)) xs claims.old leads.now → OnOk result (IsWhole (volume_of sup.now (contents m)) xs claims.new leads.now) }
    ensures wrong { (m : ℕ → Option (List ℕ)) (xs : List ℕ) → B.told under.old ≡ Some m → IsWalked (volume_of sup.now (contents m)) xs claims.old leads.now → IfErr result (IsTrueOf (volume_of sup.now (contents m))) }
    ensures taken { (m : ℕ → Option (List ℕ)) (xs : List ℕ) → B.told under.old ≡ Some m → IsWalked (volume_of sup.now (contents m)) xs claims.old leads.now → IfErr result (IsTakenFirst IsAttributeWay (volume_of sup.now (contents m)) xs) }
    ensures blocks { claims.new.blocks ≡ claims.old.blocks }
    ensures told { B.told under.new ≡ B.told under.old }
    ensures changed { B.changed under.new ≡ B.changed under.old }
    ensures pairs { B.pairs under.new ≡ B.pairs under.old }
    ensures size { B.size under.new ≡ B.size under.old }
    ensures frame { B.frame under.new ≡ B.frame under.old }
    ensures later { AreLater (B.counts under.old) (B.counts under.new) }
    ensures cause { IfErr result (IsVisitCause (B.counts under.old) (B.counts under.new)) }
{
    match visit_attributes(alloc, under, sup, root, claims) {
        Ok(()) => {}
        Err(fault) => return Err(tell_root(alloc, under, sup, root, leads, fault)),
    }
    match visit_leads(alloc, under, sup, root, leads, facts, claims) {
        Ok(()) => Ok(()),
        Err(fault) => Err(fault),
    }
}
