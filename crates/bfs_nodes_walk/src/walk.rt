// All nodes of a volume.
ghost use Rattle.std.specs.Prelude.{◌≡◌, ◌≤◌, ◌<◌, ◌++◌, ◌∷◌, [], ℕ, List, length, Option, Some, OnOk, IfOk, IfErr};
ghost use Rattle.bfs_super.specs.Conditions.{IsValid, natural, block_of_run};
ghost use Rattle.bfs_txn.specs.Faults.{AreLater, Counts};
ghost use Rattle.bfs_stream.specs.Sizes.{sizes_of};
ghost use Rattle.bfs_stream.specs.Told.{contents};
ghost use Rattle.bfs_stream_check.specs.Known.{IsAllTold};
ghost use Rattle.bfs_sound.specs.Volumes.{Volume};
ghost use Rattle.bfs_sound.specs.Whole.{volume_of};
ghost use Rattle.bfs_claims.specs.Claims.{AreClaimed};
ghost use Rattle.bfs_inode_walk.specs.Visited.{IsTrueOf, IsTakenFirst, IsUntaken, IsVisitCause};
ghost use Rattle.bfs_nodes_walk.specs.Facts.{AreFactsOf};
ghost use Rattle.bfs_nodes_walk.specs.Leads.{AreInside};
ghost use Rattle.bfs_nodes_walk.specs.Walks.{IsWalkedTo, IsWalked, IsNodeWay};

use crate::step::{begin, follow};
use crate::{NodeFacts, NodeLead};
use bfs_claims::Claims;
use bfs_inode_walk::VisitFault;
use bfs_super::Super;
use bfs_txn::{BlockFault, Blocks};
use std::alloc::Global;

/// The rows that were followed, in their order, and what is kept of the node that each names.
#[derive(Debug, Drop)]
pub struct WalkedNodes {
    pub leads: Vec<NodeLead>,
    pub facts: Vec<NodeFacts>,
}

/// Puts what is kept of a node behind the others.
fn keep(facts: &mut Vec<NodeFacts>, one: NodeFacts) -> Result<(), VisitFault>
    ensures kept { OnOk result (facts.new.items ≡ facts.old.items ++ one ∷ []) }
    ensures wrong { (v : Volume) → IfErr result (IsTrueOf v) }
    ensures untaken { IfErr result IsUntaken }
    ensures cause { (old new : Counts) → IfErr result (IsVisitCause old new) }
{
    match facts.push(one) {
        Ok(()) => Ok(()),
        Err(_) => Err(VisitFault::Block(BlockFault::NoMemory)),
    }
}

/// No more blocks are claimed than there are.
fn claims_are_few(claims: &Claims)
    ensures { claims.now.count ≤ claims.now.blocks }
{
    let _ = claims.count();
}

/// Follows rows one after the other, until none leads on. Each node has a block that was claimed by none before, so that this comes to an
/// end, whatever the blocks tell.
fn follow_all<B: Blocks>(
    alloc: Global,
    under: &mut B,
    sup: &Super,
    root: u64,
    mut leads: Vec<NodeLead>,
    claims: &mut Claims,
) -> Result<WalkedNodes, VisitFault>
    requires valid { IsValid sup.now }
    requires root { root ≡ block_of_run sup.now sup.now.root_dir }
    requires root_inside { root < natural sup.now.num_blocks }
    requires size { B.size under.old ≡ sup.now.block_size }
    requires all { (m : ℕ → Option (List ℕ)) → B.told under.old ≡ Some m → IsAllTold (sizes_of sup.now) m }
    requires blocks { claims.old.blocks ≡ natural sup.now.num_blocks }
    ensures walked { (m : ℕ → Option (List ℕ)) (xs : List ℕ) → B.told under.old ≡ Some m → IsWalkedTo (volume_of sup.now (contents m)) xs claims.old leads.items 0 → IfOk result (λ all. IsWalked (volume_of sup.now (contents m)) xs claims.new all.leads.items) }
    ensures wrong { (m : ℕ → Option (List ℕ)) (xs : List ℕ) → B.told under.old ≡ Some m → IsWalkedTo (volume_of sup.now (contents m)) xs claims.old leads.items 0 → IfErr result (IsTrueOf (volume_of sup.now (contents m))) }
    ensures taken { (m : ℕ → Option (List ℕ)) (xs : List ℕ) → B.told under.old ≡ Some m → IsWalkedTo (volume_of sup.now (contents m)) xs claims.old leads.items 0 → IfErr result (IsTakenFirst IsNodeWay (volume_of sup.now (contents m)) xs) }
    ensures facts { (m : ℕ → Option (List ℕ)) → B.told under.old ≡ Some m → IfOk result (λ all. AreFactsOf (volume_of sup.now (contents m)) all.leads.items all.facts.items) }
    ensures many { IfOk result (λ all. length all.facts.items ≡ length all.leads.items) }
    ensures inside { IfOk result (λ all. AreInside (natural sup.now.num_blocks) all.leads.items) }
    ensures blocks { claims.new.blocks ≡ claims.old.blocks }
    ensures told { B.told under.new ≡ B.told under.old }
    ensures changed { B.changed under.new ≡ B.changed under.old }
    ensures pairs { B.pairs under.new ≡ B.pairs under.old }
    ensures size { B.size under.new ≡ B.size under.old }
    ensures frame { B.frame under.new ≡ B.frame under.old }
    ensures later { AreLater (B.counts under.old) (B.counts under.new) }
    ensures cause { IfErr result (IsVisitCause (B.counts under.old) (B.counts under.new)) }
{
    let mut facts = Vec::new(alloc);
    let mut at = 0;
    while at < leads.len() {
        let one = match follow(alloc, under, sup, root, &mut leads, at, claims) {
            Ok(one) => one,
            Err(fault) => return Err(fault),
        };
        match keep(&mut facts, one) {
            Ok(()) => {}
            Err(fault) => return Err(fault),
        }
        claims_are_few(claims);
        at += 1;
    }
    Ok(WalkedNodes { leads, facts })
}

/// Goes over all nodes of a volume, the root at this block first: each inode with its stream, name and parent, and the rows of each
/// directory. Their blocks are claimed. Answers the rows in the order in which they were followed, which is by their distance from
/// the root; or what is wrong, which may be a block that two nodes share, as where two rows name one; or a block of a node that was claimed
/// before all. It takes the memory of all rows and of what is kept of each node, and beside that of one node. Of the attributes no more is looked at than the inode tells.
pub fn walk_nodes<B: Blocks>(
    alloc: Global,
    under: &mut B,
    sup: &Super,
    root: u64,
    claims: &mut Claims,
) -> Result<WalkedNodes, VisitFault>
    requires valid { IsValid sup.now }
    requires root { root ≡ block_of_run sup.now sup.now.root_dir }
    requires inside { root < natural sup.now.num_blocks }
    requires size { B.size under.old ≡ sup.now.block_size }
    requires all { (m : ℕ → Option (List ℕ)) → B.told under.old ≡ Some m → IsAllTold (sizes_of sup.now) m }
    requires blocks { claims.old.blocks ≡ natural sup.now.num_blocks }
    ensures walked { (m : ℕ → Option (List ℕ)) (xs : List ℕ) → B.told under.old ≡ Some m → AreClaimed claims.old xs → IfOk result (λ all. IsWalked (volume_of sup.now (contents m)) xs claims.new all.leads.items) }
    ensures wrong { (m : ℕ → Option (List ℕ)) (xs : List ℕ) → B.told under.old ≡ Some m → AreClaimed claims.old xs → IfErr result (IsTrueOf (volume_of sup.now (contents m))) }
    ensures taken { (m : ℕ → Option (List ℕ)) (xs : List ℕ) → B.told under.old ≡ Some m → AreClaimed claims.old xs → IfErr result (IsTakenFirst IsNodeWay (volume_of sup.now (contents m)) xs) }
    ensures facts { (m : ℕ → Option (List ℕ)) → B.told under.old ≡ Some m → IfOk result (λ all. AreFactsOf (volume_of sup.now (contents m)) all.leads.items all.facts.items) }
    ensures many { IfOk result (λ all. length all.facts.items ≡ length all.leads.items) }
    ensures inside { IfOk result (λ all. AreInside (natural sup.now.num_blocks) all.leads.items) }
    ensures blocks { claims.new.blocks ≡ claims.old.blocks }
    ensures told { B.told under.new ≡ B.told under.old }
    ensures changed { B.changed under.new ≡ B.changed under.old }
    ensures pairs { B.pairs under.new ≡ B.pairs under.old }
    ensures size { B.size under.new ≡ B.size under.old }
    ensures frame { B.frame under.new ≡ B.frame under.old }
    ensures later { AreLater (B.counts under.old) (B.counts under.new) }
    ensures cause { IfErr result (IsVisitCause (B.counts under.old) (B.counts under.new)) }
{
    let leads = match begin(alloc, under, sup, root, claims) {
        Ok(leads) => leads,
        Err(fault) => return Err(fault),
    };
    match follow_all(alloc, under, sup, root, leads, claims) {
        Ok(all) => Ok(all),
        Err(fault) => Err(fault),
    }
}
