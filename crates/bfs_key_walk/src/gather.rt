// The pairs of nodes, one after the other.
ghost use Rattle.std.specs.Prelude.{◌≡◌, ◌<◌, ◌++◌, ◌==◌, ℕ, List, map, length, get_or, Option, Some, None, OnOk, IfErr};
ghost use Rattle.bfs_super.specs.Conditions.{IsValid, natural};
ghost use Rattle.bfs_txn.specs.Faults.{AreLater};
ghost use Rattle.bfs_stream.specs.Sizes.{sizes_of};
ghost use Rattle.bfs_stream.specs.Told.{contents};
ghost use Rattle.bfs_stream_check.specs.Known.{IsAllTold};
ghost use Rattle.bfs_tree.specs.Listings.{key_in, pairs_in};
ghost use Rattle.bfs_tree.specs.Trees.{Node};
ghost use Rattle.bfs_sound.specs.Whole.{volume_of};
ghost use Rattle.bfs_tour.specs.Tours.{Visit};
ghost use Rattle.bfs_nodes_walk.specs.Facts.{keys_of};
ghost use Rattle.bfs_nodes_walk.specs.Leads.{AreInside};
ghost use Rattle.bfs_nodes_walk.specs.Listed.{NamesBlock};
ghost use Rattle.bfs_inode_walk.specs.Visited.{IsVisitCause};
ghost use Rattle.bfs_index_check.specs.Compared.{pairs_of};
ghost use Rattle.bfs_key_walk.specs.Gathered.{IsKnown, IsUnread, IsFor, AreFor, pair_with};
ghost use Rattle.bfs_key_walk.specs.Keys.{kept_keys, keys_of_visits};

use crate::inode_keys::number_of;
use crate::key::node_key;
use bfs_index::Pair;
use bfs_inode_walk::VisitFault;
use bfs_nodes_walk::{FileKeys, NodeFacts, NodeLead, facts_at};
use bfs_range::KeyBytes;
use bfs_super::Super;
use bfs_tree::{Bytes, KeyKind};
use bfs_txn::{BlockFault, Blocks};
use std::alloc::{AllocError, Global};

/// Puts a number with its key behind other pairs, if it has one.
fn put_pair(pairs: &mut Vec<Pair>, key: Option<Bytes>, id: u64) -> Result<(), AllocError>
    ensures { OnOk result (pairs_of pairs.new.items ≡ pairs_of pairs.old.items ++ pair_with key id) }
{
    let Some(key) = key else {
        return Ok(());
    };
    let key = KeyBytes::new(key.into_vec());
    match pairs.push(Pair { key, id }) {
        Ok(()) => Ok(()),
        Err(fault) => Err(fault.into()),
    }
}

/// Puts the pair of the node at a block behind others, if the index lists it.
pub(crate) fn gather_node<B: Blocks>(
    alloc: Global,
    under: &mut B,
    sup: &Super,
    id: u64,
    is_root: bool,
    name: &[u8],
    keys: Option<FileKeys>,
    index: &[u8],
    kind: KeyKind,
    pairs: &mut Vec<Pair>,
) -> Result<(), VisitFault>
    requires valid { IsValid sup.now }
    requires inside { id < natural sup.now.num_blocks }
    requires size { B.size under.old ≡ sup.now.block_size }
    requires all { (m : ℕ → Option (List ℕ)) → B.told under.old ≡ Some m → IsAllTold (sizes_of sup.now) m }
    requires known { (m : ℕ → Option (List ℕ)) → B.told under.old ≡ Some m → (n : Node) × IsKnown (volume_of sup.now (contents m)) id n }
    ensures gathered { (m : ℕ → Option (List ℕ)) (root : ℕ) (n : Node) → B.told under.old ≡ Some m → IsKnown (volume_of sup.now (contents m)) id n → n.name ≡ name.now → is_root ≡ (id == root) → keys ≡ keys_of n → OnOk result (pairs_of pairs.new.items ≡ pairs_of pairs.old.items ++ pair_with (key_in root index.now kind id n) id) }
    ensures unread { (m : ℕ → Option (List ℕ)) (n : Node) → B.told under.old ≡ Some m → IsKnown (volume_of sup.now (contents m)) id n → IfErr result IsUnread }
    ensures told { B.told under.new ≡ B.told under.old }
    ensures changed { B.changed under.new ≡ B.changed under.old }
    ensures pairs { B.pairs under.new ≡ B.pairs under.old }
    ensures size { B.size under.new ≡ B.size under.old }
    ensures frame { B.frame under.new ≡ B.frame under.old }
    ensures later { AreLater (B.counts under.old) (B.counts under.new) }
    ensures cause { IfErr result (IsVisitCause (B.counts under.old) (B.counts under.new)) }
{
    let key = match node_key(alloc, under, sup, id, is_root, name, keys, index, kind) {
        Ok(key) => key,
        Err(fault) => return Err(fault),
    };
    match put_pair(pairs, key, id) {
        Ok(()) => Ok(()),
        Err(_) => Err(VisitFault::Block(BlockFault::NoMemory)),
    }
}

/// The same of the node that a row names.
fn gather_lead<B: Blocks>(
    alloc: Global,
    under: &mut B,
    sup: &Super,
    lead: &NodeLead,
    keys: Option<FileKeys>,
    index: &[u8],
    kind: KeyKind,
    pairs: &mut Vec<Pair>,
) -> Result<(), VisitFault>
    requires valid { IsValid sup.now }
    requires inside { NamesBlock (natural sup.now.num_blocks) (lead.now.row.name, lead.now.row.value) }
    requires size { B.size under.old ≡ sup.now.block_size }
    requires all { (m : ℕ → Option (List ℕ)) → B.told under.old ≡ Some m → IsAllTold (sizes_of sup.now) m }
    requires known { (m : ℕ → Option (List ℕ)) → B.told under.old ≡ Some m → (root : ℕ) × (e : Visit) × IsFor (volume_of sup.now (contents m)) root lead.now e }
    ensures gathered { (m : ℕ → Option (List ℕ)) (root : ℕ) (e : Visit) → B.told under.old ≡ Some m → IsFor (volume_of sup.now (contents m)) root lead.now e → keys ≡ keys_of e.1 → OnOk result (pairs_of pairs.new.items ≡ pairs_of pairs.old.items ++ pair_with (key_in root index.now kind e.0 e.1) e.0) }
    ensures unread { (m : ℕ → Option (List ℕ)) (root : ℕ) (e : Visit) → B.told under.old ≡ Some m → IsFor (volume_of sup.now (contents m)) root lead.now e → IfErr result IsUnread }
    ensures told { B.told under.new ≡ B.told under.old }
    ensures changed { B.changed under.new ≡ B.changed under.old }
    ensures pairs { B.pairs under.new ≡ B.pairs under.old }
    ensures size { B.size under.new ≡ B.size under.old }
    ensures frame { B.frame under.new ≡ B.frame under.old }
    ensures later { AreLater (B.counts under.old) (B.counts under.new) }
    ensures cause { IfErr result (IsVisitCause (B.counts under.old) (B.counts under.new)) }
{
    let id = number_of(lead.row.value);
    let name = lead.row.name.as_slice();
    match gather_node(alloc, under, sup, id, false, name, keys, index, kind, pairs) {
        Ok(()) => Ok(()),
        Err(fault) => Err(fault),
    }
}

/// The keys that are kept of the node that a row names.
fn keys_at(facts: &[NodeFacts], i: usize) -> Option<FileKeys>
    requires { i < length facts.now }
    ensures { result ≡ get_or (kept_keys facts.now) i None }
{
    facts_at(facts, i).keys
}

/// The pairs of the nodes that rows name, behind others.
pub(crate) fn gather_leads<B: Blocks>(
    alloc: Global,
    under: &mut B,
    sup: &Super,
    leads: &[NodeLead],
    facts: &[NodeFacts],
    index: &[u8],
    kind: KeyKind,
    pairs: &mut Vec<Pair>,
) -> Result<(), VisitFault>
    requires valid { IsValid sup.now }
    requires inside { AreInside (natural sup.now.num_blocks) leads.now }
    requires many { length facts.now ≡ length leads.now }
    requires size { B.size under.old ≡ sup.now.block_size }
    requires all { (m : ℕ → Option (List ℕ)) → B.told under.old ≡ Some m → IsAllTold (sizes_of sup.now) m }
    requires known { (m : ℕ → Option (List ℕ)) → B.told under.old ≡ Some m → (root : ℕ) × (es : List Visit) × AreFor (volume_of sup.now (contents m)) root leads.now es }
    ensures gathered { (m : ℕ → Option (List ℕ)) (root : ℕ) (es : List Visit) → B.told under.old ≡ Some m → AreFor (volume_of sup.now (contents m)) root leads.now es → kept_keys facts.now ≡ keys_of_visits es → OnOk result (pairs_of pairs.new.items ≡ pairs_of pairs.old.items ++ pairs_in root index.now kind es) }
    ensures unread { (m : ℕ → Option (List ℕ)) (root : ℕ) (es : List Visit) → B.told under.old ≡ Some m → AreFor (volume_of sup.now (contents m)) root leads.now es → IfErr result IsUnread }
    ensures told { B.told under.new ≡ B.told under.old }
    ensures changed { B.changed under.new ≡ B.changed under.old }
    ensures pairs { B.pairs under.new ≡ B.pairs under.old }
    ensures size { B.size under.new ≡ B.size under.old }
    ensures frame { B.frame under.new ≡ B.frame under.old }
    ensures later { AreLater (B.counts under.old) (B.counts under.new) }
    ensures cause { IfErr result (IsVisitCause (B.counts under.old) (B.counts under.new)) }
{
    for i in 0..leads.len() {
        let one = keys_at(facts, i);
        match gather_lead(alloc, under, sup, &leads[i], one, index, kind, pairs) {
            Ok(()) => {}
            Err(fault) => return Err(fault),
        }
    }
    Ok(())
}
