// The pairs that an index has to list.
ghost use Rattle.std.specs.Prelude.{◌≡◌, ◌<◌, ◌∷◌, ℕ, List, length, Option, Some, IfOk, IfErr};
ghost use Rattle.std.specs.FinMap.{entries, from_entries};
ghost use Rattle.std.specs.Ordering.{nat_cmp};
ghost use Rattle.bfs_super.specs.Conditions.{IsValid, natural};
ghost use Rattle.bfs_txn.specs.Faults.{AreLater};
ghost use Rattle.bfs_stream.specs.Sizes.{sizes_of};
ghost use Rattle.bfs_stream.specs.Told.{contents};
ghost use Rattle.bfs_stream_check.specs.Known.{IsAllTold};
ghost use Rattle.bfs_tree.specs.Listings.{listed_among};
ghost use Rattle.bfs_sound.specs.Whole.{volume_of};
ghost use Rattle.bfs_tour.specs.Tours.{Visit};
ghost use Rattle.bfs_nodes_walk.specs.Leads.{AreInside};
ghost use Rattle.bfs_inode_walk.specs.Visited.{IsVisitCause};
ghost use Rattle.bfs_index_check.specs.Compared.{pairs_of};
ghost use Rattle.bfs_key_walk.specs.Gathered.{IsUnread, IsGoneOver, oldest_first};
ghost use Rattle.bfs_key_walk.specs.Keys.{kept_keys, keys_of_visits};

use crate::gather::{gather_leads, gather_node};
use crate::inode_keys::read_keys;
use bfs_index::Pair;
use bfs_index_check::sort_pairs;
use bfs_inode_walk::VisitFault;
use bfs_nodes_walk::{NodeFacts, NodeLead};
use bfs_super::Super;
use bfs_tree::KeyKind;
use bfs_txn::{BlockFault, Blocks};
use std::alloc::Global;

/// The pairs that an index of a name and kind has to list, in its order, of all nodes that were gone over: the root at this block, and those
/// that rows name, whose keys as files were kept as they were gone over. Beside the root's inode only a node's attributes are read, for an index of their name. It
/// takes the memory of these pairs.
pub fn wanted_pairs<B: Blocks>(
    alloc: Global,
    under: &mut B,
    sup: &Super,
    root: u64,
    leads: &[NodeLead],
    facts: &[NodeFacts],
    index: &[u8],
    kind: KeyKind,
) -> Result<Vec<Pair>, VisitFault>
    requires valid { IsValid sup.now }
    requires root_inside { root < natural sup.now.num_blocks }
    requires inside { AreInside (natural sup.now.num_blocks) leads.now }
    requires many { length facts.now ≡ length leads.now }
    requires size { B.size under.old ≡ sup.now.block_size }
    requires all { (m : ℕ → Option (List ℕ)) → B.told under.old ≡ Some m → IsAllTold (sizes_of sup.now) m }
    requires known { (m : ℕ → Option (List ℕ)) → B.told under.old ≡ Some m → (top : Visit) × (visits : List Visit) × IsGoneOver (volume_of sup.now (contents m)) root leads.now top visits }
    ensures wanted { (m : ℕ → Option (List ℕ)) (top : Visit) (visits : List Visit) → B.told under.old ≡ Some m → IsGoneOver (volume_of sup.now (contents m)) root leads.now top visits → kept_keys facts.now ≡ keys_of_visits (oldest_first visits) → IfOk result (λ pairs. pairs_of pairs.items ≡ listed_among root index.now kind (entries (from_entries {R = nat_cmp} (top ∷ visits)))) }
    ensures unread { (m : ℕ → Option (List ℕ)) → B.told under.old ≡ Some m → IfErr result IsUnread }
    ensures told { B.told under.new ≡ B.told under.old }
    ensures changed { B.changed under.new ≡ B.changed under.old }
    ensures pairs { B.pairs under.new ≡ B.pairs under.old }
    ensures size { B.size under.new ≡ B.size under.old }
    ensures frame { B.frame under.new ≡ B.frame under.old }
    ensures later { AreLater (B.counts under.old) (B.counts under.new) }
    ensures cause { IfErr result (IsVisitCause (B.counts under.old) (B.counts under.new)) }
{
    let mut pairs = Vec::new(alloc);
    let top = match read_keys(alloc, under, sup, root) {
        Ok(top) => top,
        Err(fault) => return Err(fault),
    };
    match gather_node(
        alloc,
        under,
        sup,
        root,
        true,
        &[],
        top,
        index,
        kind,
        &mut pairs,
    ) {
        Ok(()) => {}
        Err(fault) => return Err(fault),
    }
    match gather_leads(alloc, under, sup, leads, facts, index, kind, &mut pairs) {
        Ok(()) => {}
        Err(fault) => return Err(fault),
    }
    match sort_pairs(kind, &mut pairs) {
        Ok(()) => Ok(pairs),
        Err(_) => Err(VisitFault::Block(BlockFault::NoMemory)),
    }
}
