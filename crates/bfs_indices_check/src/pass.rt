// All indices.
ghost use Rattle.std.specs.Prelude.{◌≡◌, ◌≢◌, ◌<◌, ℕ, List, length, Option, Some, OnOk, IfErr};
ghost use Rattle.std.specs.FinMap.{empty, from_entries};
ghost use Rattle.bfs_base.specs.Keys.{text_cmp};
ghost use Rattle.bfs_super.specs.Conditions.{IsValid, natural};
ghost use Rattle.bfs_txn.specs.Faults.{AreLater, Counts};
ghost use Rattle.bfs_stream.specs.Sizes.{sizes_of};
ghost use Rattle.bfs_stream.specs.Told.{contents};
ghost use Rattle.bfs_stream_check.specs.Known.{IsAllTold};
ghost use Rattle.bfs_sound.specs.Volumes.{Volume};
ghost use Rattle.bfs_sound.specs.Whole.{volume_of, HasSoundIndices};
ghost use Rattle.bfs_inode_walk.specs.Visited.{IsVisitCause};
ghost use Rattle.bfs_key_walk.specs.Gathered.{oldest_first};
ghost use Rattle.bfs_key_walk.specs.Facts.{AreFactsOf};
ghost use Rattle.bfs_key_walk.specs.Keys.{kept_keys, keys_of_visits};
ghost use Rattle.bfs_key_walk.specs.Leads.{AreInside};
ghost use Rattle.bfs_tour.specs.Tours.{Visit, toured_tree};
ghost use Rattle.bfs_tree.specs.Trees.{Tree, HasBuiltIn};
ghost use Rattle.bfs_index_walk.specs.Indices.{kinds_of};
ghost use Rattle.bfs_index_walk.specs.Indices.{AreInside as AreIndicesInside};
ghost use Rattle.bfs_index_walk.specs.declared.found.FoundIndex as index;
ghost use Rattle.bfs_indices_check.specs.Listed.{IsWalkedWhole, AllListed, IsTrueWith, IsMissing};

use crate::built_in::check_built_in;
use crate::index::check_index;
use bfs_index_walk::FoundIndex;
use bfs_inode_walk::VisitFault;
use bfs_key_walk::nodes_walk::{NodeFacts, NodeLead};
use bfs_node_check::NodeFault;
use bfs_super::Super;
use bfs_txn::{BlockFault, Blocks};
use std::alloc::Global;

/// The fault of the look at the built-in indices, as one of a check.
fn not_built(fault: NodeFault) -> VisitFault
    ensures missing { (v : Volume) (tree : Tree) (found : List index.FoundIndex) → tree.indices ≡ from_entries {R = text_cmp} (kinds_of found) → tree.indices ≢ empty → IsMissing found fault → IsTrueWith v tree result }
    ensures cause { (old new : Counts) → IsVisitCause old new result }
{
    match fault {
        NodeFault::Wrong(finding) => VisitFault::Wrong(finding),
        NodeFault::NoMemory => VisitFault::Block(BlockFault::NoMemory),
    }
}

/// Holds the indices one after the other against the nodes.
fn check_each<B: Blocks>(
    alloc: Global,
    under: &mut B,
    sup: &Super,
    root: u64,
    leads: &[NodeLead],
    facts: &[NodeFacts],
    found: &[FoundIndex],
) -> Result<(), VisitFault>
    requires valid { IsValid sup.now }
    requires root_inside { root < natural sup.now.num_blocks }
    requires leads { AreInside (natural sup.now.num_blocks) leads.now }
    requires many { length facts.now ≡ length leads.now }
    requires inside { AreIndicesInside (natural sup.now.num_blocks) found.now }
    requires size { B.size under.old ≡ sup.now.block_size }
    requires all { (m : ℕ → Option (List ℕ)) → B.told under.old ≡ Some m → IsAllTold (sizes_of sup.now) m }
    requires known { (m : ℕ → Option (List ℕ)) → B.told under.old ≡ Some m → (top : Visit) × (visits : List Visit) × IsWalkedWhole (volume_of sup.now (contents m)) root leads.now found.now top visits }
    ensures listed { (m : ℕ → Option (List ℕ)) (top : Visit) (visits : List Visit) → B.told under.old ≡ Some m → IsWalkedWhole (volume_of sup.now (contents m)) root leads.now found.now top visits → kept_keys facts.now ≡ keys_of_visits (oldest_first visits)
        → OnOk result (AllListed (volume_of sup.now (contents m)) (toured_tree (volume_of sup.now (contents m)) top visits (kinds_of found.now)) found.now) }
    ensures wrong { (m : ℕ → Option (List ℕ)) (top : Visit) (visits : List Visit) → B.told under.old ≡ Some m → IsWalkedWhole (volume_of sup.now (contents m)) root leads.now found.now top visits → kept_keys facts.now ≡ keys_of_visits (oldest_first visits)
        → HasBuiltIn (toured_tree (volume_of sup.now (contents m)) top visits (kinds_of found.now)).indices → IfErr result (IsTrueWith (volume_of sup.now (contents m)) (toured_tree (volume_of sup.now (contents m)) top visits (kinds_of found.now))) }
    ensures told { B.told under.new ≡ B.told under.old }
    ensures changed { B.changed under.new ≡ B.changed under.old }
    ensures pairs { B.pairs under.new ≡ B.pairs under.old }
    ensures size { B.size under.new ≡ B.size under.old }
    ensures frame { B.frame under.new ≡ B.frame under.old }
    ensures later { AreLater (B.counts under.old) (B.counts under.new) }
    ensures cause { IfErr result (IsVisitCause (B.counts under.old) (B.counts under.new)) }
{
    for i in 0..found.len() {
        match check_index(alloc, under, sup, root, leads, facts, &found[i]) {
            Ok(()) => {}
            Err(fault) => return Err(fault),
        }
    }
    Ok(())
}

/// Holds the indices that were gone over against the nodes that were: where there are any, the built-in ones are there with their kinds of
/// keys, and each lists what the tree's rule says; else the first thing that is wrong is told. The keys of files were kept as the nodes were gone
/// over; each index is read once more. It takes the memory of the pairs that one index has to list; where an index lists others it is read a third
/// time, and its rows are kept to tell the difference.
pub fn check_indices<B: Blocks>(
    alloc: Global,
    under: &mut B,
    sup: &Super,
    root: u64,
    leads: &[NodeLead],
    facts: &[NodeFacts],
    found: &[FoundIndex],
) -> Result<(), VisitFault>
    requires valid { IsValid sup.now }
    requires root_inside { root < natural sup.now.num_blocks }
    requires leads { AreInside (natural sup.now.num_blocks) leads.now }
    requires many { length facts.now ≡ length leads.now }
    requires facts { (m : ℕ → Option (List ℕ)) → B.told under.old ≡ Some m → AreFactsOf (volume_of sup.now (contents m)) leads.now facts.now }
    requires inside { AreIndicesInside (natural sup.now.num_blocks) found.now }
    requires size { B.size under.old ≡ sup.now.block_size }
    requires all { (m : ℕ → Option (List ℕ)) → B.told under.old ≡ Some m → IsAllTold (sizes_of sup.now) m }
    requires known { (m : ℕ → Option (List ℕ)) → B.told under.old ≡ Some m → (top : Visit) × (visits : List Visit) × IsWalkedWhole (volume_of sup.now (contents m)) root leads.now found.now top visits }
    ensures sound { (m : ℕ → Option (List ℕ)) (top : Visit) (visits : List Visit) → B.told under.old ≡ Some m → IsWalkedWhole (volume_of sup.now (contents m)) root leads.now found.now top visits
        → OnOk result (HasSoundIndices (volume_of sup.now (contents m)) (toured_tree (volume_of sup.now (contents m)) top visits (kinds_of found.now))) }
    ensures wrong { (m : ℕ → Option (List ℕ)) (top : Visit) (visits : List Visit) → B.told under.old ≡ Some m → IsWalkedWhole (volume_of sup.now (contents m)) root leads.now found.now top visits
        → IfErr result (IsTrueWith (volume_of sup.now (contents m)) (toured_tree (volume_of sup.now (contents m)) top visits (kinds_of found.now))) }
    ensures told { B.told under.new ≡ B.told under.old }
    ensures changed { B.changed under.new ≡ B.changed under.old }
    ensures pairs { B.pairs under.new ≡ B.pairs under.old }
    ensures size { B.size under.new ≡ B.size under.old }
    ensures frame { B.frame under.new ≡ B.frame under.old }
    ensures later { AreLater (B.counts under.old) (B.counts under.new) }
    ensures cause { IfErr result (IsVisitCause (B.counts under.old) (B.counts under.new)) }
{
    if found.is_empty() {
        return Ok(());
    }
    match check_built_in(alloc, found) {
        Ok(()) => {}
        Err(fault) => return Err(not_built(fault)),
    }
    match check_each(alloc, under, sup, root, leads, facts, found) {
        Ok(()) => Ok(()),
        Err(fault) => Err(fault),
    }
}
