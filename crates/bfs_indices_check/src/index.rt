// One index against the nodes.
ghost use Rattle.std.specs.Prelude.{◌≡◌, ◌<◌, ℕ, List, length, Option, Some, true, OnOk, IfOk, IfErr};
ghost use Rattle.bfs_base.specs.Keys.{IsTreeKind};
ghost use Rattle.bfs_base.specs.declared.kind.KeyKind.{KeyKind};
ghost use Rattle.bfs_super.specs.Conditions.{IsValid, natural};
ghost use Rattle.bfs_txn.specs.Faults.{AreLater, Counts};
ghost use Rattle.bfs_stream.specs.Sizes.{sizes_of};
ghost use Rattle.bfs_stream.specs.Told.{contents};
ghost use Rattle.bfs_stream_check.specs.Known.{IsAllTold};
ghost use Rattle.bfs_values.specs.Reached.{AreWritten};
ghost use Rattle.bfs_values.specs.Rows.{rows_in};
ghost use Rattle.bfs_sound.specs.Inodes.{content};
ghost use Rattle.bfs_sound.specs.Listings.{IsIndex};
ghost use Rattle.bfs_sound.specs.Whole.{volume_of};
ghost use Rattle.bfs_sound.specs.Owners.{In};
ghost use Rattle.bfs_finding.specs.TreeFaults.{HasTree};
ghost use Rattle.bfs_value_walk.specs.Written.{pairs_by};
ghost use Rattle.bfs_inode_walk.specs.Visited.{IsTrueOf, IsUntaken, IsVisitCause};
ghost use Rattle.bfs_index_check.specs.Compared.{Pair as Kept, pairs_of, IsTold};
ghost use Rattle.bfs_key_walk.specs.Gathered.{oldest_first};
ghost use Rattle.bfs_key_walk.specs.Keys.{kept_keys, keys_of_visits};
ghost use Rattle.bfs_key_walk.specs.Leads.{AreInside};
ghost use Rattle.bfs_tour.specs.Tours.{Visit, toured_tree};
ghost use Rattle.bfs_tree.specs.Trees.{HasBuiltIn};
ghost use Rattle.bfs_index_walk.specs.Indices.{kinds_of};
ghost use Rattle.bfs_index_walk.specs.declared.found.FoundIndex as found;
ghost use Rattle.bfs_indices_check.specs.Listed.{IsWalkedWhole, ListsAll, IsTrueWith, IsToldOf};

use crate::same::SamePairs;
use bfs_index::Pair;
use bfs_index_check::compare_pairs;
use bfs_index_walk::{FoundIndex, read_rows, read_values};
use bfs_inode_walk::{VisitFault, read_block};
use bfs_key_walk::nodes_walk::{NodeFacts, NodeLead};
use bfs_key_walk::wanted_pairs;
use bfs_node_check::NodeFault;
use bfs_range::Ranged;
use bfs_super::Super;
use bfs_txn::{BlockFault, Blocks};
use std::alloc::Global;

/// The rows of an index, which was gone over.
fn rows_of<B: Blocks>(
    alloc: Global,
    under: &mut B,
    sup: &Super,
    index: &FoundIndex,
) -> Result<Ranged, VisitFault>
    requires valid { IsValid sup.now }
    requires inside { (index.now.id < natural sup.now.num_blocks) × IsTreeKind index.now.kind }
    requires size { B.size under.old ≡ sup.now.block_size }
    requires all { (m : ℕ → Option (List ℕ)) → B.told under.old ≡ Some m → IsAllTold (sizes_of sup.now) m }
    requires there { (m : ℕ → Option (List ℕ)) → B.told under.old ≡ Some m → IsIndex (volume_of sup.now (contents m)) index.now.id index.now.kind }
    ensures written { (m : ℕ → Option (List ℕ)) → B.told under.old ≡ Some m → IfOk result (λ rows. AreWritten (content (volume_of sup.now (contents m)) index.now.id) (rows_in index.now.kind (content (volume_of sup.now (contents m)) index.now.id)) (pairs_by rows)) }
    ensures wrong { (m : ℕ → Option (List ℕ)) → B.told under.old ≡ Some m → HasTree (volume_of sup.now (contents m)) index.now.id index.now.kind → IfErr result (IsTrueOf (volume_of sup.now (contents m))) }
    ensures untaken { IfErr result IsUntaken }
    ensures told { B.told under.new ≡ B.told under.old }
    ensures changed { B.changed under.new ≡ B.changed under.old }
    ensures pairs { B.pairs under.new ≡ B.pairs under.old }
    ensures size { B.size under.new ≡ B.size under.old }
    ensures frame { B.frame under.new ≡ B.frame under.old }
    ensures later { AreLater (B.counts under.old) (B.counts under.new) }
    ensures cause { IfErr result (IsVisitCause (B.counts under.old) (B.counts under.new)) }
{
    let bytes = match read_block(alloc, under, *sup, index.id) {
        Ok(bytes) => bytes,
        Err(fault) => return Err(VisitFault::Block(fault)),
    };
    match read_values(alloc, under, sup, index.id, &bytes, index.kind) {
        Ok(rows) => Ok(rows),
        Err(fault) => Err(fault),
    }
}

/// Whether an index that was gone over has the pairs that are wanted, and no others. It is read once more, and none of its rows are kept.
fn is_listed<B: Blocks>(
    alloc: Global,
    under: &mut B,
    sup: &Super,
    index: &FoundIndex,
    wanted: &[Pair],
) -> Result<bool, VisitFault>
    requires valid { IsValid sup.now }
    requires inside { (index.now.id < natural sup.now.num_blocks) × IsTreeKind index.now.kind }
    requires size { B.size under.old ≡ sup.now.block_size }
    requires all { (m : ℕ → Option (List ℕ)) → B.told under.old ≡ Some m → IsAllTold (sizes_of sup.now) m }
    requires there { (m : ℕ → Option (List ℕ)) → B.told under.old ≡ Some m → IsIndex (volume_of sup.now (contents m)) index.now.id index.now.kind }
    ensures written { (m : ℕ → Option (List ℕ)) → B.told under.old ≡ Some m → IfOk result (λ same. same ≡ true → AreWritten (content (volume_of sup.now (contents m)) index.now.id) (rows_in index.now.kind (content (volume_of sup.now (contents m)) index.now.id)) (pairs_of wanted.now)) }
    ensures wrong { (m : ℕ → Option (List ℕ)) → B.told under.old ≡ Some m → HasTree (volume_of sup.now (contents m)) index.now.id index.now.kind → IfErr result (IsTrueOf (volume_of sup.now (contents m))) }
    ensures untaken { IfErr result IsUntaken }
    ensures told { B.told under.new ≡ B.told under.old }
    ensures changed { B.changed under.new ≡ B.changed under.old }
    ensures pairs { B.pairs under.new ≡ B.pairs under.old }
    ensures size { B.size under.new ≡ B.size under.old }
    ensures frame { B.frame under.new ≡ B.frame under.old }
    ensures later { AreLater (B.counts under.old) (B.counts under.new) }
    ensures cause { IfErr result (IsVisitCause (B.counts under.old) (B.counts under.new)) }
{
    let bytes = match read_block(alloc, under, *sup, index.id) {
        Ok(bytes) => bytes,
        Err(fault) => return Err(VisitFault::Block(fault)),
    };
    let mut pairs = SamePairs::new(wanted);
    match read_rows(alloc, under, sup, index.id, &bytes, index.kind, &mut pairs) {
        Ok(()) => Ok(pairs.are_all()),
        Err(fault) => Err(fault),
    }
}

/// The fault of a comparison, as one of a check.
fn told(fault: NodeFault) -> VisitFault
    ensures told { (index : List ℕ) (kind : KeyKind) (wanted found : List Kept) → IsTold index kind wanted found fault → IsToldOf index kind wanted found result }
    ensures cause { (old new : Counts) → IsVisitCause old new result }
{
    match fault {
        NodeFault::Wrong(finding) => VisitFault::Wrong(finding),
        NodeFault::NoMemory => VisitFault::Block(BlockFault::NoMemory),
    }
}

/// Holds an index that was gone over against the nodes that were: it lists what the tree's rule says, or a pair is told which stands in one of
/// the two alone. It takes the memory of as many pairs as it has to list; and where it lists others, of its rows.
pub(crate) fn check_index<B: Blocks>(
    alloc: Global,
    under: &mut B,
    sup: &Super,
    root: u64,
    leads: &[NodeLead],
    facts: &[NodeFacts],
    index: &FoundIndex,
) -> Result<(), VisitFault>
    requires valid { IsValid sup.now }
    requires root_inside { root < natural sup.now.num_blocks }
    requires leads { AreInside (natural sup.now.num_blocks) leads.now }
    requires many { length facts.now ≡ length leads.now }
    requires inside { (index.now.id < natural sup.now.num_blocks) × IsTreeKind index.now.kind }
    requires size { B.size under.old ≡ sup.now.block_size }
    requires all { (m : ℕ → Option (List ℕ)) → B.told under.old ≡ Some m → IsAllTold (sizes_of sup.now) m }
    requires known { (m : ℕ → Option (List ℕ)) → B.told under.old ≡ Some m → (indices : List found.FoundIndex) × (top : Visit) × (visits : List Visit) × IsWalkedWhole (volume_of sup.now (contents m)) root leads.now indices top visits × In index.now indices }
    ensures listed { (m : ℕ → Option (List ℕ)) (indices : List found.FoundIndex) (top : Visit) (visits : List Visit) → B.told under.old ≡ Some m → IsWalkedWhole (volume_of sup.now (contents m)) root leads.now indices top visits → In index.now indices → kept_keys facts.now ≡ keys_of_visits (oldest_first visits)
        → OnOk result (ListsAll (volume_of sup.now (contents m)) (toured_tree (volume_of sup.now (contents m)) top visits (kinds_of indices)) index.now) }
    ensures wrong { (m : ℕ → Option (List ℕ)) (indices : List found.FoundIndex) (top : Visit) (visits : List Visit) → B.told under.old ≡ Some m → IsWalkedWhole (volume_of sup.now (contents m)) root leads.now indices top visits → In index.now indices → kept_keys facts.now ≡ keys_of_visits (oldest_first visits)
        → HasBuiltIn (toured_tree (volume_of sup.now (contents m)) top visits (kinds_of indices)).indices → IfErr result (IsTrueWith (volume_of sup.now (contents m)) (toured_tree (volume_of sup.now (contents m)) top visits (kinds_of indices))) }
    ensures told { B.told under.new ≡ B.told under.old }
    ensures changed { B.changed under.new ≡ B.changed under.old }
    ensures pairs { B.pairs under.new ≡ B.pairs under.old }
    ensures size { B.size under.new ≡ B.size under.old }
    ensures frame { B.frame under.new ≡ B.frame under.old }
    ensures later { AreLater (B.counts under.old) (B.counts under.new) }
    ensures cause { IfErr result (IsVisitCause (B.counts under.old) (B.counts under.new)) }
{
    let name = index.name.as_slice();
    let wanted = match wanted_pairs(alloc, under, sup, root, leads, facts, name, index.kind) {
        Ok(wanted) => wanted,
        Err(fault) => return Err(fault),
    };
    let listed = match is_listed(alloc, under, sup, index, &wanted) {
        Ok(listed) => listed,
        Err(fault) => return Err(fault),
    };
    if listed {
        return Ok(());
    }
    let rows = match rows_of(alloc, under, sup, index) {
        Ok(rows) => rows,
        Err(fault) => return Err(fault),
    };
    match compare_pairs(alloc, name, index.kind, &wanted, rows.as_slice()) {
        Ok(()) => Ok(()),
        Err(fault) => Err(told(fault)),
    }
}
