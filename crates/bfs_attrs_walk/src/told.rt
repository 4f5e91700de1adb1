// The fault to answer where attributes have a block that is taken: the inode that has it is looked for.
ghost use Rattle.std.specs.Prelude.{◌≡◌, ◌<◌, ◌++◌, ◌∷◌, ℕ, List, Option, Some};
ghost use Rattle.bfs_super.specs.Conditions.{IsValid, natural, block_of_run};
ghost use Rattle.bfs_txn.specs.Faults.{Counts, AreLater};
ghost use Rattle.bfs_stream.specs.Sizes.{sizes_of};
ghost use Rattle.bfs_stream.specs.Told.{contents};
ghost use Rattle.bfs_stream_check.specs.Known.{IsAllTold};
ghost use Rattle.bfs_sound.specs.Attributes.{attribute_directory, HasDirectory};
ghost use Rattle.bfs_sound.specs.Whole.{volume_of};
ghost use Rattle.bfs_claims.specs.Claims.{Claimed};
ghost use Rattle.bfs_inode_walk.specs.Visited.{IsTrueOf, IsTakenFirst, IsVisitCause};
ghost use Rattle.bfs_nodes_walk.specs.declared.lead.NodeLead as rows;
ghost use Rattle.bfs_nodes_walk.specs.Leads.{AreInside};
ghost use Rattle.bfs_nodes_walk.specs.Walks.{IsWalked, blocks_of_visits};
ghost use Rattle.bfs_attrs_walk.specs.Passes.{id_of, attribute_blocks, blocks_of_leads, HaveDirectories, IsTakenIn, IsAttributeWay};

use crate::owners::{find_first, find_node};
use bfs_finding::Finding;
use bfs_inode_walk::VisitFault;
use bfs_nodes_walk::NodeLead;
use bfs_super::Super;
use bfs_txn::Blocks;
use std::alloc::Global;

/// The fault to answer where the attributes of the root could not be gone over: where a node has a block of theirs, this is found.
pub(crate) fn tell_root<B: Blocks>(
    alloc: Global,
    under: &mut B,
    sup: &Super,
    root: u64,
    leads: &[NodeLead],
    fault: VisitFault,
) -> VisitFault
    requires valid { IsValid sup.now }
    requires root { root ≡ block_of_run sup.now sup.now.root_dir }
    requires root_inside { root < natural sup.now.num_blocks }
    requires inside { AreInside (natural sup.now.num_blocks) leads.now }
    requires size { B.size under.old ≡ sup.now.block_size }
    requires all { (m : ℕ → Option (List ℕ)) → B.told under.old ≡ Some m → IsAllTold (sizes_of sup.now) m }
    ensures wrong { (m : ℕ → Option (List ℕ)) (xs : List ℕ) (c : Claimed) (w : IsWalked (volume_of sup.now (contents m)) xs c leads.now) (before : List ℕ) → B.told under.old ≡ Some m → IsTakenIn (volume_of sup.now (contents m)) before (attribute_directory (volume_of sup.now (contents m)) root) fault → IsTrueOf (volume_of sup.now (contents m)) fault → IsTrueOf (volume_of sup.now (contents m)) result }
    ensures taken { (m : ℕ → Option (List ℕ)) (xs : List ℕ) (c : Claimed) (w : IsWalked (volume_of sup.now (contents m)) xs c leads.now) → B.told under.old ≡ Some m → IsTakenIn (volume_of sup.now (contents m)) (xs ++ blocks_of_visits (volume_of sup.now (contents m)) (w.top ∷ w.visits)) (attribute_directory (volume_of sup.now (contents m)) root) fault → IsTakenFirst IsAttributeWay (volume_of sup.now (contents m)) xs result }
    ensures told { B.told under.new ≡ B.told under.old }
    ensures changed { B.changed under.new ≡ B.changed under.old }
    ensures pairs { B.pairs under.new ≡ B.pairs under.old }
    ensures size { B.size under.new ≡ B.size under.old }
    ensures frame { B.frame under.new ≡ B.frame under.old }
    ensures later { AreLater (B.counts under.old) (B.counts under.new) }
    ensures cause { (old : Counts) → AreLater old (B.counts under.old) → IsVisitCause old (B.counts under.old) fault → IsVisitCause old (B.counts under.new) result }
{
    match fault {
        VisitFault::Taken { block, owner } => {
            match find_node(alloc, under, sup, root, leads, block) {
                Ok(None) => VisitFault::Taken { block, owner },
                Ok(Some(first)) => VisitFault::Wrong(Finding::Shared {
                    block,
                    first,
                    second: owner,
                }),
                Err(other) => other,
            }
        }
        VisitFault::Wrong(finding) => VisitFault::Wrong(finding),
        VisitFault::Block(other) => VisitFault::Block(other),
    }
}

/// The fault to answer where the attributes of the node could not be gone over that the row behind these names: where a node, or attributes
/// that were gone over before, have a block of theirs, this is found.
pub(crate) fn tell_owner<B: Blocks>(
    alloc: Global,
    under: &mut B,
    sup: &Super,
    root: u64,
    leads: &[NodeLead],
    before: &[NodeLead],
    fault: VisitFault,
) -> VisitFault
    requires valid { IsValid sup.now }
    requires root { root ≡ block_of_run sup.now sup.now.root_dir }
    requires root_inside { root < natural sup.now.num_blocks }
    requires inside { AreInside (natural sup.now.num_blocks) leads.now }
    requires before { AreInside (natural sup.now.num_blocks) before.now }
    requires size { B.size under.old ≡ sup.now.block_size }
    requires all { (m : ℕ → Option (List ℕ)) → B.told under.old ≡ Some m → IsAllTold (sizes_of sup.now) m }
    requires have { (m : ℕ → Option (List ℕ)) → B.told under.old ≡ Some m → HasDirectory (volume_of sup.now (contents m)) root (attribute_directory (volume_of sup.now (contents m)) root) }
    requires those { (m : ℕ → Option (List ℕ)) → B.told under.old ≡ Some m → HaveDirectories (volume_of sup.now (contents m)) before.now }
    ensures wrong { (m : ℕ → Option (List ℕ)) (xs : List ℕ) (c : Claimed) (w : IsWalked (volume_of sup.now (contents m)) xs c leads.now) (l : rows.NodeLead) (back : List rows.NodeLead) (claimed : List ℕ) → B.told under.old ≡ Some m → leads.now ≡ before.now ++ l ∷ back → IsTakenIn (volume_of sup.now (contents m)) claimed (attribute_directory (volume_of sup.now (contents m)) (id_of l)) fault → IsTrueOf (volume_of sup.now (contents m)) fault → IsTrueOf (volume_of sup.now (contents m)) result }
    ensures taken { (m : ℕ → Option (List ℕ)) (xs : List ℕ) (c : Claimed) (w : IsWalked (volume_of sup.now (contents m)) xs c leads.now) (l : rows.NodeLead) (back : List rows.NodeLead) → B.told under.old ≡ Some m → leads.now ≡ before.now ++ l ∷ back → IsTakenIn (volume_of sup.now (contents m)) (((xs ++ blocks_of_visits (volume_of sup.now (contents m)) (w.top ∷ w.visits)) ++ attribute_blocks (volume_of sup.now (contents m)) root) ++ blocks_of_leads (volume_of sup.now (contents m)) before.now) (attribute_directory (volume_of sup.now (contents m)) (id_of l)) fault → IsTakenFirst IsAttributeWay (volume_of sup.now (contents m)) xs result }
    ensures told { B.told under.new ≡ B.told under.old }
    ensures changed { B.changed under.new ≡ B.changed under.old }
    ensures pairs { B.pairs under.new ≡ B.pairs under.old }
    ensures size { B.size under.new ≡ B.size under.old }
    ensures frame { B.frame under.new ≡ B.frame under.old }
    ensures later { AreLater (B.counts under.old) (B.counts under.new) }
    ensures cause { (old : Counts) → AreLater old (B.counts under.old) → IsVisitCause old (B.counts under.old) fault → IsVisitCause old (B.counts under.new) result }
{
    match fault {
        VisitFault::Taken { block, owner } => {
            match find_first(alloc, under, sup, root, leads, before, block) {
                Ok(None) => VisitFault::Taken { block, owner },
                Ok(Some(first)) => VisitFault::Wrong(Finding::Shared {
                    block,
                    first,
                    second: owner,
                }),
                Err(other) => other,
            }
        }
        VisitFault::Wrong(finding) => VisitFault::Wrong(finding),
        VisitFault::Block(other) => VisitFault::Block(other),
    }
}
