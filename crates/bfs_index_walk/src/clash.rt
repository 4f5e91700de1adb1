// Which of the index directory and the indices has a block that is taken.
ghost use Rattle.std.specs.Prelude.{◌≡◌, ◌<◌, ◌++◌, ◌∷◌, ℕ, List, Option, Some, IfOk, IfErr};
ghost use Rattle.std.specs.List.{AllByRecursion};
ghost use Rattle.bfs_super.specs.Conditions.{IsValid, natural};
ghost use Rattle.bfs_txn.specs.Faults.{AreLater, Counts};
ghost use Rattle.bfs_stream.specs.Sizes.{sizes_of};
ghost use Rattle.bfs_stream.specs.Told.{contents};
ghost use Rattle.bfs_stream_check.specs.Known.{IsAllTold};
ghost use Rattle.bfs_sound.specs.Whole.{volume_of};
ghost use Rattle.bfs_inode_walk.specs.Visited.{IsTrueOf, IsUntaken, IsVisitCause};
ghost use Rattle.bfs_owner.specs.Owned.{ArePlaced, IsFound, blocks_of_places};
ghost use Rattle.bfs_names_walk.specs.Rows.{as_rows};
ghost use Rattle.bfs_names_walk.specs.declared.row.NameRow as names;
ghost use Rattle.bfs_node_walk.specs.Listed.{proper, NamesBlock};
ghost use Rattle.bfs_attrs_walk.specs.Attributed.{IsTakenIn};
ghost use Rattle.bfs_index_walk.specs.Indices.{AreRowsOf, places_by_rows};

use crate::places::row_places;
use bfs_finding::Finding;
use bfs_inode_walk::VisitFault;
use bfs_names_walk::NameRow;
use bfs_owner::{Place, find_owner};
use bfs_super::Super;
use bfs_txn::Blocks;
use std::alloc::Global;

/// Finds the first among the index directory and the indices that rows of it name that has a block.
fn owner_among<B: Blocks>(
    alloc: Global,
    under: &mut B,
    sup: &Super,
    directory: u64,
    rows: &[NameRow],
    block: u64,
) -> Result<Option<Place>, VisitFault>
    requires valid { IsValid sup.now }
    requires directory { directory < natural sup.now.num_blocks }
    requires rows { AllByRecursion (NamesBlock (natural sup.now.num_blocks)) (proper (as_rows rows.now)) }
    requires size { B.size under.old ≡ sup.now.block_size }
    requires all { (m : ℕ → Option (List ℕ)) → B.told under.old ≡ Some m → IsAllTold (sizes_of sup.now) m }
    ensures found { (m : ℕ → Option (List ℕ)) → B.told under.old ≡ Some m → IfOk result (IsFound (volume_of sup.now (contents m)) (places_by_rows directory rows.now) block) }
    ensures wrong { (m : ℕ → Option (List ℕ)) → B.told under.old ≡ Some m → ArePlaced (volume_of sup.now (contents m)) (places_by_rows directory rows.now) → IfErr result (IsTrueOf (volume_of sup.now (contents m))) }
    ensures untaken { IfErr result IsUntaken }
    ensures told { B.told under.new ≡ B.told under.old }
    ensures changed { B.changed under.new ≡ B.changed under.old }
    ensures pairs { B.pairs under.new ≡ B.pairs under.old }
    ensures size { B.size under.new ≡ B.size under.old }
    ensures frame { B.frame under.new ≡ B.frame under.old }
    ensures later { AreLater (B.counts under.old) (B.counts under.new) }
    ensures cause { IfErr result (IsVisitCause (B.counts under.old) (B.counts under.new)) }
{
    let places = match row_places(alloc, directory, rows) {
        Ok(places) => places,
        Err(fault) => return Err(fault),
    };
    match find_owner(alloc, under, sup, &places, block) {
        Ok(found) => Ok(found),
        Err(fault) => Err(fault),
    }
}

/// What is answered where the index of a row couldn't be gone over: where a block of it is taken, and the index directory or an index that a row
/// before names has it, that it is shared with the first of them that has it. What else is wrong stays.
pub(crate) fn refusal<B: Blocks>(
    alloc: Global,
    under: &mut B,
    sup: &Super,
    directory: u64,
    rows: &[NameRow],
    fault: VisitFault,
) -> VisitFault
    requires valid { IsValid sup.now }
    requires directory { directory < natural sup.now.num_blocks }
    requires rows { AllByRecursion (NamesBlock (natural sup.now.num_blocks)) (proper (as_rows rows.now)) }
    requires size { B.size under.old ≡ sup.now.block_size }
    requires all { (m : ℕ → Option (List ℕ)) → B.told under.old ≡ Some m → IsAllTold (sizes_of sup.now) m }
    ensures wrong { (m : ℕ → Option (List ℕ)) (before : List ℕ) (row : names.NameRow) (back : List names.NameRow) → B.told under.old ≡ Some m → AreRowsOf (volume_of sup.now (contents m)) directory (rows.now ++ row ∷ back) → IsTrueOf (volume_of sup.now (contents m)) fault → IsTakenIn (volume_of sup.now (contents m)) before row fault → IsTrueOf (volume_of sup.now (contents m)) result }
    ensures taken { (m : ℕ → Option (List ℕ)) (before : List ℕ) (row : names.NameRow) → B.told under.old ≡ Some m → IsTakenIn (volume_of sup.now (contents m)) (before ++ blocks_of_places (volume_of sup.now (contents m)) (places_by_rows directory rows.now)) row fault → IsTakenIn (volume_of sup.now (contents m)) before row result }
    ensures told { B.told under.new ≡ B.told under.old }
    ensures changed { B.changed under.new ≡ B.changed under.old }
    ensures pairs { B.pairs under.new ≡ B.pairs under.old }
    ensures size { B.size under.new ≡ B.size under.old }
    ensures frame { B.frame under.new ≡ B.frame under.old }
    ensures later { AreLater (B.counts under.old) (B.counts under.new) }
    ensures cause { (old : Counts) → AreLater old (B.counts under.old) → IsVisitCause old (B.counts under.old) fault → IsVisitCause old (B.counts under.new) result }
{
    let (block, owner) = match fault {
        VisitFault::Taken { block, owner } => (block, owner),
        other => return other,
    };
    let found = match owner_among(alloc, under, sup, directory, rows, block) {
        Ok(found) => found,
        Err(fault) => return fault,
    };
    match found {
        Some(place) => VisitFault::Wrong(Finding::Shared {
            block,
            first: place.id,
            second: owner,
        }),
        None => VisitFault::Taken { block, owner },
    }
}
