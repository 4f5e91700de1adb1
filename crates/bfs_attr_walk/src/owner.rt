// A second look at an attribute directory and the inodes that its rows name, where a block has two owners.
ghost use Rattle.std.specs.Prelude.{◌≡◌, ◌<◌, ◌++◌, ◌∷◌, ℕ, List, Option, Some, IfOk, IfErr};
ghost use Rattle.std.specs.List.{AllByRecursion};
ghost use Rattle.bfs_super.specs.Conditions.{IsValid, natural};
ghost use Rattle.bfs_txn.specs.Faults.{Counts, AreLater};
ghost use Rattle.bfs_stream.specs.Sizes.{sizes_of};
ghost use Rattle.bfs_stream.specs.Told.{contents};
ghost use Rattle.bfs_stream_check.specs.Known.{IsAllTold};
ghost use Rattle.bfs_sound.specs.Attributes.{attribute_directory};
ghost use Rattle.bfs_sound.specs.Inodes.{content, inode_blocks};
ghost use Rattle.bfs_sound.specs.Whole.{volume_of};
ghost use Rattle.bfs_finding.specs.Ways.{IsReached};
ghost use Rattle.bfs_inode_walk.specs.Visited.{IsTrueOf, IsUntaken, IsVisitCause};
ghost use Rattle.bfs_owner.specs.Owned.{ArePlaced, IsFound};
ghost use Rattle.bfs_names_walk.specs.Rows.{as_rows, AreNames};
ghost use Rattle.bfs_names_walk.specs.declared.row.NameRow as names;
ghost use Rattle.bfs_node_walk.specs.Listed.{proper, NamesBlock};
ghost use Rattle.bfs_attr_walk.specs.Attributed.{row_blocks, places_in, IsTakenIn};

use crate::places::stored_places;
use bfs_finding::Finding;
use bfs_inode_walk::VisitFault;
use bfs_names_walk::NameRow;
use bfs_owner::{Place, find_owner};
use bfs_super::Super;
use bfs_txn::Blocks;
use std::alloc::Global;

/// Finds which of an attribute directory and the inodes that rows of it name has a block, the directory first.
pub fn find_stored<B: Blocks>(
    alloc: Global,
    under: &mut B,
    sup: &Super,
    directory: u64,
    rows: &[NameRow],
    block: u64,
) -> Result<Option<Place>, VisitFault>
    requires valid { IsValid sup.now }
    requires directory { directory < natural sup.now.num_blocks }
    requires rows { AllByRecursion (NamesBlock (natural sup.now.num_blocks)) (proper (as_rows rows.now)) }
    requires size { B.size under.old ≡ sup.now.block_size }
    requires all { (m : ℕ → Option (List ℕ)) → B.told under.old ≡ Some m → IsAllTold (sizes_of sup.now) m }
    ensures found { (m : ℕ → Option (List ℕ)) → B.told under.old ≡ Some m → IfOk result (IsFound (volume_of sup.now (contents m)) (places_in directory rows.now) block) }
    ensures wrong { (m : ℕ → Option (List ℕ)) → B.told under.old ≡ Some m → ArePlaced (volume_of sup.now (contents m)) (places_in directory rows.now) → IfErr result (IsTrueOf (volume_of sup.now (contents m))) }
    ensures untaken { IfErr result IsUntaken }
    ensures told { B.told under.new ≡ B.told under.old }
    ensures changed { B.changed under.new ≡ B.changed under.old }
    ensures pairs { B.pairs under.new ≡ B.pairs under.old }
    ensures size { B.size under.new ≡ B.size under.old }
    ensures frame { B.frame under.new ≡ B.frame under.old }
    ensures later { AreLater (B.counts under.old) (B.counts under.new) }
    ensures cause { IfErr result (IsVisitCause (B.counts under.old) (B.counts under.new)) }
{
    let places = match stored_places(alloc, directory, rows) {
        Ok(places) => places,
        Err(fault) => return Err(fault),
    };
    match find_owner(alloc, under, sup, &places, block) {
        Ok(found) => Ok(found),
        Err(fault) => Err(fault),
    }
}

/// The fault to answer where the inode that the row behind these names could not be gone over: where a block of it is taken by the directory or by
/// what a row before names, this is found.
pub(crate) fn tell_owner<B: Blocks>(
    alloc: Global,
    under: &mut B,
    sup: &Super,
    directory: u64,
    rows: &[NameRow],
    fault: VisitFault,
) -> VisitFault
    requires valid { IsValid sup.now }
    requires directory { directory < natural sup.now.num_blocks }
    requires rows { AllByRecursion (NamesBlock (natural sup.now.num_blocks)) (proper (as_rows rows.now)) }
    requires size { B.size under.old ≡ sup.now.block_size }
    requires all { (m : ℕ → Option (List ℕ)) → B.told under.old ≡ Some m → IsAllTold (sizes_of sup.now) m }
    ensures wrong { (m : ℕ → Option (List ℕ)) (id : ℕ) (before : List ℕ) (row : names.NameRow) (back : List names.NameRow) → B.told under.old ≡ Some m → IsReached (volume_of sup.now (contents m)) id → attribute_directory (volume_of sup.now (contents m)) id ≡ Some directory → AreNames (content (volume_of sup.now (contents m)) directory) (rows.now ++ row ∷ back) → AllByRecursion (NamesBlock (natural sup.now.num_blocks)) (proper (as_rows (rows.now ++ row ∷ back))) → IsTrueOf (volume_of sup.now (contents m)) fault → IsTakenIn (volume_of sup.now (contents m)) before row fault → IsTrueOf (volume_of sup.now (contents m)) result }
    ensures taken { (m : ℕ → Option (List ℕ)) (xs : List ℕ) (row : names.NameRow) → B.told under.old ≡ Some m → IsTakenIn (volume_of sup.now (contents m)) ((xs ++ inode_blocks (volume_of sup.now (contents m)) directory) ++ row_blocks (volume_of sup.now (contents m)) rows.now) row fault → IsTakenIn (volume_of sup.now (contents m)) xs row result }
    ensures told { B.told under.new ≡ B.told under.old }
    ensures changed { B.changed under.new ≡ B.changed under.old }
    ensures pairs { B.pairs under.new ≡ B.pairs under.old }
    ensures size { B.size under.new ≡ B.size under.old }
    ensures frame { B.frame under.new ≡ B.frame under.old }
    ensures later { AreLater (B.counts under.old) (B.counts under.new) }
    ensures cause { (old : Counts) → AreLater old (B.counts under.old) → IsVisitCause old (B.counts under.old) fault → IsVisitCause old (B.counts under.new) result }
{
    match fault {
        VisitFault::Taken { block, owner } => {
            match find_stored(alloc, under, sup, directory, rows, block) {
                Ok(None) => VisitFault::Taken { block, owner },
                Ok(Some(place)) => VisitFault::Wrong(Finding::Shared {
                    block,
                    first: place.id,
                    second: owner,
                }),
                Err(other) => other,
            }
        }
        VisitFault::Wrong(finding) => VisitFault::Wrong(finding),
        VisitFault::Block(other) => VisitFault::Block(other),
    }
}
