// A directory is stamped.
ghost use Rattle.std.specs.Prelude.{◌≡◌, ◌⊎◌, ℕ, List, Option, Some, true, OnOk, OnErr};
ghost use Rattle.std.specs.FinMap.{insert};
ghost use Rattle.bfs_super.specs.Conditions.{IsValid};
ghost use Rattle.bfs_super.specs.Geometry.{geometry_of};
ghost use Rattle.bfs_bitmap.specs.Runs.{Room};
ghost use Rattle.bfs_txn.specs.Faults.{IsCaused};
ghost use Rattle.bfs_txn.specs.Told.{StaysChanged};
ghost use Rattle.bfs_tree.specs.Changes.{touched};
ghost use Rattle.bfs_tree.specs.declared.call.Kind.TheVariants.{Dir};
ghost use Rattle.bfs_tree.specs.Trees.{Node, Tree, IsNode};
ghost use Rattle.bfs_shift.specs.Lists.{Lists};
ghost use Rattle.bfs_shift.specs.Work.{IsAtWork, IsStepped};

use crate::inode::{buffer, write_stamp};
use bfs_super::Super;
use bfs_txn::{BlockFault, Edits};
use std::alloc::Global;

/// Writes a directory's stamp of the last change of its content.
pub fn stamp_directory<E: Edits>(
    alloc: Global,
    sup: &Super,
    edits: &mut E,
    dir: u64,
    stamp: i64,
) -> Result<(), BlockFault>
    requires valid { IsValid sup.now }
    requires size { E.size edits.old ≡ sup.now.block_size }
    ensures stamped { (v : Room) (m : ℕ → Option (List ℕ)) (tree : Tree) (lists : Lists) (loose : List ℕ) (n : Node) → E.told edits.old ≡ Some m → IsAtWork (geometry_of sup.now) v m tree lists loose → IsNode tree dir n → n.kind ≡ Dir → OnOk result (IsStepped (geometry_of sup.now) v v m tree (record tree { nodes = insert tree.nodes dir (touched stamp n) }) lists loose (E.told edits.new) (E.changed edits.old) (E.changed edits.new)) }
    ensures kept { OnErr result (E.told edits.new ≡ E.told edits.old) }
    ensures changed { (k : ℕ) → E.changed edits.new k ≡ true → (E.changed edits.old k ≡ true) ⊎ (k ≡ dir) }
    ensures stays { StaysChanged (E.changed edits.old) (E.changed edits.new) }
    ensures size { E.size edits.new ≡ E.size edits.old }
    ensures frame { E.frame edits.new ≡ E.frame edits.old }
    ensures cause { IsCaused (E.counts edits.old) (E.counts edits.new) result }
{
    let mut block = match buffer(alloc, sup) {
        Ok(block) => block,
        Err(fault) => return Err(fault),
    };
    match write_stamp(edits, &mut block, dir, stamp) {
        Ok(()) => Ok(()),
        Err(fault) => Err(fault),
    }
}
