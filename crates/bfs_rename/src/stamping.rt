// Two directories are stamped, which may be one.
ghost use Rattle.std.specs.Prelude.{◌≡◌, ℕ, List, Option, Some, OnOk, IfErr};
ghost use Rattle.bfs_super.specs.Conditions.{IsValid};
ghost use Rattle.bfs_super.specs.Geometry.{geometry_of};
ghost use Rattle.bfs_bitmap.specs.Runs.{Room};
ghost use Rattle.bfs_txn.specs.Faults.{AreLater};
ghost use Rattle.bfs_txn.specs.Told.{StaysChanged};
ghost use Rattle.bfs_tree.specs.Trees.{Node, Tree, IsNode};
ghost use Rattle.bfs_tree.specs.declared.call.Kind.TheVariants.{Dir};
ghost use Rattle.bfs_shift.specs.Lists.{Lists};
ghost use Rattle.bfs_shift.specs.Work.{IsAtWork, IsStepped};
ghost use Rattle.bfs_calls.specs.Done.{IsUnanswered, HasAnswerCause};
ghost use Rattle.bfs_rename.specs.Stamped.{both_touched};

use bfs_calls::blocked;
use bfs_moves::stamp_directory;
use bfs_stream_pages::MapFault;
use bfs_super::Super;
use bfs_txn::Edits;
use std::alloc::Global;

/// Writes into two directories, perhaps one, the stamp of the last change of their content.
pub(crate) fn stamp_both<E: Edits>(
    alloc: Global,
    sup: &Super,
    edits: &mut E,
    dir: u64,
    to_dir: u64,
    stamp: i64,
) -> Result<(), MapFault>
    requires valid { IsValid sup.now }
    requires size { E.size edits.old ≡ sup.now.block_size }
    ensures stamped { (v : Room) (m : ℕ → Option (List ℕ)) (tree : Tree) (lists : Lists) (loose : List ℕ) (d t : Node) → E.told edits.old ≡ Some m → IsAtWork (geometry_of sup.now) v m tree lists loose → IsNode tree dir d → d.kind ≡ Dir → IsNode tree to_dir t → t.kind ≡ Dir → OnOk result (IsStepped (geometry_of sup.now) v v m tree (both_touched tree dir to_dir stamp) lists loose (E.told edits.new) (E.changed edits.old) (E.changed edits.new)) }
    ensures unanswered { IfErr result IsUnanswered }
    ensures cause { IfErr result (HasAnswerCause (E.counts edits.old) (E.counts edits.new)) }
    ensures stays { StaysChanged (E.changed edits.old) (E.changed edits.new) }
    ensures size { E.size edits.new ≡ E.size edits.old }
    ensures frame { E.frame edits.new ≡ E.frame edits.old }
    ensures later { AreLater (E.counts edits.old) (E.counts edits.new) }
{
    match stamp_directory(alloc, sup, edits, dir, stamp) {
        Ok(()) => {}
        Err(fault) => return Err(blocked(fault)),
    }
    match stamp_directory(alloc, sup, edits, to_dir, stamp) {
        Ok(()) => Ok(()),
        Err(fault) => Err(blocked(fault)),
    }
}
