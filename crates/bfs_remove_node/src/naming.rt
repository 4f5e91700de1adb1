// A name leaves its directory, which is stamped.
ghost use Rattle.std.specs.Prelude.{◌≡◌, ◌<◌, ℕ, ℤ, List, [], Option, Some, OnOk, IfErr};
ghost use Rattle.bfs_base.specs.declared.kind.KeyKind.TheVariants.{Text};
ghost use Rattle.bfs_super.specs.Conditions.{IsValid, natural};
ghost use Rattle.bfs_super.specs.Geometry.{geometry_of};
ghost use Rattle.bfs_txn.specs.Faults.{AreLater};
ghost use Rattle.bfs_txn.specs.Told.{StaysChanged};
ghost use Rattle.bfs_pages.specs.Maps.{assoc, without};
ghost use Rattle.bfs_stream.specs.Grown.{IsOfVolume};
ghost use Rattle.bfs_stream.specs.Sizes.{sizes_of};
ghost use Rattle.bfs_tree.specs.declared.call.Kind.TheVariants.{Dir};
ghost use Rattle.bfs_tree.specs.Trees.{Node, Tree, IsNode};
ghost use Rattle.bfs_maps.specs.NumberTrees.{AreNumbers};
ghost use Rattle.bfs_maps.specs.Refused.{IsUndone};
ghost use Rattle.bfs_shift.specs.Lists.{Lists, with_rows};
ghost use Rattle.bfs_shift.specs.Work.{IsAtWork, IsStepped, HasDirectoryAt};
ghost use Rattle.bfs_calls.specs.Done.{HasAnswerCause};
ghost use Rattle.bfs_calls.specs.Made.{with_touched};

use bfs_bitmap::Bitmap;
use bfs_calls::{blocked, not_taken};
use bfs_leave::take_name;
use bfs_moves::stamp_directory;
use bfs_stream_pages::MapFault;
use bfs_super::Super;
use bfs_txn::Edits;
use std::alloc::Global;

/// Takes a name that is there out of its directory, which is stamped.
pub(crate) fn leave_name<E: Edits>(
    alloc: Global,
    sup: &Super,
    bitmap: &mut Bitmap,
    edits: &mut E,
    dir: u64,
    name: &[u8],
    stamp: i64,
) -> Result<(), MapFault>
    requires valid { IsValid sup.now }
    requires inside { dir < natural sup.now.num_blocks }
    requires size { E.size edits.old ≡ sup.now.block_size }
    requires volume { IsOfVolume (sizes_of sup.now) bitmap.old }
    requires directory { (m : ℕ → Option (List ℕ)) → E.told edits.old ≡ Some m → HasDirectoryAt (geometry_of sup.now) bitmap.old m dir }
    ensures left { (m : ℕ → Option (List ℕ)) (tree : Tree) (lists : Lists) (d : Node) → E.told edits.old ≡ Some m → IsAtWork (geometry_of sup.now) bitmap.old m tree lists [] → IsNode tree dir d → d.kind ≡ Dir → AreNumbers (lists.rows dir) → OnOk result (IsStepped (geometry_of sup.now) bitmap.old bitmap.new m tree (with_touched tree dir d stamp) (with_rows lists dir (without Text (lists.rows dir) name.now)) [] (E.told edits.new) (E.changed edits.old) (E.changed edits.new)) }
    ensures undone { (m : ℕ → Option (List ℕ)) (tree : Tree) (lists : Lists) (d : Node) (value : ℤ) → E.told edits.old ≡ Some m → IsAtWork (geometry_of sup.now) bitmap.old m tree lists [] → IsNode tree dir d → d.kind ≡ Dir → AreNumbers (lists.rows dir) → assoc Text (lists.rows dir) name.now ≡ Some value → IfErr result IsUndone }
    ensures cause { IfErr result (HasAnswerCause (E.counts edits.old) (E.counts edits.new)) }
    ensures rest { bitmap.new ≡ record bitmap.old { tally = bitmap.new.tally } }
    ensures stays { StaysChanged (E.changed edits.old) (E.changed edits.new) }
    ensures size { E.size edits.new ≡ E.size edits.old }
    ensures frame { E.frame edits.new ≡ E.frame edits.old }
    ensures later { AreLater (E.counts edits.old) (E.counts edits.new) }
{
    match take_name(alloc, sup, bitmap, edits, dir, name) {
        Ok(_) => {}
        Err(fault) => return Err(not_taken(fault, dir)),
    }
    match stamp_directory(alloc, sup, edits, dir, stamp) {
        Ok(()) => Ok(()),
        Err(fault) => Err(blocked(fault)),
    }
}
