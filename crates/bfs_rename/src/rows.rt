// A row leaves a directory, and another one comes into a directory.
ghost use Rattle.std.specs.Prelude.{◌≡◌, ◌≤◌, ◌<◌, ◌^◌, ℕ, ℤ, pos, List, [], length, Option, Some, None, OnOk, IfErr};
ghost use Rattle.bfs_base.specs.declared.kind.KeyKind.TheVariants.{Text};
ghost use Rattle.bfs_super.specs.Conditions.{IsValid, natural};
ghost use Rattle.bfs_super.specs.Geometry.{geometry_of};
ghost use Rattle.bfs_txn.specs.Faults.{AreLater};
ghost use Rattle.bfs_txn.specs.Told.{StaysChanged};
ghost use Rattle.bfs_pages.specs.Maps.{assoc, put, without};
ghost use Rattle.bfs_stream.specs.Grown.{IsOfVolume};
ghost use Rattle.bfs_stream.specs.Sizes.{sizes_of};
ghost use Rattle.bfs_tree.specs.Trees.{Node, Tree, IsNode};
ghost use Rattle.bfs_tree.specs.declared.call.Kind.TheVariants.{Dir};
ghost use Rattle.bfs_maps.specs.NumberTrees.{AreNumbers};
ghost use Rattle.bfs_maps.specs.Refused.{IsUndone};
ghost use Rattle.bfs_shift.specs.Lists.{Lists, with_rows};
ghost use Rattle.bfs_shift.specs.Work.{IsAtWork, IsStepped, HasDirectoryAt};
ghost use Rattle.bfs_calls.specs.Done.{IsUnanswered, HasAnswerCause};
ghost use Rattle.bfs_rename.specs.Rows.{HasPlaces, IsRowMoving, rows_moved};

use bfs_bitmap::Bitmap;
use bfs_calls::{not_put, not_taken};
use bfs_leave::take_name;
use bfs_moves::put_name;
use bfs_stream_pages::MapFault;
use bfs_super::Super;
use bfs_txn::Edits;
use std::alloc::Global;

/// Takes a row out of a directory that has it.
pub(crate) fn take_row<E: Edits>(
    alloc: Global,
    sup: &Super,
    bitmap: &mut Bitmap,
    edits: &mut E,
    dir: u64,
    name: &[u8],
) -> Result<(), MapFault>
    requires valid { IsValid sup.now }
    requires inside { dir < natural sup.now.num_blocks }
    requires size { E.size edits.old ≡ sup.now.block_size }
    requires volume { IsOfVolume (sizes_of sup.now) bitmap.old }
    requires directory { (m : ℕ → Option (List ℕ)) → E.told edits.old ≡ Some m → HasDirectoryAt (geometry_of sup.now) bitmap.old m dir }
    ensures taken { (m : ℕ → Option (List ℕ)) (tree : Tree) (lists : Lists) (d : Node) → E.told edits.old ≡ Some m → IsAtWork (geometry_of sup.now) bitmap.old m tree lists [] → IsNode tree dir d → d.kind ≡ Dir → AreNumbers (lists.rows dir) → OnOk result (IsStepped (geometry_of sup.now) bitmap.old bitmap.new m tree tree (with_rows lists dir (without Text (lists.rows dir) name.now)) [] (E.told edits.new) (E.changed edits.old) (E.changed edits.new)) }
    ensures undone { (m : ℕ → Option (List ℕ)) (tree : Tree) (lists : Lists) (d : Node) (value : ℤ) → E.told edits.old ≡ Some m → IsAtWork (geometry_of sup.now) bitmap.old m tree lists [] → IsNode tree dir d → d.kind ≡ Dir → AreNumbers (lists.rows dir) → assoc Text (lists.rows dir) name.now ≡ Some value → IfErr result IsUndone }
    ensures cause { IfErr result (HasAnswerCause (E.counts edits.old) (E.counts edits.new)) }
    ensures rest { bitmap.new ≡ record bitmap.old { tally = bitmap.new.tally } }
    ensures stays { StaysChanged (E.changed edits.old) (E.changed edits.new) }
    ensures size { E.size edits.new ≡ E.size edits.old }
    ensures frame { E.frame edits.new ≡ E.frame edits.old }
    ensures later { AreLater (E.counts edits.old) (E.counts edits.new) }
{
    match take_name(alloc, sup, bitmap, edits, dir, name) {
        Ok(_) => Ok(()),
        Err(fault) => Err(not_taken(fault, dir)),
    }
}

/// Puts a row into a directory that has none of its name.
fn put_row<E: Edits>(
    alloc: Global,
    sup: &Super,
    bitmap: &mut Bitmap,
    edits: &mut E,
    dir: u64,
    name: &[u8],
    id: u64,
) -> Result<(), MapFault>
    requires valid { IsValid sup.now }
    requires inside { dir < natural sup.now.num_blocks }
    requires size { E.size edits.old ≡ sup.now.block_size }
    requires volume { IsOfVolume (sizes_of sup.now) bitmap.old }
    requires some { 1 ≤ length name.now }
    requires short { length name.now ≤ 255 }
    requires id { id < 2 ^ 62 }
    requires directory { (m : ℕ → Option (List ℕ)) → E.told edits.old ≡ Some m → HasDirectoryAt (geometry_of sup.now) bitmap.old m dir }
    ensures put { (m : ℕ → Option (List ℕ)) (tree : Tree) (lists : Lists) (d : Node) → E.told edits.old ≡ Some m → IsAtWork (geometry_of sup.now) bitmap.old m tree lists [] → IsNode tree dir d → d.kind ≡ Dir → AreNumbers (lists.rows dir) → OnOk result (IsStepped (geometry_of sup.now) bitmap.old bitmap.new m tree tree (with_rows lists dir (put Text (lists.rows dir) name.now (pos id))) [] (E.told edits.new) (E.changed edits.old) (E.changed edits.new)) }
    ensures unanswered { (m : ℕ → Option (List ℕ)) (tree : Tree) (lists : Lists) (d : Node) → E.told edits.old ≡ Some m → IsAtWork (geometry_of sup.now) bitmap.old m tree lists [] → IsNode tree dir d → d.kind ≡ Dir → AreNumbers (lists.rows dir) → assoc Text (lists.rows dir) name.now ≡ None → IfErr result IsUnanswered }
    ensures cause { IfErr result (HasAnswerCause (E.counts edits.old) (E.counts edits.new)) }
    ensures rest { bitmap.new ≡ record bitmap.old { tally = bitmap.new.tally } }
    ensures stays { StaysChanged (E.changed edits.old) (E.changed edits.new) }
    ensures size { E.size edits.new ≡ E.size edits.old }
    ensures frame { E.frame edits.new ≡ E.frame edits.old }
    ensures later { AreLater (E.counts edits.old) (E.counts edits.new) }
{
    match put_name(alloc, sup, bitmap, edits, dir, name, id) {
        Ok(()) => Ok(()),
        Err(fault) => Err(not_put(fault, dir)),
    }
}

/// Takes a row out of a directory that has it, and then puts a row into a directory, perhaps the same one, that then has none of its name.
/// After a fault the call is to be dropped.
pub(crate) fn move_row<E: Edits>(
    alloc: Global,
    sup: &Super,
    bitmap: &mut Bitmap,
    edits: &mut E,
    dir: u64,
    name: &[u8],
    to_dir: u64,
    to_name: &[u8],
    id: u64,
) -> Result<(), MapFault>
    requires valid { IsValid sup.now }
    requires inside { dir < natural sup.now.num_blocks }
    requires to_inside { to_dir < natural sup.now.num_blocks }
    requires size { E.size edits.old ≡ sup.now.block_size }
    requires volume { IsOfVolume (sizes_of sup.now) bitmap.old }
    requires some { 1 ≤ length to_name.now }
    requires short { length to_name.now ≤ 255 }
    requires id { id < 2 ^ 62 }
    requires places { (m : ℕ → Option (List ℕ)) → E.told edits.old ≡ Some m → HasPlaces (geometry_of sup.now) bitmap.old m dir to_dir }
    ensures moved { (m : ℕ → Option (List ℕ)) (tree : Tree) (lists : Lists) → E.told edits.old ≡ Some m → IsAtWork (geometry_of sup.now) bitmap.old m tree lists [] → IsRowMoving tree lists dir name.now to_dir to_name.now → OnOk result (IsStepped (geometry_of sup.now) bitmap.old bitmap.new m tree tree (rows_moved lists dir name.now to_dir to_name.now id) [] (E.told edits.new) (E.changed edits.old) (E.changed edits.new)) }
    ensures unanswered { (m : ℕ → Option (List ℕ)) (tree : Tree) (lists : Lists) → E.told edits.old ≡ Some m → IsAtWork (geometry_of sup.now) bitmap.old m tree lists [] → IsRowMoving tree lists dir name.now to_dir to_name.now → IfErr result IsUnanswered }
    ensures cause { IfErr result (HasAnswerCause (E.counts edits.old) (E.counts edits.new)) }
    ensures rest { bitmap.new ≡ record bitmap.old { tally = bitmap.new.tally } }
    ensures stays { StaysChanged (E.changed edits.old) (E.changed edits.new) }
    ensures size { E.size edits.new ≡ E.size edits.old }
    ensures frame { E.frame edits.new ≡ E.frame edits.old }
    ensures later { AreLater (E.counts edits.old) (E.counts edits.new) }
{
    match take_row(alloc, sup, bitmap, edits, dir, name) {
        Ok(()) => {}
        Err(fault) => return Err(fault),
    }
    match put_row(alloc, sup, bitmap, edits, to_dir, to_name, id) {
        Ok(()) => Ok(()),
        Err(fault) => Err(fault),
    }
}
