// Directories and indices list a node at another place.
ghost use Rattle.std.specs.Prelude.{◌≡◌, ◌≤◌, ◌<◌, ℕ, List, [], length, codes, Option, Some, OnOk, IfErr, IfSome};
ghost use Rattle.bfs_base.specs.declared.kind.KeyKind.TheVariants.{Text};
ghost use Rattle.bfs_super.specs.Conditions.{IsValid, natural};
ghost use Rattle.bfs_super.specs.Geometry.{geometry_of};
ghost use Rattle.bfs_txn.specs.Faults.{AreLater};
ghost use Rattle.bfs_txn.specs.Told.{StaysChanged};
ghost use Rattle.bfs_stream.specs.Grown.{IsOfVolume};
ghost use Rattle.bfs_stream.specs.Sizes.{sizes_of};
ghost use Rattle.bfs_tree.specs.Trees.{Node, Tree};
ghost use Rattle.bfs_maps.specs.NumberTrees.{IsNumberAt};
ghost use Rattle.bfs_shift.specs.Lists.{Lists};
ghost use Rattle.bfs_shift.specs.Work.{IsStepped};
ghost use Rattle.bfs_look.specs.Ready.{IsReady};
ghost use Rattle.bfs_calls.specs.Done.{IsUnanswered, HasAnswerCause};
ghost use Rattle.bfs_rename.specs.Moved.{IsMove, HasMove, HasListedMove, HasMovedLists, seat_lists};
ghost use Rattle.bfs_rename.specs.Refused.{IsPlace};

use crate::rows::move_row;
use bfs_bitmap::Bitmap;
use bfs_node::KeyKind;
use bfs_remove_node::Child;
use bfs_set_size::relist;
use bfs_stream_pages::MapFault;
use bfs_super::Super;
use bfs_txn::Edits;
use std::alloc::Global;

/// The name by which a directory names its parent.
const DOTS: &[u8] = b"..";

/// Moves a node's row to its new place, and where it is a directory, its row `..` then leads to the new directory. After a fault the call is to
/// be dropped.
pub(crate) fn move_rows<E: Edits>(
    alloc: Global,
    sup: &Super,
    bitmap: &mut Bitmap,
    edits: &mut E,
    dir: u64,
    name: &[u8],
    to_dir: u64,
    to_name: &[u8],
    child: Child,
) -> Result<(), MapFault>
    requires valid { IsValid sup.now }
    requires inside { dir < natural sup.now.num_blocks }
    requires place { IsPlace (natural sup.now.num_blocks) to_dir to_name.now }
    requires child_inside { child.id < natural sup.now.num_blocks }
    requires size { E.size edits.old ≡ sup.now.block_size }
    requires volume { IsOfVolume (sizes_of sup.now) bitmap.old }
    requires moving { (m : ℕ → Option (List ℕ)) → E.told edits.old ≡ Some m → HasMove (geometry_of sup.now) bitmap.old m dir name.now to_dir to_name.now child.id child.kind }
    ensures moved { (m : ℕ → Option (List ℕ)) (tree : Tree) (lists : Lists) (n : Node) → E.told edits.old ≡ Some m → IsReady (geometry_of sup.now) bitmap.old m tree lists → IsMove tree dir name.now to_dir to_name.now child.id n → child.kind ≡ n.kind → OnOk result (IsStepped (geometry_of sup.now) bitmap.old bitmap.new m tree tree (seat_lists lists dir name.now to_dir to_name.now child.id child.kind) [] (E.told edits.new) (E.changed edits.old) (E.changed edits.new)) }
    ensures unanswered { (m : ℕ → Option (List ℕ)) (tree : Tree) (lists : Lists) (n : Node) → E.told edits.old ≡ Some m → IsReady (geometry_of sup.now) bitmap.old m tree lists → IsMove tree dir name.now to_dir to_name.now child.id n → child.kind ≡ n.kind → IfErr result IsUnanswered }
    ensures cause { IfErr result (HasAnswerCause (E.counts edits.old) (E.counts edits.new)) }
    ensures rest { bitmap.new ≡ record bitmap.old { tally = bitmap.new.tally } }
    ensures stays { StaysChanged (E.changed edits.old) (E.changed edits.new) }
    ensures size { E.size edits.new ≡ E.size edits.old }
    ensures frame { E.frame edits.new ≡ E.frame edits.old }
    ensures later { AreLater (E.counts edits.old) (E.counts edits.new) }
{
    match move_row(
        alloc, sup, bitmap, edits, dir, name, to_dir, to_name, child.id,
    ) {
        Ok(()) => {}
        Err(fault) => return Err(fault),
    }
    if !child.kind.is_dir() {
        return Ok(());
    }
    match move_row(
        alloc, sup, bitmap, edits, child.id, DOTS, child.id, DOTS, to_dir,
    ) {
        Ok(()) => Ok(()),
        Err(fault) => Err(fault),
    }
}

/// Lists a node at its new place in directories and in the index of names, which lists it under its new name. After a fault the call is to be
/// dropped.
pub(crate) fn move_lists<E: Edits>(
    alloc: Global,
    sup: &Super,
    bitmap: &mut Bitmap,
    edits: &mut E,
    dir: u64,
    name: &[u8],
    to_dir: u64,
    to_name: &[u8],
    child: Child,
    names: Option<u64>,
) -> Result<(), MapFault>
    requires valid { IsValid sup.now }
    requires inside { dir < natural sup.now.num_blocks }
    requires place { IsPlace (natural sup.now.num_blocks) to_dir to_name.now }
    requires some { 1 ≤ length to_name.now }
    requires short { length to_name.now ≤ 255 }
    requires own { length name.now ≤ 255 }
    requires child_inside { child.id < natural sup.now.num_blocks }
    requires names { IfSome names (λ inode. inode < natural sup.now.num_blocks) }
    requires size { E.size edits.old ≡ sup.now.block_size }
    requires volume { IsOfVolume (sizes_of sup.now) bitmap.old }
    requires moving { (m : ℕ → Option (List ℕ)) → E.told edits.old ≡ Some m → HasListedMove (geometry_of sup.now) bitmap.old m dir name.now to_dir to_name.now child.id child.kind names }
    ensures moved { (m : ℕ → Option (List ℕ)) (tree : Tree) (lists : Lists) (n : Node) → E.told edits.old ≡ Some m → IsReady (geometry_of sup.now) bitmap.old m tree lists → IsMove tree dir name.now to_dir to_name.now child.id n → child.kind ≡ n.kind → IsNumberAt Text lists.names (codes "name") names → OnOk result (HasMovedLists (geometry_of sup.now) bitmap.old bitmap.new m tree lists dir name.now to_dir to_name.now child.id n (E.told edits.new) (E.changed edits.old) (E.changed edits.new)) }
    ensures unanswered { (m : ℕ → Option (List ℕ)) (tree : Tree) (lists : Lists) (n : Node) → E.told edits.old ≡ Some m → IsReady (geometry_of sup.now) bitmap.old m tree lists → IsMove tree dir name.now to_dir to_name.now child.id n → child.kind ≡ n.kind → IsNumberAt Text lists.names (codes "name") names → IfErr result IsUnanswered }
    ensures cause { IfErr result (HasAnswerCause (E.counts edits.old) (E.counts edits.new)) }
    ensures rest { bitmap.new ≡ record bitmap.old { tally = bitmap.new.tally } }
    ensures stays { StaysChanged (E.changed edits.old) (E.changed edits.new) }
    ensures size { E.size edits.new ≡ E.size edits.old }
    ensures frame { E.frame edits.new ≡ E.frame edits.old }
    ensures later { AreLater (E.counts edits.old) (E.counts edits.new) }
{
    match move_rows(alloc, sup, bitmap, edits, dir, name, to_dir, to_name, child) {
        Ok(()) => {}
        Err(fault) => return Err(fault),
    }
    match relist(
        alloc,
        sup,
        bitmap,
        edits,
        names,
        KeyKind::Text,
        name,
        to_name,
        child.id,
    ) {
        Ok(()) => Ok(()),
        Err(fault) => Err(fault),
    }
}
