// A node is renamed.
ghost use Rattle.std.specs.Prelude.{◌≡◌, ◌<◌, ℕ, List, max, true, false, Option, Some, OnOk, IfErr, IfSome};
ghost use Rattle.bfs_super.specs.Conditions.{IsValid, ceil, natural};
ghost use Rattle.bfs_super.specs.Geometry.{geometry_of};
ghost use Rattle.bfs_bitmap.specs.Runs.{as_kept};
ghost use Rattle.bfs_txn.specs.Faults.{AreLater};
ghost use Rattle.bfs_txn.specs.Told.{StaysChanged};
ghost use Rattle.bfs_stream.specs.Grown.{IsOfVolume};
ghost use Rattle.bfs_stream.specs.Sizes.{sizes_of};
ghost use Rattle.bfs_stream.specs.Standing.{standing};
ghost use Rattle.bfs_tree.specs.Trees.{Node, Tree};
ghost use Rattle.bfs_maps.specs.Refused.{IsUndone};
ghost use Rattle.bfs_shift.specs.Lists.{Lists};
ghost use Rattle.bfs_look.specs.Ready.{IsReady, HasReady};
ghost use Rattle.bfs_calls.specs.Done.{IsUnanswered, HasAnswerCause};
ghost use Rattle.bfs_give_name.specs.Written.{HasWriteCause};
ghost use Rattle.bfs_rename.specs.Counted.{AreOf};
ghost use Rattle.bfs_rename.specs.Done.{HasVacated, HasVacating, IsRenamedIn, IsVacating};
ghost use Rattle.bfs_rename.specs.Refused.{IsPlace};
ghost use Rattle.bfs_rename.specs.Renamed.{MayBeRenamed};

use crate::child::other_at;
use crate::moving::arrive;
use crate::replacing::leave_tree;
use bfs_bitmap::Bitmap;
use bfs_remove_node::{Child, child_at};
use bfs_stream_pages::MapFault;
use bfs_super::Super;
use bfs_txn::Edits;
use std::alloc::Global;

/// Are two places one?
fn is_one_place(dir: u64, name: &[u8], to_dir: u64, to_name: &[u8]) -> bool
    ensures one { result ≡ true → (dir ≡ to_dir) × (name.now ≡ to_name.now) }
    ensures two { result ≡ false → (dir ≡ to_dir) × (name.now ≡ to_name.now) → ⊥ }
{
    dir == to_dir && name == to_name
}

/// Makes a place free: the node that has it leaves the tree, if there is one. After a fault the call is to be dropped.
fn vacate<E: Edits>(
    alloc: Global,
    sup: &Super,
    bitmap: &mut Bitmap,
    edits: &mut E,
    other: Option<Child>,
    dir: u64,
    name: &[u8],
) -> Result<(), MapFault>
    requires valid { IsValid sup.now }
    requires inside { IfSome other (λ c. c.id < natural sup.now.num_blocks) }
    requires dir_inside { dir < natural sup.now.num_blocks }
    requires size { E.size edits.old ≡ sup.now.block_size }
    requires volume { IsOfVolume (sizes_of sup.now) bitmap.old }
    requires vacating { (m : ℕ → Option (List ℕ)) → E.told edits.old ≡ Some m → HasVacating (geometry_of sup.now) bitmap.old m other dir name.now }
    ensures left { (m : ℕ → Option (List ℕ)) (tree : Tree) (lists : Lists) (o : Option (ℕ × Node)) → E.told edits.old ≡ Some m → IsReady (geometry_of sup.now) bitmap.old m tree lists → AreOf o other → IsVacating tree o dir name.now → OnOk result (HasVacated (geometry_of sup.now) bitmap.old bitmap.new m tree o (E.told edits.new) (E.changed edits.old) (E.changed edits.new)) }
    ensures undone { (m : ℕ → Option (List ℕ)) (tree : Tree) (lists : Lists) (o : Option (ℕ × Node)) → E.told edits.old ≡ Some m → IsReady (geometry_of sup.now) bitmap.old m tree lists → AreOf o other → IsVacating tree o dir name.now → IfErr result IsUndone }
    ensures cause { IfErr result (HasAnswerCause (E.counts edits.old) (E.counts edits.new)) }
    ensures rest { bitmap.new ≡ record bitmap.old { given = bitmap.new.given; tally = bitmap.new.tally } }
    ensures kept { as_kept bitmap.new ≡ as_kept bitmap.old }
    ensures standing { standing bitmap.new ≡ standing bitmap.old }
    ensures stays { StaysChanged (E.changed edits.old) (E.changed edits.new) }
    ensures size { E.size edits.new ≡ E.size edits.old }
    ensures frame { E.frame edits.new ≡ E.frame edits.old }
    ensures later { AreLater (E.counts edits.old) (E.counts edits.new) }
{
    match other {
        None => Ok(()),
        Some(other) => match leave_tree(alloc, sup, bitmap, edits, other.id, dir, name) {
            Ok(()) => Ok(()),
            Err(fault) => Err(fault),
        },
    }
}

/// Renames the child of a name where the call has no refusal of its own: it gets a name in a directory, perhaps in its own, and the node that
/// has the name there leaves the tree first. Both directories are stamped, and where the place is its own, nothing changes. After a fault the
/// call is to be dropped.
pub fn rename_node<E: Edits>(
    alloc: Global,
    sup: &Super,
    bitmap: &mut Bitmap,
    edits: &mut E,
    dir: u64,
    name: &[u8],
    to_dir: u64,
    to_name: &[u8],
    stamp: i64,
) -> Result<(), MapFault>
    requires valid { IsValid sup.now }
    requires inside { dir < natural sup.now.num_blocks }
    requires place { IsPlace (natural sup.now.num_blocks) to_dir to_name.now }
    requires size { E.size edits.old ≡ sup.now.block_size }
    requires volume { IsOfVolume (sizes_of sup.now) bitmap.old }
    requires ready { (m : ℕ → Option (List ℕ)) → E.told edits.old ≡ Some m → HasReady (geometry_of sup.now) bitmap.old m }
    requires may { (m : ℕ → Option (List ℕ)) (tree : Tree) (lists : Lists) → E.told edits.old ≡ Some m → IsReady (geometry_of sup.now) bitmap.old m tree lists → MayBeRenamed tree dir name.now to_dir to_name.now }
    ensures renamed { (m : ℕ → Option (List ℕ)) (tree : Tree) (lists : Lists) → E.told edits.old ≡ Some m → IsReady (geometry_of sup.now) bitmap.old m tree lists → OnOk result (IsRenamedIn (geometry_of sup.now) bitmap.old bitmap.new m tree dir name.now to_dir to_name.now stamp (E.told edits.new) (E.changed edits.old) (E.changed edits.new)) }
    ensures unanswered { (m : ℕ → Option (List ℕ)) (tree : Tree) (lists : Lists) → E.told edits.old ≡ Some m → IsReady (geometry_of sup.now) bitmap.old m tree lists → IfErr result IsUnanswered }
    ensures cause { IfErr result (HasWriteCause (max 1 (ceil 2048 sup.now.block_size)) (E.counts edits.old) (E.counts edits.new)) }
    ensures rest { bitmap.new ≡ record bitmap.old { given = bitmap.new.given; tally = bitmap.new.tally } }
    ensures kept { as_kept bitmap.new ≡ as_kept bitmap.old }
    ensures standing { standing bitmap.new ≡ standing bitmap.old }
    ensures stays { StaysChanged (E.changed edits.old) (E.changed edits.new) }
    ensures size { E.size edits.new ≡ E.size edits.old }
    ensures frame { E.frame edits.new ≡ E.frame edits.old }
    ensures later { AreLater (E.counts edits.old) (E.counts edits.new) }
{
    if is_one_place(dir, name, to_dir, to_name) {
        return Ok(());
    }
    let child = match child_at(alloc, sup, bitmap, edits, dir, name) {
        Ok(child) => child,
        Err(fault) => return Err(fault),
    };
    let other = match other_at(alloc, sup, bitmap, edits, child.id, to_dir, to_name) {
        Ok(other) => other,
        Err(fault) => return Err(fault),
    };
    match vacate(alloc, sup, bitmap, edits, other, to_dir, to_name) {
        Ok(()) => {}
        Err(fault) => return Err(fault),
    }
    match arrive(
        alloc, sup, bitmap, edits, dir, name, to_dir, to_name, child, stamp,
    ) {
        Ok(()) => Ok(()),
        Err(fault) => Err(fault),
    }
}
