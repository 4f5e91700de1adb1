// A node moves to a place that is free.
ghost use Rattle.std.specs.Prelude.{◌≡◌, ◌≢◌, ◌≤◌, ◌<◌, ℕ, List, [], length, codes, max, Option, Some, OnOk, IfErr, IfSome};
ghost use Rattle.bfs_base.specs.declared.kind.KeyKind.TheVariants.{Text};
ghost use Rattle.bfs_super.specs.Conditions.{IsValid, ceil, natural};
ghost use Rattle.bfs_super.specs.Geometry.{geometry_of};
ghost use Rattle.bfs_txn.specs.Faults.{AreLater};
ghost use Rattle.bfs_txn.specs.Told.{StaysChanged};
ghost use Rattle.bfs_stream.specs.Grown.{IsOfVolume};
ghost use Rattle.bfs_stream.specs.Sizes.{sizes_of};
ghost use Rattle.bfs_tree.specs.Trees.{Node, Tree, IsNode};
ghost use Rattle.bfs_maps.specs.NumberTrees.{IsNumberAt};
ghost use Rattle.bfs_shift.specs.Lists.{Lists};
ghost use Rattle.bfs_shift.specs.Work.{IsAtWork, IsStepped};
ghost use Rattle.bfs_look.specs.Ready.{IsReady};
ghost use Rattle.bfs_calls.specs.Done.{IsUnanswered};
ghost use Rattle.bfs_give_name.specs.Written.{HasWriteCause};
ghost use Rattle.bfs_give_name.specs.Named.{HoldsProper};
ghost use Rattle.bfs_rename.specs.Moved.{HasListedMove, HasMove, HasMoved, IsMove, with_seat};
ghost use Rattle.bfs_rename.specs.Refused.{IsPlace};

use crate::placing::place_node;
use crate::seating::move_lists;
use crate::stamping::stamp_both;
use bfs_bitmap::Bitmap;
use bfs_calls::{blocked, built_in_indices, damaged};
use bfs_give_name::give_name;
use bfs_remove_node::Child;
use bfs_stream_pages::MapFault;
use bfs_super::Super;
use bfs_txn::Edits;
use std::alloc::Global;

/// Writes into a node's inode its new name and its new directory, with the stamp of the change.
fn take_seat<E: Edits>(
    alloc: Global,
    sup: &Super,
    bitmap: &mut Bitmap,
    edits: &mut E,
    id: u64,
    to_dir: u64,
    to_name: &[u8],
    stamp: i64,
) -> Result<(), MapFault>
    requires valid { IsValid sup.now }
    requires inside { id < natural sup.now.num_blocks }
    requires to_inside { to_dir < natural sup.now.num_blocks }
    requires size { E.size edits.old ≡ sup.now.block_size }
    requires volume { IsOfVolume (sizes_of sup.now) bitmap.old }
    requires some { 1 ≤ length to_name.now }
    requires short { length to_name.now ≤ 255 }
    requires node { (m : ℕ → Option (List ℕ)) → E.told edits.old ≡ Some m → HoldsProper (geometry_of sup.now) bitmap.old m id }
    ensures seated { (m : ℕ → Option (List ℕ)) (tree : Tree) (lists : Lists) (n : Node) → E.told edits.old ≡ Some m → IsAtWork (geometry_of sup.now) bitmap.old m tree lists [] → IsNode tree id n → id ≢ (geometry_of sup.now).root → OnOk result (IsStepped (geometry_of sup.now) bitmap.old bitmap.new m tree (with_seat tree id n to_dir to_name.now stamp) lists [] (E.told edits.new) (E.changed edits.old) (E.changed edits.new)) }
    ensures unanswered { (m : ℕ → Option (List ℕ)) (tree : Tree) (lists : Lists) (n : Node) → E.told edits.old ≡ Some m → IsAtWork (geometry_of sup.now) bitmap.old m tree lists [] → IsNode tree id n → id ≢ (geometry_of sup.now).root → IfErr result IsUnanswered }
    ensures cause { IfErr result (HasWriteCause (max 1 (ceil 2048 sup.now.block_size)) (E.counts edits.old) (E.counts edits.new)) }
    ensures rest { bitmap.new ≡ record bitmap.old { tally = bitmap.new.tally } }
    ensures stays { StaysChanged (E.changed edits.old) (E.changed edits.new) }
    ensures size { E.size edits.new ≡ E.size edits.old }
    ensures frame { E.frame edits.new ≡ E.frame edits.old }
    ensures later { AreLater (E.counts edits.old) (E.counts edits.new) }
{
    match give_name(alloc, sup, bitmap, edits, id, to_name, stamp) {
        Ok(()) => {}
        Err(fault) => return Err(fault),
    }
    match place_node(alloc, sup, edits, id, to_dir, stamp) {
        Ok(()) => Ok(()),
        Err(fault) => Err(blocked(fault)),
    }
}

/// Moves a node to a place that is free: its rows, its pair in the index of names, the stamps of both directories, and what its inode says of
/// it. After a fault the call is to be dropped.
pub(crate) fn move_node<E: Edits>(
    alloc: Global,
    sup: &Super,
    bitmap: &mut Bitmap,
    edits: &mut E,
    dir: u64,
    name: &[u8],
    to_dir: u64,
    to_name: &[u8],
    child: Child,
    names: Option<u64>,
    stamp: i64,
) -> Result<(), MapFault>
    requires valid { IsValid sup.now }
    requires inside { dir < natural sup.now.num_blocks }
    requires place { IsPlace (natural sup.now.num_blocks) to_dir to_name.now }
    requires some { 1 ≤ length to_name.now }
    requires short { length to_name.now ≤ 255 }
    requires own { length name.now ≤ 255 }
    requires child_inside { child.id < natural sup.now.num_blocks }
    requires names { IfSome names (λ inode. inode < natural sup.now.num_blocks) }
    requires size { E.size edits.old ≡ sup.now.block_size }
    requires volume { IsOfVolume (sizes_of sup.now) bitmap.old }
    requires moving { (m : ℕ → Option (List ℕ)) → E.told edits.old ≡ Some m → HasListedMove (geometry_of sup.now) bitmap.old m dir name.now to_dir to_name.now child.id child.kind names }
    ensures moved { (m : ℕ → Option (List ℕ)) (tree : Tree) (lists : Lists) (n : Node) → E.told edits.old ≡ Some m → IsReady (geometry_of sup.now) bitmap.old m tree lists → IsMove tree dir name.now to_dir to_name.now child.id n → child.kind ≡ n.kind → IsNumberAt Text lists.names (codes "name") names → OnOk result (HasMoved (geometry_of sup.now) bitmap.old bitmap.new m tree dir to_dir to_name.now stamp child.id (E.told edits.new) (E.changed edits.old) (E.changed edits.new)) }
    ensures unanswered { (m : ℕ → Option (List ℕ)) (tree : Tree) (lists : Lists) (n : Node) → E.told edits.old ≡ Some m → IsReady (geometry_of sup.now) bitmap.old m tree lists → IsMove tree dir name.now to_dir to_name.now child.id n → child.kind ≡ n.kind → IsNumberAt Text lists.names (codes "name") names → IfErr result IsUnanswered }
    ensures cause { IfErr result (HasWriteCause (max 1 (ceil 2048 sup.now.block_size)) (E.counts edits.old) (E.counts edits.new)) }
    ensures rest { bitmap.new ≡ record bitmap.old { tally = bitmap.new.tally } }
    ensures stays { StaysChanged (E.changed edits.old) (E.changed edits.new) }
    ensures size { E.size edits.new ≡ E.size edits.old }
    ensures frame { E.frame edits.new ≡ E.frame edits.old }
    ensures later { AreLater (E.counts edits.old) (E.counts edits.new) }
{
    match move_lists(
        alloc, sup, bitmap, edits, dir, name, to_dir, to_name, child, names,
    ) {
        Ok(()) => {}
        Err(fault) => return Err(fault),
    }
    match stamp_both(alloc, sup, edits, dir, to_dir, stamp) {
        Ok(()) => {}
        Err(fault) => return Err(fault),
    }
    match take_seat(alloc, sup, bitmap, edits, child.id, to_dir, to_name, stamp) {
        Ok(()) => Ok(()),
        Err(fault) => Err(fault),
    }
}

/// Moves a node to a place that is free, in a volume as between two calls. After a fault the call is to be dropped.
pub(crate) fn arrive<E: Edits>(
    alloc: Global,
    sup: &Super,
    bitmap: &mut Bitmap,
    edits: &mut E,
    dir: u64,
    name: &[u8],
    to_dir: u64,
    to_name: &[u8],
    child: Child,
    stamp: i64,
) -> Result<(), MapFault>
    requires valid { IsValid sup.now }
    requires inside { dir < natural sup.now.num_blocks }
    requires place { IsPlace (natural sup.now.num_blocks) to_dir to_name.now }
    requires child_inside { child.id < natural sup.now.num_blocks }
    requires size { E.size edits.old ≡ sup.now.block_size }
    requires volume { IsOfVolume (sizes_of sup.now) bitmap.old }
    requires moving { (m : ℕ → Option (List ℕ)) → E.told edits.old ≡ Some m → HasMove (geometry_of sup.now) bitmap.old m dir name.now to_dir to_name.now child.id child.kind }
    ensures moved { (m : ℕ → Option (List ℕ)) (tree : Tree) (lists : Lists) (n : Node) → E.told edits.old ≡ Some m → IsReady (geometry_of sup.now) bitmap.old m tree lists → IsMove tree dir name.now to_dir to_name.now child.id n → child.kind ≡ n.kind → OnOk result (HasMoved (geometry_of sup.now) bitmap.old bitmap.new m tree dir to_dir to_name.now stamp child.id (E.told edits.new) (E.changed edits.old) (E.changed edits.new)) }
    ensures unanswered { (m : ℕ → Option (List ℕ)) (tree : Tree) (lists : Lists) (n : Node) → E.told edits.old ≡ Some m → IsReady (geometry_of sup.now) bitmap.old m tree lists → IsMove tree dir name.now to_dir to_name.now child.id n → child.kind ≡ n.kind → IfErr result IsUnanswered }
    ensures cause { IfErr result (HasWriteCause (max 1 (ceil 2048 sup.now.block_size)) (E.counts edits.old) (E.counts edits.new)) }
    ensures rest { bitmap.new ≡ record bitmap.old { tally = bitmap.new.tally } }
    ensures stays { StaysChanged (E.changed edits.old) (E.changed edits.new) }
    ensures size { E.size edits.new ≡ E.size edits.old }
    ensures frame { E.frame edits.new ≡ E.frame edits.old }
    ensures later { AreLater (E.counts edits.old) (E.counts edits.new) }
{
    if name.len() > 255 {
        return Err(damaged(dir));
    }
    let indices = match built_in_indices(alloc, sup, bitmap, edits) {
        Ok(indices) => indices,
        Err(fault) => return Err(fault),
    };
    match move_node(
        alloc,
        sup,
        bitmap,
        edits,
        dir,
        name,
        to_dir,
        to_name,
        child,
        indices.name,
        stamp,
    ) {
        Ok(()) => Ok(()),
        Err(fault) => Err(fault),
    }
}
