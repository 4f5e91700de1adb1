// A file is listed under its new size and stamp.
ghost use Rattle.std.specs.Prelude.{◌≡◌, ◌<◌, ◌^◌, ℕ, ℤ, List, [], length, Option, Some, true, OnOk, IfErr, IfSome};
ghost use Rattle.bfs_base.specs.Keys.{IsKey, IsTreeKind};
ghost use Rattle.bfs_bytes.specs.Fields.{unsigned_bytes, signed64_bytes};
ghost use Rattle.bfs_node.specs.Search.{IsSought};
ghost use Rattle.bfs_super.specs.Conditions.{IsValid, natural};
ghost use Rattle.bfs_super.specs.Geometry.{geometry_of};
ghost use Rattle.bfs_txn.specs.Faults.{AreLater};
ghost use Rattle.bfs_txn.specs.Told.{StaysChanged};
ghost use Rattle.bfs_stream.specs.Grown.{IsOfVolume};
ghost use Rattle.bfs_stream.specs.Sizes.{sizes_of};
ghost use Rattle.bfs_tree.specs.Trees.{Node, Tree};
ghost use Rattle.bfs_shift.specs.Lists.{Lists, with_pairs};
ghost use Rattle.bfs_shift.specs.Work.{IsAtWork, IsStepped};
ghost use Rattle.bfs_calls.specs.Done.{IsUnanswered, HasAnswerCause};
ghost use Rattle.bfs_calls.specs.Made.{LieBelow};
ghost use Rattle.bfs_set_size.specs.Relisted.{resized_node, IsRelisting, HasRelisting, IsResizedOnly, HasResizedOnly, HasListedAnew};

use bfs_bitmap::Bitmap;
use bfs_calls::{BuiltIn, size_key, stamp_key};
use bfs_leave::unlist_where;
use bfs_moves::list_where;
use bfs_node::KeyKind;
use bfs_stream_pages::MapFault;
use bfs_super::Super;
use bfs_txn::Edits;
use std::alloc::Global;

/// Lists a node under another key in an index of a kind, and does nothing where there is none. After a fault the call is to be dropped.
pub fn relist<E: Edits>(
    alloc: Global,
    sup: &Super,
    bitmap: &mut Bitmap,
    edits: &mut E,
    index: Option<u64>,
    kind: KeyKind,
    old: &[u8],
    new: &[u8],
    id: u64,
) -> Result<(), MapFault>
    requires valid { IsValid sup.now }
    requires inside { IfSome index (λ inode. inode < natural sup.now.num_blocks) }
    requires size { E.size edits.old ≡ sup.now.block_size }
    requires volume { IsOfVolume (sizes_of sup.now) bitmap.old }
    requires kind { IsTreeKind kind }
    requires before { IsSought kind old.now }
    requires after { IsKey kind new.now }
    requires id { id < 2 ^ 62 }
    requires relists { (m : ℕ → Option (List ℕ)) → E.told edits.old ≡ Some m → HasRelisting (geometry_of sup.now) bitmap.old m index kind old.now new.now id }
    ensures relisted { (m : ℕ → Option (List ℕ)) (tree : Tree) (lists : Lists) (name : List ℕ) (left pairs : List (List ℕ × ℕ)) → E.told edits.old ≡ Some m → IsAtWork (geometry_of sup.now) bitmap.old m tree lists [] → IsRelisting lists name index kind old.now new.now id left pairs → OnOk result (IsStepped (geometry_of sup.now) bitmap.old bitmap.new m tree tree (with_pairs (with_pairs lists name left) name pairs) [] (E.told edits.new) (E.changed edits.old) (E.changed edits.new)) }
    ensures unanswered { (m : ℕ → Option (List ℕ)) (tree : Tree) (lists : Lists) (name : List ℕ) (left pairs : List (List ℕ × ℕ)) → E.told edits.old ≡ Some m → IsAtWork (geometry_of sup.now) bitmap.old m tree lists [] → IsRelisting lists name index kind old.now new.now id left pairs → IfErr result IsUnanswered }
    ensures cause { IfErr result (HasAnswerCause (E.counts edits.old) (E.counts edits.new)) }
    ensures rest { bitmap.new ≡ record bitmap.old { tally = bitmap.new.tally } }
    ensures stays { StaysChanged (E.changed edits.old) (E.changed edits.new) }
    ensures size { E.size edits.new ≡ E.size edits.old }
    ensures frame { E.frame edits.new ≡ E.frame edits.old }
    ensures later { AreLater (E.counts edits.old) (E.counts edits.new) }
{
    match unlist_where(alloc, sup, bitmap, edits, index, kind, old, id) {
        Ok(()) => {}
        Err(fault) => return Err(fault),
    }
    match list_where(alloc, sup, bitmap, edits, index, kind, new, id) {
        Ok(()) => Ok(()),
        Err(fault) => Err(fault),
    }
}

/// Lists a file under its new size and stamp, in the indices that list it under those that it had.
pub(crate) fn list_anew<E: Edits>(
    alloc: Global,
    sup: &Super,
    bitmap: &mut Bitmap,
    edits: &mut E,
    id: u64,
    indices: BuiltIn,
    before: u64,
    modified: i64,
    size: u64,
    stamp: i64,
) -> Result<(), MapFault>
    requires valid { IsValid sup.now }
    requires size { E.size edits.old ≡ sup.now.block_size }
    requires volume { IsOfVolume (sizes_of sup.now) bitmap.old }
    requires id { id < 2 ^ 62 }
    requires below { LieBelow (natural sup.now.num_blocks) indices }
    requires resized { (m : ℕ → Option (List ℕ)) → E.told edits.old ≡ Some m → HasResizedOnly (geometry_of sup.now) bitmap.old m id before modified indices }
    ensures listed { (m : ℕ → Option (List ℕ)) (tree since : Tree) (lists : Lists) (n : Node) → E.told edits.old ≡ Some m → IsResizedOnly (geometry_of sup.now) bitmap.old m tree since lists id n indices → n.size ≡ before → n.modified ≡ modified → OnOk result (HasListedAnew (geometry_of sup.now) bitmap.old bitmap.new m tree since lists id n (resized_node n size stamp) (E.told edits.new) (E.changed edits.old) (E.changed edits.new)) }
    ensures unanswered { (m : ℕ → Option (List ℕ)) (tree since : Tree) (lists : Lists) (n : Node) → E.told edits.old ≡ Some m → IsResizedOnly (geometry_of sup.now) bitmap.old m tree since lists id n indices → n.size ≡ before → n.modified ≡ modified → IfErr result IsUnanswered }
    ensures cause { IfErr result (HasAnswerCause (E.counts edits.old) (E.counts edits.new)) }
    ensures rest { bitmap.new ≡ record bitmap.old { tally = bitmap.new.tally } }
    ensures stays { StaysChanged (E.changed edits.old) (E.changed edits.new) }
    ensures size { E.size edits.new ≡ E.size edits.old }
    ensures frame { E.frame edits.new ≡ E.frame edits.old }
    ensures later { AreLater (E.counts edits.old) (E.counts edits.new) }
{
    let old_size = size_key(before);
    let new_size = size_key(size);
    let old_time = stamp_key(modified);
    let new_time = stamp_key(stamp);
    match relist(
        alloc,
        sup,
        bitmap,
        edits,
        indices.size,
        KeyKind::I64,
        &old_size,
        &new_size,
        id,
    ) {
        Ok(()) => {}
        Err(fault) => return Err(fault),
    }
    match relist(
        alloc,
        sup,
        bitmap,
        edits,
        indices.last_modified,
        KeyKind::I64,
        &old_time,
        &new_time,
        id,
    ) {
        Ok(()) => Ok(()),
        Err(fault) => Err(fault),
    }
}
