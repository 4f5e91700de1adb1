// A file gets another size: its stream, its size and the stamps of its change, but not yet the indices.
ghost use Rattle.std.specs.Prelude.{◌≡◌, ◌≤◌, ◌<◌, ℕ, List, Option, Some, true, false, OnOk, IfErr};
ghost use Rattle.bfs_super.specs.Conditions.{IsValid, natural};
ghost use Rattle.bfs_super.specs.Geometry.{geometry_of};
ghost use Rattle.bfs_bitmap.specs.Runs.{as_kept};
ghost use Rattle.bfs_txn.specs.Faults.{AreLater};
ghost use Rattle.bfs_txn.specs.Told.{StaysChanged};
ghost use Rattle.bfs_stream.specs.Grown.{IsOfVolume};
ghost use Rattle.bfs_stream.specs.Sizes.{sizes_of};
ghost use Rattle.bfs_tree.specs.Trees.{Node, Tree, IsNode, is_file};
ghost use Rattle.bfs_shift.specs.Lists.{Lists};
ghost use Rattle.bfs_shift.specs.Work.{IsAtWork};
ghost use Rattle.bfs_leave.specs.Leaving.{IsClear};
ghost use Rattle.bfs_calls.specs.Done.{IsUnanswered, HasAnswerCause};
ghost use Rattle.bfs_set_size.specs.Sized.{HasResized};

use crate::cutting::cut_file;
use crate::growing::grow_file;
use crate::sizes::put_file_size;
use bfs_bitmap::Bitmap;
use bfs_calls::blocked;
use bfs_make::{blocks_for, has_long_blocks, has_short_blocks};
use bfs_stream_pages::MapFault;
use bfs_super::Super;
use bfs_txn::Edits;
use std::alloc::Global;

/// Gives a file a size that is smaller than its own, and gives blocks back that it doesn't need.
fn shrink<E: Edits>(
    alloc: Global,
    sup: &Super,
    bitmap: &mut Bitmap,
    edits: &mut E,
    id: u64,
    size: u64,
    stamp: i64,
) -> Result<(), MapFault>
    requires valid { IsValid sup.now }
    requires inside { id < natural sup.now.num_blocks }
    requires size { E.size edits.old ≡ sup.now.block_size }
    requires volume { IsOfVolume (sizes_of sup.now) bitmap.old }
    requires few { size ≤ 1073741824 }
    ensures resized { (m : ℕ → Option (List ℕ)) (tree : Tree) (lists : Lists) (loose : List ℕ) (n : Node) → E.told edits.old ≡ Some m → IsAtWork (geometry_of sup.now) bitmap.old m tree lists loose → IsClear (geometry_of sup.now) bitmap.old m → IsNode tree id n → is_file n.kind ≡ true → size < n.size → OnOk result (HasResized (geometry_of sup.now) bitmap.old bitmap.new m tree lists loose id n.size size stamp (E.told edits.new) (E.changed edits.old) (E.changed edits.new)) }
    ensures unanswered { (m : ℕ → Option (List ℕ)) (tree : Tree) (lists : Lists) (loose : List ℕ) (n : Node) → E.told edits.old ≡ Some m → IsAtWork (geometry_of sup.now) bitmap.old m tree lists loose → IsClear (geometry_of sup.now) bitmap.old m → IsNode tree id n → is_file n.kind ≡ true → size < n.size → IfErr result IsUnanswered }
    ensures cause { IfErr result (HasAnswerCause (E.counts edits.old) (E.counts edits.new)) }
    ensures rest { bitmap.new ≡ record bitmap.old { given = bitmap.new.given; tally = bitmap.new.tally } }
    ensures kept { as_kept bitmap.new ≡ as_kept bitmap.old }
    ensures stays { StaysChanged (E.changed edits.old) (E.changed edits.new) }
    ensures size { E.size edits.new ≡ E.size edits.old }
    ensures frame { E.frame edits.new ≡ E.frame edits.old }
    ensures later { AreLater (E.counts edits.old) (E.counts edits.new) }
{
    has_long_blocks(*sup);
    has_short_blocks(*sup);
    let blocks = blocks_for(sup.block_size, size);
    match put_file_size(alloc, sup, edits, id, size, stamp) {
        Ok(()) => {}
        Err(fault) => return Err(blocked(fault)),
    }
    match cut_file(alloc, sup, bitmap, edits, id, blocks) {
        Ok(()) => Ok(()),
        Err(fault) => Err(fault),
    }
}

/// Gives a file a size, and blocks that it lacks for it.
fn enlarge<E: Edits>(
    alloc: Global,
    sup: &Super,
    bitmap: &mut Bitmap,
    edits: &mut E,
    id: u64,
    size: u64,
    stamp: i64,
) -> Result<(), MapFault>
    requires valid { IsValid sup.now }
    requires inside { id < natural sup.now.num_blocks }
    requires size { E.size edits.old ≡ sup.now.block_size }
    requires volume { IsOfVolume (sizes_of sup.now) bitmap.old }
    requires few { size ≤ 1073741824 }
    ensures resized { (m : ℕ → Option (List ℕ)) (tree : Tree) (lists : Lists) (loose : List ℕ) (n : Node) → E.told edits.old ≡ Some m → IsAtWork (geometry_of sup.now) bitmap.old m tree lists loose → IsClear (geometry_of sup.now) bitmap.old m → IsNode tree id n → is_file n.kind ≡ true → n.size ≤ size → OnOk result (HasResized (geometry_of sup.now) bitmap.old bitmap.new m tree lists loose id n.size size stamp (E.told edits.new) (E.changed edits.old) (E.changed edits.new)) }
    ensures unanswered { (m : ℕ → Option (List ℕ)) (tree : Tree) (lists : Lists) (loose : List ℕ) (n : Node) → E.told edits.old ≡ Some m → IsAtWork (geometry_of sup.now) bitmap.old m tree lists loose → IsClear (geometry_of sup.now) bitmap.old m → IsNode tree id n → is_file n.kind ≡ true → IfErr result IsUnanswered }
    ensures cause { IfErr result (HasAnswerCause (E.counts edits.old) (E.counts edits.new)) }
    ensures rest { bitmap.new ≡ record bitmap.old { given = bitmap.new.given; tally = bitmap.new.tally } }
    ensures kept { as_kept bitmap.new ≡ as_kept bitmap.old }
    ensures stays { StaysChanged (E.changed edits.old) (E.changed edits.new) }
    ensures size { E.size edits.new ≡ E.size edits.old }
    ensures frame { E.frame edits.new ≡ E.frame edits.old }
    ensures later { AreLater (E.counts edits.old) (E.counts edits.new) }
{
    has_long_blocks(*sup);
    has_short_blocks(*sup);
    let blocks = blocks_for(sup.block_size, size);
    match grow_file(alloc, sup, bitmap, edits, id, blocks) {
        Ok(()) => {}
        Err(fault) => return Err(fault),
    }
    match put_file_size(alloc, sup, edits, id, size, stamp) {
        Ok(()) => Ok(()),
        Err(fault) => Err(blocked(fault)),
    }
}

/// Gives a file another size, and the stamp of the call as those of the last changes of content and status. Where it is smaller than the
/// old one, the stream is cut and blocks are given back; else blocks are added that the size needs, and what they hold is as it was. The
/// indices list the file under its old keys still. After a fault the edits are to be dropped.
pub fn resize<E: Edits>(
    alloc: Global,
    sup: &Super,
    bitmap: &mut Bitmap,
    edits: &mut E,
    id: u64,
    before: u64,
    size: u64,
    stamp: i64,
) -> Result<(), MapFault>
    requires valid { IsValid sup.now }
    requires inside { id < natural sup.now.num_blocks }
    requires size { E.size edits.old ≡ sup.now.block_size }
    requires volume { IsOfVolume (sizes_of sup.now) bitmap.old }
    requires few { size ≤ 1073741824 }
    ensures resized { (m : ℕ → Option (List ℕ)) (tree : Tree) (lists : Lists) (loose : List ℕ) (n : Node) → E.told edits.old ≡ Some m → IsAtWork (geometry_of sup.now) bitmap.old m tree lists loose → IsClear (geometry_of sup.now) bitmap.old m → IsNode tree id n → is_file n.kind ≡ true → n.size ≡ before → OnOk result (HasResized (geometry_of sup.now) bitmap.old bitmap.new m tree lists loose id n.size size stamp (E.told edits.new) (E.changed edits.old) (E.changed edits.new)) }
    ensures unanswered { (m : ℕ → Option (List ℕ)) (tree : Tree) (lists : Lists) (loose : List ℕ) (n : Node) → E.told edits.old ≡ Some m → IsAtWork (geometry_of sup.now) bitmap.old m tree lists loose → IsClear (geometry_of sup.now) bitmap.old m → IsNode tree id n → is_file n.kind ≡ true → n.size ≡ before → IfErr result IsUnanswered }
    ensures cause { IfErr result (HasAnswerCause (E.counts edits.old) (E.counts edits.new)) }
    ensures rest { bitmap.new ≡ record bitmap.old { given = bitmap.new.given; tally = bitmap.new.tally } }
    ensures kept { as_kept bitmap.new ≡ as_kept bitmap.old }
    ensures stays { StaysChanged (E.changed edits.old) (E.changed edits.new) }
    ensures size { E.size edits.new ≡ E.size edits.old }
    ensures frame { E.frame edits.new ≡ E.frame edits.old }
    ensures later { AreLater (E.counts edits.old) (E.counts edits.new) }
{
    if size < before {
        match shrink(alloc, sup, bitmap, edits, id, size, stamp) {
            Ok(()) => return Ok(()),
            Err(fault) => return Err(fault),
        }
    }
    match enlarge(alloc, sup, bitmap, edits, id, size, stamp) {
        Ok(()) => Ok(()),
        Err(fault) => Err(fault),
    }
}
