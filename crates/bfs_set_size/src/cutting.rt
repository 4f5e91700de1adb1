// A file's stream is cut.
ghost use Rattle.std.specs.Prelude.{◌≡◌, ◌≤◌, ◌<◌, ◌*◌, ℕ, List, [], Option, Some, true, false, OnOk, IfErr};
ghost use Rattle.bfs_super.specs.Conditions.{IsValid, natural};
ghost use Rattle.bfs_super.specs.Geometry.{geometry_of};
ghost use Rattle.bfs_bitmap.specs.Runs.{as_kept};
ghost use Rattle.bfs_txn.specs.Faults.{AreLater};
ghost use Rattle.bfs_txn.specs.Told.{StaysChanged};
ghost use Rattle.bfs_stream.specs.Grown.{IsOfVolume, Owns};
ghost use Rattle.bfs_stream.specs.Places.{fields};
ghost use Rattle.bfs_stream.specs.Sizes.{sizes_of};
ghost use Rattle.bfs_stream.specs.Standing.{standing};
ghost use Rattle.bfs_stream.specs.Told.{contents};
ghost use Rattle.bfs_tree.specs.Trees.{Node, Tree, IsNode, is_file};
ghost use Rattle.bfs_shift.specs.Lists.{Lists};
ghost use Rattle.bfs_shift.specs.Work.{IsAtWork};
ghost use Rattle.bfs_leave.specs.Leaving.{IsClear};
ghost use Rattle.bfs_calls.specs.Done.{IsUnanswered, HasAnswerCause};
ghost use Rattle.bfs_set_size.specs.Sized.{HasCutSince, HasCutTo};

use bfs_bitmap::Bitmap;
use bfs_calls::blocked;
use bfs_cuts::trim;
use bfs_moves::check_inode;
use bfs_stream::Stream;
use bfs_stream_pages::MapFault;
use bfs_super::Super;
use bfs_txn::Edits;
use std::alloc::Global;

/// Cuts the stream of an inode to its first blocks, so many, after a look at the inode.
fn trim_stream<E: Edits>(
    alloc: Global,
    sup: &Super,
    bitmap: &mut Bitmap,
    edits: &mut E,
    id: u64,
    blocks: u64,
) -> Result<(), MapFault>
    requires valid { IsValid sup.now }
    requires inside { id < natural sup.now.num_blocks }
    requires size { E.size edits.old ≡ sup.now.block_size }
    requires volume { IsOfVolume (sizes_of sup.now) bitmap.old }
    ensures cut { (m : ℕ → Option (List ℕ)) → E.told edits.old ≡ Some m → Owns (record { id = id; sizes = sizes_of sup.now }) bitmap.old [] m → natural (fields (sizes_of sup.now) (contents m) id).size ≤ sup.now.block_size * blocks → OnOk result (HasCutSince (record { id = id; sizes = sizes_of sup.now }) bitmap.old bitmap.new m blocks (E.told edits.new) (E.changed edits.old) (E.changed edits.new)) }
    ensures unanswered { (m : ℕ → Option (List ℕ)) → E.told edits.old ≡ Some m → Owns (record { id = id; sizes = sizes_of sup.now }) bitmap.old [] m → natural (fields (sizes_of sup.now) (contents m) id).size ≤ sup.now.block_size * blocks → IfErr result IsUnanswered }
    ensures cause { IfErr result (HasAnswerCause (E.counts edits.old) (E.counts edits.new)) }
    ensures rest { bitmap.new ≡ record bitmap.old { given = bitmap.new.given; tally = bitmap.new.tally } }
    ensures kept { as_kept bitmap.new ≡ as_kept bitmap.old }
    ensures standing { standing bitmap.new ≡ standing bitmap.old }
    ensures stays { StaysChanged (E.changed edits.old) (E.changed edits.new) }
    ensures size { E.size edits.new ≡ E.size edits.old }
    ensures frame { E.frame edits.new ≡ E.frame edits.old }
    ensures later { AreLater (E.counts edits.old) (E.counts edits.new) }
{
    match check_inode(alloc, sup, edits, id) {
        Ok(()) => {}
        Err(fault) => return Err(fault),
    }
    let mut stream = Stream::at(alloc, id, sup);
    match trim(&mut stream, bitmap, edits, blocks) {
        Ok(()) => Ok(()),
        Err(fault) => Err(blocked(fault)),
    }
}

/// Cuts a file's stream to its first blocks, so many, or a few more where they are of one run: they have to hold its size. The others are
/// given back.
pub fn cut_file<E: Edits>(
    alloc: Global,
    sup: &Super,
    bitmap: &mut Bitmap,
    edits: &mut E,
    id: u64,
    blocks: u64,
) -> Result<(), MapFault>
    requires valid { IsValid sup.now }
    requires inside { id < natural sup.now.num_blocks }
    requires size { E.size edits.old ≡ sup.now.block_size }
    requires volume { IsOfVolume (sizes_of sup.now) bitmap.old }
    ensures cut { (m : ℕ → Option (List ℕ)) (tree : Tree) (lists : Lists) (loose : List ℕ) (n : Node) → E.told edits.old ≡ Some m → IsAtWork (geometry_of sup.now) bitmap.old m tree lists loose → IsClear (geometry_of sup.now) bitmap.old m → IsNode tree id n → is_file n.kind ≡ true → n.size ≤ sup.now.block_size * blocks → OnOk result (HasCutTo (geometry_of sup.now) bitmap.old bitmap.new m tree lists loose id blocks (E.told edits.new) (E.changed edits.old) (E.changed edits.new)) }
    ensures unanswered { (m : ℕ → Option (List ℕ)) (tree : Tree) (lists : Lists) (loose : List ℕ) (n : Node) → E.told edits.old ≡ Some m → IsAtWork (geometry_of sup.now) bitmap.old m tree lists loose → IsNode tree id n → is_file n.kind ≡ true → n.size ≤ sup.now.block_size * blocks → IfErr result IsUnanswered }
    ensures cause { IfErr result (HasAnswerCause (E.counts edits.old) (E.counts edits.new)) }
    ensures rest { bitmap.new ≡ record bitmap.old { given = bitmap.new.given; tally = bitmap.new.tally } }
    ensures kept { as_kept bitmap.new ≡ as_kept bitmap.old }
    ensures stays { StaysChanged (E.changed edits.old) (E.changed edits.new) }
    ensures size { E.size edits.new ≡ E.size edits.old }
    ensures frame { E.frame edits.new ≡ E.frame edits.old }
    ensures later { AreLater (E.counts edits.old) (E.counts edits.new) }
{
    match trim_stream(alloc, sup, bitmap, edits, id, blocks) {
        Ok(()) => {}
        Err(fault) => return Err(fault),
    }
    match check_inode(alloc, sup, edits, id) {
        Ok(()) => Ok(()),
        Err(fault) => Err(fault),
    }
}
