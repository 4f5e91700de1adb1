// A file's stream grows.
ghost use Rattle.std.specs.Prelude.{◌≡◌, ◌≤◌, ◌<◌, ◌+◌, ◌-◌, ◌*◌, ◌^◌, ℕ, List, [], length, slice_get, Option, Some, true, OnOk, IfOk, IfErr, MatchResult};
ghost use Rattle.bfs_super.specs.Conditions.{IsValid, natural};
ghost use Rattle.bfs_super.specs.Geometry.{geometry_of};
ghost use Rattle.bfs_bitmap.specs.Runs.{Room};
ghost use Rattle.bfs_txn.specs.Faults.{AreLater, Counts};
ghost use Rattle.bfs_txn.specs.Told.{StaysChanged};
ghost use Rattle.bfs_stream.specs.Faults.{HasNoBlock, IsCauseIn, IsStreamCause, IsGrowCause, IsGrowFault};
ghost use Rattle.bfs_stream.specs.Grown.{IsOfVolume, Owns, room_at};
ghost use Rattle.bfs_stream.specs.Places.{places_at};
ghost use Rattle.bfs_stream.specs.Scans.{IsDamage};
ghost use Rattle.bfs_stream.specs.Sizes.{Origin, sizes_of};
ghost use Rattle.bfs_stream.specs.Told.{contents, Stands};
ghost use Rattle.bfs_tree.specs.Trees.{Node, Tree, IsNode, is_file};
ghost use Rattle.bfs_shift.specs.Lists.{Lists};
ghost use Rattle.bfs_shift.specs.Work.{IsAtWork};
ghost use Rattle.bfs_leave.specs.Leaving.{IsClear};
ghost use Rattle.bfs_calls.specs.Done.{IsUnanswered, HasAnswerCause};
ghost use Rattle.bfs_set_size.specs.Sized.{HasGrownSince, HasMore, HasRoomFor};

use crate::fault::not_grown;
use bfs_bitmap::Bitmap;
use bfs_calls::blocked;
use bfs_growth::grow;
use bfs_moves::check_inode;
use bfs_stream::{Stream, StreamFault};
use bfs_stream_pages::MapFault;
use bfs_super::Super;
use bfs_txn::{BlockFault, Edits};
use std::alloc::Global;

/// How many blocks of so many a stream lacks, by what was found in the place of the last of them.
fn lacked(blocks: u64, found: Result<u64, StreamFault>) -> Result<u64, BlockFault>
    requires some { 0 < blocks }
    ensures count { (places : List ℕ) → MatchResult found (λ block. slice_get places (blocks - 1) ≡ Some block) (HasNoBlock places (blocks - 1)) → IfOk result (λ n. n ≡ blocks - length places) }
    ensures sound { (places : List ℕ) → IfErr found (HasNoBlock places (blocks - 1)) → IfErr result (λ fault. ¬ IsDamage fault) }
    ensures cause { (old new : Counts) → IfErr found (IsStreamCause old new) → IfErr result (IsCauseIn old new) }
{
    match found {
        Ok(_) => Ok(0),
        Err(fault) => match fault {
            StreamFault::PastEnd { blocks: there } => {
                Ok(if there < blocks { blocks - there } else { 0 })
            }
            StreamFault::Block(fault) => Err(fault),
        },
    }
}

/// How many blocks a stream lacks that is to have so many.
fn lacking<E: Edits>(
    alloc: Global,
    sup: &Super,
    edits: &mut E,
    id: u64,
    blocks: u64,
) -> Result<u64, BlockFault>
    requires valid { IsValid sup.now }
    requires inside { id < natural sup.now.num_blocks }
    requires size { E.size edits.old ≡ sup.now.block_size }
    ensures count { (m : ℕ → Option (List ℕ)) → E.told edits.old ≡ Some m → Stands (record { id = id; sizes = sizes_of sup.now }) m → IfOk result (λ n. n ≡ blocks - length (places_at (sizes_of sup.now) (contents m) id)) }
    ensures sound { (m : ℕ → Option (List ℕ)) → E.told edits.old ≡ Some m → Stands (record { id = id; sizes = sizes_of sup.now }) m → IfErr result (λ fault. ¬ IsDamage fault) }
    ensures told { E.told edits.new ≡ E.told edits.old }
    ensures changed { E.changed edits.new ≡ E.changed edits.old }
    ensures size { E.size edits.new ≡ E.size edits.old }
    ensures frame { E.frame edits.new ≡ E.frame edits.old }
    ensures later { AreLater (E.counts edits.old) (E.counts edits.new) }
    ensures cause { IfErr result (IsCauseIn (E.counts edits.old) (E.counts edits.new)) }
{
    if blocks == 0 {
        return Ok(0);
    }
    let mut stream = Stream::at(alloc, id, sup);
    let found = stream.block(edits, blocks - 1);
    lacked(blocks, found)
}

/// Adds so many blocks to the stream of an inode, after a look at the inode.
fn grow_stream<E: Edits>(
    alloc: Global,
    sup: &Super,
    bitmap: &mut Bitmap,
    edits: &mut E,
    id: u64,
    blocks: u64,
) -> Result<(), MapFault>
    requires valid { IsValid sup.now }
    requires inside { id < natural sup.now.num_blocks }
    requires size { E.size edits.old ≡ sup.now.block_size }
    requires volume { IsOfVolume (sizes_of sup.now) bitmap.old }
    ensures grown { (m : ℕ → Option (List ℕ)) → E.told edits.old ≡ Some m → Owns (record { id = id; sizes = sizes_of sup.now }) bitmap.old [] m → OnOk result (HasGrownSince (record { id = id; sizes = sizes_of sup.now }) bitmap.old bitmap.new m blocks (E.told edits.new) (E.changed edits.old) (E.changed edits.new)) }
    ensures unanswered { (m : ℕ → Option (List ℕ)) → E.told edits.old ≡ Some m → Owns (record { id = id; sizes = sizes_of sup.now }) bitmap.old [] m → blocks ≤ room_at (sizes_of sup.now) (contents m) id → IfErr result IsUnanswered }
    ensures cause { IfErr result (HasAnswerCause (E.counts edits.old) (E.counts edits.new)) }
    ensures rest { bitmap.new ≡ record bitmap.old { tally = bitmap.new.tally } }
    ensures stays { StaysChanged (E.changed edits.old) (E.changed edits.new) }
    ensures size { E.size edits.new ≡ E.size edits.old }
    ensures frame { E.frame edits.new ≡ E.frame edits.old }
    ensures later { AreLater (E.counts edits.old) (E.counts edits.new) }
{
    match check_inode(alloc, sup, edits, id) {
        Ok(()) => {}
        Err(fault) => return Err(fault),
    }
    let mut stream = Stream::at(alloc, id, sup);
    match grow(&mut stream, bitmap, edits, blocks) {
        Ok(()) => Ok(()),
        Err(fault) => Err(not_grown(id, fault)),
    }
}

/// Adds so many blocks to a file's stream. What they hold is as it was.
fn grow_by<E: Edits>(
    alloc: Global,
    sup: &Super,
    bitmap: &mut Bitmap,
    edits: &mut E,
    id: u64,
    blocks: u64,
) -> Result<(), MapFault>
    requires valid { IsValid sup.now }
    requires inside { id < natural sup.now.num_blocks }
    requires size { E.size edits.old ≡ sup.now.block_size }
    requires volume { IsOfVolume (sizes_of sup.now) bitmap.old }
    ensures grown { (m : ℕ → Option (List ℕ)) (tree : Tree) (lists : Lists) (loose : List ℕ) (n : Node) → E.told edits.old ≡ Some m → IsAtWork (geometry_of sup.now) bitmap.old m tree lists loose → IsClear (geometry_of sup.now) bitmap.old m → IsNode tree id n → is_file n.kind ≡ true → OnOk result (HasMore (geometry_of sup.now) bitmap.old bitmap.new m tree lists loose id blocks (E.told edits.new) (E.changed edits.old) (E.changed edits.new)) }
    ensures unanswered { (m : ℕ → Option (List ℕ)) (tree : Tree) (lists : Lists) (loose : List ℕ) (n : Node) → E.told edits.old ≡ Some m → IsAtWork (geometry_of sup.now) bitmap.old m tree lists loose → IsNode tree id n → is_file n.kind ≡ true → blocks ≤ room_at (sizes_of sup.now) (contents m) id → IfErr result IsUnanswered }
    ensures cause { IfErr result (HasAnswerCause (E.counts edits.old) (E.counts edits.new)) }
    ensures rest { bitmap.new ≡ record bitmap.old { tally = bitmap.new.tally } }
    ensures stays { StaysChanged (E.changed edits.old) (E.changed edits.new) }
    ensures size { E.size edits.new ≡ E.size edits.old }
    ensures frame { E.frame edits.new ≡ E.frame edits.old }
    ensures later { AreLater (E.counts edits.old) (E.counts edits.new) }
{
    match grow_stream(alloc, sup, bitmap, edits, id, blocks) {
        Ok(()) => {}
        Err(fault) => return Err(fault),
    }
    match check_inode(alloc, sup, edits, id) {
        Ok(()) => Ok(()),
        Err(fault) => Err(fault),
    }
}

/// Adds to a file's stream as many blocks as it lacks that is to have so many, and none where it lacks none.
pub fn grow_file<E: Edits>(
    alloc: Global,
    sup: &Super,
    bitmap: &mut Bitmap,
    edits: &mut E,
    id: u64,
    blocks: u64,
) -> Result<(), MapFault>
    requires valid { IsValid sup.now }
    requires inside { id < natural sup.now.num_blocks }
    requires size { E.size edits.old ≡ sup.now.block_size }
    requires volume { IsOfVolume (sizes_of sup.now) bitmap.old }
    ensures grown { (m : ℕ → Option (List ℕ)) (tree : Tree) (lists : Lists) (loose : List ℕ) (n : Node) → E.told edits.old ≡ Some m → IsAtWork (geometry_of sup.now) bitmap.old m tree lists loose → IsClear (geometry_of sup.now) bitmap.old m → IsNode tree id n → is_file n.kind ≡ true → OnOk result (HasRoomFor (geometry_of sup.now) bitmap.old bitmap.new m tree lists loose id blocks (E.told edits.new) (E.changed edits.old) (E.changed edits.new)) }
    ensures unanswered { (m : ℕ → Option (List ℕ)) (tree : Tree) (lists : Lists) (loose : List ℕ) (n : Node) → E.told edits.old ≡ Some m → IsAtWork (geometry_of sup.now) bitmap.old m tree lists loose → IsNode tree id n → is_file n.kind ≡ true → sup.now.block_size * blocks < 1073741824 + sup.now.block_size → IfErr result IsUnanswered }
    ensures cause { IfErr result (HasAnswerCause (E.counts edits.old) (E.counts edits.new)) }
    ensures rest { bitmap.new ≡ record bitmap.old { tally = bitmap.new.tally } }
    ensures stays { StaysChanged (E.changed edits.old) (E.changed edits.new) }
    ensures size { E.size edits.new ≡ E.size edits.old }
    ensures frame { E.frame edits.new ≡ E.frame edits.old }
    ensures later { AreLater (E.counts edits.old) (E.counts edits.new) }
{
    let count = match lacking(alloc, sup, edits, id, blocks) {
        Ok(count) => count,
        Err(fault) => return Err(blocked(fault)),
    };
    if count == 0 {
        return Ok(());
    }
    match grow_by(alloc, sup, bitmap, edits, id, count) {
        Ok(()) => Ok(()),
        Err(fault) => Err(fault),
    }
}
