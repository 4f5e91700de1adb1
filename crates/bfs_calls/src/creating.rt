// A node is made of a free block.
ghost use Rattle.std.specs.Prelude.{◌≡◌, ◌≢◌, ◌≤◌, ◌<◌, ◌∷◌, ℕ, List, [], Option, Some, None, false, OnOk, IfOk, IfErr, length};
ghost use Rattle.std.specs.FinMap.{get};
ghost use Rattle.bfs_super.specs.Conditions.{IsValid, natural};
ghost use Rattle.bfs_super.specs.Geometry.{geometry_of};
ghost use Rattle.bfs_txn.specs.Faults.{AreLater};
ghost use Rattle.bfs_txn.specs.Told.{StaysChanged};
ghost use Rattle.bfs_stream.specs.Grown.{IsOfVolume};
ghost use Rattle.bfs_stream.specs.Sizes.{sizes_of};
ghost use Rattle.bfs_tree.specs.Changes.{kind_made};
ghost use Rattle.bfs_tree.specs.declared.call.Kind.TheVariants as kinds;
ghost use Rattle.bfs_tree.specs.Names.{has_byte, target_of};
ghost use Rattle.bfs_tree.specs.Trees.{Tree, new_node};
ghost use Rattle.bfs_shift.specs.Lists.{Lists};
ghost use Rattle.bfs_shift.specs.Work.{IsAtWork};
ghost use Rattle.bfs_look.specs.Ready.{IsReady};
ghost use Rattle.bfs_calls.specs.Done.{IsUnanswered, HasAnswerCause};
ghost use Rattle.bfs_calls.specs.Made.{IsFilled, IsCreated};
ghost use Rattle.bfs_calls.specs.Refusals.{MayBeMade};

use crate::fault::{blocked, no_run};
use bfs_bitmap::Bitmap;
use bfs_moves::{make_directory, make_file, make_link, make_long_link, take_block};
use bfs_node::TreeFault;
use bfs_stream_pages::MapFault;
use bfs_super::Super;
use bfs_tree::MakeKind;
use bfs_txn::Edits;
use std::alloc::Global;

/// The longest target that stands in an inode, in bytes.
const IN_INODE: usize = 143;

/// Writes a new link into a loose block: a short target stands in its inode, and a longer one in its stream.
fn fill_link<E: Edits>(
    alloc: Global,
    sup: &Super,
    bitmap: &mut Bitmap,
    edits: &mut E,
    block: u64,
    dir: u64,
    name: &[u8],
    target: &[u8],
    mode: u32,
    stamp: i64,
) -> Result<(), MapFault>
    requires valid { IsValid sup.now }
    requires size { E.size edits.old ≡ sup.now.block_size }
    requires volume { IsOfVolume (sizes_of sup.now) bitmap.old }
    requires inside { block < natural sup.now.num_blocks }
    requires parent { dir < natural sup.now.num_blocks }
    requires some { 1 ≤ length name.now }
    requires short { length name.now ≤ 255 }
    requires no_zero { has_byte 0 target.now ≡ false }
    requires few { length target.now ≤ 1024 }
    requires mode { mode ≤ 4095 }
    ensures filled { (m : ℕ → Option (List ℕ)) (tree : Tree) (lists : Lists) → E.told edits.old ≡ Some m → IsAtWork (geometry_of sup.now) bitmap.old m tree lists (block ∷ []) → get tree.nodes block ≡ None → block ≢ (geometry_of sup.now).root → OnOk result (IsFilled (geometry_of sup.now) bitmap.old bitmap.new m tree lists block dir (new_node kinds.Link name.now dir mode (length target.now) target.now stamp) (E.told edits.new) (E.changed edits.old) (E.changed edits.new)) }
    ensures unanswered { (m : ℕ → Option (List ℕ)) (tree : Tree) (lists : Lists) → E.told edits.old ≡ Some m → IsAtWork (geometry_of sup.now) bitmap.old m tree lists (block ∷ []) → get tree.nodes block ≡ None → block ≢ (geometry_of sup.now).root → IfErr result IsUnanswered }
    ensures cause { IfErr result (HasAnswerCause (E.counts edits.old) (E.counts edits.new)) }
    ensures rest { bitmap.new ≡ record bitmap.old { tally = bitmap.new.tally } }
    ensures stays { StaysChanged (E.changed edits.old) (E.changed edits.new) }
    ensures size { E.size edits.new ≡ E.size edits.old }
    ensures frame { E.frame edits.new ≡ E.frame edits.old }
    ensures later { AreLater (E.counts edits.old) (E.counts edits.new) }
{
    if target.len() <= IN_INODE {
        return match make_link(alloc, sup, edits, block, dir, name, target, mode, stamp) {
            Ok(()) => Ok(()),
            Err(fault) => Err(blocked(fault)),
        };
    }
    match make_long_link(
        alloc, sup, bitmap, edits, block, dir, name, target, mode, stamp,
    ) {
        Ok(()) => Ok(()),
        Err(fault) => Err(TreeFault::Pages(fault)),
    }
}

/// Writes a new node into a loose block.
fn fill<E: Edits>(
    alloc: Global,
    sup: &Super,
    bitmap: &mut Bitmap,
    edits: &mut E,
    block: u64,
    dir: u64,
    name: &[u8],
    kind: &MakeKind,
    mode: u32,
    stamp: i64,
) -> Result<(), MapFault>
    requires valid { IsValid sup.now }
    requires size { E.size edits.old ≡ sup.now.block_size }
    requires volume { IsOfVolume (sizes_of sup.now) bitmap.old }
    requires inside { block < natural sup.now.num_blocks }
    requires may { MayBeMade (natural sup.now.num_blocks) dir name.now kind.now }
    requires mode { mode ≤ 4095 }
    ensures filled { (m : ℕ → Option (List ℕ)) (tree : Tree) (lists : Lists) → E.told edits.old ≡ Some m → IsAtWork (geometry_of sup.now) bitmap.old m tree lists (block ∷ []) → get tree.nodes block ≡ None → block ≢ (geometry_of sup.now).root → OnOk result (IsFilled (geometry_of sup.now) bitmap.old bitmap.new m tree lists block dir (new_node (kind_made kind.now) name.now dir mode (length (target_of kind.now)) (target_of kind.now) stamp) (E.told edits.new) (E.changed edits.old) (E.changed edits.new)) }
    ensures unanswered { (m : ℕ → Option (List ℕ)) (tree : Tree) (lists : Lists) → E.told edits.old ≡ Some m → IsAtWork (geometry_of sup.now) bitmap.old m tree lists (block ∷ []) → get tree.nodes block ≡ None → block ≢ (geometry_of sup.now).root → IfErr result IsUnanswered }
    ensures cause { IfErr result (HasAnswerCause (E.counts edits.old) (E.counts edits.new)) }
    ensures rest { bitmap.new ≡ record bitmap.old { tally = bitmap.new.tally } }
    ensures stays { StaysChanged (E.changed edits.old) (E.changed edits.new) }
    ensures size { E.size edits.new ≡ E.size edits.old }
    ensures frame { E.frame edits.new ≡ E.frame edits.old }
    ensures later { AreLater (E.counts edits.old) (E.counts edits.new) }
{
    match kind {
        MakeKind::File => match make_file(alloc, sup, edits, block, dir, name, mode, stamp) {
            Ok(()) => Ok(()),
            Err(fault) => Err(blocked(fault)),
        },
        MakeKind::Dir => {
            match make_directory(alloc, sup, bitmap, edits, block, dir, name, mode, stamp) {
                Ok(()) => Ok(()),
                Err(fault) => Err(TreeFault::Pages(fault)),
            }
        }
        MakeKind::Link { target } => {
            let target = target.as_slice();
            fill_link(
                alloc, sup, bitmap, edits, block, dir, name, target, mode, stamp,
            )
        }
    }
}

/// Makes a node of the lowest free block, which is its id.
pub(crate) fn create<E: Edits>(
    alloc: Global,
    sup: &Super,
    bitmap: &mut Bitmap,
    edits: &mut E,
    dir: u64,
    name: &[u8],
    kind: &MakeKind,
    mode: u32,
    stamp: i64,
) -> Result<u64, MapFault>
    requires valid { IsValid sup.now }
    requires size { E.size edits.old ≡ sup.now.block_size }
    requires volume { IsOfVolume (sizes_of sup.now) bitmap.old }
    requires may { MayBeMade (natural sup.now.num_blocks) dir name.now kind.now }
    requires mode { mode ≤ 4095 }
    ensures created { (m : ℕ → Option (List ℕ)) (tree : Tree) (lists : Lists) → E.told edits.old ≡ Some m → IsReady (geometry_of sup.now) bitmap.old m tree lists → IfOk result (λ id. IsCreated (geometry_of sup.now) bitmap.old bitmap.new m tree lists id dir (new_node (kind_made kind.now) name.now dir mode (length (target_of kind.now)) (target_of kind.now) stamp) (E.told edits.new) (E.changed edits.old) (E.changed edits.new)) }
    ensures unanswered { (m : ℕ → Option (List ℕ)) (tree : Tree) (lists : Lists) → E.told edits.old ≡ Some m → IsReady (geometry_of sup.now) bitmap.old m tree lists → IfErr result IsUnanswered }
    ensures inside { IfOk result (λ id. id < natural sup.now.num_blocks) }
    ensures cause { IfErr result (HasAnswerCause (E.counts edits.old) (E.counts edits.new)) }
    ensures rest { bitmap.new ≡ record bitmap.old { tally = bitmap.new.tally } }
    ensures stays { StaysChanged (E.changed edits.old) (E.changed edits.new) }
    ensures size { E.size edits.new ≡ E.size edits.old }
    ensures frame { E.frame edits.new ≡ E.frame edits.old }
    ensures later { AreLater (E.counts edits.old) (E.counts edits.new) }
{
    let block = match take_block(sup, bitmap, edits) {
        Ok(block) => block,
        Err(fault) => return Err(no_run(fault)),
    };
    match fill(
        alloc, sup, bitmap, edits, block, dir, name, kind, mode, stamp,
    ) {
        Ok(()) => Ok(block),
        Err(fault) => Err(fault),
    }
}
