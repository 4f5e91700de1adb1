// A node is made.
ghost use Rattle.std.specs.Prelude.{◌≡◌, ◌≤◌, ℕ, List, Option, Some, None, IfOk, IfErr};
ghost use Rattle.bfs_super.specs.Conditions.{IsValid, natural};
ghost use Rattle.bfs_super.specs.Geometry.{geometry_of};
ghost use Rattle.bfs_txn.specs.Faults.{AreLater};
ghost use Rattle.bfs_txn.specs.Told.{StaysChanged};
ghost use Rattle.bfs_stream.specs.Grown.{IsOfVolume};
ghost use Rattle.bfs_stream.specs.Sizes.{sizes_of};
ghost use Rattle.bfs_tree.specs.declared.call.Call.TheVariants.{Make};
ghost use Rattle.bfs_tree.specs.Refusals.{own_refusal};
ghost use Rattle.bfs_tree.specs.States.{State};
ghost use Rattle.bfs_tree.specs.Trees.{Tree};
ghost use Rattle.bfs_shift.specs.Lists.{Lists};
ghost use Rattle.bfs_look.specs.Ready.{IsReady, HasReady};
ghost use Rattle.bfs_calls.specs.Done.{IsDoneSo, IsUnanswered, HasAnswerCause};
ghost use Rattle.bfs_calls.specs.Refusals.{MayBeMade};
ghost use Rattle.bfs_calls.specs.Made.{IsMadeIn};

use crate::creating::create;
use crate::entering::enter;
use crate::indices::built_in_indices;
use crate::refusal::make_refusal;
use bfs_bitmap::Bitmap;
use bfs_stream_pages::MapFault;
use bfs_super::Super;
use bfs_tree::{MakeKind, Reply};
use bfs_txn::Edits;
use std::alloc::Global;

/// Makes a node where the call has no refusal of its own, and enters it: in its directory, and in each index that lists it. Answers its id.
pub fn make_node<E: Edits>(
    alloc: Global,
    sup: &Super,
    bitmap: &mut Bitmap,
    edits: &mut E,
    dir: u64,
    name: &[u8],
    kind: &MakeKind,
    mode: u32,
    stamp: i64,
) -> Result<u64, MapFault>
    requires valid { IsValid sup.now }
    requires size { E.size edits.old ≡ sup.now.block_size }
    requires volume { IsOfVolume (sizes_of sup.now) bitmap.old }
    requires ready { (m : ℕ → Option (List ℕ)) → E.told edits.old ≡ Some m → HasReady (geometry_of sup.now) bitmap.old m }
    requires may { MayBeMade (natural sup.now.num_blocks) dir name.now kind.now }
    requires fine { (m : ℕ → Option (List ℕ)) (tree : Tree) (lists : Lists) (s : State) → E.told edits.old ≡ Some m → IsReady (geometry_of sup.now) bitmap.old m tree lists → s.tree ≡ tree → own_refusal (Make dir name.now kind.now mode) s ≡ None }
    requires mode { mode ≤ 4095 }
    ensures made { (m : ℕ → Option (List ℕ)) (tree : Tree) (lists : Lists) (s : State) → E.told edits.old ≡ Some m → IsReady (geometry_of sup.now) bitmap.old m tree lists → s.tree ≡ tree → IfOk result (λ id. IsMadeIn (geometry_of sup.now) bitmap.old bitmap.new m tree s dir name.now kind.now mode stamp id (E.told edits.new) (E.changed edits.old) (E.changed edits.new)) }
    ensures unanswered { (m : ℕ → Option (List ℕ)) (tree : Tree) (lists : Lists) → E.told edits.old ≡ Some m → IsReady (geometry_of sup.now) bitmap.old m tree lists → IfErr result IsUnanswered }
    ensures cause { IfErr result (HasAnswerCause (E.counts edits.old) (E.counts edits.new)) }
    ensures rest { bitmap.new ≡ record bitmap.old { tally = bitmap.new.tally } }
    ensures stays { StaysChanged (E.changed edits.old) (E.changed edits.new) }
    ensures size { E.size edits.new ≡ E.size edits.old }
    ensures frame { E.frame edits.new ≡ E.frame edits.old }
    ensures later { AreLater (E.counts edits.old) (E.counts edits.new) }
{
    let indices = match built_in_indices(alloc, sup, bitmap, edits) {
        Ok(indices) => indices,
        Err(fault) => return Err(fault),
    };
    let id = match create(alloc, sup, bitmap, edits, dir, name, kind, mode, stamp) {
        Ok(id) => id,
        Err(fault) => return Err(fault),
    };
    match enter(
        alloc,
        sup,
        bitmap,
        edits,
        dir,
        name,
        id,
        kind.kind(),
        indices,
        stamp,
    ) {
        Ok(()) => Ok(id),
        Err(fault) => Err(fault),
    }
}

/// Answers a call that makes a node: a file, a directory, or a link with its target. Its id is the lowest free block. The stamp is that of
/// the call; it becomes all three stamps of the node, and that of the last change of its directory's content.
pub fn make<E: Edits>(
    alloc: Global,
    sup: &Super,
    bitmap: &mut Bitmap,
    edits: &mut E,
    dir: u64,
    name: &[u8],
    kind: &MakeKind,
    mode: u32,
    stamp: i64,
) -> Result<Reply, MapFault>
    requires valid { IsValid sup.now }
    requires size { E.size edits.old ≡ sup.now.block_size }
    requires volume { IsOfVolume (sizes_of sup.now) bitmap.old }
    requires ready { (m : ℕ → Option (List ℕ)) → E.told edits.old ≡ Some m → HasReady (geometry_of sup.now) bitmap.old m }
    requires mode { mode ≤ 4095 }
    ensures answered { (m : ℕ → Option (List ℕ)) (tree : Tree) (lists : Lists) → E.told edits.old ≡ Some m → IsReady (geometry_of sup.now) bitmap.old m tree lists → IfOk result (λ reply. IsDoneSo (geometry_of sup.now) bitmap.old bitmap.new m tree stamp (Make dir name.now kind.now mode) reply (E.told edits.new) (E.changed edits.old) (E.changed edits.new)) }
    ensures unanswered { (m : ℕ → Option (List ℕ)) (tree : Tree) (lists : Lists) → E.told edits.old ≡ Some m → IsReady (geometry_of sup.now) bitmap.old m tree lists → IfErr result IsUnanswered }
    ensures cause { IfErr result (HasAnswerCause (E.counts edits.old) (E.counts edits.new)) }
    ensures rest { bitmap.new ≡ record bitmap.old { tally = bitmap.new.tally } }
    ensures stays { StaysChanged (E.changed edits.old) (E.changed edits.new) }
    ensures size { E.size edits.new ≡ E.size edits.old }
    ensures frame { E.frame edits.new ≡ E.frame edits.old }
    ensures later { AreLater (E.counts edits.old) (E.counts edits.new) }
{
    let refused = match make_refusal(alloc, sup, bitmap, edits, dir, name, kind) {
        Ok(refused) => refused,
        Err(fault) => return Err(fault),
    };
    match refused {
        Some(reply) => return Ok(reply),
        None => {}
    }
    match make_node(alloc, sup, bitmap, edits, dir, name, kind, mode, stamp) {
        Ok(id) => Ok(Reply::Made { id }),
        Err(fault) => Err(fault),
    }
}
