// The calls that take something out of a volume: a node is removed, an index, and an attribute of a node.
ghost use Rattle.std.specs.Prelude.{◌≡◌, ◌<◌, ℕ, ℤ, List, Option, Some, None, IfOk, IfErr};
ghost use Rattle.bfs_super.specs.Conditions.{IsValid, natural};
ghost use Rattle.bfs_super.specs.Geometry.{geometry_of};
ghost use Rattle.bfs_bitmap.specs.Runs.{IsSettled, as_kept};
ghost use Rattle.bfs_txn.specs.Faults.{AreLater};
ghost use Rattle.bfs_stream.specs.Grown.{IsOfVolume};
ghost use Rattle.bfs_stream.specs.Sizes.{sizes_of};
ghost use Rattle.bfs_tree.specs.declared.call.Call.TheVariants.{Remove, AttrRemove, IndexRemove};
ghost use Rattle.bfs_tree.specs.declared.reply.Reply.TheVariants.{Done};
ghost use Rattle.bfs_tree.specs.declared.state.Hold as hold;
ghost use Rattle.bfs_tree.specs.Refusals.{own_refusal};
ghost use Rattle.bfs_tree.specs.States.{State};
ghost use Rattle.bfs_tree.specs.Trees.{Tree};
ghost use Rattle.bfs_shift.specs.Lists.{Lists};
ghost use Rattle.bfs_look.specs.Ready.{IsReady, HasReady};
ghost use Rattle.bfs_calls.specs.Done.{IsUnanswered, HasAnswerCause};
ghost use Rattle.bfs_answers.specs.Answered.{IsAnswered};
ghost use Rattle.bfs_answers.specs.Looks.{IsLooked, FindsMay, FindsOwn, MayBeDone};

use crate::{Allowance, Looked};
use bfs_bitmap::Bitmap;
use bfs_index_make::attr_calls::{attr_remove_refusal, remove_attr, remove_attr_allowance};
use bfs_index_make::remove_index::{remove_index, remove_index_allowance, remove_index_refusal};
use bfs_rename::remove_node::{remove_allowance, remove_node, remove_refusal};
use bfs_stream_pages::MapFault;
use bfs_super::Super;
use bfs_tree::{Hold, Reply};
use bfs_txn::Edits;
use std::alloc::Global;

/// Looks at a call that removes a node.
pub fn look_remove<E: Edits>(
    alloc: Global,
    sup: &Super,
    bitmap: &mut Bitmap,
    edits: &mut E,
    holds: &[Hold],
    dir: u64,
    name: &[u8],
) -> Result<Looked, MapFault>
    requires valid { IsValid sup.now }
    requires size { E.size edits.old ≡ sup.now.block_size }
    requires ready { (m : ℕ → Option (List ℕ)) → E.told edits.old ≡ Some m → HasReady (geometry_of sup.now) bitmap.old m }
    ensures looked { (m : ℕ → Option (List ℕ)) (tree : Tree) (lists : Lists) → E.told edits.old ≡ Some m → IsReady (geometry_of sup.now) bitmap.old m tree lists → IfOk result (IsLooked (geometry_of sup.now) m tree holds.now (Remove dir name.now)) }
    ensures own { IfOk result FindsOwn }
    ensures may { IfOk result (FindsMay MayBeDone sup.now (Remove dir name.now)) }
    ensures unanswered { (m : ℕ → Option (List ℕ)) (tree : Tree) (lists : Lists) → E.told edits.old ≡ Some m → IsReady (geometry_of sup.now) bitmap.old m tree lists → IfErr result IsUnanswered }
    ensures cause { IfErr result (HasAnswerCause (E.counts edits.old) (E.counts edits.new)) }
    ensures bitmap { bitmap.new ≡ bitmap.old }
    ensures told { E.told edits.new ≡ E.told edits.old }
    ensures size { E.size edits.new ≡ E.size edits.old }
    ensures frame { E.frame edits.new ≡ E.frame edits.old }
    ensures later { AreLater (E.counts edits.old) (E.counts edits.new) }
{
    let refused = match remove_refusal(alloc, sup, bitmap, edits, holds, dir, name) {
        Ok(refused) => refused,
        Err(fault) => return Err(fault),
    };
    match refused {
        Some(reply) => return Ok(Looked::Answered(reply)),
        None => {}
    }
    match remove_allowance(alloc, sup, bitmap, edits, dir, name) {
        Ok(allowed) => Ok(Looked::Allowed(Allowance {
            logged: allowed,
            taken: allowed,
        })),
        Err(fault) => Err(fault),
    }
}

/// Looks at a call that removes an index.
pub fn look_remove_index<E: Edits>(
    alloc: Global,
    sup: &Super,
    bitmap: &mut Bitmap,
    edits: &mut E,
    name: &[u8],
) -> Result<Looked, MapFault>
    requires valid { IsValid sup.now }
    requires size { E.size edits.old ≡ sup.now.block_size }
    requires ready { (m : ℕ → Option (List ℕ)) → E.told edits.old ≡ Some m → HasReady (geometry_of sup.now) bitmap.old m }
    ensures looked { (m : ℕ → Option (List ℕ)) (tree : Tree) (lists : Lists) (holds : List hold.Hold) → E.told edits.old ≡ Some m → IsReady (geometry_of sup.now) bitmap.old m tree lists → IfOk result (IsLooked (geometry_of sup.now) m tree holds (IndexRemove name.now)) }
    ensures own { IfOk result FindsOwn }
    ensures may { IfOk result (FindsMay MayBeDone sup.now (IndexRemove name.now)) }
    ensures unanswered { (m : ℕ → Option (List ℕ)) (tree : Tree) (lists : Lists) → E.told edits.old ≡ Some m → IsReady (geometry_of sup.now) bitmap.old m tree lists → IfErr result IsUnanswered }
    ensures cause { IfErr result (HasAnswerCause (E.counts edits.old) (E.counts edits.new)) }
    ensures bitmap { bitmap.new ≡ bitmap.old }
    ensures told { E.told edits.new ≡ E.told edits.old }
    ensures size { E.size edits.new ≡ E.size edits.old }
    ensures frame { E.frame edits.new ≡ E.frame edits.old }
    ensures later { AreLater (E.counts edits.old) (E.counts edits.new) }
{
    let refused = match remove_index_refusal(alloc, sup, bitmap, edits, name) {
        Ok(refused) => refused,
        Err(fault) => return Err(fault),
    };
    match refused {
        Some(reply) => return Ok(Looked::Answered(reply)),
        None => {}
    }
    match remove_index_allowance(alloc, sup, bitmap, edits, name) {
        Ok(allowed) => Ok(Looked::Allowed(Allowance {
            logged: allowed,
            taken: allowed,
        })),
        Err(fault) => Err(fault),
    }
}

/// Looks at a call that removes an attribute of a node.
pub fn look_remove_attr<E: Edits>(
    alloc: Global,
    sup: &Super,
    bitmap: &mut Bitmap,
    edits: &mut E,
    id: u64,
    name: &[u8],
) -> Result<Looked, MapFault>
    requires valid { IsValid sup.now }
    requires size { E.size edits.old ≡ sup.now.block_size }
    requires ready { (m : ℕ → Option (List ℕ)) → E.told edits.old ≡ Some m → HasReady (geometry_of sup.now) bitmap.old m }
    ensures looked { (m : ℕ → Option (List ℕ)) (tree : Tree) (lists : Lists) (holds : List hold.Hold) → E.told edits.old ≡ Some m → IsReady (geometry_of sup.now) bitmap.old m tree lists → IfOk result (IsLooked (geometry_of sup.now) m tree holds (AttrRemove id name.now)) }
    ensures own { IfOk result FindsOwn }
    ensures may { IfOk result (FindsMay MayBeDone sup.now (AttrRemove id name.now)) }
    ensures unanswered { (m : ℕ → Option (List ℕ)) (tree : Tree) (lists : Lists) → E.told edits.old ≡ Some m → IsReady (geometry_of sup.now) bitmap.old m tree lists → IfErr result IsUnanswered }
    ensures cause { IfErr result (HasAnswerCause (E.counts edits.old) (E.counts edits.new)) }
    ensures bitmap { bitmap.new ≡ bitmap.old }
    ensures told { E.told edits.new ≡ E.told edits.old }
    ensures size { E.size edits.new ≡ E.size edits.old }
    ensures frame { E.frame edits.new ≡ E.frame edits.old }
    ensures later { AreLater (E.counts edits.old) (E.counts edits.new) }
{
    let refused = match attr_remove_refusal(alloc, sup, bitmap, edits, id, name) {
        Ok(refused) => refused,
        Err(fault) => return Err(fault),
    };
    match refused {
        Some(reply) => return Ok(Looked::Answered(reply)),
        None => {}
    }
    match remove_attr_allowance(alloc, sup, bitmap, edits, id, name) {
        Ok(allowed) => Ok(Looked::Allowed(Allowance {
            logged: allowed,
            taken: allowed,
        })),
        Err(fault) => Err(fault),
    }
}

/// Removes a node, where the call has no refusal of its own with these holds of sessions.
pub fn remove<E: Edits>(
    alloc: Global,
    sup: &Super,
    bitmap: &mut Bitmap,
    edits: &mut E,
    holds: &[Hold],
    dir: u64,
    name: &[u8],
    stamp: i64,
) -> Result<Reply, MapFault>
    requires valid { IsValid sup.now }
    requires size { E.size edits.old ≡ sup.now.block_size }
    requires volume { IsOfVolume (sizes_of sup.now) bitmap.old }
    requires settled { IsSettled bitmap.old }
    requires inside { dir < natural sup.now.num_blocks }
    requires ready { (m : ℕ → Option (List ℕ)) → E.told edits.old ≡ Some m → HasReady (geometry_of sup.now) bitmap.old m }
    requires fine { (m : ℕ → Option (List ℕ)) (tree : Tree) (lists : Lists) (s : State) → E.told edits.old ≡ Some m → IsReady (geometry_of sup.now) bitmap.old m tree lists → s.tree ≡ tree → s.holds ≡ holds.now → own_refusal (Remove dir name.now) s ≡ None }
    ensures answered { (m : ℕ → Option (List ℕ)) (tree : Tree) (lists : Lists) → E.told edits.old ≡ Some m → IsReady (geometry_of sup.now) bitmap.old m tree lists → IfOk result (λ reply. IsAnswered (geometry_of sup.now) bitmap.old bitmap.new m tree holds.now stamp (Remove dir name.now) reply (E.told edits.new) (E.changed edits.old) (E.changed edits.new)) }
    ensures done { IfOk result (λ reply. reply ≡ Done) }
    ensures unanswered { (m : ℕ → Option (List ℕ)) (tree : Tree) (lists : Lists) → E.told edits.old ≡ Some m → IsReady (geometry_of sup.now) bitmap.old m tree lists → IfErr result IsUnanswered }
    ensures cause { IfErr result (HasAnswerCause (E.counts edits.old) (E.counts edits.new)) }
    ensures rest { bitmap.new ≡ record bitmap.old { given = bitmap.new.given; tally = bitmap.new.tally } }
    ensures kept { as_kept bitmap.new ≡ as_kept bitmap.old }
    ensures size { E.size edits.new ≡ E.size edits.old }
    ensures frame { E.frame edits.new ≡ E.frame edits.old }
    ensures later { AreLater (E.counts edits.old) (E.counts edits.new) }
{
    let _ = holds;
    match remove_node(alloc, sup, bitmap, edits, dir, name, stamp) {
        Ok(()) => Ok(Reply::Done),
        Err(fault) => Err(fault),
    }
}

/// Removes an index, where the call has no refusal of its own.
pub fn drop_index<E: Edits>(
    alloc: Global,
    sup: &Super,
    bitmap: &mut Bitmap,
    edits: &mut E,
    name: &[u8],
) -> Result<Reply, MapFault>
    requires valid { IsValid sup.now }
    requires size { E.size edits.old ≡ sup.now.block_size }
    requires volume { IsOfVolume (sizes_of sup.now) bitmap.old }
    requires settled { IsSettled bitmap.old }
    requires ready { (m : ℕ → Option (List ℕ)) → E.told edits.old ≡ Some m → HasReady (geometry_of sup.now) bitmap.old m }
    requires fine { (m : ℕ → Option (List ℕ)) (tree : Tree) (lists : Lists) (s : State) → E.told edits.old ≡ Some m → IsReady (geometry_of sup.now) bitmap.old m tree lists → s.tree ≡ tree → own_refusal (IndexRemove name.now) s ≡ None }
    ensures answered { (m : ℕ → Option (List ℕ)) (tree : Tree) (lists : Lists) (holds : List hold.Hold) (stamp : ℤ) → E.told edits.old ≡ Some m → IsReady (geometry_of sup.now) bitmap.old m tree lists → IfOk result (λ reply. IsAnswered (geometry_of sup.now) bitmap.old bitmap.new m tree holds stamp (IndexRemove name.now) reply (E.told edits.new) (E.changed edits.old) (E.changed edits.new)) }
    ensures done { IfOk result (λ reply. reply ≡ Done) }
    ensures unanswered { (m : ℕ → Option (List ℕ)) (tree : Tree) (lists : Lists) → E.told edits.old ≡ Some m → IsReady (geometry_of sup.now) bitmap.old m tree lists → IfErr result IsUnanswered }
    ensures cause { IfErr result (HasAnswerCause (E.counts edits.old) (E.counts edits.new)) }
    ensures rest { bitmap.new ≡ record bitmap.old { given = bitmap.new.given; tally = bitmap.new.tally } }
    ensures kept { as_kept bitmap.new ≡ as_kept bitmap.old }
    ensures size { E.size edits.new ≡ E.size edits.old }
    ensures frame { E.frame edits.new ≡ E.frame edits.old }
    ensures later { AreLater (E.counts edits.old) (E.counts edits.new) }
{
    match remove_index(alloc, sup, bitmap, edits, name) {
        Ok(()) => Ok(Reply::Done),
        Err(fault) => Err(fault),
    }
}

/// Removes an attribute of a node, where the call has no refusal of its own.
pub fn drop_attr<E: Edits>(
    alloc: Global,
    sup: &Super,
    bitmap: &mut Bitmap,
    edits: &mut E,
    id: u64,
    name: &[u8],
    stamp: i64,
) -> Result<Reply, MapFault>
    requires valid { IsValid sup.now }
    requires size { E.size edits.old ≡ sup.now.block_size }
    requires volume { IsOfVolume (sizes_of sup.now) bitmap.old }
    requires settled { IsSettled bitmap.old }
    requires ready { (m : ℕ → Option (List ℕ)) → E.told edits.old ≡ Some m → HasReady (geometry_of sup.now) bitmap.old m }
    requires fine { (m : ℕ → Option (List ℕ)) (tree : Tree) (lists : Lists) (s : State) → E.told edits.old ≡ Some m → IsReady (geometry_of sup.now) bitmap.old m tree lists → s.tree ≡ tree → own_refusal (AttrRemove id name.now) s ≡ None }
    ensures answered { (m : ℕ → Option (List ℕ)) (tree : Tree) (lists : Lists) (holds : List hold.Hold) → E.told edits.old ≡ Some m → IsReady (geometry_of sup.now) bitmap.old m tree lists → IfOk result (λ reply. IsAnswered (geometry_of sup.now) bitmap.old bitmap.new m tree holds stamp (AttrRemove id name.now) reply (E.told edits.new) (E.changed edits.old) (E.changed edits.new)) }
    ensures done { IfOk result (λ reply. reply ≡ Done) }
    ensures unanswered { (m : ℕ → Option (List ℕ)) (tree : Tree) (lists : Lists) → E.told edits.old ≡ Some m → IsReady (geometry_of sup.now) bitmap.old m tree lists → IfErr result IsUnanswered }
    ensures cause { IfErr result (HasAnswerCause (E.counts edits.old) (E.counts edits.new)) }
    ensures rest { bitmap.new ≡ record bitmap.old { given = bitmap.new.given; tally = bitmap.new.tally } }
    ensures kept { as_kept bitmap.new ≡ as_kept bitmap.old }
    ensures size { E.size edits.new ≡ E.size edits.old }
    ensures frame { E.frame edits.new ≡ E.frame edits.old }
    ensures later { AreLater (E.counts edits.old) (E.counts edits.new) }
{
    match remove_attr(alloc, sup, bitmap, edits, id, name, stamp) {
        Ok(()) => Ok(Reply::Done),
        Err(fault) => Err(fault),
    }
}
