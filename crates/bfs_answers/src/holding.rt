// The call that holds a piece of a file.
ghost use Rattle.std.specs.Prelude.{◌≡◌, ◌<◌, ℕ, List, Option, Some, None, IfOk, IfErr};
ghost use Rattle.bfs_super.specs.Conditions.{IsValid, natural};
ghost use Rattle.bfs_super.specs.Geometry.{geometry_of};
ghost use Rattle.bfs_bitmap.specs.Runs.{IsSettled, as_kept};
ghost use Rattle.bfs_txn.specs.Faults.{AreLater};
ghost use Rattle.bfs_stream.specs.Grown.{IsOfVolume};
ghost use Rattle.bfs_stream.specs.Sizes.{sizes_of};
ghost use Rattle.bfs_tree.specs.declared.call.Call.TheVariants as calls;
ghost use Rattle.bfs_tree.specs.declared.reply.Reply.TheVariants.{Done};
ghost use Rattle.bfs_tree.specs.Refusals.{own_refusal};
ghost use Rattle.bfs_tree.specs.States.{State};
ghost use Rattle.bfs_tree.specs.Trees.{Tree};
ghost use Rattle.bfs_shift.specs.Lists.{Lists};
ghost use Rattle.bfs_look.specs.Ready.{IsReady, HasReady};
ghost use Rattle.bfs_calls.specs.Done.{IsUnanswered, HasAnswerCause};
ghost use Rattle.bfs_answers.specs.Answered.{IsAnswered};
ghost use Rattle.bfs_answers.specs.Looks.{IsLooked, FindsMay, FindsOwn, MayBeDone};

use crate::{Allowance, Looked};
use bfs_bitmap::Bitmap;
use bfs_hold::{hold_allowance, hold_refusal, hold_to_write};
use bfs_stream_pages::MapFault;
use bfs_super::Super;
use bfs_tree::{Hold, Reply};
use bfs_txn::Edits;
use std::alloc::Global;

/// Looks at a call that holds a piece of a file: one that is only read changes nothing of the volume.
pub fn look_hold<E: Edits>(
    alloc: Global,
    sup: &Super,
    bitmap: &mut Bitmap,
    edits: &mut E,
    holds: &[Hold],
    id: u64,
    at: u64,
    length: u64,
    write: bool,
) -> Result<Looked, MapFault>
    requires valid { IsValid sup.now }
    requires size { E.size edits.old ≡ sup.now.block_size }
    requires ready { (m : ℕ → Option (List ℕ)) → E.told edits.old ≡ Some m → HasReady (geometry_of sup.now) bitmap.old m }
    ensures looked { (m : ℕ → Option (List ℕ)) (tree : Tree) (lists : Lists) → E.told edits.old ≡ Some m → IsReady (geometry_of sup.now) bitmap.old m tree lists → IfOk result (IsLooked (geometry_of sup.now) m tree holds.now (calls.Hold id at length write)) }
    ensures own { IfOk result FindsOwn }
    ensures may { IfOk result (FindsMay MayBeDone sup.now (calls.Hold id at length write)) }
    ensures unanswered { (m : ℕ → Option (List ℕ)) (tree : Tree) (lists : Lists) → E.told edits.old ≡ Some m → IsReady (geometry_of sup.now) bitmap.old m tree lists → IfErr result IsUnanswered }
    ensures cause { IfErr result (HasAnswerCause (E.counts edits.old) (E.counts edits.new)) }
    ensures bitmap { bitmap.new ≡ bitmap.old }
    ensures told { E.told edits.new ≡ E.told edits.old }
    ensures size { E.size edits.new ≡ E.size edits.old }
    ensures frame { E.frame edits.new ≡ E.frame edits.old }
    ensures later { AreLater (E.counts edits.old) (E.counts edits.new) }
{
    let refused = match hold_refusal(alloc, sup, bitmap, edits, holds, id, at, length, write) {
        Ok(refused) => refused,
        Err(fault) => return Err(fault),
    };
    match refused {
        Some(reply) => return Ok(Looked::Answered(reply)),
        None => {}
    }
    if !write {
        return Ok(Looked::Answered(Reply::Done));
    }
    match hold_allowance(alloc, sup, bitmap, edits) {
        Ok(allowed) => Ok(Looked::Allowed(Allowance {
            logged: allowed,
            taken: allowed,
        })),
        Err(fault) => Err(fault),
    }
}

/// Holds a piece of a file, where the call has no refusal of its own with these holds of sessions: a file that is to be written counts as changed.
pub fn hold_file<E: Edits>(
    alloc: Global,
    sup: &Super,
    bitmap: &mut Bitmap,
    edits: &mut E,
    holds: &[Hold],
    id: u64,
    at: u64,
    length: u64,
    write: bool,
    stamp: i64,
) -> Result<Reply, MapFault>
    requires valid { IsValid sup.now }
    requires size { E.size edits.old ≡ sup.now.block_size }
    requires volume { IsOfVolume (sizes_of sup.now) bitmap.old }
    requires settled { IsSettled bitmap.old }
    requires may { id < natural sup.now.num_blocks }
    requires ready { (m : ℕ → Option (List ℕ)) → E.told edits.old ≡ Some m → HasReady (geometry_of sup.now) bitmap.old m }
    requires fine { (m : ℕ → Option (List ℕ)) (tree : Tree) (lists : Lists) (s : State) → E.told edits.old ≡ Some m → IsReady (geometry_of sup.now) bitmap.old m tree lists → s.tree ≡ tree → s.holds ≡ holds.now → own_refusal (calls.Hold id at length write) s ≡ None }
    ensures answered { (m : ℕ → Option (List ℕ)) (tree : Tree) (lists : Lists) → E.told edits.old ≡ Some m → IsReady (geometry_of sup.now) bitmap.old m tree lists → IfOk result (λ reply. IsAnswered (geometry_of sup.now) bitmap.old bitmap.new m tree holds.now stamp (calls.Hold id at length write) reply (E.told edits.new) (E.changed edits.old) (E.changed edits.new)) }
    ensures done { IfOk result (λ reply. reply ≡ Done) }
    ensures unanswered { (m : ℕ → Option (List ℕ)) (tree : Tree) (lists : Lists) → E.told edits.old ≡ Some m → IsReady (geometry_of sup.now) bitmap.old m tree lists → IfErr result IsUnanswered }
    ensures cause { IfErr result (HasAnswerCause (E.counts edits.old) (E.counts edits.new)) }
    ensures rest { bitmap.new ≡ record bitmap.old { tally = bitmap.new.tally } }
    ensures kept { as_kept bitmap.new ≡ as_kept bitmap.old }
    ensures size { E.size edits.new ≡ E.size edits.old }
    ensures frame { E.frame edits.new ≡ E.frame edits.old }
    ensures later { AreLater (E.counts edits.old) (E.counts edits.new) }
{
    let _ = holds;
    let _ = at;
    let _ = length;
    if !write {
        return Ok(Reply::Done);
    }
    match hold_to_write(alloc, sup, bitmap, edits, id, stamp) {
        Ok(()) => Ok(Reply::Done),
        Err(fault) => Err(fault),
    }
}
