// The call that makes an index.
ghost use Rattle.std.specs.Prelude.{◌≡◌, ℕ, List, Option, Some, None, IfOk, IfErr};
ghost use Rattle.bfs_super.specs.Conditions.{IsValid};
ghost use Rattle.bfs_super.specs.Geometry.{geometry_of};
ghost use Rattle.bfs_bitmap.specs.Runs.{IsSettled, as_kept};
ghost use Rattle.bfs_txn.specs.Faults.{AreLater};
ghost use Rattle.bfs_stream.specs.Grown.{IsOfVolume};
ghost use Rattle.bfs_stream.specs.Sizes.{sizes_of};
ghost use Rattle.bfs_tree.specs.declared.call.Call.TheVariants.{IndexMake};
ghost use Rattle.bfs_tree.specs.declared.reply.Reply.TheVariants.{Done};
ghost use Rattle.bfs_tree.specs.declared.state.Hold as hold;
ghost use Rattle.bfs_tree.specs.Refusals.{own_refusal};
ghost use Rattle.bfs_tree.specs.States.{State};
ghost use Rattle.bfs_tree.specs.Trees.{Tree};
ghost use Rattle.bfs_shift.specs.Lists.{Lists};
ghost use Rattle.bfs_look.specs.Ready.{IsReady, HasReady};
ghost use Rattle.bfs_calls.specs.Done.{IsUnanswered, HasAnswerCause};
ghost use Rattle.bfs_index_make.specs.Made.{MayIndex};
ghost use Rattle.bfs_answers.specs.Answered.{IsAnswered};
ghost use Rattle.bfs_answers.specs.Looks.{IsLooked, FindsMay, FindsOwn, MayBeDone};

use crate::{Allowance, Looked};
use bfs_bitmap::Bitmap;
use bfs_index_make::{index_make_allowance, index_make_refusal, make_index};
use bfs_stream_pages::MapFault;
use bfs_super::Super;
use bfs_tree::{KeyKind, Reply};
use bfs_txn::Edits;
use std::alloc::Global;

/// Looks at a call that makes an index.
pub fn look_make_index<E: Edits>(
    alloc: Global,
    sup: &Super,
    bitmap: &mut Bitmap,
    edits: &mut E,
    name: &[u8],
    kind: KeyKind,
) -> Result<Looked, MapFault>
    requires valid { IsValid sup.now }
    requires size { E.size edits.old ≡ sup.now.block_size }
    requires ready { (m : ℕ → Option (List ℕ)) → E.told edits.old ≡ Some m → HasReady (geometry_of sup.now) bitmap.old m }
    ensures looked { (m : ℕ → Option (List ℕ)) (tree : Tree) (lists : Lists) (holds : List hold.Hold) → E.told edits.old ≡ Some m → IsReady (geometry_of sup.now) bitmap.old m tree lists → IfOk result (IsLooked (geometry_of sup.now) m tree holds (IndexMake name.now kind)) }
    ensures own { IfOk result FindsOwn }
    ensures may { IfOk result (FindsMay MayBeDone sup.now (IndexMake name.now kind)) }
    ensures unanswered { (m : ℕ → Option (List ℕ)) (tree : Tree) (lists : Lists) → E.told edits.old ≡ Some m → IsReady (geometry_of sup.now) bitmap.old m tree lists → IfErr result IsUnanswered }
    ensures cause { IfErr result (HasAnswerCause (E.counts edits.old) (E.counts edits.new)) }
    ensures bitmap { bitmap.new ≡ bitmap.old }
    ensures told { E.told edits.new ≡ E.told edits.old }
    ensures size { E.size edits.new ≡ E.size edits.old }
    ensures frame { E.frame edits.new ≡ E.frame edits.old }
    ensures later { AreLater (E.counts edits.old) (E.counts edits.new) }
{
    let refused = match index_make_refusal(alloc, sup, bitmap, edits, name, kind) {
        Ok(refused) => refused,
        Err(fault) => return Err(fault),
    };
    match refused {
        Some(reply) => return Ok(Looked::Answered(reply)),
        None => {}
    }
    match index_make_allowance(alloc, sup, bitmap, edits, name, kind) {
        Ok(allowed) => Ok(Looked::Allowed(Allowance {
            logged: allowed,
            taken: allowed,
        })),
        Err(fault) => Err(fault),
    }
}

/// Makes an index, where the call has no refusal of its own.
pub fn build_index<E: Edits>(
    alloc: Global,
    sup: &Super,
    bitmap: &mut Bitmap,
    edits: &mut E,
    name: &[u8],
    kind: KeyKind,
    stamp: i64,
) -> Result<Reply, MapFault>
    requires valid { IsValid sup.now }
    requires size { E.size edits.old ≡ sup.now.block_size }
    requires volume { IsOfVolume (sizes_of sup.now) bitmap.old }
    requires settled { IsSettled bitmap.old }
    requires may { MayIndex name.now kind }
    requires ready { (m : ℕ → Option (List ℕ)) → E.told edits.old ≡ Some m → HasReady (geometry_of sup.now) bitmap.old m }
    requires fine { (m : ℕ → Option (List ℕ)) (tree : Tree) (lists : Lists) (s : State) → E.told edits.old ≡ Some m → IsReady (geometry_of sup.now) bitmap.old m tree lists → s.tree ≡ tree → own_refusal (IndexMake name.now kind) s ≡ None }
    ensures answered { (m : ℕ → Option (List ℕ)) (tree : Tree) (lists : Lists) (holds : List hold.Hold) → E.told edits.old ≡ Some m → IsReady (geometry_of sup.now) bitmap.old m tree lists → IfOk result (λ reply. IsAnswered (geometry_of sup.now) bitmap.old bitmap.new m tree holds stamp (IndexMake name.now kind) reply (E.told edits.new) (E.changed edits.old) (E.changed edits.new)) }
    ensures done { IfOk result (λ reply. reply ≡ Done) }
    ensures unanswered { (m : ℕ → Option (List ℕ)) (tree : Tree) (lists : Lists) → E.told edits.old ≡ Some m → IsReady (geometry_of sup.now) bitmap.old m tree lists → IfErr result IsUnanswered }
    ensures cause { IfErr result (HasAnswerCause (E.counts edits.old) (E.counts edits.new)) }
    ensures rest { bitmap.new ≡ record bitmap.old { given = bitmap.new.given; tally = bitmap.new.tally } }
    ensures kept { as_kept bitmap.new ≡ as_kept bitmap.old }
    ensures size { E.size edits.new ≡ E.size edits.old }
    ensures frame { E.frame edits.new ≡ E.frame edits.old }
    ensures later { AreLater (E.counts edits.old) (E.counts edits.new) }
{
    match make_index(alloc, sup, bitmap, edits, name, kind, stamp) {
        Ok(()) => Ok(Reply::Done),
        Err(fault) => Err(fault),
    }
}
