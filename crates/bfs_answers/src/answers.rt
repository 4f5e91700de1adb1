// How calls are answered over a volume.
ghost use Rattle.std.specs.Prelude.{◌≡◌, ◌≤◌, ℕ, List, Option, Some, None, Bool, true, IfOk, IfErr};
ghost use Rattle.bfs_super.specs.Conditions.{IsValid};
ghost use Rattle.bfs_super.specs.Geometry.{geometry_of};
ghost use Rattle.bfs_super.specs.declared.sup.Super as sup;
ghost use Rattle.bfs_bitmap.specs.Runs.{Room, IsSettled, as_kept};
ghost use Rattle.bfs_txn.specs.Faults.{AreLater};
ghost use Rattle.bfs_stream.specs.Grown.{IsOfVolume};
ghost use Rattle.bfs_stream.specs.Sizes.{sizes_of};
ghost use Rattle.bfs_tree.specs.declared.call.Call as calls;
ghost use Rattle.bfs_tree.specs.Answers.{KeepsRanges};
ghost use Rattle.bfs_tree.specs.Refusals.{own_refusal};
ghost use Rattle.bfs_tree.specs.States.{State};
ghost use Rattle.bfs_tree.specs.Steps.{is_done};
ghost use Rattle.bfs_tree.specs.Trees.{Tree};
ghost use Rattle.bfs_shift.specs.Lists.{Lists};
ghost use Rattle.bfs_look.specs.Ready.{IsReady, HasReady};
ghost use Rattle.bfs_calls.specs.Done.{IsUnanswered, HasAnswerCause};
ghost use Rattle.bfs_calls.specs.Refusals.{is_own};
ghost use Rattle.bfs_index_make.specs.Written.{HasWriteCause};
ghost use Rattle.bfs_answers.specs.Answered.{IsAnswered, asked};
ghost use Rattle.bfs_answers.specs.Looks.{IsLooked, FindsMay, FindsOwn, MaySee, RestsOn};

use bfs_bitmap::Bitmap;
use bfs_stream_pages::MapFault;
use bfs_super::Super;
use bfs_tree::{Call, Hold, Reply};
use bfs_txn::Edits;
use std::alloc::Global;

/// How many blocks a call may change, and how many it may take.
#[derive(Clone, Copy, Debug)]
pub struct Allowance {
    /// The blocks that the call may change and the log holds.
    pub logged: u64,
    /// How many more blocks may be used after the call: the data blocks that a file gains, which the log doesn't hold, are among them.
    pub taken: u64,
}

/// What a look at a call has found: its reply, where it only reads or is refused; or how many blocks it may change and take, where it is to be done.
#[derive(Debug, Drop)]
pub enum Looked {
    Answered(Reply),
    Allowed(Allowance),
}

/// Something that answers calls by reading and changing the blocks of a volume.
pub trait Answers {
    /// The calls that it answers.
    ghost serves: { calls.Call → Bool };

    /// What a look has found of a call that is to be done, whatever the volume.
    ghost may: { sup.Super → calls.Call → Type 0 };

    /// Looks at a call with these holds of sessions, and changes nothing.
    fn look<E: Edits>(
        &self,
        alloc: Global,
        sup: &Super,
        bitmap: &mut Bitmap,
        edits: &mut E,
        holds: &[Hold],
        call: &Call,
    ) -> Result<Looked, MapFault>
        requires valid { IsValid sup.now }
        requires size { E.size edits.old ≡ sup.now.block_size }
        requires serves { serves call.now ≡ true }
        requires ranges { KeepsRanges call.now }
        requires ready { (m : ℕ → Option (List ℕ)) → E.told edits.old ≡ Some m → MaySee (geometry_of sup.now) bitmap.old m call.now }
        ensures looked { (m : ℕ → Option (List ℕ)) (tree : Tree) (lists : Lists) → E.told edits.old ≡ Some m → IsReady (geometry_of sup.now) bitmap.old m tree lists → IfOk result (IsLooked (geometry_of sup.now) m tree holds.now call.now) }
        ensures own { IfOk result FindsOwn }
        ensures may { IfOk result (FindsMay may sup.now call.now) }
        ensures unanswered { (m : ℕ → Option (List ℕ)) (tree : Tree) (lists : Lists) → E.told edits.old ≡ Some m → IsReady (geometry_of sup.now) bitmap.old m tree lists → IfErr result IsUnanswered }
        // A search of an index rests on the index alone: so it is for any volume of which what is told says as much.
        ensures rests { (v : Room) (m w : ℕ → Option (List ℕ)) (tree : Tree) (lists : Lists) → E.told edits.old ≡ Some m → IsReady (geometry_of sup.now) v w tree lists → RestsOn (geometry_of sup.now) w m tree call.now → IfOk result (IsLooked (geometry_of sup.now) w tree holds.now call.now) }
        ensures rests_unanswered { (v : Room) (m w : ℕ → Option (List ℕ)) (tree : Tree) (lists : Lists) → E.told edits.old ≡ Some m → IsReady (geometry_of sup.now) v w tree lists → RestsOn (geometry_of sup.now) w m tree call.now → IfErr result IsUnanswered }
        ensures cause { IfErr result (HasAnswerCause (E.counts edits.old) (E.counts edits.new)) }
        ensures bitmap { bitmap.new ≡ bitmap.old }
        ensures told { E.told edits.new ≡ E.told edits.old }
        ensures size { E.size edits.new ≡ E.size edits.old }
        ensures frame { E.frame edits.new ≡ E.frame edits.old }
        ensures later { AreLater (E.counts edits.old) (E.counts edits.new) };

    /// Answers a call that has no refusal of its own with these holds, and is to be done. Its effects have this stamp.
    fn answer<E: Edits>(
        &self,
        alloc: Global,
        sup: &Super,
        bitmap: &mut Bitmap,
        edits: &mut E,
        holds: &[Hold],
        call: &Call,
        stamp: i64,
    ) -> Result<Reply, MapFault>
        requires valid { IsValid sup.now }
        requires size { E.size edits.old ≡ sup.now.block_size }
        requires volume { IsOfVolume (sizes_of sup.now) bitmap.old }
        requires serves { serves call.now ≡ true }
        requires ranges { KeepsRanges call.now }
        requires settled { IsSettled bitmap.old }
        requires may { may sup.now call.now }
        requires ready { (m : ℕ → Option (List ℕ)) → E.told edits.old ≡ Some m → HasReady (geometry_of sup.now) bitmap.old m }
        requires fine { (m : ℕ → Option (List ℕ)) (tree : Tree) (lists : Lists) (s : State) → E.told edits.old ≡ Some m → IsReady (geometry_of sup.now) bitmap.old m tree lists → s.tree ≡ tree → s.holds ≡ holds.now → own_refusal call.now s ≡ None }
        ensures answered { (m : ℕ → Option (List ℕ)) (tree : Tree) (lists : Lists) → E.told edits.old ≡ Some m → IsReady (geometry_of sup.now) bitmap.old m tree lists → IfOk result (λ reply. IsAnswered (geometry_of sup.now) bitmap.old bitmap.new m tree holds.now stamp call.now reply (E.told edits.new) (E.changed edits.old) (E.changed edits.new)) }
        ensures unanswered { (m : ℕ → Option (List ℕ)) (tree : Tree) (lists : Lists) → E.told edits.old ≡ Some m → IsReady (geometry_of sup.now) bitmap.old m tree lists → IfErr result IsUnanswered }
        ensures cause { IfErr result (HasWriteCause (asked sup.now.block_size call.now) (E.counts edits.old) (E.counts edits.new)) }
        ensures own { IfOk result (λ reply. is_own reply ≡ true) }
        ensures done { IfOk result (λ reply. is_done reply ≡ true) }
        ensures undone { as_kept bitmap.new ≡ as_kept bitmap.old }
        ensures volume { IsOfVolume (sizes_of sup.now) bitmap.new }
        ensures last { bitmap.new.last ≡ bitmap.old.last }
        ensures size { E.size edits.new ≡ E.size edits.old }
        ensures frame { E.frame edits.new ≡ E.frame edits.old }
        ensures later { AreLater (E.counts edits.old) (E.counts edits.new) };
}
