// A call that searches an index, over an open group and what lies below: of that only what the search rests on need be told.
ghost use Rattle.std.specs.Prelude.{◌≡◌, ℕ, ℤ, List, Option, Some, Bool, true, IfOk, IfErr, OnErr};
ghost use Rattle.bfs_super.specs.Conditions.{IsValid};
ghost use Rattle.bfs_super.specs.Geometry.{geometry_of};
ghost use Rattle.bfs_super.specs.declared.geometry.Geometry as geometries;
ghost use Rattle.bfs_bitmap.specs.Runs.{IsSettled};
ghost use Rattle.bfs_txn.specs.Changed.{over};
ghost use Rattle.bfs_txn.specs.Faults as faults;
ghost use Rattle.bfs_stream.specs.Grown.{IsOfVolume};
ghost use Rattle.bfs_stream.specs.Sizes.{Sizes, sizes_of};
ghost use Rattle.bfs_tree.specs.declared.call.Call as calls;
ghost use Rattle.bfs_tree.specs.declared.state.Hold as hold;
ghost use Rattle.bfs_tree.specs.Answers.{KeepsRanges};
ghost use Rattle.bfs_tree.specs.Trees.{Tree};
ghost use Rattle.bfs_device.specs.declared.journal.Stop as stops;
ghost use Rattle.bfs_device.specs.Layouts.{layout_of};
ghost use Rattle.bfs_shift.specs.Lists.{Lists};
ghost use Rattle.bfs_look.specs.Ready.{IsReady};
ghost use Rattle.bfs_answers.specs.Looks.{IsLooked, FindsOwn, MaySee, RestsOn, is_search};
ghost use Rattle.bfs_replies.specs.Kept.{StaysIdle};
ghost use Rattle.bfs_replies.specs.Books.{MayBeSealed};
ghost use Rattle.bfs_replies.specs.Replies.{HasReplyCause, IsReplied};
ghost use Rattle.bfs_replies.specs.declared.replying.NoReply.TheVariants as none;

use crate::looking::look_call;
use crate::replying::{NoReply, reply_to_step};
use bfs_answers::{Answers, Looked};
use bfs_bitmap::Bitmap;
use bfs_super::Super;
use bfs_tree::{Call, Hold, Reply};
use bfs_txn::{Blocks, Changed};
use std::alloc::Global;

/// Whether a call searches an index.
pub fn is_search(call: &Call) -> bool
    ensures { result ≡ is_search call.now }
{
    matches!(call, Call::IndexFind { .. })
}

/// The reply that a look has found, which changes nothing; no look at a search allows a change.
fn reply_found(bitmap: &mut Bitmap, looked: Looked) -> Result<Reply, NoReply>
    requires settled { IsSettled bitmap.old }
    requires own { FindsOwn looked }
    ensures replied { (g : geometries.Geometry) (w : ℕ → Option (List ℕ)) (pairs : List (ℕ × List ℕ)) (tree : Tree) (lists : Lists) (holds : List hold.Hold) (idle : Bool) (stamp : ℤ) (call : calls.Call) → IsReady g bitmap.old (over pairs w) tree lists → IsLooked g (over pairs w) tree holds call looked → IfOk result (IsReplied g bitmap.old bitmap.new w pairs pairs tree holds (idle ≡ true) stamp call) }
    ensures no_memory { IfErr result (λ e. e ≡ none.NoMemory) }
    ensures cause { (old new : faults.Counts) (stop : Option stops.Stop) → IfOk result (HasReplyCause old new stop) }
    ensures left { OnErr result (bitmap.new ≡ bitmap.old) }
    ensures used { bitmap.new.tally.used ≡ bitmap.old.tally.used }
    ensures settled { IsSettled bitmap.new }
    ensures volume { (s : Sizes) → IsOfVolume s bitmap.old → IsOfVolume s bitmap.new }
    ensures last { bitmap.new.last ≡ bitmap.old.last }
{
    match looked {
        Looked::Answered(reply) => {
            bitmap.keep();
            Ok(reply)
        }
        Looked::Allowed(_) => Err(NoReply::NoMemory),
    }
}

/// Answers a search of an index with these holds of sessions. Nothing is changed, and it is never put off.
pub fn reply_search<A: Answers, B: Blocks>(
    alloc: Global,
    sup: &Super,
    answers: &A,
    bitmap: &mut Bitmap,
    group: &mut Changed,
    under: &mut B,
    holds: &[Hold],
    call: &Call,
) -> Result<Reply, NoReply>
    requires valid { IsValid sup.now }
    requires size { B.size under.old ≡ sup.now.block_size }
    requires volume { IsOfVolume (sizes_of sup.now) bitmap.old }
    requires settled { IsSettled bitmap.old }
    requires group { MayBeSealed (layout_of sup.now) sup.now.block_size group.old }
    requires serves { A.serves call.now ≡ true }
    requires ranges { KeepsRanges call.now }
    requires ready { (m : ℕ → Option (List ℕ)) → B.told under.old ≡ Some m → MaySee (geometry_of sup.now) bitmap.old (over group.old m) call.now }
    ensures rests_replied { (m w : ℕ → Option (List ℕ)) (tree : Tree) (lists : Lists) (idle : Bool) (stamp : ℤ) → B.told under.old ≡ Some m → IsReady (geometry_of sup.now) bitmap.old (over group.old w) tree lists → RestsOn (geometry_of sup.now) (over group.old w) (over group.old m) tree call.now → IfOk result (IsReplied (geometry_of sup.now) bitmap.old bitmap.new w group.old group.new tree holds.now (idle ≡ true) stamp call.now) }
    ensures no_memory { IfErr result (λ e. e ≡ none.NoMemory) }
    ensures cause { (stop : Option stops.Stop) → IfOk result (HasReplyCause (B.counts under.old) (B.counts under.new) stop) }
    ensures left { OnErr result ((group.new ≡ group.old) × (bitmap.new ≡ bitmap.old)) }
    ensures idle { StaysIdle bitmap.old bitmap.new group.old group.new }
    ensures group { MayBeSealed (layout_of sup.now) sup.now.block_size group.new }
    ensures settled { IsSettled bitmap.new }
    ensures volume { IsOfVolume (sizes_of sup.now) bitmap.new }
    ensures last { bitmap.new.last ≡ bitmap.old.last }
    ensures told { B.told under.new ≡ B.told under.old }
    ensures note { (B.frame under.new).note ≡ (B.frame under.old).note }
    ensures size { B.size under.new ≡ B.size under.old }
{
    let looked = match look_call(alloc, sup, answers, bitmap, group, under, holds, call) {
        Ok(looked) => looked,
        Err(fault) => return reply_to_step(fault),
    };
    match reply_found(bitmap, looked) {
        Ok(reply) => Ok(reply),
        Err(fault) => Err(fault),
    }
}
