// One call over an open group and what lies below: it is answered, and what it changed is kept, or given up.
ghost use Rattle.std.specs.Prelude.{◌≡◌, ◌≤◌, ◌<◌, ◌+◌, ℕ, List, None, true, Option, Some, OnOk, OnErr, IfOk, IfErr, length, take};
ghost use Rattle.std.specs.Option.{option_map};
ghost use Rattle.bfs_super.specs.Conditions.{IsValid};
ghost use Rattle.bfs_super.specs.Geometry.{geometry_of};
ghost use Rattle.bfs_bitmap.specs.Runs.{IsSettled, as_kept};
ghost use Rattle.bfs_txn.specs.Changed.{Ascends, AreOfSize, over};
ghost use Rattle.bfs_txn.specs.Faults.{AreLater};
ghost use Rattle.bfs_stream.specs.Grown.{IsOfVolume};
ghost use Rattle.bfs_stream.specs.Sizes.{sizes_of};
ghost use Rattle.bfs_tree.specs.Answers.{KeepsRanges};
ghost use Rattle.bfs_tree.specs.Refusals.{own_refusal};
ghost use Rattle.bfs_tree.specs.States.{State};
ghost use Rattle.bfs_tree.specs.Steps.{is_done};
ghost use Rattle.bfs_tree.specs.Trees.{Tree};
ghost use Rattle.bfs_device.specs.Layouts.{layout_of};
ghost use Rattle.bfs_shift.specs.Lists.{Lists};
ghost use Rattle.bfs_replies.specs.Books.{MayBeSealed};
ghost use Rattle.bfs_answers.specs.Called.{is_changed};
ghost use Rattle.bfs_look.specs.Ready.{IsReady, HasReady};
ghost use Rattle.bfs_calls.specs.Refusals.{is_own};
ghost use Rattle.bfs_answers.specs.Answered.{IsAnswered, asked};
ghost use Rattle.bfs_replies.specs.Kept.{IsKept, IsWithin, AreFit, IsCallFault, HasCallCause, IsCrowding, StaysIdle};

use crate::keep::{Unkept, may_be_kept};
use bfs_answers::{Allowance, Answers};
use bfs_bitmap::Bitmap;
use bfs_stream_pages::MapFault;
use bfs_super::Super;
use bfs_tree::{Call, Hold, Reply};
use bfs_txn::{Blocks, Changed, Overlay};
use std::alloc::Global;
use thiserror::Error;

/// Why a call has no answer: what lies below refused it, or what it changed may not be kept.
#[derive(Debug, Drop, Error)]
pub enum CallFault {
    #[error("{0}")]
    Map(MapFault),
    #[error("{0}")]
    Unkept(Unkept),
}

/// Answers a call that is to be done with these holds of sessions, and looks whether what it changed may be kept.
fn answer_over<A: Answers, B: Blocks>(
    alloc: Global,
    sup: &Super,
    answers: &A,
    bitmap: &mut Bitmap,
    overlay: &mut Overlay<'_, B>,
    mark: usize,
    holds: &[Hold],
    call: &Call,
    stamp: i64,
    allowed: Allowance,
) -> Result<Reply, CallFault>
    requires valid { IsValid sup.now }
    requires size { B.size overlay.old.under.now ≡ sup.now.block_size }
    requires volume { IsOfVolume (sizes_of sup.now) bitmap.old }
    requires settled { IsSettled bitmap.old }
    requires mark { mark ≡ overlay.old.mark }
    requires begun { mark ≡ length overlay.old.group.now }
    requires open { MayBeSealed (layout_of sup.now) sup.now.block_size overlay.old.group.now }
    requires serves { A.serves call.now ≡ true }
    requires ranges { KeepsRanges call.now }
    requires may { A.may sup.now call.now }
    requires ready { (m : ℕ → Option (List ℕ)) → B.told overlay.old.under.now ≡ Some m → HasReady (geometry_of sup.now) bitmap.old (over overlay.old.group.now m) }
    requires fine { (m : ℕ → Option (List ℕ)) (tree : Tree) (lists : Lists) (s : State) → B.told overlay.old.under.now ≡ Some m → IsReady (geometry_of sup.now) bitmap.old (over overlay.old.group.now m) tree lists → s.tree ≡ tree → s.holds ≡ holds.now → own_refusal call.now s ≡ None }
    ensures answered { (m : ℕ → Option (List ℕ)) (tree : Tree) (lists : Lists) → B.told overlay.old.under.now ≡ Some m → IsReady (geometry_of sup.now) bitmap.old (over overlay.old.group.now m) tree lists → IfOk result (λ reply. IsAnswered (geometry_of sup.now) bitmap.old bitmap.new (over overlay.old.group.now m) tree holds.now stamp call.now reply (option_map (over overlay.new.group.now) (B.told overlay.new.under.now)) (is_changed overlay.old.group.now) (is_changed overlay.new.group.now)) }
    ensures unanswered { (m : ℕ → Option (List ℕ)) (tree : Tree) (lists : Lists) → B.told overlay.old.under.now ≡ Some m → IsReady (geometry_of sup.now) bitmap.old (over overlay.old.group.now m) tree lists → IfErr result IsCallFault }
    ensures cause { IfErr result (HasCallCause (asked sup.now.block_size call.now) (B.counts overlay.old.under.now) (B.counts overlay.new.under.now)) }
    ensures own { IfOk result (λ reply. is_own reply ≡ true) }
    ensures done { IfOk result (λ reply. is_done reply ≡ true) }
    ensures crowding { IfErr result (IsCrowding (layout_of sup.now) allowed.logged mark) }
    ensures later { AreLater (B.counts overlay.old.under.now) (B.counts overlay.new.under.now) }
    ensures fit { OnOk result (AreFit (layout_of sup.now) overlay.new.group.now overlay.new.mark) }
    ensures few { OnOk result (length overlay.new.group.now ≤ mark + allowed.logged) }
    ensures rise { OnOk result (bitmap.new.tally.used ≤ bitmap.old.tally.used + allowed.taken) }
    ensures idle { OnOk result (length overlay.new.group.now ≡ 0 → bitmap.new.tally.used ≡ bitmap.old.tally.used) }
    ensures undone { as_kept bitmap.new ≡ as_kept bitmap.old }
    ensures volume { IsOfVolume (sizes_of sup.now) bitmap.new }
    ensures last { bitmap.new.last ≡ bitmap.old.last }
    ensures size { B.size overlay.new.under.now ≡ B.size overlay.old.under.now }
    ensures group_name { overlay.new.group.ghost_name ≡ overlay.old.group.ghost_name }
    ensures under_name { overlay.new.under.ghost_name ≡ overlay.old.under.ghost_name }
    ensures open { take overlay.new.mark overlay.new.group.now ≡ take overlay.old.mark overlay.old.group.now }
    ensures told { B.told overlay.new.under.now ≡ B.told overlay.old.under.now }
    ensures note { (B.frame overlay.new.under.now).note ≡ (B.frame overlay.old.under.now).note }
{
    let was = bitmap.used();
    match answers.answer(alloc, sup, bitmap, overlay, holds, call, stamp) {
        Ok(reply) => match may_be_kept(overlay, sup, bitmap, mark, was, allowed) {
            Ok(()) => Ok(reply),
            Err(why) => Err(CallFault::Unkept(why)),
        },
        Err(fault) => Err(CallFault::Map(fault)),
    }
}

/// Answers a call that is to be done with these holds of sessions, and keeps what it changed where it may be kept: where it changed and took no more
/// blocks than it is allowed.
/// Else the open group and the bitmap are as they were.
pub fn answer_call<A: Answers, B: Blocks>(
    alloc: Global,
    sup: &Super,
    answers: &A,
    bitmap: &mut Bitmap,
    group: &mut Changed,
    under: &mut B,
    holds: &[Hold],
    call: &Call,
    stamp: i64,
    allowed: Allowance,
) -> Result<Reply, CallFault>
    requires valid { IsValid sup.now }
    requires size { B.size under.old ≡ sup.now.block_size }
    requires volume { IsOfVolume (sizes_of sup.now) bitmap.old }
    requires settled { IsSettled bitmap.old }
    requires group { MayBeSealed (layout_of sup.now) sup.now.block_size group.old }
    requires serves { A.serves call.now ≡ true }
    requires ranges { KeepsRanges call.now }
    requires may { A.may sup.now call.now }
    requires ready { (m : ℕ → Option (List ℕ)) → B.told under.old ≡ Some m → HasReady (geometry_of sup.now) bitmap.old (over group.old m) }
    requires fine { (m : ℕ → Option (List ℕ)) (tree : Tree) (lists : Lists) (s : State) → B.told under.old ≡ Some m → IsReady (geometry_of sup.now) bitmap.old (over group.old m) tree lists → s.tree ≡ tree → s.holds ≡ holds.now → own_refusal call.now s ≡ None }
    ensures kept { (m : ℕ → Option (List ℕ)) (tree : Tree) (lists : Lists) → B.told under.old ≡ Some m → IsReady (geometry_of sup.now) bitmap.old (over group.old m) tree lists → IfOk result (λ reply. IsKept (geometry_of sup.now) bitmap.old bitmap.new m group.old group.new tree holds.now stamp call.now reply) }
    ensures unanswered { (m : ℕ → Option (List ℕ)) (tree : Tree) (lists : Lists) → B.told under.old ≡ Some m → IsReady (geometry_of sup.now) bitmap.old (over group.old m) tree lists → IfErr result IsCallFault }
    ensures cause { IfErr result (HasCallCause (asked sup.now.block_size call.now) (B.counts under.old) (B.counts under.new)) }
    ensures own { IfOk result (λ reply. is_own reply ≡ true) }
    ensures done { IfOk result (λ reply. is_done reply ≡ true) }
    ensures crowding { IfErr result (IsCrowding (layout_of sup.now) allowed.logged (length group.old)) }
    ensures later { AreLater (B.counts under.old) (B.counts under.new) }
    ensures group { MayBeSealed (layout_of sup.now) sup.now.block_size group.new }
    ensures within { (m : ℕ → Option (List ℕ)) → OnOk result (IsWithin allowed.logged allowed.taken bitmap.old bitmap.new m group.old group.new) }
    ensures idle { StaysIdle bitmap.old bitmap.new group.old group.new }
    ensures settled { IsSettled bitmap.new }
    ensures volume { IsOfVolume (sizes_of sup.now) bitmap.new }
    ensures last { bitmap.new.last ≡ bitmap.old.last }
    ensures refused { OnErr result ((group.new ≡ group.old) × (bitmap.new ≡ bitmap.old)) }
    ensures told { B.told under.new ≡ B.told under.old }
    ensures note { (B.frame under.new).note ≡ (B.frame under.old).note }
    ensures size { B.size under.new ≡ B.size under.old }
{
    let mark = group.len();
    let mut overlay = Overlay::begin(group, under);
    match answer_over(
        alloc,
        sup,
        answers,
        bitmap,
        &mut overlay,
        mark,
        holds,
        call,
        stamp,
        allowed,
    ) {
        Ok(reply) => {
            overlay.keep();
            bitmap.keep();
            Ok(reply)
        }
        Err(fault) => {
            overlay.drop_call();
            bitmap.drop_call();
            Err(fault)
        }
    }
}
