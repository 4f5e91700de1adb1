// A call of a space: its reply, or why it has none.
ghost use Rattle.std.specs.Prelude.{◌≡◌, ◌≤◌, ◌<◌, ◌+◌, ◌-◌, ◌⊎◌, min, ℕ, [], List, Option, Some, None, Bool, true, false, length, IfOk, IfErr, OnErr, OnOk};
ghost use Rattle.bfs_super.specs.Conditions.{IsValid};
ghost use Rattle.bfs_super.specs.Geometry.{geometry_of};
ghost use Rattle.bfs_bitmap.specs.Runs.{HasBitmap, IsSettled};
ghost use Rattle.bfs_bitmap.specs.Runs as runs;
ghost use Rattle.bfs_txn.specs.Changed.{over};
ghost use Rattle.bfs_txn.specs.Faults as faults;
ghost use Rattle.bfs_stream.specs.Grown.{IsOfVolume};
ghost use Rattle.bfs_stream.specs.Sizes.{sizes_of};
ghost use Rattle.bfs_tree.specs.declared.call.Call as calls;
ghost use Rattle.bfs_tree.specs.declared.state.Hold as hold;
ghost use Rattle.bfs_tree.specs.Answers.{KeepsRanges};
ghost use Rattle.bfs_tree.specs.Refusals.{own_refusal};
ghost use Rattle.bfs_tree.specs.States.{State};
ghost use Rattle.bfs_tree.specs.Steps.{is_done};
ghost use Rattle.bfs_tree.specs.Histories.{is_stopped};
ghost use Rattle.bfs_tree.specs.Trees.{Tree};
ghost use Rattle.bfs_device.specs.declared.journal.Stop as stops;
ghost use Rattle.bfs_device.specs.Layouts.{layout_of};
ghost use Rattle.bfs_sound.specs.Need.{logged_need};
ghost use Rattle.bfs_shift.specs.Lists.{Lists};
ghost use Rattle.bfs_shift.specs.Shifts.{volume_in};
ghost use Rattle.bfs_look.specs.Ready.{IsReady, HasReady};
ghost use Rattle.bfs_replies.specs.Kept.{StaysIdle};
ghost use Rattle.bfs_replies.specs.Books.{MayBeSealed};
ghost use Rattle.bfs_answers.specs.Looks.{IsAllowed, IsLooked, FindsMay, FindsOwn, MaySee, RestsOn, is_to_do};
ghost use Rattle.bfs_replies.specs.Replies.{HasReplyCause, IsChange, IsNoReply, IsOutside, IsReplied, IsThat, IsTooLong, reply_to};
ghost use Rattle.bfs_replies.specs.Replaced.{FindsPlace};
ghost use Rattle.bfs_replies.specs.declared.replying.NoReply.TheVariants as none;

use crate::calling::{CallFault, answer_call};
use crate::keep::Unkept;
use crate::lacking::{lacks_space, reply_to_fault};
use crate::looking::look_call;
use crate::replacing::takes_place;
use crate::search::{is_search, reply_search};
use bfs_answers::{Allowance, Answers, Looked};
use bfs_bitmap::Bitmap;
use bfs_device::Stop;
use bfs_node::TreeFault;
use bfs_stream::GrowFault;
use bfs_stream_pages::MapFault;
use bfs_super::Super;
use bfs_tree::{Call, Hold, Reply};
use bfs_txn::{Blocks, Changed};
use std::alloc::Global;
use thiserror::Error;

/// Why a call has no reply: no memory was found for it, or it is put off until the log is empty.
#[derive(Clone, Copy, Debug, PartialEq, Eq, Error)]
pub enum NoReply {
    #[error("no memory was found")]
    NoMemory,
    #[error("the call waits until the log is empty")]
    Drain,
}

/// The reply to a fault of a step, or want of memory.
pub fn reply_to_step(fault: MapFault) -> Result<Reply, NoReply>
    ensures { IsThat (reply_to fault) result }
{
    match fault {
        TreeFault::Pages(GrowFault::Block(fault)) => reply_to_fault(fault),
        TreeFault::Pages(GrowFault::NoRun { .. }) => Err(NoReply::NoMemory),
        TreeFault::Pages(GrowFault::Full { .. }) => Err(NoReply::NoMemory),
        TreeFault::Exists => Err(NoReply::NoMemory),
        TreeFault::Absent => Err(NoReply::NoMemory),
        TreeFault::Damaged { .. } => Err(NoReply::NoMemory),
        TreeFault::NoMemory => Err(NoReply::NoMemory),
    }
}

/// What becomes of a call that changed so many blocks, which with those of the open group are more than the log takes.
fn crowds_log(sup: &Super, idle: bool, blocks: u64) -> Result<Reply, NoReply>
    ensures crowded { (v : runs.Room) (m : ℕ → Option (List ℕ)) (tree : Tree) (holds : List hold.Hold) (call : calls.Call) → IsChange tree holds call → blocks ≤ logged_need (volume_in (geometry_of sup.now) m) tree call → (idle ≡ true → IsTooLong (geometry_of sup.now) blocks) → IfOk result (IsOutside (geometry_of sup.now) v m tree holds (idle ≡ true) call) }
    ensures put_off { (v : runs.Room) (m : ℕ → Option (List ℕ)) (tree : Tree) (holds : List hold.Hold) (call : calls.Call) (begun : ℕ) → IsChange tree holds call → blocks ≤ logged_need (volume_in (geometry_of sup.now) m) tree call → IsTooLong (geometry_of sup.now) (begun + blocks) → IfErr result (IsNoReply (geometry_of sup.now) v m begun tree holds (idle ≡ true) call) }
    ensures cause { (old new : faults.Counts) (stop : Option stops.Stop) → IfOk result (HasReplyCause old new stop) }
{
    if idle {
        let room = u64::from(sup.log_blocks.len);
        return Ok(Reply::NoLogRoom {
            blocks,
            room: room.saturating_sub(1),
        });
    }
    Err(NoReply::Drain)
}

/// Performs a call that is to be done with these holds of sessions and may change and take so many blocks; what it changed is in the open
/// group, or nothing is.
fn perform<A: Answers, B: Blocks>(
    alloc: Global,
    sup: &Super,
    answers: &A,
    bitmap: &mut Bitmap,
    group: &mut Changed,
    under: &mut B,
    idle: bool,
    holds: &[Hold],
    call: &Call,
    stamp: i64,
    allowed: Allowance,
) -> Result<Reply, NoReply>
    requires valid { IsValid sup.now }
    requires size { B.size under.old ≡ sup.now.block_size }
    requires volume { IsOfVolume (sizes_of sup.now) bitmap.old }
    requires settled { IsSettled bitmap.old }
    requires group { MayBeSealed (layout_of sup.now) sup.now.block_size group.old }
    requires serves { A.serves call.now ≡ true }
    requires ranges { KeepsRanges call.now }
    requires may { A.may sup.now call.now }
    requires ready { (m : ℕ → Option (List ℕ)) → B.told under.old ≡ Some m → HasReady (geometry_of sup.now) bitmap.old (over group.old m) }
    requires empty { idle ≡ true → group.old ≡ [] }
    requires allowed { (m : ℕ → Option (List ℕ)) (tree : Tree) (lists : Lists) → B.told under.old ≡ Some m → IsReady (geometry_of sup.now) bitmap.old (over group.old m) tree lists → IsAllowed (geometry_of sup.now) (over group.old m) tree holds.now call.now allowed }
    ensures replied { (m : ℕ → Option (List ℕ)) (tree : Tree) (lists : Lists) → B.told under.old ≡ Some m → IsReady (geometry_of sup.now) bitmap.old (over group.old m) tree lists → IfOk result (IsReplied (geometry_of sup.now) bitmap.old bitmap.new m group.old group.new tree holds.now (idle ≡ true) stamp call.now) }
    ensures put_off { (m : ℕ → Option (List ℕ)) (tree : Tree) (lists : Lists) → B.told under.old ≡ Some m → IsReady (geometry_of sup.now) bitmap.old (over group.old m) tree lists → IfErr result (IsNoReply (geometry_of sup.now) bitmap.old (over group.old m) (length group.old) tree holds.now (idle ≡ true) call.now) }
    ensures cause { (stop : Option stops.Stop) → IfOk result (HasReplyCause (B.counts under.old) (B.counts under.new) stop) }
    ensures left { OnErr result ((group.new ≡ group.old) × (bitmap.new ≡ bitmap.old)) }
    ensures idle { StaysIdle bitmap.old bitmap.new group.old group.new }
    ensures group { MayBeSealed (layout_of sup.now) sup.now.block_size group.new }
    ensures settled { IsSettled bitmap.new }
    ensures volume { IsOfVolume (sizes_of sup.now) bitmap.new }
    ensures last { bitmap.new.last ≡ bitmap.old.last }
    ensures told { B.told under.new ≡ B.told under.old }
    ensures note { (B.frame under.new).note ≡ (B.frame under.old).note }
    ensures size { B.size under.new ≡ B.size under.old }
{
    let fault = match answer_call(
        alloc, sup, answers, bitmap, group, under, holds, call, stamp, allowed,
    ) {
        Ok(reply) => return Ok(reply),
        Err(fault) => fault,
    };
    match fault {
        CallFault::Map(fault) => {
            if is_no_run(&fault) {
                return lacks_space(sup, bitmap, group, under, idle, call, allowed.taken);
            }
            reply_to_step(fault)
        }
        CallFault::Unkept(why) => match why {
            Unkept::Damaged(block) => Ok(Reply::Damaged { block }),
            Unkept::TooMany(blocks) => crowds_log(sup, idle, blocks),
            Unkept::Beyond => Err(NoReply::NoMemory),
        },
    }
}

/// Whether a step found no run of blocks.
fn is_no_run(fault: &MapFault) -> bool {
    matches!(fault, TreeFault::Pages(GrowFault::NoRun { .. }))
}

/// Answers a call by what a look at it has found over an open group and what lies below, with these holds of sessions: it is answered so, or it is
/// performed.
pub fn reply_looked<A: Answers, B: Blocks>(
    alloc: Global,
    sup: &Super,
    answers: &A,
    bitmap: &mut Bitmap,
    group: &mut Changed,
    under: &mut B,
    idle: bool,
    holds: &[Hold],
    call: &Call,
    stamp: i64,
    looked: Looked,
) -> Result<Reply, NoReply>
    requires valid { IsValid sup.now }
    requires size { B.size under.old ≡ sup.now.block_size }
    requires volume { IsOfVolume (sizes_of sup.now) bitmap.old }
    requires settled { IsSettled bitmap.old }
    requires group { MayBeSealed (layout_of sup.now) sup.now.block_size group.old }
    requires serves { A.serves call.now ≡ true }
    requires ranges { KeepsRanges call.now }
    requires ready { (m : ℕ → Option (List ℕ)) → B.told under.old ≡ Some m → HasReady (geometry_of sup.now) bitmap.old (over group.old m) }
    requires looked { (m : ℕ → Option (List ℕ)) (tree : Tree) (lists : Lists) → B.told under.old ≡ Some m → IsReady (geometry_of sup.now) bitmap.old (over group.old m) tree lists → IsLooked (geometry_of sup.now) (over group.old m) tree holds.now call.now looked }
    requires own { FindsOwn looked }
    requires may { FindsMay A.may sup.now call.now looked }
    requires empty { idle ≡ true → group.old ≡ [] }
    ensures replied { (m : ℕ → Option (List ℕ)) (tree : Tree) (lists : Lists) → B.told under.old ≡ Some m → IsReady (geometry_of sup.now) bitmap.old (over group.old m) tree lists → IfOk result (IsReplied (geometry_of sup.now) bitmap.old bitmap.new m group.old group.new tree holds.now (idle ≡ true) stamp call.now) }
    ensures put_off { (m : ℕ → Option (List ℕ)) (tree : Tree) (lists : Lists) → B.told under.old ≡ Some m → IsReady (geometry_of sup.now) bitmap.old (over group.old m) tree lists → IfErr result (IsNoReply (geometry_of sup.now) bitmap.old (over group.old m) (length group.old) tree holds.now (idle ≡ true) call.now) }
    ensures taken { IfOk result (λ reply. is_done reply ≡ true → is_to_do looked ≡ true) }
    ensures cause { (stop : Option stops.Stop) → IfOk result (HasReplyCause (B.counts under.old) (B.counts under.new) stop) }
    ensures left { OnErr result ((group.new ≡ group.old) × (bitmap.new ≡ bitmap.old)) }
    ensures idle { StaysIdle bitmap.old bitmap.new group.old group.new }
    ensures group { MayBeSealed (layout_of sup.now) sup.now.block_size group.new }
    ensures settled { IsSettled bitmap.new }
    ensures volume { IsOfVolume (sizes_of sup.now) bitmap.new }
    ensures last { bitmap.new.last ≡ bitmap.old.last }
    ensures told { B.told under.new ≡ B.told under.old }
    ensures note { (B.frame under.new).note ≡ (B.frame under.old).note }
    ensures size { B.size under.new ≡ B.size under.old }
{
    match looked {
        Looked::Answered(reply) => {
            bitmap.keep();
            Ok(reply)
        }
        Looked::Allowed(allowed) => perform(
            alloc, sup, answers, bitmap, group, under, idle, holds, call, stamp, allowed,
        ),
    }
}

/// Answers a call over an open group and what lies below, with these holds of sessions: what it changed is in the open group, or nothing
/// is. `idle` says that nothing is held back.
pub fn reply_call<A: Answers, B: Blocks>(
    alloc: Global,
    sup: &Super,
    answers: &A,
    bitmap: &mut Bitmap,
    group: &mut Changed,
    under: &mut B,
    idle: bool,
    holds: &[Hold],
    call: &Call,
    stamp: i64,
) -> Result<Reply, NoReply>
    requires valid { IsValid sup.now }
    requires size { B.size under.old ≡ sup.now.block_size }
    requires volume { IsOfVolume (sizes_of sup.now) bitmap.old }
    requires settled { IsSettled bitmap.old }
    requires group { MayBeSealed (layout_of sup.now) sup.now.block_size group.old }
    requires serves { A.serves call.now ≡ true }
    requires ranges { KeepsRanges call.now }
    requires ready { (m : ℕ → Option (List ℕ)) → B.told under.old ≡ Some m → HasReady (geometry_of sup.now) bitmap.old (over group.old m) }
    requires empty { idle ≡ true → group.old ≡ [] }
    ensures replied { (m : ℕ → Option (List ℕ)) (tree : Tree) (lists : Lists) → B.told under.old ≡ Some m → IsReady (geometry_of sup.now) bitmap.old (over group.old m) tree lists → IfOk result (IsReplied (geometry_of sup.now) bitmap.old bitmap.new m group.old group.new tree holds.now (idle ≡ true) stamp call.now) }
    ensures put_off { (m : ℕ → Option (List ℕ)) (tree : Tree) (lists : Lists) → B.told under.old ≡ Some m → IsReady (geometry_of sup.now) bitmap.old (over group.old m) tree lists → IfErr result (IsNoReply (geometry_of sup.now) bitmap.old (over group.old m) (length group.old) tree holds.now (idle ≡ true) call.now) }
    ensures cause { (stop : Option stops.Stop) → IfOk result (HasReplyCause (B.counts under.old) (B.counts under.new) stop) }
    ensures left { OnErr result ((group.new ≡ group.old) × (bitmap.new ≡ bitmap.old)) }
    ensures idle { StaysIdle bitmap.old bitmap.new group.old group.new }
    ensures group { MayBeSealed (layout_of sup.now) sup.now.block_size group.new }
    ensures settled { IsSettled bitmap.new }
    ensures volume { IsOfVolume (sizes_of sup.now) bitmap.new }
    ensures last { bitmap.new.last ≡ bitmap.old.last }
    ensures told { B.told under.new ≡ B.told under.old }
    ensures note { (B.frame under.new).note ≡ (B.frame under.old).note }
    ensures size { B.size under.new ≡ B.size under.old }
{
    let looked = match look_call(alloc, sup, answers, bitmap, group, under, holds, call) {
        Ok(looked) => looked,
        Err(fault) => return reply_to_step(fault),
    };
    reply_looked(
        alloc, sup, answers, bitmap, group, under, idle, holds, call, stamp, looked,
    )
}

/// The same, and whether the call takes the place of another node where it is done.
fn reply_counted<A: Answers, B: Blocks>(
    alloc: Global,
    sup: &Super,
    answers: &A,
    bitmap: &mut Bitmap,
    group: &mut Changed,
    under: &mut B,
    idle: bool,
    holds: &[Hold],
    call: &Call,
    stamp: i64,
    replaced: &mut bool,
) -> Result<Reply, NoReply>
    requires valid { IsValid sup.now }
    requires size { B.size under.old ≡ sup.now.block_size }
    requires volume { IsOfVolume (sizes_of sup.now) bitmap.old }
    requires settled { IsSettled bitmap.old }
    requires group { MayBeSealed (layout_of sup.now) sup.now.block_size group.old }
    requires serves { A.serves call.now ≡ true }
    requires ranges { KeepsRanges call.now }
    requires ready { (m : ℕ → Option (List ℕ)) → B.told under.old ≡ Some m → HasReady (geometry_of sup.now) bitmap.old (over group.old m) }
    requires empty { idle ≡ true → group.old ≡ [] }
    ensures replied { (m : ℕ → Option (List ℕ)) (tree : Tree) (lists : Lists) → B.told under.old ≡ Some m → IsReady (geometry_of sup.now) bitmap.old (over group.old m) tree lists → IfOk result (IsReplied (geometry_of sup.now) bitmap.old bitmap.new m group.old group.new tree holds.now (idle ≡ true) stamp call.now) }
    ensures put_off { (m : ℕ → Option (List ℕ)) (tree : Tree) (lists : Lists) → B.told under.old ≡ Some m → IsReady (geometry_of sup.now) bitmap.old (over group.old m) tree lists → IfErr result (IsNoReply (geometry_of sup.now) bitmap.old (over group.old m) (length group.old) tree holds.now (idle ≡ true) call.now) }
    ensures cause { (stop : Option stops.Stop) → IfOk result (HasReplyCause (B.counts under.old) (B.counts under.new) stop) }
    ensures left { OnErr result ((group.new ≡ group.old) × (bitmap.new ≡ bitmap.old)) }
    ensures idle { StaysIdle bitmap.old bitmap.new group.old group.new }
    ensures group { MayBeSealed (layout_of sup.now) sup.now.block_size group.new }
    ensures settled { IsSettled bitmap.new }
    ensures volume { IsOfVolume (sizes_of sup.now) bitmap.new }
    ensures last { bitmap.new.last ≡ bitmap.old.last }
    ensures told { B.told under.new ≡ B.told under.old }
    ensures note { (B.frame under.new).note ≡ (B.frame under.old).note }
    ensures size { B.size under.new ≡ B.size under.old }
    ensures found { (m : ℕ → Option (List ℕ)) (tree : Tree) (lists : Lists) → B.told under.old ≡ Some m → IsReady (geometry_of sup.now) bitmap.old (over group.old m) tree lists → IfOk result (λ reply. is_done reply ≡ true → FindsPlace tree call.now replaced.new) }
{
    match takes_place(alloc, sup, bitmap, group, under, call) {
        Ok(found) => {
            *replaced = found;
            reply_call(
                alloc, sup, answers, bitmap, group, under, idle, holds, call, stamp,
            )
        }
        Err(fault) => reply_to_step(fault),
    }
}

/// The same; but once an entry has told that the device has stopped, each call is answered so.
pub fn reply_or_stopped<A: Answers, B: Blocks>(
    stop: Option<Stop>,
    alloc: Global,
    sup: &Super,
    answers: &A,
    bitmap: &mut Bitmap,
    group: &mut Changed,
    under: &mut B,
    idle: bool,
    holds: &[Hold],
    call: &Call,
    stamp: i64,
    replaced: &mut bool,
) -> Result<Reply, NoReply>
    requires valid { IsValid sup.now }
    requires size { B.size under.old ≡ sup.now.block_size }
    requires volume { IsOfVolume (sizes_of sup.now) bitmap.old }
    requires settled { IsSettled bitmap.old }
    requires group { MayBeSealed (layout_of sup.now) sup.now.block_size group.old }
    requires serves { A.serves call.now ≡ true }
    requires ranges { KeepsRanges call.now }
    requires ready { (m : ℕ → Option (List ℕ)) → B.told under.old ≡ Some m → MaySee (geometry_of sup.now) bitmap.old (over group.old m) call.now }
    requires empty { idle ≡ true → group.old ≡ [] }
    ensures replied { (m : ℕ → Option (List ℕ)) (tree : Tree) (lists : Lists) → B.told under.old ≡ Some m → IsReady (geometry_of sup.now) bitmap.old (over group.old m) tree lists → IfOk result (IsReplied (geometry_of sup.now) bitmap.old bitmap.new m group.old group.new tree holds.now (idle ≡ true) stamp call.now) }
    ensures put_off { (m : ℕ → Option (List ℕ)) (tree : Tree) (lists : Lists) → B.told under.old ≡ Some m → IsReady (geometry_of sup.now) bitmap.old (over group.old m) tree lists → IfErr result (IsNoReply (geometry_of sup.now) bitmap.old (over group.old m) (length group.old) tree holds.now (idle ≡ true) call.now) }
    // A search of an index rests on the index alone: so it is for any volume of which what is told says as much.
    ensures rests_replied { (m w : ℕ → Option (List ℕ)) (tree : Tree) (lists : Lists) → B.told under.old ≡ Some m → IsReady (geometry_of sup.now) bitmap.old (over group.old w) tree lists → RestsOn (geometry_of sup.now) (over group.old w) (over group.old m) tree call.now → IfOk result (IsReplied (geometry_of sup.now) bitmap.old bitmap.new w group.old group.new tree holds.now (idle ≡ true) stamp call.now) }
    ensures rests_put_off { (m w : ℕ → Option (List ℕ)) (tree : Tree) (lists : Lists) → B.told under.old ≡ Some m → IsReady (geometry_of sup.now) bitmap.old (over group.old w) tree lists → RestsOn (geometry_of sup.now) (over group.old w) (over group.old m) tree call.now → IfErr result (IsNoReply (geometry_of sup.now) bitmap.old (over group.old w) (length group.old) tree holds.now (idle ≡ true) call.now) }
    ensures cause { IfOk result (HasReplyCause (B.counts under.old) (B.counts under.new) stop) }
    ensures found { (m : ℕ → Option (List ℕ)) (tree : Tree) (lists : Lists) → B.told under.old ≡ Some m → IsReady (geometry_of sup.now) bitmap.old (over group.old m) tree lists → IfOk result (λ reply. is_done reply ≡ true → FindsPlace tree call.now replaced.new) }
    ensures stopped { (s : stops.Stop) → stop ≡ Some s → IfOk result (λ reply. is_stopped reply ≡ true) }
    ensures left { OnErr result ((group.new ≡ group.old) × (bitmap.new ≡ bitmap.old)) }
    ensures idle { StaysIdle bitmap.old bitmap.new group.old group.new }
    ensures group { MayBeSealed (layout_of sup.now) sup.now.block_size group.new }
    ensures settled { IsSettled bitmap.new }
    ensures volume { IsOfVolume (sizes_of sup.now) bitmap.new }
    ensures last { bitmap.new.last ≡ bitmap.old.last }
    ensures told { B.told under.new ≡ B.told under.old }
    ensures note { (B.frame under.new).note ≡ (B.frame under.old).note }
    ensures size { B.size under.new ≡ B.size under.old }
{
    match stop {
        Some(Stop { durable, faults }) => Ok(Reply::Stopped { durable, faults }),
        None => {
            if is_search(call) {
                *replaced = false;
                return reply_search(alloc, sup, answers, bitmap, group, under, holds, call);
            }
            reply_counted(
                alloc, sup, answers, bitmap, group, under, idle, holds, call, stamp, replaced,
            )
        }
    }
}
