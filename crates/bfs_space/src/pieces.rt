// A hold on a piece of a file, over an open group and what lies below: its reply, and the blocks that have the piece's bytes.
ghost use Rattle.std.specs.Prelude.{◌≡◌, ℕ, [], List, Option, Some, true, length, IfOk, IfErr, OnErr, OnOk, MatchResult};
ghost use Rattle.std.specs.List.{All};
ghost use Rattle.bfs_super.specs.Conditions.{IsValid};
ghost use Rattle.bfs_super.specs.Geometry.{geometry_of};
ghost use Rattle.bfs_bitmap.specs.Runs.{IsSettled};
ghost use Rattle.bfs_bitmap.specs.Runs as runs;
ghost use Rattle.bfs_txn.specs.Changed.{over};
ghost use Rattle.bfs_txn.specs.Faults.{AreLater};
ghost use Rattle.bfs_stream.specs.Faults.{IsCauseIn};
ghost use Rattle.bfs_stream.specs.Grown.{IsOfVolume};
ghost use Rattle.bfs_stream.specs.Scans.{IsDamage};
ghost use Rattle.bfs_stream.specs.Sizes.{sizes_of};
ghost use Rattle.bfs_tree.specs.declared.call.Call.TheVariants as calls;
ghost use Rattle.bfs_tree.specs.declared.reply.Reply.TheVariants.{Done};
ghost use Rattle.bfs_tree.specs.Histories.{is_stopped};
ghost use Rattle.bfs_tree.specs.Steps.{is_done};
ghost use Rattle.bfs_tree.specs.Trees.{Tree};
ghost use Rattle.bfs_device.specs.declared.journal.Stop as stops;
ghost use Rattle.bfs_device.specs.Layouts.{IsData, layout_of};
ghost use Rattle.bfs_sound.specs.Inodes.{stream_blocks};
ghost use Rattle.bfs_shift.specs.Lists.{Lists};
ghost use Rattle.bfs_shift.specs.Shifts.{volume_in};
ghost use Rattle.bfs_look.specs.Ready.{IsReady, HasReady};
ghost use Rattle.bfs_replies.specs.Places.{piece_blocks, piece_of};
ghost use Rattle.bfs_replies.specs.Kept.{StaysIdle};
ghost use Rattle.bfs_replies.specs.Books.{MayBeSealed};
ghost use Rattle.bfs_replies.specs.Looks.{IsHeldIn, is_to_do};
ghost use Rattle.bfs_replies.specs.Replies.{HasReplyCause, IsNoReply, IsReplied, IsThat, reply_to_block};
ghost use Rattle.bfs_space.specs.Taken.{is_just_done, plain_of};

use bfs_bitmap::Bitmap;
use bfs_device::Stop;
use bfs_replies::answers::{Calls, Looked};
use bfs_replies::hold::find_places;
use bfs_replies::{NoReply, look_call, reply_looked, reply_to_fault, reply_to_step};
use bfs_super::Super;
use bfs_tree::{Call, Hold, Reply};
use bfs_txn::{BlockFault, Blocks, Changed, Overlay};
use std::alloc::Global;

/// The most bytes of a piece.
const LONGEST: u64 = 65536;

/// A piece of a file that is to be held, to be read or written.
#[derive(Clone, Copy, Debug)]
pub struct Piece {
    pub id: u64,
    pub at: u64,
    pub length: u64,
    pub write: bool,
}

/// The call that holds a piece.
pub fn hold_of(piece: Piece) -> Call
    ensures { result ≡ calls.Hold piece.id piece.at piece.length piece.write }
{
    Call::Hold {
        id: piece.id,
        at: piece.at,
        length: piece.length,
        write: piece.write,
    }
}

/// Finds the blocks that have a piece's bytes, over an open group and what lies below: they are put in the place of what `places` held. A piece of
/// no block of the volume, or of too many bytes, is none that a file has.
fn places_over<B: Blocks>(
    alloc: Global,
    sup: &Super,
    group: &mut Changed,
    under: &mut B,
    piece: Piece,
    places: &mut Vec<u64>,
) -> Result<(), BlockFault>
    requires valid { IsValid sup.now }
    requires size { B.size under.old ≡ sup.now.block_size }
    requires group { MayBeSealed (layout_of sup.now) sup.now.block_size group.old }
    ensures count { OnOk result (length places.new.items ≡ piece_blocks sup.now.block_size piece.at piece.length) }
    ensures data { OnOk result (All (IsData (layout_of sup.now)) places.new.items) }
    ensures found { (m : ℕ → Option (List ℕ)) (v : runs.Room) (tree : Tree) (lists : Lists) → B.told under.old ≡ Some m → IsReady (geometry_of sup.now) v (over group.old m) tree lists → IsHeldIn tree piece.id piece.at piece.length → MatchResult result (λ u. places.new.items ≡ piece_of sup.now.block_size piece.at piece.length (stream_blocks (volume_in (geometry_of sup.now) (over group.old m)) piece.id)) (λ fault. ¬ IsDamage fault) }
    ensures cause { IfErr result (IsCauseIn (B.counts under.old) (B.counts under.new)) }
    ensures later { AreLater (B.counts under.old) (B.counts under.new) }
    ensures group { group.new ≡ group.old }
    ensures told { B.told under.new ≡ B.told under.old }
    ensures note { (B.frame under.new).note ≡ (B.frame under.old).note }
    ensures size { B.size under.new ≡ B.size under.old }
{
    if piece.id >= sup.geometry().blocks || piece.length > LONGEST {
        return Err(BlockFault::Damaged { block: piece.id });
    }
    let mut overlay = Overlay::begin(group, under);
    let found = find_places(
        alloc,
        sup,
        &mut overlay,
        piece.id,
        piece.at,
        piece.length,
        places,
    );
    overlay.drop_call();
    found
}

/// Whether a call is to be done, of which this was found.
fn is_to_do(looked: &Looked) -> bool
    ensures { result ≡ is_to_do looked.now }
{
    match looked {
        Looked::Answered(reply) => reply.is_done(),
        Looked::Allowed(_) => true,
    }
}

/// The same, where the call that holds the piece is to be done; else nothing is looked for.
fn places_for<B: Blocks>(
    alloc: Global,
    sup: &Super,
    group: &mut Changed,
    under: &mut B,
    looked: &Looked,
    piece: Piece,
    places: &mut Vec<u64>,
) -> Result<(), BlockFault>
    requires valid { IsValid sup.now }
    requires size { B.size under.old ≡ sup.now.block_size }
    requires group { MayBeSealed (layout_of sup.now) sup.now.block_size group.old }
    ensures places { OnOk result (is_to_do looked.now ≡ true → (length places.new.items ≡ piece_blocks sup.now.block_size piece.at piece.length) × All (IsData (layout_of sup.now)) places.new.items) }
    ensures found { (m : ℕ → Option (List ℕ)) (v : runs.Room) (tree : Tree) (lists : Lists) → B.told under.old ≡ Some m → IsReady (geometry_of sup.now) v (over group.old m) tree lists → (is_to_do looked.now ≡ true → IsHeldIn tree piece.id piece.at piece.length) → MatchResult result (λ u. is_to_do looked.now ≡ true → places.new.items ≡ piece_of sup.now.block_size piece.at piece.length (stream_blocks (volume_in (geometry_of sup.now) (over group.old m)) piece.id)) (λ fault. ¬ IsDamage fault) }
    ensures cause { IfErr result (IsCauseIn (B.counts under.old) (B.counts under.new)) }
    ensures later { AreLater (B.counts under.old) (B.counts under.new) }
    ensures group { group.new ≡ group.old }
    ensures told { B.told under.new ≡ B.told under.old }
    ensures note { (B.frame under.new).note ≡ (B.frame under.old).note }
    ensures size { B.size under.new ≡ B.size under.old }
{
    if !is_to_do(looked) {
        return Ok(());
    }
    places_over(alloc, sup, group, under, piece, places)
}

/// The reply to a fault of a block, or want of memory, in the place of what a look at the call has found.
fn reply_instead(_looked: Looked, fault: BlockFault) -> Result<Reply, NoReply>
    ensures { IsThat (reply_to_block fault) result }
{
    reply_to_fault(fault)
}

/// The reply of a call that holds a piece, with these holds of sessions: what it changed is in the open group, or nothing is. Where the hold is
/// taken, `places` are the blocks that have the piece's bytes. `idle` says that nothing is held back.
fn hold_piece<B: Blocks>(
    alloc: Global,
    sup: &Super,
    bitmap: &mut Bitmap,
    group: &mut Changed,
    under: &mut B,
    idle: bool,
    holds: &[Hold],
    call: &Call,
    stamp: i64,
    piece: Piece,
    places: &mut Vec<u64>,
) -> Result<Reply, NoReply>
    requires valid { IsValid sup.now }
    requires size { B.size under.old ≡ sup.now.block_size }
    requires volume { IsOfVolume (sizes_of sup.now) bitmap.old }
    requires settled { IsSettled bitmap.old }
    requires group { MayBeSealed (layout_of sup.now) sup.now.block_size group.old }
    requires call { call.now ≡ calls.Hold piece.id piece.at piece.length piece.write }
    requires ready { (m : ℕ → Option (List ℕ)) → B.told under.old ≡ Some m → HasReady (geometry_of sup.now) bitmap.old (over group.old m) }
    requires empty { idle ≡ true → group.old ≡ [] }
    ensures replied { (m : ℕ → Option (List ℕ)) (tree : Tree) (lists : Lists) → B.told under.old ≡ Some m → IsReady (geometry_of sup.now) bitmap.old (over group.old m) tree lists → IfOk result (IsReplied (geometry_of sup.now) bitmap.old bitmap.new m group.old group.new tree holds.now (idle ≡ true) stamp call.now) }
    ensures put_off { (m : ℕ → Option (List ℕ)) (tree : Tree) (lists : Lists) → B.told under.old ≡ Some m → IsReady (geometry_of sup.now) bitmap.old (over group.old m) tree lists → IfErr result (IsNoReply (geometry_of sup.now) bitmap.old (over group.old m) (length group.old) tree holds.now (idle ≡ true) call.now) }
    ensures places { IfOk result (λ reply. reply ≡ Done → (length places.new.items ≡ piece_blocks sup.now.block_size piece.at piece.length) × All (IsData (layout_of sup.now)) places.new.items) }
    ensures piece { (m : ℕ → Option (List ℕ)) (tree : Tree) (lists : Lists) → B.told under.old ≡ Some m → IsReady (geometry_of sup.now) bitmap.old (over group.old m) tree lists → IfOk result (λ reply. reply ≡ Done → places.new.items ≡ piece_of sup.now.block_size piece.at piece.length (stream_blocks (volume_in (geometry_of sup.now) (over group.old m)) piece.id)) }
    ensures cause { (stop : Option stops.Stop) → IfOk result (HasReplyCause (B.counts under.old) (B.counts under.new) stop) }
    ensures left { OnErr result ((group.new ≡ group.old) × (bitmap.new ≡ bitmap.old)) }
    ensures idle { StaysIdle bitmap.old bitmap.new group.old group.new }
    ensures group { MayBeSealed (layout_of sup.now) sup.now.block_size group.new }
    ensures settled { IsSettled bitmap.new }
    ensures volume { IsOfVolume (sizes_of sup.now) bitmap.new }
    ensures last { bitmap.new.last ≡ bitmap.old.last }
    ensures told { B.told under.new ≡ B.told under.old }
    ensures note { (B.frame under.new).note ≡ (B.frame under.old).note }
    ensures size { B.size under.new ≡ B.size under.old }
{
    let calls = Calls {};
    let looked = match look_call(alloc, sup, &calls, bitmap, group, under, holds, call) {
        Ok(looked) => looked,
        Err(fault) => return reply_to_step(fault),
    };
    match places_for(alloc, sup, group, under, &looked, piece, places) {
        Ok(()) => {}
        Err(fault) => return reply_instead(looked, fault),
    }
    reply_looked(
        alloc, sup, &calls, bitmap, group, under, idle, holds, call, stamp, looked,
    )
}

/// Whether a reply is Done.
fn is_just_done(reply: &Reply) -> bool
    ensures { result ≡ is_just_done reply.now }
{
    matches!(reply, Reply::Done)
}

/// The reply of a hold on this file. What a look and an answer say of replies over blocks that tell nothing leaves it open how a call is done; a hold is so with
/// Done alone.
fn plain_reply(reply: Reply, id: u64) -> Reply
    ensures { result ≡ plain_of id reply }
{
    let done = reply.is_done();
    let plain = is_just_done(&reply);
    if done && !plain {
        return Reply::Damaged { block: id };
    }
    reply
}

/// The same, where one that is done has the reply Done.
fn hold_plain<B: Blocks>(
    alloc: Global,
    sup: &Super,
    bitmap: &mut Bitmap,
    group: &mut Changed,
    under: &mut B,
    idle: bool,
    holds: &[Hold],
    call: &Call,
    stamp: i64,
    piece: Piece,
    places: &mut Vec<u64>,
) -> Result<Reply, NoReply>
    requires valid { IsValid sup.now }
    requires size { B.size under.old ≡ sup.now.block_size }
    requires volume { IsOfVolume (sizes_of sup.now) bitmap.old }
    requires settled { IsSettled bitmap.old }
    requires group { MayBeSealed (layout_of sup.now) sup.now.block_size group.old }
    requires call { call.now ≡ calls.Hold piece.id piece.at piece.length piece.write }
    requires ready { (m : ℕ → Option (List ℕ)) → B.told under.old ≡ Some m → HasReady (geometry_of sup.now) bitmap.old (over group.old m) }
    requires empty { idle ≡ true → group.old ≡ [] }
    ensures replied { (m : ℕ → Option (List ℕ)) (tree : Tree) (lists : Lists) → B.told under.old ≡ Some m → IsReady (geometry_of sup.now) bitmap.old (over group.old m) tree lists → IfOk result (IsReplied (geometry_of sup.now) bitmap.old bitmap.new m group.old group.new tree holds.now (idle ≡ true) stamp call.now) }
    ensures put_off { (m : ℕ → Option (List ℕ)) (tree : Tree) (lists : Lists) → B.told under.old ≡ Some m → IsReady (geometry_of sup.now) bitmap.old (over group.old m) tree lists → IfErr result (IsNoReply (geometry_of sup.now) bitmap.old (over group.old m) (length group.old) tree holds.now (idle ≡ true) call.now) }
    ensures places { IfOk result (λ reply. reply ≡ Done → (length places.new.items ≡ piece_blocks sup.now.block_size piece.at piece.length) × All (IsData (layout_of sup.now)) places.new.items) }
    ensures piece { (m : ℕ → Option (List ℕ)) (tree : Tree) (lists : Lists) → B.told under.old ≡ Some m → IsReady (geometry_of sup.now) bitmap.old (over group.old m) tree lists → IfOk result (λ reply. reply ≡ Done → places.new.items ≡ piece_of sup.now.block_size piece.at piece.length (stream_blocks (volume_in (geometry_of sup.now) (over group.old m)) piece.id)) }
    ensures plain { IfOk result (λ reply. is_done reply ≡ true → reply ≡ Done) }
    ensures cause { (stop : Option stops.Stop) → IfOk result (HasReplyCause (B.counts under.old) (B.counts under.new) stop) }
    ensures left { OnErr result ((group.new ≡ group.old) × (bitmap.new ≡ bitmap.old)) }
    ensures idle { StaysIdle bitmap.old bitmap.new group.old group.new }
    ensures group { MayBeSealed (layout_of sup.now) sup.now.block_size group.new }
    ensures settled { IsSettled bitmap.new }
    ensures volume { IsOfVolume (sizes_of sup.now) bitmap.new }
    ensures last { bitmap.new.last ≡ bitmap.old.last }
    ensures told { B.told under.new ≡ B.told under.old }
    ensures note { (B.frame under.new).note ≡ (B.frame under.old).note }
    ensures size { B.size under.new ≡ B.size under.old }
{
    match hold_piece(
        alloc, sup, bitmap, group, under, idle, holds, call, stamp, piece, places,
    ) {
        Ok(reply) => Ok(plain_reply(reply, piece.id)),
        Err(fault) => Err(fault),
    }
}

/// The same; but once an entry has told that the device has stopped, each call is answered so.
pub fn hold_or_stopped<B: Blocks>(
    stop: Option<Stop>,
    alloc: Global,
    sup: &Super,
    bitmap: &mut Bitmap,
    group: &mut Changed,
    under: &mut B,
    idle: bool,
    holds: &[Hold],
    call: &Call,
    stamp: i64,
    piece: Piece,
    places: &mut Vec<u64>,
) -> Result<Reply, NoReply>
    requires valid { IsValid sup.now }
    requires size { B.size under.old ≡ sup.now.block_size }
    requires volume { IsOfVolume (sizes_of sup.now) bitmap.old }
    requires settled { IsSettled bitmap.old }
    requires group { MayBeSealed (layout_of sup.now) sup.now.block_size group.old }
    requires call { call.now ≡ calls.Hold piece.id piece.at piece.length piece.write }
    requires ready { (m : ℕ → Option (List ℕ)) → B.told under.old ≡ Some m → HasReady (geometry_of sup.now) bitmap.old (over group.old m) }
    requires empty { idle ≡ true → group.old ≡ [] }
    ensures replied { (m : ℕ → Option (List ℕ)) (tree : Tree) (lists : Lists) → B.told under.old ≡ Some m → IsReady (geometry_of sup.now) bitmap.old (over group.old m) tree lists → IfOk result (IsReplied (geometry_of sup.now) bitmap.old bitmap.new m group.old group.new tree holds.now (idle ≡ true) stamp call.now) }
    ensures put_off { (m : ℕ → Option (List ℕ)) (tree : Tree) (lists : Lists) → B.told under.old ≡ Some m → IsReady (geometry_of sup.now) bitmap.old (over group.old m) tree lists → IfErr result (IsNoReply (geometry_of sup.now) bitmap.old (over group.old m) (length group.old) tree holds.now (idle ≡ true) call.now) }
    ensures places { IfOk result (λ reply. reply ≡ Done → (length places.new.items ≡ piece_blocks sup.now.block_size piece.at piece.length) × All (IsData (layout_of sup.now)) places.new.items) }
    ensures piece { (m : ℕ → Option (List ℕ)) (tree : Tree) (lists : Lists) → B.told under.old ≡ Some m → IsReady (geometry_of sup.now) bitmap.old (over group.old m) tree lists → IfOk result (λ reply. reply ≡ Done → places.new.items ≡ piece_of sup.now.block_size piece.at piece.length (stream_blocks (volume_in (geometry_of sup.now) (over group.old m)) piece.id)) }
    ensures plain { IfOk result (λ reply. is_done reply ≡ true → reply ≡ Done) }
    ensures cause { IfOk result (HasReplyCause (B.counts under.old) (B.counts under.new) stop) }
    ensures stopped { (s : stops.Stop) → stop ≡ Some s → IfOk result (λ reply. is_stopped reply ≡ true) }
    ensures left { OnErr result ((group.new ≡ group.old) × (bitmap.new ≡ bitmap.old)) }
    ensures idle { StaysIdle bitmap.old bitmap.new group.old group.new }
    ensures group { MayBeSealed (layout_of sup.now) sup.now.block_size group.new }
    ensures settled { IsSettled bitmap.new }
    ensures volume { IsOfVolume (sizes_of sup.now) bitmap.new }
    ensures last { bitmap.new.last ≡ bitmap.old.last }
    ensures told { B.told under.new ≡ B.told under.old }
    ensures note { (B.frame under.new).note ≡ (B.frame under.old).note }
    ensures size { B.size under.new ≡ B.size under.old }
{
    match stop {
        Some(Stop { durable, faults }) => Ok(Reply::Stopped { durable, faults }),
        None => hold_plain(
            alloc, sup, bitmap, group, under, idle, holds, call, stamp, piece, places,
        ),
    }
}
