// A node's permissions, its user and its group are set.
ghost use Rattle.std.specs.Prelude.{◌≡◌, ◌≤◌, ◌<◌, ℕ, ℤ, List, Option, Some, None, OnOk, IfOk, IfErr, MatchResult};
ghost use Rattle.bfs_super.specs.Conditions.{IsValid, natural};
ghost use Rattle.bfs_super.specs.Geometry.{geometry_of};
ghost use Rattle.bfs_bitmap.specs.Runs.{Room};
ghost use Rattle.bfs_txn.specs.Faults.{AreLater};
ghost use Rattle.bfs_txn.specs.Told.{StaysChanged};
ghost use Rattle.bfs_tree.specs.declared.call.Call.TheVariants.{SetMode};
ghost use Rattle.bfs_tree.specs.declared.reply.Reply.TheVariants.{Done};
ghost use Rattle.bfs_tree.specs.Refusals.{own_refusal};
ghost use Rattle.bfs_tree.specs.States.{State};
ghost use Rattle.bfs_tree.specs.Trees.{Tree};
ghost use Rattle.bfs_maps.specs.Refused.{IsUndone, HasReadCause};
ghost use Rattle.bfs_shift.specs.Lists.{Lists};
ghost use Rattle.bfs_look.specs.Ready.{IsReady, HasReady};
ghost use Rattle.bfs_calls.specs.Done.{IsDoneSo, IsUnanswered, HasAnswerCause};

use crate::fault::blocked;
use bfs_bitmap::Bitmap;
use bfs_look::node_at;
use bfs_moves::{Status, set_status};
use bfs_stream_pages::MapFault;
use bfs_super::Super;
use bfs_tree::Reply;
use bfs_txn::Edits;
use std::alloc::Global;

/// The refusal that a call has of its own which sets a node's mode, user and group, or None where the node is there.
pub fn set_mode_refusal<E: Edits>(
    alloc: Global,
    sup: &Super,
    bitmap: &mut Bitmap,
    edits: &mut E,
    id: u64,
) -> Result<Option<Reply>, MapFault>
    requires valid { IsValid sup.now }
    requires size { E.size edits.old ≡ sup.now.block_size }
    requires ready { (m : ℕ → Option (List ℕ)) → E.told edits.old ≡ Some m → HasReady (geometry_of sup.now) bitmap.old m }
    ensures refused { (m : ℕ → Option (List ℕ)) (tree : Tree) (lists : Lists) (s : State) (mode : ℕ) (uid gid : ℤ) → E.told edits.old ≡ Some m → IsReady (geometry_of sup.now) bitmap.old m tree lists → s.tree ≡ tree → MatchResult result (λ o. o ≡ own_refusal (SetMode id mode uid gid) s) IsUndone }
    ensures inside { IfOk result (λ o. o ≡ None → id < natural sup.now.num_blocks) }
    ensures bitmap { bitmap.new ≡ bitmap.old }
    ensures told { E.told edits.new ≡ E.told edits.old }
    ensures changed { E.changed edits.new ≡ E.changed edits.old }
    ensures size { E.size edits.new ≡ E.size edits.old }
    ensures frame { E.frame edits.new ≡ E.frame edits.old }
    ensures later { AreLater (E.counts edits.old) (E.counts edits.new) }
    ensures cause { IfErr result (HasReadCause (E.counts edits.old) (E.counts edits.new)) }
{
    let there = match node_at(alloc, sup, bitmap, edits, id) {
        Ok(there) => there,
        Err(fault) => return Err(fault),
    };
    match there {
        Some(_) => Ok(None),
        None => Ok(Some(Reply::NotFound)),
    }
}

/// Sets a node's mode, user and group, where the call has no refusal of its own: the reply is Done. The stamp is that of the call; it
/// becomes the node's stamp of the last change of its status. No other block than that of its inode is written, and no run is taken.
pub fn set_mode<E: Edits>(
    alloc: Global,
    sup: &Super,
    edits: &mut E,
    id: u64,
    mode: u32,
    uid: i32,
    gid: i32,
    stamp: i64,
) -> Result<(), MapFault>
    requires valid { IsValid sup.now }
    requires size { E.size edits.old ≡ sup.now.block_size }
    requires mode { mode ≤ 4095 }
    ensures done { (v : Room) (m : ℕ → Option (List ℕ)) (tree : Tree) (lists : Lists) → E.told edits.old ≡ Some m → IsReady (geometry_of sup.now) v m tree lists → ((s : State) → s.tree ≡ tree → own_refusal (SetMode id mode uid gid) s ≡ None) → OnOk result (IsDoneSo (geometry_of sup.now) v v m tree stamp (SetMode id mode uid gid) Done (E.told edits.new) (E.changed edits.old) (E.changed edits.new)) }
    ensures unanswered { IfErr result IsUnanswered }
    ensures cause { IfErr result (HasAnswerCause (E.counts edits.old) (E.counts edits.new)) }
    ensures stays { StaysChanged (E.changed edits.old) (E.changed edits.new) }
    ensures size { E.size edits.new ≡ E.size edits.old }
    ensures frame { E.frame edits.new ≡ E.frame edits.old }
    ensures later { AreLater (E.counts edits.old) (E.counts edits.new) }
{
    let status = Status {
        mode,
        uid,
        gid,
        stamp,
    };
    match set_status(alloc, sup, edits, id, status) {
        Ok(()) => Ok(()),
        Err(fault) => Err(blocked(fault)),
    }
}
