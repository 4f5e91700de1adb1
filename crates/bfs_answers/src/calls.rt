// The calls that are built so far: those that make a node and an index, set a mode, give a file a size, hold a piece of it, write an attribute,
// rename a node, remove a node, an attribute and an index, and those that only read.
ghost use Rattle.std.specs.Prelude.{◌≡◌, ◌≤◌, ℕ, ℤ, List, Option, Some, true, IfOk, IfErr, MatchResult, length};
ghost use Rattle.bfs_super.specs.Conditions.{IsValid, natural};
ghost use Rattle.bfs_super.specs.Geometry.{geometry_of};
ghost use Rattle.bfs_super.specs.declared.geometry.Geometry as geometries;
ghost use Rattle.bfs_super.specs.declared.sup.Super as sups;
ghost use Rattle.bfs_txn.specs.Faults.{AreLater, Counts};
ghost use Rattle.bfs_tree.specs.declared.call.Call as calls;
ghost use Rattle.bfs_tree.specs.declared.state.Hold as hold;
ghost use Rattle.bfs_tree.specs.declared.call.Call.TheVariants.{Make, SetMode};
ghost use Rattle.bfs_tree.specs.States.{State};
ghost use Rattle.bfs_tree.specs.Steps.{Reads};
ghost use Rattle.bfs_maps.specs.Refused.{IsUndone, HasReadCause};
ghost use Rattle.bfs_tree.specs.Trees.{Tree};
ghost use Rattle.bfs_shift.specs.Lists.{Lists};
ghost use Rattle.bfs_look.specs.Ready.{IsReady, HasReady};
ghost use Rattle.bfs_calls.specs.Done.{IsUnanswered, HasAnswerCause};
ghost use Rattle.bfs_calls.specs.Refusals.{is_own};
ghost use Rattle.bfs_answers.specs.Looks.{IsLooked, FindsMay, FindsOwn, MayBeDone};

use crate::holding::{hold_file, look_hold};
use crate::indexing::{build_index, look_make_index};
use crate::moving::{look_rename, rename};
use crate::sizing::{give_size, look_set_size};
use crate::taking::{
    drop_attr, drop_index, look_remove, look_remove_attr, look_remove_index, remove,
};
use crate::writing::{look_write_attr, put_attr};
use crate::{Allowance, Answers, Looked};
use bfs_bitmap::Bitmap;
use bfs_calls::{make_allowance, make_node, make_refusal, set_mode, set_mode_refusal};
use bfs_index_make::query::{attr_list, attr_read, index_find, index_list};
use bfs_look::{list, lookup, read_link, stat};
use bfs_node::TreeFault;
use bfs_stream_pages::MapFault;
use bfs_super::Super;
use bfs_tree::{Call, Hold, MakeKind, Reply};
use bfs_txn::Edits;
use std::alloc::Global;

/// Answers Make, SetMode, SetSize, Hold, Remove, Rename, AttrWrite, AttrRemove, IndexMake, IndexRemove, and the calls that only read: Lookup, List,
/// Stat, ReadLink, AttrRead, AttrList, IndexList and IndexFind.
#[derive(Clone, Copy, Debug, Drop)]
pub struct Calls {}

/// How many blocks a call that sets a mode is allowed: it has no rows.
const SETTING: u64 = 8;

/// Gives up a reply that the tree alone can't give.
fn without_reply(_reply: Reply) -> MapFault
    ensures { result ≡ TreeFault.NoMemory }
{
    TreeFault::NoMemory
}

/// Whether a reply is one that the tree alone gives.
fn is_own_reply(reply: &Reply) -> bool
    ensures { result ≡ is_own reply.now }
{
    match reply {
        Reply::NoSpace { .. } => false,
        Reply::NoLogRoom { .. } => false,
        Reply::DiskFault { .. } => false,
        Reply::Stopped { .. } => false,
        Reply::Damaged { .. } => false,
        _ => true,
    }
}

/// What a look has found where this is the reply.
fn found(reply: Reply) -> Result<Looked, MapFault>
    ensures own { IfOk result FindsOwn }
    ensures that { IfOk result (λ l. l ≡ Looked.Answered reply) }
    ensures fault { IfErr result (λ f. f ≡ TreeFault.NoMemory) }
{
    if is_own_reply(&reply) {
        return Ok(Looked::Answered(reply));
    }
    Err(without_reply(reply))
}

/// What a look has found by a call that only reads.
fn looked(read: Result<Reply, MapFault>) -> Result<Looked, MapFault>
    ensures looked { (g : geometries.Geometry) (m : ℕ → Option (List ℕ)) (tree : Tree) (holds : List hold.Hold) (call : calls.Call) → ((s : State) → s.tree ≡ tree → MatchResult read (Reads call s) IsUndone) → IfOk result (IsLooked g m tree holds call) }
    ensures own { IfOk result FindsOwn }
    ensures may { (sup : sups.Super) (call : calls.Call) → IfOk result (FindsMay MayBeDone sup call) }
    ensures unanswered { (call : calls.Call) (s : State) → MatchResult read (Reads call s) IsUndone → IfErr result IsUnanswered }
    ensures cause { (old new : Counts) → IfErr read (HasReadCause old new) → IfErr result (HasAnswerCause old new) }
{
    match read {
        Ok(reply) => found(reply),
        Err(fault) => Err(fault),
    }
}

/// Looks at a call that makes a node.
fn look_make<E: Edits>(
    alloc: Global,
    sup: &Super,
    bitmap: &mut Bitmap,
    edits: &mut E,
    dir: u64,
    name: &[u8],
    kind: &MakeKind,
) -> Result<Looked, MapFault>
    requires valid { IsValid sup.now }
    requires size { E.size edits.old ≡ sup.now.block_size }
    requires ready { (m : ℕ → Option (List ℕ)) → E.told edits.old ≡ Some m → HasReady (geometry_of sup.now) bitmap.old m }
    ensures looked { (m : ℕ → Option (List ℕ)) (tree : Tree) (lists : Lists) (holds : List hold.Hold) (mode : ℕ) → E.told edits.old ≡ Some m → IsReady (geometry_of sup.now) bitmap.old m tree lists → IfOk result (IsLooked (geometry_of sup.now) m tree holds (Make dir name.now kind.now mode)) }
    ensures own { IfOk result FindsOwn }
    ensures may { (mode : ℕ) → IfOk result (FindsMay MayBeDone sup.now (Make dir name.now kind.now mode)) }
    ensures unanswered { (m : ℕ → Option (List ℕ)) (tree : Tree) (lists : Lists) → E.told edits.old ≡ Some m → IsReady (geometry_of sup.now) bitmap.old m tree lists → IfErr result IsUnanswered }
    ensures cause { IfErr result (HasAnswerCause (E.counts edits.old) (E.counts edits.new)) }
    ensures bitmap { bitmap.new ≡ bitmap.old }
    ensures told { E.told edits.new ≡ E.told edits.old }
    ensures size { E.size edits.new ≡ E.size edits.old }
    ensures frame { E.frame edits.new ≡ E.frame edits.old }
    ensures later { AreLater (E.counts edits.old) (E.counts edits.new) }
{
    let refused = match make_refusal(alloc, sup, bitmap, edits, dir, name, kind) {
        Ok(refused) => refused,
        Err(fault) => return Err(fault),
    };
    match refused {
        Some(reply) => return Ok(Looked::Answered(reply)),
        None => {}
    }
    match make_allowance(alloc, sup, bitmap, edits, kind) {
        Ok(allowed) => Ok(Looked::Allowed(Allowance {
            logged: allowed,
            taken: allowed,
        })),
        Err(fault) => Err(fault),
    }
}

/// Looks at a call that sets a node's mode, user and group: it may change the node's inode, and a little more is allowed.
fn look_set_mode<E: Edits>(
    alloc: Global,
    sup: &Super,
    bitmap: &mut Bitmap,
    edits: &mut E,
    id: u64,
) -> Result<Looked, MapFault>
    requires valid { IsValid sup.now }
    requires size { E.size edits.old ≡ sup.now.block_size }
    requires ready { (m : ℕ → Option (List ℕ)) → E.told edits.old ≡ Some m → HasReady (geometry_of sup.now) bitmap.old m }
    ensures looked { (m : ℕ → Option (List ℕ)) (tree : Tree) (lists : Lists) (holds : List hold.Hold) (mode : ℕ) (uid gid : ℤ) → E.told edits.old ≡ Some m → IsReady (geometry_of sup.now) bitmap.old m tree lists → IfOk result (IsLooked (geometry_of sup.now) m tree holds (SetMode id mode uid gid)) }
    ensures own { IfOk result FindsOwn }
    ensures may { (mode : ℕ) (uid gid : ℤ) → IfOk result (FindsMay MayBeDone sup.now (SetMode id mode uid gid)) }
    ensures unanswered { (m : ℕ → Option (List ℕ)) (tree : Tree) (lists : Lists) → E.told edits.old ≡ Some m → IsReady (geometry_of sup.now) bitmap.old m tree lists → IfErr result IsUnanswered }
    ensures cause { IfErr result (HasAnswerCause (E.counts edits.old) (E.counts edits.new)) }
    ensures bitmap { bitmap.new ≡ bitmap.old }
    ensures told { E.told edits.new ≡ E.told edits.old }
    ensures size { E.size edits.new ≡ E.size edits.old }
    ensures frame { E.frame edits.new ≡ E.frame edits.old }
    ensures later { AreLater (E.counts edits.old) (E.counts edits.new) }
{
    let refused = match set_mode_refusal(alloc, sup, bitmap, edits, id) {
        Ok(refused) => refused,
        Err(fault) => return Err(fault),
    };
    match refused {
        Some(reply) => found(reply),
        None => Ok(Looked::Allowed(Allowance {
            logged: SETTING,
            taken: SETTING,
        })),
    }
}

impl Answers for Calls {
    ghost use Rattle.bfs_answers.specs.Looks.{MayBeDone, is_served};

    ghost serves = { is_served };

    ghost may = { MayBeDone };

    fn look<E: Edits>(
        &self,
        alloc: Global,
        sup: &Super,
        bitmap: &mut Bitmap,
        edits: &mut E,
        holds: &[Hold],
        call: &Call,
    ) -> Result<Looked, MapFault> {
        match call {
            Call::Make {
                dir,
                name,
                kind,
                ..
            } => look_make(alloc, sup, bitmap, edits, *dir, name.as_slice(), kind),
            Call::SetMode { id, .. } => look_set_mode(alloc, sup, bitmap, edits, *id),
            Call::SetSize { id, size } => {
                look_set_size(alloc, sup, bitmap, edits, holds, *id, *size)
            }
            Call::Remove { dir, name } => {
                look_remove(alloc, sup, bitmap, edits, holds, *dir, name.as_slice())
            }
            Call::Rename {
                dir,
                name,
                to_dir,
                to_name,
            } => look_rename(
                alloc,
                sup,
                bitmap,
                edits,
                holds,
                *dir,
                name.as_slice(),
                *to_dir,
                to_name.as_slice(),
            ),
            Call::AttrWrite {
                id,
                name,
                bytes,
                ..
            } => look_write_attr(
                alloc,
                sup,
                bitmap,
                edits,
                *id,
                name.as_slice(),
                bytes.as_slice(),
            ),
            Call::AttrRemove { id, name } => {
                look_remove_attr(alloc, sup, bitmap, edits, *id, name.as_slice())
            }
            Call::IndexMake { name, kind } => {
                look_make_index(alloc, sup, bitmap, edits, name.as_slice(), *kind)
            }
            Call::IndexRemove { name } => {
                look_remove_index(alloc, sup, bitmap, edits, name.as_slice())
            }
            Call::Hold {
                id,
                at,
                length,
                write,
            } => look_hold(alloc, sup, bitmap, edits, holds, *id, *at, *length, *write),
            Call::Lookup { dir, name } => {
                looked(lookup(alloc, sup, bitmap, edits, *dir, name.as_slice()))
            }
            Call::List { dir } => looked(list(alloc, sup, bitmap, edits, *dir)),
            Call::Stat { id } => looked(stat(alloc, sup, bitmap, edits, *id)),
            Call::ReadLink { id } => looked(read_link(alloc, sup, bitmap, edits, *id)),
            Call::AttrRead { id, name } => {
                looked(attr_read(alloc, sup, bitmap, edits, *id, name.as_slice()))
            }
            Call::AttrList { id } => looked(attr_list(alloc, sup, bitmap, edits, *id)),
            Call::IndexList => looked(index_list(alloc, sup, bitmap, edits)),
            Call::IndexFind { name, low, high } => looked(index_find(
                alloc,
                sup,
                bitmap,
                edits,
                name.as_slice(),
                low,
                high,
            )),
            _ => Err(TreeFault::NoMemory),
        }
    }

    fn answer<E: Edits>(
        &self,
        alloc: Global,
        sup: &Super,
        bitmap: &mut Bitmap,
        edits: &mut E,
        holds: &[Hold],
        call: &Call,
        stamp: i64,
    ) -> Result<Reply, MapFault> {
        match call {
            Call::Make {
                dir,
                name,
                kind,
                mode,
            } => {
                match make_node(
                    alloc,
                    sup,
                    bitmap,
                    edits,
                    *dir,
                    name.as_slice(),
                    kind,
                    *mode,
                    stamp,
                ) {
                    Ok(id) => Ok(Reply::Made { id }),
                    Err(fault) => Err(fault),
                }
            }
            Call::SetMode { id, mode, uid, gid } => {
                match set_mode(alloc, sup, edits, *id, *mode, *uid, *gid, stamp) {
                    Ok(()) => Ok(Reply::Done),
                    Err(fault) => Err(fault),
                }
            }
            Call::SetSize { id, size } => {
                give_size(alloc, sup, bitmap, edits, holds, *id, *size, stamp)
            }
            Call::Remove { dir, name } => {
                let name = name.as_slice();
                remove(alloc, sup, bitmap, edits, holds, *dir, name, stamp)
            }
            Call::Rename {
                dir,
                name,
                to_dir,
                to_name,
            } => rename(
                alloc,
                sup,
                bitmap,
                edits,
                holds,
                *dir,
                name.as_slice(),
                *to_dir,
                to_name.as_slice(),
                stamp,
            ),
            Call::AttrWrite {
                id,
                name,
                kind,
                bytes,
            } => put_attr(
                alloc,
                sup,
                bitmap,
                edits,
                *id,
                name.as_slice(),
                *kind,
                bytes.as_slice(),
                stamp,
            ),
            Call::AttrRemove { id, name } => {
                drop_attr(alloc, sup, bitmap, edits, *id, name.as_slice(), stamp)
            }
            Call::IndexMake { name, kind } => {
                let name = name.as_slice();
                build_index(alloc, sup, bitmap, edits, name, *kind, stamp)
            }
            Call::IndexRemove { name } => drop_index(alloc, sup, bitmap, edits, name.as_slice()),
            Call::Hold {
                id,
                at,
                length,
                write,
            } => hold_file(
                alloc, sup, bitmap, edits, holds, *id, *at, *length, *write, stamp,
            ),
            _ => Err(TreeFault::NoMemory),
        }
    }
}
