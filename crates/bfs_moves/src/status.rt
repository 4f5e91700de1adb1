// A node's status is written: its permissions, its user and its group.
ghost use Rattle.std.specs.Prelude.{◌≡◌, ◌≤◌, ◌⊎◌, ◌/◌, ◌%◌, ℕ, List, length, Option, Some, true, IsSome, OnOk, OnErr};
ghost use Rattle.std.specs.Int.{w32, cast_signed};
ghost use Rattle.bfs_inode.specs.Inode.{inode_at, stream_at};
ghost use Rattle.bfs_super.specs.Conditions.{IsValid};
ghost use Rattle.bfs_super.specs.Geometry.{geometry_of};
ghost use Rattle.bfs_bitmap.specs.Runs.{Room};
ghost use Rattle.bfs_txn.specs.Faults.{IsCaused};
ghost use Rattle.bfs_txn.specs.Told.{StaysChanged};
ghost use Rattle.bfs_tree.specs.Trees.{Node, Tree, IsNode};
ghost use Rattle.bfs_shift.specs.Lists.{Lists};
ghost use Rattle.bfs_shift.specs.Stocked.{HasWords};
ghost use Rattle.bfs_shift.specs.Work.{IsAtWork, IsStepped};
ghost use Rattle.bfs_moves.specs.Statuses.{with_status, HasStatusSet, IsRestated};

use crate::inode::{buffer, load_inode, note_words};
use bfs_bytes::u32_at;
use bfs_inode::InodeMut;
use bfs_super::Super;
use bfs_txn::{BlockFault, Edits};
use std::alloc::Global;

/// The status of a node: its permissions, its user and its group, and the stamp of their last change.
#[derive(Clone, Copy)]
pub struct Status {
    pub mode: u32,
    pub uid: i32,
    pub gid: i32,
    pub stamp: i64,
}

/// The bits of a mode with these permissions, and of the same kind.
fn with_permissions(bits: u32, mode: u32) -> u32
    requires { mode ≤ 4095 }
    ensures kind { result / 4096 ≡ bits / 4096 }
    ensures mode { result % 4096 ≡ mode }
{
    bits / 4096 * 4096 + mode
}

/// Writes a status into an inode, with these bits as its mode.
fn put_fields(block: &mut [u8], bits: u32, status: Status)
    requires { 1024 ≤ length block.old }
    ensures length { length block.new ≡ length block.old }
    ensures inode { inode_at block.new ≡ record (inode_at block.old) { mode = cast_signed w32 bits; uid = status.uid; gid = status.gid; status_change_time = status.stamp } }
    ensures stream { stream_at block.new ≡ stream_at block.old }
{
    let mut inode = InodeMut::over(block);
    inode.set_mode(bits.cast_signed());
    inode.set_uid(status.uid);
    inode.set_gid(status.gid);
    inode.set_status_change_time(status.stamp);
}

/// Writes a status into an inode. Its kind stays.
fn put_status(block: &mut [u8], status: Status)
    requires long { 1024 ≤ length block.old }
    requires mode { status.mode ≤ 4095 }
    ensures length { length block.new ≡ length block.old }
    ensures set { HasStatusSet status block.old block.new }
    ensures words { HasWords block.new }
{
    let bits = with_permissions(u32_at(block, 20), status.mode);
    put_fields(block, bits, status);
    note_words(block);
}

/// Writes a status into the inode at a block.
fn write_status<E: Edits>(
    edits: &mut E,
    block: &mut [u8],
    inode: u64,
    status: Status,
) -> Result<(), BlockFault>
    requires size { length block.old ≡ E.size edits.old }
    requires long { 1024 ≤ length block.old }
    requires mode { status.mode ≤ 4095 }
    ensures written { (m : ℕ → Option (List ℕ)) → E.told edits.old ≡ Some m → IsSome (m inode) → OnOk result (IsRestated inode status m (E.told edits.new)) }
    ensures kept { OnErr result (E.told edits.new ≡ E.told edits.old) }
    ensures changed { (k : ℕ) → E.changed edits.new k ≡ true → (E.changed edits.old k ≡ true) ⊎ (k ≡ inode) }
    ensures stays { StaysChanged (E.changed edits.old) (E.changed edits.new) }
    ensures size { E.size edits.new ≡ E.size edits.old }
    ensures frame { E.frame edits.new ≡ E.frame edits.old }
    ensures cause { IsCaused (E.counts edits.old) (E.counts edits.new) result }
{
    match load_inode(edits, block, inode) {
        Ok(()) => {}
        Err(fault) => return Err(fault),
    }
    put_status(block, status);
    match edits.set(inode, block) {
        Ok(()) => Ok(()),
        Err(_) => Err(BlockFault::NoMemory),
    }
}

/// Writes a node's permissions, its user and its group, with the stamp of the change. What the node is stays.
pub fn set_status<E: Edits>(
    alloc: Global,
    sup: &Super,
    edits: &mut E,
    id: u64,
    status: Status,
) -> Result<(), BlockFault>
    requires valid { IsValid sup.now }
    requires size { E.size edits.old ≡ sup.now.block_size }
    requires mode { status.mode ≤ 4095 }
    ensures restated { (v : Room) (m : ℕ → Option (List ℕ)) (tree : Tree) (lists : Lists) (loose : List ℕ) (n : Node) → E.told edits.old ≡ Some m → IsAtWork (geometry_of sup.now) v m tree lists loose → IsNode tree id n → OnOk result (IsStepped (geometry_of sup.now) v v m tree (with_status tree id status) lists loose (E.told edits.new) (E.changed edits.old) (E.changed edits.new)) }
    ensures kept { OnErr result (E.told edits.new ≡ E.told edits.old) }
    ensures changed { (k : ℕ) → E.changed edits.new k ≡ true → (E.changed edits.old k ≡ true) ⊎ (k ≡ id) }
    ensures stays { StaysChanged (E.changed edits.old) (E.changed edits.new) }
    ensures size { E.size edits.new ≡ E.size edits.old }
    ensures frame { E.frame edits.new ≡ E.frame edits.old }
    ensures cause { IsCaused (E.counts edits.old) (E.counts edits.new) result }
{
    let mut block = match buffer(alloc, sup) {
        Ok(block) => block,
        Err(fault) => return Err(fault),
    };
    match write_status(edits, &mut block, id, status) {
        Ok(()) => Ok(()),
        Err(fault) => Err(fault),
    }
}
