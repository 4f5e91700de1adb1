// The stamp of the last change of a node's status is written.
ghost use Rattle.std.specs.Prelude.{◌≡◌, ◌≤◌, ◌⊎◌, ℕ, List, length, Option, Some, true, IsSome, OnOk};
ghost use Rattle.bfs_inode.specs.Inode.{inode_at, stream_at};
ghost use Rattle.bfs_super.specs.Conditions.{IsValid};
ghost use Rattle.bfs_super.specs.Geometry.{geometry_of};
ghost use Rattle.bfs_bitmap.specs.Runs.{Room};
ghost use Rattle.bfs_txn.specs.Faults.{IsCaused};
ghost use Rattle.bfs_txn.specs.Told.{StaysChanged};
ghost use Rattle.bfs_tree.specs.Trees.{Node, Tree, IsNode};
ghost use Rattle.bfs_shift.specs.Lists.{Lists};
ghost use Rattle.bfs_shift.specs.Stocked.{HasWords};
ghost use Rattle.bfs_shift.specs.Work.{IsAtWork, IsStepped};
ghost use Rattle.bfs_attr_calls.specs.Stamped.{with_changed, IsChangedSet};

use bfs_bytes::u32_at;
use bfs_inode::InodeMut;
use bfs_query::moves::{buffer, load_inode};
use bfs_super::Super;
use bfs_txn::{BlockFault, Edits};
use std::alloc::Global;

/// The mode and the flags in a block of bytes take four bytes.
fn note_words(block: &[u8])
    requires { 1024 ≤ length block.now }
    ensures { HasWords block.now }
{
    let _mode = u32_at(block, 20);
    let _flags = u32_at(block, 24);
}

/// Writes the stamp of the last change of its status into an inode.
fn put_stamp(block: &mut [u8], stamp: i64)
    requires { 1024 ≤ length block.old }
    ensures length { length block.new ≡ length block.old }
    ensures inode { inode_at block.new ≡ record (inode_at block.old) { status_change_time = stamp } }
    ensures stream { stream_at block.new ≡ stream_at block.old }
{
    let mut inode = InodeMut::over(block);
    inode.set_status_change_time(stamp);
}

/// Writes that stamp into the inode at a block.
fn write_changed<E: Edits>(
    edits: &mut E,
    block: &mut [u8],
    inode: u64,
    stamp: i64,
) -> Result<(), BlockFault>
    requires size { length block.old ≡ E.size edits.old }
    requires long { 1024 ≤ length block.old }
    ensures written { (m : ℕ → Option (List ℕ)) → E.told edits.old ≡ Some m → IsSome (m inode) → OnOk result (IsChangedSet inode stamp m (E.told edits.new)) }
    ensures changed { (k : ℕ) → E.changed edits.new k ≡ true → (E.changed edits.old k ≡ true) ⊎ (k ≡ inode) }
    ensures stays { StaysChanged (E.changed edits.old) (E.changed edits.new) }
    ensures size { E.size edits.new ≡ E.size edits.old }
    ensures frame { E.frame edits.new ≡ E.frame edits.old }
    ensures cause { IsCaused (E.counts edits.old) (E.counts edits.new) result }
{
    match load_inode(edits, block, inode) {
        Ok(()) => {}
        Err(fault) => return Err(fault),
    }
    put_stamp(block, stamp);
    note_words(block);
    match edits.set(inode, block) {
        Ok(()) => Ok(()),
        Err(_) => Err(BlockFault::NoMemory),
    }
}

/// Writes a node's stamp of the last change of its status. What the node is stays.
pub fn put_changed<E: Edits>(
    alloc: Global,
    sup: &Super,
    edits: &mut E,
    id: u64,
    stamp: i64,
) -> Result<(), BlockFault>
    requires valid { IsValid sup.now }
    requires size { E.size edits.old ≡ sup.now.block_size }
    ensures stamped { (v : Room) (m : ℕ → Option (List ℕ)) (tree : Tree) (lists : Lists) (loose : List ℕ) (n : Node) → E.told edits.old ≡ Some m → IsAtWork (geometry_of sup.now) v m tree lists loose → IsNode tree id n → OnOk result (IsStepped (geometry_of sup.now) v v m tree (with_changed tree id n stamp) lists loose (E.told edits.new) (E.changed edits.old) (E.changed edits.new)) }
    ensures changed { (k : ℕ) → E.changed edits.new k ≡ true → (E.changed edits.old k ≡ true) ⊎ (k ≡ id) }
    ensures stays { StaysChanged (E.changed edits.old) (E.changed edits.new) }
    ensures size { E.size edits.new ≡ E.size edits.old }
    ensures frame { E.frame edits.new ≡ E.frame edits.old }
    ensures cause { IsCaused (E.counts edits.old) (E.counts edits.new) result }
{
    let mut block = match buffer(alloc, sup) {
        Ok(block) => block,
        Err(fault) => return Err(fault),
    };
    match write_changed(edits, &mut block, id, stamp) {
        Ok(()) => Ok(()),
        Err(fault) => Err(fault),
    }
}
