// The inode of a new node is written.
ghost use Rattle.std.specs.Prelude.{◌≡◌, ◌≤◌, ◌<◌, ◌⊎◌, ℕ, List, length, Option, Some, true, OnOk, OnErr};
ghost use Rattle.bfs_inode.specs.Refusals.{Names};
ghost use Rattle.bfs_super.specs.Conditions.{IsValid, natural};
ghost use Rattle.bfs_super.specs.Geometry.{geometry_of};
ghost use Rattle.bfs_txn.specs.Faults.{IsCaused};
ghost use Rattle.bfs_txn.specs.Told.{StaysChanged};
ghost use Rattle.bfs_moves.specs.Born.{IsBornEmpty, IsBornLink};

use crate::inode::has_few_bytes;
use bfs_bytes::Run;
use bfs_fresh::{NewNode, address, fresh_block, link_block};
use bfs_super::Super;
use bfs_txn::{BlockFault, Edits};
use std::alloc::Global;

/// The blocks of a group as a power of two.
fn shift_of(sup: &Super) -> u32
    requires { IsValid sup.now }
    ensures value { result ≡ (geometry_of sup.now).shift }
    ensures few { result ≤ 16 }
{
    sup.ag_shift as u32
}

/// The address of the inode at a block of a volume.
pub(crate) fn address_in(sup: &Super, block: u64) -> Run
    requires valid { IsValid sup.now }
    requires inside { block < natural sup.now.num_blocks }
    ensures { Names result block (geometry_of sup.now).shift }
{
    address(block, shift_of(sup))
}

/// Writes a new node's inode, whose stream has no blocks, at a block.
pub(crate) fn write_empty<E: Edits>(
    alloc: Global,
    sup: &Super,
    edits: &mut E,
    block: u64,
    new: NewNode,
    name: &[u8],
) -> Result<(), BlockFault>
    requires valid { IsValid sup.now }
    requires some { 1 ≤ length name.now }
    requires short { length name.now ≤ 255 }
    requires size { E.size edits.old ≡ sup.now.block_size }
    ensures written { (m : ℕ → Option (List ℕ)) → E.told edits.old ≡ Some m → OnOk result (IsBornEmpty sup.now.block_size block new name.now m (E.told edits.new)) }
    ensures kept { OnErr result (E.told edits.new ≡ E.told edits.old) }
    ensures changed { (k : ℕ) → E.changed edits.new k ≡ true → (E.changed edits.old k ≡ true) ⊎ (k ≡ block) }
    ensures stays { StaysChanged (E.changed edits.old) (E.changed edits.new) }
    ensures set { OnOk result (E.changed edits.new block ≡ true) }
    ensures size { E.size edits.new ≡ E.size edits.old }
    ensures frame { E.frame edits.new ≡ E.frame edits.old }
    ensures cause { IsCaused (E.counts edits.old) (E.counts edits.new) result }
{
    has_few_bytes(sup);
    let bytes = match fresh_block(alloc, sup.block_size, new, name) {
        Ok(bytes) => bytes,
        Err(_) => return Err(BlockFault::NoMemory),
    };
    match edits.set(block, &bytes) {
        Ok(()) => Ok(()),
        Err(_) => Err(BlockFault::NoMemory),
    }
}

/// Writes a new link's inode at a block, with its target in the place of the stream.
pub(crate) fn write_link<E: Edits>(
    alloc: Global,
    sup: &Super,
    edits: &mut E,
    block: u64,
    new: NewNode,
    name: &[u8],
    target: &[u8],
) -> Result<(), BlockFault>
    requires valid { IsValid sup.now }
    requires some { 1 ≤ length name.now }
    requires short { length name.now ≤ 255 }
    requires target { length target.now < 144 }
    requires size { E.size edits.old ≡ sup.now.block_size }
    ensures written { (m : ℕ → Option (List ℕ)) → E.told edits.old ≡ Some m → OnOk result (IsBornLink sup.now.block_size block new name.now target.now m (E.told edits.new)) }
    ensures kept { OnErr result (E.told edits.new ≡ E.told edits.old) }
    ensures changed { (k : ℕ) → E.changed edits.new k ≡ true → (E.changed edits.old k ≡ true) ⊎ (k ≡ block) }
    ensures stays { StaysChanged (E.changed edits.old) (E.changed edits.new) }
    ensures set { OnOk result (E.changed edits.new block ≡ true) }
    ensures size { E.size edits.new ≡ E.size edits.old }
    ensures frame { E.frame edits.new ≡ E.frame edits.old }
    ensures cause { IsCaused (E.counts edits.old) (E.counts edits.new) result }
{
    has_few_bytes(sup);
    let bytes = match link_block(alloc, sup.block_size, new, name, target) {
        Ok(bytes) => bytes,
        Err(_) => return Err(BlockFault::NoMemory),
    };
    match edits.set(block, &bytes) {
        Ok(()) => Ok(()),
        Err(_) => Err(BlockFault::NoMemory),
    }
}
