// The inode of a node is read, and written.
ghost use Rattle.std.specs.Prelude.{◌≡◌, ◌≤◌, ◌⊎◌, ℕ, List, length, Option, Some, true, IsSome, OnOk, OnErr, IfOk, IfErr};
ghost use Rattle.bfs_inode.specs.Inode.{inode_at, stream_at};
ghost use Rattle.bfs_super.specs.Conditions.{IsValid};
ghost use Rattle.bfs_node.specs.declared.fault.TreeFault.TheVariants as tree;
ghost use Rattle.bfs_txn.specs.Faults.{AreLater, IsCaused};
ghost use Rattle.bfs_txn.specs.Told.{StaysChanged};
ghost use Rattle.bfs_stream.specs.Told.{contents};
ghost use Rattle.bfs_stream.specs.declared.fault.GrowFault.TheVariants as grow;
ghost use Rattle.bfs_make.specs.Refused.{IsUndone, HasPutCause, HasReadCause};
ghost use Rattle.bfs_index.specs.Refused.{HasPairCause};
ghost use Rattle.bfs_shift.specs.Stocked.{HasWords};
ghost use Rattle.bfs_moves.specs.Written.{IsRestamped, HasBlockWords};

use bfs_bytes::u32_at;
use bfs_inode::InodeMut;
use bfs_node::TreeFault;
use bfs_stream::GrowFault;
use bfs_stream_pages::MapFault;
use bfs_super::Super;
use bfs_txn::{BlockFault, Blocks, Edits};
use std::alloc::Global;

/// Room for a block.
#[tactic(auto, using(bfs_shift::proofs::Basics::least_bytes))]
pub fn buffer(alloc: Global, sup: &Super) -> Result<Vec<u8>, BlockFault>
    requires valid { IsValid sup.now }
    ensures length { IfOk result (λ v. length v.items ≡ sup.now.block_size) }
    ensures long { IfOk result (λ v. 1024 ≤ length v.items) }
    ensures fault { IfErr result (λ fault. fault ≡ BlockFault.NoMemory) }
{
    match vec![in alloc; 0u8; sup.block_size as usize] {
        Ok(bytes) => Ok(bytes),
        Err(_) => Err(BlockFault::NoMemory),
    }
}

/// A block of a volume has at least 1,024 bytes and at most 8,192.
pub(crate) fn has_few_bytes(sup: &Super)
    requires { IsValid sup.now }
    ensures least { 1024 ≤ sup.now.block_size }
    ensures most { sup.now.block_size ≤ 8192 }
{
    let _ = sup;
}

/// The mode and the flags in a block of bytes take four bytes.
pub(crate) fn note_words(block: &[u8])
    requires { 1024 ≤ length block.now }
    ensures { HasWords block.now }
{
    let _mode = u32_at(block, 20);
    let _flags = u32_at(block, 24);
}

/// Reads the inode at a block.
pub fn load_inode<B: Blocks>(under: &mut B, block: &mut [u8], inode: u64) -> Result<(), BlockFault>
    requires size { length block.old ≡ B.size under.old }
    requires long { 1024 ≤ length block.old }
    ensures read { (m : ℕ → Option (List ℕ)) → B.told under.old ≡ Some m → IsSome (m inode) → OnOk result (block.new ≡ contents m inode) }
    ensures words { OnOk result (HasWords block.new) }
    ensures length { length block.new ≡ length block.old }
    ensures told { B.told under.new ≡ B.told under.old }
    ensures changed { B.changed under.new ≡ B.changed under.old }
    ensures size { B.size under.new ≡ B.size under.old }
    ensures frame { B.frame under.new ≡ B.frame under.old }
    ensures cause { IsCaused (B.counts under.old) (B.counts under.new) result }
{
    match under.get(inode, block) {
        Ok(()) => {}
        Err(fault) => return Err(fault),
    }
    note_words(block);
    Ok(())
}

/// Writes the stamp of the last change of the content.
fn set_modified(block: &mut [u8], stamp: i64)
    requires { 1024 ≤ length block.old }
    ensures length { length block.new ≡ length block.old }
    ensures inode { inode_at block.new ≡ record (inode_at block.old) { last_modified_time = stamp } }
    ensures stream { stream_at block.new ≡ stream_at block.old }
{
    let mut inode = InodeMut::over(block);
    inode.set_last_modified_time(stamp);
}

/// Writes the stamp of the last change of the content into the inode at a block.
pub(crate) fn write_stamp<E: Edits>(
    edits: &mut E,
    block: &mut [u8],
    inode: u64,
    stamp: i64,
) -> Result<(), BlockFault>
    requires size { length block.old ≡ E.size edits.old }
    requires long { 1024 ≤ length block.old }
    ensures written { (m : ℕ → Option (List ℕ)) → E.told edits.old ≡ Some m → IsSome (m inode) → OnOk result (IsRestamped inode stamp m (E.told edits.new)) }
    ensures kept { OnErr result (E.told edits.new ≡ E.told edits.old) }
    ensures changed { (k : ℕ) → E.changed edits.new k ≡ true → (E.changed edits.old k ≡ true) ⊎ (k ≡ inode) }
    ensures stays { StaysChanged (E.changed edits.old) (E.changed edits.new) }
    ensures size { E.size edits.new ≡ E.size edits.old }
    ensures frame { E.frame edits.new ≡ E.frame edits.old }
    ensures cause { IsCaused (E.counts edits.old) (E.counts edits.new) result }
{
    match load_inode(edits, block, inode) {
        Ok(()) => {}
        Err(fault) => return Err(fault),
    }
    set_modified(block, stamp);
    note_words(block);
    match edits.set(inode, block) {
        Ok(()) => Ok(()),
        Err(_) => Err(BlockFault::NoMemory),
    }
}

/// The fault of a map that a block's fault is.
fn of_block(fault: BlockFault) -> MapFault
    ensures { result ≡ tree.Pages (grow.Block fault) }
{
    TreeFault::Pages(GrowFault::Block(fault))
}

/// Reads the inode at a block, of which then is known that its mode and its flags take four bytes each.
pub fn check_inode<B: Blocks>(
    alloc: Global,
    sup: &Super,
    under: &mut B,
    inode: u64,
) -> Result<(), MapFault>
    requires valid { IsValid sup.now }
    requires size { B.size under.old ≡ sup.now.block_size }
    ensures words { (m : ℕ → Option (List ℕ)) → B.told under.old ≡ Some m → IsSome (m inode) → OnOk result (HasBlockWords (contents m inode)) }
    ensures undone { IfErr result IsUndone }
    ensures told { B.told under.new ≡ B.told under.old }
    ensures changed { B.changed under.new ≡ B.changed under.old }
    ensures size { B.size under.new ≡ B.size under.old }
    ensures frame { B.frame under.new ≡ B.frame under.old }
    ensures later { AreLater (B.counts under.old) (B.counts under.new) }
    ensures cause { IfErr result (HasPutCause (B.counts under.old) (B.counts under.new)) }
    ensures read_cause { IfErr result (HasReadCause (B.counts under.old) (B.counts under.new)) }
    ensures pair_cause { IfErr result (HasPairCause (B.counts under.old) (B.counts under.new)) }
{
    let mut block = match buffer(alloc, sup) {
        Ok(block) => block,
        Err(_) => return Err(TreeFault::NoMemory),
    };
    match load_inode(under, &mut block, inode) {
        Ok(()) => Ok(()),
        Err(fault) => Err(of_block(fault)),
    }
}
