// The block of an inode is read.
ghost use Rattle.std.specs.Prelude.{◌≡◌, ◌≤◌, ℕ, List, length, Option, Some, IsSome, IfOk, IfErr};
ghost use Rattle.bfs_super.specs.Conditions.{IsValid, natural};
ghost use Rattle.bfs_txn.specs.Faults.{AreLater};
ghost use Rattle.bfs_stream.specs.Told.{contents};
ghost use Rattle.bfs_make.specs.Refused.{IsUndone, HasReadCause};

use bfs_node::TreeFault;
use bfs_stream::GrowFault;
use bfs_stream_pages::MapFault;
use bfs_super::Super;
use bfs_txn::{BlockFault, Blocks};
use std::alloc::Global;

/// A volume that is read: its superblock, and what memory is taken from.
#[derive(Clone, Copy)]
pub struct Site {
    pub alloc: Global,
    pub sup: Super,
}

/// A number that isn't negative, or 0.
pub(crate) fn natural_long(value: i64) -> u64
    ensures { result ≡ natural value }
{
    if value < 0 { 0 } else { value as u64 }
}

/// The number of a volume's blocks.
pub(crate) fn blocks_in(sup: Super) -> u64
    ensures { result ≡ natural sup.num_blocks }
{
    natural_long(sup.num_blocks)
}

/// A number that isn't negative, or 0.
fn natural_int(value: i32) -> u32
    ensures { result ≡ natural value }
{
    if value < 0 { 0 } else { value as u32 }
}

/// A group has 2 to this power of blocks.
#[tactic(auto, using(crate::proofs::Blocks::small_shift))]
pub(crate) fn shift_of(sup: Super) -> u32
    requires { IsValid sup }
    ensures value { result ≡ natural sup.ag_shift }
    ensures small { result ≤ 16 }
{
    natural_int(sup.ag_shift)
}

/// A block of a volume has at least 1,024 bytes.
#[tactic(auto, using(crate::proofs::Blocks::least_bytes))]
fn has_long_blocks(sup: Super)
    requires { IsValid sup }
    ensures { 1024 ≤ sup.block_size }
{
    let _ = sup;
}

/// A block isn't what it has to be.
pub(crate) fn damaged(block: u64) -> MapFault
    ensures { result ≡ TreeFault.Pages (GrowFault.Block (BlockFault.Damaged block)) }
{
    TreeFault::Pages(GrowFault::Block(BlockFault::Damaged { block }))
}

/// The bytes of a block.
pub(crate) fn read_block<B: Blocks>(
    site: Site,
    under: &mut B,
    number: u64,
) -> Result<Vec<u8>, MapFault>
    requires valid { IsValid site.sup }
    requires size { B.size under.old ≡ site.sup.block_size }
    ensures length { IfOk result (λ v. length v.items ≡ site.sup.block_size) }
    ensures long { 1024 ≤ site.sup.block_size }
    ensures read { (m : ℕ → Option (List ℕ)) → B.told under.old ≡ Some m → IsSome (m number) → IfOk result (λ v. v.items ≡ contents m number) }
    ensures undone { IfErr result IsUndone }
    ensures told { B.told under.new ≡ B.told under.old }
    ensures changed { B.changed under.new ≡ B.changed under.old }
    ensures pairs { B.pairs under.new ≡ B.pairs under.old }
    ensures size { B.size under.new ≡ B.size under.old }
    ensures frame { B.frame under.new ≡ B.frame under.old }
    ensures later { AreLater (B.counts under.old) (B.counts under.new) }
    ensures cause { IfErr result (HasReadCause (B.counts under.old) (B.counts under.new)) }
{
    has_long_blocks(site.sup);
    let mut bytes = match vec![in site.alloc; 0u8; site.sup.block_size as usize] {
        Ok(bytes) => bytes,
        Err(_) => return Err(TreeFault::NoMemory),
    };
    match under.get(number, &mut bytes) {
        Ok(()) => Ok(bytes),
        Err(fault) => Err(TreeFault::Pages(GrowFault::Block(fault))),
    }
}
