// The faults of reading, and the size in an inode.
ghost use Rattle.std.specs.Prelude.{◌≡◌, ◌≤◌, ℕ, pos, length, None, IfSome};
ghost use Rattle.bfs_inode.specs.Inode.{stream_at};

use bfs_inode::InodeView;
use bfs_node::TreeFault;
use bfs_stream::GrowFault;
use bfs_stream_pages::MapFault;
use bfs_txn::BlockFault;

/// A block could not be had.
pub(crate) fn blocked(fault: BlockFault) -> MapFault
    ensures { result ≡ TreeFault.Pages (GrowFault.Block fault) }
{
    TreeFault::Pages(GrowFault::Block(fault))
}

/// A block is damaged.
pub(crate) fn damaged(block: u64) -> MapFault
    ensures { result ≡ TreeFault.Pages (GrowFault.Block (BlockFault.Damaged block)) }
{
    blocked(BlockFault::Damaged { block })
}

/// A size that isn't negative.
fn natural_size(size: i64) -> Option<u64>
    ensures some { IfSome result (λ n. size ≡ pos n) }
    ensures none { result ≡ None → (n : ℕ) → size ≡ pos n → ⊥ }
{
    if size < 0 { None } else { Some(size as u64) }
}

/// The size of the stream of an inode, by its block.
pub(crate) fn size_in(block: &[u8]) -> Option<u64>
    requires { 1024 ≤ length block.now }
    ensures some { IfSome result (λ n. (stream_at block.now).size ≡ pos n) }
    ensures none { result ≡ None → (n : ℕ) → (stream_at block.now).size ≡ pos n → ⊥ }
{
    natural_size(InodeView::over(block).size())
}
