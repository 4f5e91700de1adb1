// How many bytes the stream of an inode has.
ghost use Rattle.std.specs.Prelude.{◌≡◌, ◌≤◌, ◌<◌, ◌%◌, ℕ, pos, List, length, None, Option, Some, IfOk, IfErr, IsSome, IfSome};
ghost use Rattle.bfs_inode.specs.Inode.{stream_at};
ghost use Rattle.bfs_super.specs.Conditions.{IsValid, natural};
ghost use Rattle.bfs_txn.specs.Faults.{AreLater};
ghost use Rattle.bfs_stream.specs.Told.{contents};
ghost use Rattle.bfs_stream.specs.Faults.{IsGrowCause};
ghost use Rattle.bfs_stream_pages.specs.Causes.{IsOfBlock};
ghost use Rattle.bfs_stream_pages.specs.Held.{IsInodeOf};
ghost use Rattle.bfs_maps.specs.Mapped.{origin_of};
ghost use Rattle.bfs_maps.specs.Refused.{IsUnsized};

use crate::TreeAt;
use bfs_inode::InodeView;
use bfs_stream::GrowFault;
use bfs_txn::{BlockFault, Blocks};

/// What is known of a stream whose inode was read.
#[derive(Debug, Drop)]
pub struct Opened {
    /// Its size in bytes.
    pub length: u64,
    /// The bytes of the inode's block.
    pub inode: Vec<u8>,
}

/// A size of whole pages.
fn whole_pages(size: i64) -> Option<u64>
    ensures is { IfSome result (λ n. (size ≡ pos n) × (n % 1024 ≡ 0)) }
    ensures none { result ≡ None → (n : ℕ) → size ≡ pos n → n % 1024 ≡ 0 → ⊥ }
{
    if size < 0 {
        return None;
    }
    let bytes = size as u64;
    if bytes % 1024 == 0 { Some(bytes) } else { None }
}

/// The size of the stream of an inode, by its block, where it is of whole pages.
fn size_in(block: &[u8]) -> Option<u64>
    requires { 1024 ≤ length block.now }
    ensures is { IfSome result (λ n. ((stream_at block.now).size ≡ pos n) × (n % 1024 ≡ 0)) }
    ensures none { result ≡ None → (n : ℕ) → (stream_at block.now).size ≡ pos n → n % 1024 ≡ 0 → ⊥ }
{
    whole_pages(InodeView::over(block).size())
}

/// The size of the stream that a tree stands in, which is of whole pages, and its inode as it was read.
pub fn stream_size<B: Blocks>(tree: TreeAt, under: &mut B) -> Result<Opened, GrowFault>
    requires valid { IsValid tree.sup }
    requires size { B.size under.old ≡ tree.sup.block_size }
    ensures whole { IfOk result (λ o. o.length % 1024 ≡ 0) }
    ensures found { (m : ℕ → Option (List ℕ)) → B.told under.old ≡ Some m → IsSome (m tree.inode) → IfOk result (λ o. (stream_at (contents m tree.inode)).size ≡ pos o.length) }
    ensures inode { IfOk result (λ o. IsInodeOf (origin_of tree) (B.told under.new) o.inode.items) }
    ensures refused { (m : ℕ → Option (List ℕ)) → B.told under.old ≡ Some m → IsSome (m tree.inode) → IfErr result (IsUnsized (origin_of tree) m) }
    ensures told { B.told under.new ≡ B.told under.old }
    ensures changed { B.changed under.new ≡ B.changed under.old }
    ensures pairs { B.pairs under.new ≡ B.pairs under.old }
    ensures size { B.size under.new ≡ B.size under.old }
    ensures frame { B.frame under.new ≡ B.frame under.old }
    ensures later { AreLater (B.counts under.old) (B.counts under.new) }
    ensures block { IfErr result IsOfBlock }
    ensures cause { IfErr result (IsGrowCause 1 (B.counts under.old) (B.counts under.new)) }
{
    let mut bytes = match vec![in tree.alloc; 0u8; tree.sup.block_size as usize] {
        Ok(bytes) => bytes,
        Err(_) => return Err(GrowFault::Block(BlockFault::NoMemory)),
    };
    match under.get(tree.inode, &mut bytes) {
        Ok(()) => {}
        Err(fault) => return Err(GrowFault::Block(fault)),
    }
    match size_in(&bytes) {
        Some(length) => Ok(Opened {
            length,
            inode: bytes,
        }),
        None => Err(GrowFault::Block(BlockFault::Damaged { block: tree.inode })),
    }
}
