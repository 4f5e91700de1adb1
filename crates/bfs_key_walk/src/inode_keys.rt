// The keys of the root, as those of a file would be: its inode is read for them.
ghost use Rattle.std.specs.Prelude.{◌≡◌, ◌<◌, ℕ, List, Option, Some, IfOk, IfErr};
ghost use Rattle.bfs_super.specs.Conditions.{IsValid, natural};
ghost use Rattle.bfs_txn.specs.Faults.{AreLater};
ghost use Rattle.bfs_stream.specs.Sizes.{sizes_of};
ghost use Rattle.bfs_stream.specs.Told.{contents};
ghost use Rattle.bfs_stream_check.specs.Known.{IsAllTold};
ghost use Rattle.bfs_tree.specs.Trees.{Node};
ghost use Rattle.bfs_sound.specs.Nodes.{HasNode};
ghost use Rattle.bfs_sound.specs.Whole.{volume_of};
ghost use Rattle.bfs_inode_walk.specs.Visited.{IsVisitCause};
ghost use Rattle.bfs_key_walk.specs.Gathered.{IsUnread};
ghost use Rattle.bfs_nodes_walk.specs.Facts.{keys_of};

use bfs_inode_walk::{VisitFault, read_block};
use bfs_nodes_walk::{FileKeys, keys_in};
use bfs_super::Super;
use bfs_txn::Blocks;
use std::alloc::Global;

/// The keys of the node at a block, if it is a file.
pub(crate) fn read_keys<B: Blocks>(
    alloc: Global,
    under: &mut B,
    sup: &Super,
    id: u64,
) -> Result<Option<FileKeys>, VisitFault>
    requires valid { IsValid sup.now }
    requires inside { id < natural sup.now.num_blocks }
    requires size { B.size under.old ≡ sup.now.block_size }
    requires all { (m : ℕ → Option (List ℕ)) → B.told under.old ≡ Some m → IsAllTold (sizes_of sup.now) m }
    ensures keys { (m : ℕ → Option (List ℕ)) (n : Node) → B.told under.old ≡ Some m → HasNode (volume_of sup.now (contents m)) id n → IfOk result (λ k. k ≡ keys_of n) }
    ensures unread { IfErr result IsUnread }
    ensures told { B.told under.new ≡ B.told under.old }
    ensures changed { B.changed under.new ≡ B.changed under.old }
    ensures pairs { B.pairs under.new ≡ B.pairs under.old }
    ensures size { B.size under.new ≡ B.size under.old }
    ensures frame { B.frame under.new ≡ B.frame under.old }
    ensures later { AreLater (B.counts under.old) (B.counts under.new) }
    ensures cause { IfErr result (IsVisitCause (B.counts under.old) (B.counts under.new)) }
{
    let block = match read_block(alloc, under, *sup, id) {
        Ok(block) => block,
        Err(fault) => return Err(VisitFault::Block(fault)),
    };
    Ok(keys_in(&block))
}

/// The number that a row names.
pub(crate) fn number_of(value: i64) -> u64
    ensures { result ≡ natural value }
{
    if value < 0 { 0 } else { value as u64 }
}
