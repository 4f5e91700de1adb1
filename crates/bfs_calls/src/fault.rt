// The faults of what lies below, as those of a map.
ghost use Rattle.std.specs.Prelude.{◌≡◌};
ghost use Rattle.bfs_node.specs.declared.fault.TreeFault.TheVariants as tree;
ghost use Rattle.bfs_stream.specs.declared.fault.GrowFault.TheVariants as grow;
ghost use Rattle.bfs_txn.specs.declared.fault.BlockFault.TheVariants as blocks;
ghost use Rattle.bfs_calls.specs.Faults.{of_run, put_fault, take_fault};

use bfs_bitmap::RunFault;
use bfs_node::TreeFault;
use bfs_stream::GrowFault;
use bfs_stream_pages::MapFault;
use bfs_txn::BlockFault;

/// A block could not be had.
pub fn blocked(fault: BlockFault) -> MapFault
    ensures { result ≡ tree.Pages (grow.Block fault) }
{
    TreeFault::Pages(GrowFault::Block(fault))
}

/// A block of which the bytes aren't what stands there.
pub fn damaged(block: u64) -> MapFault
    ensures { result ≡ tree.Pages (grow.Block (blocks.Damaged block)) }
{
    blocked(BlockFault::Damaged { block })
}

/// No run of blocks was taken.
pub(crate) fn no_run(fault: RunFault) -> MapFault
    ensures { result ≡ tree.Pages (of_run fault) }
{
    match fault {
        RunFault::NoRun { wanted, free } => TreeFault::Pages(GrowFault::NoRun { wanted, free }),
        RunFault::Block(fault) => blocked(fault),
    }
}

/// A row wasn't put where none was known: if it is there now, the bytes of its holder (a directory, an inode) have changed.
pub fn not_put(fault: MapFault, directory: u64) -> MapFault
    ensures { result ≡ put_fault directory fault }
{
    match fault {
        TreeFault::Exists => damaged(directory),
        other => other,
    }
}

/// A row wasn't taken that a look-up had found: if it is missing now, the bytes of its holder (a directory, an inode) have changed.
pub fn not_taken(fault: MapFault, holder: u64) -> MapFault
    ensures { result ≡ take_fault holder fault }
{
    match fault {
        TreeFault::Absent => damaged(holder),
        other => other,
    }
}
