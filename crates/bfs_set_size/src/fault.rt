// The faults of what lies below, as those of a map.
ghost use Rattle.std.specs.Prelude.{◌≡◌, ◌≤◌, ℕ, List, Option};
ghost use Rattle.bfs_bitmap.specs.Runs.{Room};
ghost use Rattle.bfs_node.specs.declared.fault.TreeFault.TheVariants as tree;
ghost use Rattle.bfs_stream.specs.declared.fault.GrowFault.TheVariants as grow;
ghost use Rattle.bfs_txn.specs.Faults.{Counts};
ghost use Rattle.bfs_stream.specs.Faults.{IsGrowCause, IsGrowFault};
ghost use Rattle.bfs_stream.specs.Grown.{room_at};
ghost use Rattle.bfs_stream.specs.Sizes.{Origin};
ghost use Rattle.bfs_stream.specs.Told.{contents};
ghost use Rattle.bfs_calls.specs.Done.{IsUnanswered, HasAnswerCause};

use bfs_node::TreeFault;
use bfs_stream::GrowFault;
use bfs_stream_pages::MapFault;
use bfs_txn::BlockFault;

/// Why a stream has not grown that has room for the blocks. If it has none, its inode isn't what was read.
pub(crate) fn not_grown(id: u64, fault: GrowFault) -> MapFault
    ensures cause { (blocks : ℕ) (old new : Counts) → IsGrowCause blocks old new fault → HasAnswerCause old new result }
    ensures unanswered { (o : Origin) (v : Room) (m : ℕ → Option (List ℕ)) (blocks : ℕ) → blocks ≤ room_at o.sizes (contents m) o.id → IsGrowFault o v m blocks fault → IsUnanswered result }
{
    match fault {
        GrowFault::NoRun { wanted, free } => TreeFault::Pages(GrowFault::NoRun { wanted, free }),
        GrowFault::Full { .. } => TreeFault::Pages(GrowFault::Block(BlockFault::Damaged {
            block: id,
        })),
        GrowFault::Block(fault) => TreeFault::Pages(GrowFault::Block(fault)),
    }
}
