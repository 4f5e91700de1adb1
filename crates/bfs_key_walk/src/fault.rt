// The faults of what reads a node's attributes, as those of a check.
ghost use Rattle.bfs_txn.specs.Faults.{Counts};
ghost use Rattle.bfs_maps.specs.Refused.{IsUndone, HasReadCause};
ghost use Rattle.bfs_inode_walk.specs.Visited.{IsVisitCause};
ghost use Rattle.bfs_key_walk.specs.Gathered.{IsUnread};

use bfs_finding::{Finding, InodePart};
use bfs_inode_walk::VisitFault;
use bfs_node::TreeFault;
use bfs_stream::GrowFault;
use bfs_stream_pages::MapFault;
use bfs_txn::BlockFault;

/// What was read of a node isn't what was gone over before: only a disk that doesn't tell what it holds does so.
fn changed_since(id: u64) -> VisitFault
    ensures cause { (old new : Counts) → IsVisitCause old new result }
{
    VisitFault::Wrong(Finding::Inode {
        block: id,
        part: InodePart::SmallData,
        found: 0,
    })
}

/// A node's attributes could not be read.
pub(crate) fn unread(id: u64, fault: MapFault) -> VisitFault
    ensures unread { IsUndone fault → IsUnread result }
    ensures cause { (old new : Counts) → HasReadCause old new fault → IsVisitCause old new result }
{
    match fault {
        TreeFault::NoMemory => VisitFault::Block(BlockFault::NoMemory),
        TreeFault::Pages(GrowFault::Block(BlockFault::Disk { before, after })) => {
            VisitFault::Block(BlockFault::Disk { before, after })
        }
        TreeFault::Pages(GrowFault::Block(BlockFault::Stopped { durable, faults })) => {
            VisitFault::Block(BlockFault::Stopped { durable, faults })
        }
        TreeFault::Pages(GrowFault::Block(BlockFault::NoMemory)) => {
            VisitFault::Block(BlockFault::NoMemory)
        }
        _ => changed_since(id),
    }
}
