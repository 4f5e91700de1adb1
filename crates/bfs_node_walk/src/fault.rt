// What is wrong with a tree in a stream, as a finding on its inode.
ghost use Rattle.std.specs.Prelude.{◌≡◌, ℕ, List};
ghost use Rattle.bfs_base.specs.declared.kind.KeyKind.{KeyKind};
ghost use Rattle.bfs_txn.specs.Faults.{Counts};
ghost use Rattle.bfs_stream.specs.Faults.{IsCauseIn, IsGrowCause};
ghost use Rattle.bfs_stream.specs.Scans.{IsDamage};
ghost use Rattle.bfs_stream_pages.specs.Steps.{IsUndamaged};
ghost use Rattle.bfs_sound.specs.Volumes.{Volume};
ghost use Rattle.bfs_sound.specs.Inodes.{content};
ghost use Rattle.bfs_finding.specs.Findings.{IsBroken, IsStreamOf};
ghost use Rattle.bfs_finding.specs.TreeFaults.{HasTree};
ghost use Rattle.bfs_walk.specs.Wrong.{IsWalkCause};
ghost use Rattle.bfs_tree_check.specs.Amiss.{IsAmissIn, IsAmiss};
ghost use Rattle.bfs_inode_walk.specs.Visited.{IsTrueOf, IsUntaken, IsVisitCause};

use bfs_finding::Finding;
use bfs_inode_walk::VisitFault;
use bfs_stream::GrowFault;
use bfs_txn::BlockFault;
use bfs_walk::{TreeWrong, WalkFault};

/// The finding on a tree.
fn finding_of(owner: u64, wrong: TreeWrong) -> Finding
    ensures { (v : Volume) (kind : KeyKind) → HasTree v owner kind → IsStreamOf v owner → IsAmissIn kind (content v owner) wrong → IsBroken v result }
{
    match wrong {
        TreeWrong::Page { page, part } => Finding::TreePage { owner, page, part },
        TreeWrong::Link {
            page,
            found,
            wanted,
        } => Finding::TreeLink {
            owner,
            page,
            found,
            wanted,
        },
        TreeWrong::Order { page, index } => Finding::TreeOrder { owner, page, index },
    }
}

/// A block of a stream that could not be had. What was found whole is damaged only on a disk that doesn't tell what it holds.
fn block_fault(owner: u64, fault: BlockFault) -> VisitFault
    ensures wrong { (v : Volume) → ¬ IsDamage fault → IsTrueOf v result }
    ensures cause { (old new : Counts) → IsCauseIn old new fault → IsVisitCause old new result }
    ensures untaken { IsUntaken result }
{
    match fault {
        BlockFault::Disk { before, after } => VisitFault::Block(BlockFault::Disk { before, after }),
        BlockFault::Stopped { durable, faults } => {
            VisitFault::Block(BlockFault::Stopped { durable, faults })
        }
        BlockFault::Damaged { .. } => VisitFault::Wrong(Finding::Stream {
            owner,
            found: 0,
            wanted: 0,
        }),
        BlockFault::NoMemory => VisitFault::Block(BlockFault::NoMemory),
    }
}

/// A page of a stream that could not be had.
pub fn page_fault(owner: u64, fault: GrowFault) -> VisitFault
    ensures wrong { (v : Volume) → IsUndamaged fault → IsTrueOf v result }
    ensures cause { (old new : Counts) → IsGrowCause 1 old new fault → IsVisitCause old new result }
    ensures untaken { IsUntaken result }
{
    match fault {
        GrowFault::NoRun { .. } => VisitFault::Block(BlockFault::NoMemory),
        GrowFault::Full { .. } => VisitFault::Block(BlockFault::NoMemory),
        GrowFault::Block(fault) => block_fault(owner, fault),
    }
}

/// Why a tree could not be gone over.
pub fn tree_fault(owner: u64, fault: WalkFault<GrowFault>) -> VisitFault
    ensures wrong { (v : Volume) (kind : KeyKind) → HasTree v owner kind → IsStreamOf v owner → IsAmiss kind (content v owner) fault → IsWalkCause IsUndamaged fault → IsTrueOf v result }
    ensures cause { (old new : Counts) → IsWalkCause (IsGrowCause 1 old new) fault → IsVisitCause old new result }
    ensures untaken { IsUntaken result }
{
    match fault {
        WalkFault::Wrong(wrong) => VisitFault::Wrong(finding_of(owner, wrong)),
        WalkFault::Pages(fault) => page_fault(owner, fault),
        WalkFault::NoMemory => VisitFault::Block(BlockFault::NoMemory),
    }
}
