// Why a volume isn't passed.
ghost use Rattle.std.specs.Prelude.{◌≡◌};
ghost use Rattle.bfs_super.specs.declared.sup.Super.{Super};
ghost use Rattle.bfs_txn.specs.Faults.{Counts};
ghost use Rattle.bfs_tree.specs.Trees.{Tree};
ghost use Rattle.bfs_sound.specs.Volumes.{Volume};
ghost use Rattle.bfs_finding.specs.Findings.{Standing};
ghost use Rattle.bfs_inode_walk.specs.Visited.{IsTrueOf, IsVisitCause};
ghost use Rattle.bfs_indices_check.specs.Listed.{IsTrueWith};
ghost use Rattle.bfs_passes.specs.Passed.{IsFaultOf, IsPassCause, IsSharedIn};

use bfs_finding::Finding;
use bfs_inode_walk::VisitFault;
use bfs_txn::BlockFault;
use thiserror::Error;

/// A finding; or a block that could not be had, or there was no memory.
#[derive(Debug, Drop, Error)]
pub enum PassFault {
    #[error("the volume is not whole")]
    Wrong(Finding),
    #[error("{0}")]
    Block(BlockFault),
}

/// The finding on a block with two owners.
pub(crate) fn shared(block: u64, first: u64, second: u64) -> Finding
    ensures { result ≡ Finding.Shared block first second }
{
    Finding::Shared {
        block,
        first,
        second,
    }
}

/// What a walk over nodes and their attributes has found, where the blocks of the system were claimed before.
pub(crate) fn walked(fault: VisitFault) -> PassFault
    ensures told { (s : Super) (v : Volume) → s.log_start ≡ s.log_end → IsTrueOf v fault → IsSharedIn v fault → IsFaultOf s v result }
    ensures cause { (old new : Counts) → IsVisitCause old new fault → IsPassCause old new result }
{
    match fault {
        VisitFault::Wrong(finding) => PassFault::Wrong(finding),
        VisitFault::Taken { block, owner } => PassFault::Wrong(shared(block, 0, owner)),
        VisitFault::Block(fault) => PassFault::Block(fault),
    }
}

/// What was found of the indices, on a volume on which a tree stands.
pub(crate) fn listed(fault: VisitFault) -> PassFault
    ensures told { (s : Super) (v : Volume) (tree : Tree) → s.log_start ≡ s.log_end → Standing v tree → IsTrueWith v tree fault → IsFaultOf s v result }
    ensures cause { (old new : Counts) → IsVisitCause old new fault → IsPassCause old new result }
{
    match fault {
        VisitFault::Wrong(finding) => PassFault::Wrong(finding),
        VisitFault::Taken { block, owner } => PassFault::Wrong(shared(block, 0, owner)),
        VisitFault::Block(fault) => PassFault::Block(fault),
    }
}
