// Why a node isn't right.
use bfs_finding::Finding;
use thiserror::Error;

/// A finding on the node; or there was no memory to tell it.
#[derive(Debug, Drop, Error)]
pub enum NodeFault {
    #[error("the node is not right")]
    Wrong(Finding),
    #[error("no memory was found")]
    NoMemory,
}
