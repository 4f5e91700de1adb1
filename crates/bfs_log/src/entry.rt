// Entries of the log.
use bfs_bytes::Run;
use bfs_super::Geometry;
use thiserror::Error;

/// A place in a volume's log, and the log's end. Both count blocks from the log's first block.
#[derive(Clone, Copy, Debug)]
pub struct Place {
    pub geometry: Geometry,
    /// The blocks of the log.
    pub length: u64,
    pub start: u64,
    pub end: u64,
}

/// The first condition that an entry breaks.
#[derive(Clone, Copy, Debug, PartialEq, Eq, Error)]
pub enum EntryFault {
    /// The count isn't 1 to 127, or max_runs isn't from the count to 127.
    #[error("an entry of the log counts {count} runs of at most {max_runs}")]
    Count { count: i32, max_runs: i32 },
    /// A run is empty, leaves its group or the volume, or names block 0 or a block of the log.
    #[error("an entry of the log names a run that can't be written home")]
    RunPlace { run: Run },
    /// The array block and the blocks that it names are more than what is in use up to the log's end.
    #[error("an entry of the log needs {blocks} blocks where {room} are in use")]
    PastEnd { blocks: u64, room: u64 },
}

/// The runs of an entry. Behind the count they are zero.
#[derive(Clone, Copy, Debug)]
pub struct Runs {
    pub count: usize,
    pub runs: [Run; 127],
}
