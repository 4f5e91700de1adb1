// Who is told how far a run has come.

/// Is told how far a run has come. It answers nothing, so that no result depends on it.
pub trait Watcher {
    /// So many lines of all were run. There are so many entries behind them, and so many groups became durable since the volume was mounted.
    fn lines(&self, done: u64, all: u64, entries: u64, groups: u64);
}

/// Nobody is told.
#[derive(Clone, Copy)]
pub struct Unwatched;

impl Watcher for Unwatched {
    fn lines(&self, _done: u64, _all: u64, _entries: u64, _groups: u64) {}
}
