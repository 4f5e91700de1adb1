// What keeps the agreement of a cache with its disk: each is the contract of a function that does nothing. The block that a write
// names is forgotten first, or wasn't kept.
ghost use Rattle.bfs_cache.specs.Agreement.{BarrierKeeps, FailedWriteKeeps, WriteKeeps};

/// A write inside of a block that isn't kept.
pub fn write_keeps()
    ensures { WriteKeeps }
{}

/// A write inside of a block that isn't kept, of which some sectors were written and others not.
pub fn failed_write_keeps()
    ensures { FailedWriteKeeps }
{}

/// A barrier.
pub fn barrier_keeps()
    ensures { BarrierKeeps }
{}
