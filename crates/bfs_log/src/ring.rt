// The arithmetic of the ring.
ghost use Rattle.std.specs.Prelude.{◌≡◌, ◌<◌, ◌≤◌, ◌+◌, ◌%◌};
ghost use Rattle.bfs_log.specs.Ring.{next_place, in_use};

/// The place so many blocks on. Places count from the log's first block and wrap at its length.
pub fn ring_next(at: u64, by: u64, length: u64) -> u64
    requires at { at < length }
    requires by { by ≤ length }
    requires length { length ≤ 65535 }
    ensures value { result ≡ next_place at by length }
    ensures modulo { result ≡ (at + by) % length }
    ensures inside { result < length }
{
    if at + by < length {
        at + by
    } else {
        at + by - length
    }
}

/// The number of blocks in use from one place to another. Equal places mean none.
pub fn ring_used(start: u64, end: u64, length: u64) -> u64
    requires start { start < length }
    requires end { end < length }
    requires length { length ≤ 65535 }
    ensures value { result ≡ in_use start end length }
    ensures inside { result < length }
    // So many blocks on from the start is the end.
    ensures round { next_place start result length ≡ end }
{
    if start <= end {
        end - start
    } else {
        end + length - start
    }
}
