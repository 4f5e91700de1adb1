// Stamps: seconds in the upper 48 bits, and strictly rising along a history.
ghost use Rattle.std.specs.Prelude.{◌≡◌, ◌<◌, ◌^◌, ◌≤ℤ◌, ◌<ℤ◌, pos};
ghost use Rattle.bfs_tree.specs.Histories.{drawn};

/// The stamp of the next entry: the seconds of the clock in the upper 48 bits, or one more than the last stamp, whichever is
/// greater.
pub fn draw(last: i64, now: u64) -> i64
    requires low { pos 0 ≤ℤ last }
    requires high { last <ℤ pos (2 ^ 62) }
    requires now { now < 2 ^ 40 }
    ensures { result ≡ drawn last now }
{
    (last + 1).max((now * 65536) as i64)
}
