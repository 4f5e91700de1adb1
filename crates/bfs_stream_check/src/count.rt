// Counts the blocks of runs.
ghost use Rattle.std.specs.Prelude.{◌≡◌, ◌≤◌, ◌*◌, length};
ghost use Rattle.bfs_stream.specs.Sizes.{Sizes};
ghost use Rattle.bfs_stream.specs.Places.{blocks_of};

use bfs_bytes::Run;

/// The blocks of a run.
fn length_of(run: Run) -> u64
    ensures value { result ≡ run.len }
    ensures few { result ≤ 65535 }
{
    u64::from(run.len)
}

/// How many blocks the runs have together, which are at most 2 ^ 28.
pub(crate) fn count_blocks(runs: &[Run]) -> u64
    requires { length runs.now ≤ 268435456 }
    ensures value { (s : Sizes) → result ≡ length (blocks_of s runs.now) }
    ensures few { result ≤ 65535 * length runs.now }
{
    let mut count = 0;
    for i in 0..runs.len() {
        let run = runs[i];
        count += length_of(run);
    }
    count
}
