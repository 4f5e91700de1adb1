// What is known of the free space beside the bits.
ghost use Rattle.std.specs.Prelude.{◌≡◌, ◌≤◌, ◌+◌};
ghost use Rattle.bfs_bitmap.specs.Tallies.{first_tally, lowered, lowered_by, raised, place_for};

use crate::Given;
use crate::given::has_left;

/// How many blocks are used, and where searches may begin: nothing is free below `low`, and no free run of `wide`
/// blocks begins below `wide_low`.
#[derive(Clone, Copy)]
pub struct Tally {
    pub low: u64,
    pub used: u64,
    pub wide: u64,
    pub wide_low: u64,
}

/// With so many used blocks, before any search.
pub fn first(used: u64) -> Tally
    ensures { result ≡ first_tally used }
{
    Tally {
        low: 0,
        used,
        wide: 0,
        wide_low: 0,
    }
}

/// Where a search for a run of so many blocks may begin.
pub fn start_for(tally: Tally, wanted: u64) -> u64
    ensures { result ≡ place_for wanted tally }
{
    if tally.wide <= wanted {
        tally.low.max(tally.wide_low)
    } else {
        tally.low
    }
}

/// After a run was taken that the lowest search for so many blocks has found.
pub fn raise(tally: Tally, wanted: u64, first: u64, len: u64, low: u64, blocks: u64) -> Tally
    requires inside { first + len ≤ blocks }
    requires few { blocks ≤ 4194304 }
    requires used { tally.used ≤ blocks }
    ensures { result ≡ raised wanted first len low blocks tally }
{
    let end = first + len;
    Tally {
        low: if low == first { end } else { low },
        used: (tally.used + len).min(blocks),
        wide: if wanted > 1 { wanted } else { tally.wide },
        wide_low: if wanted > 1 { end } else { tally.wide_low },
    }
}

/// Where a run from a block on becomes free, that block may be free, and a wide run may reach into it.
fn lower(tally: Tally, first: u64) -> Tally
    ensures { result ≡ lowered first tally }
{
    Tally {
        low: tally.low.min(first),
        used: tally.used,
        wide: tally.wide,
        wide_low: tally
            .wide_low
            .min(first.saturating_sub(tally.wide.saturating_sub(1))),
    }
}

/// After all runs became free whose group has left the log.
pub fn lower_all(tally: Tally, given: &[Given], group: u64) -> Tally
    ensures { result ≡ lowered_by group given.now tally }
{
    let mut now = tally;
    for i in 0..given.len() {
        let run = given[i];
        if has_left(run, group) {
            now = lower(now, run.first);
        }
    }
    now
}
