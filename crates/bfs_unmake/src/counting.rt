// How many blocks the streams of inodes have together. Array blocks aren't counted: how many those are only the arrays themselves say.
ghost use Rattle.std.specs.Prelude.{◌≡◌, ◌≤◌, ℕ, List, min, Option, Some, IfOk, IfErr, MatchResult};
ghost use Rattle.bfs_super.specs.Conditions.{IsValid};
ghost use Rattle.bfs_super.specs.Geometry.{geometry_of};
ghost use Rattle.bfs_txn.specs.Faults.{AreLater};
ghost use Rattle.bfs_maps.specs.Refused.{HasReadCause, IsUndone};
ghost use Rattle.bfs_shift.specs.Shifts.{volume_in};
ghost use Rattle.bfs_unmake.specs.Counted.{HaveStreams, streams_among};

use crate::inodes::blocked;
use bfs_leave::stream_blocks_of;
use bfs_make::Site;
use bfs_stream_pages::MapFault;
use bfs_txn::Blocks;

/// How many blocks the streams of inodes have together, but no more than so many.
pub fn streams_length<B: Blocks>(
    site: Site,
    under: &mut B,
    ids: &[u64],
    most: u64,
) -> Result<u64, MapFault>
    requires valid { IsValid site.sup }
    requires size { B.size under.old ≡ site.sup.block_size }
    requires few { most ≤ 4259840 }
    ensures counted { (m : ℕ → Option (List ℕ)) → B.told under.old ≡ Some m → HaveStreams (geometry_of site.sup) m ids.now → MatchResult result (λ n. n ≡ min (streams_among (volume_in (geometry_of site.sup) m) ids.now) most) IsUndone }
    ensures few { IfOk result (λ n. n ≤ most) }
    ensures told { B.told under.new ≡ B.told under.old }
    ensures changed { B.changed under.new ≡ B.changed under.old }
    ensures size { B.size under.new ≡ B.size under.old }
    ensures frame { B.frame under.new ≡ B.frame under.old }
    ensures later { AreLater (B.counts under.old) (B.counts under.new) }
    ensures cause { IfErr result (HasReadCause (B.counts under.old) (B.counts under.new)) }
{
    let mut left = 0;
    for id in ids {
        let count = match stream_blocks_of(site, under, *id) {
            Ok(count) => count,
            Err(fault) => return Err(blocked(fault)),
        };
        left = (left + count.min(most)).min(most);
    }
    Ok(left)
}
