// How many blocks the streams of a node have. Array blocks aren't counted: how many those are only the arrays themselves say.
ghost use Rattle.std.specs.Prelude.{◌≡◌, ◌≤◌, ◌<◌, ℕ, List, min, Option, Some, IfOk, IfErr, MatchResult};
ghost use Rattle.bfs_super.specs.Conditions.{IsValid, natural};
ghost use Rattle.bfs_super.specs.Geometry.{geometry_of};
ghost use Rattle.bfs_bitmap.specs.Runs.{Room};
ghost use Rattle.bfs_txn.specs.Faults.{AreLater};
ghost use Rattle.bfs_tree.specs.Trees.{Node, Tree, IsNode};
ghost use Rattle.bfs_maps.specs.Refused.{HasReadCause, IsUndone};
ghost use Rattle.bfs_sound.specs.Owners.{node_owners};
ghost use Rattle.bfs_shift.specs.Lists.{Lists};
ghost use Rattle.bfs_shift.specs.Shifts.{volume_in};
ghost use Rattle.bfs_look.specs.Ready.{IsReady};
ghost use Rattle.bfs_calls.specs.Allowances.{left_alone};
ghost use Rattle.bfs_unlist.specs.Without.{HasNodeIn};

use bfs_make::Site;
use bfs_stream_pages::MapFault;
use bfs_txn::Blocks;
use bfs_unmake::{stands_alone, stream_inodes, streams_length};

/// How many blocks the streams of a node have, those of its attribute directory and of its attributes among them, but no more than so many.
pub fn node_streams<B: Blocks>(
    site: Site,
    under: &mut B,
    id: u64,
    most: u64,
) -> Result<u64, MapFault>
    requires valid { IsValid site.sup }
    requires inside { id < natural site.sup.num_blocks }
    requires size { B.size under.old ≡ site.sup.block_size }
    requires few { most ≤ 4259840 }
    requires node { (m : ℕ → Option (List ℕ)) → B.told under.old ≡ Some m → (v : Room) × HasNodeIn (geometry_of site.sup) v m id }
    ensures counted { (m : ℕ → Option (List ℕ)) (v : Room) (tree : Tree) (lists : Lists) (n : Node) → B.told under.old ≡ Some m → IsReady (geometry_of site.sup) v m tree lists → IsNode tree id n → MatchResult result (λ k. k ≡ min (left_alone (volume_in (geometry_of site.sup) m) (node_owners (volume_in (geometry_of site.sup) m) (id, n))) most) IsUndone }
    ensures few { IfOk result (λ n. n ≤ most) }
    ensures told { B.told under.new ≡ B.told under.old }
    ensures changed { B.changed under.new ≡ B.changed under.old }
    ensures size { B.size under.new ≡ B.size under.old }
    ensures frame { B.frame under.new ≡ B.frame under.old }
    ensures later { AreLater (B.counts under.old) (B.counts under.new) }
    ensures cause { IfErr result (HasReadCause (B.counts under.old) (B.counts under.new)) }
{
    let alone = match stands_alone(site, under, id) {
        Ok(alone) => alone,
        Err(fault) => return Err(fault),
    };
    let ids = match stream_inodes(site, under, id, alone) {
        Ok(ids) => ids,
        Err(fault) => return Err(fault),
    };
    match streams_length(site, under, &ids, most) {
        Ok(count) => Ok(count),
        Err(fault) => Err(fault),
    }
}
