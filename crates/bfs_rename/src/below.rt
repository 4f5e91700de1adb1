// Whether a directory stands below a node.
ghost use Rattle.std.specs.Prelude.{◌≡◌, ◌≢◌, ◌↔◌, ℕ, List, Option, Some, IsTrue, IfErr, MatchResult};
ghost use Rattle.bfs_super.specs.Conditions.{IsValid, natural};
ghost use Rattle.bfs_super.specs.Geometry.{geometry_of};
ghost use Rattle.bfs_bitmap.specs.Runs.{Room};
ghost use Rattle.bfs_txn.specs.Faults.{AreLater};
ghost use Rattle.bfs_tree.specs.Refusals.{is_inside};
ghost use Rattle.bfs_tree.specs.Trees.{LeadsTo, Node, Tree, IsNode};
ghost use Rattle.bfs_maps.specs.Refused.{IsUndone, HasReadCause};
ghost use Rattle.bfs_shift.specs.Lists.{Lists};
ghost use Rattle.bfs_look.specs.Ready.{IsReady};

use bfs_look::{Site, info_at};
use bfs_make::blocks_in;
use bfs_remove_node::Child;
use bfs_stream_pages::MapFault;
use bfs_txn::Blocks;

/// Do parents lead from a node up to another one? At most as many inodes are read as the volume has blocks.
fn leads_to<B: Blocks>(site: Site, under: &mut B, id: u64, from: u64) -> Result<bool, MapFault>
    requires valid { IsValid site.sup }
    requires size { B.size under.old ≡ site.sup.block_size }
    ensures leads { (v : Room) (m : ℕ → Option (List ℕ)) (tree : Tree) (lists : Lists) (n : Node) → B.told under.old ≡ Some m → IsReady (geometry_of site.sup) v m tree lists → IsNode tree from n → MatchResult result (λ leads. IsTrue leads ↔ LeadsTo tree id from) IsUndone }
    ensures told { B.told under.new ≡ B.told under.old }
    ensures changed { B.changed under.new ≡ B.changed under.old }
    ensures size { B.size under.new ≡ B.size under.old }
    ensures frame { B.frame under.new ≡ B.frame under.old }
    ensures later { AreLater (B.counts under.old) (B.counts under.new) }
    ensures cause { IfErr result (HasReadCause (B.counts under.old) (B.counts under.new)) }
{
    let mut at = from;
    let mut left = blocks_in(site.sup);
    while at != id {
        if left == 0 {
            return Ok(false);
        }
        left -= 1;
        let info = match info_at(site, under, at) {
            Ok(info) => info,
            Err(fault) => return Err(fault),
        };
        if info.parent == at {
            return Ok(false);
        }
        at = info.parent;
    }
    Ok(true)
}

/// Is a node a directory, and another directory that node or below it?
pub(crate) fn is_inside<B: Blocks>(
    site: Site,
    under: &mut B,
    child: Child,
    dir: u64,
) -> Result<bool, MapFault>
    requires valid { IsValid site.sup }
    requires size { B.size under.old ≡ site.sup.block_size }
    ensures inside { (v : Room) (m : ℕ → Option (List ℕ)) (tree : Tree) (lists : Lists) (n d : Node) → B.told under.old ≡ Some m → IsReady (geometry_of site.sup) v m tree lists → child.kind ≡ n.kind → IsNode tree dir d → MatchResult result (λ inside. inside ≡ is_inside tree child.id n dir) IsUndone }
    ensures told { B.told under.new ≡ B.told under.old }
    ensures changed { B.changed under.new ≡ B.changed under.old }
    ensures size { B.size under.new ≡ B.size under.old }
    ensures frame { B.frame under.new ≡ B.frame under.old }
    ensures later { AreLater (B.counts under.old) (B.counts under.new) }
    ensures cause { IfErr result (HasReadCause (B.counts under.old) (B.counts under.new)) }
{
    if !child.kind.is_dir() {
        return Ok(false);
    }
    match leads_to(site, under, child.id, dir) {
        Ok(leads) => Ok(leads),
        Err(fault) => Err(fault),
    }
}
