// How many rows and blocks a node leaves that is replaced.
ghost use Rattle.std.specs.Prelude.{◌≡◌, ◌≢◌, ◌≤◌, ◌<◌, ℕ, List, Option, Some, IfSome, IfOk, IfErr, MatchResult};
ghost use Rattle.bfs_super.specs.Conditions.{IsValid, natural};
ghost use Rattle.bfs_super.specs.Geometry.{geometry_of};
ghost use Rattle.bfs_txn.specs.Faults.{AreLater};
ghost use Rattle.bfs_tree.specs.Trees.{Node, Tree, IsNode};
ghost use Rattle.bfs_maps.specs.Refused.{IsUndone, HasReadCause};
ghost use Rattle.bfs_shift.specs.Lists.{Lists};
ghost use Rattle.bfs_shift.specs.Shifts.{volume_in};
ghost use Rattle.bfs_look.specs.Ready.{IsReady, HasReady};
ghost use Rattle.bfs_rename.specs.Counted.{AreOf, IsLeaving, IsProperNode};

use bfs_bitmap::Bitmap;
use bfs_make::Site;
use bfs_remove_node::{Child, attribute_indices, node_streams};
use bfs_stream_pages::MapFault;
use bfs_super::Super;
use bfs_txn::Edits;
use std::alloc::Global;

/// What a node leaves: so many rows of directories and indices, and so many blocks of its streams.
#[derive(Clone, Copy, Debug)]
pub(crate) struct Leaving {
    pub rows: u64,
    pub blocks: u64,
}

/// What a node leaves that is replaced, where so many built-in indices list it, and no more blocks than so many are counted.
pub(crate) fn leaving_of<E: Edits>(
    alloc: Global,
    sup: &Super,
    bitmap: &mut Bitmap,
    edits: &mut E,
    other: Option<Child>,
    built: u64,
    most: u64,
) -> Result<Leaving, MapFault>
    requires valid { IsValid sup.now }
    requires size { E.size edits.old ≡ sup.now.block_size }
    requires ready { (m : ℕ → Option (List ℕ)) → E.told edits.old ≡ Some m → HasReady (geometry_of sup.now) bitmap.old m }
    requires inside { IfSome other (λ c. c.id < natural sup.now.num_blocks) }
    requires node { (m : ℕ → Option (List ℕ)) (tree : Tree) (lists : Lists) → E.told edits.old ≡ Some m → IsReady (geometry_of sup.now) bitmap.old m tree lists → IfSome other (λ c. IsProperNode tree c.id) }
    requires three { built ≤ 3 }
    requires few { most ≤ 4259840 }
    ensures counted { (m : ℕ → Option (List ℕ)) (tree : Tree) (lists : Lists) (o : Option (ℕ × Node)) → E.told edits.old ≡ Some m → IsReady (geometry_of sup.now) bitmap.old m tree lists → IfSome o (λ e. IsNode tree e.0 e.1) → AreOf o other → MatchResult result (IsLeaving (volume_in (geometry_of sup.now) m) tree built most o) IsUndone }
    ensures rows { IfOk result (λ l. l.rows ≤ 4294967300) }
    ensures blocks { IfOk result (λ l. l.blocks ≤ most) }
    ensures bitmap { bitmap.new ≡ bitmap.old }
    ensures told { E.told edits.new ≡ E.told edits.old }
    ensures changed { E.changed edits.new ≡ E.changed edits.old }
    ensures size { E.size edits.new ≡ E.size edits.old }
    ensures frame { E.frame edits.new ≡ E.frame edits.old }
    ensures later { AreLater (E.counts edits.old) (E.counts edits.new) }
    ensures cause { IfErr result (HasReadCause (E.counts edits.old) (E.counts edits.new)) }
{
    let other = match other {
        Some(other) => other,
        None => return Ok(Leaving { rows: 0, blocks: 0 }),
    };
    let listed = match attribute_indices(alloc, sup, bitmap, edits, other.id) {
        Ok(listed) => listed,
        Err(fault) => return Err(fault),
    };
    let site = Site { alloc, sup: *sup };
    match node_streams(site, edits, other.id, most) {
        Ok(blocks) => Ok(Leaving {
            rows: 1 + built + listed,
            blocks,
        }),
        Err(fault) => Err(fault),
    }
}
