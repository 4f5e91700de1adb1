// Whether an index lists a node, and under which key.
ghost use Rattle.std.specs.Prelude.{◌≡◌, ◌<◌, ℕ, List, ◌∷◌, Option, Some, IfOk, IfErr, IfSome, MatchResult};
ghost use Rattle.bfs_base.specs.Keys.{IsTreeKind};
ghost use Rattle.bfs_super.specs.Conditions.{IsValid, natural};
ghost use Rattle.bfs_super.specs.Geometry.{geometry_of};
ghost use Rattle.bfs_bitmap.specs.Runs.{Room};
ghost use Rattle.bfs_node.specs.Search.{IsSought};
ghost use Rattle.bfs_txn.specs.Faults.{AreLater};
ghost use Rattle.bfs_tree.specs.Trees.{Tree};
ghost use Rattle.bfs_maps.specs.Refused.{IsUndone, HasReadCause};
ghost use Rattle.bfs_attr.specs.Bearers.{bearer_of, CanRead};
ghost use Rattle.bfs_attr.specs.declared.directory.InodeRow.{InodeRow};
ghost use Rattle.bfs_shift.specs.Lists.{Lists};
ghost use Rattle.bfs_unlist.specs.Reading.{IsListingOf, IsUnlisting};

use bfs_attr::InodeRow;
use bfs_make::Site;
use bfs_node_key::{is_sought, key_in};
use bfs_query::{IndexAt, damaged, index_of};
use bfs_stream_pages::MapFault;
use bfs_tree::{Bytes, Info};
use bfs_txn::Blocks;

/// An index that lists a node, and the key under which it does.
#[derive(Drop)]
pub struct Listing {
    pub at: IndexAt,
    pub key: Bytes,
}

/// Reads whether the index to which a row of the index directory leads lists a node, and under which key; the node isn't the root, and
/// has this record.
pub(crate) fn listing_of<B: Blocks>(
    site: Site,
    under: &mut B,
    id: u64,
    info: &Info,
    row: &InodeRow,
) -> Result<Option<Listing>, MapFault>
    requires valid { IsValid site.sup }
    requires size { B.size under.old ≡ site.sup.block_size }
    requires readable { (m : ℕ → Option (List ℕ)) → B.told under.old ≡ Some m → CanRead (bearer_of id site.sup) m }
    ensures listing { (v : Room) (m : ℕ → Option (List ℕ)) (tree : Tree) (lists now : Lists) (rest : List InodeRow) → B.told under.old ≡ Some m → IsUnlisting (geometry_of site.sup) v m tree lists now id info.now (row.now ∷ rest) → MatchResult result (IsListingOf tree lists id row.now) IsUndone }
    ensures below { IfOk result (λ o. IfSome o (λ l. l.at.inode < natural site.sup.num_blocks)) }
    ensures tree { IfOk result (λ o. IfSome o (λ l. IsTreeKind l.at.kind)) }
    ensures sought { IfOk result (λ o. IfSome o (λ l. IsSought l.at.kind l.key)) }
    ensures told { B.told under.new ≡ B.told under.old }
    ensures changed { B.changed under.new ≡ B.changed under.old }
    ensures pairs { B.pairs under.new ≡ B.pairs under.old }
    ensures size { B.size under.new ≡ B.size under.old }
    ensures frame { B.frame under.new ≡ B.frame under.old }
    ensures later { AreLater (B.counts under.old) (B.counts under.new) }
    ensures cause { IfErr result (HasReadCause (B.counts under.old) (B.counts under.new)) }
{
    let at = match index_of(site, under, row.id) {
        Ok(at) => at,
        Err(fault) => return Err(fault),
    };
    let found = match key_in(site, under, id, info, row.name.as_slice(), at.kind) {
        Ok(found) => found,
        Err(fault) => return Err(fault),
    };
    let Some(key) = found else {
        return Ok(None);
    };
    let sought = is_sought(at.kind, key.as_slice());
    if !sought {
        return Err(damaged(at.inode));
    }
    Ok(Some(Listing { at, key }))
}
