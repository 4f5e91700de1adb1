// The pairs that an index has to list, put in its order.
ghost use Rattle.std.specs.Prelude.{◌≡◌, OnOk};
ghost use Rattle.bfs_tree.specs.Listings.{pair_cmp};
ghost use Rattle.bfs_tree.specs.Orders.{in_order};
ghost use Rattle.bfs_index_check.specs.Compared.{pair_of, pairs_of};

use bfs_index::Pair;
use bfs_tree::{KeyKind, key_order};
use std::alloc::AllocError;
use std::cmp::Ordering;

/// By key, then by number.
pub(crate) fn pair_order(kind: KeyKind, pair: &Pair, other: &Pair) -> Ordering
    ensures { result ≡ pair_cmp kind (pair_of pair.now) (pair_of other.now) }
{
    key_order(kind, pair.key.as_slice(), other.key.as_slice()).then(pair.id.cmp(&other.id))
}

/// Puts pairs in order, by key, then by number.
pub fn sort_pairs(kind: KeyKind, pairs: &mut Vec<Pair>) -> Result<(), AllocError>
    ensures { OnOk result (pairs_of pairs.new.items ≡ in_order (pair_cmp kind) (pairs_of pairs.old.items)) }
{
    pairs.sort_by(|pair, other| pair_order(kind, pair, other))?;
    Ok(())
}
