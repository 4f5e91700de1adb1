// Lists that are put in order.
ghost use Rattle.std.specs.Prelude.{◌≡◌, OnOk, map as each};
ghost use Rattle.bfs_base.specs.Keys.{text_cmp};
ghost use Rattle.bfs_tree.specs.Orders.{in_order};
ghost use Rattle.bfs_tree.specs.Listings.{pair_cmp};
ghost use Rattle.bfs_plain.specs.Plain.{pair_of};

use bfs_tree::{Bytes, KeyKind, key_order};
use std::alloc::AllocError;
use std::cmp::Ordering;

/// A key of an index, as bytes, and the id of a node that it lists there.
#[derive(Drop)]
pub struct Pair {
    pub key: Bytes,
    pub id: u64,
}

/// Puts names in byte order.
pub(crate) fn sort_names(names: &mut Vec<Bytes>) -> Result<(), AllocError>
    ensures { OnOk result (names.new.items ≡ in_order text_cmp names.old.items) }
{
    names.sort_by(|name, other| name.as_slice().cmp(other.as_slice()))?;
    Ok(())
}

/// By key, then by id.
fn pair_order(kind: KeyKind, pair: &Pair, other: &Pair) -> Ordering
    ensures { result ≡ pair_cmp kind (pair_of pair.now) (pair_of other.now) }
{
    key_order(kind, pair.key.as_slice(), other.key.as_slice()).then(pair.id.cmp(&other.id))
}

/// Puts pairs in order, by key, then by id.
pub(crate) fn sort_pairs(kind: KeyKind, pairs: &mut Vec<Pair>) -> Result<(), AllocError>
    ensures { OnOk result (each pair_of pairs.new.items ≡ in_order (pair_cmp kind) (each pair_of pairs.old.items)) }
{
    pairs.sort_by(|pair, other| pair_order(kind, pair, other))?;
    Ok(())
}
