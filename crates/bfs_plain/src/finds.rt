// What an index lists, and the rows of a search.
ghost use Rattle.std.specs.Prelude.{◌≡◌, ◌&&◌, ◌∷◌, ◌++◌, [], IfOk, OnOk, map as each};
ghost use Rattle.std.specs.List.{filter};
ghost use Rattle.std.specs.Option.{option_map_or};
ghost use Rattle.std.specs.FinMap.{entries};
ghost use Rattle.bfs_tree.specs.Listings.{key_in, listed_among, is_between, found_row, name_of};
ghost use Rattle.bfs_plain.specs.Plain.{node_of, nodes_of, pair_of};

use crate::look::node_at;
use crate::node::Node;
use crate::sorts::{Pair, sort_pairs};
use bfs_tree::{Bytes, FoundRow, Key, KeyKind, key_order};
use std::alloc::{AllocError, Global};
use std::collections::BTreeMap;

/// Adds a node's key and id, if the index lists it.
fn visit_pair(
    alloc: Global,
    pairs: &mut Vec<Pair>,
    id: u64,
    node: &Node,
    root: u64,
    index: &[u8],
    kind: KeyKind,
) -> Result<(), AllocError>
    ensures { OnOk result (each pair_of pairs.new.items ≡ option_map_or (λ key. each pair_of pairs.old.items ++ ((key, id) ∷ [])) (key_in root index.now kind id (node_of node.now)) (each pair_of pairs.old.items)) }
{
    match node.key_in(alloc, root, index, kind, id)? {
        None => Ok(()),
        Some(key) => {
            pairs.push(Pair { key, id })?;
            Ok(())
        }
    }
}

/// What an index lists, by key, then by id.
pub fn pairs_at(
    alloc: Global,
    nodes: &BTreeMap<u64, Node>,
    root: u64,
    index: &[u8],
    kind: KeyKind,
) -> Result<Vec<Pair>, AllocError>
    ensures { IfOk result (λ v. each pair_of v.items ≡ listed_among root index.now kind (entries (nodes_of nodes.now.entries))) }
{
    let mut pairs = Vec::new(alloc);
    for (id, node) in nodes.iter() {
        visit_pair(alloc, &mut pairs, *id, node, root, index, kind)?;
    }
    sort_pairs(kind, &mut pairs)?;
    Ok(pairs)
}

/// The name of a node, or no bytes where it isn't there.
fn name_at(alloc: Global, nodes: &BTreeMap<u64, Node>, id: u64) -> Result<Bytes, AllocError>
    ensures { IfOk result (λ name. name ≡ name_of (nodes_of nodes.now.entries) id) }
{
    match node_at(nodes, id) {
        None => Ok(Bytes::new(Vec::new(alloc))),
        Some(node) => node.name.copy(),
    }
}

/// The key lies between two others, both ends included.
fn is_between(kind: KeyKind, low: &[u8], high: &[u8], pair: &Pair) -> bool
    ensures { result ≡ is_between kind low.now high.now (pair_of pair.now) }
{
    let key = pair.key.as_slice();
    key_order(kind, low, key).is_le() && key_order(kind, key, high).is_le()
}

fn row_of(
    alloc: Global,
    nodes: &BTreeMap<u64, Node>,
    kind: KeyKind,
    pair: &Pair,
) -> Result<FoundRow, AllocError>
    ensures { IfOk result (λ row. row ≡ found_row (nodes_of nodes.now.entries) kind (pair_of pair.now)) }
{
    Ok(FoundRow {
        key: Key::from_bytes(alloc, kind, pair.key.as_slice())?,
        id: pair.id,
        name: name_at(alloc, nodes, pair.id)?,
    })
}

/// The rows of the pairs whose key lies between two others.
pub fn rows_at(
    alloc: Global,
    nodes: &BTreeMap<u64, Node>,
    kind: KeyKind,
    low: &[u8],
    high: &[u8],
    pairs: &[Pair],
) -> Result<Vec<FoundRow>, AllocError>
    ensures { IfOk result (λ v. v.items ≡ each (found_row (nodes_of nodes.now.entries) kind) (filter (is_between kind low.now high.now) (each pair_of pairs.now))) }
{
    let mut rows = Vec::new(alloc);
    for pair in pairs {
        if is_between(kind, low, high, pair) {
            rows.push(row_of(alloc, nodes, kind, pair)?)?;
        }
    }
    Ok(rows)
}
