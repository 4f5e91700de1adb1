// What a directory, a node and a tree list: names, attributes and indices.
ghost use Rattle.std.specs.Prelude.{◌≡◌, ◌&&◌, ◌==◌, ◌++◌, ◌∷◌, [], not, IfOk, OnOk, if◌then◌else◌};
ghost use Rattle.std.specs.FinMap.{entries};
ghost use Rattle.bfs_tree.specs.Answers.{names_among, rows_of_attributes, rows_of_indices};
ghost use Rattle.bfs_plain.specs.Plain.{nodes_of, attributes_of, indices_of};

use crate::node::{Attribute, Node};
use crate::sorts::sort_names;
use bfs_tree::{AttributeRow, Bytes, IndexRow, KeyKind};
use std::alloc::{AllocError, Global};
use std::collections::BTreeMap;

/// The names of a directory's children, in byte order.
pub fn names_at(
    alloc: Global,
    nodes: &BTreeMap<u64, Node>,
    root: u64,
    dir: u64,
) -> Result<Vec<Bytes>, AllocError>
    ensures { IfOk result (λ v. v.items ≡ names_among root dir (entries (nodes_of nodes.now.entries))) }
{
    let mut names = Vec::new(alloc);
    for (id, node) in nodes.iter() {
        visit_child(&mut names, *id, node, root, dir)?;
    }
    sort_names(&mut names)?;
    Ok(names)
}

/// Adds a node's name, if it is a child of the directory.
fn visit_child(
    names: &mut Vec<Bytes>,
    id: u64,
    node: &Node,
    root: u64,
    dir: u64,
) -> Result<(), AllocError>
    ensures { OnOk result (names.new.items ≡ (if not (id == root) && (node.now.parent == dir) then names.old.items ++ (node.now.name ∷ []) else names.old.items)) }
{
    if node.is_child(id, root, dir) {
        names.push(node.name.copy()?)?;
    }
    Ok(())
}

fn attribute_row(
    alloc: Global,
    name: &Vec<u8>,
    attribute: &Attribute,
) -> Result<AttributeRow, AllocError>
    ensures { IfOk result (λ row. (row.kind ≡ attribute.now.code) × (row.name ≡ name.now.items)) }
{
    Ok(AttributeRow {
        kind: attribute.code,
        name: Bytes::new(Vec::from_slice(alloc, name.as_slice())?),
    })
}

fn index_row(alloc: Global, name: &Vec<u8>, kind: KeyKind) -> Result<IndexRow, AllocError>
    ensures { IfOk result (λ row. (row.kind ≡ kind) × (row.name ≡ name.now.items)) }
{
    Ok(IndexRow {
        kind,
        name: Bytes::new(Vec::from_slice(alloc, name.as_slice())?),
    })
}

/// The attributes by name, each with its type code.
pub fn attribute_rows(
    alloc: Global,
    attributes: &BTreeMap<Vec<u8>, Attribute>,
) -> Result<Vec<AttributeRow>, AllocError>
    ensures { IfOk result (λ v. v.items ≡ rows_of_attributes (entries (attributes_of attributes.now.entries))) }
{
    let mut rows = Vec::new(alloc);
    for (name, attribute) in attributes.iter() {
        rows.push(attribute_row(alloc, name, attribute)?)?;
    }
    Ok(rows)
}

/// The indices by name, each with its kind.
pub fn index_rows(
    alloc: Global,
    indices: &BTreeMap<Vec<u8>, KeyKind>,
) -> Result<Vec<IndexRow>, AllocError>
    ensures { IfOk result (λ v. v.items ≡ rows_of_indices (entries (indices_of indices.now.entries))) }
{
    let mut rows = Vec::new(alloc);
    for (name, kind) in indices.iter() {
        rows.push(index_row(alloc, name, *kind)?)?;
    }
    Ok(rows)
}
