// A node that is made new, and the indices of a new volume.
ghost use Rattle.std.specs.Prelude.{◌≡◌, IfOk, length};
ghost use Rattle.bfs_tree.specs.Trees.{built_in, new_node};
ghost use Rattle.bfs_plain.specs.Plain.{indices_of, node_of};
ghost use Rattle.bfs_tree.specs.Names.{target_of};
ghost use Rattle.bfs_tree.specs.Changes.{kind_made, made};

use crate::named::put_index;
use crate::node::Node;
use bfs_tree::{BY_NAME, BY_SIZE, BY_TIME, Bytes, KeyKind, MakeKind};
use std::alloc::{AllocError, Global};
use std::collections::BTreeMap;

/// The three indices that every tree has.
pub fn built_in_indices(alloc: Global) -> Result<BTreeMap<Vec<u8>, KeyKind>, AllocError>
    ensures { IfOk result (λ m. indices_of m.entries ≡ built_in) }
{
    let mut indices = BTreeMap::new(alloc);
    put_index(
        &mut indices,
        Vec::from_slice(alloc, BY_NAME)?,
        KeyKind::Text,
    )?;
    put_index(&mut indices, Vec::from_slice(alloc, BY_SIZE)?, KeyKind::I64)?;
    put_index(&mut indices, Vec::from_slice(alloc, BY_TIME)?, KeyKind::I64)?;
    Ok(indices)
}

pub fn made_node(
    alloc: Global,
    dir: u64,
    name: &[u8],
    kind: &MakeKind,
    mode: u32,
    stamp: i64,
) -> Result<Node, AllocError>
    ensures { IfOk result (λ n. node_of n ≡ new_node (kind_made kind.now) name.now dir mode (length (target_of kind.now)) (target_of kind.now) stamp) }
{
    Ok(Node {
        kind: kind.kind(),
        name: Bytes::from_slice(alloc, name)?,
        parent: dir,
        mode,
        uid: 0,
        gid: 0,
        created: stamp,
        modified: stamp,
        changed: stamp,
        size: kind.target_len() as u64,
        target: kind.target(alloc)?,
        attributes: BTreeMap::new(alloc),
    })
}
