// A slow and plain program that keeps a tree in ordered maps and answers each call by the definitions.

use bfs_plain::Node;
use bfs_tree::{Hold, KeyKind};
use std::alloc::Global;
use std::collections::BTreeMap;

/// A plain tree with the holds on it and the bytes of files that are known, each at the id of its file and its
/// place there.
#[derive(Drop)]
pub struct Model {
    pub(crate) alloc: Global,
    pub(crate) root: u64,
    pub(crate) nodes: BTreeMap<u64, Node>,
    pub(crate) indices: BTreeMap<Vec<u8>, KeyKind>,
    pub(crate) holds: Vec<Hold>,
    pub(crate) known: BTreeMap<(u64, u64), u8>,
    pub(crate) answered: u64,
}
