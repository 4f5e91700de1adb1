// The tree of a new volume.
ghost use Rattle.std.specs.Prelude.{◌≡◌, IfOk, []};
ghost use Rattle.std.specs.FinMap.{empty};
ghost use Rattle.bfs_tree.specs.Trees.{IsPlain, empty_tree};
ghost use Rattle.bfs_known.specs.Known.{known_of};
ghost use Rattle.bfs_plain.specs.Plain.{indices_of, nodes_of};
ghost use Rattle.bfs_model.specs.Kept.{state_of};

use crate::model::Model;
use bfs_plain::{Node, built_in_indices, made_node, put_node};
use bfs_tree::{KeyKind, MakeKind, empty_is_plain};
use std::alloc::{AllocError, Global};
use std::collections::BTreeMap;

impl Model {
    /// A tree of these nodes and indices, with these bytes of its files known. Nobody holds anything.
    pub fn of(
        alloc: Global,
        root: u64,
        nodes: BTreeMap<u64, Node>,
        indices: BTreeMap<Vec<u8>, KeyKind>,
        known: BTreeMap<(u64, u64), u8>,
    ) -> Model
        ensures tree { (state_of result).tree ≡ record { root = root; nodes = nodes_of nodes.entries; indices = indices_of indices.entries } }
        ensures held { (state_of result).holds ≡ [] }
        ensures known { (state_of result).known ≡ known_of known.entries }
        ensures counted { result.answered ≡ 0 }
    {
        Model {
            alloc,
            root,
            nodes,
            indices,
            holds: Vec::new(alloc),
            known,
            answered: 0,
        }
    }

    /// The tree of a new volume: its root alone, with this id, and the three indices. It is plain, and nobody
    /// holds anything.
    pub fn new(alloc: Global, root: u64, stamp: i64) -> Result<Model, AllocError>
        ensures plain { IfOk result (λ m. IsPlain (state_of m).tree) }
        ensures counted { IfOk result (λ m. m.answered ≡ 0) }
        ensures ok { IfOk result (λ m. state_of m ≡ record { tree = empty_tree root stamp; holds = []; known = empty }) }
    {
        empty_is_plain();
        let node = made_node(alloc, root, b"", &MakeKind::Dir, 0o755, stamp)?;
        let mut nodes = BTreeMap::new(alloc);
        put_node(&mut nodes, root, node)?;
        Ok(Model {
            alloc,
            root,
            nodes,
            indices: built_in_indices(alloc)?,
            holds: Vec::new(alloc),
            known: BTreeMap::new(alloc),
            answered: 0,
        })
    }
}
