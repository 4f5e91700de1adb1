// Changes of the map of nodes.
ghost use Rattle.std.specs.Prelude.{◌≡◌, None, OnOk, OnErr};
ghost use Rattle.std.specs.FinMap.{get, insert, remove, entries};
ghost use Rattle.bfs_plain.specs.Plain.{node_of, nodes_of, node_after};
ghost use Rattle.bfs_tree.specs.Changes.{with_node};
ghost use Rattle.bfs_tree.specs.Refusals.{has_children};

use crate::node::Node;
use bfs_tree::Bytes;
use std::alloc::AllocError;
use std::collections::BTreeMap;

/// How a call changes the record of a node.
#[derive(Drop)]
pub enum NodeChange {
    /// The content of a directory.
    Touch,
    /// The content of a file.
    Content,
    Size { size: u64 },
    Mode { mode: u32, uid: i32, gid: i32 },
    Name { name: Bytes, parent: u64 },
}

impl Node {
    /// Makes the change, now.
    pub(crate) fn change(&mut self, change: NodeChange, stamp: i64)
        ensures { node_of self.new ≡ node_after change stamp (node_of self.old) }
    {
        match change {
            NodeChange::Touch => self.modified = stamp,
            NodeChange::Content => {
                self.modified = stamp;
                self.changed = stamp;
            }
            NodeChange::Size { size } => {
                self.size = size;
                self.modified = stamp;
                self.changed = stamp;
            }
            NodeChange::Mode { mode, uid, gid } => {
                self.mode = mode;
                self.uid = uid;
                self.gid = gid;
                self.changed = stamp;
            }
            NodeChange::Name { name, parent } => {
                self.name = name;
                self.parent = parent;
                self.changed = stamp;
            }
        }
    }
}

/// Changes the node of an id, if it is there.
pub fn change_node(nodes: &mut BTreeMap<u64, Node>, id: u64, change: NodeChange, stamp: i64)
    ensures { nodes_of nodes.new.entries ≡ with_node (nodes_of nodes.old.entries) id (node_after change stamp) }
{
    match nodes.get_mut(&id) {
        None => {}
        Some(node) => node.change(change, stamp),
    }
}

/// Puts a node at an id.
pub fn put_node(nodes: &mut BTreeMap<u64, Node>, id: u64, node: Node) -> Result<(), AllocError>
    ensures ok { OnOk result (nodes_of nodes.new.entries ≡ insert (nodes_of nodes.old.entries) id (node_of node)) }
    ensures err { OnErr result (nodes.new.entries ≡ nodes.old.entries) }
{
    match nodes.insert(id, node) {
        Ok(_) => Ok(()),
        Err(_) => Err(AllocError),
    }
}

/// Takes away the node of an id.
pub fn take_node(nodes: &mut BTreeMap<u64, Node>, id: u64)
    ensures { nodes_of nodes.new.entries ≡ remove (nodes_of nodes.old.entries) id }
{
    let _ = nodes.remove(&id);
}

/// An id that no node has: the first that is free.
pub fn free_id(nodes: &BTreeMap<u64, Node>) -> u64
    ensures { get (nodes_of nodes.now.entries) result ≡ None }
{
    let mut free = 0;
    for (id, _) in nodes.iter() {
        if *id != free {
            return free;
        }
        free += 1;
    }
    free
}

/// The directory has a child.
pub fn has_children(nodes: &BTreeMap<u64, Node>, root: u64, dir: u64) -> bool
    ensures { result ≡ has_children root dir (entries (nodes_of nodes.now.entries)) }
{
    for (id, node) in nodes.iter() {
        if node.is_child(*id, root, dir) {
            return true;
        }
    }
    false
}
