// Looking for nodes: by id, by name in a directory, and up the line of parents.
ghost use Rattle.std.specs.Prelude.{◌≡◌, MatchOption, None, Some, ◌==◌};
ghost use Rattle.std.specs.Option.{option_map_or};
ghost use Rattle.std.specs.List.{list_any};
ghost use Rattle.std.specs.FinMap.{get, len, entries};
ghost use Rattle.bfs_tree.specs.Trees.{child_in};
ghost use Rattle.bfs_tree.specs.Refusals.{line_up};
ghost use Rattle.bfs_plain.specs.Plain.{nodes_of, node_of};

use crate::node::Node;
use std::collections::BTreeMap;

/// The parent of a node, or its own id where it isn't there.
fn parent_at(nodes: &BTreeMap<u64, Node>, id: u64) -> u64
    ensures { result ≡ option_map_or (λ n. n.parent) (get (nodes_of nodes.now.entries) id) id }
{
    match node_at(nodes, id) {
        None => id,
        Some(node) => node.parent,
    }
}

fn node_count(nodes: &BTreeMap<u64, Node>) -> usize
    ensures { result ≡ len (nodes_of nodes.now.entries) }
{
    nodes.len()
}

/// The directory is that node or below it.
pub fn is_below(nodes: &BTreeMap<u64, Node>, id: u64, dir: u64) -> bool
    ensures { result ≡ list_any (λ x. x == id) (line_up (nodes_of nodes.now.entries) (len (nodes_of nodes.now.entries)) dir) }
{
    let mut at = dir;
    for step in 0..node_count(nodes) {
        if at == id {
            return true;
        }
        at = parent_at(nodes, at);
    }
    at == id
}

/// The node of an id.
pub fn node_at(nodes: &BTreeMap<u64, Node>, id: u64) -> Option<&Node>
    ensures { MatchOption result (get (nodes_of nodes.now.entries) id ≡ None)
        (λ n. get (nodes_of nodes.now.entries) id ≡ Some (node_of n.now)) }
{
    nodes.get(&id)
}

/// The child of a directory that has this name, with its id.
pub fn child_at<'a>(
    nodes: &'a BTreeMap<u64, Node>,
    root: u64,
    dir: u64,
    name: &[u8],
) -> Option<(u64, &'a Node)>
    ensures { MatchOption result (child_in root dir name.now (entries (nodes_of nodes.now.entries)) ≡ None)
        (λ e. child_in root dir name.now (entries (nodes_of nodes.now.entries)) ≡ Some (e.0, node_of e.1.now)) }
{
    for (id, node) in nodes.iter() {
        if node.is_child_named(*id, root, dir, name) {
            return Some((*id, node));
        }
    }
    None
}
