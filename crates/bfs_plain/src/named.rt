// Changes of maps by name: the attributes of a node, and the indices.
ghost use Rattle.std.specs.Prelude.{◌≡◌, OnOk, OnErr};
ghost use Rattle.std.specs.FinMap.{insert, remove, len};
ghost use Rattle.bfs_plain.specs.Plain.{node_of, nodes_of, attribute_of, attributes_of, indices_of, with_attribute, without_attribute};
ghost use Rattle.bfs_tree.specs.Changes.{with_node};

use crate::node::{Attribute, Node};
use bfs_tree::KeyKind;
use std::alloc::AllocError;
use std::collections::BTreeMap;

fn put_attribute(
    attributes: &mut BTreeMap<Vec<u8>, Attribute>,
    name: Vec<u8>,
    attribute: Attribute,
) -> Result<(), AllocError>
    ensures ok { OnOk result (attributes_of attributes.new.entries ≡ insert (attributes_of attributes.old.entries) name.items (attribute_of attribute)) }
    ensures err { OnErr result (attributes.new.entries ≡ attributes.old.entries) }
{
    match attributes.insert(name, attribute) {
        Ok(_) => Ok(()),
        Err(_) => Err(AllocError),
    }
}

fn drop_attribute(attributes: &mut BTreeMap<Vec<u8>, Attribute>, name: &[u8])
    ensures { attributes_of attributes.new.entries ≡ remove (attributes_of attributes.old.entries) name.now }
{
    if attributes.len() > 0 {
        let _ = attributes.remove(name);
    }
}

pub fn put_index(
    indices: &mut BTreeMap<Vec<u8>, KeyKind>,
    name: Vec<u8>,
    kind: KeyKind,
) -> Result<(), AllocError>
    ensures ok { OnOk result (indices_of indices.new.entries ≡ insert (indices_of indices.old.entries) name.items kind) }
    ensures err { OnErr result (indices.new.entries ≡ indices.old.entries) }
{
    match indices.insert(name, kind) {
        Ok(_) => Ok(()),
        Err(_) => Err(AllocError),
    }
}

pub fn drop_index(indices: &mut BTreeMap<Vec<u8>, KeyKind>, name: &[u8])
    ensures { indices_of indices.new.entries ≡ remove (indices_of indices.old.entries) name.now }
{
    if indices.len() > 0 {
        let _ = indices.remove(name);
    }
}

/// How many indices there are.
pub fn index_count(indices: &BTreeMap<Vec<u8>, KeyKind>) -> usize
    ensures { result ≡ len (indices_of indices.now.entries) }
{
    indices.len()
}

impl Node {
    fn write_attribute(
        &mut self,
        name: Vec<u8>,
        attribute: Attribute,
        stamp: i64,
    ) -> Result<(), AllocError>
        ensures ok { OnOk result (node_of self.new ≡ with_attribute name.items (attribute_of attribute) stamp (node_of self.old)) }
        ensures err { OnErr result (node_of self.new ≡ node_of self.old) }
    {
        put_attribute(&mut self.attributes, name, attribute)?;
        self.changed = stamp;
        Ok(())
    }

    fn remove_attribute(&mut self, name: &[u8], stamp: i64)
        ensures { node_of self.new ≡ without_attribute name.now stamp (node_of self.old) }
    {
        drop_attribute(&mut self.attributes, name);
        self.changed = stamp;
    }
}

/// Gives the node of an id an attribute, if the node is there.
pub fn write_attribute(
    nodes: &mut BTreeMap<u64, Node>,
    id: u64,
    name: Vec<u8>,
    attribute: Attribute,
    stamp: i64,
) -> Result<(), AllocError>
    ensures ok { OnOk result (nodes_of nodes.new.entries ≡ with_node (nodes_of nodes.old.entries) id (with_attribute name.items (attribute_of attribute) stamp)) }
    ensures err { OnErr result (nodes_of nodes.new.entries ≡ nodes_of nodes.old.entries) }
{
    match nodes.get_mut(&id) {
        None => Ok(()),
        Some(node) => node.write_attribute(name, attribute, stamp),
    }
}

/// Takes an attribute from the node of an id, if the node is there.
pub fn remove_attribute(nodes: &mut BTreeMap<u64, Node>, id: u64, name: &[u8], stamp: i64)
    ensures { nodes_of nodes.new.entries ≡ with_node (nodes_of nodes.old.entries) id (without_attribute name.now stamp) }
{
    match nodes.get_mut(&id) {
        None => {}
        Some(node) => node.remove_attribute(name, stamp),
    }
}
