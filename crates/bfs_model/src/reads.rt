// The calls that read.
ghost use Rattle.std.specs.Prelude.{Some, IfOk};
ghost use Rattle.bfs_tree.specs.Steps.{Reads};
ghost use Rattle.bfs_model.specs.Kept.{state_of};
ghost use Rattle.bfs_tree.specs.declared.call.Call.TheVariants.{Lookup, List, Stat, ReadLink, AttrRead, AttrList, IndexList};

use crate::model::Model;
use bfs_plain::{attribute_at, attribute_rows, child_at, index_rows, names_at, node_at};
use bfs_tree::{Attributes, Indices, Names, Reply};
use std::alloc::AllocError;

impl Model {
    /// The node of this name in a directory.
    pub fn lookup(&self, dir: u64, name: &[u8]) -> Reply
        ensures { Reads (Lookup dir name.now) (state_of self.now) result }
    {
        let Some(parent) = node_at(&self.nodes, dir) else {
            return Reply::NotFound;
        };
        if !parent.kind.is_dir() {
            return Reply::NotDir;
        }
        let Some((id, node)) = child_at(&self.nodes, self.root, dir, name) else {
            return Reply::NotFound;
        };
        Reply::Found {
            id,
            kind: node.kind,
        }
    }

    /// What a node's record says.
    pub fn stat(&self, id: u64) -> Result<Reply, AllocError>
        ensures { IfOk result (λ reply. Reads (Stat id) (state_of self.now) reply) }
    {
        let Some(node) = node_at(&self.nodes, id) else {
            return Ok(Reply::NotFound);
        };
        Ok(Reply::Info { info: node.info()? })
    }
}

impl Model {
    /// The names in a directory.
    pub fn list(&self, dir: u64) -> Result<Reply, AllocError>
        ensures { IfOk result (λ reply. Reads (List dir) (state_of self.now) reply) }
    {
        let Some(parent) = node_at(&self.nodes, dir) else {
            return Ok(Reply::NotFound);
        };
        if !parent.kind.is_dir() {
            return Ok(Reply::NotDir);
        }
        Ok(Reply::Names {
            names: Names::new(names_at(self.alloc, &self.nodes, self.root, dir)?),
        })
    }

    /// The target of a link.
    pub fn read_link(&self, id: u64) -> Result<Reply, AllocError>
        ensures { IfOk result (λ reply. Reads (ReadLink id) (state_of self.now) reply) }
    {
        let Some(node) = node_at(&self.nodes, id) else {
            return Ok(Reply::NotFound);
        };
        if !node.kind.is_link() {
            return Ok(Reply::NotLink);
        }
        Ok(Reply::Target {
            bytes: node.target.copy()?,
        })
    }

    /// An attribute's type code and bytes.
    pub fn attr_read(&self, id: u64, name: &[u8]) -> Result<Reply, AllocError>
        ensures { IfOk result (λ reply. Reads (AttrRead id name.now) (state_of self.now) reply) }
    {
        let Some(node) = node_at(&self.nodes, id) else {
            return Ok(Reply::NotFound);
        };
        let Some(attribute) = attribute_at(&node.attributes, name) else {
            return Ok(Reply::NoAttr);
        };
        Ok(Reply::Attr {
            kind: attribute.code,
            bytes: attribute.bytes.copy()?,
        })
    }

    /// The attributes of a node.
    pub fn attr_list(&self, id: u64) -> Result<Reply, AllocError>
        ensures { IfOk result (λ reply. Reads (AttrList id) (state_of self.now) reply) }
    {
        let Some(node) = node_at(&self.nodes, id) else {
            return Ok(Reply::NotFound);
        };
        Ok(Reply::Attrs {
            rows: Attributes::new(attribute_rows(self.alloc, &node.attributes)?),
        })
    }

    /// The indices.
    pub fn index_list(&self) -> Result<Reply, AllocError>
        ensures { IfOk result (λ reply. Reads IndexList (state_of self.now) reply) }
    {
        Ok(Reply::Indices {
            rows: Indices::new(index_rows(self.alloc, &self.indices)?),
        })
    }
}
