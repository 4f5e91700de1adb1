// The calls that change nodes.
ghost use Rattle.std.specs.Prelude.{◌≡◌, IfOk, OnOk, OnErr};
ghost use Rattle.std.specs.FinMap.{insert};
ghost use Rattle.bfs_tree.specs.Changes.{made, with_node, with_nodes};
ghost use Rattle.bfs_tree.specs.Steps.{Writes};
ghost use Rattle.bfs_plain.specs.Plain.{indices_of, nodes_of, with_attribute};
ghost use Rattle.bfs_model.specs.Kept.{state_of};
ghost use Rattle.bfs_tree.specs.declared.call.Call.TheVariants.{Make, SetMode, AttrWrite, AttrRemove, IndexMake, IndexRemove};

use crate::model::Model;
use bfs_plain::{
    Attribute, NodeChange, change_node, drop_index, free_id, made_node, put_index, put_node,
    remove_attribute, write_attribute,
};
use bfs_tree::{Bytes, KeyKind, MakeKind, Reply};
use std::alloc::AllocError;

impl Model {
    /// Makes a node in a directory, with the first id that is free.
    pub fn make(
        &mut self,
        dir: u64,
        name: &[u8],
        kind: &MakeKind,
        mode: u32,
        stamp: i64,
    ) -> Result<Reply, AllocError>
        ensures ok { IfOk result (λ reply. Writes stamp (Make dir name.now kind.now mode) reply (state_of self.old) (state_of self.new)) }
        ensures err { OnErr result (state_of self.new ≡ state_of self.old) }
        ensures kept { self.new.answered ≡ self.old.answered }
    {
        match self.refuse_make(dir, name, kind) {
            Some(reply) => Ok(reply),
            None => {
                let id = free_id(&self.nodes);
                self.make_node(dir, name, kind, mode, stamp, id)?;
                Ok(Reply::Made { id })
            }
        }
    }

    /// The new node, with this id.
    pub(crate) fn make_node(
        &mut self,
        dir: u64,
        name: &[u8],
        kind: &MakeKind,
        mode: u32,
        stamp: i64,
        id: u64,
    ) -> Result<(), AllocError>
        ensures ok { OnOk result (state_of self.new ≡ made (state_of self.old) dir name.now kind.now mode stamp id) }
        ensures err { OnErr result (state_of self.new ≡ state_of self.old) }
        ensures kept { self.new.answered ≡ self.old.answered }
    {
        let node = made_node(self.alloc, dir, name, kind, mode, stamp)?;
        put_node(&mut self.nodes, id, node)?;
        change_node(&mut self.nodes, dir, NodeChange::Touch, stamp);
        Ok(())
    }

    /// Sets who may do what with a node, and whose it is.
    pub fn set_mode(&mut self, id: u64, mode: u32, uid: i32, gid: i32, stamp: i64) -> Reply
        ensures ok { Writes stamp (SetMode id mode uid gid) result (state_of self.old) (state_of self.new) }
        ensures kept { self.new.answered ≡ self.old.answered }
    {
        match self.refuse_node(id) {
            Some(reply) => reply,
            None => {
                let change = NodeChange::Mode { mode, uid, gid };
                change_node(&mut self.nodes, id, change, stamp);
                Reply::Done
            }
        }
    }

    /// Gives a node an attribute, in place of one of the same name.
    pub fn attr_write(
        &mut self,
        id: u64,
        name: &[u8],
        kind: u32,
        bytes: &[u8],
        stamp: i64,
    ) -> Result<Reply, AllocError>
        ensures ok { IfOk result (λ reply. Writes stamp (AttrWrite id name.now kind bytes.now) reply (state_of self.old) (state_of self.new)) }
        ensures err { OnErr result (state_of self.new ≡ state_of self.old) }
        ensures kept { self.new.answered ≡ self.old.answered }
    {
        match self.refuse_attr_write(id, name, bytes) {
            Some(reply) => Ok(reply),
            None => {
                self.put_attribute(id, name, kind, bytes, stamp)?;
                Ok(Reply::Done)
            }
        }
    }

    /// The node, if there is one, gets an attribute.
    pub(crate) fn put_attribute(
        &mut self,
        id: u64,
        name: &[u8],
        kind: u32,
        bytes: &[u8],
        stamp: i64,
    ) -> Result<(), AllocError>
        ensures ok { OnOk result (state_of self.new ≡ with_nodes (state_of self.old) (with_node (nodes_of self.old.nodes.entries) id (with_attribute name.now (record { code = kind; bytes = bytes.now }) stamp))) }
        ensures err { OnErr result (state_of self.new ≡ state_of self.old) }
        ensures kept { self.new.answered ≡ self.old.answered }
    {
        let key = Vec::from_slice(self.alloc, name)?;
        let attribute = Attribute {
            code: kind,
            bytes: Bytes::from_slice(self.alloc, bytes)?,
        };
        write_attribute(&mut self.nodes, id, key, attribute, stamp)
    }

    /// Takes an attribute from a node.
    pub fn attr_remove(&mut self, id: u64, name: &[u8], stamp: i64) -> Reply
        ensures ok { Writes stamp (AttrRemove id name.now) result (state_of self.old) (state_of self.new) }
        ensures kept { self.new.answered ≡ self.old.answered }
    {
        match self.refuse_attr(id, name) {
            Some(reply) => reply,
            None => {
                remove_attribute(&mut self.nodes, id, name, stamp);
                Reply::Done
            }
        }
    }

    /// Makes an index.
    pub fn index_make(
        &mut self,
        name: &[u8],
        kind: KeyKind,
        stamp: i64,
    ) -> Result<Reply, AllocError>
        ensures ok { IfOk result (λ reply. Writes stamp (IndexMake name.now kind) reply (state_of self.old) (state_of self.new)) }
        ensures err { OnErr result (state_of self.new ≡ state_of self.old) }
        ensures kept { self.new.answered ≡ self.old.answered }
    {
        match self.refuse_index_make(name, kind) {
            Some(reply) => Ok(reply),
            None => {
                self.add_index(name, kind)?;
                Ok(Reply::Done)
            }
        }
    }

    /// The index is there.
    pub(crate) fn add_index(&mut self, name: &[u8], kind: KeyKind) -> Result<(), AllocError>
        ensures ok { OnOk result (state_of self.new ≡ record (state_of self.old) { tree = record (state_of self.old).tree { indices = insert (indices_of self.old.indices.entries) name.now kind } }) }
        ensures err { OnErr result (state_of self.new ≡ state_of self.old) }
        ensures kept { self.new.answered ≡ self.old.answered }
    {
        let key = Vec::from_slice(self.alloc, name)?;
        put_index(&mut self.indices, key, kind)
    }

    /// Gives an index up.
    pub fn index_remove(&mut self, name: &[u8], stamp: i64) -> Reply
        ensures ok { Writes stamp (IndexRemove name.now) result (state_of self.old) (state_of self.new) }
        ensures kept { self.new.answered ≡ self.old.answered }
    {
        match self.refuse_index_remove(name) {
            Some(reply) => reply,
            None => {
                drop_index(&mut self.indices, name);
                Reply::Done
            }
        }
    }
}
