// The calls that take nodes away, move them and size them.
ghost use Rattle.std.specs.Prelude.{◌≡◌, IfOk, OnOk, OnErr, None, Some, ◌==◌};
ghost use Rattle.std.specs.FinMap.{entries};
ghost use Rattle.bfs_tree.specs.Trees.{child_in};
ghost use Rattle.bfs_tree.specs.Changes.{dropped, removed, renamed, resized, moved, moved_over, without_node};
ghost use Rattle.bfs_tree.specs.Steps.{Writes};
ghost use Rattle.bfs_plain.specs.Plain.{nodes_of};
ghost use Rattle.bfs_model.specs.Kept.{state_of};
ghost use Rattle.bfs_tree.specs.declared.call.Call.TheVariants.{Remove, Rename, SetSize};

use crate::model::Model;
use bfs_known::{Places, forget};
use bfs_plain::{NodeChange, change_node, child_at, take_node};
use bfs_tree::{Bytes, Reply};
use std::alloc::AllocError;

impl Model {
    /// Takes a node out of its directory.
    pub fn remove(&mut self, dir: u64, name: &[u8], stamp: i64) -> Result<Reply, AllocError>
        ensures ok { IfOk result (λ reply. Writes stamp (Remove dir name.now) reply (state_of self.old) (state_of self.new)) }
        ensures err { OnErr result (state_of self.new ≡ state_of self.old) }
        ensures kept { self.new.answered ≡ self.old.answered }
    {
        match self.refuse_remove(dir, name) {
            Some(reply) => Ok(reply),
            None => {
                self.remove_node(dir, name, stamp)?;
                Ok(Reply::Done)
            }
        }
    }

    /// The node of this name leaves the tree, if there is one.
    pub(crate) fn remove_node(
        &mut self,
        dir: u64,
        name: &[u8],
        stamp: i64,
    ) -> Result<(), AllocError>
        ensures ok { OnOk result (state_of self.new ≡ removed (state_of self.old) dir stamp (child_in self.old.root dir name.now (entries (nodes_of self.old.nodes.entries)))) }
        ensures err { OnErr result (state_of self.new ≡ state_of self.old) }
        ensures kept { self.new.answered ≡ self.old.answered }
    {
        match child_at(&self.nodes, self.root, dir, name) {
            None => Ok(()),
            Some((id, _)) => self.drop_node(dir, id, stamp),
        }
    }

    fn drop_node(&mut self, dir: u64, id: u64, stamp: i64) -> Result<(), AllocError>
        ensures ok { OnOk result (state_of self.new ≡ dropped (state_of self.old) dir stamp id) }
        ensures err { OnErr result (state_of self.new ≡ state_of self.old) }
        ensures kept { self.new.answered ≡ self.old.answered }
    {
        forget(&mut self.known, id, Places::All);
        take_node(&mut self.nodes, id);
        change_node(&mut self.nodes, dir, NodeChange::Touch, stamp);
        Ok(())
    }

    /// The node gets the new name and parent, and both directories have changed.
    fn move_node(&mut self, dir: u64, to_dir: u64, to_name: Bytes, id: u64, stamp: i64)
        ensures moved { state_of self.new ≡ moved (state_of self.old) dir to_dir to_name stamp id }
        ensures kept { self.new.answered ≡ self.old.answered }
    {
        change_node(&mut self.nodes, dir, NodeChange::Touch, stamp);
        change_node(&mut self.nodes, to_dir, NodeChange::Touch, stamp);
        change_node(
            &mut self.nodes,
            id,
            NodeChange::Name {
                name: to_name,
                parent: to_dir,
            },
            stamp,
        );
    }

    /// The node takes the place of another one, which leaves the tree.
    fn move_over(
        &mut self,
        dir: u64,
        to_dir: u64,
        to_name: Bytes,
        id: u64,
        there: u64,
        stamp: i64,
    ) -> Result<(), AllocError>
        ensures ok { OnOk result (state_of self.new ≡ moved (without_node (state_of self.old) there) dir to_dir to_name stamp id) }
        ensures err { OnErr result (state_of self.new ≡ state_of self.old) }
        ensures kept { self.new.answered ≡ self.old.answered }
    {
        forget(&mut self.known, there, Places::All);
        take_node(&mut self.nodes, there);
        self.move_node(dir, to_dir, to_name, id, stamp);
        Ok(())
    }

    /// Moves a node to a name, which another node may have.
    fn place_node(
        &mut self,
        dir: u64,
        to_dir: u64,
        to_name: &[u8],
        id: u64,
        stamp: i64,
    ) -> Result<(), AllocError>
        ensures ok { OnOk result (state_of self.new ≡ moved_over (state_of self.old) dir to_dir to_name.now stamp id (child_in self.old.root to_dir to_name.now (entries (nodes_of self.old.nodes.entries)))) }
        ensures err { OnErr result (state_of self.new ≡ state_of self.old) }
        ensures kept { self.new.answered ≡ self.old.answered }
    {
        let name = Bytes::from_slice(self.alloc, to_name)?;
        let Some((there, _)) = child_at(&self.nodes, self.root, to_dir, to_name) else {
            self.move_node(dir, to_dir, name, id, stamp);
            return Ok(());
        };
        if there == id {
            return Ok(());
        }
        self.move_over(dir, to_dir, name, id, there, stamp)
    }

    /// Moves a node to another name, in the same directory or in another. A node that has the name, and that
    /// may be replaced, leaves the tree.
    pub fn rename(
        &mut self,
        dir: u64,
        name: &[u8],
        to_dir: u64,
        to_name: &[u8],
        stamp: i64,
    ) -> Result<Reply, AllocError>
        ensures ok { IfOk result (λ reply. Writes stamp (Rename dir name.now to_dir to_name.now) reply (state_of self.old) (state_of self.new)) }
        ensures err { OnErr result (state_of self.new ≡ state_of self.old) }
        ensures kept { self.new.answered ≡ self.old.answered }
    {
        match self.refuse_rename(dir, name, to_dir, to_name) {
            Some(reply) => Ok(reply),
            None => {
                self.rename_node(dir, name, to_dir, to_name, stamp)?;
                Ok(Reply::Done)
            }
        }
    }

    /// The node of this name is moved, if there is one.
    pub(crate) fn rename_node(
        &mut self,
        dir: u64,
        name: &[u8],
        to_dir: u64,
        to_name: &[u8],
        stamp: i64,
    ) -> Result<(), AllocError>
        ensures ok { OnOk result (state_of self.new ≡ renamed (state_of self.old) dir to_dir to_name.now stamp (child_in self.old.root dir name.now (entries (nodes_of self.old.nodes.entries)))) }
        ensures err { OnErr result (state_of self.new ≡ state_of self.old) }
        ensures kept { self.new.answered ≡ self.old.answered }
    {
        match child_at(&self.nodes, self.root, dir, name) {
            None => Ok(()),
            Some((id, _)) => self.place_node(dir, to_dir, to_name, id, stamp),
        }
    }

    /// Makes a file longer or shorter.
    pub fn set_size(&mut self, id: u64, size: u64, stamp: i64) -> Result<Reply, AllocError>
        ensures ok { IfOk result (λ reply. Writes stamp (SetSize id size) reply (state_of self.old) (state_of self.new)) }
        ensures err { OnErr result (state_of self.new ≡ state_of self.old) }
        ensures kept { self.new.answered ≡ self.old.answered }
    {
        match self.refuse_set_size(id, size) {
            Some(reply) => Ok(reply),
            None => {
                self.resize(id, size, stamp)?;
                Ok(Reply::Done)
            }
        }
    }

    /// The file, if there is one, gets a size.
    pub(crate) fn resize(&mut self, id: u64, size: u64, stamp: i64) -> Result<(), AllocError>
        ensures ok { OnOk result (state_of self.new ≡ resized (state_of self.old) id size stamp) }
        ensures err { OnErr result (state_of self.new ≡ state_of self.old) }
        ensures kept { self.new.answered ≡ self.old.answered }
    {
        forget(&mut self.known, id, Places::From { place: size });
        change_node(&mut self.nodes, id, NodeChange::Size { size }, stamp);
        Ok(())
    }
}
