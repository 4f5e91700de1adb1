// A history that the model follows, entry by entry.
ghost use Rattle.std.specs.Prelude.{◌≡◌, ◌↔◌, ◌+◌, ◌-◌, ◌^◌, ℕ, min, false, None, IfOk, IsTrue, OnErr, OnOk, if◌then◌else◌};
ghost use Rattle.std.specs.FinMap.{get};
ghost use Rattle.bfs_tree.specs.Answers.{IsAnswer};
ghost use Rattle.bfs_tree.specs.Changes.{changed, id_made};
ghost use Rattle.bfs_tree.specs.Refusals.{own_refusal};
ghost use Rattle.bfs_tree.specs.Steps.{Reads, is_by_disk, next};
ghost use Rattle.bfs_tree.specs.declared.reply.Reply.TheVariants.{Made};
ghost use Rattle.bfs_tree.specs.declared.call.Call.TheVariants as calls;
ghost use Rattle.bfs_plain.specs.Plain.{nodes_of};
ghost use Rattle.bfs_model.specs.Kept.{IsAStep, is_read, state_of};

use crate::model::Model;
use bfs_plain::{NodeChange, change_node, drop_index, node_at, remove_attribute};
use bfs_tree::{Call, Entry, Hold, Reply, refusal_is_unique, state_is_determined};
use std::alloc::AllocError;

/// The id that a reply gives, or 0.
fn id_made(reply: &Reply) -> u64
    ensures { result ≡ id_made reply.now }
{
    match reply {
        Reply::Made { id } => *id,
        _ => 0,
    }
}

fn is_read(call: &Call) -> bool
    ensures { result ≡ is_read call.now }
{
    match call {
        Call::Lookup { .. } => true,
        Call::List { .. } => true,
        Call::Stat { .. } => true,
        Call::ReadLink { .. } => true,
        Call::AttrRead { .. } => true,
        Call::AttrList { .. } => true,
        Call::IndexList => true,
        Call::IndexFind { .. } => true,
        _ => false,
    }
}

impl Model {
    /// Takes an entry of a history, which another may have written: true where it may come next, and then the
    /// model is in the state after it.
    pub fn follow(&mut self, entry: &Entry) -> Result<bool, AllocError>
        ensures step { IfOk result (λ b. IsTrue b ↔ IsAStep (state_of self.old) entry.now) }
        ensures after { IfOk result (λ b. state_of self.new ≡ (if b then next (state_of self.old) entry.now else state_of self.old)) }
        ensures counted { IfOk result (λ b. self.new.answered ≡ (if b then min (self.old.answered + 1) (2 ^ 64 - 1) else self.old.answered)) }
        ensures err { OnErr result (state_of self.new ≡ state_of self.old) }
        ensures uncounted { OnErr result (self.new.answered ≡ self.old.answered) }
    {
        if self.take(entry)? {
            self.answered = self.answered.saturating_add(1);
            Ok(true)
        } else {
            Ok(false)
        }
    }

    fn take(&mut self, entry: &Entry) -> Result<bool, AllocError>
        ensures step { IfOk result (λ b. IsTrue b ↔ IsAStep (state_of self.old) entry.now) }
        ensures after { IfOk result (λ b. state_of self.new ≡ (if b then next (state_of self.old) entry.now else state_of self.old)) }
        ensures err { OnErr result (state_of self.new ≡ state_of self.old) }
        ensures kept { self.new.answered ≡ self.old.answered }
    {
        state_is_determined();
        refusal_is_unique();
        if entry.reply.is_by_disk() {
            return Ok(true);
        }
        match self.refusal(&entry.call) {
            Some(own) => Ok(own.is_same(&entry.reply)),
            None => self.take_free(entry),
        }
    }

    /// The same where none of the call's own refusals comes, and the disk refuses nothing.
    fn take_free(&mut self, entry: &Entry) -> Result<bool, AllocError>
        requires free { own_refusal entry.now.call (state_of self.old) ≡ None }
        requires undisturbed { is_by_disk entry.now.reply ≡ false }
        ensures step { IfOk result (λ b. IsTrue b ↔ IsAStep (state_of self.old) entry.now) }
        ensures after { IfOk result (λ b. state_of self.new ≡ (if b then next (state_of self.old) entry.now else state_of self.old)) }
        ensures err { OnErr result (state_of self.new ≡ state_of self.old) }
        ensures kept { self.new.answered ≡ self.old.answered }
    {
        state_is_determined();
        if entry.reply.is_for_room() {
            return Ok(entry.call.changes_tree());
        }
        if !self.is_answer(entry.session, &entry.call, &entry.reply)? {
            return Ok(false);
        }
        self.change(entry.session, &entry.call, entry.stamp, &entry.reply)?;
        Ok(true)
    }

    /// The reply is that of the call, where none of its own refusals comes.
    fn is_answer(&self, session: u32, call: &Call, reply: &Reply) -> Result<bool, AllocError>
        requires { own_refusal call.now (state_of self.now) ≡ None }
        ensures { IfOk result (λ b. IsTrue b ↔ IsAnswer session call.now (state_of self.now) reply.now) }
    {
        if is_read(call) {
            let own = self.read(call)?;
            return Ok(own.is_same(reply));
        }
        Ok(self.is_answered(session, call, reply))
    }

    /// The same of a call that isn't one of those that read.
    fn is_answered(&self, session: u32, call: &Call, reply: &Reply) -> bool
        requires { is_read call.now ≡ false }
        ensures { IsTrue result ↔ IsAnswer session call.now (state_of self.now) reply.now }
    {
        match call {
            Call::Make { .. } => self.is_new(reply),
            Call::Remove { .. } => matches!(reply, Reply::Done),
            Call::Rename { .. } => matches!(reply, Reply::Done),
            Call::Lookup { .. } => false,
            Call::List { .. } => false,
            Call::Stat { .. } => false,
            Call::SetMode { .. } => matches!(reply, Reply::Done),
            Call::SetSize { .. } => matches!(reply, Reply::Done),
            Call::ReadLink { .. } => false,
            Call::AttrWrite { .. } => matches!(reply, Reply::Done),
            Call::AttrRead { .. } => false,
            Call::AttrRemove { .. } => matches!(reply, Reply::Done),
            Call::AttrList { .. } => false,
            Call::IndexMake { .. } => matches!(reply, Reply::Done),
            Call::IndexRemove { .. } => matches!(reply, Reply::Done),
            Call::IndexList => false,
            Call::IndexFind { .. } => false,
            Call::Hold { .. } => matches!(reply, Reply::Done),
            Call::Release {
                id,
                bytes,
                whole,
                ..
            } => self.is_released(session, *id, bytes.as_slice(), *whole, reply),
            Call::Sync => matches!(reply, Reply::Synced { .. }),
        }
    }

    /// The reply gives an id that no node has.
    fn is_new(&self, reply: &Reply) -> bool
        ensures { IsTrue result ↔ ((id : ℕ) × (reply.now ≡ Made id) × (get (nodes_of self.now.nodes.entries) id ≡ None)) }
    {
        match reply {
            Reply::Made { id } => match node_at(&self.nodes, *id) {
                None => true,
                Some(_) => false,
            },
            _ => false,
        }
    }

    /// A session may release a file so, with this reply.
    fn is_released(&self, session: u32, id: u64, bytes: &[u8], whole: bool, reply: &Reply) -> bool
        ensures { IsTrue result ↔ IsAnswer session (calls.Release id bytes.now whole 0 0) (state_of self.now) reply.now }
    {
        match reply {
            Reply::Done => self.may_release(session, id, bytes, whole),
            _ => false,
        }
    }

    /// The answer of a call that reads.
    fn read(&self, call: &Call) -> Result<Reply, AllocError>
        ensures { IsTrue (is_read call.now) → IfOk result (λ reply. Reads call.now (state_of self.now) reply) }
    {
        match call {
            Call::Make { .. } => Ok(Reply::Done),
            Call::Remove { .. } => Ok(Reply::Done),
            Call::Rename { .. } => Ok(Reply::Done),
            Call::Lookup { dir, name } => Ok(self.lookup(*dir, name.as_slice())),
            Call::List { dir } => self.list(*dir),
            Call::Stat { id } => self.stat(*id),
            Call::SetMode { .. } => Ok(Reply::Done),
            Call::SetSize { .. } => Ok(Reply::Done),
            Call::ReadLink { id } => self.read_link(*id),
            Call::AttrWrite { .. } => Ok(Reply::Done),
            Call::AttrRead { id, name } => self.attr_read(*id, name.as_slice()),
            Call::AttrRemove { .. } => Ok(Reply::Done),
            Call::AttrList { id } => self.attr_list(*id),
            Call::IndexMake { .. } => Ok(Reply::Done),
            Call::IndexRemove { .. } => Ok(Reply::Done),
            Call::IndexList => self.index_list(),
            Call::IndexFind { name, low, high } => self.index_find(name.as_slice(), low, high),
            Call::Hold { .. } => Ok(Reply::Done),
            Call::Release { .. } => Ok(Reply::Done),
            Call::Sync => Ok(Reply::Done),
        }
    }

    /// The change that a call makes where it is done with this reply.
    fn change(
        &mut self,
        session: u32,
        call: &Call,
        stamp: i64,
        reply: &Reply,
    ) -> Result<(), AllocError>
        ensures ok { OnOk result (state_of self.new ≡ changed session stamp call.now reply.now (state_of self.old)) }
        ensures err { OnErr result (state_of self.new ≡ state_of self.old) }
        ensures kept { self.new.answered ≡ self.old.answered }
    {
        match call {
            Call::Make {
                dir,
                name,
                kind,
                mode,
            } => self.make_node(*dir, name.as_slice(), kind, *mode, stamp, id_made(reply)),
            Call::Remove { dir, name } => self.remove_node(*dir, name.as_slice(), stamp),
            Call::Rename {
                dir,
                name,
                to_dir,
                to_name,
            } => self.rename_node(*dir, name.as_slice(), *to_dir, to_name.as_slice(), stamp),
            Call::Lookup { .. } => Ok(()),
            Call::List { .. } => Ok(()),
            Call::Stat { .. } => Ok(()),
            Call::SetMode { id, mode, uid, gid } => {
                let change = NodeChange::Mode {
                    mode: *mode,
                    uid: *uid,
                    gid: *gid,
                };
                change_node(&mut self.nodes, *id, change, stamp);
                Ok(())
            }
            Call::SetSize { id, size } => self.resize(*id, *size, stamp),
            Call::ReadLink { .. } => Ok(()),
            Call::AttrWrite {
                id,
                name,
                kind,
                bytes,
            } => self.put_attribute(*id, name.as_slice(), *kind, bytes.as_slice(), stamp),
            Call::AttrRead { .. } => Ok(()),
            Call::AttrRemove { id, name } => {
                remove_attribute(&mut self.nodes, *id, name.as_slice(), stamp);
                Ok(())
            }
            Call::AttrList { .. } => Ok(()),
            Call::IndexMake { name, kind } => self.add_index(name.as_slice(), *kind),
            Call::IndexRemove { name } => {
                drop_index(&mut self.indices, name.as_slice());
                Ok(())
            }
            Call::IndexList => Ok(()),
            Call::IndexFind { .. } => Ok(()),
            Call::Hold {
                id,
                at,
                length,
                write,
            } => {
                let hold = Hold {
                    session,
                    id: *id,
                    at: *at,
                    length: *length,
                    write: *write,
                };
                self.add_hold(hold, stamp)
            }
            Call::Release {
                id,
                bytes,
                whole,
                ..
            } => self.end_hold(session, *id, bytes.as_slice(), *whole),
            Call::Sync => Ok(()),
        }
    }
}
