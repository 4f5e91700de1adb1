// One call of any kind.
ghost use Rattle.std.specs.Prelude.{◌≡◌, ◌↔◌, ◌+◌, ◌-◌, ◌^◌, min, IfOk, IsTrue, OnErr, OnOk};
ghost use Rattle.bfs_tree.specs.Answers.{IsReady};
ghost use Rattle.bfs_tree.specs.Steps.{ByTree};
ghost use Rattle.bfs_tree.specs.Trees.{IsPlain};
ghost use Rattle.bfs_tree.specs.declared.call.Call.TheVariants as calls;
ghost use Rattle.bfs_tree.specs.declared.reply.Reply.TheVariants.{Synced};
ghost use Rattle.bfs_model.specs.Kept.{state_of};

use crate::model::Model;
use bfs_tree::{Call, Reply, step_keeps_plain};
use std::alloc::AllocError;

impl Model {
    /// Answers a session's call, of an entry with this stamp, and changes the tree, which stays plain. It is
    /// refused by the call's own refusals alone, never for want of room, nor by the disk. A Sync is told the
    /// number of calls that were answered before it.
    pub fn apply(&mut self, session: u32, call: &Call, stamp: i64) -> Result<Reply, AllocError>
        requires { IsReady session call.now (state_of self.old) }
        ensures ok { IfOk result (λ reply. ByTree session stamp call.now reply (state_of self.old) (state_of self.new)) }
        ensures plain { IsPlain (state_of self.old).tree → IsPlain (state_of self.new).tree }
        ensures upto { call.now ≡ calls.Sync → IfOk result (λ reply. reply ≡ Synced self.old.answered) }
        ensures counted { OnOk result (self.new.answered ≡ min (self.old.answered + 1) (2 ^ 64 - 1)) }
        ensures err { OnErr result (state_of self.new ≡ state_of self.old) }
        ensures uncounted { OnErr result (self.new.answered ≡ self.old.answered) }
    {
        step_keeps_plain();
        let reply = self.answer(session, call, stamp)?;
        self.answered = self.answered.saturating_add(1);
        Ok(reply)
    }

    /// A session may make this call: any but a release that is none of its.
    pub fn is_ready(&self, session: u32, call: &Call) -> bool
        ensures { IsTrue result ↔ IsReady session call.now (state_of self.now) }
    {
        match call {
            Call::Release {
                id,
                bytes,
                whole,
                ..
            } => self.may_release(session, *id, bytes.as_slice(), *whole),
            _ => true,
        }
    }

    fn answer(&mut self, session: u32, call: &Call, stamp: i64) -> Result<Reply, AllocError>
        requires { IsReady session call.now (state_of self.old) }
        ensures ok { IfOk result (λ reply. ByTree session stamp call.now reply (state_of self.old) (state_of self.new)) }
        ensures upto { call.now ≡ calls.Sync → IfOk result (λ reply. reply ≡ Synced self.old.answered) }
        ensures kept { self.new.answered ≡ self.old.answered }
        ensures err { OnErr result (state_of self.new ≡ state_of self.old) }
    {
        match call {
            Call::Make {
                dir,
                name,
                kind,
                mode,
            } => Ok(self.make(*dir, name.as_slice(), kind, *mode, stamp)?),
            Call::Remove { dir, name } => Ok(self.remove(*dir, name.as_slice(), stamp)?),
            Call::Rename {
                dir,
                name,
                to_dir,
                to_name,
            } => Ok(self.rename(*dir, name.as_slice(), *to_dir, to_name.as_slice(), stamp)?),
            Call::Lookup { dir, name } => Ok(self.lookup(*dir, name.as_slice())),
            Call::List { dir } => Ok(self.list(*dir)?),
            Call::Stat { id } => Ok(self.stat(*id)?),
            Call::SetMode { id, mode, uid, gid } => Ok(self.set_mode(
                *id, *mode, *uid, *gid, stamp,
            )),
            Call::SetSize { id, size } => Ok(self.set_size(*id, *size, stamp)?),
            Call::ReadLink { id } => Ok(self.read_link(*id)?),
            Call::AttrWrite {
                id,
                name,
                kind,
                bytes,
            } => Ok(self.attr_write(*id, name.as_slice(), *kind, bytes.as_slice(), stamp)?),
            Call::AttrRead { id, name } => Ok(self.attr_read(*id, name.as_slice())?),
            Call::AttrRemove { id, name } => Ok(self.attr_remove(*id, name.as_slice(), stamp)),
            Call::AttrList { id } => Ok(self.attr_list(*id)?),
            Call::IndexMake { name, kind } => Ok(self.index_make(name.as_slice(), *kind, stamp)?),
            Call::IndexRemove { name } => Ok(self.index_remove(name.as_slice(), stamp)),
            Call::IndexList => Ok(self.index_list()?),
            Call::IndexFind { name, low, high } => Ok(self.index_find(name.as_slice(), low, high)?),
            Call::Hold {
                id,
                at,
                length,
                write,
            } => Ok(self.hold(session, *id, *at, *length, *write, stamp)?),
            Call::Release {
                id,
                bytes,
                whole,
                ..
            } => Ok(self.release(session, *id, bytes.as_slice(), *whole)?),
            Call::Sync => Ok(self.sync(self.answered)),
        }
    }
}
