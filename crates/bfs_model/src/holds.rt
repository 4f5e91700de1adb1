// The service calls: holds on pieces of files, and what is durable.
ghost use Rattle.std.specs.Prelude.{◌≡◌, ◌↔◌, ℕ, ℤ, ◌<◌, ◌&&◌, IfOk, OnOk, OnErr, Some, IsTrue, IsSomeAnd, length, if◌then◌else◌};
ghost use Rattle.std.specs.FinMap.{get};
ghost use Rattle.std.specs.List.{remove};
ghost use Rattle.bfs_tree.specs.declared.state.Hold.{Hold};
ghost use Rattle.bfs_tree.specs.States.{last_hold};
ghost use Rattle.bfs_tree.specs.Answers.{Ends};
ghost use Rattle.bfs_tree.specs.Changes.{holding, holding_to_write, released};
ghost use Rattle.bfs_tree.specs.Steps.{Reads, ByTree};
ghost use Rattle.bfs_model.specs.Kept.{state_of};
ghost use Rattle.bfs_tree.specs.declared.call.Call.TheVariants as calls;
ghost use Rattle.bfs_tree.specs.declared.reply.Reply.TheVariants.{Synced};

use crate::model::Model;
use bfs_known::{Places, agrees, byte_at, forget};
use bfs_plain::{NodeChange, change_node, last_hold_at, last_hold_of, learn_whole};
use bfs_tree::{Hold, Reply};
use std::alloc::AllocError;

impl Model {
    /// A whole Release may say that these bytes were written or read under the hold.
    fn may_end(&self, hold: Hold, bytes: &[u8]) -> bool
        ensures { IsTrue result ↔ Ends (state_of self.now) hold bytes.now }
    {
        bytes.len() as u64 == hold.length
            && (hold.write || agrees(&self.known, hold.id, hold.at, bytes))
    }

    /// A session may release a file so: it has a hold there, and where the release is whole, the bytes may be
    /// those of its last hold.
    pub fn may_release(&self, session: u32, id: u64, bytes: &[u8], whole: bool) -> bool
        ensures { IsTrue result ↔ IsSomeAnd (last_hold self.now.holds.items session id) (λ hold. IsTrue whole → Ends (state_of self.now) hold bytes.now) }
    {
        match last_hold_of(&self.holds, session, id) {
            None => false,
            Some(hold) => !whole || self.may_end(hold, bytes),
        }
    }

    /// The byte that is known at a place of a file.
    pub fn known_at(&self, id: u64, place: u64) -> Option<u8>
        ensures { result ≡ get (state_of self.now).known (id, place) }
    {
        byte_at(&self.known, id, place)
    }

    /// Holds a piece of a file, for writing or for reading.
    pub fn hold(
        &mut self,
        session: u32,
        id: u64,
        at: u64,
        length: u64,
        write: bool,
        stamp: i64,
    ) -> Result<Reply, AllocError>
        ensures ok { IfOk result (λ reply. ByTree session stamp (calls.Hold id at length write) reply (state_of self.old) (state_of self.new)) }
        ensures err { OnErr result (state_of self.new ≡ state_of self.old) }
        ensures kept { self.new.answered ≡ self.old.answered }
    {
        match self.refuse_hold(id, at, length, write) {
            Some(reply) => Ok(reply),
            None => {
                let hold = Hold {
                    session,
                    id,
                    at,
                    length,
                    write,
                };
                self.add_hold(hold, stamp)?;
                Ok(Reply::Done)
            }
        }
    }

    pub(crate) fn add_hold(&mut self, hold: Hold, stamp: i64) -> Result<(), AllocError>
        ensures ok { OnOk result (state_of self.new ≡ holding (state_of self.old) hold stamp) }
        ensures err { OnErr result (state_of self.new ≡ state_of self.old) }
        ensures kept { self.new.answered ≡ self.old.answered }
    {
        if hold.write {
            self.hold_to_write(hold, stamp)
        } else {
            self.holds.push(hold)?;
            Ok(())
        }
    }

    fn hold_to_write(&mut self, hold: Hold, stamp: i64) -> Result<(), AllocError>
        ensures ok { OnOk result (state_of self.new ≡ holding_to_write (state_of self.old) hold stamp) }
        ensures err { OnErr result (state_of self.new ≡ state_of self.old) }
        ensures kept { self.new.answered ≡ self.old.answered }
    {
        let piece = Places::Piece {
            at: hold.at,
            count: hold.length,
        };
        self.holds.push(hold)?;
        forget(&mut self.known, hold.id, piece);
        change_node(&mut self.nodes, hold.id, NodeChange::Content, stamp);
        Ok(())
    }

    /// Ends the session's last hold on a file. The bytes of a whole write are known from then on.
    pub fn release(
        &mut self,
        session: u32,
        id: u64,
        bytes: &[u8],
        whole: bool,
    ) -> Result<Reply, AllocError>
        requires { IsSomeAnd (last_hold self.old.holds.items session id) (λ hold. IsTrue whole → Ends (state_of self.old) hold bytes.now) }
        ensures ok { IfOk result (λ reply. (stamp : ℤ) (before after : ℕ) → ByTree session stamp (calls.Release id bytes.now whole before after) reply (state_of self.old) (state_of self.new)) }
        ensures err { OnErr result (state_of self.new ≡ state_of self.old) }
        ensures kept { self.new.answered ≡ self.old.answered }
    {
        self.end_hold(session, id, bytes, whole)?;
        Ok(Reply::Done)
    }

    /// The session's last hold on a file goes, if it has one.
    pub(crate) fn end_hold(
        &mut self,
        session: u32,
        id: u64,
        bytes: &[u8],
        whole: bool,
    ) -> Result<(), AllocError>
        ensures ok { OnOk result (state_of self.new ≡ released (state_of self.old) session id bytes.now whole (last_hold self.old.holds.items session id)) }
        ensures err { OnErr result (state_of self.new ≡ state_of self.old) }
        ensures kept { self.new.answered ≡ self.old.answered }
    {
        let Some(hold) = last_hold_of(&self.holds, session, id) else {
            return Ok(());
        };
        let at = last_hold_at(&self.holds, session, id);
        learn_whole(&mut self.known, id, hold, bytes, whole)?;
        let _ = self.holds.remove(at);
        Ok(())
    }

    /// Says up to which place of the history a session's calls are durable.
    pub fn sync(&self, upto: u64) -> Reply
        ensures ok { Reads calls.Sync (state_of self.now) result }
        ensures upto { result ≡ Synced upto }
    {
        Reply::Synced { upto }
    }
}
