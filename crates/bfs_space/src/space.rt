// A space: the history, the open group, the free space and the promises of one mount.
ghost use Rattle.std.specs.Prelude.{◌≡◌, ◌≢◌, ◌≤◌, ◌<◌, ◌^◌, ◌∷◌, ◌++◌, [], max, ℕ, List, Option, Some, true, length, IsTrue, IsFalse, IfOk, OnOk, OnErr, MatchOption};
ghost use Rattle.std.specs.Vec.{vec_capacity};
ghost use Rattle.bfs_base.specs.Lists.{times, Has};
ghost use Rattle.bfs_super.specs.Conditions.{IsValid, natural};
ghost use Rattle.bfs_super.specs.Geometry.{geometry_of};
ghost use Rattle.bfs_txn.specs.Changed.{over};
ghost use Rattle.bfs_tree.specs.declared.call.Call.TheVariants.{Sync};
ghost use Rattle.bfs_tree.specs.declared.call.Call.TheVariants as calls;
ghost use Rattle.bfs_tree.specs.declared.rows.Key as keys;
ghost use Rattle.bfs_tree.specs.Answers.{KeepsRanges};
ghost use Rattle.bfs_tree.specs.Steps.{is_done};
ghost use Rattle.bfs_tree.specs.declared.reply.Entry as entries;
ghost use Rattle.bfs_tree.specs.declared.reply.Reply.TheVariants.{Done};
ghost use Rattle.bfs_tree.specs.Histories.{Mounted, after};
ghost use Rattle.bfs_count.specs.Counts.{nodes_of};
ghost use Rattle.bfs_core.specs.Spaces.{IsGroupFor, sealed_space, released_space};
ghost use Rattle.bfs_space.specs.Faces.{IsFaceOf, HasFace, MayFace, HasOutcome, IsOutcome};
ghost use Rattle.bfs_space.specs.Holds.{keeps_holds};
ghost use Rattle.bfs_space.specs.Taken.{ArePlaces, HavePiece};
ghost use Rattle.bfs_bitmap.specs.Runs.{Fits};
ghost use Rattle.bfs_stream.specs.Grown.{IsOfVolume};
ghost use Rattle.bfs_stream.specs.Sizes.{sizes_of};
ghost use Rattle.bfs_replies.specs.Resting.{SaysFound};
ghost use Rattle.bfs_replies.specs.Books.{IsIdle, KnowsStop, fresh, without, with_note, entry_noted, stop_after, sealed_room, released_room};

use crate::holds::note_holds;
use crate::pieces::{Piece, hold_of, hold_or_stopped};
use crate::promises::{make_room, take_entry};
use crate::stamp::draw;
use bfs_bitmap::Bitmap;
use bfs_count::counted;
use bfs_device::Stop;
use bfs_replies::answers::Answers;
use bfs_replies::{NoReply, reply_or_stopped};
use bfs_super::Super;
use bfs_tree::{Call, Entry, Hold, Reply};
use bfs_txn::{Blocks, Changed, Group};
use std::alloc::{AllocError, Global};
use std::marker::Model;
use std::mem::replace;

/// The most entries and promises that a space takes.
const MOST: usize = 1 << 60;

/// The most nodes that are counted. A volume has fewer blocks.
const MOST_NODES: u64 = 1 << 60;

/// What has become of a call: it has an entry, which is the last one; or it is put off and handed back, since it needs more space or room in the
/// log than there is while something is held back.
#[derive(Debug, Drop)]
pub enum Outcome {
    Replied,
    Drain(Call),
}

/// The namespace of a mounted volume: the history of its calls, and what they changed since the last seal.
#[derive(Drop)]
pub struct Space {
    alloc: Global,
    sup: Super,
    bitmap: Bitmap,
    group: Changed,
    history: Vec<Entry>,
    /// How many entries sealed groups cover, and the used blocks after them.
    sealed: u64,
    sealed_used: u64,
    /// The last entry's stamp.
    last: i64,
    promised: Vec<u32>,
    /// The holds that the entries leave to sessions, with room for one more by each promise.
    holds: Vec<Hold>,
    stop: Option<Stop>,
    /// Up to which number groups have left the log.
    left: u64,
    /// How many nodes there are.
    nodes: u64,
}

impl Model for Space {
    ghost use Rattle.std.specs.Prelude.{◌≡◌, ◌≤◌, ◌+◌, ◌^◌, length};
    ghost use Rattle.std.specs.Vec.{vec_capacity};
    ghost use Rattle.bfs_replies.specs.Books.{SpaceBooks, HasParts, IsLastStamp, KnowsStop};
    ghost use Rattle.bfs_space.specs.Holds.{held_by};

    ghost Value = { SpaceBooks };

    ghost view = { λ s. record { view = record { sup = s.sup; used = s.bitmap.tally.used; group = s.group; history = s.history.items; sealed = s.sealed; sealed_used = s.sealed_used; given = s.bitmap.given }; room = s.bitmap; promised = s.promised.items; stop = s.stop; left = s.left; nodes = s.nodes } };

    ghost invariant = { λ s. HasParts s.sup s.bitmap s.group s.sealed (length s.history.items) × IsLastStamp s.history.items s.last × (length s.history.items + length s.promised.items ≤ vec_capacity s.history) × (length s.history.items + length s.promised.items ≤ 2 ^ 60) × KnowsStop s.history.items s.stop × (s.holds.items ≡ held_by s.history.items) × (length s.holds.items + length s.promised.items ≤ vec_capacity s.holds) };
}

impl Space {
    ghost use Rattle.bfs_replies.specs.Books.{SpaceBooks};

    /// The space of a volume that is whole with an empty log and has so many nodes, with an empty history and nothing reserved. It
    /// promises session 0 one entry.
    pub fn open(alloc: Global, sup: Super, nodes: u64) -> Result<Space, AllocError>
        requires valid { IsValid sup }
        requires emptied { sup.log_start ≡ sup.log_end }
        requires used { natural sup.used_blocks ≤ natural sup.num_blocks }
        ensures { IfOk result (λ s. s ≡ fresh sup nodes) }
    {
        let history = Vec::with_capacity(alloc, 1)?;
        let mut promised = Vec::new(alloc);
        promised.push(0)?;
        let holds = Vec::with_capacity(alloc, 1)?;
        let bitmap = Bitmap::of(alloc, &sup);
        let sealed_used = bitmap.used();
        Ok(Space {
            alloc,
            bitmap,
            group: Changed::new(alloc),
            history,
            sealed: 0,
            sealed_used,
            last: 0,
            promised,
            holds,
            stop: None,
            left: 0,
            nodes,
            sup,
        })
    }

    /// The entries, in their order. Takes no memory.
    pub fn history(&self) -> &[Entry]
        ensures { result.now ≡ self.now.view.history }
    {
        self.history.as_slice()
    }

    /// The block of the root's inode. Takes no memory.
    pub fn root(&self) -> u64
        ensures { result ≡ (geometry_of self.now.view.sup).root }
    {
        self.sup.geometry().root
    }

    /// How many nodes there are, by what was counted when the volume was opened and by each call since. Takes no memory.
    pub fn nodes(&self) -> u64
        ensures { result ≡ self.now.nodes }
    {
        self.nodes
    }

    /// How many bytes a block has, which are at most 8,192. Takes no memory.
    pub fn block_size(&self) -> u32
        ensures value { result ≡ self.now.view.sup.block_size }
        ensures small { result ≤ 8192 }
        ensures volume { IsOfVolume (sizes_of self.now.view.sup) self.now.room }
    {
        self.sup.block_size
    }

    /// Gives the entries up. Takes no memory.
    pub fn into_history(self) -> Vec<Entry>
        ensures { result.items ≡ self.view.history }
    {
        let Space {
            alloc: _,
            sup: _,
            bitmap: _,
            group: _,
            history,
            sealed: _,
            sealed_used: _,
            last: _,
            promised: _,
            holds: _,
            stop: _,
            left: _,
            nodes: _,
        } = self;
        history
    }

    /// What is true of the books of every space. Takes no memory.
    pub fn steady(&self)
        ensures stop { KnowsStop self.now.view.history self.now.stop }
    {
        let _stop = self.stop;
    }

    /// Promises a session room for one entry, and for a hold that it may leave, which every other call keeps.
    pub fn promise(&mut self, session: u32) -> Result<(), AllocError>
        requires none { times session self.old.promised ≡ 0 }
        ensures ok { OnOk result (self.new ≡ record self.old { promised = self.old.promised ++ session ∷ [] }) }
        ensures err { OnErr result (self.new ≡ self.old) }
    {
        if self.history.len() >= MOST - 1 - self.promised.len() {
            return Err(AllocError);
        }
        self.history.reserve(self.promised.len() + 1)?;
        self.holds.reserve(self.promised.len() + 1)?;
        self.promised.push(session)?;
        Ok(())
    }

    /// Ends a session's promise. Takes no memory.
    pub fn unpromise(&mut self, session: u32)
        ensures { self.new ≡ record self.old { promised = without session self.old.promised } }
    {
        drop_promise(&mut self.promised, session);
    }

    /// Appends an entry with this reply, by the session's promise, which ends. Its stamp is drawn from the clock's seconds. Where
    /// the reply is a fault of the disk that stops, `durable` is kept for later replies. Takes no memory.
    pub fn note(&mut self, session: u32, tag: u32, now: u64, call: Call, reply: Reply, durable: u64)
        requires promised { Has self.old.promised session }
        requires now { now < 2 ^ 40 }
        ensures { self.new ≡ with_note self.old session (entry_noted self.old session tag now call reply) durable }
    {
        let stamp = draw(self.last, now);
        self.stop = stop_with(self.stop, &reply, durable);
        self.last = stamp;
        drop_promise(&mut self.promised, session);
        let entry = Entry {
            session,
            tag,
            stamp,
            call,
            reply,
        };
        note_holds(&mut self.holds, &entry);
        append(&mut self.history, entry);
    }

    /// Answers a call over what lies below the open group. Its entry is appended with the reply and a stamp drawn from the clock's seconds, and
    /// what the call changed is in the open group. Or it is put off until the log is empty, and handed back. Where no memory was found nothing
    /// has changed. The reply is that of the last entry.
    pub fn call<A: Answers, B: Blocks>(
        &mut self,
        answers: &A,
        under: &mut B,
        session: u32,
        tag: u32,
        now: u64,
        call: Call,
    ) -> Result<Outcome, AllocError>
        requires now { now < 2 ^ 40 }
        requires session { session ≢ 0 }
        requires call { call ≢ Sync }
        requires serves { A.serves call ≡ true }
        requires stays { keeps_holds call ≡ true }
        requires ranges { KeepsRanges call }
        requires size { B.size under.old ≡ self.old.view.sup.block_size }
        requires faced { (m : ℕ → Option (List ℕ)) → B.told under.old ≡ Some m → MayFace self.old m call }
        ensures entered { (t0 : Mounted) (m : ℕ → Option (List ℕ)) → B.told under.old ≡ Some m → IsFaceOf t0 self.old m → IfOk result (IsOutcome t0 self.old self.new m session tag now call) }
        // A search of an index rests on the index alone: so it is where what is told says that of what the space stands over.
        ensures rests { (t0 : Mounted) (m w : ℕ → Option (List ℕ)) (name : List ℕ) (low high : keys.Key) → B.told under.old ≡ Some m → call ≡ calls.IndexFind name low high → IsFaceOf t0 self.old w → SaysFound (geometry_of self.old.view.sup) (over self.old.view.group w) (over self.old.view.group m) (after t0 self.old.view.history) name low high → IfOk result (IsOutcome t0 self.old self.new w session tag now call) }
        // Where they were counted rightly, the nodes are.
        ensures counted { (t0 : Mounted) (m : ℕ → Option (List ℕ)) → B.told under.old ≡ Some m → IsFaceOf t0 self.old m → self.old.nodes ≡ nodes_of (after t0 self.old.view.history) → OnOk result (self.new.nodes ≡ nodes_of (after t0 self.new.view.history)) }
        ensures noted { IfOk result (HasOutcome (B.counts under.old) (B.counts under.new) self.old self.new session tag now call) }
        ensures no_memory { OnErr result (self.new ≡ self.old) }
        ensures told { B.told under.new ≡ B.told under.old }
        ensures note { (B.frame under.new).note ≡ (B.frame under.old).note }
        ensures size { B.size under.new ≡ B.size under.old }
    {
        if self.history.len() >= MOST - 1 - self.promised.len() {
            return Err(without_call(call));
        }
        match self.history.reserve(self.promised.len() + 1) {
            Ok(()) => {}
            Err(_) => return Err(without_call(call)),
        }
        if self.nodes >= MOST_NODES {
            return Err(without_call(call));
        }
        let stamp = draw(self.last, now);
        let idle = self.is_idle();
        let mut replaced = false;
        match reply_or_stopped(
            self.stop,
            self.alloc,
            &self.sup,
            answers,
            &mut self.bitmap,
            &mut self.group,
            under,
            idle,
            self.holds.as_slice(),
            &call,
            stamp,
            &mut replaced,
        ) {
            Ok(reply) => {
                self.last = stamp;
                self.nodes = counted(self.nodes, &call, &reply, replaced);
                let entry = Entry {
                    session,
                    tag,
                    stamp,
                    call,
                    reply,
                };
                append(&mut self.history, entry);
                Ok(Outcome::Replied)
            }
            Err(NoReply::Drain) => Ok(Outcome::Drain(call)),
            Err(NoReply::NoMemory) => Err(without_call(call)),
        }
    }

    /// Holds a piece of a file to be read or written, and finds the blocks that have its bytes: they are put in `places`, in the place of what
    /// that held. Else as `call`. A hold that was taken promises its session an entry, that of its release.
    pub fn hold<B: Blocks>(
        &mut self,
        under: &mut B,
        session: u32,
        tag: u32,
        now: u64,
        id: u64,
        at: u64,
        length: u64,
        write: bool,
        places: &mut Vec<u64>,
    ) -> Result<Outcome, AllocError>
        requires now { now < 2 ^ 40 }
        requires session { session ≢ 0 }
        requires unpromised { times session self.old.promised ≡ 0 }
        requires size { B.size under.old ≡ self.old.view.sup.block_size }
        requires faced { (m : ℕ → Option (List ℕ)) → B.told under.old ≡ Some m → HasFace self.old m }
        ensures entered { (t0 : Mounted) (m : ℕ → Option (List ℕ)) → B.told under.old ≡ Some m → IsFaceOf t0 self.old m → IfOk result (IsOutcome t0 self.old self.new m session tag now (calls.Hold id at length write)) }
        // A hold leaves the nodes as they are.
        ensures counted { (t0 : Mounted) (m : ℕ → Option (List ℕ)) → B.told under.old ≡ Some m → IsFaceOf t0 self.old m → self.old.nodes ≡ nodes_of (after t0 self.old.view.history) → OnOk result (self.new.nodes ≡ nodes_of (after t0 self.new.view.history)) }
        ensures noted { IfOk result (HasOutcome (B.counts under.old) (B.counts under.new) self.old self.new session tag now (calls.Hold id at length write)) }
        ensures places { IfOk result (λ o. ArePlaces self.old self.new at length places.new.items) }
        ensures piece { (t0 : Mounted) (m : ℕ → Option (List ℕ)) → B.told under.old ≡ Some m → IsFaceOf t0 self.old m → IfOk result (λ o. HavePiece self.old self.new m id at length places.new.items) }
        // A hold that is done is answered Done.
        ensures done { IfOk result (λ o. (e : entries.Entry) → self.new.view.history ≡ self.old.view.history ++ e ∷ [] → is_done e.reply ≡ true → e.reply ≡ Done) }
        ensures no_memory { OnErr result (self.new ≡ self.old) }
        ensures told { B.told under.new ≡ B.told under.old }
        ensures note { (B.frame under.new).note ≡ (B.frame under.old).note }
        ensures size { B.size under.new ≡ B.size under.old }
    {
        if self.history.len() >= MOST - 1 - self.promised.len() {
            return Err(AllocError);
        }
        match make_room(&mut self.history, &mut self.promised, &mut self.holds) {
            Ok(()) => {}
            Err(fault) => return Err(fault),
        }
        let piece = Piece {
            id,
            at,
            length,
            write,
        };
        let call = hold_of(piece);
        let stamp = draw(self.last, now);
        let idle = self.is_idle();
        match hold_or_stopped(
            self.stop,
            self.alloc,
            &self.sup,
            &mut self.bitmap,
            &mut self.group,
            under,
            idle,
            self.holds.as_slice(),
            &call,
            stamp,
            piece,
            places,
        ) {
            Ok(reply) => {
                self.last = stamp;
                let entry = Entry {
                    session,
                    tag,
                    stamp,
                    call,
                    reply,
                };
                take_entry(
                    &mut self.history,
                    &mut self.promised,
                    &mut self.holds,
                    entry,
                );
                Ok(Outcome::Replied)
            }
            Err(NoReply::Drain) => Ok(Outcome::Drain(call)),
            Err(NoReply::NoMemory) => Err(without_call(call)),
        }
    }

    /// Whether nothing is held back: no run is reserved, nothing waits for a seal, and each sealed group has left the log.
    fn is_idle(&self) -> bool
        ensures idle { IsTrue result → IsIdle self.now }
        ensures busy { IsFalse result → ¬ IsIdle self.now }
    {
        if self.bitmap.has_given() {
            return false;
        }
        if !self.group.is_empty() {
            return false;
        }
        if self.sealed != self.history.len() as u64 {
            return false;
        }
        if self.sealed > self.left {
            return false;
        }
        true
    }

    /// The entries since the last seal as one group, with the blocks that they changed; None where there are none. Takes no
    /// memory.
    pub fn seal(&mut self) -> Option<Group>
        ensures fits { (m : ℕ → Option (List ℕ)) → Fits self.old.room m → Fits self.new.room m }
        ensures sealed { MatchOption result ((self.old.view.sealed ≡ length self.old.view.history) × (self.new ≡ self.old)) (λ g. IsGroupFor self.old.view g × (self.new ≡ record self.old { view = sealed_space self.old.view; room = sealed_room (length self.old.view.history) self.old.room })) }
    {
        let last = self.history.len() as u64;
        if last == self.sealed {
            return None;
        }
        let used = self.bitmap.used();
        let blocks = replace(&mut self.group, Changed::new(self.alloc));
        self.bitmap.close_group(last);
        let first = self.sealed + 1;
        self.sealed = last;
        self.sealed_used = used;
        Some(Group {
            first,
            last,
            used,
            blocks,
        })
    }

    /// Frees the runs that were given back in groups up to this number. Takes no memory.
    pub fn released(&mut self, group: u64)
        ensures released { self.new ≡ record self.old { view = released_space group self.old.view; room = released_room group self.old.room; left = max self.old.left group } }
        ensures fits { (m : ℕ → Option (List ℕ)) → Fits self.old.room m → Fits self.new.room m }
    {
        self.bitmap.release(group);
        self.left = self.left.max(group);
    }
}

/// Takes a session's promises out.
fn drop_promise(promised: &mut Vec<u32>, session: u32)
    ensures { promised.new.items ≡ without session promised.old.items }
{
    promised.retain(|other| *other != session);
}

/// Gives a call up for which no memory was found.
fn without_call(_call: Call) -> AllocError {
    AllocError
}

/// Appends an entry, for which there is room.
pub fn append(history: &mut Vec<Entry>, entry: Entry)
    requires { length history.old.items < vec_capacity history.old }
    ensures items { history.new.items ≡ history.old.items ++ entry ∷ [] }
    ensures room { vec_capacity history.old ≤ vec_capacity history.new }
{
    match history.push(entry) {
        Ok(()) => {}
        Err(_) => {}
    }
}

/// The stop that is known after an entry with this reply.
fn stop_with(stop: Option<Stop>, reply: &Reply, durable: u64) -> Option<Stop>
    ensures { result ≡ stop_after stop reply.now durable }
{
    if let Some(known) = stop {
        return Some(known);
    }
    match reply {
        Reply::DiskFault { after, stops, .. } => {
            if *stops {
                Some(Stop {
                    durable,
                    faults: *after,
                })
            } else {
                None
            }
        }
        _ => None,
    }
}
