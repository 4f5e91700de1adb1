// A mounted volume.
ghost use Rattle.std.specs.Prelude.{◌≡◌, ◌≢◌, ◌≤◌, ◌⊎◌, ℕ, List, [], Ok, Some, true, false, length, IfOk, IfErr, IsSome, OnOk, OnErr, MatchResult, Option, None};
ghost use Rattle.bfs_base.specs.Moments.{Passed};
ghost use Rattle.bfs_disk.specs.State.{Tells, Holds, ReadsAs};
ghost use Rattle.bfs_disk.specs.Disk.{MayLeave};
ghost use Rattle.bfs_replay.specs.Recover.{GoesOn};
ghost use Rattle.bfs_tree.specs.declared.call.Call.TheVariants.{Hold, Sync};
ghost use Rattle.bfs_tree.specs.declared.reply.Reply.TheVariants.{Synced};
ghost use Rattle.bfs_tree.specs.Answers.{KeepsRanges};
ghost use Rattle.bfs_tree.specs.Histories.{Mounted, after};
ghost use Rattle.bfs_tree.specs.Trees.{Tree};
ghost use Rattle.bfs_super.specs.Conditions.{IsValid};
ghost use Rattle.bfs_super.specs.Geometry.{geometry_of};
ghost use Rattle.bfs_sound.specs.Whole.{Recovers};
ghost use Rattle.bfs_device.specs.Books.{IsOnDisk, durable_of};
ghost use Rattle.bfs_device.specs.declared.journal.Stop as stops;
ghost use Rattle.bfs_core.specs.Cores.{RecoversFrom};
ghost use Rattle.bfs_core.specs.Chains.{Image, image_in};
ghost use Rattle.bfs_core.specs.Settled.{KeepsKnown};
ghost use Rattle.bfs_core.specs.Moments.{Adoption, KeptSince, adopted_from};
ghost use Rattle.bfs_device_blocks.specs.Lent.{HasCore};
ghost use Rattle.bfs_count.specs.Counts.{nodes_of};
ghost use Rattle.bfs_file_io.specs.Looks.{is_built};
ghost use Rattle.bfs_mount.specs.Mounts.{IsHeld, IsHeldWhole, IsMountedFrom, IsUnmounted, HasUnmountedCause};
ghost use Rattle.bfs_file_io.specs.Entries.{HasEntry, HasEntryOf, HasFailedSync, HasReplyIn, IsAnsweredIn, IsEnded, IsStoppedEntry, IsStoppedSync};
ghost use Rattle.bfs_volume.specs.Events.{HasCountsOf, MayHappen, MayWantMemory, IsHappened, IsOneCall, IsStoppedEvent, HasReplied};
ghost use Rattle.bfs_file_io.specs.Causes.{HasSyncCause, HasStopCause};
ghost use Rattle.bfs_volume.specs.Closing.{IsChained, IsLeft};
ghost use Rattle.bfs_file_io.specs.Failing.{HasFailures, KeepsCounts};
ghost use Rattle.bfs_file_io.specs.Pieces.{HasPiece, HasHoldIn, IsHoldIn, HasReleaseCause};
ghost use Rattle.bfs_file_io.specs.Stamps.{HasDrawn};

use crate::among::{answer_among, read_among, sync_among, write_among};
use crate::event::{Event, Happened, make_event};
use bfs_cache::Cache;
use bfs_device::{Device, DeviceFault};
use bfs_disk::Disk;
use bfs_file_io::commit::{SyncFault, settle};
use bfs_file_io::space::{Calls, Space};
use bfs_file_io::{OpenPiece, Piece};
use bfs_mount::{Unmounted, replay_and_check};
use bfs_ports::Clock;
use bfs_replay::MountFault;
use bfs_super::Super;
use bfs_tree::{Call, Entry};
use std::alloc::{AllocError, Global};
use std::marker::Model;

/// A mounted volume: the space of its names, over the device with its journal, the clock that gives stamps, and the pieces of files that sessions hold.
/// Sessions call it one after the other; a piece may be held over the calls of others.
#[derive(Drop)]
pub struct Volume<D: Disk, C: Clock> {
    alloc: Global,
    space: Space,
    device: Device<D>,
    clock: C,
    pieces: Vec<OpenPiece>,
}

impl<D: Disk, C: Clock> Model for Volume<D, C> {
    ghost use Rattle.std.specs.Prelude.{◌≤◌};
    ghost use Rattle.bfs_file_io.specs.Open.{AreOpen};
    ghost use Rattle.bfs_file_io.specs.Volumes.{VolumeView, AreJoined};

    ghost Value = { VolumeView D C };

    ghost view = { λ v. record { space = v.space; device = v.device; clock = v.clock; pieces = v.pieces.items } };

    ghost invariant = { λ v. AreJoined v.space v.device.books (D.state v.device.disk) × AreOpen v.pieces.items v.space v.device.books (D.state v.device.disk) × (1 ≤ v.device.books.spare) };
}

impl<D: Disk, C: Clock> Volume<D, C> {
    /// Opens a volume whose log was replayed, and that is whole with so many nodes. Takes memory alone: for want of it disk and clock are handed back.
    fn open_replayed(
        alloc: Global,
        disk: D,
        clock: C,
        cache: u32,
        sup: Super,
        nodes: u64,
    ) -> Result<Volume<D, C>, (D, C)>
        requires valid { IsValid sup }
        requires empty { sup.log_start ≡ sup.log_end }
        requires on_disk { IsOnDisk (D.size disk) sup }
        requires whole { IsHeldWhole sup nodes (D.state disk) }
        ensures core { (t0 : Mounted) (image : List ℕ) (begun : ℕ) → begun ≤ D.clock disk → ∥ KeptSince t0 [] (D.clock disk) (D.since disk) begun 0 ∥₁ → Tells (D.state disk) (Holds image) → IsMountedFrom image t0
            → IfOk result (λ v. HasCore t0 (adopted_from begun (D.clock v.device.disk) (Some (image_in image))) v.space.view v.device.books (D.state v.device.disk) (D.clock v.device.disk) (D.since v.device.disk)) }
        ensures clock { IfOk result (λ v. v.clock ≡ clock) }
        ensures fresh { IfOk result (λ v. v.space.view.history ≡ []) }
        ensures disk { IfOk result (λ v. v.device.disk ≡ disk) }
        ensures going { IfOk result (λ v. v.device.books.stop ≡ None) }
        ensures back { IfErr result (λ e. e.0 ≡ disk) }
    {
        // (a whole volume has no more blocks in use than there are)
        let geometry = sup.geometry();
        if geometry.used > geometry.blocks {
            return Err((disk, clock));
        }
        let Ok(kept) = Cache::new(alloc, cache) else {
            return Err((disk, clock));
        };
        let Ok(space) = Space::open(alloc, sup, nodes) else {
            return Err((disk, clock));
        };
        let device = match Device::adopt(alloc, disk, sup) {
            Ok(device) => device.cached(kept),
            Err(disk) => return Err((disk, clock)),
        };
        device.steady();
        Ok(Volume {
            alloc,
            space,
            device,
            clock,
            pieces: Vec::new(alloc),
        })
    }

    /// Mounts a volume: replays its log, checks it, and opens it with an empty history where it is whole. `cache` is for how many read blocks there
    /// is room. Where it isn't mounted, disk and clock are handed back. What led to it may have begun earlier: at a moment since which a crash might have
    /// left only what recovers.
    pub fn mount(
        alloc: Global,
        disk: D,
        clock: C,
        cache: u32,
    ) -> Result<Volume<D, C>, (Unmounted, D, C)>
        requires held { IsHeld (D.state disk) }
        // It is mounted only where the image recovers, and then to the one tree that it recovers to.
        ensures recovers { (image : List ℕ) → Tells (D.state disk) (Holds image) → OnOk result ((tree : Tree) × Recovers image tree) }
        ensures core { (t0 : Mounted) (image : List ℕ) (begun : ℕ) → begun ≤ D.clock disk → ∥ KeptSince t0 [] (D.clock disk) (D.since disk) begun 0 ∥₁ → Tells (D.state disk) (Holds image) → (mounted : IsMountedFrom image t0)
            → IfOk result (λ v. HasCore t0 (adopted_from begun (D.clock v.device.disk) (Some (image_in mounted.next))) v.space.view v.device.books (D.state v.device.disk) (D.clock v.device.disk) (D.since v.device.disk)) }
        ensures clock { IfOk result (λ v. v.clock ≡ clock) }
        ensures fresh { IfOk result (λ v. v.space.view.history ≡ []) }
        // Why it isn't mounted is true of what the disk held, and a failed disk has its cause.
        ensures refused { (image : List ℕ) → Tells (D.state disk) (Holds image) → IfErr result (λ e. IsUnmounted image e.0) }
        ensures cause { IfErr result (λ e. HasUnmountedCause (D.faults disk) (D.faults e.1) e.0) }
        // And a crash meanwhile left the image, or one that is replayed to the same.
        ensures time { (image : List ℕ) → Tells (D.state disk) (Holds image) → IfErr result (λ e. ∥ Passed (D.clock disk) (D.clock e.1) (D.since disk) (D.since e.1) (GoesOn image) ∥₁) }
        ensures going { IfOk result (λ v. v.device.books.stop ≡ None) }
        ensures stops { MatchResult result (λ v. D.stops disk ≤ D.stops v.device.disk) (λ e. D.stops disk ≤ D.stops e.1) }
        ensures later { MatchResult result (λ v. D.faults disk ≤ D.faults v.device.disk) (λ e. D.faults disk ≤ D.faults e.1) }
        ensures disk_clock { MatchResult result (λ v. D.clock disk ≤ D.clock v.device.disk) (λ e. D.clock disk ≤ D.clock e.1) }
    {
        let mut disk = disk;
        let (sup, nodes) = match replay_and_check(alloc, &mut disk) {
            Ok(whole) => whole,
            Err(refusal) => return Err((refusal, disk, clock)),
        };
        match Volume::open_replayed(alloc, disk, clock, cache, sup, nodes) {
            Ok(volume) => Ok(volume),
            Err((disk, clock)) => Err((Unmounted::Unread(MountFault::NoMemory), disk, clock)),
        }
    }

    /// The entries, in their order. Takes no memory.
    pub fn history(&self) -> &[Entry]
        ensures { result.now ≡ self.now.space.view.history }
    {
        self.space.history()
    }

    /// How many nodes the tree has after the entries. Takes no memory.
    pub fn nodes(&self) -> u64
        ensures counted { (t0 : Mounted) (adopted : Adoption) → HasCore t0 adopted self.now.space.view self.now.device.books (D.state self.now.device.disk) (D.clock self.now.device.disk) (D.since self.now.device.disk) → result ≡ nodes_of (after t0 self.now.space.view.history) }
    {
        self.space.nodes()
    }

    /// How many groups became durable since the volume was mounted. Takes no memory.
    pub fn groups(&self) -> u64
        ensures { result ≡ length self.now.device.books.marks }
    {
        self.device.marks().len() as u64
    }

    /// Answers a call of a session. Its entry is the last one of the history, with the reply. Where no memory was found, there is none.
    /// A session that holds a piece has to let it go first: till then it is answered as if memory were wanting.
    pub fn call(&mut self, session: u32, tag: u32, call: Call) -> Result<(), AllocError>
        requires session { session ≢ 0 }
        requires call { call ≢ Sync }
        requires serves { is_built call ≡ true }
        requires ranges { KeepsRanges call }
        ensures entry { OnOk result (HasEntry self.old.space.view.history self.new.space.view.history session tag call) }
        ensures no_memory { OnErr result (self.new.space.view.history ≡ self.old.space.view.history) }
        ensures later { D.faults self.old.device.disk ≤ D.faults self.new.device.disk }
        ensures disk_clock { D.clock self.old.device.disk ≤ D.clock self.new.device.disk }
        // The space has replied, or the device has ended it; and over what the disk tells the reply is as the space's call says it.
        ensures noted { OnOk result (HasReplyIn self.old.space self.new.space (D.faults self.old.device.disk) (D.faults self.new.device.disk) session tag call ⊎ IsEnded self.old.space.view.history self.new.space.view.history session tag call self.old.device.books.stop (D.faults self.old.device.disk) (D.faults self.new.device.disk)) }
        ensures answered { (t0 : Mounted) (adopted : Adoption) → HasCore t0 adopted self.old.space.view self.old.device.books (D.state self.old.device.disk) (D.clock self.old.device.disk) (D.since self.old.device.disk)
            → OnOk result (IsAnsweredIn t0 self.old.space self.new.space self.new.device.books (D.state self.new.device.disk) session tag call ⊎ IsEnded self.old.space.view.history self.new.space.view.history session tag call self.old.device.books.stop (D.faults self.old.device.disk) (D.faults self.new.device.disk)) }
        // Of a device that had stopped the call is answered so, also where the disk tells nothing.
        ensures stopped { (s : stops.Stop) → self.old.device.books.stop ≡ Some s → OnOk result (IsStoppedEntry self.old.space.view.history self.new.space.view.history session tag call s) }
        // And it stays stopped, whatever is answered.
        ensures stays_stopped { (s : stops.Stop) → self.old.device.books.stop ≡ Some s → self.new.device.books.stop ≡ Some s }
        ensures pieces { self.new.pieces ≡ self.old.pieces }
        // The clock stands where it stood, and what was appended has its stamps from it.
        ensures clock { C.stands self.new.clock ≡ C.stands self.old.clock }
        ensures stamps { (s : ℕ) → C.stands self.old.clock ≡ Some s → HasDrawn self.old.space.view.history self.new.space.view.history s }
        // And of each failed entry the disk's counts of faults, and of a stop, are told, whatever the disk tells.
        ensures failures { HasFailures self.old.space.view.history self.new.space.view.history self.old.device.books.stop self.new.device.books.stop (D.faults self.old.device.disk) (D.faults self.new.device.disk) (D.stops self.old.device.disk) (D.stops self.new.device.disk) }
        ensures core { (t0 : Mounted) (adopted : Adoption) → HasCore t0 adopted self.old.space.view self.old.device.books (D.state self.old.device.disk) (D.clock self.old.device.disk) (D.since self.old.device.disk)
            → HasCore t0 adopted self.new.space.view self.new.device.books (D.state self.new.device.disk) (D.clock self.new.device.disk) (D.since self.new.device.disk) }
    {
        let now = self.clock.seconds();
        let pieces = self.pieces.as_slice();
        let space = &mut self.space;
        answer_among(
            pieces,
            space,
            &mut self.device,
            &Calls {},
            session,
            tag,
            now,
            call,
        )
    }

    /// Makes one event: a call or a hold that is asked once, the next disk call of a piece, the release of one, a seal, or a step of the device. Where no
    /// memory was found, none has come about. A session that holds a piece makes no call and takes no other hold before it has let it go: that is answered
    /// as if memory were wanting.
    pub fn event(&mut self, event: Event) -> Result<Happened, AllocError>
        requires may { MayHappen event }
        ensures happened { IfOk result (IsHappened self.old.space self.new.space self.old.pieces self.new.pieces self.old.device.books self.new.device.books (D.faults self.old.device.disk) (D.faults self.new.device.disk) (D.stops self.old.device.disk) (D.stops self.new.device.disk) event) }
        // A piece makes one disk call, or none where nothing is left of it.
        ensures one { IsSome (D.state self.old.device.disk) → IfOk result (IsOneCall self.old.space.view.sup.block_size self.old.pieces (D.clock self.old.device.disk) (D.clock self.new.device.disk) event) }
        ensures no_memory { OnErr result (self.new.space.view.history ≡ self.old.space.view.history) }
        // A step of the device and a release want no memory, and where the disk tells the next disk call of a piece wants none.
        ensures wants { OnErr result (MayWantMemory (D.state self.old.device.disk) event) }
        // Over what the disk tells, the reply of a call or a hold is as the space's call says it, and it is put off only as that says.
        ensures replied { (t0 : Mounted) (adopted : Adoption) → HasCore t0 adopted self.old.space.view self.old.device.books (D.state self.old.device.disk) (D.clock self.old.device.disk) (D.since self.old.device.disk)
            → IfOk result (HasReplied t0 self.old.space self.new.space self.old.device.books self.new.device.books (D.state self.new.device.disk) (D.faults self.old.device.disk) (D.faults self.new.device.disk) event) }
        // Of a device that had stopped a call, a hold, a piece and a step are answered so, also where the disk tells nothing.
        ensures stopped { (s : stops.Stop) → self.old.device.books.stop ≡ Some s → IfOk result (IsStoppedEvent self.old.space.view.history self.new.space.view.history s event) }
        // And it stays stopped, whatever is answered.
        ensures stays_stopped { (s : stops.Stop) → self.old.device.books.stop ≡ Some s → self.new.device.books.stop ≡ Some s }
        // The clock stands where it stood, and what was appended has its stamps from it.
        ensures clock { C.stands self.new.clock ≡ C.stands self.old.clock }
        ensures stamps { (s : ℕ) → C.stands self.old.clock ≡ Some s → HasDrawn self.old.space.view.history self.new.space.view.history s }
        // And of each failed entry the disk's counts of faults, and of a stop, are told, whatever the disk tells.
        ensures failures { HasCountsOf event self.old.space.view.history self.new.space.view.history self.old.device.books.stop self.new.device.books.stop (D.faults self.old.device.disk) (D.faults self.new.device.disk) (D.stops self.old.device.disk) (D.stops self.new.device.disk) }
        ensures disk_clock { D.clock self.old.device.disk ≤ D.clock self.new.device.disk }
        ensures core { (t0 : Mounted) (adopted : Adoption) → HasCore t0 adopted self.old.space.view self.old.device.books (D.state self.old.device.disk) (D.clock self.old.device.disk) (D.since self.old.device.disk)
            → HasCore t0 adopted self.new.space.view self.new.device.books (D.state self.new.device.disk) (D.clock self.new.device.disk) (D.since self.new.device.disk) }
    {
        let now = self.clock.seconds();
        make_event(
            self.alloc,
            &mut self.space,
            &mut self.device,
            &mut self.pieces,
            now,
            event,
        )
    }

    /// Makes all entries durable, and tells how many there are. The sync's own entry comes behind them.
    /// A session that holds a piece has to let it go first: till then it is answered as if memory were wanting.
    pub fn sync(&mut self, session: u32, tag: u32) -> Result<u64, SyncFault>
        requires session { session ≢ 0 }
        ensures ok { IfOk result (λ n. (n ≡ length self.old.space.view.history) × (n ≤ durable_of self.new.device.books)) }
        ensures entry { IfOk result (λ n. HasEntryOf self.old.space.view.history self.new.space.view.history session tag Sync (Synced n)) }
        ensures failed { IfErr result (HasFailedSync self.old.space.view.history self.new.space.view.history session tag) }
        ensures cause { IfErr result (HasSyncCause self.old.device.books.stop (D.faults self.old.device.disk) (D.faults self.new.device.disk)) }
        ensures later { D.faults self.old.device.disk ≤ D.faults self.new.device.disk }
        ensures disk_clock { D.clock self.old.device.disk ≤ D.clock self.new.device.disk }
        // Of a device that had stopped nothing is made durable any more, and the sync is answered so, also where the disk tells nothing.
        ensures stopped { (s : stops.Stop) → self.old.device.books.stop ≡ Some s → IsStoppedSync self.old.space.view.history self.new.space.view.history session tag s result }
        // And it stays stopped, whatever is answered.
        ensures stays_stopped { (s : stops.Stop) → self.old.device.books.stop ≡ Some s → self.new.device.books.stop ≡ Some s }
        ensures pieces { self.new.pieces ≡ self.old.pieces }
        // The clock stands where it stood, and what was appended has its stamps from it.
        ensures clock { C.stands self.new.clock ≡ C.stands self.old.clock }
        ensures stamps { (s : ℕ) → C.stands self.old.clock ≡ Some s → HasDrawn self.old.space.view.history self.new.space.view.history s }
        // And of each failed entry the disk's counts of faults, and of a stop, are told, whatever the disk tells.
        ensures failures { HasFailures self.old.space.view.history self.new.space.view.history self.old.device.books.stop self.new.device.books.stop (D.faults self.old.device.disk) (D.faults self.new.device.disk) (D.stops self.old.device.disk) (D.stops self.new.device.disk) }
        ensures core { (t0 : Mounted) (adopted : Adoption) → HasCore t0 adopted self.old.space.view self.old.device.books (D.state self.old.device.disk) (D.clock self.old.device.disk) (D.since self.old.device.disk)
            → HasCore t0 adopted self.new.space.view self.new.device.books (D.state self.new.device.disk) (D.clock self.new.device.disk) (D.since self.new.device.disk) }
    {
        let now = self.clock.seconds();
        let pieces = self.pieces.as_slice();
        sync_among(pieces, &mut self.space, &mut self.device, session, tag, now)
    }

    /// The block of the root's inode, at which paths begin. Takes no memory.
    pub fn root(&self) -> u64
        ensures value { result ≡ (geometry_of self.now.space.view.sup).root }
        ensures tree { (t0 : Mounted) (adopted : Adoption) → HasCore t0 adopted self.now.space.view self.now.device.books (D.state self.now.device.disk) (D.clock self.now.device.disk) (D.since self.now.device.disk) → result ≡ t0.tree.root }
    {
        self.space.root()
    }

    /// Writes bytes of a file, from the byte `at` on: its piece is held, written beside the groups, and let go. The entries are the last ones: that of
    /// the hold, and where it was taken that of the release, which is whole where all bytes were written. Where no memory was found, there is none.
    /// A session that holds a piece has to let it go first: till then it is answered as if memory were wanting.
    pub fn write(
        &mut self,
        session: u32,
        tag: u32,
        id: u64,
        at: u64,
        bytes: &[u8],
    ) -> Result<(), AllocError>
        requires session { session ≢ 0 }
        ensures entries { OnOk result (HasPiece self.old.space.view.history self.new.space.view.history session tag (Hold id at (length bytes.now) true) id (λ given. given ≡ bytes.now)) }
        ensures no_memory { OnErr result (self.new.space.view.history ≡ self.old.space.view.history) }
        ensures later { D.faults self.old.device.disk ≤ D.faults self.new.device.disk }
        ensures disk_clock { D.clock self.old.device.disk ≤ D.clock self.new.device.disk }
        ensures noted { OnOk result (HasHoldIn self.old.space (D.faults self.old.device.disk) (D.faults self.new.device.disk) session tag (Hold id at (length bytes.now) true) self.old.device.books.stop) }
        ensures answered { (t0 : Mounted) (adopted : Adoption) → HasCore t0 adopted self.old.space.view self.old.device.books (D.state self.old.device.disk) (D.clock self.old.device.disk) (D.since self.old.device.disk)
            → OnOk result (IsHoldIn t0 self.old.space (D.faults self.old.device.disk) (D.faults self.new.device.disk) session tag (Hold id at (length bytes.now) true) self.old.device.books.stop) }
        ensures released { OnOk result (HasReleaseCause self.old.space.view.history self.new.space.view.history self.old.device.books.stop (D.faults self.old.device.disk) (D.faults self.new.device.disk)) }
        // Of a device that had stopped the one entry is that of the hold, which is answered so, also where the disk tells nothing.
        ensures stopped { (s : stops.Stop) → self.old.device.books.stop ≡ Some s → OnOk result (IsStoppedEntry self.old.space.view.history self.new.space.view.history session tag (Hold id at (length bytes.now) true) s) }
        // And it stays stopped, whatever is answered.
        ensures stays_stopped { (s : stops.Stop) → self.old.device.books.stop ≡ Some s → self.new.device.books.stop ≡ Some s }
        ensures pieces { self.new.pieces ≡ self.old.pieces }
        // The clock stands where it stood, and what was appended has its stamps from it.
        ensures clock { C.stands self.new.clock ≡ C.stands self.old.clock }
        ensures stamps { (s : ℕ) → C.stands self.old.clock ≡ Some s → HasDrawn self.old.space.view.history self.new.space.view.history s }
        // And of each failed entry the disk's counts of faults, and of a stop, are told, whatever the disk tells.
        ensures failures { HasFailures self.old.space.view.history self.new.space.view.history self.old.device.books.stop self.new.device.books.stop (D.faults self.old.device.disk) (D.faults self.new.device.disk) (D.stops self.old.device.disk) (D.stops self.new.device.disk) }
        ensures core { (t0 : Mounted) (adopted : Adoption) → HasCore t0 adopted self.old.space.view self.old.device.books (D.state self.old.device.disk) (D.clock self.old.device.disk) (D.since self.old.device.disk)
            → HasCore t0 adopted self.new.space.view self.new.device.books (D.state self.new.device.disk) (D.clock self.new.device.disk) (D.since self.new.device.disk) }
    {
        let piece = Piece {
            session,
            tag,
            now: self.clock.seconds(),
            id,
            at,
            length: bytes.len() as u64,
            write: true,
        };
        let pieces = self.pieces.as_slice();
        write_among(
            pieces,
            self.alloc,
            &mut self.space,
            &mut self.device,
            piece,
            bytes,
        )
    }

    /// Reads bytes of a file, from the byte `at` on, into the whole slice: its piece is held, read, and let go, as one that is written. Where its
    /// release is whole, the slice has the bytes, which are those that are known of the file.
    /// A session that holds a piece has to let it go first: till then it is answered as if memory were wanting.
    pub fn read(
        &mut self,
        session: u32,
        tag: u32,
        id: u64,
        at: u64,
        into: &mut [u8],
    ) -> Result<(), AllocError>
        requires session { session ≢ 0 }
        ensures length { length into.new ≡ length into.old }
        ensures entries { OnOk result (HasPiece self.old.space.view.history self.new.space.view.history session tag (Hold id at (length into.old) false) id (λ given. given ≡ into.new)) }
        ensures no_memory { OnErr result (self.new.space.view.history ≡ self.old.space.view.history) }
        ensures later { D.faults self.old.device.disk ≤ D.faults self.new.device.disk }
        ensures disk_clock { D.clock self.old.device.disk ≤ D.clock self.new.device.disk }
        ensures noted { OnOk result (HasHoldIn self.old.space (D.faults self.old.device.disk) (D.faults self.new.device.disk) session tag (Hold id at (length into.old) false) self.old.device.books.stop) }
        ensures answered { (t0 : Mounted) (adopted : Adoption) → HasCore t0 adopted self.old.space.view self.old.device.books (D.state self.old.device.disk) (D.clock self.old.device.disk) (D.since self.old.device.disk)
            → OnOk result (IsHoldIn t0 self.old.space (D.faults self.old.device.disk) (D.faults self.new.device.disk) session tag (Hold id at (length into.old) false) self.old.device.books.stop) }
        ensures released { OnOk result (HasReleaseCause self.old.space.view.history self.new.space.view.history self.old.device.books.stop (D.faults self.old.device.disk) (D.faults self.new.device.disk)) }
        // Of a device that had stopped the one entry is that of the hold, which is answered so, also where the disk tells nothing.
        ensures stopped { (s : stops.Stop) → self.old.device.books.stop ≡ Some s → OnOk result (IsStoppedEntry self.old.space.view.history self.new.space.view.history session tag (Hold id at (length into.old) false) s) }
        // And it stays stopped, whatever is answered.
        ensures stays_stopped { (s : stops.Stop) → self.old.device.books.stop ≡ Some s → self.new.device.books.stop ≡ Some s }
        ensures pieces { self.new.pieces ≡ self.old.pieces }
        // The clock stands where it stood, and what was appended has its stamps from it.
        ensures clock { C.stands self.new.clock ≡ C.stands self.old.clock }
        ensures stamps { (s : ℕ) → C.stands self.old.clock ≡ Some s → HasDrawn self.old.space.view.history self.new.space.view.history s }
        // And of each failed entry the disk's counts of faults, and of a stop, are told, whatever the disk tells.
        ensures failures { HasFailures self.old.space.view.history self.new.space.view.history self.old.device.books.stop self.new.device.books.stop (D.faults self.old.device.disk) (D.faults self.new.device.disk) (D.stops self.old.device.disk) (D.stops self.new.device.disk) }
        ensures core { (t0 : Mounted) (adopted : Adoption) → HasCore t0 adopted self.old.space.view self.old.device.books (D.state self.old.device.disk) (D.clock self.old.device.disk) (D.since self.old.device.disk)
            → HasCore t0 adopted self.new.space.view self.new.device.books (D.state self.new.device.disk) (D.clock self.new.device.disk) (D.since self.new.device.disk) }
    {
        let piece = Piece {
            session,
            tag,
            now: self.clock.seconds(),
            id,
            at,
            length: into.len() as u64,
            write: false,
        };
        let pieces = self.pieces.as_slice();
        read_among(
            pieces,
            self.alloc,
            &mut self.space,
            &mut self.device,
            piece,
            into,
        )
    }

    /// Gives up the volume as it stands: what wasn't sealed is lost, and the disk is as a crash now would meet it. Takes no memory.
    pub fn abandon(self) -> (D, C, Vec<Entry>)
        ensures disk { result.0 ≡ self.device.disk }
        ensures history { result.2.items ≡ self.space.view.history }
        ensures held { (t0 : Mounted) (adopted : Adoption) → HasCore t0 adopted self.space.view self.device.books (D.state self.device.disk) (D.clock self.device.disk) (D.since self.device.disk)
            → (image : List ℕ) → MayLeave (D.state result.0) image → RecoversFrom t0 self.space.view.history (durable_of self.device.books) image }
        // And since what led to mounting began, a crash might have left only what recovers to the tree after a prefix of the entries.
        ensures since { (t0 : Mounted) (adopted : Adoption) → HasCore t0 adopted self.space.view self.device.books (D.state self.device.disk) (D.clock self.device.disk) (D.since self.device.disk)
            → (c : List ℕ) → D.since result.0 adopted.begun c → ∥ RecoversFrom t0 self.space.view.history 0 c ∥₁ }
        // A crash now leaves files with the bytes that were known since the durable entries.
        ensures keeps { (t0 : Mounted) (adopted : Adoption) → HasCore t0 adopted self.space.view self.device.books (D.state self.device.disk) (D.clock self.device.disk) (D.since self.device.disk)
            → (first : Image) → adopted.first ≡ Some first → (image : List ℕ) → MayLeave (D.state result.0) image → KeepsKnown t0 self.space.view.history (durable_of self.device.books) image }
        // Where the image is there that was mounted, there is one behind each entry.
        ensures chained { (t0 : Mounted) (adopted : Adoption) → HasCore t0 adopted self.space.view self.device.books (D.state self.device.disk) (D.clock self.device.disk) (D.since self.device.disk)
            → (first : Image) → adopted.first ≡ Some first → IsChained t0 first self.space.view.history (D.state result.0) ⊥ }
    {
        let Volume {
            alloc: _,
            space,
            device,
            clock,
            pieces: _,
        } = self;
        let _durable = device.durable();
        device.steady();
        (device.into_disk(), clock, space.into_history())
    }

    /// Closes the volume: all that was done is made durable and leaves the log. The history is handed back with disk and clock. Takes no memory.
    pub fn close(self) -> (D, C, Vec<Entry>, Result<(), DeviceFault>)
        ensures history { result.2.items ≡ self.space.view.history }
        // However it ends, what a crash leaves recovers to the tree after a prefix of the entries that has all which were durable before. Where it
        // went well, that is the tree after all of them.
        ensures held { (t0 : Mounted) (adopted : Adoption) → HasCore t0 adopted self.space.view self.device.books (D.state self.device.disk) (D.clock self.device.disk) (D.since self.device.disk)
            → (image : List ℕ) → MayLeave (D.state result.0) image → RecoversFrom t0 self.space.view.history (durable_of self.device.books) image }
        // And since what led to mounting began, a crash might have left only what recovers to the tree after a prefix of the entries.
        ensures since { (t0 : Mounted) (adopted : Adoption) → HasCore t0 adopted self.space.view self.device.books (D.state self.device.disk) (D.clock self.device.disk) (D.since self.device.disk)
            → (c : List ℕ) → D.since result.0 adopted.begun c → ∥ RecoversFrom t0 self.space.view.history 0 c ∥₁ }
        ensures all { (t0 : Mounted) (adopted : Adoption) → HasCore t0 adopted self.space.view self.device.books (D.state self.device.disk) (D.clock self.device.disk) (D.since self.device.disk)
            → OnOk result.3 ((image : List ℕ) → MayLeave (D.state result.0) image → Recovers image (after t0 self.space.view.history)) }
        // The disk as it reads is whole with that tree then, and its files have the bytes that are known.
        ensures left { (t0 : Mounted) (adopted : Adoption) → HasCore t0 adopted self.space.view self.device.books (D.state self.device.disk) (D.clock self.device.disk) (D.since self.device.disk)
            → OnOk result.3 ((image : List ℕ) → Tells (D.state result.0) (λ st. ReadsAs st image) → IsLeft t0 self.space.view.history image) }
        // Files keep the bytes that were known since the durable entries, and at Ok all that are known.
        ensures keeps { (t0 : Mounted) (adopted : Adoption) → HasCore t0 adopted self.space.view self.device.books (D.state self.device.disk) (D.clock self.device.disk) (D.since self.device.disk)
            → (first : Image) → adopted.first ≡ Some first → (image : List ℕ) → MayLeave (D.state result.0) image → KeepsKnown t0 self.space.view.history (durable_of self.device.books) image }
        ensures keeps_all { (t0 : Mounted) (adopted : Adoption) → HasCore t0 adopted self.space.view self.device.books (D.state self.device.disk) (D.clock self.device.disk) (D.since self.device.disk)
            → (first : Image) → adopted.first ≡ Some first → OnOk result.3 ((image : List ℕ) → MayLeave (D.state result.0) image → KeepsKnown t0 self.space.view.history (length self.space.view.history) image) }
        // Where the image is there that was mounted, there is one behind each entry, and at Ok the last is what the disk reads.
        ensures chained { (t0 : Mounted) (adopted : Adoption) → HasCore t0 adopted self.space.view self.device.books (D.state self.device.disk) (D.clock self.device.disk) (D.since self.device.disk)
            → (first : Image) → adopted.first ≡ Some first → IsChained t0 first self.space.view.history (D.state result.0) (result.3 ≡ Ok tt) }
        ensures cause { IfErr result.3 (HasStopCause self.device.books.stop (D.faults self.device.disk) (D.faults result.0)) }
        ensures counts { (stop : Option stops.Stop) × KeepsCounts self.device.books.stop stop (D.faults self.device.disk) (D.faults result.0) (D.stops self.device.disk) (D.stops result.0) }
        ensures later { D.faults self.device.disk ≤ D.faults result.0 }
        ensures disk_clock { D.clock self.device.disk ≤ D.clock result.0 }
    {
        let Volume {
            alloc: _,
            mut space,
            mut device,
            clock,
            pieces: _,
        } = self;
        let ended = settle(&mut space, &mut device);
        device.steady();
        let _durable = device.durable();
        (device.into_disk(), clock, space.into_history(), ended)
    }
}
