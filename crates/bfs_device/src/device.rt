// A device: a disk, and the groups that go into its log and from there home.
ghost use Rattle.std.specs.Prelude.{is_some, ◌≡◌, ◌⊎◌, ◌≤◌, ◌<◌, ◌+◌, ◌-◌, ◌*◌, ◌/◌, ◌^◌, ◌==◌, ◌||◌, ◌&&◌, nat_lt, nat_le, ◌↔◌, ◌++◌, ◌∷◌, max, ℕ, List, [], length, Bool, IsTrue, OnOk, OnErr, IfOk, IfErr, IfSome, IsSome, Option, Some, None};
ghost use Rattle.bfs_base.specs.Counts.{HasCause, Rose};
ghost use Rattle.bfs_base.specs.Moments.{Elapses, Passed};
ghost use Rattle.bfs_disk.specs.State.{State, Tells, Holds};
ghost use Rattle.bfs_disk.specs.Blocks.{AreRead};
ghost use Rattle.bfs_disk.specs.Disk.{MayLeave, HalfWritten, told_written};
ghost use Rattle.bfs_cache.specs.Agreement.{Agrees};
ghost use Rattle.bfs_super.specs.Conditions.{IsValid};
ghost use Rattle.bfs_log.specs.Replay.{super_of, over};
ghost use Rattle.bfs_device.specs.Layouts.{is_data, IsData, IsSameVolume, layout_of, homes_in};
ghost use Rattle.bfs_device.specs.Phases.{none};
ghost use Rattle.bfs_device.specs.Books.{IsNext, IsOnDisk, IsRight, Ready, IsVersion, RecoversOne, AreSame, Books, View, durable_of, sealed_of, version, used_of};
ghost use Rattle.bfs_device.specs.Steps.{told_front, FailedFront, still_touched, stepped, progress_to, calls_left, IsStepFault, IsUnmoved, HasMoved};
ghost use Rattle.bfs_device.specs.Told.{HasCalled, HasMarked, HasCounted};
ghost use Rattle.bfs_device.specs.Data.{newest_in, moved_on, IsRested, IsReadFault, touching, AreSameBut};
ghost use Rattle.bfs_device.specs.Seals.{adopted, with_room, sealed_with, last_used, calls_of_group};
ghost use Rattle.bfs_device.specs.Contents.{KeepsContents};
ghost use Rattle.bfs_device.specs.Ahead.{IsSteady, HasOrder, IsGroupOf, GoesOn};
ghost use Rattle.bfs_device.specs.Kept.{IsOut, written_front};

use crate::calls::written_block;
use crate::data::{is_waiting, read_data, read_newest, write_data};
use crate::journal::{DeviceFault, Journal, Mark, Phase, Progress, Stop};
use crate::step::step_of;
use crate::turn::{durable_number, take};
use bfs_cache::Cache;
use bfs_disk::Disk;
use bfs_super::Super;
use bfs_txn::Group;
use std::alloc::{AllocError, Global};
use std::marker::Model;

// For how many blocks there is a cache, where no other is given.
const CACHED: u32 = 1024;

/// A disk with a journal: sealed groups of changed blocks wait here, go into the log, become durable, and are written home,
/// one disk call a step. After a write or a barrier that failed it makes no disk call any more.
#[derive(Drop)]
pub struct Device<D: Disk> {
    disk: D,
    journal: Journal,
    cache: Cache,
}

impl<D: Disk> Model for Device<D> {
    ghost use Rattle.bfs_device.specs.Books.{View, Ready, IsOnDisk, books_of};
    ghost use Rattle.bfs_cache.specs.Agreement.{Agrees};
    ghost use Rattle.bfs_device.specs.Layouts.{layout_of};

    ghost Value = { View D };

    ghost view = { λ d. record { disk = d.disk; books = books_of d.journal } };

    ghost invariant = { λ d. Ready d.journal × IsOnDisk (D.size d.disk) d.journal.sup × Agrees (D.state d.disk) (layout_of d.journal.sup).sectors d.cache.kept };
}

// Takes the block that the next disk call writes out of the cache.
fn forget_next(journal: &Journal, cache: &mut Cache)
    requires { Ready journal.now }
    ensures out { IsOut (written_front journal.now.sup journal.now.groups.items journal.now.phase) cache.new.kept }
    ensures agrees { (told : Option State) (r : ℕ) → Agrees told r cache.old.kept → Agrees told r cache.new.kept }
{
    match journal.groups.as_slice() {
        [] => {}
        [group, ..] => match written_block(&journal.sup, group, journal.phase) {
            Some(block) => cache.forget(block),
            None => {}
        },
    }
}

// Whether a block is one of a volume that is neither block 0 nor one of the log.
fn is_data_of(sup: &Super, block: u64) -> bool
    requires { IsValid sup.now }
    ensures { result ≡ is_data (layout_of sup.now) block }
{
    let geometry = sup.geometry();
    let first = sup.block_of(sup.log_blocks);
    0 < block
        && (block < geometry.blocks
            && (block < first || first + u64::from(geometry.log.len) <= block))
}

impl<D: Disk> Device<D> {
    /// Takes a disk whose volume has this superblock, with an empty log. Room for 16 groups, a mark and a block is taken here,
    /// and that of an empty cache for 1,024 blocks; for want of it the disk is handed back.
    pub fn adopt(alloc: Global, disk: D, sup: Super) -> Result<Device<D>, D>
        requires valid { IsValid sup }
        requires empty { sup.log_start ≡ sup.log_end }
        requires on_disk { IsOnDisk (D.size disk) sup }
        ensures ok { IfOk result (λ d. (d.disk ≡ disk) × (d.books ≡ adopted sup)) }
        ensures err { IfErr result (λ d. d ≡ disk) }
        ensures right { (image : List ℕ) → Tells (D.state disk) (Holds image) → super_of image ≡ sup → IfOk result (λ d. Tells (D.state disk) (IsRight (adopted sup) none)) }
    {
        let Ok(groups) = Vec::with_capacity(alloc, 16) else {
            return Err(disk);
        };
        let Ok(marks) = Vec::with_capacity(alloc, 1) else {
            return Err(disk);
        };
        let Ok(buffer) = vec![in alloc; 0u8; sup.block_size as usize] else {
            return Err(disk);
        };
        let journal = Journal {
            sup,
            groups,
            ordered: true,
            phase: Phase::Pass,
            left: 0,
            marks,
            spare: 1,
            moment: 0,
            stop: None,
            buffer,
        };
        let Ok(cache) = Cache::new(alloc, CACHED) else {
            return Err(disk);
        };
        Ok(Device {
            disk,
            journal,
            cache,
        })
    }

    /// The device with this cache, which is empty, in the place of the one that it had. Takes no memory.
    pub fn cached(self, cache: Cache) -> Device<D>
        requires { cache.kept ≡ [] }
        ensures { result ≡ self }
    {
        let Device {
            disk,
            journal,
            cache: _,
        } = self;
        Device {
            disk,
            journal,
            cache,
        }
    }

    /// Whether one group more may wait.
    pub fn may_seal(&self) -> bool
        ensures { IsTrue result ↔ (length self.now.books.groups < 16) }
    {
        self.journal.groups.len() < 16
    }

    /// Makes room for the marks of two groups more.
    pub fn room(&mut self) -> Result<(), AllocError>
        ensures disk { self.new.disk ≡ self.old.disk }
        ensures ok { OnOk result (self.new.books ≡ with_room self.old.books) }
        ensures err { OnErr result (self.new.books ≡ self.old.books) }
    {
        if self.journal.spare >= 2 {
            return Ok(());
        }
        self.journal.marks.reserve(18)?;
        self.journal.spare = 2;
        Ok(())
    }

    /// Takes a group behind the others. Takes no memory.
    pub fn seal(&mut self, group: Group)
        requires may { length self.old.books.groups < 16 }
        requires spare { 1 ≤ self.old.books.spare }
        requires next { IsNext (layout_of self.old.books.sup) self.old.books.sup.block_size (sealed_of self.old.books) (last_used self.old.books) group }
        ensures disk { self.new.disk ≡ self.old.disk }
        ensures books { self.new.books ≡ sealed_with self.old.books group }
        ensures right { (t : ℕ → Bool) (s : State) → IsRight self.old.books t s → IsRight self.new.books t s }
        // Its version is the only new one.
        ensures only { (n : ℕ) → IsVersion self.new.books n → IsVersion self.old.books n ⊎ (n ≡ group.last) }
        ensures groups { (g : Group) → IsGroupOf g self.new.books.groups → IsGroupOf g self.old.books.groups ⊎ (g ≡ group) }
        ensures durable { durable_of self.new.books ≡ durable_of self.old.books }
        // The versions stay, and the newest has the group's blocks over the one before it.
        ensures numbers { (n : ℕ) → IsVersion self.old.books n → IsVersion self.new.books n × (n < group.last) }
        ensures older { (s : State) (n k : ℕ) → IsVersion self.old.books n → version self.new.books s n k ≡ version self.old.books s n k }
        ensures newest { (s : State) (k : ℕ) → version self.new.books s group.last k ≡ over (homes_in group.blocks) (version self.old.books s (sealed_of self.old.books)) k }
        ensures older_used { (n : ℕ) → IsVersion self.old.books n → used_of self.new.books n ≡ used_of self.old.books n }
        ensures newest_used { used_of self.new.books group.last ≡ group.used }
        ensures sealed { sealed_of self.new.books ≡ group.last }
        ensures last_used { last_used self.new.books ≡ group.used }
        ensures calls { calls_left self.new.books ≤ calls_left self.old.books + calls_of_group (length group.blocks) }
    {
        take(&mut self.journal, group);
    }

    /// Makes the next disk call of the first group, and tells what it did. Takes no memory.
    pub fn step(&mut self) -> Result<Progress, DeviceFault>
        ensures size { D.size self.new.disk ≡ D.size self.old.disk }
        ensures volume { IsSameVolume self.old.books.sup self.new.books.sup }
        ensures ok { IfOk result (λ p. (self.old.books.stop ≡ None) × (p ≡ progress_to self.old.books.groups self.old.books.phase) × (self.new.books ≡ stepped self.old.books)) }
        ensures call { OnOk result (D.state self.new.disk ≡ told_front self.old.books.sup self.old.books.groups self.old.books.phase (D.state self.old.disk)) }
        ensures ahead { GoesOn self.old.books self.new.books }
        // The answer tells the disk call, the mark that is stored and the call that is no longer left; Idle comes where no group is.
        ensures called { IfOk result (HasCalled (layout_of self.old.books.sup) (D.state self.old.disk) (D.state self.new.disk)) }
        ensures marked { IfOk result (HasMarked self.old.books self.new.books) }
        ensures counted { IfOk result (HasCounted (calls_left self.old.books) (calls_left self.new.books)) }
        // A call that fails leaves what it may leave of its sectors; a device without a group makes none.
        ensures failed { self.old.books.stop ≡ None → OnErr result (FailedFront self.old.books.sup self.old.books.groups self.old.books.phase (D.state self.old.disk) (D.state self.new.disk)) }
        ensures fault { IfErr result (IsStepFault self.old.books self.new.books (D.faults self.old.disk) (D.faults self.new.disk) (D.stops self.old.disk) (D.stops self.new.disk)) }
        ensures unmoved { IsUnmoved self.old.books → self.new.disk ≡ self.old.disk }
        ensures faults { D.faults self.old.disk ≤ D.faults self.new.disk }
        ensures disk_clock { D.clock self.old.disk ≤ D.clock self.new.disk }
        ensures stops { D.stops self.old.disk ≤ D.stops self.new.disk }
        ensures moved { HasMoved (D.clock self.old.disk) self.old.books.moment (D.clock self.new.disk) self.new.books.moment }
        ensures right { (t : ℕ → Bool) (right : Tells (D.state self.old.disk) (IsRight self.old.books t))
            → OnOk result (Tells (D.state self.new.disk) (λ s. IsRight self.new.books (still_touched self.old.books t) s × AreSame self.old.books right.0 self.new.books s)) }
        ensures still_right { (t : ℕ → Bool) (right : Tells (D.state self.old.disk) (IsRight self.old.books t))
            → OnErr result (Tells (D.state self.new.disk) (λ s. IsRight self.new.books t s × AreSame self.old.books right.0 self.new.books s)) }
        // A sector of a file gets no content that it hadn't, and where more entries are durable since, it has its newest one alone.
        ensures contents { (st next : State) → D.state self.old.disk ≡ Some st → D.state self.new.disk ≡ Some next → KeepsContents self.old.books self.new.books st next }
        // The versions' used blocks stay too, and on a disk that tells there is exactly one call but where the device is idle.
        ensures used { (n : ℕ) → IsVersion self.new.books n → used_of self.new.books n ≡ used_of self.old.books n }
        ensures one { IsSome (D.state self.old.disk) → IfOk result (λ p. (p ≡ Progress.Idle) ⊎ (D.clock self.new.disk ≡ D.clock self.old.disk + 1)) }
        ensures moments { (t : ℕ → Bool) → Tells (D.state self.old.disk) (IsRight self.old.books t)
            → Passed (D.clock self.old.disk) (D.clock self.new.disk) (D.since self.old.disk) (D.since self.new.disk) (λ c. Tells (D.state self.old.disk) (λ s. RecoversOne self.old.books t s c)) }
    {
        forget_next(&self.journal, &mut self.cache);
        step_of(&mut self.disk, &mut self.journal)
    }

    /// Reads a block with its newest bytes: those of the newest sealed group that has it, else the cache's, else the disk's,
    /// which are kept then where memory is found for them. Only the last takes a disk call. The slice has a
    /// block's length. A read that fails leaves the device usable.
    pub fn block(&mut self, block: u64, into: &mut [u8]) -> Result<(), DeviceFault>
        requires below { block < (layout_of self.old.books.sup).blocks }
        requires long { length into.old ≡ self.old.books.sup.block_size }
        ensures rests { IsRested self.old.books self.new.books }
        ensures sup { self.new.books.sup ≡ self.old.books.sup }
        ensures size { D.size self.new.disk ≡ D.size self.old.disk }
        ensures ok { OnOk result ((self.old.books.stop ≡ None) × (((self.new.books ≡ self.old.books) × (self.new.disk ≡ self.old.disk)) ⊎ (self.new.books ≡ moved_on self.old.books))) }
        ensures sealed { OnOk result (IfSome (newest_in self.old.books.groups block) (λ bytes. (into.new ≡ bytes) × (self.new.disk ≡ self.old.disk))) }
        ensures bytes { OnOk result (IfSome (D.state self.old.disk) (λ s. into.new ≡ version self.old.books s (sealed_of self.old.books) block)) }
        ensures fault { IfErr result (IsReadFault self.old.books self.new.books (D.faults self.old.disk) (D.faults self.new.disk)) }
        ensures unmoved { IsSome self.old.books.stop → self.new.disk ≡ self.old.disk }
        ensures state { D.state self.new.disk ≡ D.state self.old.disk }
        ensures faults { D.faults self.old.disk ≤ D.faults self.new.disk }
        ensures disk_clock { D.clock self.old.disk ≤ D.clock self.new.disk }
        ensures stops { D.stops self.new.disk ≡ D.stops self.old.disk }
        ensures moved { HasMoved (D.clock self.old.disk) self.old.books.moment (D.clock self.new.disk) self.new.books.moment }
        ensures right { (t : ℕ → Bool) (s : State) → IsRight self.old.books t s → IsRight self.new.books t s }
        ensures moments { (t : ℕ → Bool) → Tells (D.state self.old.disk) (IsRight self.old.books t)
            → Passed (D.clock self.old.disk) (D.clock self.new.disk) (D.since self.old.disk) (D.since self.new.disk) (λ c. Tells (D.state self.old.disk) (λ s. RecoversOne self.old.books t s c)) }
    {
        read_newest(
            &mut self.disk,
            &mut self.journal,
            &mut self.cache,
            block,
            into,
        )
    }

    /// Reads a block as the disk has it, in one disk call. The slice has a block's length. Takes no memory.
    pub fn data_read(&mut self, block: u64, into: &mut [u8]) -> Result<(), DeviceFault>
        requires below { block < (layout_of self.old.books.sup).blocks }
        requires long { length into.old ≡ self.old.books.sup.block_size }
        ensures rests { IsRested self.old.books self.new.books }
        ensures sup { self.new.books.sup ≡ self.old.books.sup }
        ensures size { D.size self.new.disk ≡ D.size self.old.disk }
        ensures ok { OnOk result ((self.old.books.stop ≡ None) × (self.new.books ≡ moved_on self.old.books)) }
        ensures bytes { OnOk result (AreRead (D.state self.old.disk) (layout_of self.old.books.sup).sectors block into.new) }
        ensures fault { IfErr result (IsReadFault self.old.books self.new.books (D.faults self.old.disk) (D.faults self.new.disk)) }
        ensures unmoved { IsSome self.old.books.stop → self.new.disk ≡ self.old.disk }
        ensures state { D.state self.new.disk ≡ D.state self.old.disk }
        ensures faults { D.faults self.old.disk ≤ D.faults self.new.disk }
        ensures disk_clock { D.clock self.old.disk ≤ D.clock self.new.disk }
        ensures stops { D.stops self.new.disk ≡ D.stops self.old.disk }
        ensures one { IsSome (D.state self.old.disk) → OnOk result (D.clock self.new.disk ≡ D.clock self.old.disk + 1) }
        ensures moved { HasMoved (D.clock self.old.disk) self.old.books.moment (D.clock self.new.disk) self.new.books.moment }
        ensures right { (t : ℕ → Bool) (s : State) → IsRight self.old.books t s → IsRight self.new.books t s }
        ensures moments { (t : ℕ → Bool) → Tells (D.state self.old.disk) (IsRight self.old.books t)
            → Passed (D.clock self.old.disk) (D.clock self.new.disk) (D.since self.old.disk) (D.since self.new.disk) (λ c. Tells (D.state self.old.disk) (λ s. RecoversOne self.old.books t s c)) }
    {
        read_data(&mut self.disk, &mut self.journal, block, into)
    }

    /// Writes one block that no waiting group has, in one disk call. Takes no memory.
    pub fn data_write(&mut self, block: u64, from: &[u8]) -> Result<(), DeviceFault>
        requires place { IsData (layout_of self.old.books.sup) block }
        requires apart { newest_in self.old.books.groups block ≡ None }
        requires long { length from.now ≡ self.old.books.sup.block_size }
        ensures sup { self.new.books.sup ≡ self.old.books.sup }
        ensures size { D.size self.new.disk ≡ D.size self.old.disk }
        ensures ok { OnOk result ((self.old.books.stop ≡ None) × (self.new.books ≡ moved_on self.old.books)) }
        ensures call { OnOk result (D.state self.new.disk ≡ told_written (D.state self.old.disk) ((layout_of self.old.books.sup).sectors * block) from.now) }
        ensures fault { IfErr result (IsStepFault self.old.books self.new.books (D.faults self.old.disk) (D.faults self.new.disk) (D.stops self.old.disk) (D.stops self.new.disk)) }
        ensures unmoved { IsSome self.old.books.stop → self.new.disk ≡ self.old.disk }
        ensures faults { D.faults self.old.disk ≤ D.faults self.new.disk }
        ensures disk_clock { D.clock self.old.disk ≤ D.clock self.new.disk }
        ensures stops { D.stops self.old.disk ≤ D.stops self.new.disk }
        ensures one { IsSome (D.state self.old.disk) → OnOk result (D.clock self.new.disk ≡ D.clock self.old.disk + 1) }
        ensures failed { self.old.books.stop ≡ None → OnErr result (HalfWritten (D.state self.old.disk) ((layout_of self.old.books.sup).sectors * block) from.now (D.state self.new.disk)) }
        ensures moved { HasMoved (D.clock self.old.disk) self.old.books.moment (D.clock self.new.disk) self.new.books.moment }
        ensures right { (t : ℕ → Bool) (right : Tells (D.state self.old.disk) (IsRight self.old.books t))
            → OnOk result (Tells (D.state self.new.disk) (λ s. IsRight self.new.books (touching block t) s × AreSameBut block self.old.books right.0 self.new.books s)) }
        ensures still_right { (t : ℕ → Bool) (right : Tells (D.state self.old.disk) (IsRight self.old.books t))
            → OnErr result (Tells (D.state self.new.disk) (λ s. IsRight self.new.books (touching block t) s × AreSameBut block self.old.books right.0 self.new.books s)) }
        ensures moments { (t : ℕ → Bool) → Tells (D.state self.old.disk) (IsRight self.old.books t)
            → Passed (D.clock self.old.disk) (D.clock self.new.disk) (D.since self.old.disk) (D.since self.new.disk) (λ c. Tells (D.state self.old.disk) (λ s. RecoversOne self.old.books (touching block t) s c)) }
    {
        self.cache.forget(block);
        write_data(&mut self.disk, &mut self.journal, block, from)
    }

    /// The number of the last entry that is durable. Each image that a crash leaves now recovers to the version of this number,
    /// or to that of a later group.
    pub fn durable(&self) -> u64
        ensures value { result ≡ durable_of self.now.books }
        ensures recovers { (t : ℕ → Bool) (right : Tells (D.state self.now.disk) (IsRight self.now.books t)) (image : List ℕ) → MayLeave (D.state self.now.disk) image → RecoversOne self.now.books t right.0 image }
    {
        durable_number(&self.journal)
    }

    /// Whether a block is one of the volume that is neither block 0 nor one of the log.
    pub fn is_data(&self, block: u64) -> bool
        ensures { result ≡ is_data (layout_of self.now.books.sup) block }
    {
        is_data_of(&self.journal.sup, block)
    }

    /// Whether a group that waits has a block: its bytes on the disk aren't the newest then, and it isn't written beside the groups.
    pub fn waits(&self, block: u64) -> bool
        ensures { result ≡ is_some (newest_in self.now.books.groups block) }
    {
        is_waiting(&self.journal, block)
    }

    /// What is true of the books of every device.
    pub fn steady(&self)
        ensures steady { IsSteady self.now.books }
        ensures order { HasOrder self.now.books }
        ensures on_disk { IsOnDisk (D.size self.now.disk) self.now.books.sup }
        ensures idle { calls_left self.now.books ≡ 0 → durable_of self.now.books ≡ sealed_of self.now.books }
    {
        let _left = self.journal.left;
    }

    /// The last entry that was durable when the device stopped, and the count of faults then.
    pub fn stopped(&self) -> Option<Stop>
        ensures { result ≡ self.now.books.stop }
    {
        self.journal.stop
    }

    /// The number of the last group that has left the log.
    pub fn left(&self) -> u64
        ensures { result ≡ self.now.books.left }
    {
        self.journal.left
    }

    /// The disk's count of faults.
    pub fn faults(&self) -> u64
        ensures { result ≡ D.faults self.now.disk }
    {
        self.disk.faults()
    }

    /// The marks, the oldest first.
    pub fn marks(&self) -> &[Mark]
        ensures { result.now ≡ self.now.books.marks }
    {
        self.journal.marks.as_slice()
    }

    /// The disk.
    pub fn into_disk(self) -> D
        ensures { result ≡ self.disk }
    {
        let Device {
            disk,
            journal: _,
            cache: _,
        } = self;
        disk
    }
}
