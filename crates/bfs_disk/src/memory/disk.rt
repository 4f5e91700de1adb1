// The disk in memory.
ghost use Rattle.std.specs.Prelude.{◌≡◌, ◌≤◌, ◌<◌, ◌*◌, ◌/◌, ◌+◌, ◌^◌, ◌-◌, ◌==◌, ◌⊎◌, min, [], ℕ, List, Some, length, true, Contains, IfOk, OnOk, OnErr, IsSome};
ghost use Rattle.std.specs.Option.{option_map};
ghost use Rattle.bfs_base.specs.Counts.{HasCause, Rose};
ghost use Rattle.bfs_base.specs.Moments.{Elapses};
ghost use Rattle.bfs_disk.specs.Disk.{MayLeave, HalfWritten, told_written, ReadsSectors, InRange, StaysKnown};
ghost use Rattle.bfs_disk.specs.Memory.{state_after, moments, LeftSince, is_record, IsPicked};
ghost use Rattle.bfs_disk.specs.State.{state_of, settled, ReadsAs, Tells};

use crate::memory::Call;
use crate::memory::crash::{kept, picked};
use crate::memory::parts::{count, is_planned, overwrite, refuse, see, settle};
use crate::{Disk, Failed};
use std::alloc::{AllocError, Global};
use std::collections::VecDeque;

/// A disk in memory, which tells what it holds. It fails the disk calls that it is told to fail, and a call
/// for whose record it finds no memory.
#[derive(Drop)]
pub struct MemDisk {
    alloc: Global,
    bytes: Vec<u8>,
    calls: VecDeque<Call>,
    idle: u64,
    plan: Vec<u64>,
    made: u64,
    faults: u64,
    stops: u64,
    wants: u64,
    ghost recorded: { is_record calls.items bytes.items ≡ true },
}

impl MemDisk {
    /// A quiet disk with these bytes, which never fails by plan. The length is a multiple of 512.
    pub fn new(alloc: Global, bytes: Vec<u8>) -> MemDisk
        requires { length bytes.items ≡ 512 * (length bytes.items / 512) }
        ensures quiet { ⟦<MemDisk as Disk>⟧.state result ≡ Some (state_of bytes.items) }
        ensures size { ⟦<MemDisk as Disk>⟧.size result ≡ Some (length bytes.items / 512) }
        ensures clock { ⟦<MemDisk as Disk>⟧.clock result ≡ 0 }
        ensures faults { ⟦<MemDisk as Disk>⟧.faults result ≡ 0 }
        ensures stops { ⟦<MemDisk as Disk>⟧.stops result ≡ 0 }
        ensures plan { result.plan.items ≡ [] }
    {
        MemDisk::failing(alloc, bytes, Vec::new(alloc))
    }

    /// The same, which fails the disk calls with these numbers. They count from 1.
    pub fn failing(alloc: Global, bytes: Vec<u8>, calls: Vec<u64>) -> MemDisk
        requires { length bytes.items ≡ 512 * (length bytes.items / 512) }
        ensures quiet { ⟦<MemDisk as Disk>⟧.state result ≡ Some (state_of bytes.items) }
        ensures size { ⟦<MemDisk as Disk>⟧.size result ≡ Some (length bytes.items / 512) }
        ensures clock { ⟦<MemDisk as Disk>⟧.clock result ≡ 0 }
        ensures faults { ⟦<MemDisk as Disk>⟧.faults result ≡ 0 }
        ensures stops { ⟦<MemDisk as Disk>⟧.stops result ≡ 0 }
        ensures plan { result.plan.items ≡ calls.items }
        ensures made { result.made ≡ 0 }
        ensures wants { result.wants ≡ 0 }
    {
        see(&bytes);
        MemDisk {
            alloc,
            bytes,
            calls: VecDeque::new(alloc),
            idle: 0,
            plan: calls,
            made: 0,
            faults: 0,
            stops: 0,
            wants: 0,
        }
    }

    /// How many calls found no memory for their record.
    pub fn wants(&self) -> u64
        ensures { result ≡ self.now.wants }
    {
        self.wants
    }

    /// One crash image: sector k has its newest content where bit `k mod 64` of the pick is 1, else its oldest.
    pub fn crash(&self, pick: u64) -> Result<Vec<u8>, AllocError>
        ensures picked { IfOk result (λ image. Tells (⟦<MemDisk as Disk>⟧.state self.now) (λ s. IsPicked pick s image.items)) }
        ensures left { IfOk result (λ image. MayLeave (⟦<MemDisk as Disk>⟧.state self.now) image.items) }
    {
        let image = kept(self.alloc, &self.bytes, &self.calls)?;
        Ok(picked(image, &self.bytes, pick))
    }

    /// The last contents.
    pub fn bytes(self) -> Vec<u8>
        ensures bytes { result.items ≡ self.bytes.items }
        ensures reads { Tells (⟦<MemDisk as Disk>⟧.state self) (λ s. ReadsAs s result.items) }
    {
        let MemDisk {
            alloc: _,
            bytes,
            calls: _,
            idle: _,
            plan: _,
            made: _,
            faults: _,
            stops: _,
            wants: _,
        } = self;
        bytes
    }
}

impl Disk for MemDisk {
    ghost use Rattle.bfs_disk.specs.MemoryLaws.{counts_now_of, fewer_of, left_bound, only_now_of, sized_of, filled_of};

    ghost state = { λ d. Some (state_after d.calls.items d.bytes.items) };

    ghost size = { λ d. Some (length d.bytes.items / 512) };

    ghost clock = { λ d. moments d.idle d.calls.items };

    ghost since = { λ d t c. LeftSince d.idle d.calls.items d.bytes.items t c };

    ghost faults = { λ d. d.faults };

    ghost stops = { λ d. d.stops };

    ghost counts_now = { λ d t c le now. counts_now_of d.idle d.calls.items d.bytes.items t c le now };

    ghost fewer = { λ d t u c le left. fewer_of d.idle d.calls.items d.bytes.items t u c le left };

    ghost begun = { λ d t c left. left_bound d.idle d.calls.items d.bytes.items t c left };

    ghost only_now = { λ d c left. only_now_of d.idle d.calls.items d.bytes.items c left };

    ghost sized = { λ d. sized_of d.calls.items d.bytes.items d.recorded };

    ghost filled = { λ d. filled_of d.calls.items d.bytes.items d.recorded };

    fn sectors(&mut self) -> Result<u64, Failed>
        ensures size { IfOk result (λ n. ⟦<MemDisk as Disk>⟧.size self.new ≡ Some n) }
        ensures known { StaysKnown (⟦<MemDisk as Disk>⟧.size self.old) (⟦<MemDisk as Disk>⟧.size self.new) }
        ensures state { ⟦<MemDisk as Disk>⟧.state self.new ≡ ⟦<MemDisk as Disk>⟧.state self.old }
        ensures time { Elapses (⟦<MemDisk as Disk>⟧.state self.old) result (⟦<MemDisk as Disk>⟧.clock self.old) (⟦<MemDisk as Disk>⟧.clock self.new) (⟦<MemDisk as Disk>⟧.since self.old) (⟦<MemDisk as Disk>⟧.since self.new) (MayLeave (⟦<MemDisk as Disk>⟧.state self.old)) }
        ensures cause { HasCause (⟦<MemDisk as Disk>⟧.faults self.old) (⟦<MemDisk as Disk>⟧.faults self.new) result }
        ensures stops { ⟦<MemDisk as Disk>⟧.stops self.new ≡ ⟦<MemDisk as Disk>⟧.stops self.old }
        ensures made { self.new.made ≡ min (self.old.made + 1) (2 ^ 64 - 1) }
        ensures plan { self.new.plan ≡ self.old.plan }
        // A call of the plan fails, and no other does before the last value of the counter.
        ensures planned { OnOk result (Contains self.old.plan.items self.new.made → ⊥) }
        ensures others { OnErr result (Contains self.old.plan.items self.new.made ⊎ (self.old.idle ≡ 2 ^ 64 - 1)) }
        ensures wants { self.new.wants ≡ self.old.wants }
    {
        let planned = is_planned(&self.plan, &mut self.made);
        match count(&mut self.idle, planned, &mut self.faults) {
            Ok(()) => Ok((self.bytes.len() / 512) as u64),
            Err(_) => Err(Failed),
        }
    }

    fn read(&mut self, at: u64, into: &mut [u8]) -> Result<(), Failed>
        requires whole { length into.old ≡ 512 * (length into.old / 512) }
        requires range { InRange (⟦<MemDisk as Disk>⟧.size self.old) at into.old }
        ensures bytes { OnOk result (ReadsSectors (⟦<MemDisk as Disk>⟧.state self.old) at into.new) }
        ensures size { ⟦<MemDisk as Disk>⟧.size self.new ≡ ⟦<MemDisk as Disk>⟧.size self.old }
        ensures state { ⟦<MemDisk as Disk>⟧.state self.new ≡ ⟦<MemDisk as Disk>⟧.state self.old }
        ensures time { Elapses (⟦<MemDisk as Disk>⟧.state self.old) result (⟦<MemDisk as Disk>⟧.clock self.old) (⟦<MemDisk as Disk>⟧.clock self.new) (⟦<MemDisk as Disk>⟧.since self.old) (⟦<MemDisk as Disk>⟧.since self.new) (MayLeave (⟦<MemDisk as Disk>⟧.state self.old)) }
        ensures cause { HasCause (⟦<MemDisk as Disk>⟧.faults self.old) (⟦<MemDisk as Disk>⟧.faults self.new) result }
        ensures stops { ⟦<MemDisk as Disk>⟧.stops self.new ≡ ⟦<MemDisk as Disk>⟧.stops self.old }
        ensures made { self.new.made ≡ min (self.old.made + 1) (2 ^ 64 - 1) }
        ensures plan { self.new.plan ≡ self.old.plan }
        // A call of the plan fails, and no other does before the last value of the counter.
        ensures planned { OnOk result (Contains self.old.plan.items self.new.made → ⊥) }
        ensures others { OnErr result (Contains self.old.plan.items self.new.made ⊎ (self.old.idle ≡ 2 ^ 64 - 1)) }
        ensures wants { self.new.wants ≡ self.old.wants }
    {
        let planned = is_planned(&self.plan, &mut self.made);
        match count(&mut self.idle, planned, &mut self.faults) {
            Ok(()) => {
                let start = 512 * at as usize;
                into.copy_from_slice(&self.bytes[start..start + into.len()]);
                Ok(())
            }
            Err(_) => Err(Failed),
        }
    }

    fn write(&mut self, at: u64, from: &[u8]) -> Result<(), Failed>
        requires whole { length from.now ≡ 512 * (length from.now / 512) }
        requires range { InRange (⟦<MemDisk as Disk>⟧.size self.old) at from.now }
        ensures size { ⟦<MemDisk as Disk>⟧.size self.new ≡ ⟦<MemDisk as Disk>⟧.size self.old }
        ensures written { OnOk result (⟦<MemDisk as Disk>⟧.state self.new ≡ told_written (⟦<MemDisk as Disk>⟧.state self.old) at from.now) }
        ensures half { OnErr result (HalfWritten (⟦<MemDisk as Disk>⟧.state self.old) at from.now (⟦<MemDisk as Disk>⟧.state self.new)) }
        ensures time { Elapses (⟦<MemDisk as Disk>⟧.state self.old) result (⟦<MemDisk as Disk>⟧.clock self.old) (⟦<MemDisk as Disk>⟧.clock self.new) (⟦<MemDisk as Disk>⟧.since self.old) (⟦<MemDisk as Disk>⟧.since self.new) (MayLeave (told_written (⟦<MemDisk as Disk>⟧.state self.old) at from.now)) }
        ensures cause { HasCause (⟦<MemDisk as Disk>⟧.faults self.old) (⟦<MemDisk as Disk>⟧.faults self.new) result }
        ensures stops { HasCause (⟦<MemDisk as Disk>⟧.stops self.old) (⟦<MemDisk as Disk>⟧.stops self.new) result }
        ensures made { self.new.made ≡ min (self.old.made + 1) (2 ^ 64 - 1) }
        ensures plan { self.new.plan ≡ self.old.plan }
        // A call of the plan fails. Each other that fails wanted memory, and is counted; no other call is.
        ensures planned { OnOk result (Contains self.old.plan.items self.new.made → ⊥) }
        ensures others { OnErr result (Contains self.old.plan.items self.new.made ⊎ Rose self.old.wants self.new.wants) }
        ensures wants { Contains self.old.plan.items self.new.made → self.new.wants ≡ self.old.wants }
        ensures served { OnOk result (self.new.wants ≡ self.old.wants) }
        // Else it changes nothing.
        ensures untouched { OnErr result (⟦<MemDisk as Disk>⟧.state self.new ≡ ⟦<MemDisk as Disk>⟧.state self.old) }
    {
        if is_planned(&self.plan, &mut self.made) {
            self.stops = self.stops.saturating_add(1);
            return Err(refuse(&mut self.idle, &mut self.faults));
        }
        see(from);
        match overwrite(
            self.alloc,
            &mut self.bytes,
            &mut self.calls,
            &mut self.idle,
            at,
            from,
        ) {
            Ok(()) => Ok(()),
            Err(_) => {
                self.wants = self.wants.saturating_add(1);
                self.stops = self.stops.saturating_add(1);
                Err(refuse(&mut self.idle, &mut self.faults))
            }
        }
    }

    fn barrier(&mut self) -> Result<(), Failed>
        requires known { IsSome (⟦<MemDisk as Disk>⟧.size self.old) }
        ensures size { ⟦<MemDisk as Disk>⟧.size self.new ≡ ⟦<MemDisk as Disk>⟧.size self.old }
        ensures settled { OnOk result (⟦<MemDisk as Disk>⟧.state self.new ≡ option_map settled (⟦<MemDisk as Disk>⟧.state self.old)) }
        ensures kept { OnErr result (⟦<MemDisk as Disk>⟧.state self.new ≡ ⟦<MemDisk as Disk>⟧.state self.old) }
        ensures time { Elapses (⟦<MemDisk as Disk>⟧.state self.old) result (⟦<MemDisk as Disk>⟧.clock self.old) (⟦<MemDisk as Disk>⟧.clock self.new) (⟦<MemDisk as Disk>⟧.since self.old) (⟦<MemDisk as Disk>⟧.since self.new) (MayLeave (⟦<MemDisk as Disk>⟧.state self.old)) }
        ensures cause { HasCause (⟦<MemDisk as Disk>⟧.faults self.old) (⟦<MemDisk as Disk>⟧.faults self.new) result }
        ensures stops { HasCause (⟦<MemDisk as Disk>⟧.stops self.old) (⟦<MemDisk as Disk>⟧.stops self.new) result }
        ensures made { self.new.made ≡ min (self.old.made + 1) (2 ^ 64 - 1) }
        ensures plan { self.new.plan ≡ self.old.plan }
        // A call of the plan fails. Each other that fails wanted memory, and is counted; no other call is.
        ensures planned { OnOk result (Contains self.old.plan.items self.new.made → ⊥) }
        ensures others { OnErr result (Contains self.old.plan.items self.new.made ⊎ Rose self.old.wants self.new.wants) }
        ensures wants { Contains self.old.plan.items self.new.made → self.new.wants ≡ self.old.wants }
        ensures served { OnOk result (self.new.wants ≡ self.old.wants) }
    {
        if is_planned(&self.plan, &mut self.made) {
            self.stops = self.stops.saturating_add(1);
            return Err(refuse(&mut self.idle, &mut self.faults));
        }
        match settle(&mut self.calls, &mut self.idle) {
            Ok(()) => Ok(()),
            Err(_) => {
                self.wants = self.wants.saturating_add(1);
                self.stops = self.stops.saturating_add(1);
                Err(refuse(&mut self.idle, &mut self.faults))
            }
        }
    }

    fn faults(&self) -> u64 {
        self.faults
    }
}
