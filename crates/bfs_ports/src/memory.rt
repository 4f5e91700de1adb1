// Sources, sinks, a clock and a gate in memory.
ghost use Rattle.std.specs.Prelude.{◌≡◌, ◌≤◌, ◌<◌, ◌⊎◌, ◌^◌, ◌+◌, ◌-◌, ◌*◌, ℕ, List, [], Some, length, take, drop, min, Contains, IfSome, MatchOption, IfOk, OnOk, OnErr};
ghost use Rattle.bfs_base.specs.Counts.{HasCause, Rose};
ghost use Rattle.bfs_ports.specs.Ports.{Takes, appended};

use crate::{Clock, Failed, Gate, Point, Sink, Source};
use std::alloc::Global;

/// Makes ports in memory.
pub struct Mem;

/// Bytes in memory, taken from the front.
#[derive(Drop)]
pub struct MemSource {
    bytes: Vec<u8>,
    at: usize,
    plan: Vec<u64>,
    made: u64,
    faults: u64,
    ghost inside: { at ≤ length bytes.items },
}

/// A sink in memory, with room for so many bytes.
#[derive(Drop)]
pub struct MemSink {
    bytes: Vec<u8>,
    room: u64,
    plan: Vec<u64>,
    made: u64,
    faults: u64,
    wants: u64,
}

impl Mem {
    /// A source of these bytes.
    pub fn source(alloc: Global, bytes: Vec<u8>) -> MemSource
        ensures left { ⟦<MemSource as Source>⟧.left result ≡ Some bytes.items }
        ensures faults { ⟦<MemSource as Source>⟧.faults result ≡ 0 }
        ensures plan { result.plan.items ≡ [] }
    {
        Mem::failing_source(bytes, Vec::new(alloc))
    }

    /// The same, which fails the calls with these numbers. They count from 1.
    pub fn failing_source(bytes: Vec<u8>, plan: Vec<u64>) -> MemSource
        ensures left { ⟦<MemSource as Source>⟧.left result ≡ Some bytes.items }
        ensures faults { ⟦<MemSource as Source>⟧.faults result ≡ 0 }
        ensures plan { result.plan.items ≡ plan.items }
        ensures made { result.made ≡ 0 }
    {
        MemSource {
            bytes,
            at: 0,
            plan,
            made: 0,
            faults: 0,
        }
    }

    /// A sink that takes all bytes. It fails and counts a call for which it finds no memory.
    pub fn sink(alloc: Global) -> MemSink
        ensures written { ⟦<MemSink as Sink>⟧.written result ≡ Some [] }
        ensures faults { ⟦<MemSink as Sink>⟧.faults result ≡ 0 }
        ensures room { result.room ≡ 2 ^ 64 - 1 }
        ensures plan { result.plan.items ≡ [] }
        ensures made { result.made ≡ 0 }
        ensures wants { result.wants ≡ 0 }
    {
        Mem::full_sink(alloc, u64::MAX)
    }

    /// Takes that many bytes, and then none.
    pub fn full_sink(alloc: Global, room: u64) -> MemSink
        ensures written { ⟦<MemSink as Sink>⟧.written result ≡ Some [] }
        ensures faults { ⟦<MemSink as Sink>⟧.faults result ≡ 0 }
        ensures room { result.room ≡ room }
        ensures plan { result.plan.items ≡ [] }
        ensures made { result.made ≡ 0 }
        ensures wants { result.wants ≡ 0 }
    {
        MemSink {
            bytes: Vec::new(alloc),
            room,
            plan: Vec::new(alloc),
            made: 0,
            faults: 0,
            wants: 0,
        }
    }

    /// Fails the calls with these numbers, which count from 1.
    pub fn failing_sink(alloc: Global, plan: Vec<u64>) -> MemSink
        ensures written { ⟦<MemSink as Sink>⟧.written result ≡ Some [] }
        ensures faults { ⟦<MemSink as Sink>⟧.faults result ≡ 0 }
        ensures room { result.room ≡ 2 ^ 64 - 1 }
        ensures plan { result.plan.items ≡ plan.items }
        ensures made { result.made ≡ 0 }
        ensures wants { result.wants ≡ 0 }
    {
        MemSink {
            bytes: Vec::new(alloc),
            room: u64::MAX,
            plan,
            made: 0,
            faults: 0,
            wants: 0,
        }
    }
}

impl Source for MemSource {
    ghost left = { λ s. Some (drop s.at s.bytes.items) };

    ghost faults = { λ s. s.faults };

    fn take(&mut self, into: &mut [u8]) -> Result<usize, Failed>
        ensures bound { IfOk result (λ n. n ≤ length into.old) }
        ensures taken { IfOk result (λ n. Takes (⟦<MemSource as Source>⟧.left self.old) (⟦<MemSource as Source>⟧.left self.new) n into.new) }
        ensures kept { OnErr result (⟦<MemSource as Source>⟧.left self.new ≡ ⟦<MemSource as Source>⟧.left self.old) }
        ensures cause { HasCause (⟦<MemSource as Source>⟧.faults self.old) (⟦<MemSource as Source>⟧.faults self.new) result }
        ensures made { self.new.made ≡ min (self.old.made + 1) (2 ^ 64 - 1) }
        ensures plan { self.new.plan ≡ self.old.plan }
        // The calls of the plan fail, and no other does.
        ensures planned { OnOk result (Contains self.old.plan.items self.new.made → ⊥) }
        ensures others { OnErr result (Contains self.old.plan.items self.new.made) }
        // Each other call gives as much as is left and has room.
        ensures most { IfOk result (λ n. n ≡ min (length into.old) (length self.old.bytes.items - self.old.at)) }
    {
        self.made = self.made.saturating_add(1);
        let planned = self.plan.contains(&self.made);
        if planned {
            self.faults = self.faults.saturating_add(1);
            return Err(Failed);
        }
        let rest = &self.bytes[self.at..];
        let n = into.len().min(rest.len());
        into[..n].copy_from_slice(&rest[..n]);
        self.at += n;
        Ok(n)
    }
}

impl MemSink {
    /// What was written.
    pub fn bytes(&self) -> &[u8]
        ensures { ⟦<MemSink as Sink>⟧.written self.now ≡ Some result.now }
    {
        &self.bytes
    }

    /// How many calls found no memory for the bytes.
    pub fn wants(&self) -> u64
        ensures { result ≡ self.now.wants }
    {
        self.wants
    }

    // Counts a call. It is told how many of so many bytes have room, or nothing where it is to fail.
    fn granted(&mut self, wanted: usize) -> Option<usize>
        ensures made { self.new.made ≡ min (self.old.made + 1) (2 ^ 64 - 1) }
        ensures plan { MatchOption result (Contains self.old.plan.items self.new.made) (λ n. Contains self.old.plan.items self.new.made → ⊥) }
        ensures same_plan { self.new.plan ≡ self.old.plan }
        ensures room { IfSome result (λ n. n ≡ min wanted self.old.room) }
        ensures bytes { self.new.bytes ≡ self.old.bytes }
        ensures same_room { self.new.room ≡ self.old.room }
        ensures faults { self.new.faults ≡ self.old.faults }
        ensures wants { self.new.wants ≡ self.old.wants }
    {
        self.made = self.made.saturating_add(1);
        if self.plan.contains(&self.made) {
            return None;
        }
        Some((wanted as u64).min(self.room) as usize)
    }
}

impl Sink for MemSink {
    ghost written = { λ s. Some s.bytes.items };

    ghost faults = { λ s. s.faults };

    fn put(&mut self, from: &[u8]) -> Result<usize, Failed>
        ensures bound { IfOk result (λ n. n ≤ length from.now) }
        ensures appended { IfOk result (λ n. ⟦<MemSink as Sink>⟧.written self.new ≡ appended (⟦<MemSink as Sink>⟧.written self.old) (take n from.now)) }
        ensures kept { OnErr result (⟦<MemSink as Sink>⟧.written self.new ≡ ⟦<MemSink as Sink>⟧.written self.old) }
        ensures none { IfOk result (λ n. n ≡ 0 → 0 < length from.now → Rose (⟦<MemSink as Sink>⟧.faults self.old) (⟦<MemSink as Sink>⟧.faults self.new)) }
        ensures cause { HasCause (⟦<MemSink as Sink>⟧.faults self.old) (⟦<MemSink as Sink>⟧.faults self.new) result }
        ensures made { self.new.made ≡ min (self.old.made + 1) (2 ^ 64 - 1) }
        ensures plan { self.new.plan ≡ self.old.plan }
        // The calls of the plan fail. Each other that fails had bytes to take and wanted memory, and is counted; no other call is.
        ensures planned { OnOk result (Contains self.old.plan.items self.new.made → ⊥) }
        ensures others { OnErr result (Contains self.old.plan.items self.new.made ⊎ ((0 < min (length from.now) self.old.room) × Rose self.old.wants self.new.wants)) }
        ensures wants { Contains self.old.plan.items self.new.made → self.new.wants ≡ self.old.wants }
        ensures served { OnOk result (self.new.wants ≡ self.old.wants) }
        // Each other call takes as much as has room.
        ensures room { IfOk result (λ n. (n ≡ min (length from.now) self.old.room) × (self.new.room ≡ self.old.room - n)) }
        ensures unused { OnErr result (self.new.room ≡ self.old.room) }
    {
        let Some(n) = self.granted(from.len()) else {
            self.faults = self.faults.saturating_add(1);
            return Err(Failed);
        };
        if n == 0 {
            self.faults = self.faults.saturating_add(1);
            return Ok(0);
        }
        if self.bytes.extend_from_slice(&from[..n]).is_err() {
            self.wants = self.wants.saturating_add(1);
            self.faults = self.faults.saturating_add(1);
            return Err(Failed);
        }
        self.room -= n as u64;
        Ok(n)
    }
}

/// A clock that stands still.
#[derive(Clone, Copy)]
pub struct Fixed {
    seconds: u64,
}

impl Fixed {
    /// A greater second than the clock's last is cut to it.
    pub fn clock(seconds: u64) -> Fixed
        ensures { ⟦<Fixed as Clock>⟧.stands result ≡ Some (min seconds (2 ^ 40 - 1)) }
    {
        Fixed { seconds }
    }
}

impl Clock for Fixed {
    ghost stands = { λ c. Some (min c.seconds (2 ^ 40 - 1)) };

    fn seconds(&mut self) -> u64 {
        self.seconds.min((1 << 40) - 1)
    }
}

/// A gate that stands open.
#[derive(Clone, Copy)]
pub struct NoGate;

impl Gate for NoGate {
    fn pass(&self, _point: Point, _session: u32) {}
}
