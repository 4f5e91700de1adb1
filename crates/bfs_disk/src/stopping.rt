// A disk that fails from some call on.
ghost use Rattle.std.specs.Prelude.{◌≡◌, ◌≤◌, ◌<◌, ◌↔◌, ◌⊎◌, ◌+◌, ◌-◌, ◌*◌, ◌/◌, ◌^◌, min, ℕ, List, length, Some, IsTrue, IfOk, OnOk, OnErr, IsSome};
ghost use Rattle.std.specs.Option.{option_map};
ghost use Rattle.bfs_base.specs.Counts.{HasCause, Rose};
ghost use Rattle.bfs_base.specs.Moments.{Elapses};
ghost use Rattle.bfs_disk.specs.State.{settled};
ghost use Rattle.bfs_disk.specs.Disk.{MayLeave, HalfWritten, told_written, ReadsSectors, InRange, StaysKnown};

use crate::{Disk, Failed};

/// Passes some disk calls on, and then fails each one, changing nothing.
#[derive(Drop)]
pub struct Stopping<D> {
    disk: D,
    left: u64,
    failed: u64,
    stopped: u64,
}

impl<D: Disk> Stopping<D> {
    /// Passes that many disk calls, counted from here.
    pub fn after(disk: D, calls: u64) -> Stopping<D>
        ensures state { ⟦<Stopping<D> as Disk>⟧.state result ≡ D.state disk }
        ensures size { ⟦<Stopping<D> as Disk>⟧.size result ≡ D.size disk }
        ensures since { (t : ℕ) (c : List ℕ) → ⟦<Stopping<D> as Disk>⟧.since result t c ↔ D.since disk t c }
        ensures clock { ⟦<Stopping<D> as Disk>⟧.clock result ≡ D.clock disk }
        ensures faults { ⟦<Stopping<D> as Disk>⟧.faults result ≡ min (D.faults disk) (2 ^ 64 - 1) }
        ensures stops { ⟦<Stopping<D> as Disk>⟧.stops result ≡ min (D.stops disk) (2 ^ 64 - 1) }
        ensures passes { result.left ≡ calls }
    {
        Stopping {
            disk,
            left: calls,
            failed: 0,
            stopped: 0,
        }
    }

    // Counts a call that is made. Does it go through?
    fn goes_through(&mut self) -> bool
        ensures through { IsTrue result ↔ 0 < self.old.left }
        ensures passes { self.new.left ≡ self.old.left - 1 }
        ensures disk { self.new.disk ≡ self.old.disk }
        ensures failed { self.new.failed ≡ self.old.failed }
        ensures stopped { self.new.stopped ≡ self.old.stopped }
    {
        let through = self.left > 0;
        self.left = self.left.saturating_sub(1);
        through
    }

    /// The disk behind it.
    pub fn inner(self) -> D
        ensures state { D.state result ≡ ⟦<Stopping<D> as Disk>⟧.state self }
        ensures size { D.size result ≡ ⟦<Stopping<D> as Disk>⟧.size self }
        ensures since { (t : ℕ) (c : List ℕ) → D.since result t c ↔ ⟦<Stopping<D> as Disk>⟧.since self t c }
        ensures clock { D.clock result ≡ ⟦<Stopping<D> as Disk>⟧.clock self }
        // The calls that failed here are counted beside those that failed there.
        ensures faults { ⟦<Stopping<D> as Disk>⟧.faults self ≡ min (D.faults result + self.failed) (2 ^ 64 - 1) }
        ensures stops { ⟦<Stopping<D> as Disk>⟧.stops self ≡ min (D.stops result + self.stopped) (2 ^ 64 - 1) }
    {
        let Stopping {
            disk,
            left: _,
            failed: _,
            stopped: _,
        } = self;
        disk
    }
}

impl<D: Disk> Disk for Stopping<D> {
    ghost state = { λ s. D.state s.disk };

    ghost size = { λ s. D.size s.disk };

    ghost clock = { λ s. D.clock s.disk };

    ghost since = { λ s. D.since s.disk };

    ghost faults = { λ s. min (D.faults s.disk + s.failed) (2 ^ 64 - 1) };

    ghost stops = { λ s. min (D.stops s.disk + s.stopped) (2 ^ 64 - 1) };

    ghost counts_now = { λ s. D.counts_now s.disk };

    ghost fewer = { λ s. D.fewer s.disk };

    ghost begun = { λ s. D.begun s.disk };

    ghost only_now = { λ s. D.only_now s.disk };

    ghost sized = { λ s. D.sized s.disk };

    ghost filled = { λ s. D.filled s.disk };

    fn sectors(&mut self) -> Result<u64, Failed>
        ensures size { IfOk result (λ n. ⟦<Stopping<D> as Disk>⟧.size self.new ≡ Some n) }
        ensures known { StaysKnown (⟦<Stopping<D> as Disk>⟧.size self.old) (⟦<Stopping<D> as Disk>⟧.size self.new) }
        ensures state { ⟦<Stopping<D> as Disk>⟧.state self.new ≡ ⟦<Stopping<D> as Disk>⟧.state self.old }
        ensures time { Elapses (⟦<Stopping<D> as Disk>⟧.state self.old) result (⟦<Stopping<D> as Disk>⟧.clock self.old) (⟦<Stopping<D> as Disk>⟧.clock self.new) (⟦<Stopping<D> as Disk>⟧.since self.old) (⟦<Stopping<D> as Disk>⟧.since self.new) (MayLeave (⟦<Stopping<D> as Disk>⟧.state self.old)) }
        ensures cause { HasCause (⟦<Stopping<D> as Disk>⟧.faults self.old) (⟦<Stopping<D> as Disk>⟧.faults self.new) result }
        ensures stops { ⟦<Stopping<D> as Disk>⟧.stops self.new ≡ ⟦<Stopping<D> as Disk>⟧.stops self.old }
        ensures passes { self.new.left ≡ self.old.left - 1 }
        // After the last call that passes, each one fails and changes nothing. One that passes fails only on the disk behind.
        ensures stopped { OnOk result (0 < self.old.left) }
        ensures unchanged { self.old.left ≡ 0 → self.new.disk ≡ self.old.disk }
        ensures behind { OnErr result ((self.old.left ≡ 0) ⊎ Rose (D.faults self.old.disk) (D.faults self.new.disk)) }
    {
        if !self.goes_through() {
            self.failed = self.failed.saturating_add(1);
            return Err(Failed);
        }
        self.disk.sectors()
    }

    fn read(&mut self, at: u64, into: &mut [u8]) -> Result<(), Failed>
        requires whole { length into.old ≡ 512 * (length into.old / 512) }
        requires range { InRange (⟦<Stopping<D> as Disk>⟧.size self.old) at into.old }
        ensures bytes { OnOk result (ReadsSectors (⟦<Stopping<D> as Disk>⟧.state self.old) at into.new) }
        ensures size { ⟦<Stopping<D> as Disk>⟧.size self.new ≡ ⟦<Stopping<D> as Disk>⟧.size self.old }
        ensures state { ⟦<Stopping<D> as Disk>⟧.state self.new ≡ ⟦<Stopping<D> as Disk>⟧.state self.old }
        ensures time { Elapses (⟦<Stopping<D> as Disk>⟧.state self.old) result (⟦<Stopping<D> as Disk>⟧.clock self.old) (⟦<Stopping<D> as Disk>⟧.clock self.new) (⟦<Stopping<D> as Disk>⟧.since self.old) (⟦<Stopping<D> as Disk>⟧.since self.new) (MayLeave (⟦<Stopping<D> as Disk>⟧.state self.old)) }
        ensures cause { HasCause (⟦<Stopping<D> as Disk>⟧.faults self.old) (⟦<Stopping<D> as Disk>⟧.faults self.new) result }
        ensures stops { ⟦<Stopping<D> as Disk>⟧.stops self.new ≡ ⟦<Stopping<D> as Disk>⟧.stops self.old }
        ensures passes { self.new.left ≡ self.old.left - 1 }
        // After the last call that passes, each one fails and changes nothing. One that passes fails only on the disk behind.
        ensures stopped { OnOk result (0 < self.old.left) }
        ensures unchanged { self.old.left ≡ 0 → self.new.disk ≡ self.old.disk }
        ensures behind { OnErr result ((self.old.left ≡ 0) ⊎ Rose (D.faults self.old.disk) (D.faults self.new.disk)) }
    {
        if !self.goes_through() {
            self.failed = self.failed.saturating_add(1);
            return Err(Failed);
        }
        self.disk.read(at, into)
    }

    fn write(&mut self, at: u64, from: &[u8]) -> Result<(), Failed>
        requires whole { length from.now ≡ 512 * (length from.now / 512) }
        requires range { InRange (⟦<Stopping<D> as Disk>⟧.size self.old) at from.now }
        ensures size { ⟦<Stopping<D> as Disk>⟧.size self.new ≡ ⟦<Stopping<D> as Disk>⟧.size self.old }
        ensures written { OnOk result (⟦<Stopping<D> as Disk>⟧.state self.new ≡ told_written (⟦<Stopping<D> as Disk>⟧.state self.old) at from.now) }
        ensures half { OnErr result (HalfWritten (⟦<Stopping<D> as Disk>⟧.state self.old) at from.now (⟦<Stopping<D> as Disk>⟧.state self.new)) }
        ensures time { Elapses (⟦<Stopping<D> as Disk>⟧.state self.old) result (⟦<Stopping<D> as Disk>⟧.clock self.old) (⟦<Stopping<D> as Disk>⟧.clock self.new) (⟦<Stopping<D> as Disk>⟧.since self.old) (⟦<Stopping<D> as Disk>⟧.since self.new) (MayLeave (told_written (⟦<Stopping<D> as Disk>⟧.state self.old) at from.now)) }
        ensures cause { HasCause (⟦<Stopping<D> as Disk>⟧.faults self.old) (⟦<Stopping<D> as Disk>⟧.faults self.new) result }
        ensures stops { HasCause (⟦<Stopping<D> as Disk>⟧.stops self.old) (⟦<Stopping<D> as Disk>⟧.stops self.new) result }
        ensures passes { self.new.left ≡ self.old.left - 1 }
        // After the last call that passes, each one fails and changes nothing. One that passes fails only on the disk behind.
        ensures stopped { OnOk result (0 < self.old.left) }
        ensures unchanged { self.old.left ≡ 0 → self.new.disk ≡ self.old.disk }
        ensures behind { OnErr result ((self.old.left ≡ 0) ⊎ Rose (D.faults self.old.disk) (D.faults self.new.disk)) }
    {
        if !self.goes_through() {
            self.failed = self.failed.saturating_add(1);
            self.stopped = self.stopped.saturating_add(1);
            return Err(Failed);
        }
        self.disk.write(at, from)
    }

    fn barrier(&mut self) -> Result<(), Failed>
        requires known { IsSome (⟦<Stopping<D> as Disk>⟧.size self.old) }
        ensures size { ⟦<Stopping<D> as Disk>⟧.size self.new ≡ ⟦<Stopping<D> as Disk>⟧.size self.old }
        ensures settled { OnOk result (⟦<Stopping<D> as Disk>⟧.state self.new ≡ option_map settled (⟦<Stopping<D> as Disk>⟧.state self.old)) }
        ensures kept { OnErr result (⟦<Stopping<D> as Disk>⟧.state self.new ≡ ⟦<Stopping<D> as Disk>⟧.state self.old) }
        ensures time { Elapses (⟦<Stopping<D> as Disk>⟧.state self.old) result (⟦<Stopping<D> as Disk>⟧.clock self.old) (⟦<Stopping<D> as Disk>⟧.clock self.new) (⟦<Stopping<D> as Disk>⟧.since self.old) (⟦<Stopping<D> as Disk>⟧.since self.new) (MayLeave (⟦<Stopping<D> as Disk>⟧.state self.old)) }
        ensures cause { HasCause (⟦<Stopping<D> as Disk>⟧.faults self.old) (⟦<Stopping<D> as Disk>⟧.faults self.new) result }
        ensures stops { HasCause (⟦<Stopping<D> as Disk>⟧.stops self.old) (⟦<Stopping<D> as Disk>⟧.stops self.new) result }
        ensures passes { self.new.left ≡ self.old.left - 1 }
        // After the last call that passes, each one fails and changes nothing. One that passes fails only on the disk behind.
        ensures stopped { OnOk result (0 < self.old.left) }
        ensures unchanged { self.old.left ≡ 0 → self.new.disk ≡ self.old.disk }
        ensures behind { OnErr result ((self.old.left ≡ 0) ⊎ Rose (D.faults self.old.disk) (D.faults self.new.disk)) }
    {
        if !self.goes_through() {
            self.failed = self.failed.saturating_add(1);
            self.stopped = self.stopped.saturating_add(1);
            return Err(Failed);
        }
        self.disk.barrier()
    }

    fn faults(&self) -> u64 {
        self.disk.faults().saturating_add(self.failed)
    }
}
