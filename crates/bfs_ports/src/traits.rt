// The four traits.
ghost use Rattle.std.specs.Prelude.{◌≡◌, ◌≤◌, ◌<◌, ◌^◌, ℕ, List, Option, length, take, IfOk, OnErr};
ghost use Rattle.bfs_base.specs.Counts.{HasCause, Rose};
ghost use Rattle.bfs_ports.specs.Ports.{Takes, appended, StandsAt};

use crate::Failed;

/// Bytes that come in, as a script on standard input.
pub trait Source {
    /// The bytes that are left, where told.
    ghost left: { Self → Option (List ℕ) };

    /// How often a call has failed.
    ghost faults: { Self → ℕ };

    /// Takes bytes from the front of what is left. The number 0 for a slice that isn't empty is the end.
    fn take(&mut self, into: &mut [u8]) -> Result<usize, Failed>
        ensures bound { IfOk result (λ n. n ≤ length into.old) }
        ensures taken { IfOk result (λ n. Takes (left self.old) (left self.new) n into.new) }
        ensures kept { OnErr result (left self.new ≡ left self.old) }
        ensures cause { HasCause (faults self.old) (faults self.new) result };
}

/// Bytes that go out, as the texts of the program.
pub trait Sink {
    /// The bytes that were written, where told.
    ghost written: { Self → Option (List ℕ) };

    /// How often a call has failed, or took nothing of a slice that isn't empty.
    ghost faults: { Self → ℕ };

    /// Appends bytes from the front of the slice. The number 0 for a slice that isn't empty is a fault.
    fn put(&mut self, from: &[u8]) -> Result<usize, Failed>
        ensures bound { IfOk result (λ n. n ≤ length from.now) }
        ensures appended { IfOk result (λ n. written self.new ≡ appended (written self.old) (take n from.now)) }
        ensures kept { OnErr result (written self.new ≡ written self.old) }
        ensures none { IfOk result (λ n. n ≡ 0 → 0 < length from.now → Rose (faults self.old) (faults self.new)) }
        ensures cause { HasCause (faults self.old) (faults self.new) result };
}

/// A clock of whole seconds.
pub trait Clock {
    /// The second at which the clock stands, where told.
    ghost stands: { Self → Option ℕ };

    /// Seconds since the clock's own beginning, below 2^40.
    fn seconds(&mut self) -> u64
        ensures below { result < 2 ^ 40 }
        ensures told { StandsAt (stands self.old) result }
        ensures still { stands self.new ≡ stands self.old };
}

/// Where a session may be made to wait.
#[derive(Clone, Copy, Debug, PartialEq, Eq)]
pub enum Point {
    BeforeDiskCall,
    AfterTurn,
    BeforeRetry,
}

/// A place at which a test may keep a session between two atomic steps.
pub trait Gate {
    /// Is called between atomic steps, and changes nothing.
    fn pass(&self, point: Point, session: u32);
}
