// A disk as the layers above see it: what a read gives, and what a crash may leave.
ghost use Rattle.std.specs.Prelude.{◌≡◌, ◌≤◌, ◌*◌, ◌/◌, List, ℕ, Option, Some, length, IfOk, OnOk, OnErr, IfSome, IsSome};
ghost use Rattle.std.specs.Option.{option_map};
ghost use Rattle.bfs_base.specs.Counts.{HasCause};
ghost use Rattle.bfs_base.specs.Moments.{Elapses};
ghost use Rattle.bfs_disk.specs.State.{State, Filled, settled};
ghost use Rattle.bfs_disk.specs.Disk.{MayLeave, HalfWritten, told_written, ReadsSectors, InRange, StaysKnown};

use thiserror::Error;

/// A disk call failed. The disk has counted it.
#[derive(Clone, Copy, Debug, PartialEq, Eq, Error)]
#[error("a disk call failed")]
pub struct Failed;

/// A disk of sectors of 512 bytes. `at` is a sector's number, and a length is a multiple of 512 bytes.
///
/// A write may be torn: until a barrier succeeds, a crash leaves each written sector old or new, each by itself.
/// The first four calls are the disk calls. Each makes one moment, and fails only where the disk counts a fault.
pub trait Disk {
    /// What the disk holds, where it tells.
    ghost state: { Self → Option State };

    /// The number of sectors, where known.
    ghost size: { Self → Option ℕ };

    /// The number of disk calls.
    ghost clock: { Self → ℕ };

    /// What a crash at some moment from that one on might have left, during a call or between two.
    ghost since: { Self → ℕ → List ℕ → Type 0 };

    /// How often a disk call has failed.
    ghost faults: { Self → ℕ };

    /// How often a write or a barrier has failed.
    ghost stops: { Self → ℕ };

    /// The number of sectors, the same for the disk's life.
    fn sectors(&mut self) -> Result<u64, Failed>
        ensures size { IfOk result (λ n. size self.new ≡ Some n) }
        ensures known { StaysKnown (size self.old) (size self.new) }
        ensures state { state self.new ≡ state self.old }
        ensures time { Elapses (state self.old) result (clock self.old) (clock self.new) (since self.old) (since self.new) (MayLeave (state self.old)) }
        ensures cause { HasCause (faults self.old) (faults self.new) result }
        ensures stops { stops self.new ≡ stops self.old };

    /// Reads whole sectors. A read that fails changes nothing; what it left in the slice has no meaning.
    fn read(&mut self, at: u64, into: &mut [u8]) -> Result<(), Failed>
        requires whole { length into.old ≡ 512 * (length into.old / 512) }
        requires range { InRange (size self.old) at into.old }
        ensures bytes { OnOk result (ReadsSectors (state self.old) at into.new) }
        ensures size { size self.new ≡ size self.old }
        ensures state { state self.new ≡ state self.old }
        ensures time { Elapses (state self.old) result (clock self.old) (clock self.new) (since self.old) (since self.new) (MayLeave (state self.old)) }
        ensures cause { HasCause (faults self.old) (faults self.new) result }
        ensures stops { stops self.new ≡ stops self.old };

    /// Writes whole sectors. After a failed write each of them is old or new.
    fn write(&mut self, at: u64, from: &[u8]) -> Result<(), Failed>
        requires whole { length from.now ≡ 512 * (length from.now / 512) }
        requires range { InRange (size self.old) at from.now }
        ensures size { size self.new ≡ size self.old }
        ensures written { OnOk result (state self.new ≡ told_written (state self.old) at from.now) }
        ensures half { OnErr result (HalfWritten (state self.old) at from.now (state self.new)) }
        ensures time { Elapses (state self.old) result (clock self.old) (clock self.new) (since self.old) (since self.new) (MayLeave (told_written (state self.old) at from.now)) }
        ensures cause { HasCause (faults self.old) (faults self.new) result }
        ensures stops { HasCause (stops self.old) (stops self.new) result };

    /// Makes all that was written last: a crash from here on leaves the newest contents.
    fn barrier(&mut self) -> Result<(), Failed>
        requires known { IsSome (size self.old) }
        ensures size { size self.new ≡ size self.old }
        ensures settled { OnOk result (state self.new ≡ option_map settled (state self.old)) }
        ensures kept { OnErr result (state self.new ≡ state self.old) }
        ensures time { Elapses (state self.old) result (clock self.old) (clock self.new) (since self.old) (since self.new) (MayLeave (state self.old)) }
        ensures cause { HasCause (faults self.old) (faults self.new) result }
        ensures stops { HasCause (stops self.old) (stops self.new) result };

    /// How often a disk call has failed. It moves no clock and takes no memory.
    fn faults(&self) -> u64
        ensures { result ≡ faults self.now };

    /// This moment is one of those since an earlier one.
    ghost counts_now: { (d : Self) (t : ℕ) (c : List ℕ) → t ≤ clock d → MayLeave (state d) c → since d t c };

    /// What a crash since a later moment might have left, one since an earlier moment might have left too.
    ghost fewer: { (d : Self) (t u : ℕ) (c : List ℕ) → t ≤ u → since d u c → since d t c };

    /// No moment since a time is still to come, where the disk tells what it holds.
    ghost begun: { (d : Self) → IfSome (state d) (λ _. (t : ℕ) (c : List ℕ) → since d t c → t ≤ clock d) };

    /// Since this moment there is no other.
    ghost only_now: { (d : Self) (c : List ℕ) → since d (clock d) c → MayLeave (state d) c };

    /// A disk that tells what it holds has a known number of sectors.
    ghost sized: { (d : Self) → IfSome (state d) (λ s. size d ≡ Some s.size) };

    /// And each sector has contents, of 512 bytes each, so that a crash leaves some image.
    ghost filled: { (d : Self) → IfSome (state d) Filled };
}
