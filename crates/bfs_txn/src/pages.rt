// A stream as pages of 1,024 bytes.
ghost use Rattle.std.specs.Prelude.{◌≡◌, ℕ, List, Option, OnOk, OnErr, IfOk, IfErr, length, ◌+◌, ◌<◌, ◌%◌, ◌++◌};
ghost use Rattle.std.specs.Option.{option_map};
ghost use Rattle.bfs_txn.specs.Pages.{IsPageAt, HasLength, with_page};
ghost use Rattle.bfs_txn.specs.Faults.{Counts, AreLater};

use crate::Steps;
use std::sync::ledger::Ledger;

/// One stream, read and changed by pages. A place is a byte offset in it.
pub trait Pages {
    type Fault: Drop;

    /// What is told of the stream, where anything is.
    ghost told: { Self → Option (List ℕ) };

    /// The stream's length.
    ghost size: { Self → ℕ };

    /// The counts of what lies below.
    ghost counts: { Self → Counts };

    /// The names of the references that it holds, and what else stays.
    ghost frame: { Self → List ℕ };

    /// The place of the page that was read last.
    ghost last: { Self → ℕ };

    /// The bytes of the page that was read last. After a read that failed nothing is said of them.
    ghost page: { Self → List ℕ };

    /// The second is the first after some calls: what no call may change stays.
    ghost goes_on: { Self → Self → Type 0 };

    /// The second is the first after calls that only read.
    ghost is_read: { Self → Self → Type 0 };

    /// Why a call between the two may have failed.
    ghost is_cause: { Self → Self → Self.Fault → Type 0 };

    fn length(&self) -> u64
        ensures { result ≡ size self.now };

    /// Reads a page. This is what counts as a step, and nothing else does.
    fn get<L: Ledger>(
        &mut self,
        at: u64,
        into: &mut [u8],
        steps: &mut Steps<L>,
    ) -> Result<(), Self::Fault>
        requires page { length into.old ≡ 1024 }
        requires whole { at % 1024 ≡ 0 }
        requires inside { at < size self.old }
        ensures page { OnOk result (IsPageAt (told self.old) at into.new) }
        ensures last { OnOk result (last self.new ≡ at) }
        ensures bytes { OnOk result (page self.new ≡ into.new) }
        ensures steps { steps.new ≡ steps.old + 1 }
        ensures told { told self.new ≡ told self.old }
        ensures size { size self.new ≡ size self.old }
        ensures counts { AreLater (counts self.old) (counts self.new) }
        ensures frame { frame self.new ≡ frame self.old }
        ensures goes_on { goes_on self.old self.new }
        ensures is_read { is_read self.old self.new }
        ensures cause { IfErr result (is_cause self.old self.new) };

    /// Writes a page.
    fn set(&mut self, at: u64, from: &[u8]) -> Result<(), Self::Fault>
        requires page { length from.now ≡ 1024 }
        requires whole { at % 1024 ≡ 0 }
        requires inside { at < size self.old }
        ensures told { OnOk result (told self.new ≡ option_map (with_page at from.now) (told self.old)) }
        ensures size { OnOk result (size self.new ≡ size self.old) }
        ensures counts { AreLater (counts self.old) (counts self.new) }
        ensures frame { frame self.new ≡ frame self.old }
        ensures goes_on { goes_on self.old self.new }
        ensures cause { IfErr result (is_cause self.old self.new) };

    /// Adds a page at the end, and answers its place.
    fn append(&mut self, from: &[u8]) -> Result<u64, Self::Fault>
        requires page { length from.now ≡ 1024 }
        ensures at { IfOk result (λ at. at ≡ size self.old) }
        ensures told { OnOk result (told self.new ≡ option_map (λ bytes. bytes ++ from.now) (told self.old)) }
        ensures size { OnOk result (size self.new ≡ size self.old + 1024) }
        ensures counts { AreLater (counts self.old) (counts self.new) }
        ensures frame { frame self.new ≡ frame self.old }
        ensures goes_on { goes_on self.old self.new }
        ensures cause { IfErr result (is_cause self.old self.new) };

    ghost goes_on_same: { (p : Self) → goes_on p p };

    ghost goes_on_twice: { (p q r : Self) → goes_on p q → goes_on q r → goes_on p r };

    ghost is_read_same: { (p : Self) → is_read p p };

    ghost is_read_twice: { (p q r : Self) → is_read p q → is_read q r → is_read p r };

    /// A call that reads goes on too.
    ghost is_read_on: { (p q : Self) → is_read p q → goes_on p q };

    /// The cause of a call's failure is one of all calls up to it.
    ghost is_cause_before: { (p q r : Self) (fault : Self.Fault) → goes_on p q → is_cause q r fault → is_cause p r fault };

    /// What is told has the stream's length.
    ghost sized: { (p : Self) → HasLength (told p) (size p) };

    /// The length is of whole pages.
    ghost whole: { (p : Self) → size p % 1024 ≡ 0 };
}
