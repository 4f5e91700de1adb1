// A count of steps that costs nothing.
ghost use Rattle.std.specs.Prelude.{◌≡◌, ℕ, ◌+◌, ◌<◌};

use std::marker::Model;
use std::sync::ledger::{Blank, Book, Ledger, Share};

/// A number that only [`Steps::count`] raises, for contracts that bound how often something was done. It takes no
/// bytes, and counting does nothing when the program runs.
#[derive(Drop)]
pub struct Steps<L: Ledger> {
    total: Book<L>,
    part: Share<L>,
}

impl<L: Ledger> Model for Steps<L> {
    ghost Value = { ℕ };

    ghost view = { λ steps. steps.total.total };

    ghost invariant = { λ steps. 0 < steps.part.parts };
}

impl<L: Ledger> Steps<L> {
    /// A count from zero on, in a ledger that nothing was entered in.
    pub fn begin(ledger: Blank) -> Steps<L>
        requires name { ledger.name ≡ L.name }
        requires parts { ledger.parts ≡ L.parts }
        requires shared { 0 < L.parts }
        ensures { result ≡ 0 }
    {
        let (total, part) = ledger.open();
        Steps { total, part }
    }

    /// Counts one.
    pub fn count(&mut self)
        ensures { self.new ≡ self.old + 1 }
    {
        let Steps { total, part } = self;
        total.add(part, 1);
    }
}
