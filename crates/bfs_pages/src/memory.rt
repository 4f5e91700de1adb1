// A stream of pages in memory.
ghost use Rattle.std.specs.Prelude.{◌≡◌, ◌%◌, ℕ, List, length};

use bfs_txn::{Pages, Steps};
use std::alloc::AllocError;
use std::snapshot::Snapshot;
use std::sync::ledger::Ledger;

/// The pages of one stream in memory, which tells what it holds.
#[derive(Drop)]
pub struct MemPages {
    bytes: Vec<u8>,
    last: Snapshot<u64>,
    /// The bytes of all pages as they were at the last read.
    seen: Snapshot<Vec<u8>>,
    ghost pages: { length bytes.items % 1024 ≡ 0 },
}

impl MemPages {
    /// The pages of these bytes, one after another. Takes no memory.
    pub fn new(bytes: Vec<u8>) -> MemPages
        requires { length bytes.items % 1024 ≡ 0 }
        ensures { result.bytes.items ≡ bytes.items }
    {
        let seen = Snapshot::of(&bytes);
        MemPages {
            bytes,
            last: Snapshot::of(&0),
            seen,
        }
    }

    /// The bytes of all pages.
    pub fn bytes(&self) -> &[u8]
        ensures { result.now ≡ self.now.bytes.items }
    {
        &self.bytes
    }
}

impl Pages for MemPages {
    ghost use Rattle.std.specs.Prelude.{◌≡◌, Some, None, [], refl};
    ghost use Rattle.std.proofs.Common.{◌∙◌};
    ghost use Rattle.bfs_txn.specs.Pages.{page_at};

    type Fault = AllocError;

    ghost told = { λ p. Some p.bytes.items };

    ghost size = { λ p. length p.bytes.items };

    ghost counts = { λ p. record { faults = 0; stops = 0; stop = None } };

    ghost frame = { λ p. [] };

    ghost last = { λ p. p.last.value };

    ghost page = { λ p. page_at p.seen.value.items p.last.value };

    ghost goes_on = { λ p q. Unit {0} };

    ghost is_read = { λ p q. q.bytes.items ≡ p.bytes.items };

    ghost is_cause = { λ p q fault. Unit {0} };

    ghost goes_on_same = { λ p. tt };

    ghost goes_on_twice = { λ p q r a b. tt };

    ghost is_read_same = { λ p. refl };

    ghost is_read_twice = { λ p q r a b. b ∙ a };

    ghost is_read_on = { λ p q a. tt };

    ghost is_cause_before = { λ p q r fault a b. tt };

    ghost sized = { λ p. refl };

    ghost whole = { λ p. p.pages };

    fn length(&self) -> u64 {
        self.bytes.len() as u64
    }

    fn get<L: Ledger>(
        &mut self,
        at: u64,
        into: &mut [u8],
        steps: &mut Steps<L>,
    ) -> Result<(), AllocError> {
        steps.count();
        let start = at as usize;
        into.copy_from_slice(&self.bytes[start..start + 1024]);
        self.last = Snapshot::of(&at);
        self.seen = Snapshot::of(&self.bytes);
        Ok(())
    }

    fn set(&mut self, at: u64, from: &[u8]) -> Result<(), AllocError> {
        let start = at as usize;
        self.bytes[start..start + 1024].copy_from_slice(from);
        Ok(())
    }

    fn append(&mut self, from: &[u8]) -> Result<u64, AllocError> {
        let at = self.bytes.len() as u64;
        self.bytes.extend_from_slice(from)?;
        Ok(at)
    }
}
