// Gives runs back, and frees them once their group has left the log.
ghost use Rattle.std.specs.Prelude.{◌≡◌, ◌≤◌, ◌<◌, ◌⊎◌, ◌+◌, ◌-◌, ◌∷◌, ◌++◌, [], ℕ, List, length, Option, Some, None, OnOk, OnErr, IfErr, map, filter, not, true, false, IsTrue};
ghost use Rattle.bfs_bitmap.specs.Runs.{Fits, HasBitmap, IsCounted, AreUsed, IsMarked, IsInside, IsSettled, as_kept, first_of, is_reserved};
ghost use Rattle.bfs_bitmap.specs.Tallies.{lowered_by};
ghost use Rattle.bfs_bitmap.specs.declared.tally.Tally.{Tally};
ghost use Rattle.bfs_bitmap.specs.Givens.{numbered, settled, is_left};
ghost use Rattle.bfs_bitmap.specs.Fills.{IsBitmapBlock, HasBitOf, IsTold};
ghost use Rattle.bfs_txn.specs.Faults.{IsCaused};
ghost use Rattle.bfs_txn.specs.Told.{StaysChanged};

use crate::bits::mark_run;
use crate::given::{number_all, settle_all};
use crate::reserved::{forget_left, forget_unsettled, get_bits};
use crate::tally::lower_all;
use crate::window::Window;
use crate::{Bitmap, Given};
use bfs_super::bytes::Run;
use bfs_txn::{BlockFault, Edits};

impl Bitmap {
    /// Gives a run back: its bits are cleared, and it stays reserved until its group is released. After a refusal the
    /// call that asked is to be dropped.
    pub fn give_back<E: Edits>(&mut self, edits: &mut E, run: Run) -> Result<(), BlockFault>
        requires size { E.size edits.old ≡ self.old.block_size }
        requires inside { IsInside self.old run }
        ensures given { OnOk result (self.new ≡ record self.old { given = self.old.given ++ (record { first = first_of self.old run; len = run.len; group = None; kept = false }) ∷ []; tally = record self.old.tally { used = self.old.tally.used - run.len } }) }
        ensures counted { (m : ℕ → Option (List ℕ)) → E.told edits.old ≡ Some m → HasBitmap self.old m → AreUsed self.old m (first_of self.old run) run.len → IsCounted self.old m → OnOk result (IsTold (IsCounted self.new) (E.told edits.new)) }
        ensures marked { (m : ℕ → Option (List ℕ)) → E.told edits.old ≡ Some m → Fits self.old m → OnOk result (IsMarked self.old self.new (first_of self.old run) run.len 0 m (E.told edits.new)) }
        ensures err { OnErr result (self.new ≡ self.old) }
        ensures kept { as_kept self.new ≡ as_kept self.old }
        ensures changed { (k : ℕ) → E.changed edits.new k ≡ true → (E.changed edits.old k ≡ true) ⊎ IsBitmapBlock self.old k }
        ensures stays { StaysChanged (E.changed edits.old) (E.changed edits.new) }
        ensures bits { (k : ℕ) → E.changed edits.new k ≡ true → (E.changed edits.old k ≡ true) ⊎ HasBitOf self.old (first_of self.old run) run.len k }
        ensures size { E.size edits.new ≡ E.size edits.old }
        ensures frame { E.frame edits.new ≡ E.frame edits.old }
        ensures cause { IsCaused (E.counts edits.old) (E.counts edits.new) result }
    {
        let mut window = match Window::new(self.alloc, self.block_size) {
            Ok(window) => window,
            Err(_) => return Err(BlockFault::NoMemory),
        };
        let first = self.first_block(run);
        let len = run.len as u64;
        match self.fill(edits, &mut window.bytes, first, len, false) {
            Ok(()) => {}
            Err(fault) => return Err(fault),
        }
        self.add(first, len)
    }

    /// The first block of a run.
    fn first_block(&self, run: Run) -> u64
        requires { IsInside self.now run }
        ensures value { result ≡ first_of self.now run }
        ensures inside { result + run.len ≤ self.now.blocks }
    {
        run.group as u64 * self.group_blocks + u64::from(run.start)
    }

    /// Adds a run to those that were given back, whose blocks are used no more.
    fn add(&mut self, first: u64, len: u64) -> Result<(), BlockFault>
        requires { first + len ≤ self.old.blocks }
        ensures ok { OnOk result (self.new ≡ record self.old { given = self.old.given ++ (record { first = first; len = len; group = None; kept = false }) ∷ []; tally = record self.old.tally { used = self.old.tally.used - len } }) }
        ensures err { OnErr result (self.new ≡ self.old) }
        ensures cause { IfErr result (λ fault. fault ≡ BlockFault.NoMemory) }
    {
        match get_bits(&mut self.reserved, self.alloc, self.blocks) {
            Ok(()) => {}
            Err(_) => return Err(BlockFault::NoMemory),
        }
        let given = Given {
            first,
            len,
            group: None,
            kept: false,
        };
        match self.given.push(given) {
            Ok(()) => {
                mark_run(&mut self.reserved, 0, first, len);
                self.tally.used = self.tally.used.saturating_sub(len);
                Ok(())
            }
            Err(_) => Err(BlockFault::NoMemory),
        }
    }

    /// Gives this group's number to the runs that were given back since the last such call. Takes no memory.
    pub fn close_group(&mut self, group: u64)
        requires { self.old.last < group }
        ensures given { self.new ≡ record self.old { given = map (numbered group) self.old.given; last = group } }
        ensures leaves { filter (λ g. not (is_left group g)) self.new.given ≡ [] }
        ensures reserved { (k : ℕ) → is_reserved self.new.given k ≡ is_reserved self.old.given k }
        ensures fits { (m : ℕ → Option (List ℕ)) → Fits self.old m → Fits self.new m }
        ensures settled { IsSettled self.old → IsSettled self.new }
    {
        number_all(&mut self.given, group);
        self.last = group;
    }

    // Frees the runs that were given back in groups up to this number, and goes over all that are given back for it.
    fn release_some(&mut self, group: u64)
        ensures given { self.new ≡ record self.old { given = filter (λ g. not (is_left group g)) self.old.given; tally = lowered_by group self.old.given self.old.tally; tally_kept = lowered_by group self.old.given self.old.tally_kept } }
        ensures reserved { (k : ℕ) → is_reserved self.new.given k ≡ true → is_reserved self.old.given k ≡ true }
        ensures fits { (m : ℕ → Option (List ℕ)) → Fits self.old m → Fits self.new m }
        ensures settled { IsSettled self.old → IsSettled self.new }
    {
        self.tally = lower_all(self.tally, &self.given, group);
        self.tally_kept = lower_all(self.tally_kept, &self.given, group);
        forget_left(&mut self.given, &mut self.reserved, group);
        self.left = self.left.max(group.min(self.last));
    }

    /// Is it known that the group of none of the runs has left the log by this number?
    fn has_none_left(&self, group: u64) -> bool
        ensures same { IsTrue result → filter (λ g. not (is_left group g)) self.now.given ≡ self.now.given }
        ensures lowered { IsTrue result → (t : Tally) → lowered_by group self.now.given t ≡ t }
    {
        if group > self.left {
            return false;
        }
        true
    }

    /// Frees the runs that were given back in groups up to this number. Takes no memory.
    pub fn release(&mut self, group: u64)
        ensures given { self.new ≡ record self.old { given = filter (λ g. not (is_left group g)) self.old.given; tally = lowered_by group self.old.given self.old.tally; tally_kept = lowered_by group self.old.given self.old.tally_kept } }
        ensures reserved { (k : ℕ) → is_reserved self.new.given k ≡ true → is_reserved self.old.given k ≡ true }
        ensures fits { (m : ℕ → Option (List ℕ)) → Fits self.old m → Fits self.new m }
        ensures settled { IsSettled self.old → IsSettled self.new }
    {
        if self.has_none_left(group) {
            return;
        }
        self.release_some(group);
    }

    /// Keeps what was given back since a call was last kept or dropped. Takes no memory.
    pub fn keep(&mut self)
        ensures given { self.new ≡ record self.old { given = map settled self.old.given; tally_kept = self.old.tally } }
        ensures reserved { (k : ℕ) → is_reserved self.new.given k ≡ is_reserved self.old.given k }
        ensures fits { (m : ℕ → Option (List ℕ)) → Fits self.old m → Fits self.new m }
        ensures settled { IsSettled self.new }
    {
        settle_all(&mut self.given);
        self.tally_kept = self.tally;
    }

    /// Takes the runs out again that were given back since a call was last kept or dropped. Takes no memory.
    pub fn drop_call(&mut self)
        ensures given { self.new ≡ as_kept self.old }
        ensures reserved { (k : ℕ) → is_reserved self.new.given k ≡ true → is_reserved self.old.given k ≡ true }
        ensures settled { IsSettled self.new }
    {
        forget_unsettled(&mut self.given, &mut self.reserved);
        self.tally = self.tally_kept;
    }
}
