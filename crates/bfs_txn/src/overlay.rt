// One call's changes over an open group, over what lies below.
ghost use Rattle.std.specs.Prelude.{◌≡◌, ◌≤◌, ◌<◌, ℕ, List, [], ◌∷◌, length, take, Option, is_some};
ghost use Rattle.std.specs.Option.{option_map};
ghost use Rattle.bfs_txn.specs.Changed.{newest, over, number_at, bytes_at, Ascends, AreOfSize, AreLayered};
ghost use Rattle.bfs_txn.specs.Told.{read_over};

use crate::{BlockFault, Blocks, Changed, Edits};
use std::alloc::AllocError;
use std::snapshot::Snapshot;

/// What one call changes, above an open group of changes and the blocks below. One of [`Overlay::keep`] and
/// [`Overlay::drop_call`] ends it.
pub struct Overlay<'a, B: Blocks> {
    group: &'a mut Changed,
    under: &'a mut B,
    mark: usize,
    /// Where the block that was read last is one of the pairs, that block, and the pairs as they were then.
    own: Snapshot<Option<u64>>,
    seen: Snapshot<Changed>,
    ghost layered: { AreLayered mark (B.size under.now) group.now },
}

impl<B: Blocks> Blocks for Overlay<'_, B> {
    ghost use Rattle.bfs_txn.specs.Laws.{over_sized};

    ghost told = { λ o. option_map (over o.group.now) (B.told o.under.now) };

    ghost size = { λ o. B.size o.under.now };

    ghost counts = { λ o. B.counts o.under.now };

    ghost changed = { λ o k. is_some (newest o.group.now k) };

    ghost pairs = { λ o. length o.group.now };

    ghost last = { λ o. read_over o.own.value o.seen.value (B.last o.under.now) };

    ghost Note = { B.Note };

    ghost frame = { λ o. record { note = (B.frame o.under.now).note; names = o.group.ghost_name ∷ o.under.ghost_name ∷ []; kept = take o.mark o.group.now; below = B.told o.under.now } };

    ghost sized = { λ o. over_sized o.mark (B.size o.under.now) o.group.now (B.told o.under.now) o.layered (B.sized o.under.now) };

    fn get(&mut self, block: u64, into: &mut [u8]) -> Result<(), BlockFault> {
        if let Some(i) = self.group.place_above(self.mark, block) {
            into.copy_from_slice(self.group.bytes(i));
            self.own = Snapshot::of(&Some(block));
            self.seen = Snapshot::of(self.group);
            return Ok(());
        }
        self.own = Snapshot::of(&None);
        self.under.get(block, into)
    }
}

impl<B: Blocks> Edits for Overlay<'_, B> {
    ghost use Rattle.bfs_txn.specs.Laws.{over_tells};

    ghost tells = { λ o. over_tells o.group.now (B.told o.under.now) };

    fn set(&mut self, block: u64, from: &[u8]) -> Result<(), AllocError> {
        self.group.put_above(self.mark, block, from)
    }
}

impl<'a, B: Blocks> Overlay<'a, B> {
    /// Begins a call over an open group and what lies below.
    pub fn begin(open: &'a mut Changed, under: &'a mut B) -> Overlay<'a, B>
        requires ascends { Ascends «open».old }
        requires sized { AreOfSize (B.size under.old) «open».old }
        ensures open { result.group.ghost_name ≡ «open».entry.ghost_name }
        ensures under { result.under.ghost_name ≡ under.entry.ghost_name }
        ensures open_now { result.group.now ≡ «open».old }
        ensures under_now { result.under.now ≡ under.old }
        ensures mark { result.mark ≡ length «open».old }
        ensures last { read_over result.own.value result.seen.value (B.last result.under.now) ≡ B.last under.old }
    {
        let mark = open.len();
        let seen = Snapshot::of(open);
        Overlay {
            group: open,
            under,
            mark,
            own: Snapshot::of(&None),
            seen,
        }
    }

    /// How many pairs the open group has with those of the call, some of which may be of one block.
    pub fn pairs(&self) -> usize
        ensures { result ≡ length self.now.group.now }
    {
        self.group.len()
    }

    /// The block of the pair at a place.
    pub fn block(&self, i: usize) -> u64
        requires { i < length self.now.group.now }
        ensures { result ≡ number_at self.now.group.now i }
    {
        self.group.block(i)
    }

    /// The bytes of the pair at a place.
    pub fn bytes(&self, i: usize) -> &[u8]
        requires { i < length self.now.group.now }
        ensures { result.now ≡ bytes_at self.now.group.now i }
    {
        self.group.bytes(i)
    }

    /// Puts the call's changes into the open group, which then reads as the overlay did. Takes no memory.
    pub fn keep(self)
        ensures reads { (k : ℕ) → newest self.exit.0.now k ≡ newest self.entry.group.now k }
        ensures told { option_map (over self.exit.0.now) (B.told self.exit.1.0.now) ≡ option_map (over self.entry.group.now) (B.told self.entry.under.now) }
        ensures ascends { Ascends self.exit.0.now }
        ensures sized { AreOfSize (B.size self.exit.1.0.now) self.exit.0.now }
        ensures len { length self.exit.0.now ≤ length self.entry.group.now }
        ensures under { self.exit.1.0.now ≡ self.entry.under.now }
    {
        let Overlay {
            group,
            under: _,
            mark,
            own: _,
            seen: _,
        } = self;
        group.merge(mark);
    }

    /// Gives the call's changes up: the open group is as it was when the call began. Takes no memory.
    pub fn drop_call(self)
        ensures open { self.exit.0.now ≡ take self.entry.mark self.entry.group.now }
        ensures under { self.exit.1.0.now ≡ self.entry.under.now }
    {
        let Overlay {
            group,
            under: _,
            mark,
            own: _,
            seen: _,
        } = self;
        group.truncate(mark);
    }
}
