// The pages of one stream, which are only read, over blocks that are lent.
ghost use Rattle.std.specs.Prelude.{◌≡◌, ◌<◌, ◌%◌, ℕ, List, Option, Some};
ghost use Rattle.std.specs.Option.{ForSome};
ghost use Rattle.bfs_super.specs.Conditions.{IsValid, natural};
ghost use Rattle.bfs_stream.specs.Sizes.{sizes_of};
ghost use Rattle.bfs_stream_pages.specs.Held.{IsReadable, HasInode, HasInodeLength, IsInodeOf};

use crate::backing::Backing;
use bfs_stream::GrowFault;
use bfs_super::Super;
use bfs_txn::{BlockFault, Blocks, Pages, Steps};
use std::alloc::Global;
use std::snapshot::Snapshot;
use std::sync::ledger::Ledger;

/// One stream of a volume as pages of 1,024 bytes, over its blocks alone, for look-ups. A page that is to be written or added
/// is refused as for want of memory.
pub struct StreamReader<'a, B: Blocks> {
    under: &'a mut B,
    backing: Backing,
    /// The bytes of the inode's block, or none.
    inode: Option<&'a [u8]>,
    length: u64,
    last: Snapshot<u64>,
    /// The blocks as they were right behind the last read, and the byte of a block from which the page was taken.
    seen: Snapshot<B>,
    from: Snapshot<usize>,
    ghost size: { B.size under.now ≡ backing.sizes.block_size },
    ghost whole: { length % 1024 ≡ 0 },
    ghost inode_long: { ForSome inode (λ b. HasInodeLength b.now) },
    ghost inode_is: { (m : ℕ → Option (List ℕ)) → B.told under.now ≡ Some m → ∥ HasInode backing inode m ∥₁ },
    ghost held: { (m : ℕ → Option (List ℕ)) → B.told under.now ≡ Some m → ∥ IsReadable backing length m ∥₁ },
}

impl<'a, B: Blocks> StreamReader<'a, B> {
    /// The pages of the stream of the inode at a block, which has so many bytes. Where the bytes of the inode's block are given, it isn't
    /// read again. Takes no memory.
    pub fn over(
        alloc: Global,
        under: &'a mut B,
        inode: u64,
        sup: &Super,
        length: u64,
        bytes: Option<&'a [u8]>,
    ) -> StreamReader<'a, B>
        requires valid { IsValid sup.now }
        requires inside { inode < natural sup.now.num_blocks }
        requires size { B.size under.old ≡ sup.now.block_size }
        requires whole { length % 1024 ≡ 0 }
        requires bytes { ForSome bytes (λ b. IsInodeOf (record { id = inode; sizes = sizes_of sup.now }) (B.told under.old) b.now) }
        requires held { (m : ℕ → Option (List ℕ)) → B.told under.old ≡ Some m → ∥ IsReadable (record { id = inode; sizes = sizes_of sup.now }) length m ∥₁ }
        ensures under { result.under.ghost_name ≡ under.entry.ghost_name }
        ensures under_now { result.under.now ≡ under.old }
        ensures backing { result.backing ≡ record { id = inode; sizes = sizes_of sup.now } }
        ensures length { result.length ≡ length }
    {
        let seen = Snapshot::of(under);
        StreamReader {
            under,
            backing: Backing::at(alloc, inode, sup),
            inode: bytes,
            length,
            last: Snapshot::of(&0),
            seen,
            from: Snapshot::of(&0),
        }
    }
}

impl<B: Blocks> Pages for StreamReader<'_, B> {
    ghost use Rattle.std.specs.Prelude.{◌≡◌, ◌∷◌, [], refl, List};
    ghost use Rattle.std.specs.Option.{option_map};
    ghost use Rattle.std.proofs.Common.{◌∙◌};
    ghost use Rattle.bfs_txn.specs.Pages.{seen_page};
    ghost use Rattle.bfs_stream_pages.specs.Held.{stream_of};
    ghost use Rattle.bfs_stream_pages.specs.Goes.{OnlyReads};
    ghost use Rattle.bfs_stream_pages.specs.Causes.{IsReadCause};
    ghost use Rattle.bfs_stream_pages.specs.GoesLaws.{only_none, only_twice, only_cause, reads_sized, sized_as};

    type Fault = GrowFault;

    ghost told = { λ p. option_map (stream_of p.backing) (B.told p.under.now) };

    ghost size = { λ p. p.length };

    ghost counts = { λ p. B.counts p.under.now };

    ghost frame = { λ p. p.under.ghost_name ∷ [] };

    ghost last = { λ p. p.last.value };

    ghost page = { λ p. seen_page p.from.value (B.last p.seen.value) };

    ghost goes_on = { λ p q. (q.backing ≡ p.backing) × (B.frame q.under.now ≡ B.frame p.under.now) × (q.under.ghost_name ≡ p.under.ghost_name) × OnlyReads p.length q.length (B.told p.under.now) (B.told q.under.now) (B.changed p.under.now) (B.changed q.under.now) (B.pairs p.under.now) (B.pairs q.under.now) (B.counts p.under.now) (B.counts q.under.now) };

    ghost is_read = { λ p q. (q.backing ≡ p.backing) × (B.frame q.under.now ≡ B.frame p.under.now) × (q.under.ghost_name ≡ p.under.ghost_name) × OnlyReads p.length q.length (B.told p.under.now) (B.told q.under.now) (B.changed p.under.now) (B.changed q.under.now) (B.pairs p.under.now) (B.pairs q.under.now) (B.counts p.under.now) (B.counts q.under.now) };

    ghost is_cause = { λ p q fault. IsReadCause (B.told p.under.now) (B.counts p.under.now) (B.counts q.under.now) fault };

    ghost goes_on_same = { λ p. (refl, refl, refl, only_none p.length (B.told p.under.now) (B.changed p.under.now) (B.pairs p.under.now) (B.counts p.under.now)) };

    ghost goes_on_twice = { λ p q r a b. (b.0 ∙ a.0, b.1 ∙ a.1, b.2 ∙ a.2, only_twice p.length q.length r.length (B.told p.under.now) (B.told q.under.now) (B.told r.under.now) (B.changed p.under.now) (B.changed q.under.now) (B.changed r.under.now) (B.pairs p.under.now) (B.pairs q.under.now) (B.pairs r.under.now) (B.counts p.under.now) (B.counts q.under.now) (B.counts r.under.now) a.3 b.3) };

    ghost is_read_same = { λ p. (refl, refl, refl, only_none p.length (B.told p.under.now) (B.changed p.under.now) (B.pairs p.under.now) (B.counts p.under.now)) };

    ghost is_read_twice = { λ p q r a b. (b.0 ∙ a.0, b.1 ∙ a.1, b.2 ∙ a.2, only_twice p.length q.length r.length (B.told p.under.now) (B.told q.under.now) (B.told r.under.now) (B.changed p.under.now) (B.changed q.under.now) (B.changed r.under.now) (B.pairs p.under.now) (B.pairs q.under.now) (B.pairs r.under.now) (B.counts p.under.now) (B.counts q.under.now) (B.counts r.under.now) a.3 b.3) };

    ghost is_read_on = { λ p q a. a };

    ghost is_cause_before = { λ p q r fault a b. only_cause p.length q.length (B.told p.under.now) (B.told q.under.now) (B.changed p.under.now) (B.changed q.under.now) (B.pairs p.under.now) (B.pairs q.under.now) (B.counts p.under.now) (B.counts q.under.now) (B.counts r.under.now) fault a.3 b };

    ghost sized = { λ p. reads_sized p.backing p.length (B.told p.under.now) p.held (sized_as p.backing.sizes.block_size (B.size p.under.now) (B.told p.under.now) p.size (B.sized p.under.now)) };

    ghost whole = { λ p. p.whole };

    fn length(&self) -> u64 {
        self.length
    }

    fn get<L: Ledger>(
        &mut self,
        at: u64,
        into: &mut [u8],
        steps: &mut Steps<L>,
    ) -> Result<(), GrowFault> {
        steps.count();
        let (index, start) = self.backing.place(at);
        match self
            .backing
            .get_page(self.under, self.inode, index, start, into)
        {
            Ok(()) => {}
            Err(fault) => return Err(fault),
        }
        self.last = Snapshot::of(&at);
        self.seen = Snapshot::of(self.under);
        self.from = Snapshot::of(&start);
        Ok(())
    }

    fn set(&mut self, at: u64, from: &[u8]) -> Result<(), GrowFault> {
        let _ = at;
        let _ = from;
        Err(GrowFault::Block(BlockFault::NoMemory))
    }

    fn append(&mut self, from: &[u8]) -> Result<u64, GrowFault> {
        let _ = from;
        Err(GrowFault::Block(BlockFault::NoMemory))
    }
}

impl<B: Blocks> Drop for StreamReader<'_, B> {
    fn drop(self)
        ensures under { self.exit.0.now ≡ self.entry.under.now }
    {
        let StreamReader {
            under: _,
            backing: _,
            inode: _,
            length: _,
            last: _,
            seen: _,
            from: _,
        } = self;
    }
}
