// The pages of one stream, over a volume that is lent.
ghost use Rattle.std.specs.Prelude.{◌≡◌, ◌<◌, ◌%◌, ◌^◌, ◌&&◌, ℕ, List, Option, Some, IfSome, None, OnOk, IfErr, ◌+◌, true, false, is_some};
ghost use Rattle.std.specs.Option.{ForSome};
ghost use Rattle.bfs_super.specs.Conditions.{IsValid, natural};
ghost use Rattle.bfs_txn.specs.Faults.{AreLater};
ghost use Rattle.bfs_stream.specs.Sizes.{sizes_of};
ghost use Rattle.bfs_stream.specs.Grown.{IsOfVolume};
ghost use Rattle.bfs_stream_pages.specs.Held.{Held, HasInode, HasInodeLength, IsInodeOf, Tells, known};

use crate::backing::Backing;
use bfs_bitmap::Bitmap;
use bfs_stream::GrowFault;
use bfs_super::Super;
use bfs_txn::{BlockFault, Edits, Pages, Steps};
use std::alloc::Global;
use std::snapshot::Snapshot;
use std::sync::ledger::Ledger;

/// One stream of a volume as pages of 1,024 bytes, over the blocks and the bitmap of that volume. A page that is added behind
/// the last block makes the stream grow. Where it can't be added, nothing is known of the stream any more, each later call
/// answers the fault of that one again, and the caller gives up what was changed. Fixed pages are for a caller that adds none:
/// none can be added to them, and each of their faults is of a block. So is each fault of pages to which none failed to be added.
pub struct StreamPages<'a, 'b, E: Edits> {
    edits: &'a mut E,
    bitmap: &'b mut Bitmap,
    backing: Backing,
    /// The bytes of the inode's block, until something is written.
    inode: Option<&'a [u8]>,
    length: u64,
    failed: Option<GrowFault>,
    fixed: bool,
    start: Snapshot<E>,
    last: Snapshot<u64>,
    /// The blocks as they were right behind the last read, and the byte of a block from which the page was taken.
    seen: Snapshot<E>,
    from: Snapshot<usize>,
    ghost size: { E.size edits.now ≡ backing.sizes.block_size },
    ghost volume: { IsOfVolume backing.sizes bitmap.now },
    ghost whole: { length % 1024 ≡ 0 },
    ghost unfailed: { (fixed && is_some failed) ≡ false },
    ghost tells: { Tells failed (E.told start.value) (E.told edits.now) },
    ghost inode_long: { ForSome inode (λ b. HasInodeLength b.now) },
    ghost inode_is: { (m : ℕ → Option (List ℕ)) → E.told edits.now ≡ Some m → ∥ HasInode backing inode m ∥₁ },
    ghost held: { (m : ℕ → Option (List ℕ)) → known failed (E.told start.value) (E.told edits.now) ≡ Some m → ∥ Held backing bitmap.now length m ∥₁ },
}

impl<'a, 'b, E: Edits> StreamPages<'a, 'b, E> {
    /// The pages of the stream of the inode at a block, which has so many bytes; fixed ones, or ones that can be added to. Where the
    /// bytes of the inode's block are given, it is read again only from the first write on. Takes no memory.
    pub fn over(
        alloc: Global,
        edits: &'a mut E,
        bitmap: &'b mut Bitmap,
        inode: u64,
        sup: &Super,
        length: u64,
        fixed: bool,
        bytes: Option<&'a [u8]>,
    ) -> StreamPages<'a, 'b, E>
        requires valid { IsValid sup.now }
        requires inside { inode < natural sup.now.num_blocks }
        requires size { E.size edits.old ≡ sup.now.block_size }
        requires volume { IsOfVolume (sizes_of sup.now) bitmap.old }
        requires whole { length % 1024 ≡ 0 }
        requires bytes { ForSome bytes (λ b. IsInodeOf (record { id = inode; sizes = sizes_of sup.now }) (E.told edits.old) b.now) }
        requires held { (m : ℕ → Option (List ℕ)) → E.told edits.old ≡ Some m → ∥ Held (record { id = inode; sizes = sizes_of sup.now }) bitmap.old length m ∥₁ }
        ensures edits { result.edits.ghost_name ≡ edits.entry.ghost_name }
        ensures bitmap { result.bitmap.ghost_name ≡ bitmap.entry.ghost_name }
        ensures edits_now { result.edits.now ≡ edits.old }
        ensures bitmap_now { result.bitmap.now ≡ bitmap.old }
        ensures backing { result.backing ≡ record { id = inode; sizes = sizes_of sup.now } }
        ensures length { result.length ≡ length }
        ensures failed { result.failed ≡ None }
        ensures fixed { result.fixed ≡ fixed }
        ensures start { result.start.value ≡ edits.old }
    {
        let start = Snapshot::of(edits);
        let seen = Snapshot::of(edits);
        StreamPages {
            edits,
            bitmap,
            backing: Backing::at(alloc, inode, sup),
            inode: bytes,
            length,
            failed: None,
            fixed,
            start,
            last: Snapshot::of(&0),
            seen,
            from: Snapshot::of(&0),
        }
    }
}

// The length with a page more, where one can be added and a signed number of 64 bits has it.
fn longer(length: u64, fixed: bool) -> Option<u64>
    ensures { IfSome result (λ n. (n ≡ length + 1024) × (n < 2 ^ 63) × (fixed ≡ false)) }
{
    if fixed {
        return None;
    }
    if length < 0x7fff_ffff_ffff_f000 {
        Some(length + 1024)
    } else {
        None
    }
}

// Goes on where no page failed to be added.
fn go_on(failed: Option<GrowFault>) -> Result<(), GrowFault>
    ensures none { OnOk result (failed ≡ None) }
    ensures again { IfErr result (λ fault. failed ≡ Some fault) }
{
    match failed {
        Some(fault) => Err(fault),
        None => Ok(()),
    }
}

impl<E: Edits> Pages for StreamPages<'_, '_, E> {
    ghost use Rattle.std.specs.Prelude.{◌≡◌, ◌∷◌, [], refl, List};
    ghost use Rattle.std.specs.Option.{option_map};
    ghost use Rattle.bfs_txn.specs.Pages.{seen_page};
    ghost use Rattle.bfs_stream_pages.specs.Held.{known, stream_of};
    ghost use Rattle.bfs_stream_pages.specs.Goes.{GoesOn, IsRead};
    ghost use Rattle.bfs_stream_pages.specs.Causes.{IsPageCause, IsOfBlock};
    ghost use Rattle.std.proofs.Common.{◌∙◌, subst, ap};
    ghost use Rattle.bfs_stream.specs.Sizes.{Origin};
    ghost use Rattle.bfs_stream_pages.specs.GoesLaws.{goes_same, goes_twice, cause_before, told_sized, known_sized, read_same, read_twice, read_goes};

    type Fault = GrowFault;

    ghost told = { λ p. option_map (stream_of p.backing) (known p.failed (E.told p.start.value) (E.told p.edits.now)) };

    ghost size = { λ p. p.length };

    ghost counts = { λ p. E.counts p.edits.now };

    ghost frame = { λ p. p.edits.ghost_name ∷ p.bitmap.ghost_name ∷ [] };

    ghost last = { λ p. p.last.value };

    ghost page = { λ p. seen_page p.from.value (E.last p.seen.value) };

    ghost goes_on = { λ p q. (q.backing ≡ p.backing) × (E.frame q.edits.now ≡ E.frame p.edits.now) × GoesOn p.backing p.bitmap.now q.bitmap.now p.length q.length (known p.failed (E.told p.start.value) (E.told p.edits.now)) (known q.failed (E.told q.start.value) (E.told q.edits.now)) p.failed q.failed (E.changed p.edits.now) (E.changed q.edits.now) (E.counts p.edits.now) (E.counts q.edits.now) × (q.fixed ≡ p.fixed) };

    ghost is_read = { λ p q. (q.backing ≡ p.backing) × (q.start.value ≡ p.start.value) × (E.frame q.edits.now ≡ E.frame p.edits.now) × (q.edits.ghost_name ≡ p.edits.ghost_name) × (q.bitmap.ghost_name ≡ p.bitmap.ghost_name) × IsRead p.bitmap.now q.bitmap.now p.length q.length (E.told p.edits.now) (E.told q.edits.now) p.failed q.failed (E.changed p.edits.now) (E.changed q.edits.now) (E.pairs p.edits.now) (E.pairs q.edits.now) (E.counts p.edits.now) (E.counts q.edits.now) × (q.fixed ≡ p.fixed) };

    ghost is_cause = { λ p q fault. IsPageCause p.backing p.bitmap.now p.length (known p.failed (E.told p.start.value) (E.told p.edits.now)) p.failed (E.counts p.edits.now) (E.counts q.edits.now) fault × (p.fixed ≡ true → IsOfBlock fault) × (q.failed ≡ None → IsOfBlock fault) };

    ghost goes_on_same = { λ p. (refl, refl, goes_same p.backing p.bitmap.now p.length (known p.failed (E.told p.start.value) (E.told p.edits.now)) p.failed (E.changed p.edits.now) (E.counts p.edits.now), refl) };

    ghost goes_on_twice = { λ p q r a b. (b.0 ∙ a.0, b.1 ∙ a.1, goes_twice p.backing p.bitmap.now q.bitmap.now r.bitmap.now p.length q.length r.length (known p.failed (E.told p.start.value) (E.told p.edits.now)) (known q.failed (E.told q.start.value) (E.told q.edits.now)) (known r.failed (E.told r.start.value) (E.told r.edits.now)) p.failed q.failed r.failed (E.changed p.edits.now) (E.changed q.edits.now) (E.changed r.edits.now) (E.counts p.edits.now) (E.counts q.edits.now) (E.counts r.edits.now) a.2 (subst (λ (o : Origin). GoesOn o q.bitmap.now r.bitmap.now q.length r.length (known q.failed (E.told q.start.value) (E.told q.edits.now)) (known r.failed (E.told r.start.value) (E.told r.edits.now)) q.failed r.failed (E.changed q.edits.now) (E.changed r.edits.now) (E.counts q.edits.now) (E.counts r.edits.now)) a.0 b.2), b.3 ∙ a.3) };

    ghost is_read_same = { λ p. (refl, refl, refl, refl, refl, read_same p.bitmap.now p.length (E.told p.edits.now) p.failed (E.changed p.edits.now) (E.pairs p.edits.now) (E.counts p.edits.now), refl) };

    ghost is_read_twice = { λ p q r a b. (b.0 ∙ a.0, b.1 ∙ a.1, b.2 ∙ a.2, b.3 ∙ a.3, b.4 ∙ a.4, read_twice p.bitmap.now q.bitmap.now r.bitmap.now p.length q.length r.length (E.told p.edits.now) (E.told q.edits.now) (E.told r.edits.now) p.failed q.failed r.failed (E.changed p.edits.now) (E.changed q.edits.now) (E.changed r.edits.now) (E.pairs p.edits.now) (E.pairs q.edits.now) (E.pairs r.edits.now) (E.counts p.edits.now) (E.counts q.edits.now) (E.counts r.edits.now) a.5 b.5, b.6 ∙ a.6) };

    ghost is_read_on = { λ p q a. (a.0, a.2, read_goes p.backing p.bitmap.now q.bitmap.now p.length q.length (E.told p.start.value) (E.told q.start.value) (E.told p.edits.now) (E.told q.edits.now) p.failed q.failed (E.changed p.edits.now) (E.changed q.edits.now) (E.pairs p.edits.now) (E.pairs q.edits.now) (E.counts p.edits.now) (E.counts q.edits.now) (ap (λ (e : E). E.told e) a.1) a.5, a.6) };

    ghost is_cause_before = { λ p q r fault a b. (cause_before p.backing p.bitmap.now q.bitmap.now p.length q.length (known p.failed (E.told p.start.value) (E.told p.edits.now)) (known q.failed (E.told q.start.value) (E.told q.edits.now)) p.failed q.failed (E.changed p.edits.now) (E.changed q.edits.now) (E.counts p.edits.now) (E.counts q.edits.now) (E.counts r.edits.now) fault a.2 (subst (λ (o : Origin). IsPageCause o q.bitmap.now q.length (known q.failed (E.told q.start.value) (E.told q.edits.now)) q.failed (E.counts q.edits.now) (E.counts r.edits.now) fault) a.0 b.0), λ is. b.1 (a.3 ∙ is), b.2) };

    ghost sized = { λ p. told_sized p.backing p.bitmap.now p.length (known p.failed (E.told p.start.value) (E.told p.edits.now)) p.held (known_sized p.failed (E.told p.start.value) p.backing.sizes.block_size (E.size p.edits.now) (E.told p.edits.now) p.size (E.sized p.edits.now)) };

    ghost whole = { λ p. p.whole };

    fn length(&self) -> u64 {
        self.length
    }

    fn get<L: Ledger>(
        &mut self,
        at: u64,
        into: &mut [u8],
        steps: &mut Steps<L>,
    ) -> Result<(), GrowFault> {
        steps.count();
        match go_on(self.failed) {
            Ok(()) => {}
            Err(fault) => return Err(fault),
        }
        let (index, start) = self.backing.place(at);
        match self
            .backing
            .get_page(self.edits, self.inode, index, start, into)
        {
            Ok(()) => {}
            Err(fault) => return Err(fault),
        }
        self.last = Snapshot::of(&at);
        self.seen = Snapshot::of(self.edits);
        self.from = Snapshot::of(&start);
        Ok(())
    }

    fn set(&mut self, at: u64, from: &[u8]) -> Result<(), GrowFault> {
        match go_on(self.failed) {
            Ok(()) => {}
            Err(fault) => return Err(fault),
        }
        let mut block = match self.backing.buffer() {
            Ok(block) => block,
            Err(fault) => return Err(fault),
        };
        let (index, start) = self.backing.place(at);
        let inode = self.inode;
        self.inode = None;
        match self
            .backing
            .put_page(self.edits, inode, &mut block, index, start, from)
        {
            Ok(()) => {}
            Err(fault) => return Err(fault),
        }
        Ok(())
    }

    fn append(&mut self, from: &[u8]) -> Result<u64, GrowFault> {
        match go_on(self.failed) {
            Ok(()) => {}
            Err(fault) => return Err(fault),
        }
        let at = self.length;
        let Some(end) = longer(at, self.fixed) else {
            return Err(GrowFault::Block(BlockFault::NoMemory));
        };
        let mut block = match self.backing.buffer() {
            Ok(block) => block,
            Err(fault) => return Err(fault),
        };
        self.inode = None;
        match self
            .backing
            .add_page(self.bitmap, self.edits, &mut block, at, from)
        {
            Ok(()) => {}
            Err(fault) => {
                self.failed = Some(fault);
                return Err(fault);
            }
        }
        self.length = end;
        Ok(at)
    }
}

impl<E: Edits> Drop for StreamPages<'_, '_, E> {
    fn drop(self)
        ensures edits { self.exit.0.now ≡ self.entry.edits.now }
        ensures bitmap { self.exit.1.0.now ≡ self.entry.bitmap.now }
    {
        let StreamPages {
            edits: _,
            bitmap: _,
            backing: _,
            inode: _,
            length: _,
            failed: _,
            fixed: _,
            start: _,
            last: _,
            seen: _,
            from: _,
        } = self;
    }
}
