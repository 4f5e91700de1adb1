// One stream of a volume, read and written by parts of its blocks.
ghost use Rattle.std.specs.Prelude.{◌≡◌, ◌≤◌, ◌<◌, ◌⊎◌, ℕ, ◌+◌, ◌*◌, ◌^◌, ◌%◌, pos, true, IsTrue, List, length, Option, Some, OnOk, OnErr, IfOk, IfErr, slice_get, take, drop};
ghost use Rattle.std.specs.Option.{ForSome};
ghost use Rattle.bfs_super.specs.Conditions.{IsValid, natural};
ghost use Rattle.bfs_super.specs.Geometry.{IsBlockSize};
ghost use Rattle.bfs_base.specs.Lists.{IsOnce};
ghost use Rattle.bfs_bitmap.specs.Runs.{Room};
ghost use Rattle.bfs_bitmap.specs.Fills.{IsBitmapBlock};
ghost use Rattle.bfs_inode.specs.Inode.{stream_at};
ghost use Rattle.bfs_txn.specs.Faults.{AreLater};
ghost use Rattle.bfs_txn.specs.Pages.{page_at, seen_page, with_page};
ghost use Rattle.bfs_txn.specs.Told.{StaysChanged};
ghost use Rattle.bfs_stream.specs.Sizes.{sizes_of, HasSizes};
ghost use Rattle.bfs_stream.specs.Places.{places_at, whole_at};
ghost use Rattle.bfs_stream.specs.Told.{contents, AreTold, Stands};
ghost use Rattle.bfs_stream.specs.Grown.{IsOfVolume, KeepsRest};
ghost use Rattle.bfs_stream.specs.Faults.{HasNoBlock, IsStreamCause, IsGrowCause, IsGrowFault};
ghost use Rattle.bfs_stream_pages.specs.Held.{Held, IsReadable, IsInodeOf, stream_of};
ghost use Rattle.bfs_stream_pages.specs.Moves.{KeepsInode};
ghost use Rattle.bfs_stream_pages.specs.Causes.{HasFailed, IsOfBlock};
ghost use Rattle.bfs_stream_pages.specs.Steps.{IsUndamaged, HasFilled, IsToldWhole, HasRoom, HasWritten, HasSize, HasAdded};

use bfs_bitmap::Bitmap;
use bfs_growth::grow;
use bfs_inode::InodeMut;
use bfs_stream::{GrowFault, Stream, StreamFault};
use bfs_super::Super;
use bfs_txn::{BlockFault, Blocks, Edits};
use std::alloc::Global;
use std::marker::Model;

/// The most blocks that an array has.
const LONGEST: u64 = 4;

/// The stream of an inode, and the size of its volume's blocks.
#[derive(Drop)]
pub struct Backing {
    alloc: Global,
    stream: Stream,
    inode: u64,
    block_size: u32,
}

impl Model for Backing {
    ghost use Rattle.std.specs.Prelude.{◌≡◌, ◌<◌};
    ghost use Rattle.bfs_stream.specs.Sizes.{Origin, HasSizes};

    ghost Value = { Origin };

    ghost view = { λ b. b.stream };

    ghost invariant = { λ b. (b.inode ≡ b.stream.id) × (b.block_size ≡ b.stream.sizes.block_size) × HasSizes b.stream.sizes × (b.stream.id < b.stream.sizes.blocks) };
}

impl Backing {
    ghost use Rattle.bfs_stream.specs.Sizes.{Origin};

    /// The stream of the inode at this block. Takes no memory.
    pub fn at(alloc: Global, inode: u64, sup: &Super) -> Backing
        requires valid { IsValid sup.now }
        requires inside { inode < natural sup.now.num_blocks }
        ensures { result ≡ record { id = inode; sizes = sizes_of sup.now } }
    {
        Backing {
            alloc,
            stream: Stream::at(alloc, inode, sup),
            inode,
            block_size: sup.block_size,
        }
    }

    /// The block of the stream that has a byte, and where in the block it stands. Takes no memory.
    pub(crate) fn place(&self, at: u64) -> (u64, usize)
        requires { at % 1024 ≡ 0 }
        ensures at { at ≡ self.now.sizes.block_size * result.0 + result.1 }
        ensures inside { result.1 + 1024 ≤ self.now.sizes.block_size }
    {
        match self.block_size {
            1024 => (at / 1024, 0),
            2048 => (at / 2048, (at % 2048) as usize),
            4096 => (at / 4096, (at % 4096) as usize),
            size => (at / u64::from(size), (at % u64::from(size)) as usize),
        }
    }

    /// Room for a block.
    pub(crate) fn buffer(&self) -> Result<Vec<u8>, GrowFault>
        ensures length { IfOk result (λ v. length v.items ≡ self.now.sizes.block_size) }
        ensures fault { IfErr result (λ fault. fault ≡ GrowFault.Block BlockFault.NoMemory) }
    {
        match vec![in self.alloc; 0u8; self.block_size as usize] {
            Ok(bytes) => Ok(bytes),
            Err(_) => Err(GrowFault::Block(BlockFault::NoMemory)),
        }
    }

    /// Is a block as long as a page?
    fn is_page(&self) -> bool
        ensures yes { IsTrue result → self.now.sizes.block_size ≡ 1024 }
    {
        self.block_size == 1024
    }

    /// The stream's look-up, by the inode's bytes where they are given, and else by the inode as it is read.
    fn look_up<B: Blocks>(
        &mut self,
        under: &mut B,
        inode: Option<&[u8]>,
        index: u64,
        block: &mut [u8],
    ) -> Result<u64, StreamFault>
        requires size { B.size under.old ≡ self.old.sizes.block_size }
        requires inode { ForSome inode (λ b. IsInodeOf self.old (B.told under.old) b.now) }
        requires block { length block.old ≡ self.old.sizes.block_size }
        ensures found { (m : ℕ → Option (List ℕ)) → B.told under.old ≡ Some m → Stands self.old m → IfOk result (λ n. slice_get (places_at self.old.sizes (contents m) self.old.id) index ≡ Some n) }
        ensures none { (m : ℕ → Option (List ℕ)) → B.told under.old ≡ Some m → Stands self.old m → IfErr result (HasNoBlock (places_at self.old.sizes (contents m) self.old.id) index) }
        ensures below { IfOk result (λ n. n < self.old.sizes.blocks) }
        ensures length { length block.new ≡ self.old.sizes.block_size }
        ensures same { self.new ≡ self.old }
        ensures told { B.told under.new ≡ B.told under.old }
        ensures changed { B.changed under.new ≡ B.changed under.old }
        ensures pairs { B.pairs under.new ≡ B.pairs under.old }
        ensures size { B.size under.new ≡ B.size under.old }
        ensures frame { B.frame under.new ≡ B.frame under.old }
        ensures later { AreLater (B.counts under.old) (B.counts under.new) }
        ensures cause { IfErr result (IsStreamCause (B.counts under.old) (B.counts under.new)) }
    {
        if let Some(bytes) = inode {
            return self.stream.look_up_by(under, bytes, block, index);
        }
        match self.buffer() {
            Ok(mut bytes) => self.stream.look_up(under, &mut bytes, block, index),
            Err(_) => Err(StreamFault::Block(BlockFault::NoMemory)),
        }
    }

    /// The number of the stream's block at a place, by its tables of runs, which are read into the buffer.
    fn find<B: Blocks>(
        &mut self,
        under: &mut B,
        inode: Option<&[u8]>,
        index: u64,
        block: &mut [u8],
    ) -> Result<u64, GrowFault>
        requires size { B.size under.old ≡ self.old.sizes.block_size }
        requires inode { ForSome inode (λ b. IsInodeOf self.old (B.told under.old) b.now) }
        requires block { length block.old ≡ self.old.sizes.block_size }
        ensures found { (m : ℕ → Option (List ℕ)) → B.told under.old ≡ Some m → Stands self.old m → IfOk result (λ n. slice_get (places_at self.old.sizes (contents m) self.old.id) index ≡ Some n) }
        ensures sound { (m : ℕ → Option (List ℕ)) → B.told under.old ≡ Some m → Stands self.old m → index < length (places_at self.old.sizes (contents m) self.old.id) → IfErr result IsUndamaged }
        ensures below { IfOk result (λ n. n < self.old.sizes.blocks) }
        ensures length { length block.new ≡ self.old.sizes.block_size }
        ensures same { self.new ≡ self.old }
        ensures told { B.told under.new ≡ B.told under.old }
        ensures changed { B.changed under.new ≡ B.changed under.old }
        ensures pairs { B.pairs under.new ≡ B.pairs under.old }
        ensures size { B.size under.new ≡ B.size under.old }
        ensures frame { B.frame under.new ≡ B.frame under.old }
        ensures later { AreLater (B.counts under.old) (B.counts under.new) }
        ensures block { IfErr result IsOfBlock }
        ensures cause { IfErr result (IsGrowCause 1 (B.counts under.old) (B.counts under.new)) }
    {
        let number = match self.look_up(under, inode, index, block) {
            Ok(number) => number,
            Err(StreamFault::PastEnd { .. }) => {
                return Err(GrowFault::Block(BlockFault::Damaged { block: self.inode }));
            }
            Err(StreamFault::Block(fault)) => return Err(GrowFault::Block(fault)),
        };
        Ok(number)
    }

    /// Reads the stream's block at a place, and gives its number.
    fn load<B: Blocks>(
        &mut self,
        under: &mut B,
        inode: Option<&[u8]>,
        index: u64,
        block: &mut [u8],
    ) -> Result<u64, GrowFault>
        requires size { B.size under.old ≡ self.old.sizes.block_size }
        requires inode { ForSome inode (λ b. IsInodeOf self.old (B.told under.old) b.now) }
        requires block { length block.old ≡ self.old.sizes.block_size }
        ensures found { (m : ℕ → Option (List ℕ)) → B.told under.old ≡ Some m → Stands self.old m → AreTold m (places_at self.old.sizes (contents m) self.old.id) → IfOk result (λ n. (slice_get (places_at self.old.sizes (contents m) self.old.id) index ≡ Some n) × (block.new ≡ contents m n)) }
        ensures sound { (m : ℕ → Option (List ℕ)) → B.told under.old ≡ Some m → Stands self.old m → index < length (places_at self.old.sizes (contents m) self.old.id) → IfErr result IsUndamaged }
        ensures below { IfOk result (λ n. n < self.old.sizes.blocks) }
        ensures last { IfOk result (λ n. B.last under.new ≡ Some (n, block.new)) }
        ensures length { length block.new ≡ self.old.sizes.block_size }
        ensures same { self.new ≡ self.old }
        ensures told { B.told under.new ≡ B.told under.old }
        ensures changed { B.changed under.new ≡ B.changed under.old }
        ensures pairs { B.pairs under.new ≡ B.pairs under.old }
        ensures size { B.size under.new ≡ B.size under.old }
        ensures frame { B.frame under.new ≡ B.frame under.old }
        ensures later { AreLater (B.counts under.old) (B.counts under.new) }
        ensures block { IfErr result IsOfBlock }
        ensures cause { IfErr result (IsGrowCause 1 (B.counts under.old) (B.counts under.new)) }
    {
        let number = match self.find(under, inode, index, block) {
            Ok(number) => number,
            Err(fault) => return Err(fault),
        };
        match under.get(number, block) {
            Ok(()) => {}
            Err(fault) => return Err(GrowFault::Block(fault)),
        }
        Ok(number)
    }

    /// Reads a page of the stream from a block's byte on. The buffer then has that block.
    fn read_page<B: Blocks>(
        &mut self,
        under: &mut B,
        inode: Option<&[u8]>,
        block: &mut [u8],
        index: u64,
        start: usize,
        into: &mut [u8],
    ) -> Result<(), GrowFault>
        requires size { B.size under.old ≡ self.old.sizes.block_size }
        requires inode { ForSome inode (λ b. IsInodeOf self.old (B.told under.old) b.now) }
        requires block { length block.old ≡ self.old.sizes.block_size }
        requires page { length into.old ≡ 1024 }
        requires inside { start + 1024 ≤ self.old.sizes.block_size }
        ensures page { (long : ℕ) (m : ℕ → Option (List ℕ)) → B.told under.old ≡ Some m → IsReadable self.old long m → self.old.sizes.block_size * index + start + 1024 ≤ long → OnOk result (into.new ≡ page_at (stream_of self.old m) (self.old.sizes.block_size * index + start)) }
        ensures seen { OnOk result (seen_page start (B.last under.new) ≡ into.new) }
        ensures sound { (m : ℕ → Option (List ℕ)) → B.told under.old ≡ Some m → Stands self.old m → index < length (places_at self.old.sizes (contents m) self.old.id) → IfErr result IsUndamaged }
        ensures length { length into.new ≡ 1024 }
        ensures same { self.new ≡ self.old }
        ensures told { B.told under.new ≡ B.told under.old }
        ensures changed { B.changed under.new ≡ B.changed under.old }
        ensures pairs { B.pairs under.new ≡ B.pairs under.old }
        ensures size { B.size under.new ≡ B.size under.old }
        ensures frame { B.frame under.new ≡ B.frame under.old }
        ensures later { AreLater (B.counts under.old) (B.counts under.new) }
        ensures block { IfErr result IsOfBlock }
        ensures cause { IfErr result (IsGrowCause 1 (B.counts under.old) (B.counts under.new)) }
    {
        match self.load(under, inode, index, block) {
            Ok(_) => {}
            Err(fault) => return Err(fault),
        }
        take_part(block, start, into);
        Ok(())
    }

    /// Reads a page of the stream from a block's byte on, with a buffer where a block is longer than a page.
    pub(crate) fn get_page<B: Blocks>(
        &mut self,
        under: &mut B,
        inode: Option<&[u8]>,
        index: u64,
        start: usize,
        into: &mut [u8],
    ) -> Result<(), GrowFault>
        requires size { B.size under.old ≡ self.old.sizes.block_size }
        requires inode { ForSome inode (λ b. IsInodeOf self.old (B.told under.old) b.now) }
        requires page { length into.old ≡ 1024 }
        requires inside { start + 1024 ≤ self.old.sizes.block_size }
        ensures page { (long : ℕ) (m : ℕ → Option (List ℕ)) → B.told under.old ≡ Some m → IsReadable self.old long m → self.old.sizes.block_size * index + start + 1024 ≤ long → OnOk result (into.new ≡ page_at (stream_of self.old m) (self.old.sizes.block_size * index + start)) }
        ensures seen { OnOk result (seen_page start (B.last under.new) ≡ into.new) }
        ensures sound { (m : ℕ → Option (List ℕ)) → B.told under.old ≡ Some m → Stands self.old m → index < length (places_at self.old.sizes (contents m) self.old.id) → IfErr result IsUndamaged }
        ensures length { length into.new ≡ 1024 }
        ensures same { self.new ≡ self.old }
        ensures told { B.told under.new ≡ B.told under.old }
        ensures changed { B.changed under.new ≡ B.changed under.old }
        ensures pairs { B.pairs under.new ≡ B.pairs under.old }
        ensures size { B.size under.new ≡ B.size under.old }
        ensures frame { B.frame under.new ≡ B.frame under.old }
        ensures later { AreLater (B.counts under.old) (B.counts under.new) }
        ensures block { IfErr result IsOfBlock }
        ensures cause { IfErr result (IsGrowCause 1 (B.counts under.old) (B.counts under.new)) }
    {
        if self.is_page() {
            return match self.load(under, inode, index, into) {
                Ok(_) => Ok(()),
                Err(fault) => Err(fault),
            };
        }
        let mut block = match self.buffer() {
            Ok(block) => block,
            Err(fault) => return Err(fault),
        };
        self.read_page(under, inode, &mut block, index, start, into)
    }

    /// Adds a block at the end where the stream has none at a place. Blocks that are added are zeros.
    pub(crate) fn make_room<E: Edits>(
        &mut self,
        bitmap: &mut Bitmap,
        edits: &mut E,
        index: u64,
    ) -> Result<(), GrowFault>
        requires size { E.size edits.old ≡ self.old.sizes.block_size }
        requires volume { IsOfVolume self.old.sizes bitmap.old }
        requires few { index < 2 ^ 62 }
        ensures room { (long : ℕ) (m : ℕ → Option (List ℕ)) → E.told edits.old ≡ Some m → Held self.old bitmap.old long m → self.old.sizes.block_size * index ≤ long → OnOk result (HasRoom self.old bitmap.old bitmap.new long m index (E.told edits.new) (E.changed edits.old) (E.changed edits.new)) }
        ensures faults { (long : ℕ) (m : ℕ → Option (List ℕ)) → E.told edits.old ≡ Some m → Held self.old bitmap.old long m → self.old.sizes.block_size * index ≤ long → IfErr result (IsGrowFault self.old bitmap.old m 1) }
        ensures same { self.new ≡ self.old }
        ensures rest { bitmap.new ≡ record bitmap.old { tally = bitmap.new.tally } }
        ensures changed { (k : ℕ) → E.changed edits.new k ≡ true → (E.changed edits.old k ≡ true) ⊎ (IsBitmapBlock bitmap.old k ⊎ (k < self.old.sizes.blocks)) }
        ensures stays { StaysChanged (E.changed edits.old) (E.changed edits.new) }
        ensures size { E.size edits.new ≡ E.size edits.old }
        ensures frame { E.frame edits.new ≡ E.frame edits.old }
        ensures later { AreLater (E.counts edits.old) (E.counts edits.new) }
        ensures cause { IfErr result (IsGrowCause 1 (E.counts edits.old) (E.counts edits.new)) }
    {
        match self.stream.block(edits, index) {
            Ok(_) => return Ok(()),
            Err(StreamFault::PastEnd { .. }) => {}
            Err(StreamFault::Block(fault)) => return Err(GrowFault::Block(fault)),
        }
        match grow(&mut self.stream, bitmap, edits, 1) {
            Ok(()) => {}
            Err(fault) => return Err(fault),
        }
        self.fill_from(edits, index)
    }

    /// Writes these bytes over the stream's block at a place. Tells whether it has one there.
    fn fill_at<E: Edits>(
        &mut self,
        edits: &mut E,
        bytes: &[u8],
        index: u64,
    ) -> Result<bool, GrowFault>
        requires size { E.size edits.old ≡ self.old.sizes.block_size }
        requires bytes { length bytes.now ≡ self.old.sizes.block_size }
        ensures filled { (m : ℕ → Option (List ℕ)) → E.told edits.old ≡ Some m → Stands self.old m → IfOk result (HasFilled self.old m index bytes.now (E.told edits.new) (E.changed edits.old) (E.changed edits.new)) }
        ensures sound { (m : ℕ → Option (List ℕ)) → E.told edits.old ≡ Some m → Stands self.old m → IfErr result IsUndamaged }
        ensures same { self.new ≡ self.old }
        ensures changed { (k : ℕ) → E.changed edits.new k ≡ true → (E.changed edits.old k ≡ true) ⊎ (k < self.old.sizes.blocks) }
        ensures stays { StaysChanged (E.changed edits.old) (E.changed edits.new) }
        ensures size { E.size edits.new ≡ E.size edits.old }
        ensures frame { E.frame edits.new ≡ E.frame edits.old }
        ensures later { AreLater (E.counts edits.old) (E.counts edits.new) }
        ensures cause { IfErr result (IsGrowCause 1 (E.counts edits.old) (E.counts edits.new)) }
    {
        let number = match self.stream.block(edits, index) {
            Ok(number) => number,
            Err(StreamFault::PastEnd { .. }) => return Ok(false),
            Err(StreamFault::Block(fault)) => return Err(GrowFault::Block(fault)),
        };
        match edits.set(number, bytes) {
            Ok(()) => Ok(true),
            Err(_) => Err(GrowFault::Block(BlockFault::NoMemory)),
        }
    }

    /// Writes zeros over the blocks that the stream has from a place on, at most those of one array: what lay there before
    /// is never read.
    fn fill_from<E: Edits>(&mut self, edits: &mut E, index: u64) -> Result<(), GrowFault>
        requires size { E.size edits.old ≡ self.old.sizes.block_size }
        requires few { index < 2 ^ 62 }
        ensures filled { (m : ℕ → Option (List ℕ)) → E.told edits.old ≡ Some m → Stands self.old m → IsOnce (whole_at self.old.sizes (contents m) self.old.id) → AreTold m (take index (places_at self.old.sizes (contents m) self.old.id)) → length (places_at self.old.sizes (contents m) self.old.id) ≤ index + 4 → OnOk result (IsToldWhole self.old m index (E.told edits.new) (E.changed edits.old) (E.changed edits.new)) }
        ensures sound { (m : ℕ → Option (List ℕ)) → E.told edits.old ≡ Some m → Stands self.old m → IsOnce (whole_at self.old.sizes (contents m) self.old.id) → AreTold m (take index (places_at self.old.sizes (contents m) self.old.id)) → IfErr result IsUndamaged }
        ensures same { self.new ≡ self.old }
        ensures changed { (k : ℕ) → E.changed edits.new k ≡ true → (E.changed edits.old k ≡ true) ⊎ (k < self.old.sizes.blocks) }
        ensures stays { StaysChanged (E.changed edits.old) (E.changed edits.new) }
        ensures size { E.size edits.new ≡ E.size edits.old }
        ensures frame { E.frame edits.new ≡ E.frame edits.old }
        ensures later { AreLater (E.counts edits.old) (E.counts edits.new) }
        ensures cause { IfErr result (IsGrowCause 1 (E.counts edits.old) (E.counts edits.new)) }
    {
        let zeros = match self.buffer() {
            Ok(zeros) => zeros,
            Err(fault) => return Err(fault),
        };
        for at in index..index + LONGEST {
            match self.fill_at(edits, &zeros, at) {
                Ok(true) => {}
                Ok(false) => return Ok(()),
                Err(fault) => return Err(fault),
            }
        }
        Ok(())
    }

    /// The stream's block at a place with a page in it, from a byte of the block on: its number, and in the buffer its bytes. A block
    /// that is as long as the page isn't read.
    fn with<B: Blocks>(
        &mut self,
        under: &mut B,
        inode: Option<&[u8]>,
        block: &mut [u8],
        index: u64,
        start: usize,
        from: &[u8],
    ) -> Result<u64, GrowFault>
        requires size { B.size under.old ≡ self.old.sizes.block_size }
        requires inode { ForSome inode (λ b. IsInodeOf self.old (B.told under.old) b.now) }
        requires block { length block.old ≡ self.old.sizes.block_size }
        requires page { length from.now ≡ 1024 }
        requires inside { start + 1024 ≤ self.old.sizes.block_size }
        ensures made { (m : ℕ → Option (List ℕ)) → B.told under.old ≡ Some m → Stands self.old m → AreTold m (places_at self.old.sizes (contents m) self.old.id) → IfOk result (λ n. (slice_get (places_at self.old.sizes (contents m) self.old.id) index ≡ Some n) × (block.new ≡ with_page start from.now (contents m n))) }
        ensures sound { (m : ℕ → Option (List ℕ)) → B.told under.old ≡ Some m → Stands self.old m → index < length (places_at self.old.sizes (contents m) self.old.id) → IfErr result IsUndamaged }
        ensures below { IfOk result (λ n. n < self.old.sizes.blocks) }
        ensures length { length block.new ≡ self.old.sizes.block_size }
        ensures same { self.new ≡ self.old }
        ensures told { B.told under.new ≡ B.told under.old }
        ensures changed { B.changed under.new ≡ B.changed under.old }
        ensures pairs { B.pairs under.new ≡ B.pairs under.old }
        ensures size { B.size under.new ≡ B.size under.old }
        ensures frame { B.frame under.new ≡ B.frame under.old }
        ensures later { AreLater (B.counts under.old) (B.counts under.new) }
        ensures block { IfErr result IsOfBlock }
        ensures cause { IfErr result (IsGrowCause 1 (B.counts under.old) (B.counts under.new)) }
    {
        if self.is_page() {
            let number = match self.find(under, inode, index, block) {
                Ok(number) => number,
                Err(fault) => return Err(fault),
            };
            block.copy_from_slice(from);
            return Ok(number);
        }
        let number = match self.load(under, inode, index, block) {
            Ok(number) => number,
            Err(fault) => return Err(fault),
        };
        put(block, start, from);
        Ok(number)
    }

    /// Writes a page into the stream's block at a place, from a byte of the block on. The buffer then has that block.
    pub(crate) fn put_page<E: Edits>(
        &mut self,
        edits: &mut E,
        inode: Option<&[u8]>,
        block: &mut [u8],
        index: u64,
        start: usize,
        from: &[u8],
    ) -> Result<(), GrowFault>
        requires size { E.size edits.old ≡ self.old.sizes.block_size }
        requires inode { ForSome inode (λ b. IsInodeOf self.old (E.told edits.old) b.now) }
        requires block { length block.old ≡ self.old.sizes.block_size }
        requires page { length from.now ≡ 1024 }
        requires inside { start + 1024 ≤ self.old.sizes.block_size }
        ensures written { (v : Room) (long : ℕ) (m : ℕ → Option (List ℕ)) → E.told edits.old ≡ Some m → Held self.old v long m → index < length (places_at self.old.sizes (contents m) self.old.id) → OnOk result (HasWritten self.old v long m (self.old.sizes.block_size * index + start) from.now (E.told edits.new) (E.changed edits.old) (E.changed edits.new)) }
        ensures sound { (v : Room) (long : ℕ) (m : ℕ → Option (List ℕ)) → E.told edits.old ≡ Some m → Held self.old v long m → index < length (places_at self.old.sizes (contents m) self.old.id) → IfErr result IsUndamaged }
        ensures kept { OnErr result ((E.told edits.new ≡ E.told edits.old) × (E.changed edits.new ≡ E.changed edits.old)) }
        ensures same { self.new ≡ self.old }
        ensures changed { (k : ℕ) → E.changed edits.new k ≡ true → (E.changed edits.old k ≡ true) ⊎ (k < self.old.sizes.blocks) }
        ensures stays { StaysChanged (E.changed edits.old) (E.changed edits.new) }
        ensures size { E.size edits.new ≡ E.size edits.old }
        ensures frame { E.frame edits.new ≡ E.frame edits.old }
        ensures later { AreLater (E.counts edits.old) (E.counts edits.new) }
        ensures block { IfErr result IsOfBlock }
        ensures cause { IfErr result (IsGrowCause 1 (E.counts edits.old) (E.counts edits.new)) }
    {
        let number = match self.with(edits, inode, block, index, start, from) {
            Ok(number) => number,
            Err(fault) => return Err(fault),
        };
        match edits.set(number, block) {
            Ok(()) => {}
            Err(_) => return Err(GrowFault::Block(BlockFault::NoMemory)),
        }
        Ok(())
    }

    /// Writes the stream's size in bytes into the inode. The buffer then has the inode's block.
    pub fn put_size<E: Edits>(
        &mut self,
        edits: &mut E,
        block: &mut [u8],
        bytes: u64,
    ) -> Result<(), GrowFault>
        requires size { E.size edits.old ≡ self.old.sizes.block_size }
        requires block { length block.old ≡ self.old.sizes.block_size }
        requires few { bytes < 2 ^ 63 }
        ensures written { (v : Room) (long : ℕ) (m : ℕ → Option (List ℕ)) → E.told edits.old ≡ Some m → Held self.old v long m → bytes ≤ self.old.sizes.block_size * length (places_at self.old.sizes (contents m) self.old.id) → OnOk result (HasSize self.old v bytes m (E.told edits.new) (E.changed edits.old) (E.changed edits.new)) }
        ensures sound { (m : ℕ → Option (List ℕ)) → E.told edits.old ≡ Some m → IfErr result IsUndamaged }
        ensures kept { OnErr result ((E.told edits.new ≡ E.told edits.old) × (E.changed edits.new ≡ E.changed edits.old)) }
        ensures same { self.new ≡ self.old }
        ensures changed { (k : ℕ) → E.changed edits.new k ≡ true → (E.changed edits.old k ≡ true) ⊎ (k < self.old.sizes.blocks) }
        ensures stays { StaysChanged (E.changed edits.old) (E.changed edits.new) }
        ensures size { E.size edits.new ≡ E.size edits.old }
        ensures frame { E.frame edits.new ≡ E.frame edits.old }
        ensures later { AreLater (E.counts edits.old) (E.counts edits.new) }
        ensures cause { IfErr result (IsGrowCause 1 (E.counts edits.old) (E.counts edits.new)) }
    {
        match edits.get(self.inode, block) {
            Ok(()) => {}
            Err(fault) => return Err(GrowFault::Block(fault)),
        }
        set_size(block, bytes);
        match edits.set(self.inode, block) {
            Ok(()) => {}
            Err(_) => return Err(GrowFault::Block(BlockFault::NoMemory)),
        }
        Ok(())
    }

    /// Adds a page behind so many bytes of the stream, which are all. The buffer then has the inode's block.
    pub(crate) fn add_page<E: Edits>(
        &mut self,
        bitmap: &mut Bitmap,
        edits: &mut E,
        block: &mut [u8],
        at: u64,
        from: &[u8],
    ) -> Result<(), GrowFault>
        requires size { E.size edits.old ≡ self.old.sizes.block_size }
        requires volume { IsOfVolume self.old.sizes bitmap.old }
        requires block { length block.old ≡ self.old.sizes.block_size }
        requires page { length from.now ≡ 1024 }
        requires whole { at % 1024 ≡ 0 }
        requires few { at + 1024 < 2 ^ 63 }
        ensures added { (m : ℕ → Option (List ℕ)) → E.told edits.old ≡ Some m → Held self.old bitmap.old at m → OnOk result (HasAdded self.old bitmap.old bitmap.new (at + 1024) m from.now (E.told edits.new) (E.changed edits.old) (E.changed edits.new)) }
        ensures faults { (m : ℕ → Option (List ℕ)) → E.told edits.old ≡ Some m → Held self.old bitmap.old at m → IfErr result (HasFailed self.old bitmap.old m) }
        ensures same { self.new ≡ self.old }
        ensures rest { bitmap.new ≡ record bitmap.old { tally = bitmap.new.tally } }
        ensures changed { (k : ℕ) → E.changed edits.new k ≡ true → (E.changed edits.old k ≡ true) ⊎ (IsBitmapBlock bitmap.old k ⊎ (k < self.old.sizes.blocks)) }
        ensures stays { StaysChanged (E.changed edits.old) (E.changed edits.new) }
        ensures size { E.size edits.new ≡ E.size edits.old }
        ensures frame { E.frame edits.new ≡ E.frame edits.old }
        ensures later { AreLater (E.counts edits.old) (E.counts edits.new) }
        ensures cause { IfErr result (IsGrowCause 1 (E.counts edits.old) (E.counts edits.new)) }
    {
        let (index, start) = self.place(at);
        match self.make_room(bitmap, edits, index) {
            Ok(()) => {}
            Err(fault) => return Err(fault),
        }
        match self.put_page(edits, None, block, index, start, from) {
            Ok(()) => {}
            Err(fault) => return Err(fault),
        }
        match self.put_size(edits, block, at + 1024) {
            Ok(()) => {}
            Err(fault) => return Err(fault),
        }
        Ok(())
    }
}

// Copies bytes of a block from one on.
fn take_part(block: &[u8], start: usize, into: &mut [u8])
    requires { start + length into.old ≤ length block.now }
    ensures part { into.new ≡ take (length into.old) (drop start block.now) }
    ensures length { length into.new ≡ length into.old }
{
    into.copy_from_slice(&block[start..start + into.len()]);
}

// Writes bytes over those of a block from one on.
fn put(block: &mut [u8], start: usize, from: &[u8])
    requires { start + length from.now ≤ length block.old }
    ensures page { block.new ≡ with_page start from.now block.old }
    ensures length { length block.new ≡ length block.old }
{
    block[start..start + from.len()].copy_from_slice(from);
}

// Writes the size of the stream of the inode in a block.
fn set_size(block: &mut [u8], bytes: u64)
    requires block { 1024 ≤ length block.old }
    requires few { bytes < 2 ^ 63 }
    ensures length { length block.new ≡ length block.old }
    ensures stream { stream_at block.new ≡ record (stream_at block.old) { size = pos bytes } }
    ensures inode { KeepsInode block.old block.new }
{
    let mut inode = InodeMut::over(block);
    inode.set_size(bytes as i64);
}
