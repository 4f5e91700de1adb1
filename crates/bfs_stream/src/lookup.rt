// Looks one place up.
ghost use Rattle.std.specs.Prelude.{◌≡◌, ◌<◌, ◌≤◌, ◌↔◌, ◌⊎◌, IsTrue, ◌+◌, ◌*◌, ◌/◌, ◌%◌, ℕ, List, length, Option, Some, None, OnErr, IfOk, IfErr, IsSome, max, slice_get, All};
ghost use Rattle.std.specs.List.{flat_map};
ghost use Rattle.bfs_inode.specs.Inode.{stream_at};
ghost use Rattle.bfs_txn.specs.Faults.{AreLater};
ghost use Rattle.bfs_stream.specs.Sizes.{IsInVolume, IsWhole, HasSizes, array_length, runs_per_block};
ghost use Rattle.bfs_stream.specs.Places.{run_blocks, used_runs, array_runs, places_at, fields};
ghost use Rattle.bfs_stream.specs.Told.{AreTold, Stands, contents};
ghost use Rattle.bfs_stream.specs.Scans.{IsDamage, IfDamaged, IsDamagedBy, IsBlamed, HasEnded, IsLevelDamaged, IsLevelBlamed, IsTableDamaged, IsTableBlamed, IsDoubleDamaged, IsDoubleBlamed, IsUnreached, HasDouble, block_in, ends_of, last_end};
ghost use Rattle.bfs_stream.specs.Faults.{IsCauseIn, IsStreamCause, IsDamagedIn, IsDamagedAt, IsBlamedAt, HasNoBlock};

use crate::scan::Scan;
use crate::stream::natural_long;
use crate::{Stream, StreamFault};
use bfs_bytes::{Run, run_at};
use bfs_inode::InodeView;
use bfs_txn::{BlockFault, Blocks};

/// Where the direct runs stand in an inode's block.
pub const DIRECT: usize = 72;

/// Up to which block of the stream each level reaches, or 0.
#[derive(Clone, Copy)]
pub struct Ends {
    pub direct: u64,
    pub indirect: u64,
    pub double: u64,
}

impl Ends {
    /// Up to which block the stream reaches: how many it has.
    pub fn last(&self) -> u64
        ensures { result ≡ last_end self.now }
    {
        self.direct.max(self.indirect).max(self.double)
    }
}

/// How many whole blocks so many bytes are. Blocks have one of four lengths, each a power of two.
fn whole_blocks(bytes: u64, block_size: u32) -> u64
    requires { 0 < block_size }
    ensures { result ≡ bytes / block_size }
{
    match block_size {
        1024 => bytes / 1024,
        2048 => bytes / 2048,
        4096 => bytes / 4096,
        8192 => bytes / 8192,
        _ => bytes / u64::from(block_size),
    }
}

impl Stream {
    /// The sizes are those of a volume.
    pub fn sizes(&self)
        ensures sizes { HasSizes self.now.sizes }
        ensures inode { self.now.id < self.now.sizes.blocks }
    {
        let _ = &self.alloc;
    }

    /// The runs that stand in a block.
    pub fn runs_per_block(&self) -> u64
        ensures value { result ≡ runs_per_block self.now.sizes }
        ensures some { 128 ≤ result }
        ensures few { result ≤ 1024 }
        ensures whole { 8 * result ≡ self.now.sizes.block_size }
    {
        u64::from(self.block_size / 8)
    }

    /// The blocks of an array.
    pub fn array_length(&self) -> u64
        ensures value { result ≡ array_length self.now.sizes }
        ensures some { 1 ≤ result }
        ensures few { result ≤ 4 }
    {
        u64::from((4096 / self.block_size).max(1))
    }

    /// Is the run in the volume, and as long as an array?
    pub(crate) fn is_whole(&self, run: Run) -> bool
        ensures { IsTrue result ↔ IsWhole self.now.sizes run }
    {
        u64::from(run.len) == self.array_length() && self.holds(run)
    }

    /// The runs end before a place that the inode's ranges have. The inode is read again, so that it is the block read last.
    fn too_short<B: Blocks>(&self, under: &mut B, bytes: &mut [u8]) -> BlockFault
        requires size { B.size under.old ≡ self.now.sizes.block_size }
        requires length { length bytes.old ≡ self.now.sizes.block_size }
        ensures blamed { IfDamaged (λ block. (block ≡ self.now.id) × (bytes : List ℕ) × (B.last under.new ≡ Some (block, bytes))) result }
        ensures length { length bytes.new ≡ self.now.sizes.block_size }
        ensures told { B.told under.new ≡ B.told under.old }
        ensures changed { B.changed under.new ≡ B.changed under.old }
        ensures pairs { B.pairs under.new ≡ B.pairs under.old }
        ensures size { B.size under.new ≡ B.size under.old }
        ensures frame { B.frame under.new ≡ B.frame under.old }
        ensures later { AreLater (B.counts under.old) (B.counts under.new) }
        ensures cause { IsCauseIn (B.counts under.old) (B.counts under.new) result }
    {
        match under.get(self.inode, bytes) {
            Ok(()) => BlockFault::Damaged { block: self.inode },
            Err(fault) => fault,
        }
    }

    /// The block at a place among the runs of an array of any length.
    fn in_array<B: Blocks>(
        &self,
        under: &mut B,
        bytes: &mut [u8],
        array: Run,
        place: u64,
    ) -> Result<u64, BlockFault>
        requires size { B.size under.old ≡ self.now.sizes.block_size }
        requires length { length bytes.old ≡ self.now.sizes.block_size }
        requires array { IsInVolume self.now.sizes array }
        ensures found { (m : ℕ → Option (List ℕ)) → B.told under.old ≡ Some m → AreTold m (run_blocks self.now.sizes array) → IfOk result (λ block. block_in self.now.sizes (array_runs self.now.sizes (contents m) array) place ≡ Some block) }
        ensures none { (m : ℕ → Option (List ℕ)) → B.told under.old ≡ Some m → AreTold m (run_blocks self.now.sizes array) → All (IsInVolume self.now.sizes) (used_runs (array_runs self.now.sizes (contents m) array)) → IfErr result (λ fault. IsDamage fault → block_in self.now.sizes (array_runs self.now.sizes (contents m) array) place ≡ None) }
        ensures damaged { (m : ℕ → Option (List ℕ)) → B.told under.old ≡ Some m → IfErr result (IfDamaged (IsLevelDamaged self.now.sizes m self.now.id array place)) }
        ensures blamed { IfErr result (IfDamaged (λ block. (bytes : List ℕ) × (B.last under.new ≡ Some (block, bytes)) × IsLevelBlamed self.now.sizes self.now.id array place block bytes)) }
        ensures below { IfOk result (λ block. block < self.now.sizes.blocks) }
        ensures length { length bytes.new ≡ self.now.sizes.block_size }
        ensures told { B.told under.new ≡ B.told under.old }
        ensures changed { B.changed under.new ≡ B.changed under.old }
        ensures pairs { B.pairs under.new ≡ B.pairs under.old }
        ensures size { B.size under.new ≡ B.size under.old }
        ensures frame { B.frame under.new ≡ B.frame under.old }
        ensures later { AreLater (B.counts under.old) (B.counts under.new) }
        ensures cause { IfErr result (IsCauseIn (B.counts under.old) (B.counts under.new)) }
    {
        let runs = self.runs_per_block() as usize;
        let first = self.first_block(array);
        let mut left = place;
        for i in 0..u64::from(array.len) {
            match under.get(first + i, bytes) {
                Ok(()) => {}
                Err(fault) => return Err(fault),
            }
            match self.scan(bytes, 0, runs, left) {
                Scan::Found(block) => return Ok(block),
                Scan::Past(further) => left = further,
                Scan::Broken => return Err(BlockFault::Damaged { block: first + i }),
            }
        }
        Err(self.too_short(under, bytes))
    }

    /// The run at a place in an array under double indirect.
    pub fn whole_run<B: Blocks>(
        &self,
        under: &mut B,
        bytes: &mut [u8],
        array: Run,
        place: u64,
    ) -> Result<Run, BlockFault>
        requires size { B.size under.old ≡ self.now.sizes.block_size }
        requires length { length bytes.old ≡ self.now.sizes.block_size }
        requires array { IsWhole self.now.sizes array }
        requires place { place < array_length self.now.sizes * runs_per_block self.now.sizes }
        ensures found { (m : ℕ → Option (List ℕ)) → B.told under.old ≡ Some m → AreTold m (run_blocks self.now.sizes array) → IfOk result (λ run. slice_get (array_runs self.now.sizes (contents m) array) place ≡ Some run) }
        ensures none { (m : ℕ → Option (List ℕ)) → B.told under.old ≡ Some m → AreTold m (run_blocks self.now.sizes array) → IfErr result (λ fault. IsDamage fault → (run : Run) × (slice_get (array_runs self.now.sizes (contents m) array) place ≡ Some run) × (¬ IsWhole self.now.sizes run)) }
        ensures damaged { (m : ℕ → Option (List ℕ)) → B.told under.old ≡ Some m → IfErr result (IfDamaged (IsTableDamaged self.now.sizes m array place)) }
        ensures blamed { IfErr result (IfDamaged (λ block. (bytes : List ℕ) × (B.last under.new ≡ Some (block, bytes)) × IsTableBlamed self.now.sizes array place block bytes)) }
        ensures whole { IfOk result (IsWhole self.now.sizes) }
        ensures length { length bytes.new ≡ self.now.sizes.block_size }
        ensures told { B.told under.new ≡ B.told under.old }
        ensures changed { B.changed under.new ≡ B.changed under.old }
        ensures pairs { B.pairs under.new ≡ B.pairs under.old }
        ensures size { B.size under.new ≡ B.size under.old }
        ensures frame { B.frame under.new ≡ B.frame under.old }
        ensures later { AreLater (B.counts under.old) (B.counts under.new) }
        ensures cause { IfErr result (IsCauseIn (B.counts under.old) (B.counts under.new)) }
    {
        let runs = self.runs_per_block();
        let block = self.first_block(array) + place / runs;
        match under.get(block, bytes) {
            Ok(()) => {}
            Err(fault) => return Err(fault),
        }
        let run = run_at(bytes, (8 * (place % runs)) as usize);
        if self.is_whole(run) {
            Ok(run)
        } else {
            Err(BlockFault::Damaged { block })
        }
    }

    /// The block at a place among the direct runs of an inode.
    fn in_direct(&self, bytes: &[u8], place: u64) -> Result<u64, BlockFault>
        requires { 1024 ≤ length bytes.now }
        ensures found { IfOk result (λ block. block_in self.now.sizes (stream_at bytes.now).direct place ≡ Some block) }
        ensures none { All (IsInVolume self.now.sizes) (used_runs (stream_at bytes.now).direct) → OnErr result (block_in self.now.sizes (stream_at bytes.now).direct place ≡ None) }
        ensures below { IfOk result (λ block. block < self.now.sizes.blocks) }
        ensures fault { IfErr result (λ fault. fault ≡ BlockFault.Damaged self.now.id) }
        ensures ended { OnErr result (HasEnded self.now.sizes (stream_at bytes.now).direct place) }
    {
        match self.scan(bytes, DIRECT, 12, place) {
            Scan::Found(block) => Ok(block),
            Scan::Past(_) => Err(BlockFault::Damaged { block: self.inode }),
            Scan::Broken => Err(BlockFault::Damaged { block: self.inode }),
        }
    }

    /// The block at a place of the double indirect level. Each of its runs is as long as an array, so the place says
    /// which run of which table has it.
    fn in_double<B: Blocks>(
        &self,
        under: &mut B,
        bytes: &mut [u8],
        array: Run,
        place: u64,
    ) -> Result<u64, BlockFault>
        requires size { B.size under.old ≡ self.now.sizes.block_size }
        requires length { length bytes.old ≡ self.now.sizes.block_size }
        requires array { IsWhole self.now.sizes array }
        ensures found { (m : ℕ → Option (List ℕ)) → B.told under.old ≡ Some m → HasDouble self.now.sizes m array place → IfOk result (λ block. block_in self.now.sizes (flat_map (array_runs self.now.sizes (contents m)) (used_runs (array_runs self.now.sizes (contents m) array))) place ≡ Some block) }
        ensures sound { (m : ℕ → Option (List ℕ)) → B.told under.old ≡ Some m → HasDouble self.now.sizes m array place → IfErr result (λ fault. ¬ IsDamage fault) }
        ensures damaged { (m : ℕ → Option (List ℕ)) → B.told under.old ≡ Some m → IfErr result (IfDamaged (λ block. ((block ≡ self.now.id) × IsUnreached self.now.sizes place) ⊎ ((¬ IsUnreached self.now.sizes place) × IsDoubleDamaged self.now.sizes m array place block))) }
        ensures blamed { IfErr result (IfDamaged (λ block. ((block ≡ self.now.id) × (B.last under.new ≡ B.last under.old) × IsUnreached self.now.sizes place) ⊎ ((bytes : List ℕ) × (B.last under.new ≡ Some (block, bytes)) × (¬ IsUnreached self.now.sizes place) × IsDoubleBlamed self.now.sizes array place block bytes))) }
        ensures below { IfOk result (λ block. block < self.now.sizes.blocks) }
        ensures told { B.told under.new ≡ B.told under.old }
        ensures changed { B.changed under.new ≡ B.changed under.old }
        ensures pairs { B.pairs under.new ≡ B.pairs under.old }
        ensures size { B.size under.new ≡ B.size under.old }
        ensures frame { B.frame under.new ≡ B.frame under.old }
        ensures later { AreLater (B.counts under.old) (B.counts under.new) }
        ensures cause { IfErr result (IsCauseIn (B.counts under.old) (B.counts under.new)) }
    {
        let whole = self.array_length();
        let per_table = whole * self.runs_per_block();
        let run = place / whole;
        if run / per_table >= per_table {
            return Err(BlockFault::Damaged { block: self.inode });
        }
        let table = match self.whole_run(under, bytes, array, run / per_table) {
            Ok(table) => table,
            Err(fault) => return Err(fault),
        };
        let found = match self.whole_run(under, bytes, table, run % per_table) {
            Ok(found) => found,
            Err(fault) => return Err(fault),
        };
        Ok(self.first_block(found) + place % whole)
    }

    /// Up to which block each level reaches, by the ranges in the inode.
    pub fn ends(&self, bytes: &[u8]) -> Ends
        requires { 1024 ≤ length bytes.now }
        ensures { result ≡ ends_of self.now.sizes (stream_at bytes.now) }
    {
        let inode = InodeView::over(bytes);
        let size = self.block_size;
        Ends {
            direct: whole_blocks(natural_long(inode.max_direct_range()), size),
            indirect: whole_blocks(natural_long(inode.max_indirect_range()), size),
            double: whole_blocks(natural_long(inode.max_double_indirect_range()), size),
        }
    }

    /// The block at a place, by the inode's bytes and the ends of the levels, as they say. The range of some level says that there is one.
    fn in_levels<B: Blocks>(
        &self,
        under: &mut B,
        inode: &[u8],
        ends: Ends,
        bytes: &mut [u8],
        place: u64,
    ) -> Result<u64, BlockFault>
        requires size { B.size under.old ≡ self.now.sizes.block_size }
        requires inode { 1024 ≤ length inode.now }
        requires length { length bytes.old ≡ self.now.sizes.block_size }
        requires ends { ends ≡ ends_of self.now.sizes (stream_at inode.now) }
        requires inside { place < last_end (ends_of self.now.sizes (stream_at inode.now)) }
        ensures found { (m : ℕ → Option (List ℕ)) → B.told under.old ≡ Some m → Stands self.now m → inode.now ≡ contents m self.now.id → IfOk result (λ block. slice_get (places_at self.now.sizes (contents m) self.now.id) place ≡ Some block) }
        ensures sound { (m : ℕ → Option (List ℕ)) → B.told under.old ≡ Some m → Stands self.now m → inode.now ≡ contents m self.now.id → IfErr result (λ fault. ¬ IsDamage fault) }
        ensures damaged { (m : ℕ → Option (List ℕ)) → B.told under.old ≡ Some m → IfErr result (IsDamagedBy self.now.sizes m self.now.id (stream_at inode.now) place) }
        ensures blamed { B.last under.old ≡ Some (self.now.id, inode.now) → IfErr result (IsBlamed self.now.sizes (B.last under.new) self.now.id (stream_at inode.now) place) }
        ensures below { IfOk result (λ block. block < self.now.sizes.blocks) }
        ensures length { length bytes.new ≡ self.now.sizes.block_size }
        ensures told { B.told under.new ≡ B.told under.old }
        ensures changed { B.changed under.new ≡ B.changed under.old }
        ensures pairs { B.pairs under.new ≡ B.pairs under.old }
        ensures size { B.size under.new ≡ B.size under.old }
        ensures frame { B.frame under.new ≡ B.frame under.old }
        ensures later { AreLater (B.counts under.old) (B.counts under.new) }
        ensures cause { IfErr result (IsCauseIn (B.counts under.old) (B.counts under.new)) }
    {
        self.sizes();
        if place < ends.direct {
            return self.in_direct(inode, place);
        }
        if place < ends.indirect {
            let array = InodeView::over(inode).indirect();
            if !self.holds(array) {
                return Err(BlockFault::Damaged { block: self.inode });
            }
            return self.in_array(under, bytes, array, place - ends.direct);
        }
        let array = InodeView::over(inode).double_indirect();
        if !self.is_whole(array) {
            return Err(BlockFault::Damaged { block: self.inode });
        }
        self.in_double(under, bytes, array, place - ends.indirect)
    }

    /// The block at a place of the stream, which counts its blocks from 0, by the bytes of the inode's block. It reads the tables of runs up to the place, or
    /// two under double indirect, into a buffer of a block's length. Takes no memory.
    pub fn look_up_by<B: Blocks>(
        &self,
        under: &mut B,
        inode: &[u8],
        bytes: &mut [u8],
        index: u64,
    ) -> Result<u64, StreamFault>
        requires size { B.size under.old ≡ self.now.sizes.block_size }
        requires inode { 1024 ≤ length inode.now }
        requires length { length bytes.old ≡ self.now.sizes.block_size }
        ensures found { (m : ℕ → Option (List ℕ)) → B.told under.old ≡ Some m → Stands self.now m → inode.now ≡ contents m self.now.id → IfOk result (λ block. slice_get (places_at self.now.sizes (contents m) self.now.id) index ≡ Some block) }
        ensures none { (m : ℕ → Option (List ℕ)) → B.told under.old ≡ Some m → Stands self.now m → inode.now ≡ contents m self.now.id → IfErr result (HasNoBlock (places_at self.now.sizes (contents m) self.now.id) index) }
        ensures damaged { (m : ℕ → Option (List ℕ)) → B.told under.old ≡ Some m → IfErr result (IsDamagedIn self.now m (stream_at inode.now) index) }
        ensures blamed { B.last under.old ≡ Some (self.now.id, inode.now) → IfErr result (IsBlamedAt self.now (B.last under.new) index) }
        ensures below { IfOk result (λ block. block < self.now.sizes.blocks) }
        ensures length { length bytes.new ≡ self.now.sizes.block_size }
        ensures told { B.told under.new ≡ B.told under.old }
        ensures changed { B.changed under.new ≡ B.changed under.old }
        ensures pairs { B.pairs under.new ≡ B.pairs under.old }
        ensures size { B.size under.new ≡ B.size under.old }
        ensures frame { B.frame under.new ≡ B.frame under.old }
        ensures later { AreLater (B.counts under.old) (B.counts under.new) }
        ensures cause { IfErr result (IsStreamCause (B.counts under.old) (B.counts under.new)) }
    {
        self.sizes();
        let ends = self.ends(inode);
        let blocks = ends.last();
        if index >= blocks {
            return Err(StreamFault::PastEnd { blocks });
        }
        match self.in_levels(under, inode, ends, bytes, index) {
            Ok(block) => Ok(block),
            Err(fault) => Err(StreamFault::Block(fault)),
        }
    }

    /// The same, where the inode is read first, into another such buffer.
    pub fn look_up<B: Blocks>(
        &mut self,
        under: &mut B,
        inode: &mut [u8],
        bytes: &mut [u8],
        index: u64,
    ) -> Result<u64, StreamFault>
        requires size { B.size under.old ≡ self.old.sizes.block_size }
        requires inode { length inode.old ≡ self.old.sizes.block_size }
        requires length { length bytes.old ≡ self.old.sizes.block_size }
        ensures found { (m : ℕ → Option (List ℕ)) → B.told under.old ≡ Some m → Stands self.old m → IfOk result (λ block. slice_get (places_at self.old.sizes (contents m) self.old.id) index ≡ Some block) }
        ensures none { (m : ℕ → Option (List ℕ)) → B.told under.old ≡ Some m → Stands self.old m → IfErr result (HasNoBlock (places_at self.old.sizes (contents m) self.old.id) index) }
        ensures damaged { (m : ℕ → Option (List ℕ)) → B.told under.old ≡ Some m → IsSome (m self.old.id) → IfErr result (IsDamagedAt self.old m index) }
        ensures blamed { IfErr result (IsBlamedAt self.old (B.last under.new) index) }
        ensures below { IfOk result (λ block. block < self.old.sizes.blocks) }
        ensures length { length bytes.new ≡ self.old.sizes.block_size }
        ensures same { self.new ≡ self.old }
        ensures told { B.told under.new ≡ B.told under.old }
        ensures changed { B.changed under.new ≡ B.changed under.old }
        ensures pairs { B.pairs under.new ≡ B.pairs under.old }
        ensures size { B.size under.new ≡ B.size under.old }
        ensures frame { B.frame under.new ≡ B.frame under.old }
        ensures later { AreLater (B.counts under.old) (B.counts under.new) }
        ensures cause { IfErr result (IsStreamCause (B.counts under.old) (B.counts under.new)) }
    {
        self.sizes();
        match under.get(self.inode, inode) {
            Ok(()) => {}
            Err(fault) => return Err(StreamFault::Block(fault)),
        }
        self.look_up_by(under, inode, bytes, index)
    }

    /// The same, with buffers of its own.
    pub fn block<B: Blocks>(&mut self, under: &mut B, index: u64) -> Result<u64, StreamFault>
        requires { B.size under.old ≡ self.old.sizes.block_size }
        ensures found { (m : ℕ → Option (List ℕ)) → B.told under.old ≡ Some m → Stands self.old m → IfOk result (λ block. slice_get (places_at self.old.sizes (contents m) self.old.id) index ≡ Some block) }
        ensures none { (m : ℕ → Option (List ℕ)) → B.told under.old ≡ Some m → Stands self.old m → IfErr result (HasNoBlock (places_at self.old.sizes (contents m) self.old.id) index) }
        ensures damaged { (m : ℕ → Option (List ℕ)) → B.told under.old ≡ Some m → IsSome (m self.old.id) → IfErr result (IsDamagedAt self.old m index) }
        ensures blamed { IfErr result (IsBlamedAt self.old (B.last under.new) index) }
        ensures below { IfOk result (λ block. block < self.old.sizes.blocks) }
        ensures same { self.new ≡ self.old }
        ensures told { B.told under.new ≡ B.told under.old }
        ensures changed { B.changed under.new ≡ B.changed under.old }
        ensures pairs { B.pairs under.new ≡ B.pairs under.old }
        ensures size { B.size under.new ≡ B.size under.old }
        ensures frame { B.frame under.new ≡ B.frame under.old }
        ensures later { AreLater (B.counts under.old) (B.counts under.new) }
        ensures cause { IfErr result (IsStreamCause (B.counts under.old) (B.counts under.new)) }
    {
        let mut inode = match self.buffer() {
            Ok(inode) => inode,
            Err(_) => return Err(StreamFault::Block(BlockFault::NoMemory)),
        };
        match self.buffer() {
            Ok(mut bytes) => self.look_up(under, &mut inode, &mut bytes, index),
            Err(_) => Err(StreamFault::Block(BlockFault::NoMemory)),
        }
    }

    /// Up to which block each level of the stream reaches, by the ranges in its inode. It reads the inode alone.
    pub fn reach<B: Blocks>(&mut self, under: &mut B) -> Result<Ends, BlockFault>
        requires { B.size under.old ≡ self.old.sizes.block_size }
        ensures reach { (m : ℕ → Option (List ℕ)) → B.told under.old ≡ Some m → IsSome (m self.old.id) → IfOk result (λ ends. ends ≡ ends_of self.old.sizes (fields self.old.sizes (contents m) self.old.id)) }
        ensures blocks { (m : ℕ → Option (List ℕ)) → B.told under.old ≡ Some m → Stands self.old m → IfOk result (λ ends. last_end ends ≡ length (places_at self.old.sizes (contents m) self.old.id)) }
        ensures sound { IfErr result (λ fault. ¬ IsDamage fault) }
        ensures same { self.new ≡ self.old }
        ensures told { B.told under.new ≡ B.told under.old }
        ensures changed { B.changed under.new ≡ B.changed under.old }
        ensures pairs { B.pairs under.new ≡ B.pairs under.old }
        ensures size { B.size under.new ≡ B.size under.old }
        ensures frame { B.frame under.new ≡ B.frame under.old }
        ensures later { AreLater (B.counts under.old) (B.counts under.new) }
        ensures cause { IfErr result (IsCauseIn (B.counts under.old) (B.counts under.new)) }
    {
        self.sizes();
        let mut bytes = match vec![in self.alloc; 0u8; self.block_size as usize] {
            Ok(bytes) => bytes,
            Err(_) => return Err(BlockFault::NoMemory),
        };
        match under.get(self.inode, &mut bytes) {
            Ok(()) => Ok(self.ends(&bytes)),
            Err(fault) => Err(fault),
        }
    }
}
