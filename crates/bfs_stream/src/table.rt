// The tables of a stream's indirect levels.
ghost use Rattle.std.specs.Prelude.{◌≡◌, ◌<◌, ◌≤◌, ◌*◌, ◌/◌, ℕ, List, length, Option, Some, IfOk, IfErr, ◌^◌, ◌-◌};
ghost use Rattle.bfs_txn.specs.Faults.{AreLater};
ghost use Rattle.bfs_stream.specs.Sizes.{IsInVolume, IsWhole, runs_per_block, array_length, table_length};
ghost use Rattle.bfs_stream.specs.Places.{fields};
ghost use Rattle.bfs_stream.specs.Told.{contents, Stands};
ghost use Rattle.bfs_stream.specs.Grown.{IsTable, AreTables};
ghost use Rattle.bfs_stream.specs.Faults.{IsCauseIn};
ghost use Rattle.bfs_stream.specs.Scans.{IsDamage};

use crate::Stream;
use bfs_bytes::Run;
use bfs_inode::InodeView;
use bfs_txn::{BlockFault, Blocks};

/// What ends a table of runs.
pub const NO_RUN: Run = Run {
    group: 0,
    start: 0,
    len: 0,
};

/// More blocks than any level has.
pub const MOST_BLOCKS: u64 = 1 << 44;

/// The table of the indirect level: its array, how many of its runs are used, and how many blocks the stream has.
#[derive(Clone, Copy)]
pub struct Table {
    pub array: Run,
    pub used: u64,
    pub blocks: u64,
}

/// The tables of the double indirect level: the array that lists them, how many it lists, how many of their runs are
/// used, and how many blocks the stream has.
#[derive(Clone, Copy)]
pub struct Tables {
    pub array: Run,
    pub listed: u64,
    pub used: u64,
    pub blocks: u64,
}

impl Stream {
    /// The runs that an array has room for.
    pub fn table_length(&self) -> u64
        ensures value { result ≡ table_length self.now.sizes }
        ensures some { 1 ≤ result }
        ensures few { result ≤ 4096 }
    {
        self.array_length() * self.runs_per_block()
    }

    /// The table of the indirect level, whose array is there.
    pub fn table<B: Blocks>(&self, under: &mut B, bytes: &mut [u8]) -> Result<Table, BlockFault>
        requires size { B.size under.old ≡ self.now.sizes.block_size }
        requires length { length bytes.old ≡ self.now.sizes.block_size }
        ensures is { (m : ℕ → Option (List ℕ)) → B.told under.old ≡ Some m → Stands self.now m → IfOk result (IsTable self.now m) }
        ensures sound { (m : ℕ → Option (List ℕ)) → B.told under.old ≡ Some m → Stands self.now m → 0 < (fields self.now.sizes (contents m) self.now.id).indirect.len → IfErr result (λ fault. ¬ IsDamage fault) }
        ensures array { IfOk result (λ t. IsInVolume self.now.sizes t.array) }
        ensures used { IfOk result (λ t. t.used ≤ t.array.len * runs_per_block self.now.sizes) }
        ensures few { IfOk result (λ t. (t.blocks ≤ 2 ^ 44) × (t.used < 2 ^ 45)) }
        ensures length { length bytes.new ≡ self.now.sizes.block_size }
        ensures told { B.told under.new ≡ B.told under.old }
        ensures changed { B.changed under.new ≡ B.changed under.old }
        ensures size { B.size under.new ≡ B.size under.old }
        ensures frame { B.frame under.new ≡ B.frame under.old }
        ensures later { AreLater (B.counts under.old) (B.counts under.new) }
        ensures cause { IfErr result (IsCauseIn (B.counts under.old) (B.counts under.new)) }
    {
        self.sizes();
        match under.get(self.inode, bytes) {
            Ok(()) => {}
            Err(fault) => return Err(fault),
        }
        let array = InodeView::over(bytes).indirect();
        let blocks = self.ends(bytes).last();
        if blocks > MOST_BLOCKS {
            return Err(BlockFault::Damaged { block: self.inode });
        }
        if !self.holds(array) {
            return Err(BlockFault::Damaged { block: self.inode });
        }
        match self.used_in(under, bytes, array) {
            Ok(used) => Ok(Table {
                array,
                used,
                blocks,
            }),
            Err(fault) => Err(fault),
        }
    }

    /// The tables of the double indirect level, whose array is there.
    pub fn tables<B: Blocks>(&self, under: &mut B, bytes: &mut [u8]) -> Result<Tables, BlockFault>
        requires size { B.size under.old ≡ self.now.sizes.block_size }
        requires length { length bytes.old ≡ self.now.sizes.block_size }
        ensures are { (m : ℕ → Option (List ℕ)) → B.told under.old ≡ Some m → Stands self.now m → 0 < (fields self.now.sizes (contents m) self.now.id).double_indirect.len → IfOk result (AreTables self.now m) }
        ensures sound { (m : ℕ → Option (List ℕ)) → B.told under.old ≡ Some m → Stands self.now m → 0 < (fields self.now.sizes (contents m) self.now.id).double_indirect.len → IfErr result (λ fault. ¬ IsDamage fault) }
        ensures array { IfOk result (λ t. IsWhole self.now.sizes t.array) }
        ensures listed { IfOk result (λ t. t.listed ≤ array_length self.now.sizes * runs_per_block self.now.sizes) }
        ensures used { IfOk result (λ t. t.used ≤ t.listed * (array_length self.now.sizes * runs_per_block self.now.sizes)) }
        ensures few { IfOk result (λ t. (t.blocks ≤ 2 ^ 44) × (t.used < 2 ^ 45)) }
        ensures length { length bytes.new ≡ self.now.sizes.block_size }
        ensures told { B.told under.new ≡ B.told under.old }
        ensures changed { B.changed under.new ≡ B.changed under.old }
        ensures size { B.size under.new ≡ B.size under.old }
        ensures frame { B.frame under.new ≡ B.frame under.old }
        ensures later { AreLater (B.counts under.old) (B.counts under.new) }
        ensures cause { IfErr result (IsCauseIn (B.counts under.old) (B.counts under.new)) }
    {
        self.sizes();
        match under.get(self.inode, bytes) {
            Ok(()) => {}
            Err(fault) => return Err(fault),
        }
        let array = InodeView::over(bytes).double_indirect();
        let ends = self.ends(bytes);
        let blocks = ends.last();
        if blocks > MOST_BLOCKS {
            return Err(BlockFault::Damaged { block: self.inode });
        }
        if !self.is_whole(array) {
            return Err(BlockFault::Damaged { block: self.inode });
        }
        let used = self.runs_between(ends.indirect, ends.double);
        let listed = match self.used_in(under, bytes, array) {
            Ok(listed) => listed,
            Err(fault) => return Err(fault),
        };
        if used > listed * (self.array_length() * self.runs_per_block()) {
            return Err(BlockFault::Damaged { block: self.inode });
        }
        Ok(Tables {
            array,
            listed,
            used,
            blocks,
        })
    }

    /// How many whole runs lie between two places.
    fn runs_between(&self, from: u64, to: u64) -> u64
        ensures value { result ≡ (to - from) / array_length self.now.sizes }
        ensures few { result ≤ to }
    {
        if from < to {
            (to - from) / self.array_length()
        } else {
            0
        }
    }
}

/// What is left of so many when some are taken, or nothing.
pub fn less(blocks: u64, taken: u64) -> u64
    ensures { result ≡ blocks - taken }
{
    if taken < blocks { blocks - taken } else { 0 }
}
