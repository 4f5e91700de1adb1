// Writes a run or a range where a stream keeps it.
ghost use Rattle.std.specs.Prelude.{◌≡◌, ◌<◌, ◌≤◌, ◌⊎◌, ◌+◌, ◌*◌, ◌/◌, ℕ, List, length, Option, Some, OnOk, IfErr, IsSome, true, pos, ◌^◌};
ghost use Rattle.bfs_base.specs.Lists.{Has};
ghost use Rattle.bfs_inode.specs.Inode.{stream_at};
ghost use Rattle.bfs_txn.specs.Faults.{AreLater, IsCaused};
ghost use Rattle.bfs_stream.specs.Sizes.{IsInVolume, IsWhole, runs_per_block, array_length};
ghost use Rattle.bfs_stream.specs.Places.{used_runs, run_blocks, blocks_of, array_runs};
ghost use Rattle.bfs_stream.specs.Told.{contents, AreTold};
ghost use Rattle.bfs_stream.specs.Grown.{HasPut, HasFields, HasTables, HasPutBelow, table_runs, KeepsRest};
ghost use Rattle.bfs_stream.specs.Faults.{IsCauseIn};
ghost use Rattle.bfs_stream.specs.Scans.{IsDamage};
ghost use Rattle.bfs_txn.specs.Told.{StaysChanged};

use crate::Stream;
use bfs_bytes::{Run, put_run};
use bfs_inode::InodeMut;
use bfs_txn::{BlockFault, Edits};
use std::alloc::AllocError;

impl Stream {
    /// The bytes of so many blocks.
    pub fn range(&self, blocks: u64) -> i64
        requires { blocks < 2 ^ 45 }
        ensures { result ≡ pos (self.now.sizes.block_size * blocks) }
    {
        self.sizes();
        i64::from(self.block_size) * blocks as i64
    }

    /// Writes a run at a place of an array.
    pub fn put_in_array<E: Edits>(
        &self,
        edits: &mut E,
        bytes: &mut [u8],
        array: Run,
        place: u64,
        run: Run,
    ) -> Result<(), BlockFault>
        requires size { E.size edits.old ≡ self.now.sizes.block_size }
        requires length { length bytes.old ≡ self.now.sizes.block_size }
        requires array { IsInVolume self.now.sizes array }
        requires inside { place < array.len * runs_per_block self.now.sizes }
        ensures put { (m : ℕ → Option (List ℕ)) → E.told edits.old ≡ Some m → AreTold m (run_blocks self.now.sizes array) → OnOk result (HasPut self.now.sizes array place run m (E.told edits.new)) }
        ensures length { length bytes.new ≡ self.now.sizes.block_size }
        ensures written { (k : ℕ) → E.changed edits.new k ≡ true → (E.changed edits.old k ≡ true) ⊎ Has (run_blocks self.now.sizes array) k }
        ensures changed { (k : ℕ) → E.changed edits.new k ≡ true → (E.changed edits.old k ≡ true) ⊎ (k < self.now.sizes.blocks) }
        ensures stays { StaysChanged (E.changed edits.old) (E.changed edits.new) }
        ensures size { E.size edits.new ≡ E.size edits.old }
        ensures frame { E.frame edits.new ≡ E.frame edits.old }
        ensures cause { IsCaused (E.counts edits.old) (E.counts edits.new) result }
    {
        let runs = self.runs_per_block();
        let block = self.first_block(array) + place / runs;
        match edits.get(block, bytes) {
            Ok(()) => {}
            Err(fault) => return Err(fault),
        }
        put_run(bytes, (8 * (place % runs)) as usize, run);
        match edits.set(block, bytes) {
            Ok(()) => Ok(()),
            Err(_) => Err(BlockFault::NoMemory),
        }
    }

    /// Writes up to which block the indirect level reaches.
    pub fn put_indirect_range<E: Edits>(
        &self,
        edits: &mut E,
        bytes: &mut [u8],
        blocks: u64,
    ) -> Result<(), BlockFault>
        requires size { E.size edits.old ≡ self.now.sizes.block_size }
        requires length { length bytes.old ≡ self.now.sizes.block_size }
        requires few { blocks < 2 ^ 45 }
        ensures put { (m : ℕ → Option (List ℕ)) → E.told edits.old ≡ Some m → IsSome (m self.now.id) → OnOk result (HasFields self.now (record (stream_at (contents m self.now.id)) { max_indirect_range = pos (self.now.sizes.block_size * blocks) }) m (E.told edits.new)) }
        ensures length { length bytes.new ≡ self.now.sizes.block_size }
        ensures written { (k : ℕ) → E.changed edits.new k ≡ true → (E.changed edits.old k ≡ true) ⊎ (k ≡ self.now.id) }
        ensures changed { (k : ℕ) → E.changed edits.new k ≡ true → (E.changed edits.old k ≡ true) ⊎ (k < self.now.sizes.blocks) }
        ensures stays { StaysChanged (E.changed edits.old) (E.changed edits.new) }
        ensures size { E.size edits.new ≡ E.size edits.old }
        ensures frame { E.frame edits.new ≡ E.frame edits.old }
        ensures cause { IsCaused (E.counts edits.old) (E.counts edits.new) result }
    {
        self.sizes();
        let range = self.range(blocks);
        match edits.get(self.inode, bytes) {
            Ok(()) => {}
            Err(fault) => return Err(fault),
        }
        put_indirect_end(bytes, range);
        match edits.set(self.inode, bytes) {
            Ok(()) => Ok(()),
            Err(_) => Err(BlockFault::NoMemory),
        }
    }

    /// Writes a run at a place of the tables that an array lists.
    pub fn put_below<E: Edits>(
        &self,
        edits: &mut E,
        bytes: &mut [u8],
        array: Run,
        place: u64,
        run: Run,
    ) -> Result<(), BlockFault>
        requires size { E.size edits.old ≡ self.now.sizes.block_size }
        requires length { length bytes.old ≡ self.now.sizes.block_size }
        requires array { IsWhole self.now.sizes array }
        requires few { place / (array_length self.now.sizes * runs_per_block self.now.sizes) < array_length self.now.sizes * runs_per_block self.now.sizes }
        ensures put { (m : ℕ → Option (List ℕ)) → E.told edits.old ≡ Some m → HasTables self.now.sizes array m → place < length (table_runs self.now.sizes (contents m) array) → OnOk result (HasPutBelow self.now.sizes array place run m (E.told edits.new)) }
        ensures sound { (m : ℕ → Option (List ℕ)) → E.told edits.old ≡ Some m → HasTables self.now.sizes array m → place < length (table_runs self.now.sizes (contents m) array) → IfErr result (λ fault. ¬ IsDamage fault) }
        ensures length { length bytes.new ≡ self.now.sizes.block_size }
        ensures written { (m : ℕ → Option (List ℕ)) → E.told edits.old ≡ Some m → HasTables self.now.sizes array m → place < length (table_runs self.now.sizes (contents m) array) → (k : ℕ) → E.changed edits.new k ≡ true → (E.changed edits.old k ≡ true) ⊎ Has (blocks_of self.now.sizes (used_runs (array_runs self.now.sizes (contents m) array))) k }
        ensures changed { (k : ℕ) → E.changed edits.new k ≡ true → (E.changed edits.old k ≡ true) ⊎ (k < self.now.sizes.blocks) }
        ensures stays { StaysChanged (E.changed edits.old) (E.changed edits.new) }
        ensures size { E.size edits.new ≡ E.size edits.old }
        ensures frame { E.frame edits.new ≡ E.frame edits.old }
        ensures later { AreLater (E.counts edits.old) (E.counts edits.new) }
        ensures cause { IfErr result (IsCauseIn (E.counts edits.old) (E.counts edits.new)) }
    {
        let per_table = self.array_length() * self.runs_per_block();
        let table = match self.whole_run(edits, bytes, array, place / per_table) {
            Ok(table) => table,
            Err(fault) => return Err(fault),
        };
        self.put_in_array(edits, bytes, table, place % per_table, run)
    }

    /// Writes up to which block the double indirect level reaches.
    pub fn put_double_range<E: Edits>(
        &self,
        edits: &mut E,
        bytes: &mut [u8],
        blocks: u64,
    ) -> Result<(), BlockFault>
        requires size { E.size edits.old ≡ self.now.sizes.block_size }
        requires length { length bytes.old ≡ self.now.sizes.block_size }
        requires few { blocks < 2 ^ 45 }
        ensures put { (m : ℕ → Option (List ℕ)) → E.told edits.old ≡ Some m → IsSome (m self.now.id) → OnOk result (HasFields self.now (record (stream_at (contents m self.now.id)) { max_double_indirect_range = pos (self.now.sizes.block_size * blocks) }) m (E.told edits.new)) }
        ensures length { length bytes.new ≡ self.now.sizes.block_size }
        ensures written { (k : ℕ) → E.changed edits.new k ≡ true → (E.changed edits.old k ≡ true) ⊎ (k ≡ self.now.id) }
        ensures changed { (k : ℕ) → E.changed edits.new k ≡ true → (E.changed edits.old k ≡ true) ⊎ (k < self.now.sizes.blocks) }
        ensures stays { StaysChanged (E.changed edits.old) (E.changed edits.new) }
        ensures size { E.size edits.new ≡ E.size edits.old }
        ensures frame { E.frame edits.new ≡ E.frame edits.old }
        ensures cause { IsCaused (E.counts edits.old) (E.counts edits.new) result }
    {
        self.sizes();
        let range = self.range(blocks);
        match edits.get(self.inode, bytes) {
            Ok(()) => {}
            Err(fault) => return Err(fault),
        }
        put_double_end(bytes, range);
        match edits.set(self.inode, bytes) {
            Ok(()) => Ok(()),
            Err(_) => Err(BlockFault::NoMemory),
        }
    }
}

/// Writes the range of the indirect level into an inode.
fn put_indirect_end(bytes: &mut [u8], range: i64)
    requires { 1024 ≤ length bytes.old }
    ensures stream { stream_at bytes.new ≡ record (stream_at bytes.old) { max_indirect_range = range } }
    ensures rest { KeepsRest bytes.old bytes.new }
{
    let mut inode = InodeMut::over(bytes);
    inode.set_max_indirect_range(range);
}

/// Writes the range of the double indirect level into an inode.
fn put_double_end(bytes: &mut [u8], range: i64)
    requires { 1024 ≤ length bytes.old }
    ensures stream { stream_at bytes.new ≡ record (stream_at bytes.old) { max_double_indirect_range = range } }
    ensures rest { KeepsRest bytes.old bytes.new }
{
    let mut inode = InodeMut::over(bytes);
    inode.set_max_double_indirect_range(range);
}
