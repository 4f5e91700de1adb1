// Adds runs to a stream.
ghost use Rattle.std.specs.Prelude.{◌≡◌, ◌<◌, ◌≤◌, ◌⊎◌, ◌+◌, ◌*◌, ◌/◌, ℕ, List, [], length, Option, Some, OnOk, IfOk, IfErr, IsSome, true, pos, ◌^◌, slice_set};
ghost use Rattle.bfs_base.specs.Lists.{Has};
ghost use Rattle.bfs_inode.specs.Inode.{stream_at};
ghost use Rattle.bfs_txn.specs.Faults.{AreLater, IsCaused};
ghost use Rattle.bfs_bitmap.specs.Runs.{Fits};
ghost use Rattle.bfs_bitmap.specs.Fills.{IsBitmapBlock};
ghost use Rattle.bfs_stream.specs.Sizes.{IsInVolume, IsWhole, runs_per_block, array_length};
ghost use Rattle.bfs_stream.specs.Places.{used_runs, run_blocks, blocks_of, array_runs, fields};
ghost use Rattle.bfs_stream.specs.Told.{contents, AreTold};
ghost use Rattle.bfs_stream.specs.Grown.{IsOfVolume, Took, Owns, HasGrown, HasPut, HasFields, HasCleared, IsTable, HasTables, HasPutBelow, AreTables, HasTable, HasArray, UsesDouble, KeepsRest, HasBitIn};
ghost use Rattle.bfs_stream.specs.Faults.{IsCauseIn, IsGrowCause, IsNoRunFor, IsStepFault};
ghost use Rattle.bfs_stream.specs.Scans.{IsDamage};
ghost use Rattle.bfs_txn.specs.Told.{StaysChanged};

use bfs_bitmap::{Bitmap, RunFault};
use bfs_bytes::Run;
use bfs_inode::InodeMut;
use bfs_stream::{GrowFault, MOST_BLOCKS, NO_RUN, Stream, Table, Tables};
use bfs_txn::{BlockFault, Edits};
use std::alloc::AllocError;

/// Takes a run of at least `wanted` blocks, and at most `longest`.
fn take<E: Edits>(
    stream: &Stream,
    bitmap: &mut Bitmap,
    edits: &mut E,
    wanted: u16,
    longest: u16,
) -> Result<Run, GrowFault>
    requires size { E.size edits.old ≡ bitmap.old.block_size }
    requires volume { IsOfVolume stream.now.sizes bitmap.old }
    requires some { 1 ≤ wanted }
    requires order { wanted ≤ longest }
    ensures inside { IfOk result (IsInVolume stream.now.sizes) }
    ensures long { IfOk result (λ run. (wanted ≤ run.len) × (run.len ≤ longest)) }
    ensures took { (m : ℕ → Option (List ℕ)) → E.told edits.old ≡ Some m → Fits bitmap.old m → IfOk result (λ run. Took stream.now.sizes bitmap.old bitmap.new run m (E.told edits.new)) }
    ensures no_run { (m : ℕ → Option (List ℕ)) → E.told edits.old ≡ Some m → Fits bitmap.old m → IfErr result (IsNoRunFor bitmap.old m wanted) }
    ensures rest { bitmap.new ≡ record bitmap.old { tally = bitmap.new.tally } }
    ensures changed { (k : ℕ) → E.changed edits.new k ≡ true → (E.changed edits.old k ≡ true) ⊎ IsBitmapBlock bitmap.old k }
    ensures bits { IfOk result (λ run. (k : ℕ) → E.changed edits.new k ≡ true → (E.changed edits.old k ≡ true) ⊎ HasBitIn bitmap.old (Has (run_blocks stream.now.sizes run)) k) }
    ensures stays { StaysChanged (E.changed edits.old) (E.changed edits.new) }
    ensures size { E.size edits.new ≡ E.size edits.old }
    ensures frame { E.frame edits.new ≡ E.frame edits.old }
    ensures later { AreLater (E.counts edits.old) (E.counts edits.new) }
    ensures cause { IfErr result (IsGrowCause 1 (E.counts edits.old) (E.counts edits.new)) }
{
    match bitmap.take_run(edits, wanted, longest) {
        Ok(run) => Ok(run),
        Err(RunFault::NoRun { wanted, free }) => Err(GrowFault::NoRun { wanted, free }),
        Err(RunFault::Block(fault)) => Err(GrowFault::Block(fault)),
    }
}

/// Ends the direct runs before a place, where there is that place.
fn end_direct(bytes: &mut [u8], place: usize)
    requires { 1024 ≤ length bytes.old }
    ensures stream { stream_at bytes.new ≡ record (stream_at bytes.old) { direct = slice_set (stream_at bytes.old).direct place NO_RUN } }
    ensures rest { KeepsRest bytes.old bytes.new }
{
    if place < 12 {
        let mut inode = InodeMut::over(bytes);
        inode.set_direct(place, NO_RUN);
    }
}

/// Writes a run behind the direct runs that are used, which then reach so many blocks, and ends them there.
fn put_direct(stream: &Stream, bytes: &mut [u8], used: usize, run: Run, blocks: u64)
    requires length { 1024 ≤ length bytes.old }
    requires room { used < 12 }
    requires few { blocks < 2 ^ 45 }
    ensures stream { stream_at bytes.new ≡ record (stream_at bytes.old) { direct = slice_set (slice_set (stream_at bytes.old).direct (used + 1) NO_RUN) used run; max_direct_range = pos (stream.now.sizes.block_size * blocks) } }
    ensures rest { KeepsRest bytes.old bytes.new }
{
    let range = stream.range(blocks);
    end_direct(bytes, used + 1);
    let mut inode = InodeMut::over(bytes);
    inode.set_direct(used, run);
    inode.set_max_direct_range(range);
}

/// Adds a run behind the direct runs that are used, and answers how many blocks it has.
pub(crate) fn add_direct<E: Edits>(
    stream: &Stream,
    bitmap: &mut Bitmap,
    edits: &mut E,
    bytes: &mut [u8],
    used: usize,
    longest: u16,
) -> Result<u64, GrowFault>
    requires size { E.size edits.old ≡ stream.now.sizes.block_size }
    requires length { length bytes.old ≡ stream.now.sizes.block_size }
    requires volume { IsOfVolume stream.now.sizes bitmap.old }
    requires room { used < 12 }
    requires some { 1 ≤ longest }
    ensures grown { (m : ℕ → Option (List ℕ)) → E.told edits.old ≡ Some m → Owns stream.now bitmap.old [] m → bytes.old ≡ contents m stream.now.id → used ≡ length (used_runs (stream_at bytes.old).direct) → IfOk result (λ n. HasGrown stream.now bitmap.old bitmap.new m n (E.told edits.new) (E.changed edits.old) (E.changed edits.new)) }
    ensures faults { (m : ℕ → Option (List ℕ)) → E.told edits.old ≡ Some m → Owns stream.now bitmap.old [] m → bytes.old ≡ contents m stream.now.id → used ≡ length (used_runs (stream_at bytes.old).direct) → IfErr result (IsStepFault stream.now bitmap.old m) }
    ensures most { IfOk result (λ n. n ≤ longest) }
    ensures some { IfOk result (λ n. 1 ≤ n) }
    ensures rest { bitmap.new ≡ record bitmap.old { tally = bitmap.new.tally } }
    ensures changed { (k : ℕ) → E.changed edits.new k ≡ true → (E.changed edits.old k ≡ true) ⊎ (IsBitmapBlock bitmap.old k ⊎ (k < stream.now.sizes.blocks)) }
    ensures stays { StaysChanged (E.changed edits.old) (E.changed edits.new) }
    ensures size { E.size edits.new ≡ E.size edits.old }
    ensures frame { E.frame edits.new ≡ E.frame edits.old }
    ensures later { AreLater (E.counts edits.old) (E.counts edits.new) }
    ensures cause { IfErr result (IsGrowCause 1 (E.counts edits.old) (E.counts edits.new)) }
{
    stream.sizes();
    let id = stream.inode();
    let blocks = stream.ends(bytes).direct;
    if blocks > MOST_BLOCKS {
        return Err(GrowFault::Block(BlockFault::Damaged { block: id }));
    }
    let run = match take(stream, bitmap, edits, 1, longest) {
        Ok(run) => run,
        Err(fault) => return Err(fault),
    };
    let len = u64::from(run.len);
    put_direct(stream, bytes, used, run, blocks + len);
    match edits.set(id, bytes) {
        Ok(()) => Ok(len),
        Err(_) => Err(GrowFault::Block(BlockFault::NoMemory)),
    }
}

/// Ends the runs of an array before a place, where there is that place.
fn end_in_array<E: Edits>(
    stream: &Stream,
    edits: &mut E,
    bytes: &mut [u8],
    array: Run,
    place: u64,
) -> Result<(), BlockFault>
    requires size { E.size edits.old ≡ stream.now.sizes.block_size }
    requires length { length bytes.old ≡ stream.now.sizes.block_size }
    requires array { IsInVolume stream.now.sizes array }
    ensures put { (m : ℕ → Option (List ℕ)) → E.told edits.old ≡ Some m → AreTold m (run_blocks stream.now.sizes array) → OnOk result (HasPut stream.now.sizes array place NO_RUN m (E.told edits.new)) }
    ensures length { length bytes.new ≡ stream.now.sizes.block_size }
    ensures written { (k : ℕ) → E.changed edits.new k ≡ true → (E.changed edits.old k ≡ true) ⊎ Has (run_blocks stream.now.sizes array) k }
    ensures changed { (k : ℕ) → E.changed edits.new k ≡ true → (E.changed edits.old k ≡ true) ⊎ (k < stream.now.sizes.blocks) }
    ensures stays { StaysChanged (E.changed edits.old) (E.changed edits.new) }
    ensures size { E.size edits.new ≡ E.size edits.old }
    ensures frame { E.frame edits.new ≡ E.frame edits.old }
    ensures cause { IsCaused (E.counts edits.old) (E.counts edits.new) result }
{
    if place < u64::from(array.len) * stream.runs_per_block() {
        return stream.put_in_array(edits, bytes, array, place, NO_RUN);
    }
    Ok(())
}

/// Adds a run behind the used ones of the indirect level's table, and answers how many blocks it has. The stream has
/// so many blocks before.
pub(crate) fn add_indirect<E: Edits>(
    stream: &Stream,
    bitmap: &mut Bitmap,
    edits: &mut E,
    bytes: &mut [u8],
    table: Table,
    longest: u16,
) -> Result<u64, GrowFault>
    requires size { E.size edits.old ≡ stream.now.sizes.block_size }
    requires length { length bytes.old ≡ stream.now.sizes.block_size }
    requires volume { IsOfVolume stream.now.sizes bitmap.old }
    requires array { IsInVolume stream.now.sizes table.array }
    requires room { table.used < table.array.len * runs_per_block stream.now.sizes }
    requires few { table.blocks ≤ 2 ^ 44 }
    requires few_runs { table.used < 2 ^ 45 }
    requires some { 1 ≤ longest }
    ensures grown { (m : ℕ → Option (List ℕ)) → E.told edits.old ≡ Some m → Owns stream.now bitmap.old [] m → IsTable stream.now m table → IfOk result (λ n. HasGrown stream.now bitmap.old bitmap.new m n (E.told edits.new) (E.changed edits.old) (E.changed edits.new)) }
    ensures faults { (m : ℕ → Option (List ℕ)) → E.told edits.old ≡ Some m → Owns stream.now bitmap.old [] m → IsTable stream.now m table → IfErr result (IsStepFault stream.now bitmap.old m) }
    ensures length { length bytes.new ≡ stream.now.sizes.block_size }
    ensures most { IfOk result (λ n. n ≤ longest) }
    ensures some { IfOk result (λ n. 1 ≤ n) }
    ensures rest { bitmap.new ≡ record bitmap.old { tally = bitmap.new.tally } }
    ensures changed { (k : ℕ) → E.changed edits.new k ≡ true → (E.changed edits.old k ≡ true) ⊎ (IsBitmapBlock bitmap.old k ⊎ (k < stream.now.sizes.blocks)) }
    ensures stays { StaysChanged (E.changed edits.old) (E.changed edits.new) }
    ensures size { E.size edits.new ≡ E.size edits.old }
    ensures frame { E.frame edits.new ≡ E.frame edits.old }
    ensures later { AreLater (E.counts edits.old) (E.counts edits.new) }
    ensures cause { IfErr result (IsGrowCause 1 (E.counts edits.old) (E.counts edits.new)) }
{
    let run = match take(stream, bitmap, edits, 1, longest) {
        Ok(run) => run,
        Err(fault) => return Err(fault),
    };
    let len = u64::from(run.len);
    match end_in_array(stream, edits, bytes, table.array, table.used + 1) {
        Ok(()) => {}
        Err(fault) => return Err(GrowFault::Block(fault)),
    }
    match stream.put_in_array(edits, bytes, table.array, table.used, run) {
        Ok(()) => {}
        Err(fault) => return Err(GrowFault::Block(fault)),
    }
    match stream.put_indirect_range(edits, bytes, table.blocks + len) {
        Ok(()) => Ok(len),
        Err(fault) => Err(GrowFault::Block(fault)),
    }
}

/// Writes zeros into each block of an array.
fn clear_array<E: Edits>(
    stream: &Stream,
    edits: &mut E,
    bytes: &mut [u8],
    array: Run,
) -> Result<(), AllocError>
    requires size { E.size edits.old ≡ stream.now.sizes.block_size }
    requires length { length bytes.old ≡ stream.now.sizes.block_size }
    requires array { IsInVolume stream.now.sizes array }
    ensures cleared { (m : ℕ → Option (List ℕ)) → E.told edits.old ≡ Some m → OnOk result (HasCleared stream.now.sizes array m (E.told edits.new)) }
    ensures length { length bytes.new ≡ stream.now.sizes.block_size }
    ensures written { (k : ℕ) → E.changed edits.new k ≡ true → (E.changed edits.old k ≡ true) ⊎ Has (run_blocks stream.now.sizes array) k }
    ensures changed { (k : ℕ) → E.changed edits.new k ≡ true → (E.changed edits.old k ≡ true) ⊎ (k < stream.now.sizes.blocks) }
    ensures stays { StaysChanged (E.changed edits.old) (E.changed edits.new) }
    ensures set { OnOk result ((k : ℕ) → Has (run_blocks stream.now.sizes array) k → E.changed edits.new k ≡ true) }
    ensures size { E.size edits.new ≡ E.size edits.old }
    ensures frame { E.frame edits.new ≡ E.frame edits.old }
    ensures counts { E.counts edits.new ≡ E.counts edits.old }
{
    let first = stream.first_block(array);
    bytes.fill(0);
    for i in 0..u64::from(array.len) {
        match edits.set(first + i, bytes) {
            Ok(()) => {}
            Err(fault) => return Err(fault),
        }
    }
    Ok(())
}

/// Writes the array of the indirect level into the inode.
pub(crate) fn put_indirect<E: Edits>(
    stream: &Stream,
    edits: &mut E,
    bytes: &mut [u8],
    array: Run,
) -> Result<(), BlockFault>
    requires size { E.size edits.old ≡ stream.now.sizes.block_size }
    requires length { length bytes.old ≡ stream.now.sizes.block_size }
    ensures put { (m : ℕ → Option (List ℕ)) → E.told edits.old ≡ Some m → IsSome (m stream.now.id) → OnOk result (HasFields stream.now (record (stream_at (contents m stream.now.id)) { indirect = array }) m (E.told edits.new)) }
    ensures length { length bytes.new ≡ stream.now.sizes.block_size }
    ensures written { (k : ℕ) → E.changed edits.new k ≡ true → (E.changed edits.old k ≡ true) ⊎ (k ≡ stream.now.id) }
    ensures changed { (k : ℕ) → E.changed edits.new k ≡ true → (E.changed edits.old k ≡ true) ⊎ (k < stream.now.sizes.blocks) }
    ensures stays { StaysChanged (E.changed edits.old) (E.changed edits.new) }
    ensures size { E.size edits.new ≡ E.size edits.old }
    ensures frame { E.frame edits.new ≡ E.frame edits.old }
    ensures cause { IsCaused (E.counts edits.old) (E.counts edits.new) result }
{
    stream.sizes();
    let id = stream.inode();
    match edits.get(id, bytes) {
        Ok(()) => {}
        Err(fault) => return Err(fault),
    }
    put_indirect_run(bytes, array);
    match edits.set(id, bytes) {
        Ok(()) => Ok(()),
        Err(_) => Err(BlockFault::NoMemory),
    }
}

/// Gives the indirect level an array that has no runs yet.
pub(crate) fn open_indirect<E: Edits>(
    stream: &Stream,
    bitmap: &mut Bitmap,
    edits: &mut E,
    bytes: &mut [u8],
) -> Result<Run, GrowFault>
    requires size { E.size edits.old ≡ stream.now.sizes.block_size }
    requires length { length bytes.old ≡ stream.now.sizes.block_size }
    requires volume { IsOfVolume stream.now.sizes bitmap.old }
    ensures grown { (m : ℕ → Option (List ℕ)) → E.told edits.old ≡ Some m → Owns stream.now bitmap.old [] m → length (used_runs (fields stream.now.sizes (contents m) stream.now.id).direct) ≡ 12 → (fields stream.now.sizes (contents m) stream.now.id).indirect.len ≡ 0 → OnOk result (HasGrown stream.now bitmap.old bitmap.new m 0 (E.told edits.new) (E.changed edits.old) (E.changed edits.new)) }
    ensures faults { (m : ℕ → Option (List ℕ)) → E.told edits.old ≡ Some m → Owns stream.now bitmap.old [] m → length (used_runs (fields stream.now.sizes (contents m) stream.now.id).direct) ≡ 12 → (fields stream.now.sizes (contents m) stream.now.id).indirect.len ≡ 0 → IfErr result (IsStepFault stream.now bitmap.old m) }
    ensures ready { (m : ℕ → Option (List ℕ)) → E.told edits.old ≡ Some m → Owns stream.now bitmap.old [] m → length (used_runs (fields stream.now.sizes (contents m) stream.now.id).direct) ≡ 12 → (fields stream.now.sizes (contents m) stream.now.id).indirect.len ≡ 0 → OnOk result ((n : ℕ → Option (List ℕ)) → E.told edits.new ≡ Some n → HasTable stream.now n) }
    ensures length { length bytes.new ≡ stream.now.sizes.block_size }
    ensures rest { bitmap.new ≡ record bitmap.old { tally = bitmap.new.tally } }
    ensures changed { (k : ℕ) → E.changed edits.new k ≡ true → (E.changed edits.old k ≡ true) ⊎ (IsBitmapBlock bitmap.old k ⊎ (k < stream.now.sizes.blocks)) }
    ensures stays { StaysChanged (E.changed edits.old) (E.changed edits.new) }
    ensures size { E.size edits.new ≡ E.size edits.old }
    ensures frame { E.frame edits.new ≡ E.frame edits.old }
    ensures later { AreLater (E.counts edits.old) (E.counts edits.new) }
    ensures cause { IfErr result (IsGrowCause 1 (E.counts edits.old) (E.counts edits.new)) }
{
    let whole = stream.array_length() as u16;
    let array = match take(stream, bitmap, edits, whole, whole) {
        Ok(array) => array,
        Err(fault) => return Err(fault),
    };
    match clear_array(stream, edits, bytes, array) {
        Ok(()) => {}
        Err(_) => return Err(GrowFault::Block(BlockFault::NoMemory)),
    }
    match put_indirect(stream, edits, bytes, array) {
        Ok(()) => Ok(array),
        Err(fault) => Err(GrowFault::Block(fault)),
    }
}

/// Writes the array of the indirect level into an inode.
fn put_indirect_run(bytes: &mut [u8], array: Run)
    requires { 1024 ≤ length bytes.old }
    ensures stream { stream_at bytes.new ≡ record (stream_at bytes.old) { indirect = array } }
    ensures rest { KeepsRest bytes.old bytes.new }
{
    let mut inode = InodeMut::over(bytes);
    inode.set_indirect(array);
}

/// Writes the array of the double indirect level into the inode.
pub(crate) fn put_double<E: Edits>(
    stream: &Stream,
    edits: &mut E,
    bytes: &mut [u8],
    array: Run,
) -> Result<(), BlockFault>
    requires size { E.size edits.old ≡ stream.now.sizes.block_size }
    requires length { length bytes.old ≡ stream.now.sizes.block_size }
    ensures put { (m : ℕ → Option (List ℕ)) → E.told edits.old ≡ Some m → IsSome (m stream.now.id) → OnOk result (HasFields stream.now (record (stream_at (contents m stream.now.id)) { double_indirect = array }) m (E.told edits.new)) }
    ensures length { length bytes.new ≡ stream.now.sizes.block_size }
    ensures written { (k : ℕ) → E.changed edits.new k ≡ true → (E.changed edits.old k ≡ true) ⊎ (k ≡ stream.now.id) }
    ensures changed { (k : ℕ) → E.changed edits.new k ≡ true → (E.changed edits.old k ≡ true) ⊎ (k < stream.now.sizes.blocks) }
    ensures stays { StaysChanged (E.changed edits.old) (E.changed edits.new) }
    ensures size { E.size edits.new ≡ E.size edits.old }
    ensures frame { E.frame edits.new ≡ E.frame edits.old }
    ensures cause { IsCaused (E.counts edits.old) (E.counts edits.new) result }
{
    stream.sizes();
    let id = stream.inode();
    match edits.get(id, bytes) {
        Ok(()) => {}
        Err(fault) => return Err(fault),
    }
    put_double_run(bytes, array);
    match edits.set(id, bytes) {
        Ok(()) => Ok(()),
        Err(_) => Err(BlockFault::NoMemory),
    }
}

/// Gives the double indirect level an array that lists no arrays yet.
pub(crate) fn open_double<E: Edits>(
    stream: &Stream,
    bitmap: &mut Bitmap,
    edits: &mut E,
    bytes: &mut [u8],
) -> Result<Run, GrowFault>
    requires size { E.size edits.old ≡ stream.now.sizes.block_size }
    requires length { length bytes.old ≡ stream.now.sizes.block_size }
    requires volume { IsOfVolume stream.now.sizes bitmap.old }
    ensures grown { (m : ℕ → Option (List ℕ)) → E.told edits.old ≡ Some m → Owns stream.now bitmap.old [] m → 0 < length (used_runs (array_runs stream.now.sizes (contents m) (fields stream.now.sizes (contents m) stream.now.id).indirect)) → length (used_runs (array_runs stream.now.sizes (contents m) (fields stream.now.sizes (contents m) stream.now.id).indirect)) ≡ length (array_runs stream.now.sizes (contents m) (fields stream.now.sizes (contents m) stream.now.id).indirect) → (fields stream.now.sizes (contents m) stream.now.id).double_indirect.len ≡ 0 → OnOk result (HasGrown stream.now bitmap.old bitmap.new m 0 (E.told edits.new) (E.changed edits.old) (E.changed edits.new)) }
    ensures faults { (m : ℕ → Option (List ℕ)) → E.told edits.old ≡ Some m → Owns stream.now bitmap.old [] m → 0 < length (used_runs (array_runs stream.now.sizes (contents m) (fields stream.now.sizes (contents m) stream.now.id).indirect)) → length (used_runs (array_runs stream.now.sizes (contents m) (fields stream.now.sizes (contents m) stream.now.id).indirect)) ≡ length (array_runs stream.now.sizes (contents m) (fields stream.now.sizes (contents m) stream.now.id).indirect) → (fields stream.now.sizes (contents m) stream.now.id).double_indirect.len ≡ 0 → IfErr result (IsStepFault stream.now bitmap.old m) }
    ensures ready { (m : ℕ → Option (List ℕ)) → E.told edits.old ≡ Some m → Owns stream.now bitmap.old [] m → 0 < length (used_runs (array_runs stream.now.sizes (contents m) (fields stream.now.sizes (contents m) stream.now.id).indirect)) → length (used_runs (array_runs stream.now.sizes (contents m) (fields stream.now.sizes (contents m) stream.now.id).indirect)) ≡ length (array_runs stream.now.sizes (contents m) (fields stream.now.sizes (contents m) stream.now.id).indirect) → (fields stream.now.sizes (contents m) stream.now.id).double_indirect.len ≡ 0 → OnOk result ((n : ℕ → Option (List ℕ)) → E.told edits.new ≡ Some n → HasArray stream.now n) }
    ensures length { length bytes.new ≡ stream.now.sizes.block_size }
    ensures rest { bitmap.new ≡ record bitmap.old { tally = bitmap.new.tally } }
    ensures changed { (k : ℕ) → E.changed edits.new k ≡ true → (E.changed edits.old k ≡ true) ⊎ (IsBitmapBlock bitmap.old k ⊎ (k < stream.now.sizes.blocks)) }
    ensures stays { StaysChanged (E.changed edits.old) (E.changed edits.new) }
    ensures size { E.size edits.new ≡ E.size edits.old }
    ensures frame { E.frame edits.new ≡ E.frame edits.old }
    ensures later { AreLater (E.counts edits.old) (E.counts edits.new) }
    ensures cause { IfErr result (IsGrowCause 1 (E.counts edits.old) (E.counts edits.new)) }
{
    let whole = stream.array_length() as u16;
    let array = match take(stream, bitmap, edits, whole, whole) {
        Ok(array) => array,
        Err(fault) => return Err(fault),
    };
    match clear_array(stream, edits, bytes, array) {
        Ok(()) => {}
        Err(_) => return Err(GrowFault::Block(BlockFault::NoMemory)),
    }
    match put_double(stream, edits, bytes, array) {
        Ok(()) => Ok(array),
        Err(fault) => Err(GrowFault::Block(fault)),
    }
}

/// Lists one more array in that of the double indirect level, which lists so many. It has no runs yet.
pub(crate) fn open_table<E: Edits>(
    stream: &Stream,
    bitmap: &mut Bitmap,
    edits: &mut E,
    bytes: &mut [u8],
    array: Run,
    listed: u64,
) -> Result<(), GrowFault>
    requires size { E.size edits.old ≡ stream.now.sizes.block_size }
    requires length { length bytes.old ≡ stream.now.sizes.block_size }
    requires volume { IsOfVolume stream.now.sizes bitmap.old }
    requires array { IsInVolume stream.now.sizes array }
    requires room { listed < array.len * runs_per_block stream.now.sizes }
    requires few { listed < 2 ^ 45 }
    ensures grown { (m : ℕ → Option (List ℕ)) → E.told edits.old ≡ Some m → Owns stream.now bitmap.old [] m → array ≡ (fields stream.now.sizes (contents m) stream.now.id).double_indirect → listed ≡ length (used_runs (array_runs stream.now.sizes (contents m) array)) → OnOk result (HasGrown stream.now bitmap.old bitmap.new m 0 (E.told edits.new) (E.changed edits.old) (E.changed edits.new)) }
    ensures faults { (m : ℕ → Option (List ℕ)) → E.told edits.old ≡ Some m → Owns stream.now bitmap.old [] m → array ≡ (fields stream.now.sizes (contents m) stream.now.id).double_indirect → listed ≡ length (used_runs (array_runs stream.now.sizes (contents m) array)) → IfErr result (IsStepFault stream.now bitmap.old m) }
    ensures ready { (m : ℕ → Option (List ℕ)) → E.told edits.old ≡ Some m → Owns stream.now bitmap.old [] m → (used blocks : ℕ) → AreTables stream.now m (record { array = array; listed = listed; used = used; blocks = blocks }) → OnOk result ((n : ℕ → Option (List ℕ)) → E.told edits.new ≡ Some n → AreTables stream.now n (record { array = array; listed = listed + 1; used = used; blocks = blocks })) }
    ensures length { length bytes.new ≡ stream.now.sizes.block_size }
    ensures rest { bitmap.new ≡ record bitmap.old { tally = bitmap.new.tally } }
    ensures changed { (k : ℕ) → E.changed edits.new k ≡ true → (E.changed edits.old k ≡ true) ⊎ (IsBitmapBlock bitmap.old k ⊎ (k < stream.now.sizes.blocks)) }
    ensures stays { StaysChanged (E.changed edits.old) (E.changed edits.new) }
    ensures size { E.size edits.new ≡ E.size edits.old }
    ensures frame { E.frame edits.new ≡ E.frame edits.old }
    ensures later { AreLater (E.counts edits.old) (E.counts edits.new) }
    ensures cause { IfErr result (IsGrowCause 1 (E.counts edits.old) (E.counts edits.new)) }
{
    let whole = stream.array_length() as u16;
    let table = match take(stream, bitmap, edits, whole, whole) {
        Ok(table) => table,
        Err(fault) => return Err(fault),
    };
    match clear_array(stream, edits, bytes, table) {
        Ok(()) => {}
        Err(_) => return Err(GrowFault::Block(BlockFault::NoMemory)),
    }
    match end_in_array(stream, edits, bytes, array, listed + 1) {
        Ok(()) => {}
        Err(fault) => return Err(GrowFault::Block(fault)),
    }
    match stream.put_in_array(edits, bytes, array, listed, table) {
        Ok(()) => Ok(()),
        Err(fault) => Err(GrowFault::Block(fault)),
    }
}

/// Ends the runs of the tables that an array lists before a place, where there is that place. It lists so many.
fn end_below<E: Edits>(
    stream: &Stream,
    edits: &mut E,
    bytes: &mut [u8],
    array: Run,
    listed: u64,
    place: u64,
) -> Result<(), BlockFault>
    requires size { E.size edits.old ≡ stream.now.sizes.block_size }
    requires length { length bytes.old ≡ stream.now.sizes.block_size }
    requires array { IsWhole stream.now.sizes array }
    requires few { listed ≤ array_length stream.now.sizes * runs_per_block stream.now.sizes }
    ensures put { (m : ℕ → Option (List ℕ)) → E.told edits.old ≡ Some m → HasTables stream.now.sizes array m → listed ≡ length (used_runs (array_runs stream.now.sizes (contents m) array)) → OnOk result (HasPutBelow stream.now.sizes array place NO_RUN m (E.told edits.new)) }
    ensures sound { (m : ℕ → Option (List ℕ)) → E.told edits.old ≡ Some m → HasTables stream.now.sizes array m → listed ≡ length (used_runs (array_runs stream.now.sizes (contents m) array)) → IfErr result (λ fault. ¬ IsDamage fault) }
    ensures length { length bytes.new ≡ stream.now.sizes.block_size }
    ensures written { (m : ℕ → Option (List ℕ)) → E.told edits.old ≡ Some m → HasTables stream.now.sizes array m → listed ≡ length (used_runs (array_runs stream.now.sizes (contents m) array)) → (k : ℕ) → E.changed edits.new k ≡ true → (E.changed edits.old k ≡ true) ⊎ Has (blocks_of stream.now.sizes (used_runs (array_runs stream.now.sizes (contents m) array))) k }
    ensures changed { (k : ℕ) → E.changed edits.new k ≡ true → (E.changed edits.old k ≡ true) ⊎ (k < stream.now.sizes.blocks) }
    ensures stays { StaysChanged (E.changed edits.old) (E.changed edits.new) }
    ensures size { E.size edits.new ≡ E.size edits.old }
    ensures frame { E.frame edits.new ≡ E.frame edits.old }
    ensures later { AreLater (E.counts edits.old) (E.counts edits.new) }
    ensures cause { IfErr result (IsCauseIn (E.counts edits.old) (E.counts edits.new)) }
{
    let per_table = stream.array_length() * stream.runs_per_block();
    if place < listed * per_table {
        return stream.put_below(edits, bytes, array, place, NO_RUN);
    }
    Ok(())
}

/// Adds a run behind the used ones of the double indirect level's tables, and answers how many blocks it has.
pub(crate) fn add_double<E: Edits>(
    stream: &Stream,
    bitmap: &mut Bitmap,
    edits: &mut E,
    bytes: &mut [u8],
    tables: Tables,
) -> Result<u64, GrowFault>
    requires size { E.size edits.old ≡ stream.now.sizes.block_size }
    requires length { length bytes.old ≡ stream.now.sizes.block_size }
    requires volume { IsOfVolume stream.now.sizes bitmap.old }
    requires array { IsWhole stream.now.sizes tables.array }
    requires listed { tables.listed ≤ array_length stream.now.sizes * runs_per_block stream.now.sizes }
    requires room { tables.used < tables.listed * (array_length stream.now.sizes * runs_per_block stream.now.sizes) }
    requires few { tables.blocks ≤ 2 ^ 44 }
    requires few_runs { tables.used < 2 ^ 45 }
    ensures grown { (m : ℕ → Option (List ℕ)) → E.told edits.old ≡ Some m → Owns stream.now bitmap.old [] m → AreTables stream.now m tables → IfOk result (λ n. HasGrown stream.now bitmap.old bitmap.new m n (E.told edits.new) (E.changed edits.old) (E.changed edits.new)) }
    ensures uses { (m : ℕ → Option (List ℕ)) → E.told edits.old ≡ Some m → Owns stream.now bitmap.old [] m → AreTables stream.now m tables → OnOk result ((n : ℕ → Option (List ℕ)) → E.told edits.new ≡ Some n → UsesDouble stream.now n) }
    ensures faults { (m : ℕ → Option (List ℕ)) → E.told edits.old ≡ Some m → Owns stream.now bitmap.old [] m → AreTables stream.now m tables → IfErr result (IsStepFault stream.now bitmap.old m) }
    ensures length { length bytes.new ≡ stream.now.sizes.block_size }
    ensures most { IfOk result (λ n. n ≤ array_length stream.now.sizes) }
    ensures some { IfOk result (λ n. 1 ≤ n) }
    ensures rest { bitmap.new ≡ record bitmap.old { tally = bitmap.new.tally } }
    ensures changed { (k : ℕ) → E.changed edits.new k ≡ true → (E.changed edits.old k ≡ true) ⊎ (IsBitmapBlock bitmap.old k ⊎ (k < stream.now.sizes.blocks)) }
    ensures stays { StaysChanged (E.changed edits.old) (E.changed edits.new) }
    ensures size { E.size edits.new ≡ E.size edits.old }
    ensures frame { E.frame edits.new ≡ E.frame edits.old }
    ensures later { AreLater (E.counts edits.old) (E.counts edits.new) }
    ensures cause { IfErr result (IsGrowCause 1 (E.counts edits.old) (E.counts edits.new)) }
{
    let whole = stream.array_length() as u16;
    let run = match take(stream, bitmap, edits, whole, whole) {
        Ok(run) => run,
        Err(fault) => return Err(fault),
    };
    let len = u64::from(run.len);
    match end_below(
        stream,
        edits,
        bytes,
        tables.array,
        tables.listed,
        tables.used + 1,
    ) {
        Ok(()) => {}
        Err(fault) => return Err(GrowFault::Block(fault)),
    }
    match stream.put_below(edits, bytes, tables.array, tables.used, run) {
        Ok(()) => {}
        Err(fault) => return Err(GrowFault::Block(fault)),
    }
    match stream.put_double_range(edits, bytes, tables.blocks + len) {
        Ok(()) => Ok(len),
        Err(fault) => Err(GrowFault::Block(fault)),
    }
}

/// Writes the array of the double indirect level into an inode.
fn put_double_run(bytes: &mut [u8], array: Run)
    requires { 1024 ≤ length bytes.old }
    ensures stream { stream_at bytes.new ≡ record (stream_at bytes.old) { double_indirect = array } }
    ensures rest { KeepsRest bytes.old bytes.new }
{
    let mut inode = InodeMut::over(bytes);
    inode.set_double_indirect(array);
}
