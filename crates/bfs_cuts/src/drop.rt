// Takes what goes whole from the end of a stream: its last tables, its double indirect level, its indirect level. Nothing
// that is given back is written.
ghost use Rattle.std.specs.Prelude.{◌≡◌, ◌<◌, ◌≤◌, ◌⊎◌, ◌+◌, ◌-◌, ◌*◌, ◌^◌, ℕ, pos, List, [], length, take, drop, Option, Some, OnOk, IfOk, IfErr, IsSome, All, true};
ghost use Rattle.bfs_base.specs.Lists.{Has};
ghost use Rattle.bfs_inode.specs.Inode.{stream_at};
ghost use Rattle.bfs_txn.specs.Faults.{AreLater, IsCaused};
ghost use Rattle.bfs_bitmap.specs.Runs.{as_kept};
ghost use Rattle.bfs_bitmap.specs.Fills.{IsBitmapBlock};
ghost use Rattle.bfs_stream.specs.Sizes.{IsInVolume, IsWhole, array_length, table_length, runs_per_block};
ghost use Rattle.bfs_stream.specs.Places.{fields, run_blocks, blocks_of, used_runs, array_runs, level_blocks, levels_at, frame_at};
ghost use Rattle.bfs_stream.specs.Told.{contents};
ghost use Rattle.bfs_stream.specs.Scans.{IsDamage};
ghost use Rattle.bfs_stream.specs.Faults.{IsCauseIn};
ghost use Rattle.bfs_stream.specs.Grown.{IsOfVolume, Owns, HasFields, KeepsRest, IsTable, AreTables, table_runs, HasBitIn};
ghost use Rattle.bfs_stream.specs.Standing.{standing};
ghost use Rattle.bfs_stream.specs.Trimmed.{Gave, HasTrimmed, HasDropped, HasSpare, HasNoArrays, MayLose};
ghost use Rattle.bfs_txn.specs.Told.{StaysChanged};

use crate::cut::{give, run_below, run_in};
use bfs_bitmap::Bitmap;
use bfs_bytes::Run;
use bfs_inode::{InodeMut, InodeView};
use bfs_stream::{NO_RUN, Stream, Table, Tables, less};
use bfs_txn::{BlockFault, Edits};

/// Gives back so many of the runs that an array names, from a place on.
fn give_listed<E: Edits>(
    stream: &Stream,
    bitmap: &mut Bitmap,
    edits: &mut E,
    bytes: &mut [u8],
    array: Run,
    from: u64,
    count: u64,
) -> Result<(), BlockFault>
    requires size { E.size edits.old ≡ stream.now.sizes.block_size }
    requires length { length bytes.old ≡ stream.now.sizes.block_size }
    requires volume { IsOfVolume stream.now.sizes bitmap.old }
    requires array { IsInVolume stream.now.sizes array }
    requires places { from + count ≤ array.len * runs_per_block stream.now.sizes }
    ensures gave { (m : ℕ → Option (List ℕ)) → E.told edits.old ≡ Some m → Owns stream.now bitmap.old [] m → ((k : ℕ) → Has (run_blocks stream.now.sizes array) k → Has (frame_at stream.now.sizes (contents m) stream.now.id) k) → from + count ≤ length (used_runs (array_runs stream.now.sizes (contents m) array)) → OnOk result (Gave bitmap.old bitmap.new (blocks_of stream.now.sizes (take count (drop from (used_runs (array_runs stream.now.sizes (contents m) array))))) m (E.told edits.new)) }
    ensures sound { (m : ℕ → Option (List ℕ)) → E.told edits.old ≡ Some m → Owns stream.now bitmap.old [] m → ((k : ℕ) → Has (run_blocks stream.now.sizes array) k → Has (frame_at stream.now.sizes (contents m) stream.now.id) k) → from + count ≤ length (used_runs (array_runs stream.now.sizes (contents m) array)) → All (IsInVolume stream.now.sizes) (used_runs (array_runs stream.now.sizes (contents m) array)) → IfErr result (λ fault. ¬ IsDamage fault) }
    ensures length { length bytes.new ≡ stream.now.sizes.block_size }
    ensures rest { bitmap.new ≡ record bitmap.old { given = bitmap.new.given; tally = bitmap.new.tally } }
    ensures kept { as_kept bitmap.new ≡ as_kept bitmap.old }
    ensures standing { standing bitmap.new ≡ standing bitmap.old }
    ensures changed { (k : ℕ) → E.changed edits.new k ≡ true → (E.changed edits.old k ≡ true) ⊎ IsBitmapBlock bitmap.old k }
    ensures bits { (m : ℕ → Option (List ℕ)) → E.told edits.old ≡ Some m → Owns stream.now bitmap.old [] m → ((k : ℕ) → Has (run_blocks stream.now.sizes array) k → Has (frame_at stream.now.sizes (contents m) stream.now.id) k) → from + count ≤ length (used_runs (array_runs stream.now.sizes (contents m) array)) → OnOk result ((k : ℕ) → E.changed edits.new k ≡ true → (E.changed edits.old k ≡ true) ⊎ HasBitIn bitmap.old (Has (blocks_of stream.now.sizes (take count (drop from (used_runs (array_runs stream.now.sizes (contents m) array)))))) k) }
    ensures stays { StaysChanged (E.changed edits.old) (E.changed edits.new) }
    ensures size { E.size edits.new ≡ E.size edits.old }
    ensures frame { E.frame edits.new ≡ E.frame edits.old }
    ensures later { AreLater (E.counts edits.old) (E.counts edits.new) }
    ensures cause { IfErr result (IsCauseIn (E.counts edits.old) (E.counts edits.new)) }
{
    stream.sizes();
    let id = stream.inode();
    for i in 0..count {
        let run = match run_in(stream, edits, bytes, array, from + i) {
            Ok(run) => run,
            Err(fault) => return Err(fault),
        };
        if !stream.is_used(run) {
            return Err(BlockFault::Damaged { block: id });
        }
        match give(stream, bitmap, edits, run) {
            Ok(()) => {}
            Err(fault) => return Err(fault),
        }
    }
    Ok(())
}

/// Gives back the runs under double indirect from a place on.
fn give_below<E: Edits>(
    stream: &Stream,
    bitmap: &mut Bitmap,
    edits: &mut E,
    bytes: &mut [u8],
    tables: Tables,
    from: u64,
) -> Result<(), BlockFault>
    requires size { E.size edits.old ≡ stream.now.sizes.block_size }
    requires length { length bytes.old ≡ stream.now.sizes.block_size }
    requires volume { IsOfVolume stream.now.sizes bitmap.old }
    requires array { IsWhole stream.now.sizes tables.array }
    requires listed { tables.listed ≤ array_length stream.now.sizes * runs_per_block stream.now.sizes }
    requires used { tables.used ≤ tables.listed * (array_length stream.now.sizes * runs_per_block stream.now.sizes) }
    ensures gave { (m : ℕ → Option (List ℕ)) → E.told edits.old ≡ Some m → Owns stream.now bitmap.old [] m → AreTables stream.now m tables → OnOk result (Gave bitmap.old bitmap.new (blocks_of stream.now.sizes (drop from (used_runs (table_runs stream.now.sizes (contents m) tables.array)))) m (E.told edits.new)) }
    ensures sound { (m : ℕ → Option (List ℕ)) → E.told edits.old ≡ Some m → Owns stream.now bitmap.old [] m → AreTables stream.now m tables → IfErr result (λ fault. ¬ IsDamage fault) }
    ensures length { length bytes.new ≡ stream.now.sizes.block_size }
    ensures rest { bitmap.new ≡ record bitmap.old { given = bitmap.new.given; tally = bitmap.new.tally } }
    ensures kept { as_kept bitmap.new ≡ as_kept bitmap.old }
    ensures standing { standing bitmap.new ≡ standing bitmap.old }
    ensures changed { (k : ℕ) → E.changed edits.new k ≡ true → (E.changed edits.old k ≡ true) ⊎ IsBitmapBlock bitmap.old k }
    ensures bits { (m : ℕ → Option (List ℕ)) → E.told edits.old ≡ Some m → Owns stream.now bitmap.old [] m → AreTables stream.now m tables → OnOk result ((k : ℕ) → E.changed edits.new k ≡ true → (E.changed edits.old k ≡ true) ⊎ HasBitIn bitmap.old (Has (blocks_of stream.now.sizes (drop from (used_runs (table_runs stream.now.sizes (contents m) tables.array))))) k) }
    ensures stays { StaysChanged (E.changed edits.old) (E.changed edits.new) }
    ensures size { E.size edits.new ≡ E.size edits.old }
    ensures frame { E.frame edits.new ≡ E.frame edits.old }
    ensures later { AreLater (E.counts edits.old) (E.counts edits.new) }
    ensures cause { IfErr result (IsCauseIn (E.counts edits.old) (E.counts edits.new)) }
{
    for i in from..tables.used {
        let run = match run_below(stream, edits, bytes, tables.array, i) {
            Ok(run) => run,
            Err(fault) => return Err(fault),
        };
        match give(stream, bitmap, edits, run) {
            Ok(()) => {}
            Err(fault) => return Err(fault),
        }
    }
    Ok(())
}

/// Writes into the inode that the double indirect level has no array.
fn put_no_double<E: Edits>(
    stream: &Stream,
    edits: &mut E,
    bytes: &mut [u8],
) -> Result<(), BlockFault>
    requires size { E.size edits.old ≡ stream.now.sizes.block_size }
    requires length { length bytes.old ≡ stream.now.sizes.block_size }
    ensures put { (m : ℕ → Option (List ℕ)) → E.told edits.old ≡ Some m → IsSome (m stream.now.id) → OnOk result (HasFields stream.now (record (stream_at (contents m stream.now.id)) { double_indirect = NO_RUN; max_double_indirect_range = pos 0 }) m (E.told edits.new)) }
    ensures length { length bytes.new ≡ stream.now.sizes.block_size }
    ensures written { (k : ℕ) → E.changed edits.new k ≡ true → (E.changed edits.old k ≡ true) ⊎ (k ≡ stream.now.id) }
    ensures changed { (k : ℕ) → E.changed edits.new k ≡ true → (E.changed edits.old k ≡ true) ⊎ (k < stream.now.sizes.blocks) }
    ensures stays { StaysChanged (E.changed edits.old) (E.changed edits.new) }
    ensures size { E.size edits.new ≡ E.size edits.old }
    ensures frame { E.frame edits.new ≡ E.frame edits.old }
    ensures cause { IsCaused (E.counts edits.old) (E.counts edits.new) result }
{
    stream.sizes();
    let id = stream.inode();
    match edits.get(id, bytes) {
        Ok(()) => {}
        Err(fault) => return Err(fault),
    }
    put_double_none(bytes);
    match edits.set(id, bytes) {
        Ok(()) => Ok(()),
        Err(_) => Err(BlockFault::NoMemory),
    }
}

/// Writes into the inode that the indirect level has no array.
fn put_no_indirect<E: Edits>(
    stream: &Stream,
    edits: &mut E,
    bytes: &mut [u8],
) -> Result<(), BlockFault>
    requires size { E.size edits.old ≡ stream.now.sizes.block_size }
    requires length { length bytes.old ≡ stream.now.sizes.block_size }
    ensures put { (m : ℕ → Option (List ℕ)) → E.told edits.old ≡ Some m → IsSome (m stream.now.id) → OnOk result (HasFields stream.now (record (stream_at (contents m stream.now.id)) { indirect = NO_RUN; max_indirect_range = pos 0 }) m (E.told edits.new)) }
    ensures length { length bytes.new ≡ stream.now.sizes.block_size }
    ensures written { (k : ℕ) → E.changed edits.new k ≡ true → (E.changed edits.old k ≡ true) ⊎ (k ≡ stream.now.id) }
    ensures changed { (k : ℕ) → E.changed edits.new k ≡ true → (E.changed edits.old k ≡ true) ⊎ (k < stream.now.sizes.blocks) }
    ensures stays { StaysChanged (E.changed edits.old) (E.changed edits.new) }
    ensures size { E.size edits.new ≡ E.size edits.old }
    ensures frame { E.frame edits.new ≡ E.frame edits.old }
    ensures cause { IsCaused (E.counts edits.old) (E.counts edits.new) result }
{
    stream.sizes();
    let id = stream.inode();
    match edits.get(id, bytes) {
        Ok(()) => {}
        Err(fault) => return Err(fault),
    }
    put_indirect_none(bytes);
    match edits.set(id, bytes) {
        Ok(()) => Ok(()),
        Err(_) => Err(BlockFault::NoMemory),
    }
}

/// Takes the double indirect level away: its runs, its tables and its array.
fn drop_double<E: Edits>(
    stream: &Stream,
    bitmap: &mut Bitmap,
    edits: &mut E,
    bytes: &mut [u8],
    tables: Tables,
) -> Result<(), BlockFault>
    requires size { E.size edits.old ≡ stream.now.sizes.block_size }
    requires length { length bytes.old ≡ stream.now.sizes.block_size }
    requires volume { IsOfVolume stream.now.sizes bitmap.old }
    requires array { IsWhole stream.now.sizes tables.array }
    requires listed { tables.listed ≤ array_length stream.now.sizes * runs_per_block stream.now.sizes }
    requires used { tables.used ≤ tables.listed * (array_length stream.now.sizes * runs_per_block stream.now.sizes) }
    ensures dropped { (m : ℕ → Option (List ℕ)) → E.told edits.old ≡ Some m → Owns stream.now bitmap.old [] m → AreTables stream.now m tables → MayLose stream.now m (array_length stream.now.sizes * tables.used) → OnOk result ((one : HasDropped stream.now bitmap.old bitmap.new m (array_length stream.now.sizes * tables.used) (E.told edits.new) (E.changed edits.old) (E.changed edits.new)) × ((fields stream.now.sizes (contents one.0.2.map) stream.now.id).double_indirect.len ≡ 0)) }
    ensures sound { (m : ℕ → Option (List ℕ)) → E.told edits.old ≡ Some m → Owns stream.now bitmap.old [] m → AreTables stream.now m tables → IfErr result (λ fault. ¬ IsDamage fault) }
    ensures length { length bytes.new ≡ stream.now.sizes.block_size }
    ensures rest { bitmap.new ≡ record bitmap.old { given = bitmap.new.given; tally = bitmap.new.tally } }
    ensures kept { as_kept bitmap.new ≡ as_kept bitmap.old }
    ensures standing { standing bitmap.new ≡ standing bitmap.old }
    ensures changed { (k : ℕ) → E.changed edits.new k ≡ true → (E.changed edits.old k ≡ true) ⊎ (IsBitmapBlock bitmap.old k ⊎ (k < stream.now.sizes.blocks)) }
    ensures stays { StaysChanged (E.changed edits.old) (E.changed edits.new) }
    ensures size { E.size edits.new ≡ E.size edits.old }
    ensures frame { E.frame edits.new ≡ E.frame edits.old }
    ensures later { AreLater (E.counts edits.old) (E.counts edits.new) }
    ensures cause { IfErr result (IsCauseIn (E.counts edits.old) (E.counts edits.new)) }
{
    match give_below(stream, bitmap, edits, bytes, tables, 0) {
        Ok(()) => {}
        Err(fault) => return Err(fault),
    }
    match give_listed(stream, bitmap, edits, bytes, tables.array, 0, tables.listed) {
        Ok(()) => {}
        Err(fault) => return Err(fault),
    }
    match give(stream, bitmap, edits, tables.array) {
        Ok(()) => {}
        Err(fault) => return Err(fault),
    }
    put_no_double(stream, edits, bytes)
}

/// Takes the indirect level away, behind which there is none: its runs and its array.
fn drop_indirect<E: Edits>(
    stream: &Stream,
    bitmap: &mut Bitmap,
    edits: &mut E,
    bytes: &mut [u8],
    table: Table,
) -> Result<(), BlockFault>
    requires size { E.size edits.old ≡ stream.now.sizes.block_size }
    requires length { length bytes.old ≡ stream.now.sizes.block_size }
    requires volume { IsOfVolume stream.now.sizes bitmap.old }
    requires array { IsInVolume stream.now.sizes table.array }
    requires used { table.used ≤ table.array.len * runs_per_block stream.now.sizes }
    ensures dropped { (m : ℕ → Option (List ℕ)) → E.told edits.old ≡ Some m → Owns stream.now bitmap.old [] m → IsTable stream.now m table → (fields stream.now.sizes (contents m) stream.now.id).double_indirect.len ≡ 0 → MayLose stream.now m (length (level_blocks stream.now.sizes (levels_at stream.now.sizes (contents m) stream.now.id).table)) → OnOk result ((one : HasDropped stream.now bitmap.old bitmap.new m (length (level_blocks stream.now.sizes (levels_at stream.now.sizes (contents m) stream.now.id).table)) (E.told edits.new) (E.changed edits.old) (E.changed edits.new)) × HasNoArrays stream.now one.0.2.map) }
    ensures sound { (m : ℕ → Option (List ℕ)) → E.told edits.old ≡ Some m → Owns stream.now bitmap.old [] m → IsTable stream.now m table → IfErr result (λ fault. ¬ IsDamage fault) }
    ensures length { length bytes.new ≡ stream.now.sizes.block_size }
    ensures rest { bitmap.new ≡ record bitmap.old { given = bitmap.new.given; tally = bitmap.new.tally } }
    ensures kept { as_kept bitmap.new ≡ as_kept bitmap.old }
    ensures standing { standing bitmap.new ≡ standing bitmap.old }
    ensures changed { (k : ℕ) → E.changed edits.new k ≡ true → (E.changed edits.old k ≡ true) ⊎ (IsBitmapBlock bitmap.old k ⊎ (k < stream.now.sizes.blocks)) }
    ensures stays { StaysChanged (E.changed edits.old) (E.changed edits.new) }
    ensures size { E.size edits.new ≡ E.size edits.old }
    ensures frame { E.frame edits.new ≡ E.frame edits.old }
    ensures later { AreLater (E.counts edits.old) (E.counts edits.new) }
    ensures cause { IfErr result (IsCauseIn (E.counts edits.old) (E.counts edits.new)) }
{
    match give_listed(stream, bitmap, edits, bytes, table.array, 0, table.used) {
        Ok(()) => {}
        Err(fault) => return Err(fault),
    }
    match give(stream, bitmap, edits, table.array) {
        Ok(()) => {}
        Err(fault) => return Err(fault),
    }
    put_no_indirect(stream, edits, bytes)
}

/// Keeps the first of the tables, so many, and takes the others with their runs.
fn drop_tables<E: Edits>(
    stream: &Stream,
    bitmap: &mut Bitmap,
    edits: &mut E,
    bytes: &mut [u8],
    tables: Tables,
    keep: u64,
) -> Result<u64, BlockFault>
    requires size { E.size edits.old ≡ stream.now.sizes.block_size }
    requires length { length bytes.old ≡ stream.now.sizes.block_size }
    requires volume { IsOfVolume stream.now.sizes bitmap.old }
    requires array { IsWhole stream.now.sizes tables.array }
    requires listed { tables.listed ≤ array_length stream.now.sizes * runs_per_block stream.now.sizes }
    requires used { tables.used ≤ tables.listed * (array_length stream.now.sizes * runs_per_block stream.now.sizes) }
    requires keep { (1 ≤ keep) × (keep < tables.listed) }
    requires few { tables.blocks ≤ 2 ^ 44 }
    requires few_runs { tables.used < 2 ^ 45 }
    ensures count { IfOk result (λ n. n ≡ (array_length stream.now.sizes * (tables.used - table_length stream.now.sizes * keep))) }
    ensures trimmed { (m : ℕ → Option (List ℕ)) → E.told edits.old ≡ Some m → Owns stream.now bitmap.old [] m → AreTables stream.now m tables → (most : ℕ) → MayLose stream.now m most → (array_length stream.now.sizes * (tables.used - table_length stream.now.sizes * keep)) ≤ most → array_length stream.now.sizes * (table_length stream.now.sizes * (keep - 1)) + most < array_length stream.now.sizes * tables.used → IfOk result (λ n. (one : HasTrimmed stream.now bitmap.old bitmap.new m n (E.told edits.new) (E.changed edits.old) (E.changed edits.new)) × HasSpare stream.now one.2.map (most - n)) }
    ensures sound { (m : ℕ → Option (List ℕ)) → E.told edits.old ≡ Some m → Owns stream.now bitmap.old [] m → AreTables stream.now m tables → IfErr result (λ fault. ¬ IsDamage fault) }
    ensures length { length bytes.new ≡ stream.now.sizes.block_size }
    ensures rest { bitmap.new ≡ record bitmap.old { given = bitmap.new.given; tally = bitmap.new.tally } }
    ensures kept { as_kept bitmap.new ≡ as_kept bitmap.old }
    ensures standing { standing bitmap.new ≡ standing bitmap.old }
    ensures changed { (k : ℕ) → E.changed edits.new k ≡ true → (E.changed edits.old k ≡ true) ⊎ (IsBitmapBlock bitmap.old k ⊎ (k < stream.now.sizes.blocks)) }
    ensures stays { StaysChanged (E.changed edits.old) (E.changed edits.new) }
    ensures size { E.size edits.new ≡ E.size edits.old }
    ensures frame { E.frame edits.new ≡ E.frame edits.old }
    ensures later { AreLater (E.counts edits.old) (E.counts edits.new) }
    ensures cause { IfErr result (IsCauseIn (E.counts edits.old) (E.counts edits.new)) }
{
    let first = stream.table_length() * keep;
    match give_below(stream, bitmap, edits, bytes, tables, first) {
        Ok(()) => {}
        Err(fault) => return Err(fault),
    }
    match give_listed(
        stream,
        bitmap,
        edits,
        bytes,
        tables.array,
        keep,
        tables.listed - keep,
    ) {
        Ok(()) => {}
        Err(fault) => return Err(fault),
    }
    match stream.put_in_array(edits, bytes, tables.array, keep, NO_RUN) {
        Ok(()) => {}
        Err(fault) => return Err(fault),
    }
    let gone = stream.array_length() * less(tables.used, first);
    match stream.put_double_range(edits, bytes, less(tables.blocks, gone)) {
        Ok(()) => Ok(gone),
        Err(fault) => Err(fault),
    }
}

/// Takes the last tables whose runs are all among so many blocks at the end, and answers how many blocks went.
fn drop_last<E: Edits>(
    stream: &Stream,
    bitmap: &mut Bitmap,
    edits: &mut E,
    bytes: &mut [u8],
    tables: Tables,
    most: u64,
) -> Result<u64, BlockFault>
    requires size { E.size edits.old ≡ stream.now.sizes.block_size }
    requires length { length bytes.old ≡ stream.now.sizes.block_size }
    requires volume { IsOfVolume stream.now.sizes bitmap.old }
    requires array { IsWhole stream.now.sizes tables.array }
    requires listed { tables.listed ≤ array_length stream.now.sizes * runs_per_block stream.now.sizes }
    requires used { tables.used ≤ tables.listed * (array_length stream.now.sizes * runs_per_block stream.now.sizes) }
    requires few { tables.blocks ≤ 2 ^ 44 }
    requires few_runs { tables.used < 2 ^ 45 }
    requires some { most < array_length stream.now.sizes * tables.used }
    ensures most { IfOk result (λ n. n ≤ most) }
    ensures trimmed { (m : ℕ → Option (List ℕ)) → E.told edits.old ≡ Some m → Owns stream.now bitmap.old [] m → AreTables stream.now m tables → 0 < (fields stream.now.sizes (contents m) stream.now.id).double_indirect.len → MayLose stream.now m most → IfOk result (λ n. (one : HasTrimmed stream.now bitmap.old bitmap.new m n (E.told edits.new) (E.changed edits.old) (E.changed edits.new)) × HasSpare stream.now one.2.map (most - n)) }
    ensures sound { (m : ℕ → Option (List ℕ)) → E.told edits.old ≡ Some m → Owns stream.now bitmap.old [] m → AreTables stream.now m tables → IfErr result (λ fault. ¬ IsDamage fault) }
    ensures length { length bytes.new ≡ stream.now.sizes.block_size }
    ensures rest { bitmap.new ≡ record bitmap.old { given = bitmap.new.given; tally = bitmap.new.tally } }
    ensures kept { as_kept bitmap.new ≡ as_kept bitmap.old }
    ensures standing { standing bitmap.new ≡ standing bitmap.old }
    ensures changed { (k : ℕ) → E.changed edits.new k ≡ true → (E.changed edits.old k ≡ true) ⊎ (IsBitmapBlock bitmap.old k ⊎ (k < stream.now.sizes.blocks)) }
    ensures stays { StaysChanged (E.changed edits.old) (E.changed edits.new) }
    ensures size { E.size edits.new ≡ E.size edits.old }
    ensures frame { E.frame edits.new ≡ E.frame edits.old }
    ensures later { AreLater (E.counts edits.old) (E.counts edits.new) }
    ensures cause { IfErr result (IsCauseIn (E.counts edits.old) (E.counts edits.new)) }
{
    let keep = tables_for(stream, less(tables.used, most / stream.array_length()));
    if keep >= tables.listed {
        return Ok(0);
    }
    drop_tables(stream, bitmap, edits, bytes, tables, keep)
}

/// Takes the indirect level away where it goes whole, and answers how many blocks went.
fn drop_first<E: Edits>(
    stream: &Stream,
    bitmap: &mut Bitmap,
    edits: &mut E,
    bytes: &mut [u8],
    most: u64,
) -> Result<u64, BlockFault>
    requires size { E.size edits.old ≡ stream.now.sizes.block_size }
    requires length { length bytes.old ≡ stream.now.sizes.block_size }
    requires volume { IsOfVolume stream.now.sizes bitmap.old }
    ensures most { IfOk result (λ n. n ≤ most) }
    ensures dropped { (m : ℕ → Option (List ℕ)) → E.told edits.old ≡ Some m → Owns stream.now bitmap.old [] m → (fields stream.now.sizes (contents m) stream.now.id).double_indirect.len ≡ 0 → MayLose stream.now m most → IfOk result (λ n. (one : HasDropped stream.now bitmap.old bitmap.new m n (E.told edits.new) (E.changed edits.old) (E.changed edits.new)) × HasSpare stream.now one.0.2.map (most - n)) }
    ensures sound { (m : ℕ → Option (List ℕ)) → E.told edits.old ≡ Some m → Owns stream.now bitmap.old [] m → (fields stream.now.sizes (contents m) stream.now.id).double_indirect.len ≡ 0 → IfErr result (λ fault. ¬ IsDamage fault) }
    ensures length { length bytes.new ≡ stream.now.sizes.block_size }
    ensures rest { bitmap.new ≡ record bitmap.old { given = bitmap.new.given; tally = bitmap.new.tally } }
    ensures kept { as_kept bitmap.new ≡ as_kept bitmap.old }
    ensures standing { standing bitmap.new ≡ standing bitmap.old }
    ensures changed { (k : ℕ) → E.changed edits.new k ≡ true → (E.changed edits.old k ≡ true) ⊎ (IsBitmapBlock bitmap.old k ⊎ (k < stream.now.sizes.blocks)) }
    ensures stays { StaysChanged (E.changed edits.old) (E.changed edits.new) }
    ensures size { E.size edits.new ≡ E.size edits.old }
    ensures frame { E.frame edits.new ≡ E.frame edits.old }
    ensures later { AreLater (E.counts edits.old) (E.counts edits.new) }
    ensures cause { IfErr result (IsCauseIn (E.counts edits.old) (E.counts edits.new)) }
{
    stream.sizes();
    let id = stream.inode();
    match edits.get(id, bytes) {
        Ok(()) => {}
        Err(fault) => return Err(fault),
    }
    if InodeView::over(bytes).indirect().len == 0 {
        return Ok(0);
    }
    let ends = stream.ends(bytes);
    let own = less(ends.indirect, ends.direct);
    if own > most {
        return Ok(0);
    }
    let table = match stream.table(edits, bytes) {
        Ok(table) => table,
        Err(fault) => return Err(fault),
    };
    match drop_indirect(stream, bitmap, edits, bytes, table) {
        Ok(()) => Ok(own),
        Err(fault) => Err(fault),
    }
}

/// Takes the double indirect level away, and then what goes whole before it, and answers how many blocks went.
fn drop_both<E: Edits>(
    stream: &Stream,
    bitmap: &mut Bitmap,
    edits: &mut E,
    bytes: &mut [u8],
    tables: Tables,
    most: u64,
) -> Result<u64, BlockFault>
    requires size { E.size edits.old ≡ stream.now.sizes.block_size }
    requires length { length bytes.old ≡ stream.now.sizes.block_size }
    requires volume { IsOfVolume stream.now.sizes bitmap.old }
    requires array { IsWhole stream.now.sizes tables.array }
    requires listed { tables.listed ≤ array_length stream.now.sizes * runs_per_block stream.now.sizes }
    requires used { tables.used ≤ tables.listed * (array_length stream.now.sizes * runs_per_block stream.now.sizes) }
    requires few_runs { tables.used < 2 ^ 45 }
    requires most { array_length stream.now.sizes * tables.used ≤ most }
    ensures most { IfOk result (λ n. n ≤ most) }
    ensures trimmed { (m : ℕ → Option (List ℕ)) → E.told edits.old ≡ Some m → Owns stream.now bitmap.old [] m → AreTables stream.now m tables → MayLose stream.now m most → IfOk result (λ n. (one : HasTrimmed stream.now bitmap.old bitmap.new m n (E.told edits.new) (E.changed edits.old) (E.changed edits.new)) × HasSpare stream.now one.2.map (most - n)) }
    ensures sound { (m : ℕ → Option (List ℕ)) → E.told edits.old ≡ Some m → Owns stream.now bitmap.old [] m → AreTables stream.now m tables → MayLose stream.now m most → IfErr result (λ fault. ¬ IsDamage fault) }
    ensures length { length bytes.new ≡ stream.now.sizes.block_size }
    ensures rest { bitmap.new ≡ record bitmap.old { given = bitmap.new.given; tally = bitmap.new.tally } }
    ensures kept { as_kept bitmap.new ≡ as_kept bitmap.old }
    ensures standing { standing bitmap.new ≡ standing bitmap.old }
    ensures changed { (k : ℕ) → E.changed edits.new k ≡ true → (E.changed edits.old k ≡ true) ⊎ (IsBitmapBlock bitmap.old k ⊎ (k < stream.now.sizes.blocks)) }
    ensures stays { StaysChanged (E.changed edits.old) (E.changed edits.new) }
    ensures size { E.size edits.new ≡ E.size edits.old }
    ensures frame { E.frame edits.new ≡ E.frame edits.old }
    ensures later { AreLater (E.counts edits.old) (E.counts edits.new) }
    ensures cause { IfErr result (IsCauseIn (E.counts edits.old) (E.counts edits.new)) }
{
    match drop_double(stream, bitmap, edits, bytes, tables) {
        Ok(()) => {}
        Err(fault) => return Err(fault),
    }
    let own = stream.array_length() * tables.used;
    match drop_first(stream, bitmap, edits, bytes, less(most, own)) {
        Ok(gone) => Ok(own + gone),
        Err(fault) => Err(fault),
    }
}

/// Takes the arrays away whose runs are all among so many blocks at the end, with these, and answers how many went.
pub(crate) fn drop_arrays<E: Edits>(
    stream: &Stream,
    bitmap: &mut Bitmap,
    edits: &mut E,
    bytes: &mut [u8],
    most: u64,
) -> Result<u64, BlockFault>
    requires size { E.size edits.old ≡ stream.now.sizes.block_size }
    requires length { length bytes.old ≡ stream.now.sizes.block_size }
    requires volume { IsOfVolume stream.now.sizes bitmap.old }
    ensures most { IfOk result (λ n. n ≤ most) }
    ensures trimmed { (m : ℕ → Option (List ℕ)) → E.told edits.old ≡ Some m → Owns stream.now bitmap.old [] m → MayLose stream.now m most → IfOk result (λ n. (one : HasTrimmed stream.now bitmap.old bitmap.new m n (E.told edits.new) (E.changed edits.old) (E.changed edits.new)) × HasSpare stream.now one.2.map (most - n)) }
    ensures sound { (m : ℕ → Option (List ℕ)) → E.told edits.old ≡ Some m → Owns stream.now bitmap.old [] m → MayLose stream.now m most → IfErr result (λ fault. ¬ IsDamage fault) }
    ensures length { length bytes.new ≡ stream.now.sizes.block_size }
    ensures rest { bitmap.new ≡ record bitmap.old { given = bitmap.new.given; tally = bitmap.new.tally } }
    ensures kept { as_kept bitmap.new ≡ as_kept bitmap.old }
    ensures standing { standing bitmap.new ≡ standing bitmap.old }
    ensures changed { (k : ℕ) → E.changed edits.new k ≡ true → (E.changed edits.old k ≡ true) ⊎ (IsBitmapBlock bitmap.old k ⊎ (k < stream.now.sizes.blocks)) }
    ensures stays { StaysChanged (E.changed edits.old) (E.changed edits.new) }
    ensures size { E.size edits.new ≡ E.size edits.old }
    ensures frame { E.frame edits.new ≡ E.frame edits.old }
    ensures later { AreLater (E.counts edits.old) (E.counts edits.new) }
    ensures cause { IfErr result (IsCauseIn (E.counts edits.old) (E.counts edits.new)) }
{
    stream.sizes();
    let id = stream.inode();
    match edits.get(id, bytes) {
        Ok(()) => {}
        Err(fault) => return Err(fault),
    }
    if InodeView::over(bytes).double_indirect().len == 0 {
        return drop_first(stream, bitmap, edits, bytes, most);
    }
    let tables = match stream.tables(edits, bytes) {
        Ok(tables) => tables,
        Err(fault) => return Err(fault),
    };
    if stream.array_length() * tables.used > most {
        return drop_last(stream, bitmap, edits, bytes, tables, most);
    }
    drop_both(stream, bitmap, edits, bytes, tables, most)
}

/// How many tables so many runs take.
fn tables_for(stream: &Stream, runs: u64) -> u64
    requires some { 1 ≤ runs }
    ensures least { 1 ≤ result }
    ensures before { table_length stream.now.sizes * (result - 1) < runs }
    ensures enough { runs ≤ table_length stream.now.sizes * result }
{
    parts(runs, stream.table_length())
}

/// Writes no array for the double indirect level into an inode.
fn put_double_none(bytes: &mut [u8])
    requires { 1024 ≤ length bytes.old }
    ensures stream { stream_at bytes.new ≡ record (stream_at bytes.old) { double_indirect = NO_RUN; max_double_indirect_range = pos 0 } }
    ensures rest { KeepsRest bytes.old bytes.new }
{
    let mut inode = InodeMut::over(bytes);
    inode.set_double_indirect(NO_RUN);
    inode.set_max_double_indirect_range(0);
}

/// Writes no array for the indirect level into an inode.
fn put_indirect_none(bytes: &mut [u8])
    requires { 1024 ≤ length bytes.old }
    ensures stream { stream_at bytes.new ≡ record (stream_at bytes.old) { indirect = NO_RUN; max_indirect_range = pos 0 } }
    ensures rest { KeepsRest bytes.old bytes.new }
{
    let mut inode = InodeMut::over(bytes);
    inode.set_indirect(NO_RUN);
    inode.set_max_indirect_range(0);
}

/// How many parts of this length so many take, the last of which may be shorter.
fn parts(count: u64, length: u64) -> u64
    requires some { 1 ≤ count }
    requires long { 1 ≤ length }
    ensures least { 1 ≤ result }
    ensures before { length * (result - 1) < count }
    ensures enough { count ≤ length * result }
{
    (count - 1) / length + 1
}
