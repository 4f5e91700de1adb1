// Takes runs from the end of a stream.
ghost use Rattle.std.specs.Prelude.{◌≡◌, ◌<◌, ◌≤◌, ◌⊎◌, ◌+◌, ◌-◌, ◌*◌, ◌/◌, ◌^◌, ℕ, pos, List, [], length, slice_set, slice_get, Option, Some, OnOk, IfOk, IfErr, true};
ghost use Rattle.bfs_inode.specs.Inode.{stream_at};
ghost use Rattle.bfs_base.specs.Lists.{Has};
ghost use Rattle.bfs_txn.specs.Faults.{AreLater, IsCaused};
ghost use Rattle.bfs_bitmap.specs.Runs.{Fits, as_kept};
ghost use Rattle.bfs_bitmap.specs.Fills.{IsBitmapBlock};
ghost use Rattle.bfs_stream.specs.Sizes.{IsInVolume, IsWhole, array_length, runs_per_block, first_block};
ghost use Rattle.bfs_stream.specs.Places.{fields, run_blocks, array_runs, used_runs};
ghost use Rattle.bfs_stream.specs.Told.{contents, AreTold};
ghost use Rattle.bfs_stream.specs.Scans.{IsDamage};
ghost use Rattle.bfs_stream.specs.Faults.{IsCauseIn};
ghost use Rattle.bfs_stream.specs.Grown.{IsOfVolume, Owns, KeepsRest, IsTable, AreTables, HasTables, table_runs, HasBitIn};
ghost use Rattle.bfs_stream.specs.Standing.{standing};
ghost use Rattle.bfs_stream.specs.Trimmed.{Gave, HasCut, HasNoArrays, MayLose};
ghost use Rattle.bfs_txn.specs.Told.{StaysChanged};

use bfs_bitmap::Bitmap;
use bfs_bytes::{Run, run_at};
use bfs_inode::{InodeMut, InodeView};
use bfs_stream::{MOST_BLOCKS, NO_RUN, Stream, Table, Tables, less};
use bfs_txn::{BlockFault, Blocks, Edits};

/// Gives a run back.
pub(crate) fn give<E: Edits>(
    stream: &Stream,
    bitmap: &mut Bitmap,
    edits: &mut E,
    run: Run,
) -> Result<(), BlockFault>
    requires size { E.size edits.old ≡ bitmap.old.block_size }
    requires volume { IsOfVolume stream.now.sizes bitmap.old }
    requires inside { IsInVolume stream.now.sizes run }
    ensures gave { (m : ℕ → Option (List ℕ)) → E.told edits.old ≡ Some m → Fits bitmap.old m → OnOk result (Gave bitmap.old bitmap.new (run_blocks stream.now.sizes run) m (E.told edits.new)) }
    ensures rest { bitmap.new ≡ record bitmap.old { given = bitmap.new.given; tally = bitmap.new.tally } }
    ensures kept { as_kept bitmap.new ≡ as_kept bitmap.old }
    ensures standing { standing bitmap.new ≡ standing bitmap.old }
    ensures changed { (k : ℕ) → E.changed edits.new k ≡ true → (E.changed edits.old k ≡ true) ⊎ IsBitmapBlock bitmap.old k }
    ensures bits { (k : ℕ) → E.changed edits.new k ≡ true → (E.changed edits.old k ≡ true) ⊎ HasBitIn bitmap.old (Has (run_blocks stream.now.sizes run)) k }
    ensures stays { StaysChanged (E.changed edits.old) (E.changed edits.new) }
    ensures size { E.size edits.new ≡ E.size edits.old }
    ensures frame { E.frame edits.new ≡ E.frame edits.old }
    ensures cause { IsCaused (E.counts edits.old) (E.counts edits.new) result }
{
    bitmap.give_back(edits, run)
}

/// The first blocks of a run, so many, or a run without blocks.
fn first_part(stream: &Stream, run: Run, keep: u16) -> Run
    requires inside { IsInVolume stream.now.sizes run }
    requires few { keep ≤ run.len }
    ensures long { result.len ≡ keep }
    ensures first { 0 < result.len → first_block stream.now.sizes result ≡ first_block stream.now.sizes run }
    ensures inside { 0 < result.len → IsInVolume stream.now.sizes result }
{
    if keep == 0 {
        return NO_RUN;
    }
    Run {
        group: run.group,
        start: run.start,
        len: keep,
    }
}

/// The blocks of a run behind its first ones, of which there are so many.
fn last_part(stream: &Stream, run: Run, keep: u16) -> Run
    requires inside { IsInVolume stream.now.sizes run }
    requires few { keep < run.len }
    ensures long { keep + result.len ≡ run.len }
    ensures first { first_block stream.now.sizes result ≡ first_block stream.now.sizes run + keep }
    ensures inside { IsInVolume stream.now.sizes result }
{
    stream.sizes();
    Run {
        group: run.group,
        start: run.start + keep,
        len: run.len - keep,
    }
}

/// Writes over the direct run at a place, behind which no run is used; the direct runs then reach so many blocks.
fn put_last_direct(stream: &Stream, bytes: &mut [u8], place: usize, run: Run, blocks: u64)
    requires length { 1024 ≤ length bytes.old }
    requires place { place < 12 }
    requires few { blocks < 2 ^ 45 }
    ensures stream { stream_at bytes.new ≡ record (stream_at bytes.old) { direct = slice_set (stream_at bytes.old).direct place run; max_direct_range = pos (stream.now.sizes.block_size * blocks) } }
    ensures rest { KeepsRest bytes.old bytes.new }
{
    let range = stream.range(blocks);
    let mut inode = InodeMut::over(bytes);
    inode.set_direct(place, run);
    inode.set_max_direct_range(range);
}

/// Takes at most so many blocks from the end of the last direct run, and answers how many. The inode was read.
pub(crate) fn cut_direct<E: Edits>(
    stream: &Stream,
    bitmap: &mut Bitmap,
    edits: &mut E,
    bytes: &mut [u8],
    used: usize,
    most: u64,
) -> Result<u64, BlockFault>
    requires size { E.size edits.old ≡ stream.now.sizes.block_size }
    requires length { length bytes.old ≡ stream.now.sizes.block_size }
    requires volume { IsOfVolume stream.now.sizes bitmap.old }
    requires used { (1 ≤ used) × (used ≤ 12) }
    requires some { 1 ≤ most }
    ensures trimmed { (m : ℕ → Option (List ℕ)) → E.told edits.old ≡ Some m → Owns stream.now bitmap.old [] m → bytes.old ≡ contents m stream.now.id → used ≡ length (used_runs (stream_at bytes.old).direct) → HasNoArrays stream.now m → MayLose stream.now m most → IfOk result (λ n. HasCut stream.now bitmap.old bitmap.new m n (E.told edits.new) (E.changed edits.old) (E.changed edits.new)) }
    ensures sound { (m : ℕ → Option (List ℕ)) → E.told edits.old ≡ Some m → Owns stream.now bitmap.old [] m → bytes.old ≡ contents m stream.now.id → used ≡ length (used_runs (stream_at bytes.old).direct) → IfErr result (λ fault. ¬ IsDamage fault) }
    ensures some { IfOk result (λ n. 1 ≤ n) }
    ensures most { IfOk result (λ n. n ≤ most) }
    ensures rest { bitmap.new ≡ record bitmap.old { given = bitmap.new.given; tally = bitmap.new.tally } }
    ensures kept { as_kept bitmap.new ≡ as_kept bitmap.old }
    ensures standing { standing bitmap.new ≡ standing bitmap.old }
    ensures changed { (k : ℕ) → E.changed edits.new k ≡ true → (E.changed edits.old k ≡ true) ⊎ (IsBitmapBlock bitmap.old k ⊎ (k < stream.now.sizes.blocks)) }
    ensures stays { StaysChanged (E.changed edits.old) (E.changed edits.new) }
    ensures size { E.size edits.new ≡ E.size edits.old }
    ensures frame { E.frame edits.new ≡ E.frame edits.old }
    ensures later { AreLater (E.counts edits.old) (E.counts edits.new) }
    ensures cause { IfErr result (IsCauseIn (E.counts edits.old) (E.counts edits.new)) }
{
    stream.sizes();
    let id = stream.inode();
    let total = stream.ends(bytes).direct;
    let last = InodeView::over(bytes).direct(used - 1);
    if total > MOST_BLOCKS {
        return Err(BlockFault::Damaged { block: id });
    }
    if !stream.is_used(last) {
        return Err(BlockFault::Damaged { block: id });
    }
    let keep = shorter(last.len, most);
    let gone = last_part(stream, last, keep);
    let part = first_part(stream, last, keep);
    let left = less(total, u64::from(gone.len));
    put_last_direct(stream, bytes, used - 1, part, left);
    match edits.set(id, bytes) {
        Ok(()) => {}
        Err(_) => return Err(BlockFault::NoMemory),
    }
    match give(stream, bitmap, edits, gone) {
        Ok(()) => Ok(u64::from(gone.len)),
        Err(fault) => Err(fault),
    }
}

/// The run at a place of an array.
pub(crate) fn run_in<B: Blocks>(
    stream: &Stream,
    under: &mut B,
    bytes: &mut [u8],
    array: Run,
    place: u64,
) -> Result<Run, BlockFault>
    requires size { B.size under.old ≡ stream.now.sizes.block_size }
    requires length { length bytes.old ≡ stream.now.sizes.block_size }
    requires array { IsInVolume stream.now.sizes array }
    requires place { place < array.len * runs_per_block stream.now.sizes }
    ensures found { (m : ℕ → Option (List ℕ)) → B.told under.old ≡ Some m → AreTold m (run_blocks stream.now.sizes array) → IfOk result (λ run. slice_get (array_runs stream.now.sizes (contents m) array) place ≡ Some run) }
    ensures length { length bytes.new ≡ stream.now.sizes.block_size }
    ensures told { B.told under.new ≡ B.told under.old }
    ensures changed { B.changed under.new ≡ B.changed under.old }
    ensures size { B.size under.new ≡ B.size under.old }
    ensures frame { B.frame under.new ≡ B.frame under.old }
    ensures cause { IsCaused (B.counts under.old) (B.counts under.new) result }
{
    let runs = stream.runs_per_block();
    let block = stream.first_block(array) + place / runs;
    match under.get(block, bytes) {
        Ok(()) => {}
        Err(fault) => return Err(fault),
    }
    Ok(run_at(bytes, (8 * (place % runs)) as usize))
}

/// Takes at most so many blocks from the end of the last run in the indirect level's table, and answers how many.
pub(crate) fn cut_indirect<E: Edits>(
    stream: &Stream,
    bitmap: &mut Bitmap,
    edits: &mut E,
    bytes: &mut [u8],
    table: Table,
    most: u64,
) -> Result<u64, BlockFault>
    requires size { E.size edits.old ≡ stream.now.sizes.block_size }
    requires length { length bytes.old ≡ stream.now.sizes.block_size }
    requires volume { IsOfVolume stream.now.sizes bitmap.old }
    requires array { IsInVolume stream.now.sizes table.array }
    requires used { (1 ≤ table.used) × (table.used ≤ table.array.len * runs_per_block stream.now.sizes) }
    requires few { table.blocks ≤ 2 ^ 44 }
    requires some { 1 ≤ most }
    ensures trimmed { (m : ℕ → Option (List ℕ)) → E.told edits.old ≡ Some m → Owns stream.now bitmap.old [] m → IsTable stream.now m table → (fields stream.now.sizes (contents m) stream.now.id).double_indirect.len ≡ 0 → MayLose stream.now m most → IfOk result (λ n. HasCut stream.now bitmap.old bitmap.new m n (E.told edits.new) (E.changed edits.old) (E.changed edits.new)) }
    ensures sound { (m : ℕ → Option (List ℕ)) → E.told edits.old ≡ Some m → Owns stream.now bitmap.old [] m → IsTable stream.now m table → IfErr result (λ fault. ¬ IsDamage fault) }
    ensures some { IfOk result (λ n. 1 ≤ n) }
    ensures most { IfOk result (λ n. n ≤ most) }
    ensures length { length bytes.new ≡ stream.now.sizes.block_size }
    ensures rest { bitmap.new ≡ record bitmap.old { given = bitmap.new.given; tally = bitmap.new.tally } }
    ensures kept { as_kept bitmap.new ≡ as_kept bitmap.old }
    ensures standing { standing bitmap.new ≡ standing bitmap.old }
    ensures changed { (k : ℕ) → E.changed edits.new k ≡ true → (E.changed edits.old k ≡ true) ⊎ (IsBitmapBlock bitmap.old k ⊎ (k < stream.now.sizes.blocks)) }
    ensures stays { StaysChanged (E.changed edits.old) (E.changed edits.new) }
    ensures size { E.size edits.new ≡ E.size edits.old }
    ensures frame { E.frame edits.new ≡ E.frame edits.old }
    ensures later { AreLater (E.counts edits.old) (E.counts edits.new) }
    ensures cause { IfErr result (IsCauseIn (E.counts edits.old) (E.counts edits.new)) }
{
    stream.sizes();
    let id = stream.inode();
    let place = table.used - 1;
    let last = match run_in(stream, edits, bytes, table.array, place) {
        Ok(last) => last,
        Err(fault) => return Err(fault),
    };
    if !stream.is_used(last) {
        return Err(BlockFault::Damaged { block: id });
    }
    let keep = shorter(last.len, most);
    let gone = last_part(stream, last, keep);
    let part = first_part(stream, last, keep);
    match stream.put_in_array(edits, bytes, table.array, place, part) {
        Ok(()) => {}
        Err(fault) => return Err(fault),
    }
    let taken = u64::from(gone.len);
    let kept = u64::from(keep);
    let left = end_after(table.blocks, taken, place + kept);
    match stream.put_indirect_range(edits, bytes, left) {
        Ok(()) => {}
        Err(fault) => return Err(fault),
    }
    match give(stream, bitmap, edits, gone) {
        Ok(()) => Ok(taken),
        Err(fault) => Err(fault),
    }
}

/// The run at a place of the tables that an array lists.
pub(crate) fn run_below<B: Blocks>(
    stream: &Stream,
    under: &mut B,
    bytes: &mut [u8],
    array: Run,
    place: u64,
) -> Result<Run, BlockFault>
    requires size { B.size under.old ≡ stream.now.sizes.block_size }
    requires length { length bytes.old ≡ stream.now.sizes.block_size }
    requires array { IsWhole stream.now.sizes array }
    requires few { place / (array_length stream.now.sizes * runs_per_block stream.now.sizes) < array_length stream.now.sizes * runs_per_block stream.now.sizes }
    ensures found { (m : ℕ → Option (List ℕ)) → B.told under.old ≡ Some m → HasTables stream.now.sizes array m → place < length (table_runs stream.now.sizes (contents m) array) → IfOk result (λ run. slice_get (table_runs stream.now.sizes (contents m) array) place ≡ Some run) }
    ensures sound { (m : ℕ → Option (List ℕ)) → B.told under.old ≡ Some m → HasTables stream.now.sizes array m → (run : Run) → slice_get (table_runs stream.now.sizes (contents m) array) place ≡ Some run → IsWhole stream.now.sizes run → IfErr result (λ fault. ¬ IsDamage fault) }
    ensures whole { IfOk result (IsWhole stream.now.sizes) }
    ensures length { length bytes.new ≡ stream.now.sizes.block_size }
    ensures told { B.told under.new ≡ B.told under.old }
    ensures changed { B.changed under.new ≡ B.changed under.old }
    ensures size { B.size under.new ≡ B.size under.old }
    ensures frame { B.frame under.new ≡ B.frame under.old }
    ensures later { AreLater (B.counts under.old) (B.counts under.new) }
    ensures cause { IfErr result (IsCauseIn (B.counts under.old) (B.counts under.new)) }
{
    let per_table = stream.array_length() * stream.runs_per_block();
    let table = match stream.whole_run(under, bytes, array, place / per_table) {
        Ok(table) => table,
        Err(fault) => return Err(fault),
    };
    match stream.whole_run(under, bytes, table, place % per_table) {
        Ok(run) => Ok(run),
        Err(fault) => Err(fault),
    }
}

/// Takes the last run under double indirect, and answers how many blocks it had.
pub(crate) fn cut_below<E: Edits>(
    stream: &Stream,
    bitmap: &mut Bitmap,
    edits: &mut E,
    bytes: &mut [u8],
    tables: Tables,
) -> Result<u64, BlockFault>
    requires size { E.size edits.old ≡ stream.now.sizes.block_size }
    requires length { length bytes.old ≡ stream.now.sizes.block_size }
    requires volume { IsOfVolume stream.now.sizes bitmap.old }
    requires array { IsWhole stream.now.sizes tables.array }
    requires listed { tables.listed ≤ array_length stream.now.sizes * runs_per_block stream.now.sizes }
    requires used { (1 ≤ tables.used) × (tables.used ≤ tables.listed * (array_length stream.now.sizes * runs_per_block stream.now.sizes)) }
    requires few { tables.blocks ≤ 2 ^ 44 }
    ensures trimmed { (m : ℕ → Option (List ℕ)) → E.told edits.old ≡ Some m → Owns stream.now bitmap.old [] m → AreTables stream.now m tables → MayLose stream.now m (array_length stream.now.sizes) → IfOk result (λ n. HasCut stream.now bitmap.old bitmap.new m n (E.told edits.new) (E.changed edits.old) (E.changed edits.new)) }
    ensures sound { (m : ℕ → Option (List ℕ)) → E.told edits.old ≡ Some m → Owns stream.now bitmap.old [] m → AreTables stream.now m tables → IfErr result (λ fault. ¬ IsDamage fault) }
    ensures long { IfOk result (λ n. n ≡ array_length stream.now.sizes) }
    ensures length { length bytes.new ≡ stream.now.sizes.block_size }
    ensures rest { bitmap.new ≡ record bitmap.old { given = bitmap.new.given; tally = bitmap.new.tally } }
    ensures kept { as_kept bitmap.new ≡ as_kept bitmap.old }
    ensures standing { standing bitmap.new ≡ standing bitmap.old }
    ensures changed { (k : ℕ) → E.changed edits.new k ≡ true → (E.changed edits.old k ≡ true) ⊎ (IsBitmapBlock bitmap.old k ⊎ (k < stream.now.sizes.blocks)) }
    ensures stays { StaysChanged (E.changed edits.old) (E.changed edits.new) }
    ensures size { E.size edits.new ≡ E.size edits.old }
    ensures frame { E.frame edits.new ≡ E.frame edits.old }
    ensures later { AreLater (E.counts edits.old) (E.counts edits.new) }
    ensures cause { IfErr result (IsCauseIn (E.counts edits.old) (E.counts edits.new)) }
{
    let place = tables.used - 1;
    let last = match run_below(stream, edits, bytes, tables.array, place) {
        Ok(last) => last,
        Err(fault) => return Err(fault),
    };
    match stream.put_below(edits, bytes, tables.array, place, NO_RUN) {
        Ok(()) => {}
        Err(fault) => return Err(fault),
    }
    let taken = u64::from(last.len);
    let left = end_after(tables.blocks, taken, place);
    match stream.put_double_range(edits, bytes, left) {
        Ok(()) => {}
        Err(fault) => return Err(fault),
    }
    match give(stream, bitmap, edits, last) {
        Ok(()) => Ok(taken),
        Err(fault) => Err(fault),
    }
}

/// Up to which block a level reaches when so many blocks of the stream go: 0 where nothing of the level is left.
fn end_after(blocks: u64, gone: u64, left: u64) -> u64
    ensures some { 0 < left → result ≡ blocks - gone }
    ensures none { left ≡ 0 → result ≡ 0 }
    ensures few { result ≤ blocks }
{
    if left == 0 { 0 } else { less(blocks, gone) }
}

/// How many of a run's blocks are left when at most so many are taken.
fn shorter(len: u16, most: u64) -> u16
    requires { 1 ≤ most }
    ensures value { result ≡ len - most }
    ensures fewer { 0 < len → result < len }
    ensures enough { 0 < len → len - result ≤ most }
{
    if most < u64::from(len) {
        len - most as u16
    } else {
        0
    }
}
