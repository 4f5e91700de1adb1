// Finds room for a stream's next run, and adds it.
ghost use Rattle.std.specs.Prelude.{◌≡◌, ◌<◌, ◌≤◌, ◌⊎◌, ◌+◌, ◌-◌, ◌*◌, ◌/◌, ℕ, List, [], length, Option, Some, OnOk, IfOk, IfErr, true};
ghost use Rattle.bfs_txn.specs.Faults.{AreLater, IsCaused};
ghost use Rattle.bfs_inode.specs.Inode.{stream_at};
ghost use Rattle.bfs_bitmap.specs.Fills.{IsBitmapBlock};
ghost use Rattle.bfs_stream.specs.Sizes.{IsWhole, runs_per_block, array_length, table_length};
ghost use Rattle.bfs_stream.specs.Places.{fields, used_runs, array_runs};
ghost use Rattle.bfs_stream.specs.Told.{contents, Stands};
ghost use Rattle.bfs_stream.specs.Scans.{ends_of};
ghost use Rattle.bfs_stream.specs.Faults.{IsGrowCause, IsStepFault, IsGrowFault};
ghost use Rattle.bfs_stream.specs.Grown.{IsOfVolume, Owns, HasGrown, AreTables, HasArray, HasTable, HasGrownBy, UsesDouble, room_at};
ghost use Rattle.bfs_txn.specs.Told.{StaysChanged};

use crate::adding::{add_direct, add_double, add_indirect, open_double, open_indirect, open_table};
use bfs_bitmap::Bitmap;
use bfs_inode::InodeView;
use bfs_stream::{DIRECT, GrowFault, Stream, Tables, count_used, less};
use bfs_txn::{BlockFault, Blocks, Edits};

/// The tables with room for one more run: where they are full, the array lists one more.
fn with_room<E: Edits>(
    stream: &Stream,
    bitmap: &mut Bitmap,
    edits: &mut E,
    bytes: &mut [u8],
    tables: Tables,
) -> Result<Tables, GrowFault>
    requires size { E.size edits.old ≡ stream.now.sizes.block_size }
    requires length { length bytes.old ≡ stream.now.sizes.block_size }
    requires volume { IsOfVolume stream.now.sizes bitmap.old }
    requires array { IsWhole stream.now.sizes tables.array }
    requires listed { tables.listed ≤ array_length stream.now.sizes * runs_per_block stream.now.sizes }
    requires used { tables.used ≤ tables.listed * (array_length stream.now.sizes * runs_per_block stream.now.sizes) }
    ensures grown { (m : ℕ → Option (List ℕ)) → E.told edits.old ≡ Some m → Owns stream.now bitmap.old [] m → AreTables stream.now m tables → OnOk result (HasGrown stream.now bitmap.old bitmap.new m 0 (E.told edits.new) (E.changed edits.old) (E.changed edits.new)) }
    ensures faults { (m : ℕ → Option (List ℕ)) → E.told edits.old ≡ Some m → Owns stream.now bitmap.old [] m → AreTables stream.now m tables → IfErr result (IsStepFault stream.now bitmap.old m) }
    ensures ready { (m : ℕ → Option (List ℕ)) → E.told edits.old ≡ Some m → Owns stream.now bitmap.old [] m → AreTables stream.now m tables → IfOk result (λ t. (n : ℕ → Option (List ℕ)) → E.told edits.new ≡ Some n → AreTables stream.now n t) }
    ensures room { IfOk result (λ t. t.used < t.listed * (array_length stream.now.sizes * runs_per_block stream.now.sizes)) }
    ensures array { IfOk result (λ t. IsWhole stream.now.sizes t.array) }
    ensures few { IfOk result (λ t. (t.blocks ≡ tables.blocks) × (t.used ≡ tables.used)) }
    ensures listed { IfOk result (λ t. t.listed ≤ array_length stream.now.sizes * runs_per_block stream.now.sizes) }
    ensures length { length bytes.new ≡ stream.now.sizes.block_size }
    ensures rest { bitmap.new ≡ record bitmap.old { tally = bitmap.new.tally } }
    ensures changed { (k : ℕ) → E.changed edits.new k ≡ true → (E.changed edits.old k ≡ true) ⊎ (IsBitmapBlock bitmap.old k ⊎ (k < stream.now.sizes.blocks)) }
    ensures stays { StaysChanged (E.changed edits.old) (E.changed edits.new) }
    ensures size { E.size edits.new ≡ E.size edits.old }
    ensures frame { E.frame edits.new ≡ E.frame edits.old }
    ensures later { AreLater (E.counts edits.old) (E.counts edits.new) }
    ensures cause { IfErr result (IsGrowCause 1 (E.counts edits.old) (E.counts edits.new)) }
{
    let per_table = stream.array_length() * stream.runs_per_block();
    if tables.used < tables.listed * per_table {
        return Ok(tables);
    }
    if tables.listed >= per_table {
        return Err(GrowFault::Full { room: 0 });
    }
    match open_table(stream, bitmap, edits, bytes, tables.array, tables.listed) {
        Ok(()) => Ok(Tables {
            array: tables.array,
            listed: tables.listed + 1,
            used: tables.used,
            blocks: tables.blocks,
        }),
        Err(fault) => Err(fault),
    }
}

/// Adds a run under double indirect, whose array is there, and answers how many blocks it has.
fn add_below<E: Edits>(
    stream: &Stream,
    bitmap: &mut Bitmap,
    edits: &mut E,
    bytes: &mut [u8],
) -> Result<u64, GrowFault>
    requires size { E.size edits.old ≡ stream.now.sizes.block_size }
    requires length { length bytes.old ≡ stream.now.sizes.block_size }
    requires volume { IsOfVolume stream.now.sizes bitmap.old }
    ensures grown { (m : ℕ → Option (List ℕ)) → E.told edits.old ≡ Some m → Owns stream.now bitmap.old [] m → HasArray stream.now m → IfOk result (λ n. HasGrown stream.now bitmap.old bitmap.new m n (E.told edits.new) (E.changed edits.old) (E.changed edits.new)) }
    ensures uses { (m : ℕ → Option (List ℕ)) → E.told edits.old ≡ Some m → Owns stream.now bitmap.old [] m → HasArray stream.now m → OnOk result ((n : ℕ → Option (List ℕ)) → E.told edits.new ≡ Some n → UsesDouble stream.now n) }
    ensures faults { (m : ℕ → Option (List ℕ)) → E.told edits.old ≡ Some m → Owns stream.now bitmap.old [] m → HasArray stream.now m → IfErr result (IsStepFault stream.now bitmap.old m) }
    ensures most { IfOk result (λ n. n ≤ array_length stream.now.sizes) }
    ensures some { IfOk result (λ n. 1 ≤ n) }
    ensures length { length bytes.new ≡ stream.now.sizes.block_size }
    ensures rest { bitmap.new ≡ record bitmap.old { tally = bitmap.new.tally } }
    ensures changed { (k : ℕ) → E.changed edits.new k ≡ true → (E.changed edits.old k ≡ true) ⊎ (IsBitmapBlock bitmap.old k ⊎ (k < stream.now.sizes.blocks)) }
    ensures stays { StaysChanged (E.changed edits.old) (E.changed edits.new) }
    ensures size { E.size edits.new ≡ E.size edits.old }
    ensures frame { E.frame edits.new ≡ E.frame edits.old }
    ensures later { AreLater (E.counts edits.old) (E.counts edits.new) }
    ensures cause { IfErr result (IsGrowCause 1 (E.counts edits.old) (E.counts edits.new)) }
{
    let tables = match stream.tables(edits, bytes) {
        Ok(tables) => tables,
        Err(fault) => return Err(GrowFault::Block(fault)),
    };
    let ready = match with_room(stream, bitmap, edits, bytes, tables) {
        Ok(ready) => ready,
        Err(fault) => return Err(fault),
    };
    add_double(stream, bitmap, edits, bytes, ready)
}

/// Gives the indirect level an array, where it has none.
fn open_first<E: Edits>(
    stream: &Stream,
    bitmap: &mut Bitmap,
    edits: &mut E,
    bytes: &mut [u8],
) -> Result<(), GrowFault>
    requires size { E.size edits.old ≡ stream.now.sizes.block_size }
    requires length { length bytes.old ≡ stream.now.sizes.block_size }
    requires volume { IsOfVolume stream.now.sizes bitmap.old }
    ensures grown { (m : ℕ → Option (List ℕ)) → E.told edits.old ≡ Some m → Owns stream.now bitmap.old [] m → length (used_runs (fields stream.now.sizes (contents m) stream.now.id).direct) ≡ 12 → OnOk result (HasGrown stream.now bitmap.old bitmap.new m 0 (E.told edits.new) (E.changed edits.old) (E.changed edits.new)) }
    ensures faults { (m : ℕ → Option (List ℕ)) → E.told edits.old ≡ Some m → Owns stream.now bitmap.old [] m → length (used_runs (fields stream.now.sizes (contents m) stream.now.id).direct) ≡ 12 → IfErr result (IsStepFault stream.now bitmap.old m) }
    ensures ready { (m : ℕ → Option (List ℕ)) → E.told edits.old ≡ Some m → Owns stream.now bitmap.old [] m → length (used_runs (fields stream.now.sizes (contents m) stream.now.id).direct) ≡ 12 → OnOk result ((n : ℕ → Option (List ℕ)) → E.told edits.new ≡ Some n → HasTable stream.now n) }
    ensures length { length bytes.new ≡ stream.now.sizes.block_size }
    ensures rest { bitmap.new ≡ record bitmap.old { tally = bitmap.new.tally } }
    ensures changed { (k : ℕ) → E.changed edits.new k ≡ true → (E.changed edits.old k ≡ true) ⊎ (IsBitmapBlock bitmap.old k ⊎ (k < stream.now.sizes.blocks)) }
    ensures stays { StaysChanged (E.changed edits.old) (E.changed edits.new) }
    ensures size { E.size edits.new ≡ E.size edits.old }
    ensures frame { E.frame edits.new ≡ E.frame edits.old }
    ensures later { AreLater (E.counts edits.old) (E.counts edits.new) }
    ensures cause { IfErr result (IsGrowCause 1 (E.counts edits.old) (E.counts edits.new)) }
{
    stream.sizes();
    let id = stream.inode();
    match edits.get(id, bytes) {
        Ok(()) => {}
        Err(fault) => return Err(GrowFault::Block(fault)),
    }
    if InodeView::over(bytes).indirect().len > 0 {
        return Ok(());
    }
    match open_indirect(stream, bitmap, edits, bytes) {
        Ok(_) => Ok(()),
        Err(fault) => Err(fault),
    }
}

/// Gives the double indirect level an array, where it has none.
fn open_second<E: Edits>(
    stream: &Stream,
    bitmap: &mut Bitmap,
    edits: &mut E,
    bytes: &mut [u8],
) -> Result<(), GrowFault>
    requires size { E.size edits.old ≡ stream.now.sizes.block_size }
    requires length { length bytes.old ≡ stream.now.sizes.block_size }
    requires volume { IsOfVolume stream.now.sizes bitmap.old }
    ensures grown { (m : ℕ → Option (List ℕ)) → E.told edits.old ≡ Some m → Owns stream.now bitmap.old [] m → 0 < length (used_runs (array_runs stream.now.sizes (contents m) (fields stream.now.sizes (contents m) stream.now.id).indirect)) → length (used_runs (array_runs stream.now.sizes (contents m) (fields stream.now.sizes (contents m) stream.now.id).indirect)) ≡ length (array_runs stream.now.sizes (contents m) (fields stream.now.sizes (contents m) stream.now.id).indirect) → OnOk result (HasGrown stream.now bitmap.old bitmap.new m 0 (E.told edits.new) (E.changed edits.old) (E.changed edits.new)) }
    ensures faults { (m : ℕ → Option (List ℕ)) → E.told edits.old ≡ Some m → Owns stream.now bitmap.old [] m → 0 < length (used_runs (array_runs stream.now.sizes (contents m) (fields stream.now.sizes (contents m) stream.now.id).indirect)) → length (used_runs (array_runs stream.now.sizes (contents m) (fields stream.now.sizes (contents m) stream.now.id).indirect)) ≡ length (array_runs stream.now.sizes (contents m) (fields stream.now.sizes (contents m) stream.now.id).indirect) → IfErr result (IsStepFault stream.now bitmap.old m) }
    ensures ready { (m : ℕ → Option (List ℕ)) → E.told edits.old ≡ Some m → Owns stream.now bitmap.old [] m → 0 < length (used_runs (array_runs stream.now.sizes (contents m) (fields stream.now.sizes (contents m) stream.now.id).indirect)) → length (used_runs (array_runs stream.now.sizes (contents m) (fields stream.now.sizes (contents m) stream.now.id).indirect)) ≡ length (array_runs stream.now.sizes (contents m) (fields stream.now.sizes (contents m) stream.now.id).indirect) → OnOk result ((n : ℕ → Option (List ℕ)) → E.told edits.new ≡ Some n → HasArray stream.now n) }
    ensures length { length bytes.new ≡ stream.now.sizes.block_size }
    ensures rest { bitmap.new ≡ record bitmap.old { tally = bitmap.new.tally } }
    ensures changed { (k : ℕ) → E.changed edits.new k ≡ true → (E.changed edits.old k ≡ true) ⊎ (IsBitmapBlock bitmap.old k ⊎ (k < stream.now.sizes.blocks)) }
    ensures stays { StaysChanged (E.changed edits.old) (E.changed edits.new) }
    ensures size { E.size edits.new ≡ E.size edits.old }
    ensures frame { E.frame edits.new ≡ E.frame edits.old }
    ensures later { AreLater (E.counts edits.old) (E.counts edits.new) }
    ensures cause { IfErr result (IsGrowCause 1 (E.counts edits.old) (E.counts edits.new)) }
{
    stream.sizes();
    let id = stream.inode();
    match edits.get(id, bytes) {
        Ok(()) => {}
        Err(fault) => return Err(GrowFault::Block(fault)),
    }
    if InodeView::over(bytes).double_indirect().len > 0 {
        return Ok(());
    }
    match open_double(stream, bitmap, edits, bytes) {
        Ok(_) => Ok(()),
        Err(fault) => Err(fault),
    }
}

/// Adds a run behind the direct ones, where the indirect level has its array, and answers how many blocks it has.
fn add_behind<E: Edits>(
    stream: &Stream,
    bitmap: &mut Bitmap,
    edits: &mut E,
    bytes: &mut [u8],
    longest: u16,
) -> Result<u64, GrowFault>
    requires size { E.size edits.old ≡ stream.now.sizes.block_size }
    requires length { length bytes.old ≡ stream.now.sizes.block_size }
    requires volume { IsOfVolume stream.now.sizes bitmap.old }
    requires longest { 1 ≤ longest }
    ensures grown { (m : ℕ → Option (List ℕ)) → E.told edits.old ≡ Some m → Owns stream.now bitmap.old [] m → HasTable stream.now m → IfOk result (λ n. HasGrown stream.now bitmap.old bitmap.new m n (E.told edits.new) (E.changed edits.old) (E.changed edits.new)) }
    ensures exact { (m : ℕ → Option (List ℕ)) → E.told edits.old ≡ Some m → Owns stream.now bitmap.old [] m → HasTable stream.now m → IfOk result (λ added. (n : ℕ → Option (List ℕ)) → E.told edits.new ≡ Some n → (added ≤ longest) ⊎ UsesDouble stream.now n) }
    ensures faults { (m : ℕ → Option (List ℕ)) → E.told edits.old ≡ Some m → Owns stream.now bitmap.old [] m → HasTable stream.now m → IfErr result (IsStepFault stream.now bitmap.old m) }
    ensures most { IfOk result (λ n. n < longest + array_length stream.now.sizes) }
    ensures some { IfOk result (λ n. 1 ≤ n) }
    ensures length { length bytes.new ≡ stream.now.sizes.block_size }
    ensures rest { bitmap.new ≡ record bitmap.old { tally = bitmap.new.tally } }
    ensures changed { (k : ℕ) → E.changed edits.new k ≡ true → (E.changed edits.old k ≡ true) ⊎ (IsBitmapBlock bitmap.old k ⊎ (k < stream.now.sizes.blocks)) }
    ensures stays { StaysChanged (E.changed edits.old) (E.changed edits.new) }
    ensures size { E.size edits.new ≡ E.size edits.old }
    ensures frame { E.frame edits.new ≡ E.frame edits.old }
    ensures later { AreLater (E.counts edits.old) (E.counts edits.new) }
    ensures cause { IfErr result (IsGrowCause 1 (E.counts edits.old) (E.counts edits.new)) }
{
    let table = match stream.table(edits, bytes) {
        Ok(table) => table,
        Err(fault) => return Err(GrowFault::Block(fault)),
    };
    if table.used < u64::from(table.array.len) * stream.runs_per_block() {
        return add_indirect(stream, bitmap, edits, bytes, table, longest);
    }
    match open_second(stream, bitmap, edits, bytes) {
        Ok(()) => {}
        Err(fault) => return Err(fault),
    }
    add_below(stream, bitmap, edits, bytes)
}

/// Adds a run at the stream's end, with the arrays that it wants, and answers how many blocks it has.
pub(crate) fn add<E: Edits>(
    stream: &Stream,
    bitmap: &mut Bitmap,
    edits: &mut E,
    bytes: &mut [u8],
    longest: u16,
) -> Result<u64, GrowFault>
    requires size { E.size edits.old ≡ stream.now.sizes.block_size }
    requires length { length bytes.old ≡ stream.now.sizes.block_size }
    requires volume { IsOfVolume stream.now.sizes bitmap.old }
    requires longest { 1 ≤ longest }
    ensures grown { (m : ℕ → Option (List ℕ)) → E.told edits.old ≡ Some m → Owns stream.now bitmap.old [] m → IfOk result (λ n. HasGrown stream.now bitmap.old bitmap.new m n (E.told edits.new) (E.changed edits.old) (E.changed edits.new)) }
    ensures exact { (m : ℕ → Option (List ℕ)) → E.told edits.old ≡ Some m → Owns stream.now bitmap.old [] m → IfOk result (λ added. (n : ℕ → Option (List ℕ)) → E.told edits.new ≡ Some n → (added ≤ longest) ⊎ UsesDouble stream.now n) }
    ensures faults { (m : ℕ → Option (List ℕ)) → E.told edits.old ≡ Some m → Owns stream.now bitmap.old [] m → IfErr result (IsStepFault stream.now bitmap.old m) }
    ensures most { IfOk result (λ n. n < longest + array_length stream.now.sizes) }
    ensures some { IfOk result (λ n. 1 ≤ n) }
    ensures length { length bytes.new ≡ stream.now.sizes.block_size }
    ensures rest { bitmap.new ≡ record bitmap.old { tally = bitmap.new.tally } }
    ensures changed { (k : ℕ) → E.changed edits.new k ≡ true → (E.changed edits.old k ≡ true) ⊎ (IsBitmapBlock bitmap.old k ⊎ (k < stream.now.sizes.blocks)) }
    ensures stays { StaysChanged (E.changed edits.old) (E.changed edits.new) }
    ensures size { E.size edits.new ≡ E.size edits.old }
    ensures frame { E.frame edits.new ≡ E.frame edits.old }
    ensures later { AreLater (E.counts edits.old) (E.counts edits.new) }
    ensures cause { IfErr result (IsGrowCause 1 (E.counts edits.old) (E.counts edits.new)) }
{
    stream.sizes();
    let id = stream.inode();
    match edits.get(id, bytes) {
        Ok(()) => {}
        Err(fault) => return Err(GrowFault::Block(fault)),
    }
    let used = count_used(bytes, DIRECT, 12);
    if used < 12 {
        return add_direct(stream, bitmap, edits, bytes, used, longest);
    }
    match open_first(stream, bitmap, edits, bytes) {
        Ok(()) => {}
        Err(fault) => return Err(fault),
    }
    add_behind(stream, bitmap, edits, bytes, longest)
}

/// Adds runs at the stream's end until it has so many blocks more, or as few more than that as whole runs allow.
fn add_all<E: Edits>(
    stream: &Stream,
    bitmap: &mut Bitmap,
    edits: &mut E,
    bytes: &mut [u8],
    blocks: u64,
) -> Result<(), GrowFault>
    requires size { E.size edits.old ≡ stream.now.sizes.block_size }
    requires length { length bytes.old ≡ stream.now.sizes.block_size }
    requires volume { IsOfVolume stream.now.sizes bitmap.old }
    ensures grown { (m : ℕ → Option (List ℕ)) → E.told edits.old ≡ Some m → Owns stream.now bitmap.old [] m → OnOk result (HasGrownBy stream.now bitmap.old bitmap.new m blocks (E.told edits.new) (E.changed edits.old) (E.changed edits.new)) }
    ensures faults { (m : ℕ → Option (List ℕ)) → E.told edits.old ≡ Some m → Owns stream.now bitmap.old [] m → blocks ≤ room_at stream.now.sizes (contents m) stream.now.id → IfErr result (IsGrowFault stream.now bitmap.old m blocks) }
    ensures length { length bytes.new ≡ stream.now.sizes.block_size }
    ensures rest { bitmap.new ≡ record bitmap.old { tally = bitmap.new.tally } }
    ensures changed { (k : ℕ) → E.changed edits.new k ≡ true → (E.changed edits.old k ≡ true) ⊎ (IsBitmapBlock bitmap.old k ⊎ (k < stream.now.sizes.blocks)) }
    ensures stays { StaysChanged (E.changed edits.old) (E.changed edits.new) }
    ensures size { E.size edits.new ≡ E.size edits.old }
    ensures frame { E.frame edits.new ≡ E.frame edits.old }
    ensures later { AreLater (E.counts edits.old) (E.counts edits.new) }
    ensures cause { IfErr result (IsGrowCause blocks (E.counts edits.old) (E.counts edits.new)) }
{
    let mut left = blocks;
    while left > 0 {
        match add(stream, bitmap, edits, bytes, at_most(left)) {
            Ok(added) => left = less(left, added),
            Err(fault) => return Err(fault),
        }
    }
    Ok(())
}

/// How many blocks more the double indirect level can take, by the ranges in the inode.
fn room(stream: &Stream, bytes: &[u8]) -> u64
    requires { 1024 ≤ length bytes.now }
    ensures { result ≡ array_length stream.now.sizes * (table_length stream.now.sizes * table_length stream.now.sizes) - ((ends_of stream.now.sizes (stream_at bytes.now)).double - (ends_of stream.now.sizes (stream_at bytes.now)).indirect) }
{
    let ends = stream.ends(bytes);
    let runs = stream.table_length() * stream.table_length();
    less(
        stream.array_length() * runs,
        less(ends.double, ends.indirect),
    )
}

/// How many blocks more the double indirect level can take. It reads the inode.
pub fn room_left<B: Blocks>(stream: &mut Stream, under: &mut B) -> Result<u64, BlockFault>
    requires { B.size under.old ≡ stream.old.sizes.block_size }
    ensures room { (m : ℕ → Option (List ℕ)) → B.told under.old ≡ Some m → Stands stream.old m → IfOk result (λ room. room ≡ room_at stream.old.sizes (contents m) stream.old.id) }
    ensures same { stream.new ≡ stream.old }
    ensures told { B.told under.new ≡ B.told under.old }
    ensures changed { B.changed under.new ≡ B.changed under.old }
    ensures size { B.size under.new ≡ B.size under.old }
    ensures frame { B.frame under.new ≡ B.frame under.old }
    ensures cause { IsCaused (B.counts under.old) (B.counts under.new) result }
{
    stream.sizes();
    let id = stream.inode();
    let mut bytes = match stream.buffer() {
        Ok(bytes) => bytes,
        Err(_) => return Err(BlockFault::NoMemory),
    };
    match under.get(id, &mut bytes) {
        Ok(()) => Ok(room(stream, &bytes)),
        Err(fault) => Err(fault),
    }
}

/// Adds blocks at the stream's end, as few as hold so many more; under double indirect the last run stays whole. It
/// writes the stream's inode and its arrays, and the bitmap. What the new blocks hold is as it was, and the size in the
/// inode stays. After a fault the edits are to be dropped.
pub fn grow<E: Edits>(
    stream: &mut Stream,
    bitmap: &mut Bitmap,
    edits: &mut E,
    blocks: u64,
) -> Result<(), GrowFault>
    requires size { E.size edits.old ≡ stream.old.sizes.block_size }
    requires volume { IsOfVolume stream.old.sizes bitmap.old }
    ensures grown { (m : ℕ → Option (List ℕ)) → E.told edits.old ≡ Some m → Owns stream.old bitmap.old [] m → OnOk result (HasGrownBy stream.old bitmap.old bitmap.new m blocks (E.told edits.new) (E.changed edits.old) (E.changed edits.new)) }
    ensures faults { (m : ℕ → Option (List ℕ)) → E.told edits.old ≡ Some m → Owns stream.old bitmap.old [] m → IfErr result (IsGrowFault stream.old bitmap.old m blocks) }
    ensures same { stream.new ≡ stream.old }
    ensures rest { bitmap.new ≡ record bitmap.old { tally = bitmap.new.tally } }
    ensures changed { (k : ℕ) → E.changed edits.new k ≡ true → (E.changed edits.old k ≡ true) ⊎ (IsBitmapBlock bitmap.old k ⊎ (k < stream.old.sizes.blocks)) }
    ensures stays { StaysChanged (E.changed edits.old) (E.changed edits.new) }
    ensures size { E.size edits.new ≡ E.size edits.old }
    ensures frame { E.frame edits.new ≡ E.frame edits.old }
    ensures later { AreLater (E.counts edits.old) (E.counts edits.new) }
    ensures cause { IfErr result (IsGrowCause blocks (E.counts edits.old) (E.counts edits.new)) }
{
    stream.sizes();
    let id = stream.inode();
    let mut bytes = match stream.buffer() {
        Ok(bytes) => bytes,
        Err(_) => return Err(GrowFault::Block(BlockFault::NoMemory)),
    };
    match edits.get(id, &mut bytes) {
        Ok(()) => {}
        Err(fault) => return Err(GrowFault::Block(fault)),
    }
    let room = room(stream, &bytes);
    if room < blocks {
        return Err(GrowFault::Full { room });
    }
    add_all(stream, bitmap, edits, &mut bytes, blocks)
}

/// The longest run that is wanted for so many blocks.
fn at_most(blocks: u64) -> u16
    ensures some { 1 ≤ blocks → 1 ≤ result }
    ensures few { result ≤ blocks }
{
    if blocks < 65535 { blocks as u16 } else { 65535 }
}
