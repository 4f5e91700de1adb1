// Cuts a stream to its first blocks.
ghost use Rattle.std.specs.Prelude.{◌≡◌, ◌<◌, ◌≤◌, ◌⊎◌, ◌-◌, ◌*◌, ℕ, List, [], length, Option, Some, OnOk, IfOk, IfErr, true};
ghost use Rattle.bfs_super.specs.Conditions.{natural};
ghost use Rattle.bfs_txn.specs.Faults.{AreLater};
ghost use Rattle.bfs_bitmap.specs.Runs.{as_kept};
ghost use Rattle.bfs_bitmap.specs.Fills.{IsBitmapBlock};
ghost use Rattle.bfs_stream.specs.Sizes.{array_length};
ghost use Rattle.bfs_base.specs.Lists.{Has};
ghost use Rattle.bfs_stream.specs.Places.{fields, places_at, frame_at};
ghost use Rattle.bfs_stream.specs.Told.{contents};
ghost use Rattle.bfs_stream.specs.Scans.{IsDamage};
ghost use Rattle.bfs_stream.specs.Faults.{IsCauseIn};
ghost use Rattle.bfs_stream.specs.Grown.{IsOfVolume, Owns};
ghost use Rattle.bfs_stream.specs.Standing.{standing};
ghost use Rattle.bfs_stream.specs.Trimmed.{HasCut, HasSpare, HasNoEmpty, HasNoArrays, MayLose, IsAtEnd, HasTrimmedTo, LeavesGiven};
ghost use Rattle.bfs_txn.specs.Told.{StaysChanged};

use crate::cut::{cut_below, cut_direct, cut_indirect};
use crate::drop::drop_arrays;
use bfs_bitmap::Bitmap;
use bfs_inode::InodeView;
use bfs_stream::{DIRECT, Stream, count_used, less};
use bfs_txn::{BlockFault, Edits};

/// Takes at most so many blocks from the end of the direct level, behind which there are no arrays, and answers how many.
fn cut_first<E: Edits>(
    stream: &Stream,
    bitmap: &mut Bitmap,
    edits: &mut E,
    bytes: &mut [u8],
    most: u64,
) -> Result<u64, BlockFault>
    requires size { E.size edits.old ≡ stream.now.sizes.block_size }
    requires length { length bytes.old ≡ stream.now.sizes.block_size }
    requires volume { IsOfVolume stream.now.sizes bitmap.old }
    ensures trimmed { (m : ℕ → Option (List ℕ)) → E.told edits.old ≡ Some m → Owns stream.now bitmap.old [] m → HasNoArrays stream.now m → MayLose stream.now m most → IfOk result (λ n. HasCut stream.now bitmap.old bitmap.new m n (E.told edits.new) (E.changed edits.old) (E.changed edits.new)) }
    ensures done { (m : ℕ → Option (List ℕ)) → E.told edits.old ≡ Some m → Owns stream.now bitmap.old [] m → HasNoArrays stream.now m → IfOk result (λ n. (now : ℕ → Option (List ℕ)) → E.told edits.new ≡ Some now → n ≡ 0 → IsAtEnd stream.now m now most) }
    ensures sound { (m : ℕ → Option (List ℕ)) → E.told edits.old ≡ Some m → Owns stream.now bitmap.old [] m → HasNoArrays stream.now m → IfErr result (λ fault. ¬ IsDamage fault) }
    ensures most { IfOk result (λ n. n ≤ most) }
    ensures length { length bytes.new ≡ stream.now.sizes.block_size }
    ensures rest { bitmap.new ≡ record bitmap.old { given = bitmap.new.given; tally = bitmap.new.tally } }
    ensures kept { as_kept bitmap.new ≡ as_kept bitmap.old }
    ensures standing { standing bitmap.new ≡ standing bitmap.old }
    ensures changed { (k : ℕ) → E.changed edits.new k ≡ true → (E.changed edits.old k ≡ true) ⊎ (IsBitmapBlock bitmap.old k ⊎ (k < stream.now.sizes.blocks)) }
    ensures stays { StaysChanged (E.changed edits.old) (E.changed edits.new) }
    ensures size { E.size edits.new ≡ E.size edits.old }
    ensures frame { E.frame edits.new ≡ E.frame edits.old }
    ensures later { AreLater (E.counts edits.old) (E.counts edits.new) }
    ensures cause { IfErr result (IsCauseIn (E.counts edits.old) (E.counts edits.new)) }
{
    stream.sizes();
    let id = stream.inode();
    match edits.get(id, bytes) {
        Ok(()) => {}
        Err(fault) => return Err(fault),
    }
    let used = count_used(bytes, DIRECT, 12);
    if used == 0 {
        return Ok(0);
    }
    if most == 0 {
        return Ok(0);
    }
    match cut_direct(stream, bitmap, edits, bytes, used, most) {
        Ok(gone) => Ok(gone),
        Err(fault) => Err(fault),
    }
}

/// The same of the indirect level, which has an array.
fn cut_table<E: Edits>(
    stream: &Stream,
    bitmap: &mut Bitmap,
    edits: &mut E,
    bytes: &mut [u8],
    most: u64,
) -> Result<u64, BlockFault>
    requires size { E.size edits.old ≡ stream.now.sizes.block_size }
    requires length { length bytes.old ≡ stream.now.sizes.block_size }
    requires volume { IsOfVolume stream.now.sizes bitmap.old }
    ensures trimmed { (m : ℕ → Option (List ℕ)) → E.told edits.old ≡ Some m → Owns stream.now bitmap.old [] m → 0 < (fields stream.now.sizes (contents m) stream.now.id).indirect.len → (fields stream.now.sizes (contents m) stream.now.id).double_indirect.len ≡ 0 → MayLose stream.now m most → IfOk result (λ n. HasCut stream.now bitmap.old bitmap.new m n (E.told edits.new) (E.changed edits.old) (E.changed edits.new)) }
    ensures done { (m : ℕ → Option (List ℕ)) → E.told edits.old ≡ Some m → Owns stream.now bitmap.old [] m → 0 < (fields stream.now.sizes (contents m) stream.now.id).indirect.len → (fields stream.now.sizes (contents m) stream.now.id).double_indirect.len ≡ 0 → HasSpare stream.now m most → IfOk result (λ n. (now : ℕ → Option (List ℕ)) → E.told edits.new ≡ Some now → n ≡ 0 → IsAtEnd stream.now m now most) }
    ensures sound { (m : ℕ → Option (List ℕ)) → E.told edits.old ≡ Some m → Owns stream.now bitmap.old [] m → 0 < (fields stream.now.sizes (contents m) stream.now.id).indirect.len → (fields stream.now.sizes (contents m) stream.now.id).double_indirect.len ≡ 0 → IfErr result (λ fault. ¬ IsDamage fault) }
    ensures most { IfOk result (λ n. n ≤ most) }
    ensures length { length bytes.new ≡ stream.now.sizes.block_size }
    ensures rest { bitmap.new ≡ record bitmap.old { given = bitmap.new.given; tally = bitmap.new.tally } }
    ensures kept { as_kept bitmap.new ≡ as_kept bitmap.old }
    ensures standing { standing bitmap.new ≡ standing bitmap.old }
    ensures changed { (k : ℕ) → E.changed edits.new k ≡ true → (E.changed edits.old k ≡ true) ⊎ (IsBitmapBlock bitmap.old k ⊎ (k < stream.now.sizes.blocks)) }
    ensures stays { StaysChanged (E.changed edits.old) (E.changed edits.new) }
    ensures size { E.size edits.new ≡ E.size edits.old }
    ensures frame { E.frame edits.new ≡ E.frame edits.old }
    ensures later { AreLater (E.counts edits.old) (E.counts edits.new) }
    ensures cause { IfErr result (IsCauseIn (E.counts edits.old) (E.counts edits.new)) }
{
    let table = match stream.table(edits, bytes) {
        Ok(table) => table,
        Err(fault) => return Err(fault),
    };
    if table.used == 0 {
        return Ok(0);
    }
    if most == 0 {
        return Ok(0);
    }
    cut_indirect(stream, bitmap, edits, bytes, table, most)
}

/// The same of the levels before the double indirect one, which has no array.
fn cut_front<E: Edits>(
    stream: &Stream,
    bitmap: &mut Bitmap,
    edits: &mut E,
    bytes: &mut [u8],
    most: u64,
) -> Result<u64, BlockFault>
    requires size { E.size edits.old ≡ stream.now.sizes.block_size }
    requires length { length bytes.old ≡ stream.now.sizes.block_size }
    requires volume { IsOfVolume stream.now.sizes bitmap.old }
    ensures trimmed { (m : ℕ → Option (List ℕ)) → E.told edits.old ≡ Some m → Owns stream.now bitmap.old [] m → (fields stream.now.sizes (contents m) stream.now.id).double_indirect.len ≡ 0 → MayLose stream.now m most → IfOk result (λ n. HasCut stream.now bitmap.old bitmap.new m n (E.told edits.new) (E.changed edits.old) (E.changed edits.new)) }
    ensures done { (m : ℕ → Option (List ℕ)) → E.told edits.old ≡ Some m → Owns stream.now bitmap.old [] m → (fields stream.now.sizes (contents m) stream.now.id).double_indirect.len ≡ 0 → HasSpare stream.now m most → IfOk result (λ n. (now : ℕ → Option (List ℕ)) → E.told edits.new ≡ Some now → n ≡ 0 → IsAtEnd stream.now m now most) }
    ensures sound { (m : ℕ → Option (List ℕ)) → E.told edits.old ≡ Some m → Owns stream.now bitmap.old [] m → (fields stream.now.sizes (contents m) stream.now.id).double_indirect.len ≡ 0 → IfErr result (λ fault. ¬ IsDamage fault) }
    ensures most { IfOk result (λ n. n ≤ most) }
    ensures length { length bytes.new ≡ stream.now.sizes.block_size }
    ensures rest { bitmap.new ≡ record bitmap.old { given = bitmap.new.given; tally = bitmap.new.tally } }
    ensures kept { as_kept bitmap.new ≡ as_kept bitmap.old }
    ensures standing { standing bitmap.new ≡ standing bitmap.old }
    ensures changed { (k : ℕ) → E.changed edits.new k ≡ true → (E.changed edits.old k ≡ true) ⊎ (IsBitmapBlock bitmap.old k ⊎ (k < stream.now.sizes.blocks)) }
    ensures stays { StaysChanged (E.changed edits.old) (E.changed edits.new) }
    ensures size { E.size edits.new ≡ E.size edits.old }
    ensures frame { E.frame edits.new ≡ E.frame edits.old }
    ensures later { AreLater (E.counts edits.old) (E.counts edits.new) }
    ensures cause { IfErr result (IsCauseIn (E.counts edits.old) (E.counts edits.new)) }
{
    stream.sizes();
    let id = stream.inode();
    match edits.get(id, bytes) {
        Ok(()) => {}
        Err(fault) => return Err(fault),
    }
    if InodeView::over(bytes).indirect().len == 0 {
        return cut_first(stream, bitmap, edits, bytes, most);
    }
    cut_table(stream, bitmap, edits, bytes, most)
}

/// The same of the double indirect level, which has an array: whole runs alone.
fn cut_tables<E: Edits>(
    stream: &Stream,
    bitmap: &mut Bitmap,
    edits: &mut E,
    bytes: &mut [u8],
    most: u64,
) -> Result<u64, BlockFault>
    requires size { E.size edits.old ≡ stream.now.sizes.block_size }
    requires length { length bytes.old ≡ stream.now.sizes.block_size }
    requires volume { IsOfVolume stream.now.sizes bitmap.old }
    ensures trimmed { (m : ℕ → Option (List ℕ)) → E.told edits.old ≡ Some m → Owns stream.now bitmap.old [] m → 0 < (fields stream.now.sizes (contents m) stream.now.id).double_indirect.len → MayLose stream.now m most → IfOk result (λ n. HasCut stream.now bitmap.old bitmap.new m n (E.told edits.new) (E.changed edits.old) (E.changed edits.new)) }
    ensures done { (m : ℕ → Option (List ℕ)) → E.told edits.old ≡ Some m → Owns stream.now bitmap.old [] m → 0 < (fields stream.now.sizes (contents m) stream.now.id).double_indirect.len → HasSpare stream.now m most → IfOk result (λ n. (now : ℕ → Option (List ℕ)) → E.told edits.new ≡ Some now → n ≡ 0 → IsAtEnd stream.now m now most) }
    ensures sound { (m : ℕ → Option (List ℕ)) → E.told edits.old ≡ Some m → Owns stream.now bitmap.old [] m → 0 < (fields stream.now.sizes (contents m) stream.now.id).double_indirect.len → IfErr result (λ fault. ¬ IsDamage fault) }
    ensures most { IfOk result (λ n. n ≤ most) }
    ensures length { length bytes.new ≡ stream.now.sizes.block_size }
    ensures rest { bitmap.new ≡ record bitmap.old { given = bitmap.new.given; tally = bitmap.new.tally } }
    ensures kept { as_kept bitmap.new ≡ as_kept bitmap.old }
    ensures standing { standing bitmap.new ≡ standing bitmap.old }
    ensures changed { (k : ℕ) → E.changed edits.new k ≡ true → (E.changed edits.old k ≡ true) ⊎ (IsBitmapBlock bitmap.old k ⊎ (k < stream.now.sizes.blocks)) }
    ensures stays { StaysChanged (E.changed edits.old) (E.changed edits.new) }
    ensures size { E.size edits.new ≡ E.size edits.old }
    ensures frame { E.frame edits.new ≡ E.frame edits.old }
    ensures later { AreLater (E.counts edits.old) (E.counts edits.new) }
    ensures cause { IfErr result (IsCauseIn (E.counts edits.old) (E.counts edits.new)) }
{
    let tables = match stream.tables(edits, bytes) {
        Ok(tables) => tables,
        Err(fault) => return Err(fault),
    };
    if tables.used == 0 {
        return Ok(0);
    }
    if most < stream.array_length() {
        return Ok(0);
    }
    cut_below(stream, bitmap, edits, bytes, tables)
}

/// Takes at most so many blocks, all of one run, from the stream's end, and answers how many. The arrays stay.
fn cut<E: Edits>(
    stream: &Stream,
    bitmap: &mut Bitmap,
    edits: &mut E,
    bytes: &mut [u8],
    most: u64,
) -> Result<u64, BlockFault>
    requires size { E.size edits.old ≡ stream.now.sizes.block_size }
    requires length { length bytes.old ≡ stream.now.sizes.block_size }
    requires volume { IsOfVolume stream.now.sizes bitmap.old }
    ensures trimmed { (m : ℕ → Option (List ℕ)) → E.told edits.old ≡ Some m → Owns stream.now bitmap.old [] m → MayLose stream.now m most → IfOk result (λ n. HasCut stream.now bitmap.old bitmap.new m n (E.told edits.new) (E.changed edits.old) (E.changed edits.new)) }
    ensures done { (m : ℕ → Option (List ℕ)) → E.told edits.old ≡ Some m → Owns stream.now bitmap.old [] m → HasSpare stream.now m most → IfOk result (λ n. (now : ℕ → Option (List ℕ)) → E.told edits.new ≡ Some now → n ≡ 0 → IsAtEnd stream.now m now most) }
    ensures sound { (m : ℕ → Option (List ℕ)) → E.told edits.old ≡ Some m → Owns stream.now bitmap.old [] m → IfErr result (λ fault. ¬ IsDamage fault) }
    ensures most { IfOk result (λ n. n ≤ most) }
    ensures length { length bytes.new ≡ stream.now.sizes.block_size }
    ensures rest { bitmap.new ≡ record bitmap.old { given = bitmap.new.given; tally = bitmap.new.tally } }
    ensures kept { as_kept bitmap.new ≡ as_kept bitmap.old }
    ensures standing { standing bitmap.new ≡ standing bitmap.old }
    ensures changed { (k : ℕ) → E.changed edits.new k ≡ true → (E.changed edits.old k ≡ true) ⊎ (IsBitmapBlock bitmap.old k ⊎ (k < stream.now.sizes.blocks)) }
    ensures stays { StaysChanged (E.changed edits.old) (E.changed edits.new) }
    ensures size { E.size edits.new ≡ E.size edits.old }
    ensures frame { E.frame edits.new ≡ E.frame edits.old }
    ensures later { AreLater (E.counts edits.old) (E.counts edits.new) }
    ensures cause { IfErr result (IsCauseIn (E.counts edits.old) (E.counts edits.new)) }
{
    stream.sizes();
    let id = stream.inode();
    match edits.get(id, bytes) {
        Ok(()) => {}
        Err(fault) => return Err(fault),
    }
    if InodeView::over(bytes).double_indirect().len == 0 {
        return cut_front(stream, bitmap, edits, bytes, most);
    }
    cut_tables(stream, bitmap, edits, bytes, most)
}

/// Takes so many blocks from the stream's end, or as many as whole runs allow, where the arrays stay.
fn cut_all<E: Edits>(
    stream: &Stream,
    bitmap: &mut Bitmap,
    edits: &mut E,
    bytes: &mut [u8],
    blocks: u64,
) -> Result<(), BlockFault>
    requires size { E.size edits.old ≡ stream.now.sizes.block_size }
    requires length { length bytes.old ≡ stream.now.sizes.block_size }
    requires volume { IsOfVolume stream.now.sizes bitmap.old }
    ensures trimmed { (m : ℕ → Option (List ℕ)) → E.told edits.old ≡ Some m → Owns stream.now bitmap.old [] m → MayLose stream.now m blocks → HasSpare stream.now m blocks → blocks ≤ length (places_at stream.now.sizes (contents m) stream.now.id) → OnOk result ((to : HasTrimmedTo stream.now bitmap.old bitmap.new m (length (places_at stream.now.sizes (contents m) stream.now.id) - blocks) (E.told edits.new) (E.changed edits.old) (E.changed edits.new)) × ((k : ℕ) → Has (frame_at stream.now.sizes (contents m) stream.now.id) k → Has (frame_at stream.now.sizes (contents to.trimmed.map) stream.now.id) k) × HasNoEmpty stream.now to.trimmed.map) }
    ensures sound { (m : ℕ → Option (List ℕ)) → E.told edits.old ≡ Some m → Owns stream.now bitmap.old [] m → MayLose stream.now m blocks → HasSpare stream.now m blocks → IfErr result (λ fault. ¬ IsDamage fault) }
    ensures length { length bytes.new ≡ stream.now.sizes.block_size }
    ensures rest { bitmap.new ≡ record bitmap.old { given = bitmap.new.given; tally = bitmap.new.tally } }
    ensures kept { as_kept bitmap.new ≡ as_kept bitmap.old }
    ensures standing { standing bitmap.new ≡ standing bitmap.old }
    ensures changed { (k : ℕ) → E.changed edits.new k ≡ true → (E.changed edits.old k ≡ true) ⊎ (IsBitmapBlock bitmap.old k ⊎ (k < stream.now.sizes.blocks)) }
    ensures stays { StaysChanged (E.changed edits.old) (E.changed edits.new) }
    ensures size { E.size edits.new ≡ E.size edits.old }
    ensures frame { E.frame edits.new ≡ E.frame edits.old }
    ensures later { AreLater (E.counts edits.old) (E.counts edits.new) }
    ensures cause { IfErr result (IsCauseIn (E.counts edits.old) (E.counts edits.new)) }
{
    let mut left = blocks;
    loop {
        let gone = match cut(stream, bitmap, edits, bytes, left) {
            Ok(gone) => gone,
            Err(fault) => return Err(fault),
        };
        if gone == 0 {
            return Ok(());
        }
        left = less(left, gone);
    }
}

/// The same with the arrays that go.
fn cut_to<E: Edits>(
    stream: &Stream,
    bitmap: &mut Bitmap,
    edits: &mut E,
    bytes: &mut [u8],
    blocks: u64,
) -> Result<(), BlockFault>
    requires size { E.size edits.old ≡ stream.now.sizes.block_size }
    requires length { length bytes.old ≡ stream.now.sizes.block_size }
    requires volume { IsOfVolume stream.now.sizes bitmap.old }
    ensures trimmed { (m : ℕ → Option (List ℕ)) → E.told edits.old ≡ Some m → Owns stream.now bitmap.old [] m → MayLose stream.now m blocks → 0 < blocks → blocks ≤ length (places_at stream.now.sizes (contents m) stream.now.id) → OnOk result (HasTrimmedTo stream.now bitmap.old bitmap.new m (length (places_at stream.now.sizes (contents m) stream.now.id) - blocks) (E.told edits.new) (E.changed edits.old) (E.changed edits.new)) }
    ensures sound { (m : ℕ → Option (List ℕ)) → E.told edits.old ≡ Some m → Owns stream.now bitmap.old [] m → MayLose stream.now m blocks → blocks ≤ length (places_at stream.now.sizes (contents m) stream.now.id) → IfErr result (λ fault. ¬ IsDamage fault) }
    ensures length { length bytes.new ≡ stream.now.sizes.block_size }
    ensures rest { bitmap.new ≡ record bitmap.old { given = bitmap.new.given; tally = bitmap.new.tally } }
    ensures kept { as_kept bitmap.new ≡ as_kept bitmap.old }
    ensures standing { standing bitmap.new ≡ standing bitmap.old }
    ensures changed { (k : ℕ) → E.changed edits.new k ≡ true → (E.changed edits.old k ≡ true) ⊎ (IsBitmapBlock bitmap.old k ⊎ (k < stream.now.sizes.blocks)) }
    ensures stays { StaysChanged (E.changed edits.old) (E.changed edits.new) }
    ensures size { E.size edits.new ≡ E.size edits.old }
    ensures frame { E.frame edits.new ≡ E.frame edits.old }
    ensures later { AreLater (E.counts edits.old) (E.counts edits.new) }
    ensures cause { IfErr result (IsCauseIn (E.counts edits.old) (E.counts edits.new)) }
{
    match drop_arrays(stream, bitmap, edits, bytes, blocks) {
        Ok(gone) => cut_all(stream, bitmap, edits, bytes, less(blocks, gone)),
        Err(fault) => Err(fault),
    }
}

/// Cuts the stream to its first blocks, so many; under double indirect the last run stays whole. A stream that has no
/// more stays as it is. The runs that went, and the arrays that name nothing then, are given back as they were. It writes
/// the stream's inode and arrays that stay, and the bitmap; the size in the inode stays, and has to need no more than so
/// many blocks. After a fault the edits are to be dropped.
pub fn trim<E: Edits>(
    stream: &mut Stream,
    bitmap: &mut Bitmap,
    edits: &mut E,
    blocks: u64,
) -> Result<(), BlockFault>
    requires size { E.size edits.old ≡ stream.old.sizes.block_size }
    requires volume { IsOfVolume stream.old.sizes bitmap.old }
    ensures trimmed { (m : ℕ → Option (List ℕ)) → E.told edits.old ≡ Some m → Owns stream.old bitmap.old [] m → natural (fields stream.old.sizes (contents m) stream.old.id).size ≤ stream.old.sizes.block_size * blocks → OnOk result (HasTrimmedTo stream.old bitmap.old bitmap.new m blocks (E.told edits.new) (E.changed edits.old) (E.changed edits.new)) }
    ensures stays { (m : ℕ → Option (List ℕ)) → E.told edits.old ≡ Some m → Owns stream.old bitmap.old [] m → length (places_at stream.old.sizes (contents m) stream.old.id) ≤ blocks → (E.told edits.new ≡ E.told edits.old) × (E.changed edits.new ≡ E.changed edits.old) × (bitmap.new ≡ bitmap.old) }
    ensures given { (m : ℕ → Option (List ℕ)) → E.told edits.old ≡ Some m → Owns stream.old bitmap.old [] m → natural (fields stream.old.sizes (contents m) stream.old.id).size ≤ stream.old.sizes.block_size * blocks → OnOk result ((n : ℕ → Option (List ℕ)) → E.told edits.new ≡ Some n → LeavesGiven stream.old m n (E.changed edits.old) (E.changed edits.new)) }
    ensures faults { (m : ℕ → Option (List ℕ)) → E.told edits.old ≡ Some m → Owns stream.old bitmap.old [] m → natural (fields stream.old.sizes (contents m) stream.old.id).size ≤ stream.old.sizes.block_size * blocks → IfErr result (λ fault. ¬ IsDamage fault) }
    ensures same { stream.new ≡ stream.old }
    ensures rest { bitmap.new ≡ record bitmap.old { given = bitmap.new.given; tally = bitmap.new.tally } }
    ensures kept { as_kept bitmap.new ≡ as_kept bitmap.old }
    ensures standing { standing bitmap.new ≡ standing bitmap.old }
    ensures changed { (k : ℕ) → E.changed edits.new k ≡ true → (E.changed edits.old k ≡ true) ⊎ (IsBitmapBlock bitmap.old k ⊎ (k < stream.old.sizes.blocks)) }
    ensures still { StaysChanged (E.changed edits.old) (E.changed edits.new) }
    ensures size { E.size edits.new ≡ E.size edits.old }
    ensures frame { E.frame edits.new ≡ E.frame edits.old }
    ensures later { AreLater (E.counts edits.old) (E.counts edits.new) }
    ensures cause { IfErr result (IsCauseIn (E.counts edits.old) (E.counts edits.new)) }
{
    stream.sizes();
    let id = stream.inode();
    let mut bytes = match stream.buffer() {
        Ok(bytes) => bytes,
        Err(_) => return Err(BlockFault::NoMemory),
    };
    match edits.get(id, &mut bytes) {
        Ok(()) => {}
        Err(fault) => return Err(fault),
    }
    let total = stream.ends(&bytes).last();
    if total <= blocks {
        return Ok(());
    }
    cut_to(stream, bitmap, edits, &mut bytes, total - blocks)
}
