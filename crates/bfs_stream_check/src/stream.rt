// Reads a whole stream.
ghost use Rattle.std.specs.Prelude.{◌≡◌, ◌≢◌, ◌≤◌, ◌<◌, ◌↔◌, ◌+◌, ◌++◌, ◌^◌, IsTrue, ℕ, List, length, All, Option, Some, OnOk, IfOk, IfErr};
ghost use Rattle.bfs_inode.specs.Inode.{stream_at};
ghost use Rattle.bfs_super.specs.Conditions.{IsValid, natural};
ghost use Rattle.bfs_txn.specs.Faults.{AreLater};
ghost use Rattle.bfs_stream.specs.Sizes.{Sizes, HasSizes, IsInVolume, sizes_of};
ghost use Rattle.bfs_stream.specs.Places.{HasLevels, HasStream, blocks_of, levels_at, places_at, arrays_at};
ghost use Rattle.bfs_stream.specs.Told.{contents};
ghost use Rattle.bfs_stream_check.specs.Known.{IsAllTold};
ghost use Rattle.bfs_stream_check.specs.Read.{sizes_in, HasRanges, IsRangeFault, IsLevelsFault, IsReadCause, IsOfBlock, AreRead, AreRunsIn, own_run};

use crate::bounds::{Bounds, bytes_of, end_of};
use crate::count::count_blocks;
use crate::level::{Level, read_direct, read_double, read_indirect};
use crate::{ReadFault, Wrong};
use bfs_bytes::Run;
use bfs_inode::InodeView;
use bfs_super::Super;
use bfs_txn::{BlockFault, Blocks};
use std::alloc::Global;

/// What a stream is: the runs of its array blocks, and the runs of its blocks, in order. No run is empty.
#[derive(Drop)]
pub struct StreamRuns {
    pub arrays: Vec<Run>,
    pub runs: Vec<Run>,
}

/// The runs of each level that are used, and the arrays that the array of the double indirect level lists.
#[derive(Drop)]
pub struct LevelRuns {
    pub direct: Vec<Run>,
    pub indirect: Vec<Run>,
    pub arrays: Vec<Run>,
    pub double: Vec<Run>,
}

/// How many blocks each level has.
#[derive(Clone, Copy)]
pub struct BlockCounts {
    pub direct: u64,
    pub indirect: u64,
    pub double: u64,
}

/// Is a value the one that is wanted?
fn expect(found: i64, wanted: i64) -> Result<(), Wrong>
    ensures same { OnOk result (found ≡ wanted) }
    ensures wrong { IfErr result (λ w. (w.found ≡ found) × (w.wanted ≡ wanted) × (found ≢ wanted)) }
{
    if found == wanted {
        Ok(())
    } else {
        Err(Wrong { found, wanted })
    }
}

/// Are the ranges in an inode those of levels with so many blocks, and is the size one that they can hold?
fn check_ranges(bounds: Bounds, inode: &[u8], counts: BlockCounts) -> Result<(), Wrong>
    requires sizes { HasSizes (sizes_in bounds) }
    requires inode { 1024 ≤ length inode.now }
    requires few { (counts.direct < 2 ^ 43) × (counts.indirect < 2 ^ 43) × (counts.double < 2 ^ 43) }
    ensures sound { OnOk result (HasRanges (sizes_in bounds) (stream_at inode.now) counts.direct counts.indirect counts.double) }
    ensures wrong { IfErr result (λ w. IsRangeFault (sizes_in bounds) (stream_at inode.now) counts.direct counts.indirect counts.double w.found w.wanted) }
{
    let view = InodeView::over(inode);
    match expect(view.max_direct_range(), bytes_of(bounds, counts.direct)) {
        Ok(()) => {}
        Err(wrong) => return Err(wrong),
    }
    let indirect = end_of(counts.direct, counts.indirect);
    match expect(view.max_indirect_range(), bytes_of(bounds, indirect)) {
        Ok(()) => {}
        Err(wrong) => return Err(wrong),
    }
    let double = end_of(counts.direct + counts.indirect, counts.double);
    match expect(view.max_double_indirect_range(), bytes_of(bounds, double)) {
        Ok(()) => {}
        Err(wrong) => return Err(wrong),
    }
    let most = bytes_of(bounds, counts.direct + counts.indirect + counts.double);
    let size = view.size();
    if size < 0 || most < size {
        return Err(Wrong {
            found: size,
            wanted: most,
        });
    }
    Ok(())
}

/// Has the level runs, and are these all that it has room for?
fn is_ready(level: &Level) -> bool
    ensures { IsTrue result ↔ (IsTrue level.now.full × (0 < length level.now.runs.items)) }
{
    level.full && level.runs.len() > 0
}

/// How many blocks these runs of the levels have.
fn counts_of(direct: &[Run], indirect: &[Run], double: &[Run]) -> BlockCounts
    requires few { (length direct.now ≤ 12) × (length indirect.now ≤ 67107840) × (length double.now ≤ 1048576) }
    ensures direct { (s : Sizes) → result.direct ≡ length (blocks_of s direct.now) }
    ensures indirect { (s : Sizes) → result.indirect ≡ length (blocks_of s indirect.now) }
    ensures double { (s : Sizes) → result.double ≡ length (blocks_of s double.now) }
    ensures few { (result.direct < 2 ^ 43) × (result.indirect < 2 ^ 43) × (result.double < 2 ^ 43) }
{
    BlockCounts {
        direct: count_blocks(direct),
        indirect: count_blocks(indirect),
        double: count_blocks(double),
    }
}

/// Reads the levels of the stream whose inode has these bytes.
fn read_levels<B: Blocks>(
    alloc: Global,
    bounds: Bounds,
    under: &mut B,
    inode: &[u8],
    bytes: &mut [u8],
) -> Result<LevelRuns, ReadFault>
    requires sizes { HasSizes (sizes_in bounds) }
    requires inode { 1024 ≤ length inode.now }
    requires size { B.size under.old ≡ bounds.block_size }
    requires length { length bytes.old ≡ bounds.block_size }
    ensures sound { (m : ℕ → Option (List ℕ)) → B.told under.old ≡ Some m → IsAllTold (sizes_in bounds) m → (id : ℕ) → inode.now ≡ contents m id → OnOk result (HasLevels (sizes_in bounds) (levels_at (sizes_in bounds) (contents m) id)) }
    ensures read { (m : ℕ → Option (List ℕ)) → B.told under.old ≡ Some m → IsAllTold (sizes_in bounds) m → (id : ℕ) → inode.now ≡ contents m id → IfOk result (AreRead (levels_at (sizes_in bounds) (contents m) id)) }
    ensures inside { IfOk result (AreRunsIn (sizes_in bounds) (stream_at inode.now)) }
    ensures wrong { (m : ℕ → Option (List ℕ)) → B.told under.old ≡ Some m → IsAllTold (sizes_in bounds) m → (id : ℕ) → inode.now ≡ contents m id → IfErr result (IsLevelsFault (sizes_in bounds) (levels_at (sizes_in bounds) (contents m) id)) }
    ensures told { B.told under.new ≡ B.told under.old }
    ensures changed { B.changed under.new ≡ B.changed under.old }
    ensures pairs { B.pairs under.new ≡ B.pairs under.old }
    ensures size { B.size under.new ≡ B.size under.old }
    ensures frame { B.frame under.new ≡ B.frame under.old }
    ensures later { AreLater (B.counts under.old) (B.counts under.new) }
    ensures cause { IfErr result (IsReadCause (B.counts under.old) (B.counts under.new)) }
{
    let view = InodeView::over(inode);
    let direct = match read_direct(alloc, bounds, inode) {
        Ok(level) => level,
        Err(fault) => return Err(fault),
    };
    let array = view.indirect();
    let indirect = match read_indirect(alloc, bounds, under, bytes, array, direct.full) {
        Ok(level) => level,
        Err(fault) => return Err(fault),
    };
    let ready = is_ready(&indirect);
    let array = view.double_indirect();
    let double = match read_double(alloc, bounds, under, bytes, array, ready) {
        Ok(level) => level,
        Err(fault) => return Err(fault),
    };
    let counts = counts_of(&direct.runs, &indirect.runs, &double.runs);
    match check_ranges(bounds, inode, counts) {
        Ok(()) => Ok(LevelRuns {
            direct: direct.runs,
            indirect: indirect.runs,
            arrays: double.arrays,
            double: double.runs,
        }),
        Err(wrong) => Err(ReadFault::Wrong(wrong)),
    }
}

/// Puts a run behind others, unless it has no blocks.
fn push_array(into: &mut Vec<Run>, array: Run) -> Result<(), ReadFault>
    ensures items { OnOk result (into.new.items ≡ into.old.items ++ own_run array) }
    ensures fault { IfErr result (λ fault. fault ≡ ReadFault.Block BlockFault.NoMemory) }
{
    if array.len == 0 {
        return Ok(());
    }
    match into.push(array) {
        Ok(()) => Ok(()),
        Err(_) => Err(ReadFault::Block(BlockFault::NoMemory)),
    }
}

/// Puts runs behind others.
fn push_runs(into: &mut Vec<Run>, runs: &[Run]) -> Result<(), ReadFault>
    ensures items { OnOk result (into.new.items ≡ into.old.items ++ runs.now) }
    ensures fault { IfErr result (λ fault. fault ≡ ReadFault.Block BlockFault.NoMemory) }
{
    match into.extend_from_slice(runs) {
        Ok(()) => Ok(()),
        Err(_) => Err(ReadFault::Block(BlockFault::NoMemory)),
    }
}

/// The runs of all levels together.
fn join(alloc: Global, inode: &[u8], levels: LevelRuns) -> Result<StreamRuns, ReadFault>
    requires { 1024 ≤ length inode.now }
    ensures arrays { IfOk result (λ all. all.arrays.items ≡ own_run (stream_at inode.now).indirect ++ own_run (stream_at inode.now).double_indirect ++ levels.arrays.items) }
    ensures runs { IfOk result (λ all. all.runs.items ≡ levels.direct.items ++ levels.indirect.items ++ levels.double.items) }
    ensures fault { IfErr result (λ fault. fault ≡ ReadFault.Block BlockFault.NoMemory) }
{
    let view = InodeView::over(inode);
    let mut arrays = Vec::new(alloc);
    match push_array(&mut arrays, view.indirect()) {
        Ok(()) => {}
        Err(fault) => return Err(fault),
    }
    match push_array(&mut arrays, view.double_indirect()) {
        Ok(()) => {}
        Err(fault) => return Err(fault),
    }
    match push_runs(&mut arrays, &levels.arrays) {
        Ok(()) => {}
        Err(fault) => return Err(fault),
    }
    let mut runs = levels.direct;
    match push_runs(&mut runs, &levels.indirect) {
        Ok(()) => {}
        Err(fault) => return Err(fault),
    }
    match push_runs(&mut runs, &levels.double) {
        Ok(()) => Ok(StreamRuns { arrays, runs }),
        Err(fault) => Err(fault),
    }
}

/// Reads the stream whose inode has these bytes.
fn read_whole<B: Blocks>(
    alloc: Global,
    bounds: Bounds,
    under: &mut B,
    inode: &[u8],
    bytes: &mut [u8],
) -> Result<StreamRuns, ReadFault>
    requires sizes { HasSizes (sizes_in bounds) }
    requires inode { 1024 ≤ length inode.now }
    requires size { B.size under.old ≡ bounds.block_size }
    requires length { length bytes.old ≡ bounds.block_size }
    ensures sound { (m : ℕ → Option (List ℕ)) → B.told under.old ≡ Some m → IsAllTold (sizes_in bounds) m → (id : ℕ) → inode.now ≡ contents m id → OnOk result (HasStream (sizes_in bounds) (contents m) id) }
    ensures arrays { (m : ℕ → Option (List ℕ)) → B.told under.old ≡ Some m → IsAllTold (sizes_in bounds) m → (id : ℕ) → inode.now ≡ contents m id → IfOk result (λ all. blocks_of (sizes_in bounds) all.arrays.items ≡ arrays_at (sizes_in bounds) (contents m) id) }
    ensures places { (m : ℕ → Option (List ℕ)) → B.told under.old ≡ Some m → IsAllTold (sizes_in bounds) m → (id : ℕ) → inode.now ≡ contents m id → IfOk result (λ all. blocks_of (sizes_in bounds) all.runs.items ≡ places_at (sizes_in bounds) (contents m) id) }
    ensures arrays_inside { IfOk result (λ all. All (IsInVolume (sizes_in bounds)) all.arrays.items) }
    ensures runs_inside { IfOk result (λ all. All (IsInVolume (sizes_in bounds)) all.runs.items) }
    ensures wrong { (m : ℕ → Option (List ℕ)) → B.told under.old ≡ Some m → IsAllTold (sizes_in bounds) m → (id : ℕ) → inode.now ≡ contents m id → IfErr result (IsLevelsFault (sizes_in bounds) (levels_at (sizes_in bounds) (contents m) id)) }
    ensures kept { (m : ℕ → Option (List ℕ)) → B.told under.old ≡ Some m → IsAllTold (sizes_in bounds) m → (id : ℕ) → inode.now ≡ contents m id → HasStream (sizes_in bounds) (contents m) id → IfErr result IsOfBlock }
    ensures told { B.told under.new ≡ B.told under.old }
    ensures changed { B.changed under.new ≡ B.changed under.old }
    ensures pairs { B.pairs under.new ≡ B.pairs under.old }
    ensures size { B.size under.new ≡ B.size under.old }
    ensures frame { B.frame under.new ≡ B.frame under.old }
    ensures later { AreLater (B.counts under.old) (B.counts under.new) }
    ensures cause { IfErr result (IsReadCause (B.counts under.old) (B.counts under.new)) }
{
    match read_levels(alloc, bounds, under, inode, bytes) {
        Ok(levels) => join(alloc, inode, levels),
        Err(fault) => Err(fault),
    }
}

/// Reads what the stream of the inode at a block is, and nothing of its content. Answers its runs exactly where it keeps its format, and
/// else a value that breaks it. Beside two blocks it takes the memory of the runs.
pub fn read_stream<B: Blocks>(
    alloc: Global,
    under: &mut B,
    inode: u64,
    sup: &Super,
) -> Result<StreamRuns, ReadFault>
    requires valid { IsValid sup.now }
    requires inside { inode < natural sup.now.num_blocks }
    requires size { B.size under.old ≡ sup.now.block_size }
    ensures sound { (m : ℕ → Option (List ℕ)) → B.told under.old ≡ Some m → IsAllTold (sizes_of sup.now) m → OnOk result (HasStream (sizes_of sup.now) (contents m) inode) }
    ensures arrays { (m : ℕ → Option (List ℕ)) → B.told under.old ≡ Some m → IsAllTold (sizes_of sup.now) m → IfOk result (λ all. blocks_of (sizes_of sup.now) all.arrays.items ≡ arrays_at (sizes_of sup.now) (contents m) inode) }
    ensures places { (m : ℕ → Option (List ℕ)) → B.told under.old ≡ Some m → IsAllTold (sizes_of sup.now) m → IfOk result (λ all. blocks_of (sizes_of sup.now) all.runs.items ≡ places_at (sizes_of sup.now) (contents m) inode) }
    ensures arrays_inside { IfOk result (λ all. All (IsInVolume (sizes_of sup.now)) all.arrays.items) }
    ensures runs_inside { IfOk result (λ all. All (IsInVolume (sizes_of sup.now)) all.runs.items) }
    ensures wrong { (m : ℕ → Option (List ℕ)) → B.told under.old ≡ Some m → IsAllTold (sizes_of sup.now) m → IfErr result (IsLevelsFault (sizes_of sup.now) (levels_at (sizes_of sup.now) (contents m) inode)) }
    ensures kept { (m : ℕ → Option (List ℕ)) → B.told under.old ≡ Some m → IsAllTold (sizes_of sup.now) m → HasStream (sizes_of sup.now) (contents m) inode → IfErr result IsOfBlock }
    ensures told { B.told under.new ≡ B.told under.old }
    ensures changed { B.changed under.new ≡ B.changed under.old }
    ensures pairs { B.pairs under.new ≡ B.pairs under.old }
    ensures size { B.size under.new ≡ B.size under.old }
    ensures frame { B.frame under.new ≡ B.frame under.old }
    ensures later { AreLater (B.counts under.old) (B.counts under.new) }
    ensures cause { IfErr result (IsReadCause (B.counts under.old) (B.counts under.new)) }
{
    let bounds = Bounds::of(sup);
    let mut block = match vec![in alloc; 0u8; bounds.block_size as usize] {
        Ok(block) => block,
        Err(_) => return Err(ReadFault::Block(BlockFault::NoMemory)),
    };
    let mut bytes = match vec![in alloc; 0u8; bounds.block_size as usize] {
        Ok(bytes) => bytes,
        Err(_) => return Err(ReadFault::Block(BlockFault::NoMemory)),
    };
    match under.get(inode, &mut block) {
        Ok(()) => {}
        Err(fault) => return Err(ReadFault::Block(fault)),
    }
    read_whole(alloc, bounds, under, &block, &mut bytes)
}
