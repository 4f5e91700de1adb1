// Reads the three levels of a stream.
ghost use Rattle.std.specs.Prelude.{◌≡◌, ◌≢◌, ◌≤◌, ◌⊎◌, ◌↔◌, IsTrue, ℕ, [], List, length, All, Option, Some, OnOk, IfOk, IfErr, pos, true, false};
ghost use Rattle.std.specs.List.{flat_map};
ghost use Rattle.bfs_inode.specs.Inode.{stream_at};
ghost use Rattle.bfs_txn.specs.Faults.{Counts, AreLater};
ghost use Rattle.bfs_stream.specs.Sizes.{HasSizes};
ghost use Rattle.bfs_stream.specs.Places.{Levels, used_runs, array_runs};
ghost use Rattle.bfs_stream.specs.Told.{contents};
ghost use Rattle.bfs_stream_check.specs.Known.{IsAllTold};
ghost use Rattle.bfs_stream_check.specs.Read.{sizes_in, IsRunOf, IsRunFault, IsRunsFault, IsLevelsFault, IsReadCause, IsTaken, IsArray};

use crate::array::{read_array, read_arrays};
use crate::bounds::{Bounds, check_run};
use crate::take::take_runs;
use crate::{ReadFault, Wrong};
use bfs_bytes::Run;
use bfs_txn::Blocks;
use std::alloc::Global;

/// The runs of the direct or the indirect level that are used, and whether these are all that it has room for.
#[derive(Drop)]
pub struct Level {
    pub runs: Vec<Run>,
    pub full: bool,
}

/// The arrays that the array of the double indirect level lists, and the runs that stand in these, as far as they are used.
#[derive(Drop)]
pub struct Double {
    pub arrays: Vec<Run>,
    pub runs: Vec<Run>,
}

/// Reads the direct level in an inode.
pub(crate) fn read_direct(alloc: Global, bounds: Bounds, inode: &[u8]) -> Result<Level, ReadFault>
    requires sizes { HasSizes (sizes_in bounds) }
    requires inode { 1024 ≤ length inode.now }
    ensures taken { IfOk result (λ level. IsTaken (stream_at inode.now).direct [] level.runs.items level.full) }
    ensures sound { IfOk result (λ level. All (IsRunOf (sizes_in bounds) false) level.runs.items) }
    ensures few { IfOk result (λ level. length level.runs.items ≤ 12) }
    ensures wrong { IfErr result (IsRunsFault (sizes_in bounds) false (used_runs (stream_at inode.now).direct)) }
    ensures cause { (old new : Counts) → IfErr result (IsReadCause old new) }
{
    let mut runs = Vec::new(alloc);
    match take_runs(bounds, inode, 72, 12, false, &mut runs) {
        Ok(full) => Ok(Level { runs, full }),
        Err(fault) => Err(fault),
    }
}

/// Has the level behind one that is full or not an array? It is wrong where it is used too early, or where its array leaves the
/// volume or, where `whole` asks for that, isn't as long as an array is written.
fn has_array(bounds: Bounds, array: Run, whole: bool, before: bool) -> Result<bool, Wrong>
    requires sizes { HasSizes (sizes_in bounds) }
    ensures some { IfOk result (λ some. IsTrue some ↔ (array.len ≢ 0)) }
    ensures sound { OnOk result (IsArray (sizes_in bounds) whole before array) }
    ensures wrong { IfErr result (λ w. (array.len ≢ 0) × (((before ≡ false) × (w.found ≡ pos array.len) × (w.wanted ≡ pos 0)) ⊎ IsRunFault (sizes_in bounds) whole array w.found w.wanted)) }
{
    if array.len == 0 {
        return Ok(false);
    }
    if !before {
        return Err(Wrong {
            found: i64::from(array.len),
            wanted: 0,
        });
    }
    match check_run(bounds, array, whole) {
        Ok(()) => Ok(true),
        Err(wrong) => Err(wrong),
    }
}

/// Reads the indirect level by its array. `before` says whether the direct level is full.
pub(crate) fn read_indirect<B: Blocks>(
    alloc: Global,
    bounds: Bounds,
    under: &mut B,
    bytes: &mut [u8],
    array: Run,
    before: bool,
) -> Result<Level, ReadFault>
    requires sizes { HasSizes (sizes_in bounds) }
    requires size { B.size under.old ≡ bounds.block_size }
    requires length { length bytes.old ≡ bounds.block_size }
    ensures array { OnOk result (IsArray (sizes_in bounds) false before array) }
    ensures taken { (m : ℕ → Option (List ℕ)) → B.told under.old ≡ Some m → IsAllTold (sizes_in bounds) m → IfOk result (λ level. IsTaken (array_runs (sizes_in bounds) (contents m) array) [] level.runs.items level.full) }
    ensures sound { IfOk result (λ level. All (IsRunOf (sizes_in bounds) false) level.runs.items) }
    ensures few { IfOk result (λ level. length level.runs.items ≤ 67107840) }
    ensures wrong { (m : ℕ → Option (List ℕ)) → B.told under.old ≡ Some m → IsAllTold (sizes_in bounds) m → (l : Levels) → l.stream.indirect ≡ array → l.table ≡ array_runs (sizes_in bounds) (contents m) array → (before ≡ false → length (used_runs l.stream.direct) ≢ 12) → IfErr result (IsLevelsFault (sizes_in bounds) l) }
    ensures length { length bytes.new ≡ bounds.block_size }
    ensures told { B.told under.new ≡ B.told under.old }
    ensures changed { B.changed under.new ≡ B.changed under.old }
    ensures pairs { B.pairs under.new ≡ B.pairs under.old }
    ensures size { B.size under.new ≡ B.size under.old }
    ensures frame { B.frame under.new ≡ B.frame under.old }
    ensures later { AreLater (B.counts under.old) (B.counts under.new) }
    ensures cause { IfErr result (IsReadCause (B.counts under.old) (B.counts under.new)) }
{
    let mut runs = Vec::new(alloc);
    match has_array(bounds, array, false, before) {
        Ok(some) => {
            if !some {
                return Ok(Level { runs, full: true });
            }
        }
        Err(wrong) => return Err(ReadFault::Wrong(wrong)),
    }
    match read_array(bounds, under, bytes, array, false, &mut runs) {
        Ok(full) => Ok(Level { runs, full }),
        Err(fault) => Err(fault),
    }
}

/// Reads the double indirect level by its array. `before` says whether the indirect level has runs and is full.
pub(crate) fn read_double<B: Blocks>(
    alloc: Global,
    bounds: Bounds,
    under: &mut B,
    bytes: &mut [u8],
    array: Run,
    before: bool,
) -> Result<Double, ReadFault>
    requires sizes { HasSizes (sizes_in bounds) }
    requires size { B.size under.old ≡ bounds.block_size }
    requires length { length bytes.old ≡ bounds.block_size }
    ensures array { OnOk result (IsArray (sizes_in bounds) true before array) }
    ensures arrays { (m : ℕ → Option (List ℕ)) → B.told under.old ≡ Some m → IsAllTold (sizes_in bounds) m → IfOk result (λ double. double.arrays.items ≡ used_runs (array_runs (sizes_in bounds) (contents m) array)) }
    ensures runs { (m : ℕ → Option (List ℕ)) → B.told under.old ≡ Some m → IsAllTold (sizes_in bounds) m → IfOk result (λ double. double.runs.items ≡ used_runs (flat_map (array_runs (sizes_in bounds) (contents m)) double.arrays.items)) }
    ensures sound { IfOk result (λ double. All (IsRunOf (sizes_in bounds) true) double.arrays.items × All (IsRunOf (sizes_in bounds) true) double.runs.items) }
    ensures few { IfOk result (λ double. (length double.arrays.items ≤ 1024) × (length double.runs.items ≤ 1048576)) }
    ensures wrong { (m : ℕ → Option (List ℕ)) → B.told under.old ≡ Some m → IsAllTold (sizes_in bounds) m → (l : Levels) → l.stream.double_indirect ≡ array → l.arrays ≡ array_runs (sizes_in bounds) (contents m) array → l.runs ≡ flat_map (array_runs (sizes_in bounds) (contents m)) (used_runs l.arrays) → (before ≡ false → (length (used_runs l.table) ≡ 0) ⊎ (length (used_runs l.table) ≢ length l.table)) → IfErr result (IsLevelsFault (sizes_in bounds) l) }
    ensures length { length bytes.new ≡ bounds.block_size }
    ensures told { B.told under.new ≡ B.told under.old }
    ensures changed { B.changed under.new ≡ B.changed under.old }
    ensures pairs { B.pairs under.new ≡ B.pairs under.old }
    ensures size { B.size under.new ≡ B.size under.old }
    ensures frame { B.frame under.new ≡ B.frame under.old }
    ensures later { AreLater (B.counts under.old) (B.counts under.new) }
    ensures cause { IfErr result (IsReadCause (B.counts under.old) (B.counts under.new)) }
{
    let mut arrays = Vec::new(alloc);
    let mut runs = Vec::new(alloc);
    match has_array(bounds, array, true, before) {
        Ok(some) => {
            if !some {
                return Ok(Double { arrays, runs });
            }
        }
        Err(wrong) => return Err(ReadFault::Wrong(wrong)),
    }
    match read_array(bounds, under, bytes, array, true, &mut arrays) {
        Ok(_) => {}
        Err(fault) => return Err(fault),
    }
    match read_arrays(bounds, under, bytes, &arrays, &mut runs) {
        Ok(()) => Ok(Double { arrays, runs }),
        Err(fault) => Err(fault),
    }
}
