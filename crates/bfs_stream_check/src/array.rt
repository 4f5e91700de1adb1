// Reads arrays of runs.
ghost use Rattle.std.specs.Prelude.{◌≡◌, ◌≤◌, ◌+◌, ◌*◌, ℕ, List, length, All, Option, Some, OnOk, IfOk, IfErr, ◌++◌, true, false};
ghost use Rattle.std.specs.List.{flat_map};
ghost use Rattle.bfs_txn.specs.Faults.{AreLater};
ghost use Rattle.bfs_stream.specs.Sizes.{HasSizes, runs_per_block};
ghost use Rattle.bfs_stream.specs.Places.{used_runs, array_runs};
ghost use Rattle.bfs_stream.specs.Told.{contents};
ghost use Rattle.bfs_stream_check.specs.Known.{IsAllTold};
ghost use Rattle.bfs_stream_check.specs.Read.{sizes_in, IsRunOf, IsRunsFault, IsReadCause, IsTaken};

use crate::ReadFault;
use crate::bounds::{Bounds, block_runs, start_of};
use crate::take::take_runs;
use bfs_bytes::Run;
use bfs_txn::Blocks;

/// Puts the runs that are used in an array behind those in `into`. Answers whether all of them are used, or the first fault.
pub(crate) fn read_array<B: Blocks>(
    bounds: Bounds,
    under: &mut B,
    bytes: &mut [u8],
    array: Run,
    whole: bool,
    into: &mut Vec<Run>,
) -> Result<bool, ReadFault>
    requires sizes { HasSizes (sizes_in bounds) }
    requires size { B.size under.old ≡ bounds.block_size }
    requires length { length bytes.old ≡ bounds.block_size }
    requires array { IsRunOf (sizes_in bounds) false array }
    ensures taken { (m : ℕ → Option (List ℕ)) → B.told under.old ≡ Some m → IsAllTold (sizes_in bounds) m → IfOk result (IsTaken (array_runs (sizes_in bounds) (contents m) array) into.old.items into.new.items) }
    ensures sound { All (IsRunOf (sizes_in bounds) whole) into.old.items → OnOk result (All (IsRunOf (sizes_in bounds) whole) into.new.items) }
    ensures few { OnOk result (length into.new.items ≤ length into.old.items + array.len * runs_per_block (sizes_in bounds)) }
    ensures wrong { (m : ℕ → Option (List ℕ)) → B.told under.old ≡ Some m → IsAllTold (sizes_in bounds) m → IfErr result (IsRunsFault (sizes_in bounds) whole (used_runs (array_runs (sizes_in bounds) (contents m) array))) }
    ensures length { length bytes.new ≡ bounds.block_size }
    ensures told { B.told under.new ≡ B.told under.old }
    ensures changed { B.changed under.new ≡ B.changed under.old }
    ensures pairs { B.pairs under.new ≡ B.pairs under.old }
    ensures size { B.size under.new ≡ B.size under.old }
    ensures frame { B.frame under.new ≡ B.frame under.old }
    ensures later { AreLater (B.counts under.old) (B.counts under.new) }
    ensures cause { IfErr result (IsReadCause (B.counts under.old) (B.counts under.new)) }
{
    let count = block_runs(bounds);
    let first = start_of(bounds, array);
    for i in 0..u64::from(array.len) {
        match under.get(first + i, bytes) {
            Ok(()) => {}
            Err(fault) => return Err(ReadFault::Block(fault)),
        }
        match take_runs(bounds, bytes, 0, count, whole, into) {
            Ok(full) => {
                if !full {
                    return Ok(false);
                }
            }
            Err(fault) => return Err(fault),
        }
    }
    Ok(true)
}

/// Puts the runs that are used in the arrays, of which each is as long as an array is written, behind those in `into`, or answers the
/// first fault. Where not all of an array are used, those behind it aren't read.
pub(crate) fn read_arrays<B: Blocks>(
    bounds: Bounds,
    under: &mut B,
    bytes: &mut [u8],
    arrays: &[Run],
    into: &mut Vec<Run>,
) -> Result<(), ReadFault>
    requires sizes { HasSizes (sizes_in bounds) }
    requires size { B.size under.old ≡ bounds.block_size }
    requires length { length bytes.old ≡ bounds.block_size }
    requires arrays { All (IsRunOf (sizes_in bounds) true) arrays.now }
    ensures taken { (m : ℕ → Option (List ℕ)) → B.told under.old ≡ Some m → IsAllTold (sizes_in bounds) m → OnOk result (into.new.items ≡ into.old.items ++ used_runs (flat_map (array_runs (sizes_in bounds) (contents m)) arrays.now)) }
    ensures sound { All (IsRunOf (sizes_in bounds) true) into.old.items → OnOk result (All (IsRunOf (sizes_in bounds) true) into.new.items) }
    ensures few { OnOk result (length into.new.items ≤ length into.old.items + 1024 * length arrays.now) }
    ensures wrong { (m : ℕ → Option (List ℕ)) → B.told under.old ≡ Some m → IsAllTold (sizes_in bounds) m → IfErr result (IsRunsFault (sizes_in bounds) true (used_runs (flat_map (array_runs (sizes_in bounds) (contents m)) arrays.now))) }
    ensures length { length bytes.new ≡ bounds.block_size }
    ensures told { B.told under.new ≡ B.told under.old }
    ensures changed { B.changed under.new ≡ B.changed under.old }
    ensures pairs { B.pairs under.new ≡ B.pairs under.old }
    ensures size { B.size under.new ≡ B.size under.old }
    ensures frame { B.frame under.new ≡ B.frame under.old }
    ensures later { AreLater (B.counts under.old) (B.counts under.new) }
    ensures cause { IfErr result (IsReadCause (B.counts under.old) (B.counts under.new)) }
{
    for i in 0..arrays.len() {
        let array = arrays[i];
        match read_array(bounds, under, bytes, array, true, into) {
            Ok(full) => {
                if !full {
                    return Ok(());
                }
            }
            Err(fault) => return Err(fault),
        }
    }
    Ok(())
}
