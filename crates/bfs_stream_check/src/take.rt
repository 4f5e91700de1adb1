// Takes the runs that are used out of bytes.
ghost use Rattle.std.specs.Prelude.{◌≤◌, ◌+◌, ◌*◌, length, All, OnOk, IfOk, IfErr};
ghost use Rattle.bfs_inode.specs.Inode.{runs_in};
ghost use Rattle.bfs_txn.specs.Faults.{Counts};
ghost use Rattle.bfs_stream.specs.Sizes.{HasSizes};
ghost use Rattle.bfs_stream.specs.Places.{used_runs};
ghost use Rattle.bfs_stream_check.specs.Read.{sizes_in, IsRunOf, IsRunsFault, IsReadCause, IsTaken};

use crate::ReadFault;
use crate::bounds::{Bounds, check_run};
use bfs_bytes::{Run, run_at};
use bfs_txn::BlockFault;

/// Puts the runs that are used, of so many that stand from a byte on, behind those in `into`. Answers whether all of them are
/// used, or the first fault.
pub(crate) fn take_runs(
    bounds: Bounds,
    bytes: &[u8],
    at: usize,
    count: usize,
    whole: bool,
    into: &mut Vec<Run>,
) -> Result<bool, ReadFault>
    requires sizes { HasSizes (sizes_in bounds) }
    requires inside { at + 8 * count ≤ length bytes.now }
    ensures taken { IfOk result (IsTaken (runs_in count bytes.now at) into.old.items into.new.items) }
    ensures sound { All (IsRunOf (sizes_in bounds) whole) into.old.items → OnOk result (All (IsRunOf (sizes_in bounds) whole) into.new.items) }
    ensures few { OnOk result (length into.new.items ≤ length into.old.items + count) }
    ensures wrong { IfErr result (IsRunsFault (sizes_in bounds) whole (used_runs (runs_in count bytes.now at))) }
    ensures cause { (old new : Counts) → IfErr result (IsReadCause old new) }
{
    for i in 0..count {
        let run = run_at(bytes, at + 8 * i);
        if run.len == 0 {
            return Ok(false);
        }
        match check_run(bounds, run, whole) {
            Ok(()) => {}
            Err(wrong) => return Err(ReadFault::Wrong(wrong)),
        }
        match into.push(run) {
            Ok(()) => {}
            Err(_) => return Err(ReadFault::Block(BlockFault::NoMemory)),
        }
    }
    Ok(true)
}
