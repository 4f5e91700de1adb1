// What a run has to keep.
ghost use Rattle.std.specs.Prelude.{◌≡◌, ◌≤◌, ◌<◌, ◌+◌, ◌*◌, ◌^◌, pos, OnOk, IfErr, false};
ghost use Rattle.bfs_super.specs.Conditions.{IsValid, natural};
ghost use Rattle.bfs_stream.specs.Sizes.{sizes_of, HasSizes, array_length, runs_per_block, first_block};
ghost use Rattle.bfs_stream.specs.Places.{level_end};
ghost use Rattle.bfs_stream_check.specs.Read.{sizes_in, IsRunOf, IsRunFault};

use crate::Wrong;
use bfs_bytes::Run;
use bfs_super::Super;

/// The bytes of a block, the blocks of the volume, and the blocks of a whole group.
#[derive(Clone, Copy)]
pub struct Bounds {
    pub block_size: u32,
    pub blocks: u64,
    pub group_blocks: u64,
}

impl Bounds {
    /// Those of the superblock's volume.
    pub(crate) fn of(sup: &Super) -> Bounds
        requires { IsValid sup.now }
        ensures is { sizes_in result ≡ sizes_of sup.now }
        ensures sizes { HasSizes (sizes_in result) }
    {
        Bounds {
            block_size: sup.block_size,
            blocks: natural_long(sup.num_blocks),
            group_blocks: power(natural_int(sup.ag_shift)),
        }
    }
}

/// A number that isn't negative, or 0.
fn natural_long(value: i64) -> u64
    ensures { result ≡ natural value }
{
    if value < 0 { 0 } else { value as u64 }
}

/// The same of 32 bits.
fn natural_int(value: i32) -> u32
    ensures { result ≡ natural value }
{
    if value < 0 { 0 } else { value as u32 }
}

/// Two to this power.
fn power(shift: u32) -> u64
    requires { shift ≤ 16 }
    ensures { result ≡ 2 ^ shift }
{
    1 << shift
}

/// The blocks of an array.
pub(crate) fn array_blocks(bounds: Bounds) -> u64
    requires { HasSizes (sizes_in bounds) }
    ensures value { result ≡ array_length (sizes_in bounds) }
    ensures few { result ≤ 4 }
{
    u64::from((4096 / bounds.block_size).max(1))
}

/// The runs that stand in a block.
pub(crate) fn block_runs(bounds: Bounds) -> usize
    requires { HasSizes (sizes_in bounds) }
    ensures value { result ≡ runs_per_block (sizes_in bounds) }
    ensures few { result ≤ 1024 }
    ensures inside { 8 * result ≤ bounds.block_size }
{
    (bounds.block_size / 8) as usize
}

/// The bytes of so many blocks.
pub(crate) fn bytes_of(bounds: Bounds, blocks: u64) -> i64
    requires sizes { HasSizes (sizes_in bounds) }
    requires few { blocks < 2 ^ 45 }
    ensures { result ≡ pos (bounds.block_size * blocks) }
{
    i64::from(bounds.block_size) * blocks as i64
}

/// Up to which block a level of so many blocks behind others reaches: 0 where it is empty.
pub(crate) fn end_of(before: u64, own: u64) -> u64
    requires { before + own < 2 ^ 64 }
    ensures { result ≡ level_end before own }
{
    if own == 0 { 0 } else { before + own }
}

/// The first block of a run.
pub(crate) fn start_of(bounds: Bounds, run: Run) -> u64
    requires sizes { HasSizes (sizes_in bounds) }
    requires inside { IsRunOf (sizes_in bounds) false run }
    ensures value { result ≡ first_block (sizes_in bounds) run }
    ensures few { result + run.len ≤ 4194304 }
{
    run.group as u64 * bounds.group_blocks + u64::from(run.start)
}

/// Does the run lie in the volume, in one group, and is it, where `whole` asks for that, as long as an array?
pub(crate) fn check_run(bounds: Bounds, run: Run, whole: bool) -> Result<(), Wrong>
    requires { HasSizes (sizes_in bounds) }
    ensures sound { OnOk result (IsRunOf (sizes_in bounds) whole run) }
    ensures wrong { IfErr result (λ w. IsRunFault (sizes_in bounds) whole run w.found w.wanted) }
{
    if run.group < 0 {
        return Err(Wrong {
            found: i64::from(run.group),
            wanted: 0,
        });
    }
    let len = u64::from(run.len);
    let end = u64::from(run.start) + len;
    if end > bounds.group_blocks {
        return Err(Wrong {
            found: end as i64,
            wanted: bounds.group_blocks as i64,
        });
    }
    let last = run.group as u64 * bounds.group_blocks + end;
    if last > bounds.blocks {
        return Err(Wrong {
            found: last as i64,
            wanted: bounds.blocks as i64,
        });
    }
    let array = array_blocks(bounds);
    if whole && len != array {
        return Err(Wrong {
            found: len as i64,
            wanted: array as i64,
        });
    }
    Ok(())
}
