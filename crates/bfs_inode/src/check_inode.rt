// Is a block the inode of a number?
ghost use Rattle.std.specs.Prelude.{◌≡◌, ◌≤◌, ◌↔◌, ◌^◌, IsTrue, OnOk, IfErr};
ghost use Rattle.bfs_inode.specs.Block.{IsBlock};
ghost use Rattle.bfs_inode.specs.Refusals.{IsInode, IsRefusal, Names, number_of};

use crate::InodeFault;
use bfs_bytes::{Run, i32_at, run_at, u32_at};

const MAGIC: i32 = 0x3bbe0ad9;

const IN_USE: u32 = 0x1;

/// How many blocks a group has.
fn group_blocks(ag_shift: u32) -> u32
    requires { ag_shift ≤ 16 }
    ensures value { result ≡ 2 ^ ag_shift }
    ensures few { result ≤ 65536 }
{
    1u32 << ag_shift
}

/// The number of an address: `(group << ag_shift) + start`.
fn number_of(run: Run, ag_shift: u32) -> i64
    requires { ag_shift ≤ 16 }
    ensures { result ≡ number_of run ag_shift }
{
    let blocks = group_blocks(ag_shift);
    i64::from(run.group) * i64::from(blocks) + i64::from(run.start)
}

/// Whether a run is the address of the inode with this number.
fn names(run: Run, number: u64, ag_shift: u32) -> bool
    requires { ag_shift ≤ 16 }
    ensures { IsTrue result ↔ Names run number ag_shift }
{
    let block = number_of(run, ag_shift);
    run.len == 1
        && u32::from(run.start) < group_blocks(ag_shift)
        && block >= 0
        && block.cast_unsigned() == number
}

/// Whether the block is the inode of this number, in use: the magic number is tested first, then the
/// number, the flag and the size.
pub fn check(block: &[u8], number: u64, ag_shift: u32) -> Result<(), InodeFault>
    requires block { IsBlock block.now }
    requires shift { ag_shift ≤ 16 }
    ensures ok { OnOk result (IsInode block.now number ag_shift) }
    ensures refused { IfErr result (IsRefusal block.now number ag_shift) }
{
    let found = i32_at(block, 0);
    if found != MAGIC {
        return Err(InodeFault::Magic { found });
    }
    let address = run_at(block, 4);
    if !names(address, number, ag_shift) {
        let found = number_of(address, ag_shift);
        return Err(InodeFault::Number { found });
    }
    if u32_at(block, 24) & IN_USE == 0 {
        let flags = i32_at(block, 24);
        return Err(InodeFault::NotInUse { flags });
    }
    let found = i32_at(block, 64);
    if i64::from(found) != block.len() as i64 {
        return Err(InodeFault::Size { found });
    }
    Ok(())
}
