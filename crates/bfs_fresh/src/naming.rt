// The address of an inode.
ghost use Rattle.std.specs.Prelude.{◌≡◌, ◌≤◌, ◌<◌, ◌^◌};
ghost use Rattle.bfs_inode.specs.Refusals.{Names};

use bfs_bytes::Run;

/// How many blocks a group has.
fn group_blocks(ag_shift: u32) -> u32
    requires { ag_shift ≤ 16 }
    ensures value { result ≡ 2 ^ ag_shift }
    ensures few { result ≤ 65536 }
{
    1u32 << ag_shift
}

/// The address of the inode at a block.
pub fn address(block: u64, ag_shift: u32) -> Run
    requires shift { ag_shift ≤ 16 }
    requires inside { block < 2 ^ 31 }
    ensures { Names result block ag_shift }
{
    let blocks = u64::from(group_blocks(ag_shift));
    Run {
        group: (block / blocks) as i32,
        start: (block % blocks) as u16,
        len: 1,
    }
}
