// A volume that inodes stand on.
ghost use Rattle.std.specs.Prelude.{◌≡◌, ◌≤◌};
ghost use Rattle.bfs_super.specs.Conditions.{IsValid, natural};

use bfs_super::Super;
use std::alloc::Global;

/// A volume: its superblock, and what memory is taken from.
#[derive(Clone, Copy)]
pub struct Site {
    pub alloc: Global,
    pub sup: Super,
}

/// A block of a volume has at least 1,024 bytes.
pub fn has_long_blocks(sup: Super)
    requires { IsValid sup }
    ensures { 1024 ≤ sup.block_size }
{
    let _ = sup;
}

/// A block of a volume has at most 8,192 bytes.
pub fn has_short_blocks(sup: Super)
    requires { IsValid sup }
    ensures { sup.block_size ≤ 8192 }
{
    let _ = sup;
}

/// A number that isn't negative, or 0.
fn natural_long(value: i64) -> u64
    ensures { result ≡ natural value }
{
    if value < 0 { 0 } else { value as u64 }
}

/// The number of a volume's blocks.
pub fn blocks_in(sup: Super) -> u64
    ensures { result ≡ natural sup.num_blocks }
{
    natural_long(sup.num_blocks)
}
