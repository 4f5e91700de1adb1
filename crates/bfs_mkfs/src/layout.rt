// The layout of a volume that is to be made.
ghost use Rattle.std.specs.Prelude.{◌≡◌, ◌≤◌, ◌<◌, IfOk, IfErr};
ghost use Rattle.bfs_super.specs.Geometry.{IsBlockSize, IsPlan, log_length, least_blocks};
ghost use Rattle.bfs_mkfs.specs.Laid.{IsPlanned};

use bfs_super::{Geometry, TooSmall, plan, plan_with_log};

/// The layout of a new volume, which can be formatted. The block size is one of the four, and there are at most
/// 4,194,304 blocks.
pub fn layout_of(blocks: u64, block_size: u32) -> Result<Geometry, TooSmall>
    requires size { IsBlockSize block_size }
    requires length { blocks ≤ 4194304 }
    ensures ok { IfOk result (IsPlan blocks block_size (log_length blocks)) }
    ensures planned { IfOk result IsPlanned }
    ensures err { IfErr result (λ e. (e ≡ record { have = blocks; need = least_blocks blocks block_size (log_length blocks) }) × (blocks < least_blocks blocks block_size (log_length blocks))) }
{
    match plan(blocks, block_size) {
        Ok(geometry) => Ok(geometry),
        Err(small) => Err(small),
    }
}

/// The same with another length of the log, of 2 to 2,048 blocks.
pub fn layout_with_log(blocks: u64, block_size: u32, log_blocks: u16) -> Result<Geometry, TooSmall>
    requires size { IsBlockSize block_size }
    requires length { blocks ≤ 4194304 }
    requires log_low { 2 ≤ log_blocks }
    requires log_high { log_blocks ≤ 2048 }
    ensures ok { IfOk result (IsPlan blocks block_size log_blocks) }
    ensures planned { IfOk result IsPlanned }
    ensures err { IfErr result (λ e. (e ≡ record { have = blocks; need = least_blocks blocks block_size log_blocks }) × (blocks < least_blocks blocks block_size log_blocks)) }
{
    match plan_with_log(blocks, block_size, log_blocks) {
        Ok(geometry) => Ok(geometry),
        Err(small) => Err(small),
    }
}
