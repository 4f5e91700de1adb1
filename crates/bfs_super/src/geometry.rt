// How a volume is laid out.
ghost use Rattle.std.specs.Prelude.{◌≡◌, ◌⊎◌, ◌≤◌, ◌<◌, ◌+◌, ◌-◌, ◌*◌, ◌/◌, ◌^◌, ℕ, pos, IfOk, IfErr};
ghost use Rattle.bfs_super.specs.Conditions.{ceil, natural, IsValid};
ghost use Rattle.bfs_super.specs.Geometry.{IsBlockSize, IsShift, IsPlan, log_length, bitmap_length, tree_length, least_blocks, geometry_of};

use crate::Super;
use bfs_bytes::Run;
use thiserror::Error;

/// The layout of a volume. Places and lengths are in blocks, the block size in bytes.
#[derive(Clone, Copy, Debug, PartialEq, Eq)]
pub struct Geometry {
    pub block_size: u32,
    pub blocks: u64,
    /// The bitmap blocks of a whole allocation group.
    pub per_group: u32,
    /// A group has 2 to this power blocks.
    pub shift: u32,
    pub groups: u32,
    pub log: Run,
    /// The blocks of the inodes of the root directory and of the index directory.
    pub root: u64,
    pub indices: u64,
    pub used: u64,
}

/// The volume would have fewer blocks than its own structures take.
#[derive(Clone, Copy, Debug, PartialEq, Eq, Error)]
#[error("the volume has {have} blocks where {need} are needed")]
pub struct TooSmall {
    pub have: u64,
    pub need: u64,
}

// a / b, rounded up.
fn ceil_div(a: u64, b: u64) -> u64
    requires some { 0 < b }
    requires fits { a + b ≤ 2 ^ 62 }
    ensures { result ≡ ceil a b }
{
    (a + (b - 1)) / b
}

// The power of two that is the number of bits in a block.
fn first_shift(block_size: u32) -> u32
    requires { IsBlockSize block_size }
    ensures power { 2 ^ result ≡ block_size * 8 }
    ensures low { 13 ≤ result }
    ensures high { result ≤ 16 }
{
    match block_size {
        1024 => 13,
        2048 => 14,
        4096 => 15,
        _ => 16,
    }
}

// 2 to this power.
fn power(shift: u32) -> u32
    requires { shift ≤ 16 }
    ensures { result ≡ 2 ^ shift }
{
    1 << shift
}

// A number that isn't negative, or 0.
fn natural_long(value: i64) -> u64
    ensures { result ≡ natural value }
{
    if value < 0 { 0 } else { value as u64 }
}

// The same of 32 bits.
fn natural_int(value: i32) -> u32
    ensures { result ≡ natural value }
{
    if value < 0 { 0 } else { value as u32 }
}

// The groups of 2 to this power blocks.
fn groups_at(blocks: u64, shift: u32) -> u64
    requires length { blocks ≤ 4194304 }
    requires high { shift ≤ 16 }
    ensures value { result ≡ ceil blocks (2 ^ shift) }
    ensures bound { result ≤ 4194304 }
{
    let group = 1u64 << shift;
    ceil_div(blocks, group)
}

// Doubles the groups while there are more than 56 of them.
fn shift_of(blocks: u64, first: u32) -> u32
    requires length { blocks ≤ 4194304 }
    requires high { first ≤ 16 }
    ensures { IsShift blocks first result }
{
    let mut shift = first;
    while shift < 16 && groups_at(blocks, shift) > 56 {
        shift += 1;
    }
    shift
}

/// The layout of a volume with another length of the log, of 2 to 2,048 blocks.
pub fn plan_with_log(blocks: u64, block_size: u32, log_blocks: u16) -> Result<Geometry, TooSmall>
    requires size { IsBlockSize block_size }
    requires length { blocks ≤ 4194304 }
    requires log_low { 2 ≤ log_blocks }
    requires log_high { log_blocks ≤ 2048 }
    ensures ok { IfOk result (IsPlan blocks block_size log_blocks) }
    ensures err { IfErr result (λ e. (e ≡ record { have = blocks; need = least_blocks blocks block_size log_blocks }) × (blocks < least_blocks blocks block_size log_blocks)) }
{
    let bitmap = ceil_div(blocks, u64::from(block_size) * 8);
    let tree = 1 + ceil_div(2048, u64::from(block_size));
    let log = u64::from(log_blocks);
    let need = 1 + bitmap + log + 5 * tree;
    if blocks < need {
        return Err(TooSmall { have: blocks, need });
    }
    let first = first_shift(block_size);
    let shift = shift_of(blocks, first);
    Ok(Geometry {
        block_size,
        blocks,
        per_group: power(shift - first),
        shift,
        groups: groups_at(blocks, shift) as u32,
        log: Run {
            group: 0,
            start: (1 + bitmap) as u16,
            len: log_blocks,
        },
        root: 1 + bitmap + log,
        indices: 1 + bitmap + log + tree,
        used: need,
    })
}

/// The layout of a new volume. The block size is one of the four, and there are at most 4,194,304 blocks.
pub fn plan(blocks: u64, block_size: u32) -> Result<Geometry, TooSmall>
    requires size { IsBlockSize block_size }
    requires length { blocks ≤ 4194304 }
    ensures ok { IfOk result (IsPlan blocks block_size (log_length blocks)) }
    ensures err { IfErr result (λ e. (e ≡ record { have = blocks; need = least_blocks blocks block_size (log_length blocks) }) × (blocks < least_blocks blocks block_size (log_length blocks))) }
{
    let log_blocks = if blocks <= 20_480 { 512 } else { 2048 };
    plan_with_log(blocks, block_size, log_blocks)
}

impl Super {
    /// The layout that a superblock tells. A negative number of used blocks counts as none.
    pub fn geometry(&self) -> Geometry
        requires { IsValid self.now }
        ensures { result ≡ geometry_of self.now }
    {
        Geometry {
            block_size: self.block_size,
            blocks: natural_long(self.num_blocks),
            per_group: natural_int(self.blocks_per_ag),
            shift: natural_int(self.ag_shift),
            groups: natural_int(self.num_ags),
            log: self.log_blocks,
            root: self.block_of(self.root_dir),
            indices: self.block_of(self.indices),
            used: natural_long(self.used_blocks),
        }
    }
}
