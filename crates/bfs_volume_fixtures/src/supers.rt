// Superblocks of small volumes, as they are read from a sector.
ghost use Rattle.std.specs.Prelude.{◌≡◌, ◌≤◌, pos, IfOk};
ghost use Rattle.bfs_super.specs.Conditions.{IsValid};

use bfs_bytes::{Run, put_i64, put_run, put_u32};
use bfs_super::{Super, SuperFault};

/// A run in the first group.
pub fn run(start: u16, len: u16) -> Run
    ensures { result ≡ record { group = pos 0; start = start; len = len } }
{
    Run {
        group: 0,
        start,
        len,
    }
}

/// What the superblock of a volume tells: the size of a block and its shift, how many blocks, groups and used blocks there are, the place
/// where the log begins, which ends at place 0, and the runs of the log, the root and the indices.
#[derive(Clone, Copy)]
pub struct Shape {
    pub size: u32,
    pub shift: u32,
    pub blocks: u32,
    pub groups: u32,
    pub used: i64,
    pub start: i64,
    pub log: Run,
    pub root: Run,
    pub indices: Run,
}

impl Shape {
    /// The superblock, read from its sector.
    pub fn superblock(self) -> Result<Super, SuperFault>
        requires low { self.shift ≤ 13 }
        ensures valid { IfOk result IsValid }
    {
        let mut sector = [0u8; 512];
        put_u32(&mut sector, 32, 0x42465331);
        put_u32(&mut sector, 36, 0x42494745);
        put_u32(&mut sector, 40, self.size);
        put_u32(&mut sector, 44, self.shift);
        put_u32(&mut sector, 48, self.blocks);
        put_i64(&mut sector, 56, self.used);
        put_u32(&mut sector, 64, self.size);
        put_u32(&mut sector, 68, 0xdd121031);
        put_u32(&mut sector, 72, 1);
        put_u32(&mut sector, 76, self.shift + 3);
        put_u32(&mut sector, 80, self.groups);
        put_run(&mut sector, 88, self.log);
        put_i64(&mut sector, 96, self.start);
        put_u32(&mut sector, 112, 0x15b6830e);
        put_run(&mut sector, 116, self.root);
        put_run(&mut sector, 124, self.indices);
        Super::parse(&sector)
    }
}

/// The superblock of a volume with so many blocks of this size in so many groups. Its log has 512 blocks from this one on, and the root and
/// the indices are at blocks 600 and 601.
pub fn superblock(
    size: u32,
    shift: u32,
    blocks: u32,
    groups: u32,
    log: u16,
) -> Result<Super, SuperFault>
    requires low { shift ≤ 13 }
    ensures valid { IfOk result IsValid }
{
    let shape = Shape {
        size,
        shift,
        blocks,
        groups,
        used: 0,
        start: 0,
        log: run(log, 512),
        root: run(600, 1),
        indices: run(601, 1),
    };
    shape.superblock()
}

/// The superblock of a volume with so many blocks of 1,024 bytes in so many groups, with these runs of its log, its root and its indices.
pub fn small_superblock(blocks: u32, groups: u32, runs: [Run; 3]) -> Result<Super, SuperFault>
    ensures valid { IfOk result IsValid }
{
    let shape = Shape {
        size: 1024,
        shift: 10,
        blocks,
        groups,
        used: 0,
        start: 0,
        log: runs[0],
        root: runs[1],
        indices: runs[2],
    };
    shape.superblock()
}
