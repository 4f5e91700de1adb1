// A file in a volume of 16 blocks of 1,024 bytes, whole and broken: its inode is block 6, and its stream has blocks 8 and 9.
ghost use Rattle.std.specs.Prelude.{◌≡◌, ◌<◌, ◌≤◌, ◌+◌, IfOk, length};
ghost use Rattle.bfs_super.specs.Conditions.{IsValid, natural};

use crate::volumes::over;
use bfs_bytes::{put_i64, put_run, put_u32};
use bfs_claims::Claims;
use bfs_finding::{Finding, InodePart};
use bfs_inode_walk::{VisitFault, visit_inode};
use bfs_node_check::Role;
use bfs_super::Super;
use bfs_txn::{BlockFault, Blocks, MemBlocks};
use bfs_volume_fixtures::{run, small_superblock};
use std::alloc::{AllocError, Global};
use std::test::Fail;

/// Blocks in memory, which tell nothing of what they hold, and of which one can't be read.
#[derive(Drop)]
struct Failing {
    blocks: MemBlocks,
    bad: u64,
    faults: u64,
}

impl Blocks for Failing {
    ghost use Rattle.std.specs.Prelude.{None, [], false};
    ghost use Rattle.bfs_txn.specs.Told.{read_last};

    ghost told = { λ s. None };

    ghost size = { λ s. s.blocks.block_size };

    ghost counts = { λ s. record { faults = s.faults; stops = 0; stop = None } };

    ghost changed = { λ s k. false };

    ghost pairs = { λ s. 0 };

    ghost last = { λ s. read_last s.blocks };

    ghost Note = { Unit {0} };

    ghost frame = { λ s. record { note = tt; names = []; kept = []; below = None } };

    ghost sized = { λ s. tt };

    fn get(&mut self, block: u64, into: &mut [u8]) -> Result<(), BlockFault> {
        if block == self.bad {
            if self.faults == 0 {
                self.faults = 1;
                return Err(BlockFault::Disk {
                    before: 0,
                    after: 1,
                });
            }
        }
        match self.blocks.get(block, into) {
            Ok(()) => Ok(()),
            Err(_) => Err(BlockFault::NoMemory),
        }
    }
}

/// Writes the inode and another number in its block at a place.
fn put_inode(bytes: &mut [u8], at: usize, other: u32)
    requires size { length bytes.old ≡ 16384 }
    requires inside { at + 4 ≤ 1024 }
    ensures { length bytes.new ≡ 16384 }
{
    let inode = 6 * 1024;
    put_u32(bytes, inode, 0x3bbe0ad9);
    put_run(bytes, inode + 4, run(6, 1));
    put_u32(bytes, inode + 20, 0x81a4);
    put_u32(bytes, inode + 24, 1);
    put_u32(bytes, inode + 64, 1024);
    put_run(bytes, inode + 72, run(8, 2));
    put_i64(bytes, inode + 168, 2048);
    put_i64(bytes, inode + 208, 1500);
    put_u32(bytes, inode + at, other);
}

/// The blocks of the volume, with another number in the inode's block at a place.
fn volume(alloc: Global, size: usize, at: usize, other: u32) -> Result<MemBlocks, AllocError>
    requires size { size ≡ 16384 }
    requires inside { at + 4 ≤ 1024 }
    ensures { IfOk result (λ b. b.block_size ≡ 1024) }
{
    let mut bytes = vec![in alloc; 0u8; size]?;
    put_inode(bytes.as_mut_slice(), at, other);
    Ok(over(bytes))
}

/// What came of it: how many blocks are claimed then, a finding on the inode or its stream, a block that it has twice, one that is taken, or a
/// failed read.
#[derive(Clone, Copy, Debug, PartialEq, Eq)]
enum Seen {
    Claimed(u64),
    Inode(InodePart, i64),
    Stream(i64, i64),
    Shared(u64, u64, u64),
    Taken(u64, u64),
    Failed,
    Other,
}

/// What a fault says.
fn told_by(fault: VisitFault) -> Seen {
    match fault {
        VisitFault::Wrong(Finding::Inode { part, found, .. }) => Seen::Inode(part, found),
        VisitFault::Wrong(Finding::Stream { found, wanted, .. }) => Seen::Stream(found, wanted),
        VisitFault::Wrong(
            Finding::Shared {
                block,
                first,
                second,
            },
        ) => Seen::Shared(block, first, second),
        VisitFault::Taken { block, owner } => Seen::Taken(block, owner),
        VisitFault::Block(BlockFault::Disk { .. }) => Seen::Failed,
        _ => Seen::Other,
    }
}

/// Goes over the inode, where block 0 and one other are claimed, and one can't be read.
fn visit(
    alloc: Global,
    sup: &Super,
    under: &mut Failing,
    role: Role,
    taken: u64,
) -> Result<Seen, AllocError>
    requires valid { IsValid sup.now }
    requires block_size { sup.now.block_size ≡ 1024 }
    requires size { under.old.blocks.block_size ≡ 1024 }
    requires blocks { natural sup.now.num_blocks ≡ 16 }
{
    let mut claims = Claims::new(alloc, 16)?;
    let _ = claims.claim(0, 1);
    if taken < 16 {
        let _ = claims.claim(taken, 1);
    }
    match visit_inode(alloc, under, sup, 6, role, &mut claims) {
        Ok(_) => Ok(Seen::Claimed(claims.count())),
        Err(fault) => Ok(told_by(fault)),
    }
}

/// The same with another number in the inode's block.
fn visit_with(
    alloc: Global,
    at: usize,
    other: u32,
    role: Role,
    taken: u64,
    bad: u64,
) -> Result<Seen, Fail> {
    let sup = small_superblock(16, 1, [run(2, 2), run(4, 1), run(5, 1)])?;
    if sup.block_size != 1024 || sup.num_blocks != 16 || at > 1020 {
        return Ok(Seen::Other);
    }
    let mut under = Failing {
        blocks: volume(alloc, 16384, at, other)?,
        bad,
        faults: 0,
    };
    Ok(visit(alloc, &sup, &mut under, role, taken)?)
}

#[test]
fn an_inode_is_right_and_its_blocks_are_claimed_or_one_thing_is_told(
    rt: HostRuntime,
) -> Result<(), Fail> {
    let alloc = rt.alloc();
    let rows: [(usize, u32, Role, u64, Seen); 6] = [
        (1000, 0, Role::Child, 10, Seen::Claimed(5)),
        (0, 7, Role::Child, 10, Seen::Inode(InodePart::Magic, 7)),
        (
            1000,
            0,
            Role::Attribute,
            10,
            Seen::Inode(InodePart::Mode, 0x81a4),
        ),
        (208, 2049, Role::Child, 10, Seen::Stream(2049, 2048)),
        // the run begins in the inode's own block; and a block was claimed before
        (76, 0x20006, Role::Child, 10, Seen::Shared(6, 6, 6)),
        (1000, 0, Role::Child, 9, Seen::Taken(9, 6)),
    ];
    for (at, other, role, taken, wanted) in rows {
        assert_eq!(rt; visit_with(alloc, at, other, role, taken, 99)?, wanted);
    }
    Ok(())
}

#[test]
fn a_block_that_cannot_be_read_is_told(rt: HostRuntime) -> Result<(), Fail> {
    let found = visit_with(rt.alloc(), 1000, 0, Role::Child, 10, 6)?;
    assert_eq!(rt; found, Seen::Failed);
    Ok(())
}
