// The address of an attribute directory in a volume of 16 blocks of 1,024 bytes, whose group has 8,192; and such a directory: it is at block 6
// with two pages of a tree in blocks 7 and 8, and names the attributes `a` at block 9 with its bytes in block 10, and `b` at block 11.
ghost use Rattle.std.specs.Prelude.{◌≡◌, ◌<◌, IfOk, length};
ghost use Rattle.bfs_super.specs.Conditions.{IsValid, natural};

use crate::volumes::{is_meant, over, put_header, put_inode, put_leaf, put_values};
use bfs_attr_walk::{directory_of, visit_stored};
use bfs_bytes::{Run, put_run};
use bfs_claims::Claims;
use bfs_finding::Finding;
use bfs_inode_walk::VisitFault;
use bfs_super::Super;
use bfs_txn::{Blocks, MemBlocks};
use bfs_volume_fixtures::{Silent, run, small_superblock};
use std::alloc::{AllocError, Global};
use std::test::Fail;

/// An inode's bytes with this address.
fn inode_with(group: i32, start: u16, len: u16) -> [u8; 1024]
    ensures { length result ≡ 1024 }
{
    let mut bytes = [0u8; 1024];
    put_run(&mut bytes, 52, Run { group, start, len });
    bytes
}

/// What an address says: no directory, one at a block, or the number that is wrong and the one that is wanted.
#[derive(Clone, Copy, Debug, PartialEq, Eq)]
enum Seen {
    Nothing,
    At(u64),
    Wrong(i64, i64),
    Other,
}

fn told_by(sup: Super, group: i32, start: u16, len: u16) -> Seen
    requires { IsValid sup }
{
    match directory_of(&inode_with(group, start, len), sup, 8) {
        Ok(None) => Seen::Nothing,
        Ok(Some(block)) => Seen::At(block),
        Err(Finding::Stream { found, wanted, .. }) => Seen::Wrong(found, wanted),
        Err(_) => Seen::Other,
    }
}

#[test]
fn an_address_is_zero_or_names_a_block_or_is_wrong_in_one_number(
    rt: HostRuntime,
) -> Result<(), Fail> {
    let sup = small_superblock(16, 1, [run(2, 2), run(4, 1), run(5, 1)])?;
    let table: [(i32, u16, u16, Seen); 6] = [
        (0, 0, 0, Seen::Nothing),
        (0, 7, 1, Seen::At(7)),
        (0, 7, 2, Seen::Wrong(2, 1)),
        (-1, 7, 1, Seen::Wrong(-1, 0)),
        (0, 8192, 1, Seen::Wrong(8192, 8192)),
        (0, 16, 1, Seen::Wrong(16, 16)),
    ];
    for (group, start, len, wanted) in table {
        assert_eq!(rt; told_by(sup, group, start, len), wanted);
    }
    Ok(())
}

/// Writes the directory and its attributes, where the row `b` has this value, and the bytes of the inode at block 11 are in this block.
fn put_all(bytes: &mut [u8], other: i64, first: u16)
    requires size { length bytes.old ≡ 16384 }
    ensures { length bytes.new ≡ 16384 }
{
    put_inode(bytes, 6, 0x8000000, run(7, 2), 2048);
    put_inode(bytes, 9, 0x10000000, run(10, 1), 1024);
    put_inode(bytes, 11, 0x10000000, run(first, 1), 1024);
    put_header(bytes);
    put_leaf(bytes);
    put_values(bytes, other);
}

/// The blocks of the volume.
fn volume(alloc: Global, size: usize, other: i64, first: u16) -> Result<MemBlocks, AllocError>
    requires size { size ≡ 16384 }
    ensures { IfOk result (λ b. b.block_size ≡ 1024) }
{
    let mut bytes = vec![in alloc; 0u8; size]?;
    put_all(bytes.as_mut_slice(), other, first);
    Ok(over(bytes))
}

/// What came of it: how many rows there are, and how many blocks are claimed then; a block with its two owners; or one that was claimed
/// at first, with its owner.
#[derive(Clone, Copy, Debug, PartialEq, Eq)]
enum Stored {
    Rows(usize, u64),
    Shared(u64, u64, u64),
    Taken(u64, u64),
    Other,
}

/// What a fault says.
fn fault_says(fault: VisitFault) -> Stored {
    match fault {
        VisitFault::Wrong(
            Finding::Shared {
                block,
                first,
                second,
            },
        ) => Stored::Shared(block, first, second),
        VisitFault::Taken { block, owner } => Stored::Taken(block, owner),
        _ => Stored::Other,
    }
}

/// Goes over the directory, where this block is claimed at first.
fn visit(alloc: Global, sup: &Super, under: &mut Silent, taken: u64) -> Result<Stored, AllocError>
    requires valid { IsValid sup.now }
    requires block_size { sup.now.block_size ≡ 1024 }
    requires size { under.old.blocks.block_size ≡ 1024 }
    requires blocks { natural sup.now.num_blocks ≡ 16 }
    requires taken { taken < 16 }
{
    let mut claims = Claims::new(alloc, 16)?;
    let _ = claims.claim(taken, 1);
    match visit_stored(alloc, under, sup, 6, &mut claims) {
        Ok(rows) => Ok(Stored::Rows(rows.len(), claims.count())),
        Err(fault) => Ok(fault_says(fault)),
    }
}

/// Goes over it where the row `b` has this value, the bytes of the inode at block 11 are in this block, and this one is claimed at first.
fn visit_with(alloc: Global, other: i64, first: u16, taken: u64) -> Result<Stored, Fail> {
    let sup = small_superblock(16, 1, [run(2, 2), run(4, 1), run(5, 1)])?;
    let meant = is_meant(sup);
    if !meant || taken >= 16 {
        return Ok(Stored::Other);
    }
    let mut under = Silent {
        blocks: volume(alloc, 16384, other, first)?,
    };
    Ok(visit(alloc, &sup, &mut under, taken)?)
}

#[test]
fn a_block_of_an_attribute_is_found_with_the_inode_that_has_it_before_or_was_claimed_at_first(
    rt: HostRuntime,
) -> Result<(), Fail> {
    let alloc = rt.alloc();
    // blocks 6 to 12 and 15; `b` names the inode that `a` does; its bytes are in the block of the directory, a page of that, the block of `a`, the
    // bytes of that, its own block, or the one that was claimed; that is a block of `a`, or of the directory
    let table: [(i64, u16, u64, Stored); 10] = [
        (11, 12, 15, Stored::Rows(4, 8)),
        (9, 12, 15, Stored::Shared(9, 9, 9)),
        (11, 6, 15, Stored::Shared(6, 6, 11)),
        (11, 8, 15, Stored::Shared(8, 6, 11)),
        (11, 9, 15, Stored::Shared(9, 9, 11)),
        (11, 10, 15, Stored::Shared(10, 9, 11)),
        (11, 11, 15, Stored::Shared(11, 11, 11)),
        (11, 15, 15, Stored::Taken(15, 11)),
        (11, 12, 10, Stored::Taken(10, 9)),
        (11, 12, 7, Stored::Taken(7, 6)),
    ];
    for (other, first, taken, wanted) in table {
        assert_eq!(rt; visit_with(alloc, other, first, taken)?, wanted);
    }
    Ok(())
}
