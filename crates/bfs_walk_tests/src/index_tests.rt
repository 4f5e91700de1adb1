// A volume of 20 blocks of 1,024 bytes, whole and broken. The index directory is at block 5 with two pages of a tree in blocks 6 and 7,
// which names the indices at blocks 8, 9 and 10; these have their pages in blocks 11 to 16.
ghost use Rattle.std.specs.Prelude.{◌≡◌, ◌<◌, ◌+◌, IfOk, length, true};
ghost use Rattle.bfs_super.specs.Conditions.{IsValid, natural};

use bfs_bytes::{Run, put_bytes, put_i64, put_run, put_u16, put_u32};
use bfs_claims::Claims;
use bfs_finding::{Finding, InodePart, PagePart};
use bfs_index_walk::{FoundIndex, find_index_owner, visit_indices};
use bfs_inode_walk::VisitFault;
use bfs_node::KeyKind;
use bfs_super::Super;
use bfs_txn::{Blocks, MemBlocks};
use bfs_volume_fixtures::{Silent, run, small_superblock};
use std::alloc::{AllocError, Global};
use std::test::Fail;

/// Writes an inode that is marked as a part of the index, whose stream has the two blocks from this one on.
fn put_inode(bytes: &mut [u8], block: u16, pages: u16)
    requires size { length bytes.old ≡ 20480 }
    requires inside { block < 20 }
    ensures { length bytes.new ≡ 20480 }
{
    let at = 1024 * usize::from(block);
    put_u32(bytes, at, 0x3bbe0ad9);
    put_run(bytes, at + 4, run(block, 1));
    put_u32(bytes, at + 20, 0x20000000);
    put_u32(bytes, at + 24, 1);
    put_u32(bytes, at + 64, 1024);
    put_run(bytes, at + 72, run(pages, 2));
    put_i64(bytes, at + 168, 2048);
    put_i64(bytes, at + 208, 2048);
}

/// Writes a tree of this kind of keys into the two blocks from this one on, with one leaf, which has no row.
fn put_tree(bytes: &mut [u8], block: u16, kind: u32)
    requires size { length bytes.old ≡ 20480 }
    requires inside { block < 19 }
    ensures { length bytes.new ≡ 20480 }
{
    let at = 1024 * usize::from(block);
    put_u32(bytes, at, 0x69f6c2e8);
    put_u32(bytes, at + 4, 1024);
    put_u32(bytes, at + 8, 1);
    put_u32(bytes, at + 12, kind);
    put_i64(bytes, at + 16, 1024);
    put_i64(bytes, at + 24, -1);
    put_i64(bytes, at + 32, 2048);
    put_i64(bytes, at + 1024, -1);
    put_i64(bytes, at + 1032, -1);
    put_i64(bytes, at + 1040, -1);
}

/// Writes the rows of the index directory, and one of the index at block 9, which lists node 4 by the name `a`.
fn put_rows(bytes: &mut [u8])
    requires size { length bytes.old ≡ 20480 }
    ensures { length bytes.new ≡ 20480 }
{
    put_u32(bytes, 7192, 0x150003);
    put_bytes(bytes, 7196, b"last_modifiednamesize");
    put_u32(bytes, 7224, 0x11000d);
    put_u16(bytes, 7228, 21);
    put_i64(bytes, 7230, 8);
    put_i64(bytes, 7238, 9);
    put_i64(bytes, 7246, 10);
    put_u32(bytes, 14360, 0x10001);
    put_u32(bytes, 14364, 0x61);
    put_u16(bytes, 14368, 1);
    put_i64(bytes, 14370, 4);
}

/// Writes the inodes and the pages of all trees.
fn put_trees(bytes: &mut [u8])
    requires size { length bytes.old ≡ 20480 }
    ensures { length bytes.new ≡ 20480 }
{
    put_inode(bytes, 5, 6);
    put_inode(bytes, 8, 11);
    put_inode(bytes, 9, 13);
    put_inode(bytes, 10, 15);
    put_tree(bytes, 6, 0);
    put_tree(bytes, 11, 3);
    put_tree(bytes, 13, 0);
    put_tree(bytes, 15, 3);
}

/// Writes the whole volume, and then another number into the eight bytes from a place on.
fn put_all(bytes: &mut [u8], at: usize, number: i64)
    requires size { length bytes.old ≡ 20480 }
    ensures { length bytes.new ≡ 20480 }
{
    put_trees(bytes);
    put_rows(bytes);
    if at <= 20472 {
        put_i64(bytes, at, number);
    }
}

/// Blocks of 1,024 bytes over these.
fn over(bytes: Vec<u8>) -> MemBlocks
    requires { length bytes.items ≡ 20480 }
    ensures { result.block_size ≡ 1024 }
{
    MemBlocks::new(bytes, 1024)
}

/// The blocks of the volume, with another number in the eight bytes from a place on.
fn volume(alloc: Global, size: usize, at: usize, number: i64) -> Result<MemBlocks, AllocError>
    requires size { size ≡ 20480 }
    ensures { IfOk result (λ b. b.block_size ≡ 1024) }
{
    let mut bytes = vec![in alloc; 0u8; size]?;
    put_all(bytes.as_mut_slice(), at, number);
    Ok(over(bytes))
}

/// What came of it: how many indices there are, whether they are the three of the volume, and how many blocks are claimed then; a finding;
/// a block that is taken; or which inode has a block.
#[derive(Clone, Copy, Debug, PartialEq, Eq)]
enum Seen {
    Walked(usize, bool, u64),
    Inode(u64, InodePart, i64),
    Row(u64, i64),
    Page(u64, u64, PagePart),
    Link(u64, u64, i64, i64),
    Shared(u64, u64, u64),
    Taken(u64, u64),
    Owner(u64),
    Nobody,
    Other,
}

/// Has the index with this number of a list this name, block and kind?
fn is_index(found: &[FoundIndex], i: usize, name: &[u8], id: u64, kind: KeyKind) -> bool {
    if i >= found.len() {
        return false;
    }
    let index = &found[i];
    index.name.as_slice() == name && index.id == id && index.kind == kind
}

/// Are they the three of the volume?
fn are_meant(found: &[FoundIndex]) -> bool {
    is_index(found, 0, b"last_modified", 8, KeyKind::I64)
        && is_index(found, 1, b"name", 9, KeyKind::Text)
        && is_index(found, 2, b"size", 10, KeyKind::I64)
}

/// What a fault says.
fn told_by(fault: VisitFault) -> Seen {
    match fault {
        VisitFault::Wrong(Finding::Inode { block, part, found }) => Seen::Inode(block, part, found),
        VisitFault::Wrong(Finding::Row { owner, value }) => Seen::Row(owner, value),
        VisitFault::Wrong(Finding::TreePage { owner, page, part }) => Seen::Page(owner, page, part),
        VisitFault::Wrong(
            Finding::TreeLink {
                owner,
                page,
                found,
                wanted,
            },
        ) => Seen::Link(owner, page, found, wanted),
        VisitFault::Wrong(
            Finding::Shared {
                block,
                first,
                second,
            },
        ) => Seen::Shared(block, first, second),
        VisitFault::Taken { block, owner } => Seen::Taken(block, owner),
        _ => Seen::Other,
    }
}

/// Goes over the indices, where block 0 is claimed.
fn walk(alloc: Global, sup: &Super, under: &mut Silent) -> Result<Seen, AllocError>
    requires valid { IsValid sup.now }
    requires block_size { sup.now.block_size ≡ 1024 }
    requires size { under.old.blocks.block_size ≡ 1024 }
    requires blocks { natural sup.now.num_blocks ≡ 20 }
{
    let mut claims = Claims::new(alloc, 20)?;
    let _ = claims.claim(0, 1);
    match visit_indices(alloc, under, sup, &mut claims) {
        Ok(found) => Ok(Seen::Walked(found.len(), are_meant(&found), claims.count())),
        Err(fault) => Ok(told_by(fault)),
    }
}

/// Goes over the indices, and finds which of them has a block.
fn owner_of(alloc: Global, sup: &Super, under: &mut Silent, block: u64) -> Result<Seen, AllocError>
    requires valid { IsValid sup.now }
    requires block_size { sup.now.block_size ≡ 1024 }
    requires size { under.old.blocks.block_size ≡ 1024 }
    requires blocks { natural sup.now.num_blocks ≡ 20 }
{
    let mut claims = Claims::new(alloc, 20)?;
    let found = match visit_indices(alloc, under, sup, &mut claims) {
        Ok(found) => found,
        Err(fault) => return Ok(told_by(fault)),
    };
    match find_index_owner(alloc, under, sup, &found, block) {
        Ok(Some(id)) => Ok(Seen::Owner(id)),
        Ok(None) => Ok(Seen::Nobody),
        Err(fault) => Ok(told_by(fault)),
    }
}

/// Has the volume the blocks that are meant?
fn is_meant(sup: Super) -> bool
    ensures size { result ≡ true → sup.block_size ≡ 1024 }
    ensures blocks { result ≡ true → natural sup.num_blocks ≡ 20 }
{
    if sup.block_size != 1024 || sup.num_blocks != 20 {
        return false;
    }
    true
}

/// Goes over them in the volume with this run of the index directory, where another number stands in the eight bytes from a place on.
fn walk_with(alloc: Global, indices: Run, at: usize, number: i64) -> Result<Seen, Fail> {
    let sup = small_superblock(20, 1, [run(2, 2), run(4, 1), indices])?;
    let meant = is_meant(sup);
    if !meant {
        return Ok(Seen::Other);
    }
    let mut under = Silent {
        blocks: volume(alloc, 20480, at, number)?,
    };
    Ok(walk(alloc, &sup, &mut under)?)
}

/// Finds which of them has a block in the whole volume, with this run of the index directory.
fn owner_with(alloc: Global, indices: Run, block: u64) -> Result<Seen, Fail> {
    let sup = small_superblock(20, 1, [run(2, 2), run(4, 1), indices])?;
    let meant = is_meant(sup);
    if !meant {
        return Ok(Seen::Other);
    }
    let mut under = Silent {
        blocks: volume(alloc, 20480, 0, 0)?,
    };
    Ok(owner_of(alloc, &sup, &mut under, block)?)
}

#[test]
fn three_indices_are_found_or_what_is_wrong_with_one_is(rt: HostRuntime) -> Result<(), Fail> {
    let alloc = rt.alloc();
    // blocks 0 and 5 to 16; a mode without the bit of the index; no block of the volume; an index named twice; pages of the index at block 9
    // in that at block 10, and of the directory in that at block 8; block 0 in an index and in the directory; a leaf with a link to the left;
    // a kind of keys that there isn't; another magic number
    let table: [(usize, i64, Seen); 11] = [
        (0, 0, Seen::Walked(3, true, 13)),
        (8212, 0x1000081a4, Seen::Inode(8, InodePart::Mode, 0x81a4)),
        (7246, 20, Seen::Row(5, 20)),
        (7246, 9, Seen::Shared(9, 9, 9)),
        (10312, 0x2000d00000000, Seen::Shared(13, 9, 10)),
        (8264, 0x2000600000000, Seen::Shared(6, 5, 8)),
        (10312, 0x2000000000000, Seen::Taken(0, 10)),
        (5192, 0x2000000000000, Seen::Taken(0, 5)),
        (14336, 1024, Seen::Link(9, 1024, 1024, -1)),
        (15368, 0x700000001, Seen::Page(10, 0, PagePart::Kind)),
        (15360, 0x40000000000, Seen::Page(10, 0, PagePart::Magic)),
    ];
    for (at, number, wanted) in table {
        assert_eq!(rt; walk_with(alloc, run(5, 1), at, number)?, wanted);
    }
    Ok(())
}

#[test]
fn without_an_index_directory_no_index_is_found(rt: HostRuntime) -> Result<(), Fail> {
    let alloc = rt.alloc();
    assert_eq!(rt;
        walk_with(alloc, run(0, 0), 0, 0)?,
        Seen::Walked(0, false, 1)
    );
    Ok(())
}

#[test]
fn the_owner_of_a_block_among_the_indices_is_found(rt: HostRuntime) -> Result<(), Fail> {
    let alloc = rt.alloc();
    let table: [(u64, Seen); 6] = [
        (5, Seen::Owner(5)),
        (7, Seen::Owner(5)),
        (12, Seen::Owner(8)),
        (9, Seen::Owner(9)),
        (16, Seen::Owner(10)),
        (17, Seen::Nobody),
    ];
    for (block, wanted) in table {
        assert_eq!(rt; owner_with(alloc, run(5, 1), block)?, wanted);
    }
    assert_eq!(rt; owner_with(alloc, run(0, 0), 5)?, Seen::Nobody);
    Ok(())
}
