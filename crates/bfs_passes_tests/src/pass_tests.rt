// A volume of 24 blocks of 1,024 bytes, whole and broken. Block 1 is the bitmap and blocks 2 and 3 are the log. The root is at block 4 with
// its tree in blocks 6 and 7, and the index directory at block 5 with its tree in blocks 8 and 9. The indices `name`, `size` and
// `last_modified` are at blocks 10, 11 and 12, with their trees in blocks 13 to 18. Where there is a file, it is `a` at block 19, with 600
// bytes in block 20. So 19 blocks are in use without it, and 21 with it.
ghost use Rattle.std.specs.Prelude.{◌≡◌, ◌<◌, IfOk, length, true};
ghost use Rattle.bfs_super.specs.Conditions.{IsValid};

use bfs_bytes::{Run, put_bytes, put_i64, put_run, put_u16, put_u32};
use bfs_finding::{Finding, InodePart};
use bfs_passes::{PassFault, Summary, check_passes};
use bfs_super::{Super, SuperFault};
use bfs_tree::{BY_NAME, BY_SIZE, BY_TIME, Key};
use bfs_txn::MemBlocks;
use bfs_volume_fixtures::{Shape, Silent, run};
use std::alloc::{AllocError, Global};
use std::test::Fail;

/// The superblock of the volume, with this count of used blocks and this begin of the log, which ends at 0.
fn superblock(used: i64, start: i64) -> Result<Super, SuperFault>
    ensures valid { IfOk result IsValid }
{
    let shape = Shape {
        size: 1024,
        shift: 10,
        blocks: 24,
        groups: 1,
        used,
        start,
        log: run(2, 2),
        root: run(4, 1),
        indices: run(5, 1),
    };
    shape.superblock()
}

/// Writes an inode with this mode, whose parent is the root, and whose stream has this run and so many bytes.
fn put_inode(bytes: &mut [u8], block: u16, mode: u32, stream: Run, size: i64)
    requires size { length bytes.old ≡ 24576 }
    requires inside { block < 24 }
    ensures { length bytes.new ≡ 24576 }
{
    let at = 1024 * usize::from(block);
    put_u32(bytes, at, 0x3bbe0ad9);
    put_run(bytes, at + 4, run(block, 1));
    put_u32(bytes, at + 20, mode);
    put_u32(bytes, at + 24, 1);
    put_run(bytes, at + 44, run(4, 1));
    put_u32(bytes, at + 64, 1024);
    put_run(bytes, at + 72, stream);
    put_i64(bytes, at + 168, 1024 * i64::from(stream.len));
    put_i64(bytes, at + 208, size);
}

/// Writes a tree of this kind of keys into the two blocks from this one on, with one leaf, which has no row.
fn put_tree(bytes: &mut [u8], block: u16, kind: u32)
    requires size { length bytes.old ≡ 24576 }
    requires inside { block < 23 }
    ensures { length bytes.new ≡ 24576 }
{
    let at = 1024 * usize::from(block);
    put_u32(bytes, at, 0x69f6c2e8);
    put_u32(bytes, at + 4, 1024);
    put_u32(bytes, at + 8, 1);
    put_u32(bytes, at + 12, kind);
    put_i64(bytes, at + 16, 1024);
    put_i64(bytes, at + 24, -1);
    put_i64(bytes, at + 32, 2048);
    put_i64(bytes, at + 1024, -1);
    put_i64(bytes, at + 1032, -1);
    put_i64(bytes, at + 1040, -1);
}

/// Writes the inodes and the pages of all trees.
fn put_trees(bytes: &mut [u8])
    requires size { length bytes.old ≡ 24576 }
    ensures { length bytes.new ≡ 24576 }
{
    put_inode(bytes, 4, 0x41ed, run(6, 2), 2048);
    put_inode(bytes, 5, 0x20000000, run(8, 2), 2048);
    put_inode(bytes, 10, 0x20000000, run(13, 2), 2048);
    put_inode(bytes, 11, 0x20000000, run(15, 2), 2048);
    put_inode(bytes, 12, 0x20000000, run(17, 2), 2048);
    put_tree(bytes, 6, 0);
    put_tree(bytes, 8, 0);
    put_tree(bytes, 13, 0);
    put_tree(bytes, 15, 3);
    put_tree(bytes, 17, 3);
}

/// Writes the bitmap, the rows `.` and `..` of the root, and the rows of the index directory.
fn put_fresh_rows(bytes: &mut [u8])
    requires size { length bytes.old ≡ 24576 }
    ensures { length bytes.new ≡ 24576 }
{
    put_i64(bytes, 1024, 0x7ffff);
    put_u32(bytes, 7192, 0x30002);
    put_u32(bytes, 7196, 0x2e2e2e);
    put_u32(bytes, 7200, 0x30001);
    put_i64(bytes, 7204, 4);
    put_i64(bytes, 7212, 4);
    put_u32(bytes, 9240, 0x150003);
    put_bytes(bytes, 9244, b"last_modifiednamesize");
    put_u32(bytes, 9272, 0x11000d);
    put_u16(bytes, 9276, 21);
    put_i64(bytes, 9278, 12);
    put_i64(bytes, 9286, 10);
    put_i64(bytes, 9294, 11);
}

/// Writes the inode of the file: its content was changed at the second 5, and its name is `a`.
fn put_file(bytes: &mut [u8])
    requires size { length bytes.old ≡ 24576 }
    ensures { length bytes.new ≡ 24576 }
{
    put_inode(bytes, 19, 0x81a4, run(20, 1), 600);
    put_i64(bytes, 19492, 0x50000);
    put_u32(bytes, 19688, 0x43535452);
    put_u32(bytes, 19692, 0x10001);
    put_u32(bytes, 19696, 0x13);
    put_u32(bytes, 19700, 0x61);
}

/// Writes the bitmap and the rows of the root, with the file.
fn put_root_rows(bytes: &mut [u8])
    requires size { length bytes.old ≡ 24576 }
    ensures { length bytes.new ≡ 24576 }
{
    put_i64(bytes, 1024, 0x1fffff);
    put_u32(bytes, 7192, 0x40003);
    put_u32(bytes, 7196, 0x612e2e2e);
    put_u32(bytes, 7200, 0x30001);
    put_u16(bytes, 7204, 4);
    put_i64(bytes, 7206, 4);
    put_i64(bytes, 7214, 4);
    put_i64(bytes, 7222, 19);
}

/// Writes the rows of the file in the indices.
fn put_index_rows(bytes: &mut [u8])
    requires size { length bytes.old ≡ 24576 }
    ensures { length bytes.new ≡ 24576 }
{
    put_u32(bytes, 14360, 0x10001);
    put_u32(bytes, 14364, 0x61);
    put_u16(bytes, 14368, 1);
    put_i64(bytes, 14370, 19);
    put_u32(bytes, 16408, 0x80001);
    put_i64(bytes, 16412, 600);
    put_u16(bytes, 16424, 8);
    put_i64(bytes, 16426, 19);
    put_u32(bytes, 18456, 0x80001);
    put_i64(bytes, 18460, 0x50000);
    put_u16(bytes, 18472, 8);
    put_i64(bytes, 18474, 19);
}

/// Writes the whole volume, with or without the file, and then another number into the eight bytes from a place on.
fn put_all(bytes: &mut [u8], file: bool, at: usize, number: i64)
    requires size { length bytes.old ≡ 24576 }
    ensures { length bytes.new ≡ 24576 }
{
    put_trees(bytes);
    put_fresh_rows(bytes);
    if file {
        put_file(bytes);
        put_root_rows(bytes);
        put_index_rows(bytes);
    }
    if at <= 24568 {
        put_i64(bytes, at, number);
    }
}

/// Blocks of 1,024 bytes over these.
fn over(bytes: Vec<u8>) -> MemBlocks
    requires { length bytes.items ≡ 24576 }
    ensures { result.block_size ≡ 1024 }
{
    MemBlocks::new(bytes, 1024)
}

/// The blocks of the volume, with or without the file, with another number in the eight bytes from a place on.
fn volume(
    alloc: Global,
    size: usize,
    file: bool,
    at: usize,
    number: i64,
) -> Result<MemBlocks, AllocError>
    requires size { size ≡ 24576 }
    ensures { IfOk result (λ b. b.block_size ≡ 1024) }
{
    let mut bytes = vec![in alloc; 0u8; size]?;
    put_all(bytes.as_mut_slice(), file, at, number);
    Ok(over(bytes))
}

/// Which index a finding names.
#[derive(Clone, Copy, Debug, PartialEq, Eq)]
enum Index {
    Name,
    Size,
    Time,
    Other,
}

/// What came of it: the summary, or a finding; a block that is shared or not marked comes with its owners. The key of the name `a` is the number of its byte.
#[derive(Clone, Copy, Debug, PartialEq, Eq)]
enum Seen {
    Passed(Summary),
    Log(i64, i64),
    Used(i64, u64),
    Extra(u64),
    Unset(u64, u64),
    Shared(u64, u64, u64),
    Inode(u64, InodePart, i64),
    Name(u64),
    Parent(u64, i64, u64),
    NoIndex(Index),
    NoRow(Index, i64, u64),
    RowExtra(Index, i64, u64),
    Other,
}

/// The index of this name.
fn index_of(name: &[u8]) -> Index {
    if name == BY_NAME {
        return Index::Name;
    }
    if name == BY_SIZE {
        return Index::Size;
    }
    if name == BY_TIME {
        return Index::Time;
    }
    Index::Other
}

/// The number of a key: the byte of the name `a`, or the number itself.
fn number_of(key: Key) -> i64 {
    match key {
        Key::Text(name) => {
            if name.as_slice() == b"a".as_slice() {
                0x61
            } else {
                -1
            }
        }
        Key::I64(number) => number,
        _ => -1,
    }
}

/// What a finding says.
fn found_by(finding: Finding) -> Seen {
    match finding {
        Finding::Log { start, end } => Seen::Log(start, end),
        Finding::Inode { block, part, found } => Seen::Inode(block, part, found),
        Finding::Name { id, .. } => Seen::Name(id),
        Finding::Parent { id, found, wanted } => Seen::Parent(id, found, wanted),
        Finding::IndexMissing { name } => Seen::NoIndex(index_of(name.as_slice())),
        Finding::RowMissing { index, key, id } => {
            Seen::NoRow(index_of(index.as_slice()), number_of(key), id)
        }
        Finding::RowExtra { index, key, id } => {
            Seen::RowExtra(index_of(index.as_slice()), number_of(key), id)
        }
        Finding::Shared {
            block,
            first,
            second,
        } => Seen::Shared(block, first, second),
        Finding::BitUnset { block, owner } => Seen::Unset(block, owner),
        Finding::BitExtra { block } => Seen::Extra(block),
        Finding::Used { found, wanted } => Seen::Used(found, wanted),
        _ => Seen::Other,
    }
}

/// What a fault says.
fn told_by(fault: PassFault) -> Seen {
    match fault {
        PassFault::Wrong(finding) => found_by(finding),
        PassFault::Block(_) => Seen::Other,
    }
}

/// Passes the volume.
fn pass(alloc: Global, sup: &Super, under: &mut Silent) -> Seen
    requires valid { IsValid sup.now }
    requires block_size { sup.now.block_size ≡ 1024 }
    requires size { under.old.blocks.block_size ≡ 1024 }
{
    match check_passes(alloc, under, sup) {
        Ok(summary) => Seen::Passed(summary),
        Err(fault) => told_by(fault),
    }
}

/// Has the volume blocks of the size that is meant?
fn is_meant(sup: Super) -> bool
    ensures { result ≡ true → sup.block_size ≡ 1024 }
{
    sup.block_size == 1024
}

/// Passes the volume, with or without the file, where another number stands in the eight bytes from a place on.
fn pass_with(
    alloc: Global,
    sup: Super,
    file: bool,
    at: usize,
    number: i64,
) -> Result<Seen, AllocError>
    requires { IsValid sup }
{
    let meant = is_meant(sup);
    if !meant {
        return Ok(Seen::Other);
    }
    let mut under = Silent {
        blocks: volume(alloc, 24576, file, at, number)?,
    };
    Ok(pass(alloc, &sup, &mut under))
}

#[test]
fn a_volume_with_a_file_is_passed_or_what_is_wrong_is_told(rt: HostRuntime) -> Result<(), Fail> {
    let alloc = rt.alloc();
    let sup = superblock(21, 0)?;
    let whole = Summary { nodes: 2, used: 21 };
    // a bit too many; `name` without its row; `size` with a higher and a lower key; `last_modified` with a higher one;
    // `size` by the name `sizf`, `last_modified` by the name `last_moeified`; an index directory without rows; another
    // magic number; its own name is `b`; its parent, and the row `..` of the root, is the index directory
    let table: [(usize, i64, Seen); 13] = [
        (0, 0, Seen::Passed(whole)),
        (1024, 0x5fffff, Seen::Extra(22)),
        (14360, 0, Seen::NoRow(Index::Name, 0x61, 19)),
        (16412, 601, Seen::NoRow(Index::Size, 600, 19)),
        (16412, 599, Seen::RowExtra(Index::Size, 599, 19)),
        (18460, 0x60000, Seen::NoRow(Index::Time, 0x50000, 19)),
        (9257, 0x667a6973656d616e, Seen::NoIndex(Index::Size)),
        (9244, 0x656f6d5f7473616c, Seen::NoIndex(Index::Time)),
        (9240, 0, Seen::NoIndex(Index::Name)),
        (19456, 7, Seen::Inode(19, InodePart::Magic, 7)),
        (19696, 0x6200000013, Seen::Name(19)),
        (19500, 0x1000500000000, Seen::Parent(19, 5, 4)),
        (7214, 5, Seen::Parent(4, 5, 4)),
    ];
    for (at, number, wanted) in table {
        assert_eq!(rt; pass_with(alloc, sup, true, at, number)?, wanted);
    }
    Ok(())
}

#[test]
fn the_owners_of_a_block_are_told(rt: HostRuntime) -> Result<(), Fail> {
    let alloc = rt.alloc();
    let sup = superblock(21, 0)?;
    // the bits of a block of the root, of the file, of the log, of `size`, and of the index directory's inode aren't set; the stream of the file is
    // in a block of the root, in one of the log, and in its own inode; the stream of `size` in those of the root, of `name`, in the bitmap, and
    // in the inode of the file with its block
    let table: [(usize, i64, Seen); 12] = [
        (1024, 0x1fff7f, Seen::Unset(7, 4)),
        (1024, 0x0fffff, Seen::Unset(20, 19)),
        (1024, 0x1ffffb, Seen::Unset(2, 0)),
        (1024, 0x1f7fff, Seen::Unset(15, 11)),
        (1024, 0x1fffdf, Seen::Unset(5, 5)),
        (19528, 0x1000700000000, Seen::Shared(7, 4, 19)),
        (19528, 0x1000200000000, Seen::Shared(2, 0, 19)),
        (19528, 0x1001300000000, Seen::Shared(19, 19, 19)),
        (11336, 0x2000600000000, Seen::Shared(6, 4, 11)),
        (11336, 0x2000d00000000, Seen::Shared(13, 10, 11)),
        (11336, 0x2000100000000, Seen::Shared(1, 0, 11)),
        (11336, 0x2001300000000, Seen::Shared(19, 19, 11)),
    ];
    for (at, number, wanted) in table {
        assert_eq!(rt; pass_with(alloc, sup, true, at, number)?, wanted);
    }
    Ok(())
}

#[test]
fn a_fresh_volume_has_one_node(rt: HostRuntime) -> Result<(), Fail> {
    let alloc = rt.alloc();
    let sup = superblock(19, 0)?;
    let whole = Summary { nodes: 1, used: 19 };
    assert_eq!(rt; pass_with(alloc, sup, false, 0, 0)?, Seen::Passed(whole));
    Ok(())
}

#[test]
fn a_wrong_count_of_used_blocks_or_a_log_that_is_not_empty_is_told(
    rt: HostRuntime,
) -> Result<(), Fail> {
    let alloc = rt.alloc();
    let table: [(i64, i64, Seen); 3] = [
        (20, 0, Seen::Used(20, 21)),
        (19, 0, Seen::Used(19, 21)),
        (21, 1, Seen::Log(1, 0)),
    ];
    for (used, start, wanted) in table {
        let sup = superblock(used, start)?;
        assert_eq!(rt; pass_with(alloc, sup, true, 0, 0)?, wanted);
    }
    Ok(())
}
