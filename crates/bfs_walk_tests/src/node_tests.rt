// A volume of 16 blocks of 1,024 bytes, whole and broken: the root is at block 4 with two pages of a tree in blocks 6 and 7, which names
// the files `a` and `b` at blocks 8 and 9, each with a stream of a block or with none.
ghost use Rattle.std.specs.Prelude.{◌≡◌, ◌<◌, IfOk, length};
ghost use Rattle.bfs_super.specs.Conditions.{IsValid, natural, block_of_run};

use crate::volumes::{is_meant, over};
use bfs_bytes::{Run, put_i64, put_run, put_u32};
use bfs_claims::Claims;
use bfs_finding::{Finding, InodePart};
use bfs_inode_walk::VisitFault;
use bfs_nodes_walk::{NodeFacts, walk_nodes};
use bfs_super::Super;
use bfs_txn::{Blocks, MemBlocks};
use bfs_volume_fixtures::{Silent, run, small_superblock};
use std::alloc::{AllocError, Global};
use std::test::Fail;

/// Writes an inode with this mode, whose parent is the root.
fn put_inode(bytes: &mut [u8], block: u16, mode: u32)
    requires size { length bytes.old ≡ 16384 }
    requires inside { block < 16 }
    ensures { length bytes.new ≡ 16384 }
{
    let at = 1024 * usize::from(block);
    put_u32(bytes, at, 0x3bbe0ad9);
    put_run(bytes, at + 4, run(block, 1));
    put_u32(bytes, at + 20, mode);
    put_u32(bytes, at + 24, 1);
    put_run(bytes, at + 44, run(4, 1));
    put_u32(bytes, at + 64, 1024);
}

/// Writes the file at a block with its own name, of one byte, and its stream, which is this run of one block or none.
fn put_file(bytes: &mut [u8], block: u16, name: u32, stream: Run)
    requires size { length bytes.old ≡ 16384 }
    requires inside { block < 16 }
    ensures { length bytes.new ≡ 16384 }
{
    put_inode(bytes, block, 0x81a4);
    let at = 1024 * usize::from(block);
    let size = if stream.len == 0 { 0 } else { 1024 };
    put_run(bytes, at + 72, stream);
    put_i64(bytes, at + 168, size);
    put_i64(bytes, at + 208, size);
    put_u32(bytes, at + 232, 0x43535452);
    put_u32(bytes, at + 236, 0x10001);
    put_u32(bytes, at + 240, 0x13);
    put_u32(bytes, at + 244, name);
}

/// Writes the root's inode, and the header of its tree.
fn put_root(bytes: &mut [u8])
    requires size { length bytes.old ≡ 16384 }
    ensures { length bytes.new ≡ 16384 }
{
    put_inode(bytes, 4, 0x41ed);
    put_run(bytes, 4168, run(6, 2));
    put_i64(bytes, 4264, 2048);
    put_i64(bytes, 4304, 2048);
    put_u32(bytes, 6144, 0x69f6c2e8);
    put_u32(bytes, 6148, 1024);
    put_u32(bytes, 6152, 1);
    put_i64(bytes, 6160, 1024);
    put_i64(bytes, 6168, -1);
    put_i64(bytes, 6176, 2048);
}

/// Writes the only leaf: `.` and `..` are the root, `a` is the file at block 8, and `b` has this value.
fn put_leaf(bytes: &mut [u8], other: i64)
    requires size { length bytes.old ≡ 16384 }
    ensures { length bytes.new ≡ 16384 }
{
    put_i64(bytes, 7168, -1);
    put_i64(bytes, 7176, -1);
    put_i64(bytes, 7184, -1);
    put_u32(bytes, 7192, 0x50004);
    put_u32(bytes, 7196, 0x612e2e2e);
    put_u32(bytes, 7200, 0x62);
    put_u32(bytes, 7208, 0x30001);
    put_u32(bytes, 7212, 0x50004);
    put_values(bytes, other);
}

/// The values of the four rows.
fn put_values(bytes: &mut [u8], other: i64)
    requires size { length bytes.old ≡ 16384 }
    ensures { length bytes.new ≡ 16384 }
{
    put_i64(bytes, 7216, 4);
    put_i64(bytes, 7224, 4);
    put_i64(bytes, 7232, 8);
    put_i64(bytes, 7240, other);
}

/// What a volume has: the value of the row `b`, the streams of the two files, and the address of the second one's attribute directory.
#[derive(Clone, Copy, Debug)]
struct Case {
    other: i64,
    first: Run,
    second: Run,
    attributes: Run,
}

/// Writes the whole volume.
fn put_all(bytes: &mut [u8], case: Case)
    requires size { length bytes.old ≡ 16384 }
    ensures { length bytes.new ≡ 16384 }
{
    put_root(bytes);
    put_leaf(bytes, case.other);
    put_file(bytes, 8, 0x61, case.first);
    put_file(bytes, 9, 0x62, case.second);
    put_run(bytes, 9268, case.attributes);
}

/// The blocks of a volume.
fn volume(alloc: Global, size: usize, case: Case) -> Result<MemBlocks, AllocError>
    requires size { size ≡ 16384 }
    ensures { IfOk result (λ b. b.block_size ≡ 1024) }
{
    let mut bytes = vec![in alloc; 0u8; size]?;
    put_all(bytes.as_mut_slice(), case);
    Ok(over(bytes))
}

/// What came of it: how many rows were followed, how many blocks are claimed then, and of how many nodes it is kept that all attributes are items; a finding; or a block that is taken, and the inode that has it.
#[derive(Clone, Copy, Debug, PartialEq, Eq)]
enum Seen {
    Walked(usize, u64, usize),
    Inode(InodePart, i64),
    Row(i64),
    Shared(u64, u64, u64),
    Taken(u64, u64),
    Other,
}

/// What a fault says.
fn told_by(fault: VisitFault) -> Seen {
    match fault {
        VisitFault::Wrong(Finding::Inode { part, found, .. }) => Seen::Inode(part, found),
        VisitFault::Wrong(Finding::Row { value, .. }) => Seen::Row(value),
        VisitFault::Wrong(
            Finding::Shared {
                block,
                first,
                second,
            },
        ) => Seen::Shared(block, first, second),
        VisitFault::Taken { block, owner } => Seen::Taken(block, owner),
        _ => Seen::Other,
    }
}

/// How many nodes have all their attributes in items, by what is kept of them.
fn plain_among(facts: &[NodeFacts]) -> usize {
    facts.iter().filter(|facts| facts.plain).count()
}

/// Goes over the nodes, where block 0 is claimed.
fn walk(alloc: Global, sup: &Super, under: &mut Silent, root: u64) -> Result<Seen, AllocError>
    requires valid { IsValid sup.now }
    requires block_size { sup.now.block_size ≡ 1024 }
    requires size { under.old.blocks.block_size ≡ 1024 }
    requires blocks { natural sup.now.num_blocks ≡ 16 }
    requires root { root ≡ block_of_run sup.now sup.now.root_dir }
    requires inside { root < 16 }
{
    let mut claims = Claims::new(alloc, 16)?;
    let _ = claims.claim(0, 1);
    match walk_nodes(alloc, under, sup, root, &mut claims) {
        Ok(all) => Ok(Seen::Walked(all.leads.len(), claims.count(), plain_among(&all.facts))),
        Err(fault) => Ok(told_by(fault)),
    }
}

/// Goes over the nodes of such a volume.
fn walk_with(alloc: Global, case: Case) -> Result<Seen, Fail> {
    let sup = small_superblock(16, 1, [run(2, 2), run(4, 1), run(5, 1)])?;
    let meant = is_meant(sup);
    if !meant {
        return Ok(Seen::Other);
    }
    let root = root_of(sup);
    if root >= 16 {
        return Ok(Seen::Other);
    }
    let mut under = Silent {
        blocks: volume(alloc, 16384, case)?,
    };
    Ok(walk(alloc, &sup, &mut under, root)?)
}

/// The block of the root.
fn root_of(sup: Super) -> u64
    requires { IsValid sup }
    ensures { result ≡ block_of_run sup sup.root_dir }
{
    sup.block_of(sup.root_dir)
}

/// A volume with such a row, and such streams.
fn make_case(other: i64, first: Run, second: Run) -> Case {
    Case {
        other,
        first,
        second,
        attributes: run(0, 0),
    }
}

#[test]
fn two_files_are_walked_or_what_is_wrong_with_them_is_found(rt: HostRuntime) -> Result<(), Fail> {
    let none = run(0, 0);
    // blocks 0, 4, 6 to 9; with two more; no block of the volume; no inode there
    let table: [(Case, Seen); 4] = [
        (make_case(9, none, none), Seen::Walked(2, 6, 2)),
        (make_case(9, run(10, 1), run(11, 1)), Seen::Walked(2, 8, 2)),
        (make_case(16, none, none), Seen::Row(16)),
        (make_case(10, none, none), Seen::Inode(InodePart::Magic, 0)),
    ];
    for (case, wanted) in table {
        assert_eq!(rt; walk_with(rt.alloc(), case)?, wanted);
    }
    Ok(())
}

#[test]
fn of_a_node_with_an_attribute_directory_it_is_not_kept_that_all_attributes_are_items(
    rt: HostRuntime,
) -> Result<(), Fail> {
    let none = run(0, 0);
    // The directory isn't read: another pass goes over it.
    let case = Case {
        attributes: run(12, 1),
        ..make_case(9, none, none)
    };
    assert_eq!(rt; walk_with(rt.alloc(), case)?, Seen::Walked(2, 6, 1));
    Ok(())
}

#[test]
fn a_block_of_two_nodes_is_shared_by_the_first_and_one_of_the_system_is_taken(
    rt: HostRuntime,
) -> Result<(), Fail> {
    let none = run(0, 0);
    // a file that two rows name; a block of the root; the first file's inode; a block of both files; the superblock
    let table: [(Case, Seen); 5] = [
        (make_case(8, none, none), Seen::Shared(8, 8, 8)),
        (make_case(9, none, run(7, 1)), Seen::Shared(7, 4, 9)),
        (make_case(9, none, run(8, 1)), Seen::Shared(8, 8, 9)),
        (make_case(9, run(10, 1), run(10, 1)), Seen::Shared(10, 8, 9)),
        (make_case(9, none, run(0, 1)), Seen::Taken(0, 9)),
    ];
    for (case, wanted) in table {
        assert_eq!(rt; walk_with(rt.alloc(), case)?, wanted);
    }
    Ok(())
}
