// The names of a node with three items, and of its attribute directory with one row. In a volume of 16 blocks of 1,024 bytes the attributes of the
// root, which is at block 4: their directory is at block 6 with two pages of a tree in blocks 7 and 8, and names `a` at block 9 with its bytes in
// block 10, and `b` at block 11 with its bytes in block 12.
ghost use Rattle.std.specs.Prelude.{◌≡◌, ◌<◌, IfOk, length};
ghost use Rattle.bfs_super.specs.Conditions.{IsValid, natural};

use crate::volumes::{is_meant, over, put_header, put_inode, put_leaf, put_values};
use bfs_attrs_walk::find_attribute;
use bfs_bytes::{put_run, put_u32};
use bfs_finding::Finding;
use bfs_names_walk::NameRow;
use bfs_node_check::NodeFault;
use bfs_nodes_walk::check_names;
use bfs_super::Super;
use bfs_tree::Bytes;
use bfs_txn::{Blocks, MemBlocks};
use bfs_volume_fixtures::{Silent, run, small_superblock};
use std::alloc::{AllocError, Global};
use std::test::Fail;

/// An inode's bytes with its own name `n`, and two items with names of one byte.
fn inode_with(first: u8, second: u8) -> [u8; 1024]
    ensures { length result ≡ 1024 }
{
    let mut bytes = [0u8; 1024];
    put_u32(&mut bytes, 232, 0x43535452);
    put_u32(&mut bytes, 236, 0x10001);
    put_u32(&mut bytes, 240, 0x13);
    put_u32(&mut bytes, 244, 0x6e);
    put_u32(&mut bytes, 246, 0x43535452);
    put_u32(&mut bytes, 250, 0x10001);
    put_u32(&mut bytes, 254, u32::from(first));
    put_u32(&mut bytes, 260, 0x43535452);
    put_u32(&mut bytes, 264, 0x10001);
    put_u32(&mut bytes, 268, u32::from(second));
    bytes
}

/// What was found: nothing, or the first byte of the name that stands twice.
#[derive(Clone, Copy, Debug, PartialEq, Eq)]
enum Seen {
    Right,
    Twice(u8),
    Other,
}

fn first_of(name: &[u8]) -> u8 {
    if name.len() == 0 { 0 } else { name[0] }
}

fn told_by(fault: NodeFault) -> Seen {
    match fault {
        NodeFault::Wrong(Finding::Attribute { name, .. }) => Seen::Twice(first_of(name.as_slice())),
        _ => Seen::Other,
    }
}

fn check(alloc: Global, first: u8, second: u8, row: u8) -> Result<Seen, AllocError> {
    let name = Bytes::from_slice(alloc, &[row])?;
    let mut rows = Vec::new(alloc);
    rows.push(NameRow { name, value: 9 })?;
    match check_names(alloc, &inode_with(first, second), 8, &rows) {
        Ok(()) => Ok(Seen::Right),
        Err(fault) => Ok(told_by(fault)),
    }
}

#[test]
fn a_name_stands_once_among_items_and_rows_but_for_the_own_one(
    rt: HostRuntime,
) -> Result<(), Fail> {
    let alloc = rt.alloc();
    // two items; the own name; an item and the row; the row may have the own name
    let table: [(u8, u8, u8, Seen); 5] = [
        (0x61, 0x62, 0x63, Seen::Right),
        (0x61, 0x61, 0x63, Seen::Twice(0x61)),
        (0x61, 0x13, 0x63, Seen::Twice(0x13)),
        (0x61, 0x62, 0x62, Seen::Twice(0x62)),
        (0x61, 0x62, 0x13, Seen::Right),
    ];
    for (first, second, row, wanted) in table {
        assert_eq!(rt; check(alloc, first, second, row)?, wanted);
    }
    Ok(())
}

/// Writes the root's address of the directory, and the directory with its attributes.
fn put_all(bytes: &mut [u8])
    requires size { length bytes.old ≡ 16384 }
    ensures { length bytes.new ≡ 16384 }
{
    put_run(bytes, 4148, run(6, 1));
    put_inode(bytes, 6, 0x8000000, run(7, 2), 2048);
    put_inode(bytes, 9, 0x10000000, run(10, 1), 1024);
    put_inode(bytes, 11, 0x10000000, run(12, 1), 1024);
    put_header(bytes);
    put_leaf(bytes);
    put_values(bytes, 11);
}

/// The blocks of the volume.
fn volume(alloc: Global, size: usize) -> Result<MemBlocks, AllocError>
    requires size { size ≡ 16384 }
    ensures { IfOk result (λ b. b.block_size ≡ 1024) }
{
    let mut bytes = vec![in alloc; 0u8; size]?;
    put_all(bytes.as_mut_slice());
    Ok(over(bytes))
}

/// The owner of a block: none, this inode, or a fault.
#[derive(Clone, Copy, Debug, PartialEq, Eq)]
enum Owner {
    Nobody,
    Inode(u64),
    Fault,
}

/// Looks for a block among the attributes of a node.
fn look(alloc: Global, sup: &Super, under: &mut Silent, id: u64, block: u64) -> Owner
    requires valid { IsValid sup.now }
    requires block_size { sup.now.block_size ≡ 1024 }
    requires size { under.old.blocks.block_size ≡ 1024 }
    requires blocks { natural sup.now.num_blocks ≡ 16 }
    requires inside { id < 16 }
{
    match find_attribute(alloc, under, sup, id, block) {
        Ok(None) => Owner::Nobody,
        Ok(Some(owner)) => Owner::Inode(owner),
        Err(_) => Owner::Fault,
    }
}

/// Looks for a block among the attributes of the node at this block.
fn look_for(alloc: Global, id: u64, block: u64) -> Result<Owner, Fail> {
    let sup = small_superblock(16, 1, [run(2, 2), run(4, 1), run(5, 1)])?;
    let meant = is_meant(sup);
    if !meant || id >= 16 {
        return Ok(Owner::Fault);
    }
    let mut under = Silent {
        blocks: volume(alloc, 16384)?,
    };
    Ok(look(alloc, &sup, &mut under, id, block))
}

#[test]
fn a_block_is_that_of_the_attribute_directory_or_of_an_attribute_or_of_none(
    rt: HostRuntime,
) -> Result<(), Fail> {
    let alloc = rt.alloc();
    // of the root: its own block, the directory and its pages, the attributes and their bytes, a block of nobody; a block without attributes
    let table: [(u64, u64, Owner); 10] = [
        (4, 4, Owner::Nobody),
        (4, 6, Owner::Inode(6)),
        (4, 7, Owner::Inode(6)),
        (4, 8, Owner::Inode(6)),
        (4, 9, Owner::Inode(9)),
        (4, 10, Owner::Inode(9)),
        (4, 11, Owner::Inode(11)),
        (4, 12, Owner::Inode(11)),
        (4, 13, Owner::Nobody),
        (5, 6, Owner::Nobody),
    ];
    for (id, block, wanted) in table {
        assert_eq!(rt; look_for(alloc, id, block)?, wanted);
    }
    Ok(())
}
