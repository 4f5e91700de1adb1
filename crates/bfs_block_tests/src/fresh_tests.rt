// New nodes' blocks, by the format's table of fields.
use bfs_fresh::{NewNode, address, fresh_block, link_block};
use std::test::Fail;

/// Does the block have these bytes at a place?
fn has(block: &[u8], at: usize, bytes: &[u8]) -> bool {
    if at > block.len() || bytes.len() > block.len() - at {
        return false;
    }
    &block[at..at + bytes.len()] == bytes
}

/// Does the block have the fields of a new inode at block 70,000, of the directory at block 523, made at 1,000 seconds, where a group
/// has 8,192 blocks?
fn has_fields(block: &[u8]) -> bool {
    let fields: [(usize, &[u8]); 9] = [
        (0, &[0xd9, 0x0a, 0xbe, 0x3b]),
        (4, &[0x08, 0, 0, 0, 0x70, 0x11, 0x01, 0x00]),
        (12, &[0, 0, 0, 0, 0, 0, 0, 0]),
        (24, &[0x01, 0, 0, 0]),
        (28, &[0, 0, 0xe8, 0x03, 0, 0, 0, 0]),
        (36, &[0, 0, 0xe8, 0x03, 0, 0, 0, 0]),
        (44, &[0, 0, 0, 0, 0x0b, 0x02, 0x01, 0x00]),
        (
            52,
            &[
                0, 0, 0, 0, 0, 0, 0, 0, 0, 0, 0, 0, 0, 0x04, 0, 0, 0, 0, 0, 0,
            ],
        ),
        (216, &[0, 0, 0xe8, 0x03, 0, 0, 0, 0, 0, 0, 0, 0, 0, 0, 0, 0]),
    ];
    for (at, bytes) in fields {
        if !has(block, at, bytes) {
            return false;
        }
    }
    true
}

/// What the inode is made with, with this mode.
fn new_node(mode: i32) -> NewNode {
    NewNode {
        address: address(70_000, 13),
        parent: address(523, 13),
        mode,
        flags: 1,
        stamp: 0x03e8_0000,
    }
}

#[test]
fn a_new_file_has_the_fields_of_the_table_and_its_name(rt: HostRuntime) -> Result<(), Fail> {
    let block = fresh_block(rt.alloc(), 1024, new_node(0o100644), b"f")?;
    assert!(rt; has_fields(&block));
    assert!(rt; has(&block, 20, &[0xa4, 0x81, 0, 0]));
    assert!(rt; has(&block, 72, &[0; 144]));
    assert!(rt;
        has(
            &block,
            232,
            &[
                0x52, 0x54, 0x53, 0x43, 1, 0, 1, 0, 0x13, 0, 0, 0, 0x66, 0, 0, 0
            ]
        )
    );
    Ok(())
}

#[test]
fn a_new_link_has_its_target_and_a_zero(rt: HostRuntime) -> Result<(), Fail> {
    let block = link_block(rt.alloc(), 1024, new_node(0o120777), b"l", b"up/to")?;
    assert!(rt; has_fields(&block));
    assert!(rt; has(&block, 20, &[0xff, 0xa1, 0, 0]));
    assert!(rt; has(&block, 72, &[0x75, 0x70, 0x2f, 0x74, 0x6f, 0, 0, 0]));
    assert!(rt;
        has(
            &block,
            232,
            &[
                0x52, 0x54, 0x53, 0x43, 1, 0, 1, 0, 0x13, 0, 0, 0, 0x6c, 0, 0, 0
            ]
        )
    );
    Ok(())
}
