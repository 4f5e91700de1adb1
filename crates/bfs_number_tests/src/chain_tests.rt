// Numbers taken out of those of the only key of a leaf, in memory. Byte 1024 is the leaf, and bytes 2048 and 3072 begin the pages
// of its chain.
use crate::leaf::{form_of, has_all, is_last, stream_of, takes};
use bfs_dups::{chain_value, put_number};
use bfs_node::{Header, PAGE, blank, has_room, insert_row};
use bfs_pages::MemPages;
use bfs_txn::Pages;
use std::alloc::{AllocError, Global};
use std::test::Fail;

/// A duplicate page with so many numbers from one on, behind a page and before another.
fn add_page(
    bytes: &mut Vec<u8>,
    left: u64,
    right: u64,
    first: u64,
    count: usize,
) -> Result<(), AllocError> {
    let mut page = [0u8; PAGE];
    put_number(&mut page, 0, left);
    put_number(&mut page, 8, right);
    put_number(&mut page, 16, count as u64);
    for i in 0..count {
        if i < 125 {
            put_number(&mut page, 24 + 8 * i, first.wrapping_add(i as u64));
        }
    }
    bytes.extend_from_slice(&page)?;
    Ok(())
}

/// A tree of one leaf with one key, whose value names a chain of two pages with the numbers from 0 to 129.
fn make_tree(bytes: &mut Vec<u8>) -> Result<(), AllocError> {
    let mut page = [0u8; PAGE];
    let header = Header {
        magic: 0x69f6c2e8,
        node_size: 1024,
        levels: 1,
        data_type: 0,
        root_pointer: 1024,
        free_pointer: -1,
        maximum_size: 4096,
    };
    header.print(&mut page);
    bytes.extend_from_slice(&page)?;
    blank(&mut page);
    if has_room(&page, b"A") {
        insert_row(&mut page, 0, b"A", chain_value(2048));
    }
    bytes.extend_from_slice(&page)?;
    add_page(bytes, u64::MAX, 3072, 0, 125)?;
    add_page(bytes, 2048, u64::MAX, 125, 5)
}

/// Numbers 0 to 129 of one key, taken out from the greatest down: the form of the value after each, and no page more.
fn back_to_one(alloc: Global, pages: &mut MemPages) -> bool {
    if form_of(pages, 0) != 3 || !has_all(alloc, pages, 0, 0, 129) {
        return false;
    }
    for taken in 0..129u64 {
        let number = 129 - taken;
        if !takes(pages, 0, number)
            || !takes(pages, 0, 500)
            || !has_all(alloc, pages, 0, 0, number - 1)
        {
            return false;
        }
        let form = if number > 7 {
            3
        } else if number > 1 {
            2
        } else {
            1
        };
        if form_of(pages, 0) != form || pages.length() != 4096 {
            return false;
        }
    }
    is_last(pages, 0, 0)
}

#[test]
fn numbers_go_until_one_is_plain(rt: HostRuntime) -> Result<(), Fail> {
    let alloc = rt.alloc();
    let mut bytes = Vec::new(alloc);
    make_tree(&mut bytes)?;
    match stream_of(bytes) {
        Some(mut pages) => assert!(rt; back_to_one(alloc, &mut pages)),
        None => assert!(rt; false),
    }
    Ok(())
}
