// Trees of two pages in memory, as they should be and with one thing broken. What is wanted was worked out by hand.
ghost use Rattle.std.specs.Prelude.{◌≡◌, IfOk, length};

use bfs_bytes::{put_bytes, put_i64};
use bfs_node::{KeyKind, blank, has_room, insert_row, set_overflow_link};
use bfs_pages::{MemPages, is_child, is_link};
use bfs_tree_check::{check_tree, new_marks};
use bfs_txn::{Pages, Steps};
use bfs_walk::{TreeWrong, WalkFault};
use std::alloc::{AllocError, Global};
use std::marker::Brand;
use std::sync::ledger::{Blank, Ledger};
use std::test::Fail;

/// A page with a row at each of two keys.
fn page_of(first: &[u8], second: &[u8], overflow: i64) -> [u8; 1024]
    ensures { length result ≡ 1024 }
{
    let mut page = [0u8; 1024];
    blank(&mut page);
    if first.len() == 1 && has_room(&page, first) {
        insert_row(&mut page, 0, first, 7);
    }
    if second.len() == 1 && has_room(&page, second) {
        insert_row(&mut page, 0, second, 8);
    }
    set_overflow_link(&mut page, overflow);
    page
}

/// Three pages: room for a header, a leaf, and a free page.
fn tree(alloc: Global, size: usize) -> Result<Vec<u8>, AllocError>
    requires { size ≡ 3072 }
    ensures { IfOk result (λ v. length v.items ≡ 3072) }
{
    let mut bytes = vec![in alloc; 0u8; size]?;
    let slice = bytes.as_mut_slice();
    put_bytes(slice, 1024, &page_of(b"n", b"m", -1));
    put_bytes(slice, 2048, &page_of(b"", b"", -2));
    Ok(bytes)
}

/// What is wrong with the tree in these pages, or that nothing is; none where it couldn't be read.
fn look<L: Ledger>(alloc: Global, pages: &mut MemPages, ledger: Blank) -> Option<Option<TreeWrong>>
    requires name { ledger.name ≡ L.name }
    requires parts { ledger.parts ≡ L.parts }
    requires some { L.parts ≡ 1 }
{
    let mut steps = Steps::<L>::begin(ledger);
    let size = pages.length();
    let count = size / 1024;
    if size >= 1 << 62 || count == 0 || !is_child(1024, size) || !is_link(2048, size) {
        return None;
    }
    let mut marks = match new_marks(alloc, count) {
        Ok(marks) => marks,
        Err(_) => return None,
    };
    match check_tree(
        alloc,
        pages,
        KeyKind::Text,
        1024,
        0,
        2048,
        &mut marks,
        &mut steps,
    ) {
        Ok(_) => Some(None),
        Err(WalkFault::Wrong(wrong)) => Some(Some(wrong)),
        Err(_) => None,
    }
}

/// The same of these bytes.
fn look_in(alloc: Global, bytes: Vec<u8>) -> Option<Option<TreeWrong>>
    requires { length bytes.items ≡ 3072 }
{
    let mut pages = MemPages::new(bytes);
    look::<Brand>(alloc, &mut pages, Blank::new(1))
}

fn link(page: u64, found: i64, wanted: i64) -> Option<Option<TreeWrong>> {
    Some(Some(TreeWrong::Link {
        page,
        found,
        wanted,
    }))
}

#[test]
fn a_leaf_and_a_free_page_are_a_tree(rt: HostRuntime) -> Result<(), Fail> {
    let alloc = rt.alloc();
    assert_eq!(rt; look_in(alloc, tree(alloc, 3072)?), Some(None));
    Ok(())
}

#[test]
fn rows_out_of_order_are_found(rt: HostRuntime) -> Result<(), Fail> {
    let alloc = rt.alloc();
    let mut bytes = tree(alloc, 3072)?;
    put_bytes(bytes.as_mut_slice(), 1024, &page_of(b"m", b"n", -1));
    let wanted = TreeWrong::Order {
        page: 1024,
        index: 1,
    };
    assert_eq!(rt; look_in(alloc, bytes), Some(Some(wanted)));
    Ok(())
}

#[test]
fn a_wrong_link_of_a_leaf_and_of_a_free_page_are_found(rt: HostRuntime) -> Result<(), Fail> {
    let alloc = rt.alloc();
    // the leaf has a neighbour to its right
    let mut bytes = tree(alloc, 3072)?;
    put_i64(bytes.as_mut_slice(), 1024 + 8, 2048);
    assert_eq!(rt; look_in(alloc, bytes), link(1024, 2048, -1));
    // the free page has no mark
    let mut bytes = tree(alloc, 3072)?;
    put_i64(bytes.as_mut_slice(), 2048 + 16, -1);
    assert_eq!(rt; look_in(alloc, bytes), link(2048, -1, -2));
    Ok(())
}
