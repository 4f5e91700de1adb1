// Lists of numbers in pages, links, and a page of fragments and a duplicate page of a tree with one leaf, in memory.
ghost use Rattle.std.specs.Prelude.{◌≡◌, length};
ghost use Rattle.bfs_node.specs.Page.{HasLayout};

use bfs_dups::{
    chain_value, copy_numbers, find_number, find_vacant, fragment_value, free_all, free_fragment,
    insert_number, is_unused, look_at, number_value, put_number, read_page, remove_number, vacate,
    widen_page,
};
use bfs_node::{Header, KeyKind, PAGE, TreeFault, blank, has_room, insert_row, row_count};
use bfs_pages::{MemPages, is_child, read_header};
use bfs_txn::{Pages, Steps};
use bfs_values::{Link, link_of, number_at};
use std::alloc::AllocError;
use std::marker::Brand;
use std::sync::ledger::{Blank, Ledger};
use std::test::Fail;

/// Where the only leaf begins.
const LEAF: u64 = 1024;

/// Where the page of fragments begins.
const FRAGMENTS: u64 = 2048;

/// Where the duplicate page begins.
const DUPLICATES: u64 = 3072;

/// Whether the list at a place of a page has these numbers.
fn is_list(page: &[u8], at: usize, numbers: &[u64]) -> bool
    requires { length page.now ≡ 1024 }
{
    if at > 900 || numbers.len() > 10 || number_at(page, at) != numbers.len() as u64 {
        return false;
    }
    for i in 0..numbers.len() {
        if number_at(page, at + 8 + 8 * i) != numbers[i] {
            return false;
        }
    }
    true
}

/// Writes the list 3, 5, 9 at byte 64.
fn put_list(page: &mut [u8])
    requires { length page.old ≡ 1024 }
    ensures { length page.new ≡ 1024 }
{
    put_number(page, 64, 3);
    put_number(page, 72, 3);
    put_number(page, 80, 5);
    put_number(page, 88, 9);
}

/// Whether that list gets a 7 at its place.
fn gets_seven(old: &[u8], page: &mut [u8]) -> bool
    requires old { length old.now ≡ 1024 }
    requires page { length page.old ≡ 1024 }
    ensures { length page.new ≡ 1024 }
{
    if number_at(old, 64) != 3 {
        return false;
    }
    match find_number(old, 72, 3, 7) {
        Ok(_) => false,
        Err(i) => {
            insert_number(old, 64, page, 128, (i, 7));
            is_list(page, 128, &[3, 5, 7, 9])
        }
    }
}

/// Whether that list loses its 5.
fn loses_five(old: &[u8], page: &mut [u8]) -> bool
    requires old { length old.now ≡ 1024 }
    requires page { length page.old ≡ 1024 }
    ensures { length page.new ≡ 1024 }
{
    if number_at(old, 64) != 3 {
        return false;
    }
    match find_number(old, 72, 3, 5) {
        Ok(i) => {
            remove_number(old, 64, page, 256, i);
            is_list(page, 256, &[3, 9])
        }
        Err(_) => false,
    }
}

/// The list 3, 5, 9 with a number more, with one less, and copied, each at a place of its own in another page.
fn lists_differ() -> bool {
    let mut old = [0u8; PAGE];
    let mut page = [0u8; PAGE];
    put_list(&mut old);
    let right = gets_seven(&old, &mut page) && loses_five(&old, &mut page);
    copy_numbers(&old, 64, &mut page, 512, 4);
    right
        && is_list(&page, 128, &[3, 5, 7, 9])
        && is_list(&page, 256, &[3, 9])
        && is_list(&page, 512, &[3, 5, 9])
}

#[test]
fn a_list_gets_a_number_at_its_place_and_loses_one(rt: HostRuntime) -> Result<(), Fail> {
    assert!(rt; lists_differ());
    Ok(())
}

#[test]
fn values_name_what_they_were_made_of(rt: HostRuntime) -> Result<(), Fail> {
    assert!(rt; matches!(link_of(number_value(7)), Link::Number(7)));
    assert!(rt;
        matches!(
            link_of(fragment_value(2048, 3)),
            Link::Fragment {
                page: 2048,
                index: 3
            }
        )
    );
    assert!(rt; matches!(link_of(chain_value(3072)), Link::Chain { page: 3072 }));
    Ok(())
}

/// A page of free fragments, and the same page with its first one in use.
fn first_is_used() -> bool {
    let mut page = [255u8; PAGE];
    free_all(&mut page);
    if !is_unused(&page) || free_fragment(&page) != Some(0) {
        return false;
    }
    put_number(&mut page, 0, 2);
    !is_unused(&page) && free_fragment(&page) == Some(1)
}

#[test]
fn the_first_free_fragment_is_found(rt: HostRuntime) -> Result<(), Fail> {
    assert!(rt; first_is_used());
    Ok(())
}

/// Adds a row behind those of a leaf.
fn add_row(page: &mut [u8], key: &[u8], value: i64)
    requires { HasLayout page.old }
    ensures { HasLayout page.new }
{
    if has_room(page, key) {
        insert_row(page, row_count(page), key, value);
    }
}

/// A tree of one leaf with two keys: the first fragment of a page has 1 and 2, and a duplicate page has 4 and 8.
fn make_tree(bytes: &mut Vec<u8>) -> Result<(), AllocError> {
    let mut page = [0u8; PAGE];
    let header = Header {
        magic: 0x69f6c2e8,
        node_size: 1024,
        levels: 1,
        data_type: 0,
        root_pointer: 1024,
        free_pointer: -1,
        maximum_size: 4096,
    };
    header.print(&mut page);
    bytes.extend_from_slice(&page)?;
    blank(&mut page);
    add_row(&mut page, b"A", fragment_value(FRAGMENTS, 0));
    add_row(&mut page, b"B", chain_value(DUPLICATES));
    bytes.extend_from_slice(&page)?;
    let mut fragments = [0u8; PAGE];
    put_number(&mut fragments, 0, 2);
    put_number(&mut fragments, 8, 1);
    put_number(&mut fragments, 16, 2);
    bytes.extend_from_slice(&fragments)?;
    let mut duplicates = [255u8; PAGE];
    put_number(&mut duplicates, 16, 2);
    put_number(&mut duplicates, 24, 4);
    put_number(&mut duplicates, 32, 8);
    bytes.extend_from_slice(&duplicates)?;
    Ok(())
}

/// Whole pages, as a stream.
fn stream_of(bytes: Vec<u8>) -> Option<MemPages> {
    if bytes.len() % 1024 == 0 {
        Some(MemPages::new(bytes))
    } else {
        None
    }
}

/// The page of fragments has its second one free; where its first one is freed too, the page is the first free one.
fn frees<L: Ledger>(pages: &mut MemPages, ledger: Blank) -> Result<bool, TreeFault<AllocError>>
    requires name { ledger.name ≡ L.name }
    requires parts { ledger.parts ≡ L.parts }
    requires some { L.parts ≡ 1 }
{
    let mut steps = Steps::<L>::begin(ledger);
    let mut page = [0u8; PAGE];
    let found = match find_vacant(pages, KeyKind::Text, LEAF, &mut page, &mut steps) {
        Ok(found) => found,
        Err(fault) => return Err(fault),
    };
    let second = match found {
        Some(slot) => slot.page == FRAGMENTS && slot.index == 1,
        None => false,
    };
    if !second || !is_child(FRAGMENTS, pages.length()) {
        return Ok(false);
    }
    match read_page(pages, FRAGMENTS, &mut page, &mut steps) {
        Ok(()) => {}
        Err(fault) => return Err(fault),
    }
    match vacate(pages, KeyKind::Text, FRAGMENTS, 0, &mut page, &mut steps) {
        Ok(()) => {}
        Err(fault) => return Err(fault),
    }
    match read_header(pages, KeyKind::Text, &mut steps) {
        Ok(header) => Ok(header.free_pointer == 2048),
        Err(fault) => Err(fault),
    }
}

/// The duplicate page has an 8, and gets a 6 before it.
fn widens<L: Ledger>(pages: &mut MemPages, ledger: Blank) -> Result<bool, TreeFault<AllocError>>
    requires name { ledger.name ≡ L.name }
    requires parts { ledger.parts ≡ L.parts }
    requires some { L.parts ≡ 1 }
{
    let mut steps = Steps::<L>::begin(ledger);
    let mut page = [0u8; PAGE];
    if !is_child(DUPLICATES, pages.length()) {
        return Ok(false);
    }
    let seen = match look_at(pages, KeyKind::Text, DUPLICATES, 8, &mut page, &mut steps) {
        Ok(seen) => seen,
        Err(fault) => return Err(fault),
    };
    if seen.next != 0 || seen.count != 2 || !seen.there {
        return Ok(false);
    }
    match find_number(&page, 24, 2, 6) {
        Ok(_) => Ok(false),
        Err(i) => {
            widen_page(&mut page, i, 6);
            Ok(is_list(&page, 16, &[4, 6, 8]))
        }
    }
}

/// Both on the tree.
fn works(pages: &mut MemPages) -> bool {
    let widened = widens::<Brand>(pages, Blank::new(1));
    let freed = frees::<Brand>(pages, Blank::new(1));
    matches!(widened, Ok(true)) && matches!(freed, Ok(true))
}

#[test]
fn an_empty_page_is_free_and_a_duplicate_page_gets_a_number(rt: HostRuntime) -> Result<(), Fail> {
    let alloc = rt.alloc();
    let mut bytes = Vec::new(alloc);
    make_tree(&mut bytes)?;
    match stream_of(bytes) {
        Some(mut pages) => assert!(rt; works(&mut pages)),
        None => assert!(rt; false),
    }
    Ok(())
}
