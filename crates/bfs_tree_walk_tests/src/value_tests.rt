// A tree of six pages in memory, as it should be and with one number changed. What is wanted was worked out by hand.
ghost use Rattle.std.specs.Prelude.{◌≡◌, length, IfOk};

use bfs_bytes::{put_bytes, put_i64};
use bfs_finding::PagePart;
use bfs_node::{Header, KeyKind, blank, has_room, insert_row, set_overflow_link};
use bfs_pages::MemPages;
use bfs_range::{Ranged, RangedRow};
use bfs_txn::Steps;
use bfs_value_walk::walk_values;
use bfs_walk::{TreeWrong, WalkFault};
use std::alloc::{AllocError, Global};
use std::marker::Brand;
use std::sync::ledger::{Blank, Ledger};
use std::test::Fail;

/// The value that names fragment 1 of the page at 2,048, and that of the chain from the page at 3,072 on.
const FRAGMENT: i64 = -4611686018427385855;

const CHAIN: i64 = -9223372036854772736;

/// A leaf with a plain number, a fragment and a chain. Its values begin at 38.
fn leaf() -> [u8; 1024]
    ensures { length result ≡ 1024 }
{
    let mut page = [0u8; 1024];
    blank(&mut page);
    if has_room(&page, b"o") {
        insert_row(&mut page, 0, b"o", CHAIN);
    }
    if has_room(&page, b"n") {
        insert_row(&mut page, 0, b"n", FRAGMENT);
    }
    if has_room(&page, b"m") {
        insert_row(&mut page, 0, b"m", 7);
    }
    page
}

/// A page in the free list, its last one.
fn free() -> [u8; 1024]
    ensures { length result ≡ 1024 }
{
    let mut page = [0u8; 1024];
    blank(&mut page);
    set_overflow_link(&mut page, -2);
    page
}

/// The header of a tree of one level.
fn header() -> [u8; 1024]
    ensures { length result ≡ 1024 }
{
    let mut page = [0u8; 1024];
    let header = Header {
        magic: 0x69f6c2e8,
        node_size: 1024,
        levels: 1,
        data_type: 0,
        root_pointer: 1024,
        free_pointer: 5120,
        maximum_size: 6144,
    };
    header.print(&mut page);
    page
}

/// Fragment 1 of a page has the numbers 5 and 9.
fn fragments() -> [u8; 1024]
    ensures { length result ≡ 1024 }
{
    let mut page = [0u8; 1024];
    put_i64(&mut page, 64, 2);
    put_i64(&mut page, 72, 5);
    put_i64(&mut page, 80, 9);
    page
}

/// A page of a chain, with three numbers.
fn duplicates(left: i64, right: i64, numbers: (i64, i64, i64)) -> [u8; 1024]
    ensures { length result ≡ 1024 }
{
    let mut page = [0u8; 1024];
    put_i64(&mut page, 0, left);
    put_i64(&mut page, 8, right);
    put_i64(&mut page, 16, 3);
    put_i64(&mut page, 24, numbers.0);
    put_i64(&mut page, 32, numbers.1);
    put_i64(&mut page, 40, numbers.2);
    page
}

/// Six pages: the header, the leaf, the page of the fragment, two of the chain, and a free one. In the eight bytes from a place on
/// there is another number.
fn tree(alloc: Global, size: usize, at: usize, number: i64) -> Result<Vec<u8>, AllocError>
    requires size { size ≡ 6144 }
    ensures { IfOk result (λ v. length v.items ≡ 6144) }
{
    let mut bytes = vec![in alloc; 0u8; size]?;
    let slice = bytes.as_mut_slice();
    put_bytes(slice, 0, &header());
    put_bytes(slice, 1024, &leaf());
    put_bytes(slice, 2048, &fragments());
    put_bytes(slice, 3072, &duplicates(-1, 4096, (1, 4, 8)));
    put_bytes(slice, 4096, &duplicates(3072, -1, (2, 3, 6)));
    put_bytes(slice, 5120, &free());
    if at <= 6136 {
        put_i64(slice, at, number);
    }
    Ok(bytes)
}

/// What a walk over these pages answers.
fn walk<L: Ledger>(
    alloc: Global,
    pages: &mut MemPages,
    ledger: Blank,
) -> Result<Ranged, WalkFault<AllocError>>
    requires name { ledger.name ≡ L.name }
    requires parts { ledger.parts ≡ L.parts }
    requires some { L.parts ≡ 1 }
{
    let mut steps = Steps::<L>::begin(ledger);
    walk_values(alloc, pages, KeyKind::Text, &mut steps)
}

/// Is this what a walk over the tree says, with another number at a place?
fn is_wrong(alloc: Global, at: usize, number: i64, wanted: TreeWrong) -> bool {
    let bytes = match tree(alloc, 6144, at, number) {
        Ok(bytes) => bytes,
        Err(_) => return false,
    };
    let mut pages = MemPages::new(bytes);
    match walk::<Brand>(alloc, &mut pages, Blank::new(1)) {
        Err(WalkFault::Wrong(wrong)) => wrong == wanted,
        _ => false,
    }
}

/// A page of the tree breaks the format.
fn content(page: u64) -> TreeWrong {
    TreeWrong::Page {
        page,
        part: PagePart::Content,
    }
}

fn link(page: u64, found: i64, wanted: i64) -> TreeWrong {
    TreeWrong::Link {
        page,
        found,
        wanted,
    }
}

/// Has a row this key and these numbers?
fn is_row(row: &RangedRow, key: &[u8], numbers: &[u64]) -> bool {
    row.key.as_slice() == key && row.numbers.as_slice() == numbers
}

/// Has the tree its three rows?
fn is_whole(alloc: Global) -> bool {
    let bytes = match tree(alloc, 6144, 6144, 0) {
        Ok(bytes) => bytes,
        Err(_) => return false,
    };
    let mut pages = MemPages::new(bytes);
    let found = match walk::<Brand>(alloc, &mut pages, Blank::new(1)) {
        Ok(found) => found,
        Err(_) => return false,
    };
    let rows = found.as_slice();
    rows.len() == 3
        && is_row(&rows[0], b"m", &[7])
        && is_row(&rows[1], b"n", &[5, 9])
        && is_row(&rows[2], b"o", &[1, 2, 3, 4, 6, 8])
}

/// Which faults of values and fragments are found.
fn fragments_found(alloc: Global) -> [bool; 6] {
    let outside = -4611686018427379711;
    [
        // the value of `m` has link type 1
        is_wrong(alloc, 1062, 4611686018427387904, content(1024)),
        // that of `n` names a fragment behind the stream's end
        is_wrong(alloc, 1070, outside, link(1024, outside, -1)),
        // that of `o` names the same fragment as that of `n`
        is_wrong(alloc, 1078, FRAGMENT, content(2048)),
        // fragment 2 is in use, and nothing names it
        is_wrong(alloc, 2176, 1, content(2048)),
        // the numbers of fragment 1 don't ascend
        is_wrong(alloc, 2120, 10, content(2048)),
        // the free page is in no list
        is_wrong(alloc, 24, -1, link(5120, -1, 5120)),
    ]
}

/// Which faults of chains are found.
fn chains_found(alloc: Global) -> [bool; 5] {
    [
        // a page of the chain has no numbers
        is_wrong(alloc, 4112, 0, content(4096)),
        // a number stands in both
        is_wrong(alloc, 4120, 1, content(3072)),
        // a link leads to no page, to the page itself, or to a page that is met in another way
        is_wrong(alloc, 4104, 100, link(4096, 100, -1)),
        is_wrong(alloc, 4104, 4096, link(4096, 4096, -1)),
        is_wrong(alloc, 4104, 3072, link(3072, 3072, -1)),
    ]
}

#[test]
fn a_tree_is_read_with_its_numbers(rt: HostRuntime) -> Result<(), Fail> {
    assert!(rt; is_whole(rt.alloc()));
    Ok(())
}

#[test]
fn what_is_wrong_with_a_value_is_found(rt: HostRuntime) -> Result<(), Fail> {
    assert_eq!(rt; fragments_found(rt.alloc()), [true; 6]);
    assert_eq!(rt; chains_found(rt.alloc()), [true; 5]);
    Ok(())
}
