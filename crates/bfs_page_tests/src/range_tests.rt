// Ranges over trees of other makers, in memory.
ghost use Rattle.std.specs.Prelude.{◌≡◌, ◌≤◌, ◌≤ℤ◌, pos, length};

use bfs_bytes::put_i64;
use bfs_node::{
    Header, KeyKind, PageKind, TreeFault, blank, has_room, insert_row, row_count, set_left_link,
    set_overflow_link, set_right_link,
};
use bfs_pages::MemPages;
use bfs_range::{Ranged, range};
use bfs_txn::Steps;
use std::alloc::{AllocError, Global};
use std::marker::Brand;
use std::sync::ledger::{Blank, Ledger};
use std::test::Fail;

/// Links of a page of a test: left, right, and overflow.
type Sides = (i64, i64, i64);

/// The two ends of a range.
type Ends<'a> = (Option<&'a [u8]>, Option<&'a [u8]>);

/// A page of these rows, as far as they have room.
fn page_of(rows: &[(&[u8], i64)], sides: Sides) -> [u8; 1024] {
    let mut page = [0u8; 1024];
    blank(&mut page);
    for (key, value) in rows {
        if has_room(&page, key) {
            let count = row_count(&page);
            insert_row(&mut page, count, key, *value);
        }
    }
    set_left_link(&mut page, sides.0);
    set_right_link(&mut page, sides.1);
    set_overflow_link(&mut page, sides.2);
    page
}

/// The header of a tree of text keys with so many levels in a stream of five pages.
fn header(levels: u32) -> [u8; 1024] {
    let mut page = [0u8; 1024];
    let header = Header {
        magic: 0x69f6c2e8,
        node_size: 1024,
        levels,
        data_type: 0,
        root_pointer: 1024,
        free_pointer: -1,
        maximum_size: 5120,
    };
    header.print(&mut page);
    page
}

/// A tree of another maker: the root's keys stand in no leaf but one, and the middle leaf has no row. The last leaf's
/// right link is given.
fn other_maker(bytes: &mut Vec<u8>, last: i64) -> Result<(), AllocError> {
    bytes.extend_from_slice(&header(2))?;
    bytes.extend_from_slice(&page_of(&[(b"c", 2048), (b"m", 3072)], (-1, -1, 4096)))?;
    bytes.extend_from_slice(&page_of(&[(b"a", 1), (b"c", 3)], (-1, 3072, -1)))?;
    bytes.extend_from_slice(&page_of(&[], (2048, 4096, -1)))?;
    bytes.extend_from_slice(&page_of(&[(b"n", 14), (b"x", 24)], (3072, last, -1)))?;
    Ok(())
}

/// Whole pages, as a stream.
fn stream_of(bytes: Vec<u8>) -> Option<MemPages> {
    if bytes.len() % 1024 == 0 {
        Some(MemPages::new(bytes))
    } else {
        None
    }
}

fn counted<L: Ledger>(
    alloc: Global,
    pages: &mut MemPages,
    ends: Ends,
    ledger: Blank,
) -> Result<Ranged, TreeFault<AllocError>>
    requires name { ledger.name ≡ L.name }
    requires parts { ledger.parts ≡ L.parts }
    requires some { L.parts ≡ 1 }
{
    let mut steps = Steps::<L>::begin(ledger);
    range(alloc, pages, KeyKind::Text, ends.0, ends.1, &mut steps)
}

/// Whether a range of a tree has these keys of one letter and no others, each with the letter's number.
fn has_rows(alloc: Global, pages: &mut MemPages, ends: Ends, wants: &[u8]) -> bool {
    let found = match counted::<Brand>(alloc, pages, ends, Blank::new(1)) {
        Ok(found) => found,
        Err(_) => return false,
    };
    let rows = found.as_slice();
    if rows.len() != wants.len() {
        return false;
    }
    for i in 0..rows.len() {
        let key = rows[i].key.as_slice();
        let numbers = rows[i].numbers.as_slice();
        if key.len() != 1 || key[0] != wants[i] || numbers.len() != 1 {
            return false;
        }
        if numbers[0] != (wants[i] % 32) as u64 {
            return false;
        }
    }
    true
}

/// Whether a range of a tree is refused for a leaf.
fn is_cut(alloc: Global, pages: &mut MemPages, ends: Ends) -> bool {
    match counted::<Brand>(alloc, pages, ends, Blank::new(1)) {
        Err(TreeFault::Damaged { page: _, kind }) => kind == PageKind::Leaf,
        _ => false,
    }
}

/// Whether ranges of the tree of another maker have their rows.
fn has_each(alloc: Global, pages: &mut MemPages) -> bool {
    has_rows(alloc, pages, (None, None), b"acnx")
        && has_rows(alloc, pages, (Some(b"a"), Some(b"a")), b"a")
        && has_rows(alloc, pages, (Some(b"b"), Some(b"n")), b"cn")
        && has_rows(alloc, pages, (Some(b"d"), Some(b"m")), b"")
        && has_rows(alloc, pages, (Some(b"x"), None), b"x")
        && has_rows(alloc, pages, (Some(b"y"), None), b"")
        && has_rows(alloc, pages, (None, Some(b"")), b"")
        && has_rows(alloc, pages, (Some(b"x"), Some(b"a")), b"")
}

#[test]
fn ranges_of_a_tree_of_another_maker(rt: HostRuntime) -> Result<(), Fail> {
    let alloc = rt.alloc();
    let mut bytes = Vec::new(alloc);
    other_maker(&mut bytes, -1)?;
    match stream_of(bytes) {
        Some(mut pages) => assert!(rt; has_each(alloc, &mut pages)),
        None => assert!(rt; false),
    }
    Ok(())
}

#[test]
fn right_links_in_a_circle_end(rt: HostRuntime) -> Result<(), Fail> {
    let alloc = rt.alloc();
    let mut bytes = Vec::new(alloc);
    other_maker(&mut bytes, 2048)?;
    match stream_of(bytes) {
        Some(mut pages) => {
            assert!(rt; is_cut(alloc, &mut pages, (None, None)));
            assert!(rt; has_rows(alloc, &mut pages, (None, Some(b"n")), b"acn"));
        }
        None => assert!(rt; false),
    }
    Ok(())
}

/// A page of numbers, from a place on.
fn numbers_page(at: usize, numbers: &[i64], sides: (i64, i64)) -> [u8; 1024]
    requires { (16 ≤ at) × (at ≤ 512) × (length numbers.now ≤ 8) }
{
    let mut page = [0u8; 1024];
    put_i64(&mut page, 0, sides.0);
    put_i64(&mut page, 8, sides.1);
    for i in 0..numbers.len() {
        put_i64(&mut page, at + 8 * i, numbers[i]);
    }
    page
}

/// A tree of one leaf, whose first value is given, whose second names a fragment with two numbers, and whose third names a
/// chain of two pages. The fragment in use has number 3; the last page's right link is given.
fn with_values(bytes: &mut Vec<u8>, value: i64, index: i64, last: i64) -> Result<(), AllocError>
    requires { (pos 0 ≤ℤ index) × (index ≤ℤ pos 15) }
{
    let fragment = i64::MIN / 2 + 2048 + index;
    let chain = i64::MIN + 3072;
    bytes.extend_from_slice(&header(1))?;
    bytes.extend_from_slice(&page_of(
        &[(b"a", value), (b"b", fragment), (b"c", chain)],
        (-1, -1, -1),
    ))?;
    bytes.extend_from_slice(&numbers_page(192, &[2, 7, 9], (0, 0)))?;
    bytes.extend_from_slice(&numbers_page(16, &[2, 10, 30], (-1, 4096)))?;
    bytes.extend_from_slice(&numbers_page(16, &[3, 1, 20, 40], (3072, last)))?;
    Ok(())
}

/// What a range over all of a tree answers.
#[derive(Clone, Copy, Debug, PartialEq, Eq)]
enum Reply {
    Whole,
    Other,
    Damaged { page: u64, kind: PageKind },
}

/// A range over all of the tree with values: whether it has the numbers 5, 7 and 9, and 1 to 40.
fn answer(alloc: Global, pages: &mut MemPages) -> Reply {
    let found = match counted::<Brand>(alloc, pages, (None, None), Blank::new(1)) {
        Ok(found) => found,
        Err(TreeFault::Damaged { page, kind }) => return Reply::Damaged { page, kind },
        Err(_) => return Reply::Other,
    };
    let rows = found.as_slice();
    if rows.len() != 3 {
        return Reply::Other;
    }
    let plain = rows[0].numbers.as_slice() == [5].as_slice();
    let fragment = rows[1].numbers.as_slice() == [7, 9].as_slice();
    let chain = rows[2].numbers.as_slice() == [1, 10, 20, 30, 40].as_slice();
    if plain && fragment && chain {
        Reply::Whole
    } else {
        Reply::Other
    }
}

/// What a range over all answers for a tree with these values.
fn reply_to(alloc: Global, value: i64, index: i64, last: i64) -> Result<Reply, AllocError>
    requires { (pos 0 ≤ℤ index) × (index ≤ℤ pos 15) }
{
    let mut bytes = Vec::new(alloc);
    with_values(&mut bytes, value, index, last)?;
    match stream_of(bytes) {
        Some(mut pages) => Ok(answer(alloc, &mut pages)),
        None => Ok(Reply::Other),
    }
}

fn damaged(page: u64, kind: PageKind) -> Reply {
    Reply::Damaged { page, kind }
}

#[test]
fn fragments_and_chains_have_their_numbers(rt: HostRuntime) -> Result<(), Fail> {
    let alloc = rt.alloc();
    assert_eq!(rt; reply_to(alloc, 5, 3, -1)?, Reply::Whole);
    assert_eq!(rt;
        reply_to(alloc, 5, 4, -1)?,
        damaged(2048, PageKind::Fragment)
    );
    assert_eq!(rt;
        reply_to(alloc, 1 << 62, 3, -1)?,
        damaged(1024, PageKind::Leaf)
    );
    assert_eq!(rt;
        reply_to(alloc, i64::MIN + 5120, 3, -1)?,
        damaged(1024, PageKind::Leaf)
    );
    assert_eq!(rt;
        reply_to(alloc, i64::MIN + 1024, 3, -1)?,
        damaged(1024, PageKind::Duplicates)
    );
    assert_eq!(rt;
        reply_to(alloc, 5, 3, 7)?,
        damaged(4096, PageKind::Duplicates)
    );
    Ok(())
}

#[test]
fn chains_in_a_circle_end(rt: HostRuntime) -> Result<(), Fail> {
    let circle = match reply_to(rt.alloc(), 5, 3, 3072)? {
        Reply::Damaged { page: _, kind } => kind == PageKind::Duplicates,
        _ => false,
    };
    assert!(rt; circle);
    Ok(())
}
