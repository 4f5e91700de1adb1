// Trees of pages in memory.
ghost use Rattle.std.specs.Prelude.{◌≡◌, ◌≤◌};
ghost use Rattle.bfs_base.specs.Keys.{IsKey};
ghost use Rattle.bfs_base.specs.declared.kind.KeyKind.TheVariants.{Text};

use bfs_insert::insert;
use bfs_node::{
    Header, KeyKind, TreeFault, blank, has_room, insert_row, left_link, overflow_link, right_link,
    row_count, set_left_link, set_overflow_link, set_right_link,
};
use bfs_pages::{Found, MemPages, find};
use bfs_remove::remove;
use bfs_txn::Steps;
use std::alloc::AllocError;
use std::marker::Brand;
use std::sync::ledger::{Blank, Ledger};
use std::test::Fail;

/// Links of a page of a test: left, right, and overflow.
type Sides = (i64, i64, i64);

/// A page of these rows, as far as they have room.
fn page_of(rows: &[(&[u8], i64)], sides: Sides) -> [u8; 1024] {
    let mut page = [0u8; 1024];
    blank(&mut page);
    for (key, value) in rows {
        if has_room(&page, key) {
            let count = row_count(&page);
            insert_row(&mut page, count, key, *value);
        }
    }
    set_left_link(&mut page, sides.0);
    set_right_link(&mut page, sides.1);
    set_overflow_link(&mut page, sides.2);
    page
}

/// The header of a tree of text keys with so many levels in a stream of so many bytes.
fn header_of(levels: u32, size: i64) -> [u8; 1024] {
    let mut page = [0u8; 1024];
    let header = Header {
        magic: 0x69f6c2e8,
        node_size: 1024,
        levels,
        data_type: 0,
        root_pointer: 1024,
        free_pointer: -1,
        maximum_size: size,
    };
    header.print(&mut page);
    page
}

fn look<L: Ledger>(
    pages: &mut MemPages,
    key: &[u8],
    ledger: Blank,
) -> Result<Option<Found>, TreeFault<AllocError>>
    requires name { ledger.name ≡ L.name }
    requires parts { ledger.parts ≡ L.parts }
    requires some { L.parts ≡ 1 }
{
    let mut steps = Steps::<L>::begin(ledger);
    find(pages, KeyKind::Text, key, &mut steps)
}

/// What is found at a key: the byte of its leaf and its value, or None.
fn found(pages: &mut MemPages, key: &[u8]) -> Option<(u64, i64)> {
    match look::<Brand>(pages, key, Blank::new(1)) {
        Ok(Some(found)) => Some((found.leaf, found.value)),
        Ok(None) => None,
        Err(_) => None,
    }
}

/// A tree of another maker: the root's only key stands in no leaf, two interior pages have only their overflow child,
/// and the leaves are nearly empty.
fn other_maker(bytes: &mut Vec<u8>) -> Result<(), AllocError> {
    bytes.extend_from_slice(&header_of(3, 6144))?;
    bytes.extend_from_slice(&page_of(&[(b"m", 2048)], (-1, -1, 5120)))?;
    bytes.extend_from_slice(&page_of(&[], (-1, -1, 3072)))?;
    bytes.extend_from_slice(&page_of(&[(b"a", 1), (b"c", 3)], (-1, 4096, -1)))?;
    bytes.extend_from_slice(&page_of(&[(b"x", 9)], (3072, -1, -1)))?;
    bytes.extend_from_slice(&page_of(&[], (-1, -1, 4096)))?;
    Ok(())
}

/// Whole pages, as a stream.
fn stream_of(bytes: Vec<u8>) -> Option<MemPages> {
    if bytes.len() % 1024 == 0 {
        Some(MemPages::new(bytes))
    } else {
        None
    }
}

/// What is found at each of these keys.
fn found_at(pages: &mut MemPages, wants: &[(&[u8], Option<(u64, i64)>)]) -> bool {
    for (key, want) in wants {
        if found(pages, key) != *want {
            return false;
        }
    }
    true
}

fn put_one<L: Ledger>(
    pages: &mut MemPages,
    key: &[u8],
    value: i64,
    ledger: Blank,
) -> Result<(), TreeFault<AllocError>>
    requires key { IsKey Text key.now }
    requires name { ledger.name ≡ L.name }
    requires parts { ledger.parts ≡ L.parts }
    requires some { L.parts ≡ 1 }
{
    let mut steps = Steps::<L>::begin(ledger);
    insert(pages, KeyKind::Text, key, value, &mut steps)
}

/// What an insert answers.
#[derive(Clone, Copy, Debug, PartialEq, Eq)]
enum Reply {
    Done,
    Exists,
    Else,
}

/// Puts a row into a tree, and tells what was said.
fn said(pages: &mut MemPages, key: &[u8], value: i64) -> Reply
    requires key { IsKey Text key.now }
{
    match put_one::<Brand>(pages, key, value, Blank::new(1)) {
        Ok(()) => Reply::Done,
        Err(TreeFault::Exists) => Reply::Exists,
        Err(_) => Reply::Else,
    }
}

fn take_one<L: Ledger>(
    pages: &mut MemPages,
    key: &[u8],
    ledger: Blank,
) -> Result<i64, TreeFault<AllocError>>
    requires name { ledger.name ≡ L.name }
    requires parts { ledger.parts ≡ L.parts }
    requires some { L.parts ≡ 1 }
{
    let mut steps = Steps::<L>::begin(ledger);
    remove(pages, KeyKind::Text, key, &mut steps)
}

/// What a removal answers.
#[derive(Clone, Copy, Debug, PartialEq, Eq)]
enum Removal {
    Value(i64),
    Absent,
    Else,
}

/// Takes a row out of a tree, and tells what was said.
fn taken(pages: &mut MemPages, key: &[u8]) -> Removal {
    match take_one::<Brand>(pages, key, Blank::new(1)) {
        Ok(value) => Removal::Value(value),
        Err(TreeFault::Absent) => Removal::Absent,
        Err(_) => Removal::Else,
    }
}

/// The key of a number, of which the first two bytes differ from other keys'. A page has room for nine rows with keys
/// of 100 bytes, so a tree with a hundred of them has three levels or more.
fn key_of(i: u8) -> [u8; 255] {
    let mut key = [b'k'; 255];
    key[0] = b'a' + i % 16;
    key[1] = b'a' + i / 16;
    key
}

/// The keys of the numbers below 100, of so many bytes, each put in once, and again.
fn puts_all(pages: &mut MemPages, length: usize) -> bool
    requires { (2 ≤ length) × (length ≤ 255) }
{
    for i in 0..100u8 {
        let key = key_of(i);
        if said(pages, &key[..length], i as i64) != Reply::Done {
            return false;
        }
        if said(pages, &key[..length], 7) != Reply::Exists {
            return false;
        }
    }
    true
}

/// Whether the keys of the numbers below 100, of so many bytes, have their values.
fn has_all(pages: &mut MemPages, length: usize) -> bool
    requires { length ≤ 255 }
{
    for i in 0..100u8 {
        let key = key_of(i);
        match found(pages, &key[..length]) {
            Some(at) => {
                if at.1 != i as i64 {
                    return false;
                }
            }
            None => return false,
        }
    }
    true
}

/// The header of a stream.
fn header_in(pages: &MemPages) -> Option<Header> {
    let bytes = pages.bytes();
    if bytes.len() < 1024 {
        return None;
    }
    match Header::of(&bytes[..1024]) {
        Ok(header) => Some(header),
        Err(_) => None,
    }
}

/// The levels that the header of a stream tells.
fn levels_of(pages: &MemPages) -> Option<u32> {
    match header_in(pages) {
        Some(header) => Some(header.levels),
        None => None,
    }
}

/// The links of a page to the left and to the right, and its overflow link.
fn sides_of(pages: &MemPages, at: usize) -> Option<Sides> {
    let bytes = pages.bytes();
    if at > bytes.len() || bytes.len() - at < 1024 {
        return None;
    }
    let page = &bytes[at..at + 1024];
    Some((left_link(page), right_link(page), overflow_link(page)))
}

#[test]
fn rows_are_put_into_a_tree_that_grows(rt: HostRuntime) -> Result<(), Fail> {
    let mut bytes = Vec::new(rt.alloc());
    bytes.extend_from_slice(&header_of(1, 2048))?;
    bytes.extend_from_slice(&page_of(&[], (-1, -1, -1)))?;
    match stream_of(bytes) {
        Some(mut pages) => {
            assert!(rt; puts_all(&mut pages, 100));
            assert!(rt; has_all(&mut pages, 100));
            assert_eq!(rt; levels_of(&pages), Some(3));
        }
        None => assert!(rt; false),
    }
    Ok(())
}

#[test]
fn keys_of_255_bytes_are_put(rt: HostRuntime) -> Result<(), Fail> {
    let mut bytes = Vec::new(rt.alloc());
    bytes.extend_from_slice(&header_of(1, 2048))?;
    bytes.extend_from_slice(&page_of(&[], (-1, -1, -1)))?;
    match stream_of(bytes) {
        Some(mut pages) => {
            assert!(rt; puts_all(&mut pages, 255));
            assert!(rt; has_all(&mut pages, 255));
        }
        None => assert!(rt; false),
    }
    Ok(())
}

#[test]
fn rows_are_put_into_a_tree_of_another_maker(rt: HostRuntime) -> Result<(), Fail> {
    let mut bytes = Vec::new(rt.alloc());
    other_maker(&mut bytes)?;
    let wants: [(&[u8], Option<(u64, i64)>); 5] = [
        (b"a", Some((3072, 1))),
        (b"c", Some((3072, 3))),
        (b"m", Some((3072, 5))),
        (b"n", Some((4096, 6))),
        (b"x", Some((4096, 9))),
    ];
    match stream_of(bytes) {
        Some(mut pages) => {
            assert_eq!(rt; said(&mut pages, b"m", 5), Reply::Done);
            assert_eq!(rt; said(&mut pages, b"n", 6), Reply::Done);
            assert_eq!(rt; said(&mut pages, b"x", 7), Reply::Exists);
            assert!(rt; found_at(&mut pages, &wants));
            assert_eq!(rt; pages.bytes().len(), 6144);
        }
        None => assert!(rt; false),
    }
    Ok(())
}

/// The links of the pages of a stream of six.
fn has_sides(pages: &MemPages, wants: &[(usize, Sides)]) -> bool {
    for (at, want) in wants {
        if sides_of(pages, *at) != Some(*want) {
            return false;
        }
    }
    true
}

/// The root, the levels and the first free page that the header of a stream tells.
fn heads(pages: &MemPages) -> Option<(i64, u32, i64)> {
    match header_in(pages) {
        Some(header) => Some((header.root_pointer, header.levels, header.free_pointer)),
        None => None,
    }
}

#[test]
fn rows_are_taken_out_of_a_tree_of_another_maker(rt: HostRuntime) -> Result<(), Fail> {
    let mut bytes = Vec::new(rt.alloc());
    other_maker(&mut bytes)?;
    let free: [(usize, Sides); 5] = [
        (4096, (-1, -1, -1)),
        (2048, (-1, -1, -2)),
        (3072, (2048, -1, -2)),
        (1024, (3072, -1, -2)),
        (5120, (1024, -1, -2)),
    ];
    match stream_of(bytes) {
        Some(mut pages) => {
            assert_eq!(rt; taken(&mut pages, b"m"), Removal::Absent);
            assert_eq!(rt; taken(&mut pages, b"a"), Removal::Value(1));
            assert_eq!(rt; heads(&pages), Some((1024, 3, -1)));
            assert_eq!(rt; taken(&mut pages, b"c"), Removal::Value(3));
            assert_eq!(rt; heads(&pages), Some((4096, 1, 5120)));
            assert!(rt; has_sides(&pages, &free));
            assert_eq!(rt; found(&mut pages, b"x"), Some((4096, 9)));
            assert_eq!(rt; taken(&mut pages, b"x"), Removal::Value(9));
            assert_eq!(rt; found(&mut pages, b"x"), None);
            assert_eq!(rt; pages.bytes().len(), 6144);
        }
        None => assert!(rt; false),
    }
    Ok(())
}

#[test]
fn keys_are_found_in_a_tree_of_another_maker(rt: HostRuntime) -> Result<(), Fail> {
    let mut bytes = Vec::new(rt.alloc());
    other_maker(&mut bytes)?;
    let wants: [(&[u8], Option<(u64, i64)>); 7] = [
        (b"a", Some((3072, 1))),
        (b"b", None),
        (b"c", Some((3072, 3))),
        (b"m", None),
        (b"x", Some((4096, 9))),
        (b"z", None),
        (b"", None),
    ];
    match stream_of(bytes) {
        Some(mut pages) => {
            assert!(rt; found_at(&mut pages, &wants));
            assert_eq!(rt; pages.bytes().len(), 6144);
        }
        None => assert!(rt; false),
    }
    Ok(())
}

/// A tree whose root has the key m twice, with an empty leaf between.
fn empty_between(bytes: &mut Vec<u8>) -> Result<(), AllocError> {
    bytes.extend_from_slice(&header_of(2, 5120))?;
    bytes.extend_from_slice(&page_of(&[(b"m", 2048), (b"m", 3072)], (-1, -1, 4096)))?;
    bytes.extend_from_slice(&page_of(&[(b"a", 1), (b"m", 5)], (-1, 3072, -1)))?;
    bytes.extend_from_slice(&page_of(&[], (2048, 4096, -1)))?;
    bytes.extend_from_slice(&page_of(&[(b"x", 9)], (3072, -1, -1)))?;
    Ok(())
}

#[test]
fn an_empty_leaf_stands_between_two_keys_that_are_the_same(rt: HostRuntime) -> Result<(), Fail> {
    let mut bytes = Vec::new(rt.alloc());
    empty_between(&mut bytes)?;
    let wants: [(&[u8], Option<(u64, i64)>); 5] = [
        (b"a", Some((2048, 1))),
        (b"b", Some((2048, 6))),
        (b"m", Some((2048, 5))),
        (b"n", Some((4096, 7))),
        (b"x", Some((4096, 9))),
    ];
    match stream_of(bytes) {
        Some(mut pages) => {
            assert_eq!(rt; found(&mut pages, b"n"), None);
            assert_eq!(rt; said(&mut pages, b"m", 8), Reply::Exists);
            assert_eq!(rt; said(&mut pages, b"b", 6), Reply::Done);
            assert_eq!(rt; said(&mut pages, b"n", 7), Reply::Done);
            assert!(rt; found_at(&mut pages, &wants));
            assert_eq!(rt; taken(&mut pages, b"m"), Removal::Value(5));
            assert_eq!(rt; found(&mut pages, b"m"), None);
        }
        None => assert!(rt; false),
    }
    Ok(())
}
