// Numbers added to the keys of one leaf, in memory, beside plain tables.
ghost use Rattle.std.specs.Prelude.{◌≡◌, ◌<◌, ◌^◌, length};

use bfs_dups_add::dups_add;
use bfs_node::{
    Header, KeyKind, PAGE, TreeFault, blank, check, has_room, insert_row, row_count, row_value,
    set_row_value,
};
use bfs_pages::MemPages;
use bfs_txn::{Pages, Steps};
use bfs_values::{Link, Numbers, link_of, numbers_of};
use std::alloc::{AllocError, Global};
use std::marker::Brand;
use std::sync::ledger::{Blank, Ledger};
use std::test::Fail;

/// Where the only leaf of a test's tree begins.
const LEAF: u64 = 1024;

/// A tree of one leaf with so many keys of one letter, each with a plain number of its own.
fn make_tree(bytes: &mut Vec<u8>, keys: u8) -> Result<(), AllocError> {
    let mut page = [0u8; PAGE];
    let header = Header {
        magic: 0x69f6c2e8,
        node_size: 1024,
        levels: 1,
        data_type: 0,
        root_pointer: 1024,
        free_pointer: -1,
        maximum_size: 2048,
    };
    header.print(&mut page);
    bytes.extend_from_slice(&page)?;
    blank(&mut page);
    for i in 0..keys {
        if i < 64 && has_room(&page, &[b'A' + i]) {
            let count = row_count(&page);
            insert_row(&mut page, count, &[b'A' + i], i as i64);
        }
    }
    bytes.extend_from_slice(&page)?;
    Ok(())
}

/// Whole pages, as a stream.
fn stream_of(bytes: Vec<u8>) -> Option<MemPages> {
    if bytes.len() % 1024 == 0 && bytes.len() > 1024 {
        Some(MemPages::new(bytes))
    } else {
        None
    }
}

fn added<L: Ledger>(
    pages: &mut MemPages,
    value: i64,
    number: u64,
    ledger: Blank,
) -> Result<i64, TreeFault<AllocError>>
    requires number { number < 2 ^ 62 }
    requires name { ledger.name ≡ L.name }
    requires parts { ledger.parts ≡ L.parts }
    requires some { L.parts ≡ 1 }
{
    let mut steps = Steps::<L>::begin(ledger);
    dups_add(pages, KeyKind::Text, LEAF, value, number, &mut steps)
}

fn meant<L: Ledger>(
    alloc: Global,
    pages: &mut MemPages,
    value: i64,
    ledger: Blank,
) -> Result<Numbers, TreeFault<AllocError>>
    requires name { ledger.name ≡ L.name }
    requires parts { ledger.parts ≡ L.parts }
    requires some { L.parts ≡ 1 }
{
    let mut steps = Steps::<L>::begin(ledger);
    numbers_of(alloc, pages, KeyKind::Text, LEAF, value, &mut steps)
}

fn read<L: Ledger>(pages: &mut MemPages, page: &mut [u8], ledger: Blank) -> bool
    requires page { length page.old ≡ 1024 }
    requires name { ledger.name ≡ L.name }
    requires parts { ledger.parts ≡ L.parts }
    requires some { L.parts ≡ 1 }
    ensures length { length page.new ≡ 1024 }
{
    let mut steps = Steps::<L>::begin(ledger);
    if pages.length() <= LEAF {
        return false;
    }
    match pages.get(LEAF, page, &mut steps) {
        Ok(()) => true,
        Err(_) => false,
    }
}

/// The value of a row of the leaf.
fn value_at(pages: &mut MemPages, row: usize) -> Option<i64> {
    let mut page = [0u8; PAGE];
    if !read::<Brand>(pages, &mut page, Blank::new(1)) {
        return None;
    }
    match check(&page, KeyKind::Text) {
        Ok(()) => {
            if row < row_count(&page) {
                Some(row_value(&page, row))
            } else {
                None
            }
        }
        Err(_) => None,
    }
}

/// Writes the value of a row of the leaf.
fn set_value(pages: &mut MemPages, row: usize, value: i64) -> bool {
    let mut page = [0u8; PAGE];
    if !read::<Brand>(pages, &mut page, Blank::new(1)) {
        return false;
    }
    match check(&page, KeyKind::Text) {
        Ok(()) => {
            if row >= row_count(&page) {
                return false;
            }
            set_row_value(&mut page, row, value);
            if pages.length() <= LEAF {
                return false;
            }
            match pages.set(LEAF, &page) {
                Ok(()) => true,
                Err(_) => false,
            }
        }
        Err(_) => false,
    }
}

/// Adds a number to a row of the leaf.
fn adds(pages: &mut MemPages, row: usize, number: u64) -> bool {
    if number >= 1_000_000_000 {
        return false;
    }
    let value = match value_at(pages, row) {
        Some(value) => value,
        None => return false,
    };
    match added::<Brand>(pages, value, number, Blank::new(1)) {
        Ok(new) => set_value(pages, row, new),
        Err(_) => false,
    }
}

/// Whether a row means the numbers from one on up to another, without a step.
fn has_all(alloc: Global, pages: &mut MemPages, row: usize, first: u64, last: u64) -> bool {
    let value = match value_at(pages, row) {
        Some(value) => value,
        None => return false,
    };
    let found = match meant::<Brand>(alloc, pages, value, Blank::new(1)) {
        Ok(found) => found,
        Err(_) => return false,
    };
    let numbers = found.as_slice();
    let mut next = first;
    for at in 0..numbers.len() {
        if next > last || numbers[at] != next {
            return false;
        }
        if next < 1_000_000_000 {
            next += 1;
        }
    }
    last < 1_000_000_000 && next == last + 1
}

/// Which form a row's value has: 1 a plain number, 2 a fragment, 3 a chain.
fn form_of(pages: &mut MemPages, row: usize) -> u8 {
    match value_at(pages, row) {
        Some(value) => match link_of(value) {
            Link::Number(_) => 1,
            Link::Fragment { .. } => 2,
            Link::Chain { .. } => 3,
            Link::Nothing => 0,
        },
        None => 0,
    }
}

/// Numbers 0 to 125 of one key: the form of its value, and how many pages there are, after each.
fn one_key(alloc: Global, pages: &mut MemPages) -> bool {
    if form_of(pages, 0) != 1 || pages.length() != 2048 {
        return false;
    }
    for number in 1..126u64 {
        if !adds(pages, 0, number) || !has_all(alloc, pages, 0, 0, number) {
            return false;
        }
        let form = if number < 7 { 2 } else { 3 };
        let size = if number < 125 { 3072 } else { 4096 };
        if form_of(pages, 0) != form || pages.length() != size {
            return false;
        }
    }
    adds(pages, 0, 77) && has_all(alloc, pages, 0, 0, 125) && pages.length() == 4096
}

#[test]
fn seven_numbers_are_a_fragment_and_126_take_two_pages(rt: HostRuntime) -> Result<(), Fail> {
    let alloc = rt.alloc();
    let mut bytes = Vec::new(alloc);
    make_tree(&mut bytes, 1)?;
    match stream_of(bytes) {
        Some(mut pages) => assert!(rt; one_key(alloc, &mut pages)),
        None => assert!(rt; false),
    }
    Ok(())
}

/// Two numbers for each of seventeen keys: sixteen have one page of fragments, and the seventeenth begins another.
fn pairs(alloc: Global, pages: &mut MemPages) -> bool {
    for row in 0..17usize {
        if !adds(pages, row, row as u64 + 1) {
            return false;
        }
        let size = if row < 16 { 3072 } else { 4096 };
        if pages.length() != size {
            return false;
        }
    }
    for row in 0..17usize {
        if !has_all(alloc, pages, row, row as u64, row as u64 + 1) {
            return false;
        }
    }
    true
}

#[test]
fn seventeen_pairs_take_two_pages_of_fragments(rt: HostRuntime) -> Result<(), Fail> {
    let alloc = rt.alloc();
    let mut bytes = Vec::new(alloc);
    make_tree(&mut bytes, 17)?;
    match stream_of(bytes) {
        Some(mut pages) => assert!(rt; pairs(alloc, &mut pages)),
        None => assert!(rt; false),
    }
    Ok(())
}

/// Whether a row means the numbers that stand in its part of a table, and no others.
fn is_table(alloc: Global, pages: &mut MemPages, table: &[bool], row: usize) -> bool {
    let value = match value_at(pages, row) {
        Some(value) => value,
        None => return false,
    };
    let found = match meant::<Brand>(alloc, pages, value, Blank::new(1)) {
        Ok(found) => found,
        Err(_) => return false,
    };
    let numbers = found.as_slice();
    let mut next = 0;
    for number in 0..64usize {
        if row >= 32 || row * 64 + number >= table.len() {
            return false;
        }
        if table[row * 64 + number] {
            if next >= numbers.len() || numbers[next] != number as u64 {
                return false;
            }
            next += 1;
        }
    }
    next == numbers.len()
}

/// The next number of a sequence that a seed begins.
fn next_seed(seed: u64) -> u64 {
    seed.wrapping_mul(6364136223846793005)
        .wrapping_add(1442695040888963407)
}

/// So many random additions to twenty keys; after each forty all numbers are read back.
fn agrees(alloc: Global, pages: &mut MemPages, table: &mut [bool], calls: u32) -> bool {
    for row in 0..20usize {
        if row * 64 + row >= table.len() {
            return false;
        }
        table[row * 64 + row] = true;
    }
    let mut seed = 7;
    for n in 0..calls {
        seed = next_seed(seed);
        let row = ((seed >> 33) % 20) as usize;
        let number = (seed >> 50) % 64;
        let at = row * 64 + number as usize;
        if at >= table.len() {
            return false;
        }
        table[at] = true;
        if !adds(pages, row, number) {
            return false;
        }
        if n % 40 == 0 {
            for row in 0..20usize {
                if !is_table(alloc, pages, table, row) {
                    return false;
                }
            }
        }
    }
    for row in 0..20usize {
        if !is_table(alloc, pages, table, row) {
            return false;
        }
    }
    true
}

#[test]
fn random_numbers_of_twenty_keys_are_those_of_a_table(rt: HostRuntime) -> Result<(), Fail> {
    let alloc = rt.alloc();
    let mut bytes = Vec::new(alloc);
    make_tree(&mut bytes, 20)?;
    let mut table = vec![in alloc; false; 1280]?;
    match stream_of(bytes) {
        Some(mut pages) => assert!(rt; agrees(alloc, &mut pages, &mut table, 1200)),
        None => assert!(rt; false),
    }
    Ok(())
}
