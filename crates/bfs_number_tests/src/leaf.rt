// The values of the rows of a leaf, which stand for numbers: read, written, and taken out.
ghost use Rattle.std.specs.Prelude.{◌≡◌, ◌<◌, ◌^◌, length};

use bfs_dups_remove::dups_remove;
use bfs_node::{KeyKind, PAGE, TreeFault, check, row_count, row_value};
use bfs_pages::{MemPages, is_child};
use bfs_txn::{Pages, Steps};
use bfs_values::{Link, Numbers, link_of, numbers_of, set_value};
use std::alloc::{AllocError, Global};
use std::marker::Brand;
use std::sync::ledger::{Blank, Ledger};

/// Where the only leaf of a test's tree begins.
pub(crate) const LEAF: u64 = 1024;

/// Whole pages, as a stream.
pub(crate) fn stream_of(bytes: Vec<u8>) -> Option<MemPages> {
    if bytes.len() % 1024 == 0 && bytes.len() > 1024 {
        Some(MemPages::new(bytes))
    } else {
        None
    }
}

pub(crate) fn meant<L: Ledger>(
    alloc: Global,
    pages: &mut MemPages,
    value: i64,
    ledger: Blank,
) -> Result<Numbers, TreeFault<AllocError>>
    requires name { ledger.name ≡ L.name }
    requires parts { ledger.parts ≡ L.parts }
    requires some { L.parts ≡ 1 }
{
    let mut steps = Steps::<L>::begin(ledger);
    numbers_of(alloc, pages, KeyKind::Text, LEAF, value, &mut steps)
}

fn read<L: Ledger>(pages: &mut MemPages, page: &mut [u8], ledger: Blank) -> bool
    requires page { length page.old ≡ 1024 }
    requires name { ledger.name ≡ L.name }
    requires parts { ledger.parts ≡ L.parts }
    requires some { L.parts ≡ 1 }
    ensures length { length page.new ≡ 1024 }
{
    let mut steps = Steps::<L>::begin(ledger);
    if pages.length() <= LEAF {
        return false;
    }
    match pages.get(LEAF, page, &mut steps) {
        Ok(()) => true,
        Err(_) => false,
    }
}

/// The value of a row of the leaf.
pub(crate) fn value_at(pages: &mut MemPages, row: usize) -> Option<i64> {
    let mut page = [0u8; PAGE];
    if !read::<Brand>(pages, &mut page, Blank::new(1)) {
        return None;
    }
    match check(&page, KeyKind::Text) {
        Ok(()) => {
            if row < row_count(&page) {
                Some(row_value(&page, row))
            } else {
                None
            }
        }
        Err(_) => None,
    }
}

fn write_value<L: Ledger>(pages: &mut MemPages, row: usize, value: i64, ledger: Blank) -> bool
    requires name { ledger.name ≡ L.name }
    requires parts { ledger.parts ≡ L.parts }
    requires some { L.parts ≡ 1 }
{
    let mut steps = Steps::<L>::begin(ledger);
    if row >= 64 || !is_child(LEAF, pages.length()) {
        return false;
    }
    let key = [b'A' + row as u8];
    match set_value(pages, KeyKind::Text, LEAF, &key, value, &mut steps) {
        Ok(()) => true,
        Err(_) => false,
    }
}

/// Writes the value of a row of the leaf.
pub(crate) fn writes(pages: &mut MemPages, row: usize, value: i64) -> bool {
    write_value::<Brand>(pages, row, value, Blank::new(1))
}

/// Whether a row means the numbers from one on up to another, without a step.
pub(crate) fn has_all(
    alloc: Global,
    pages: &mut MemPages,
    row: usize,
    first: u64,
    last: u64,
) -> bool {
    let value = match value_at(pages, row) {
        Some(value) => value,
        None => return false,
    };
    let found = match meant::<Brand>(alloc, pages, value, Blank::new(1)) {
        Ok(found) => found,
        Err(_) => return false,
    };
    let numbers = found.as_slice();
    let mut next = first;
    for at in 0..numbers.len() {
        if next > last || numbers[at] != next {
            return false;
        }
        if next < 1_000_000_000 {
            next += 1;
        }
    }
    last < 1_000_000_000 && next == last + 1
}

/// Which form a row's value has: 1 a plain number, 2 a fragment, 3 a chain.
pub(crate) fn form_of(pages: &mut MemPages, row: usize) -> u8 {
    match value_at(pages, row) {
        Some(value) => match link_of(value) {
            Link::Number(_) => 1,
            Link::Fragment { .. } => 2,
            Link::Chain { .. } => 3,
            Link::Nothing => 0,
        },
        None => 0,
    }
}

fn removed<L: Ledger>(
    pages: &mut MemPages,
    value: i64,
    number: u64,
    ledger: Blank,
) -> Result<Option<i64>, TreeFault<AllocError>>
    requires number { number < 2 ^ 62 }
    requires name { ledger.name ≡ L.name }
    requires parts { ledger.parts ≡ L.parts }
    requires some { L.parts ≡ 1 }
{
    let mut steps = Steps::<L>::begin(ledger);
    dups_remove(pages, KeyKind::Text, LEAF, value, number, &mut steps)
}

/// Takes a number out of a row of the leaf; whether some number was left.
pub(crate) fn takes(pages: &mut MemPages, row: usize, number: u64) -> bool {
    if number >= 1_000_000_000 {
        return false;
    }
    let value = match value_at(pages, row) {
        Some(value) => value,
        None => return false,
    };
    match removed::<Brand>(pages, value, number, Blank::new(1)) {
        Ok(Some(new)) => writes(pages, row, new),
        _ => false,
    }
}

/// Whether no number is left of a row without this one.
pub(crate) fn is_last(pages: &mut MemPages, row: usize, number: u64) -> bool {
    if number >= 1_000_000_000 {
        return false;
    }
    let value = match value_at(pages, row) {
        Some(value) => value,
        None => return false,
    };
    match removed::<Brand>(pages, value, number, Blank::new(1)) {
        Ok(None) => true,
        _ => false,
    }
}
