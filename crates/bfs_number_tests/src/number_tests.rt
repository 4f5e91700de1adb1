// Numbers added to the keys of one leaf and taken out again, in memory, beside plain tables.
ghost use Rattle.std.specs.Prelude.{◌≡◌, ◌<◌, ◌^◌};

use crate::leaf::{LEAF, form_of, has_all, is_last, meant, stream_of, takes, value_at, writes};
use bfs_dups_add::dups_add;
use bfs_node::{Header, KeyKind, PAGE, TreeFault, blank, has_room, insert_row, row_count};
use bfs_pages::MemPages;
use bfs_txn::{Pages, Steps};
use std::alloc::{AllocError, Global};
use std::marker::Brand;
use std::sync::ledger::{Blank, Ledger};
use std::test::Fail;

/// A tree of one leaf with so many keys of one letter, each with a plain number of its own.
fn make_tree(bytes: &mut Vec<u8>, keys: u8) -> Result<(), AllocError> {
    let mut page = [0u8; PAGE];
    let header = Header {
        magic: 0x69f6c2e8,
        node_size: 1024,
        levels: 1,
        data_type: 0,
        root_pointer: 1024,
        free_pointer: -1,
        maximum_size: 2048,
    };
    header.print(&mut page);
    bytes.extend_from_slice(&page)?;
    blank(&mut page);
    for i in 0..keys {
        if i < 64 && has_room(&page, &[b'A' + i]) {
            let count = row_count(&page);
            insert_row(&mut page, count, &[b'A' + i], i as i64);
        }
    }
    bytes.extend_from_slice(&page)?;
    Ok(())
}

fn added<L: Ledger>(
    pages: &mut MemPages,
    value: i64,
    number: u64,
    ledger: Blank,
) -> Result<i64, TreeFault<AllocError>>
    requires number { number < 2 ^ 62 }
    requires name { ledger.name ≡ L.name }
    requires parts { ledger.parts ≡ L.parts }
    requires some { L.parts ≡ 1 }
{
    let mut steps = Steps::<L>::begin(ledger);
    dups_add(pages, KeyKind::Text, LEAF, value, number, &mut steps)
}

/// Adds a number to a row of the leaf.
fn adds(pages: &mut MemPages, row: usize, number: u64) -> bool {
    if number >= 1_000_000_000 {
        return false;
    }
    let value = match value_at(pages, row) {
        Some(value) => value,
        None => return false,
    };
    match added::<Brand>(pages, value, number, Blank::new(1)) {
        Ok(new) => writes(pages, row, new),
        Err(_) => false,
    }
}

/// Whether a row means the numbers that stand in its part of a table, and no others.
fn is_table(alloc: Global, pages: &mut MemPages, table: &[bool], row: usize) -> bool {
    let value = match value_at(pages, row) {
        Some(value) => value,
        None => return false,
    };
    let found = match meant::<Brand>(alloc, pages, value, Blank::new(1)) {
        Ok(found) => found,
        Err(_) => return false,
    };
    let numbers = found.as_slice();
    let mut next = 0;
    for number in 0..64usize {
        if row >= 32 || row * 64 + number >= table.len() {
            return false;
        }
        if table[row * 64 + number] {
            if next >= numbers.len() || numbers[next] != number as u64 {
                return false;
            }
            next += 1;
        }
    }
    next == numbers.len()
}

/// The next number of a sequence that a seed begins.
fn next_seed(seed: u64) -> u64 {
    seed.wrapping_mul(6364136223846793005)
        .wrapping_add(1442695040888963407)
}

/// From eight numbers to seven and back, so often, without a page more.
fn to_and_fro(alloc: Global, pages: &mut MemPages, times: u64) -> bool {
    for number in 1..8u64 {
        if !adds(pages, 0, number) {
            return false;
        }
    }
    let size = pages.length();
    for n in 0..times {
        let number = n % 8;
        if form_of(pages, 0) != 3 || !takes(pages, 0, number) || form_of(pages, 0) != 2 {
            return false;
        }
        if !adds(pages, 0, number) || !has_all(alloc, pages, 0, 0, 7) || pages.length() != size {
            return false;
        }
    }
    true
}

#[test]
fn a_hundred_times_from_eight_to_seven_takes_no_page(rt: HostRuntime) -> Result<(), Fail> {
    let alloc = rt.alloc();
    let mut bytes = Vec::new(alloc);
    make_tree(&mut bytes, 1)?;
    match stream_of(bytes) {
        Some(mut pages) => assert!(rt; to_and_fro(alloc, &mut pages, 100)),
        None => assert!(rt; false),
    }
    Ok(())
}

/// Whether the part of a table that is a row's has no number but this one.
fn is_only(table: &[bool], row: usize, number: u64) -> bool {
    for other in 0..64usize {
        if row >= 32 || row * 64 + other >= table.len() {
            return false;
        }
        if table[row * 64 + other] && other as u64 != number {
            return false;
        }
    }
    true
}

/// So many random additions and removals; after each forty all numbers are read back.
fn agrees_throughout(alloc: Global, pages: &mut MemPages, table: &mut [bool], calls: u32) -> bool {
    for row in 0..20usize {
        if row * 64 + row >= table.len() {
            return false;
        }
        table[row * 64 + row] = true;
    }
    let mut seed = 11;
    for n in 0..calls {
        seed = next_seed(seed);
        let row = ((seed >> 33) % 20) as usize;
        let number = (seed >> 50) % 64;
        let at = row * 64 + number as usize;
        if at >= table.len() {
            return false;
        }
        let good = if (seed >> 40) % 2 == (n as u64 / 600) % 2 {
            table[at] = true;
            adds(pages, row, number)
        } else if table[at] && is_only(table, row, number) {
            is_last(pages, row, number)
        } else {
            table[at] = false;
            takes(pages, row, number)
        };
        if !good {
            return false;
        }
        if n % 40 == 0 {
            for row in 0..20usize {
                if !is_table(alloc, pages, table, row) {
                    return false;
                }
            }
        }
    }
    for row in 0..20usize {
        if !is_table(alloc, pages, table, row) {
            return false;
        }
    }
    true
}

#[test]
fn random_calls_leave_the_numbers_of_a_table(rt: HostRuntime) -> Result<(), Fail> {
    let alloc = rt.alloc();
    let mut bytes = Vec::new(alloc);
    make_tree(&mut bytes, 20)?;
    let mut table = vec![in alloc; false; 1280]?;
    match stream_of(bytes) {
        Some(mut pages) => assert!(rt; agrees_throughout(alloc, &mut pages, &mut table, 2400)),
        None => assert!(rt; false),
    }
    Ok(())
}
