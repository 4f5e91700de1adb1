// Trees of each kind of keys beside a plain table: keys that ascend with their number, and a value for each that is there.
ghost use Rattle.std.specs.Prelude.{◌≡◌, ◌≤◌, ◌<◌, length};
ghost use Rattle.bfs_base.specs.Keys.{IsTreeKind, IsKey};
ghost use Rattle.bfs_node.specs.Search.{IsSought};

use bfs_insert::insert;
use bfs_node::{Header, KeyKind, TreeFault, blank, data_type, is_key};
use bfs_pages::MemPages;
use bfs_range::{Ranged, range};
use bfs_remove::remove;
use bfs_txn::Steps;
use std::alloc::{AllocError, Global};
use std::marker::Brand;
use std::sync::ledger::{Blank, Ledger};
use std::test::Fail;

/// Keys of one kind, by number: those of text ascend by two letters and may be as long as 255 bytes.
#[derive(Clone, Copy)]
struct Keys {
    kind: KeyKind,
    longest: bool,
}

/// The bytes of the key with a number, and how many they are.
fn key_of(keys: Keys, i: u16) -> ([u8; 255], usize) {
    let mut key = [b'k'; 255];
    match keys.kind {
        KeyKind::Text => {
            let [high, low] = i.to_be_bytes();
            key[0] = b'a' + high % 8;
            key[1] = low;
            let length = if keys.longest {
                255
            } else {
                2 + (low as usize) % 128
            };
            (key, length)
        }
        KeyKind::I32 => {
            let number = ((i % 512) as i32 - 256) * 4_000_000 + 1;
            key[..4].copy_from_slice(&number.to_le_bytes());
            (key, 4)
        }
        KeyKind::U32 => {
            let number = i as u32 * 60_001;
            key[..4].copy_from_slice(&number.to_le_bytes());
            (key, 4)
        }
        KeyKind::I64 => {
            let number = (i as i64 - 256) * 1_000_000_000_007;
            key[..8].copy_from_slice(&number.to_le_bytes());
            (key, 8)
        }
        _ => {
            let number = i as u64 * 100_000_000_000_003;
            key[..8].copy_from_slice(&number.to_le_bytes());
            (key, 8)
        }
    }
}

/// Writes the pages of an empty tree.
fn empty_tree(bytes: &mut Vec<u8>, kind: KeyKind) -> Result<(), AllocError>
    requires { IsTreeKind kind }
{
    let mut page = [0u8; 1024];
    let header = Header {
        magic: 0x69f6c2e8,
        node_size: 1024,
        levels: 1,
        data_type: data_type(kind),
        root_pointer: 1024,
        free_pointer: -1,
        maximum_size: 2048,
    };
    header.print(&mut page);
    bytes.extend_from_slice(&page)?;
    blank(&mut page);
    bytes.extend_from_slice(&page)?;
    Ok(())
}

/// Whole pages, as a stream.
fn stream_of(bytes: Vec<u8>) -> Option<MemPages> {
    if bytes.len() % 1024 == 0 {
        Some(MemPages::new(bytes))
    } else {
        None
    }
}

fn ranged<L: Ledger>(
    alloc: Global,
    pages: &mut MemPages,
    kind: KeyKind,
    ledger: Blank,
) -> Result<Ranged, TreeFault<AllocError>>
    requires kind { IsTreeKind kind }
    requires name { ledger.name ≡ L.name }
    requires parts { ledger.parts ≡ L.parts }
    requires some { L.parts ≡ 1 }
{
    let mut steps = Steps::<L>::begin(ledger);
    range(alloc, pages, kind, None, None, &mut steps)
}

fn put<L: Ledger>(
    pages: &mut MemPages,
    kind: KeyKind,
    key: &[u8],
    ledger: Blank,
) -> Result<(), TreeFault<AllocError>>
    requires kind { IsTreeKind kind }
    requires key { IsKey kind key.now }
    requires name { ledger.name ≡ L.name }
    requires parts { ledger.parts ≡ L.parts }
    requires some { L.parts ≡ 1 }
{
    let mut steps = Steps::<L>::begin(ledger);
    insert(pages, kind, key, key.len() as i64, &mut steps)
}

/// Puts the key with a number into the tree and the table; whether the tree answers as the table does.
fn puts(pages: &mut MemPages, table: &mut [bool], keys: Keys, i: u16) -> bool
    requires { IsTreeKind keys.kind }
{
    let at = i as usize;
    let (key, length) = key_of(keys, i);
    if at >= table.len() || length > 255 || !is_key(keys.kind, &key[..length]) {
        return false;
    }
    let there = table[at];
    table[at] = true;
    match put::<Brand>(pages, keys.kind, &key[..length], Blank::new(1)) {
        Ok(()) => !there,
        Err(TreeFault::Exists) => there,
        Err(_) => false,
    }
}

fn take<L: Ledger>(
    pages: &mut MemPages,
    kind: KeyKind,
    key: &[u8],
    ledger: Blank,
) -> Result<i64, TreeFault<AllocError>>
    requires kind { IsTreeKind kind }
    requires key { IsSought kind key.now }
    requires name { ledger.name ≡ L.name }
    requires parts { ledger.parts ≡ L.parts }
    requires some { L.parts ≡ 1 }
{
    let mut steps = Steps::<L>::begin(ledger);
    remove(pages, kind, key, &mut steps)
}

/// Takes the key with a number out of the tree and the table; whether the tree answers as the table does.
fn takes(pages: &mut MemPages, table: &mut [bool], keys: Keys, i: u16) -> bool
    requires { IsTreeKind keys.kind }
{
    let at = i as usize;
    let (key, length) = key_of(keys, i);
    if at >= table.len() || length > 255 || !is_key(keys.kind, &key[..length]) {
        return false;
    }
    let there = table[at];
    table[at] = false;
    match take::<Brand>(pages, keys.kind, &key[..length], Blank::new(1)) {
        Ok(value) => there && value == length as i64,
        Err(TreeFault::Absent) => !there,
        Err(_) => false,
    }
}

/// Whether a row is that of the key with a number.
fn is_row(key: &[u8], numbers: &[u64], keys: Keys, i: u16) -> bool {
    let (want, length) = key_of(keys, i);
    length <= 255 && key == &want[..length] && numbers.len() == 1 && numbers[0] == length as u64
}

/// Whether a tree has the rows of the keys that are in the table, in their order, and no others.
fn is_table(alloc: Global, pages: &mut MemPages, table: &[bool], keys: Keys) -> bool
    requires { IsTreeKind keys.kind }
{
    let found = match ranged::<Brand>(alloc, pages, keys.kind, Blank::new(1)) {
        Ok(found) => found,
        Err(_) => return false,
    };
    let rows = found.as_slice();
    let mut next = 0;
    for at in 0..table.len() {
        if at > 60_000 {
            return false;
        }
        if table[at] {
            if next >= rows.len()
                || !is_row(
                    rows[next].key.as_slice(),
                    rows[next].numbers.as_slice(),
                    keys,
                    at as u16,
                )
            {
                return false;
            }
            next += 1;
        }
    }
    next == rows.len()
}

/// The next number of a sequence that a seed begins.
fn next_seed(seed: u64) -> u64 {
    seed.wrapping_mul(6364136223846793005)
        .wrapping_add(1442695040888963407)
}

/// So many random calls; after each hundred the rows are read back whole.
fn agrees(alloc: Global, pages: &mut MemPages, table: &mut [bool], keys: Keys, calls: u32) -> bool
    requires { IsTreeKind keys.kind }
{
    let mut seed = 7;
    for n in 0..calls {
        seed = next_seed(seed);
        let i = ((seed >> 33) % 512) as u16;
        let good = if seed >> 63 == 0 {
            puts(pages, table, keys, i)
        } else {
            takes(pages, table, keys, i)
        };
        if !good {
            return false;
        }
        if n % 100 == 99 && !is_table(alloc, pages, table, keys) {
            return false;
        }
    }
    true
}

/// Keys of a kind in random order beside a table.
fn is_a_map(alloc: Global, keys: Keys, calls: u32) -> Result<bool, AllocError>
    requires { IsTreeKind keys.kind }
{
    let mut bytes = Vec::new(alloc);
    empty_tree(&mut bytes, keys.kind)?;
    let mut table = [false; 512];
    match stream_of(bytes) {
        Some(mut pages) => Ok(agrees(alloc, &mut pages, &mut table, keys, calls)),
        None => Ok(false),
    }
}

/// Two hundred keys are put, and taken out in another order; after each call the rows are read back whole.
fn is_listed(alloc: Global, pages: &mut MemPages, table: &mut [bool], keys: Keys) -> bool
    requires { IsTreeKind keys.kind }
{
    for n in 0..200u16 {
        let i = (n * 73) % 200;
        if !puts(pages, table, keys, i) || !is_table(alloc, pages, table, keys) {
            return false;
        }
    }
    for n in 0..200u16 {
        let i = (n * 117 + 5) % 200;
        if !takes(pages, table, keys, i) || !is_table(alloc, pages, table, keys) {
            return false;
        }
    }
    true
}

#[test]
fn two_hundred_names_of_255_bytes_are_put_and_removed(rt: HostRuntime) -> Result<(), Fail> {
    let alloc = rt.alloc();
    let keys = Keys {
        kind: KeyKind::Text,
        longest: true,
    };
    let mut bytes = Vec::new(alloc);
    empty_tree(&mut bytes, keys.kind)?;
    let mut table = [false; 200];
    match stream_of(bytes) {
        Some(mut pages) => assert!(rt; is_listed(alloc, &mut pages, &mut table, keys)),
        None => assert!(rt; false),
    }
    Ok(())
}

#[test]
fn trees_of_each_kind_are_sorted_maps(rt: HostRuntime) -> Result<(), Fail> {
    let alloc = rt.alloc();
    let calls = 10_000;
    assert!(rt;
        is_a_map(
            alloc,
            Keys {
                kind: KeyKind::Text,
                longest: false
            },
            calls
        )?
    );
    assert!(rt;
        is_a_map(
            alloc,
            Keys {
                kind: KeyKind::I32,
                longest: false
            },
            calls
        )?
    );
    assert!(rt;
        is_a_map(
            alloc,
            Keys {
                kind: KeyKind::U32,
                longest: false
            },
            calls
        )?
    );
    assert!(rt;
        is_a_map(
            alloc,
            Keys {
                kind: KeyKind::I64,
                longest: false
            },
            calls
        )?
    );
    assert!(rt;
        is_a_map(
            alloc,
            Keys {
                kind: KeyKind::U64,
                longest: false
            },
            calls
        )?
    );
    Ok(())
}
