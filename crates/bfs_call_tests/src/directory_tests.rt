// A directory beside a plain table of its ids. The volume has blocks of 1,024 bytes and three allocation groups, its bitmap in
// blocks 1 to 3; the directory's inode is block 4, and its two first pages are blocks 5 and 6.
ghost use Rattle.std.specs.Prelude.{◌≡◌, ◌≤◌, ◌<◌, ◌^◌, length, IfOk};
ghost use Rattle.bfs_stream.specs.Grown.{IsOfVolume};

use crate::volumes::BLOCK;
use bfs_bitmap::Bitmap;
use bfs_bytes::{put_i64, put_run};
use bfs_dir::{Dir, DirRow};
use bfs_node::{Header, PAGE, TreeFault, blank, insert_row};
use bfs_stream_pages::MapFault;
use bfs_txn::{Blocks, Changed, MemBlocks, Overlay};
use bfs_volume_fixtures::{Silent, run, superblock};
use std::alloc::{AllocError, Global};
use std::test::Fail;

/// How many names there are.
const NAMES: usize = 150;

/// The header and the leaf of a directory with the rows `.` and `..`.
fn put_tree(pages: &mut [u8])
    requires { length pages.old ≡ 2048 }
    ensures { length pages.new ≡ 2048 }
{
    let header = Header {
        magic: 0x69f6c2e8,
        node_size: 1024,
        levels: 1,
        data_type: 0,
        root_pointer: 1024,
        free_pointer: -1,
        maximum_size: 2048,
    };
    let mut page = [0u8; PAGE];
    header.print(&mut page);
    pages[0..1024].copy_from_slice(&page);
    blank(&mut page);
    insert_row(&mut page, 0, b".", 4);
    insert_row(&mut page, 1, b"..", 600);
    pages[1024..2048].copy_from_slice(&page);
}

/// Writes the volume's first eight blocks, which are in use.
fn put_volume(bytes: &mut [u8])
    requires { 8192 ≤ length bytes.old }
    ensures { length bytes.new ≡ length bytes.old }
{
    bytes[BLOCK] = 255;
    put_run(bytes, 4 * BLOCK + 72, run(5, 2));
    put_i64(bytes, 4 * BLOCK + 168, 2048);
    put_i64(bytes, 4 * BLOCK + 208, 2048);
    put_tree(&mut bytes[5 * BLOCK..7 * BLOCK]);
}

/// The volume, by the size of its blocks, which is 1,024.
fn volume(alloc: Global, size: u32) -> Result<Silent, AllocError>
    requires some { 1024 ≤ size }
    requires small { size ≤ 2048 }
    ensures { IfOk result (λ s. s.blocks.block_size ≡ size) }
{
    let block = size as usize;
    let mut bytes = vec![in alloc; 0u8; block * 8]?;
    put_volume(&mut bytes);
    Ok(Silent {
        blocks: MemBlocks::new(bytes, size),
    })
}

/// The name with a number: its three digits, and letters behind them.
fn name_of(number: usize) -> [u8; 255]
    ensures { length result ≡ 255 }
{
    let mut name = [b'n'; 255];
    name[0] = b'0' + (number / 100 % 10) as u8;
    name[1] = b'0' + (number / 10 % 10) as u8;
    name[2] = b'0' + (number % 10) as u8;
    name
}

/// How long that name is: every other one has 255 bytes.
fn length_of(number: usize) -> usize
    ensures low { 1 ≤ result }
    ensures high { result ≤ 255 }
{
    if number % 2 == 0 {
        255
    } else {
        3 + number % 60
    }
}

/// A name is put, and the answer is the one of the table, in which 0 stands for no id.
fn puts(
    dir: &mut Dir,
    edits: &mut Overlay<'_, Silent>,
    bitmap: &mut Bitmap,
    plain: &mut [u64],
    number: usize,
    id: u64,
) -> Result<bool, MapFault>
    requires number { number < length plain.old }
    requires id { id < 2 ^ 62 }
    requires size { edits.old.under.now.blocks.block_size ≡ dir.old.sizes.block_size }
    requires volume { IsOfVolume dir.old.sizes bitmap.old }
    ensures length { length plain.new ≡ length plain.old }
    ensures size { edits.new.under.now.blocks.block_size ≡ edits.old.under.now.blocks.block_size }
    ensures rest { bitmap.new ≡ record bitmap.old { tally = bitmap.new.tally } }
    ensures same { dir.new ≡ dir.old }
{
    let name = name_of(number);
    match dir.put(bitmap, edits, &name[..length_of(number)], id) {
        Ok(()) => {
            let absent = plain[number] == 0;
            plain[number] = id;
            Ok(absent)
        }
        Err(TreeFault::Exists) => Ok(plain[number] != 0),
        Err(fault) => Err(fault),
    }
}

/// A name is taken, and the answer is the one of the table.
fn takes(
    dir: &mut Dir,
    edits: &mut Overlay<'_, Silent>,
    bitmap: &mut Bitmap,
    plain: &mut [u64],
    number: usize,
) -> Result<bool, MapFault>
    requires number { number < length plain.old }
    requires size { edits.old.under.now.blocks.block_size ≡ dir.old.sizes.block_size }
    requires volume { IsOfVolume dir.old.sizes bitmap.old }
    ensures length { length plain.new ≡ length plain.old }
    ensures size { edits.new.under.now.blocks.block_size ≡ edits.old.under.now.blocks.block_size }
    ensures rest { bitmap.new ≡ record bitmap.old { tally = bitmap.new.tally } }
    ensures same { dir.new ≡ dir.old }
{
    let name = name_of(number);
    match dir.take(bitmap, edits, &name[..length_of(number)]) {
        Ok(id) => {
            let there = plain[number] == id && id != 0;
            plain[number] = 0;
            Ok(there)
        }
        Err(TreeFault::Absent) => Ok(plain[number] == 0),
        Err(fault) => Err(fault),
    }
}

/// A name is looked up, and the answer is the one of the table.
fn gets(
    dir: &mut Dir,
    edits: &mut Overlay<'_, Silent>,
    bitmap: &mut Bitmap,
    plain: &[u64],
    number: usize,
) -> Result<bool, MapFault>
    requires number { number < length plain.now }
    requires size { edits.old.under.now.blocks.block_size ≡ dir.old.sizes.block_size }
    ensures size { edits.new.under.now.blocks.block_size ≡ edits.old.under.now.blocks.block_size }
    ensures rest { bitmap.new ≡ bitmap.old }
    ensures same { dir.new ≡ dir.old }
{
    let name = name_of(number);
    match dir.get(bitmap, edits, &name[..length_of(number)]) {
        Ok(Some(id)) => Ok(plain[number] == id && id != 0),
        Ok(None) => Ok(plain[number] == 0),
        Err(fault) => Err(fault),
    }
}

/// Is this row one of this name and id?
fn is_row(rows: &[DirRow], at: usize, name: &[u8], id: u64) -> bool {
    match rows.get(at) {
        Some(row) => row.id == id && row.name.as_slice() == name,
        None => false,
    }
}

/// Are these the rows `.` and `..`, and those of the table in the order of their numbers?
fn are_those(rows: &[DirRow], plain: &[u64]) -> bool {
    let mut right = is_row(rows, 0, b".", 4) && is_row(rows, 1, b"..", 600);
    let mut left = rows.len();
    for number in 0..plain.len() {
        if plain[number] != 0 {
            let name = name_of(number);
            let found = rows.iter().any(|row| row.id == plain[number]
                && row.name.as_slice() == &name[..length_of(number)]);
            right = right && found && left > 0;
            left = left.saturating_sub(1);
        }
    }
    right && left == 2
}

/// The directory is listed, and its rows are those of the table.
fn lists(
    dir: &mut Dir,
    edits: &mut Overlay<'_, Silent>,
    bitmap: &mut Bitmap,
    plain: &[u64],
) -> Result<bool, MapFault>
    requires size { edits.old.under.now.blocks.block_size ≡ dir.old.sizes.block_size }
    ensures size { edits.new.under.now.blocks.block_size ≡ edits.old.under.now.blocks.block_size }
    ensures rest { bitmap.new ≡ bitmap.old }
    ensures same { dir.new ≡ dir.old }
{
    match dir.list(bitmap, edits) {
        Ok(rows) => Ok(are_those(rows.as_slice(), plain)),
        Err(fault) => Err(fault),
    }
}

/// One call by a drawn number: a name is put, taken or looked up.
fn does(
    dir: &mut Dir,
    edits: &mut Overlay<'_, Silent>,
    bitmap: &mut Bitmap,
    plain: &mut [u64],
    drawn: u64,
) -> Result<bool, MapFault>
    requires some { 0 < length plain.old }
    requires size { edits.old.under.now.blocks.block_size ≡ dir.old.sizes.block_size }
    requires volume { IsOfVolume dir.old.sizes bitmap.old }
    ensures length { length plain.new ≡ length plain.old }
    ensures size { edits.new.under.now.blocks.block_size ≡ edits.old.under.now.blocks.block_size }
    ensures rest { bitmap.new ≡ record bitmap.old { tally = bitmap.new.tally } }
    ensures same { dir.new ≡ dir.old }
{
    let number = (drawn / 8) as usize % plain.len();
    match drawn % 8 {
        0 | 1 | 2 => puts(dir, edits, bitmap, plain, number, 1 + drawn % 100_000),
        3 | 4 => takes(dir, edits, bitmap, plain, number),
        _ => gets(dir, edits, bitmap, plain, number),
    }
}

/// So many calls, after each hundred of which the directory is listed.
fn runs(
    dir: &mut Dir,
    edits: &mut Overlay<'_, Silent>,
    bitmap: &mut Bitmap,
    calls: u32,
    seed: u64,
) -> Result<bool, MapFault>
    requires size { edits.old.under.now.blocks.block_size ≡ dir.old.sizes.block_size }
    requires volume { IsOfVolume dir.old.sizes bitmap.old }
    ensures size { edits.new.under.now.blocks.block_size ≡ edits.old.under.now.blocks.block_size }
{
    let mut plain = [0u64; NAMES];
    let mut drawn = seed;
    let mut right = true;
    for call in 0..calls {
        drawn = drawn
            .wrapping_mul(6364136223846793005)
            .wrapping_add(1442695040888963407);
        match does(dir, edits, bitmap, &mut plain, drawn / 65536) {
            Ok(same) => right = right && same,
            Err(fault) => return Err(fault),
        }
        if call % 100 == 99 {
            match lists(dir, edits, bitmap, &plain) {
                Ok(same) => right = right && same,
                Err(fault) => return Err(fault),
            }
        }
    }
    Ok(right)
}

/// The same on a new volume.
fn runs_on(alloc: Global, calls: u32, seed: u64) -> Result<bool, Fail> {
    let sup = superblock(1024, 10, 20480, 3, 4)?;
    if sup.block_size != 1024 {
        return Ok(false);
    }
    if sup.num_blocks < 6 {
        return Ok(false);
    }
    let mut under = volume(alloc, sup.block_size)?;
    let mut open = Changed::new(alloc);
    let mut bitmap = Bitmap::of(alloc, &sup);
    let mut edits = Overlay::begin(&mut open, &mut under);
    let mut dir = Dir::at(alloc, 4, &sup);
    let result = runs(&mut dir, &mut edits, &mut bitmap, calls, seed);
    edits.drop_call();
    Ok(matches!(result, Ok(true)))
}

#[test]
fn a_directory_answers_as_a_table_does(rt: HostRuntime) -> Result<(), Fail> {
    let alloc = rt.alloc();
    for (seed, calls) in [(7u64, 300u32), (1000, 10_000)] {
        assert!(rt; runs_on(alloc, calls, seed)?, "{seed}");
    }
    Ok(())
}
