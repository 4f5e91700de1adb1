// Indices beside plain tables of their pairs. The volume has blocks of 1,024 bytes and three allocation groups, its bitmap in blocks 1
// to 3; the index's inode is block 4, and its two first pages are blocks 5 and 6.
ghost use Rattle.std.specs.Prelude.{◌≡◌, ◌≤◌, ◌<◌, ◌^◌, length, IfOk};
ghost use Rattle.bfs_base.specs.Keys.{IsKey};
ghost use Rattle.bfs_base.specs.declared.kind.KeyKind.TheVariants.{Text, I64};
ghost use Rattle.bfs_node.specs.Search.{IsSought};
ghost use Rattle.bfs_stream.specs.Grown.{IsOfVolume};

use bfs_bitmap::Bitmap;
use bfs_bytes::{put_i64, put_run};
use bfs_index::{Index, Pair};
use bfs_node::{Header, KeyKind, PAGE, blank};
use bfs_stream_pages::MapFault;
use bfs_txn::{Blocks, Changed, MemBlocks, Overlay};
use bfs_volume_fixtures::{Silent, run, superblock};
use std::alloc::{AllocError, Global};
use std::test::Fail;

/// The bytes of a block.
const BLOCK: usize = 1024;

/// How many ids may stand under a key of the table.
const IDS: usize = 130;

/// How many pairs there may be: those of ten keys.
const PAIRS: usize = 1300;

/// The header and the empty leaf of an index with keys of this data type.
fn put_tree(pages: &mut [u8], data_type: u32)
    requires { length pages.old ≡ 2048 }
    ensures { length pages.new ≡ 2048 }
{
    let header = Header {
        magic: 0x69f6c2e8,
        node_size: 1024,
        levels: 1,
        data_type,
        root_pointer: 1024,
        free_pointer: -1,
        maximum_size: 2048,
    };
    let mut page = [0u8; PAGE];
    header.print(&mut page);
    pages[0..1024].copy_from_slice(&page);
    blank(&mut page);
    pages[1024..2048].copy_from_slice(&page);
}

/// Writes the volume's first eight blocks, which are in use.
fn put_volume(bytes: &mut [u8], data_type: u32)
    requires { 8192 ≤ length bytes.old }
    ensures { length bytes.new ≡ length bytes.old }
{
    bytes[BLOCK] = 255;
    put_run(bytes, 4 * BLOCK + 72, run(5, 2));
    put_i64(bytes, 4 * BLOCK + 168, 2048);
    put_i64(bytes, 4 * BLOCK + 208, 2048);
    put_tree(&mut bytes[5 * BLOCK..7 * BLOCK], data_type);
}

/// The volume, by the size of its blocks, which is 1,024.
fn volume(alloc: Global, size: u32, data_type: u32) -> Result<Silent, AllocError>
    requires some { 1024 ≤ size }
    requires small { size ≤ 2048 }
    ensures { IfOk result (λ s. s.blocks.block_size ≡ size) }
{
    let block = size as usize;
    let mut bytes = vec![in alloc; 0u8; block * 8]?;
    put_volume(&mut bytes, data_type);
    Ok(Silent {
        blocks: MemBlocks::new(bytes, size),
    })
}

/// Adds a pair, or takes it out.
fn changes(
    index: &mut Index,
    edits: &mut Overlay<'_, Silent>,
    bitmap: &mut Bitmap,
    key: &[u8],
    id: u64,
    adds: bool,
) -> Result<(), MapFault>
    requires key { IsKey index.old.kind key.now }
    requires sought { IsSought index.old.kind key.now }
    requires id { id < 2 ^ 62 }
    requires size { edits.old.under.now.blocks.block_size ≡ index.old.origin.sizes.block_size }
    requires volume { IsOfVolume index.old.origin.sizes bitmap.old }
    ensures size { edits.new.under.now.blocks.block_size ≡ edits.old.under.now.blocks.block_size }
    ensures rest { bitmap.new ≡ record bitmap.old { tally = bitmap.new.tally } }
    ensures same { index.new ≡ index.old }
{
    if adds {
        index.add(bitmap, edits, key, id)
    } else {
        index.remove(bitmap, edits, key, id)
    }
}

// ---- numbers as keys

/// A number as a key.
fn number_key(number: i64) -> [u8; 8]
    ensures { length result ≡ 8 }
{
    number.cast_unsigned().to_le_bytes()
}

/// Adds the ids from 1 up to a number to the key 0, or takes every so many of them out, not in their order.
fn change_ids(
    index: &mut Index,
    edits: &mut Overlay<'_, Silent>,
    bitmap: &mut Bitmap,
    count: u64,
    step: u64,
    adds: bool,
) -> Result<(), MapFault>
    requires kind { index.old.kind ≡ I64 }
    requires count { count < 1000 }
    requires some { 1 ≤ step }
    requires size { edits.old.under.now.blocks.block_size ≡ index.old.origin.sizes.block_size }
    requires volume { IsOfVolume index.old.origin.sizes bitmap.old }
    ensures size { edits.new.under.now.blocks.block_size ≡ edits.old.under.now.blocks.block_size }
    ensures rest { IsOfVolume index.new.origin.sizes bitmap.new }
    ensures same { index.new ≡ index.old }
{
    let key = number_key(0);
    for i in 0..count {
        let id = 1 + i * 11 % count;
        if id % step == 0 {
            match changes(index, edits, bitmap, &key, id, adds) {
                Ok(()) => {}
                Err(fault) => return Err(fault),
            }
        }
    }
    Ok(())
}

/// Is this a pair of this key and id?
fn is_pair(pairs: &[Pair], at: usize, key: &[u8], id: u64) -> bool {
    match pairs.get(at) {
        Some(pair) => pair.id == id && pair.key.as_slice() == key,
        None => false,
    }
}

/// Are these the pairs of a number and so many ids, from one on, so far apart?
fn are_ids(pairs: &[Pair], number: i64, first: u64, step: u64) -> bool {
    let key = number_key(number);
    let mut right = true;
    let mut id = first;
    for at in 0..pairs.len() {
        right = right && is_pair(pairs, at, &key, id);
        id = id.wrapping_add(step);
    }
    right
}

/// A range from a number to another has so many pairs: the first ones are of the number -5, the last ones of 7, and the others of 0,
/// with these ids.
fn ranges(
    index: &mut Index,
    edits: &mut Overlay<'_, Silent>,
    bitmap: &mut Bitmap,
    ends: (i64, i64),
    count: usize,
    step: u64,
) -> Result<bool, MapFault>
    requires kind { index.old.kind ≡ I64 }
    requires size { edits.old.under.now.blocks.block_size ≡ index.old.origin.sizes.block_size }
    ensures size { edits.new.under.now.blocks.block_size ≡ edits.old.under.now.blocks.block_size }
    ensures rest { bitmap.new ≡ bitmap.old }
    ensures same { index.new ≡ index.old }
{
    let low = number_key(ends.0);
    let high = number_key(ends.1);
    match index.range(bitmap, edits, &low, &high) {
        Ok(pairs) => {
            let all = pairs.as_slice();
            if ends.0 == 0 {
                Ok(all.len() == count && are_ids(all, 0, 1, step))
            } else {
                Ok(
                    all.len() >= 2
                        && all.len() - 2 == count
                        && is_pair(all, 0, &number_key(-5), 900)
                        && is_pair(all, all.len() - 1, &number_key(7), 901)
                        && are_ids(&all[1..all.len() - 1], 0, 1, step),
                )
            }
        }
        Err(fault) => Err(fault),
    }
}

/// So many ids of one number between two others are added, each twice, and read.
fn comes(
    index: &mut Index,
    edits: &mut Overlay<'_, Silent>,
    bitmap: &mut Bitmap,
    count: u64,
) -> Result<bool, MapFault>
    requires kind { index.old.kind ≡ I64 }
    requires count { count < 1000 }
    requires size { edits.old.under.now.blocks.block_size ≡ index.old.origin.sizes.block_size }
    requires volume { IsOfVolume index.old.origin.sizes bitmap.old }
    ensures index { index.new ≡ index.old }
    ensures size { edits.new.under.now.blocks.block_size ≡ edits.old.under.now.blocks.block_size }
    ensures volume { IsOfVolume index.old.origin.sizes bitmap.new }
{
    let many = count as usize;
    changes(index, edits, bitmap, &number_key(7), 901, true)?;
    changes(index, edits, bitmap, &number_key(-5), 900, true)?;
    change_ids(index, edits, bitmap, count, 1, true)?;
    change_ids(index, edits, bitmap, count, 1, true)?;
    let alone = ranges(index, edits, bitmap, (0, 0), many, 1)?;
    let all = ranges(index, edits, bitmap, (-5, 7), many, 1)?;
    Ok(alone && all)
}

/// Every second one is taken, read, all taken, read.
fn goes(
    index: &mut Index,
    edits: &mut Overlay<'_, Silent>,
    bitmap: &mut Bitmap,
    count: u64,
) -> Result<bool, MapFault>
    requires kind { index.old.kind ≡ I64 }
    requires count { count < 1000 }
    requires size { edits.old.under.now.blocks.block_size ≡ index.old.origin.sizes.block_size }
    requires volume { IsOfVolume index.old.origin.sizes bitmap.old }
{
    let many = count as usize;
    change_ids(index, edits, bitmap, count, 2, false)?;
    let half = ranges(index, edits, bitmap, (-5, 7), many - many / 2, 2)?;
    change_ids(index, edits, bitmap, count, 1, false)?;
    let beside = ranges(index, edits, bitmap, (-5, 7), 0, 1)?;
    let none = ranges(index, edits, bitmap, (0, 0), 0, 1)?;
    Ok(half && beside && none)
}

/// So many ids come, and go.
fn comes_and_goes(
    index: &mut Index,
    edits: &mut Overlay<'_, Silent>,
    bitmap: &mut Bitmap,
    count: u64,
) -> Result<bool, MapFault>
    requires kind { index.old.kind ≡ I64 }
    requires count { count < 1000 }
    requires size { edits.old.under.now.blocks.block_size ≡ index.old.origin.sizes.block_size }
    requires volume { IsOfVolume index.old.origin.sizes bitmap.old }
{
    match comes(index, edits, bitmap, count) {
        Ok(true) => goes(index, edits, bitmap, count),
        other => other,
    }
}

/// The same on a new volume.
fn comes_and_goes_on(alloc: Global, count: u64) -> Result<Result<bool, MapFault>, Fail>
    requires { count < 1000 }
{
    let sup = superblock(1024, 10, 20480, 3, 4)?;
    if sup.block_size != 1024 {
        return Ok(Ok(false));
    }
    if sup.num_blocks < 6 {
        return Ok(Ok(false));
    }
    let mut under = volume(alloc, sup.block_size, 3)?;
    let mut open = Changed::new(alloc);
    let mut bitmap = Bitmap::of(alloc, &sup);
    let mut edits = Overlay::begin(&mut open, &mut under);
    let mut index = Index::at(alloc, 4, KeyKind::I64, &sup);
    let result = comes_and_goes(&mut index, &mut edits, &mut bitmap, count);
    edits.drop_call();
    Ok(result)
}

#[test]
fn a_number_has_as_many_ids_as_were_added(rt: HostRuntime) -> Result<(), Fail> {
    let alloc = rt.alloc();
    for count in [1u64, 2, 7, 8, 125, 126, 300] {
        if count < 1000 {
            let right = comes_and_goes_on(alloc, count)?;
            assert!(rt; matches!(right, Ok(true)), "{count}");
        }
    }
    Ok(())
}

// ---- texts as keys

/// The text with a number: its three digits, and letters behind them.
fn text_of(number: usize) -> [u8; 255]
    ensures { length result ≡ 255 }
{
    let mut text = [b'n'; 255];
    text[0] = b'0' + (number / 100 % 10) as u8;
    text[1] = b'0' + (number / 10 % 10) as u8;
    text[2] = b'0' + (number % 10) as u8;
    text
}

/// How long that text is: every other one has 255 bytes.
fn length_of(number: usize) -> usize
    ensures low { 1 ≤ result }
    ensures high { result ≤ 255 }
{
    if number % 2 == 0 {
        255
    } else {
        3 + number % 60
    }
}

/// One call by a drawn number: the pair of a place of the table is added or taken out, there and in the table.
fn does(
    index: &mut Index,
    edits: &mut Overlay<'_, Silent>,
    bitmap: &mut Bitmap,
    plain: &mut [bool],
    drawn: u64,
) -> Result<(), MapFault>
    requires kind { index.old.kind ≡ Text }
    requires some { 0 < length plain.old }
    requires size { edits.old.under.now.blocks.block_size ≡ index.old.origin.sizes.block_size }
    requires volume { IsOfVolume index.old.origin.sizes bitmap.old }
    ensures length { length plain.new ≡ length plain.old }
    ensures size { edits.new.under.now.blocks.block_size ≡ edits.old.under.now.blocks.block_size }
    ensures rest { bitmap.new ≡ record bitmap.old { tally = bitmap.new.tally } }
    ensures same { index.new ≡ index.old }
{
    let place = (drawn / 8) as usize % plain.len();
    let number = place / IDS;
    let adds = drawn % 8 < 5;
    plain[place] = adds;
    let text = text_of(number);
    changes(
        index,
        edits,
        bitmap,
        &text[..length_of(number)],
        (place % IDS) as u64,
        adds,
    )
}

/// Are these the pairs of the table, in its order?
fn are_those(pairs: &[Pair], plain: &[bool]) -> bool {
    let mut right = true;
    let mut at = 0usize;
    for place in 0..plain.len() {
        if plain[place] {
            let number = place / IDS;
            let text = text_of(number);
            right = right && is_pair(pairs, at, &text[..length_of(number)], (place % IDS) as u64);
            at = at.wrapping_add(1);
        }
    }
    right && at == pairs.len()
}

/// All pairs are read, and are those of the table.
fn reads(
    index: &mut Index,
    edits: &mut Overlay<'_, Silent>,
    bitmap: &mut Bitmap,
    plain: &[bool],
) -> Result<bool, MapFault>
    requires kind { index.old.kind ≡ Text }
    requires size { edits.old.under.now.blocks.block_size ≡ index.old.origin.sizes.block_size }
    ensures size { edits.new.under.now.blocks.block_size ≡ edits.old.under.now.blocks.block_size }
    ensures rest { bitmap.new ≡ bitmap.old }
    ensures same { index.new ≡ index.old }
{
    match index.range(bitmap, edits, b"0", b"1") {
        Ok(pairs) => Ok(are_those(pairs.as_slice(), plain)),
        Err(fault) => Err(fault),
    }
}

/// So many calls, after each hundred of which all pairs are read.
fn runs(
    index: &mut Index,
    edits: &mut Overlay<'_, Silent>,
    bitmap: &mut Bitmap,
    calls: u32,
    seed: u64,
) -> Result<bool, MapFault>
    requires kind { index.old.kind ≡ Text }
    requires size { edits.old.under.now.blocks.block_size ≡ index.old.origin.sizes.block_size }
    requires volume { IsOfVolume index.old.origin.sizes bitmap.old }
    ensures size { edits.new.under.now.blocks.block_size ≡ edits.old.under.now.blocks.block_size }
{
    let mut plain = [false; PAIRS];
    let mut drawn = seed;
    let mut right = true;
    for call in 0..calls {
        drawn = drawn
            .wrapping_mul(6364136223846793005)
            .wrapping_add(1442695040888963407);
        match does(index, edits, bitmap, &mut plain, drawn / 65536) {
            Ok(()) => {}
            Err(fault) => return Err(fault),
        }
        if call % 100 == 99 {
            match reads(index, edits, bitmap, &plain) {
                Ok(same) => right = right && same,
                Err(fault) => return Err(fault),
            }
        }
    }
    Ok(right)
}

/// The same on a new volume.
fn runs_on(alloc: Global, calls: u32, seed: u64) -> Result<Result<bool, MapFault>, Fail> {
    let sup = superblock(1024, 10, 20480, 3, 4)?;
    if sup.block_size != 1024 {
        return Ok(Ok(false));
    }
    if sup.num_blocks < 6 {
        return Ok(Ok(false));
    }
    let mut under = volume(alloc, sup.block_size, 0)?;
    let mut open = Changed::new(alloc);
    let mut bitmap = Bitmap::of(alloc, &sup);
    let mut edits = Overlay::begin(&mut open, &mut under);
    let mut index = Index::at(alloc, 4, KeyKind::Text, &sup);
    let result = runs(&mut index, &mut edits, &mut bitmap, calls, seed);
    edits.drop_call();
    Ok(result)
}

#[test]
fn an_index_answers_as_a_table_of_pairs_does(rt: HostRuntime) -> Result<(), Fail> {
    let alloc = rt.alloc();
    for (seed, calls) in [(7u64, 2000u32), (1000, 2000)] {
        let right = runs_on(alloc, calls, seed)?;
        assert!(rt; matches!(right, Ok(true)), "{seed}");
    }
    Ok(())
}
