// Attributes of a volume of another maker. Its blocks have 1,024 bytes; the inode that bears the attributes is block 4, its
// attribute directory block 5 with the pages in blocks 6 and 7, and two attributes have the inodes 8 and 11. The items of small
// data stand in any order, one of them is named `.`, and the attribute directory has the rows `.` and `..`.
ghost use Rattle.std.specs.Prelude.{◌≡◌, ◌≤◌, ◌<◌, ◌+◌, length, IfOk};

use bfs_attr::{AttrItem, Attrs};
use bfs_bitmap::Bitmap;
use bfs_bytes::{put_i64, put_run, put_u32};
use bfs_node::{Header, PAGE, blank, insert_row};
use bfs_stream_pages::MapFault;
use bfs_tree::AttributeRow;
use bfs_txn::{Blocks, Changed, MemBlocks, Overlay};
use bfs_volume_fixtures::{Silent, put_item, run, superblock};
use std::alloc::{AllocError, Global};
use std::test::Fail;

/// The bytes of a block.
const BLOCK: usize = 1024;

/// Type codes: four letters as a number, the first the highest.
const CSTR: u32 = 0x43535452;

const LONG: u32 = 0x4c4f4e47;

const RAWT: u32 = 0x52415754;

/// Is the answer an attribute of this type with these bytes?
pub(crate) fn is_attribute(found: &Option<AttrItem>, kind: u32, bytes: &[u8]) -> bool {
    match found {
        Some(item) => item.kind == kind && item.bytes.as_slice() == bytes,
        None => false,
    }
}

/// The header and the leaf of an attribute directory with the rows `.` and `..`.
fn put_tree(pages: &mut [u8])
    requires { length pages.old ≡ 2048 }
    ensures { length pages.new ≡ 2048 }
{
    let header = Header {
        magic: 0x69f6c2e8,
        node_size: 1024,
        levels: 1,
        data_type: 0,
        root_pointer: 1024,
        free_pointer: -1,
        maximum_size: 2048,
    };
    let mut page = [0u8; PAGE];
    header.print(&mut page);
    pages[0..1024].copy_from_slice(&page);
    blank(&mut page);
    insert_row(&mut page, 0, b".", 5);
    insert_row(&mut page, 1, b"..", 4);
    insert_row(&mut page, 2, b"empty", 11);
    insert_row(&mut page, 3, b"long", 8);
    pages[1024..2048].copy_from_slice(&page);
}

/// Writes the inode that bears the attributes: the item `.` stands before the node's own name, and two behind it.
fn put_bearer(bytes: &mut [u8])
    requires { 16384 ≤ length bytes.old }
    ensures { length bytes.new ≡ length bytes.old }
{
    let at = 4 * BLOCK + 232;
    put_run(bytes, 4 * BLOCK + 52, run(5, 1));
    put_item(bytes, at, RAWT, b".", b"dot");
    put_item(bytes, at + 16, CSTR, &[0x13], b"own");
    put_item(bytes, at + 32, LONG, b"n", &[5, 0, 0, 0]);
    put_item(bytes, at + 49, RAWT, b"void", b"");
}

/// Writes the attribute directory and its two attributes: `long` has 1,500 bytes, 7 in its first block and 9 in its second, and
/// `empty` has none.
fn put_directory(bytes: &mut [u8])
    requires { 16384 ≤ length bytes.old }
    ensures { length bytes.new ≡ length bytes.old }
{
    put_run(bytes, 5 * BLOCK + 72, run(6, 2));
    put_i64(bytes, 5 * BLOCK + 168, 2048);
    put_i64(bytes, 5 * BLOCK + 208, 2048);
    put_tree(&mut bytes[6 * BLOCK..8 * BLOCK]);
    put_u32(bytes, 8 * BLOCK + 60, RAWT);
    put_run(bytes, 8 * BLOCK + 72, run(9, 2));
    put_i64(bytes, 8 * BLOCK + 168, 2048);
    put_i64(bytes, 8 * BLOCK + 208, 1500);
    bytes[9 * BLOCK..10 * BLOCK].fill(7);
    bytes[10 * BLOCK..11 * BLOCK].fill(9);
    put_u32(bytes, 11 * BLOCK + 60, CSTR);
}

/// The volume, by the size of its blocks, which is 1,024.
fn volume(alloc: Global, size: u32) -> Result<Silent, AllocError>
    requires some { 1024 ≤ size }
    requires small { size ≤ 2048 }
    ensures { IfOk result (λ s. s.blocks.block_size ≡ size) }
{
    let block = size as usize;
    let mut bytes = vec![in alloc; 0u8; block * 16]?;
    put_bearer(&mut bytes);
    put_directory(&mut bytes);
    Ok(Silent {
        blocks: MemBlocks::new(bytes, size),
    })
}

/// The byte that the attribute `long` has at a place.
fn long_byte(at: usize) -> u8 {
    if at < BLOCK { 7 } else { 9 }
}

/// Are these the 1,500 bytes of the attribute `long`?
fn is_long(bytes: &[u8]) -> bool {
    let mut right = bytes.len() == 1500;
    for at in 0..bytes.len() {
        right = right && bytes[at] == long_byte(at);
    }
    right
}

/// The attribute of a name is looked up, and is one of this type with these bytes.
fn reads(
    attrs: &mut Attrs,
    edits: &mut Overlay<'_, Silent>,
    bitmap: &mut Bitmap,
    name: &[u8],
    kind: u32,
    bytes: &[u8],
) -> Result<bool, MapFault>
    requires size { edits.old.under.now.blocks.block_size ≡ attrs.old.geometry.block_size }
    ensures size { edits.new.under.now.blocks.block_size ≡ edits.old.under.now.blocks.block_size }
    ensures same { attrs.new ≡ attrs.old }
{
    match attrs.get(bitmap, edits, name) {
        Ok(found) => Ok(is_attribute(&found, kind, bytes)),
        Err(fault) => Err(fault),
    }
}

/// There is no attribute of a name.
fn misses(
    attrs: &mut Attrs,
    edits: &mut Overlay<'_, Silent>,
    bitmap: &mut Bitmap,
    name: &[u8],
) -> Result<bool, MapFault>
    requires size { edits.old.under.now.blocks.block_size ≡ attrs.old.geometry.block_size }
    ensures size { edits.new.under.now.blocks.block_size ≡ edits.old.under.now.blocks.block_size }
    ensures same { attrs.new ≡ attrs.old }
{
    match attrs.get(bitmap, edits, name) {
        Ok(found) => Ok(found.is_none()),
        Err(fault) => Err(fault),
    }
}

/// The attribute `long` is looked up.
fn reads_long(
    attrs: &mut Attrs,
    edits: &mut Overlay<'_, Silent>,
    bitmap: &mut Bitmap,
) -> Result<bool, MapFault>
    requires size { edits.old.under.now.blocks.block_size ≡ attrs.old.geometry.block_size }
    ensures size { edits.new.under.now.blocks.block_size ≡ edits.old.under.now.blocks.block_size }
    ensures same { attrs.new ≡ attrs.old }
{
    match attrs.get(bitmap, edits, b"long") {
        Ok(Some(item)) => Ok(item.kind == RAWT && is_long(item.bytes.as_slice())),
        Ok(None) => Ok(false),
        Err(fault) => Err(fault),
    }
}

/// Is this row one of this type and name?
fn is_row(rows: &[AttributeRow], at: usize, kind: u32, name: &[u8]) -> bool {
    match rows.get(at) {
        Some(row) => row.kind == kind && row.name.as_slice() == name,
        None => false,
    }
}

/// Are these the rows of the five attributes?
fn are_rows(rows: &[AttributeRow]) -> bool {
    rows.len() == 5
        && is_row(rows, 0, RAWT, b".")
        && is_row(rows, 1, LONG, b"n")
        && is_row(rows, 2, RAWT, b"void")
        && is_row(rows, 3, CSTR, b"empty")
        && is_row(rows, 4, RAWT, b"long")
}

/// All attributes are listed.
fn lists(
    attrs: &mut Attrs,
    edits: &mut Overlay<'_, Silent>,
    bitmap: &mut Bitmap,
) -> Result<bool, MapFault>
    requires size { edits.old.under.now.blocks.block_size ≡ attrs.old.geometry.block_size }
    ensures size { edits.new.under.now.blocks.block_size ≡ edits.old.under.now.blocks.block_size }
    ensures same { attrs.new ≡ attrs.old }
{
    match attrs.list(bitmap, edits) {
        Ok(rows) => Ok(are_rows(rows.as_slice())),
        Err(fault) => Err(fault),
    }
}

/// One of the calls, by its number.
fn asks(
    attrs: &mut Attrs,
    edits: &mut Overlay<'_, Silent>,
    bitmap: &mut Bitmap,
    call: u32,
) -> Result<bool, MapFault>
    requires size { edits.old.under.now.blocks.block_size ≡ attrs.old.geometry.block_size }
    ensures size { edits.new.under.now.blocks.block_size ≡ edits.old.under.now.blocks.block_size }
    ensures same { attrs.new ≡ attrs.old }
{
    match call {
        0 => reads(attrs, edits, bitmap, b".", RAWT, b"dot"),
        1 => reads(attrs, edits, bitmap, b"n", LONG, &[5, 0, 0, 0]),
        2 => reads(attrs, edits, bitmap, b"void", RAWT, b""),
        3 => reads(attrs, edits, bitmap, b"empty", CSTR, b""),
        4 => reads_long(attrs, edits, bitmap),
        5 => misses(attrs, edits, bitmap, b".."),
        6 => misses(attrs, edits, bitmap, &[0x13]),
        7 => misses(attrs, edits, bitmap, b"lon"),
        8 => misses(attrs, edits, bitmap, b""),
        _ => lists(attrs, edits, bitmap),
    }
}

/// The answer of one call on the volume.
fn asked(alloc: Global, call: u32) -> Result<Result<bool, MapFault>, Fail> {
    let sup = superblock(1024, 10, 4096, 1, 12)?;
    if sup.block_size != 1024 {
        return Ok(Ok(false));
    }
    if sup.num_blocks < 6 {
        return Ok(Ok(false));
    }
    let mut under = volume(alloc, sup.block_size)?;
    let mut open = Changed::new(alloc);
    let mut bitmap = Bitmap::of(alloc, &sup);
    let mut edits = Overlay::begin(&mut open, &mut under);
    let mut attrs = Attrs::at(alloc, 4, &sup);
    let result = asks(&mut attrs, &mut edits, &mut bitmap, call);
    edits.drop_call();
    Ok(result)
}

#[test]
fn attributes_are_read_from_small_data_and_from_the_attribute_directory(
    rt: HostRuntime,
) -> Result<(), Fail> {
    let alloc = rt.alloc();
    for call in 0..10u32 {
        let right = asked(alloc, call)?;
        assert!(rt; matches!(right, Ok(true)), "{call}");
    }
    Ok(())
}
