// A node's name beside three attributes in small data. The volume has blocks of 1,024 bytes and three allocation groups, its bitmap in
// blocks 1 to 3; the inode is block 4. Its small data has 792 bytes: the attribute `a` with 100 bytes takes 113 of them, and `b` and
// `c` with 250 bytes take 263 each, which leaves 153; a name takes 13 more than its bytes, so that one of 140 fills the rest.
ghost use Rattle.std.specs.Prelude.{◌≡◌, ◌≤◌, ◌+◌};
ghost use Rattle.bfs_super.specs.Conditions.{IsValid, natural};
ghost use Rattle.bfs_stream.specs.Sizes.{sizes_of};
ghost use Rattle.bfs_stream.specs.Grown.{IsOfVolume};

use crate::volumes::{BLOCK, RAWT, volume};
use bfs_attr::{AttrItem, attribute_of};
use bfs_bitmap::Bitmap;
use bfs_bytes::run_at;
use bfs_inode::SMALL_DATA;
use bfs_make::Site;
use bfs_node::TreeFault;
use bfs_set_name::set_name;
use bfs_smalldata::{find, list_end};
use bfs_stream::GrowFault;
use bfs_stream_pages::MapFault;
use bfs_txn::{Blocks, Changed, Overlay};
use bfs_volume_fixtures::{Silent, superblock};
use std::alloc::Global;
use std::test::Fail;

/// Is the answer an attribute of this type with these bytes?
fn is_attribute(found: &Option<AttrItem>, kind: u32, bytes: &[u8]) -> bool {
    match found {
        Some(item) => item.kind == kind && item.bytes.as_slice() == bytes,
        None => false,
    }
}

/// Has the inode an attribute directory?
fn has_directory(edits: &mut Overlay<'_, Silent>) -> Result<bool, MapFault>
    requires size { edits.old.under.now.blocks.block_size ≡ 1024 }
    ensures size { edits.new.under.now.blocks.block_size ≡ edits.old.under.now.blocks.block_size }
{
    let mut block = [0u8; BLOCK];
    match edits.get(4, &mut block) {
        Ok(()) => Ok(run_at(&block, 52).len > 0),
        Err(fault) => Err(TreeFault::Pages(GrowFault::Block(fault))),
    }
}

/// How many bytes the item of a name has in the inode's small data, or 0 where there is none.
fn small_length(edits: &mut Overlay<'_, Silent>, name: &[u8]) -> Result<usize, MapFault>
    requires size { edits.old.under.now.blocks.block_size ≡ 1024 }
    ensures size { edits.new.under.now.blocks.block_size ≡ edits.old.under.now.blocks.block_size }
{
    let mut block = [0u8; BLOCK];
    match edits.get(4, &mut block) {
        Ok(()) => {}
        Err(fault) => return Err(TreeFault::Pages(GrowFault::Block(fault))),
    }
    let area = &block[SMALL_DATA..];
    match list_end(area) {
        Ok(_) => {}
        Err(_) => return Ok(0),
    }
    match find(area, name) {
        Some(item) => Ok(item.len),
        None => Ok(0),
    }
}

/// Do the own name, `a`, `b` and `c` have so many bytes in small data?
fn lengths_are(edits: &mut Overlay<'_, Silent>, lengths: [usize; 4]) -> Result<bool, MapFault>
    requires size { edits.old.under.now.blocks.block_size ≡ 1024 }
    ensures size { edits.new.under.now.blocks.block_size ≡ edits.old.under.now.blocks.block_size }
{
    let own = match small_length(edits, &[0x13]) {
        Ok(own) => own,
        Err(fault) => return Err(fault),
    };
    let first = match small_length(edits, b"a") {
        Ok(first) => first,
        Err(fault) => return Err(fault),
    };
    let second = match small_length(edits, b"b") {
        Ok(second) => second,
        Err(fault) => return Err(fault),
    };
    match small_length(edits, b"c") {
        Ok(third) => Ok(
            own == lengths[0] && first == lengths[1] && second == lengths[2] && third == lengths[3],
        ),
        Err(fault) => Err(fault),
    }
}

/// Has the inode an attribute of this name with these bytes, wherever it stands?
fn has_attribute(
    site: Site,
    edits: &mut Overlay<'_, Silent>,
    name: &[u8],
    bytes: &[u8],
) -> Result<bool, MapFault>
    requires valid { IsValid site.sup }
    requires inside { 4 + 1 ≤ natural site.sup.num_blocks }
    requires size { edits.old.under.now.blocks.block_size ≡ site.sup.block_size }
    ensures size { edits.new.under.now.blocks.block_size ≡ edits.old.under.now.blocks.block_size }
{
    match attribute_of(site, edits, 4, name) {
        Ok(found) => Ok(is_attribute(&found, RAWT, bytes)),
        Err(fault) => Err(fault),
    }
}

/// Have all three attributes the bytes that they had?
fn values_stay(site: Site, edits: &mut Overlay<'_, Silent>) -> Result<bool, MapFault>
    requires valid { IsValid site.sup }
    requires inside { 4 + 1 ≤ natural site.sup.num_blocks }
    requires size { edits.old.under.now.blocks.block_size ≡ site.sup.block_size }
    ensures size { edits.new.under.now.blocks.block_size ≡ edits.old.under.now.blocks.block_size }
{
    let first = match has_attribute(site, edits, b"a", &[1; 100]) {
        Ok(first) => first,
        Err(fault) => return Err(fault),
    };
    let second = match has_attribute(site, edits, b"b", &[2; 250]) {
        Ok(second) => second,
        Err(fault) => return Err(fault),
    };
    match has_attribute(site, edits, b"c", &[3; 250]) {
        Ok(third) => Ok(first && second && third),
        Err(fault) => Err(fault),
    }
}

/// Sets a name of so many bytes. Is it there since, do `a` and `b` still stand in small data, and does `c`, with so many bytes, or did it
/// move to an attribute directory, and have all three their bytes?
fn is_set(
    site: Site,
    bitmap: &mut Bitmap,
    edits: &mut Overlay<'_, Silent>,
    len: usize,
    left: usize,
) -> Result<bool, MapFault>
    requires valid { IsValid site.sup }
    requires inside { 4 + 1 ≤ natural site.sup.num_blocks }
    requires block { site.sup.block_size ≡ 1024 }
    requires size { edits.old.under.now.blocks.block_size ≡ 1024 }
    requires volume { IsOfVolume (sizes_of site.sup) bitmap.old }
    requires some { 1 ≤ len }
    requires short { len ≤ 255 }
{
    let name = [110u8; 255];
    match set_name(site, bitmap, edits, 4, &name[..len], 0) {
        Ok(()) => {}
        Err(fault) => return Err(fault),
    }
    let right = match lengths_are(edits, [len, 100, 250, left]) {
        Ok(right) => right,
        Err(fault) => return Err(fault),
    };
    let there = match has_directory(edits) {
        Ok(there) => there,
        Err(fault) => return Err(fault),
    };
    match values_stay(site, edits) {
        Ok(same) => Ok(right && there == (left == 0) && same),
        Err(fault) => Err(fault),
    }
}

/// What is so of a name of so many bytes on the volume.
fn named(alloc: Global, len: usize, left: usize) -> Result<bool, Fail>
    requires some { 1 ≤ len }
    requires short { len ≤ 255 }
{
    let sup = superblock(1024, 10, 20480, 3, 8)?;
    if sup.block_size != 1024 {
        return Ok(false);
    }
    if sup.num_blocks < 6 {
        return Ok(false);
    }
    let mut under = volume(alloc, sup.block_size, b'a', b'c')?;
    let mut open = Changed::new(alloc);
    let mut bitmap = Bitmap::of(alloc, &sup);
    let mut edits = Overlay::begin(&mut open, &mut under);
    let result = is_set(Site { alloc, sup }, &mut bitmap, &mut edits, len, left);
    edits.drop_call();
    Ok(matches!(result, Ok(true)))
}

#[test]
fn a_name_that_has_room_moves_no_attribute(rt: HostRuntime) -> Result<(), Fail> {
    let alloc = rt.alloc();
    let short = named(alloc, 5, 250)?;
    let filling = named(alloc, 140, 250)?;
    assert!(rt; short);
    assert!(rt; filling);
    Ok(())
}

#[test]
fn a_name_without_room_moves_the_last_of_the_longest_attributes_to_the_attribute_directory(
    rt: HostRuntime,
) -> Result<(), Fail> {
    let alloc = rt.alloc();
    let longer = named(alloc, 141, 0)?;
    let longest = named(alloc, 255, 0)?;
    assert!(rt; longer);
    assert!(rt; longest);
    Ok(())
}
