// Attributes beside a small data area that they fill. The volume has blocks of 1,024 bytes and three allocation groups, its bitmap in
// blocks 1 to 3; the inode that bears the attributes is block 4. Its small data has 792 bytes: the node's own name takes 16 of them,
// and an attribute `f` with 100 bytes takes 113, so that an attribute `a` with 650 bytes fills it.
ghost use Rattle.std.specs.Prelude.{◌≡◌, ◌≤◌, ◌<◌, ◌+◌, length, IfOk};
ghost use Rattle.bfs_sound.specs.Volumes.{sizes};
ghost use Rattle.bfs_stream.specs.Grown.{IsOfVolume};

use crate::attribute_tests::is_attribute;
use bfs_attrs::AttrsMut;
use bfs_bitmap::Bitmap;
use bfs_bytes::run_at;
use bfs_node::TreeFault;
use bfs_stream::GrowFault;
use bfs_stream_pages::MapFault;
use bfs_txn::{Blocks, Changed, MemBlocks, Overlay};
use bfs_volume_fixtures::{Silent, put_item, superblock};
use std::alloc::{AllocError, Global};
use std::test::Fail;

/// The bytes of a block.
const BLOCK: usize = 1024;

/// Type codes: four letters as a number, the first the highest.
const CSTR: u32 = 0x43535452;

const RAWT: u32 = 0x52415754;

/// The most bytes of `a` that fit.
const MOST: usize = 650;

/// Writes the volume's first eight blocks, which are in use.
fn put_volume(bytes: &mut [u8])
    requires { 8192 ≤ length bytes.old }
    ensures { length bytes.new ≡ length bytes.old }
{
    let at = 4 * BLOCK + 232;
    bytes[BLOCK] = 255;
    put_item(bytes, at, CSTR, &[0x13], b"own");
    put_item(bytes, at + 16, RAWT, b"f", &[3; 100]);
}

/// The volume, by the size of its blocks, which is 1,024.
fn volume(alloc: Global, size: u32) -> Result<Silent, AllocError>
    requires some { 1024 ≤ size }
    requires small { size ≤ 2048 }
    ensures { IfOk result (λ s. s.blocks.block_size ≡ size) }
{
    let block = size as usize;
    let mut bytes = vec![in alloc; 0u8; block * 8]?;
    put_volume(&mut bytes);
    Ok(Silent {
        blocks: MemBlocks::new(bytes, size),
    })
}

/// Has the inode an attribute directory?
fn has_directory(edits: &mut Overlay<'_, Silent>) -> Result<bool, MapFault>
    requires size { edits.old.under.now.blocks.block_size ≡ 1024 }
    ensures size { edits.new.under.now.blocks.block_size ≡ edits.old.under.now.blocks.block_size }
{
    let mut block = [0u8; BLOCK];
    match edits.get(4, &mut block) {
        Ok(()) => Ok(run_at(&block, 52).len > 0),
        Err(fault) => Err(TreeFault::Pages(GrowFault::Block(fault))),
    }
}

/// Puts `a` with so many bytes, and reads it.
fn puts(
    attrs: &mut AttrsMut,
    edits: &mut Overlay<'_, Silent>,
    bitmap: &mut Bitmap,
    len: usize,
) -> Result<bool, MapFault>
    requires len { len ≤ 651 }
    requires size { edits.old.under.now.blocks.block_size ≡ attrs.old.geometry.block_size }
    requires volume { IsOfVolume (sizes attrs.old.geometry) bitmap.old }
    ensures size { edits.new.under.now.blocks.block_size ≡ edits.old.under.now.blocks.block_size }
    ensures volume { IsOfVolume (sizes attrs.new.geometry) bitmap.new }
    ensures same { attrs.new ≡ attrs.old }
{
    let bytes = [7u8; 651];
    match attrs.put(bitmap, edits, b"a", RAWT, &bytes[..len], 0) {
        Ok(()) => {}
        Err(fault) => return Err(fault),
    }
    let mut read = attrs.read();
    match read.get(bitmap, edits, b"a") {
        Ok(found) => Ok(is_attribute(&found, RAWT, &bytes[..len])),
        Err(fault) => Err(fault),
    }
}

/// Puts `a` with so many bytes, reads it, and looks whether it brought an attribute directory.
fn stands(
    attrs: &mut AttrsMut,
    edits: &mut Overlay<'_, Silent>,
    bitmap: &mut Bitmap,
    len: usize,
    beyond: bool,
) -> Result<bool, MapFault>
    requires len { len ≤ 651 }
    requires block { attrs.old.geometry.block_size ≡ 1024 }
    requires size { edits.old.under.now.blocks.block_size ≡ 1024 }
    requires volume { IsOfVolume (sizes attrs.old.geometry) bitmap.old }
    ensures size { edits.new.under.now.blocks.block_size ≡ edits.old.under.now.blocks.block_size }
    ensures volume { IsOfVolume (sizes attrs.new.geometry) bitmap.new }
    ensures same { attrs.new ≡ attrs.old }
{
    let right = match puts(attrs, edits, bitmap, len) {
        Ok(right) => right,
        Err(fault) => return Err(fault),
    };
    match has_directory(edits) {
        Ok(there) => Ok(right && there == beyond),
        Err(fault) => Err(fault),
    }
}

/// Takes `a`, and looks whether an attribute directory is left.
fn goes(
    attrs: &mut AttrsMut,
    edits: &mut Overlay<'_, Silent>,
    bitmap: &mut Bitmap,
) -> Result<bool, MapFault>
    requires block { attrs.old.geometry.block_size ≡ 1024 }
    requires size { edits.old.under.now.blocks.block_size ≡ 1024 }
    requires volume { IsOfVolume (sizes attrs.old.geometry) bitmap.old }
    ensures size { edits.new.under.now.blocks.block_size ≡ edits.old.under.now.blocks.block_size }
    ensures volume { IsOfVolume (sizes attrs.new.geometry) bitmap.new }
    ensures same { attrs.new ≡ attrs.old }
{
    match attrs.take(bitmap, edits, b"a") {
        Ok(()) => {}
        Err(fault) => return Err(fault),
    }
    match has_directory(edits) {
        Ok(there) => Ok(!there),
        Err(fault) => Err(fault),
    }
}

/// One of the steps, by its number: `a` fills small data; has one byte more; has one byte less again; and so on, and goes in the end.
fn step(
    attrs: &mut AttrsMut,
    edits: &mut Overlay<'_, Silent>,
    bitmap: &mut Bitmap,
    number: u32,
) -> Result<bool, MapFault>
    requires block { attrs.old.geometry.block_size ≡ 1024 }
    requires size { edits.old.under.now.blocks.block_size ≡ 1024 }
    requires volume { IsOfVolume (sizes attrs.old.geometry) bitmap.old }
    ensures size { edits.new.under.now.blocks.block_size ≡ edits.old.under.now.blocks.block_size }
    ensures volume { IsOfVolume (sizes attrs.new.geometry) bitmap.new }
    ensures same { attrs.new ≡ attrs.old }
{
    if number == 5 {
        goes(attrs, edits, bitmap)
    } else if number % 2 == 0 {
        stands(attrs, edits, bitmap, MOST, false)
    } else {
        stands(attrs, edits, bitmap, MOST + 1, true)
    }
}

/// How many of the steps were right.
fn steps(
    attrs: &mut AttrsMut,
    edits: &mut Overlay<'_, Silent>,
    bitmap: &mut Bitmap,
) -> Result<u32, MapFault>
    requires block { attrs.old.geometry.block_size ≡ 1024 }
    requires size { edits.old.under.now.blocks.block_size ≡ 1024 }
    requires volume { IsOfVolume (sizes attrs.old.geometry) bitmap.old }
    ensures size { edits.new.under.now.blocks.block_size ≡ edits.old.under.now.blocks.block_size }
{
    let mut right: u32 = 0;
    for number in 0..6u32 {
        match step(attrs, edits, bitmap, number) {
            Ok(true) => right = right.wrapping_add(1),
            Ok(false) => {}
            Err(fault) => return Err(fault),
        }
    }
    Ok(right)
}

/// How many of the steps were right on the volume.
fn stepped(alloc: Global) -> Result<Result<u32, MapFault>, Fail> {
    let sup = superblock(1024, 10, 20480, 3, 8)?;
    if sup.block_size != 1024 {
        return Ok(Ok(0));
    }
    if sup.num_blocks < 6 {
        return Ok(Ok(0));
    }
    let mut under = volume(alloc, sup.block_size)?;
    let mut open = Changed::new(alloc);
    let mut bitmap = Bitmap::of(alloc, &sup);
    let mut edits = Overlay::begin(&mut open, &mut under);
    let mut attrs = AttrsMut::at(alloc, 4, &sup);
    let result = steps(&mut attrs, &mut edits, &mut bitmap);
    edits.drop_call();
    Ok(result)
}

#[test]
fn an_attribute_that_fills_small_data_moves_to_the_attribute_directory_with_one_byte_more_and_back(
    rt: HostRuntime,
) -> Result<(), Fail> {
    let alloc = rt.alloc();
    let right = stepped(alloc)?;
    assert!(rt; matches!(right, Ok(6)));
    Ok(())
}
