// A node's name beside three attributes in small data, `a`, `b` and `c`; on another maker's volume the first or the last is named `.`. The
// volume has blocks of 1,024 bytes and three allocation groups, its bitmap in blocks 1 to 3; the inode is block 4. Its small data has 792
// bytes: the first attribute with 100 bytes takes 113 of them, and the two others with 250 bytes take 263 each, which leaves 153; a name
// takes 13 more than its bytes, so that one of 140 fills the rest, and for a longer one the last attribute is the next to move.
ghost use Rattle.std.specs.Prelude.{◌≡◌, ◌≤◌, ◌+◌, IsSome};
ghost use Rattle.bfs_super.specs.Conditions.{IsValid, natural};
ghost use Rattle.bfs_smalldata.specs.Items.{items_of};
ghost use Rattle.bfs_stream.specs.Sizes.{sizes_of};
ghost use Rattle.bfs_stream.specs.Grown.{IsOfVolume};

use crate::volumes::{BLOCK, volume};
use bfs_bitmap::Bitmap;
use bfs_bytes::run_at;
use bfs_give_name::give_name;
use bfs_inode::SMALL_DATA;
use bfs_node::TreeFault;
use bfs_smalldata::{find, list_end};
use bfs_stream::GrowFault;
use bfs_stream_pages::MapFault;
use bfs_super::Super;
use bfs_txn::{Blocks, Changed, Overlay};
use bfs_volume_fixtures::{Silent, superblock};
use std::alloc::Global;
use std::test::Fail;

/// Has an area of small data an item of this name with so many bytes?
fn has_item(area: &[u8], name: u8, len: usize) -> bool
    requires { IsSome (items_of area.now) }
{
    match find(area, &[name]) {
        Some(item) => item.len == len,
        None => false,
    }
}

/// Has the own name so many bytes, does the first attribute, which has this name, stand in small data, and is there an attribute
/// directory, or none, as is asked?
fn is_named(
    edits: &mut Overlay<'_, Silent>,
    first: u8,
    len: usize,
    directory: bool,
) -> Result<bool, MapFault>
    requires size { edits.old.under.now.blocks.block_size ≡ 1024 }
{
    let mut block = [0u8; BLOCK];
    match edits.get(4, &mut block) {
        Ok(()) => {}
        Err(fault) => return Err(TreeFault::Pages(GrowFault::Block(fault))),
    }
    let there = run_at(&block, 52).len > 0;
    let area = &block[SMALL_DATA..];
    match list_end(area) {
        Ok(_) => {}
        Err(_) => return Ok(false),
    }
    let named = has_item(area, 0x13, len);
    let stays = has_item(area, first, 100);
    Ok(named && stays && there == directory)
}

/// Gives the node a name of so many bytes. Is it there since, does the first attribute, which has this name, stand in small data, and is
/// there an attribute directory, or none, as is asked?
fn is_given(
    sup: &Super,
    alloc: Global,
    bitmap: &mut Bitmap,
    edits: &mut Overlay<'_, Silent>,
    first: u8,
    len: usize,
    directory: bool,
) -> Result<bool, MapFault>
    requires valid { IsValid sup.now }
    requires inside { 4 + 1 ≤ natural sup.now.num_blocks }
    requires block { sup.now.block_size ≡ 1024 }
    requires size { edits.old.under.now.blocks.block_size ≡ 1024 }
    requires volume { IsOfVolume (sizes_of sup.now) bitmap.old }
    requires some { 1 ≤ len }
    requires short { len ≤ 255 }
{
    let name = [110u8; 255];
    match give_name(alloc, sup, bitmap, edits, 4, &name[..len], 0) {
        Ok(()) => {}
        Err(fault) => return Err(fault),
    }
    is_named(edits, first, len, directory)
}

/// What is so: it is right, no memory was found, or another thing.
#[derive(Clone, Copy, Debug, PartialEq, Eq)]
enum Told {
    Right,
    NoMemory,
    Other,
}

/// What a result says.
fn told_by(answer: &Result<bool, MapFault>) -> Told {
    match answer {
        Ok(true) => Told::Right,
        Err(TreeFault::NoMemory) => Told::NoMemory,
        _ => Told::Other,
    }
}

/// What is so of a name of so many bytes on the volume whose first and last attributes have these names.
fn given(alloc: Global, first: u8, last: u8, len: usize, directory: bool) -> Result<Told, Fail>
    requires some { 1 ≤ len }
    requires short { len ≤ 255 }
{
    let sup = superblock(1024, 10, 20480, 3, 8)?;
    if sup.block_size != 1024 {
        return Ok(Told::Other);
    }
    if sup.num_blocks < 6 {
        return Ok(Told::Other);
    }
    let mut under = volume(alloc, sup.block_size, first, last)?;
    let mut open = Changed::new(alloc);
    let mut bitmap = Bitmap::of(alloc, &sup);
    let mut edits = Overlay::begin(&mut open, &mut under);
    let result = is_given(&sup, alloc, &mut bitmap, &mut edits, first, len, directory);
    edits.drop_call();
    Ok(told_by(&result))
}

#[test]
fn a_name_that_has_room_is_set_and_a_longer_one_moves_an_attribute(
    rt: HostRuntime,
) -> Result<(), Fail> {
    let alloc = rt.alloc();
    let filling = given(alloc, b'a', b'c', 140, false)?;
    let longer = given(alloc, b'a', b'c', 141, true)?;
    assert!(rt; filling == Told::Right);
    assert!(rt; longer == Told::Right);
    Ok(())
}

#[test]
fn a_name_for_which_an_attribute_named_with_a_dot_would_have_to_move_is_not_set(
    rt: HostRuntime,
) -> Result<(), Fail> {
    let alloc = rt.alloc();
    let filling = given(alloc, b'a', b'.', 140, false)?;
    let longer = given(alloc, b'a', b'.', 141, true)?;
    assert!(rt; filling == Told::Right);
    assert!(rt; longer == Told::NoMemory);
    Ok(())
}

#[test]
fn a_name_is_set_beside_an_attribute_named_with_a_dot_that_stays(
    rt: HostRuntime,
) -> Result<(), Fail> {
    let alloc = rt.alloc();
    let filling = given(alloc, b'.', b'c', 140, false)?;
    let longer = given(alloc, b'.', b'c', 141, true)?;
    assert!(rt; filling == Told::Right);
    assert!(rt; longer == Told::Right);
    Ok(())
}
