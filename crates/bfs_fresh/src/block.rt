// A new node's inode, as a whole block.
ghost use Rattle.std.specs.Prelude.{◌≡◌, ◌≤◌, ◌<◌, ◌-◌, ◌++◌, ◌∷◌, [], length, take, drop, replicate, Some, IfOk};
ghost use Rattle.bfs_inode.specs.Inode.{KeepsOutside, inode_at, stream_at};
ghost use Rattle.bfs_smalldata.specs.Items.{items_of};
ghost use Rattle.bfs_fresh.specs.Fresh.{IsFresh, name_item, no_stream};

use crate::fields::{NewNode, put_inode};
use bfs_bytes::put_bytes;
use bfs_inode::{InodeMut, SMALL_DATA};
use bfs_smalldata::{items_stand, put};
use std::alloc::{AllocError, Global};

/// The type code of text.
const CSTR: u32 = 0x4353_5452;

/// Writes the item with a node's name over an area of zeros.
fn put_name(area: &mut [u8], name: &[u8])
    requires zeros { area.old ≡ replicate (length area.old) 0 }
    requires room { 300 ≤ length area.old }
    requires some { 1 ≤ length name.now }
    requires short { length name.now ≤ 255 }
    ensures items { items_of area.new ≡ Some (name_item name.now ∷ []) }
{
    items_stand();
    put(area, CSTR, &[0x13], name);
}

/// The small data of a new node: the item with its name alone.
fn name_area(alloc: Global, len: usize, name: &[u8]) -> Result<Vec<u8>, AllocError>
    requires room { 300 ≤ len }
    requires some { 1 ≤ length name.now }
    requires short { length name.now ≤ 255 }
    ensures length { IfOk result (λ v. length v.items ≡ len) }
    ensures items { IfOk result (λ v. items_of v.items ≡ Some (name_item name.now ∷ [])) }
{
    let mut area = vec![in alloc; 0u8; len]?;
    put_name(&mut area, name);
    Ok(area)
}

/// The block of a new node's inode, whose stream has no blocks.
pub fn fresh_block(
    alloc: Global,
    size: u32,
    new: NewNode,
    name: &[u8],
) -> Result<Vec<u8>, AllocError>
    requires long { 1024 ≤ size }
    requires size { size ≤ 8192 }
    requires some { 1 ≤ length name.now }
    requires short { length name.now ≤ 255 }
    ensures fresh { IfOk result (λ v. IsFresh size new name.now v.items) }
    ensures stream { IfOk result (λ v. stream_at v.items ≡ no_stream) }
{
    let area = name_area(alloc, size as usize - SMALL_DATA, name)?;
    let mut block = vec![in alloc; 0u8; size as usize]?;
    put_inode(&mut block, new, &area);
    Ok(block)
}

/// Writes a short target in the place of the stream, and zeros behind it.
fn set_target(inode: &mut InodeMut<'_>, target: &[u8])
    requires short { length target.now < 144 }
    ensures same_reference { inode.new.block.ghost_name ≡ inode.old.block.ghost_name }
    ensures length { length inode.new.block.now ≡ length inode.old.block.now }
    ensures inode { inode_at inode.new.block.now ≡ record (inode_at inode.old.block.now) { stream_bytes = target.now ++ replicate (144 - length target.now) 0 } }
    ensures outside { KeepsOutside inode.old.block.now inode.new.block.now }
{
    let mut bytes = [0u8; 144];
    put_bytes(&mut bytes, 0, target);
    inode.set_stream_bytes(&bytes);
}

/// Writes a short target into an inode's block, in the place of its stream.
fn put_target(block: &mut [u8], target: &[u8])
    requires long { 1024 ≤ length block.old }
    requires short { length target.now < 144 }
    ensures length { length block.new ≡ length block.old }
    ensures inode { inode_at block.new ≡ record (inode_at block.old) { stream_bytes = target.now ++ replicate (144 - length target.now) 0 } }
    ensures outside { KeepsOutside block.old block.new }
{
    let mut inode = InodeMut::over(block);
    set_target(&mut inode, target);
}

/// The block of a new link's inode, where the target stands in the place of the stream.
pub fn link_block(
    alloc: Global,
    size: u32,
    new: NewNode,
    name: &[u8],
    target: &[u8],
) -> Result<Vec<u8>, AllocError>
    requires long { 1024 ≤ size }
    requires size { size ≤ 8192 }
    requires some { 1 ≤ length name.now }
    requires short { length name.now ≤ 255 }
    requires target { length target.now < 144 }
    ensures fresh { IfOk result (λ v. IsFresh size new name.now v.items) }
    ensures target { IfOk result (λ v. take 144 (drop 72 v.items) ≡ target.now ++ replicate (144 - length target.now) 0) }
{
    let mut block = fresh_block(alloc, size, new, name)?;
    put_target(&mut block, target);
    Ok(block)
}
