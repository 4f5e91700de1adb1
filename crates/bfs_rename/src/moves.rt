// Which attributes move out of small data where a node gets another name.
ghost use Rattle.std.specs.Prelude.{◌≡◌, ◌≢◌, ◌≤◌, ◌<◌, ◌+◌, ◌-◌, ℕ, List, length, drop, Option, Some, IsSome, IfSome, IfOk, IfErr, MatchResult, true};
ghost use Rattle.bfs_smalldata.specs.Edits.{AreDistinct, named};
ghost use Rattle.bfs_smalldata.specs.Items.{Item, items_of, item_in, data_size, size_in, sizes_of};
ghost use Rattle.bfs_super.specs.Conditions.{IsValid, natural};
ghost use Rattle.bfs_super.specs.Geometry.{geometry_of};
ghost use Rattle.bfs_bitmap.specs.Runs.{Room};
ghost use Rattle.bfs_txn.specs.Faults.{AreLater, Counts};
ghost use Rattle.bfs_tree.specs.Trees.{Node, Tree, IsNode};
ghost use Rattle.bfs_maps.specs.Refused.{IsUndone, HasReadCause};
ghost use Rattle.bfs_sound.specs.Attributes.{is_name_item, own_name};
ghost use Rattle.bfs_sound.specs.Need.{moves, moving, moving_from};
ghost use Rattle.bfs_shift.specs.Lists.{Lists};
ghost use Rattle.bfs_shift.specs.Shifts.{volume_in};
ghost use Rattle.bfs_look.specs.Ready.{IsReady};
ghost use Rattle.bfs_rename.specs.Moving.{ArePlain, AreMoving, IsTakenFrom, count_in};

use bfs_attr::longest_attribute;
use bfs_bytes::u16_at;
use bfs_calls::{blocked, damaged};
use bfs_inode::SMALL_DATA;
use bfs_make::{Site, blocks_for, has_long_blocks, has_short_blocks, read_block};
use bfs_node::TreeFault;
use bfs_smalldata::{list_end, take};
use bfs_stream_pages::MapFault;
use bfs_tree::Bytes;
use bfs_txn::Blocks;
use std::alloc::{AllocError, Global};

/// The name of the item with a node's own name.
const OWN_NAME: &[u8] = &[0x13];

/// How many bytes the item with a node's own name takes beside those of the name.
const BESIDE: usize = 13;

/// Attributes that move: how many, and how many blocks their bytes fill.
#[derive(Clone, Copy, Debug)]
pub(crate) struct Moving {
    pub count: u64,
    pub blocks: u64,
}

/// The name of the item here.
#[tactic(auto, using(bfs_attr::proofs::Walked::unsigned_there))]
fn name_at(alloc: Global, area: &[u8], at: usize) -> Result<Bytes, AllocError>
    requires some { at + 8 ≤ length area.now }
    requires inside { at + size_in (drop at area.now) ≤ length area.now }
    ensures { IfOk result (λ name. name ≡ (item_in (drop at area.now)).name) }
{
    let size = usize::from(u16_at(area, at + 4));
    match Bytes::from_slice(alloc, &area[at + 8..at + 8 + size]) {
        Ok(name) => Ok(name),
        Err(error) => Err(error),
    }
}

/// How many bytes the item here has.
#[tactic(auto, using(bfs_attr::proofs::Walked::unsigned_there))]
fn length_at(area: &[u8], at: usize) -> usize
    requires { at + 8 ≤ length area.now }
    ensures value { result ≡ data_size (drop at area.now) }
    ensures short { result ≤ 65535 }
{
    usize::from(u16_at(area, at + 6))
}

/// How many bytes of an area its items take.
fn used_bytes(area: &[u8]) -> usize
    requires { IsSome (items_of area.now) }
    ensures { IfSome (items_of area.now) (λ items. result ≡ sizes_of items) }
{
    match list_end(area) {
        Ok(end) => end,
        Err(fault) => fault.at,
    }
}

/// Takes the longest attribute out of an area, and tells how many bytes it has.
fn take_longest(alloc: Global, area: &mut [u8]) -> Result<Option<usize>, AllocError>
    requires { IsSome (items_of area.old) }
    ensures taken { IfSome (items_of area.old) (λ items. IfOk result (IsTakenFrom items (items_of area.new))) }
    ensures short { IfOk result (λ o. IfSome o (λ n. n ≤ 65535)) }
{
    let at = match longest_attribute(area) {
        Some(at) => at,
        None => return Ok(None),
    };
    let length = length_at(area, at);
    let name = match name_at(alloc, area, at) {
        Ok(name) => name,
        Err(error) => return Err(error),
    };
    take(area, name.as_slice());
    Ok(Some(length))
}

/// Takes attributes out of an area that has no other items, the longest first, until the others fit into so many bytes.
fn make_room(
    alloc: Global,
    area: &mut [u8],
    room: usize,
    block_size: u32,
) -> Result<Moving, AllocError>
    requires area { IsSome (items_of area.old) }
    requires few { count_in area.old ≤ 8192 }
    requires long { 1024 ≤ block_size }
    requires short { block_size ≤ 8192 }
    ensures moving { (items : List Item) → items_of area.old ≡ Some items → ArePlain items → IfOk result (AreMoving block_size (moving (length items) room items)) }
    ensures few { IfOk result (λ m. m.count ≤ 8192) }
    ensures short { IfOk result (λ m. m.blocks ≤ 589824) }
{
    let mut count: u64 = 0;
    let mut blocks: u64 = 0;
    while used_bytes(area) > room {
        let taken = match take_longest(alloc, area) {
            Ok(taken) => taken,
            Err(error) => return Err(error),
        };
        let length = match taken {
            Some(length) => length,
            None => return Ok(Moving { count, blocks }),
        };
        count += 1;
        blocks += blocks_for(block_size, length as u64);
    }
    Ok(Moving { count, blocks })
}

/// How many bytes of an area are left for attributes where the node's own name has so many.
fn room_beside(size: usize, name: usize) -> usize
    requires { name ≤ 255 }
    ensures { result ≡ size - (8 + length own_name + 3 + name + 1) }
{
    let taken = BESIDE + name;
    if size < taken { 0 } else { size - taken }
}

/// Takes the node's own name and the attributes out of an area of small data that move where the name gets so many bytes.
fn move_out(
    alloc: Global,
    area: &mut [u8],
    name: usize,
    block_size: u32,
) -> Result<Moving, AllocError>
    requires area { IsSome (items_of area.old) }
    requires few { length area.old ≤ 8192 }
    requires name { name ≤ 255 }
    requires long { 1024 ≤ block_size }
    requires short { block_size ≤ 8192 }
    ensures moving { (items : List Item) (item : Item) → items_of area.old ≡ Some items → AreDistinct items → named own_name items ≡ Some item → is_name_item item ≡ true → IfOk result (AreMoving block_size (moving_from (length area.old) name (Some items))) }
    ensures few { IfOk result (λ m. m.count ≤ 8192) }
    ensures short { IfOk result (λ m. m.blocks ≤ 589824) }
{
    let room = room_beside(area.len(), name);
    take(area, OWN_NAME);
    match make_room(alloc, area, room, block_size) {
        Ok(moving) => Ok(moving),
        Err(error) => Err(error),
    }
}

/// The attributes that move out of an area of small data where the node's own name gets so many bytes.
fn moving_in(alloc: Global, area: &[u8], name: usize, block_size: u32) -> Result<Moving, AllocError>
    requires area { IsSome (items_of area.now) }
    requires few { length area.now ≤ 8192 }
    requires name { name ≤ 255 }
    requires long { 1024 ≤ block_size }
    requires short { block_size ≤ 8192 }
    ensures moving { (items : List Item) (item : Item) → items_of area.now ≡ Some items → AreDistinct items → named own_name items ≡ Some item → is_name_item item ≡ true → IfOk result (AreMoving block_size (moving_from (length area.now) name (Some items))) }
    ensures few { IfOk result (λ m. m.count ≤ 8192) }
    ensures short { IfOk result (λ m. m.blocks ≤ 589824) }
{
    let mut left = match Vec::from_slice(alloc, area) {
        Ok(left) => left,
        Err(error) => return Err(error),
    };
    match move_out(alloc, &mut left, name, block_size) {
        Ok(moving) => Ok(moving),
        Err(error) => Err(error),
    }
}

/// The attributes that move out of the small data in the block of an inode where the node's own name gets so many bytes.
fn moving_at(site: Site, block: &[u8], id: u64, name: usize) -> Result<Moving, MapFault>
    requires valid { IsValid site.sup }
    requires long { length block.now ≡ site.sup.block_size }
    requires name { name ≤ 255 }
    ensures moving { (items : List Item) (item : Item) → items_of (drop 232 block.now) ≡ Some items → AreDistinct items → named own_name items ≡ Some item → is_name_item item ≡ true → MatchResult result (AreMoving site.sup.block_size (moving_from (length (drop 232 block.now)) name (Some items))) IsUndone }
    ensures few { IfOk result (λ m. m.count ≤ 8192) }
    ensures short { IfOk result (λ m. m.blocks ≤ 589824) }
    ensures cause { (old new : Counts) → IfErr result (HasReadCause old new) }
{
    has_long_blocks(site.sup);
    has_short_blocks(site.sup);
    let area = &block[SMALL_DATA..];
    match list_end(area) {
        Ok(_) => {}
        Err(_) => return Err(damaged(id)),
    }
    match moving_in(site.alloc, area, name, site.sup.block_size) {
        Ok(moving) => Ok(moving),
        Err(_) => Err(TreeFault::NoMemory),
    }
}

/// The attributes that move out of the small data of a node, which isn't the root, where its name gets so many bytes.
pub(crate) fn moving_of<B: Blocks>(
    site: Site,
    under: &mut B,
    id: u64,
    name: &[u8],
) -> Result<Moving, MapFault>
    requires valid { IsValid site.sup }
    requires size { B.size under.old ≡ site.sup.block_size }
    requires name { length name.now ≤ 255 }
    ensures moving { (v : Room) (m : ℕ → Option (List ℕ)) (tree : Tree) (lists : Lists) (n : Node) → B.told under.old ≡ Some m → IsReady (geometry_of site.sup) v m tree lists → IsNode tree id n → id ≢ tree.root → MatchResult result (AreMoving site.sup.block_size (moves (volume_in (geometry_of site.sup) m) id name.now)) IsUndone }
    ensures few { IfOk result (λ m. m.count ≤ 8192) }
    ensures short { IfOk result (λ m. m.blocks ≤ 589824) }
    ensures told { B.told under.new ≡ B.told under.old }
    ensures changed { B.changed under.new ≡ B.changed under.old }
    ensures size { B.size under.new ≡ B.size under.old }
    ensures frame { B.frame under.new ≡ B.frame under.old }
    ensures later { AreLater (B.counts under.old) (B.counts under.new) }
    ensures cause { IfErr result (HasReadCause (B.counts under.old) (B.counts under.new)) }
{
    let block = match read_block(site, under, id) {
        Ok(block) => block,
        Err(fault) => return Err(blocked(fault)),
    };
    match moving_at(site, &block, id, name.len()) {
        Ok(moving) => Ok(moving),
        Err(fault) => Err(fault),
    }
}
