// What the bytes of an inode say: the node's kind, its parent and its own name.
ghost use Rattle.std.specs.Prelude.{◌≡◌, ◌≢◌, ◌≤◌, ◌^◌, pos, ℕ, List, length, drop, None, Option, Some, IsSome, IfSome, IsTrue};
ghost use Rattle.bfs_bytes.specs.Fields.{run_in};
ghost use Rattle.bfs_inode.specs.Refusals.{IsInode, Names, number_of};
ghost use Rattle.bfs_super.specs.Conditions.{IsValid};
ghost use Rattle.bfs_super.specs.Geometry.{geometry_of};
ghost use Rattle.bfs_smalldata.specs.Items.{items_of};
ghost use Rattle.bfs_sound.specs.Nodes.{HasNode};
ghost use Rattle.bfs_tree.specs.Trees.{Node};
ghost use Rattle.bfs_look.specs.Claims.{kind_of, kind_in, own_name_in, IsCopied, IsOwnName, IsClaimed};

use crate::block::{Site, shift_of};
use bfs_bytes::{Run, run_at, u32_at};
use bfs_inode::{SMALL_DATA, check};
use bfs_smalldata::{find, list_end};
use bfs_super::Super;
use bfs_tree::{Bytes, Kind};
use std::alloc::Global;

/// The one byte that names the item with a node's own name.
const OWN_NAME: u8 = 0x13;

/// The type of that item.
const CSTR: u32 = 0x43535452;

/// What an inode says of its node.
#[derive(Debug, Drop)]
pub struct Claim {
    pub kind: Kind,
    pub parent: u64,
    pub name: Bytes,
}

/// What was read of an inode: what it says; that it says nothing, as it is none of a node with a name; or there was no memory.
#[derive(Debug, Drop)]
pub enum Claimed {
    Says(Claim),
    Nothing,
    NoMemory,
}

/// What small data has of a node's own name; or there was no memory for it.
#[derive(Debug, Drop)]
pub enum OwnName {
    Is(Bytes),
    Missing,
    NoMemory,
}

/// The kind with these four bits of a mode.
fn kind_of(bits: u32) -> Option<Kind>
    ensures { result ≡ kind_of bits }
{
    if bits == 8 {
        Some(Kind::File)
    } else if bits == 4 {
        Some(Kind::Dir)
    } else if bits == 10 {
        Some(Kind::Link)
    } else {
        None
    }
}

/// The kind of the node whose inode is in a block, if it has one.
pub(crate) fn kind_in(block: &[u8]) -> Option<Kind>
    requires { 1024 ≤ length block.now }
    ensures { result ≡ kind_in block.now }
{
    kind_of(u32_at(block, 20) / 4096 % 16)
}

/// How many blocks a group has.
fn group_blocks(shift: u32) -> u32
    requires { shift ≤ 16 }
    ensures value { result ≡ 2 ^ shift }
    ensures few { result ≤ 65536 }
{
    1u32 << shift
}

/// The number of an address: `(group << shift) + start`.
fn number_of(run: Run, shift: u32) -> i64
    requires { shift ≤ 16 }
    ensures { result ≡ number_of run shift }
{
    let blocks = group_blocks(shift);
    i64::from(run.group) * i64::from(blocks) + i64::from(run.start)
}

/// A number that isn't negative.
fn natural_of(number: i64) -> Option<u64>
    ensures some { IfSome result (λ n. number ≡ pos n) }
    ensures none { result ≡ None → (n : ℕ) → number ≡ pos n → ⊥ }
{
    if number < 0 {
        None
    } else {
        Some(number as u64)
    }
}

/// The block of the directory that a node's inode names, or None where its address has a number below 0.
fn parent_in(sup: Super, block: &[u8]) -> Option<u64>
    requires valid { IsValid sup }
    requires long { 1024 ≤ length block.now }
    ensures { (n : ℕ) → Names (run_in block.now 44) n (geometry_of sup).shift → result ≡ Some n }
{
    let number = number_of(run_at(block, 44), shift_of(sup));
    natural_of(number)
}

/// Is the block the inode of this number, in use?
fn is_inode(sup: Super, block: &[u8], id: u64) -> bool
    requires valid { IsValid sup }
    requires long { length block.now ≡ sup.block_size }
    ensures { IsInode block.now id (geometry_of sup).shift → IsTrue result }
{
    match check(block, id, shift_of(sup)) {
        Ok(()) => true,
        Err(_) => false,
    }
}

/// These bytes as a node's own name.
fn copied(alloc: Global, bytes: &[u8]) -> OwnName
    ensures { IsCopied bytes.now result }
{
    match Bytes::from_slice(alloc, bytes) {
        Ok(name) => OwnName::Is(name),
        Err(_) => OwnName::NoMemory,
    }
}

/// A node's own name in a list of items.
fn named_in(alloc: Global, area: &[u8]) -> OwnName
    requires { IsSome (items_of area.now) }
    ensures { IsOwnName area.now result }
{
    match find(area, &[OWN_NAME]) {
        None => OwnName::Missing,
        Some(place) => {
            if place.kind != CSTR {
                return OwnName::Missing;
            }
            copied(alloc, &area[place.at..place.at + place.len])
        }
    }
}

/// A node's own name in an area of small data.
pub(crate) fn own_name_in(alloc: Global, area: &[u8]) -> OwnName
    ensures { IsOwnName area.now result }
{
    match list_end(area) {
        Ok(_) => named_in(alloc, area),
        Err(_) => OwnName::Missing,
    }
}

/// What the block of an inode says of its node, with its kind and its parent.
fn claim_with(alloc: Global, kind: Kind, parent: u64, area: &[u8]) -> Claimed
    ensures { (n : Node) → n.kind ≡ kind → n.parent ≡ parent → own_name_in area.now ≡ Some n.name → IsClaimed n result }
{
    match own_name_in(alloc, area) {
        OwnName::Is(name) => Claimed::Says(Claim { kind, parent, name }),
        OwnName::Missing => Claimed::Nothing,
        OwnName::NoMemory => Claimed::NoMemory,
    }
}

/// What the block of an inode says of its node, which isn't the root.
pub(crate) fn claim_in(site: Site, block: &[u8], id: u64) -> Claimed
    requires valid { IsValid site.sup }
    requires long { length block.now ≡ site.sup.block_size }
    requires least { 1024 ≤ site.sup.block_size }
    ensures { (blocks : ℕ → List ℕ) (n : Node) → blocks id ≡ block.now → HasNode (record { geometry = geometry_of site.sup; blocks = blocks }) id n → id ≢ (geometry_of site.sup).root → IsClaimed n result }
{
    if !is_inode(site.sup, block, id) {
        return Claimed::Nothing;
    }
    let Some(kind) = kind_in(block) else {
        return Claimed::Nothing
    };
    let Some(parent) = parent_in(site.sup, block) else {
        return Claimed::Nothing
    };
    claim_with(site.alloc, kind, parent, &block[SMALL_DATA..])
}
