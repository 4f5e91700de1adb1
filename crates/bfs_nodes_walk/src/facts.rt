// What is kept of a node that was gone over: its keys as a file, and whether all its attributes are items.
ghost use Rattle.std.specs.Prelude.{◌≡◌, ◌≤◌, ◌<◌, ℕ, List, get_or, length, Option, IsTrue, true};
ghost use Rattle.bfs_bytes.specs.Fields.{unsigned_bytes, signed64_bytes};
ghost use Rattle.bfs_super.specs.Conditions.{IsValid, natural};
ghost use Rattle.bfs_tree.specs.Trees.{Node, is_file};
ghost use Rattle.bfs_sound.specs.Volumes.{Volume};
ghost use Rattle.bfs_sound.specs.Nodes.{HasNode};
ghost use Rattle.bfs_sound.specs.Whole.{volume_of};
ghost use Rattle.bfs_nodes_walk.specs.Facts.{IsPlain, IsFactOf, keys_of};

use crate::names::check_names;
use bfs_attr_walk::directory_of;
use bfs_bytes::u32_at;
use bfs_inode::InodeView;
use bfs_super::Super;
use std::alloc::Global;

/// The keys of a file: its size, and the stamp of the last change of its content.
#[derive(Clone, Copy, Debug)]
pub struct FileKeys {
    pub size: [u8; 8],
    pub stamp: [u8; 8],
}

/// What is kept of a node: its keys, if it is a file, and whether all its attributes are items, and right.
#[derive(Clone, Copy, Debug)]
pub struct NodeFacts {
    pub plain: bool,
    pub keys: Option<FileKeys>,
}

/// Is the node a file, whose inode is in a block?
fn is_file_in(block: &[u8]) -> bool
    requires { 1024 ≤ length block.now }
    ensures { (v : Volume) (id : ℕ) (n : Node) → v.blocks id ≡ block.now → HasNode v id n → result ≡ is_file n.kind }
{
    u32_at(block, 20) / 4096 % 16 == 8
}

/// A number that isn't negative, or 0.
fn natural_long(value: i64) -> u64
    ensures { result ≡ natural value }
{
    if value < 0 { 0 } else { value as u64 }
}

/// The key of a file's size.
#[tactic(auto, unfolding(bfs_bytes::specs::Fields::unsigned_bytes))]
fn size_key(block: &[u8]) -> [u8; 8]
    requires { 1024 ≤ length block.now }
    ensures { (v : Volume) (id : ℕ) (n : Node) → v.blocks id ≡ block.now → HasNode v id n → is_file n.kind ≡ true → result ≡ unsigned_bytes 8 n.size }
{
    natural_long(InodeView::over(block).size()).to_le_bytes()
}

/// The key of the stamp of the last change of a file's content.
#[tactic(auto, unfolding(bfs_bytes::specs::Fields::unsigned_bytes, bfs_bytes::specs::Fields::signed64_bytes))]
fn stamp_key(block: &[u8]) -> [u8; 8]
    requires { 1024 ≤ length block.now }
    ensures { (v : Volume) (id : ℕ) (n : Node) → v.blocks id ≡ block.now → HasNode v id n → result ≡ signed64_bytes n.modified }
{
    InodeView::over(block)
        .last_modified_time()
        .cast_unsigned()
        .to_le_bytes()
}

/// The keys of the node whose inode is in a block, if it is a file.
pub fn keys_in(block: &[u8]) -> Option<FileKeys>
    requires { 1024 ≤ length block.now }
    ensures { (v : Volume) (id : ℕ) (n : Node) → v.blocks id ≡ block.now → HasNode v id n → result ≡ keys_of n }
{
    if !is_file_in(block) {
        return None;
    }
    Some(FileKeys {
        size: size_key(block),
        stamp: stamp_key(block),
    })
}

/// What is kept of the node that the row at a place names.
pub fn facts_at(facts: &[NodeFacts], i: usize) -> NodeFacts
    requires { i < length facts.now }
    ensures { (other : NodeFacts) → result ≡ get_or facts.now i other }
{
    facts[i]
}

/// Has a node, whose inode is in a block, no attribute directory, and items whose names differ?
fn is_plain(alloc: Global, block: &[u8], sup: Super, id: u64) -> bool
    requires valid { IsValid sup }
    requires long { 1024 ≤ length block.now }
    requires few { length block.now ≤ 8192 }
    ensures plain { (blocks : ℕ → List ℕ) → blocks id ≡ block.now → IsTrue result → IsPlain (volume_of sup blocks) id }
{
    let found = match directory_of(block, sup, id) {
        Ok(found) => found,
        Err(_) => return false,
    };
    if found.is_some() {
        return false;
    }
    match check_names(alloc, block, id, &[]) {
        Ok(()) => {}
        Err(_) => return false,
    }
    true
}

/// What is kept of the node whose inode is in a block.
pub(crate) fn facts_in(alloc: Global, block: &[u8], sup: Super, id: u64) -> NodeFacts
    requires valid { IsValid sup }
    requires long { 1024 ≤ length block.now }
    requires few { length block.now ≤ 8192 }
    ensures { (blocks : ℕ → List ℕ) → blocks id ≡ block.now → IsFactOf (volume_of sup blocks) id result }
{
    NodeFacts {
        plain: is_plain(alloc, block, sup, id),
        keys: keys_in(block),
    }
}
