// The bytes of a new volume: its superblock, its bitmap, and its five trees.
ghost use Rattle.std.specs.Prelude.{◌≡◌, ◌≤◌, ◌<◌, ◌+◌, ◌-◌, ◌*◌, ◌/◌, ◌%◌, ◌^◌, ◌++◌, [], ◌∷◌, pos, length, replicate, IfOk};
ghost use Rattle.bfs_super.specs.Conditions.{ceil};
ghost use Rattle.bfs_super.specs.Label.{IsLabel};
ghost use Rattle.bfs_mkfs.specs.Laid.{IsPlanned, HasTrees, made, shift_of_size, bitmap_bytes};

use crate::tree::{NewTree, address, empty_leaf, index_leaf, pages, push_tree, root_leaf, zeros};
use bfs_node::KeyKind;
use bfs_super::{Geometry, Super};
use std::alloc::{AllocError, Global};

// Modes, in octal: a directory, an index (or the index directory) of text, one of 64 bit numbers.
const DIRECTORY: i32 = 0o40755;

const TEXT_INDEX: i32 = 0o4100040700;

const LONG_INDEX: i32 = 0o4010040700;

// An inode of a new volume.
fn new_tree(id: u64, parent: u64, mode: i32, kind: KeyKind, stamp: i64) -> NewTree
    ensures { result ≡ record { id = id; parent = parent; mode = mode; kind = kind; stamp = stamp } }
{
    NewTree {
        id,
        parent,
        mode,
        kind,
        stamp,
    }
}

/// The five trees: root directory, index directory, and the indices `name`, `size` and `last_modified`.
pub fn trees(alloc: Global, geometry: Geometry, stamp: i64) -> Result<Vec<u8>, AllocError>
    requires { IsPlanned geometry }
    ensures { IfOk result (λ v. HasTrees geometry stamp v.items) }
{
    let size = geometry.block_size;
    let step = 1 + u64::from(pages(size));
    let root = geometry.root;
    let indices = geometry.indices;
    let name = indices + step;
    let by_size = name + step;
    let modified = by_size + step;
    let mut out = Vec::new(alloc);
    push_tree(
        alloc,
        &mut out,
        size,
        new_tree(root, root, DIRECTORY, KeyKind::Text, stamp),
        &root_leaf(root),
    )?;
    push_tree(
        alloc,
        &mut out,
        size,
        new_tree(indices, root, TEXT_INDEX, KeyKind::Text, stamp),
        &index_leaf(modified, name, by_size),
    )?;
    push_tree(
        alloc,
        &mut out,
        size,
        new_tree(name, indices, TEXT_INDEX, KeyKind::Text, stamp),
        &empty_leaf(),
    )?;
    push_tree(
        alloc,
        &mut out,
        size,
        new_tree(by_size, indices, LONG_INDEX, KeyKind::I64, stamp),
        &empty_leaf(),
    )?;
    push_tree(
        alloc,
        &mut out,
        size,
        new_tree(modified, indices, LONG_INDEX, KeyKind::I64, stamp),
        &empty_leaf(),
    )?;
    Ok(out)
}

// A number that fits, as a signed one.
fn signed(n: u32) -> i32
    requires { n < 2 ^ 31 }
    ensures { result ≡ pos n }
{
    n as i32
}

// The same of 64 bits.
fn signed_long(n: u64) -> i64
    requires { n < 2 ^ 63 }
    ensures { result ≡ pos n }
{
    n as i64
}

// The logarithm of a block size.
fn block_shift(size: u32) -> u32
    ensures { result ≡ shift_of_size size }
{
    match size {
        1024 => 10,
        2048 => 11,
        4096 => 12,
        _ => 13,
    }
}

// The superblock without a name.
#[tactic(auto, using(crate::proofs::Planned::places))]
fn unnamed(geometry: Geometry) -> Super
    requires { IsPlanned geometry }
    ensures { result ≡ made geometry [] }
{
    Super {
        name: [0; 32],
        magic1: 0x42465331,
        fs_byte_order: 0x42494745,
        block_size: geometry.block_size,
        block_shift: block_shift(geometry.block_size),
        num_blocks: signed_long(geometry.blocks),
        used_blocks: signed_long(geometry.used),
        inode_size: signed(geometry.block_size),
        magic2: -586018767, // 0xdd121031
        blocks_per_ag: signed(geometry.per_group),
        ag_shift: signed(geometry.shift),
        num_ags: signed(geometry.groups),
        flags: 0x434c454e,
        log_blocks: geometry.log,
        log_start: 0,
        log_end: 0,
        magic3: 0x15b6830e,
        root_dir: address(geometry.root),
        indices: address(geometry.indices),
        rest: [0; 380],
    }
}

/// The superblock of a new volume.
pub fn superblock(geometry: Geometry, label: &[u8]) -> Super
    requires plan { IsPlanned geometry }
    requires label { IsLabel label.now }
    ensures { result ≡ made geometry label.now }
{
    let mut sup = unnamed(geometry);
    match sup.set_label(label) {
        Ok(()) => sup,
        Err(_) => unreachable!(),
    }
}

// The bytes of the bitmap's blocks.
fn bitmap_length(geometry: Geometry) -> u64
    requires { IsPlanned geometry }
    ensures value { result ≡ ceil geometry.blocks (geometry.block_size * 8) * geometry.block_size }
    ensures bound { result ≤ 4194304 }
    ensures some { 1024 ≤ result }
{
    let bits = u64::from(geometry.block_size) * 8;
    let blocks = (geometry.blocks + (bits - 1)) / bits;
    blocks * u64::from(geometry.block_size)
}

// The byte of the bitmap in which the last used blocks have their bits.
fn last_byte(used: u64) -> u8
    ensures { result ≡ 2 ^ (used % 8) - 1 }
{
    match used % 8 {
        0 => 0,
        1 => 1,
        2 => 3,
        3 => 7,
        4 => 15,
        5 => 31,
        6 => 63,
        _ => 127,
    }
}

// So many bytes 0xff, another byte, and so many zeros.
fn filled(alloc: Global, full: usize, last: u8, rest: usize) -> Result<Vec<u8>, AllocError>
    requires full { full < 2 ^ 61 }
    requires rest { rest < 2 ^ 61 }
    ensures { IfOk result (λ v. v.items ≡ replicate full 255 ++ last ∷ replicate rest 0) }
{
    let mut bytes = vec![in alloc; 0xff; full]?;
    bytes.push(last)?;
    let behind = zeros(alloc, rest)?;
    bytes.extend_from_slice(&behind)?;
    Ok(bytes)
}

/// The bitmap: a bit for each block, set for the first ones, which are used.
pub fn bitmap(alloc: Global, geometry: Geometry) -> Result<Vec<u8>, AllocError>
    requires { IsPlanned geometry }
    ensures { IfOk result (λ v. v.items ≡ bitmap_bytes geometry.used (ceil geometry.blocks (geometry.block_size * 8) * geometry.block_size)) }
{
    let count = bitmap_length(geometry) as usize;
    let full = (geometry.used / 8) as usize;
    filled(alloc, full, last_byte(geometry.used), count - full - 1)
}
