// An inode of a new volume with its tree of two pages.
ghost use Rattle.std.specs.Prelude.{◌≡◌, ◌⊎◌, ◌^◌, ◌≤◌, ◌<◌, ◌+◌, ◌-◌, ◌*◌, ◌/◌, ◌++◌, [], ◌∷◌, ◌==◌, if◌then◌else◌, ℕ, List, pos, length, replicate, codes, take, drop, OnOk, IfOk};
ghost use Rattle.bfs_super.specs.Geometry.{IsBlockSize};
ghost use Rattle.bfs_node.specs.Header.{header_at};
ghost use Rattle.bfs_node.specs.Page.{Row};
ghost use Rattle.bfs_mkfs.specs.Laid.{IsNewInode, IsLeaf, IsNewTree, new_header, pages_length};

use bfs_bytes::Run;
use bfs_inode::InodeMut;
use bfs_node::{Header, KeyKind, blank, data_type, insert_row};
use std::alloc::{AllocError, Global};

/// An inode of a new volume with its tree. `id` and `parent` are blocks, the stamp has seconds in its upper 48 bits.
#[derive(Clone, Copy)]
pub struct NewTree {
    pub id: u64,
    pub parent: u64,
    pub mode: i32,
    pub kind: KeyKind,
    pub stamp: i64,
}

/// The address of an inode in the first allocation group.
pub fn address(id: u64) -> Run
    requires { id < 65536 }
    ensures { result ≡ record { group = pos 0; start = id; len = 1 } }
{
    Run {
        group: 0,
        start: id as u16,
        len: 1,
    }
}

/// The blocks of a tree's two pages.
pub fn pages(size: u32) -> u16
    requires { IsBlockSize size }
    ensures value { result ≡ pages_length size }
    ensures some { result * size ≡ (if size == 1024 then 2048 else if size == 2048 then 2048 else size) }
    ensures few { result ≤ 2 }
{
    if size == 1024 { 2 } else { 1 }
}

// A block size as a signed number.
fn signed(size: u32) -> i32
    requires { size ≤ 8192 }
    ensures { result ≡ pos size }
{
    size as i32
}

// The bytes of so many blocks.
fn bytes_of(blocks: u16, size: u32) -> i64
    requires blocks { blocks ≤ 2 }
    requires size { size ≤ 8192 }
    ensures { result ≡ pos (blocks * size) }
{
    let bytes = u32::from(blocks) * size;
    i64::from(bytes)
}

// Writes the fields of an inode over zeros.
fn put_fields(inode: &mut InodeMut<'_>, tree: NewTree, size: u32)
    requires size { IsBlockSize size }
    requires zeros { inode.old.block.now ≡ replicate size 0 }
    requires id { tree.id < 65535 }
    requires parent { tree.parent < 65536 }
    ensures same_reference { inode.new.block.ghost_name ≡ inode.old.block.ghost_name }
    ensures fields { IsNewInode size tree inode.new.block.now }
{
    let len = pages(size);
    let first = Run {
        group: 0,
        start: tree.id as u16 + 1,
        len,
    };
    inode.set_magic1(0x3bbe0ad9);
    inode.set_inode_num(address(tree.id));
    inode.set_mode(tree.mode);
    inode.set_flags(1);
    inode.set_create_time(tree.stamp);
    inode.set_last_modified_time(tree.stamp);
    inode.set_parent(address(tree.parent));
    inode.set_inode_size(signed(size));
    inode.set_status_change_time(tree.stamp);
    inode.set_direct(0, first);
    inode.set_max_direct_range(bytes_of(len, size));
    inode.set_size(2048);
}

/// Writes an inode over a block of zeros.
pub fn put_inode(block: &mut [u8], tree: NewTree)
    requires size { IsBlockSize (length block.old) }
    requires zeros { block.old ≡ replicate (length block.old) 0 }
    requires id { tree.id < 65535 }
    requires parent { tree.parent < 65536 }
    ensures { IsNewInode (length block.old) tree block.new }
{
    let size = block.len() as u32;
    let mut inode = InodeMut::over(block);
    put_fields(&mut inode, tree, size);
}

// The header of a tree with one leaf.
fn header(kind: KeyKind) -> [u8; 1024]
    ensures fields { header_at result ≡ new_header kind }
    ensures rest { drop 40 result ≡ replicate 984 0 }
{
    let mut page = [0; 1024];
    Header {
        magic: 0x69f6c2e8,
        node_size: 1024,
        levels: 1,
        data_type: data_type(kind),
        root_pointer: 1024,
        free_pointer: -1,
        maximum_size: 2048,
    }
    .print(&mut page);
    page
}

/// A leaf without rows.
pub fn empty_leaf() -> [u8; 1024]
    ensures { IsLeaf [] result }
{
    let mut page = [0; 1024];
    blank(&mut page);
    page
}

/// The leaf of a root directory: the rows `.` and `..` are its own number.
pub fn root_leaf(root: u64) -> [u8; 1024]
    requires { root < 65536 }
    ensures { IsLeaf ((codes ".", pos root) ∷ (codes "..", pos root) ∷ []) result }
{
    let mut page = empty_leaf();
    insert_row(&mut page, 0, b".", root as i64);
    insert_row(&mut page, 1, b"..", root as i64);
    page
}

/// The leaf of the index directory with the three indices of a new volume, by name.
pub fn index_leaf(last_modified: u64, name: u64, size: u64) -> [u8; 1024]
    requires last_modified { last_modified < 65536 }
    requires name { name < 65536 }
    requires size { size < 65536 }
    ensures { IsLeaf ((codes "last_modified", pos last_modified) ∷ (codes "name", pos name) ∷ (codes "size", pos size) ∷ []) result }
{
    let mut page = empty_leaf();
    insert_row(&mut page, 0, b"last_modified", last_modified as i64);
    insert_row(&mut page, 1, b"name", name as i64);
    insert_row(&mut page, 2, b"size", size as i64);
    page
}

/// So many zeros.
pub fn zeros(alloc: Global, count: usize) -> Result<Vec<u8>, AllocError>
    requires { count < 2 ^ 62 }
    ensures { IfOk result (λ v. v.items ≡ replicate count 0) }
{
    vec![in alloc; 0; count]
}

// A block that is the inode of a new tree.
fn inode_block(alloc: Global, size: u32, tree: NewTree) -> Result<Vec<u8>, AllocError>
    requires size { IsBlockSize size }
    requires id { tree.id < 65535 }
    requires parent { tree.parent < 65536 }
    ensures inode { IfOk result (λ v. IsNewInode size tree v.items) }
    ensures long { IfOk result (λ v. length v.items ≡ size) }
{
    let mut block = zeros(alloc, size as usize)?;
    put_inode(&mut block, tree);
    Ok(block)
}

// The zeros behind the pages of a tree.
fn padding(alloc: Global, size: u32) -> Result<Vec<u8>, AllocError>
    requires { IsBlockSize size }
    ensures { IfOk result (λ v. v.items ≡ replicate (pages_length size * size - 2048) 0) }
{
    let bytes = u32::from(pages(size)) * size;
    zeros(alloc, (bytes - 2048) as usize)
}

/// Appends an inode's block and the blocks of its tree with this leaf.
pub fn push_tree(
    alloc: Global,
    out: &mut Vec<u8>,
    size: u32,
    tree: NewTree,
    leaf: &[u8; 1024],
) -> Result<(), AllocError>
    requires size { IsBlockSize size }
    requires id { tree.id < 65535 }
    requires parent { tree.parent < 65536 }
    ensures { (rows : List Row) → IsLeaf rows leaf.now → OnOk result ((bytes : List ℕ) × (out.new.items ≡ out.old.items ++ bytes) × IsNewTree size tree rows bytes) }
{
    let block = inode_block(alloc, size, tree)?;
    let rest = padding(alloc, size)?;
    out.extend_from_slice(&block)?;
    out.extend_from_slice(&header(tree.kind))?;
    out.extend_from_slice(leaf)?;
    out.extend_from_slice(&rest)?;
    Ok(())
}
