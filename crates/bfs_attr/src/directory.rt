// The attribute directory of an inode: where it is, and the inodes that its rows name.
ghost use Rattle.std.specs.Prelude.{◌≡◌, ◌≢◌, ◌≤◌, ◌<◌, ◌↔◌, ◌++◌, ℕ, [], ◌∷◌, List, None, Option, Some, length, IfOk, IfErr, IfSome, IsSome, IsTrue, MatchResult};
ghost use Rattle.std.specs.Option.{option_copied};
ghost use Rattle.bfs_base.specs.declared.kind.KeyKind.TheVariants.{Text};
ghost use Rattle.bfs_super.specs.Conditions.{IsValid, natural, block_of_run};
ghost use Rattle.bfs_super.specs.Geometry.{geometry_of};
ghost use Rattle.bfs_txn.specs.Faults.{AreLater};
ghost use Rattle.bfs_stream_pages.specs.Held.{stream_of};
ghost use Rattle.bfs_values.specs.Reached.{IsWholeTree};
ghost use Rattle.bfs_values.specs.Rows.{rows_in};
ghost use Rattle.bfs_range.specs.Ranges.{rows_between};
ghost use Rattle.bfs_maps.specs.Mapped.{HasReadable};
ghost use Rattle.bfs_maps.specs.Refused.{HasReadCause, IsUndone};
ghost use Rattle.bfs_sound.specs.Attributes.{is_zero, attributes_of};
ghost use Rattle.bfs_sound.specs.Inodes.{is_proper, proper_rows};
ghost use Rattle.bfs_attr.specs.Bearers.{volume_at, value_at};
ghost use Rattle.bfs_attr.specs.Directories.{IsDirectoryOf, AreInodes, inode_rows, inodes_among, AreBelow, IsPushed, IsShort};
ghost use Rattle.bfs_attr.specs.Refused.{HasRows, IsDirectoryFault, IsFaultOf};
ghost use Rattle.bfs_make.specs.Sites.{stream_in};

use crate::inode::damaged;
use bfs_bytes::{Run, run_at};
use bfs_make::{Site, blocks_in};
use bfs_maps::{TreeAt, rows_from};
use bfs_node::{KeyKind, TreeFault};
use bfs_range::{KeyBytes, Ranged, RangedRow};
use bfs_stream_pages::MapFault;
use bfs_super::Super;
use bfs_txn::Blocks;
use std::alloc::{AllocError, Global};
use thiserror::Error;

/// Where the attribute directory of an inode is: there is none; its inode is this block; or the inode names no block of the
/// volume.
#[derive(Clone, Copy, Debug, PartialEq, Eq)]
pub enum Directory {
    Missing,
    At(u64),
    Broken,
}

/// A name of the attribute directory, and the inode that its row names.
#[derive(Debug, Drop)]
pub struct InodeRow {
    pub name: KeyBytes,
    pub id: u64,
}

/// Are all eight bytes of the run zero?
fn is_zero_run(run: Run) -> bool
    ensures { result ≡ is_zero run }
{
    run.group == 0 && run.start == 0 && run.len == 0
}

/// The first block of a run; a group below 0 counts as 0.
fn first_block(sup: Super, run: Run) -> u64
    requires { IsValid sup }
    ensures { result ≡ block_of_run sup run }
{
    if run.group < 0 {
        return u64::from(run.start);
    }
    sup.block_of(run)
}

/// The block that an inode's address names, where it is one of the volume.
fn named_block(sup: Super, run: Run) -> Option<u64>
    requires { IsValid sup }
    ensures some { IfSome result (λ d. (d ≡ block_of_run sup run) × (d < natural sup.num_blocks)) }
    ensures none { result ≡ None → run.len ≡ 1 → block_of_run sup run < natural sup.num_blocks → ⊥ }
{
    if run.len != 1 {
        return None;
    }
    let block = first_block(sup, run);
    if block < blocks_in(sup) {
        Some(block)
    } else {
        None
    }
}

/// Where the attribute directory is, by the inode's block.
pub(crate) fn directory_of(sup: Super, block: &[u8]) -> Directory
    requires valid { IsValid sup }
    requires long { 1024 ≤ length block.now }
    ensures { IsDirectoryOf sup block.now result }
{
    let run = run_at(block, 52);
    if is_zero_run(run) {
        return Directory::Missing;
    }
    match named_block(sup, run) {
        Some(block) => Directory::At(block),
        None => Directory::Broken,
    }
}

/// The inode that a row names, where it is a block of the volume.
fn inode_of(row: &RangedRow, blocks: u64) -> Option<u64>
    ensures some { IfSome result (λ id. (row.now.numbers ≡ id ∷ []) × (id < blocks)) }
    ensures none { result ≡ None → (id : ℕ) → row.now.numbers ≡ id ∷ [] → id < blocks → ⊥ }
{
    let numbers = row.numbers.as_slice();
    if numbers.len() != 1 {
        return None;
    }
    let id = numbers[0];
    if id < blocks { Some(id) } else { None }
}

/// Is it a name but `.` and `..`?
fn is_proper_name(name: &[u8]) -> bool
    ensures { result ≡ is_proper name.now }
{
    !(name == b".".as_slice() || name == b"..".as_slice())
}

/// Whether a row was added or passed over; or names no block of the volume; or there is no memory for it.
#[derive(Clone, Copy, Debug, PartialEq, Eq)]
pub enum Pushed {
    Done,
    Faulty,
    Full,
}

/// Why inodes that rows name were not had: one names no block of the volume; or there is no memory for them.
#[derive(Clone, Copy, Debug, PartialEq, Eq, Error)]
pub enum Shortage {
    #[error("a row names no block of the volume")]
    Unsound,
    #[error("no memory was found")]
    NoMemory,
}

/// A name with an inode.
fn inode_row(alloc: Global, name: &[u8], id: u64) -> Result<InodeRow, AllocError>
    ensures { IfOk result (λ row. (row.name ≡ name.now) × (row.id ≡ id)) }
{
    let name = KeyBytes::from_slice(alloc, name)?;
    Ok(InodeRow { name, id })
}

/// Adds a name with an inode.
fn push_named(alloc: Global, rows: &mut Vec<InodeRow>, name: &[u8], id: u64) -> Pushed
    ensures done { result ≡ Pushed.Done → rows.new.items ≡ rows.old.items ++ record { name = name.now; id = id } ∷ [] }
    ensures good { result ≢ Pushed.Faulty }
{
    match inode_row(alloc, name, id) {
        Ok(row) => match rows.push(row) {
            Ok(()) => Pushed::Done,
            Err(_) => Pushed::Full,
        },
        Err(_) => Pushed::Full,
    }
}

/// Adds the inode that a row names, unless it is the row `.` or `..`.
fn push_inode(alloc: Global, rows: &mut Vec<InodeRow>, row: &RangedRow, blocks: u64) -> Pushed
    ensures { IsPushed blocks rows.old.items row.now rows.new.items result }
{
    let name = row.key.as_slice();
    if !is_proper_name(name) {
        return Pushed::Done;
    }
    match inode_of(row, blocks) {
        Some(id) => push_named(alloc, rows, name, id),
        None => Pushed::Faulty,
    }
}

/// The inodes that rows name, `.` and `..` passed over.
fn inodes_of(alloc: Global, ranged: &Ranged, blocks: u64) -> Result<Vec<InodeRow>, Shortage>
    ensures found { IfOk result (λ v. inodes_among blocks ranged.now ≡ Some v.items) }
    ensures refused { IfErr result (IsShort blocks ranged.now) }
{
    let mut rows = Vec::new(alloc);
    for row in ranged.as_slice() {
        match push_inode(alloc, &mut rows, row, blocks) {
            Pushed::Done => {}
            Pushed::Faulty => return Err(Shortage::Unsound),
            Pushed::Full => return Err(Shortage::NoMemory),
        }
    }
    Ok(rows)
}

/// The fault that a want of inodes is.
fn fault_of(shortage: Shortage, directory: u64) -> MapFault
    ensures { IsFaultOf directory shortage result }
{
    match shortage {
        Shortage::Unsound => damaged(directory),
        Shortage::NoMemory => TreeFault::NoMemory,
    }
}

/// The inodes that the rows of the attribute directory at a block name, from one name to another, both inclusive; where an end
/// is None, from the first or to the last. `.` and `..` are passed over.
pub fn named_inodes<B: Blocks>(
    site: Site,
    under: &mut B,
    directory: u64,
    low: Option<&[u8]>,
    high: Option<&[u8]>,
) -> Result<Vec<InodeRow>, MapFault>
    requires valid { IsValid site.sup }
    requires inside { directory < natural site.sup.num_blocks }
    requires size { B.size under.old ≡ site.sup.block_size }
    requires stream { (m : ℕ → Option (List ℕ)) → B.told under.old ≡ Some m → HasReadable (stream_in site directory) m }
    ensures found { (m : ℕ → Option (List ℕ)) → B.told under.old ≡ Some m → IsWholeTree Text (stream_of (stream_in site directory) m) → AreInodes (natural site.sup.num_blocks) (rows_in Text (stream_of (stream_in site directory) m)) → MatchResult result (λ v. v.items ≡ inode_rows (rows_between Text (option_copied low.entry) (option_copied high.entry) (rows_in Text (stream_of (stream_in site directory) m)))) IsUndone }
    ensures below { IfOk result (λ v. AreBelow (natural site.sup.num_blocks) v.items) }
    ensures refused { (m : ℕ → Option (List ℕ)) → B.told under.old ≡ Some m → IfErr result (IsDirectoryFault (volume_at (geometry_of site.sup) m) directory (Some directory)) }
    ensures told { B.told under.new ≡ B.told under.old }
    ensures changed { B.changed under.new ≡ B.changed under.old }
    ensures pairs { B.pairs under.new ≡ B.pairs under.old }
    ensures size { B.size under.new ≡ B.size under.old }
    ensures frame { B.frame under.new ≡ B.frame under.old }
    ensures later { AreLater (B.counts under.old) (B.counts under.new) }
    ensures cause { IfErr result (HasReadCause (B.counts under.old) (B.counts under.new)) }
{
    let tree = TreeAt {
        alloc: site.alloc,
        inode: directory,
        sup: site.sup,
        kind: KeyKind::Text,
    };
    let ranged = match rows_from(tree, under, low, high) {
        Ok(ranged) => ranged,
        Err(fault) => return Err(fault),
    };
    match inodes_of(site.alloc, &ranged, blocks_in(site.sup)) {
        Ok(rows) => Ok(rows),
        Err(shortage) => Err(fault_of(shortage, directory)),
    }
}

/// Does the attribute directory at a block name no attribute? The rows `.` and `..` are passed over.
pub fn is_directory_empty<B: Blocks>(
    site: Site,
    under: &mut B,
    directory: u64,
) -> Result<bool, MapFault>
    requires valid { IsValid site.sup }
    requires inside { directory < natural site.sup.num_blocks }
    requires size { B.size under.old ≡ site.sup.block_size }
    requires stream { (m : ℕ → Option (List ℕ)) → B.told under.old ≡ Some m → HasReadable (stream_in site directory) m }
    ensures found { (m : ℕ → Option (List ℕ)) → B.told under.old ≡ Some m → HasRows (volume_at (geometry_of site.sup) m) directory → MatchResult result (λ empty. IsTrue empty ↔ (proper_rows (volume_at (geometry_of site.sup) m) directory ≡ [])) IsUndone }
    ensures refused { (m : ℕ → Option (List ℕ)) → B.told under.old ≡ Some m → IfErr result (IsDirectoryFault (volume_at (geometry_of site.sup) m) directory (Some directory)) }
    ensures told { B.told under.new ≡ B.told under.old }
    ensures changed { B.changed under.new ≡ B.changed under.old }
    ensures pairs { B.pairs under.new ≡ B.pairs under.old }
    ensures size { B.size under.new ≡ B.size under.old }
    ensures frame { B.frame under.new ≡ B.frame under.old }
    ensures later { AreLater (B.counts under.old) (B.counts under.new) }
    ensures cause { IfErr result (HasReadCause (B.counts under.old) (B.counts under.new)) }
{
    match named_inodes(site, under, directory, None, None) {
        Ok(rows) => Ok(rows.len() == 0),
        Err(fault) => Err(fault),
    }
}

/// Does the attribute directory at a block name an attribute of a name?
pub fn has_attribute_row<B: Blocks>(
    site: Site,
    under: &mut B,
    directory: u64,
    name: &[u8],
) -> Result<bool, MapFault>
    requires valid { IsValid site.sup }
    requires inside { directory < natural site.sup.num_blocks }
    requires size { B.size under.old ≡ site.sup.block_size }
    requires stream { (m : ℕ → Option (List ℕ)) → B.told under.old ≡ Some m → HasReadable (stream_in site directory) m }
    ensures found { (m : ℕ → Option (List ℕ)) → B.told under.old ≡ Some m → HasRows (volume_at (geometry_of site.sup) m) directory → MatchResult result (λ there. IsTrue there ↔ IsSome (value_at (attributes_of (volume_at (geometry_of site.sup) m) (Some directory)) name.now)) IsUndone }
    ensures refused { (m : ℕ → Option (List ℕ)) → B.told under.old ≡ Some m → IfErr result (IsDirectoryFault (volume_at (geometry_of site.sup) m) directory (Some directory)) }
    ensures told { B.told under.new ≡ B.told under.old }
    ensures changed { B.changed under.new ≡ B.changed under.old }
    ensures pairs { B.pairs under.new ≡ B.pairs under.old }
    ensures size { B.size under.new ≡ B.size under.old }
    ensures frame { B.frame under.new ≡ B.frame under.old }
    ensures later { AreLater (B.counts under.old) (B.counts under.new) }
    ensures cause { IfErr result (HasReadCause (B.counts under.old) (B.counts under.new)) }
{
    match named_inodes(site, under, directory, Some(name), Some(name)) {
        Ok(rows) => Ok(rows.len() > 0),
        Err(fault) => Err(fault),
    }
}
