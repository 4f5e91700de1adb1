// Attributes, read: one by its name, or the rows of all.
ghost use Rattle.std.specs.Prelude.{◌≡◌, ◌≤◌, ◌<◌, ◌++◌, ℕ, List, [], ◌∷◌, Option, Some, length, map, IfOk, IfErr, IfSome, IsSome, MatchResult};
ghost use Rattle.std.specs.List.{flat_map};
ghost use Rattle.std.specs.Option.{option_map};
ghost use Rattle.bfs_base.specs.declared.kind.KeyKind.TheVariants.{Text};
ghost use Rattle.bfs_bytes.specs.Fields.{unsigned_at};
ghost use Rattle.bfs_super.specs.Conditions.{IsValid, natural};
ghost use Rattle.bfs_smalldata.specs.Items.{Item, items_of};
ghost use Rattle.bfs_super.specs.Geometry.{geometry_of};
ghost use Rattle.bfs_txn.specs.Faults.{AreLater, Counts};
ghost use Rattle.bfs_stream.specs.Told.{contents};
ghost use Rattle.bfs_stream_pages.specs.Held.{stream_of};
ghost use Rattle.bfs_tree.specs.Answers.{rows_of_attributes};
ghost use Rattle.bfs_values.specs.Reached.{IsWholeTree};
ghost use Rattle.bfs_values.specs.Rows.{rows_in};
ghost use Rattle.bfs_maps.specs.Mapped.{HasReadable};
ghost use Rattle.bfs_maps.specs.Refused.{HasReadCause, IsUndone};
ghost use Rattle.bfs_sound.specs.Attributes.{attribute_at, attributes_of, attribute_directory};
ghost use Rattle.bfs_sound.specs.Inodes.{inodes_of};
ghost use Rattle.bfs_sound.specs.Owners.{In};
ghost use Rattle.bfs_sound.specs.Volumes.{Volume};
ghost use Rattle.bfs_attr.specs.Bearers.{volume_at, bearer_of, HasAttributes, CanRead, entries_at, shown, value_at};
ghost use Rattle.bfs_attr.specs.Directories.{AreInodes, directory_in, kind_row, AreThere};
ghost use Rattle.bfs_attr.specs.Refused.{IsDirectoryFault, IsAttributeFault, IsNoPage};
ghost use Rattle.bfs_make.specs.Sites.{stream_in};
ghost use Rattle.bfs_attr.specs.SmallData.{item_rows};

use crate::directory::{Directory, InodeRow, directory_of, named_inodes};
use crate::inode::{blocked, damaged, size_in};
use crate::rows::{AttrItem, AttrRows};
use crate::small::{Small, small_attribute, small_rows};
use bfs_inode::{InodeView, SMALL_DATA};
use bfs_make::{Site, read_block, stream_bytes};
use bfs_node::TreeFault;
use bfs_smalldata::list_end;
use bfs_stream_pages::MapFault;
use bfs_tree::{AttributeRow, Bytes};
use bfs_txn::Blocks;
use std::alloc::{AllocError, Global};

/// The attribute whose inode is at a block.
fn attribute_in_inode<B: Blocks>(site: Site, under: &mut B, id: u64) -> Result<AttrItem, MapFault>
    requires valid { IsValid site.sup }
    requires inside { id < natural site.sup.num_blocks }
    requires size { B.size under.old ≡ site.sup.block_size }
    ensures found { (m : ℕ → Option (List ℕ)) → B.told under.old ≡ Some m → HasReadable (stream_in site id) m → MatchResult result (λ item. shown item ≡ attribute_at (volume_at (geometry_of site.sup) m) id) IsUndone }
    ensures page { IfErr result IsNoPage }
    ensures told { B.told under.new ≡ B.told under.old }
    ensures changed { B.changed under.new ≡ B.changed under.old }
    ensures pairs { B.pairs under.new ≡ B.pairs under.old }
    ensures size { B.size under.new ≡ B.size under.old }
    ensures frame { B.frame under.new ≡ B.frame under.old }
    ensures later { AreLater (B.counts under.old) (B.counts under.new) }
    ensures cause { IfErr result (HasReadCause (B.counts under.old) (B.counts under.new)) }
{
    let block = match read_block(site, under, id) {
        Ok(block) => block,
        Err(fault) => return Err(blocked(fault)),
    };
    let Some(size) = size_in(&block) else {
        return Err(damaged(id))
    };
    let kind = InodeView::over(&block).type_code();
    match stream_bytes(site, under, id, size) {
        Ok(bytes) => Ok(AttrItem {
            kind,
            bytes: Bytes::new(bytes),
        }),
        Err(fault) => Err(blocked(fault)),
    }
}

/// The type of the attribute whose inode is at a block.
fn kind_in_inode<B: Blocks>(site: Site, under: &mut B, id: u64) -> Result<u32, MapFault>
    requires valid { IsValid site.sup }
    requires size { B.size under.old ≡ site.sup.block_size }
    ensures found { (m : ℕ → Option (List ℕ)) → B.told under.old ≡ Some m → IsSome (m id) → MatchResult result (λ kind. kind ≡ unsigned_at 4 (contents m id) 60) IsUndone }
    ensures page { IfErr result IsNoPage }
    ensures told { B.told under.new ≡ B.told under.old }
    ensures changed { B.changed under.new ≡ B.changed under.old }
    ensures pairs { B.pairs under.new ≡ B.pairs under.old }
    ensures size { B.size under.new ≡ B.size under.old }
    ensures frame { B.frame under.new ≡ B.frame under.old }
    ensures later { AreLater (B.counts under.old) (B.counts under.new) }
    ensures cause { IfErr result (HasReadCause (B.counts under.old) (B.counts under.new)) }
{
    match read_block(site, under, id) {
        Ok(block) => Ok(InodeView::over(&block).type_code()),
        Err(fault) => Err(blocked(fault)),
    }
}

/// The attribute of a name in the attribute directory at a block.
fn attribute_named<B: Blocks>(
    site: Site,
    under: &mut B,
    directory: u64,
    name: &[u8],
) -> Result<Option<AttrItem>, MapFault>
    requires valid { IsValid site.sup }
    requires inside { directory < natural site.sup.num_blocks }
    requires size { B.size under.old ≡ site.sup.block_size }
    requires streams { (m : ℕ → Option (List ℕ)) → B.told under.old ≡ Some m → (k : ℕ) → In k (inodes_of (volume_at (geometry_of site.sup) m) (Some directory)) → HasReadable (stream_in site k) m }
    ensures found { (m : ℕ → Option (List ℕ)) → B.told under.old ≡ Some m → IsWholeTree Text (stream_of (stream_in site directory) m) → AreInodes (natural site.sup.num_blocks) (rows_in Text (stream_of (stream_in site directory) m)) → MatchResult result (λ o. option_map shown o ≡ value_at (attributes_of (volume_at (geometry_of site.sup) m) (Some directory)) name.now) IsUndone }
    ensures refused { (m : ℕ → Option (List ℕ)) → B.told under.old ≡ Some m → IfErr result (IsDirectoryFault (volume_at (geometry_of site.sup) m) directory (Some directory)) }
    ensures told { B.told under.new ≡ B.told under.old }
    ensures changed { B.changed under.new ≡ B.changed under.old }
    ensures pairs { B.pairs under.new ≡ B.pairs under.old }
    ensures size { B.size under.new ≡ B.size under.old }
    ensures frame { B.frame under.new ≡ B.frame under.old }
    ensures later { AreLater (B.counts under.old) (B.counts under.new) }
    ensures cause { IfErr result (HasReadCause (B.counts under.old) (B.counts under.new)) }
{
    let rows = match named_inodes(site, under, directory, Some(name), Some(name)) {
        Ok(rows) => rows,
        Err(fault) => return Err(fault),
    };
    if rows.len() == 0 {
        return Ok(None);
    }
    let id = rows[0].id;
    match attribute_in_inode(site, under, id) {
        Ok(item) => Ok(Some(item)),
        Err(fault) => Err(fault),
    }
}

/// The attribute of a name that isn't in small data, by the bytes of the inode that bears it.
fn attribute_behind<B: Blocks>(
    site: Site,
    under: &mut B,
    inode: u64,
    block: &[u8],
    name: &[u8],
) -> Result<Option<AttrItem>, MapFault>
    requires valid { IsValid site.sup }
    requires long { 1024 ≤ length block.now }
    requires size { B.size under.old ≡ site.sup.block_size }
    requires streams { (m : ℕ → Option (List ℕ)) → B.told under.old ≡ Some m → (k : ℕ) → In k (inodes_of (volume_at (geometry_of site.sup) m) (directory_in site.sup block.now)) → HasReadable (stream_in site k) m }
    ensures found { (m : ℕ → Option (List ℕ)) → B.told under.old ≡ Some m → block.now ≡ contents m inode → HasAttributes (volume_at (geometry_of site.sup) m) inode → MatchResult result (λ o. option_map shown o ≡ value_at (attributes_of (volume_at (geometry_of site.sup) m) (directory_in site.sup block.now)) name.now) IsUndone }
    ensures refused { (m : ℕ → Option (List ℕ)) → B.told under.old ≡ Some m → IfErr result (IsDirectoryFault (volume_at (geometry_of site.sup) m) inode (directory_in site.sup block.now)) }
    ensures told { B.told under.new ≡ B.told under.old }
    ensures changed { B.changed under.new ≡ B.changed under.old }
    ensures pairs { B.pairs under.new ≡ B.pairs under.old }
    ensures size { B.size under.new ≡ B.size under.old }
    ensures frame { B.frame under.new ≡ B.frame under.old }
    ensures later { AreLater (B.counts under.old) (B.counts under.new) }
    ensures cause { IfErr result (HasReadCause (B.counts under.old) (B.counts under.new)) }
{
    match directory_of(site.sup, block) {
        Directory::Missing => Ok(None),
        Directory::At(directory) => attribute_named(site, under, directory, name),
        Directory::Broken => Err(damaged(inode)),
    }
}

/// The attribute directory that an inode names, or None where it names none.
pub fn directory_at<B: Blocks>(
    site: Site,
    under: &mut B,
    inode: u64,
) -> Result<Option<u64>, MapFault>
    requires valid { IsValid site.sup }
    requires size { B.size under.old ≡ site.sup.block_size }
    ensures found { (m : ℕ → Option (List ℕ)) → B.told under.old ≡ Some m → IsSome (m inode) → IfOk result (λ o. o ≡ attribute_directory (volume_at (geometry_of site.sup) m) inode) }
    ensures below { IfOk result (λ o. IfSome o (λ d. d < natural site.sup.num_blocks)) }
    ensures sound { (m : ℕ → Option (List ℕ)) → B.told under.old ≡ Some m → IsSome (m inode) → HasAttributes (volume_at (geometry_of site.sup) m) inode → IfErr result IsUndone }
    ensures refused { (m : ℕ → Option (List ℕ)) → B.told under.old ≡ Some m → IsSome (m inode) → IfErr result (IsAttributeFault (volume_at (geometry_of site.sup) m) inode) }
    ensures told { B.told under.new ≡ B.told under.old }
    ensures changed { B.changed under.new ≡ B.changed under.old }
    ensures pairs { B.pairs under.new ≡ B.pairs under.old }
    ensures size { B.size under.new ≡ B.size under.old }
    ensures frame { B.frame under.new ≡ B.frame under.old }
    ensures later { AreLater (B.counts under.old) (B.counts under.new) }
    ensures cause { IfErr result (HasReadCause (B.counts under.old) (B.counts under.new)) }
{
    let block = match read_block(site, under, inode) {
        Ok(block) => block,
        Err(fault) => return Err(blocked(fault)),
    };
    match directory_of(site.sup, &block) {
        Directory::Missing => Ok(None),
        Directory::At(directory) => Ok(Some(directory)),
        Directory::Broken => Err(damaged(inode)),
    }
}

/// The attribute of a name.
pub fn attribute_of<B: Blocks>(
    site: Site,
    under: &mut B,
    inode: u64,
    name: &[u8],
) -> Result<Option<AttrItem>, MapFault>
    requires valid { IsValid site.sup }
    requires size { B.size under.old ≡ site.sup.block_size }
    requires readable { (m : ℕ → Option (List ℕ)) → B.told under.old ≡ Some m → CanRead (bearer_of inode site.sup) m }
    ensures found { (m : ℕ → Option (List ℕ)) → B.told under.old ≡ Some m → HasAttributes (volume_at (geometry_of site.sup) m) inode → MatchResult result (λ o. option_map shown o ≡ value_at (entries_at (volume_at (geometry_of site.sup) m) inode) name.now) IsUndone }
    ensures refused { (m : ℕ → Option (List ℕ)) → B.told under.old ≡ Some m → IfErr result (IsAttributeFault (volume_at (geometry_of site.sup) m) inode) }
    ensures told { B.told under.new ≡ B.told under.old }
    ensures changed { B.changed under.new ≡ B.changed under.old }
    ensures pairs { B.pairs under.new ≡ B.pairs under.old }
    ensures size { B.size under.new ≡ B.size under.old }
    ensures frame { B.frame under.new ≡ B.frame under.old }
    ensures later { AreLater (B.counts under.old) (B.counts under.new) }
    ensures cause { IfErr result (HasReadCause (B.counts under.old) (B.counts under.new)) }
{
    let block = match read_block(site, under, inode) {
        Ok(block) => block,
        Err(fault) => return Err(blocked(fault)),
    };
    match small_attribute(site.alloc, &block[SMALL_DATA..], name) {
        Small::Found(item) => Ok(Some(item)),
        Small::Missing => attribute_behind(site, under, inode, &block, name),
        Small::Broken => Err(damaged(inode)),
        Small::NoMemory => Err(TreeFault::NoMemory),
    }
}

/// The row of an attribute.
fn row_of(alloc: Global, kind: u32, name: &[u8]) -> Result<AttributeRow, AllocError>
    ensures { IfOk result (λ row. (row.kind ≡ kind) × (row.name ≡ name.now)) }
{
    let name = Bytes::from_slice(alloc, name)?;
    Ok(AttributeRow { kind, name })
}

/// Adds the row of the attribute whose inode is named.
fn push_kind<B: Blocks>(
    site: Site,
    under: &mut B,
    inode: &InodeRow,
    rows: &mut Vec<AttributeRow>,
) -> Result<(), MapFault>
    requires valid { IsValid site.sup }
    requires size { B.size under.old ≡ site.sup.block_size }
    ensures found { (m : ℕ → Option (List ℕ)) → B.told under.old ≡ Some m → IsSome (m inode.now.id) → MatchResult result (λ u. rows.new.items ≡ rows.old.items ++ kind_row (volume_at (geometry_of site.sup) m) inode.now ∷ []) IsUndone }
    ensures page { IfErr result IsNoPage }
    ensures told { B.told under.new ≡ B.told under.old }
    ensures changed { B.changed under.new ≡ B.changed under.old }
    ensures pairs { B.pairs under.new ≡ B.pairs under.old }
    ensures size { B.size under.new ≡ B.size under.old }
    ensures frame { B.frame under.new ≡ B.frame under.old }
    ensures later { AreLater (B.counts under.old) (B.counts under.new) }
    ensures cause { IfErr result (HasReadCause (B.counts under.old) (B.counts under.new)) }
{
    let kind = match kind_in_inode(site, under, inode.id) {
        Ok(kind) => kind,
        Err(fault) => return Err(fault),
    };
    match row_of(site.alloc, kind, inode.name.as_slice()) {
        Ok(row) => match rows.push(row) {
            Ok(()) => Ok(()),
            Err(_) => Err(TreeFault::NoMemory),
        },
        Err(_) => Err(TreeFault::NoMemory),
    }
}

/// Adds the rows of the attributes whose inodes are named.
fn push_kinds<B: Blocks>(
    site: Site,
    under: &mut B,
    inodes: &[InodeRow],
    rows: &mut Vec<AttributeRow>,
) -> Result<(), MapFault>
    requires valid { IsValid site.sup }
    requires size { B.size under.old ≡ site.sup.block_size }
    ensures found { (m : ℕ → Option (List ℕ)) → B.told under.old ≡ Some m → AreThere m inodes.now → MatchResult result (λ u. rows.new.items ≡ rows.old.items ++ map (kind_row (volume_at (geometry_of site.sup) m)) inodes.now) IsUndone }
    ensures page { IfErr result IsNoPage }
    ensures told { B.told under.new ≡ B.told under.old }
    ensures changed { B.changed under.new ≡ B.changed under.old }
    ensures pairs { B.pairs under.new ≡ B.pairs under.old }
    ensures size { B.size under.new ≡ B.size under.old }
    ensures frame { B.frame under.new ≡ B.frame under.old }
    ensures later { AreLater (B.counts under.old) (B.counts under.new) }
    ensures cause { IfErr result (HasReadCause (B.counts under.old) (B.counts under.new)) }
{
    for inode in inodes {
        match push_kind(site, under, inode, rows) {
            Ok(()) => {}
            Err(fault) => return Err(fault),
        }
    }
    Ok(())
}

/// The rows of the attributes in small data, and then those of the attribute directory at a block.
fn rows_with<B: Blocks>(
    site: Site,
    under: &mut B,
    directory: u64,
    small: Vec<AttributeRow>,
) -> Result<AttrRows, MapFault>
    requires valid { IsValid site.sup }
    requires inside { directory < natural site.sup.num_blocks }
    requires size { B.size under.old ≡ site.sup.block_size }
    requires streams { (m : ℕ → Option (List ℕ)) → B.told under.old ≡ Some m → (k : ℕ) → In k (inodes_of (volume_at (geometry_of site.sup) m) (Some directory)) → HasReadable (stream_in site k) m }
    ensures found { (m : ℕ → Option (List ℕ)) → B.told under.old ≡ Some m → IsWholeTree Text (stream_of (stream_in site directory) m) → AreInodes (natural site.sup.num_blocks) (rows_in Text (stream_of (stream_in site directory) m)) → MatchResult result (λ rows. rows ≡ small.items ++ rows_of_attributes (attributes_of (volume_at (geometry_of site.sup) m) (Some directory))) IsUndone }
    ensures refused { (m : ℕ → Option (List ℕ)) → B.told under.old ≡ Some m → IfErr result (IsDirectoryFault (volume_at (geometry_of site.sup) m) directory (Some directory)) }
    ensures told { B.told under.new ≡ B.told under.old }
    ensures changed { B.changed under.new ≡ B.changed under.old }
    ensures pairs { B.pairs under.new ≡ B.pairs under.old }
    ensures size { B.size under.new ≡ B.size under.old }
    ensures frame { B.frame under.new ≡ B.frame under.old }
    ensures later { AreLater (B.counts under.old) (B.counts under.new) }
    ensures cause { IfErr result (HasReadCause (B.counts under.old) (B.counts under.new)) }
{
    let inodes = match named_inodes(site, under, directory, None, None) {
        Ok(inodes) => inodes,
        Err(fault) => return Err(fault),
    };
    let mut rows = small;
    match push_kinds(site, under, &inodes, &mut rows) {
        Ok(()) => Ok(AttrRows::new(rows)),
        Err(fault) => Err(fault),
    }
}

/// The rows of the attributes in small data, and then those of the attribute directory, by the bytes of the inode that bears
/// them.
fn rows_behind<B: Blocks>(
    site: Site,
    under: &mut B,
    inode: u64,
    block: &[u8],
    small: Vec<AttributeRow>,
) -> Result<AttrRows, MapFault>
    requires valid { IsValid site.sup }
    requires long { 1024 ≤ length block.now }
    requires size { B.size under.old ≡ site.sup.block_size }
    requires streams { (m : ℕ → Option (List ℕ)) → B.told under.old ≡ Some m → (k : ℕ) → In k (inodes_of (volume_at (geometry_of site.sup) m) (directory_in site.sup block.now)) → HasReadable (stream_in site k) m }
    ensures found { (m : ℕ → Option (List ℕ)) → B.told under.old ≡ Some m → block.now ≡ contents m inode → HasAttributes (volume_at (geometry_of site.sup) m) inode → MatchResult result (λ rows. rows ≡ small.items ++ rows_of_attributes (attributes_of (volume_at (geometry_of site.sup) m) (directory_in site.sup block.now))) IsUndone }
    ensures refused { (m : ℕ → Option (List ℕ)) → B.told under.old ≡ Some m → IfErr result (IsDirectoryFault (volume_at (geometry_of site.sup) m) inode (directory_in site.sup block.now)) }
    ensures told { B.told under.new ≡ B.told under.old }
    ensures changed { B.changed under.new ≡ B.changed under.old }
    ensures pairs { B.pairs under.new ≡ B.pairs under.old }
    ensures size { B.size under.new ≡ B.size under.old }
    ensures frame { B.frame under.new ≡ B.frame under.old }
    ensures later { AreLater (B.counts under.old) (B.counts under.new) }
    ensures cause { IfErr result (HasReadCause (B.counts under.old) (B.counts under.new)) }
{
    match directory_of(site.sup, block) {
        Directory::Missing => Ok(AttrRows::new(small)),
        Directory::At(directory) => rows_with(site, under, directory, small),
        Directory::Broken => Err(damaged(inode)),
    }
}

/// The rows of an area of small data; or an item runs past it; or there is no memory for them.
fn area_rows(site: Site, inode: u64, area: &[u8]) -> Result<Vec<AttributeRow>, MapFault>
    ensures found { (items : List Item) → items_of area.now ≡ Some items → MatchResult result (λ rows. rows.items ≡ flat_map item_rows items) IsUndone }
    ensures blamed { (v : Volume) (directory : Option ℕ) → IfErr result (IsDirectoryFault v inode directory) }
    ensures cause { (old new : Counts) → IfErr result (HasReadCause old new) }
{
    match list_end(area) {
        Ok(_) => match small_rows(site.alloc, area) {
            Ok(rows) => Ok(rows),
            Err(_) => Err(TreeFault::NoMemory),
        },
        Err(_) => Err(damaged(inode)),
    }
}

/// The rows of all attributes.
pub fn rows_of<B: Blocks>(site: Site, under: &mut B, inode: u64) -> Result<AttrRows, MapFault>
    requires valid { IsValid site.sup }
    requires size { B.size under.old ≡ site.sup.block_size }
    requires readable { (m : ℕ → Option (List ℕ)) → B.told under.old ≡ Some m → CanRead (bearer_of inode site.sup) m }
    ensures found { (m : ℕ → Option (List ℕ)) → B.told under.old ≡ Some m → HasAttributes (volume_at (geometry_of site.sup) m) inode → MatchResult result (λ rows. rows ≡ rows_of_attributes (entries_at (volume_at (geometry_of site.sup) m) inode)) IsUndone }
    ensures refused { (m : ℕ → Option (List ℕ)) → B.told under.old ≡ Some m → IfErr result (IsAttributeFault (volume_at (geometry_of site.sup) m) inode) }
    ensures told { B.told under.new ≡ B.told under.old }
    ensures changed { B.changed under.new ≡ B.changed under.old }
    ensures pairs { B.pairs under.new ≡ B.pairs under.old }
    ensures size { B.size under.new ≡ B.size under.old }
    ensures frame { B.frame under.new ≡ B.frame under.old }
    ensures later { AreLater (B.counts under.old) (B.counts under.new) }
    ensures cause { IfErr result (HasReadCause (B.counts under.old) (B.counts under.new)) }
{
    let block = match read_block(site, under, inode) {
        Ok(block) => block,
        Err(fault) => return Err(blocked(fault)),
    };
    let small = match area_rows(site, inode, &block[SMALL_DATA..]) {
        Ok(small) => small,
        Err(fault) => return Err(fault),
    };
    rows_behind(site, under, inode, &block, small)
}
