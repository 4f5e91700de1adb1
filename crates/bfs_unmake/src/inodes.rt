// The inodes with streams that a node has: its own, and those of its attribute directory and of its attributes.
ghost use Rattle.std.specs.Prelude.{◌≡◌, ◌<◌, ◌++◌, ℕ, List, Option, Some, IsSome, map, OnOk, IfOk, IfErr, MatchResult};
ghost use Rattle.bfs_super.specs.Conditions.{IsValid, natural};
ghost use Rattle.bfs_super.specs.Geometry.{geometry_of};
ghost use Rattle.bfs_txn.specs.Faults.{AreLater};
ghost use Rattle.bfs_stream.specs.Told.{contents};
ghost use Rattle.bfs_maps.specs.Mapped.{HasReadable};
ghost use Rattle.bfs_maps.specs.Refused.{HasReadCause, IsUndone};
ghost use Rattle.bfs_sound.specs.Inodes.{inodes_of};
ghost use Rattle.bfs_make.specs.Sites.{stream_in};
ghost use Rattle.bfs_attr.specs.Bearers.{volume_at, bearer_of, HasAttributes, CanRead};
ghost use Rattle.bfs_attr.specs.Refused.{HasRows};
ghost use Rattle.bfs_leave.specs.Given.{keeps_target};
ghost use Rattle.bfs_unmake.specs.Whole.{streamed_in, stream_inodes, AllBelow};

use bfs_attr::{InodeRow, directory_at, named_inodes};
use bfs_leave::keeps_target;
use bfs_make::{Site, read_block};
use bfs_node::TreeFault;
use bfs_stream::GrowFault;
use bfs_stream_pages::MapFault;
use bfs_txn::{BlockFault, Blocks};
use std::alloc::{AllocError, Global};

/// A block could not be had.
pub(crate) fn blocked(fault: BlockFault) -> MapFault
    ensures { result ≡ TreeFault.Pages (GrowFault.Block fault) }
{
    TreeFault::Pages(GrowFault::Block(fault))
}

/// Reads whether an inode keeps a link's target in the place of a stream.
pub fn stands_alone<B: Blocks>(site: Site, under: &mut B, id: u64) -> Result<bool, MapFault>
    requires valid { IsValid site.sup }
    requires size { B.size under.old ≡ site.sup.block_size }
    ensures alone { (m : ℕ → Option (List ℕ)) → B.told under.old ≡ Some m → IsSome (m id) → IfOk result (λ alone. alone ≡ keeps_target (contents m id)) }
    ensures sound { IfErr result IsUndone }
    ensures told { B.told under.new ≡ B.told under.old }
    ensures changed { B.changed under.new ≡ B.changed under.old }
    ensures size { B.size under.new ≡ B.size under.old }
    ensures frame { B.frame under.new ≡ B.frame under.old }
    ensures later { AreLater (B.counts under.old) (B.counts under.new) }
    ensures cause { IfErr result (HasReadCause (B.counts under.old) (B.counts under.new)) }
{
    match read_block(site, under, id) {
        Ok(block) => Ok(keeps_target(&block)),
        Err(fault) => Err(blocked(fault)),
    }
}

/// The node's own inode, where it has a stream.
fn own_inode(alloc: Global, id: u64, alone: bool) -> Result<Vec<u64>, AllocError>
    ensures { IfOk result (λ ids. ids.items ≡ streamed_in id alone) }
{
    let mut ids = Vec::new(alloc);
    if alone {
        return Ok(ids);
    }
    ids.push(id)?;
    Ok(ids)
}

/// Adds the inodes that rows name.
fn push_inodes(ids: &mut Vec<u64>, rows: &[InodeRow]) -> Result<(), AllocError>
    ensures { OnOk result (ids.new.items ≡ ids.old.items ++ map (λ row. row.id) rows.now) }
{
    for row in rows {
        ids.push(row.id)?;
    }
    Ok(())
}

/// Adds the inode of an attribute directory, and those of the attributes that its rows name.
fn push_directory<B: Blocks>(
    site: Site,
    under: &mut B,
    directory: u64,
    ids: &mut Vec<u64>,
) -> Result<(), MapFault>
    requires valid { IsValid site.sup }
    requires inside { directory < natural site.sup.num_blocks }
    requires size { B.size under.old ≡ site.sup.block_size }
    requires stream { (m : ℕ → Option (List ℕ)) → B.told under.old ≡ Some m → HasReadable (stream_in site directory) m }
    ensures found { (m : ℕ → Option (List ℕ)) → B.told under.old ≡ Some m → HasRows (volume_at (geometry_of site.sup) m) directory → MatchResult result (λ u. ids.new.items ≡ ids.old.items ++ inodes_of (volume_at (geometry_of site.sup) m) (Some directory)) IsUndone }
    ensures below { AllBelow (natural site.sup.num_blocks) ids.old.items → OnOk result (AllBelow (natural site.sup.num_blocks) ids.new.items) }
    ensures told { B.told under.new ≡ B.told under.old }
    ensures changed { B.changed under.new ≡ B.changed under.old }
    ensures size { B.size under.new ≡ B.size under.old }
    ensures frame { B.frame under.new ≡ B.frame under.old }
    ensures later { AreLater (B.counts under.old) (B.counts under.new) }
    ensures cause { IfErr result (HasReadCause (B.counts under.old) (B.counts under.new)) }
{
    let rows = match named_inodes(site, under, directory, None, None) {
        Ok(rows) => rows,
        Err(fault) => return Err(fault),
    };
    match ids.push(directory) {
        Ok(()) => {}
        Err(_) => return Err(TreeFault::NoMemory),
    }
    match push_inodes(ids, &rows) {
        Ok(()) => Ok(()),
        Err(_) => Err(TreeFault::NoMemory),
    }
}

/// The inodes with streams that a node has, by its own inode and whether that has a stream.
pub fn stream_inodes<B: Blocks>(
    site: Site,
    under: &mut B,
    id: u64,
    alone: bool,
) -> Result<Vec<u64>, MapFault>
    requires valid { IsValid site.sup }
    requires inside { id < natural site.sup.num_blocks }
    requires size { B.size under.old ≡ site.sup.block_size }
    requires readable { (m : ℕ → Option (List ℕ)) → B.told under.old ≡ Some m → CanRead (bearer_of id site.sup) m }
    ensures found { (m : ℕ → Option (List ℕ)) → B.told under.old ≡ Some m → HasAttributes (volume_at (geometry_of site.sup) m) id → MatchResult result (λ ids. ids.items ≡ stream_inodes (volume_at (geometry_of site.sup) m) id alone) IsUndone }
    ensures below { IfOk result (λ ids. AllBelow (natural site.sup.num_blocks) ids.items) }
    ensures told { B.told under.new ≡ B.told under.old }
    ensures changed { B.changed under.new ≡ B.changed under.old }
    ensures size { B.size under.new ≡ B.size under.old }
    ensures frame { B.frame under.new ≡ B.frame under.old }
    ensures later { AreLater (B.counts under.old) (B.counts under.new) }
    ensures cause { IfErr result (HasReadCause (B.counts under.old) (B.counts under.new)) }
{
    let mut ids = match own_inode(site.alloc, id, alone) {
        Ok(ids) => ids,
        Err(_) => return Err(TreeFault::NoMemory),
    };
    let named = match directory_at(site, under, id) {
        Ok(named) => named,
        Err(fault) => return Err(fault),
    };
    match named {
        None => Ok(ids),
        Some(directory) => match push_directory(site, under, directory, &mut ids) {
            Ok(()) => Ok(ids),
            Err(fault) => Err(fault),
        },
    }
}
