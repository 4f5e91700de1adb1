// The inodes that are given up with an attribute of a node.
ghost use Rattle.std.specs.Prelude.{◌≡◌, ◌<◌, ℕ, List, Option, Some, IfOk, IfErr, MatchResult};
ghost use Rattle.bfs_base.specs.declared.kind.KeyKind.TheVariants.{Text};
ghost use Rattle.bfs_super.specs.Conditions.{IsValid, natural};
ghost use Rattle.bfs_super.specs.Geometry.{geometry_of};
ghost use Rattle.bfs_txn.specs.Faults.{AreLater};
ghost use Rattle.bfs_pages.specs.Maps.{assoc};
ghost use Rattle.bfs_maps.specs.Mapped.{HasReadable};
ghost use Rattle.bfs_maps.specs.Refused.{IsUndone, HasReadCause};
ghost use Rattle.bfs_sound.specs.Inodes.{rows_of};
ghost use Rattle.bfs_sound.specs.Need.{left_with};
ghost use Rattle.bfs_make.specs.Sites.{stream_in};
ghost use Rattle.bfs_attr.specs.Bearers.{volume_at, bearer_of, HasAttributes, CanRead};
ghost use Rattle.bfs_attr.specs.Refused.{HasRows};
ghost use Rattle.bfs_unmake.specs.Allowances.{inodes_left};
ghost use Rattle.bfs_attr_calls.specs.Left.{inode_named, left_by};

use bfs_attr::{InodeRow, directory_at, named_inodes};
use bfs_make::Site;
use bfs_node::TreeFault;
use bfs_stream_pages::MapFault;
use bfs_txn::Blocks;
use std::alloc::{AllocError, Global};

/// The inode that the row of a name names, the first of them.
fn inode_named(rows: &[InodeRow], name: &[u8]) -> Option<u64>
    ensures { result ≡ inode_named rows.now name.now }
{
    for row in rows {
        if name == row.name.as_slice() {
            return Some(row.id);
        }
    }
    None
}

/// The inodes that are given up with the attribute of a name, by all rows of the attribute directory.
fn ids_left(
    alloc: Global,
    directory: u64,
    rows: &[InodeRow],
    name: &[u8],
) -> Result<Vec<u64>, AllocError>
    ensures { IfOk result (λ ids. ids.items ≡ left_by directory rows.now (inode_named rows.now name.now)) }
{
    let mut ids = Vec::new(alloc);
    let named = inode_named(rows, name);
    let Some(id) = named else {
        return Ok(ids);
    };
    if rows.len() == 1 {
        ids.push(directory)?;
    }
    ids.push(id)?;
    Ok(ids)
}

/// The inodes that are given up with the attribute of a name, which the attribute directory at a block may name.
fn left_in<B: Blocks>(
    site: Site,
    under: &mut B,
    directory: u64,
    name: &[u8],
) -> Result<Vec<u64>, MapFault>
    requires valid { IsValid site.sup }
    requires inside { directory < natural site.sup.num_blocks }
    requires size { B.size under.old ≡ site.sup.block_size }
    requires stream { (m : ℕ → Option (List ℕ)) → B.told under.old ≡ Some m → HasReadable (stream_in site directory) m }
    ensures found { (m : ℕ → Option (List ℕ)) → B.told under.old ≡ Some m → HasRows (volume_at (geometry_of site.sup) m) directory → MatchResult result (λ ids. ids.items ≡ left_with (volume_at (geometry_of site.sup) m) (Some directory) (assoc Text (rows_of (volume_at (geometry_of site.sup) m) (Some directory)) name.now)) IsUndone }
    ensures told { B.told under.new ≡ B.told under.old }
    ensures changed { B.changed under.new ≡ B.changed under.old }
    ensures size { B.size under.new ≡ B.size under.old }
    ensures frame { B.frame under.new ≡ B.frame under.old }
    ensures later { AreLater (B.counts under.old) (B.counts under.new) }
    ensures cause { IfErr result (HasReadCause (B.counts under.old) (B.counts under.new)) }
{
    let rows = match named_inodes(site, under, directory, None, None) {
        Ok(rows) => rows,
        Err(fault) => return Err(fault),
    };
    match ids_left(site.alloc, directory, &rows, name) {
        Ok(ids) => Ok(ids),
        Err(_) => Err(TreeFault::NoMemory),
    }
}

/// The inodes that are given up with the attribute of a name of the inode at a block: none where it is in small data or not there, and
/// that of the attribute directory among them where the directory names no other.
pub(crate) fn inodes_left<B: Blocks>(
    site: Site,
    under: &mut B,
    id: u64,
    name: &[u8],
) -> Result<Vec<u64>, MapFault>
    requires valid { IsValid site.sup }
    requires size { B.size under.old ≡ site.sup.block_size }
    requires readable { (m : ℕ → Option (List ℕ)) → B.told under.old ≡ Some m → CanRead (bearer_of id site.sup) m }
    ensures found { (m : ℕ → Option (List ℕ)) → B.told under.old ≡ Some m → HasAttributes (volume_at (geometry_of site.sup) m) id → MatchResult result (λ ids. ids.items ≡ inodes_left (volume_at (geometry_of site.sup) m) id name.now) IsUndone }
    ensures told { B.told under.new ≡ B.told under.old }
    ensures changed { B.changed under.new ≡ B.changed under.old }
    ensures size { B.size under.new ≡ B.size under.old }
    ensures frame { B.frame under.new ≡ B.frame under.old }
    ensures later { AreLater (B.counts under.old) (B.counts under.new) }
    ensures cause { IfErr result (HasReadCause (B.counts under.old) (B.counts under.new)) }
{
    let named = match directory_at(site, under, id) {
        Ok(named) => named,
        Err(fault) => return Err(fault),
    };
    match named {
        None => Ok(Vec::new(site.alloc)),
        Some(directory) => match left_in(site, under, directory, name) {
            Ok(ids) => Ok(ids),
            Err(fault) => Err(fault),
        },
    }
}
