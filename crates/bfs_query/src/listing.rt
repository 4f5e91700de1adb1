// The indices of a volume.
ghost use Rattle.std.specs.Prelude.{◌≡◌, ◌++◌, ◌∷◌, [], ℕ, List, Option, Some, OnOk, IfErr, MatchResult, map as each};
ghost use Rattle.std.specs.List.{AllByRecursion};
ghost use Rattle.bfs_super.specs.Conditions.{IsValid};
ghost use Rattle.bfs_super.specs.Geometry.{geometry_of};
ghost use Rattle.bfs_bitmap.specs.Runs.{Room};
ghost use Rattle.bfs_txn.specs.Faults.{AreLater};
ghost use Rattle.bfs_tree.specs.declared.call.Call.TheVariants as calls;
ghost use Rattle.bfs_tree.specs.States.{State};
ghost use Rattle.bfs_tree.specs.Steps.{Reads};
ghost use Rattle.bfs_tree.specs.Trees.{Tree};
ghost use Rattle.bfs_maps.specs.Refused.{IsUndone, HasReadCause};
ghost use Rattle.bfs_shift.specs.Lists.{Lists};
ghost use Rattle.bfs_look.specs.Ready.{IsReady, HasReady};
ghost use Rattle.bfs_query.specs.Indices.{index_row, IsIndexRowOf};

use crate::kind::index_of;
use bfs_attr::{InodeRow, named_inodes};
use bfs_bitmap::Bitmap;
use bfs_make::Site;
use bfs_node::{KeyKind, TreeFault};
use bfs_stream_pages::MapFault;
use bfs_super::Super;
use bfs_tree::{Bytes, IndexRow, Indices, Reply};
use bfs_txn::{Blocks, Edits};
use std::alloc::{AllocError, Global};

/// Adds the row of an index.
fn add(
    alloc: Global,
    rows: &mut Vec<IndexRow>,
    kind: KeyKind,
    name: &[u8],
) -> Result<(), AllocError>
    ensures { OnOk result (rows.new.items ≡ rows.old.items ++ record { kind = kind; name = name.now } ∷ []) }
{
    let name = Bytes::from_slice(alloc, name)?;
    rows.push(IndexRow { kind, name })?;
    Ok(())
}

/// Adds the row of the index that a row of the index directory names.
fn push_row<B: Blocks>(
    site: Site,
    under: &mut B,
    row: &InodeRow,
    rows: &mut Vec<IndexRow>,
) -> Result<(), MapFault>
    requires valid { IsValid site.sup }
    requires size { B.size under.old ≡ site.sup.block_size }
    ensures row { (v : Room) (m : ℕ → Option (List ℕ)) (tree : Tree) (lists : Lists) → B.told under.old ≡ Some m → IsReady (geometry_of site.sup) v m tree lists → IsIndexRowOf lists row.now → MatchResult result (λ u. rows.new.items ≡ rows.old.items ++ index_row lists row.now ∷ []) IsUndone }
    ensures told { B.told under.new ≡ B.told under.old }
    ensures changed { B.changed under.new ≡ B.changed under.old }
    ensures pairs { B.pairs under.new ≡ B.pairs under.old }
    ensures size { B.size under.new ≡ B.size under.old }
    ensures frame { B.frame under.new ≡ B.frame under.old }
    ensures later { AreLater (B.counts under.old) (B.counts under.new) }
    ensures cause { IfErr result (HasReadCause (B.counts under.old) (B.counts under.new)) }
{
    let at = match index_of(site, under, row.id) {
        Ok(at) => at,
        Err(fault) => return Err(fault),
    };
    match add(site.alloc, rows, at.kind, row.name.as_slice()) {
        Ok(()) => Ok(()),
        Err(_) => Err(TreeFault::NoMemory),
    }
}

/// The rows of the indices that rows of the index directory name.
fn rows_of<B: Blocks>(
    site: Site,
    under: &mut B,
    named: &[InodeRow],
) -> Result<Vec<IndexRow>, MapFault>
    requires valid { IsValid site.sup }
    requires size { B.size under.old ≡ site.sup.block_size }
    ensures rows { (v : Room) (m : ℕ → Option (List ℕ)) (tree : Tree) (lists : Lists) → B.told under.old ≡ Some m → IsReady (geometry_of site.sup) v m tree lists → AllByRecursion (IsIndexRowOf lists) named.now → MatchResult result (λ rows. rows.items ≡ each (index_row lists) named.now) IsUndone }
    ensures told { B.told under.new ≡ B.told under.old }
    ensures changed { B.changed under.new ≡ B.changed under.old }
    ensures pairs { B.pairs under.new ≡ B.pairs under.old }
    ensures size { B.size under.new ≡ B.size under.old }
    ensures frame { B.frame under.new ≡ B.frame under.old }
    ensures later { AreLater (B.counts under.old) (B.counts under.new) }
    ensures cause { IfErr result (HasReadCause (B.counts under.old) (B.counts under.new)) }
{
    let mut rows = Vec::new(site.alloc);
    for row in named {
        match push_row(site, under, row, &mut rows) {
            Ok(()) => {}
            Err(fault) => return Err(fault),
        }
    }
    Ok(rows)
}

/// Answers which indices there are: the kind and the name of each, in byte order of the names.
pub fn index_list<E: Edits>(
    alloc: Global,
    sup: &Super,
    bitmap: &mut Bitmap,
    edits: &mut E,
) -> Result<Reply, MapFault>
    requires valid { IsValid sup.now }
    requires size { E.size edits.old ≡ sup.now.block_size }
    requires ready { (m : ℕ → Option (List ℕ)) → E.told edits.old ≡ Some m → HasReady (geometry_of sup.now) bitmap.old m }
    ensures reads { (m : ℕ → Option (List ℕ)) (tree : Tree) (lists : Lists) (s : State) → E.told edits.old ≡ Some m → IsReady (geometry_of sup.now) bitmap.old m tree lists → s.tree ≡ tree → MatchResult result (Reads calls.IndexList s) IsUndone }
    ensures bitmap { bitmap.new ≡ bitmap.old }
    ensures told { E.told edits.new ≡ E.told edits.old }
    ensures changed { E.changed edits.new ≡ E.changed edits.old }
    ensures pairs { E.pairs edits.new ≡ E.pairs edits.old }
    ensures size { E.size edits.new ≡ E.size edits.old }
    ensures frame { E.frame edits.new ≡ E.frame edits.old }
    ensures later { AreLater (E.counts edits.old) (E.counts edits.new) }
    ensures cause { IfErr result (HasReadCause (E.counts edits.old) (E.counts edits.new)) }
{
    let _ = bitmap;
    let site = Site { alloc, sup: *sup };
    let directory = sup.block_of(sup.indices);
    if directory == 0 {
        return Ok(Reply::Indices {
            rows: Indices::new(Vec::new(alloc)),
        });
    }
    let named = match named_inodes(site, edits, directory, None, None) {
        Ok(named) => named,
        Err(fault) => return Err(fault),
    };
    match rows_of(site, edits, &named) {
        Ok(rows) => Ok(Reply::Indices {
            rows: Indices::new(rows),
        }),
        Err(fault) => Err(fault),
    }
}
