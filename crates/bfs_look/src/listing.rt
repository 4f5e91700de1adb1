// The names in a directory.
ghost use Rattle.std.specs.Prelude.{◌≡◌, ◌<◌, ◌++◌, ◌∷◌, [], ℕ, List, Option, Some, true, OnOk, IfOk, IfErr, MatchResult};
ghost use Rattle.std.specs.List.{flat_map};
ghost use Rattle.bfs_super.specs.Conditions.{IsValid, natural};
ghost use Rattle.bfs_super.specs.Geometry.{geometry_of};
ghost use Rattle.bfs_txn.specs.Faults.{AreLater};
ghost use Rattle.bfs_tree.specs.declared.call.Call.TheVariants as calls;
ghost use Rattle.bfs_tree.specs.States.{State};
ghost use Rattle.bfs_tree.specs.Steps.{Reads};
ghost use Rattle.bfs_tree.specs.Trees.{Tree, Node, IsNode, is_dir};
ghost use Rattle.bfs_make.specs.Refused.{IsUndone, HasReadCause};
ghost use Rattle.bfs_sound.specs.Inodes.{is_proper};
ghost use Rattle.bfs_shift.specs.Lists.{Lists};
ghost use Rattle.bfs_shift.specs.Work.{HasDirectoryAt};
ghost use Rattle.bfs_look.specs.Names.{proper_name};
ghost use Rattle.bfs_look.specs.Ready.{IsReady, HasReady};

use crate::block::Site;
use crate::node::node_at;
use crate::rows::rows_of;
use bfs_bitmap::Bitmap;
use bfs_dir::{DirRow, DirRows};
use bfs_node::TreeFault;
use bfs_stream_pages::MapFault;
use bfs_super::Super;
use bfs_tree::{Bytes, Names, Reply};
use bfs_txn::Edits;
use std::alloc::{AllocError, Global};

/// Is it a name but `.` and `..`?
pub(crate) fn is_proper_name(name: &[u8]) -> bool
    ensures { result ≡ is_proper name.now }
{
    !(name == b".".as_slice() || name == b"..".as_slice())
}

/// Is the name of a row one but `.` and `..`?
fn is_proper_row(row: &DirRow) -> bool
    ensures { result ≡ is_proper row.now.name }
{
    is_proper_name(row.name.as_slice())
}

/// Adds the name of a row.
fn push_copy(alloc: Global, names: &mut Vec<Bytes>, row: &DirRow) -> Result<(), AllocError>
    ensures { OnOk result (names.new.items ≡ names.old.items ++ row.now.name ∷ []) }
{
    let name = Bytes::from_slice(alloc, row.name.as_slice())?;
    names.push(name)?;
    Ok(())
}

/// Adds the name of a row, unless it is `.` or `..`.
fn push_name(alloc: Global, names: &mut Vec<Bytes>, row: &DirRow) -> Result<(), AllocError>
    ensures { OnOk result (names.new.items ≡ names.old.items ++ proper_name row.now) }
{
    if !is_proper_row(row) {
        return Ok(());
    }
    match push_copy(alloc, names, row) {
        Ok(()) => Ok(()),
        Err(fault) => Err(fault),
    }
}

/// The names of rows but `.` and `..`.
fn names_of(alloc: Global, rows: &DirRows) -> Result<Vec<Bytes>, AllocError>
    ensures { IfOk result (λ names. names.items ≡ flat_map proper_name rows.now) }
{
    let mut names = Vec::new(alloc);
    for row in rows.as_slice() {
        push_name(alloc, &mut names, row)?;
    }
    Ok(names)
}

/// The answer to a listing of a directory of the tree.
fn names_at<E: Edits>(
    site: Site,
    bitmap: &mut Bitmap,
    edits: &mut E,
    dir: u64,
) -> Result<Reply, MapFault>
    requires valid { IsValid site.sup }
    requires inside { dir < natural site.sup.num_blocks }
    requires size { E.size edits.old ≡ site.sup.block_size }
    requires directory { (m : ℕ → Option (List ℕ)) → E.told edits.old ≡ Some m → HasDirectoryAt (geometry_of site.sup) bitmap.old m dir }
    ensures reads { (m : ℕ → Option (List ℕ)) (tree : Tree) (lists : Lists) (s : State) (d : Node) → E.told edits.old ≡ Some m → IsReady (geometry_of site.sup) bitmap.old m tree lists → s.tree ≡ tree → IsNode tree dir d → is_dir d.kind ≡ true → MatchResult result (Reads (calls.List dir) s) IsUndone }
    ensures bitmap { bitmap.new ≡ bitmap.old }
    ensures told { E.told edits.new ≡ E.told edits.old }
    ensures changed { E.changed edits.new ≡ E.changed edits.old }
    ensures pairs { E.pairs edits.new ≡ E.pairs edits.old }
    ensures size { E.size edits.new ≡ E.size edits.old }
    ensures frame { E.frame edits.new ≡ E.frame edits.old }
    ensures later { AreLater (E.counts edits.old) (E.counts edits.new) }
    ensures cause { IfErr result (HasReadCause (E.counts edits.old) (E.counts edits.new)) }
{
    let rows = match rows_of(site, bitmap, edits, dir) {
        Ok(rows) => rows,
        Err(fault) => return Err(fault),
    };
    match names_of(site.alloc, &rows) {
        Ok(names) => Ok(Reply::Names {
            names: Names::new(names),
        }),
        Err(_) => Err(TreeFault::NoMemory),
    }
}

/// Answers which names are in a directory, in byte order.
pub fn list<E: Edits>(
    alloc: Global,
    sup: &Super,
    bitmap: &mut Bitmap,
    edits: &mut E,
    dir: u64,
) -> Result<Reply, MapFault>
    requires valid { IsValid sup.now }
    requires size { E.size edits.old ≡ sup.now.block_size }
    requires ready { (m : ℕ → Option (List ℕ)) → E.told edits.old ≡ Some m → HasReady (geometry_of sup.now) bitmap.old m }
    ensures reads { (m : ℕ → Option (List ℕ)) (tree : Tree) (lists : Lists) (s : State) → E.told edits.old ≡ Some m → IsReady (geometry_of sup.now) bitmap.old m tree lists → s.tree ≡ tree → MatchResult result (Reads (calls.List dir) s) IsUndone }
    ensures bitmap { bitmap.new ≡ bitmap.old }
    ensures told { E.told edits.new ≡ E.told edits.old }
    ensures changed { E.changed edits.new ≡ E.changed edits.old }
    ensures pairs { E.pairs edits.new ≡ E.pairs edits.old }
    ensures size { E.size edits.new ≡ E.size edits.old }
    ensures frame { E.frame edits.new ≡ E.frame edits.old }
    ensures later { AreLater (E.counts edits.old) (E.counts edits.new) }
    ensures cause { IfErr result (HasReadCause (E.counts edits.old) (E.counts edits.new)) }
{
    let there = match node_at(alloc, sup, bitmap, edits, dir) {
        Ok(there) => there,
        Err(fault) => return Err(fault),
    };
    let kind = match there {
        Some(kind) => kind,
        None => return Ok(Reply::NotFound),
    };
    if !kind.is_dir() {
        return Ok(Reply::NotDir);
    }
    let site = Site { alloc, sup: *sup };
    match names_at(site, bitmap, edits, dir) {
        Ok(reply) => Ok(reply),
        Err(fault) => Err(fault),
    }
}
