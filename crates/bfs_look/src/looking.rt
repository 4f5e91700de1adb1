// The node of a name in a directory.
ghost use Rattle.std.specs.Prelude.{◌≡◌, ◌<◌, ℕ, List, Option, Some, true, IfErr, MatchResult};
ghost use Rattle.bfs_super.specs.Conditions.{IsValid, natural};
ghost use Rattle.bfs_super.specs.Geometry.{geometry_of};
ghost use Rattle.bfs_txn.specs.Faults.{AreLater};
ghost use Rattle.bfs_tree.specs.declared.call.Call.TheVariants.{Lookup};
ghost use Rattle.bfs_tree.specs.States.{State};
ghost use Rattle.bfs_tree.specs.Steps.{Reads};
ghost use Rattle.bfs_tree.specs.Trees.{Tree, Node, IsNode, is_dir};
ghost use Rattle.bfs_make.specs.Refused.{IsUndone, HasReadCause};
ghost use Rattle.bfs_shift.specs.Lists.{Lists};
ghost use Rattle.bfs_shift.specs.Work.{HasDirectoryAt};
ghost use Rattle.bfs_look.specs.Ready.{IsReady, HasReady};

use crate::block::Site;
use crate::node::node_at;
use crate::rows::row_of;
use crate::way::kind_at;
use bfs_bitmap::Bitmap;
use bfs_stream_pages::MapFault;
use bfs_super::Super;
use bfs_tree::{Reply, is_bad_name};
use bfs_txn::Edits;
use std::alloc::Global;

/// The answer to a look-up of a name in a directory of the tree.
fn child_of<E: Edits>(
    site: Site,
    bitmap: &mut Bitmap,
    edits: &mut E,
    dir: u64,
    name: &[u8],
) -> Result<Reply, MapFault>
    requires valid { IsValid site.sup }
    requires inside { dir < natural site.sup.num_blocks }
    requires size { E.size edits.old ≡ site.sup.block_size }
    requires directory { (m : ℕ → Option (List ℕ)) → E.told edits.old ≡ Some m → HasDirectoryAt (geometry_of site.sup) bitmap.old m dir }
    ensures reads { (m : ℕ → Option (List ℕ)) (tree : Tree) (lists : Lists) (s : State) (d : Node) → E.told edits.old ≡ Some m → IsReady (geometry_of site.sup) bitmap.old m tree lists → s.tree ≡ tree → IsNode tree dir d → is_dir d.kind ≡ true → MatchResult result (Reads (Lookup dir name.now) s) IsUndone }
    ensures bitmap { bitmap.new ≡ bitmap.old }
    ensures told { E.told edits.new ≡ E.told edits.old }
    ensures changed { E.changed edits.new ≡ E.changed edits.old }
    ensures pairs { E.pairs edits.new ≡ E.pairs edits.old }
    ensures size { E.size edits.new ≡ E.size edits.old }
    ensures frame { E.frame edits.new ≡ E.frame edits.old }
    ensures later { AreLater (E.counts edits.old) (E.counts edits.new) }
    ensures cause { IfErr result (HasReadCause (E.counts edits.old) (E.counts edits.new)) }
{
    if is_bad_name(name) {
        return Ok(Reply::NotFound);
    }
    let found = match row_of(site, bitmap, edits, dir, name) {
        Ok(found) => found,
        Err(fault) => return Err(fault),
    };
    let id = match found {
        Some(id) => id,
        None => return Ok(Reply::NotFound),
    };
    match kind_at(site, edits, id) {
        Ok(kind) => Ok(Reply::Found { id, kind }),
        Err(fault) => Err(fault),
    }
}

/// Answers which node has a name in a directory.
pub fn lookup<E: Edits>(
    alloc: Global,
    sup: &Super,
    bitmap: &mut Bitmap,
    edits: &mut E,
    dir: u64,
    name: &[u8],
) -> Result<Reply, MapFault>
    requires valid { IsValid sup.now }
    requires size { E.size edits.old ≡ sup.now.block_size }
    requires ready { (m : ℕ → Option (List ℕ)) → E.told edits.old ≡ Some m → HasReady (geometry_of sup.now) bitmap.old m }
    ensures reads { (m : ℕ → Option (List ℕ)) (tree : Tree) (lists : Lists) (s : State) → E.told edits.old ≡ Some m → IsReady (geometry_of sup.now) bitmap.old m tree lists → s.tree ≡ tree → MatchResult result (Reads (Lookup dir name.now) s) IsUndone }
    ensures bitmap { bitmap.new ≡ bitmap.old }
    ensures told { E.told edits.new ≡ E.told edits.old }
    ensures changed { E.changed edits.new ≡ E.changed edits.old }
    ensures pairs { E.pairs edits.new ≡ E.pairs edits.old }
    ensures size { E.size edits.new ≡ E.size edits.old }
    ensures frame { E.frame edits.new ≡ E.frame edits.old }
    ensures later { AreLater (E.counts edits.old) (E.counts edits.new) }
    ensures cause { IfErr result (HasReadCause (E.counts edits.old) (E.counts edits.new)) }
{
    let there = match node_at(alloc, sup, bitmap, edits, dir) {
        Ok(there) => there,
        Err(fault) => return Err(fault),
    };
    let kind = match there {
        Some(kind) => kind,
        None => return Ok(Reply::NotFound),
    };
    if !kind.is_dir() {
        return Ok(Reply::NotDir);
    }
    let site = Site { alloc, sup: *sup };
    match child_of(site, bitmap, edits, dir, name) {
        Ok(reply) => Ok(reply),
        Err(fault) => Err(fault),
    }
}
