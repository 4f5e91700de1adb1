// Which node has an id.
ghost use Rattle.std.specs.Prelude.{◌≡◌, ◌<◌, ◌↔◌, ℕ, List, Option, Some, IsTrue, IfOk, IfErr, IfSome, MatchResult};
ghost use Rattle.bfs_super.specs.Conditions.{IsValid, natural};
ghost use Rattle.bfs_super.specs.Geometry.{geometry_of};
ghost use Rattle.bfs_txn.specs.Faults.{AreLater};
ghost use Rattle.bfs_tree.specs.Trees.{Tree};
ghost use Rattle.bfs_make.specs.Refused.{IsUndone, HasReadCause};
ghost use Rattle.bfs_shift.specs.Lists.{Lists};
ghost use Rattle.bfs_look.specs.Ready.{IsReady, HasReady, HasNodeAt, IsKindOf};

use crate::block::{Site, blocks_in};
use crate::way::{kind_at, way_down, way_up};
use bfs_bitmap::Bitmap;
use bfs_stream_pages::MapFault;
use bfs_super::Super;
use bfs_tree::Kind;
use bfs_txn::Edits;
use std::alloc::Global;

/// Does the way lead to this id?
fn leads_to(found: Option<u64>, id: u64) -> bool
    ensures { IsTrue result ↔ (found ≡ Some id) }
{
    match found {
        Some(at) => at == id,
        None => false,
    }
}

/// Is the id that of a node? It is where its inode and those above it name the way to the root, and the rows of that way lead back.
fn is_node<E: Edits>(
    site: Site,
    bitmap: &mut Bitmap,
    edits: &mut E,
    id: u64,
) -> Result<bool, MapFault>
    requires valid { IsValid site.sup }
    requires size { E.size edits.old ≡ site.sup.block_size }
    requires ready { (m : ℕ → Option (List ℕ)) → E.told edits.old ≡ Some m → HasReady (geometry_of site.sup) bitmap.old m }
    ensures found { (m : ℕ → Option (List ℕ)) (tree : Tree) (lists : Lists) → E.told edits.old ≡ Some m → IsReady (geometry_of site.sup) bitmap.old m tree lists → MatchResult result (λ there. IsTrue there ↔ HasNodeAt tree id) IsUndone }
    ensures bitmap { bitmap.new ≡ bitmap.old }
    ensures told { E.told edits.new ≡ E.told edits.old }
    ensures changed { E.changed edits.new ≡ E.changed edits.old }
    ensures pairs { E.pairs edits.new ≡ E.pairs edits.old }
    ensures size { E.size edits.new ≡ E.size edits.old }
    ensures frame { E.frame edits.new ≡ E.frame edits.old }
    ensures later { AreLater (E.counts edits.old) (E.counts edits.new) }
    ensures cause { IfErr result (HasReadCause (E.counts edits.old) (E.counts edits.new)) }
{
    let mut names = Vec::new(site.alloc);
    let up = match way_up(site, edits, id, &mut names) {
        Ok(up) => up,
        Err(fault) => return Err(fault),
    };
    if !up {
        return Ok(false);
    }
    match way_down(site, bitmap, edits, &names) {
        Ok(found) => Ok(leads_to(found, id)),
        Err(fault) => Err(fault),
    }
}

/// The kind of the node that has an id, or None where the id is no node's. Any number may be asked for, whatever stands in its
/// block. The inodes from there up to the root are read, and of each directory on the way down the blocks that lead to one row.
pub fn node_at<E: Edits>(
    alloc: Global,
    sup: &Super,
    bitmap: &mut Bitmap,
    edits: &mut E,
    id: u64,
) -> Result<Option<Kind>, MapFault>
    requires valid { IsValid sup.now }
    requires size { E.size edits.old ≡ sup.now.block_size }
    requires ready { (m : ℕ → Option (List ℕ)) → E.told edits.old ≡ Some m → HasReady (geometry_of sup.now) bitmap.old m }
    ensures found { (m : ℕ → Option (List ℕ)) (tree : Tree) (lists : Lists) → E.told edits.old ≡ Some m → IsReady (geometry_of sup.now) bitmap.old m tree lists → MatchResult result (IsKindOf tree id) IsUndone }
    ensures inside { IfOk result (λ o. IfSome o (λ kind. id < natural sup.now.num_blocks)) }
    ensures bitmap { bitmap.new ≡ bitmap.old }
    ensures told { E.told edits.new ≡ E.told edits.old }
    ensures changed { E.changed edits.new ≡ E.changed edits.old }
    ensures pairs { E.pairs edits.new ≡ E.pairs edits.old }
    ensures size { E.size edits.new ≡ E.size edits.old }
    ensures frame { E.frame edits.new ≡ E.frame edits.old }
    ensures later { AreLater (E.counts edits.old) (E.counts edits.new) }
    ensures cause { IfErr result (HasReadCause (E.counts edits.old) (E.counts edits.new)) }
{
    let site = Site { alloc, sup: *sup };
    if id >= blocks_in(site.sup) {
        return Ok(None);
    }
    let there = match is_node(site, bitmap, edits, id) {
        Ok(there) => there,
        Err(fault) => return Err(fault),
    };
    if !there {
        return Ok(None);
    }
    match kind_at(site, edits, id) {
        Ok(kind) => Ok(Some(kind)),
        Err(fault) => Err(fault),
    }
}
