// The target of a link.
ghost use Rattle.std.specs.Prelude.{◌≡◌, ◌≤◌, ◌<◌, ℕ, List, length, Option, Some, false, IfOk, IfErr, MatchResult};
ghost use Rattle.bfs_inode.specs.Inode.{stream_at};
ghost use Rattle.bfs_super.specs.Conditions.{IsValid, natural};
ghost use Rattle.bfs_super.specs.Geometry.{geometry_of};
ghost use Rattle.bfs_bitmap.specs.Runs.{Room};
ghost use Rattle.bfs_stream.specs.Told.{contents};
ghost use Rattle.bfs_txn.specs.Faults.{AreLater};
ghost use Rattle.bfs_tree.specs.declared.call.Call.TheVariants.{ReadLink};
ghost use Rattle.bfs_tree.specs.declared.call.Kind.TheVariants.{Link};
ghost use Rattle.bfs_tree.specs.States.{State};
ghost use Rattle.bfs_tree.specs.Steps.{Reads};
ghost use Rattle.bfs_tree.specs.Trees.{Tree, Node, IsNode};
ghost use Rattle.bfs_make.specs.Refused.{IsUndone, HasReadCause};
ghost use Rattle.bfs_shift.specs.Lists.{Lists};
ghost use Rattle.bfs_look.specs.Infos.{is_short_in, short_target};
ghost use Rattle.bfs_look.specs.Ready.{IsReady, HasReady};

use crate::block::{Site, read_block};
use crate::info::{is_short_in, short_target, size_in};
use crate::node::node_at;
use bfs_bitmap::Bitmap;
use bfs_make::stream_bytes;
use bfs_node::TreeFault;
use bfs_stream::GrowFault;
use bfs_stream_pages::MapFault;
use bfs_super::Super;
use bfs_tree::{Bytes, Reply};
use bfs_txn::{Blocks, Edits};
use std::alloc::Global;

/// The target of a short link, whose inode is in a block.
fn target_in(alloc: Global, block: &[u8]) -> Result<Bytes, MapFault>
    requires { 1024 ≤ length block.now }
    ensures target { IfOk result (λ target. target ≡ short_target block.now) }
    ensures fault { IfErr result (λ fault. fault ≡ TreeFault.NoMemory) }
{
    match Bytes::from_slice(alloc, short_target(block)) {
        Ok(target) => Ok(target),
        Err(_) => Err(TreeFault::NoMemory),
    }
}

/// The target of a long link, by the size of its stream.
fn target_behind<B: Blocks>(
    site: Site,
    under: &mut B,
    id: u64,
    size: u64,
) -> Result<Bytes, MapFault>
    requires valid { IsValid site.sup }
    requires inside { id < natural site.sup.num_blocks }
    requires size { B.size under.old ≡ site.sup.block_size }
    ensures target { (v : Room) (m : ℕ → Option (List ℕ)) (tree : Tree) (lists : Lists) (n : Node) → B.told under.old ≡ Some m → IsReady (geometry_of site.sup) v m tree lists → IsNode tree id n → n.kind ≡ Link → is_short_in (contents m id) ≡ false → size ≡ natural (stream_at (contents m id)).size → MatchResult result (λ target. target ≡ n.target) IsUndone }
    ensures told { B.told under.new ≡ B.told under.old }
    ensures changed { B.changed under.new ≡ B.changed under.old }
    ensures pairs { B.pairs under.new ≡ B.pairs under.old }
    ensures size { B.size under.new ≡ B.size under.old }
    ensures frame { B.frame under.new ≡ B.frame under.old }
    ensures later { AreLater (B.counts under.old) (B.counts under.new) }
    ensures cause { IfErr result (HasReadCause (B.counts under.old) (B.counts under.new)) }
{
    let place = bfs_make::Site {
        alloc: site.alloc,
        sup: site.sup,
    };
    match stream_bytes(place, under, id, size) {
        Ok(bytes) => Ok(Bytes::new(bytes)),
        Err(fault) => Err(TreeFault::Pages(GrowFault::Block(fault))),
    }
}

/// The target of a link, whose inode is in a block.
fn target_by<B: Blocks>(site: Site, under: &mut B, block: &[u8], id: u64) -> Result<Bytes, MapFault>
    requires valid { IsValid site.sup }
    requires inside { id < natural site.sup.num_blocks }
    requires size { B.size under.old ≡ site.sup.block_size }
    requires long { 1024 ≤ length block.now }
    ensures target { (v : Room) (m : ℕ → Option (List ℕ)) (tree : Tree) (lists : Lists) (n : Node) → B.told under.old ≡ Some m → block.now ≡ contents m id → IsReady (geometry_of site.sup) v m tree lists → IsNode tree id n → n.kind ≡ Link → MatchResult result (λ target. target ≡ n.target) IsUndone }
    ensures told { B.told under.new ≡ B.told under.old }
    ensures changed { B.changed under.new ≡ B.changed under.old }
    ensures pairs { B.pairs under.new ≡ B.pairs under.old }
    ensures size { B.size under.new ≡ B.size under.old }
    ensures frame { B.frame under.new ≡ B.frame under.old }
    ensures later { AreLater (B.counts under.old) (B.counts under.new) }
    ensures cause { IfErr result (HasReadCause (B.counts under.old) (B.counts under.new)) }
{
    if is_short_in(block) {
        return match target_in(site.alloc, block) {
            Ok(target) => Ok(target),
            Err(fault) => Err(fault),
        };
    }
    let size = size_in(block);
    match target_behind(site, under, id, size) {
        Ok(target) => Ok(target),
        Err(fault) => Err(fault),
    }
}

/// The target of a link.
fn target_at<B: Blocks>(site: Site, under: &mut B, id: u64) -> Result<Bytes, MapFault>
    requires valid { IsValid site.sup }
    requires inside { id < natural site.sup.num_blocks }
    requires size { B.size under.old ≡ site.sup.block_size }
    ensures target { (v : Room) (m : ℕ → Option (List ℕ)) (tree : Tree) (lists : Lists) (n : Node) → B.told under.old ≡ Some m → IsReady (geometry_of site.sup) v m tree lists → IsNode tree id n → n.kind ≡ Link → MatchResult result (λ target. target ≡ n.target) IsUndone }
    ensures told { B.told under.new ≡ B.told under.old }
    ensures changed { B.changed under.new ≡ B.changed under.old }
    ensures pairs { B.pairs under.new ≡ B.pairs under.old }
    ensures size { B.size under.new ≡ B.size under.old }
    ensures frame { B.frame under.new ≡ B.frame under.old }
    ensures later { AreLater (B.counts under.old) (B.counts under.new) }
    ensures cause { IfErr result (HasReadCause (B.counts under.old) (B.counts under.new)) }
{
    let block = match read_block(site, under, id) {
        Ok(block) => block,
        Err(fault) => return Err(fault),
    };
    match target_by(site, under, &block, id) {
        Ok(target) => Ok(target),
        Err(fault) => Err(fault),
    }
}

/// Answers the target of a link: a short one stands in the link's inode, and a long one in its stream.
pub fn read_link<E: Edits>(
    alloc: Global,
    sup: &Super,
    bitmap: &mut Bitmap,
    edits: &mut E,
    id: u64,
) -> Result<Reply, MapFault>
    requires valid { IsValid sup.now }
    requires size { E.size edits.old ≡ sup.now.block_size }
    requires ready { (m : ℕ → Option (List ℕ)) → E.told edits.old ≡ Some m → HasReady (geometry_of sup.now) bitmap.old m }
    ensures reads { (m : ℕ → Option (List ℕ)) (tree : Tree) (lists : Lists) (s : State) → E.told edits.old ≡ Some m → IsReady (geometry_of sup.now) bitmap.old m tree lists → s.tree ≡ tree → MatchResult result (Reads (ReadLink id) s) IsUndone }
    ensures bitmap { bitmap.new ≡ bitmap.old }
    ensures told { E.told edits.new ≡ E.told edits.old }
    ensures changed { E.changed edits.new ≡ E.changed edits.old }
    ensures pairs { E.pairs edits.new ≡ E.pairs edits.old }
    ensures size { E.size edits.new ≡ E.size edits.old }
    ensures frame { E.frame edits.new ≡ E.frame edits.old }
    ensures later { AreLater (E.counts edits.old) (E.counts edits.new) }
    ensures cause { IfErr result (HasReadCause (E.counts edits.old) (E.counts edits.new)) }
{
    let there = match node_at(alloc, sup, bitmap, edits, id) {
        Ok(there) => there,
        Err(fault) => return Err(fault),
    };
    let kind = match there {
        Some(kind) => kind,
        None => return Ok(Reply::NotFound),
    };
    if !kind.is_link() {
        return Ok(Reply::NotLink);
    }
    let site = Site { alloc, sup: *sup };
    match target_at(site, edits, id) {
        Ok(bytes) => Ok(Reply::Target { bytes }),
        Err(fault) => Err(fault),
    }
}
