// What a node's record says.
ghost use Rattle.std.specs.Prelude.{◌≡◌, ◌≤◌, ◌==◌, ℕ, List, [], length, take, drop, position, Option, Some, IfErr, MatchResult};
ghost use Rattle.std.specs.List.{before_first};
ghost use Rattle.bfs_inode.specs.Inode.{stream_at};
ghost use Rattle.bfs_super.specs.Conditions.{IsValid, natural};
ghost use Rattle.bfs_super.specs.Geometry.{geometry_of};
ghost use Rattle.bfs_bitmap.specs.Runs.{Room};
ghost use Rattle.bfs_stream.specs.Told.{contents};
ghost use Rattle.bfs_txn.specs.Faults.{AreLater, Counts};
ghost use Rattle.bfs_txn.specs.Told.{AreSized};
ghost use Rattle.bfs_tree.specs.Answers.{info_of};
ghost use Rattle.bfs_tree.specs.declared.call.Call.TheVariants as calls;
ghost use Rattle.bfs_tree.specs.States.{State};
ghost use Rattle.bfs_tree.specs.Steps.{Reads};
ghost use Rattle.bfs_tree.specs.Trees.{Tree, Node, IsNode};
ghost use Rattle.bfs_make.specs.Refused.{IsUndone, HasReadCause};
ghost use Rattle.bfs_shift.specs.Lists.{Lists};
ghost use Rattle.bfs_look.specs.Infos.{is_short_in, short_target, content_size, info_in};
ghost use Rattle.bfs_look.specs.Ready.{IsReady, HasReady};

use crate::block::{Site, damaged, natural_long, read_block};
use crate::claim::{Claimed, claim_in};
use crate::node::node_at;
use crate::way::root_of;
use bfs_bitmap::Bitmap;
use bfs_bytes::u32_at;
use bfs_inode::InodeView;
use bfs_node::TreeFault;
use bfs_stream_pages::MapFault;
use bfs_super::Super;
use bfs_tree::{Bytes, Info, Kind, Reply};
use bfs_txn::{Blocks, Edits};
use std::alloc::Global;

/// The place of the first zero byte.
fn zero_at(bytes: &[u8]) -> Option<usize>
    ensures { result ≡ position (λ b. b == 0) bytes.now }
{
    bytes.iter().position(|b| *b == 0)
}

/// The bytes before the first zero.
#[tactic(auto, using(crate::proofs::Blocks::cut_at, crate::proofs::Blocks::not_cut))]
fn before_zero(bytes: &[u8]) -> &[u8]
    ensures { result.now ≡ before_first (λ b. b == 0) bytes.now }
{
    match zero_at(bytes) {
        Some(end) => &bytes[..end],
        None => bytes,
    }
}

/// Is a link whose inode is in a block a short one, whose target stands there?
pub(crate) fn is_short_in(block: &[u8]) -> bool
    requires { 1024 ≤ length block.now }
    ensures { result ≡ is_short_in block.now }
{
    u32_at(block, 24) / 64 % 2 == 0
}

/// The target of a short link, whose inode is in a block.
pub(crate) fn short_target(block: &[u8]) -> &[u8]
    requires { 1024 ≤ length block.now }
    ensures { result.now ≡ short_target block.now }
{
    before_zero(&block[72..216])
}

/// The size of the stream whose inode is in a block.
pub(crate) fn size_in(block: &[u8]) -> u64
    requires { 1024 ≤ length block.now }
    ensures { result ≡ natural (stream_at block.now).size }
{
    natural_long(InodeView::over(block).size())
}

/// The length of the target of a link whose inode is in a block.
fn target_size(block: &[u8]) -> u64
    requires { 1024 ≤ length block.now }
    ensures { result ≡ content_size block.now Kind.Link }
{
    if is_short_in(block) {
        short_target(block).len() as u64
    } else {
        size_in(block)
    }
}

/// The size of a node whose inode is in a block.
fn content_size(block: &[u8], kind: Kind) -> u64
    requires { 1024 ≤ length block.now }
    ensures { result ≡ content_size block.now kind }
{
    match kind {
        Kind::File => size_in(block),
        Kind::Dir => 0,
        Kind::Link => target_size(block),
    }
}

/// What the inode in a block says of a node of this kind, name and parent.
fn info_in(block: &[u8], kind: Kind, name: Bytes, parent: u64) -> Info
    requires { 1024 ≤ length block.now }
    ensures { result ≡ info_in block.now kind name parent }
{
    let inode = InodeView::over(block);
    Info {
        kind,
        name,
        parent,
        mode: u32_at(block, 20) % 4096,
        uid: inode.uid(),
        gid: inode.gid(),
        created: inode.create_time(),
        modified: inode.last_modified_time(),
        changed: inode.status_change_time(),
        size: content_size(block, kind),
    }
}

/// No name, as the root has none.
fn no_name(alloc: Global) -> Bytes
    ensures { result ≡ [] }
{
    Bytes::new(Vec::new(alloc))
}

/// What the record of a node says, whose inode is in a block.
fn described(site: Site, block: &[u8], id: u64) -> Result<Info, MapFault>
    requires valid { IsValid site.sup }
    requires long { length block.now ≡ site.sup.block_size }
    requires least { 1024 ≤ site.sup.block_size }
    ensures info { (v : Room) (m : ℕ → Option (List ℕ)) (tree : Tree) (lists : Lists) (n : Node) → AreSized site.sup.block_size (Some m) → block.now ≡ contents m id → IsReady (geometry_of site.sup) v m tree lists → IsNode tree id n → MatchResult result (λ info. info ≡ info_of n) IsUndone }
    ensures cause { (old new : Counts) → IfErr result (HasReadCause old new) }
{
    if id == root_of(site.sup) {
        return Ok(info_in(block, Kind::Dir, no_name(site.alloc), id));
    }
    match claim_in(site, block, id) {
        Claimed::Says(claim) => Ok(info_in(block, claim.kind, claim.name, claim.parent)),
        Claimed::Nothing => Err(damaged(id)),
        Claimed::NoMemory => Err(TreeFault::NoMemory),
    }
}

/// What the record says of the node at this block, which is one of the tree. Of a volume only that block is read.
pub fn info_at<B: Blocks>(site: Site, under: &mut B, id: u64) -> Result<Info, MapFault>
    requires valid { IsValid site.sup }
    requires size { B.size under.old ≡ site.sup.block_size }
    ensures info { (v : Room) (m : ℕ → Option (List ℕ)) (tree : Tree) (lists : Lists) (n : Node) → B.told under.old ≡ Some m → IsReady (geometry_of site.sup) v m tree lists → IsNode tree id n → MatchResult result (λ info. info ≡ info_of n) IsUndone }
    ensures rests { (v : Room) (m w : ℕ → Option (List ℕ)) (tree : Tree) (lists : Lists) (n : Node) → B.told under.old ≡ Some m → AreSized site.sup.block_size (Some w) → m id ≡ w id → IsReady (geometry_of site.sup) v w tree lists → IsNode tree id n → MatchResult result (λ info. info ≡ info_of n) IsUndone }
    ensures told { B.told under.new ≡ B.told under.old }
    ensures changed { B.changed under.new ≡ B.changed under.old }
    ensures pairs { B.pairs under.new ≡ B.pairs under.old }
    ensures size { B.size under.new ≡ B.size under.old }
    ensures frame { B.frame under.new ≡ B.frame under.old }
    ensures later { AreLater (B.counts under.old) (B.counts under.new) }
    ensures cause { IfErr result (HasReadCause (B.counts under.old) (B.counts under.new)) }
{
    let block = match read_block(site, under, id) {
        Ok(block) => block,
        Err(fault) => return Err(fault),
    };
    match described(site, &block, id) {
        Ok(info) => Ok(info),
        Err(fault) => Err(fault),
    }
}

/// Answers what a node's record says.
pub fn stat<E: Edits>(
    alloc: Global,
    sup: &Super,
    bitmap: &mut Bitmap,
    edits: &mut E,
    id: u64,
) -> Result<Reply, MapFault>
    requires valid { IsValid sup.now }
    requires size { E.size edits.old ≡ sup.now.block_size }
    requires ready { (m : ℕ → Option (List ℕ)) → E.told edits.old ≡ Some m → HasReady (geometry_of sup.now) bitmap.old m }
    ensures reads { (m : ℕ → Option (List ℕ)) (tree : Tree) (lists : Lists) (s : State) → E.told edits.old ≡ Some m → IsReady (geometry_of sup.now) bitmap.old m tree lists → s.tree ≡ tree → MatchResult result (Reads (calls.Stat id) s) IsUndone }
    ensures bitmap { bitmap.new ≡ bitmap.old }
    ensures told { E.told edits.new ≡ E.told edits.old }
    ensures changed { E.changed edits.new ≡ E.changed edits.old }
    ensures pairs { E.pairs edits.new ≡ E.pairs edits.old }
    ensures size { E.size edits.new ≡ E.size edits.old }
    ensures frame { E.frame edits.new ≡ E.frame edits.old }
    ensures later { AreLater (E.counts edits.old) (E.counts edits.new) }
    ensures cause { IfErr result (HasReadCause (E.counts edits.old) (E.counts edits.new)) }
{
    let there = match node_at(alloc, sup, bitmap, edits, id) {
        Ok(there) => there,
        Err(fault) => return Err(fault),
    };
    match there {
        Some(_) => {}
        None => return Ok(Reply::NotFound),
    };
    let site = Site { alloc, sup: *sup };
    match info_at(site, edits, id) {
        Ok(info) => Ok(Reply::Info { info }),
        Err(fault) => Err(fault),
    }
}
