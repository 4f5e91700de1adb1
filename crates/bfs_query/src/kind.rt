// Indices by their names, each with the kind of its keys.
ghost use Rattle.std.specs.Prelude.{◌≡◌, ◌<◌, ◌≤◌, ℕ, List, Option, Some, length, take, true, IfOk, IfErr, IfSome, OnOk, MatchResult};
ghost use Rattle.bfs_base.specs.Keys.{IsTreeKind};
ghost use Rattle.bfs_base.specs.declared.kind.KeyKind as kinds;
ghost use Rattle.bfs_super.specs.Conditions.{IsValid, natural};
ghost use Rattle.bfs_super.specs.Geometry.{geometry_of};
ghost use Rattle.bfs_bitmap.specs.Runs.{Room};
ghost use Rattle.bfs_txn.specs.Faults.{AreLater, Counts};
ghost use Rattle.bfs_stream_pages.specs.Held.{stream_of};
ghost use Rattle.bfs_tree.specs.Trees.{Tree};
ghost use Rattle.bfs_values.specs.Reached.{IsWholeTree};
ghost use Rattle.bfs_maps.specs.Mapped.{HasReadable};
ghost use Rattle.bfs_maps.specs.Refused.{IsUndone, HasReadCause};
ghost use Rattle.bfs_make.specs.Sites.{stream_in};
ghost use Rattle.bfs_moves.specs.IndexNames.{HasReadableNames};
ghost use Rattle.bfs_sound.specs.Inodes.{is_proper};
ghost use Rattle.bfs_shift.specs.Lists.{Lists};
ghost use Rattle.bfs_look.specs.Ready.{IsReady, HasReady};
ghost use Rattle.bfs_query.specs.Indices.{IsIndexFound};
ghost use Rattle.bfs_query.specs.Resting.{SaysIndex};

use bfs_bitmap::Bitmap;
use bfs_make::{Site, blocks_in, stream_bytes};
use bfs_moves::find_index;
use bfs_node::{Header, KeyKind, TreeFault};
use bfs_stream::GrowFault;
use bfs_stream_pages::MapFault;
use bfs_super::Super;
use bfs_txn::{BlockFault, Blocks, Edits};
use std::alloc::Global;

/// An index: the block of its inode, and the kind of its keys.
#[derive(Clone, Copy)]
pub struct IndexAt {
    pub inode: u64,
    pub kind: KeyKind,
}

/// A block isn't what it has to be.
pub fn damaged(block: u64) -> MapFault
    ensures cause { (old new : Counts) → HasReadCause old new result }
{
    TreeFault::Pages(GrowFault::Block(BlockFault::Damaged { block }))
}

/// The kind of keys of a tree, by its first page.
fn kind_in(page: &[u8], inode: u64) -> Result<KeyKind, MapFault>
    ensures kind { (kind : kinds.KeyKind) (bytes : List ℕ) → IsWholeTree kind bytes → page.now ≡ take 1024 bytes → MatchResult result (λ k. k ≡ kind) IsUndone }
    ensures tree { IfOk result IsTreeKind }
    ensures cause { (old new : Counts) → IfErr result (HasReadCause old new) }
{
    if page.len() != 1024 {
        return Err(damaged(inode));
    }
    match Header::of(page) {
        Ok(header) => Ok(header.kind()),
        Err(_) => Err(damaged(inode)),
    }
}

/// The kind of keys of the tree in the stream of an inode.
fn kind_at<B: Blocks>(site: Site, under: &mut B, inode: u64) -> Result<KeyKind, MapFault>
    requires valid { IsValid site.sup }
    requires inside { inode < natural site.sup.num_blocks }
    requires size { B.size under.old ≡ site.sup.block_size }
    ensures kind { (m : ℕ → Option (List ℕ)) (kind : kinds.KeyKind) → B.told under.old ≡ Some m → HasReadable (stream_in site inode) m → IsWholeTree kind (stream_of (stream_in site inode) m) → MatchResult result (λ k. k ≡ kind) IsUndone }
    ensures tree { IfOk result IsTreeKind }
    ensures told { B.told under.new ≡ B.told under.old }
    ensures changed { B.changed under.new ≡ B.changed under.old }
    ensures pairs { B.pairs under.new ≡ B.pairs under.old }
    ensures size { B.size under.new ≡ B.size under.old }
    ensures frame { B.frame under.new ≡ B.frame under.old }
    ensures later { AreLater (B.counts under.old) (B.counts under.new) }
    ensures cause { IfErr result (HasReadCause (B.counts under.old) (B.counts under.new)) }
{
    let page = match stream_bytes(site, under, inode, 1024) {
        Ok(page) => page,
        Err(fault) => return Err(TreeFault::Pages(GrowFault::Block(fault))),
    };
    match kind_in(&page, inode) {
        Ok(kind) => Ok(kind),
        Err(fault) => Err(fault),
    }
}

/// The index to whose inode a row of the index directory leads.
pub fn index_of<B: Blocks>(site: Site, under: &mut B, inode: u64) -> Result<IndexAt, MapFault>
    requires valid { IsValid site.sup }
    requires size { B.size under.old ≡ site.sup.block_size }
    ensures inode { IfOk result (λ at. at.inode ≡ inode) }
    ensures kind { (m : ℕ → Option (List ℕ)) (kind : kinds.KeyKind) → B.told under.old ≡ Some m → inode < natural site.sup.num_blocks → HasReadable (stream_in site inode) m → IsWholeTree kind (stream_of (stream_in site inode) m) → MatchResult result (λ at. at.kind ≡ kind) IsUndone }
    ensures below { OnOk result (inode < natural site.sup.num_blocks) }
    ensures tree { IfOk result (λ at. IsTreeKind at.kind) }
    ensures told { B.told under.new ≡ B.told under.old }
    ensures changed { B.changed under.new ≡ B.changed under.old }
    ensures pairs { B.pairs under.new ≡ B.pairs under.old }
    ensures size { B.size under.new ≡ B.size under.old }
    ensures frame { B.frame under.new ≡ B.frame under.old }
    ensures later { AreLater (B.counts under.old) (B.counts under.new) }
    ensures cause { IfErr result (HasReadCause (B.counts under.old) (B.counts under.new)) }
{
    let blocks = blocks_in(site.sup);
    if inode >= blocks {
        return Err(damaged(inode));
    }
    match kind_at(site, under, inode) {
        Ok(kind) => Ok(IndexAt { inode, kind }),
        Err(fault) => Err(fault),
    }
}

/// Is it a name but `.` and `..`?
pub(crate) fn is_proper_name(name: &[u8]) -> bool
    ensures { result ≡ is_proper name.now }
{
    !(name == b".".as_slice() || name == b"..".as_slice())
}

/// The index of a name, or None where there is none. Of a volume only the blocks of the index directory and of that index are read.
pub(crate) fn index_named<E: Edits>(
    alloc: Global,
    sup: &Super,
    bitmap: &mut Bitmap,
    edits: &mut E,
    name: &[u8],
) -> Result<Option<IndexAt>, MapFault>
    requires valid { IsValid sup.now }
    requires size { E.size edits.old ≡ sup.now.block_size }
    requires directory { (m : ℕ → Option (List ℕ)) → E.told edits.old ≡ Some m → HasReadableNames sup.now m }
    ensures found { (v : Room) (m w : ℕ → Option (List ℕ)) (tree : Tree) (lists : Lists) → E.told edits.old ≡ Some m → IsReady (geometry_of sup.now) v w tree lists → SaysIndex (geometry_of sup.now) w m name.now → MatchResult result (IsIndexFound lists name.now) IsUndone }
    ensures below { IfOk result (λ o. IfSome o (λ at. at.inode < natural sup.now.num_blocks)) }
    ensures tree { IfOk result (λ o. IfSome o (λ at. IsTreeKind at.kind)) }
    ensures bitmap { bitmap.new ≡ bitmap.old }
    ensures told { E.told edits.new ≡ E.told edits.old }
    ensures changed { E.changed edits.new ≡ E.changed edits.old }
    ensures size { E.size edits.new ≡ E.size edits.old }
    ensures frame { E.frame edits.new ≡ E.frame edits.old }
    ensures later { AreLater (E.counts edits.old) (E.counts edits.new) }
    ensures cause { IfErr result (HasReadCause (E.counts edits.old) (E.counts edits.new)) }
{
    let proper = is_proper_name(name);
    if !proper {
        return Ok(None);
    }
    let found = match find_index(alloc, sup, bitmap, edits, name) {
        Ok(found) => found,
        Err(fault) => return Err(fault),
    };
    let Some(inode) = found else {
        return Ok(None);
    };
    let site = Site { alloc, sup: *sup };
    match index_of(site, edits, inode) {
        Ok(at) => Ok(Some(at)),
        Err(fault) => Err(fault),
    }
}

/// The index of a name, or None where there is none.
pub fn index_at<E: Edits>(
    alloc: Global,
    sup: &Super,
    bitmap: &mut Bitmap,
    edits: &mut E,
    name: &[u8],
) -> Result<Option<IndexAt>, MapFault>
    requires valid { IsValid sup.now }
    requires size { E.size edits.old ≡ sup.now.block_size }
    requires ready { (m : ℕ → Option (List ℕ)) → E.told edits.old ≡ Some m → HasReady (geometry_of sup.now) bitmap.old m }
    ensures found { (m : ℕ → Option (List ℕ)) (tree : Tree) (lists : Lists) → E.told edits.old ≡ Some m → IsReady (geometry_of sup.now) bitmap.old m tree lists → MatchResult result (IsIndexFound lists name.now) IsUndone }
    ensures below { IfOk result (λ o. IfSome o (λ at. at.inode < natural sup.now.num_blocks)) }
    ensures tree { IfOk result (λ o. IfSome o (λ at. IsTreeKind at.kind)) }
    ensures bitmap { bitmap.new ≡ bitmap.old }
    ensures told { E.told edits.new ≡ E.told edits.old }
    ensures changed { E.changed edits.new ≡ E.changed edits.old }
    ensures size { E.size edits.new ≡ E.size edits.old }
    ensures frame { E.frame edits.new ≡ E.frame edits.old }
    ensures later { AreLater (E.counts edits.old) (E.counts edits.new) }
    ensures cause { IfErr result (HasReadCause (E.counts edits.old) (E.counts edits.new)) }
{
    match index_named(alloc, sup, bitmap, edits, name) {
        Ok(found) => Ok(found),
        Err(fault) => Err(fault),
    }
}
