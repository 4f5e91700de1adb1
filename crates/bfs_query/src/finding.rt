// The nodes that an index lists between two keys.
ghost use Rattle.std.specs.Prelude.{◌≡◌, ◌<◌, ◌&&◌, ◌++◌, ◌∷◌, [], ℕ, List, Option, Some, true, OnOk, IfErr, MatchResult, map as each};
ghost use Rattle.bfs_base.specs.Keys.{IsTreeKind};
ghost use Rattle.bfs_super.specs.Conditions.{IsValid, natural};
ghost use Rattle.bfs_super.specs.Geometry.{geometry_of};
ghost use Rattle.bfs_super.specs.declared.sup.Super as sups;
ghost use Rattle.bfs_bitmap.specs.Runs.{Room};
ghost use Rattle.bfs_stream.specs.Sizes.{sizes_of};
ghost use Rattle.bfs_txn.specs.Faults.{AreLater, Counts};
ghost use Rattle.bfs_txn.specs.Told.{AreSized};
ghost use Rattle.bfs_tree.specs.declared.call.Call.TheVariants as calls;
ghost use Rattle.bfs_tree.specs.Listings.{kind_of_key};
ghost use Rattle.bfs_tree.specs.Refusals.{is_kind};
ghost use Rattle.bfs_tree.specs.States.{State};
ghost use Rattle.bfs_tree.specs.Steps.{Reads};
ghost use Rattle.bfs_tree.specs.Trees.{Tree};
ghost use Rattle.bfs_maps.specs.Mapped.{HasReadable};
ghost use Rattle.bfs_maps.specs.Refused.{IsUndone, HasReadCause};
ghost use Rattle.bfs_sound.specs.Whole.{Whole};
ghost use Rattle.bfs_shift.specs.Lists.{Lists};
ghost use Rattle.bfs_look.specs.Ready.{IsReady, HasNodeAt};
ghost use Rattle.bfs_query.specs.Indices.{row_found, IsIndexFound};
ghost use Rattle.bfs_query.specs.Resting.{AreSaid, HasFound, IsOfOne, SaysFound, told_of};

use crate::kind::{IndexAt, index_named};
use bfs_bitmap::Bitmap;
use bfs_index::{Index, Pair};
use bfs_look::{Site, info_at};
use bfs_node::{KeyKind, TreeFault};
use bfs_stream_pages::MapFault;
use bfs_super::Super;
use bfs_tree::{Bytes, FoundRow, FoundRows, Key, Reply, is_kind};
use bfs_txn::{Blocks, Edits};
use std::alloc::Global;

/// The row of a node that an index lists, with the node's name.
fn row_of<B: Blocks>(
    site: Site,
    under: &mut B,
    kind: KeyKind,
    pair: &Pair,
) -> Result<FoundRow, MapFault>
    requires valid { IsValid site.sup }
    requires size { B.size under.old ≡ site.sup.block_size }
    ensures row { (v : Room) (m w : ℕ → Option (List ℕ)) (tree : Tree) (lists : Lists) → B.told under.old ≡ Some m → AreSized site.sup.block_size (Some w) → IsReady (geometry_of site.sup) v w tree lists → HasNodeAt tree pair.now.id → m pair.now.id ≡ w pair.now.id → MatchResult result (λ row. row ≡ row_found tree.nodes kind pair.now) IsUndone }
    ensures told { B.told under.new ≡ B.told under.old }
    ensures changed { B.changed under.new ≡ B.changed under.old }
    ensures size { B.size under.new ≡ B.size under.old }
    ensures frame { B.frame under.new ≡ B.frame under.old }
    ensures later { AreLater (B.counts under.old) (B.counts under.new) }
    ensures cause { IfErr result (HasReadCause (B.counts under.old) (B.counts under.new)) }
{
    let info = match info_at(site, under, pair.id) {
        Ok(info) => info,
        Err(fault) => return Err(fault),
    };
    match Key::from_bytes(site.alloc, kind, pair.key.as_slice()) {
        Ok(key) => Ok(FoundRow {
            key,
            id: pair.id,
            name: info.name,
        }),
        Err(_) => Err(TreeFault::NoMemory),
    }
}

/// Adds a row.
fn add(rows: &mut Vec<FoundRow>, row: FoundRow) -> Result<(), MapFault>
    ensures added { OnOk result (rows.new.items ≡ rows.old.items ++ row ∷ []) }
    ensures fault { IfErr result IsUndone }
    ensures cause { (old new : Counts) → IfErr result (HasReadCause old new) }
{
    match rows.push(row) {
        Ok(()) => Ok(()),
        Err(_) => Err(TreeFault::NoMemory),
    }
}

/// Adds the row of a node that an index lists.
fn push_row<B: Blocks>(
    site: Site,
    under: &mut B,
    kind: KeyKind,
    pair: &Pair,
    rows: &mut Vec<FoundRow>,
) -> Result<(), MapFault>
    requires valid { IsValid site.sup }
    requires size { B.size under.old ≡ site.sup.block_size }
    ensures row { (v : Room) (m w : ℕ → Option (List ℕ)) (tree : Tree) (lists : Lists) → B.told under.old ≡ Some m → AreSized site.sup.block_size (Some w) → IsReady (geometry_of site.sup) v w tree lists → HasNodeAt tree pair.now.id → m pair.now.id ≡ w pair.now.id → MatchResult result (λ u. rows.new.items ≡ rows.old.items ++ row_found tree.nodes kind pair.now ∷ []) IsUndone }
    ensures told { B.told under.new ≡ B.told under.old }
    ensures changed { B.changed under.new ≡ B.changed under.old }
    ensures size { B.size under.new ≡ B.size under.old }
    ensures frame { B.frame under.new ≡ B.frame under.old }
    ensures later { AreLater (B.counts under.old) (B.counts under.new) }
    ensures cause { IfErr result (HasReadCause (B.counts under.old) (B.counts under.new)) }
{
    let row = match row_of(site, under, kind, pair) {
        Ok(row) => row,
        Err(fault) => return Err(fault),
    };
    match add(rows, row) {
        Ok(()) => Ok(()),
        Err(fault) => Err(fault),
    }
}

/// The rows of the nodes that an index lists, each with the node's name.
fn rows_of<B: Blocks>(
    site: Site,
    under: &mut B,
    kind: KeyKind,
    pairs: &[Pair],
) -> Result<Vec<FoundRow>, MapFault>
    requires valid { IsValid site.sup }
    requires size { B.size under.old ≡ site.sup.block_size }
    ensures rows { (v : Room) (m w : ℕ → Option (List ℕ)) (tree : Tree) (lists : Lists) → B.told under.old ≡ Some m → AreSized site.sup.block_size (Some w) → IsReady (geometry_of site.sup) v w tree lists → AreSaid w m tree pairs.now → MatchResult result (λ rows. rows.items ≡ each (row_found tree.nodes kind) pairs.now) IsUndone }
    ensures told { B.told under.new ≡ B.told under.old }
    ensures changed { B.changed under.new ≡ B.changed under.old }
    ensures size { B.size under.new ≡ B.size under.old }
    ensures frame { B.frame under.new ≡ B.frame under.old }
    ensures later { AreLater (B.counts under.old) (B.counts under.new) }
    ensures cause { IfErr result (HasReadCause (B.counts under.old) (B.counts under.new)) }
{
    let mut rows = Vec::new(site.alloc);
    for pair in pairs {
        match push_row(site, under, kind, pair, &mut rows) {
            Ok(()) => {}
            Err(fault) => return Err(fault),
        }
    }
    Ok(rows)
}

/// Are two keys of this kind?
fn are_of_kind(low: &Key, high: &Key, kind: KeyKind) -> bool
    ensures { result ≡ (is_kind (kind_of_key low.now) kind && is_kind (kind_of_key high.now) kind) }
{
    is_kind(low.kind(), kind) && is_kind(high.kind(), kind)
}

/// The answer to a search of an index that is there, between two keys of its kind, as bytes.
fn rows_between<E: Edits>(
    alloc: Global,
    sup: &Super,
    bitmap: &mut Bitmap,
    edits: &mut E,
    at: IndexAt,
    low: &Key,
    high: &Key,
) -> Result<Reply, MapFault>
    requires valid { IsValid sup.now }
    requires size { E.size edits.old ≡ sup.now.block_size }
    requires inside { at.inode < natural sup.now.num_blocks }
    requires kind { IsTreeKind at.kind }
    requires kinds { (is_kind (kind_of_key low.now) at.kind && is_kind (kind_of_key high.now) at.kind) ≡ true }
    requires index { (m : ℕ → Option (List ℕ)) → E.told edits.old ≡ Some m → HasReadable (record { id = at.inode; sizes = sizes_of sup.now }) m }
    ensures reads { (v : Room) (m w : ℕ → Option (List ℕ)) (tree : Tree) (lists : Lists) (s : State) (name : List ℕ) → E.told edits.old ≡ Some m → IsReady (geometry_of sup.now) v w tree lists → SaysFound (geometry_of sup.now) w m tree name low.now high.now → s.tree ≡ tree → IsIndexFound lists name (Some at) → MatchResult result (Reads (calls.IndexFind name low.now high.now) s) IsUndone }
    ensures bitmap { bitmap.new ≡ bitmap.old }
    ensures told { E.told edits.new ≡ E.told edits.old }
    ensures changed { E.changed edits.new ≡ E.changed edits.old }
    ensures size { E.size edits.new ≡ E.size edits.old }
    ensures frame { E.frame edits.new ≡ E.frame edits.old }
    ensures later { AreLater (E.counts edits.old) (E.counts edits.new) }
    ensures cause { IfErr result (HasReadCause (E.counts edits.old) (E.counts edits.new)) }
{
    let low = match low.bytes(alloc) {
        Ok(low) => low,
        Err(_) => return Err(TreeFault::NoMemory),
    };
    let high = match high.bytes(alloc) {
        Ok(high) => high,
        Err(_) => return Err(TreeFault::NoMemory),
    };
    let mut index = Index::at(alloc, at.inode, at.kind, sup);
    let pairs = match index.range(bitmap, edits, low.as_slice(), high.as_slice()) {
        Ok(pairs) => pairs,
        Err(fault) => return Err(fault),
    };
    let site = Site { alloc, sup: *sup };
    match rows_of(site, edits, at.kind, pairs.as_slice()) {
        Ok(rows) => Ok(Reply::Rows {
            rows: FoundRows::new(rows),
        }),
        Err(fault) => Err(fault),
    }
}

/// The answer to a search of an index, by the blocks that it rests on.
fn rows_found<E: Edits>(
    alloc: Global,
    sup: &Super,
    bitmap: &mut Bitmap,
    edits: &mut E,
    name: &[u8],
    low: &Key,
    high: &Key,
) -> Result<Reply, MapFault>
    requires valid { IsValid sup.now }
    requires size { E.size edits.old ≡ sup.now.block_size }
    requires found { (m : ℕ → Option (List ℕ)) → E.told edits.old ≡ Some m → HasFound (geometry_of sup.now) m name.now low.now high.now }
    ensures rests { (v : Room) (m w : ℕ → Option (List ℕ)) (tree : Tree) (lists : Lists) (s : State) → E.told edits.old ≡ Some m → IsReady (geometry_of sup.now) v w tree lists → SaysFound (geometry_of sup.now) w m tree name.now low.now high.now → s.tree ≡ tree → MatchResult result (Reads (calls.IndexFind name.now low.now high.now) s) IsUndone }
    ensures bitmap { bitmap.new ≡ bitmap.old }
    ensures told { E.told edits.new ≡ E.told edits.old }
    ensures changed { E.changed edits.new ≡ E.changed edits.old }
    ensures size { E.size edits.new ≡ E.size edits.old }
    ensures frame { E.frame edits.new ≡ E.frame edits.old }
    ensures later { AreLater (E.counts edits.old) (E.counts edits.new) }
    ensures cause { IfErr result (HasReadCause (E.counts edits.old) (E.counts edits.new)) }
{
    let found = match index_named(alloc, sup, bitmap, edits, name) {
        Ok(found) => found,
        Err(fault) => return Err(fault),
    };
    let Some(at) = found else {
        return Ok(Reply::NoIndex);
    };
    let same = are_of_kind(low, high, at.kind);
    if !same {
        return Ok(Reply::KeyKind);
    }
    match rows_between(alloc, sup, bitmap, edits, at, low, high) {
        Ok(reply) => Ok(reply),
        Err(fault) => Err(fault),
    }
}

/// Answers which nodes an index lists from one key to another, both inclusive: by key and then by id, each with its name. Of a volume only
/// the blocks of the index directory, those of the index and the inodes of the nodes in the answer are read.
pub fn index_find<E: Edits>(
    alloc: Global,
    sup: &Super,
    bitmap: &mut Bitmap,
    edits: &mut E,
    name: &[u8],
    low: &Key,
    high: &Key,
) -> Result<Reply, MapFault>
    requires valid { IsValid sup.now }
    requires size { E.size edits.old ≡ sup.now.block_size }
    requires found { (m : ℕ → Option (List ℕ)) → E.told edits.old ≡ Some m → HasFound (geometry_of sup.now) m name.now low.now high.now }
    ensures reads { (m : ℕ → Option (List ℕ)) (tree : Tree) (lists : Lists) (s : State) → E.told edits.old ≡ Some m → IsReady (geometry_of sup.now) bitmap.old m tree lists → s.tree ≡ tree → MatchResult result (Reads (calls.IndexFind name.now low.now high.now) s) IsUndone }
    ensures rests { (v : Room) (m w : ℕ → Option (List ℕ)) (tree : Tree) (lists : Lists) (s : State) → E.told edits.old ≡ Some m → IsReady (geometry_of sup.now) v w tree lists → SaysFound (geometry_of sup.now) w m tree name.now low.now high.now → s.tree ≡ tree → MatchResult result (Reads (calls.IndexFind name.now low.now high.now) s) IsUndone }
    // Whatever image is whole with the tree and has this superblock but for the count of used blocks.
    ensures whole { (m : ℕ → Option (List ℕ)) (image : sups.Super) (blocks : ℕ → List ℕ) (tree : Tree) (s : State) → E.told edits.old ≡ Some m → Whole image blocks tree → IsOfOne sup.now image → SaysFound (geometry_of sup.now) (told_of image blocks) m tree name.now low.now high.now → s.tree ≡ tree → MatchResult result (Reads (calls.IndexFind name.now low.now high.now) s) IsUndone }
    ensures bitmap { bitmap.new ≡ bitmap.old }
    ensures told { E.told edits.new ≡ E.told edits.old }
    ensures changed { E.changed edits.new ≡ E.changed edits.old }
    ensures size { E.size edits.new ≡ E.size edits.old }
    ensures frame { E.frame edits.new ≡ E.frame edits.old }
    ensures later { AreLater (E.counts edits.old) (E.counts edits.new) }
    ensures cause { IfErr result (HasReadCause (E.counts edits.old) (E.counts edits.new)) }
{
    match rows_found(alloc, sup, bitmap, edits, name, low, high) {
        Ok(found) => Ok(found),
        Err(fault) => Err(fault),
    }
}
