// The key under which an index lists a node.
ghost use Rattle.std.specs.Prelude.{◌≡◌, ◌≢◌, ℕ, List, Option, Some, None, true, false, if◌then◌else◌, IfSome, IfOk, IfErr, MatchResult};
ghost use Rattle.std.specs.FinMap.{get};
ghost use Rattle.std.specs.Option.{option_and_then};
ghost use Rattle.bfs_super.specs.Conditions.{IsValid};
ghost use Rattle.bfs_super.specs.Geometry.{geometry_of};
ghost use Rattle.bfs_bytes.specs.Fields.{unsigned_bytes, signed64_bytes};
ghost use Rattle.bfs_node.specs.Search.{IsSought};
ghost use Rattle.bfs_txn.specs.Faults.{AreLater, Counts};
ghost use Rattle.bfs_tree.specs.Answers.{info_of};
ghost use Rattle.bfs_tree.specs.Listings.{key_in, key_of_attribute};
ghost use Rattle.bfs_tree.specs.Trees.{Attributes, Node, is_file};
ghost use Rattle.bfs_maps.specs.Refused.{IsUndone, HasReadCause};
ghost use Rattle.bfs_attr.specs.Bearers.{volume_at, bearer_of, attributes_at, shown, HasAttributes, CanRead};

use bfs_attr::{AttrItem, attribute_of};
use bfs_make::Site;
use bfs_node::{KeyKind, TreeFault};
use bfs_stream_pages::MapFault;
use bfs_tree::{BY_NAME, BY_SIZE, BY_TIME, Bytes, Info, Kind, code_of, key_of_bytes};
use bfs_txn::Blocks;
use std::alloc::{AllocError, Global};

/// Can these bytes be looked for in an index of a kind? Text may have any length.
pub fn is_sought(kind: KeyKind, key: &[u8]) -> bool
    ensures sought { result ≡ true → IsSought kind key.now }
    ensures refused { result ≡ false → IsSought kind key.now → ⊥ }
{
    match kind {
        KeyKind::Text => true,
        KeyKind::I32 => key.len() == 4,
        KeyKind::U32 => key.len() == 4,
        KeyKind::I64 => key.len() == 8,
        KeyKind::U64 => key.len() == 8,
        KeyKind::F32 => false,
        KeyKind::F64 => false,
    }
}

/// A file is listed under these bytes, and no other node.
fn file_key(alloc: Global, kind: Kind, bytes: [u8; 8]) -> Result<Option<Bytes>, MapFault>
    ensures key { MatchResult result (λ k. k ≡ (if is_file kind then Some bytes else None)) IsUndone }
    ensures cause { (old new : Counts) → IfErr result (HasReadCause old new) }
{
    if !kind.is_file() {
        return Ok(None);
    }
    match Bytes::from_slice(alloc, &bytes) {
        Ok(key) => Ok(Some(key)),
        Err(_) => Err(TreeFault::NoMemory),
    }
}

/// The key of a file's size.
#[tactic(auto, unfolding(bfs_bytes::specs::Fields::unsigned_bytes))]
fn size_key(info: &Info) -> [u8; 8]
    ensures { result ≡ unsigned_bytes 8 info.now.size }
{
    info.size.to_le_bytes()
}

/// The key of the stamp of the last change of a file's content.
#[tactic(auto, unfolding(bfs_bytes::specs::Fields::unsigned_bytes, bfs_bytes::specs::Fields::signed64_bytes))]
fn stamp_key(info: &Info) -> [u8; 8]
    ensures { result ≡ signed64_bytes info.now.modified }
{
    info.modified.cast_unsigned().to_le_bytes()
}

/// The key that an attribute gives an index of a kind, if its type is that of the index.
fn key_of(alloc: Global, kind: KeyKind, item: &AttrItem) -> Result<Option<Bytes>, AllocError>
    ensures { IfOk result (λ k. k ≡ key_of_attribute kind (shown item.now)) }
{
    if item.kind == code_of(kind) {
        key_of_bytes(alloc, kind, item.bytes.as_slice())
    } else {
        Ok(None)
    }
}

/// The key under which an index of a kind and of an attribute's name lists a node, or None where it doesn't list it. No index that is built
/// in is spoken of.
pub fn attribute_key<B: Blocks>(
    site: Site,
    under: &mut B,
    id: u64,
    name: &[u8],
    kind: KeyKind,
) -> Result<Option<Bytes>, MapFault>
    requires valid { IsValid site.sup }
    requires size { B.size under.old ≡ site.sup.block_size }
    requires readable { (m : ℕ → Option (List ℕ)) → B.told under.old ≡ Some m → CanRead (bearer_of id site.sup) m }
    ensures key { (m : ℕ → Option (List ℕ)) (attributes : Attributes) → B.told under.old ≡ Some m → HasAttributes (volume_at (geometry_of site.sup) m) id → attributes ≡ attributes_at (volume_at (geometry_of site.sup) m) id → MatchResult result (λ k. k ≡ option_and_then (key_of_attribute kind) (get attributes name.now)) IsUndone }
    ensures sought { IfOk result (λ k. IfSome k (IsSought kind)) }
    ensures told { B.told under.new ≡ B.told under.old }
    ensures changed { B.changed under.new ≡ B.changed under.old }
    ensures pairs { B.pairs under.new ≡ B.pairs under.old }
    ensures size { B.size under.new ≡ B.size under.old }
    ensures frame { B.frame under.new ≡ B.frame under.old }
    ensures later { AreLater (B.counts under.old) (B.counts under.new) }
    ensures cause { IfErr result (HasReadCause (B.counts under.old) (B.counts under.new)) }
{
    let found = match attribute_of(site, under, id, name) {
        Ok(found) => found,
        Err(fault) => return Err(fault),
    };
    let Some(item) = found else {
        return Ok(None);
    };
    match key_of(site.alloc, kind, &item) {
        Ok(key) => Ok(key),
        Err(_) => Err(TreeFault::NoMemory),
    }
}

/// The key under which an index of a name and kind lists a node with a record, which isn't the root.
pub fn key_in<B: Blocks>(
    site: Site,
    under: &mut B,
    id: u64,
    info: &Info,
    index: &[u8],
    kind: KeyKind,
) -> Result<Option<Bytes>, MapFault>
    requires valid { IsValid site.sup }
    requires size { B.size under.old ≡ site.sup.block_size }
    requires readable { (m : ℕ → Option (List ℕ)) → B.told under.old ≡ Some m → CanRead (bearer_of id site.sup) m }
    ensures key { (m : ℕ → Option (List ℕ)) (root : ℕ) (n : Node) → B.told under.old ≡ Some m → HasAttributes (volume_at (geometry_of site.sup) m) id → n.attributes ≡ attributes_at (volume_at (geometry_of site.sup) m) id → info.now ≡ info_of n → id ≢ root → MatchResult result (λ k. k ≡ key_in root index.now kind id n) IsUndone }
    ensures told { B.told under.new ≡ B.told under.old }
    ensures changed { B.changed under.new ≡ B.changed under.old }
    ensures pairs { B.pairs under.new ≡ B.pairs under.old }
    ensures size { B.size under.new ≡ B.size under.old }
    ensures frame { B.frame under.new ≡ B.frame under.old }
    ensures later { AreLater (B.counts under.old) (B.counts under.new) }
    ensures cause { IfErr result (HasReadCause (B.counts under.old) (B.counts under.new)) }
{
    if index == BY_NAME {
        return match info.name.copy() {
            Ok(name) => Ok(Some(name)),
            Err(_) => Err(TreeFault::NoMemory),
        };
    }
    if index == BY_SIZE {
        return file_key(site.alloc, info.kind, size_key(info));
    }
    if index == BY_TIME {
        return file_key(site.alloc, info.kind, stamp_key(info));
    }
    match attribute_key(site, under, id, index, kind) {
        Ok(key) => Ok(key),
        Err(fault) => Err(fault),
    }
}
