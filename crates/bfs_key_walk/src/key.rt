// The key of a node.
ghost use Rattle.std.specs.Prelude.{◌≡◌, ◌<◌, ◌==◌, ℕ, List, Option, Some, None, if◌then◌else◌, IfOk, IfErr};
ghost use Rattle.bfs_bytes.specs.Fields.{unsigned_bytes, signed64_bytes};
ghost use Rattle.bfs_super.specs.Conditions.{IsValid, natural};
ghost use Rattle.std.specs.FinMap.{get};
ghost use Rattle.std.specs.Option.{option_and_then};
ghost use Rattle.bfs_txn.specs.Faults.{AreLater};
ghost use Rattle.bfs_stream.specs.Sizes.{sizes_of};
ghost use Rattle.bfs_stream.specs.Told.{contents};
ghost use Rattle.bfs_stream_check.specs.Known.{IsAllTold};
ghost use Rattle.bfs_tree.specs.Listings.{key_in, key_of_attribute};
ghost use Rattle.bfs_tree.specs.Trees.{Node, is_file};
ghost use Rattle.bfs_sound.specs.Whole.{volume_of};
ghost use Rattle.bfs_inode_walk.specs.Visited.{IsVisitCause};
ghost use Rattle.bfs_key_walk.specs.Gathered.{IsKnown, IsUnread};
ghost use Rattle.bfs_nodes_walk.specs.Facts.{keys_of};

use crate::fault::unread;
use bfs_inode_walk::VisitFault;
use bfs_make::Site;
use bfs_node_key::attribute_key;
use bfs_nodes_walk::FileKeys;
use bfs_super::Super;
use bfs_tree::{BY_NAME, BY_SIZE, BY_TIME, Bytes, KeyKind};
use bfs_txn::{BlockFault, Blocks};
use std::alloc::{AllocError, Global};

/// The bytes of the one of a file's keys or of the other.
fn bytes_of(keys: FileKeys, by_size: bool) -> [u8; 8]
    ensures { result ≡ (if by_size then keys.size else keys.stamp) }
{
    if by_size { keys.size } else { keys.stamp }
}

/// The one of a file's keys or the other.
fn some_key(alloc: Global, keys: FileKeys, by_size: bool) -> Result<Option<Bytes>, AllocError>
    ensures { IfOk result (λ k. k ≡ Some (if by_size then keys.size else keys.stamp)) }
{
    let bytes = bytes_of(keys, by_size);
    match Bytes::from_slice(alloc, &bytes) {
        Ok(key) => Ok(Some(key)),
        Err(fault) => Err(fault),
    }
}

/// A file's key of its size, or of its stamp, where a node's keys were read.
fn file_key(
    alloc: Global,
    keys: Option<FileKeys>,
    by_size: bool,
) -> Result<Option<Bytes>, AllocError>
    ensures { (n : Node) → keys ≡ keys_of n → IfOk result (λ k. k ≡ (if is_file n.kind then Some (if by_size then unsigned_bytes 8 n.size else signed64_bytes n.modified) else None)) }
{
    match keys {
        Some(keys) => some_key(alloc, keys, by_size),
        None => Ok(None),
    }
}

/// The key by which the index of names lists a node: its name; and the root has none.
fn name_key(alloc: Global, is_root: bool, name: &[u8]) -> Result<Option<Bytes>, AllocError>
    ensures { IfOk result (λ k. k ≡ (if is_root then None else Some name.now)) }
{
    if is_root {
        return Ok(None);
    }
    match Bytes::from_slice(alloc, name) {
        Ok(key) => Ok(Some(key)),
        Err(fault) => Err(fault),
    }
}

/// The key that an attribute of the node at a block gives an index of its name.
fn read_attribute_key<B: Blocks>(
    alloc: Global,
    under: &mut B,
    sup: &Super,
    id: u64,
    index: &[u8],
    kind: KeyKind,
) -> Result<Option<Bytes>, VisitFault>
    requires valid { IsValid sup.now }
    requires inside { id < natural sup.now.num_blocks }
    requires size { B.size under.old ≡ sup.now.block_size }
    requires all { (m : ℕ → Option (List ℕ)) → B.told under.old ≡ Some m → IsAllTold (sizes_of sup.now) m }
    requires known { (m : ℕ → Option (List ℕ)) → B.told under.old ≡ Some m → (n : Node) × IsKnown (volume_of sup.now (contents m)) id n }
    ensures key { (m : ℕ → Option (List ℕ)) (n : Node) → B.told under.old ≡ Some m → IsKnown (volume_of sup.now (contents m)) id n → IfOk result (λ k. k ≡ option_and_then (key_of_attribute kind) (get n.attributes index.now)) }
    ensures unread { (m : ℕ → Option (List ℕ)) (n : Node) → B.told under.old ≡ Some m → IsKnown (volume_of sup.now (contents m)) id n → IfErr result IsUnread }
    ensures told { B.told under.new ≡ B.told under.old }
    ensures changed { B.changed under.new ≡ B.changed under.old }
    ensures pairs { B.pairs under.new ≡ B.pairs under.old }
    ensures size { B.size under.new ≡ B.size under.old }
    ensures frame { B.frame under.new ≡ B.frame under.old }
    ensures later { AreLater (B.counts under.old) (B.counts under.new) }
    ensures cause { IfErr result (IsVisitCause (B.counts under.old) (B.counts under.new)) }
{
    let site = Site { alloc, sup: *sup };
    match attribute_key(site, under, id, index, kind) {
        Ok(key) => Ok(key),
        Err(fault) => Err(unread(id, fault)),
    }
}

/// The key under which an index lists the node at a block, which has this name or is the root, and these keys as a file.
pub(crate) fn node_key<B: Blocks>(
    alloc: Global,
    under: &mut B,
    sup: &Super,
    id: u64,
    is_root: bool,
    name: &[u8],
    keys: Option<FileKeys>,
    index: &[u8],
    kind: KeyKind,
) -> Result<Option<Bytes>, VisitFault>
    requires valid { IsValid sup.now }
    requires inside { id < natural sup.now.num_blocks }
    requires size { B.size under.old ≡ sup.now.block_size }
    requires all { (m : ℕ → Option (List ℕ)) → B.told under.old ≡ Some m → IsAllTold (sizes_of sup.now) m }
    requires known { (m : ℕ → Option (List ℕ)) → B.told under.old ≡ Some m → (n : Node) × IsKnown (volume_of sup.now (contents m)) id n }
    ensures key { (m : ℕ → Option (List ℕ)) (root : ℕ) (n : Node) → B.told under.old ≡ Some m → IsKnown (volume_of sup.now (contents m)) id n → n.name ≡ name.now → is_root ≡ (id == root) → keys ≡ keys_of n → IfOk result (λ k. k ≡ key_in root index.now kind id n) }
    ensures unread { (m : ℕ → Option (List ℕ)) (n : Node) → B.told under.old ≡ Some m → IsKnown (volume_of sup.now (contents m)) id n → IfErr result IsUnread }
    ensures told { B.told under.new ≡ B.told under.old }
    ensures changed { B.changed under.new ≡ B.changed under.old }
    ensures pairs { B.pairs under.new ≡ B.pairs under.old }
    ensures size { B.size under.new ≡ B.size under.old }
    ensures frame { B.frame under.new ≡ B.frame under.old }
    ensures later { AreLater (B.counts under.old) (B.counts under.new) }
    ensures cause { IfErr result (IsVisitCause (B.counts under.old) (B.counts under.new)) }
{
    if index == BY_NAME {
        return match name_key(alloc, is_root, name) {
            Ok(key) => Ok(key),
            Err(_) => Err(VisitFault::Block(BlockFault::NoMemory)),
        };
    }
    if index == BY_SIZE {
        return match file_key(alloc, keys, true) {
            Ok(key) => Ok(key),
            Err(_) => Err(VisitFault::Block(BlockFault::NoMemory)),
        };
    }
    if index == BY_TIME {
        return match file_key(alloc, keys, false) {
            Ok(key) => Ok(key),
            Err(_) => Err(VisitFault::Block(BlockFault::NoMemory)),
        };
    }
    match read_attribute_key(alloc, under, sup, id, index, kind) {
        Ok(key) => Ok(key),
        Err(fault) => Err(fault),
    }
}
