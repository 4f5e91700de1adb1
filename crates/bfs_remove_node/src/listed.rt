// How many indices list a node by its attributes.
ghost use Rattle.std.specs.Prelude.{◌≡◌, ◌≤◌, ℕ, List, length, Option, Some, IfOk, IfErr, MatchResult};
ghost use Rattle.std.specs.FinMap.{entries};
ghost use Rattle.bfs_super.specs.Conditions.{IsValid};
ghost use Rattle.bfs_super.specs.Geometry.{geometry_of};
ghost use Rattle.bfs_txn.specs.Faults.{AreLater};
ghost use Rattle.bfs_tree.specs.Answers.{rows_of_indices};
ghost use Rattle.bfs_tree.specs.Trees.{Node, Tree, IsNode};
ghost use Rattle.bfs_maps.specs.Refused.{HasReadCause, IsUndone};
ghost use Rattle.bfs_shift.specs.Lists.{Lists};
ghost use Rattle.bfs_look.specs.Ready.{IsReady, HasReady};
ghost use Rattle.bfs_remove_node.specs.Counted.{has_key, indices_in, is_listed, listed_among};

use bfs_bitmap::Bitmap;
use bfs_node::TreeFault;
use bfs_stream_pages::MapFault;
use bfs_super::Super;
use bfs_tree::{IndexRow, Indices, KeyKind, Reply, code_of, is_built_in, key_of_bytes};
use bfs_txn::Edits;
use bfs_unlist::query::{attr_read, index_list};
use std::alloc::{AllocError, Global};

/// More indices than this aren't counted: there is no room for the number.
const MOST: u64 = 0x1_0000_0000;

/// Has the attribute that was read a key in an index of this kind?
fn has_key(alloc: Global, kind: KeyKind, found: &Reply) -> Result<bool, AllocError>
    ensures { IfOk result (λ b. b ≡ has_key kind found.now) }
{
    match found {
        Reply::Attr { kind: code, bytes } => {
            if *code != code_of(kind) {
                return Ok(false);
            }
            let key = key_of_bytes(alloc, kind, bytes.as_slice())?;
            Ok(key.is_some())
        }
        _ => Ok(false),
    }
}

/// Does an index list the node of an id by an attribute? The three built-in ones list no attributes.
fn is_listed<E: Edits>(
    alloc: Global,
    sup: &Super,
    bitmap: &mut Bitmap,
    edits: &mut E,
    id: u64,
    row: &IndexRow,
) -> Result<bool, MapFault>
    requires valid { IsValid sup.now }
    requires size { E.size edits.old ≡ sup.now.block_size }
    requires ready { (m : ℕ → Option (List ℕ)) → E.told edits.old ≡ Some m → HasReady (geometry_of sup.now) bitmap.old m }
    ensures found { (m : ℕ → Option (List ℕ)) (tree : Tree) (lists : Lists) (n : Node) → E.told edits.old ≡ Some m → IsReady (geometry_of sup.now) bitmap.old m tree lists → IsNode tree id n → MatchResult result (λ listed. listed ≡ is_listed tree id row.now) IsUndone }
    ensures bitmap { bitmap.new ≡ bitmap.old }
    ensures told { E.told edits.new ≡ E.told edits.old }
    ensures changed { E.changed edits.new ≡ E.changed edits.old }
    ensures size { E.size edits.new ≡ E.size edits.old }
    ensures frame { E.frame edits.new ≡ E.frame edits.old }
    ensures later { AreLater (E.counts edits.old) (E.counts edits.new) }
    ensures cause { IfErr result (HasReadCause (E.counts edits.old) (E.counts edits.new)) }
{
    let name = row.name.as_slice();
    if is_built_in(name) {
        return Ok(false);
    }
    let found = match attr_read(alloc, sup, bitmap, edits, id, name) {
        Ok(found) => found,
        Err(fault) => return Err(fault),
    };
    match has_key(alloc, row.kind, &found) {
        Ok(listed) => Ok(listed),
        Err(_) => Err(TreeFault::NoMemory),
    }
}

/// The indices that a listing of them has.
fn index_rows(alloc: Global, found: Reply) -> Indices
    ensures { result ≡ indices_in found }
{
    match found {
        Reply::Indices { rows } => rows,
        _ => Indices::new(Vec::new(alloc)),
    }
}

/// How many of these indices list the node of an id by an attribute.
fn listed_among<E: Edits>(
    alloc: Global,
    sup: &Super,
    bitmap: &mut Bitmap,
    edits: &mut E,
    id: u64,
    rows: &[IndexRow],
) -> Result<u64, MapFault>
    requires valid { IsValid sup.now }
    requires size { E.size edits.old ≡ sup.now.block_size }
    requires ready { (m : ℕ → Option (List ℕ)) → E.told edits.old ≡ Some m → HasReady (geometry_of sup.now) bitmap.old m }
    ensures counted { (m : ℕ → Option (List ℕ)) (tree : Tree) (lists : Lists) (n : Node) → E.told edits.old ≡ Some m → IsReady (geometry_of sup.now) bitmap.old m tree lists → IsNode tree id n → MatchResult result (λ count. count ≡ listed_among tree id rows.now) IsUndone }
    ensures few { IfOk result (λ count. count ≤ 4294967296) }
    ensures bitmap { bitmap.new ≡ bitmap.old }
    ensures told { E.told edits.new ≡ E.told edits.old }
    ensures changed { E.changed edits.new ≡ E.changed edits.old }
    ensures size { E.size edits.new ≡ E.size edits.old }
    ensures frame { E.frame edits.new ≡ E.frame edits.old }
    ensures later { AreLater (E.counts edits.old) (E.counts edits.new) }
    ensures cause { IfErr result (HasReadCause (E.counts edits.old) (E.counts edits.new)) }
{
    let mut count: u64 = 0;
    for row in rows {
        let listed = match is_listed(alloc, sup, bitmap, edits, id, row) {
            Ok(listed) => listed,
            Err(fault) => return Err(fault),
        };
        if listed {
            if count >= MOST {
                return Err(TreeFault::NoMemory);
            }
            count += 1;
        }
    }
    Ok(count)
}

/// How many indices list a node of the tree by an attribute.
pub fn attribute_indices<E: Edits>(
    alloc: Global,
    sup: &Super,
    bitmap: &mut Bitmap,
    edits: &mut E,
    id: u64,
) -> Result<u64, MapFault>
    requires valid { IsValid sup.now }
    requires size { E.size edits.old ≡ sup.now.block_size }
    requires ready { (m : ℕ → Option (List ℕ)) → E.told edits.old ≡ Some m → HasReady (geometry_of sup.now) bitmap.old m }
    ensures counted { (m : ℕ → Option (List ℕ)) (tree : Tree) (lists : Lists) (n : Node) → E.told edits.old ≡ Some m → IsReady (geometry_of sup.now) bitmap.old m tree lists → IsNode tree id n → MatchResult result (λ count. count ≡ listed_among tree id (rows_of_indices (entries tree.indices))) IsUndone }
    ensures few { IfOk result (λ count. count ≤ 4294967296) }
    ensures bitmap { bitmap.new ≡ bitmap.old }
    ensures told { E.told edits.new ≡ E.told edits.old }
    ensures changed { E.changed edits.new ≡ E.changed edits.old }
    ensures size { E.size edits.new ≡ E.size edits.old }
    ensures frame { E.frame edits.new ≡ E.frame edits.old }
    ensures later { AreLater (E.counts edits.old) (E.counts edits.new) }
    ensures cause { IfErr result (HasReadCause (E.counts edits.old) (E.counts edits.new)) }
{
    let found = match index_list(alloc, sup, bitmap, edits) {
        Ok(found) => found,
        Err(fault) => return Err(fault),
    };
    let rows = index_rows(alloc, found);
    match listed_among(alloc, sup, bitmap, edits, id, rows.as_slice()) {
        Ok(count) => Ok(count),
        Err(fault) => Err(fault),
    }
}
