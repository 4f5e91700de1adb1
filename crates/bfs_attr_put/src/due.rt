// The index that is to list a node under an attribute.
ghost use Rattle.std.specs.Prelude.{◌≡◌, ◌<◌, ℕ, List, Option, Some, IfOk, IfErr, IfSome, MatchResult};
ghost use Rattle.bfs_base.specs.Keys.{IsKey, IsTreeKind};
ghost use Rattle.bfs_super.specs.Conditions.{IsValid, natural};
ghost use Rattle.bfs_super.specs.Geometry.{geometry_of};
ghost use Rattle.bfs_txn.specs.Faults.{AreLater};
ghost use Rattle.bfs_tree.specs.Listings.{key_of_attribute};
ghost use Rattle.bfs_tree.specs.Trees.{Tree};
ghost use Rattle.bfs_maps.specs.Refused.{IsUndone, HasReadCause};
ghost use Rattle.bfs_shift.specs.Lists.{Lists};
ghost use Rattle.bfs_look.specs.Ready.{IsReady, HasReady};
ghost use Rattle.bfs_attr_put.specs.Listed.{IsDue};

use bfs_attr_calls::query::index_at;
use bfs_bitmap::Bitmap;
use bfs_node::{KeyKind, TreeFault};
use bfs_stream_pages::MapFault;
use bfs_super::Super;
use bfs_tree::{Bytes, code_of, is_built_in, key_of_bytes};
use bfs_txn::Edits;
use std::alloc::{AllocError, Global};

/// An index that is to list a node: the block of its inode, the kind of its keys, and the node's key.
#[derive(Drop)]
pub(crate) struct Due {
    pub inode: u64,
    pub kind: KeyKind,
    pub key: Bytes,
}

/// The key that an attribute of a type with these bytes has in an index of a kind.
fn key_for(
    alloc: Global,
    index: KeyKind,
    kind: u32,
    bytes: &[u8],
) -> Result<Option<Bytes>, AllocError>
    ensures key { IfOk result (λ o. o ≡ key_of_attribute index (record { code = kind; bytes = bytes.now })) }
    ensures fits { IfOk result (λ o. IfSome o (IsKey index)) }
{
    if kind != code_of(index) {
        return Ok(None);
    }
    key_of_bytes(alloc, index, bytes)
}

/// Which index is to list a node under an attribute of a type with these bytes, and under which key. A built-in index lists no attributes.
pub(crate) fn due_for<E: Edits>(
    alloc: Global,
    sup: &Super,
    bitmap: &mut Bitmap,
    edits: &mut E,
    name: &[u8],
    kind: u32,
    bytes: &[u8],
) -> Result<Option<Due>, MapFault>
    requires valid { IsValid sup.now }
    requires size { E.size edits.old ≡ sup.now.block_size }
    requires ready { (m : ℕ → Option (List ℕ)) → E.told edits.old ≡ Some m → HasReady (geometry_of sup.now) bitmap.old m }
    ensures due { (m : ℕ → Option (List ℕ)) (tree : Tree) (lists : Lists) → E.told edits.old ≡ Some m → IsReady (geometry_of sup.now) bitmap.old m tree lists → MatchResult result (IsDue lists name.now (record { code = kind; bytes = bytes.now })) IsUndone }
    ensures below { IfOk result (λ o. IfSome o (λ due. due.inode < natural sup.now.num_blocks)) }
    ensures tree { IfOk result (λ o. IfSome o (λ due. IsTreeKind due.kind)) }
    ensures key { IfOk result (λ o. IfSome o (λ due. IsKey due.kind due.key)) }
    ensures bitmap { bitmap.new ≡ bitmap.old }
    ensures told { E.told edits.new ≡ E.told edits.old }
    ensures changed { E.changed edits.new ≡ E.changed edits.old }
    ensures size { E.size edits.new ≡ E.size edits.old }
    ensures frame { E.frame edits.new ≡ E.frame edits.old }
    ensures later { AreLater (E.counts edits.old) (E.counts edits.new) }
    ensures cause { IfErr result (HasReadCause (E.counts edits.old) (E.counts edits.new)) }
{
    let built_in = is_built_in(name);
    if built_in {
        return Ok(None);
    }
    let found = match index_at(alloc, sup, bitmap, edits, name) {
        Ok(found) => found,
        Err(fault) => return Err(fault),
    };
    let at = match found {
        Some(at) => at,
        None => return Ok(None),
    };
    let listed = match key_for(alloc, at.kind, kind, bytes) {
        Ok(listed) => listed,
        Err(_) => return Err(TreeFault::NoMemory),
    };
    let key = match listed {
        Some(key) => key,
        None => return Ok(None),
    };
    Ok(Some(Due {
        inode: at.inode,
        kind: at.kind,
        key,
    }))
}
