// A node leaves the index that lists it under an attribute.
ghost use Rattle.std.specs.Prelude.{◌≡◌, ℕ, List, Option, Some, OnOk, IfErr};
ghost use Rattle.bfs_super.specs.Conditions.{IsValid};
ghost use Rattle.bfs_super.specs.Geometry.{geometry_of};
ghost use Rattle.bfs_txn.specs.Faults.{AreLater};
ghost use Rattle.bfs_txn.specs.Told.{StaysChanged};
ghost use Rattle.bfs_stream.specs.Grown.{IsOfVolume};
ghost use Rattle.bfs_stream.specs.Sizes.{sizes_of};
ghost use Rattle.bfs_tree.specs.Trees.{Node, Tree, IsNode};
ghost use Rattle.bfs_maps.specs.Refused.{IsUndone, HasReadCause};
ghost use Rattle.bfs_shift.specs.Lists.{Lists};
ghost use Rattle.bfs_look.specs.Ready.{IsReady, HasReady};
ghost use Rattle.bfs_attr_calls.specs.Removed.{HasAttributeAt, HasUnlistedUnder};

use bfs_bitmap::Bitmap;
use bfs_make::Site;
use bfs_node_key::attribute_key;
use bfs_query::index_at;
use bfs_query::moves::unlist_pair;
use bfs_stream_pages::MapFault;
use bfs_super::Super;
use bfs_tree::is_built_in;
use bfs_txn::Edits;
use std::alloc::Global;

/// Takes a node out of the index that lists it under an attribute, if there is one of the attribute's name and kind. A built-in index lists
/// no attributes.
pub fn unlist_attribute<E: Edits>(
    alloc: Global,
    sup: &Super,
    bitmap: &mut Bitmap,
    edits: &mut E,
    id: u64,
    name: &[u8],
) -> Result<(), MapFault>
    requires valid { IsValid sup.now }
    requires size { E.size edits.old ≡ sup.now.block_size }
    requires volume { IsOfVolume (sizes_of sup.now) bitmap.old }
    requires ready { (m : ℕ → Option (List ℕ)) → E.told edits.old ≡ Some m → HasReady (geometry_of sup.now) bitmap.old m }
    requires there { (m : ℕ → Option (List ℕ)) (tree : Tree) (lists : Lists) → E.told edits.old ≡ Some m → IsReady (geometry_of sup.now) bitmap.old m tree lists → HasAttributeAt tree id name.now }
    ensures unlisted { (m : ℕ → Option (List ℕ)) (tree : Tree) (lists : Lists) (n : Node) → E.told edits.old ≡ Some m → IsReady (geometry_of sup.now) bitmap.old m tree lists → IsNode tree id n → OnOk result (HasUnlistedUnder (geometry_of sup.now) bitmap.old bitmap.new m tree lists id n name.now (E.told edits.new) (E.changed edits.old) (E.changed edits.new)) }
    ensures undone { (m : ℕ → Option (List ℕ)) (tree : Tree) (lists : Lists) → E.told edits.old ≡ Some m → IsReady (geometry_of sup.now) bitmap.old m tree lists → IfErr result IsUndone }
    ensures rest { bitmap.new ≡ record bitmap.old { tally = bitmap.new.tally } }
    ensures stays { StaysChanged (E.changed edits.old) (E.changed edits.new) }
    ensures size { E.size edits.new ≡ E.size edits.old }
    ensures frame { E.frame edits.new ≡ E.frame edits.old }
    ensures later { AreLater (E.counts edits.old) (E.counts edits.new) }
    ensures cause { IfErr result (HasReadCause (E.counts edits.old) (E.counts edits.new)) }
{
    if is_built_in(name) {
        return Ok(());
    }
    let found = match index_at(alloc, sup, bitmap, edits, name) {
        Ok(found) => found,
        Err(fault) => return Err(fault),
    };
    let Some(at) = found else {
        return Ok(());
    };
    let site = Site { alloc, sup: *sup };
    let read = match attribute_key(site, edits, id, name, at.kind) {
        Ok(read) => read,
        Err(fault) => return Err(fault),
    };
    let Some(key) = read else {
        return Ok(());
    };
    match unlist_pair(
        alloc,
        sup,
        bitmap,
        edits,
        at.inode,
        at.kind,
        key.as_slice(),
        id,
    ) {
        Ok(()) => Ok(()),
        Err(fault) => Err(fault),
    }
}
