// How many blocks a call that removes a node is allowed to change.
ghost use Rattle.std.specs.Prelude.{◌≡◌, ◌≤◌, ◌<◌, ◌+◌, ℕ, List, Option, Some, IfOk, IfErr, MatchResult, is_some, if◌then◌else◌};
ghost use Rattle.bfs_super.specs.Conditions.{IsValid};
ghost use Rattle.bfs_super.specs.Geometry.{geometry_of};
ghost use Rattle.bfs_txn.specs.Faults.{AreLater};
ghost use Rattle.bfs_tree.specs.declared.call.Call.TheVariants.{Remove};
ghost use Rattle.bfs_tree.specs.Trees.{Tree};
ghost use Rattle.bfs_maps.specs.Refused.{IsUndone};
ghost use Rattle.bfs_sound.specs.Need.{logged_need};
ghost use Rattle.bfs_shift.specs.Lists.{Lists};
ghost use Rattle.bfs_shift.specs.Shifts.{volume_in};
ghost use Rattle.bfs_look.specs.Ready.{IsReady, HasReady};
ghost use Rattle.bfs_calls.specs.Allowances.{allowance};
ghost use Rattle.bfs_calls.specs.Done.{HasAnswerCause};
ghost use Rattle.bfs_remove_node.specs.Removed.{MayBeRemoved};

use crate::child::child_id;
use crate::listed::attribute_indices;
use crate::streams::node_streams;
use bfs_bitmap::Bitmap;
use bfs_calls::{BuiltIn, bitmap_blocks, built_in_indices};
use bfs_make::Site;
use bfs_stream_pages::MapFault;
use bfs_super::Super;
use bfs_txn::Edits;
use std::alloc::Global;

/// One where there is one.
fn one(there: Option<u64>) -> u64
    ensures value { result ≡ (if is_some there then 1 else 0) }
    ensures few { result ≤ 1 }
{
    match there {
        Some(_) => 1,
        None => 0,
    }
}

/// How many of the three built-in indices there are.
pub fn built_in_count(indices: BuiltIn) -> u64
    ensures value { result ≡ (if is_some indices.name then 1 else 0) + (if is_some indices.size then 1 else 0) + (if is_some indices.last_modified then 1 else 0) }
    ensures few { result ≤ 3 }
{
    one(indices.name) + one(indices.size) + one(indices.last_modified)
}

/// How many blocks a call that removes a node may change at most. It is at most what the format's bound on a call's blocks says, since it
/// counts each tree as one of a single level, and no array blocks of the node's streams.
pub fn remove_allowance<E: Edits>(
    alloc: Global,
    sup: &Super,
    bitmap: &mut Bitmap,
    edits: &mut E,
    dir: u64,
    name: &[u8],
) -> Result<u64, MapFault>
    requires valid { IsValid sup.now }
    requires size { E.size edits.old ≡ sup.now.block_size }
    requires ready { (m : ℕ → Option (List ℕ)) → E.told edits.old ≡ Some m → HasReady (geometry_of sup.now) bitmap.old m }
    requires may { (m : ℕ → Option (List ℕ)) (tree : Tree) (lists : Lists) → E.told edits.old ≡ Some m → IsReady (geometry_of sup.now) bitmap.old m tree lists → MayBeRemoved tree dir name.now }
    ensures allowed { (m : ℕ → Option (List ℕ)) (tree : Tree) (lists : Lists) → E.told edits.old ≡ Some m → IsReady (geometry_of sup.now) bitmap.old m tree lists → MatchResult result (λ n. n ≡ allowance (volume_in (geometry_of sup.now) m) tree (Remove dir name.now)) IsUndone }
    ensures within { (m : ℕ → Option (List ℕ)) (tree : Tree) (lists : Lists) → E.told edits.old ≡ Some m → IsReady (geometry_of sup.now) bitmap.old m tree lists → IfOk result (λ n. n ≤ logged_need (volume_in (geometry_of sup.now) m) tree (Remove dir name.now)) }
    ensures few { IfOk result (λ n. n < 1099511627776) }
    ensures bitmap { bitmap.new ≡ bitmap.old }
    ensures told { E.told edits.new ≡ E.told edits.old }
    ensures changed { E.changed edits.new ≡ E.changed edits.old }
    ensures size { E.size edits.new ≡ E.size edits.old }
    ensures frame { E.frame edits.new ≡ E.frame edits.old }
    ensures later { AreLater (E.counts edits.old) (E.counts edits.new) }
    ensures cause { IfErr result (HasAnswerCause (E.counts edits.old) (E.counts edits.new)) }
{
    let id = match child_id(alloc, sup, bitmap, edits, dir, name) {
        Ok(id) => id,
        Err(fault) => return Err(fault),
    };
    let indices = match built_in_indices(alloc, sup, bitmap, edits) {
        Ok(indices) => indices,
        Err(fault) => return Err(fault),
    };
    let listed = match attribute_indices(alloc, sup, bitmap, edits, id) {
        Ok(listed) => listed,
        Err(fault) => return Err(fault),
    };
    let most = bitmap_blocks(sup);
    let site = Site { alloc, sup: *sup };
    let left = match node_streams(site, edits, id, most) {
        Ok(left) => left,
        Err(fault) => return Err(fault),
    };
    let rows = 1 + built_in_count(indices) + listed;
    Ok(28 * rows + left + 8)
}
