// The child of a name in a directory.
ghost use Rattle.std.specs.Prelude.{◌≡◌, ◌<◌, ℕ, List, Option, Some, true, IfOk, IfErr, MatchResult};
ghost use Rattle.bfs_super.specs.Conditions.{IsValid, natural};
ghost use Rattle.bfs_super.specs.Geometry.{geometry_of};
ghost use Rattle.bfs_txn.specs.Faults.{AreLater};
ghost use Rattle.bfs_tree.specs.Trees.{Node, Tree, IsNode, child};
ghost use Rattle.bfs_tree.specs.declared.call.Kind.TheVariants.{Dir};
ghost use Rattle.bfs_maps.specs.Refused.{IsUndone, HasReadCause};
ghost use Rattle.bfs_calls.specs.Refusals.{is_own};
ghost use Rattle.bfs_shift.specs.Lists.{Lists};
ghost use Rattle.bfs_look.specs.Ready.{IsReady, HasReady};
ghost use Rattle.bfs_remove_node.specs.Refused.{found_in, refused_by};
ghost use Rattle.bfs_remove_node.specs.Removed.{MayBeRemoved, IsChildAt, IsOf};

use bfs_bitmap::Bitmap;
use bfs_calls::damaged;
use bfs_look::lookup;
use bfs_make::blocks_in;
use bfs_stream_pages::MapFault;
use bfs_super::Super;
use bfs_tree::{Kind, Reply};
use bfs_txn::Edits;
use std::alloc::Global;

/// A node in a directory, by its id and its kind.
#[derive(Clone, Copy, Debug)]
pub struct Child {
    pub id: u64,
    pub kind: Kind,
}

/// The node that a look-up has found, or None where it has found none.
pub fn child_in(found: &Reply) -> Option<Child>
    ensures { result ≡ found_in found.now }
{
    match found {
        Reply::Found { id, kind } => Some(Child {
            id: *id,
            kind: *kind,
        }),
        _ => None,
    }
}

/// The refusal of a call by a look-up that has found no node.
pub fn refusal_by(found: &Reply) -> Reply
    ensures reply { result ≡ refused_by found.now }
    ensures own { is_own result ≡ true }
{
    match found {
        Reply::NotDir => Reply::NotDir,
        _ => Reply::NotFound,
    }
}

/// The child of a name, which is there.
pub fn child_at<E: Edits>(
    alloc: Global,
    sup: &Super,
    bitmap: &mut Bitmap,
    edits: &mut E,
    dir: u64,
    name: &[u8],
) -> Result<Child, MapFault>
    requires valid { IsValid sup.now }
    requires size { E.size edits.old ≡ sup.now.block_size }
    requires ready { (m : ℕ → Option (List ℕ)) → E.told edits.old ≡ Some m → HasReady (geometry_of sup.now) bitmap.old m }
    ensures found { (m : ℕ → Option (List ℕ)) (tree : Tree) (lists : Lists) (d : Node) (e : ℕ × Node) → E.told edits.old ≡ Some m → IsReady (geometry_of sup.now) bitmap.old m tree lists → IsNode tree dir d → d.kind ≡ Dir → child tree dir name.now ≡ Some e → MatchResult result (IsOf e) IsUndone }
    ensures inside { IfOk result (λ c. c.id < natural sup.now.num_blocks) }
    ensures bitmap { bitmap.new ≡ bitmap.old }
    ensures told { E.told edits.new ≡ E.told edits.old }
    ensures changed { E.changed edits.new ≡ E.changed edits.old }
    ensures size { E.size edits.new ≡ E.size edits.old }
    ensures frame { E.frame edits.new ≡ E.frame edits.old }
    ensures later { AreLater (E.counts edits.old) (E.counts edits.new) }
    ensures cause { IfErr result (HasReadCause (E.counts edits.old) (E.counts edits.new)) }
{
    let found = match lookup(alloc, sup, bitmap, edits, dir, name) {
        Ok(found) => found,
        Err(fault) => return Err(fault),
    };
    let child = match child_in(&found) {
        Some(child) => child,
        None => return Err(damaged(dir)),
    };
    if child.id >= blocks_in(*sup) {
        return Err(damaged(dir));
    }
    Ok(child)
}

/// The id of the child of a name, which is there.
pub(crate) fn child_id<E: Edits>(
    alloc: Global,
    sup: &Super,
    bitmap: &mut Bitmap,
    edits: &mut E,
    dir: u64,
    name: &[u8],
) -> Result<u64, MapFault>
    requires valid { IsValid sup.now }
    requires size { E.size edits.old ≡ sup.now.block_size }
    requires ready { (m : ℕ → Option (List ℕ)) → E.told edits.old ≡ Some m → HasReady (geometry_of sup.now) bitmap.old m }
    ensures found { (m : ℕ → Option (List ℕ)) (tree : Tree) (lists : Lists) → E.told edits.old ≡ Some m → IsReady (geometry_of sup.now) bitmap.old m tree lists → MayBeRemoved tree dir name.now → IfOk result (IsChildAt tree dir name.now) }
    ensures inside { IfOk result (λ id. id < natural sup.now.num_blocks) }
    ensures undone { (m : ℕ → Option (List ℕ)) (tree : Tree) (lists : Lists) → E.told edits.old ≡ Some m → IsReady (geometry_of sup.now) bitmap.old m tree lists → MayBeRemoved tree dir name.now → IfErr result IsUndone }
    ensures bitmap { bitmap.new ≡ bitmap.old }
    ensures told { E.told edits.new ≡ E.told edits.old }
    ensures changed { E.changed edits.new ≡ E.changed edits.old }
    ensures size { E.size edits.new ≡ E.size edits.old }
    ensures frame { E.frame edits.new ≡ E.frame edits.old }
    ensures later { AreLater (E.counts edits.old) (E.counts edits.new) }
    ensures cause { IfErr result (HasReadCause (E.counts edits.old) (E.counts edits.new)) }
{
    match child_at(alloc, sup, bitmap, edits, dir, name) {
        Ok(child) => Ok(child.id),
        Err(fault) => Err(fault),
    }
}
