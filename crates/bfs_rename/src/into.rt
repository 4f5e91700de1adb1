// Whether a node may come into a directory under a name.
ghost use Rattle.std.specs.Prelude.{◌≡◌, ◌<◌, ℕ, List, Option, Some, None, true, IfSome, IfOk, IfErr, MatchResult};
ghost use Rattle.bfs_super.specs.Conditions.{IsValid, natural};
ghost use Rattle.bfs_super.specs.Geometry.{geometry_of};
ghost use Rattle.bfs_txn.specs.Faults.{AreLater};
ghost use Rattle.bfs_tree.specs.Refusals.{first};
ghost use Rattle.bfs_tree.specs.States.{State};
ghost use Rattle.bfs_tree.specs.Trees.{Node, Tree, IsNode};
ghost use Rattle.bfs_maps.specs.Refused.{IsUndone, HasReadCause};
ghost use Rattle.bfs_shift.specs.Lists.{Lists};
ghost use Rattle.bfs_look.specs.Ready.{IsReady, HasReady};
ghost use Rattle.bfs_calls.specs.Refusals.{is_own};
ghost use Rattle.bfs_rename.specs.Refused.{into_refusals, IsPlace};

use crate::below::is_inside;
use crate::over::over_refusal;
use bfs_bitmap::Bitmap;
use bfs_look::{Site, node_at};
use bfs_remove_node::Child;
use bfs_stream_pages::MapFault;
use bfs_super::Super;
use bfs_tree::{Hold, Reply, is_bad_name};
use bfs_txn::Edits;
use std::alloc::Global;

/// The refusal of a call that gives a node a name in a directory, by the directory, the name, and the node that has it there.
pub(crate) fn into_refusal<E: Edits>(
    alloc: Global,
    sup: &Super,
    bitmap: &mut Bitmap,
    edits: &mut E,
    holds: &[Hold],
    child: Child,
    to_dir: u64,
    to_name: &[u8],
) -> Result<Option<Reply>, MapFault>
    requires valid { IsValid sup.now }
    requires size { E.size edits.old ≡ sup.now.block_size }
    requires ready { (m : ℕ → Option (List ℕ)) → E.told edits.old ≡ Some m → HasReady (geometry_of sup.now) bitmap.old m }
    ensures refused { (m : ℕ → Option (List ℕ)) (tree : Tree) (lists : Lists) (s : State) (n : Node) → E.told edits.old ≡ Some m → IsReady (geometry_of sup.now) bitmap.old m tree lists → s.tree ≡ tree → s.holds ≡ holds.now → child.kind ≡ n.kind → MatchResult result (λ o. o ≡ first (into_refusals s child.id n to_dir to_name.now)) IsUndone }
    ensures own { IfOk result (λ o. IfSome o (λ reply. is_own reply ≡ true)) }
    ensures may { IfOk result (λ o. o ≡ None → IsPlace (natural sup.now.num_blocks) to_dir to_name.now) }
    ensures bitmap { bitmap.new ≡ bitmap.old }
    ensures told { E.told edits.new ≡ E.told edits.old }
    ensures changed { E.changed edits.new ≡ E.changed edits.old }
    ensures size { E.size edits.new ≡ E.size edits.old }
    ensures frame { E.frame edits.new ≡ E.frame edits.old }
    ensures later { AreLater (E.counts edits.old) (E.counts edits.new) }
    ensures cause { IfErr result (HasReadCause (E.counts edits.old) (E.counts edits.new)) }
{
    let there = match node_at(alloc, sup, bitmap, edits, to_dir) {
        Ok(there) => there,
        Err(fault) => return Err(fault),
    };
    let kind = match there {
        Some(kind) => kind,
        None => return Ok(Some(Reply::NotFound)),
    };
    if !kind.is_dir() {
        return Ok(Some(Reply::NotDir));
    }
    if is_bad_name(to_name) {
        return Ok(Some(Reply::NameBad));
    }
    let site = Site { alloc, sup: *sup };
    let inside = match is_inside(site, edits, child, to_dir) {
        Ok(inside) => inside,
        Err(fault) => return Err(fault),
    };
    if inside {
        return Ok(Some(Reply::Inside));
    }
    match over_refusal(alloc, sup, bitmap, edits, holds, child, to_dir, to_name) {
        Ok(refusal) => Ok(refusal),
        Err(fault) => Err(fault),
    }
}
