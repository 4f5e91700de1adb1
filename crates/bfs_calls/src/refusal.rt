// Whether a call that makes a node is refused.
ghost use Rattle.std.specs.Prelude.{◌≡◌, ◌≤◌, ◌<◌, ℕ, List, Option, Some, None, true, false, IfSome, IfOk, IfErr, MatchResult, length};
ghost use Rattle.bfs_super.specs.Conditions.{IsValid, natural};
ghost use Rattle.bfs_super.specs.Geometry.{geometry_of};
ghost use Rattle.bfs_txn.specs.Faults.{AreLater};
ghost use Rattle.bfs_tree.specs.declared.call.Call.TheVariants.{Make};
ghost use Rattle.bfs_tree.specs.Names.{is_bad_name, is_bad_target, target_of};
ghost use Rattle.bfs_tree.specs.Refusals.{own_refusal};
ghost use Rattle.bfs_tree.specs.States.{State};
ghost use Rattle.bfs_tree.specs.Trees.{Tree};
ghost use Rattle.bfs_maps.specs.Refused.{IsUndone, HasReadCause};
ghost use Rattle.bfs_shift.specs.Lists.{Lists};
ghost use Rattle.bfs_look.specs.Ready.{IsReady, HasReady};
ghost use Rattle.bfs_calls.specs.Refusals.{MayBeMade, is_own, taken_by};

use bfs_bitmap::Bitmap;
use bfs_look::{lookup, node_at};
use bfs_stream_pages::MapFault;
use bfs_super::Super;
use bfs_tree::{MakeKind, Reply, is_bad_name, is_bad_target};
use bfs_txn::Edits;
use std::alloc::Global;

/// The refusal of a name that is taken, by what a look-up of it answers.
fn refusal_by(found: &Reply) -> Option<Reply>
    ensures reply { result ≡ taken_by found.now }
    ensures own { IfSome result (λ reply. is_own reply ≡ true) }
{
    match found {
        Reply::NotFound => None,
        _ => Some(Reply::Exists),
    }
}

/// The refusal that a call has of its own which makes a node, or None where it may be made.
pub fn make_refusal<E: Edits>(
    alloc: Global,
    sup: &Super,
    bitmap: &mut Bitmap,
    edits: &mut E,
    dir: u64,
    name: &[u8],
    kind: &MakeKind,
) -> Result<Option<Reply>, MapFault>
    requires valid { IsValid sup.now }
    requires size { E.size edits.old ≡ sup.now.block_size }
    requires ready { (m : ℕ → Option (List ℕ)) → E.told edits.old ≡ Some m → HasReady (geometry_of sup.now) bitmap.old m }
    ensures refused { (m : ℕ → Option (List ℕ)) (tree : Tree) (lists : Lists) (s : State) (mode : ℕ) → E.told edits.old ≡ Some m → IsReady (geometry_of sup.now) bitmap.old m tree lists → s.tree ≡ tree → MatchResult result (λ o. o ≡ own_refusal (Make dir name.now kind.now mode) s) IsUndone }
    ensures own { IfOk result (λ o. IfSome o (λ reply. is_own reply ≡ true)) }
    ensures may { IfOk result (λ o. o ≡ None → MayBeMade (natural sup.now.num_blocks) dir name.now kind.now) }
    ensures bitmap { bitmap.new ≡ bitmap.old }
    ensures told { E.told edits.new ≡ E.told edits.old }
    ensures changed { E.changed edits.new ≡ E.changed edits.old }
    ensures size { E.size edits.new ≡ E.size edits.old }
    ensures frame { E.frame edits.new ≡ E.frame edits.old }
    ensures later { AreLater (E.counts edits.old) (E.counts edits.new) }
    ensures cause { IfErr result (HasReadCause (E.counts edits.old) (E.counts edits.new)) }
{
    let there = match node_at(alloc, sup, bitmap, edits, dir) {
        Ok(there) => there,
        Err(fault) => return Err(fault),
    };
    let at = match there {
        Some(at) => at,
        None => return Ok(Some(Reply::NotFound)),
    };
    if !at.is_dir() {
        return Ok(Some(Reply::NotDir));
    }
    if is_bad_name(name) || is_bad_target(kind) {
        return Ok(Some(Reply::NameBad));
    }
    if kind.target_len() > 1024 {
        return Ok(Some(Reply::TooBig));
    }
    match lookup(alloc, sup, bitmap, edits, dir, name) {
        Ok(found) => Ok(refusal_by(&found)),
        Err(fault) => Err(fault),
    }
}
