// Whether a call that writes an attribute is refused.
ghost use Rattle.std.specs.Prelude.{◌≡◌, ℕ, List, Option, Some, None, true, IfSome, IfOk, IfErr, MatchResult};
ghost use Rattle.bfs_super.specs.Conditions.{IsValid, natural};
ghost use Rattle.bfs_super.specs.Geometry.{geometry_of};
ghost use Rattle.bfs_txn.specs.Faults.{AreLater};
ghost use Rattle.bfs_tree.specs.declared.call.Call.TheVariants.{AttrWrite};
ghost use Rattle.bfs_tree.specs.Refusals.{own_refusal};
ghost use Rattle.bfs_tree.specs.States.{State};
ghost use Rattle.bfs_tree.specs.Trees.{Tree};
ghost use Rattle.bfs_maps.specs.Refused.{IsUndone, HasReadCause};
ghost use Rattle.bfs_shift.specs.Lists.{Lists};
ghost use Rattle.bfs_look.specs.Ready.{IsReady, HasReady};
ghost use Rattle.bfs_attr_calls.specs.Refusals.{is_own};
ghost use Rattle.bfs_attr_put.specs.Written.{MayBear};

use bfs_bitmap::Bitmap;
use bfs_look::node_at;
use bfs_stream_pages::MapFault;
use bfs_super::Super;
use bfs_tree::{Reply, is_bad_attribute_name};
use bfs_txn::Edits;
use std::alloc::Global;

/// An attribute has at most so many bytes.
const LARGEST: usize = 65536;

/// The refusal that a call has of its own which writes an attribute, or None where it may be written.
pub fn attr_write_refusal<E: Edits>(
    alloc: Global,
    sup: &Super,
    bitmap: &mut Bitmap,
    edits: &mut E,
    id: u64,
    name: &[u8],
    bytes: &[u8],
) -> Result<Option<Reply>, MapFault>
    requires valid { IsValid sup.now }
    requires size { E.size edits.old ≡ sup.now.block_size }
    requires ready { (m : ℕ → Option (List ℕ)) → E.told edits.old ≡ Some m → HasReady (geometry_of sup.now) bitmap.old m }
    ensures refused { (m : ℕ → Option (List ℕ)) (tree : Tree) (lists : Lists) (s : State) (kind : ℕ) → E.told edits.old ≡ Some m → IsReady (geometry_of sup.now) bitmap.old m tree lists → s.tree ≡ tree → MatchResult result (λ o. o ≡ own_refusal (AttrWrite id name.now kind bytes.now) s) IsUndone }
    ensures own { IfOk result (λ o. IfSome o (λ reply. is_own reply ≡ true)) }
    ensures may { IfOk result (λ o. o ≡ None → MayBear (natural sup.now.num_blocks) id name.now bytes.now) }
    ensures bitmap { bitmap.new ≡ bitmap.old }
    ensures told { E.told edits.new ≡ E.told edits.old }
    ensures changed { E.changed edits.new ≡ E.changed edits.old }
    ensures size { E.size edits.new ≡ E.size edits.old }
    ensures frame { E.frame edits.new ≡ E.frame edits.old }
    ensures later { AreLater (E.counts edits.old) (E.counts edits.new) }
    ensures cause { IfErr result (HasReadCause (E.counts edits.old) (E.counts edits.new)) }
{
    let there = match node_at(alloc, sup, bitmap, edits, id) {
        Ok(there) => there,
        Err(fault) => return Err(fault),
    };
    match there {
        Some(_) => {}
        None => return Ok(Some(Reply::NotFound)),
    }
    if is_bad_attribute_name(name) {
        return Ok(Some(Reply::NameBad));
    }
    if bytes.len() > LARGEST {
        return Ok(Some(Reply::TooBig));
    }
    Ok(None)
}
