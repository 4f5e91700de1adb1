// Whether a call that removes an attribute is refused.
ghost use Rattle.std.specs.Prelude.{◌≡◌, ℕ, List, Option, Some, true, IfSome, IfOk, IfErr, MatchResult};
ghost use Rattle.bfs_super.specs.Conditions.{IsValid};
ghost use Rattle.bfs_super.specs.Geometry.{geometry_of};
ghost use Rattle.bfs_txn.specs.Faults.{AreLater};
ghost use Rattle.bfs_tree.specs.declared.call.Call.TheVariants.{AttrRemove};
ghost use Rattle.bfs_tree.specs.Refusals.{own_refusal};
ghost use Rattle.bfs_tree.specs.States.{State};
ghost use Rattle.bfs_tree.specs.Trees.{Tree};
ghost use Rattle.bfs_maps.specs.Refused.{IsUndone, HasReadCause};
ghost use Rattle.bfs_shift.specs.Lists.{Lists};
ghost use Rattle.bfs_look.specs.Ready.{IsReady, HasReady};
ghost use Rattle.bfs_unmake.specs.Refusals.{is_own};
ghost use Rattle.bfs_attr_calls.specs.Refused.{refused_by};

use bfs_bitmap::Bitmap;
use bfs_query::attr_read;
use bfs_stream_pages::MapFault;
use bfs_super::Super;
use bfs_tree::Reply;
use bfs_txn::Edits;
use std::alloc::Global;

/// The refusal by what a read of the attribute has answered, or None where it has answered the attribute.
fn refusal_by(read: &Reply) -> Option<Reply>
    ensures refusal { result ≡ refused_by read.now }
    ensures own { IfSome result (λ reply. is_own reply ≡ true) }
{
    match read {
        Reply::NotFound => Some(Reply::NotFound),
        Reply::NoAttr => Some(Reply::NoAttr),
        _ => None,
    }
}

/// The refusal that a call has of its own which removes an attribute, or None where the attribute may be removed.
pub fn attr_remove_refusal<E: Edits>(
    alloc: Global,
    sup: &Super,
    bitmap: &mut Bitmap,
    edits: &mut E,
    id: u64,
    name: &[u8],
) -> Result<Option<Reply>, MapFault>
    requires valid { IsValid sup.now }
    requires size { E.size edits.old ≡ sup.now.block_size }
    requires ready { (m : ℕ → Option (List ℕ)) → E.told edits.old ≡ Some m → HasReady (geometry_of sup.now) bitmap.old m }
    ensures refused { (m : ℕ → Option (List ℕ)) (tree : Tree) (lists : Lists) (s : State) → E.told edits.old ≡ Some m → IsReady (geometry_of sup.now) bitmap.old m tree lists → s.tree ≡ tree → MatchResult result (λ o. o ≡ own_refusal (AttrRemove id name.now) s) IsUndone }
    ensures own { IfOk result (λ o. IfSome o (λ reply. is_own reply ≡ true)) }
    ensures bitmap { bitmap.new ≡ bitmap.old }
    ensures told { E.told edits.new ≡ E.told edits.old }
    ensures changed { E.changed edits.new ≡ E.changed edits.old }
    ensures size { E.size edits.new ≡ E.size edits.old }
    ensures frame { E.frame edits.new ≡ E.frame edits.old }
    ensures later { AreLater (E.counts edits.old) (E.counts edits.new) }
    ensures cause { IfErr result (HasReadCause (E.counts edits.old) (E.counts edits.new)) }
{
    let read = match attr_read(alloc, sup, bitmap, edits, id, name) {
        Ok(read) => read,
        Err(fault) => return Err(fault),
    };
    Ok(refusal_by(&read))
}
