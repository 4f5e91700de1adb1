// A node is listed under an attribute that it has anew.
ghost use Rattle.std.specs.Prelude.{◌≡◌, ◌<◌, ◌^◌, ℕ, List, Option, Some, OnOk, IfErr, IfSome};
ghost use Rattle.bfs_base.specs.Keys.{IsKey, IsTreeKind};
ghost use Rattle.bfs_super.specs.Conditions.{IsValid, natural};
ghost use Rattle.bfs_super.specs.Geometry.{geometry_of};
ghost use Rattle.bfs_txn.specs.Faults.{AreLater};
ghost use Rattle.bfs_txn.specs.Told.{StaysChanged};
ghost use Rattle.bfs_stream.specs.Grown.{IsOfVolume};
ghost use Rattle.bfs_stream.specs.Sizes.{sizes_of};
ghost use Rattle.bfs_tree.specs.Trees.{Attribute, Node, Tree};
ghost use Rattle.bfs_shift.specs.Lists.{Lists};
ghost use Rattle.bfs_attr_calls.specs.Done.{IsUnanswered, HasAnswerCause};
ghost use Rattle.bfs_attr_put.specs.Listed.{IsDue, IsPutOnly, HasPutOnly, HasListedUnder};

use crate::due::Due;
use bfs_attr_calls::moves::list_pair;
use bfs_bitmap::Bitmap;
use bfs_stream_pages::MapFault;
use bfs_super::Super;
use bfs_txn::Edits;
use std::alloc::Global;

/// Lists a node in the index that is to list it, if there is one.
pub(crate) fn list_attribute<E: Edits>(
    alloc: Global,
    sup: &Super,
    bitmap: &mut Bitmap,
    edits: &mut E,
    id: u64,
    due: &Option<Due>,
) -> Result<(), MapFault>
    requires valid { IsValid sup.now }
    requires size { E.size edits.old ≡ sup.now.block_size }
    requires volume { IsOfVolume (sizes_of sup.now) bitmap.old }
    requires id { id < 2 ^ 62 }
    requires below { IfSome due.now (λ due. due.inode < natural sup.now.num_blocks) }
    requires tree { IfSome due.now (λ due. IsTreeKind due.kind) }
    requires key { IfSome due.now (λ due. IsKey due.kind due.key) }
    requires put { (m : ℕ → Option (List ℕ)) → E.told edits.old ≡ Some m → HasPutOnly (geometry_of sup.now) bitmap.old m id due.now }
    ensures listed { (m : ℕ → Option (List ℕ)) (tree since : Tree) (lists begun : Lists) (n : Node) (name : List ℕ) (attribute : Attribute) → E.told edits.old ≡ Some m → IsPutOnly (geometry_of sup.now) bitmap.old m tree since lists begun id n name → IsDue lists name attribute due.now → OnOk result (HasListedUnder (geometry_of sup.now) bitmap.old bitmap.new m since lists id name attribute (E.told edits.new) (E.changed edits.old) (E.changed edits.new)) }
    ensures unanswered { (m : ℕ → Option (List ℕ)) → E.told edits.old ≡ Some m → IfErr result IsUnanswered }
    ensures cause { IfErr result (HasAnswerCause (E.counts edits.old) (E.counts edits.new)) }
    ensures rest { bitmap.new ≡ record bitmap.old { tally = bitmap.new.tally } }
    ensures stays { StaysChanged (E.changed edits.old) (E.changed edits.new) }
    ensures size { E.size edits.new ≡ E.size edits.old }
    ensures frame { E.frame edits.new ≡ E.frame edits.old }
    ensures later { AreLater (E.counts edits.old) (E.counts edits.new) }
{
    match due {
        None => Ok(()),
        Some(due) => match list_pair(
            alloc,
            sup,
            bitmap,
            edits,
            due.inode,
            due.kind,
            due.key.as_slice(),
            id,
        ) {
            Ok(()) => Ok(()),
            Err(fault) => Err(fault),
        },
    }
}
