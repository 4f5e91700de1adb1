// An attribute is written.
ghost use Rattle.std.specs.Prelude.{◌≡◌, ◌<◌, ℕ, List, Option, Some, max, length, OnOk, IfErr, IfSome};
ghost use Rattle.bfs_base.specs.Keys.{IsKey, IsTreeKind};
ghost use Rattle.bfs_super.specs.Conditions.{IsValid, ceil, natural};
ghost use Rattle.bfs_super.specs.Geometry.{geometry_of};
ghost use Rattle.bfs_bitmap.specs.Runs.{as_kept};
ghost use Rattle.bfs_txn.specs.Faults.{AreLater};
ghost use Rattle.bfs_txn.specs.Told.{StaysChanged};
ghost use Rattle.bfs_stream.specs.Grown.{IsOfVolume};
ghost use Rattle.bfs_stream.specs.Sizes.{sizes_of};
ghost use Rattle.bfs_stream.specs.Standing.{standing};
ghost use Rattle.bfs_tree.specs.Trees.{Tree};
ghost use Rattle.bfs_shift.specs.Lists.{Lists};
ghost use Rattle.bfs_look.specs.Ready.{IsReady, HasReady, HasNodeAt};
ghost use Rattle.bfs_attr_calls.specs.Done.{IsUnanswered};
ghost use Rattle.bfs_attr_put.specs.Listed.{IsDue};
ghost use Rattle.bfs_attr_put.specs.Written.{MayBear, IsAttributeWritten, HasWriteCause};

use crate::changing::change_attribute;
use crate::due::{Due, due_for};
use crate::leaving::leave_index;
use crate::listing::list_attribute;
use bfs_bitmap::Bitmap;
use bfs_stream_pages::MapFault;
use bfs_super::Super;
use bfs_txn::Edits;
use std::alloc::Global;

/// Writes an attribute of a node that an index is to list under a key, or none is.
fn write_due<E: Edits>(
    alloc: Global,
    sup: &Super,
    bitmap: &mut Bitmap,
    edits: &mut E,
    id: u64,
    name: &[u8],
    kind: u32,
    bytes: &[u8],
    stamp: i64,
    due: &Option<Due>,
) -> Result<(), MapFault>
    requires valid { IsValid sup.now }
    requires size { E.size edits.old ≡ sup.now.block_size }
    requires volume { IsOfVolume (sizes_of sup.now) bitmap.old }
    requires ready { (m : ℕ → Option (List ℕ)) → E.told edits.old ≡ Some m → HasReady (geometry_of sup.now) bitmap.old m }
    requires may { MayBear (natural sup.now.num_blocks) id name.now bytes.now }
    requires there { (m : ℕ → Option (List ℕ)) (tree : Tree) (lists : Lists) → E.told edits.old ≡ Some m → IsReady (geometry_of sup.now) bitmap.old m tree lists → HasNodeAt tree id }
    requires below { IfSome due.now (λ due. due.inode < natural sup.now.num_blocks) }
    requires tree { IfSome due.now (λ due. IsTreeKind due.kind) }
    requires key { IfSome due.now (λ due. IsKey due.kind due.key) }
    requires due { (m : ℕ → Option (List ℕ)) (tree : Tree) (lists : Lists) → E.told edits.old ≡ Some m → IsReady (geometry_of sup.now) bitmap.old m tree lists → IsDue lists name.now (record { code = kind; bytes = bytes.now }) due.now }
    ensures written { (m : ℕ → Option (List ℕ)) (tree : Tree) (lists : Lists) → E.told edits.old ≡ Some m → IsReady (geometry_of sup.now) bitmap.old m tree lists → OnOk result (IsAttributeWritten (geometry_of sup.now) bitmap.old bitmap.new m tree id name.now (record { code = kind; bytes = bytes.now }) stamp (E.told edits.new) (E.changed edits.old) (E.changed edits.new)) }
    ensures unanswered { (m : ℕ → Option (List ℕ)) (tree : Tree) (lists : Lists) → E.told edits.old ≡ Some m → IsReady (geometry_of sup.now) bitmap.old m tree lists → IfErr result IsUnanswered }
    ensures cause { IfErr result (HasWriteCause (max 1 (max (ceil 2048 sup.now.block_size) (ceil (length bytes.now) sup.now.block_size))) (E.counts edits.old) (E.counts edits.new)) }
    ensures rest { bitmap.new ≡ record bitmap.old { given = bitmap.new.given; tally = bitmap.new.tally } }
    ensures kept { as_kept bitmap.new ≡ as_kept bitmap.old }
    ensures standing { standing bitmap.new ≡ standing bitmap.old }
    ensures stays { StaysChanged (E.changed edits.old) (E.changed edits.new) }
    ensures size { E.size edits.new ≡ E.size edits.old }
    ensures frame { E.frame edits.new ≡ E.frame edits.old }
    ensures later { AreLater (E.counts edits.old) (E.counts edits.new) }
{
    match leave_index(alloc, sup, bitmap, edits, id, name) {
        Ok(()) => {}
        Err(fault) => return Err(fault),
    }
    match change_attribute(alloc, sup, bitmap, edits, id, name, kind, bytes, stamp) {
        Ok(()) => {}
        Err(fault) => return Err(fault),
    }
    match list_attribute(alloc, sup, bitmap, edits, id, due) {
        Ok(()) => Ok(()),
        Err(fault) => Err(fault),
    }
}

/// Writes an attribute of a node, where the call has no refusal of its own: the node has it in the place of the one of its name, and the stamp
/// of the call as that of the last change of its status, and the index of the attribute's name lists the node under the new key and no more
/// under the old one. After a fault the call is to be dropped.
pub fn write_attr<E: Edits>(
    alloc: Global,
    sup: &Super,
    bitmap: &mut Bitmap,
    edits: &mut E,
    id: u64,
    name: &[u8],
    kind: u32,
    bytes: &[u8],
    stamp: i64,
) -> Result<(), MapFault>
    requires valid { IsValid sup.now }
    requires size { E.size edits.old ≡ sup.now.block_size }
    requires volume { IsOfVolume (sizes_of sup.now) bitmap.old }
    requires ready { (m : ℕ → Option (List ℕ)) → E.told edits.old ≡ Some m → HasReady (geometry_of sup.now) bitmap.old m }
    requires may { MayBear (natural sup.now.num_blocks) id name.now bytes.now }
    requires there { (m : ℕ → Option (List ℕ)) (tree : Tree) (lists : Lists) → E.told edits.old ≡ Some m → IsReady (geometry_of sup.now) bitmap.old m tree lists → HasNodeAt tree id }
    ensures written { (m : ℕ → Option (List ℕ)) (tree : Tree) (lists : Lists) → E.told edits.old ≡ Some m → IsReady (geometry_of sup.now) bitmap.old m tree lists → OnOk result (IsAttributeWritten (geometry_of sup.now) bitmap.old bitmap.new m tree id name.now (record { code = kind; bytes = bytes.now }) stamp (E.told edits.new) (E.changed edits.old) (E.changed edits.new)) }
    ensures unanswered { (m : ℕ → Option (List ℕ)) (tree : Tree) (lists : Lists) → E.told edits.old ≡ Some m → IsReady (geometry_of sup.now) bitmap.old m tree lists → IfErr result IsUnanswered }
    ensures cause { IfErr result (HasWriteCause (max 1 (max (ceil 2048 sup.now.block_size) (ceil (length bytes.now) sup.now.block_size))) (E.counts edits.old) (E.counts edits.new)) }
    ensures rest { bitmap.new ≡ record bitmap.old { given = bitmap.new.given; tally = bitmap.new.tally } }
    ensures kept { as_kept bitmap.new ≡ as_kept bitmap.old }
    ensures standing { standing bitmap.new ≡ standing bitmap.old }
    ensures stays { StaysChanged (E.changed edits.old) (E.changed edits.new) }
    ensures size { E.size edits.new ≡ E.size edits.old }
    ensures frame { E.frame edits.new ≡ E.frame edits.old }
    ensures later { AreLater (E.counts edits.old) (E.counts edits.new) }
{
    let due = match due_for(alloc, sup, bitmap, edits, name, kind, bytes) {
        Ok(due) => due,
        Err(fault) => return Err(fault),
    };
    match write_due(
        alloc, sup, bitmap, edits, id, name, kind, bytes, stamp, &due,
    ) {
        Ok(()) => Ok(()),
        Err(fault) => Err(fault),
    }
}
