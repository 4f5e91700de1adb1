// A file is given a size.
ghost use Rattle.std.specs.Prelude.{◌≡◌, ◌<◌, ◌≤◌, ℕ, List, [], Option, Some, None, true, OnOk, IfOk, IfErr, MatchResult};
ghost use Rattle.bfs_super.specs.Conditions.{IsValid, natural};
ghost use Rattle.bfs_super.specs.Geometry.{geometry_of};
ghost use Rattle.bfs_bitmap.specs.Runs.{as_kept};
ghost use Rattle.bfs_txn.specs.Faults.{AreLater};
ghost use Rattle.bfs_txn.specs.Told.{StaysChanged};
ghost use Rattle.bfs_stream.specs.Grown.{IsOfVolume};
ghost use Rattle.bfs_stream.specs.Sizes.{sizes_of};
ghost use Rattle.bfs_tree.specs.declared.call.Call.TheVariants.{SetSize};
ghost use Rattle.bfs_tree.specs.declared.state.Hold as holding;
ghost use Rattle.bfs_tree.specs.Refusals.{own_refusal};
ghost use Rattle.bfs_tree.specs.States.{State};
ghost use Rattle.bfs_tree.specs.Trees.{Node, Tree, IsNode};
ghost use Rattle.bfs_maps.specs.Refused.{IsUndone};
ghost use Rattle.bfs_shift.specs.Lists.{Lists};
ghost use Rattle.bfs_look.specs.Ready.{IsReady, HasReady};
ghost use Rattle.bfs_calls.specs.Done.{IsUnanswered, HasAnswerCause};
ghost use Rattle.bfs_calls.specs.Made.{LieBelow};
ghost use Rattle.bfs_set_size.specs.Relisted.{AreBefore};
ghost use Rattle.bfs_set_size.specs.Sized.{MayBeSized, IsUnrefused, IsSizedSo};

use crate::relisting::list_anew;
use crate::resizing::resize;
use bfs_bitmap::Bitmap;
use bfs_calls::{BuiltIn, built_in_indices};
use bfs_look::{Site, info_at};
use bfs_stream_pages::MapFault;
use bfs_super::Super;
use bfs_txn::Edits;
use std::alloc::Global;

/// What is read of a file before its size changes.
#[derive(Clone, Copy)]
pub(crate) struct Before {
    pub(crate) indices: BuiltIn,
    pub(crate) size: u64,
    pub(crate) modified: i64,
}

/// Reads which indices there are, and the keys under which they list a file.
pub(crate) fn before_at<E: Edits>(
    alloc: Global,
    sup: &Super,
    bitmap: &mut Bitmap,
    edits: &mut E,
    id: u64,
) -> Result<Before, MapFault>
    requires valid { IsValid sup.now }
    requires size { E.size edits.old ≡ sup.now.block_size }
    requires ready { (m : ℕ → Option (List ℕ)) → E.told edits.old ≡ Some m → HasReady (geometry_of sup.now) bitmap.old m }
    ensures found { (m : ℕ → Option (List ℕ)) (tree : Tree) (lists : Lists) (n : Node) → E.told edits.old ≡ Some m → IsReady (geometry_of sup.now) bitmap.old m tree lists → IsNode tree id n → MatchResult result (λ b. AreBefore lists n b.indices b.size b.modified) IsUndone }
    ensures inside { IfOk result (λ b. LieBelow (natural sup.now.num_blocks) b.indices) }
    ensures bitmap { bitmap.new ≡ bitmap.old }
    ensures told { E.told edits.new ≡ E.told edits.old }
    ensures changed { E.changed edits.new ≡ E.changed edits.old }
    ensures size { E.size edits.new ≡ E.size edits.old }
    ensures frame { E.frame edits.new ≡ E.frame edits.old }
    ensures later { AreLater (E.counts edits.old) (E.counts edits.new) }
    ensures cause { IfErr result (HasAnswerCause (E.counts edits.old) (E.counts edits.new)) }
{
    let indices = match built_in_indices(alloc, sup, bitmap, edits) {
        Ok(indices) => indices,
        Err(fault) => return Err(fault),
    };
    let site = Site { alloc, sup: *sup };
    match info_at(site, edits, id) {
        Ok(info) => Ok(Before {
            indices,
            size: info.size,
            modified: info.modified,
        }),
        Err(fault) => Err(fault),
    }
}

/// Gives a file a size where the call has no refusal of its own: the reply is Done. The stamp is that of the call; it becomes the file's stamps
/// of the last changes of its content and its status. A file that is cut gives blocks back; one that grows gets free blocks, whose bytes aren't
/// written. After a fault the edits are to be dropped.
pub fn set_size<E: Edits>(
    alloc: Global,
    sup: &Super,
    bitmap: &mut Bitmap,
    edits: &mut E,
    id: u64,
    size: u64,
    stamp: i64,
) -> Result<(), MapFault>
    requires valid { IsValid sup.now }
    requires size { E.size edits.old ≡ sup.now.block_size }
    requires volume { IsOfVolume (sizes_of sup.now) bitmap.old }
    requires ready { (m : ℕ → Option (List ℕ)) → E.told edits.old ≡ Some m → HasReady (geometry_of sup.now) bitmap.old m }
    requires may { MayBeSized (natural sup.now.num_blocks) id size }
    requires fine { (m : ℕ → Option (List ℕ)) (tree : Tree) (lists : Lists) → E.told edits.old ≡ Some m → IsReady (geometry_of sup.now) bitmap.old m tree lists → IsUnrefused tree (SetSize id size) }
    ensures done { (m : ℕ → Option (List ℕ)) (tree : Tree) (lists : Lists) (holds : List holding.Hold) → E.told edits.old ≡ Some m → IsReady (geometry_of sup.now) bitmap.old m tree lists → ((s : State) → s.tree ≡ tree → s.holds ≡ holds → own_refusal (SetSize id size) s ≡ None) → OnOk result (IsSizedSo (geometry_of sup.now) bitmap.old bitmap.new m tree holds stamp id size (E.told edits.new) (E.changed edits.old) (E.changed edits.new)) }
    ensures unanswered { (m : ℕ → Option (List ℕ)) (tree : Tree) (lists : Lists) → E.told edits.old ≡ Some m → IsReady (geometry_of sup.now) bitmap.old m tree lists → IfErr result IsUnanswered }
    ensures cause { IfErr result (HasAnswerCause (E.counts edits.old) (E.counts edits.new)) }
    ensures rest { bitmap.new ≡ record bitmap.old { given = bitmap.new.given; tally = bitmap.new.tally } }
    ensures kept { as_kept bitmap.new ≡ as_kept bitmap.old }
    ensures stays { StaysChanged (E.changed edits.old) (E.changed edits.new) }
    ensures size { E.size edits.new ≡ E.size edits.old }
    ensures frame { E.frame edits.new ≡ E.frame edits.old }
    ensures later { AreLater (E.counts edits.old) (E.counts edits.new) }
{
    let before = match before_at(alloc, sup, bitmap, edits, id) {
        Ok(before) => before,
        Err(fault) => return Err(fault),
    };
    match resize(alloc, sup, bitmap, edits, id, before.size, size, stamp) {
        Ok(()) => {}
        Err(fault) => return Err(fault),
    }
    match list_anew(
        alloc,
        sup,
        bitmap,
        edits,
        id,
        before.indices,
        before.size,
        before.modified,
        size,
        stamp,
    ) {
        Ok(()) => Ok(()),
        Err(fault) => Err(fault),
    }
}
