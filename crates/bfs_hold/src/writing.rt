// A file is held to be written: it counts as changed.
ghost use Rattle.std.specs.Prelude.{◌≡◌, ◌<◌, ℕ, List, Option, Some, OnOk, IfOk, IfErr, IfSome, MatchResult};
ghost use Rattle.bfs_super.specs.Conditions.{IsValid, natural};
ghost use Rattle.bfs_super.specs.Geometry.{geometry_of};
ghost use Rattle.bfs_bitmap.specs.Runs.{as_kept};
ghost use Rattle.bfs_txn.specs.Faults.{AreLater};
ghost use Rattle.bfs_txn.specs.Told.{StaysChanged};
ghost use Rattle.bfs_stream.specs.Grown.{IsOfVolume};
ghost use Rattle.bfs_stream.specs.Sizes.{sizes_of};
ghost use Rattle.bfs_tree.specs.Trees.{Node, Tree, IsNode};
ghost use Rattle.bfs_maps.specs.Refused.{IsUndone};
ghost use Rattle.bfs_shift.specs.Lists.{Lists};
ghost use Rattle.bfs_look.specs.Ready.{IsReady, HasReady};
ghost use Rattle.bfs_calls.specs.Done.{IsUnanswered, HasAnswerCause};
ghost use Rattle.bfs_hold.specs.Held.{IsListedAt, MayBeHeld, IsHeldSo};

use crate::stamps::put_stamps;
use bfs_bitmap::Bitmap;
use bfs_calls::{blocked, built_in_indices, stamp_key};
use bfs_look::{Site, info_at};
use bfs_node::KeyKind;
use bfs_set_size::relist;
use bfs_stream_pages::MapFault;
use bfs_super::Super;
use bfs_txn::Edits;
use std::alloc::Global;

/// What is read of a file before its stamps change: the index that lists it by its stamp, and that stamp.
#[derive(Clone, Copy)]
struct Listed {
    index: Option<u64>,
    modified: i64,
}

/// Reads whether there is an index of stamps, and the stamp under which it lists a file.
fn listed_at<E: Edits>(
    alloc: Global,
    sup: &Super,
    bitmap: &mut Bitmap,
    edits: &mut E,
    id: u64,
) -> Result<Listed, MapFault>
    requires valid { IsValid sup.now }
    requires size { E.size edits.old ≡ sup.now.block_size }
    requires ready { (m : ℕ → Option (List ℕ)) → E.told edits.old ≡ Some m → HasReady (geometry_of sup.now) bitmap.old m }
    ensures found { (m : ℕ → Option (List ℕ)) (tree : Tree) (lists : Lists) (n : Node) → E.told edits.old ≡ Some m → IsReady (geometry_of sup.now) bitmap.old m tree lists → IsNode tree id n → MatchResult result (λ l. IsListedAt lists n l.index l.modified) IsUndone }
    ensures inside { IfOk result (λ l. IfSome l.index (λ inode. inode < natural sup.now.num_blocks)) }
    ensures bitmap { bitmap.new ≡ bitmap.old }
    ensures told { E.told edits.new ≡ E.told edits.old }
    ensures changed { E.changed edits.new ≡ E.changed edits.old }
    ensures size { E.size edits.new ≡ E.size edits.old }
    ensures frame { E.frame edits.new ≡ E.frame edits.old }
    ensures later { AreLater (E.counts edits.old) (E.counts edits.new) }
    ensures cause { IfErr result (HasAnswerCause (E.counts edits.old) (E.counts edits.new)) }
{
    let indices = match built_in_indices(alloc, sup, bitmap, edits) {
        Ok(indices) => indices,
        Err(fault) => return Err(fault),
    };
    let site = Site { alloc, sup: *sup };
    match info_at(site, edits, id) {
        Ok(info) => Ok(Listed {
            index: indices.last_modified,
            modified: info.modified,
        }),
        Err(fault) => Err(fault),
    }
}

/// Makes a file count as changed, where a piece of it may be held to be written. The stamp is that of the call; it becomes the file's stamps of
/// the last changes of its content and its status, and the index of stamps lists the file under it. No byte of the file is written, and the
/// hold itself is its caller's to keep. After a fault the edits are to be dropped.
pub fn hold_to_write<E: Edits>(
    alloc: Global,
    sup: &Super,
    bitmap: &mut Bitmap,
    edits: &mut E,
    id: u64,
    stamp: i64,
) -> Result<(), MapFault>
    requires valid { IsValid sup.now }
    requires size { E.size edits.old ≡ sup.now.block_size }
    requires volume { IsOfVolume (sizes_of sup.now) bitmap.old }
    requires ready { (m : ℕ → Option (List ℕ)) → E.told edits.old ≡ Some m → HasReady (geometry_of sup.now) bitmap.old m }
    requires may { id < natural sup.now.num_blocks }
    requires fine { (m : ℕ → Option (List ℕ)) (tree : Tree) (lists : Lists) → E.told edits.old ≡ Some m → IsReady (geometry_of sup.now) bitmap.old m tree lists → MayBeHeld tree id }
    ensures done { (m : ℕ → Option (List ℕ)) (tree : Tree) (lists : Lists) → E.told edits.old ≡ Some m → IsReady (geometry_of sup.now) bitmap.old m tree lists → OnOk result (IsHeldSo (geometry_of sup.now) bitmap.old bitmap.new m tree id stamp (E.told edits.new) (E.changed edits.old) (E.changed edits.new)) }
    ensures unanswered { (m : ℕ → Option (List ℕ)) (tree : Tree) (lists : Lists) → E.told edits.old ≡ Some m → IsReady (geometry_of sup.now) bitmap.old m tree lists → IfErr result IsUnanswered }
    ensures cause { IfErr result (HasAnswerCause (E.counts edits.old) (E.counts edits.new)) }
    ensures rest { bitmap.new ≡ record bitmap.old { tally = bitmap.new.tally } }
    ensures kept { as_kept bitmap.new ≡ as_kept bitmap.old }
    ensures stays { StaysChanged (E.changed edits.old) (E.changed edits.new) }
    ensures size { E.size edits.new ≡ E.size edits.old }
    ensures frame { E.frame edits.new ≡ E.frame edits.old }
    ensures later { AreLater (E.counts edits.old) (E.counts edits.new) }
{
    let before = match listed_at(alloc, sup, bitmap, edits, id) {
        Ok(before) => before,
        Err(fault) => return Err(fault),
    };
    match put_stamps(alloc, sup, edits, id, stamp) {
        Ok(()) => {}
        Err(fault) => return Err(blocked(fault)),
    }
    let old = stamp_key(before.modified);
    let new = stamp_key(stamp);
    match relist(
        alloc,
        sup,
        bitmap,
        edits,
        before.index,
        KeyKind::I64,
        &old,
        &new,
        id,
    ) {
        Ok(()) => Ok(()),
        Err(fault) => Err(fault),
    }
}
