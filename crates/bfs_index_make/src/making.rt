// An index is made.
ghost use Rattle.std.specs.Prelude.{◌≡◌, ℕ, List, Option, Some, OnOk, IfErr};
ghost use Rattle.bfs_super.specs.Conditions.{IsValid};
ghost use Rattle.bfs_super.specs.Geometry.{geometry_of};
ghost use Rattle.bfs_txn.specs.Faults.{AreLater};
ghost use Rattle.bfs_txn.specs.Told.{StaysChanged};
ghost use Rattle.bfs_stream.specs.Grown.{IsOfVolume};
ghost use Rattle.bfs_stream.specs.Sizes.{sizes_of};
ghost use Rattle.bfs_tree.specs.Listings.{listed};
ghost use Rattle.bfs_tree.specs.Trees.{Tree};
ghost use Rattle.bfs_shift.specs.Lists.{Lists};
ghost use Rattle.bfs_look.specs.Ready.{IsReady, HasReady};
ghost use Rattle.bfs_calls.specs.Done.{IsDone, IsUnanswered, HasAnswerCause};
ghost use Rattle.bfs_index_check.specs.Compared.{pairs_of};
ghost use Rattle.bfs_index_make.specs.Made.{MayIndex, IsNewIndex, HasNewIndex, with_new_index};

use crate::filling::fill;
use crate::gather::wanted_pairs;
use crate::growing::new_index;
use crate::joining::join_index;
use bfs_bitmap::Bitmap;
use bfs_index::Pair;
use bfs_node::KeyKind;
use bfs_stream_pages::MapFault;
use bfs_super::Super;
use bfs_txn::Edits;
use std::alloc::Global;

/// Makes an index with these pairs: its inode, its name in the index directory, and what it lists.
fn make_with<E: Edits>(
    alloc: Global,
    sup: &Super,
    bitmap: &mut Bitmap,
    edits: &mut E,
    name: &[u8],
    kind: KeyKind,
    stamp: i64,
    pairs: &[Pair],
) -> Result<(), MapFault>
    requires valid { IsValid sup.now }
    requires size { E.size edits.old ≡ sup.now.block_size }
    requires volume { IsOfVolume (sizes_of sup.now) bitmap.old }
    requires may { MayIndex name.now kind }
    requires ready { (m : ℕ → Option (List ℕ)) → E.told edits.old ≡ Some m → HasNewIndex (geometry_of sup.now) bitmap.old m name.now kind (pairs_of pairs.now) }
    ensures made { (m : ℕ → Option (List ℕ)) (tree : Tree) (lists : Lists) → E.told edits.old ≡ Some m → IsReady (geometry_of sup.now) bitmap.old m tree lists → IsNewIndex tree name.now → pairs_of pairs.now ≡ listed tree name.now kind → OnOk result (IsDone (geometry_of sup.now) bitmap.old bitmap.new m tree (with_new_index tree name.now kind) (E.told edits.new) (E.changed edits.old) (E.changed edits.new)) }
    ensures unanswered { (m : ℕ → Option (List ℕ)) (tree : Tree) (lists : Lists) → E.told edits.old ≡ Some m → IsReady (geometry_of sup.now) bitmap.old m tree lists → IsNewIndex tree name.now → pairs_of pairs.now ≡ listed tree name.now kind → IfErr result IsUnanswered }
    ensures cause { IfErr result (HasAnswerCause (E.counts edits.old) (E.counts edits.new)) }
    ensures rest { bitmap.new ≡ record bitmap.old { tally = bitmap.new.tally } }
    ensures stays { StaysChanged (E.changed edits.old) (E.changed edits.new) }
    ensures size { E.size edits.new ≡ E.size edits.old }
    ensures frame { E.frame edits.new ≡ E.frame edits.old }
    ensures later { AreLater (E.counts edits.old) (E.counts edits.new) }
{
    let inode = match new_index(alloc, sup, bitmap, edits, kind, stamp) {
        Ok(inode) => inode,
        Err(fault) => return Err(fault),
    };
    match join_index(alloc, sup, bitmap, edits, name, inode) {
        Ok(()) => {}
        Err(fault) => return Err(fault),
    }
    match fill(alloc, sup, bitmap, edits, inode, kind, pairs) {
        Ok(()) => Ok(()),
        Err(fault) => Err(fault),
    }
}

/// Makes an index where the call has no refusal of its own: its inode is made with a tree without rows, its name joins the index directory,
/// and each node that has an attribute of its name and type is listed. The stamp is that of its inode. After a fault the call is to be dropped.
pub fn make_index<E: Edits>(
    alloc: Global,
    sup: &Super,
    bitmap: &mut Bitmap,
    edits: &mut E,
    name: &[u8],
    kind: KeyKind,
    stamp: i64,
) -> Result<(), MapFault>
    requires valid { IsValid sup.now }
    requires size { E.size edits.old ≡ sup.now.block_size }
    requires volume { IsOfVolume (sizes_of sup.now) bitmap.old }
    requires ready { (m : ℕ → Option (List ℕ)) → E.told edits.old ≡ Some m → HasReady (geometry_of sup.now) bitmap.old m }
    requires may { MayIndex name.now kind }
    requires fresh { (m : ℕ → Option (List ℕ)) (tree : Tree) (lists : Lists) → E.told edits.old ≡ Some m → IsReady (geometry_of sup.now) bitmap.old m tree lists → IsNewIndex tree name.now }
    ensures made { (m : ℕ → Option (List ℕ)) (tree : Tree) (lists : Lists) → E.told edits.old ≡ Some m → IsReady (geometry_of sup.now) bitmap.old m tree lists → OnOk result (IsDone (geometry_of sup.now) bitmap.old bitmap.new m tree (with_new_index tree name.now kind) (E.told edits.new) (E.changed edits.old) (E.changed edits.new)) }
    ensures unanswered { (m : ℕ → Option (List ℕ)) (tree : Tree) (lists : Lists) → E.told edits.old ≡ Some m → IsReady (geometry_of sup.now) bitmap.old m tree lists → IfErr result IsUnanswered }
    ensures cause { IfErr result (HasAnswerCause (E.counts edits.old) (E.counts edits.new)) }
    ensures rest { bitmap.new ≡ record bitmap.old { tally = bitmap.new.tally } }
    ensures stays { StaysChanged (E.changed edits.old) (E.changed edits.new) }
    ensures size { E.size edits.new ≡ E.size edits.old }
    ensures frame { E.frame edits.new ≡ E.frame edits.old }
    ensures later { AreLater (E.counts edits.old) (E.counts edits.new) }
{
    let pairs = match wanted_pairs(alloc, sup, bitmap, edits, name, kind) {
        Ok(pairs) => pairs,
        Err(fault) => return Err(fault),
    };
    match make_with(alloc, sup, bitmap, edits, name, kind, stamp, &pairs) {
        Ok(()) => Ok(()),
        Err(fault) => Err(fault),
    }
}
