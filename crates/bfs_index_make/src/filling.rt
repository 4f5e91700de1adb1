// The pairs of a new index are put into it.
ghost use Rattle.std.specs.Prelude.{◌≡◌, ◌<◌, ◌∷◌, ◌++◌, [], ℕ, pos, List, Option, Some, true, false, OnOk, IfErr};
ghost use Rattle.bfs_base.specs.Keys.{IsKey, IsTreeKind};
ghost use Rattle.bfs_base.specs.declared.kind.KeyKind.TheVariants.{Text};
ghost use Rattle.bfs_super.specs.Conditions.{IsValid, natural};
ghost use Rattle.bfs_super.specs.Geometry.{geometry_of};
ghost use Rattle.bfs_txn.specs.Faults.{AreLater};
ghost use Rattle.bfs_txn.specs.Told.{StaysChanged};
ghost use Rattle.bfs_pages.specs.Maps.{assoc};
ghost use Rattle.bfs_stream.specs.Grown.{IsOfVolume};
ghost use Rattle.bfs_stream.specs.Sizes.{sizes_of};
ghost use Rattle.bfs_tree.specs.Trees.{Tree};
ghost use Rattle.bfs_shift.specs.Lists.{Lists, with_pairs};
ghost use Rattle.bfs_shift.specs.Work.{IsAtWork, IsStepped};
ghost use Rattle.bfs_moves.specs.Written.{HasIndexAt};
ghost use Rattle.bfs_calls.specs.Done.{IsUnanswered, HasAnswerCause};
ghost use Rattle.bfs_index_check.specs.Compared.{pair_of, pairs_of};
ghost use Rattle.bfs_index_make.specs.Filled.{MayStand, IsNextPair, IsToFill, HasToFill};

use bfs_bitmap::Bitmap;
use bfs_calls::damaged;
use bfs_index::Pair;
use bfs_make::blocks_in;
use bfs_moves::list_pair;
use bfs_node::{KeyKind, is_key};
use bfs_stream_pages::MapFault;
use bfs_super::Super;
use bfs_txn::Edits;
use std::alloc::Global;

/// May a pair stand in an index of a kind, on a volume of so many blocks?
fn may_stand(kind: KeyKind, pair: &Pair, blocks: u64) -> bool
    ensures may { result ≡ true → MayStand kind blocks (pair_of pair.now) }
    ensures refused { result ≡ false → MayStand kind blocks (pair_of pair.now) → ⊥ }
{
    is_key(kind, pair.key.as_slice()) && pair.id < blocks
}

/// Lists a node in a new index, under a key above those that are there.
fn list_next<E: Edits>(
    alloc: Global,
    sup: &Super,
    bitmap: &mut Bitmap,
    edits: &mut E,
    inode: u64,
    kind: KeyKind,
    pair: &Pair,
) -> Result<(), MapFault>
    requires valid { IsValid sup.now }
    requires inside { inode < natural sup.now.num_blocks }
    requires kind { IsTreeKind kind }
    requires size { E.size edits.old ≡ sup.now.block_size }
    requires volume { IsOfVolume (sizes_of sup.now) bitmap.old }
    requires index { (m : ℕ → Option (List ℕ)) → E.told edits.old ≡ Some m → HasIndexAt (geometry_of sup.now) bitmap.old m inode kind }
    ensures listed { (m : ℕ → Option (List ℕ)) (tree : Tree) (lists : Lists) (name : List ℕ) (front : List (List ℕ × ℕ)) → E.told edits.old ≡ Some m → IsAtWork (geometry_of sup.now) bitmap.old m tree (with_pairs lists name front) [] → assoc Text lists.names name ≡ Some (pos inode) → lists.kinds name ≡ kind → IsNextPair kind (natural sup.now.num_blocks) front (pair_of pair.now) → OnOk result (IsStepped (geometry_of sup.now) bitmap.old bitmap.new m tree tree (with_pairs lists name (front ++ (pair_of pair.now ∷ []))) [] (E.told edits.new) (E.changed edits.old) (E.changed edits.new)) }
    ensures unanswered { (m : ℕ → Option (List ℕ)) (tree : Tree) (lists : Lists) (name : List ℕ) (front : List (List ℕ × ℕ)) → E.told edits.old ≡ Some m → IsAtWork (geometry_of sup.now) bitmap.old m tree (with_pairs lists name front) [] → assoc Text lists.names name ≡ Some (pos inode) → lists.kinds name ≡ kind → IsNextPair kind (natural sup.now.num_blocks) front (pair_of pair.now) → IfErr result IsUnanswered }
    ensures rest { bitmap.new ≡ record bitmap.old { tally = bitmap.new.tally } }
    ensures stays { StaysChanged (E.changed edits.old) (E.changed edits.new) }
    ensures size { E.size edits.new ≡ E.size edits.old }
    ensures frame { E.frame edits.new ≡ E.frame edits.old }
    ensures later { AreLater (E.counts edits.old) (E.counts edits.new) }
    ensures cause { IfErr result (HasAnswerCause (E.counts edits.old) (E.counts edits.new)) }
{
    if !may_stand(kind, pair, blocks_in(*sup)) {
        return Err(damaged(inode));
    }
    match list_pair(
        alloc,
        sup,
        bitmap,
        edits,
        inode,
        kind,
        pair.key.as_slice(),
        pair.id,
    ) {
        Ok(()) => Ok(()),
        Err(fault) => Err(fault),
    }
}

/// Lists nodes in a new index, in the order of its pairs. After a fault the call is to be dropped.
pub(crate) fn fill<E: Edits>(
    alloc: Global,
    sup: &Super,
    bitmap: &mut Bitmap,
    edits: &mut E,
    inode: u64,
    kind: KeyKind,
    pairs: &[Pair],
) -> Result<(), MapFault>
    requires valid { IsValid sup.now }
    requires inside { inode < natural sup.now.num_blocks }
    requires kind { IsTreeKind kind }
    requires size { E.size edits.old ≡ sup.now.block_size }
    requires volume { IsOfVolume (sizes_of sup.now) bitmap.old }
    requires ready { (m : ℕ → Option (List ℕ)) → E.told edits.old ≡ Some m → HasToFill (geometry_of sup.now) bitmap.old m inode kind (pairs_of pairs.now) }
    ensures filled { (m : ℕ → Option (List ℕ)) (tree : Tree) (lists : Lists) (name : List ℕ) → E.told edits.old ≡ Some m → IsToFill (geometry_of sup.now) bitmap.old m tree lists name inode kind (pairs_of pairs.now) → OnOk result (IsStepped (geometry_of sup.now) bitmap.old bitmap.new m tree tree (with_pairs lists name (pairs_of pairs.now)) [] (E.told edits.new) (E.changed edits.old) (E.changed edits.new)) }
    ensures unanswered { (m : ℕ → Option (List ℕ)) (tree : Tree) (lists : Lists) (name : List ℕ) → E.told edits.old ≡ Some m → IsToFill (geometry_of sup.now) bitmap.old m tree lists name inode kind (pairs_of pairs.now) → IfErr result IsUnanswered }
    ensures rest { bitmap.new ≡ record bitmap.old { tally = bitmap.new.tally } }
    ensures stays { StaysChanged (E.changed edits.old) (E.changed edits.new) }
    ensures size { E.size edits.new ≡ E.size edits.old }
    ensures frame { E.frame edits.new ≡ E.frame edits.old }
    ensures later { AreLater (E.counts edits.old) (E.counts edits.new) }
    ensures cause { IfErr result (HasAnswerCause (E.counts edits.old) (E.counts edits.new)) }
{
    for i in 0..pairs.len() {
        match list_next(alloc, sup, bitmap, edits, inode, kind, &pairs[i]) {
            Ok(()) => {}
            Err(fault) => return Err(fault),
        }
    }
    Ok(())
}
