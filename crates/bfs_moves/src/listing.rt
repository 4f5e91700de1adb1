// A new node is listed in an index that may be there.
ghost use Rattle.std.specs.Prelude.{◌≡◌, ◌<◌, ◌⊎◌, ◌^◌, ℕ, ℤ, List, Option, Some, true, OnOk, IfErr, IfSome};
ghost use Rattle.bfs_base.specs.Keys.{IsKey, IsTreeKind};
ghost use Rattle.bfs_base.specs.declared.kind.KeyKind.TheVariants.{Text};
ghost use Rattle.bfs_super.specs.Conditions.{IsValid, natural};
ghost use Rattle.bfs_super.specs.Geometry.{geometry_of};
ghost use Rattle.bfs_bitmap.specs.Fills.{IsBitmapBlock};
ghost use Rattle.bfs_txn.specs.Faults.{AreLater};
ghost use Rattle.bfs_txn.specs.Told.{StaysChanged};
ghost use Rattle.bfs_pages.specs.Maps.{assoc};
ghost use Rattle.bfs_stream.specs.Grown.{IsOfVolume};
ghost use Rattle.bfs_stream.specs.Sizes.{sizes_of};
ghost use Rattle.bfs_tree.specs.Trees.{Tree};
ghost use Rattle.bfs_make.specs.NumberTrees.{IsNumberAt};
ghost use Rattle.bfs_index.specs.Refused.{HasPairCause};
ghost use Rattle.bfs_shift.specs.Lists.{Lists, with_pairs};
ghost use Rattle.bfs_shift.specs.Work.{IsAtWork, IsStepped};
ghost use Rattle.bfs_moves.specs.Written.{HasIndexAt, ListsMore, IsListFault};

use crate::pairs::list_pair;
use bfs_bitmap::Bitmap;
use bfs_node::KeyKind;
use bfs_stream_pages::MapFault;
use bfs_super::Super;
use bfs_txn::Edits;
use std::alloc::Global;

/// Lists a node under a key in an index, and does nothing where there is none. The pairs that it lists then are those from before, and
/// this one.
pub fn list_where<E: Edits>(
    alloc: Global,
    sup: &Super,
    bitmap: &mut Bitmap,
    edits: &mut E,
    index: Option<u64>,
    kind: KeyKind,
    key: &[u8],
    id: u64,
) -> Result<(), MapFault>
    requires valid { IsValid sup.now }
    requires inside { IfSome index (λ inode. inode < natural sup.now.num_blocks) }
    requires kind { IsTreeKind kind }
    requires size { E.size edits.old ≡ sup.now.block_size }
    requires volume { IsOfVolume (sizes_of sup.now) bitmap.old }
    requires index { (m : ℕ → Option (List ℕ)) → E.told edits.old ≡ Some m → IfSome index (λ inode. HasIndexAt (geometry_of sup.now) bitmap.old m inode kind) }
    requires key { IsKey kind key.now }
    requires id { id < 2 ^ 62 }
    ensures listed { (m : ℕ → Option (List ℕ)) (tree : Tree) (lists : Lists) (loose : List ℕ) (name : List ℕ) (pairs : List (List ℕ × ℕ)) → E.told edits.old ≡ Some m → IsAtWork (geometry_of sup.now) bitmap.old m tree lists loose → IsNumberAt Text lists.names name index → ListsMore lists kind name key.now id pairs → OnOk result (IsStepped (geometry_of sup.now) bitmap.old bitmap.new m tree tree (with_pairs lists name pairs) loose (E.told edits.new) (E.changed edits.old) (E.changed edits.new)) }
    ensures refused { (m : ℕ → Option (List ℕ)) (tree : Tree) (lists : Lists) (loose : List ℕ) (name : List ℕ) → E.told edits.old ≡ Some m → IsAtWork (geometry_of sup.now) bitmap.old m tree lists loose → IsNumberAt Text lists.names name index → ((value : ℤ) → assoc Text lists.names name ≡ Some value → lists.kinds name ≡ kind) → IfErr result (IsListFault (sizes_of sup.now) bitmap.old m index) }
    ensures rest { bitmap.new ≡ record bitmap.old { tally = bitmap.new.tally } }
    ensures changed { (k : ℕ) → E.changed edits.new k ≡ true → (E.changed edits.old k ≡ true) ⊎ (IsBitmapBlock bitmap.old k ⊎ (k < natural sup.now.num_blocks)) }
    ensures stays { StaysChanged (E.changed edits.old) (E.changed edits.new) }
    ensures size { E.size edits.new ≡ E.size edits.old }
    ensures frame { E.frame edits.new ≡ E.frame edits.old }
    ensures later { AreLater (E.counts edits.old) (E.counts edits.new) }
    ensures cause { IfErr result (HasPairCause (E.counts edits.old) (E.counts edits.new)) }
{
    match index {
        None => Ok(()),
        Some(inode) => match list_pair(alloc, sup, bitmap, edits, inode, kind, key, id) {
            Ok(()) => Ok(()),
            Err(fault) => Err(fault),
        },
    }
}
