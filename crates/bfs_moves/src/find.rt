// An index is found by its name.
ghost use Rattle.std.specs.Prelude.{◌≡◌, ◌≢◌, ℕ, ℤ, List, Option, Some, None, Ok, true, IfErr, MatchResult};
ghost use Rattle.bfs_base.specs.declared.kind.KeyKind.TheVariants.{Text};
ghost use Rattle.bfs_super.specs.Conditions.{IsValid, block_of_run};
ghost use Rattle.bfs_super.specs.Geometry.{geometry_of};
ghost use Rattle.bfs_txn.specs.Faults.{AreLater};
ghost use Rattle.bfs_pages.specs.Maps.{assoc};
ghost use Rattle.bfs_tree.specs.Trees.{Tree};
ghost use Rattle.bfs_stream_pages.specs.Held.{stream_of};
ghost use Rattle.bfs_values.specs.Rows.{rows_in};
ghost use Rattle.bfs_make.specs.NumberTrees.{IsNumber, HoldsNumber, IsNumberAt};
ghost use Rattle.bfs_make.specs.Refused.{IsUndone, HasReadCause};
ghost use Rattle.bfs_sound.specs.Inodes.{is_proper};
ghost use Rattle.bfs_shift.specs.Lists.{Lists};
ghost use Rattle.bfs_shift.specs.Work.{IsAtWork};
ghost use Rattle.bfs_moves.specs.IndexNames.{HasReadableNames, names_at};

use bfs_bitmap::Bitmap;
use bfs_dir::Dir;
use bfs_stream_pages::MapFault;
use bfs_super::Super;
use bfs_txn::Edits;
use std::alloc::Global;

/// The inode of the index with this name, or None where there is none, as on a volume without an index directory. Of a volume only the
/// index directory's own blocks are read.
pub fn find_index<E: Edits>(
    alloc: Global,
    sup: &Super,
    bitmap: &mut Bitmap,
    edits: &mut E,
    name: &[u8],
) -> Result<Option<u64>, MapFault>
    requires valid { IsValid sup.now }
    requires size { E.size edits.old ≡ sup.now.block_size }
    requires directory { (m : ℕ → Option (List ℕ)) → E.told edits.old ≡ Some m → HasReadableNames sup.now m }
    requires name { is_proper name.now ≡ true }
    ensures found { (m : ℕ → Option (List ℕ)) (tree : Tree) (lists : Lists) (loose : List ℕ) → E.told edits.old ≡ Some m → IsAtWork (geometry_of sup.now) bitmap.old m tree lists loose → ((value : ℤ) → assoc Text lists.names name.now ≡ Some value → IsNumber value) → MatchResult result (IsNumberAt Text lists.names name.now) IsUndone }
    ensures names { (m : ℕ → Option (List ℕ)) → E.told edits.old ≡ Some m → block_of_run sup.now sup.now.indices ≢ 0 → HoldsNumber Text name.now (stream_of (names_at sup.now) m) → MatchResult result (IsNumberAt Text (rows_in Text (stream_of (names_at sup.now) m)) name.now) IsUndone }
    ensures none { block_of_run sup.now sup.now.indices ≡ 0 → result ≡ Ok None }
    ensures bitmap { bitmap.new ≡ bitmap.old }
    ensures told { E.told edits.new ≡ E.told edits.old }
    ensures changed { E.changed edits.new ≡ E.changed edits.old }
    ensures size { E.size edits.new ≡ E.size edits.old }
    ensures frame { E.frame edits.new ≡ E.frame edits.old }
    ensures later { AreLater (E.counts edits.old) (E.counts edits.new) }
    ensures cause { IfErr result (HasReadCause (E.counts edits.old) (E.counts edits.new)) }
{
    let inode = sup.block_of(sup.indices);
    if inode == 0 {
        return Ok(None);
    }
    let mut directory = Dir::at(alloc, inode, sup);
    match directory.get(bitmap, edits, name) {
        Ok(found) => Ok(found),
        Err(fault) => Err(fault),
    }
}
