// An inode whose blocks are loose is given back.
ghost use Rattle.std.specs.Prelude.{◌≡◌, ◌<◌, ◌++◌, ℕ, List, Option, Some, OnOk, IfErr};
ghost use Rattle.bfs_super.specs.Conditions.{IsValid, natural};
ghost use Rattle.bfs_super.specs.Geometry.{geometry_of};
ghost use Rattle.bfs_bitmap.specs.Runs.{as_kept};
ghost use Rattle.bfs_txn.specs.Faults.{AreLater};
ghost use Rattle.bfs_txn.specs.Told.{StaysChanged};
ghost use Rattle.bfs_stream.specs.Grown.{IsOfVolume};
ghost use Rattle.bfs_stream.specs.Sizes.{sizes_of};
ghost use Rattle.bfs_stream.specs.Standing.{standing};
ghost use Rattle.bfs_stream.specs.Told.{Stands};
ghost use Rattle.bfs_tree.specs.Trees.{Tree};
ghost use Rattle.bfs_maps.specs.Refused.{IsUndone};
ghost use Rattle.bfs_make.specs.Sites.{stream_in};
ghost use Rattle.bfs_sound.specs.Inodes.{inode_blocks};
ghost use Rattle.bfs_shift.specs.Lists.{Lists};
ghost use Rattle.bfs_shift.specs.Shifts.{volume_in};
ghost use Rattle.bfs_shift.specs.Work.{IsAtWork};
ghost use Rattle.bfs_leave.specs.Leaving.{IsClear, IsLeft};
ghost use Rattle.bfs_calls.specs.Done.{HasAnswerCause};

use bfs_bitmap::Bitmap;
use bfs_calls::blocked;
use bfs_make::{Site, give_inode};
use bfs_stream_pages::MapFault;
use bfs_txn::Edits;

/// Gives back an inode whose blocks are loose, with its array blocks and those of its stream. After a fault the call is to be dropped.
pub(crate) fn give_loose<E: Edits>(
    site: Site,
    bitmap: &mut Bitmap,
    edits: &mut E,
    id: u64,
) -> Result<(), MapFault>
    requires valid { IsValid site.sup }
    requires inside { id < natural site.sup.num_blocks }
    requires size { E.size edits.old ≡ site.sup.block_size }
    requires volume { IsOfVolume (sizes_of site.sup) bitmap.old }
    ensures given { (m : ℕ → Option (List ℕ)) (tree : Tree) (lists : Lists) (loose : List ℕ) → E.told edits.old ≡ Some m → IsAtWork (geometry_of site.sup) bitmap.old m tree lists (inode_blocks (volume_in (geometry_of site.sup) m) id ++ loose) → IsClear (geometry_of site.sup) bitmap.old m → Stands (stream_in site id) m → OnOk result (IsLeft (geometry_of site.sup) bitmap.old bitmap.new m tree tree lists loose (E.told edits.new) (E.changed edits.old) (E.changed edits.new)) }
    ensures undone { (m : ℕ → Option (List ℕ)) (tree : Tree) (lists : Lists) (loose : List ℕ) → E.told edits.old ≡ Some m → IsAtWork (geometry_of site.sup) bitmap.old m tree lists (inode_blocks (volume_in (geometry_of site.sup) m) id ++ loose) → Stands (stream_in site id) m → IfErr result IsUndone }
    ensures rest { bitmap.new ≡ record bitmap.old { given = bitmap.new.given; tally = bitmap.new.tally } }
    ensures kept { as_kept bitmap.new ≡ as_kept bitmap.old }
    ensures standing { standing bitmap.new ≡ standing bitmap.old }
    ensures stays { StaysChanged (E.changed edits.old) (E.changed edits.new) }
    ensures size { E.size edits.new ≡ E.size edits.old }
    ensures frame { E.frame edits.new ≡ E.frame edits.old }
    ensures later { AreLater (E.counts edits.old) (E.counts edits.new) }
    ensures cause { IfErr result (HasAnswerCause (E.counts edits.old) (E.counts edits.new)) }
{
    match give_inode(site, bitmap, edits, id) {
        Ok(()) => Ok(()),
        Err(fault) => Err(blocked(fault)),
    }
}
