// A free block is taken.
ghost use Rattle.std.specs.Prelude.{◌≡◌, ◌<◌, ◌⊎◌, ◌∷◌, ℕ, List, Option, Some, None, true, OnErr, IfOk, IfErr};
ghost use Rattle.std.specs.FinMap.{get};
ghost use Rattle.bfs_super.specs.Conditions.{IsValid, natural};
ghost use Rattle.bfs_super.specs.Geometry.{geometry_of};
ghost use Rattle.bfs_bitmap.specs.Runs.{IsNoRun, IsRunCause};
ghost use Rattle.bfs_bitmap.specs.Fills.{IsBitmapBlock};
ghost use Rattle.bfs_txn.specs.Faults.{AreLater};
ghost use Rattle.bfs_txn.specs.Told.{StaysChanged};
ghost use Rattle.bfs_stream.specs.Grown.{IsOfVolume};
ghost use Rattle.bfs_stream.specs.Sizes.{sizes_of};
ghost use Rattle.bfs_tree.specs.Trees.{Tree};
ghost use Rattle.bfs_shift.specs.Lists.{Lists};
ghost use Rattle.bfs_shift.specs.Work.{IsAtWork, IsStepped};

use bfs_bitmap::{Bitmap, RunFault};
use bfs_super::Super;
use bfs_txn::Edits;

/// Takes the lowest free block, which becomes a loose one, and tells its number.
pub fn take_block<E: Edits>(
    sup: &Super,
    bitmap: &mut Bitmap,
    edits: &mut E,
) -> Result<u64, RunFault>
    requires valid { IsValid sup.now }
    requires size { E.size edits.old ≡ sup.now.block_size }
    requires volume { IsOfVolume (sizes_of sup.now) bitmap.old }
    ensures taken { (m : ℕ → Option (List ℕ)) (tree : Tree) (lists : Lists) (loose : List ℕ) → E.told edits.old ≡ Some m → IsAtWork (geometry_of sup.now) bitmap.old m tree lists loose → IfOk result (λ block. IsStepped (geometry_of sup.now) bitmap.old bitmap.new m tree tree lists (block ∷ loose) (E.told edits.new) (E.changed edits.old) (E.changed edits.new)) }
    ensures no_node { (m : ℕ → Option (List ℕ)) (tree : Tree) (lists : Lists) (loose : List ℕ) → E.told edits.old ≡ Some m → IsAtWork (geometry_of sup.now) bitmap.old m tree lists loose → IfOk result (λ block. get tree.nodes block ≡ None) }
    ensures inside { IfOk result (λ block. block < natural sup.now.num_blocks) }
    ensures refused { (m : ℕ → Option (List ℕ)) (tree : Tree) (lists : Lists) (loose : List ℕ) → E.told edits.old ≡ Some m → IsAtWork (geometry_of sup.now) bitmap.old m tree lists loose → IfErr result (IsNoRun bitmap.old m 1) }
    ensures rest { bitmap.new ≡ record bitmap.old { tally = bitmap.new.tally } }
    ensures err { OnErr result (bitmap.new ≡ bitmap.old) }
    ensures changed { (k : ℕ) → E.changed edits.new k ≡ true → (E.changed edits.old k ≡ true) ⊎ IsBitmapBlock bitmap.old k }
    ensures stays { StaysChanged (E.changed edits.old) (E.changed edits.new) }
    ensures size { E.size edits.new ≡ E.size edits.old }
    ensures frame { E.frame edits.new ≡ E.frame edits.old }
    ensures later { AreLater (E.counts edits.old) (E.counts edits.new) }
    ensures cause { IfErr result (IsRunCause (E.counts edits.old) (E.counts edits.new)) }
{
    match bitmap.take_run(edits, 1, 1) {
        Ok(run) => Ok(sup.block_of(run)),
        Err(fault) => Err(fault),
    }
}
