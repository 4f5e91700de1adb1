// The rows of a directory are read.
ghost use Rattle.std.specs.Prelude.{◌≡◌, ◌<◌, ℕ, List, Option, Some, IfErr, MatchResult};
ghost use Rattle.bfs_base.specs.declared.kind.KeyKind.TheVariants.{Text};
ghost use Rattle.bfs_super.specs.Conditions.{IsValid, natural};
ghost use Rattle.bfs_super.specs.Geometry.{geometry_of};
ghost use Rattle.bfs_txn.specs.Faults.{AreLater};
ghost use Rattle.bfs_tree.specs.declared.call.Kind.TheVariants.{Dir};
ghost use Rattle.bfs_tree.specs.Trees.{Node, Tree, IsNode};
ghost use Rattle.bfs_make.specs.NumberTrees.{IsNumberAt};
ghost use Rattle.bfs_make.specs.Refused.{IsUndone, HasReadCause};
ghost use Rattle.bfs_dir.specs.Directories.{listed};
ghost use Rattle.bfs_shift.specs.Lists.{Lists};
ghost use Rattle.bfs_shift.specs.Work.{HasDirectoryAt};
ghost use Rattle.bfs_look.specs.Ready.{IsReady};

use crate::block::Site;
use bfs_bitmap::Bitmap;
use bfs_dir::{Dir as Directory, DirRows};
use bfs_stream_pages::MapFault;
use bfs_txn::Edits;

/// The id that a directory's row of a name has, or None where there is no such row.
pub(crate) fn row_of<E: Edits>(
    site: Site,
    bitmap: &mut Bitmap,
    edits: &mut E,
    dir: u64,
    name: &[u8],
) -> Result<Option<u64>, MapFault>
    requires valid { IsValid site.sup }
    requires inside { dir < natural site.sup.num_blocks }
    requires size { E.size edits.old ≡ site.sup.block_size }
    requires directory { (m : ℕ → Option (List ℕ)) → E.told edits.old ≡ Some m → HasDirectoryAt (geometry_of site.sup) bitmap.old m dir }
    ensures found { (m : ℕ → Option (List ℕ)) (tree : Tree) (lists : Lists) (n : Node) → E.told edits.old ≡ Some m → IsReady (geometry_of site.sup) bitmap.old m tree lists → IsNode tree dir n → n.kind ≡ Dir → MatchResult result (IsNumberAt Text (lists.rows dir) name.now) IsUndone }
    ensures bitmap { bitmap.new ≡ bitmap.old }
    ensures told { E.told edits.new ≡ E.told edits.old }
    ensures changed { E.changed edits.new ≡ E.changed edits.old }
    ensures pairs { E.pairs edits.new ≡ E.pairs edits.old }
    ensures size { E.size edits.new ≡ E.size edits.old }
    ensures frame { E.frame edits.new ≡ E.frame edits.old }
    ensures later { AreLater (E.counts edits.old) (E.counts edits.new) }
    ensures cause { IfErr result (HasReadCause (E.counts edits.old) (E.counts edits.new)) }
{
    let mut directory = Directory::at(site.alloc, dir, &site.sup);
    match directory.get(bitmap, edits, name) {
        Ok(found) => Ok(found),
        Err(fault) => Err(fault),
    }
}

/// All rows of a directory, by name.
pub(crate) fn rows_of<E: Edits>(
    site: Site,
    bitmap: &mut Bitmap,
    edits: &mut E,
    dir: u64,
) -> Result<DirRows, MapFault>
    requires valid { IsValid site.sup }
    requires inside { dir < natural site.sup.num_blocks }
    requires size { E.size edits.old ≡ site.sup.block_size }
    requires directory { (m : ℕ → Option (List ℕ)) → E.told edits.old ≡ Some m → HasDirectoryAt (geometry_of site.sup) bitmap.old m dir }
    ensures found { (m : ℕ → Option (List ℕ)) (tree : Tree) (lists : Lists) (n : Node) → E.told edits.old ≡ Some m → IsReady (geometry_of site.sup) bitmap.old m tree lists → IsNode tree dir n → n.kind ≡ Dir → MatchResult result (λ rows. rows ≡ listed (lists.rows dir)) IsUndone }
    ensures bitmap { bitmap.new ≡ bitmap.old }
    ensures told { E.told edits.new ≡ E.told edits.old }
    ensures changed { E.changed edits.new ≡ E.changed edits.old }
    ensures pairs { E.pairs edits.new ≡ E.pairs edits.old }
    ensures size { E.size edits.new ≡ E.size edits.old }
    ensures frame { E.frame edits.new ≡ E.frame edits.old }
    ensures later { AreLater (E.counts edits.old) (E.counts edits.new) }
    ensures cause { IfErr result (HasReadCause (E.counts edits.old) (E.counts edits.new)) }
{
    let mut directory = Directory::at(site.alloc, dir, &site.sup);
    match directory.list(bitmap, edits) {
        Ok(rows) => Ok(rows),
        Err(fault) => Err(fault),
    }
}
