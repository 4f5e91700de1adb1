// A name leaves its directory.
ghost use Rattle.std.specs.Prelude.{◌≡◌, ◌<◌, ◌⊎◌, ℕ, pos, List, Option, Some, true, OnOk, IfOk, IfErr};
ghost use Rattle.bfs_base.specs.declared.kind.KeyKind.TheVariants.{Text};
ghost use Rattle.bfs_super.specs.Conditions.{IsValid, natural};
ghost use Rattle.bfs_super.specs.Geometry.{geometry_of};
ghost use Rattle.bfs_bitmap.specs.Fills.{IsBitmapBlock};
ghost use Rattle.bfs_txn.specs.Faults.{AreLater};
ghost use Rattle.bfs_txn.specs.Told.{StaysChanged};
ghost use Rattle.bfs_pages.specs.Maps.{assoc, without};
ghost use Rattle.bfs_stream.specs.Grown.{IsOfVolume};
ghost use Rattle.bfs_stream.specs.Sizes.{sizes_of};
ghost use Rattle.bfs_tree.specs.declared.call.Kind.TheVariants as kinds;
ghost use Rattle.bfs_tree.specs.Trees.{Node, Tree, IsNode};
ghost use Rattle.bfs_maps.specs.Mapped.{HasHeld};
ghost use Rattle.bfs_maps.specs.NumberTrees.{AreNumbers};
ghost use Rattle.bfs_maps.specs.Refused.{IsTakeFault, HasTakeCause};
ghost use Rattle.bfs_moves.specs.Directories.{IsDirectory, names_of};
ghost use Rattle.bfs_shift.specs.Lists.{Lists, with_rows};
ghost use Rattle.bfs_shift.specs.Work.{IsAtWork, IsStepped, HasDirectoryAt};
ghost use Rattle.bfs_moves.specs.Written.{HasRowsSince};

use bfs_bitmap::Bitmap;
use bfs_moves::check_inode;
use bfs_moves::dir::Dir;
use bfs_stream_pages::MapFault;
use bfs_super::Super;
use bfs_txn::Edits;
use std::alloc::Global;

/// Takes a row out of a directory, whose inode is read before, and tells the id.
fn take_row<E: Edits>(
    alloc: Global,
    sup: &Super,
    bitmap: &mut Bitmap,
    edits: &mut E,
    dir: u64,
    name: &[u8],
) -> Result<u64, MapFault>
    requires valid { IsValid sup.now }
    requires inside { dir < natural sup.now.num_blocks }
    requires size { E.size edits.old ≡ sup.now.block_size }
    requires volume { IsOfVolume (sizes_of sup.now) bitmap.old }
    requires stream { (m : ℕ → Option (List ℕ)) → E.told edits.old ≡ Some m → HasHeld (record { id = dir; sizes = sizes_of sup.now }) bitmap.old m }
    ensures taken { (m : ℕ → Option (List ℕ)) → E.told edits.old ≡ Some m → IsDirectory (record { id = dir; sizes = sizes_of sup.now }) bitmap.old m → OnOk result (HasRowsSince (record { id = dir; sizes = sizes_of sup.now }) bitmap.old bitmap.new m (without Text (names_of (record { id = dir; sizes = sizes_of sup.now }) m) name.now) (E.told edits.new) (E.changed edits.old) (E.changed edits.new)) }
    ensures id { (m : ℕ → Option (List ℕ)) → E.told edits.old ≡ Some m → IsDirectory (record { id = dir; sizes = sizes_of sup.now }) bitmap.old m → IfOk result (λ id. assoc Text (names_of (record { id = dir; sizes = sizes_of sup.now }) m) name.now ≡ Some (pos id)) }
    ensures refused { (m : ℕ → Option (List ℕ)) → E.told edits.old ≡ Some m → IsDirectory (record { id = dir; sizes = sizes_of sup.now }) bitmap.old m → IfErr result (IsTakeFault Text (names_of (record { id = dir; sizes = sizes_of sup.now }) m) name.now) }
    ensures rest { bitmap.new ≡ record bitmap.old { tally = bitmap.new.tally } }
    ensures changed { (k : ℕ) → E.changed edits.new k ≡ true → (E.changed edits.old k ≡ true) ⊎ (IsBitmapBlock bitmap.old k ⊎ (k < natural sup.now.num_blocks)) }
    ensures stays { StaysChanged (E.changed edits.old) (E.changed edits.new) }
    ensures size { E.size edits.new ≡ E.size edits.old }
    ensures frame { E.frame edits.new ≡ E.frame edits.old }
    ensures later { AreLater (E.counts edits.old) (E.counts edits.new) }
    ensures cause { IfErr result (HasTakeCause (E.counts edits.old) (E.counts edits.new)) }
{
    match check_inode(alloc, sup, edits, dir) {
        Ok(()) => {}
        Err(fault) => return Err(fault),
    }
    let mut directory = Dir::at(alloc, dir, sup);
    match directory.take(bitmap, edits, name) {
        Ok(id) => Ok(id),
        Err(fault) => Err(fault),
    }
}

/// Takes a name out of a directory, and tells the id that it had. The directory's rows then are those from before, without it; and a
/// name that isn't there is refused.
pub fn take_name<E: Edits>(
    alloc: Global,
    sup: &Super,
    bitmap: &mut Bitmap,
    edits: &mut E,
    dir: u64,
    name: &[u8],
) -> Result<u64, MapFault>
    requires valid { IsValid sup.now }
    requires inside { dir < natural sup.now.num_blocks }
    requires size { E.size edits.old ≡ sup.now.block_size }
    requires volume { IsOfVolume (sizes_of sup.now) bitmap.old }
    requires directory { (m : ℕ → Option (List ℕ)) → E.told edits.old ≡ Some m → HasDirectoryAt (geometry_of sup.now) bitmap.old m dir }
    ensures taken { (m : ℕ → Option (List ℕ)) (tree : Tree) (lists : Lists) (loose : List ℕ) (n : Node) → E.told edits.old ≡ Some m → IsAtWork (geometry_of sup.now) bitmap.old m tree lists loose → IsNode tree dir n → n.kind ≡ kinds.Dir → AreNumbers (lists.rows dir) → OnOk result (IsStepped (geometry_of sup.now) bitmap.old bitmap.new m tree tree (with_rows lists dir (without Text (lists.rows dir) name.now)) loose (E.told edits.new) (E.changed edits.old) (E.changed edits.new)) }
    ensures id { (m : ℕ → Option (List ℕ)) (tree : Tree) (lists : Lists) (loose : List ℕ) (n : Node) → E.told edits.old ≡ Some m → IsAtWork (geometry_of sup.now) bitmap.old m tree lists loose → IsNode tree dir n → n.kind ≡ kinds.Dir → AreNumbers (lists.rows dir) → IfOk result (λ id. assoc Text (lists.rows dir) name.now ≡ Some (pos id)) }
    ensures refused { (m : ℕ → Option (List ℕ)) (tree : Tree) (lists : Lists) (loose : List ℕ) (n : Node) → E.told edits.old ≡ Some m → IsAtWork (geometry_of sup.now) bitmap.old m tree lists loose → IsNode tree dir n → n.kind ≡ kinds.Dir → AreNumbers (lists.rows dir) → IfErr result (IsTakeFault Text (lists.rows dir) name.now) }
    ensures rest { bitmap.new ≡ record bitmap.old { tally = bitmap.new.tally } }
    ensures changed { (k : ℕ) → E.changed edits.new k ≡ true → (E.changed edits.old k ≡ true) ⊎ (IsBitmapBlock bitmap.old k ⊎ (k < natural sup.now.num_blocks)) }
    ensures stays { StaysChanged (E.changed edits.old) (E.changed edits.new) }
    ensures size { E.size edits.new ≡ E.size edits.old }
    ensures frame { E.frame edits.new ≡ E.frame edits.old }
    ensures later { AreLater (E.counts edits.old) (E.counts edits.new) }
    ensures cause { IfErr result (HasTakeCause (E.counts edits.old) (E.counts edits.new)) }
{
    let id = match take_row(alloc, sup, bitmap, edits, dir, name) {
        Ok(id) => id,
        Err(fault) => return Err(fault),
    };
    match check_inode(alloc, sup, edits, dir) {
        Ok(()) => Ok(id),
        Err(fault) => Err(fault),
    }
}
