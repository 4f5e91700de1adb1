// The name of an index leaves the index directory.
ghost use Rattle.std.specs.Prelude.{◌≡◌, ◌<◌, ◌⊎◌, ℕ, pos, List, Option, Some, true, OnOk, IfOk, IfErr};
ghost use Rattle.bfs_base.specs.declared.kind.KeyKind.TheVariants.{Text};
ghost use Rattle.bfs_super.specs.Conditions.{IsValid, natural};
ghost use Rattle.bfs_super.specs.Geometry.{geometry_of};
ghost use Rattle.bfs_bitmap.specs.Fills.{IsBitmapBlock};
ghost use Rattle.bfs_txn.specs.Faults.{AreLater};
ghost use Rattle.bfs_txn.specs.Told.{StaysChanged};
ghost use Rattle.bfs_pages.specs.Maps.{assoc, without};
ghost use Rattle.bfs_stream.specs.Grown.{IsOfVolume};
ghost use Rattle.bfs_stream.specs.Sizes.{sizes_of};
ghost use Rattle.bfs_tree.specs.Trees.{Tree};
ghost use Rattle.bfs_maps.specs.Mapped.{HasHeld, rows_of};
ghost use Rattle.bfs_maps.specs.Refused.{IsTakeFault, IsUndone, HasTakeCause};
ghost use Rattle.bfs_maps.specs.RowTrees.{HasTreeWith, IsRowTree};
ghost use Rattle.bfs_shift.specs.Lists.{Lists};
ghost use Rattle.bfs_moves.specs.Written.{HasStreamSince};
ghost use Rattle.bfs_look.specs.Ready.{IsReady, HasReady};
ghost use Rattle.bfs_calls.specs.Done.{HasAnswerCause};
ghost use Rattle.bfs_remove_index.specs.Removed.{IsOwnIndex, HasIndexTaken};

use bfs_bitmap::Bitmap;
use bfs_calls::not_taken;
use bfs_maps::{TreeAt, take_row};
use bfs_moves::check_inode;
use bfs_node::KeyKind;
use bfs_stream_pages::MapFault;
use bfs_super::Super;
use bfs_txn::Edits;
use std::alloc::Global;

/// Takes a row out of a directory of inodes, whose own inode is read before, and tells the number that it has.
fn take_from<E: Edits>(
    alloc: Global,
    sup: &Super,
    bitmap: &mut Bitmap,
    edits: &mut E,
    directory: u64,
    name: &[u8],
) -> Result<u64, MapFault>
    requires valid { IsValid sup.now }
    requires inside { directory < natural sup.now.num_blocks }
    requires size { E.size edits.old ≡ sup.now.block_size }
    requires volume { IsOfVolume (sizes_of sup.now) bitmap.old }
    requires stream { (m : ℕ → Option (List ℕ)) → E.told edits.old ≡ Some m → HasHeld (record { id = directory; sizes = sizes_of sup.now }) bitmap.old m }
    ensures taken { (m : ℕ → Option (List ℕ)) → E.told edits.old ≡ Some m → HasTreeWith Text name.now (record { id = directory; sizes = sizes_of sup.now }) bitmap.old m → OnOk result (HasStreamSince (record { id = directory; sizes = sizes_of sup.now }) bitmap.old bitmap.new m (IsRowTree Text (without Text (rows_of Text (record { id = directory; sizes = sizes_of sup.now }) m) name.now)) (E.told edits.new) (E.changed edits.old) (E.changed edits.new)) }
    ensures number { (m : ℕ → Option (List ℕ)) → E.told edits.old ≡ Some m → HasTreeWith Text name.now (record { id = directory; sizes = sizes_of sup.now }) bitmap.old m → IfOk result (λ id. assoc Text (rows_of Text (record { id = directory; sizes = sizes_of sup.now }) m) name.now ≡ Some (pos id)) }
    ensures refused { (m : ℕ → Option (List ℕ)) → E.told edits.old ≡ Some m → HasTreeWith Text name.now (record { id = directory; sizes = sizes_of sup.now }) bitmap.old m → IfErr result (IsTakeFault Text (rows_of Text (record { id = directory; sizes = sizes_of sup.now }) m) name.now) }
    ensures rest { bitmap.new ≡ record bitmap.old { tally = bitmap.new.tally } }
    ensures changed { (k : ℕ) → E.changed edits.new k ≡ true → (E.changed edits.old k ≡ true) ⊎ (IsBitmapBlock bitmap.old k ⊎ (k < natural sup.now.num_blocks)) }
    ensures stays { StaysChanged (E.changed edits.old) (E.changed edits.new) }
    ensures size { E.size edits.new ≡ E.size edits.old }
    ensures frame { E.frame edits.new ≡ E.frame edits.old }
    ensures later { AreLater (E.counts edits.old) (E.counts edits.new) }
    ensures cause { IfErr result (HasTakeCause (E.counts edits.old) (E.counts edits.new)) }
{
    match check_inode(alloc, sup, edits, directory) {
        Ok(()) => {}
        Err(fault) => return Err(fault),
    }
    let tree = TreeAt {
        alloc,
        inode: directory,
        sup: *sup,
        kind: KeyKind::Text,
    };
    match take_row(tree, bitmap, edits, name) {
        Ok(id) => Ok(id),
        Err(fault) => Err(fault),
    }
}

/// Takes the name of an index out of the index directory, and tells its inode, whose blocks are loose then.
pub(crate) fn take_index<E: Edits>(
    alloc: Global,
    sup: &Super,
    bitmap: &mut Bitmap,
    edits: &mut E,
    name: &[u8],
) -> Result<u64, MapFault>
    requires valid { IsValid sup.now }
    requires size { E.size edits.old ≡ sup.now.block_size }
    requires volume { IsOfVolume (sizes_of sup.now) bitmap.old }
    requires ready { (m : ℕ → Option (List ℕ)) → E.told edits.old ≡ Some m → HasReady (geometry_of sup.now) bitmap.old m }
    requires there { (m : ℕ → Option (List ℕ)) (tree : Tree) (lists : Lists) → E.told edits.old ≡ Some m → IsReady (geometry_of sup.now) bitmap.old m tree lists → IsOwnIndex tree name.now }
    ensures taken { (m : ℕ → Option (List ℕ)) (tree : Tree) (lists : Lists) → E.told edits.old ≡ Some m → IsReady (geometry_of sup.now) bitmap.old m tree lists → IfOk result (λ inode. HasIndexTaken (geometry_of sup.now) bitmap.old bitmap.new m tree lists name.now inode (E.told edits.new) (E.changed edits.old) (E.changed edits.new)) }
    ensures row { (m : ℕ → Option (List ℕ)) (tree : Tree) (lists : Lists) → E.told edits.old ≡ Some m → IsReady (geometry_of sup.now) bitmap.old m tree lists → IfOk result (λ inode. assoc Text lists.names name.now ≡ Some (pos inode)) }
    ensures undone { (m : ℕ → Option (List ℕ)) (tree : Tree) (lists : Lists) → E.told edits.old ≡ Some m → IsReady (geometry_of sup.now) bitmap.old m tree lists → IfErr result IsUndone }
    ensures rest { bitmap.new ≡ record bitmap.old { tally = bitmap.new.tally } }
    ensures stays { StaysChanged (E.changed edits.old) (E.changed edits.new) }
    ensures size { E.size edits.new ≡ E.size edits.old }
    ensures frame { E.frame edits.new ≡ E.frame edits.old }
    ensures later { AreLater (E.counts edits.old) (E.counts edits.new) }
    ensures cause { IfErr result (HasAnswerCause (E.counts edits.old) (E.counts edits.new)) }
{
    let directory = sup.block_of(sup.indices);
    let inode = match take_from(alloc, sup, bitmap, edits, directory, name) {
        Ok(inode) => inode,
        Err(fault) => return Err(not_taken(fault, directory)),
    };
    match check_inode(alloc, sup, edits, directory) {
        Ok(()) => Ok(inode),
        Err(fault) => Err(fault),
    }
}
