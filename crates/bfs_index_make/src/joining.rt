// A new index joins the indices of a volume.
ghost use Rattle.std.specs.Prelude.{◌≡◌, ◌<◌, ◌^◌, ℕ, pos, List, Option, Some, false, OnOk, IfErr};
ghost use Rattle.bfs_base.specs.Keys.{IsKey};
ghost use Rattle.bfs_base.specs.declared.kind.KeyKind as kinds;
ghost use Rattle.bfs_base.specs.declared.kind.KeyKind.TheVariants.{Text};
ghost use Rattle.bfs_super.specs.Conditions.{IsValid, natural};
ghost use Rattle.bfs_super.specs.Geometry.{geometry_of};
ghost use Rattle.bfs_txn.specs.Faults.{AreLater};
ghost use Rattle.bfs_txn.specs.Told.{StaysChanged};
ghost use Rattle.bfs_pages.specs.Maps.{put};
ghost use Rattle.bfs_stream.specs.Grown.{IsOfVolume};
ghost use Rattle.bfs_stream.specs.Sizes.{sizes_of};
ghost use Rattle.bfs_tree.specs.Names.{is_bad_name};
ghost use Rattle.bfs_tree.specs.Trees.{Tree};
ghost use Rattle.bfs_maps.specs.Mapped.{HasHeld, rows_of};
ghost use Rattle.bfs_maps.specs.Refused.{IsPutFault, HasPutCause};
ghost use Rattle.bfs_maps.specs.RowTrees.{HasTree, IsRowTree};
ghost use Rattle.bfs_shift.specs.Lists.{Lists};
ghost use Rattle.bfs_moves.specs.Written.{HasStreamSince};
ghost use Rattle.bfs_calls.specs.Done.{IsUnanswered, HasAnswerCause};
ghost use Rattle.bfs_index_make.specs.Made.{IsToJoin, HasToJoin, HasIndexJoined};

use bfs_bitmap::Bitmap;
use bfs_calls::not_put;
use bfs_maps::{TreeAt, put_row};
use bfs_moves::check_inode;
use bfs_node::KeyKind;
use bfs_stream_pages::MapFault;
use bfs_super::Super;
use bfs_txn::Edits;
use std::alloc::Global;

/// Puts a row into a directory of inodes, whose own inode is read before.
fn put_into<E: Edits>(
    alloc: Global,
    sup: &Super,
    bitmap: &mut Bitmap,
    edits: &mut E,
    directory: u64,
    name: &[u8],
    id: u64,
) -> Result<(), MapFault>
    requires valid { IsValid sup.now }
    requires inside { directory < natural sup.now.num_blocks }
    requires size { E.size edits.old ≡ sup.now.block_size }
    requires volume { IsOfVolume (sizes_of sup.now) bitmap.old }
    requires stream { (m : ℕ → Option (List ℕ)) → E.told edits.old ≡ Some m → HasHeld (record { id = directory; sizes = sizes_of sup.now }) bitmap.old m }
    requires name { IsKey Text name.now }
    requires id { id < 2 ^ 62 }
    ensures put { (m : ℕ → Option (List ℕ)) → E.told edits.old ≡ Some m → HasTree Text (record { id = directory; sizes = sizes_of sup.now }) bitmap.old m → OnOk result (HasStreamSince (record { id = directory; sizes = sizes_of sup.now }) bitmap.old bitmap.new m (IsRowTree Text (put Text (rows_of Text (record { id = directory; sizes = sizes_of sup.now }) m) name.now (pos id))) (E.told edits.new) (E.changed edits.old) (E.changed edits.new)) }
    ensures refused { (m : ℕ → Option (List ℕ)) → E.told edits.old ≡ Some m → HasTree Text (record { id = directory; sizes = sizes_of sup.now }) bitmap.old m → IfErr result (IsPutFault Text (record { id = directory; sizes = sizes_of sup.now }) bitmap.old m (rows_of Text (record { id = directory; sizes = sizes_of sup.now }) m) name.now) }
    ensures rest { bitmap.new ≡ record bitmap.old { tally = bitmap.new.tally } }
    ensures stays { StaysChanged (E.changed edits.old) (E.changed edits.new) }
    ensures size { E.size edits.new ≡ E.size edits.old }
    ensures frame { E.frame edits.new ≡ E.frame edits.old }
    ensures later { AreLater (E.counts edits.old) (E.counts edits.new) }
    ensures cause { IfErr result (HasPutCause (E.counts edits.old) (E.counts edits.new)) }
{
    match check_inode(alloc, sup, edits, directory) {
        Ok(()) => {}
        Err(fault) => return Err(fault),
    }
    let tree = TreeAt {
        alloc,
        inode: directory,
        sup: *sup,
        kind: KeyKind::Text,
    };
    match put_row(tree, bitmap, edits, name, id) {
        Ok(()) => Ok(()),
        Err(fault) => Err(fault),
    }
}

/// Puts the name of an index, whose blocks are loose, into the index directory.
pub(crate) fn join_index<E: Edits>(
    alloc: Global,
    sup: &Super,
    bitmap: &mut Bitmap,
    edits: &mut E,
    name: &[u8],
    id: u64,
) -> Result<(), MapFault>
    requires valid { IsValid sup.now }
    requires size { E.size edits.old ≡ sup.now.block_size }
    requires volume { IsOfVolume (sizes_of sup.now) bitmap.old }
    requires good { is_bad_name name.now ≡ false }
    requires inside { id < natural sup.now.num_blocks }
    requires loose { (m : ℕ → Option (List ℕ)) → E.told edits.old ≡ Some m → HasToJoin (geometry_of sup.now) bitmap.old m name.now id (E.changed edits.old) }
    ensures joined { (m : ℕ → Option (List ℕ)) (tree : Tree) (lists : Lists) (kind : kinds.KeyKind) → E.told edits.old ≡ Some m → IsToJoin (geometry_of sup.now) bitmap.old m tree lists kind name.now id (E.changed edits.old) → OnOk result (HasIndexJoined (geometry_of sup.now) bitmap.old bitmap.new m tree lists kind name.now id (E.told edits.new) (E.changed edits.old) (E.changed edits.new)) }
    ensures unanswered { (m : ℕ → Option (List ℕ)) (tree : Tree) (lists : Lists) (kind : kinds.KeyKind) → E.told edits.old ≡ Some m → IsToJoin (geometry_of sup.now) bitmap.old m tree lists kind name.now id (E.changed edits.old) → IfErr result IsUnanswered }
    ensures rest { bitmap.new ≡ record bitmap.old { tally = bitmap.new.tally } }
    ensures stays { StaysChanged (E.changed edits.old) (E.changed edits.new) }
    ensures size { E.size edits.new ≡ E.size edits.old }
    ensures frame { E.frame edits.new ≡ E.frame edits.old }
    ensures later { AreLater (E.counts edits.old) (E.counts edits.new) }
    ensures cause { IfErr result (HasAnswerCause (E.counts edits.old) (E.counts edits.new)) }
{
    let directory = sup.block_of(sup.indices);
    match put_into(alloc, sup, bitmap, edits, directory, name, id) {
        Ok(()) => {}
        Err(fault) => return Err(not_put(fault, directory)),
    }
    match check_inode(alloc, sup, edits, directory) {
        Ok(()) => Ok(()),
        Err(fault) => Err(fault),
    }
}
