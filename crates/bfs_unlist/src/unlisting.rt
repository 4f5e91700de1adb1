// A node leaves every index that lists it.
ghost use Rattle.std.specs.Prelude.{◌≡◌, ◌≢◌, ◌<◌, ◌⊎◌, ℕ, List, [], ◌∷◌, Option, Some, true, OnOk, IfErr};
ghost use Rattle.bfs_super.specs.Conditions.{IsValid, natural};
ghost use Rattle.bfs_super.specs.Geometry.{geometry_of};
ghost use Rattle.bfs_bitmap.specs.Fills.{IsBitmapBlock};
ghost use Rattle.bfs_txn.specs.Faults.{AreLater};
ghost use Rattle.bfs_txn.specs.Told.{StaysChanged};
ghost use Rattle.bfs_stream.specs.Grown.{IsOfVolume};
ghost use Rattle.bfs_stream.specs.Sizes.{sizes_of};
ghost use Rattle.bfs_tree.specs.Trees.{Node, Tree, IsNode};
ghost use Rattle.bfs_maps.specs.Refused.{HasReadCause, IsUndone};
ghost use Rattle.bfs_attr.specs.declared.directory.InodeRow.{InodeRow};
ghost use Rattle.bfs_shift.specs.Lists.{Lists};
ghost use Rattle.bfs_look.specs.Ready.{IsReady};
ghost use Rattle.bfs_unlist.specs.Reading.{IsUnlisting, HasUnlisting, IsUnlistingAt, HasPartly};
ghost use Rattle.bfs_unlist.specs.Without.{HasUnlisted, HasNodeIn};

use crate::reading::listing_of;
use bfs_attr::{InodeRow, named_inodes};
use bfs_bitmap::Bitmap;
use bfs_look::info_at;
use bfs_make::Site;
use bfs_moves::unlist_pair;
use bfs_stream_pages::MapFault;
use bfs_super::Super;
use bfs_tree::Info;
use bfs_txn::Edits;
use std::alloc::Global;

/// Takes a node out of the index to which a row of the index directory leads, where that lists it; the node isn't the root, and has this
/// record.
fn unlist_from<E: Edits>(
    site: Site,
    bitmap: &mut Bitmap,
    edits: &mut E,
    id: u64,
    info: &Info,
    row: &InodeRow,
) -> Result<(), MapFault>
    requires valid { IsValid site.sup }
    requires size { E.size edits.old ≡ site.sup.block_size }
    requires volume { IsOfVolume (sizes_of site.sup) bitmap.old }
    requires node { (m : ℕ → Option (List ℕ)) → E.told edits.old ≡ Some m → IsUnlistingAt (geometry_of site.sup) bitmap.old m id info.now row.now }
    ensures unlisted { (m : ℕ → Option (List ℕ)) (tree : Tree) (lists now : Lists) (rest : List InodeRow) → E.told edits.old ≡ Some m → IsUnlisting (geometry_of site.sup) bitmap.old m tree lists now id info.now (row.now ∷ rest) → OnOk result (HasPartly (geometry_of site.sup) bitmap.old bitmap.new m tree lists id rest (E.told edits.new) (E.changed edits.old) (E.changed edits.new)) }
    ensures refused { (m : ℕ → Option (List ℕ)) (tree : Tree) (lists now : Lists) (rest : List InodeRow) → E.told edits.old ≡ Some m → IsUnlisting (geometry_of site.sup) bitmap.old m tree lists now id info.now (row.now ∷ rest) → IfErr result IsUndone }
    ensures rest { bitmap.new ≡ record bitmap.old { tally = bitmap.new.tally } }
    ensures changed { (k : ℕ) → E.changed edits.new k ≡ true → (E.changed edits.old k ≡ true) ⊎ (IsBitmapBlock bitmap.old k ⊎ (k < natural site.sup.num_blocks)) }
    ensures stays { StaysChanged (E.changed edits.old) (E.changed edits.new) }
    ensures size { E.size edits.new ≡ E.size edits.old }
    ensures frame { E.frame edits.new ≡ E.frame edits.old }
    ensures later { AreLater (E.counts edits.old) (E.counts edits.new) }
    ensures cause { IfErr result (HasReadCause (E.counts edits.old) (E.counts edits.new)) }
{
    let found = match listing_of(site, edits, id, info, row) {
        Ok(found) => found,
        Err(fault) => return Err(fault),
    };
    let Some(listing) = found else {
        return Ok(());
    };
    match unlist_pair(
        site.alloc,
        &site.sup,
        bitmap,
        edits,
        listing.at.inode,
        listing.at.kind,
        listing.key.as_slice(),
        id,
    ) {
        Ok(()) => Ok(()),
        Err(fault) => Err(fault),
    }
}

/// Takes a node out of the indices to which rows of the index directory lead, one after the other.
fn unlist_from_all<E: Edits>(
    site: Site,
    bitmap: &mut Bitmap,
    edits: &mut E,
    id: u64,
    info: &Info,
    rows: &[InodeRow],
) -> Result<(), MapFault>
    requires valid { IsValid site.sup }
    requires size { E.size edits.old ≡ site.sup.block_size }
    requires volume { IsOfVolume (sizes_of site.sup) bitmap.old }
    requires node { (m : ℕ → Option (List ℕ)) → E.told edits.old ≡ Some m → HasUnlisting (geometry_of site.sup) bitmap.old m id info.now rows.now }
    ensures unlisted { (m : ℕ → Option (List ℕ)) (tree : Tree) (lists now : Lists) → E.told edits.old ≡ Some m → IsUnlisting (geometry_of site.sup) bitmap.old m tree lists now id info.now rows.now → OnOk result (HasPartly (geometry_of site.sup) bitmap.old bitmap.new m tree lists id [] (E.told edits.new) (E.changed edits.old) (E.changed edits.new)) }
    ensures refused { (m : ℕ → Option (List ℕ)) (tree : Tree) (lists now : Lists) → E.told edits.old ≡ Some m → IsUnlisting (geometry_of site.sup) bitmap.old m tree lists now id info.now rows.now → IfErr result IsUndone }
    ensures rest { bitmap.new ≡ record bitmap.old { tally = bitmap.new.tally } }
    ensures changed { (k : ℕ) → E.changed edits.new k ≡ true → (E.changed edits.old k ≡ true) ⊎ (IsBitmapBlock bitmap.old k ⊎ (k < natural site.sup.num_blocks)) }
    ensures stays { StaysChanged (E.changed edits.old) (E.changed edits.new) }
    ensures size { E.size edits.new ≡ E.size edits.old }
    ensures frame { E.frame edits.new ≡ E.frame edits.old }
    ensures later { AreLater (E.counts edits.old) (E.counts edits.new) }
    ensures cause { IfErr result (HasReadCause (E.counts edits.old) (E.counts edits.new)) }
{
    for row in rows {
        match unlist_from(site, bitmap, edits, id, info, row) {
            Ok(()) => {}
            Err(fault) => return Err(fault),
        }
    }
    Ok(())
}

/// Takes a node out of every index that lists it. After a fault the call is to be dropped.
pub fn unlist_node<E: Edits>(
    alloc: Global,
    sup: &Super,
    bitmap: &mut Bitmap,
    edits: &mut E,
    id: u64,
) -> Result<(), MapFault>
    requires valid { IsValid sup.now }
    requires inside { id < natural sup.now.num_blocks }
    requires size { E.size edits.old ≡ sup.now.block_size }
    requires volume { IsOfVolume (sizes_of sup.now) bitmap.old }
    requires node { (m : ℕ → Option (List ℕ)) → E.told edits.old ≡ Some m → HasNodeIn (geometry_of sup.now) bitmap.old m id }
    ensures unlisted { (m : ℕ → Option (List ℕ)) (tree : Tree) (lists : Lists) (n : Node) → E.told edits.old ≡ Some m → IsReady (geometry_of sup.now) bitmap.old m tree lists → IsNode tree id n → id ≢ tree.root → OnOk result (HasUnlisted (geometry_of sup.now) bitmap.old bitmap.new m tree lists id (E.told edits.new) (E.changed edits.old) (E.changed edits.new)) }
    ensures refused { (m : ℕ → Option (List ℕ)) (tree : Tree) (lists : Lists) (n : Node) → E.told edits.old ≡ Some m → IsReady (geometry_of sup.now) bitmap.old m tree lists → IsNode tree id n → id ≢ tree.root → IfErr result IsUndone }
    ensures rest { bitmap.new ≡ record bitmap.old { tally = bitmap.new.tally } }
    ensures changed { (k : ℕ) → E.changed edits.new k ≡ true → (E.changed edits.old k ≡ true) ⊎ (IsBitmapBlock bitmap.old k ⊎ (k < natural sup.now.num_blocks)) }
    ensures stays { StaysChanged (E.changed edits.old) (E.changed edits.new) }
    ensures size { E.size edits.new ≡ E.size edits.old }
    ensures frame { E.frame edits.new ≡ E.frame edits.old }
    ensures later { AreLater (E.counts edits.old) (E.counts edits.new) }
    ensures cause { IfErr result (HasReadCause (E.counts edits.old) (E.counts edits.new)) }
{
    let site = Site { alloc, sup: *sup };
    let directory = sup.block_of(sup.indices);
    if directory == 0 {
        return Ok(());
    }
    let info = match info_at(bfs_look::Site { alloc, sup: *sup }, edits, id) {
        Ok(info) => info,
        Err(fault) => return Err(fault),
    };
    let rows = match named_inodes(site, edits, directory, None, None) {
        Ok(rows) => rows,
        Err(fault) => return Err(fault),
    };
    match unlist_from_all(site, bitmap, edits, id, &info, &rows) {
        Ok(()) => Ok(()),
        Err(fault) => Err(fault),
    }
}
