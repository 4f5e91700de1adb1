// A node gets another name of its own.
ghost use Rattle.std.specs.Prelude.{◌≡◌, ◌≢◌, ◌≤◌, ◌<◌, ◌⊎◌, ℕ, List, [], true, false, length, max, Option, Some, OnOk, IfErr};
ghost use Rattle.bfs_super.specs.Conditions.{IsValid, ceil, natural};
ghost use Rattle.bfs_super.specs.Geometry.{geometry_of};
ghost use Rattle.bfs_txn.specs.Faults.{AreLater};
ghost use Rattle.bfs_txn.specs.Told.{StaysChanged};
ghost use Rattle.bfs_stream.specs.Grown.{IsOfVolume};
ghost use Rattle.bfs_stream.specs.Sizes.{sizes_of};
ghost use Rattle.bfs_tree.specs.Trees.{Node, Tree, IsNode};
ghost use Rattle.bfs_shift.specs.Lists.{Lists};
ghost use Rattle.bfs_shift.specs.Work.{IsAtWork, IsStepped};
ghost use Rattle.bfs_attr.specs.Bearers.{bearer_of};
ghost use Rattle.bfs_attr_put.specs.Done.{IsUnanswered};
ghost use Rattle.bfs_attr_put.specs.Written.{HasWriteCause};
ghost use Rattle.bfs_give_name.specs.Named.{with_name, HoldsProper, IsNamed};

use bfs_attr_put::calls::not_put;
use bfs_bitmap::Bitmap;
use bfs_make::Site;
use bfs_moves::check_inode;
use bfs_set_name::set_name;
use bfs_stream_pages::MapFault;
use bfs_super::Super;
use bfs_txn::Edits;
use std::alloc::Global;

/// Sets the name, with attributes that move out for it where it has no room.
fn set_own_name<E: Edits>(
    site: Site,
    bitmap: &mut Bitmap,
    edits: &mut E,
    id: u64,
    name: &[u8],
    stamp: i64,
) -> Result<(), MapFault>
    requires valid { IsValid site.sup }
    requires inside { id < natural site.sup.num_blocks }
    requires size { E.size edits.old ≡ site.sup.block_size }
    requires volume { IsOfVolume (sizes_of site.sup) bitmap.old }
    requires some { 1 ≤ length name.now }
    requires short { length name.now ≤ 255 }
    requires node { (m : ℕ → Option (List ℕ)) → E.told edits.old ≡ Some m → HoldsProper (geometry_of site.sup) bitmap.old m id }
    ensures named { (m : ℕ → Option (List ℕ)) → E.told edits.old ≡ Some m → OnOk result (IsNamed (bearer_of id site.sup) bitmap.old bitmap.new m name.now (E.told edits.new) (E.changed edits.old) (E.changed edits.new)) }
    ensures unanswered { (m : ℕ → Option (List ℕ)) → E.told edits.old ≡ Some m → IfErr result IsUnanswered }
    ensures cause { IfErr result (HasWriteCause (max 1 (ceil 2048 site.sup.block_size)) (E.counts edits.old) (E.counts edits.new)) }
    ensures rest { bitmap.new ≡ record bitmap.old { tally = bitmap.new.tally } }
    ensures stays { StaysChanged (E.changed edits.old) (E.changed edits.new) }
    ensures size { E.size edits.new ≡ E.size edits.old }
    ensures frame { E.frame edits.new ≡ E.frame edits.old }
    ensures later { AreLater (E.counts edits.old) (E.counts edits.new) }
{
    match set_name(site, bitmap, edits, id, name, stamp) {
        Ok(()) => Ok(()),
        Err(fault) => Err(not_put(fault, id)),
    }
}

/// Writes a node's own name into its small data; where that has no room for it, attributes move out of it, the longest first, until there is.
/// After a fault the call is to be dropped. Want of memory stands too for a name that can't be set, since the attribute that would have to move
/// next is named `.` or `..`: a row of that name is the attribute directory's own.
pub fn give_name<E: Edits>(
    alloc: Global,
    sup: &Super,
    bitmap: &mut Bitmap,
    edits: &mut E,
    id: u64,
    name: &[u8],
    stamp: i64,
) -> Result<(), MapFault>
    requires valid { IsValid sup.now }
    requires inside { id < natural sup.now.num_blocks }
    requires size { E.size edits.old ≡ sup.now.block_size }
    requires volume { IsOfVolume (sizes_of sup.now) bitmap.old }
    requires some { 1 ≤ length name.now }
    requires short { length name.now ≤ 255 }
    requires node { (m : ℕ → Option (List ℕ)) → E.told edits.old ≡ Some m → HoldsProper (geometry_of sup.now) bitmap.old m id }
    ensures named { (m : ℕ → Option (List ℕ)) (tree : Tree) (lists : Lists) (n : Node) → E.told edits.old ≡ Some m → IsAtWork (geometry_of sup.now) bitmap.old m tree lists [] → IsNode tree id n → id ≢ (geometry_of sup.now).root → OnOk result (IsStepped (geometry_of sup.now) bitmap.old bitmap.new m tree (with_name tree id n name.now) lists [] (E.told edits.new) (E.changed edits.old) (E.changed edits.new)) }
    ensures unanswered { (m : ℕ → Option (List ℕ)) (tree : Tree) (lists : Lists) (n : Node) → E.told edits.old ≡ Some m → IsAtWork (geometry_of sup.now) bitmap.old m tree lists [] → IsNode tree id n → id ≢ (geometry_of sup.now).root → IfErr result IsUnanswered }
    ensures cause { IfErr result (HasWriteCause (max 1 (ceil 2048 sup.now.block_size)) (E.counts edits.old) (E.counts edits.new)) }
    ensures rest { bitmap.new ≡ record bitmap.old { tally = bitmap.new.tally } }
    ensures stays { StaysChanged (E.changed edits.old) (E.changed edits.new) }
    ensures size { E.size edits.new ≡ E.size edits.old }
    ensures frame { E.frame edits.new ≡ E.frame edits.old }
    ensures later { AreLater (E.counts edits.old) (E.counts edits.new) }
{
    match check_inode(alloc, sup, edits, id) {
        Ok(()) => {}
        Err(fault) => return Err(fault),
    }
    let site = Site { alloc, sup: *sup };
    match set_own_name(site, bitmap, edits, id, name, stamp) {
        Ok(()) => {}
        Err(fault) => return Err(fault),
    }
    match check_inode(alloc, sup, edits, id) {
        Ok(()) => Ok(()),
        Err(fault) => Err(fault),
    }
}
