// How many blocks a call that removes an attribute is allowed to change.
ghost use Rattle.std.specs.Prelude.{◌≡◌, ◌≤◌, ◌<◌, ℕ, List, length, min, Option, Some, IfOk, IfErr, MatchResult};
ghost use Rattle.bfs_super.specs.Conditions.{IsValid};
ghost use Rattle.bfs_super.specs.Geometry.{geometry_of};
ghost use Rattle.bfs_txn.specs.Faults.{AreLater};
ghost use Rattle.bfs_tree.specs.declared.call.Call.TheVariants.{AttrRemove};
ghost use Rattle.bfs_tree.specs.Trees.{Tree};
ghost use Rattle.bfs_maps.specs.Refused.{IsUndone, HasReadCause};
ghost use Rattle.bfs_sound.specs.Need.{attribute_index_row, logged_need};
ghost use Rattle.bfs_shift.specs.Lists.{Lists};
ghost use Rattle.bfs_shift.specs.Shifts.{volume_in};
ghost use Rattle.bfs_look.specs.Ready.{IsReady, HasReady, HasNodeAt};
ghost use Rattle.bfs_unmake.specs.Allowances.{allowance, left_alone, left_owners};
ghost use Rattle.bfs_unmake.specs.Done.{HasAnswerCause};
ghost use Rattle.bfs_attr_calls.specs.Removed.{HasAttributeAt};

use crate::leaving::inodes_left;
use bfs_bitmap::Bitmap;
use bfs_make::Site;
use bfs_query::index_at;
use bfs_stream_pages::MapFault;
use bfs_super::Super;
use bfs_tree::is_built_in;
use bfs_txn::Edits;
use bfs_unmake::calls::bitmap_blocks;
use bfs_unmake::streams_length;
use std::alloc::Global;

/// One where there is an index of an attribute's name, and none where there isn't: the built-in indices list no attributes.
pub fn index_count<E: Edits>(
    alloc: Global,
    sup: &Super,
    bitmap: &mut Bitmap,
    edits: &mut E,
    name: &[u8],
) -> Result<u64, MapFault>
    requires valid { IsValid sup.now }
    requires size { E.size edits.old ≡ sup.now.block_size }
    requires ready { (m : ℕ → Option (List ℕ)) → E.told edits.old ≡ Some m → HasReady (geometry_of sup.now) bitmap.old m }
    ensures counted { (m : ℕ → Option (List ℕ)) (tree : Tree) (lists : Lists) → E.told edits.old ≡ Some m → IsReady (geometry_of sup.now) bitmap.old m tree lists → MatchResult result (λ n. n ≡ length (attribute_index_row (volume_in (geometry_of sup.now) m) name.now)) IsUndone }
    ensures few { IfOk result (λ n. n ≤ 1) }
    ensures bitmap { bitmap.new ≡ bitmap.old }
    ensures told { E.told edits.new ≡ E.told edits.old }
    ensures changed { E.changed edits.new ≡ E.changed edits.old }
    ensures size { E.size edits.new ≡ E.size edits.old }
    ensures frame { E.frame edits.new ≡ E.frame edits.old }
    ensures later { AreLater (E.counts edits.old) (E.counts edits.new) }
    ensures cause { IfErr result (HasReadCause (E.counts edits.old) (E.counts edits.new)) }
{
    if is_built_in(name) {
        return Ok(0);
    }
    let found = match index_at(alloc, sup, bitmap, edits, name) {
        Ok(found) => found,
        Err(fault) => return Err(fault),
    };
    match found {
        Some(_) => Ok(1),
        None => Ok(0),
    }
}

/// How many blocks the streams have that are given up with an attribute, but no more than so many. Array blocks aren't counted. An attribute in
/// small data has none, and one that isn't there.
pub fn blocks_left<E: Edits>(
    site: Site,
    bitmap: &Bitmap,
    edits: &mut E,
    id: u64,
    name: &[u8],
    most: u64,
) -> Result<u64, MapFault>
    requires valid { IsValid site.sup }
    requires size { E.size edits.old ≡ site.sup.block_size }
    requires few { most ≤ 4259840 }
    requires ready { (m : ℕ → Option (List ℕ)) → E.told edits.old ≡ Some m → HasReady (geometry_of site.sup) bitmap.now m }
    requires there { (m : ℕ → Option (List ℕ)) (tree : Tree) (lists : Lists) → E.told edits.old ≡ Some m → IsReady (geometry_of site.sup) bitmap.now m tree lists → HasNodeAt tree id }
    ensures counted { (m : ℕ → Option (List ℕ)) (tree : Tree) (lists : Lists) → E.told edits.old ≡ Some m → IsReady (geometry_of site.sup) bitmap.now m tree lists → MatchResult result (λ n. n ≡ min (left_alone (volume_in (geometry_of site.sup) m) (left_owners (volume_in (geometry_of site.sup) m) tree (AttrRemove id name.now))) most) IsUndone }
    ensures few { IfOk result (λ n. n ≤ most) }
    ensures told { E.told edits.new ≡ E.told edits.old }
    ensures changed { E.changed edits.new ≡ E.changed edits.old }
    ensures size { E.size edits.new ≡ E.size edits.old }
    ensures frame { E.frame edits.new ≡ E.frame edits.old }
    ensures later { AreLater (E.counts edits.old) (E.counts edits.new) }
    ensures cause { IfErr result (HasReadCause (E.counts edits.old) (E.counts edits.new)) }
{
    let ids = match inodes_left(site, edits, id, name) {
        Ok(ids) => ids,
        Err(fault) => return Err(fault),
    };
    match streams_length(site, edits, &ids, most) {
        Ok(count) => Ok(count),
        Err(fault) => Err(fault),
    }
}

/// How many blocks a call that removes an attribute may change at most. It is at most what the format's bound on a call's blocks says, since
/// it counts each tree as one of a single level, and no array blocks of what is given up with the attribute.
pub fn remove_attr_allowance<E: Edits>(
    alloc: Global,
    sup: &Super,
    bitmap: &mut Bitmap,
    edits: &mut E,
    id: u64,
    name: &[u8],
) -> Result<u64, MapFault>
    requires valid { IsValid sup.now }
    requires size { E.size edits.old ≡ sup.now.block_size }
    requires ready { (m : ℕ → Option (List ℕ)) → E.told edits.old ≡ Some m → HasReady (geometry_of sup.now) bitmap.old m }
    requires there { (m : ℕ → Option (List ℕ)) (tree : Tree) (lists : Lists) → E.told edits.old ≡ Some m → IsReady (geometry_of sup.now) bitmap.old m tree lists → HasAttributeAt tree id name.now }
    ensures allowed { (m : ℕ → Option (List ℕ)) (tree : Tree) (lists : Lists) → E.told edits.old ≡ Some m → IsReady (geometry_of sup.now) bitmap.old m tree lists → MatchResult result (λ n. n ≡ allowance (volume_in (geometry_of sup.now) m) tree (AttrRemove id name.now)) IsUndone }
    ensures within { (m : ℕ → Option (List ℕ)) (tree : Tree) (lists : Lists) → E.told edits.old ≡ Some m → IsReady (geometry_of sup.now) bitmap.old m tree lists → IfOk result (λ n. n ≤ logged_need (volume_in (geometry_of sup.now) m) tree (AttrRemove id name.now)) }
    ensures few { IfOk result (λ n. n < 16777216) }
    ensures bitmap { bitmap.new ≡ bitmap.old }
    ensures told { E.told edits.new ≡ E.told edits.old }
    ensures changed { E.changed edits.new ≡ E.changed edits.old }
    ensures size { E.size edits.new ≡ E.size edits.old }
    ensures frame { E.frame edits.new ≡ E.frame edits.old }
    ensures later { AreLater (E.counts edits.old) (E.counts edits.new) }
    ensures cause { IfErr result (HasAnswerCause (E.counts edits.old) (E.counts edits.new)) }
{
    let listed = match index_count(alloc, sup, bitmap, edits, name) {
        Ok(listed) => listed,
        Err(fault) => return Err(fault),
    };
    let most = bitmap_blocks(sup);
    let site = Site { alloc, sup: *sup };
    let left = match blocks_left(site, bitmap, edits, id, name, most) {
        Ok(left) => left,
        Err(fault) => return Err(fault),
    };
    Ok(28 * (1 + listed) + left + 8)
}
