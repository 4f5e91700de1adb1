// A node's own name, set step by step.
ghost use Rattle.std.specs.Prelude.{◌≡◌, ◌≤◌, ◌<◌, ℕ, List, Option, Some, OnOk, IfOk, IfErr, MatchResult, length, max};
ghost use Rattle.bfs_super.specs.Conditions.{IsValid, ceil, natural};
ghost use Rattle.bfs_txn.specs.Faults.{AreLater};
ghost use Rattle.bfs_txn.specs.Told.{StaysChanged};
ghost use Rattle.bfs_stream.specs.Grown.{IsOfVolume};
ghost use Rattle.bfs_stream.specs.Sizes.{sizes_of};
ghost use Rattle.bfs_attr.specs.Bearers.{bearer_of};
ghost use Rattle.bfs_attrs.specs.Replaced.{HasAllBlocks};
ghost use Rattle.bfs_attrs.specs.Stored.{HasAddCause};
ghost use Rattle.bfs_set_name.specs.Renamed.{CanName, HasNewName, IsNotNamed, IsStepped, IsNotStepped};

use crate::leaving::{damaged, move_longest};
use bfs_attr::put_own_name;
use bfs_attrs::longest_can_move;
use bfs_bitmap::Bitmap;
use bfs_make::{Site, has_long_blocks};
use bfs_stream_pages::MapFault;
use bfs_txn::Edits;

/// Puts the name where it has room, and else moves the longest attribute out. Was it put? After a fault the call is to be dropped.
fn put_or_move<E: Edits>(
    site: Site,
    bitmap: &mut Bitmap,
    edits: &mut E,
    inode: u64,
    name: &[u8],
    stamp: i64,
) -> Result<bool, MapFault>
    requires valid { IsValid site.sup }
    requires inside { inode < natural site.sup.num_blocks }
    requires size { E.size edits.old ≡ site.sup.block_size }
    requires volume { IsOfVolume (sizes_of site.sup) bitmap.old }
    requires short { length name.now ≤ 255 }
    requires can { (m : ℕ → Option (List ℕ)) → E.told edits.old ≡ Some m → CanName (bearer_of inode site.sup) bitmap.old m name.now }
    ensures stepped { (m : ℕ → Option (List ℕ)) → E.told edits.old ≡ Some m → IfOk result (IsStepped (bearer_of inode site.sup) bitmap.old bitmap.new m name.now (E.told edits.new) (E.changed edits.old) (E.changed edits.new)) }
    ensures keeps { (m : ℕ → Option (List ℕ)) → E.told edits.old ≡ Some m → OnOk result (HasAllBlocks (bearer_of inode site.sup) m (E.told edits.new)) }
    ensures faults { (m : ℕ → Option (List ℕ)) → E.told edits.old ≡ Some m → IfErr result (IsNotStepped (bearer_of inode site.sup) bitmap.old m name.now) }
    ensures rest { bitmap.new ≡ record bitmap.old { tally = bitmap.new.tally } }
    ensures stays { StaysChanged (E.changed edits.old) (E.changed edits.new) }
    ensures size { E.size edits.new ≡ E.size edits.old }
    ensures frame { E.frame edits.new ≡ E.frame edits.old }
    ensures later { AreLater (E.counts edits.old) (E.counts edits.new) }
    ensures cause { IfErr result (HasAddCause (max 1 (ceil 2048 site.sup.block_size)) (E.counts edits.old) (E.counts edits.new)) }
{
    has_long_blocks(site.sup);
    longest_can_move();
    let put = match put_own_name(site, edits, inode, name) {
        Ok(put) => put,
        Err(fault) => return Err(fault),
    };
    if put {
        return Ok(true);
    }
    match move_longest(site, bitmap, edits, inode, stamp) {
        Ok(()) => Ok(false),
        Err(fault) => Err(fault),
    }
}

/// Sets a node's own name in the small data of the inode at a block. Where it has no room there, attributes move out to the attribute
/// directory, the longest first, and among equals the last. After a fault the call is to be dropped. Want of memory stands too where the
/// one that is to move next is named `.` or `..`: it can't move, since a row of that name is the attribute directory's own.
pub fn set_name<E: Edits>(
    site: Site,
    bitmap: &mut Bitmap,
    edits: &mut E,
    inode: u64,
    name: &[u8],
    stamp: i64,
) -> Result<(), MapFault>
    requires valid { IsValid site.sup }
    requires inside { inode < natural site.sup.num_blocks }
    requires size { E.size edits.old ≡ site.sup.block_size }
    requires volume { IsOfVolume (sizes_of site.sup) bitmap.old }
    requires some { 1 ≤ length name.now }
    requires short { length name.now ≤ 255 }
    requires can { (m : ℕ → Option (List ℕ)) → E.told edits.old ≡ Some m → CanName (bearer_of inode site.sup) bitmap.old m name.now }
    ensures named { (m : ℕ → Option (List ℕ)) → E.told edits.old ≡ Some m → OnOk result (HasNewName (bearer_of inode site.sup) bitmap.old bitmap.new m name.now (E.told edits.new) (E.changed edits.old) (E.changed edits.new)) }
    ensures keeps { (m : ℕ → Option (List ℕ)) → E.told edits.old ≡ Some m → OnOk result (HasAllBlocks (bearer_of inode site.sup) m (E.told edits.new)) }
    ensures faults { (m : ℕ → Option (List ℕ)) → E.told edits.old ≡ Some m → IfErr result (IsNotNamed (bearer_of inode site.sup) bitmap.old m name.now) }
    ensures rest { bitmap.new ≡ record bitmap.old { tally = bitmap.new.tally } }
    ensures stays { StaysChanged (E.changed edits.old) (E.changed edits.new) }
    ensures size { E.size edits.new ≡ E.size edits.old }
    ensures frame { E.frame edits.new ≡ E.frame edits.old }
    ensures later { AreLater (E.counts edits.old) (E.counts edits.new) }
    ensures cause { IfErr result (HasAddCause (max 1 (ceil 2048 site.sup.block_size)) (E.counts edits.old) (E.counts edits.new)) }
{
    has_long_blocks(site.sup);
    let mut left = site.sup.block_size;
    while 0 < left {
        let put = match put_or_move(site, bitmap, edits, inode, name, stamp) {
            Ok(put) => put,
            Err(fault) => return Err(fault),
        };
        if put {
            return Ok(());
        }
        left -= 1;
    }
    Err(damaged(inode))
}
