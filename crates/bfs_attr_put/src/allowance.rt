// How many blocks a call that writes an attribute is allowed to change.
ghost use Rattle.std.specs.Prelude.{◌≡◌, ◌≤◌, ◌<◌, ◌+◌, ◌*◌, ℕ, List, length, min, Option, Some, IfOk, IfErr, MatchResult};
ghost use Rattle.bfs_super.specs.Conditions.{IsValid, ceil};
ghost use Rattle.bfs_super.specs.Geometry.{geometry_of};
ghost use Rattle.bfs_txn.specs.Faults.{AreLater};
ghost use Rattle.bfs_tree.specs.declared.call.Call.TheVariants.{AttrWrite};
ghost use Rattle.bfs_tree.specs.Trees.{Tree};
ghost use Rattle.bfs_maps.specs.Refused.{IsUndone};
ghost use Rattle.bfs_sound.specs.Need.{logged_need};
ghost use Rattle.bfs_shift.specs.Lists.{Lists};
ghost use Rattle.bfs_shift.specs.Shifts.{volume_in};
ghost use Rattle.bfs_look.specs.Ready.{IsReady, HasReady, HasNodeAt};
ghost use Rattle.bfs_attr_calls.specs.Allowances.{allowance};
ghost use Rattle.bfs_attr_calls.specs.Done.{HasAnswerCause};

use bfs_attr_calls::calls::bitmap_blocks;
use bfs_attr_calls::{blocks_left, index_count};
use bfs_bitmap::Bitmap;
use bfs_make::{Site, blocks_for, has_long_blocks, has_short_blocks};
use bfs_stream_pages::MapFault;
use bfs_super::Super;
use bfs_txn::Edits;
use std::alloc::Global;

/// How many blocks a call may change that writes so many bytes, where so many indices list the attribute, so many blocks may be given back, and
/// the bitmap has so many: a row is taken and one is put, in the attribute directory and in an index.
fn counted(sup: &Super, length: u64, listed: u64, left: u64, most: u64) -> u64
    requires valid { IsValid sup.now }
    requires short { length ≤ 65536 }
    requires one { listed ≤ 1 }
    requires few { left ≤ most }
    requires most { most ≤ 4259840 }
    ensures value { result ≡ 28 * (2 + 2 * listed) + ceil length sup.now.block_size + min (ceil length sup.now.block_size + left) most + 8 }
    ensures few { result < 16777216 }
{
    has_long_blocks(*sup);
    has_short_blocks(*sup);
    let filled = blocks_for(sup.block_size, length);
    let changed = (filled + left).min(most);
    28 * (2 + 2 * listed) + filled + changed + 8
}

/// How many blocks a call that writes an attribute may change at most, and so many more may be used after it. It is at most what the format's
/// bound on a call's blocks says, since it counts each tree as one of a single level, and no array blocks of what is given up with the old one.
pub fn write_attr_allowance<E: Edits>(
    alloc: Global,
    sup: &Super,
    bitmap: &mut Bitmap,
    edits: &mut E,
    id: u64,
    name: &[u8],
    bytes: &[u8],
) -> Result<u64, MapFault>
    requires valid { IsValid sup.now }
    requires size { E.size edits.old ≡ sup.now.block_size }
    requires ready { (m : ℕ → Option (List ℕ)) → E.told edits.old ≡ Some m → HasReady (geometry_of sup.now) bitmap.old m }
    requires short { length bytes.now ≤ 65536 }
    requires there { (m : ℕ → Option (List ℕ)) (tree : Tree) (lists : Lists) → E.told edits.old ≡ Some m → IsReady (geometry_of sup.now) bitmap.old m tree lists → HasNodeAt tree id }
    ensures allowed { (m : ℕ → Option (List ℕ)) (tree : Tree) (lists : Lists) (kind : ℕ) → E.told edits.old ≡ Some m → IsReady (geometry_of sup.now) bitmap.old m tree lists → MatchResult result (λ n. n ≡ allowance (volume_in (geometry_of sup.now) m) tree (AttrWrite id name.now kind bytes.now)) IsUndone }
    ensures within { (m : ℕ → Option (List ℕ)) (tree : Tree) (lists : Lists) (kind : ℕ) → E.told edits.old ≡ Some m → IsReady (geometry_of sup.now) bitmap.old m tree lists → IfOk result (λ n. n ≤ logged_need (volume_in (geometry_of sup.now) m) tree (AttrWrite id name.now kind bytes.now)) }
    ensures few { IfOk result (λ n. n < 16777216) }
    ensures bitmap { bitmap.new ≡ bitmap.old }
    ensures told { E.told edits.new ≡ E.told edits.old }
    ensures changed { E.changed edits.new ≡ E.changed edits.old }
    ensures size { E.size edits.new ≡ E.size edits.old }
    ensures frame { E.frame edits.new ≡ E.frame edits.old }
    ensures later { AreLater (E.counts edits.old) (E.counts edits.new) }
    ensures cause { IfErr result (HasAnswerCause (E.counts edits.old) (E.counts edits.new)) }
{
    let listed = match index_count(alloc, sup, bitmap, edits, name) {
        Ok(listed) => listed,
        Err(fault) => return Err(fault),
    };
    let most = bitmap_blocks(sup);
    let site = Site { alloc, sup: *sup };
    let left = match blocks_left(site, bitmap, edits, id, name, most) {
        Ok(left) => left,
        Err(fault) => return Err(fault),
    };
    Ok(counted(sup, bytes.len() as u64, listed, left, most))
}
