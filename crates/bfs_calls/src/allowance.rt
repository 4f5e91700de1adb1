// How many blocks a call is allowed to change.
ghost use Rattle.std.specs.Prelude.{◌≡◌, ◌≤◌, ◌<◌, ◌+◌, ◌*◌, ℕ, List, Option, Some, IfOk, IfErr, MatchResult, length, is_some, nat_lt, if◌then◌else◌};
ghost use Rattle.bfs_super.specs.Conditions.{IsValid, ceil, natural};
ghost use Rattle.bfs_super.specs.Geometry.{bitmap_length, geometry_of};
ghost use Rattle.bfs_txn.specs.Faults.{AreLater};
ghost use Rattle.bfs_tree.specs.declared.call.Call.TheVariants.{Make};
ghost use Rattle.bfs_tree.specs.declared.call.Kind.TheVariants.{Dir};
ghost use Rattle.bfs_tree.specs.Names.{target_of};
ghost use Rattle.bfs_tree.specs.Trees.{Node, Tree, IsNode};
ghost use Rattle.bfs_maps.specs.Refused.{IsUndone};
ghost use Rattle.bfs_sound.specs.Need.{logged_need};
ghost use Rattle.bfs_shift.specs.Lists.{Lists};
ghost use Rattle.bfs_shift.specs.Shifts.{volume_in};
ghost use Rattle.bfs_look.specs.Ready.{IsReady, HasReady};
ghost use Rattle.bfs_calls.specs.Allowances.{allowance};
ghost use Rattle.bfs_calls.specs.Done.{HasAnswerCause};

use crate::indices::built_in_indices;
use bfs_bitmap::Bitmap;
use bfs_stream_pages::MapFault;
use bfs_super::Super;
use bfs_tree::MakeKind;
use bfs_txn::Edits;
use std::alloc::Global;

/// The longest target that stands in an inode, in bytes.
const IN_INODE: usize = 143;

/// One where there is one.
fn one(there: Option<u64>) -> u64
    ensures value { result ≡ (if is_some there then 1 else 0) }
    ensures few { result ≤ 1 }
{
    match there {
        Some(_) => 1,
        None => 0,
    }
}

/// How many parts of so many hold a number, the last perhaps in part.
fn parts(count: u64, size: u64) -> u64
    requires some { 0 < size }
    requires short { size ≤ 65536 }
    requires few { count ≤ 4194304 }
    ensures value { result ≡ ceil count size }
    ensures few { result ≤ 4259840 }
{
    (count + (size - 1)) / size
}

/// How many blocks of its own a new node's target takes.
fn target_blocks(kind: &MakeKind, block_size: u32) -> u64
    requires short { length (target_of kind.now) ≤ 1024 }
    requires some { 1 ≤ block_size }
    requires few { block_size ≤ 8192 }
    ensures value { result ≡ (if nat_lt (length (target_of kind.now)) 144 then 0 else ceil (length (target_of kind.now)) block_size) }
    ensures few { result ≤ 4259840 }
{
    let length = kind.target_len();
    if length <= IN_INODE {
        return 0;
    }
    parts(length as u64, u64::from(block_size))
}

/// How many blocks the bitmap has.
pub fn bitmap_blocks(sup: &Super) -> u64
    requires { IsValid sup.now }
    ensures value { result ≡ bitmap_length (geometry_of sup.now).blocks (geometry_of sup.now).block_size }
    ensures few { result ≤ 4259840 }
{
    let geometry = sup.geometry();
    parts(geometry.blocks, u64::from(geometry.block_size) * 8)
}

/// How many blocks a call that makes a node may change at most, and so many more may be used after it. It is at most what the format's bound
/// on a call's blocks says, since it counts each tree as one of a single level.
pub fn make_allowance<E: Edits>(
    alloc: Global,
    sup: &Super,
    bitmap: &mut Bitmap,
    edits: &mut E,
    kind: &MakeKind,
) -> Result<u64, MapFault>
    requires valid { IsValid sup.now }
    requires size { E.size edits.old ≡ sup.now.block_size }
    requires ready { (m : ℕ → Option (List ℕ)) → E.told edits.old ≡ Some m → HasReady (geometry_of sup.now) bitmap.old m }
    requires short { length (target_of kind.now) ≤ 1024 }
    ensures allowed { (m : ℕ → Option (List ℕ)) (tree : Tree) (lists : Lists) (dir : ℕ) (name : List ℕ) (mode : ℕ) → E.told edits.old ≡ Some m → IsReady (geometry_of sup.now) bitmap.old m tree lists → MatchResult result (λ n. n ≡ allowance (volume_in (geometry_of sup.now) m) tree (Make dir name kind.now mode)) IsUndone }
    ensures within { (m : ℕ → Option (List ℕ)) (tree : Tree) (lists : Lists) (dir : ℕ) (d : Node) (name : List ℕ) (mode : ℕ) → E.told edits.old ≡ Some m → IsReady (geometry_of sup.now) bitmap.old m tree lists → IsNode tree dir d → d.kind ≡ Dir → IfOk result (λ n. n ≤ logged_need (volume_in (geometry_of sup.now) m) tree (Make dir name kind.now mode)) }
    ensures few { IfOk result (λ n. n < 16777216) }
    ensures bitmap { bitmap.new ≡ bitmap.old }
    ensures told { E.told edits.new ≡ E.told edits.old }
    ensures changed { E.changed edits.new ≡ E.changed edits.old }
    ensures size { E.size edits.new ≡ E.size edits.old }
    ensures frame { E.frame edits.new ≡ E.frame edits.old }
    ensures later { AreLater (E.counts edits.old) (E.counts edits.new) }
    ensures cause { IfErr result (HasAnswerCause (E.counts edits.old) (E.counts edits.new)) }
{
    let indices = match built_in_indices(alloc, sup, bitmap, edits) {
        Ok(indices) => indices,
        Err(fault) => return Err(fault),
    };
    let rows = 1 + one(indices.name) + one(indices.size) + one(indices.last_modified);
    let blocks = target_blocks(kind, sup.block_size);
    let most = bitmap_blocks(sup);
    Ok(28 * rows + blocks + blocks.min(most) + 8)
}
