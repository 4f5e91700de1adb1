// How many blocks a call is allowed to change that gives a file a size.
ghost use Rattle.std.specs.Prelude.{◌≡◌, ◌≤◌, ◌<◌, ◌+◌, ◌-◌, ◌*◌, ◌/◌, ◌==◌, min, max, nat_lt, ℕ, List, length, Option, Some, true, is_some, IfOk, IfErr, MatchResult, if◌then◌else◌};
ghost use Rattle.bfs_super.specs.Conditions.{IsValid, ceil};
ghost use Rattle.bfs_super.specs.Geometry.{bitmap_length, geometry_of};
ghost use Rattle.bfs_bitmap.specs.Runs.{Room};
ghost use Rattle.bfs_txn.specs.Faults.{AreLater};
ghost use Rattle.bfs_tree.specs.Trees.{Node, Tree, IsNode, is_file};
ghost use Rattle.bfs_maps.specs.Refused.{IsUndone};
ghost use Rattle.bfs_sound.specs.Inodes.{stream_blocks};
ghost use Rattle.bfs_shift.specs.Lists.{Lists};
ghost use Rattle.bfs_shift.specs.Shifts.{volume_in};
ghost use Rattle.bfs_look.specs.Ready.{IsReady, HasReady};
ghost use Rattle.bfs_calls.specs.Done.{HasAnswerCause};
ghost use Rattle.bfs_set_size.specs.Relisted.{AreBefore};
ghost use Rattle.bfs_set_size.specs.Allowed.{IsSizeAllowance, IsWithinNeed};

use crate::setting::{Before, before_at};
use bfs_bitmap::Bitmap;
use bfs_calls::{BuiltIn, bitmap_blocks, blocked};
use bfs_leave::stream_blocks_of;
use bfs_make::{Site, blocks_for, has_long_blocks, has_short_blocks};
use bfs_stream_pages::MapFault;
use bfs_super::Super;
use bfs_txn::Edits;
use std::alloc::Global;

/// The length of an array of block runs, in bytes.
const ARRAY: u32 = 4096;

/// How many blocks a call may change that gives a file a size, and how many may be taken.
#[derive(Clone, Copy, Debug)]
pub struct SizeAllowance {
    /// The blocks that the call may change and the log holds.
    pub logged: u64,
    /// How many more blocks may be used after the call: the data blocks that the file gains are among them.
    pub taken: u64,
}

/// How many blocks an array has.
pub fn array_length(sup: &Super) -> u16
    requires { IsValid sup.now }
    ensures value { result ≡ max 1 (4096 / sup.now.block_size) }
    ensures some { 1 ≤ result }
    ensures few { result ≤ 4 }
{
    let blocks = ARRAY / sup.block_size;
    blocks.max(1) as u16
}

/// How many rows are put and taken in the indices: two in each of those that list a file by what changes.
fn index_rows(indices: BuiltIn) -> u64
    ensures value { result ≡ (if is_some indices.size then 2 else 0) + (if is_some indices.last_modified then 2 else 0) }
    ensures few { result ≤ 4 }
{
    let sizes = if indices.size.is_some() { 2 } else { 0 };
    let times = if indices.last_modified.is_some() {
        2
    } else {
        0
    };
    sizes + times
}

/// How many data blocks a stream of so many gains that needs so many: as many as whole arrays have.
fn gained(there: u64, needed: u64, array: u64) -> u64
    requires some { 1 ≤ array }
    requires short { array ≤ 4 }
    requires few { needed ≤ 1048576 }
    ensures value { result ≡ array * ceil (needed - there) array }
    ensures few { result ≤ 1048580 }
{
    let lacking = needed.saturating_sub(there);
    array * ((lacking + (array - 1)) / array)
}

/// How many array blocks the runs of so many data blocks take at most.
fn arrays_for(gained: u64, array: u64) -> u64
    requires short { array ≤ 4 }
    requires few { gained ≤ 1048580 }
    ensures value { result ≡ (if gained == 0 then 0 else ceil gained 128 + 3 * array) }
    ensures few { result ≤ 8205 }
{
    if gained == 0 {
        return 0;
    }
    (gained + 127) / 128 + 3 * array
}

/// Of how many blocks of a stream the call may give some back: of all where the file gets smaller, else of none.
fn cut_blocks(there: u64, before: u64, size: u64) -> u64
    ensures { result ≡ (if nat_lt size before then there else 0) }
{
    if size < before {
        return there;
    }
    0
}

/// How many blocks of the bitmap change at most, where so many data blocks are gained, so many may be given back, and it has so many.
fn bitmap_changes(gained: u64, left: u64, most: u64) -> u64
    requires few { gained ≤ 1048580 }
    requires most { most ≤ 4259840 }
    ensures value { result ≡ min (gained + left) most }
{
    if left >= most {
        return most;
    }
    (gained + left).min(most)
}

/// How many blocks the call may change and take, from what was read: of the file before, and how many blocks its stream has.
fn counted(sup: &Super, before: Before, there: u64, size: u64) -> SizeAllowance
    requires valid { IsValid sup.now }
    requires few { size ≤ 1073741824 }
    ensures counted { (v : Room) (m : ℕ → Option (List ℕ)) (tree : Tree) (lists : Lists) (id : ℕ) (n : Node) → IsReady (geometry_of sup.now) v m tree lists → IsNode tree id n → is_file n.kind ≡ true → AreBefore lists n before.indices before.size before.modified → there ≡ length (stream_blocks (volume_in (geometry_of sup.now) m) id) → IsSizeAllowance (volume_in (geometry_of sup.now) m) tree id size result }
    ensures few { (result.logged ≤ result.taken) × (result.taken < 16777216) }
{
    has_long_blocks(*sup);
    has_short_blocks(*sup);
    let needed = blocks_for(sup.block_size, size);
    let array = u64::from(array_length(sup));
    let file = gained(there, needed, array);
    let arrays = arrays_for(file, array);
    let left = cut_blocks(there, before.size, size);
    let most = bitmap_blocks(sup);
    let rows = index_rows(before.indices);
    let logged = 28 * rows + arrays + bitmap_changes(file, left, most) + 8;
    SizeAllowance {
        logged,
        taken: logged + file,
    }
}

/// How many blocks a call may change at most that gives a file a size, and how many may be taken. They are at most what the format's bounds on
/// a call's blocks say, since each tree counts as one of a single level, and of a stream that is cut no array blocks count.
pub fn set_size_allowance<E: Edits>(
    alloc: Global,
    sup: &Super,
    bitmap: &mut Bitmap,
    edits: &mut E,
    id: u64,
    size: u64,
) -> Result<SizeAllowance, MapFault>
    requires valid { IsValid sup.now }
    requires size { E.size edits.old ≡ sup.now.block_size }
    requires ready { (m : ℕ → Option (List ℕ)) → E.told edits.old ≡ Some m → HasReady (geometry_of sup.now) bitmap.old m }
    requires few { size ≤ 1073741824 }
    ensures allowed { (m : ℕ → Option (List ℕ)) (tree : Tree) (lists : Lists) (n : Node) → E.told edits.old ≡ Some m → IsReady (geometry_of sup.now) bitmap.old m tree lists → IsNode tree id n → is_file n.kind ≡ true → MatchResult result (IsSizeAllowance (volume_in (geometry_of sup.now) m) tree id size) IsUndone }
    ensures within { (m : ℕ → Option (List ℕ)) (tree : Tree) (lists : Lists) (n : Node) → E.told edits.old ≡ Some m → IsReady (geometry_of sup.now) bitmap.old m tree lists → IsNode tree id n → is_file n.kind ≡ true → IfOk result (IsWithinNeed (volume_in (geometry_of sup.now) m) tree id size) }
    ensures few { IfOk result (λ a. (a.logged ≤ a.taken) × (a.taken < 16777216)) }
    ensures bitmap { bitmap.new ≡ bitmap.old }
    ensures told { E.told edits.new ≡ E.told edits.old }
    ensures changed { E.changed edits.new ≡ E.changed edits.old }
    ensures size { E.size edits.new ≡ E.size edits.old }
    ensures frame { E.frame edits.new ≡ E.frame edits.old }
    ensures later { AreLater (E.counts edits.old) (E.counts edits.new) }
    ensures cause { IfErr result (HasAnswerCause (E.counts edits.old) (E.counts edits.new)) }
{
    let before = match before_at(alloc, sup, bitmap, edits, id) {
        Ok(before) => before,
        Err(fault) => return Err(fault),
    };
    let site = Site { alloc, sup: *sup };
    let there = match stream_blocks_of(site, edits, id) {
        Ok(there) => there,
        Err(fault) => return Err(blocked(fault)),
    };
    Ok(counted(sup, before, there, size))
}
