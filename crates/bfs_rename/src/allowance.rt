// How many blocks a call that renames a node is allowed to change.
ghost use Rattle.std.specs.Prelude.{◌≡◌, ◌≤◌, ◌<◌, ◌+◌, ◌*◌, ℕ, List, min, Option, Some, IfOk, IfErr, MatchResult, is_some, if◌then◌else◌};
ghost use Rattle.bfs_super.specs.Conditions.{IsValid, natural};
ghost use Rattle.bfs_super.specs.Geometry.{geometry_of};
ghost use Rattle.bfs_txn.specs.Faults.{AreLater};
ghost use Rattle.bfs_tree.specs.declared.call.Call.TheVariants.{Rename};
ghost use Rattle.bfs_tree.specs.Trees.{Tree, is_dir};
ghost use Rattle.bfs_maps.specs.Refused.{IsUndone};
ghost use Rattle.bfs_sound.specs.Need.{logged_need};
ghost use Rattle.bfs_shift.specs.Lists.{Lists};
ghost use Rattle.bfs_shift.specs.Shifts.{volume_in};
ghost use Rattle.bfs_look.specs.Ready.{IsReady, HasReady};
ghost use Rattle.bfs_calls.specs.Allowances.{allowance};
ghost use Rattle.bfs_calls.specs.Done.{HasAnswerCause};
ghost use Rattle.bfs_rename.specs.Refused.{IsPlace};
ghost use Rattle.bfs_rename.specs.Renamed.{MayBeRenamed};

use crate::child::other_at;
use crate::leaving::{Leaving, leaving_of};
use crate::moves::{Moving, moving_of};
use bfs_bitmap::Bitmap;
use bfs_calls::{bitmap_blocks, built_in_indices};
use bfs_make::Site;
use bfs_remove_node::{built_in_count, child_at};
use bfs_stream_pages::MapFault;
use bfs_super::Super;
use bfs_tree::Kind;
use bfs_txn::Edits;
use std::alloc::Global;

/// How many rows of the index of names change, where there is one: the old pair is taken, and the new one is put.
fn name_rows(name: Option<u64>) -> u64
    ensures value { result ≡ (if is_some name then 2 else 0) }
    ensures few { result ≤ 2 }
{
    match name {
        Some(_) => 2,
        None => 0,
    }
}

/// How many rows of its own a node changes that moves: `..` of a directory.
fn dots_rows(kind: Kind) -> u64
    ensures value { result ≡ (if is_dir kind then 1 else 0) }
    ensures few { result ≤ 1 }
{
    if kind.is_dir() { 1 } else { 0 }
}

/// How many blocks a call may change that renames a node of this kind, by the index of names, the attributes that move, what a node leaves
/// that is replaced, and how many blocks the bitmap has.
fn counted(name: Option<u64>, kind: Kind, moving: Moving, leaving: Leaving, most: u64) -> u64
    requires count { moving.count ≤ 8192 }
    requires fills { moving.blocks ≤ 589824 }
    requires rows { leaving.rows ≤ 4294967300 }
    requires blocks { leaving.blocks ≤ most }
    requires most { most ≤ 4259840 }
    ensures value { result ≡ 28 * (2 + (if is_some name then 2 else 0) + (if is_dir kind then 1 else 0) + moving.count + leaving.rows) + moving.blocks + min (moving.blocks + leaving.blocks) most + 8 }
    ensures few { result < 1099511627776 }
{
    let rows = 2 + name_rows(name) + dots_rows(kind) + moving.count + leaving.rows;
    let changed = (moving.blocks + leaving.blocks).min(most);
    28 * rows + moving.blocks + changed + 8
}

/// How many blocks a call that renames a node may change at most. It is at most what the format's bound on a call's blocks says, since it
/// counts each tree as one of a single level, and no array blocks of the streams of a node that is replaced.
pub fn rename_allowance<E: Edits>(
    alloc: Global,
    sup: &Super,
    bitmap: &mut Bitmap,
    edits: &mut E,
    dir: u64,
    name: &[u8],
    to_dir: u64,
    to_name: &[u8],
) -> Result<u64, MapFault>
    requires valid { IsValid sup.now }
    requires size { E.size edits.old ≡ sup.now.block_size }
    requires ready { (m : ℕ → Option (List ℕ)) → E.told edits.old ≡ Some m → HasReady (geometry_of sup.now) bitmap.old m }
    requires place { IsPlace (natural sup.now.num_blocks) to_dir to_name.now }
    requires may { (m : ℕ → Option (List ℕ)) (tree : Tree) (lists : Lists) → E.told edits.old ≡ Some m → IsReady (geometry_of sup.now) bitmap.old m tree lists → MayBeRenamed tree dir name.now to_dir to_name.now }
    ensures allowed { (m : ℕ → Option (List ℕ)) (tree : Tree) (lists : Lists) → E.told edits.old ≡ Some m → IsReady (geometry_of sup.now) bitmap.old m tree lists → MatchResult result (λ n. n ≡ allowance (volume_in (geometry_of sup.now) m) tree (Rename dir name.now to_dir to_name.now)) IsUndone }
    ensures within { (m : ℕ → Option (List ℕ)) (tree : Tree) (lists : Lists) → E.told edits.old ≡ Some m → IsReady (geometry_of sup.now) bitmap.old m tree lists → IfOk result (λ n. n ≤ logged_need (volume_in (geometry_of sup.now) m) tree (Rename dir name.now to_dir to_name.now)) }
    ensures few { IfOk result (λ n. n < 1099511627776) }
    ensures bitmap { bitmap.new ≡ bitmap.old }
    ensures told { E.told edits.new ≡ E.told edits.old }
    ensures changed { E.changed edits.new ≡ E.changed edits.old }
    ensures size { E.size edits.new ≡ E.size edits.old }
    ensures frame { E.frame edits.new ≡ E.frame edits.old }
    ensures later { AreLater (E.counts edits.old) (E.counts edits.new) }
    ensures cause { IfErr result (HasAnswerCause (E.counts edits.old) (E.counts edits.new)) }
{
    let child = match child_at(alloc, sup, bitmap, edits, dir, name) {
        Ok(child) => child,
        Err(fault) => return Err(fault),
    };
    let indices = match built_in_indices(alloc, sup, bitmap, edits) {
        Ok(indices) => indices,
        Err(fault) => return Err(fault),
    };
    let site = Site { alloc, sup: *sup };
    let moving = match moving_of(site, edits, child.id, to_name) {
        Ok(moving) => moving,
        Err(fault) => return Err(fault),
    };
    let other = match other_at(alloc, sup, bitmap, edits, child.id, to_dir, to_name) {
        Ok(other) => other,
        Err(fault) => return Err(fault),
    };
    let built = built_in_count(indices);
    let most = bitmap_blocks(sup);
    match leaving_of(alloc, sup, bitmap, edits, other, built, most) {
        Ok(leaving) => Ok(counted(indices.name, child.kind, moving, leaving, most)),
        Err(fault) => Err(fault),
    }
}
