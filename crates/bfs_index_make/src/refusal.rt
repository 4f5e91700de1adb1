// Whether a call that makes an index is refused.
ghost use Rattle.std.specs.Prelude.{◌≡◌, ℕ, List, Option, Some, None, true, IfSome, IfOk, IfErr, MatchResult};
ghost use Rattle.std.specs.FinMap.{len};
ghost use Rattle.bfs_super.specs.Conditions.{IsValid};
ghost use Rattle.bfs_super.specs.Geometry.{geometry_of};
ghost use Rattle.bfs_bitmap.specs.Runs.{Room};
ghost use Rattle.bfs_txn.specs.Faults.{AreLater};
ghost use Rattle.bfs_tree.specs.declared.call.Call.TheVariants.{IndexMake};
ghost use Rattle.bfs_tree.specs.Refusals.{own_refusal};
ghost use Rattle.bfs_tree.specs.States.{State};
ghost use Rattle.bfs_tree.specs.Trees.{Tree};
ghost use Rattle.bfs_maps.specs.Refused.{IsUndone, HasReadCause};
ghost use Rattle.bfs_shift.specs.Lists.{Lists};
ghost use Rattle.bfs_look.specs.Ready.{IsReady, HasReady};
ghost use Rattle.bfs_calls.specs.Refusals.{is_own};
ghost use Rattle.bfs_index_make.specs.Made.{MayIndex};

use bfs_attr::named_inodes;
use bfs_bitmap::Bitmap;
use bfs_make::Site;
use bfs_node::KeyKind;
use bfs_remove_index::query::index_at;
use bfs_stream_pages::MapFault;
use bfs_super::Super;
use bfs_tree::{Reply, is_bad_name, is_float};
use bfs_txn::{Blocks, Edits};
use std::alloc::Global;

/// A volume has at most so many indices.
const MOST: usize = 32;

/// How many indices there are. Only the index directory's own blocks are read.
fn index_count<B: Blocks>(alloc: Global, sup: &Super, under: &mut B) -> Result<usize, MapFault>
    requires valid { IsValid sup.now }
    requires size { B.size under.old ≡ sup.now.block_size }
    requires ready { (m : ℕ → Option (List ℕ)) → B.told under.old ≡ Some m → (v : Room) × HasReady (geometry_of sup.now) v m }
    ensures counted { (v : Room) (m : ℕ → Option (List ℕ)) (tree : Tree) (lists : Lists) → B.told under.old ≡ Some m → IsReady (geometry_of sup.now) v m tree lists → MatchResult result (λ n. n ≡ len tree.indices) IsUndone }
    ensures told { B.told under.new ≡ B.told under.old }
    ensures changed { B.changed under.new ≡ B.changed under.old }
    ensures size { B.size under.new ≡ B.size under.old }
    ensures frame { B.frame under.new ≡ B.frame under.old }
    ensures later { AreLater (B.counts under.old) (B.counts under.new) }
    ensures cause { IfErr result (HasReadCause (B.counts under.old) (B.counts under.new)) }
{
    let site = Site { alloc, sup: *sup };
    let directory = sup.block_of(sup.indices);
    if directory == 0 {
        return Ok(0);
    }
    match named_inodes(site, under, directory, None, None) {
        Ok(named) => Ok(named.len()),
        Err(fault) => Err(fault),
    }
}

/// The refusal that a call has of its own which makes an index, or None where it may be made.
pub fn index_make_refusal<E: Edits>(
    alloc: Global,
    sup: &Super,
    bitmap: &mut Bitmap,
    edits: &mut E,
    name: &[u8],
    kind: KeyKind,
) -> Result<Option<Reply>, MapFault>
    requires valid { IsValid sup.now }
    requires size { E.size edits.old ≡ sup.now.block_size }
    requires ready { (m : ℕ → Option (List ℕ)) → E.told edits.old ≡ Some m → HasReady (geometry_of sup.now) bitmap.old m }
    ensures refused { (m : ℕ → Option (List ℕ)) (tree : Tree) (lists : Lists) (s : State) → E.told edits.old ≡ Some m → IsReady (geometry_of sup.now) bitmap.old m tree lists → s.tree ≡ tree → MatchResult result (λ o. o ≡ own_refusal (IndexMake name.now kind) s) IsUndone }
    ensures own { IfOk result (λ o. IfSome o (λ reply. is_own reply ≡ true)) }
    ensures may { IfOk result (λ o. o ≡ None → MayIndex name.now kind) }
    ensures bitmap { bitmap.new ≡ bitmap.old }
    ensures told { E.told edits.new ≡ E.told edits.old }
    ensures changed { E.changed edits.new ≡ E.changed edits.old }
    ensures size { E.size edits.new ≡ E.size edits.old }
    ensures frame { E.frame edits.new ≡ E.frame edits.old }
    ensures later { AreLater (E.counts edits.old) (E.counts edits.new) }
    ensures cause { IfErr result (HasReadCause (E.counts edits.old) (E.counts edits.new)) }
{
    let count = match index_count(alloc, sup, edits) {
        Ok(count) => count,
        Err(fault) => return Err(fault),
    };
    if count == 0 {
        return Ok(Some(Reply::NoIndex));
    }
    let found = match index_at(alloc, sup, bitmap, edits, name) {
        Ok(found) => found,
        Err(fault) => return Err(fault),
    };
    match found {
        Some(_) => return Ok(Some(Reply::Exists)),
        None => {}
    }
    if is_float(kind) {
        return Ok(Some(Reply::FloatIndex));
    }
    if is_bad_name(name) {
        return Ok(Some(Reply::NameBad));
    }
    if count >= MOST {
        return Ok(Some(Reply::IndexCount));
    }
    Ok(None)
}
