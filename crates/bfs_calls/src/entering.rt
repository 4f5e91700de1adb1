// A new node is entered into its directory and into the indices.
ghost use Rattle.std.specs.Prelude.{◌≡◌, ◌≤◌, ◌<◌, ◌^◌, ℕ, pos, [], List, Option, Some, true, false, OnOk, IfErr, length};
ghost use Rattle.bfs_super.specs.Conditions.{IsValid, natural};
ghost use Rattle.bfs_super.specs.Geometry.{geometry_of};
ghost use Rattle.bfs_bytes.specs.Fields.{unsigned_bytes, signed64_bytes};
ghost use Rattle.bfs_base.specs.declared.kind.KeyKind.TheVariants.{Text};
ghost use Rattle.bfs_txn.specs.Faults.{AreLater};
ghost use Rattle.bfs_txn.specs.Told.{StaysChanged};
ghost use Rattle.bfs_pages.specs.Maps.{put};
ghost use Rattle.bfs_stream.specs.Grown.{IsOfVolume};
ghost use Rattle.bfs_stream.specs.Sizes.{sizes_of};
ghost use Rattle.bfs_tree.specs.Names.{is_bad_name};
ghost use Rattle.bfs_tree.specs.Trees.{Node, Tree};
ghost use Rattle.bfs_shift.specs.Lists.{Lists, with_rows};
ghost use Rattle.bfs_shift.specs.Work.{IsStepped};
ghost use Rattle.bfs_calls.specs.Done.{IsUnanswered, HasAnswerCause};
ghost use Rattle.bfs_calls.specs.Made.{AreBuiltIn, LieBelow, IsBorn, IsFor, HasUnnamed, HasBorn, IsNamed, HasNamed, HasListed, HasEntered, with_new, with_touched};

use crate::BuiltIn;
use crate::fault::{blocked, not_put};
use bfs_bitmap::Bitmap;
use bfs_moves::{list_where, put_name, stamp_directory};
use bfs_node::KeyKind;
use bfs_stream_pages::MapFault;
use bfs_super::Super;
use bfs_tree::Kind;
use bfs_txn::Edits;
use std::alloc::Global;

/// The key of a size.
#[tactic(auto, unfolding(bfs_bytes::specs::Fields::unsigned_bytes))]
pub fn size_key(size: u64) -> [u8; 8]
    ensures key { result ≡ unsigned_bytes 8 size }
    ensures length { length result ≡ 8 }
{
    size.to_le_bytes()
}

/// The key of a stamp.
#[tactic(auto, unfolding(bfs_bytes::specs::Fields::unsigned_bytes, bfs_bytes::specs::Fields::signed64_bytes))]
pub fn stamp_key(stamp: i64) -> [u8; 8]
    ensures key { result ≡ signed64_bytes stamp }
    ensures length { length result ≡ 8 }
{
    stamp.cast_unsigned().to_le_bytes()
}

/// Puts a new node's row into its directory, which is stamped.
fn enter_name<E: Edits>(
    alloc: Global,
    sup: &Super,
    bitmap: &mut Bitmap,
    edits: &mut E,
    dir: u64,
    name: &[u8],
    id: u64,
    stamp: i64,
) -> Result<(), MapFault>
    requires valid { IsValid sup.now }
    requires inside { dir < natural sup.now.num_blocks }
    requires size { E.size edits.old ≡ sup.now.block_size }
    requires volume { IsOfVolume (sizes_of sup.now) bitmap.old }
    requires some { 1 ≤ length name.now }
    requires short { length name.now ≤ 255 }
    requires id { id < 2 ^ 62 }
    requires born { (m : ℕ → Option (List ℕ)) → E.told edits.old ≡ Some m → HasUnnamed (geometry_of sup.now) bitmap.old m dir id name.now }
    ensures named { (m : ℕ → Option (List ℕ)) (tree : Tree) (lists begun : Lists) (d node : Node) → E.told edits.old ≡ Some m → IsBorn (geometry_of sup.now) bitmap.old m tree lists begun dir d id node → node.name ≡ name.now → OnOk result (IsStepped (geometry_of sup.now) bitmap.old bitmap.new m (with_new tree id node) (with_touched (with_new tree id node) dir d stamp) (with_rows begun dir (put Text (begun.rows dir) name.now (pos id))) [] (E.told edits.new) (E.changed edits.old) (E.changed edits.new)) }
    ensures unanswered { (m : ℕ → Option (List ℕ)) (tree : Tree) (lists begun : Lists) (d node : Node) → E.told edits.old ≡ Some m → IsBorn (geometry_of sup.now) bitmap.old m tree lists begun dir d id node → node.name ≡ name.now → IfErr result IsUnanswered }
    ensures cause { IfErr result (HasAnswerCause (E.counts edits.old) (E.counts edits.new)) }
    ensures rest { bitmap.new ≡ record bitmap.old { tally = bitmap.new.tally } }
    ensures stays { StaysChanged (E.changed edits.old) (E.changed edits.new) }
    ensures size { E.size edits.new ≡ E.size edits.old }
    ensures frame { E.frame edits.new ≡ E.frame edits.old }
    ensures later { AreLater (E.counts edits.old) (E.counts edits.new) }
{
    match put_name(alloc, sup, bitmap, edits, dir, name, id) {
        Ok(()) => {}
        Err(fault) => return Err(not_put(fault, dir)),
    }
    match stamp_directory(alloc, sup, edits, dir, stamp) {
        Ok(()) => Ok(()),
        Err(fault) => Err(blocked(fault)),
    }
}

/// Lists a new node in the indices that are to list it: `name` lists each, `size` and `last_modified` list a file.
fn enter_indices<E: Edits>(
    alloc: Global,
    sup: &Super,
    bitmap: &mut Bitmap,
    edits: &mut E,
    name: &[u8],
    id: u64,
    kind: Kind,
    indices: BuiltIn,
    stamp: i64,
) -> Result<(), MapFault>
    requires valid { IsValid sup.now }
    requires size { E.size edits.old ≡ sup.now.block_size }
    requires volume { IsOfVolume (sizes_of sup.now) bitmap.old }
    requires some { 1 ≤ length name.now }
    requires short { length name.now ≤ 255 }
    requires id { id < 2 ^ 62 }
    requires below { LieBelow (natural sup.now.num_blocks) indices }
    requires named { (m : ℕ → Option (List ℕ)) → E.told edits.old ≡ Some m → HasNamed (geometry_of sup.now) bitmap.old m id kind name.now stamp indices }
    ensures listed { (m : ℕ → Option (List ℕ)) (tree since : Tree) (lists begun : Lists) (node : Node) → E.told edits.old ≡ Some m → IsNamed (geometry_of sup.now) bitmap.old m tree since lists begun id → IsFor tree id node kind name.now stamp → AreBuiltIn lists indices → OnOk result (HasListed (geometry_of sup.now) bitmap.old bitmap.new m tree since lists begun id node (E.told edits.new) (E.changed edits.old) (E.changed edits.new)) }
    ensures unanswered { (m : ℕ → Option (List ℕ)) (tree since : Tree) (lists begun : Lists) (node : Node) → E.told edits.old ≡ Some m → IsNamed (geometry_of sup.now) bitmap.old m tree since lists begun id → IsFor tree id node kind name.now stamp → AreBuiltIn lists indices → IfErr result IsUnanswered }
    ensures cause { IfErr result (HasAnswerCause (E.counts edits.old) (E.counts edits.new)) }
    ensures rest { bitmap.new ≡ record bitmap.old { tally = bitmap.new.tally } }
    ensures stays { StaysChanged (E.changed edits.old) (E.changed edits.new) }
    ensures size { E.size edits.new ≡ E.size edits.old }
    ensures frame { E.frame edits.new ≡ E.frame edits.old }
    ensures later { AreLater (E.counts edits.old) (E.counts edits.new) }
{
    let size = size_key(0);
    let time = stamp_key(stamp);
    match list_where(
        alloc,
        sup,
        bitmap,
        edits,
        indices.name,
        KeyKind::Text,
        name,
        id,
    ) {
        Ok(()) => {}
        Err(fault) => return Err(fault),
    }
    if !kind.is_file() {
        return Ok(());
    }
    match list_where(
        alloc,
        sup,
        bitmap,
        edits,
        indices.size,
        KeyKind::I64,
        &size,
        id,
    ) {
        Ok(()) => {}
        Err(fault) => return Err(fault),
    }
    match list_where(
        alloc,
        sup,
        bitmap,
        edits,
        indices.last_modified,
        KeyKind::I64,
        &time,
        id,
    ) {
        Ok(()) => Ok(()),
        Err(fault) => Err(fault),
    }
}

/// Enters a new node into its directory, which is stamped, and into the indices that are to list it.
pub(crate) fn enter<E: Edits>(
    alloc: Global,
    sup: &Super,
    bitmap: &mut Bitmap,
    edits: &mut E,
    dir: u64,
    name: &[u8],
    id: u64,
    kind: Kind,
    indices: BuiltIn,
    stamp: i64,
) -> Result<(), MapFault>
    requires valid { IsValid sup.now }
    requires inside { dir < natural sup.now.num_blocks }
    requires size { E.size edits.old ≡ sup.now.block_size }
    requires volume { IsOfVolume (sizes_of sup.now) bitmap.old }
    requires some { 1 ≤ length name.now }
    requires short { length name.now ≤ 255 }
    requires id { id < 2 ^ 62 }
    requires below { LieBelow (natural sup.now.num_blocks) indices }
    requires born { (m : ℕ → Option (List ℕ)) → E.told edits.old ≡ Some m → HasBorn (geometry_of sup.now) bitmap.old m dir id kind name.now stamp indices }
    ensures entered { (m : ℕ → Option (List ℕ)) (tree : Tree) (lists begun : Lists) (d node : Node) → E.told edits.old ≡ Some m → IsBorn (geometry_of sup.now) bitmap.old m tree lists begun dir d id node → IsFor tree id node kind name.now stamp → AreBuiltIn lists indices → OnOk result (HasEntered (geometry_of sup.now) bitmap.old bitmap.new m tree lists dir d id node stamp (E.told edits.new) (E.changed edits.old) (E.changed edits.new)) }
    ensures unanswered { (m : ℕ → Option (List ℕ)) (tree : Tree) (lists begun : Lists) (d node : Node) → E.told edits.old ≡ Some m → IsBorn (geometry_of sup.now) bitmap.old m tree lists begun dir d id node → IsFor tree id node kind name.now stamp → AreBuiltIn lists indices → IfErr result IsUnanswered }
    ensures cause { IfErr result (HasAnswerCause (E.counts edits.old) (E.counts edits.new)) }
    ensures rest { bitmap.new ≡ record bitmap.old { tally = bitmap.new.tally } }
    ensures stays { StaysChanged (E.changed edits.old) (E.changed edits.new) }
    ensures size { E.size edits.new ≡ E.size edits.old }
    ensures frame { E.frame edits.new ≡ E.frame edits.old }
    ensures later { AreLater (E.counts edits.old) (E.counts edits.new) }
{
    match enter_name(alloc, sup, bitmap, edits, dir, name, id, stamp) {
        Ok(()) => {}
        Err(fault) => return Err(fault),
    }
    match enter_indices(alloc, sup, bitmap, edits, name, id, kind, indices, stamp) {
        Ok(()) => Ok(()),
        Err(fault) => Err(fault),
    }
}
