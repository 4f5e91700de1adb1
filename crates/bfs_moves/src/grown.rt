// A loose block becomes a node whose bytes stand in its stream: a directory, or a link with a long target.
ghost use Rattle.std.specs.Prelude.{◌≡◌, ◌≢◌, ◌≤◌, ◌<◌, ◌∷◌, [], ℕ, List, length, Option, Some, None, false, OnOk, IfErr};
ghost use Rattle.std.specs.FinMap.{get, insert};
ghost use Rattle.bfs_super.specs.Conditions.{IsValid, natural};
ghost use Rattle.bfs_super.specs.Geometry.{geometry_of};
ghost use Rattle.bfs_bitmap.specs.Runs.{Room};
ghost use Rattle.bfs_txn.specs.Faults.{AreLater, Counts};
ghost use Rattle.bfs_txn.specs.Told.{StaysChanged};
ghost use Rattle.bfs_stream.specs.Faults.{IsGrowCause, IsGrowFault};
ghost use Rattle.bfs_stream.specs.Grown.{IsOfVolume, room_at};
ghost use Rattle.bfs_stream.specs.Sizes.{Origin, sizes_of};
ghost use Rattle.bfs_stream.specs.Told.{contents};
ghost use Rattle.bfs_tree.specs.declared.call.Kind.TheVariants as kinds;
ghost use Rattle.bfs_tree.specs.Names.{has_byte};
ghost use Rattle.bfs_tree.specs.Trees.{Tree, new_node};
ghost use Rattle.bfs_shift.specs.Lists.{Lists, with_rows};
ghost use Rattle.bfs_shift.specs.TreeLaws.{first_rows};
ghost use Rattle.bfs_shift.specs.Work.{IsAtWork, IsStepped};
ghost use Rattle.bfs_moves.specs.Grown.{IsGrown};
ghost use Rattle.bfs_moves.specs.Written.{IsFewFault, IsSoundFault};

use crate::birth::write_empty;
use crate::first_tree::first_tree;
use crate::node::new_inode;
use bfs_bitmap::Bitmap;
use bfs_fresh::NewNode;
use bfs_make::{Site, write_stream};
use bfs_stream::GrowFault;
use bfs_super::Super;
use bfs_tree::Kind;
use bfs_txn::{BlockFault, Edits};
use std::alloc::Global;

/// Why a stream without blocks has not grown by a few. It has room for them, unless its inode isn't what was written.
fn few_fault(block: u64, fault: GrowFault) -> GrowFault
    ensures cause { (blocks : ℕ) (old new : Counts) → IsGrowCause blocks old new fault → IsGrowCause 1 old new result }
    ensures sound { (o : Origin) (v : Room) (m : ℕ → Option (List ℕ)) (blocks : ℕ) → blocks ≤ room_at o.sizes (contents m) o.id → IsGrowFault o v m blocks fault → IsFewFault o v m blocks result }
{
    match fault {
        GrowFault::NoRun { wanted, free } => GrowFault::NoRun { wanted, free },
        GrowFault::Full { .. } => GrowFault::Block(BlockFault::Damaged { block }),
        GrowFault::Block(fault) => GrowFault::Block(fault),
    }
}

/// Writes a new node's inode into a loose block, and gives its stream these bytes.
fn write_grown<E: Edits>(
    alloc: Global,
    sup: &Super,
    bitmap: &mut Bitmap,
    edits: &mut E,
    block: u64,
    new: NewNode,
    name: &[u8],
    bytes: &[u8],
) -> Result<(), GrowFault>
    requires valid { IsValid sup.now }
    requires size { E.size edits.old ≡ sup.now.block_size }
    requires volume { IsOfVolume (sizes_of sup.now) bitmap.old }
    requires inside { block < natural sup.now.num_blocks }
    requires some { 1 ≤ length name.now }
    requires short { length name.now ≤ 255 }
    requires few { length bytes.now ≤ 2048 }
    ensures grown { (m : ℕ → Option (List ℕ)) (tree : Tree) (lists : Lists) (rest : List ℕ) → E.told edits.old ≡ Some m → IsAtWork (geometry_of sup.now) bitmap.old m tree lists (block ∷ rest) → OnOk result (IsGrown sup.now block new name.now bytes.now bitmap.old bitmap.new m tree lists rest (E.told edits.new) (E.changed edits.old) (E.changed edits.new)) }
    ensures sound { (m : ℕ → Option (List ℕ)) (tree : Tree) (lists : Lists) (rest : List ℕ) → E.told edits.old ≡ Some m → IsAtWork (geometry_of sup.now) bitmap.old m tree lists (block ∷ rest) → IfErr result (IsSoundFault (record { id = block; sizes = sizes_of sup.now }) bitmap.old m) }
    ensures rest { bitmap.new ≡ record bitmap.old { tally = bitmap.new.tally } }
    ensures stays { StaysChanged (E.changed edits.old) (E.changed edits.new) }
    ensures size { E.size edits.new ≡ E.size edits.old }
    ensures frame { E.frame edits.new ≡ E.frame edits.old }
    ensures later { AreLater (E.counts edits.old) (E.counts edits.new) }
    ensures cause { IfErr result (IsGrowCause 1 (E.counts edits.old) (E.counts edits.new)) }
{
    match write_empty(alloc, sup, edits, block, new, name) {
        Ok(()) => {}
        Err(fault) => return Err(GrowFault::Block(fault)),
    }
    let site = Site { alloc, sup: *sup };
    match write_stream(site, bitmap, edits, block, bytes) {
        Ok(()) => Ok(()),
        Err(fault) => Err(few_fault(block, fault)),
    }
}

/// Writes a new directory's inode into a loose block and its rows into its stream, with a fresh block or two. The block is a node then.
/// After a fault the edits are to be dropped.
pub fn make_directory<E: Edits>(
    alloc: Global,
    sup: &Super,
    bitmap: &mut Bitmap,
    edits: &mut E,
    block: u64,
    parent: u64,
    name: &[u8],
    mode: u32,
    stamp: i64,
) -> Result<(), GrowFault>
    requires valid { IsValid sup.now }
    requires size { E.size edits.old ≡ sup.now.block_size }
    requires volume { IsOfVolume (sizes_of sup.now) bitmap.old }
    requires inside { block < natural sup.now.num_blocks }
    requires parent { parent < natural sup.now.num_blocks }
    requires some { 1 ≤ length name.now }
    requires short { length name.now ≤ 255 }
    requires mode { mode ≤ 4095 }
    ensures made { (m : ℕ → Option (List ℕ)) (tree : Tree) (lists : Lists) (rest : List ℕ) → E.told edits.old ≡ Some m → IsAtWork (geometry_of sup.now) bitmap.old m tree lists (block ∷ rest) → get tree.nodes block ≡ None → block ≢ (geometry_of sup.now).root → OnOk result (IsStepped (geometry_of sup.now) bitmap.old bitmap.new m tree (record tree { nodes = insert tree.nodes block (new_node kinds.Dir name.now parent mode 0 [] stamp) }) (with_rows lists block (first_rows block parent)) rest (E.told edits.new) (E.changed edits.old) (E.changed edits.new)) }
    ensures sound { (m : ℕ → Option (List ℕ)) (tree : Tree) (lists : Lists) (rest : List ℕ) → E.told edits.old ≡ Some m → IsAtWork (geometry_of sup.now) bitmap.old m tree lists (block ∷ rest) → get tree.nodes block ≡ None → block ≢ (geometry_of sup.now).root → IfErr result (IsSoundFault (record { id = block; sizes = sizes_of sup.now }) bitmap.old m) }
    ensures rest { bitmap.new ≡ record bitmap.old { tally = bitmap.new.tally } }
    ensures stays { StaysChanged (E.changed edits.old) (E.changed edits.new) }
    ensures size { E.size edits.new ≡ E.size edits.old }
    ensures frame { E.frame edits.new ≡ E.frame edits.old }
    ensures later { AreLater (E.counts edits.old) (E.counts edits.new) }
    ensures cause { IfErr result (IsGrowCause 1 (E.counts edits.old) (E.counts edits.new)) }
{
    let bytes = match first_tree(alloc, block, parent) {
        Ok(bytes) => bytes,
        Err(_) => return Err(GrowFault::Block(BlockFault::NoMemory)),
    };
    let new = new_inode(sup, block, parent, Kind::Dir, mode, 1, stamp);
    match write_grown(alloc, sup, bitmap, edits, block, new, name, &bytes) {
        Ok(()) => Ok(()),
        Err(fault) => Err(fault),
    }
}

/// The flags of an inode in use whose link's target stands in its stream.
const LONG_LINK: i32 = 65;

/// Writes a new link's inode into a loose block and its target into its stream, with a fresh block. The block is a node then.
/// After a fault the edits are to be dropped.
pub fn make_long_link<E: Edits>(
    alloc: Global,
    sup: &Super,
    bitmap: &mut Bitmap,
    edits: &mut E,
    block: u64,
    parent: u64,
    name: &[u8],
    target: &[u8],
    mode: u32,
    stamp: i64,
) -> Result<(), GrowFault>
    requires valid { IsValid sup.now }
    requires size { E.size edits.old ≡ sup.now.block_size }
    requires volume { IsOfVolume (sizes_of sup.now) bitmap.old }
    requires inside { block < natural sup.now.num_blocks }
    requires parent { parent < natural sup.now.num_blocks }
    requires some { 1 ≤ length name.now }
    requires short { length name.now ≤ 255 }
    requires long { 144 ≤ length target.now }
    requires few { length target.now ≤ 1024 }
    requires no_zero { has_byte 0 target.now ≡ false }
    requires mode { mode ≤ 4095 }
    ensures made { (m : ℕ → Option (List ℕ)) (tree : Tree) (lists : Lists) (rest : List ℕ) → E.told edits.old ≡ Some m → IsAtWork (geometry_of sup.now) bitmap.old m tree lists (block ∷ rest) → get tree.nodes block ≡ None → block ≢ (geometry_of sup.now).root → OnOk result (IsStepped (geometry_of sup.now) bitmap.old bitmap.new m tree (record tree { nodes = insert tree.nodes block (new_node kinds.Link name.now parent mode (length target.now) target.now stamp) }) lists rest (E.told edits.new) (E.changed edits.old) (E.changed edits.new)) }
    ensures sound { (m : ℕ → Option (List ℕ)) (tree : Tree) (lists : Lists) (rest : List ℕ) → E.told edits.old ≡ Some m → IsAtWork (geometry_of sup.now) bitmap.old m tree lists (block ∷ rest) → get tree.nodes block ≡ None → block ≢ (geometry_of sup.now).root → IfErr result (IsSoundFault (record { id = block; sizes = sizes_of sup.now }) bitmap.old m) }
    ensures rest { bitmap.new ≡ record bitmap.old { tally = bitmap.new.tally } }
    ensures stays { StaysChanged (E.changed edits.old) (E.changed edits.new) }
    ensures size { E.size edits.new ≡ E.size edits.old }
    ensures frame { E.frame edits.new ≡ E.frame edits.old }
    ensures later { AreLater (E.counts edits.old) (E.counts edits.new) }
    ensures cause { IfErr result (IsGrowCause 1 (E.counts edits.old) (E.counts edits.new)) }
{
    let new = new_inode(sup, block, parent, Kind::Link, mode, LONG_LINK, stamp);
    match write_grown(alloc, sup, bitmap, edits, block, new, name, target) {
        Ok(()) => Ok(()),
        Err(fault) => Err(fault),
    }
}
