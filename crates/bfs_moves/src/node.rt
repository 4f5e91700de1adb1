// A loose block becomes a node: a file, or a link whose target stands in its inode.
ghost use Rattle.std.specs.Prelude.{◌≡◌, ◌≢◌, ◌≤◌, ◌<◌, ◌+◌, ◌*◌, ◌⊎◌, ◌∷◌, [], ℕ, pos, List, length, Option, Some, None, true, false, OnOk, OnErr};
ghost use Rattle.std.specs.FinMap.{get, insert};
ghost use Rattle.bfs_super.specs.Conditions.{IsValid, natural};
ghost use Rattle.bfs_super.specs.Geometry.{geometry_of};
ghost use Rattle.bfs_bitmap.specs.Runs.{Room};
ghost use Rattle.bfs_inode.specs.Refusals.{Names};
ghost use Rattle.bfs_txn.specs.Faults.{IsCaused};
ghost use Rattle.bfs_txn.specs.Told.{StaysChanged};
ghost use Rattle.bfs_tree.specs.declared.call.Kind.TheVariants as kinds;
ghost use Rattle.bfs_tree.specs.Names.{has_byte};
ghost use Rattle.bfs_tree.specs.Trees.{Tree, new_node};
ghost use Rattle.bfs_sound.specs.Inodes.{kind_bits};
ghost use Rattle.bfs_shift.specs.Lists.{Lists};
ghost use Rattle.bfs_shift.specs.Work.{IsAtWork, IsStepped};

use crate::birth::{address_in, write_empty, write_link};
use bfs_fresh::NewNode;
use bfs_super::Super;
use bfs_tree::Kind;
use bfs_txn::{BlockFault, Edits};
use std::alloc::Global;

/// A mode with the bits of a kind.
fn mode_of(kind: Kind, mode: u32) -> i32
    requires { mode ≤ 4095 }
    ensures { result ≡ pos (4096 * kind_bits kind + mode) }
{
    let bits = match kind {
        Kind::File => 0o100000,
        Kind::Dir => 0o040000,
        Kind::Link => 0o120000,
    };
    bits + mode as i32
}

/// What the inode of a node at a block is made with, of the directory at another, with these flags.
pub(crate) fn new_inode(
    sup: &Super,
    block: u64,
    parent: u64,
    kind: Kind,
    mode: u32,
    flags: i32,
    stamp: i64,
) -> NewNode
    requires valid { IsValid sup.now }
    requires inside { block < natural sup.now.num_blocks }
    requires parent { parent < natural sup.now.num_blocks }
    requires mode { mode ≤ 4095 }
    ensures number { Names result.address block (geometry_of sup.now).shift }
    ensures up { Names result.parent parent (geometry_of sup.now).shift }
    ensures mode { result.mode ≡ pos (4096 * kind_bits kind + mode) }
    ensures flags { result.flags ≡ flags }
    ensures stamp { result.stamp ≡ stamp }
{
    NewNode {
        address: address_in(sup, block),
        parent: address_in(sup, parent),
        mode: mode_of(kind, mode),
        flags,
        stamp,
    }
}

/// Writes a new file's inode into a loose block, which is a node then.
pub fn make_file<E: Edits>(
    alloc: Global,
    sup: &Super,
    edits: &mut E,
    block: u64,
    parent: u64,
    name: &[u8],
    mode: u32,
    stamp: i64,
) -> Result<(), BlockFault>
    requires valid { IsValid sup.now }
    requires size { E.size edits.old ≡ sup.now.block_size }
    requires inside { block < natural sup.now.num_blocks }
    requires parent { parent < natural sup.now.num_blocks }
    requires some { 1 ≤ length name.now }
    requires short { length name.now ≤ 255 }
    requires mode { mode ≤ 4095 }
    ensures made { (v : Room) (m : ℕ → Option (List ℕ)) (tree : Tree) (lists : Lists) (rest : List ℕ) → E.told edits.old ≡ Some m → IsAtWork (geometry_of sup.now) v m tree lists (block ∷ rest) → get tree.nodes block ≡ None → block ≢ (geometry_of sup.now).root → OnOk result (IsStepped (geometry_of sup.now) v v m tree (record tree { nodes = insert tree.nodes block (new_node kinds.File name.now parent mode 0 [] stamp) }) lists rest (E.told edits.new) (E.changed edits.old) (E.changed edits.new)) }
    ensures kept { OnErr result (E.told edits.new ≡ E.told edits.old) }
    ensures changed { (k : ℕ) → E.changed edits.new k ≡ true → (E.changed edits.old k ≡ true) ⊎ (k ≡ block) }
    ensures stays { StaysChanged (E.changed edits.old) (E.changed edits.new) }
    ensures size { E.size edits.new ≡ E.size edits.old }
    ensures frame { E.frame edits.new ≡ E.frame edits.old }
    ensures cause { IsCaused (E.counts edits.old) (E.counts edits.new) result }
{
    let new = new_inode(sup, block, parent, Kind::File, mode, 1, stamp);
    match write_empty(alloc, sup, edits, block, new, name) {
        Ok(()) => Ok(()),
        Err(fault) => Err(fault),
    }
}

/// Writes a new link's inode into a loose block, which is a node then. Its target stands in the inode.
pub fn make_link<E: Edits>(
    alloc: Global,
    sup: &Super,
    edits: &mut E,
    block: u64,
    parent: u64,
    name: &[u8],
    target: &[u8],
    mode: u32,
    stamp: i64,
) -> Result<(), BlockFault>
    requires valid { IsValid sup.now }
    requires size { E.size edits.old ≡ sup.now.block_size }
    requires inside { block < natural sup.now.num_blocks }
    requires parent { parent < natural sup.now.num_blocks }
    requires some { 1 ≤ length name.now }
    requires short { length name.now ≤ 255 }
    requires target { length target.now < 144 }
    requires no_zero { has_byte 0 target.now ≡ false }
    requires mode { mode ≤ 4095 }
    ensures made { (v : Room) (m : ℕ → Option (List ℕ)) (tree : Tree) (lists : Lists) (rest : List ℕ) → E.told edits.old ≡ Some m → IsAtWork (geometry_of sup.now) v m tree lists (block ∷ rest) → get tree.nodes block ≡ None → block ≢ (geometry_of sup.now).root → OnOk result (IsStepped (geometry_of sup.now) v v m tree (record tree { nodes = insert tree.nodes block (new_node kinds.Link name.now parent mode (length target.now) target.now stamp) }) lists rest (E.told edits.new) (E.changed edits.old) (E.changed edits.new)) }
    ensures kept { OnErr result (E.told edits.new ≡ E.told edits.old) }
    ensures changed { (k : ℕ) → E.changed edits.new k ≡ true → (E.changed edits.old k ≡ true) ⊎ (k ≡ block) }
    ensures stays { StaysChanged (E.changed edits.old) (E.changed edits.new) }
    ensures size { E.size edits.new ≡ E.size edits.old }
    ensures frame { E.frame edits.new ≡ E.frame edits.old }
    ensures cause { IsCaused (E.counts edits.old) (E.counts edits.new) result }
{
    let new = new_inode(sup, block, parent, Kind::Link, mode, 1, stamp);
    match write_link(alloc, sup, edits, block, new, name, target) {
        Ok(()) => Ok(()),
        Err(fault) => Err(fault),
    }
}
