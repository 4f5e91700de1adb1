// A node leaves the tree, and its blocks are given back.
ghost use Rattle.std.specs.Prelude.{◌≡◌, ◌≤◌, ◌<◌, ℕ, List, length, Option, Some, None, IsSome, OnOk, IfOk, IfErr, get_or};
ghost use Rattle.std.specs.List.{flat_map};
ghost use Rattle.bfs_super.specs.Conditions.{IsValid, natural};
ghost use Rattle.bfs_super.specs.Geometry.{geometry_of};
ghost use Rattle.bfs_bitmap.specs.Runs.{Fits, as_kept};
ghost use Rattle.bfs_txn.specs.Faults.{AreLater};
ghost use Rattle.bfs_txn.specs.Told.{StaysChanged};
ghost use Rattle.bfs_stream.specs.Faults.{IsCauseIn};
ghost use Rattle.bfs_stream.specs.Grown.{IsOfVolume};
ghost use Rattle.bfs_stream.specs.Scans.{IsDamage};
ghost use Rattle.bfs_stream.specs.Sizes.{sizes_of};
ghost use Rattle.bfs_stream.specs.Standing.{standing};
ghost use Rattle.bfs_stream.specs.Told.{contents};
ghost use Rattle.bfs_tree.specs.Trees.{Node, Tree, IsNode};
ghost use Rattle.bfs_sound.specs.Attributes.{attribute_directory};
ghost use Rattle.bfs_sound.specs.Inodes.{inode_blocks};
ghost use Rattle.bfs_shift.specs.Lists.{Lists};
ghost use Rattle.bfs_shift.specs.Shifts.{volume_in};
ghost use Rattle.bfs_shift.specs.Work.{IsAtWork};
ghost use Rattle.bfs_leave.specs.Given.{keeps_target, AreGivenBack, AreLoose};
ghost use Rattle.bfs_leave.specs.Leaving.{IsClear, IsLeft, tree_without};

use bfs_bitmap::Bitmap;
use bfs_bytes::u32_at;
use bfs_make::{Site, give_block, give_inode};
use bfs_moves::{buffer, load_inode};
use bfs_txn::{BlockFault, Edits};

/// Does the inode in a block keep a link's target in the place of a stream?
pub fn keeps_target(block: &[u8]) -> bool
    requires { 1024 ≤ length block.now }
    ensures { result ≡ keeps_target block.now }
{
    u32_at(block, 20) / 4096 % 16 == 10 && u32_at(block, 24) / 64 % 2 == 0
}

/// Reads whether an inode keeps a link's target in the place of a stream.
fn stands_alone<E: Edits>(site: Site, edits: &mut E, id: u64) -> Result<bool, BlockFault>
    requires valid { IsValid site.sup }
    requires size { E.size edits.old ≡ site.sup.block_size }
    ensures alone { (m : ℕ → Option (List ℕ)) → E.told edits.old ≡ Some m → IsSome (m id) → IfOk result (λ alone. alone ≡ keeps_target (contents m id)) }
    ensures sound { IfErr result (λ fault. ¬ IsDamage fault) }
    ensures told { E.told edits.new ≡ E.told edits.old }
    ensures changed { E.changed edits.new ≡ E.changed edits.old }
    ensures size { E.size edits.new ≡ E.size edits.old }
    ensures frame { E.frame edits.new ≡ E.frame edits.old }
    ensures later { AreLater (E.counts edits.old) (E.counts edits.new) }
    ensures cause { IfErr result (IsCauseIn (E.counts edits.old) (E.counts edits.new)) }
{
    let mut block = match buffer(site.alloc, &site.sup) {
        Ok(block) => block,
        Err(_) => return Err(BlockFault::NoMemory),
    };
    match load_inode(edits, &mut block, id) {
        Ok(()) => Ok(keeps_target(&block)),
        Err(fault) => Err(fault),
    }
}

/// Gives inodes back, one after the other, each with its array blocks and the blocks of its stream. After a fault the call is to be dropped.
pub fn give_inodes<E: Edits>(
    site: Site,
    bitmap: &mut Bitmap,
    edits: &mut E,
    ids: &[u64],
) -> Result<(), BlockFault>
    requires valid { IsValid site.sup }
    requires inside { (i : ℕ) → i < length ids.now → get_or ids.now i 0 < natural site.sup.num_blocks }
    requires size { E.size edits.old ≡ site.sup.block_size }
    requires volume { IsOfVolume (sizes_of site.sup) bitmap.old }
    ensures given { (m : ℕ → Option (List ℕ)) → E.told edits.old ≡ Some m → Fits bitmap.old m → AreLoose (geometry_of site.sup) m ids.now → OnOk result (AreGivenBack bitmap.old bitmap.new (flat_map (inode_blocks (volume_in (geometry_of site.sup) m)) ids.now) m (E.told edits.new) (E.changed edits.old) (E.changed edits.new)) }
    ensures sound { (m : ℕ → Option (List ℕ)) → E.told edits.old ≡ Some m → Fits bitmap.old m → AreLoose (geometry_of site.sup) m ids.now → IfErr result (λ fault. ¬ IsDamage fault) }
    ensures rest { bitmap.new ≡ record bitmap.old { given = bitmap.new.given; tally = bitmap.new.tally } }
    ensures kept { as_kept bitmap.new ≡ as_kept bitmap.old }
    ensures standing { standing bitmap.new ≡ standing bitmap.old }
    ensures stays { StaysChanged (E.changed edits.old) (E.changed edits.new) }
    ensures size { E.size edits.new ≡ E.size edits.old }
    ensures frame { E.frame edits.new ≡ E.frame edits.old }
    ensures later { AreLater (E.counts edits.old) (E.counts edits.new) }
    ensures cause { IfErr result (IsCauseIn (E.counts edits.old) (E.counts edits.new)) }
{
    for i in 0..ids.len() {
        let id = ids[i];
        match give_inode(site, bitmap, edits, id) {
            Ok(()) => {}
            Err(fault) => return Err(fault),
        }
    }
    Ok(())
}

/// Gives back all blocks of a node without an attribute directory, which leaves the tree: its inode, its array blocks and those of its
/// stream. After a fault the call is to be dropped.
pub fn give_bare<E: Edits>(
    site: Site,
    bitmap: &mut Bitmap,
    edits: &mut E,
    id: u64,
) -> Result<(), BlockFault>
    requires valid { IsValid site.sup }
    requires inside { id < natural site.sup.num_blocks }
    requires size { E.size edits.old ≡ site.sup.block_size }
    requires volume { IsOfVolume (sizes_of site.sup) bitmap.old }
    ensures given { (m : ℕ → Option (List ℕ)) (tree : Tree) (lists : Lists) (loose : List ℕ) (n : Node) → E.told edits.old ≡ Some m → IsAtWork (geometry_of site.sup) bitmap.old m tree lists loose → IsClear (geometry_of site.sup) bitmap.old m → IsNode tree id n → attribute_directory (volume_in (geometry_of site.sup) m) id ≡ None → OnOk result (IsLeft (geometry_of site.sup) bitmap.old bitmap.new m tree (tree_without tree id) lists loose (E.told edits.new) (E.changed edits.old) (E.changed edits.new)) }
    ensures sound { (m : ℕ → Option (List ℕ)) (tree : Tree) (lists : Lists) (loose : List ℕ) (n : Node) → E.told edits.old ≡ Some m → IsAtWork (geometry_of site.sup) bitmap.old m tree lists loose → IsNode tree id n → IfErr result (λ fault. ¬ IsDamage fault) }
    ensures rest { bitmap.new ≡ record bitmap.old { given = bitmap.new.given; tally = bitmap.new.tally } }
    ensures kept { as_kept bitmap.new ≡ as_kept bitmap.old }
    ensures standing { standing bitmap.new ≡ standing bitmap.old }
    ensures stays { StaysChanged (E.changed edits.old) (E.changed edits.new) }
    ensures size { E.size edits.new ≡ E.size edits.old }
    ensures frame { E.frame edits.new ≡ E.frame edits.old }
    ensures later { AreLater (E.counts edits.old) (E.counts edits.new) }
    ensures cause { IfErr result (IsCauseIn (E.counts edits.old) (E.counts edits.new)) }
{
    let alone = match stands_alone(site, edits, id) {
        Ok(alone) => alone,
        Err(fault) => return Err(fault),
    };
    if alone {
        match give_block(site, bitmap, edits, id) {
            Ok(()) => Ok(()),
            Err(fault) => Err(fault),
        }
    } else {
        match give_inode(site, bitmap, edits, id) {
            Ok(()) => Ok(()),
            Err(fault) => Err(fault),
        }
    }
}
