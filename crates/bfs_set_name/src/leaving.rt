// The longest attribute in small data, moved out of it.
ghost use Rattle.std.specs.Prelude.{◌≡◌, ◌≤◌, ◌<◌, ℕ, List, Option, Some, OnOk, IfErr, IfSome, true, length, drop, max};
ghost use Rattle.bfs_super.specs.Conditions.{IsValid, ceil, natural};
ghost use Rattle.bfs_txn.specs.Faults.{AreLater};
ghost use Rattle.bfs_txn.specs.Told.{StaysChanged};
ghost use Rattle.bfs_smalldata.specs.Items.{Item, GoesOn, size_in, item_in};
ghost use Rattle.bfs_stream.specs.Grown.{IsOfVolume};
ghost use Rattle.bfs_stream.specs.Sizes.{sizes_of};
ghost use Rattle.bfs_sound.specs.Inodes.{is_proper};
ghost use Rattle.bfs_attr.specs.Bearers.{bearer_of};
ghost use Rattle.bfs_attr.specs.SmallData.{attribute_in};
ghost use Rattle.bfs_attrs.specs.Moved.{IsWithin, HasMovedOut, IsNotMoved};
ghost use Rattle.bfs_attrs.specs.Replaced.{HasAllBlocks};
ghost use Rattle.bfs_attrs.specs.Stored.{HasAddCause};
ghost use Rattle.bfs_set_name.specs.Renamed.{IsShortNamed, IsNext, IsPlaced, longest_in};

use bfs_attr::longest_attribute;
use bfs_attrs::{longest_can_move, move_out};
use bfs_bitmap::Bitmap;
use bfs_bytes::{u16_at, u32_at};
use bfs_inode::SMALL_DATA;
use bfs_make::{Site, has_long_blocks, read_block};
use bfs_node::TreeFault;
use bfs_smalldata::list_end;
use bfs_stream::GrowFault;
use bfs_stream_pages::MapFault;
use bfs_txn::{BlockFault, Edits};

/// A block could not be had.
fn blocked(fault: BlockFault) -> MapFault
    ensures { result ≡ TreeFault.Pages (GrowFault.Block fault) }
{
    TreeFault::Pages(GrowFault::Block(fault))
}

/// A block is damaged.
pub(crate) fn damaged(block: u64) -> MapFault
    ensures { result ≡ TreeFault.Pages (GrowFault.Block (BlockFault.Damaged block)) }
{
    blocked(BlockFault::Damaged { block })
}

/// Is this name neither `.` nor `..`?
fn is_free_name(name: &[u8]) -> bool
    ensures { result ≡ is_proper name.now }
{
    !(name == b".".as_slice() || name == b"..".as_slice())
}

/// Where the longest attribute begins in the block of an inode, the last one among equals, or None where its small data has none, or is
/// no list of items.
fn longest_place(block: &[u8]) -> Option<usize>
    requires long { 232 ≤ length block.now }
    ensures placed { IsPlaced block.now (longest_in (drop 232 block.now)) result }
    ensures inside { IfSome result (λ at. at ≤ length block.now) }
{
    let area = &block[SMALL_DATA..];
    match list_end(area) {
        Ok(_) => {}
        Err(_) => return None,
    }
    match longest_attribute(area) {
        None => None,
        Some(at) => Some(SMALL_DATA + at),
    }
}

/// Moves the attribute that the item is with which these bytes begin. After a fault the call is to be dropped. Want of memory stands too
/// for one that is named `.` or `..`, since a row of that name is the attribute directory's own.
fn move_item<E: Edits>(
    site: Site,
    bitmap: &mut Bitmap,
    edits: &mut E,
    inode: u64,
    item: &[u8],
    stamp: i64,
) -> Result<(), MapFault>
    requires valid { IsValid site.sup }
    requires inside { inode < natural site.sup.num_blocks }
    requires size { E.size edits.old ≡ site.sup.block_size }
    requires volume { IsOfVolume (sizes_of site.sup) bitmap.old }
    requires begins { GoesOn item.now }
    requires whole { size_in item.now ≤ length item.now }
    requires short { length item.now ≤ site.sup.block_size }
    requires named { (m : ℕ → Option (List ℕ)) → E.told edits.old ≡ Some m → IsShortNamed (item_in item.now) }
    requires within { (m : ℕ → Option (List ℕ)) → E.told edits.old ≡ Some m → IsWithin (bearer_of inode site.sup) bitmap.old m (item_in item.now).name (attribute_in (item_in item.now)) }
    ensures moved { (m : ℕ → Option (List ℕ)) → E.told edits.old ≡ Some m → OnOk result (HasMovedOut (bearer_of inode site.sup) bitmap.old bitmap.new m (item_in item.now).name (E.told edits.new) (E.changed edits.old) (E.changed edits.new)) }
    ensures keeps { (m : ℕ → Option (List ℕ)) → E.told edits.old ≡ Some m → OnOk result (HasAllBlocks (bearer_of inode site.sup) m (E.told edits.new)) }
    ensures faults { (m : ℕ → Option (List ℕ)) → E.told edits.old ≡ Some m → IfErr result (IsNotMoved (bearer_of inode site.sup) bitmap.old m (item_in item.now).name (attribute_in (item_in item.now)) (ceil (length (item_in item.now).bytes) site.sup.block_size)) }
    ensures rest { bitmap.new ≡ record bitmap.old { tally = bitmap.new.tally } }
    ensures stays { StaysChanged (E.changed edits.old) (E.changed edits.new) }
    ensures size { E.size edits.new ≡ E.size edits.old }
    ensures frame { E.frame edits.new ≡ E.frame edits.old }
    ensures later { AreLater (E.counts edits.old) (E.counts edits.new) }
    ensures cause { IfErr result (HasAddCause (max 1 (ceil 2048 site.sup.block_size)) (E.counts edits.old) (E.counts edits.new)) }
{
    has_long_blocks(site.sup);
    let kind = u32_at(item, 0);
    let size = usize::from(u16_at(item, 4));
    let len = usize::from(u16_at(item, 6));
    let name = &item[8..8 + size];
    let bytes = &item[8 + size + 3..8 + size + 3 + len];
    if name.len() > 255 {
        return Err(damaged(inode));
    }
    if !is_free_name(name) {
        return Err(TreeFault::NoMemory);
    }
    move_out(site, bitmap, edits, inode, kind, name, bytes, stamp)
}

/// Moves the longest attribute in the small data of the inode at a block, the last one among equals, to the attribute directory,
/// which is made where there is none. After a fault the call is to be dropped. Want of memory stands too for one that is named `.` or `..`.
pub(crate) fn move_longest<E: Edits>(
    site: Site,
    bitmap: &mut Bitmap,
    edits: &mut E,
    inode: u64,
    stamp: i64,
) -> Result<(), MapFault>
    requires valid { IsValid site.sup }
    requires inside { inode < natural site.sup.num_blocks }
    requires size { E.size edits.old ≡ site.sup.block_size }
    requires volume { IsOfVolume (sizes_of site.sup) bitmap.old }
    requires next { (m : ℕ → Option (List ℕ)) → E.told edits.old ≡ Some m → (item : Item) × IsNext (bearer_of inode site.sup) bitmap.old m item }
    ensures moved { (m : ℕ → Option (List ℕ)) (item : Item) → E.told edits.old ≡ Some m → IsNext (bearer_of inode site.sup) bitmap.old m item → OnOk result (HasMovedOut (bearer_of inode site.sup) bitmap.old bitmap.new m item.name (E.told edits.new) (E.changed edits.old) (E.changed edits.new)) }
    ensures keeps { (m : ℕ → Option (List ℕ)) → E.told edits.old ≡ Some m → OnOk result (HasAllBlocks (bearer_of inode site.sup) m (E.told edits.new)) }
    ensures faults { (m : ℕ → Option (List ℕ)) (item : Item) → E.told edits.old ≡ Some m → IsNext (bearer_of inode site.sup) bitmap.old m item → IfErr result (IsNotMoved (bearer_of inode site.sup) bitmap.old m item.name (attribute_in item) (ceil (length item.bytes) site.sup.block_size)) }
    ensures rest { bitmap.new ≡ record bitmap.old { tally = bitmap.new.tally } }
    ensures stays { StaysChanged (E.changed edits.old) (E.changed edits.new) }
    ensures size { E.size edits.new ≡ E.size edits.old }
    ensures frame { E.frame edits.new ≡ E.frame edits.old }
    ensures later { AreLater (E.counts edits.old) (E.counts edits.new) }
    ensures cause { IfErr result (HasAddCause (max 1 (ceil 2048 site.sup.block_size)) (E.counts edits.old) (E.counts edits.new)) }
{
    longest_can_move();
    let block = match read_block(site, edits, inode) {
        Ok(block) => block,
        Err(fault) => return Err(blocked(fault)),
    };
    match longest_place(&block) {
        None => Err(damaged(inode)),
        Some(at) => move_item(site, bitmap, edits, inode, &block[at..], stamp),
    }
}
