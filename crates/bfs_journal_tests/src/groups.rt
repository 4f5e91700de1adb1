// Groups of neighbouring blocks, each filled with one byte, on a device over a disk in memory.
ghost use Rattle.std.specs.Prelude.{◌≡◌, ◌≤◌, ◌<◌, ◌+◌, ◌*◌, ◌/◌, ℕ, length, IsTrue, IfOk};
ghost use Rattle.bfs_super.specs.Conditions.{IsValid};
ghost use Rattle.bfs_txn.specs.Changed.{Ascends, AreOfSize, number_at};
ghost use Rattle.bfs_device.specs.Layouts.{IsData, IsSameVolume, layout_of, ring_count};
ghost use Rattle.bfs_device.specs.Books.{IsNext};

use crate::volumes::Volume;
use bfs_device::Device;
use bfs_disk::{Disk, MemDisk};
use bfs_super::Super;
use bfs_txn::{Changed, Edits, Group, MemBlocks, Overlay};
use std::alloc::{AllocError, Global};

// Sets some blocks to the same bytes.
fn set_all<E: Edits>(edits: &mut E, blocks: &[u64], from: &[u8]) -> Result<(), AllocError>
    requires { length from.now ≡ E.size edits.old }
    ensures size { E.size edits.new ≡ E.size edits.old }
    ensures frame { E.frame edits.new ≡ E.frame edits.old }
{
    for block in blocks {
        edits.set(*block, from)?;
    }
    Ok(())
}

// Puts some blocks with the same bytes into an open group.
fn put_all(
    open: &mut Changed,
    under: &mut MemBlocks,
    blocks: &[u64],
    from: &[u8],
) -> Result<(), AllocError>
    requires ascends { Ascends «open».old }
    requires sized { AreOfSize (length from.now) «open».old }
    requires size { under.old.block_size ≡ length from.now }
    ensures ascends { Ascends «open».new }
    ensures sized { AreOfSize (length from.now) «open».new }
{
    let mut call = Overlay::begin(open, under);
    let done = set_all(&mut call, blocks, from);
    call.keep();
    done
}

/// A group of these blocks, filled with one byte. It is the entries from `numbers[0]` to `numbers[1]`, and leaves `numbers[2]` used
/// blocks.
pub(crate) fn group_with(
    alloc: Global,
    numbers: [u64; 3],
    blocks: &[u64],
    size: usize,
    fill: u8,
) -> Result<Group, AllocError>
    requires { size ≤ 8192 }
    ensures ascends { IfOk result (λ g. Ascends g.blocks) }
    ensures sized { IfOk result (λ g. AreOfSize size g.blocks) }
{
    let from = vec![in alloc; fill; size]?;
    let mut open = Changed::new(alloc);
    let mut under = MemBlocks::new(Vec::new(alloc), size as u32);
    put_all(&mut open, &mut under, blocks, &from)?;
    let [first, last, used] = numbers;
    Ok(Group {
        first,
        last,
        used,
        blocks: open,
    })
}

/// Is this a block behind block 0 and outside the log?
pub(crate) fn is_data(sup: &Super, block: u64) -> bool
    requires { IsValid sup.now }
    ensures { IsTrue result → IsData (layout_of sup.now) block }
{
    let geometry = sup.geometry();
    let log = sup.block_of(sup.log_blocks);
    0 < block
        && block < geometry.blocks
        && (block < log || log + u64::from(sup.log_blocks.len) <= block)
}

fn are_data(sup: &Super, blocks: &Changed) -> bool
    requires { IsValid sup.now }
    ensures { IsTrue result → (i : ℕ) → i < length blocks.now → IsData (layout_of sup.now) (number_at blocks.now i) }
{
    for i in 0..blocks.len() {
        if !is_data(sup, blocks.block(i)) {
            return false;
        }
    }
    true
}

// How many blocks of the log a group takes: one each, and an array block for each 126 of them.
fn log_blocks(blocks: &Changed) -> usize
    requires { length blocks.now < 65536 }
    ensures { result ≡ ring_count blocks.now }
{
    blocks.len() + (blocks.len() + 125) / 126
}

/// May this group be sealed behind the entry of this number?
#[tactic(auto, using(crate::proofs::Once::once_of))]
pub(crate) fn is_next(sup: &Super, left: u64, used: u64, group: &Group) -> bool
    requires valid { IsValid sup.now }
    requires ascends { Ascends group.now.blocks }
    requires sized { AreOfSize sup.now.block_size group.now.blocks }
    ensures { IsTrue result → IsNext (layout_of sup.now) sup.now.block_size left used group.now }
{
    if group.first == 0 || group.first - 1 != left || group.last < group.first {
        return false;
    }
    if group.used > sup.geometry().blocks || group.blocks.len() >= 65536 {
        return false;
    }
    if log_blocks(&group.blocks) >= usize::from(sup.log_blocks.len) {
        return false;
    }
    if group.blocks.is_empty() && group.used != used {
        return false;
    }
    are_data(sup, &group.blocks)
}

/// A device over this disk with three groups sealed.
fn loaded<D: Disk + Drop>(
    alloc: Global,
    mut disk: D,
    sup: Super,
    one: Group,
    two: Group,
    three: Group,
) -> Option<Device<D>>
    requires valid { IsValid sup }
    requires ascends { Ascends one.blocks × Ascends two.blocks × Ascends three.blocks }
    requires sized { AreOfSize sup.block_size one.blocks × AreOfSize sup.block_size two.blocks × AreOfSize sup.block_size three.blocks }
{
    let geometry = sup.geometry();
    let Ok(sectors) = disk.sectors() else {
        return None;
    };
    let needed = u64::from(geometry.block_size / 512) * geometry.blocks;
    if sectors < needed || sup.log_start != sup.log_end {
        return None;
    }
    let first = is_next(&sup, 0, geometry.used, &one);
    let second = is_next(&sup, one.last, one.used, &two);
    let third = is_next(&sup, two.last, two.used, &three);
    if !first || !second || !third {
        return None;
    }
    let Ok(mut device) = Device::adopt(alloc, disk, sup) else {
        return None;
    };
    device.seal(one);
    let Ok(()) = device.room() else {
        return None;
    };
    device.seal(two);
    device.seal(three);
    Some(device)
}

/// A device over this disk, which has the volume of these fields, with three groups sealed: of these entries and used blocks, with these
/// blocks, each filled with its byte.
pub(crate) fn three_sealed<D: Disk + Drop>(
    alloc: Global,
    disk: D,
    fields: &Super,
    numbers: [[u64; 3]; 3],
    blocks: [&[u64]; 3],
    fills: [u8; 3],
) -> Option<Device<D>> {
    let Ok(sup) = Super::parse(&fields.print()) else {
        return None;
    };
    let size = sup.block_size as usize;
    if size > 8192 {
        return None;
    }
    let Ok(one) = group_with(alloc, numbers[0], blocks[0], size, fills[0]) else {
        return None;
    };
    let Ok(two) = group_with(alloc, numbers[1], blocks[1], size, fills[1]) else {
        return None;
    };
    let Ok(three) = group_with(alloc, numbers[2], blocks[2], size, fills[2]) else {
        return None;
    };
    loaded(alloc, disk, sup, one, two, three)
}

// So many blocks from one on.
fn blocks_from(alloc: Global, first: u64, count: u64) -> Result<Vec<u64>, AllocError> {
    let mut blocks = Vec::new(alloc);
    for i in 0..count {
        blocks.push(first.wrapping_add(i))?;
    }
    Ok(blocks)
}

// The first so many of them.
fn first_of(blocks: &[u64], count: u64) -> &[u64] {
    match blocks.get(..count as usize) {
        Some(part) => part,
        None => blocks,
    }
}

/// A device over this volume with groups of so many blocks sealed: of bytes 1, 2 and 3, each from the first block that may be
/// changed on, so that a later one covers an earlier one. They leave 21, 22 and 23 used blocks, but for a group without blocks.
pub(crate) fn sealed(alloc: Global, volume: &Volume, sizes: [u64; 3]) -> Option<Device<MemDisk>> {
    let most = sizes[0].max(sizes[1]).max(sizes[2]);
    let Ok(all) = blocks_from(alloc, volume.first(), most) else {
        return None;
    };
    let Ok(bytes) = volume.bytes(alloc) else {
        return None;
    };
    let used = used_after(sizes);
    three_sealed(
        alloc,
        MemDisk::new(alloc, bytes),
        &volume.fields(),
        [[1, 2, used[0]], [3, 3, used[1]], [4, 6, used[2]]],
        [
            first_of(&all, sizes[0]),
            first_of(&all, sizes[1]),
            first_of(&all, sizes[2]),
        ],
        [1, 2, 3],
    )
}

// The used blocks behind a group of so many: as many as before where it has none.
fn used_behind(count: u64, before: u64, after: u64) -> u64 {
    if count == 0 { before } else { after }
}

/// The used blocks after each of the groups.
pub(crate) fn used_after(sizes: [u64; 3]) -> [u64; 3] {
    let one = used_behind(sizes[0], 20, 21);
    let two = used_behind(sizes[1], one, 22);
    let three = used_behind(sizes[2], two, 23);
    [one, two, three]
}

/// Makes so many steps. Tells whether each was made.
pub(crate) fn step_on<D: Disk>(device: &mut Device<D>, steps: u64) -> bool
    ensures { IsSameVolume device.old.books.sup device.new.books.sup }
{
    for _ in 0..steps {
        if device.step().is_err() {
            return false;
        }
    }
    true
}

/// The image that a crash leaves of a device after so many steps, each sector old or new by the pick.
pub(crate) fn crash_after(
    mut device: Device<MemDisk>,
    steps: u64,
    pick: u64,
) -> Result<Vec<u8>, AllocError> {
    if !step_on(&mut device, steps) {
        return Err(AllocError);
    }
    device.into_disk().crash(pick)
}
