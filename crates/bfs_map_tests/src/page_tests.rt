// Pages of two streams of one volume, for each size of blocks. The volume has three allocation groups, its bitmap in blocks 1 to
// 3, and two streams without blocks at blocks 4 and 5.
ghost use Rattle.std.specs.Prelude.{◌≡◌, ◌≤◌, ◌<◌, ◌*◌, ◌%◌, ℕ, List, Option, Some, IfOk};
ghost use Rattle.bfs_super.specs.Conditions.{IsValid, natural};
ghost use Rattle.bfs_stream.specs.Sizes.{sizes_of};
ghost use Rattle.bfs_stream.specs.Grown.{IsOfVolume};
ghost use Rattle.bfs_stream_pages.specs.Held.{Held};

use bfs_bitmap::Bitmap;
use bfs_stream::GrowFault;
use bfs_stream_pages::StreamPages;
use bfs_super::{Super, SuperFault};
use bfs_txn::{BlockFault, Blocks, Changed, Edits, MemBlocks, Overlay, Pages, Steps};
use bfs_volume_fixtures::Silent;
use std::alloc::{AllocError, Global};
use std::marker::Brand;
use std::sync::ledger::{Blank, Ledger};
use std::test::Fail;

/// The superblock of a volume with blocks of this size, 4,096 of them behind two whole groups.
pub(crate) fn superblock(size: u32, shift: u32) -> Result<Super, SuperFault>
    requires small { size ≤ 8192 }
    requires low { shift ≤ 13 }
    ensures valid { IfOk result IsValid }
{
    bfs_volume_fixtures::superblock(size, shift, 16 * size + 4096, 3, 4)
}

/// The first six blocks of the volume, with so many bytes of the bitmap set.
fn volume(alloc: Global, size: u32, used: usize) -> Result<Silent, AllocError>
    requires small { size ≤ 8192 }
    requires inside { used ≤ 3 * size }
    ensures { IfOk result (λ s. s.blocks.block_size ≡ size) }
{
    let block = size as usize;
    let mut bytes = vec![in alloc; 0u8; block * 6]?;
    bytes[block..block + used].fill(255);
    Ok(Silent {
        blocks: MemBlocks::new(bytes, size),
    })
}

/// Adds a page of one byte behind so many bytes of a stream, by pages that are fixed or not.
fn added<E: Edits>(
    alloc: Global,
    edits: &mut E,
    bitmap: &mut Bitmap,
    sup: &Super,
    inode: u64,
    length: u64,
    fixed: bool,
    fill: u8,
) -> Result<u64, GrowFault>
    requires valid { IsValid sup.now }
    requires inside { inode < natural sup.now.num_blocks }
    requires size { E.size edits.old ≡ sup.now.block_size }
    requires volume { IsOfVolume (sizes_of sup.now) bitmap.old }
    requires whole { length % 1024 ≡ 0 }
    requires held { (m : ℕ → Option (List ℕ)) → E.told edits.old ≡ Some m → ∥ Held (record { id = inode; sizes = sizes_of sup.now }) bitmap.old length m ∥₁ }
    ensures size { E.size edits.new ≡ E.size edits.old }
    ensures rest { bitmap.new ≡ record bitmap.old { tally = bitmap.new.tally } }
{
    let mut pages = StreamPages::over(alloc, edits, bitmap, inode, sup, length, fixed, None);
    pages.append(&[fill; 1024])
}

/// Writes a page of one byte into a stream of so many bytes.
fn written<E: Edits>(
    alloc: Global,
    edits: &mut E,
    bitmap: &mut Bitmap,
    sup: &Super,
    inode: u64,
    length: u64,
    at: u64,
    fill: u8,
) -> Result<(), GrowFault>
    requires valid { IsValid sup.now }
    requires inside { inode < natural sup.now.num_blocks }
    requires size { E.size edits.old ≡ sup.now.block_size }
    requires volume { IsOfVolume (sizes_of sup.now) bitmap.old }
    requires whole { length % 1024 ≡ 0 }
    requires held { (m : ℕ → Option (List ℕ)) → E.told edits.old ≡ Some m → ∥ Held (record { id = inode; sizes = sizes_of sup.now }) bitmap.old length m ∥₁ }
    requires place { at % 1024 ≡ 0 }
    requires low { at < length }
    ensures size { E.size edits.new ≡ E.size edits.old }
    ensures rest { bitmap.new ≡ record bitmap.old { tally = bitmap.new.tally } }
{
    let mut pages = StreamPages::over(alloc, edits, bitmap, inode, sup, length, false, None);
    pages.set(at, &[fill; 1024])
}

/// Reads a page of a stream of so many bytes.
fn read<E: Edits, L: Ledger>(
    alloc: Global,
    edits: &mut E,
    bitmap: &mut Bitmap,
    sup: &Super,
    inode: u64,
    length: u64,
    at: u64,
    ledger: Blank,
) -> Result<[u8; 1024], GrowFault>
    requires name { ledger.name ≡ L.name }
    requires parts { ledger.parts ≡ L.parts }
    requires some { L.parts ≡ 1 }
    requires valid { IsValid sup.now }
    requires inside { inode < natural sup.now.num_blocks }
    requires size { E.size edits.old ≡ sup.now.block_size }
    requires volume { IsOfVolume (sizes_of sup.now) bitmap.old }
    requires whole { length % 1024 ≡ 0 }
    requires held { (m : ℕ → Option (List ℕ)) → E.told edits.old ≡ Some m → ∥ Held (record { id = inode; sizes = sizes_of sup.now }) bitmap.old length m ∥₁ }
    requires place { at % 1024 ≡ 0 }
    requires low { at < length }
    ensures size { E.size edits.new ≡ E.size edits.old }
    ensures rest { bitmap.new ≡ record bitmap.old { tally = bitmap.new.tally } }
{
    let mut steps = Steps::<L>::begin(ledger);
    let mut into = [0u8; 1024];
    let mut pages = StreamPages::over(alloc, edits, bitmap, inode, sup, length, false, None);
    match pages.get(at, &mut into, &mut steps) {
        Ok(()) => Ok(into),
        Err(fault) => Err(fault),
    }
}

/// Is this page of a stream of so many bytes filled with one byte?
fn is_read(
    alloc: Global,
    edits: &mut Overlay<'_, Silent>,
    bitmap: &mut Bitmap,
    sup: &Super,
    inode: u64,
    length: u64,
    at: u64,
    fill: u8,
) -> Result<bool, GrowFault>
    requires valid { IsValid sup.now }
    requires inside { inode < natural sup.now.num_blocks }
    requires size { edits.old.under.now.blocks.block_size ≡ sup.now.block_size }
    requires volume { IsOfVolume (sizes_of sup.now) bitmap.old }
    requires whole { length % 1024 ≡ 0 }
    requires place { at % 1024 ≡ 0 }
    requires low { at < length }
    ensures size { edits.new.under.now.blocks.block_size ≡ edits.old.under.now.blocks.block_size }
    ensures rest { bitmap.new ≡ record bitmap.old { tally = bitmap.new.tally } }
{
    match read::<Overlay<'_, Silent>, Brand>(
        alloc,
        edits,
        bitmap,
        sup,
        inode,
        length,
        at,
        Blank::new(1),
    ) {
        Ok(page) => Ok(page == [fill; 1024]),
        Err(fault) => Err(fault),
    }
}

/// Adds so many pages to two streams by turns, each of a byte of its own.
fn add_by_turns(
    alloc: Global,
    edits: &mut Overlay<'_, Silent>,
    bitmap: &mut Bitmap,
    sup: &Super,
    count: u8,
) -> Result<(), GrowFault>
    requires valid { IsValid sup.now }
    requires inside { 5 < natural sup.now.num_blocks }
    requires size { edits.old.under.now.blocks.block_size ≡ sup.now.block_size }
    requires volume { IsOfVolume (sizes_of sup.now) bitmap.old }
    ensures size { edits.new.under.now.blocks.block_size ≡ edits.old.under.now.blocks.block_size }
    ensures rest { bitmap.new ≡ record bitmap.old { tally = bitmap.new.tally } }
{
    for i in 0..count {
        let length = 1024 * u64::from(i);
        match added(alloc, edits, bitmap, sup, 4, length, false, i) {
            Ok(_) => {}
            Err(fault) => return Err(fault),
        }
        match added(alloc, edits, bitmap, sup, 5, length, false, 255 - i) {
            Ok(_) => {}
            Err(fault) => return Err(fault),
        }
    }
    Ok(())
}

/// Is each page of both streams filled with its byte, and the third of the first with another?
fn are_read(
    alloc: Global,
    edits: &mut Overlay<'_, Silent>,
    bitmap: &mut Bitmap,
    sup: &Super,
    count: u8,
    third: u8,
) -> Result<bool, GrowFault>
    requires valid { IsValid sup.now }
    requires inside { 5 < natural sup.now.num_blocks }
    requires size { edits.old.under.now.blocks.block_size ≡ sup.now.block_size }
    requires volume { IsOfVolume (sizes_of sup.now) bitmap.old }
    ensures size { edits.new.under.now.blocks.block_size ≡ edits.old.under.now.blocks.block_size }
    ensures rest { bitmap.new ≡ record bitmap.old { tally = bitmap.new.tally } }
{
    let length = 1024 * u64::from(count);
    let mut right = true;
    for i in 0..count {
        let at = 1024 * u64::from(i);
        let first = if i == 2 { third } else { i };
        match is_read(alloc, edits, bitmap, sup, 4, length, at, first) {
            Ok(same) => right = right && same,
            Err(fault) => return Err(fault),
        }
        match is_read(alloc, edits, bitmap, sup, 5, length, at, 255 - i) {
            Ok(same) => right = right && same,
            Err(fault) => return Err(fault),
        }
    }
    Ok(right)
}

/// Sixty pages of both streams, read back, then one of the first written over, and all read back again.
fn seen(
    alloc: Global,
    edits: &mut Overlay<'_, Silent>,
    bitmap: &mut Bitmap,
    sup: &Super,
) -> Result<bool, GrowFault>
    requires valid { IsValid sup.now }
    requires inside { 5 < natural sup.now.num_blocks }
    requires size { edits.old.under.now.blocks.block_size ≡ sup.now.block_size }
    requires volume { IsOfVolume (sizes_of sup.now) bitmap.old }
{
    match add_by_turns(alloc, edits, bitmap, sup, 60) {
        Ok(()) => {}
        Err(fault) => return Err(fault),
    }
    let before = match are_read(alloc, edits, bitmap, sup, 60, 2) {
        Ok(before) => before,
        Err(fault) => return Err(fault),
    };
    match written(alloc, edits, bitmap, sup, 4, 1024 * 60, 2048, 222) {
        Ok(()) => {}
        Err(fault) => return Err(fault),
    }
    match are_read(alloc, edits, bitmap, sup, 60, 222) {
        Ok(after) => Ok(before && after),
        Err(fault) => Err(fault),
    }
}

/// The same on a volume in whose first group forty blocks are free, and all behind it.
fn seen_on(alloc: Global, size: u32, shift: u32) -> Result<Result<bool, GrowFault>, Fail>
    requires some { 1024 ≤ size }
    requires small { size ≤ 8192 }
    requires low { shift ≤ 13 }
{
    let sup = superblock(size, shift)?;
    if sup.block_size != size {
        return Ok(Ok(false));
    }
    if sup.num_blocks < 6 {
        return Ok(Ok(false));
    }
    let mut under = volume(alloc, size, size as usize - 5)?;
    let mut open = Changed::new(alloc);
    let mut bitmap = Bitmap::of(alloc, &sup);
    let mut edits = Overlay::begin(&mut open, &mut under);
    let seen = seen(alloc, &mut edits, &mut bitmap, &sup);
    edits.drop_call();
    Ok(seen)
}

#[test]
fn pages_are_read_back_for_each_size_of_blocks(rt: HostRuntime) -> Result<(), Fail> {
    let alloc = rt.alloc();
    for (size, shift) in [(1024u32, 10u32), (2048, 11), (4096, 12), (8192, 13)] {
        let seen = seen_on(alloc, size, shift)?;
        assert!(rt; matches!(seen, Ok(true)), "{size}");
    }
    Ok(())
}

/// Adds a page to a stream on a volume with so many bytes of its bitmap set, by pages that are fixed or not.
fn added_on(
    alloc: Global,
    size: u32,
    shift: u32,
    used: usize,
    fixed: bool,
) -> Result<Result<u64, GrowFault>, Fail>
    requires small { size ≤ 8192 }
    requires low { shift ≤ 13 }
    requires used { used ≤ 3 * size }
{
    let sup = superblock(size, shift)?;
    if sup.block_size != size {
        return Ok(Ok(1));
    }
    if sup.num_blocks < 6 {
        return Ok(Ok(1));
    }
    let mut under = volume(alloc, size, used)?;
    let mut open = Changed::new(alloc);
    let mut bitmap = Bitmap::of(alloc, &sup);
    let mut edits = Overlay::begin(&mut open, &mut under);
    let result = added(alloc, &mut edits, &mut bitmap, &sup, 4, 0, fixed, 7);
    edits.drop_call();
    Ok(result)
}

#[test]
fn no_page_is_added_on_a_full_volume(rt: HostRuntime) -> Result<(), Fail> {
    let alloc = rt.alloc();
    for (size, shift) in [(1024u32, 10u32), (2048, 11), (4096, 12), (8192, 13)] {
        let full = added_on(alloc, size, shift, 2 * size as usize + 512, false)?;
        assert!(rt;
            matches!(full, Err(GrowFault::NoRun { wanted: 1, free: 0 })),
            "{size}"
        );
        let room = added_on(alloc, size, shift, 2 * size as usize + 511, false)?;
        assert!(rt; matches!(room, Ok(0)), "{size}");
    }
    Ok(())
}

#[test]
fn no_page_is_added_to_fixed_pages(rt: HostRuntime) -> Result<(), Fail> {
    let alloc = rt.alloc();
    for (size, shift) in [(1024u32, 10u32), (2048, 11), (4096, 12), (8192, 13)] {
        let empty = added_on(alloc, size, shift, 0, true)?;
        assert!(rt;
            matches!(empty, Err(GrowFault::Block(BlockFault::NoMemory))),
            "{size}"
        );
        let full = added_on(alloc, size, shift, 2 * size as usize + 512, true)?;
        assert!(rt;
            matches!(full, Err(GrowFault::Block(BlockFault::NoMemory))),
            "{size}"
        );
    }
    Ok(())
}

/// The first ten blocks of the volume, the first eight of them used; the free ones hold what another file left.
fn used_before(alloc: Global, size: u32) -> Result<Silent, AllocError>
    requires some { 1024 ≤ size }
    requires small { size ≤ 8192 }
    ensures { IfOk result (λ s. s.blocks.block_size ≡ size) }
{
    let block = size as usize;
    let mut bytes = vec![in alloc; 0u8; block * 10]?;
    bytes[block] = 255;
    bytes[block * 8..].fill(170);
    Ok(Silent {
        blocks: MemBlocks::new(bytes, size),
    })
}

/// Are the first 1,024 bytes sevens, and all behind them zeros?
fn is_page_of_sevens(block: &[u8]) -> bool {
    let mut right = true;
    for i in 0..block.len() {
        let byte = if i < 1024 { 7 } else { 0 };
        right = right && block[i] == byte;
    }
    right
}

/// Adds a page of sevens to a stream there. Has the block that it took the page, and zeros behind it?
fn is_fresh(alloc: Global, size: u32, shift: u32) -> Result<bool, Fail>
    requires some { 1024 ≤ size }
    requires small { size ≤ 8192 }
    requires low { shift ≤ 13 }
{
    let sup = superblock(size, shift)?;
    if sup.block_size != size {
        return Ok(false);
    }
    if sup.num_blocks < 6 {
        return Ok(false);
    }
    let mut block = vec![in alloc; 1u8; size as usize]?;
    let mut under = used_before(alloc, size)?;
    let mut open = Changed::new(alloc);
    let mut bitmap = Bitmap::of(alloc, &sup);
    let mut edits = Overlay::begin(&mut open, &mut under);
    let place = added(alloc, &mut edits, &mut bitmap, &sup, 4, 0, false, 7);
    let read = edits.get(8, &mut block);
    edits.drop_call();
    Ok(place == Ok(0) && read == Ok(()) && is_page_of_sevens(&block))
}

#[test]
fn a_block_that_a_stream_takes_shows_nothing_of_another_file(rt: HostRuntime) -> Result<(), Fail> {
    let alloc = rt.alloc();
    for (size, shift) in [(1024u32, 10u32), (2048, 11), (4096, 12), (8192, 13)] {
        assert!(rt; is_fresh(alloc, size, shift)?, "{size}");
    }
    Ok(())
}

/// Reads the page at the start of a stream without blocks, which is said to have one.
fn read_short(alloc: Global) -> Result<Result<bool, GrowFault>, Fail> {
    let sup = superblock(1024, 10)?;
    if sup.block_size != 1024 {
        return Ok(Ok(false));
    }
    if sup.num_blocks < 6 {
        return Ok(Ok(false));
    }
    let mut under = volume(alloc, 1024, 0)?;
    let mut open = Changed::new(alloc);
    let mut bitmap = Bitmap::of(alloc, &sup);
    let mut edits = Overlay::begin(&mut open, &mut under);
    let result = is_read(alloc, &mut edits, &mut bitmap, &sup, 4, 1024, 0, 0);
    edits.drop_call();
    Ok(result)
}

#[test]
fn the_inode_of_a_stream_that_is_too_short_is_damaged(rt: HostRuntime) -> Result<(), Fail> {
    let short = read_short(rt.alloc())?;
    assert_eq!(rt;
        short,
        Err(GrowFault::Block(BlockFault::Damaged { block: 4 }))
    );
    Ok(())
}
