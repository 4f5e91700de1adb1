// Streams that grow, for each size of blocks. Their volume has three allocation groups, its bitmap in blocks 1 to 3, and two
// streams without blocks at blocks 4 and 5.
ghost use Rattle.std.specs.Prelude.{◌≡◌, ◌≤◌, ◌<◌, ◌+◌, ◌*◌, IfOk, length};
ghost use Rattle.bfs_stream.specs.Grown.{IsOfVolume};

use crate::place_tests::superblock;
use bfs_bitmap::Bitmap;
use bfs_bytes::put_i64;
use bfs_growth::grow;
use bfs_stream::{GrowFault, Stream, StreamFault};
use bfs_txn::{Changed, Edits, MemBlocks, Overlay};
use std::alloc::{AllocError, Global};
use std::test::Fail;

/// The first six blocks of the volume: in its bitmap so many bytes are of used blocks, and the next four are these; the stream
/// at block 4 says that it reaches up to a byte under double indirect.
pub(crate) fn volume(
    alloc: Global,
    size: u32,
    used: usize,
    more: [u8; 4],
    reach: i64,
) -> Result<MemBlocks, AllocError>
    requires some { 1024 ≤ size }
    requires small { size ≤ 8192 }
    requires inside { used + 4 ≤ 3 * size }
    ensures { IfOk result (λ m. m.block_size ≡ size) }
{
    let block = size as usize;
    let mut bytes = vec![in alloc; 0u8; block * 6]?;
    bytes[block..block + used].fill(255);
    bytes[block + used..block + used + 4].copy_from_slice(&more);
    put_i64(&mut bytes, 4 * block + 200, reach);
    Ok(MemBlocks::new(bytes, size))
}

/// Grows two streams by turns, by one block each time.
pub(crate) fn by_turns<E: Edits>(
    first: &mut Stream,
    second: &mut Stream,
    bitmap: &mut Bitmap,
    edits: &mut E,
    turns: u64,
) -> Result<(), GrowFault>
    requires size { E.size edits.old ≡ first.old.sizes.block_size }
    requires sizes { second.old.sizes ≡ first.old.sizes }
    requires volume { IsOfVolume first.old.sizes bitmap.old }
    ensures first { first.new ≡ first.old }
    ensures second { second.new ≡ second.old }
    ensures rest { bitmap.new ≡ record bitmap.old { tally = bitmap.new.tally } }
    ensures size { E.size edits.new ≡ E.size edits.old }
    ensures frame { E.frame edits.new ≡ E.frame edits.old }
{
    for _ in 0..turns {
        match grow(first, bitmap, edits, 1) {
            Ok(()) => {}
            Err(fault) => return Err(fault),
        }
        match grow(second, bitmap, edits, 1) {
            Ok(()) => {}
            Err(fault) => return Err(fault),
        }
    }
    Ok(())
}

/// Up to which block each level of a stream reaches, and its blocks at two places.
fn look<E: Edits>(
    stream: &mut Stream,
    edits: &mut E,
    places: [u64; 2],
) -> Result<[u64; 5], StreamFault>
    requires size { E.size edits.old ≡ stream.old.sizes.block_size }
    ensures same { stream.new ≡ stream.old }
    ensures size { E.size edits.new ≡ E.size edits.old }
    ensures frame { E.frame edits.new ≡ E.frame edits.old }
{
    let ends = match stream.reach(edits) {
        Ok(ends) => ends,
        Err(fault) => return Err(StreamFault::Block(fault)),
    };
    let here = match stream.block(edits, places[0]) {
        Ok(here) => here,
        Err(fault) => return Err(fault),
    };
    match stream.block(edits, places[1]) {
        Ok(there) => Ok([ends.direct, ends.indirect, ends.double, here, there]),
        Err(fault) => Err(fault),
    }
}

/// Grows two streams by turns, first 13 times and then so many times more; what is seen of both after each.
fn seen<E: Edits>(
    first: &mut Stream,
    second: &mut Stream,
    bitmap: &mut Bitmap,
    edits: &mut E,
    turns: u64,
    places: [u64; 2],
) -> Option<([u64; 5], [u64; 5], [u64; 5], [u64; 5])>
    requires size { E.size edits.old ≡ first.old.sizes.block_size }
    requires sizes { second.old.sizes ≡ first.old.sizes }
    requires volume { IsOfVolume first.old.sizes bitmap.old }
    ensures frame { E.frame edits.new ≡ E.frame edits.old }
{
    by_turns(first, second, bitmap, edits, 13).ok()?;
    let one = look(first, edits, [11, 12]).ok()?;
    let two = look(second, edits, [11, 12]).ok()?;
    by_turns(first, second, bitmap, edits, turns).ok()?;
    let three = look(first, edits, places).ok()?;
    let four = look(second, edits, places).ok()?;
    Some((one, two, three, four))
}

/// The same on a volume in whose first group forty blocks are free, and all behind it.
fn grown_by_turns(
    alloc: Global,
    size: u32,
    shift: u32,
    turns: u64,
    places: [u64; 2],
) -> Result<Option<([u64; 5], [u64; 5], [u64; 5], [u64; 5])>, Fail>
    requires some { 1024 ≤ size }
    requires small { size ≤ 8192 }
    requires low { shift ≤ 13 }
{
    let sup = superblock(size, shift)?;
    if sup.block_size != size {
        return Ok(None);
    }
    if sup.num_blocks < 6 {
        return Ok(None);
    }
    let mut under = volume(alloc, size, size as usize - 5, [0; 4], 0)?;
    let mut open = Changed::new(alloc);
    let mut bitmap = Bitmap::of(alloc, &sup);
    let mut first = Stream::at(alloc, 4, &sup);
    let mut second = Stream::at(alloc, 5, &sup);
    let mut edits = Overlay::begin(&mut open, &mut under);
    let seen = seen(
        &mut first,
        &mut second,
        &mut bitmap,
        &mut edits,
        turns,
        places,
    );
    edits.drop_call();
    Ok(seen)
}

#[test]
fn streams_that_grow_by_turns_use_each_level_for_each_size_of_blocks(
    rt: HostRuntime,
) -> Result<(), Fail> {
    let alloc = rt.alloc();
    let sizes: [(u32, u32, u64, u64, u64); 4] = [
        (1024, 10, 4, 512, 8152),
        (2048, 11, 2, 512, 16344),
        (4096, 12, 1, 512, 32728),
        (8192, 13, 1, 1024, 65496),
    ];
    for (size, shift, whole, runs, low) in sizes {
        let last = 12 + runs;
        let end = last + whole;
        let high = low + 23 + 2 * runs + 2 * whole;
        let seen = grown_by_turns(alloc, size, shift, runs, [last, 11 + runs + whole])?;
        let one = [12, 13, 0, low + 22, low + 24 + whole];
        let two = [12, 13, 0, low + 23, low + 25 + 2 * whole];
        let three = [12, last, end, high + 1 + 2 * whole, high + 3 * whole];
        let four = [12, last, end, high + 1 + 5 * whole, high + 6 * whole];
        assert_eq!(rt; seen, Some((one, two, three, four)));
    }
    Ok(())
}

/// Grows the stream at block 4 of such a volume.
fn grown(
    alloc: Global,
    size: u32,
    shift: u32,
    used: usize,
    more: [u8; 4],
    reach: i64,
    blocks: u64,
) -> Result<Result<(), GrowFault>, Fail>
    requires some { 1024 ≤ size }
    requires small { size ≤ 8192 }
    requires low { shift ≤ 13 }
    requires inside { used + 4 ≤ 3 * size }
{
    let sup = superblock(size, shift)?;
    if sup.block_size != size {
        return Ok(Ok(()));
    }
    if sup.num_blocks < 6 {
        return Ok(Ok(()));
    }
    let mut under = volume(alloc, size, used, more, reach)?;
    let mut open = Changed::new(alloc);
    let mut bitmap = Bitmap::of(alloc, &sup);
    let mut stream = Stream::at(alloc, 4, &sup);
    let mut edits = Overlay::begin(&mut open, &mut under);
    let grown = grow(&mut stream, &mut bitmap, &mut edits, blocks);
    edits.drop_call();
    Ok(grown)
}

#[test]
fn a_stream_does_not_grow_without_free_runs_or_room_for_each_size_of_blocks(
    rt: HostRuntime,
) -> Result<(), Fail> {
    let alloc = rt.alloc();
    let sizes: [(u32, u32, u64, u64); 4] = [
        (1024, 10, 4, 512),
        (2048, 11, 2, 512),
        (4096, 12, 1, 512),
        (8192, 13, 1, 1024),
    ];
    for (size, shift, whole, runs) in sizes {
        let all = 3 * size as usize - 4;
        let full = grown(alloc, size, shift, all, [255; 4], 0, 1)?;
        assert_eq!(rt; full, Err(GrowFault::NoRun { wanted: 1, free: 0 }));
        let level = whole * runs * runs;
        let reach = i64::from(size) * (level - 3 * whole) as i64;
        let past = grown(alloc, size, shift, 0, [0; 4], reach, 3 * whole + 1)?;
        assert_eq!(rt; past, Err(GrowFault::Full { room: 3 * whole }));
    }
    // Twelve free blocks, each between used ones, and three in a row: no array of four blocks.
    let gaps = grown(
        alloc,
        1024,
        10,
        2556,
        [0b0101_0101, 0b0101_0101, 0b0101_0101, 0b0001_1111],
        0,
        13,
    )?;
    assert_eq!(rt; gaps, Err(GrowFault::NoRun { wanted: 4, free: 3 }));
    Ok(())
}
