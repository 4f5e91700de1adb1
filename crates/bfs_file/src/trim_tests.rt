// Streams that are cut, for each size of blocks. They have grown by turns on a volume in whose first group forty blocks are
// free, and all behind it.
ghost use Rattle.std.specs.Prelude.{◌≡◌, ◌≤◌, ◌<◌, ◌+◌, ◌*◌, length};
ghost use Rattle.bfs_stream.specs.Grown.{IsOfVolume};

use crate::grow_tests::{by_turns, volume};
use crate::place_tests::superblock;
use bfs_bitmap::Bitmap;
use bfs_cuts::trim;
use bfs_growth::grow;
use bfs_stream::Stream;
use bfs_txn::{Changed, Edits, Overlay};
use std::alloc::Global;
use std::test::Fail;

/// Cuts a stream to its first blocks; up to which block each level reaches then.
fn cut<E: Edits>(
    stream: &mut Stream,
    bitmap: &mut Bitmap,
    edits: &mut E,
    blocks: u64,
) -> Option<[u64; 3]>
    requires size { E.size edits.old ≡ stream.old.sizes.block_size }
    requires volume { IsOfVolume stream.old.sizes bitmap.old }
    ensures same { stream.new ≡ stream.old }
    ensures rest { bitmap.new ≡ record bitmap.old { given = bitmap.new.given; tally = bitmap.new.tally } }
    ensures size { E.size edits.new ≡ E.size edits.old }
    ensures frame { E.frame edits.new ≡ E.frame edits.old }
{
    match trim(stream, bitmap, edits, blocks) {
        Ok(()) => {}
        Err(_) => return None,
    }
    let ends = stream.reach(edits).ok()?;
    Some([ends.direct, ends.indirect, ends.double])
}

/// The same four times.
fn cuts<E: Edits>(
    stream: &mut Stream,
    bitmap: &mut Bitmap,
    edits: &mut E,
    blocks: [u64; 4],
) -> Option<[[u64; 3]; 4]>
    requires size { E.size edits.old ≡ stream.old.sizes.block_size }
    requires volume { IsOfVolume stream.old.sizes bitmap.old }
    ensures same { stream.new ≡ stream.old }
    ensures rest { bitmap.new ≡ record bitmap.old { given = bitmap.new.given; tally = bitmap.new.tally } }
    ensures size { E.size edits.new ≡ E.size edits.old }
    ensures frame { E.frame edits.new ≡ E.frame edits.old }
{
    let one = cut(stream, bitmap, edits, blocks[0])?;
    let two = cut(stream, bitmap, edits, blocks[1])?;
    let three = cut(stream, bitmap, edits, blocks[2])?;
    let four = cut(stream, bitmap, edits, blocks[3])?;
    Some([one, two, three, four])
}

/// Grows a stream by a block twice, and frees what was given back in between; its blocks at two places.
fn freed_between<E: Edits>(
    stream: &mut Stream,
    bitmap: &mut Bitmap,
    edits: &mut E,
    places: [u64; 2],
) -> Option<[u64; 2]>
    requires size { E.size edits.old ≡ stream.old.sizes.block_size }
    requires volume { IsOfVolume stream.old.sizes bitmap.old }
    requires last { bitmap.old.last < 1 }
    ensures frame { E.frame edits.new ≡ E.frame edits.old }
{
    grow(stream, bitmap, edits, 1).ok()?;
    bitmap.close_group(1);
    bitmap.release(1);
    grow(stream, bitmap, edits, 1).ok()?;
    let one = stream.block(edits, places[0]).ok()?;
    let two = stream.block(edits, places[1]).ok()?;
    Some([one, two])
}

/// What a stream that has grown by turns beside another one looks like after each cut, and which blocks it takes then.
fn seen<E: Edits>(
    first: &mut Stream,
    second: &mut Stream,
    bitmap: &mut Bitmap,
    edits: &mut E,
    turns: u64,
    blocks: ([u64; 4], [u64; 4]),
) -> Option<([[u64; 3]; 4], [[u64; 3]; 4], [u64; 2])>
    requires size { E.size edits.old ≡ first.old.sizes.block_size }
    requires sizes { second.old.sizes ≡ first.old.sizes }
    requires volume { IsOfVolume first.old.sizes bitmap.old }
    requires last { bitmap.old.last < 1 }
    ensures frame { E.frame edits.new ≡ E.frame edits.old }
{
    by_turns(first, second, bitmap, edits, turns).ok()?;
    let one = cuts(first, bitmap, edits, blocks.0)?;
    let two = cuts(first, bitmap, edits, blocks.1)?;
    let taken = freed_between(first, bitmap, edits, [0, 1])?;
    Some((one, two, taken))
}

/// The same for a size of blocks.
fn cut_by_turns(
    alloc: Global,
    size: u32,
    shift: u32,
    turns: u64,
    blocks: ([u64; 4], [u64; 4]),
) -> Result<Option<([[u64; 3]; 4], [[u64; 3]; 4], [u64; 2])>, Fail>
    requires some { 1024 ≤ size }
    requires small { size ≤ 8192 }
    requires low { shift ≤ 13 }
{
    let sup = superblock(size, shift)?;
    if sup.block_size != size {
        return Ok(None);
    }
    if sup.num_blocks < 6 {
        return Ok(None);
    }
    let mut under = volume(alloc, size, size as usize - 5, [0; 4], 0)?;
    let mut open = Changed::new(alloc);
    let mut bitmap = Bitmap::of(alloc, &sup);
    let mut first = Stream::at(alloc, 4, &sup);
    let mut second = Stream::at(alloc, 5, &sup);
    let mut edits = Overlay::begin(&mut open, &mut under);
    let seen = seen(
        &mut first,
        &mut second,
        &mut bitmap,
        &mut edits,
        turns,
        blocks,
    );
    edits.drop_call();
    Ok(seen)
}

#[test]
fn a_stream_is_cut_at_the_end_of_each_level_for_each_size_of_blocks(
    rt: HostRuntime,
) -> Result<(), Fail> {
    let alloc = rt.alloc();
    // The size of blocks, the blocks of a whole run, the runs in a table, the first free block, and the last block of runs
    // of one block.
    let sizes: [(u32, u32, u64, u64, u64, u64); 4] = [
        (1024, 10, 4, 512, 8152, 9207),
        (2048, 11, 2, 512, 16344, 17395),
        (4096, 12, 1, 512, 32728, 33777),
        (8192, 13, 1, 1024, 65496, 67569),
    ];
    for (size, shift, whole, runs, low, high) in sizes {
        let last = 12 + runs;
        let cuts = ([last + 1, last, last + 9, 13], [12, 5, 9, 0]);
        let seen = cut_by_turns(alloc, size, shift, last + 1, cuts)?;
        let one = [
            [12, last, last + whole],
            [12, last, 0],
            [12, last, 0],
            [12, 13, 0],
        ];
        let two = [[12, 0, 0], [5, 0, 0], [5, 0, 0], [0, 0, 0]];
        let taken = [high + 6 * whole + 1, low];
        assert_eq!(rt; seen, Some((one, two, taken)));
    }
    Ok(())
}

/// A stream that has two long direct runs is cut inside of the second one, at its end and inside of the first one.
fn cut_inside<E: Edits>(
    stream: &mut Stream,
    bitmap: &mut Bitmap,
    edits: &mut E,
) -> Option<([[u64; 3]; 4], [u64; 2])>
    requires size { E.size edits.old ≡ stream.old.sizes.block_size }
    requires volume { IsOfVolume stream.old.sizes bitmap.old }
    requires last { bitmap.old.last < 1 }
    ensures frame { E.frame edits.new ≡ E.frame edits.old }
{
    grow(stream, bitmap, edits, 50).ok()?;
    let cuts = cuts(stream, bitmap, edits, [45, 40, 39, 38])?;
    let taken = freed_between(stream, bitmap, edits, [38, 39])?;
    Some((cuts, taken))
}

/// The same for a size of blocks.
fn cut_inside_of(
    alloc: Global,
    size: u32,
    shift: u32,
) -> Result<Option<([[u64; 3]; 4], [u64; 2])>, Fail>
    requires some { 1024 ≤ size }
    requires small { size ≤ 8192 }
    requires low { shift ≤ 13 }
{
    let sup = superblock(size, shift)?;
    if sup.block_size != size {
        return Ok(None);
    }
    if sup.num_blocks < 6 {
        return Ok(None);
    }
    let mut under = volume(alloc, size, size as usize - 5, [0; 4], 0)?;
    let mut open = Changed::new(alloc);
    let mut bitmap = Bitmap::of(alloc, &sup);
    let mut stream = Stream::at(alloc, 4, &sup);
    let mut edits = Overlay::begin(&mut open, &mut under);
    let seen = cut_inside(&mut stream, &mut bitmap, &mut edits);
    edits.drop_call();
    Ok(seen)
}

#[test]
fn a_run_is_cut_inside_and_what_went_is_free_once_it_was_released(
    rt: HostRuntime,
) -> Result<(), Fail> {
    let alloc = rt.alloc();
    let sizes: [(u32, u32, u64); 4] = [
        (1024, 10, 8192),
        (2048, 11, 16384),
        (4096, 12, 32768),
        (8192, 13, 65536),
    ];
    for (size, shift, group) in sizes {
        let seen = cut_inside_of(alloc, size, shift)?;
        let ends = [[45, 0, 0], [40, 0, 0], [39, 0, 0], [38, 0, 0]];
        let taken = [group + 10, group - 2];
        assert_eq!(rt; seen, Some((ends, taken)));
    }
    Ok(())
}
