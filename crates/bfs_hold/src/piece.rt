// The blocks that have the bytes of a piece of a file.
ghost use Rattle.std.specs.Prelude.{◌≡◌, ◌≤◌, ◌<◌, ◌+◌, ◌*◌, ◌/◌, ◌^◌, ℕ, List, take, drop, length, All, Option, Some, IsTrue, IsFalse, OnOk, IfOk, IfErr, MatchResult, slice_get};
ghost use Rattle.bfs_super.specs.Conditions.{IsValid, natural};
ghost use Rattle.bfs_txn.specs.Faults.{AreLater, Counts};
ghost use Rattle.bfs_stream.specs.Faults.{HasNoBlock, IsCauseIn, IsStreamCause};
ghost use Rattle.bfs_stream.specs.Places.{places_at};
ghost use Rattle.bfs_stream.specs.Scans.{IsDamage};
ghost use Rattle.bfs_stream.specs.Sizes.{sizes_of};
ghost use Rattle.bfs_stream.specs.Told.{Stands, contents};
ghost use Rattle.bfs_hold.specs.Places.{piece_blocks, piece_of, IsDataOf};

use bfs_make::{has_long_blocks, has_short_blocks};
use bfs_stream::{Stream, StreamFault};
use bfs_super::Super;
use bfs_txn::{BlockFault, Blocks};
use std::alloc::Global;

/// How many blocks have bytes of a piece.
fn piece_length(block_size: u64, at: u64, count: u64) -> u64
    requires some { 1 ≤ block_size }
    requires small { block_size ≤ 8192 }
    requires short { count ≤ 65536 }
    ensures { result ≡ piece_blocks block_size at count }
{
    if count == 0 {
        return 0;
    }
    (at % block_size + count + (block_size - 1)) / block_size
}

/// The place in a stream of the block that has a byte.
fn index_of(block_size: u64, at: u64) -> u64
    requires { 1024 ≤ block_size }
    ensures value { result ≡ at / block_size }
    ensures few { result < 2 ^ 54 }
{
    at / block_size
}

/// Whether a block is one of the volume that is neither block 0 nor one of the log.
fn is_data(sup: &Super, block: u64) -> bool
    requires { IsValid sup.now }
    ensures good { IsTrue result → IsDataOf sup.now block }
    ensures other { IsFalse result → ¬ IsDataOf sup.now block }
{
    let geometry = sup.geometry();
    let first = sup.block_of(sup.log_blocks);
    0 < block
        && (block < geometry.blocks
            && (block < first || first + u64::from(geometry.log.len) <= block))
}

/// Why a file has no block at a place: one below its size has, unless its inode isn't what was read.
fn not_there(id: u64, fault: StreamFault) -> BlockFault
    ensures cause { (old new : Counts) → IsStreamCause old new fault → IsCauseIn old new result }
    ensures found { (places : List ℕ) (index : ℕ) → HasNoBlock places index fault → index < length places → ¬ IsDamage result }
{
    match fault {
        StreamFault::PastEnd { .. } => BlockFault::Damaged { block: id },
        StreamFault::Block(fault) => fault,
    }
}

/// The block at a place of a file's stream.
fn block_at<B: Blocks>(
    alloc: Global,
    sup: &Super,
    under: &mut B,
    id: u64,
    index: u64,
) -> Result<u64, BlockFault>
    requires valid { IsValid sup.now }
    requires inside { id < natural sup.now.num_blocks }
    requires size { B.size under.old ≡ sup.now.block_size }
    ensures good { IfOk result (IsDataOf sup.now) }
    ensures found { (m : ℕ → Option (List ℕ)) → B.told under.old ≡ Some m → Stands (record { id = id; sizes = sizes_of sup.now }) m → All (IsDataOf sup.now) (places_at (sizes_of sup.now) (contents m) id) → index < length (places_at (sizes_of sup.now) (contents m) id) → MatchResult result (λ block. slice_get (places_at (sizes_of sup.now) (contents m) id) index ≡ Some block) (λ fault. ¬ IsDamage fault) }
    ensures told { B.told under.new ≡ B.told under.old }
    ensures changed { B.changed under.new ≡ B.changed under.old }
    ensures pairs { B.pairs under.new ≡ B.pairs under.old }
    ensures size { B.size under.new ≡ B.size under.old }
    ensures frame { B.frame under.new ≡ B.frame under.old }
    ensures later { AreLater (B.counts under.old) (B.counts under.new) }
    ensures cause { IfErr result (IsCauseIn (B.counts under.old) (B.counts under.new)) }
{
    let mut stream = Stream::at(alloc, id, sup);
    let block = match stream.block(under, index) {
        Ok(block) => block,
        Err(fault) => return Err(not_there(id, fault)),
    };
    if !is_data(sup, block) {
        return Err(BlockFault::Damaged { block: id });
    }
    Ok(block)
}

/// The blocks at so many places of a file's stream, the first of which is given, in order.
fn blocks_from<B: Blocks>(
    alloc: Global,
    sup: &Super,
    under: &mut B,
    id: u64,
    first: u64,
    blocks: u64,
    places: &mut Vec<u64>,
) -> Result<(), BlockFault>
    requires valid { IsValid sup.now }
    requires inside { id < natural sup.now.num_blocks }
    requires size { B.size under.old ≡ sup.now.block_size }
    requires first { first < 2 ^ 54 }
    requires few { blocks ≤ 65537 }
    ensures count { OnOk result (length places.new.items ≡ blocks) }
    ensures good { OnOk result (All (IsDataOf sup.now) places.new.items) }
    ensures found { (m : ℕ → Option (List ℕ)) → B.told under.old ≡ Some m → Stands (record { id = id; sizes = sizes_of sup.now }) m → All (IsDataOf sup.now) (places_at (sizes_of sup.now) (contents m) id) → first + blocks ≤ length (places_at (sizes_of sup.now) (contents m) id) → MatchResult result (λ u. places.new.items ≡ take blocks (drop first (places_at (sizes_of sup.now) (contents m) id))) (λ fault. ¬ IsDamage fault) }
    ensures told { B.told under.new ≡ B.told under.old }
    ensures changed { B.changed under.new ≡ B.changed under.old }
    ensures pairs { B.pairs under.new ≡ B.pairs under.old }
    ensures size { B.size under.new ≡ B.size under.old }
    ensures frame { B.frame under.new ≡ B.frame under.old }
    ensures later { AreLater (B.counts under.old) (B.counts under.new) }
    ensures cause { IfErr result (IsCauseIn (B.counts under.old) (B.counts under.new)) }
{
    places.clear();
    for k in 0..blocks {
        let block = match block_at(alloc, sup, under, id, first + k) {
            Ok(block) => block,
            Err(fault) => return Err(fault),
        };
        match places.push(block) {
            Ok(()) => {}
            Err(_) => return Err(BlockFault::NoMemory),
        }
    }
    Ok(())
}

/// Puts the blocks that have the bytes of a piece of a file, in order, in the place of what `places` held: the piece is `count` bytes from `at`
/// on. Each is a data block of the volume; a place that has none, or another one, is damage of the file's inode. The inode is read for each
/// block, and beside it one table of runs, or two under double indirect.
pub fn find_places<B: Blocks>(
    alloc: Global,
    sup: &Super,
    under: &mut B,
    id: u64,
    at: u64,
    count: u64,
    places: &mut Vec<u64>,
) -> Result<(), BlockFault>
    requires valid { IsValid sup.now }
    requires inside { id < natural sup.now.num_blocks }
    requires size { B.size under.old ≡ sup.now.block_size }
    requires short { count ≤ 65536 }
    ensures count { OnOk result (length places.new.items ≡ piece_blocks sup.now.block_size at count) }
    ensures good { OnOk result (All (IsDataOf sup.now) places.new.items) }
    ensures found { (m : ℕ → Option (List ℕ)) → B.told under.old ≡ Some m → Stands (record { id = id; sizes = sizes_of sup.now }) m → All (IsDataOf sup.now) (places_at (sizes_of sup.now) (contents m) id) → at + count ≤ sup.now.block_size * length (places_at (sizes_of sup.now) (contents m) id) → MatchResult result (λ u. places.new.items ≡ piece_of sup.now.block_size at count (places_at (sizes_of sup.now) (contents m) id)) (λ fault. ¬ IsDamage fault) }
    ensures told { B.told under.new ≡ B.told under.old }
    ensures changed { B.changed under.new ≡ B.changed under.old }
    ensures pairs { B.pairs under.new ≡ B.pairs under.old }
    ensures size { B.size under.new ≡ B.size under.old }
    ensures frame { B.frame under.new ≡ B.frame under.old }
    ensures later { AreLater (B.counts under.old) (B.counts under.new) }
    ensures cause { IfErr result (IsCauseIn (B.counts under.old) (B.counts under.new)) }
{
    has_long_blocks(*sup);
    has_short_blocks(*sup);
    let size = u64::from(sup.block_size);
    let first = index_of(size, at);
    let blocks = piece_length(size, at, count);
    blocks_from(alloc, sup, under, id, first, blocks, places)
}
