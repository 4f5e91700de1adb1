// The bytes of a stream that has none yet.
ghost use Rattle.std.specs.Prelude.{◌≡◌, ◌≤◌, ◌<◌, ◌+◌, ◌*◌, ◌^◌, ◌⊎◌, ℕ, List, true, pos, length, Option, Some, OnOk, IfOk, IfErr};
ghost use Rattle.bfs_base.specs.Lists.{IsOnce};
ghost use Rattle.bfs_super.specs.Conditions.{IsValid, natural};
ghost use Rattle.bfs_txn.specs.Faults.{AreLater};
ghost use Rattle.bfs_txn.specs.Told.{StaysChanged};
ghost use Rattle.bfs_stream.specs.Sizes.{sizes_of};
ghost use Rattle.bfs_stream.specs.Places.{places_at, whole_at};
ghost use Rattle.bfs_stream.specs.Told.{contents, Stands};
ghost use Rattle.bfs_stream.specs.Faults.{IsGrowCause};
ghost use Rattle.bfs_stream_pages.specs.Causes.{IsOfBlock};
ghost use Rattle.bfs_stream_pages.specs.Steps.{HasFilled, IsUndamaged};
ghost use Rattle.bfs_make.specs.Filled.{chunk, padded, IsFilled};
ghost use Rattle.bfs_make.specs.Sites.{stream_in};

use crate::site::{Site, has_short_blocks};
use bfs_stream::{GrowFault, Stream, StreamFault};
use bfs_txn::{BlockFault, Edits};
use std::alloc::{AllocError, Global};

/// The most blocks that an array has.
const LONGEST: u64 = 4;

/// A block of so many bytes that begins with these, with zeros behind them.
fn padded_block(alloc: Global, size: u32, part: &[u8]) -> Result<Vec<u8>, AllocError>
    requires { length part.now ≤ size }
    ensures { IfOk result (λ v. v.items ≡ padded size part.now) }
{
    let rest = vec![in alloc; 0u8; size as usize - part.len()]?;
    let mut block = Vec::new(alloc);
    block.extend_from_slice(part)?;
    block.extend_from_slice(&rest)?;
    Ok(block)
}

/// The bytes of the block at a place.
fn chunk_at(bytes: &[u8], size: u32, at: u64) -> &[u8]
    requires size { size ≤ 8192 }
    ensures { result.now ≡ chunk size bytes.now at }
{
    let len = bytes.len() as u64;
    let Some(from) = u64::from(size).checked_mul(at) else {
        return &bytes[bytes.len()..];
    };
    if from >= len {
        return &bytes[bytes.len()..];
    }
    let end = len.min(from + u64::from(size));
    &bytes[from as usize..end as usize]
}

/// Writes the bytes of the block at a place over that block of the stream, with zeros behind them. Tells whether it has one there.
fn fill_block<E: Edits>(
    site: Site,
    edits: &mut E,
    id: u64,
    bytes: &[u8],
    at: u64,
) -> Result<bool, GrowFault>
    requires valid { IsValid site.sup }
    requires inside { id < natural site.sup.num_blocks }
    requires size { E.size edits.old ≡ site.sup.block_size }
    ensures filled { (m : ℕ → Option (List ℕ)) → E.told edits.old ≡ Some m → Stands (stream_in site id) m → IfOk result (HasFilled (stream_in site id) m at (padded site.sup.block_size (chunk site.sup.block_size bytes.now at)) (E.told edits.new) (E.changed edits.old) (E.changed edits.new)) }
    ensures sound { (m : ℕ → Option (List ℕ)) → E.told edits.old ≡ Some m → Stands (stream_in site id) m → IfErr result IsUndamaged }
    ensures changed { (k : ℕ) → E.changed edits.new k ≡ true → (E.changed edits.old k ≡ true) ⊎ (k < natural site.sup.num_blocks) }
    ensures stays { StaysChanged (E.changed edits.old) (E.changed edits.new) }
    ensures size { E.size edits.new ≡ E.size edits.old }
    ensures frame { E.frame edits.new ≡ E.frame edits.old }
    ensures later { AreLater (E.counts edits.old) (E.counts edits.new) }
    ensures block { IfErr result IsOfBlock }
    ensures cause { IfErr result (IsGrowCause 1 (E.counts edits.old) (E.counts edits.new)) }
{
    has_short_blocks(site.sup);
    let part = chunk_at(bytes, site.sup.block_size, at);
    let block = match padded_block(site.alloc, site.sup.block_size, part) {
        Ok(block) => block,
        Err(_) => return Err(GrowFault::Block(BlockFault::NoMemory)),
    };
    let mut stream = Stream::at(site.alloc, id, &site.sup);
    let number = match stream.block(edits, at) {
        Ok(number) => number,
        Err(StreamFault::PastEnd { .. }) => return Ok(false),
        Err(StreamFault::Block(fault)) => return Err(GrowFault::Block(fault)),
    };
    match edits.set(number, &block) {
        Ok(()) => Ok(true),
        Err(_) => Err(GrowFault::Block(BlockFault::NoMemory)),
    }
}

/// Writes bytes over the blocks of a stream, with zeros behind them. The stream has at most an array's blocks more than so many.
#[tactic(auto, using(crate::proofs::Chunks::filled_none))]
pub(crate) fn fill<E: Edits>(
    site: Site,
    edits: &mut E,
    id: u64,
    bytes: &[u8],
    blocks: u64,
) -> Result<(), GrowFault>
    requires valid { IsValid site.sup }
    requires inside { id < natural site.sup.num_blocks }
    requires size { E.size edits.old ≡ site.sup.block_size }
    requires few { blocks < 2 ^ 63 }
    ensures filled { (m : ℕ → Option (List ℕ)) → E.told edits.old ≡ Some m → Stands (stream_in site id) m → IsOnce (whole_at (sizes_of site.sup) (contents m) id) → length (places_at (sizes_of site.sup) (contents m) id) ≤ blocks + 4 → length bytes.now ≤ site.sup.block_size * length (places_at (sizes_of site.sup) (contents m) id) → OnOk result (IsFilled (stream_in site id) m bytes.now (E.told edits.new) (E.changed edits.old) (E.changed edits.new)) }
    ensures sound { (m : ℕ → Option (List ℕ)) → E.told edits.old ≡ Some m → Stands (stream_in site id) m → IsOnce (whole_at (sizes_of site.sup) (contents m) id) → IfErr result IsUndamaged }
    ensures changed { (k : ℕ) → E.changed edits.new k ≡ true → (E.changed edits.old k ≡ true) ⊎ (k < natural site.sup.num_blocks) }
    ensures stays { StaysChanged (E.changed edits.old) (E.changed edits.new) }
    ensures size { E.size edits.new ≡ E.size edits.old }
    ensures frame { E.frame edits.new ≡ E.frame edits.old }
    ensures later { AreLater (E.counts edits.old) (E.counts edits.new) }
    ensures block { IfErr result IsOfBlock }
    ensures cause { IfErr result (IsGrowCause 1 (E.counts edits.old) (E.counts edits.new)) }
{
    for at in 0..blocks + LONGEST {
        match fill_block(site, edits, id, bytes, at) {
            Ok(true) => {}
            Ok(false) => return Ok(()),
            Err(fault) => return Err(fault),
        }
    }
    Ok(())
}
