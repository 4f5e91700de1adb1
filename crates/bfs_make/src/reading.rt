// Blocks and the first bytes of a stream, as they are read.
ghost use Rattle.std.specs.Prelude.{◌≡◌, ◌≤◌, ◌<◌, ◌*◌, ◌++◌, ℕ, min, List, take, length, Option, Some, OnOk, IfOk, IfErr, IsSome, MatchResult, slice_get};
ghost use Rattle.std.specs.List.{flat_map};
ghost use Rattle.bfs_super.specs.Conditions.{IsValid, natural};
ghost use Rattle.bfs_txn.specs.Faults.{AreLater, IsCauseOf};
ghost use Rattle.bfs_stream.specs.Faults.{IsCauseIn};
ghost use Rattle.bfs_stream.specs.Places.{places_at};
ghost use Rattle.bfs_stream.specs.Scans.{IsDamage};
ghost use Rattle.bfs_stream.specs.Sizes.{sizes_of};
ghost use Rattle.bfs_stream.specs.Told.{contents, AreTold, Stands};
ghost use Rattle.bfs_make.specs.Sites.{stream_in};

use crate::{Site, has_long_blocks};
use bfs_stream::{Stream, StreamFault};
use bfs_txn::{BlockFault, Blocks};

/// The bytes of a block.
pub fn read_block<B: Blocks>(site: Site, under: &mut B, number: u64) -> Result<Vec<u8>, BlockFault>
    requires valid { IsValid site.sup }
    requires size { B.size under.old ≡ site.sup.block_size }
    ensures length { IfOk result (λ v. length v.items ≡ site.sup.block_size) }
    ensures long { 1024 ≤ site.sup.block_size }
    ensures read { (m : ℕ → Option (List ℕ)) → B.told under.old ≡ Some m → IsSome (m number) → IfOk result (λ v. v.items ≡ contents m number) }
    ensures told { B.told under.new ≡ B.told under.old }
    ensures changed { B.changed under.new ≡ B.changed under.old }
    ensures pairs { B.pairs under.new ≡ B.pairs under.old }
    ensures size { B.size under.new ≡ B.size under.old }
    ensures frame { B.frame under.new ≡ B.frame under.old }
    ensures later { AreLater (B.counts under.old) (B.counts under.new) }
    ensures cause { IfErr result (IsCauseOf (B.counts under.old) (B.counts under.new)) }
{
    has_long_blocks(site.sup);
    let mut bytes = match vec![in site.alloc; 0u8; site.sup.block_size as usize] {
        Ok(bytes) => bytes,
        Err(_) => return Err(BlockFault::NoMemory),
    };
    match under.get(number, &mut bytes) {
        Ok(()) => Ok(bytes),
        Err(fault) => Err(fault),
    }
}

/// The bytes of the block at a place of an inode's stream.
fn block_at<B: Blocks>(
    site: Site,
    under: &mut B,
    id: u64,
    index: u64,
) -> Result<Vec<u8>, BlockFault>
    requires valid { IsValid site.sup }
    requires inside { id < natural site.sup.num_blocks }
    requires size { B.size under.old ≡ site.sup.block_size }
    ensures length { IfOk result (λ v. length v.items ≡ site.sup.block_size) }
    ensures found { (m : ℕ → Option (List ℕ)) → B.told under.old ≡ Some m → Stands (stream_in site id) m → AreTold m (places_at (sizes_of site.sup) (contents m) id) → IfOk result (λ v. (n : ℕ) × (slice_get (places_at (sizes_of site.sup) (contents m) id) index ≡ Some n) × (v.items ≡ contents m n)) }
    ensures sound { (m : ℕ → Option (List ℕ)) → B.told under.old ≡ Some m → Stands (stream_in site id) m → index < length (places_at (sizes_of site.sup) (contents m) id) → IfErr result (λ fault. ¬ IsDamage fault) }
    ensures told { B.told under.new ≡ B.told under.old }
    ensures changed { B.changed under.new ≡ B.changed under.old }
    ensures pairs { B.pairs under.new ≡ B.pairs under.old }
    ensures size { B.size under.new ≡ B.size under.old }
    ensures frame { B.frame under.new ≡ B.frame under.old }
    ensures later { AreLater (B.counts under.old) (B.counts under.new) }
    ensures cause { IfErr result (IsCauseIn (B.counts under.old) (B.counts under.new)) }
{
    let mut stream = Stream::at(site.alloc, id, &site.sup);
    let number = match stream.block(under, index) {
        Ok(number) => number,
        Err(StreamFault::PastEnd { .. }) => return Err(BlockFault::Damaged { block: id }),
        Err(StreamFault::Block(fault)) => return Err(fault),
    };
    match read_block(site, under, number) {
        Ok(bytes) => Ok(bytes),
        Err(fault) => Err(fault),
    }
}

/// Adds the first bytes of the block at a place of an inode's stream, so many or all of them, and tells how many.
fn push_block<B: Blocks>(
    site: Site,
    under: &mut B,
    id: u64,
    index: u64,
    left: u64,
    bytes: &mut Vec<u8>,
) -> Result<u64, BlockFault>
    requires valid { IsValid site.sup }
    requires inside { id < natural site.sup.num_blocks }
    requires size { B.size under.old ≡ site.sup.block_size }
    ensures part { IfOk result (λ part. part ≡ min left site.sup.block_size) }
    ensures found { (m : ℕ → Option (List ℕ)) → B.told under.old ≡ Some m → Stands (stream_in site id) m → AreTold m (places_at (sizes_of site.sup) (contents m) id) → OnOk result ((n : ℕ) × (slice_get (places_at (sizes_of site.sup) (contents m) id) index ≡ Some n) × (bytes.new.items ≡ bytes.old.items ++ take (min left site.sup.block_size) (contents m n))) }
    ensures sound { (m : ℕ → Option (List ℕ)) → B.told under.old ≡ Some m → Stands (stream_in site id) m → index < length (places_at (sizes_of site.sup) (contents m) id) → IfErr result (λ fault. ¬ IsDamage fault) }
    ensures told { B.told under.new ≡ B.told under.old }
    ensures changed { B.changed under.new ≡ B.changed under.old }
    ensures pairs { B.pairs under.new ≡ B.pairs under.old }
    ensures size { B.size under.new ≡ B.size under.old }
    ensures frame { B.frame under.new ≡ B.frame under.old }
    ensures later { AreLater (B.counts under.old) (B.counts under.new) }
    ensures cause { IfErr result (IsCauseIn (B.counts under.old) (B.counts under.new)) }
{
    let block = match block_at(site, under, id, index) {
        Ok(block) => block,
        Err(fault) => return Err(fault),
    };
    let part = left.min(u64::from(site.sup.block_size));
    match bytes.extend_from_slice(&block[..part as usize]) {
        Ok(()) => Ok(part),
        Err(_) => Err(BlockFault::NoMemory),
    }
}

/// The first bytes of an inode's stream, so many.
pub fn stream_bytes<B: Blocks>(
    site: Site,
    under: &mut B,
    id: u64,
    size: u64,
) -> Result<Vec<u8>, BlockFault>
    requires valid { IsValid site.sup }
    requires inside { id < natural site.sup.num_blocks }
    requires size { B.size under.old ≡ site.sup.block_size }
    ensures found { (m : ℕ → Option (List ℕ)) → B.told under.old ≡ Some m → Stands (stream_in site id) m → AreTold m (places_at (sizes_of site.sup) (contents m) id) → size ≤ site.sup.block_size * length (places_at (sizes_of site.sup) (contents m) id) → MatchResult result (λ v. v.items ≡ take size (flat_map (contents m) (places_at (sizes_of site.sup) (contents m) id))) (λ fault. ¬ IsDamage fault) }
    ensures told { B.told under.new ≡ B.told under.old }
    ensures changed { B.changed under.new ≡ B.changed under.old }
    ensures pairs { B.pairs under.new ≡ B.pairs under.old }
    ensures size { B.size under.new ≡ B.size under.old }
    ensures frame { B.frame under.new ≡ B.frame under.old }
    ensures later { AreLater (B.counts under.old) (B.counts under.new) }
    ensures cause { IfErr result (IsCauseIn (B.counts under.old) (B.counts under.new)) }
{
    let mut bytes = Vec::new(site.alloc);
    let mut index = 0;
    let mut left = size;
    while left > 0 {
        let part = match push_block(site, under, id, index, left, &mut bytes) {
            Ok(part) => part,
            Err(fault) => return Err(fault),
        };
        index += 1;
        left -= part;
    }
    Ok(bytes)
}
