// From a page of a stream to the block that has it.
ghost use Rattle.std.specs.Prelude.{◌≡◌, ◌≤◌, ◌<◌, ◌/◌, ℕ, List, Option, Some, IsSome, IfOk, IfErr, slice_get};
ghost use Rattle.bfs_super.specs.Conditions.{IsValid, natural};
ghost use Rattle.bfs_txn.specs.Faults.{AreLater};
ghost use Rattle.bfs_stream.specs.Faults.{HasNoBlock, IsDamagedAt, IsBlamedAt, IsStreamCause};
ghost use Rattle.bfs_stream.specs.Places.{places_at};
ghost use Rattle.bfs_stream.specs.Sizes.{sizes_of};
ghost use Rattle.bfs_stream.specs.Told.{Stands, contents};

use bfs_stream::{Stream, StreamFault};
use bfs_super::Super;
use bfs_txn::Blocks;
use std::alloc::Global;

/// The block of the volume in which the page at a byte of the stream of an inode stands: where a page that is damaged is to be looked for.
pub fn block_of_page<B: Blocks>(
    alloc: Global,
    under: &mut B,
    inode: u64,
    sup: &Super,
    page: u64,
) -> Result<u64, StreamFault>
    requires valid { IsValid sup.now }
    requires inside { inode < natural sup.now.num_blocks }
    requires size { B.size under.old ≡ sup.now.block_size }
    ensures found { (m : ℕ → Option (List ℕ)) → B.told under.old ≡ Some m → Stands (record { id = inode; sizes = sizes_of sup.now }) m → IfOk result (λ block. slice_get (places_at (sizes_of sup.now) (contents m) inode) (page / sup.now.block_size) ≡ Some block) }
    ensures none { (m : ℕ → Option (List ℕ)) → B.told under.old ≡ Some m → Stands (record { id = inode; sizes = sizes_of sup.now }) m → IfErr result (HasNoBlock (places_at (sizes_of sup.now) (contents m) inode) (page / sup.now.block_size)) }
    ensures damaged { (m : ℕ → Option (List ℕ)) → B.told under.old ≡ Some m → IsSome (m inode) → IfErr result (IsDamagedAt (record { id = inode; sizes = sizes_of sup.now }) m (page / sup.now.block_size)) }
    ensures blamed { IfErr result (IsBlamedAt (record { id = inode; sizes = sizes_of sup.now }) (B.last under.new) (page / sup.now.block_size)) }
    ensures below { IfOk result (λ block. block < natural sup.now.num_blocks) }
    ensures told { B.told under.new ≡ B.told under.old }
    ensures changed { B.changed under.new ≡ B.changed under.old }
    ensures pairs { B.pairs under.new ≡ B.pairs under.old }
    ensures size { B.size under.new ≡ B.size under.old }
    ensures frame { B.frame under.new ≡ B.frame under.old }
    ensures later { AreLater (B.counts under.old) (B.counts under.new) }
    ensures cause { IfErr result (IsStreamCause (B.counts under.old) (B.counts under.new)) }
{
    let place = place_of_byte(page, sup.block_size);
    let mut stream = Stream::at(alloc, inode, sup);
    stream.block(under, place)
}

/// The place of the block of a stream that has a byte.
fn place_of_byte(at: u64, block_size: u32) -> u64
    requires { 0 < block_size }
    ensures { result ≡ at / block_size }
{
    at / u64::from(block_size)
}
