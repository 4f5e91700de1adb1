// How many blocks a stream has, by what its inode says.
ghost use Rattle.std.specs.Prelude.{◌≡◌, ◌<◌, ◌≤◌, ◌/◌, ℕ, List, length, Option, Some, IsSome, IfOk, IfErr};
ghost use Rattle.bfs_inode.specs.Inode.{stream_at};
ghost use Rattle.bfs_super.specs.Conditions.{IsValid, natural};
ghost use Rattle.bfs_super.specs.Geometry.{geometry_of};
ghost use Rattle.bfs_txn.specs.Faults.{AreLater, IsCauseOf};
ghost use Rattle.bfs_stream.specs.Places.{HasStream};
ghost use Rattle.bfs_stream.specs.Scans.{IsDamage, ends_of, last_end};
ghost use Rattle.bfs_stream.specs.Sizes.{sizes_of};
ghost use Rattle.bfs_stream.specs.Told.{contents};
ghost use Rattle.bfs_sound.specs.Inodes.{stream_blocks};
ghost use Rattle.bfs_shift.specs.Shifts.{volume_in};

use bfs_inode::InodeView;
use bfs_make::{Site, has_long_blocks, read_block};
use bfs_txn::{BlockFault, Blocks};

/// How many whole blocks stand before a byte, or none where it is negative.
fn blocks_before(byte: i64, size: u32) -> u64
    requires { 0 < size }
    ensures { result ≡ natural byte / size }
{
    if byte < 0 {
        0
    } else {
        byte as u64 / u64::from(size)
    }
}

/// Up to which of its blocks the last used level of a stream reaches, by the block of its inode.
fn stream_end(site: Site, block: &[u8]) -> u64
    requires valid { IsValid site.sup }
    requires long { 1024 ≤ length block.now }
    ensures { result ≡ last_end (ends_of (sizes_of site.sup) (stream_at block.now)) }
{
    has_long_blocks(site.sup);
    let size = site.sup.block_size;
    let inode = InodeView::over(block);
    let direct = blocks_before(inode.max_direct_range(), size);
    let indirect = blocks_before(inode.max_indirect_range(), size);
    let double = blocks_before(inode.max_double_indirect_range(), size);
    direct.max(indirect).max(double)
}

/// How many blocks the stream of an inode has, its array blocks not among them. The inode's block alone is read.
pub fn stream_blocks_of<B: Blocks>(site: Site, under: &mut B, inode: u64) -> Result<u64, BlockFault>
    requires valid { IsValid site.sup }
    requires size { B.size under.old ≡ site.sup.block_size }
    ensures counted { (m : ℕ → Option (List ℕ)) → B.told under.old ≡ Some m → IsSome (m inode) → HasStream (sizes_of site.sup) (contents m) inode → IfOk result (λ n. n ≡ length (stream_blocks (volume_in (geometry_of site.sup) m) inode)) }
    ensures sound { IfErr result (λ fault. ¬ IsDamage fault) }
    ensures told { B.told under.new ≡ B.told under.old }
    ensures changed { B.changed under.new ≡ B.changed under.old }
    ensures pairs { B.pairs under.new ≡ B.pairs under.old }
    ensures size { B.size under.new ≡ B.size under.old }
    ensures frame { B.frame under.new ≡ B.frame under.old }
    ensures later { AreLater (B.counts under.old) (B.counts under.new) }
    ensures cause { IfErr result (IsCauseOf (B.counts under.old) (B.counts under.new)) }
{
    match read_block(site, under, inode) {
        Ok(block) => Ok(stream_end(site, &block)),
        Err(fault) => Err(fault),
    }
}
