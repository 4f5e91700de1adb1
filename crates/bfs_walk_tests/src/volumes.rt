// Volumes of blocks of 1,024 bytes in memory, made by hand.
ghost use Rattle.std.specs.Prelude.{◌≡◌, ◌<◌, length, true};
ghost use Rattle.bfs_super.specs.Conditions.{natural};

use bfs_bytes::{Run, put_i64, put_run, put_u32};
use bfs_super::Super;
use bfs_txn::MemBlocks;
use bfs_volume_fixtures::run;

/// Blocks of 1,024 bytes over these.
pub(crate) fn over(bytes: Vec<u8>) -> MemBlocks
    requires { length bytes.items ≡ 16384 }
    ensures { result.block_size ≡ 1024 }
{
    MemBlocks::new(bytes, 1024)
}

/// Has the volume the blocks that are meant?
pub(crate) fn is_meant(sup: Super) -> bool
    ensures size { result ≡ true → sup.block_size ≡ 1024 }
    ensures blocks { result ≡ true → natural sup.num_blocks ≡ 16 }
{
    if sup.block_size != 1024 || sup.num_blocks != 16 {
        return false;
    }
    true
}

/// Writes an inode with this mode, whose stream is one run of so many bytes.
pub(crate) fn put_inode(bytes: &mut [u8], block: u16, mode: u32, blocks: Run, size: i64)
    requires size { length bytes.old ≡ 16384 }
    requires inside { block < 16 }
    ensures { length bytes.new ≡ 16384 }
{
    let at = 1024 * usize::from(block);
    put_u32(bytes, at, 0x3bbe0ad9);
    put_run(bytes, at + 4, run(block, 1));
    put_u32(bytes, at + 20, mode);
    put_u32(bytes, at + 24, 1);
    put_u32(bytes, at + 64, 1024);
    put_run(bytes, at + 72, blocks);
    put_i64(bytes, at + 168, size);
    put_i64(bytes, at + 208, size);
}

/// Writes the header of the directory's tree.
pub(crate) fn put_header(bytes: &mut [u8])
    requires size { length bytes.old ≡ 16384 }
    ensures { length bytes.new ≡ 16384 }
{
    put_u32(bytes, 7168, 0x69f6c2e8);
    put_u32(bytes, 7172, 1024);
    put_u32(bytes, 7176, 1);
    put_i64(bytes, 7184, 1024);
    put_i64(bytes, 7192, -1);
    put_i64(bytes, 7200, 2048);
}

/// Writes the names of the only leaf: `.`, `..`, `a` and `b`.
pub(crate) fn put_leaf(bytes: &mut [u8])
    requires size { length bytes.old ≡ 16384 }
    ensures { length bytes.new ≡ 16384 }
{
    put_i64(bytes, 8192, -1);
    put_i64(bytes, 8200, -1);
    put_i64(bytes, 8208, -1);
    put_u32(bytes, 8216, 0x50004);
    put_u32(bytes, 8220, 0x612e2e2e);
    put_u32(bytes, 8224, 0x62);
    put_u32(bytes, 8232, 0x30001);
    put_u32(bytes, 8236, 0x50004);
}

/// Writes the values of the four rows, of which `b` has this one.
pub(crate) fn put_values(bytes: &mut [u8], other: i64)
    requires size { length bytes.old ≡ 16384 }
    ensures { length bytes.new ≡ 16384 }
{
    put_i64(bytes, 8240, 6);
    put_i64(bytes, 8248, 4);
    put_i64(bytes, 8256, 9);
    put_i64(bytes, 8264, other);
}
