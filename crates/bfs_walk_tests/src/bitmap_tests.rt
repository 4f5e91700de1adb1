// Bitmaps of a volume of 20,480 blocks of 1,024 bytes, of which some are claimed.
ghost use Rattle.std.specs.Prelude.{◌≡◌, ◌<◌, IfOk, length};
ghost use Rattle.bfs_super.specs.Conditions.{IsValid, natural};

use bfs_bitmap_check::{BitFault, check_bitmap};
use bfs_bytes::Run;
use bfs_claims::Claims;
use bfs_super::Super;
use bfs_txn::MemBlocks;
use bfs_volume_fixtures::small_superblock;
use std::alloc::{AllocError, Global};
use std::test::Fail;

fn run(group: i32, start: u16, len: u16) -> Run {
    Run { group, start, len }
}

/// Four blocks, of which the last three are a bitmap that marks the blocks 0 to 15, 8,192 and 20,479, and bits past the volume's end.
/// The byte at a place of the bitmap is another one.
fn bitmap(alloc: Global, size: usize, at: usize, byte: u8) -> Result<Vec<u8>, AllocError>
    requires size { size ≡ 4096 }
    requires inside { at < 3072 }
    ensures { IfOk result (λ v. length v.items ≡ 4096) }
{
    let mut bytes = vec![in alloc; 0u8; size]?;
    let slice = bytes.as_mut_slice();
    slice[1024] = 255;
    slice[1025] = 255;
    slice[2048] = 1;
    slice[3583] = 128;
    slice[3584] = 255;
    slice[1024 + at] = byte;
    Ok(bytes)
}

/// The blocks 0 to 15, 8,192 and 20,479 are claimed.
fn claims(alloc: Global) -> Result<Claims, AllocError>
    ensures { IfOk result (λ c. c.blocks ≡ 20480) }
{
    let mut claims = Claims::new(alloc, 20480)?;
    let _ = claims.claim(0, 16);
    let _ = claims.claim(8192, 1);
    let _ = claims.claim(20479, 1);
    Ok(claims)
}

/// What is found with another byte at a place of the bitmap.
fn found(
    alloc: Global,
    sup: &Super,
    claims: &Claims,
    at: usize,
    byte: u8,
) -> Result<Option<BitFault>, AllocError>
    requires valid { IsValid sup.now }
    requires size { sup.now.block_size ≡ 1024 }
    requires blocks { claims.now.blocks ≡ natural sup.now.num_blocks }
{
    if at >= 3072 {
        return Ok(None);
    }
    let bytes = bitmap(alloc, 4096, at, byte)?;
    let mut under = MemBlocks::new(bytes, 1024);
    match check_bitmap(alloc, &mut under, sup, claims) {
        Ok(()) => Ok(None),
        Err(fault) => Ok(Some(fault)),
    }
}

#[test]
fn the_first_bit_that_differs_is_told_with_its_way(rt: HostRuntime) -> Result<(), Fail> {
    let alloc = rt.alloc();
    let sup = small_superblock(20480, 3, [run(0, 4, 512), run(0, 600, 1), run(0, 601, 1)])?;
    assert_eq!(rt; sup.block_size, 1024);
    assert_eq!(rt; sup.num_blocks, 20480);
    let claims = claims(alloc)?;
    let rows: [(usize, u8, Option<BitFault>); 8] = [
        (0, 255, None),
        (0, 0b1110_1111, Some(BitFault::Unset { block: 4 })),
        (1, 0b0111_1111, Some(BitFault::Unset { block: 15 })),
        (2, 0b0001_1000, Some(BitFault::Extra { block: 19 })),
        (1024, 0, Some(BitFault::Unset { block: 8192 })),
        (1025, 128, Some(BitFault::Extra { block: 8207 })),
        (2559, 0b1100_0000, Some(BitFault::Extra { block: 20478 })),
        // bits past the volume's end
        (2560, 0, None),
    ];
    for (at, byte, wanted) in rows {
        assert_eq!(rt; found(alloc, &sup, &claims, at, byte)?, wanted);
    }
    Ok(())
}
