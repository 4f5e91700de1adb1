// Runs that are claimed one after the other.
use bfs_claims::Claims;
use std::alloc::{AllocError, Global};
use std::test::Fail;

/// Claims a run where it lies inside: whether it was claimed, or the block that was claimed before.
fn claim(claims: &mut Claims, first: u64, len: u64) -> Option<Result<(), u64>> {
    let blocks = claims.blocks();
    if first > blocks || len > blocks - first {
        return None;
    }
    Some(claims.claim(first, len))
}

/// A bit for each of the first 24 blocks, the lowest first.
fn bits_of(claims: &Claims) -> u64 {
    let mut bits = 0;
    let blocks = claims.blocks();
    for block in 0..24u64 {
        if block < blocks && claims.is_claimed(block) {
            bits |= 1 << block;
        }
    }
    bits
}

/// The claims of 21 blocks, of which some runs are claimed.
fn some_claims(alloc: Global) -> Result<Claims, AllocError> {
    let mut claims = Claims::new(alloc, 21)?;
    let _ = claim(&mut claims, 0, 1);
    let _ = claim(&mut claims, 3, 15);
    Ok(claims)
}

#[test]
fn runs_are_claimed_with_their_number(rt: HostRuntime) -> Result<(), Fail> {
    let mut claims = some_claims(rt.alloc())?;
    assert_eq!(rt; bits_of(&claims), 0b0_0011_1111_1111_1111_1001);
    assert_eq!(rt; claims.count(), 16);
    assert_eq!(rt; claim(&mut claims, 20, 1), Some(Ok(())));
    assert_eq!(rt; claim(&mut claims, 1, 2), Some(Ok(())));
    assert_eq!(rt; bits_of(&claims), 0b1_0011_1111_1111_1111_1111);
    assert_eq!(rt; claims.count(), 19);
    Ok(())
}

#[test]
fn the_first_block_that_is_claimed_already_is_told_and_nothing_is_claimed(
    rt: HostRuntime,
) -> Result<(), Fail> {
    let mut claims = some_claims(rt.alloc())?;
    assert_eq!(rt; claim(&mut claims, 1, 20), Some(Err(3)));
    assert_eq!(rt; claim(&mut claims, 17, 3), Some(Err(17)));
    assert_eq!(rt; claim(&mut claims, 0, 1), Some(Err(0)));
    assert_eq!(rt; claim(&mut claims, 18, 4), None);
    assert_eq!(rt; bits_of(&claims), 0b0_0011_1111_1111_1111_1001);
    assert_eq!(rt; claims.count(), 16);
    Ok(())
}
