// Whether what a call changed may go into a group.
ghost use Rattle.std.specs.Prelude.{◌≡◌, ◌≢◌, ◌≤◌, ◌<◌, ◌+◌, ◌/◌, ◌⊎◌, ℕ, IsTrue, IsFalse, OnOk, IfErr, length};
ghost use Rattle.bfs_super.specs.Conditions.{IsValid};
ghost use Rattle.bfs_device.specs.Layouts.{is_data, layout_of, ring_count};
ghost use Rattle.bfs_replies.specs.Kept.{AreFit, IsUnfit};

use bfs_answers::Allowance;
use bfs_bitmap::Bitmap;
use bfs_super::Super;
use bfs_txn::{Blocks, Overlay};
use thiserror::Error;

/// Why what a call changed isn't kept: it changed this block, which no group may have, so that what was read of the volume is
/// damaged; or so many blocks, which with those of the open group are more than the log has room for; or it changed or took more than it is allowed.
#[derive(Clone, Copy, Debug, PartialEq, Eq, Error)]
pub enum Unkept {
    #[error("block {0} can't be changed by a call")]
    Damaged(u64),
    #[error("{0} blocks are more than the log takes")]
    TooMany(u64),
    #[error("the call changed or took more blocks than it may")]
    Beyond,
}

/// Whether a block is one of the volume that is neither block 0 nor one of the log.
fn is_data_of(sup: &Super, block: u64) -> bool
    requires { IsValid sup.now }
    ensures { result ≡ is_data (layout_of sup.now) block }
{
    let geometry = sup.geometry();
    let first = sup.block_of(sup.log_blocks);
    0 < block
        && (block < geometry.blocks
            && (block < first || first + u64::from(geometry.log.len) <= block))
}

/// How many blocks of the log so many changed blocks take.
fn in_ring(blocks: usize) -> usize
    requires { blocks < 65536 }
    ensures { result ≡ blocks + (blocks + 125) / 126 }
{
    blocks + (blocks + 125) / 126
}

/// Whether a call may change no more blocks than it did, behind `mark` pairs of an open group, and use no more; and none more where it changed none.
fn is_within<B: Blocks>(
    overlay: &Overlay<'_, B>,
    bitmap: &Bitmap,
    mark: usize,
    was: u64,
    allowed: Allowance,
) -> bool
    requires mark { mark ≤ length overlay.now.group.now }
    ensures few { IsTrue result → length overlay.now.group.now ≤ mark + allowed.logged }
    ensures rise { IsTrue result → bitmap.now.tally.used ≤ was + allowed.taken }
    ensures idle { IsTrue result → length overlay.now.group.now ≡ 0 → bitmap.now.tally.used ≡ was }
    ensures not { IsFalse result → (mark + allowed.logged < length overlay.now.group.now) ⊎ (was + allowed.taken < bitmap.now.tally.used) ⊎ ((length overlay.now.group.now ≡ 0) × (bitmap.now.tally.used ≢ was)) }
{
    let changed = (overlay.pairs() - mark) as u64;
    if changed > allowed.logged {
        return false;
    }
    let used = bitmap.used();
    if overlay.pairs() == 0 && used != was {
        return false;
    }
    used <= was || used - was <= allowed.taken
}

/// Whether the blocks that a call changed, behind `mark` pairs of an open group, may go into a group, with the bitmap that it left; so many
/// blocks were used before it, and so many it is allowed.
pub fn may_be_kept<B: Blocks>(
    overlay: &Overlay<'_, B>,
    sup: &Super,
    bitmap: &Bitmap,
    mark: usize,
    was: u64,
    allowed: Allowance,
) -> Result<(), Unkept>
    requires valid { IsValid sup.now }
    requires mark { mark ≤ length overlay.now.group.now }
    ensures ok { OnOk result (AreFit (layout_of sup.now) overlay.now.group.now mark) }
    ensures few { OnOk result (length overlay.now.group.now ≤ mark + allowed.logged) }
    ensures rise { OnOk result (bitmap.now.tally.used ≤ was + allowed.taken) }
    ensures idle { OnOk result (length overlay.now.group.now ≡ 0 → bitmap.now.tally.used ≡ was) }
    ensures err { IfErr result (IsUnfit (layout_of sup.now) allowed was bitmap.now.tally.used overlay.now.group.now mark) }
{
    if !is_within(overlay, bitmap, mark, was, allowed) {
        return Err(Unkept::Beyond);
    }
    let pairs = overlay.pairs();
    let room = usize::from(sup.log_blocks.len);
    if pairs >= room || in_ring(pairs) >= room {
        return Err(Unkept::TooMany((pairs - mark) as u64));
    }
    for i in mark..pairs {
        let block = overlay.block(i);
        if !is_data_of(sup, block) {
            return Err(Unkept::Damaged(block));
        }
    }
    Ok(())
}
