// The parts of a crash image of a disk in memory.
ghost use Rattle.std.specs.Prelude.{◌≡◌, ◌*◌, ◌/◌, ◌%◌, ◌^◌, ◌<◌, ◌+◌, ◌≤◌, ◌==◌, ℕ, true, length, IfOk, if◌then◌else◌};
ghost use Rattle.bfs_base.specs.Images.{sector, overwritten};
ghost use Rattle.bfs_disk.specs.Memory.{is_record, kept_bytes};

use crate::memory::Call;
use std::alloc::{AllocError, Global};
use std::collections::VecDeque;

// Writes bytes over those from this sector on.
fn put(image: &mut [u8], at: u64, from: &[u8])
    requires { 512 * at + length from.now ≤ length image.old }
    ensures { image.new ≡ overwritten at from.now image.old }
{
    let start = 512 * at as usize;
    image[start..start + from.len()].copy_from_slice(from);
}

/// The bytes as the last barrier left them.
pub fn kept(alloc: Global, bytes: &[u8], calls: &VecDeque<Call>) -> Result<Vec<u8>, AllocError>
    requires { is_record calls.now.items bytes.now ≡ true }
    ensures { IfOk result (λ v. v.items ≡ kept_bytes calls.now.items bytes.now) }
{
    let mut image = bytes.to_vec(alloc)?;
    for at in 0..calls.len() {
        match &calls[at] {
            Call::Write {
                at: place,
                replaced,
                idle: _,
            } => put(&mut image, *place, replaced),
            Call::Barrier { idle: _ } => break,
        }
    }
    Ok(image)
}

/// The image with the newest content of each sector that is picked.
pub fn picked(mut image: Vec<u8>, newest: &[u8], pick: u64) -> Vec<u8>
    requires same { length image.items ≡ length newest.now }
    requires whole { length newest.now ≡ 512 * (length newest.now / 512) }
    ensures size { length result.items ≡ length newest.now }
    ensures each { (k : ℕ) → k < length newest.now / 512 → sector k result.items ≡ (if pick / 2 ^ (k % 64) % 2 == 1 then sector k newest.now else sector k image.items) }
{
    for k in 0..newest.len() / 512 {
        if (pick >> (k % 64)) % 2 == 1 {
            put(&mut image, k as u64, &newest[512 * k..512 * k + 512]);
        }
    }
    image
}
