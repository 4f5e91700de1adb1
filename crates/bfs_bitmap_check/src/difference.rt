// Where two lists of bits differ.
ghost use Rattle.std.specs.Prelude.{◌≤◌, ◌*◌, length};
ghost use Rattle.bfs_bitmap_check.specs.Bitmaps.{IsFirstDifference};

use bfs_claims::bit_is_clear;

/// The first of so many bits that differs in two lists of bytes; the number itself where none does.
pub(crate) fn first_difference(bytes: &[u8], bits: &[u8], to: usize) -> usize
    requires bytes { to ≤ 8 * length bytes.now }
    requires bits { to ≤ 8 * length bits.now }
    ensures { IsFirstDifference bytes.now bits.now to result }
{
    let mut at = 0;
    while at < to {
        if at % 8 == 0 && 8 <= to - at && bytes[at / 8] == bits[at / 8] {
            at += 8;
        } else {
            if bit_is_clear(bytes, at) != bit_is_clear(bits, at) {
                return at;
            }
            at += 1;
        }
    }
    at
}
