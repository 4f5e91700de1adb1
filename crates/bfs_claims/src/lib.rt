// Which blocks of a volume are claimed: a bit for each, and how many there are. What the bits say stands in specs/Claims.antt,
// with what lists of blocks they stand for.
#![tactic(auto)]

mod bits;
mod claims;

pub use bits::bit_is_clear;
pub use claims::Claims;
