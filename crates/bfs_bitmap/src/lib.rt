// The free space of a volume: a bitmap on the disk, and the runs that were given back and aren't free yet. Free runs
// and what is kept beside the disk stand in specs/Runs, bits in lists of bytes in specs/Bits.
#![tactic(auto)]

mod bitmap;
mod bits;
mod fault;
mod fill;
mod give;
mod given;
mod laws;
mod reserved;
mod runs;
mod search;
mod take;
mod tally;
mod window;

pub use bitmap::Bitmap;
pub use fault::RunFault;
pub use given::Given;
pub use laws::{few_bits_change, few_runs_are_lost};
pub use tally::Tally;
