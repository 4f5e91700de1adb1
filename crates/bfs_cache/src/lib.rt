// Blocks of a disk that were read, of which a bounded number is kept. A block that is read with a cache is the one that is read
// without, where what is kept agrees with the disk (specs/Agreement.antt); one that is kept takes no disk call.
#![tactic(auto)]

mod cache;
mod kept_bytes;
mod laws;

pub use cache::Cache;
pub use laws::{barrier_keeps, failed_write_keeps, write_keeps};
