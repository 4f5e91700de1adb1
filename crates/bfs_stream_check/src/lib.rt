// Reads what the stream of an inode is, of a volume that may hold anything: its arrays and the runs of its blocks, where it keeps
// its format, and else a value that breaks it, with the one that is wanted there. What the parts of the reader answer stands in
// specs/Read.antt, and what the crates above ask of the blocks in specs/Known.antt.
#![tactic(auto)]

mod array;
mod bounds;
mod count;
mod fault;
mod level;
mod stream;
mod take;

pub use fault::{ReadFault, Wrong};
pub use stream::{StreamRuns, read_stream};
