// The passes of a check over a volume that may hold anything, one after the other: the log, all nodes with their attributes, the indices, what
// they list, the bitmap, and the number of used blocks. Where all are passed the volume is sound with the tree that was gone over; else there is
// a finding that is true of it. What is answered stands in specs/Passed.antt.
#![tactic(auto)]

mod fault;
mod holding;
mod owners;
mod passes;
mod system;
mod walk;

pub use fault::PassFault;
pub use passes::{Summary, check_passes};
