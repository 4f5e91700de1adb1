// The passes of a check that look at the superblock alone: is it valid, is the log empty, and does it count the blocks that are
// reached?
#![tactic(auto)]

mod passes;

pub use passes::{check_log, check_super, check_used};
