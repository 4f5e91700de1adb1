// The steps of a call that takes something out of a volume: a row leaves its directory, a node its index, and a node the tree, whose
// blocks are given back. Each is a function over blocks that can be changed; its contract speaks of the volume within the call.
#![tactic(auto)]

mod counting;
mod giving;
mod laws;
mod listing;
mod names;

pub use counting::stream_blocks_of;
pub use giving::{give_bare, give_inodes, keeps_target};
pub use laws::{call_is_left, gives_back_twice, goes_on_gives};
pub use listing::unlist_where;
pub use names::take_name;
