// A node leaves the tree with all that is its own: its attribute directory and its attributes are inodes with streams, and all of their
// blocks are given back with its own. Which inodes these are is `stream_inodes` in specs/Whole.antt, and what such a step has kept of the
// volume is `IsLeft` in the specs/Leaving.antt of bfs_leave.
#![tactic(auto)]

mod counting;
mod giving;
mod inodes;

pub use bfs_calls as calls;
pub use counting::streams_length;
pub use giving::give_node;
pub use inodes::{stands_alone, stream_inodes};
