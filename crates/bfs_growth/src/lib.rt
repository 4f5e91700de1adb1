// How a stream grows: a run is taken from the bitmap and written behind the runs of the level that has room, and a level that begins gets its array. What a
// stream has that has grown is `HasGrownBy` in specs/Grown.antt of `bfs_stream`, and why it has not grown `IsGrowFault` in specs/Faults.antt there.
#![tactic(auto)]

mod adding;
mod next;

pub use next::{grow, room_left};
