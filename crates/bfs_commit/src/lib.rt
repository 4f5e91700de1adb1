// A space over a device with a journal, as functions over the two: a call and a sync (src/calls.rt), a step of the device and a seal (src/events.rt), and what
// brings all that waits home (src/settling.rt). What is true of the two together is `AreJoined` in specs/Volumes.antt; each function keeps it, keeps Core from
// mounting on, and leaves the pieces that sessions hold (`IsOpen` in specs/Open.antt).
#![tactic(auto)]

mod calls;
mod events;
mod notes;
mod settling;

pub use bfs_space as space;
pub use calls::{answer, make_room, prepare, sync};
pub use events::{SyncFault, ask, seal, step};
pub use notes::{as_reply, note};
pub use settling::{rest, settle};
