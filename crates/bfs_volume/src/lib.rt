// A volume: a space over a device with a journal. A call of the space reads what the device tells; what is sealed goes to the device; what has left the
// log is told to the space. What is true of the two together is `AreJoined` (`bfs_commit`, specs/Volumes.antt). Each function keeps it, and keeps Core from
// mounting on: the history is one of the plain tree, and whatever a crash leaves at any moment recovers to the tree after a prefix that holds all
// that a sync has acknowledged.
#![tactic(auto)]

mod among;
mod beside;
mod event;
mod volume;

pub use bfs_file_io::commit::SyncFault;
pub use bfs_file_io::space as space;
pub use bfs_mount::{Unmounted, check as check, mounts_bare, recovers_mounted};
pub use event::{Event, Happened};
pub use volume::Volume;
