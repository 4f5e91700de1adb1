// What goes before a volume is opened: its log is replayed, and it is checked (src/mount.rt). What is told of an image that isn't mounted, and what is known of one
// that is, stands in specs/Mounts.antt.
#![tactic(auto)]

mod laws;
mod mount;

pub use bfs_check as check;
pub use laws::{mounts_bare, recovers_mounted};
pub use mount::{Unmounted, replay_and_check};
