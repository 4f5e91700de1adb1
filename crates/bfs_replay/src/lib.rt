// Recovery: the log of a volume is replayed on its disk, so that whatever a crash left becomes the volume of its last durable
// group. It may itself be stopped at any moment, and run again.
#![tactic(auto)]

mod calls;
mod home;
mod log;
mod recovery;

pub use recovery::{Loaded, MountFault, load, recover};
