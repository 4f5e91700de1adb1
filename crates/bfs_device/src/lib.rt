// A disk with a journal. Groups of changed blocks wait in a `Device`; each step of it makes one disk call of the first of them:
// into the log, a barrier, the gate, a barrier, home, a barrier, the tail, a barrier (specs/Steps.antt). Whatever a crash leaves
// at any moment is replayed to the version of the last durable group or of a later one: that is `IsRight` and `RecoversOne`, in
// specs/Books.antt, which every call keeps, failing ones too.
#![tactic(auto)]

mod calls;
mod data;
mod device;
mod disk_blocks;
mod journal;
mod look_up;
mod step;
mod turn;

pub use device::Device;
pub use disk_blocks::DiskBlocks;
pub use journal::{DeviceFault, Mark, Progress, Stop};
