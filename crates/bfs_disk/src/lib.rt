// A disk of sectors, as the layers above see it: what a read gives, and what a crash may leave at each
// moment (specs/State.antt, specs/Disk.antt). Two disks: in memory with a record of its calls, and over a file.
#![tactic(auto)]

mod disk;
mod file;
mod memory;
mod stopping;

pub use disk::{Disk, Failed};
pub use file::{FileDisk, FileFailure};
pub use memory::MemDisk;
pub use stopping::Stopping;
