// A disk in memory. It keeps a record of its writes and barriers, from which its crash images follow (specs/Memory.antt).
use std::alloc::{AllocError, Global};

/// What is kept of a write or a barrier: how many calls before it changed nothing, since the one before, and of a write the
/// bytes that it replaced.
#[derive(Drop)]
pub enum Call {
    Write {
        at: u64,
        replaced: Vec<u8>,
        idle: u64,
    },
    Barrier {
        idle: u64,
    },
}

mod crash;
mod disk;
mod parts;

pub use disk::MemDisk;
