// A device with a journal as blocks that a call of a space reads. A `DeviceBlocks` borrows the device for the time of one call.
// It tells, at each block of data, the newest sealed group's bytes or else the disk's (`newest_map`), and nothing where the disk
// tells nothing. What any number of reads leaves of the device is `HasBeenRead` in specs/Lent.antt: its books have only rested, and
// what a crash might have left since a moment stays covered, so that Core holds again when the device is given back. What stands
// beside a borrow can only be a proposition, so Core's half on time is held as one (`HasCore`), and each event keeps that. That a
// space stands over what is told is `StandsOver` in specs/Faced.antt.
#![tactic(auto)]

mod blocks;
mod held;
mod laws;

pub use blocks::DeviceBlocks;
pub use held::{
    core_is_held, entry_is_held, move_is_held, release_is_held, seal_is_held, write_is_held,
};
pub use laws::{
    core_is_read, core_stands_over, fit_is_read, newest_is_sealed, newest_is_written, newest_stays,
};
