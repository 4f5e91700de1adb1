// Core: a space and the device below it, as plain data. The definitions stand in specs/, in the order of specs/Lib.antt: a space
// and its Face, Core itself, what a crash since each mark might have left, and what a space and a device say each by itself over
// one story. The functions are laws over them, one for each event, and do nothing.
#![tactic(auto)]

mod bytes;
mod kept;
mod laws;
mod pairs;

pub use bytes::{
    file_is_data, known_goes_on, known_is_entered, known_is_half_written, known_is_opened,
    known_is_released, known_is_sealed, known_is_written, written_is_half,
};
pub use kept::{
    entry_is_kept, fit_is_core, fit_is_longer, fit_is_moved, fit_is_sealed, fit_is_written,
    mount_is_kept, move_is_kept, release_is_kept, seal_is_kept, write_is_kept,
};
pub use laws::{
    all_recovers, core_comes_back, core_goes_on, core_is_entered, core_is_mounted, core_is_opened,
    core_is_ordered, core_is_released, core_is_sealed, core_is_whole, core_may_seal, core_recovers,
    core_reserves, newest_is_sized, note_is_entered, piece_is_apart, piece_is_kept, step_touches,
    version_recovers,
};
pub use pairs::{
    device_goes_on, device_is_longer, device_is_written, device_recovers, device_tells,
    device_writes_apart, pair_is_core, pair_is_opened, pair_is_sealed, space_is_entered,
    space_is_raised, space_is_released, story_is_raised,
};
