// The journal's log: entries both ways, the arithmetic of its ring, and what replay gives. An entry is
// `IsEntry` or has the first fault `IsFault`, in specs/Entry.antt; `Replayed`, in specs/Replay.antt, says of
// an image what a replay of its log leaves. None of these calls takes memory.
#![tactic(auto)]

mod entry;
mod laws;
mod print;
mod read;
mod ring;

pub use entry::{EntryFault, Place, Runs};
pub use laws::{
    homes_stand_behind, replay_gives_one, replayed_image, replayed_superblock,
    stopped_replay_goes_on, walk_over_entries,
};
pub use print::log_print;
pub use read::log_entry;
pub use ring::{ring_next, ring_used};
