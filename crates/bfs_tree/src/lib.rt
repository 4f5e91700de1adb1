// The plain tree of a volume: nodes, attributes and indices, and what every call means, without a disk.
// The definitions stand in specs/: Trees, Refusals, Answers, Changes, Steps and Histories.
#![tactic(auto)]

mod bytes;
mod call;
mod keys;
mod kinds;
mod laws;
mod names;
mod reply;
mod rows;
mod same;
mod state;

pub use bfs_base::KeyKind;
pub use bytes::{Attributes, Bytes, FoundRows, Indices, Names};
pub use call::{Call, Kind, MakeKind};
pub use keys::{code_of, is_float, is_kind, key_of_bytes, key_order};
pub use laws::{
    drawn_is_later, empty_is_plain, history_keeps_plain, inside_is_below, key_depends_on,
    legal_goes_on, listed_ascends, listed_has, listed_is_unique, listed_kept, listed_moves,
    listed_put, listed_stays, listed_taken, moved_has, prefix_is_legal, refusal_is_unique,
    state_is_determined, step_keeps_indices, step_keeps_plain,
};
pub use names::{
    BY_NAME, BY_SIZE, BY_TIME, is_bad_attribute_name, is_bad_name, is_bad_target, is_built_in,
};
pub use reply::{Entry, Info, Reply};
pub use rows::{AttributeRow, FoundRow, IndexRow, Key};
pub use state::Hold;
