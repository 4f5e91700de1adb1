// Indices: pairs of a key and an id, in trees whose values mean the ids of a key, in the streams of inodes. What an index is stands
// in specs/Indices.antt, and why a call on one is refused in specs/Refused.antt.
#![tactic(auto)]

mod adding;
mod changing;
mod found;
mod index;
mod laws;
mod taking;

pub use found::{Pair, Pairs};
pub use index::Index;
pub use laws::{added_is_written, pairs_ascend, taken_is_written, written_is_unique};
