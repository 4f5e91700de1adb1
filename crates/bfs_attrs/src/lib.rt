// The attributes of an inode, changed as a map: one is taken, wherever it stands, and one is put where it belongs, whether or not
// there was one of its name. What was taken with the attribute directory is in specs/Last.antt, why none was taken in
// specs/Removed.antt, what the steps that take leave in specs/Laws.antt, and what those that put leave, and why none was put, in
// specs/Stored.antt, specs/Put.antt and specs/Replaced.antt. What an attribute leaves that moves out of small data is in
// specs/Moved.antt.
#![tactic(auto)]

mod attrs;
mod last;
mod laws;
mod moving;
mod putting;
mod replacing;
mod rows;
mod storing;
mod taking;

pub use attrs::AttrsMut;
pub use laws::{last_leaves, longest_can_move, others_stay};
pub use moving::move_out;
pub use putting::put_new;
pub use replacing::put;
pub use taking::take;
