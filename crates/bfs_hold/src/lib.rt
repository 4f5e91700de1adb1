// The call that holds a piece of a file to be read or written: its refusals, the stamps of a file that is to be written, and the blocks that
// have the piece's bytes. The bytes themselves aren't read or written here.
#![tactic(auto)]

mod allowance;
mod piece;
mod refusal;
mod stamps;
mod writing;

pub use allowance::hold_allowance;
pub use bfs_set_size as set_size;
pub use piece::find_places;
pub use refusal::hold_refusal;
pub use writing::hold_to_write;
