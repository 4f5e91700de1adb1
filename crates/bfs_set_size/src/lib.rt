// The call that gives a file a size: its stream is cut, and blocks are given back, or it grows by free blocks that aren't written; then the
// indices list it under its new size and stamp. What such a call has kept of the volume is `Resizes` in specs/Resizing.antt.
#![tactic(auto)]

mod allowance;
mod cutting;
mod fault;
mod growing;
mod laws;
mod refusal;
mod relisting;
mod resizing;
mod setting;
mod sizes;

pub use allowance::{SizeAllowance, array_length, set_size_allowance};
pub use cutting::cut_file;
pub use growing::grow_file;
pub use laws::{goes_on_resizes, resizes_twice, resizing_is_left, sized_is_left};
pub use refusal::set_size_refusal;
pub use relisting::relist;
pub use resizing::resize;
pub use setting::set_size;
pub use sizes::put_file_size;
