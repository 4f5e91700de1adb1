// The call that writes an attribute: whether it is refused, how many blocks it may change, and the node has the attribute, in its small data or with an inode of its own,
// and the index of the attribute's name lists it under the attribute's key. What the volume then stands for is `IsAttributeWritten` in
// specs/Written.antt.
#![tactic(auto)]

mod allowance;
mod changing;
mod due;
mod laws;
mod leaving;
mod listing;
mod putting;
mod refusal;
mod writing;

pub use allowance::write_attr_allowance;
pub use bfs_attr_calls as attr_calls;
pub use bfs_attr_calls::calls as calls;
pub use laws::attribute_lists;
pub use refusal::attr_write_refusal;
pub use writing::write_attr;
