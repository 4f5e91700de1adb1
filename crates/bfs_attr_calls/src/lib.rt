// The calls that change a node's attributes: an attribute is removed, and the index that listed the node under it lists it no more. What
// the volume stands for since a change of attributes is in specs/Laws.antt.
#![tactic(auto)]

mod allowance;
mod laws;
mod leaving;
mod refusal;
mod removing;
mod stamping;
mod taking;
mod unlisting;

pub use allowance::{blocks_left, index_count, remove_attr_allowance};
pub use bfs_attrs as attrs;
pub use bfs_query as query;
pub use bfs_query::moves as moves;
pub use bfs_unmake::calls as calls;
pub use laws::{attribute_unlists, attributes_leave, node_holds, pairs_less};
pub use refusal::attr_remove_refusal;
pub use removing::remove_attr;
pub use stamping::put_changed;
pub use unlisting::unlist_attribute;
