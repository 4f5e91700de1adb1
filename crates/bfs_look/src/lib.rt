// The calls that read a volume's tree, over blocks that can be changed: which node has an id, and what a call answers. Each contract
// speaks of the plain tree for which the volume stands (specs/Ready.antt), and nothing changes.
#![tactic(auto)]

mod block;
mod claim;
mod info;
mod listing;
mod looking;
mod node;
mod rows;
mod target;
mod way;

pub use bfs_make as make;
pub use block::Site;
pub use info::{info_at, stat};
pub use listing::list;
pub use looking::lookup;
pub use node::node_at;
pub use target::read_link;
