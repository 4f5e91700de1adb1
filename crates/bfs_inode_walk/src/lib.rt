// Goes over one inode of a volume that may hold anything: whether it is right for its place, with its stream, and none of its blocks
// was claimed before; its blocks are claimed. And tells whether an inode has a block. What each answer says stands in specs/Visited.antt.
#![tactic(auto)]

mod block;
mod fault;
mod laws;
mod runs;
mod second;
mod stream;
mod visit;

pub use block::read_block;
pub use fault::VisitFault;
pub use laws::{blocks_are_by_role, record_is_node};
pub use second::has_block;
pub use visit::visit_inode;
