// The call that renames a node: whether it is refused (specs/Refused.antt), how many blocks it may change (specs/Counted.antt), and the node
// at its new place, where another one may have left the tree for it (specs/Moved.antt, specs/Done.antt).
#![tactic(auto)]

mod allowance;
mod below;
mod child;
mod into;
mod laws;
mod leaving;
mod moves;
mod moving;
mod over;
mod placing;
mod refusal;
mod rename;
mod replacing;
mod rows;
mod seating;
mod stamping;

pub use allowance::rename_allowance;
pub use bfs_remove_node as remove_node;
pub use laws::may_be_renamed;
pub use refusal::rename_refusal;
pub use rename::rename_node;
