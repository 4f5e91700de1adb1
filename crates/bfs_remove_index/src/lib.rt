// The call that removes an index: its name leaves the index directory, which stays also without rows of its own, and its inode is given
// back with its stream. What the volume stands for since is `IsIndexRemoved` in specs/Removed.antt.
#![tactic(auto)]

mod allowance;
mod giving;
mod names;
mod refusal;
mod removing;

pub use allowance::remove_index_allowance;
pub use bfs_query as query;
pub use refusal::remove_index_refusal;
pub use removing::remove_index;
