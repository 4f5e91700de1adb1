// How each call on a volume is answered by what lies below it (`Answers`, src/answers.rt): a look says whether there is anything to do, and what may be
// changed; the answer makes the change, as the plain tree has it (specs/Answered.antt, specs/Looks.antt). Nothing is kept here: the changes stand in
// the frame that is handed in.
#![tactic(auto)]

mod answers;
mod calls;
mod holding;
mod indexing;
mod moving;
mod sizing;
mod taking;
mod writing;

pub use answers::{Allowance, Answers, Looked};
pub use bfs_hold as hold;
pub use bfs_index_make as index_make;
pub use bfs_rename as rename;
pub use calls::Calls;
