// The namespace of a volume: its history, the open group of its changes, and the entries that sessions are promised
// (specs/Books.antt), and what a call of it begins with and leaves (specs/Called.antt). A space holds no disk: what it changes it
// keeps as blocks, until they are sealed as a group.
#![tactic(auto)]

mod holds;
mod laws;
mod pieces;
mod promises;
mod space;
mod stamp;

pub use bfs_replies::answers::{Allowance, Answers, Calls, Looked};
pub use bfs_replies::{CallFault, Unkept, answer_call};
pub use holds::note_holds;
pub use laws::{
    call_is_entered, done_is_answered, done_is_called, entered_keeps_files, entry_is_held,
    entry_keeps_holds, face_is_at_work, face_is_ready, held_is_after, known_stays,
    left_is_answered, left_is_called, note_keeps_files,
};
pub use space::{Outcome, Space};
