// What a call replies, over the open group: it is answered over the blocks that the group has, its changes are kept where the log and the call's need
// allow them (specs/Kept.antt), and a fault becomes a reply with its cause or is handed on (specs/Replies.antt).
#![tactic(auto)]

mod calling;
mod keep;
mod lacking;
mod looking;
mod replacing;
mod replying;
mod search;

pub use bfs_answers as answers;
pub use bfs_answers::hold as hold;
pub use calling::{CallFault, answer_call};
pub use keep::Unkept;
pub use lacking::reply_to_fault;
pub use looking::look_call;
pub use replying::{NoReply, reply_looked, reply_or_stopped, reply_to_step};
