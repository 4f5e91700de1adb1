// The commands of a script's lines: how they are read (specs/Grammar.antt), and the calls that they make (specs/Spelled.antt).
#![tactic(auto)]

mod calls;
mod command;
mod commands;
mod due;
mod laws;
mod line;
mod next;
mod shapes;
mod spoken;
mod verbs;

pub use calls::Calls;
pub use command::Command;
pub use due::Due;
pub use laws::{line_is_spelled, nothing_is_spelled, own_entries_are_spelled, stop_is_spelled};
pub use line::Line;
pub use spoken::{LineKind, Spoken, line_kind, read_spoken};
