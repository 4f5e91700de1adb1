// The words of the command line, read by `clap`: a command `bfs` with one level of subcommands. `read_words` tells
// what they ask for, exactly as specs/Words.antt says.
#![tactic(auto)]

mod argument;
mod command;
mod laws;
mod line;
mod number;
mod read;

pub use argument::Argument;
pub use command::{Command, Complaint, NewVolume, Workload};
pub use laws::plain_spellings;
pub use read::read_words;
