// The commands of the program `bfs`: volumes of the Be File System on a disk. The top call is `bfs`, whose contract says how each command
// ends and what it leaves on the disk (specs/Label.antt, specs/Make.antt, specs/Check.antt, specs/Shell.antt).
#![tactic(auto)]

mod checking;
mod label;
mod line;
mod make;
mod output;
mod progress;
mod shell;
mod soaking;
mod tool;
mod watched;

pub use progress::{Terminal, blocks_text, lines_text};
pub use tool::bfs;
