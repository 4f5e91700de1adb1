// Directories: names and ids in a tree of names, in the stream of an inode (specs/Directories.antt).
#![tactic(auto)]

mod directory;
mod rows;

pub use directory::Dir;
pub use rows::{DirRow, DirRows};
