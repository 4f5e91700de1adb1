// A line of a script.
use crate::Command;

/// A line with a command: its number in the script, counted from 1, and its session, 1 to 16.
#[derive(Debug, Drop)]
pub struct Line {
    pub number: u32,
    pub session: u32,
    pub command: Command,
}
