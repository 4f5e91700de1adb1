// The line of a finding, in the words of specs/Texts.antt.
#![tactic(auto)]

mod refusals;
mod words;

pub use refusals::{put_entry_line, put_short_line};
pub use words::put_line;
