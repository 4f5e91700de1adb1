// How a stream is cut: what goes whole is given back and taken out first, its last tables and its levels, and then runs at its end. What is left of a stream that
// was cut is `HasTrimmedTo` in specs/Trimmed.antt of `bfs_stream`.
#![tactic(auto)]

mod cut;
mod drop;
mod trimming;

pub use trimming::trim;
