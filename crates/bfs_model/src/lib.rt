// A slow and plain program that keeps a tree and answers every call as bfs_tree defines it.
// What it keeps, as a state of the plain tree, stands in specs/Kept.
#![tactic(auto)]

mod apply;
mod finds;
mod follow;
mod holds;
mod model;
mod moves;
mod reads;
mod refusals;
mod start;
mod writes;

pub use model::Model;
