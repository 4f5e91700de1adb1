// Reads a whole tree of names that may hold anything, and answers its rows in order, each with its value as it is written, or what is
// wrong with the tree.
#![tactic(auto)]

mod leaves;
mod plain;
mod row;
mod rows;
mod walk;

pub use row::NameRow;
pub use walk::walk_rows;
