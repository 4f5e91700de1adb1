// Puts rows into B+trees.
#![tactic(auto)]

mod descend;
mod divide;
mod grow;
mod halves;
mod inserting;
mod putting;
mod top;

pub use descend::{is_roomy, step_down};
pub use divide::{divide_interior, divide_leaf, middle_of, put_bound};
pub use halves::{Places, write_halves};
pub use inserting::insert;
pub use putting::{put_in_leaf, put_row};
pub use top::{Top, reach_top};
