// Takes rows out of B+trees.
#![tactic(auto)]

mod collapsing;
mod cut;
mod drop;
mod give;
mod mend;
mod removing;
mod way;

pub use collapsing::collapse;
pub use cut::{cut_row, drop_link};
pub use drop::{drop_child, drop_leaf};
pub use give::{give_back, release};
pub use mend::{mend_left, mend_right};
pub use removing::remove;
pub use way::{Branch, Way, way_to};
