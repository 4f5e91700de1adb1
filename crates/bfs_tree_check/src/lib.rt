// Reads a whole tree that may hold anything, and says that it is whole or what is wrong with it. Each pass over the pages has one
// task, and each answer of a pass is true of the tree's bytes.
#![tactic(auto)]

mod ascent;
mod below;
mod check;
mod down;
mod free;
mod gather;
mod header;
mod item;
mod leaves;
mod links;
mod marks;
mod opening;
mod order;
mod shape;
mod survey;

pub use ascent::check_order;
pub use below::{Below, survey_below};
pub use check::check_tree;
pub use down::{go_down, met_twice};
pub use free::{check_free, check_free_list, wanted_for};
pub use gather::lowest_level;
pub use header::look_at_header;
pub use item::Item;
pub use leaves::{look_at_leaves, places_of};
pub use links::check_links;
pub use marks::{first_unmarked, mark, new_marks};
pub use opening::open_page;
pub use order::{go_on, order_rows};
pub use shape::check_shape;
pub use survey::{Survey, survey_tree};
