// Looks at the pages of a tree that may hold anything, and says of each what is wrong with it: specs/Wrong.antt says when that is
// true of the tree's bytes. What a walk over all of them has to know at its end stands in specs/Walked.antt.
#![tactic(auto)]

mod fault;
mod laws;
mod page;
mod reading;
mod way;

pub use fault::{TreeWrong, WalkFault};
pub use laws::walked_is_whole;
pub use page::{check_children, check_page};
pub use reading::{look_at_interior, look_at_leaf};
pub use way::{Frame, enter, step};
