// Numbers added to those of one key of a tree, an ascending list without repeats.
#![tactic(auto)]

mod adding;
mod making;
mod paging;
mod scan;
mod steps;

pub use adding::dups_add;
pub use making::{
    page_of_fragment, page_of_number, page_of_pair, set_next, set_pair, widen_fragment,
};
pub use paging::put_page;
pub use scan::{Room, scan_chain};
pub use steps::{extend, raise, widen};
