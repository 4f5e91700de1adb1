// What adding a number to a key of a tree and taking one out share: lists of numbers in pages, fragments, and links.
#![tactic(auto)]

mod fragments;
mod links;
mod lists;
mod making;
mod paging;
mod scan;
mod vacant;

pub use fragments::{free_fragment, is_unused};
pub use links::{chain_value, fragment_value, number_value};
pub use lists::{copy_numbers, find_number, insert_number, put_number, remove_number};
pub use making::{free_all, widen_page};
pub use paging::{read_page, vacate};
pub use scan::{Seen, look_at};
pub use vacant::{Slot, find_vacant};
