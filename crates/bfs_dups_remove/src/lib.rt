// Numbers taken out of those of one key of a tree.
#![tactic(auto)]

mod chains;
mod freeing;
mod lessening;
mod locating;
mod removing;
mod settling;
mod shrinking;
mod unlinking;

pub use chains::{absorb, link_past, set_left, take_numbers};
pub use freeing::{free_page, mend_left, pass_by};
pub use lessening::{copy_list, lone_number, narrow_fragment, narrow_page};
pub use locating::{Located, locate};
pub use removing::dups_remove;
pub use settling::{move_to_slot, settle, settle_few};
pub use shrinking::{fold_all, fold_next};
pub use unlinking::{Gone, leave_first, leave_page, lessen, lessen_page, pass_page};
