// Worked volumes: small volumes, written out block by block, that are whole, and each of them with one thing broken, which are
// whole with no tree (specs/Worked.antt has what they share, and each other file of specs/ one volume, or a few of one form).
// They show that the definition of a whole volume is met, and that it isn't met by what it should refuse. The functions do
// nothing.
#![tactic(auto)]

mod broken_volumes;
mod whole_volumes;

pub use broken_volumes::{
    astray_is_broken, circled_is_broken, claimed_is_broken, clashing_is_broken,
    descending_is_broken, doubled_is_broken, entered_is_broken, logged_is_broken, looped_is_broken,
    miscounted_is_broken, mismeasured_is_broken, misplaced_is_broken, nameless_is_broken,
    outside_is_broken, overmarked_is_broken, renamed_is_broken, repeated_is_broken,
    shared_is_broken, short_run_is_broken, truncated_is_broken, unended_is_broken,
    uneven_is_broken, unfilled_is_broken, unindexed_is_broken, unlisted_is_broken,
    unmarked_is_broken, unnamed_is_broken, unreached_is_broken, unreplayed_is_broken,
    untyped_is_broken,
};
pub use whole_volumes::{
    attributes_are_whole, bare_is_whole, directory_is_whole, files_are_whole, keyless_is_whole,
    levels_are_kept, links_are_whole, logged_recovers, nested_is_whole, pages_are_whole,
    twin_is_whole, vacant_is_whole,
};
