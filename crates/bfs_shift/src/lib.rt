// A volume within a call (specs/Stocked.antt): between two lower calls of a Space's call it stands for no tree. What each step keeps of
// it, as laws: each is the contract of a function that does nothing.
#![tactic(auto)]

mod changes;
mod shifts;
mod streams;
mod trees;

pub use changes::{
    count_is_free, count_is_reach, counted_is_sound, indices_are_free, indices_change,
    length_is_same, loose_changes, loose_in_any_order, node_changes, node_joins, node_leaves,
    rows_elsewhere, sound_is_stocked, stocked_is_sound,
};
pub use shifts::{
    directory_owns, given_shift, index_owns, loose_owns, names_own, owner_owns, owners_are,
    shift_in_any_order, shift_widens, taken_shift, writes_shift,
};
pub use streams::{
    attribute_rows_shift, attribute_shifts, content_changes, directory_has_rows, directory_is_map,
    fresh_is_node, grown_shift, index_changes, index_has_pairs, index_joins, index_leaves,
    moves_shift, names_change, names_have_rows, node_is_restated, owner_is_held, rows_are_numbers,
    rows_change, status_changes, status_is_sound, trimmed_shift,
};
pub use trees::{
    agrees_follows, agrees_stays, dropped_nodes, index_make_agrees, index_remove_agrees,
    key_of_new, lists_at, made_nodes, make_agrees, make_changes_seat, moved_nodes, remove_agrees,
    remove_changes_seat, rename_agrees, rename_changes_seat, replaced_agrees, status_agrees,
};
