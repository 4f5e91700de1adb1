// The plain tree's parts, each in an ordered map or a list and each done in the slow and plain way: nodes by id, attributes and indices by name,
// holds in a row, and what is read of them. What they stand for is said in specs/Plain.
#![tactic(auto)]

mod finds;
mod fresh;
mod holds;
mod lists;
mod look;
mod named;
mod node;
mod nodes;
mod sorts;

pub use finds::{pairs_at, rows_at};
pub use fresh::{built_in_indices, made_node};
pub use holds::{conflict_at, is_past, last_hold_at, last_hold_of, learn_whole};
pub use lists::{attribute_rows, index_rows, names_at};
pub use look::{child_at, is_below, node_at};
pub use named::{drop_index, index_count, put_index, remove_attribute, write_attribute};
pub use node::{Attribute, Node, attribute_at, index_at};
pub use nodes::{NodeChange, change_node, free_id, has_children, put_node, take_node};
pub use sorts::Pair;
