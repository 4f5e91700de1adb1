// Goes over all nodes of a volume that may hold anything: the root, and then what each row of a directory names that was gone over, the
// first row first. What was gone over is a tour, as specs/Walks.antt says. Where a block of a node is claimed already, the nodes before are looked
// at again for the one that has it. Of each node it is kept what later passes would read its inode for: its keys as a file, and that its attributes are all
// items and right, where they are. The other attributes are left to another pass.
#![tactic(auto)]

mod clash;
mod facts;
mod items;
mod lead;
mod names;
mod places;
mod step;
mod walk;

pub use facts::{FileKeys, NodeFacts, facts_at, keys_in};
pub use lead::NodeLead;
pub use names::check_names;
pub use places::node_places;
pub use walk::{WalkedNodes, walk_nodes};
