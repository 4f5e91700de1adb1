// A node's own name, set in the small data of its inode: where it has no room there, attributes move out to the attribute directory,
// the longest first. What has moved and what stands since is in specs/Renamed.antt, and which nodes can be named in
// specs/Laws.antt.
#![tactic(auto)]

mod laws;
mod leaving;
mod naming;

pub use laws::nodes_can_be_named;
pub use naming::set_name;
