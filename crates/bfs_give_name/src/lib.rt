// A node gets another name of its own, as a step of a call: the volume at work stands for the tree in which it has it. Attributes in small
// data move out for it where they have to.
#![tactic(auto)]

mod naming;

pub use naming::give_name;
