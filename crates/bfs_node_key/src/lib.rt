// The key under which an index lists a node: its name, the size of a file or the stamp of the last change of its content, or what an
// attribute gives. What the key is says `key_in` of the plain tree.
#![tactic(auto)]

mod key;

pub use key::{attribute_key, is_sought, key_in};
