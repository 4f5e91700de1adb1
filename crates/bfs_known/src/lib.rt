// Bytes of files that are known, each at the id of its file and its place there: they are learnt, forgotten, and held against bytes that were
// read. What the entries of a map come to stands in specs/Known.
#![tactic(auto)]

mod known;

pub use known::{Places, agrees, byte_at, forget, learn};
