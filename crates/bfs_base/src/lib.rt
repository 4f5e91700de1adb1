// The words that every layer cites, each defined once: risen counts and passed time, the sectors and
// blocks of an image, lists of block numbers, and the kinds of keys with their order.
#![tactic(auto)]

mod kind;

pub use kind::KeyKind;
