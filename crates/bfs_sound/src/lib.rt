// What a sound volume is: the record of a node, a tree that stands on a volume, the blocks that are reached and who owns them,
// and a whole image (specs/Whole.antt has the last word, and the others lead there in the order of specs/Lib.antt). Behind it
// stand laws, and how many blocks a call needs (specs/Need.antt). The functions are laws over these words, and do nothing.
#![tactic(auto)]

mod laws;

pub use laws::{
    image_is_carried, need_is_worked, other_owners_stay, others_stay, owner_stays,
    owners_are_apart, parts_are_carried, reach_is_by_owners, whole_is_carried,
};
