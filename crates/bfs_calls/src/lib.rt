// The calls that change a volume's tree, from the steps that they are made of: each is answered as the plain tree answers it, and makes the
// volume stand for the tree since (specs/Done.antt), over blocks that can be changed.
#![tactic(auto)]

mod allowance;
mod creating;
mod entering;
mod fault;
mod indices;
mod making;
mod refusal;
mod setting;

pub use allowance::{bitmap_blocks, make_allowance};
pub use entering::{size_key, stamp_key};
pub use fault::{blocked, damaged, not_put, not_taken};
pub use indices::{BuiltIn, built_in_indices};
pub use making::{make, make_node};
pub use refusal::make_refusal;
pub use setting::{set_mode, set_mode_refusal};
