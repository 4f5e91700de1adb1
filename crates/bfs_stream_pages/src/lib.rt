// The bytes of a stream as pages of 1,024 bytes, for the trees that stand in streams. What a caller of the pages knows of the
// volume stands in specs/Moves.antt, and why a page can't be had in specs/Causes.antt.
#![tactic(auto)]

mod backing;
mod block;
mod fault;
mod laws;
mod pages;
mod reader;

pub use backing::Backing;
pub use block::block_of_page;
pub use fault::MapFault;
pub use laws::others_stay;
pub use pages::StreamPages;
pub use reader::StreamReader;
