// The blocks of a volume, to be read and changed; the changes of one call over an open group; and the pages of a
// stream with a count of the pages read. A group of changed blocks is seen as a list of pairs (specs/Changed), the
// blocks that are told as a map (specs/Told), a stream that is told as a list of bytes (specs/Pages), and each fault
// has its cause in specs/Faults.
#![tactic(auto)]

mod blocks;
mod changed;
mod fault;
mod group;
mod laws;
mod memory;
mod overlay;
mod pages;
mod steps;

pub use blocks::{Blocks, Edits};
pub use changed::Changed;
pub use fault::BlockFault;
pub use group::Group;
pub use laws::pairs_are_few;
pub use memory::MemBlocks;
pub use overlay::Overlay;
pub use pages::Pages;
pub use steps::Steps;
