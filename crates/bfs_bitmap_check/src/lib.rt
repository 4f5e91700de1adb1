// Holds the bitmap of a volume against the blocks that are claimed: a bit is set just where its block is, or the first that differs
// is told, with the way in which it does. When that is true of the volume stands in specs/Bitmaps.antt.
#![tactic(auto)]

mod bitmap;
mod difference;
mod fault;
mod volume;

pub use fault::BitFault;
pub use volume::check_bitmap;
