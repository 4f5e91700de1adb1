// What tests of several crates make volumes of: blocks in memory that tell nothing, superblocks, items of small data, and images of new
// volumes. No program stands on it.
#![tactic(auto)]

mod images;
mod items;
mod silent;
mod supers;

pub use images::{new_image, new_volume, superblock_of};
pub use items::put_item;
pub use silent::{Silent, blocks_of};
pub use supers::{Shape, run, small_superblock, superblock};
