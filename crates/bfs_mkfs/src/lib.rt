// Formats a volume. What is written is the definition `Laid` (specs/Laid.antt), and it is whole with the empty tree
// (`IsNew`, specs/Format.antt); what a crash may leave on the way is the old image, an image whose superblock is blank, or
// the whole new volume (specs/Written.antt).
#![tactic(auto)]

mod layout;
mod mkfs;
mod steps;
mod tree;
mod volume;

pub use layout::{layout_of, layout_with_log};
pub use mkfs::{FormatFault, format};
pub use tree::NewTree;
