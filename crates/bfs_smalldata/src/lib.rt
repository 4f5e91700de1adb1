// Small data: the area of an inode as a list of items, each with a type, a name and bytes. What an area
// says is `items_of`, in specs/Items.antt; `find`, `put` and `take` are a look-up, a replacement and a
// removal in that list, in specs/Edits.antt. None of them takes memory.
#![tactic(auto)]

mod edit;
mod item;
mod laws;
mod walk;

pub use edit::{put, take};
pub use item::{AreaFault, Item};
pub use laws::{items_stand, put_is_found, taken_is_gone};
pub use walk::{find, fits, list_end};
