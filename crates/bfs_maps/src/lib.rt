// Trees in the streams of inodes, as maps from keys to numbers: what directories, attribute directories and the index directory
// are kept in; and the rows of such a tree, and of an index, in a range of keys. What a map is stands in specs/Mapped.antt, and
// why a call on one is refused in specs/Refused.antt.
#![tactic(auto)]

mod laws;
mod over_pages;
mod putting;
mod reading;
mod size;
mod tree;
mod writing;

pub use laws::{names_differ, puts_at_key, takes_at_key};
pub use putting::{put_number, take_number};
pub use reading::{number_at, rows_from};
pub use size::{Opened, stream_size};
pub use tree::TreeAt;
pub use writing::{put_row, take_row};
