// Changes of the attributes of an inode in its attribute directory. That blocks come and go as one exchange stands in
// specs/Exchanged.antt, what a row for an attribute leaves in specs/Adding.antt, why none is taken in specs/Removal.antt, and what
// making and dropping the attribute directory leave in specs/Directories.antt.
#![tactic(auto)]

mod adding;
mod directory;
mod laws;
mod removing;

pub use adding::put_attribute_row;
pub use directory::{drop_attribute_directory, make_attribute_directory, no_run, put_address};
pub use laws::{
    attributes_are_stored, changes_follow, directories_stay_held, entries_part, exchanges_follow,
    rows_leave,
};
pub use removing::{give_named, take_attribute_row};
