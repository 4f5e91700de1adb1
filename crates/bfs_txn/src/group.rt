// A group of changes that goes to the disk as one.
use crate::Changed;

/// The entries of the history from `first` to `last`, the used blocks after them, and each block that they changed,
/// once, with its bytes.
#[derive(Drop)]
pub struct Group {
    pub first: u64,
    pub last: u64,
    pub used: u64,
    pub blocks: Changed,
}
