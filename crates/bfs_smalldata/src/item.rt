// An item's place, and why an area is none.
use thiserror::Error;

/// An item that was found: its type, and where its bytes stand in the area.
#[derive(Clone, Copy, Debug, PartialEq, Eq)]
pub struct Item {
    pub kind: u32,
    /// Where the item's bytes begin, counted from the area's first byte.
    pub at: usize,
    /// How many bytes it has.
    pub len: usize,
}

/// The item at this place runs past the area.
#[derive(Clone, Copy, Debug, PartialEq, Eq, Error)]
#[error("the item at byte {at} runs past the small data")]
pub struct AreaFault {
    pub at: usize,
}
