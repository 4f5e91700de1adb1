// A row whose value isn't a plain number.

/// The row at this place of a leaf has this value, which names a fragment or a chain. A page goes by its first byte in the stream.
#[derive(Clone, Copy, Debug, PartialEq, Eq)]
pub struct OtherRow {
    pub page: u64,
    pub index: usize,
    pub value: i64,
}
