// The holds that sessions have on files.

/// A session's hold on `length` bytes of a file from `at` on, for writing or for reading.
#[derive(Clone, Copy, Debug)]
pub struct Hold {
    pub session: u32,
    pub id: u64,
    pub at: u64,
    pub length: u64,
    pub write: bool,
}
