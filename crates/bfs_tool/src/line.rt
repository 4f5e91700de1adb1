// A line of text that is built without memory.
ghost use Rattle.std.specs.Prelude.{◌≡◌, ◌≤◌, ◌+◌, ◌++◌, ℕ, List, [], length, take};

use std::marker::Model;

/// The bytes that a line may have.
const ROOM: usize = 80;

/// A line of at most 80 bytes. Contracts see it as a list of bytes.
#[derive(Drop)]
pub struct Line {
    bytes: [u8; 80],
    len: usize,
}

impl Model for Line {
    ghost Value = { List ℕ };

    ghost view = { λ l. take l.len l.bytes };

    ghost invariant = { λ l. l.len ≤ 80 };
}

impl Line {
    pub fn new() -> Line
        ensures { result ≡ [] }
    {
        Line {
            bytes: [0; ROOM],
            len: 0,
        }
    }

    /// Appends a part, which has room.
    pub fn push(&mut self, part: &[u8])
        requires { length self.old + length part.now ≤ 80 }
        ensures { self.new ≡ self.old ++ part.now }
    {
        let end = self.len + part.len();
        self.bytes[self.len..end].copy_from_slice(part);
        self.len = end;
    }

    pub fn bytes(&self) -> &[u8]
        ensures { result.now ≡ self.now }
    {
        &self.bytes[..self.len]
    }
}
