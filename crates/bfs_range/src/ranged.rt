// The answer of a range: rows, each a key with its numbers, which contracts see as lists.
ghost use Rattle.std.specs.Prelude.{◌≡◌, IfOk};

use bfs_values::Numbers;
use std::alloc::{AllocError, Global};
use std::marker::Model;

/// The bytes of a key.
#[derive(Debug, Drop)]
pub struct KeyBytes {
    items: Vec<u8>,
}

impl Model for KeyBytes {
    ghost use Rattle.std.specs.Prelude.{List, ℕ};

    ghost Value = { List ℕ };

    ghost view = { λ b. b.items.items };
}

impl KeyBytes {
    /// Takes no memory.
    pub fn new(items: Vec<u8>) -> KeyBytes
        ensures { result ≡ items.items }
    {
        KeyBytes { items }
    }

    pub fn from_slice(alloc: Global, bytes: &[u8]) -> Result<KeyBytes, AllocError>
        ensures { IfOk result (λ b. b ≡ bytes.now) }
    {
        Ok(KeyBytes {
            items: Vec::from_slice(alloc, bytes)?,
        })
    }

    pub fn as_slice(&self) -> &[u8]
        ensures { result.now ≡ self.now }
    {
        self.items.as_slice()
    }

    pub fn into_vec(self) -> Vec<u8>
        ensures { result.items ≡ self }
    {
        let KeyBytes { items } = self;
        items
    }
}

/// A key with the list of its numbers.
#[derive(Debug, Drop)]
pub struct RangedRow {
    pub key: KeyBytes,
    pub numbers: Numbers,
}

/// The rows of a range, by key.
#[derive(Debug, Drop)]
pub struct Ranged {
    items: Vec<RangedRow>,
}

impl Model for Ranged {
    ghost use Rattle.std.specs.Prelude.{List};
    ghost use Rattle.bfs_range.specs.declared.ranged.RangedRow.{RangedRow};

    ghost Value = { List RangedRow };

    ghost view = { λ b. b.items.items };
}

impl Ranged {
    /// Takes no memory.
    pub fn new(items: Vec<RangedRow>) -> Ranged
        ensures { result ≡ items.items }
    {
        Ranged { items }
    }

    pub fn as_slice(&self) -> &[RangedRow]
        ensures { result.now ≡ self.now }
    {
        self.items.as_slice()
    }

    pub fn into_vec(self) -> Vec<RangedRow>
        ensures { result.items ≡ self }
    {
        let Ranged { items } = self;
        items
    }
}
