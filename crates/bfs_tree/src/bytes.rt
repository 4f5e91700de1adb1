// Bytes and lists of names and rows, which contracts see as lists.
ghost use Rattle.std.specs.Prelude.{◌≡◌, IfOk};

use crate::{AttributeRow, FoundRow, IndexRow};
use std::alloc::{AllocError, Global};
use std::marker::Model;

/// Owned bytes: a name, a target, an attribute's value.
#[derive(Debug, Drop)]
pub struct Bytes {
    items: Vec<u8>,
}

impl Model for Bytes {
    ghost use Rattle.std.specs.Prelude.{List, ℕ};

    ghost Value = { List ℕ };

    ghost view = { λ b. b.items.items };
}

impl Bytes {
    pub fn new(items: Vec<u8>) -> Bytes
        ensures { result ≡ items.items }
    {
        Bytes { items }
    }

    pub fn from_slice(alloc: Global, bytes: &[u8]) -> Result<Bytes, AllocError>
        ensures { IfOk result (λ b. b ≡ bytes.now) }
    {
        Ok(Bytes {
            items: Vec::from_slice(alloc, bytes)?,
        })
    }

    pub fn as_slice(&self) -> &[u8]
        ensures { result.now ≡ self.now }
    {
        self.items.as_slice()
    }

    pub fn into_vec(self) -> Vec<u8>
        ensures { result.items ≡ self }
    {
        let Bytes { items } = self;
        items
    }

    pub fn copy(&self) -> Result<Bytes, AllocError>
        ensures { IfOk result (λ b. b ≡ self.now) }
    {
        Ok(Bytes {
            items: self.items.clone()?,
        })
    }
}

/// Names, in byte order.
#[derive(Debug, Drop)]
pub struct Names {
    items: Vec<Bytes>,
}

impl Model for Names {
    ghost use Rattle.std.specs.Prelude.{List, ℕ};

    ghost Value = { List (List ℕ) };

    ghost view = { λ b. b.items.items };
}

impl Names {
    pub fn new(items: Vec<Bytes>) -> Names
        ensures { result ≡ items.items }
    {
        Names { items }
    }

    pub fn as_slice(&self) -> &[Bytes]
        ensures { result.now ≡ self.now }
    {
        self.items.as_slice()
    }

    pub fn into_vec(self) -> Vec<Bytes>
        ensures { result.items ≡ self }
    {
        let Names { items } = self;
        items
    }
}

/// The attributes of a node, by name.
#[derive(Debug, Drop)]
pub struct Attributes {
    items: Vec<AttributeRow>,
}

impl Model for Attributes {
    ghost use Rattle.std.specs.Prelude.{List};
    ghost use Rattle.bfs_tree.specs.declared.rows.AttributeRow.{AttributeRow};

    ghost Value = { List AttributeRow };

    ghost view = { λ b. b.items.items };
}

impl Attributes {
    pub fn new(items: Vec<AttributeRow>) -> Attributes
        ensures { result ≡ items.items }
    {
        Attributes { items }
    }

    pub fn as_slice(&self) -> &[AttributeRow]
        ensures { result.now ≡ self.now }
    {
        self.items.as_slice()
    }

    pub fn into_vec(self) -> Vec<AttributeRow>
        ensures { result.items ≡ self }
    {
        let Attributes { items } = self;
        items
    }
}

/// The indices of a volume, by name.
#[derive(Debug, Drop)]
pub struct Indices {
    items: Vec<IndexRow>,
}

impl Model for Indices {
    ghost use Rattle.std.specs.Prelude.{List};
    ghost use Rattle.bfs_tree.specs.declared.rows.IndexRow.{IndexRow};

    ghost Value = { List IndexRow };

    ghost view = { λ b. b.items.items };
}

impl Indices {
    pub fn new(items: Vec<IndexRow>) -> Indices
        ensures { result ≡ items.items }
    {
        Indices { items }
    }

    pub fn as_slice(&self) -> &[IndexRow]
        ensures { result.now ≡ self.now }
    {
        self.items.as_slice()
    }

    pub fn into_vec(self) -> Vec<IndexRow>
        ensures { result.items ≡ self }
    {
        let Indices { items } = self;
        items
    }
}

/// What a search of an index found, by key and then by id.
#[derive(Debug, Drop)]
pub struct FoundRows {
    items: Vec<FoundRow>,
}

impl Model for FoundRows {
    ghost use Rattle.std.specs.Prelude.{List};
    ghost use Rattle.bfs_tree.specs.declared.rows.FoundRow.{FoundRow};

    ghost Value = { List FoundRow };

    ghost view = { λ b. b.items.items };
}

impl FoundRows {
    pub fn new(items: Vec<FoundRow>) -> FoundRows
        ensures { result ≡ items.items }
    {
        FoundRows { items }
    }

    pub fn as_slice(&self) -> &[FoundRow]
        ensures { result.now ≡ self.now }
    {
        self.items.as_slice()
    }

    pub fn into_vec(self) -> Vec<FoundRow>
        ensures { result.items ≡ self }
    {
        let FoundRows { items } = self;
        items
    }
}
