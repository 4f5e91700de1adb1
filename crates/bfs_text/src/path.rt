// Paths as lists of names.
ghost use Rattle.std.specs.Prelude.{◌≡◌, IfOk};
ghost use Rattle.bfs_text.specs.Paths.{folders, last_name};

use bfs_tree::Bytes;
use std::alloc::{AllocError, Global};
use std::marker::Model;

/// A path: the names from the root down. The root has none.
#[derive(Debug, Drop)]
pub struct Path {
    names: Vec<Bytes>,
}

impl Model for Path {
    ghost use Rattle.std.specs.Prelude.{List, ℕ};

    ghost Value = { List (List ℕ) };

    ghost view = { λ p. p.names.items };
}

impl Path {
    pub fn new(names: Vec<Bytes>) -> Path
        ensures { result ≡ names.items }
    {
        Path { names }
    }

    pub fn names(&self) -> &[Bytes]
        ensures { result.now ≡ self.now }
    {
        self.names.as_slice()
    }

    pub fn into_vec(self) -> Vec<Bytes>
        ensures { result.items ≡ self }
    {
        let Path { names } = self;
        names
    }

    /// All parts but the last, which lead to the node's folder. The root has none.
    pub fn folders(&self) -> &[Bytes]
        ensures { result.now ≡ folders self.now }
    {
        match self.names() {
            [folders @ .., _] => folders,
            [] => &[],
        }
    }

    /// The last part, which is the node's name. That of the root is empty.
    pub fn last_name(&self, alloc: Global) -> Result<Bytes, AllocError>
        ensures { IfOk result (λ name. name ≡ last_name self.now) }
    {
        match self.names() {
            [.., name] => name.copy(),
            [] => Ok(Bytes::new(Vec::new(alloc))),
        }
    }
}
