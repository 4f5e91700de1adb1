// What takes the rows of a tree while the tree is walked.
ghost use Rattle.std.specs.Prelude.{◌≡◌, ◌++◌, ◌∷◌, [], List, OnOk};
ghost use Rattle.bfs_range.specs.declared.ranged.RangedRow.{RangedRow};

use bfs_range::{KeyBytes, Numbers, Ranged, RangedRow};
use std::alloc::{AllocError, Global};

/// Takes the rows of a tree one after the other, each a key with its numbers, so that a walk need not keep them.
pub trait RowSink {
    /// The second is the first after these rows were given to it.
    ghost took: { Self → Self → List RangedRow → Type 0 };

    /// Takes a row behind those that were given before.
    fn take(&mut self, alloc: Global, key: &[u8], numbers: Numbers) -> Result<(), AllocError>
        ensures took { (start : Self) (rows : List RangedRow) → took start self.old rows → OnOk result (took start self.new (rows ++ (record { key = key.now; numbers = numbers }) ∷ [])) };

    ghost took_none: { (s : Self) → took s s [] };
}

/// Keeps the rows.
#[derive(Debug, Drop)]
pub struct KeptRows {
    pub rows: Vec<RangedRow>,
}

impl KeptRows {
    /// None yet. Takes no memory.
    pub fn new(alloc: Global) -> KeptRows
        ensures { result.rows.items ≡ [] }
    {
        KeptRows {
            rows: Vec::new(alloc),
        }
    }

    /// The rows in order. Takes no memory.
    pub fn into_ranged(self) -> Ranged
        ensures { result ≡ self.rows.items }
    {
        let KeptRows { rows } = self;
        Ranged::new(rows)
    }
}

impl RowSink for KeptRows {
    ghost use Rattle.std.specs.Prelude.{◌≡◌, ◌++◌};
    ghost use Rattle.std.proofs.Common.{append-nil, sym};

    ghost took = { λ s t rows. t.rows.items ≡ s.rows.items ++ rows };

    ghost took_none = { λ s. sym (append-nil s.rows.items) };

    fn take(&mut self, alloc: Global, key: &[u8], numbers: Numbers) -> Result<(), AllocError> {
        let key = match KeyBytes::from_slice(alloc, key) {
            Ok(key) => key,
            Err(fault) => return Err(fault),
        };
        match self.rows.push(RangedRow { key, numbers }) {
            Ok(()) => Ok(()),
            Err(fault) => Err(fault.into()),
        }
    }
}

/// Keeps nothing.
#[derive(Debug, Drop)]
pub struct NoRows {}

impl RowSink for NoRows {
    ghost took = { λ s t rows. Unit {0} };

    ghost took_none = { λ s. tt };

    fn take(&mut self, alloc: Global, key: &[u8], numbers: Numbers) -> Result<(), AllocError> {
        let _ = alloc;
        let _ = key;
        drop(numbers);
        Ok(())
    }
}
