// The pairs that a range of an index answers.
ghost use Rattle.std.specs.Prelude.{◌≡◌, ◌++◌, OnOk, IfOk};
ghost use Rattle.std.specs.List.{flat_map};
ghost use Rattle.bfs_index.specs.Indices.{row_pairs};

use bfs_range::{KeyBytes, Ranged, RangedRow};
use std::alloc::{AllocError, Global};
use std::marker::Model;

/// A key and an id. The key's bytes are those that stand in a page of the index.
#[derive(Debug, Drop)]
pub struct Pair {
    pub key: KeyBytes,
    pub id: u64,
}

/// Pairs of an index, by key, then by id.
#[derive(Debug, Drop)]
pub struct Pairs {
    items: Vec<Pair>,
}

impl Model for Pairs {
    ghost use Rattle.std.specs.Prelude.{List};
    ghost use Rattle.bfs_index.specs.declared.found.Pair.{Pair};

    ghost Value = { List Pair };

    ghost view = { λ b. b.items.items };
}

impl Pairs {
    /// Takes no memory.
    pub fn new(items: Vec<Pair>) -> Pairs
        ensures { result ≡ items.items }
    {
        Pairs { items }
    }

    pub fn as_slice(&self) -> &[Pair]
        ensures { result.now ≡ self.now }
    {
        self.items.as_slice()
    }

    pub fn into_vec(self) -> Vec<Pair>
        ensures { result.items ≡ self }
    {
        let Pairs { items } = self;
        items
    }
}

/// Adds a key with each of its numbers.
fn add_row(alloc: Global, pairs: &mut Vec<Pair>, row: &RangedRow) -> Result<(), AllocError>
    ensures { OnOk result (pairs.new.items ≡ pairs.old.items ++ row_pairs row.now) }
{
    for id in row.numbers.as_slice() {
        let key = KeyBytes::from_slice(alloc, row.key.as_slice())?;
        pairs.push(Pair { key, id: *id })?;
    }
    Ok(())
}

/// The rows of a range, as keys with ids.
pub(crate) fn pairs_of_rows(alloc: Global, ranged: &Ranged) -> Result<Pairs, AllocError>
    ensures { IfOk result (λ pairs. pairs ≡ flat_map row_pairs ranged.now) }
{
    let mut pairs = Vec::new(alloc);
    for row in ranged.as_slice() {
        add_row(alloc, &mut pairs, row)?;
    }
    Ok(Pairs::new(pairs))
}
