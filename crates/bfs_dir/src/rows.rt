// The rows of a directory that is listed.
ghost use Rattle.std.specs.Prelude.{◌≡◌, ◌++◌, OnOk, IfOk};
ghost use Rattle.std.specs.List.{flat_map};
ghost use Rattle.bfs_dir.specs.Directories.{dir_rows};

use bfs_range::{KeyBytes, Ranged, RangedRow};
use std::alloc::{AllocError, Global};
use std::marker::Model;

/// A name and its id.
#[derive(Debug, Drop)]
pub struct DirRow {
    pub name: KeyBytes,
    pub id: u64,
}

/// The rows of a directory, by name.
#[derive(Debug, Drop)]
pub struct DirRows {
    items: Vec<DirRow>,
}

impl Model for DirRows {
    ghost use Rattle.std.specs.Prelude.{List};
    ghost use Rattle.bfs_dir.specs.declared.rows.DirRow.{DirRow};

    ghost Value = { List DirRow };

    ghost view = { λ b. b.items.items };
}

impl DirRows {
    /// Takes no memory.
    pub fn new(items: Vec<DirRow>) -> DirRows
        ensures { result ≡ items.items }
    {
        DirRows { items }
    }

    pub fn as_slice(&self) -> &[DirRow]
        ensures { result.now ≡ self.now }
    {
        self.items.as_slice()
    }

    pub fn into_vec(self) -> Vec<DirRow>
        ensures { result.items ≡ self }
    {
        let DirRows { items } = self;
        items
    }
}

/// Adds a name with each of its numbers.
fn add_row(alloc: Global, rows: &mut Vec<DirRow>, row: &RangedRow) -> Result<(), AllocError>
    ensures { OnOk result (rows.new.items ≡ rows.old.items ++ dir_rows row.now) }
{
    for id in row.numbers.as_slice() {
        let name = KeyBytes::from_slice(alloc, row.key.as_slice())?;
        rows.push(DirRow { name, id: *id })?;
    }
    Ok(())
}

/// The rows of a range, as names with ids.
pub(crate) fn dir_rows_of(alloc: Global, ranged: &Ranged) -> Result<DirRows, AllocError>
    ensures { IfOk result (λ rows. rows ≡ flat_map dir_rows ranged.now) }
{
    let mut rows = Vec::new(alloc);
    for row in ranged.as_slice() {
        add_row(alloc, &mut rows, row)?;
    }
    Ok(DirRows::new(rows))
}
