// Rows that are put in order.
ghost use Rattle.std.specs.Prelude.{◌≡◌, OnOk};
ghost use Rattle.bfs_base.specs.Keys.{text_cmp};
ghost use Rattle.bfs_tree.specs.Orders.{in_order};

use bfs_tree::AttributeRow;
use std::alloc::AllocError;

/// Puts the rows of attributes in the byte order of their names.
pub(crate) fn sort_rows(rows: &mut Vec<AttributeRow>) -> Result<(), AllocError>
    ensures { OnOk result (rows.new.items ≡ in_order (λ row other. text_cmp row.name other.name) rows.old.items) }
{
    rows.sort_by(|row, other| row.name.as_slice().cmp(other.name.as_slice()))?;
    Ok(())
}
