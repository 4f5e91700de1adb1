// The tree of a new directory: a header, and one leaf with the rows `.` and `..`.
ghost use Rattle.std.specs.Prelude.{◌≡◌, ◌<◌, ◌^◌, length, IfOk};
ghost use Rattle.bfs_base.specs.declared.kind.KeyKind.TheVariants.{Text};
ghost use Rattle.bfs_values.specs.Reached.{IsWholeTree};
ghost use Rattle.bfs_values.specs.Rows.{rows_in};
ghost use Rattle.bfs_shift.specs.TreeLaws.{first_rows};
ghost use Rattle.bfs_moves.specs.Grown.{IsLeaf};

use bfs_make::tree_header;
use bfs_node::{KeyKind, PAGE, blank, insert_row};
use std::alloc::{AllocError, Global};

/// The leaf of a new directory at a block, in the directory at another.
fn first_leaf(block: u64, parent: u64) -> [u8; PAGE]
    requires block { block < 2 ^ 62 }
    requires parent { parent < 2 ^ 62 }
    ensures { IsLeaf (first_rows block parent) result }
{
    let mut page = [0; PAGE];
    blank(&mut page);
    insert_row(&mut page, 0, b".", block as i64);
    insert_row(&mut page, 1, b"..", parent as i64);
    page
}

/// The bytes of the tree of a new directory at a block, in the directory at another.
pub(crate) fn first_tree(alloc: Global, block: u64, parent: u64) -> Result<Vec<u8>, AllocError>
    requires block { block < 2 ^ 62 }
    requires parent { parent < 2 ^ 62 }
    ensures tree { IfOk result (λ v. IsWholeTree Text v.items) }
    ensures rows { IfOk result (λ v. rows_in Text v.items ≡ first_rows block parent) }
    ensures length { IfOk result (λ v. length v.items ≡ 2048) }
{
    let mut bytes = Vec::new(alloc);
    bytes.extend_from_slice(&tree_header(KeyKind::Text))?;
    bytes.extend_from_slice(&first_leaf(block, parent))?;
    Ok(bytes)
}
