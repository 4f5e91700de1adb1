// The rows of a leaf.
ghost use Rattle.std.specs.Prelude.{◌≡◌, ◌<◌, ◌++◌, [], ◌∷◌, length, OnOk};
ghost use Rattle.bfs_node.specs.Page.{HasLayout, rows_of, row_in};
ghost use Rattle.bfs_names_walk.specs.Rows.{as_rows};

use crate::NameRow;
use bfs_node::{row_count, row_key, row_value};
use bfs_tree::Bytes;
use std::alloc::{AllocError, Global};

/// Puts the row of a leaf at a place behind others.
fn take_row(alloc: Global, page: &[u8], i: usize, rows: &mut Vec<NameRow>) -> Result<(), AllocError>
    requires page { HasLayout page.now }
    requires inside { i < length (rows_of page.now) }
    ensures { OnOk result (as_rows rows.new.items ≡ as_rows rows.old.items ++ row_in (rows_of page.now) i ∷ []) }
{
    let value = row_value(page, i);
    let name = match Bytes::from_slice(alloc, row_key(page, i)) {
        Ok(name) => name,
        Err(fault) => return Err(fault),
    };
    match rows.push(NameRow { name, value }) {
        Ok(()) => Ok(()),
        Err(fault) => Err(fault.into()),
    }
}

/// Puts all rows of a leaf behind others.
pub fn take_rows(alloc: Global, page: &[u8], rows: &mut Vec<NameRow>) -> Result<(), AllocError>
    requires { HasLayout page.now }
    ensures { OnOk result (as_rows rows.new.items ≡ as_rows rows.old.items ++ rows_of page.now) }
{
    for i in 0..row_count(page) {
        match take_row(alloc, page, i, rows) {
            Ok(()) => {}
            Err(fault) => return Err(fault),
        }
    }
    Ok(())
}
