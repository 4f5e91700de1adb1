// The children of an interior page, and the keys between them.
ghost use Rattle.std.specs.Prelude.{◌≡◌, ◌++◌, OnOk};
ghost use Rattle.bfs_node.specs.Page.{IsPage, rows_of, overflow_of};
ghost use Rattle.bfs_tree_check.specs.Levels.{opened};

use crate::Item;
use bfs_node::{KeyKind, overflow_link, row_count, row_value};
use bfs_pages::place;
use std::alloc::AllocError;

/// Appends the children of the interior page at a place to a level, with the page's keys between them.
pub fn open_page(
    page: &[u8],
    kind: KeyKind,
    at: u64,
    items: &mut Vec<Item>,
) -> Result<(), AllocError>
    requires { IsPage kind page.now }
    ensures { OnOk result (items.new.items ≡ items.old.items ++ opened at 0 (rows_of page.now) (overflow_of page.now)) }
{
    for i in 0..row_count(page) {
        let child = place(row_value(page, i));
        items.push(Item::Page { at: child })?;
        items.push(Item::Key { page: at, index: i })?;
    }
    let last = place(overflow_link(page));
    items.push(Item::Page { at: last })?;
    Ok(())
}
