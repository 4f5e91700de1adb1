// Takes a row out of a leaf, and a child out of an interior page.
ghost use Rattle.std.specs.Prelude.{◌≡◌, ◌≤◌, ◌<◌, ◌-◌, ◌+◌, ℕ, List, Some, length, remove, OnOk, IfErr, if◌then◌else◌, ◌==◌};
ghost use Rattle.bfs_base.specs.Keys.{IsTreeKind};
ghost use Rattle.bfs_node.specs.Page.{IsPage, HasLayout, rows_of, links_of};
ghost use Rattle.bfs_pages.specs.Answers.{IsChild};
ghost use Rattle.bfs_pages.specs.Writes.{Makes, Kept, PageSet, IsFailed};
ghost use Rattle.bfs_remove.specs.Removed.{rows_less, last_less};

use bfs_node::{TreeFault, remove_row, row_count, row_value, set_overflow_link};
use bfs_pages::txn::Pages;
use bfs_pages::write_page;

/// Takes a row out of a leaf, and writes the leaf.
pub fn cut_row<P: Pages>(
    pages: &mut P,
    at: u64,
    page: &mut [u8],
    i: usize,
) -> Result<(), TreeFault<P::Fault>>
    requires page { HasLayout page.old }
    requires row { i < length (rows_of page.old) }
    requires at { IsChild (P.size pages.old) at }
    ensures page { HasLayout page.new }
    ensures rows { rows_of page.new ≡ remove (rows_of page.old) i }
    ensures links { links_of page.new ≡ links_of page.old }
    ensures made { OnOk result (Makes (P.told pages.old) (P.told pages.new) (λ b c. PageSet b c at page.new)) }
    ensures size { OnOk result (P.size pages.new ≡ P.size pages.old) }
    ensures failed { IfErr result (IsFailed (P.is_cause pages.old pages.new)) }
    ensures kept { Kept (P.counts pages.old) (P.counts pages.new) (P.frame pages.old) (P.frame pages.new) (P.goes_on pages.old pages.new) }
{
    remove_row(page, i);
    match write_page(pages, at, page) {
        Ok(()) => Ok(()),
        Err(fault) => Err(fault),
    }
}

/// Takes a child out of an interior page: that of the row at a place, with the row, or the last one, whose place the
/// child of the last row takes. A page without rows stays.
pub fn drop_link(page: &mut [u8], i: usize)
    requires page { HasLayout page.old }
    requires place { i ≤ length (rows_of page.old) }
    ensures page { HasLayout page.new }
    ensures left { (links_of page.new).left ≡ (links_of page.old).left }
    ensures right { (links_of page.new).right ≡ (links_of page.old).right }
    ensures rows { rows_of page.new ≡ rows_less (rows_of page.old) i }
    ensures last { (links_of page.new).overflow ≡ last_less (rows_of page.old) (links_of page.old).overflow i }
{
    let count = row_count(page);
    if i < count {
        remove_row(page, i);
    } else if count > 0 {
        let last = row_value(page, count - 1);
        remove_row(page, count - 1);
        set_overflow_link(page, last);
    }
}
