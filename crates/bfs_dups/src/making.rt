// Changes the pages that values reach: fragments are freed, and a duplicate page gets a number.
ghost use Rattle.std.specs.Prelude.{◌≡◌, ◌≤◌, ◌<◌, ◌+◌, ◌-◌, ◌*◌, ◌++◌, ◌∷◌, ℕ, length};
ghost use Rattle.bfs_base.specs.Lists.{times};
ghost use Rattle.bfs_pages.specs.Trees.{neighbours_in};
ghost use Rattle.bfs_values.specs.Values.{fragment_count, IsDuplicates, page_count, page_numbers, numbers_from, placed};

use crate::lists::{insert_number, put_number};
use bfs_node::PAGE;

/// Frees all fragments of a page.
pub fn free_all(page: &mut [u8])
    requires page { length page.old ≡ 1024 }
    ensures free { (j : ℕ) → j < 16 → fragment_count page.new j ≡ 0 }
    ensures length { length page.new ≡ 1024 }
{
    for i in 0..16usize {
        put_number(page, 64 * i, 0);
    }
}

/// Adds a number to a duplicate page, before the place where it belongs.
pub fn widen_page(page: &mut [u8], i: usize, number: u64)
    requires page { length page.old ≡ 1024 }
    requires good { IsDuplicates page.old }
    requires room { page_count page.old < 125 }
    requires inside { i ≤ page_count page.old }
    requires place { placed number (page_numbers page.old) ≡ numbers_from page.old 24 i ++ (number ∷ numbers_from page.old (24 + 8 * i) (page_count page.old - i)) }
    requires absent { times number (page_numbers page.old) ≡ 0 }
    ensures good { IsDuplicates page.new }
    ensures numbers { page_numbers page.new ≡ placed number (page_numbers page.old) }
    ensures links { neighbours_in page.new ≡ neighbours_in page.old }
    ensures length { length page.new ≡ 1024 }
{
    let mut old = [0u8; PAGE];
    old.copy_from_slice(page);
    insert_number(&old, 16, page, 16, (i, number));
}
