// Makes the pages that values reach, and changes them: fragments, and duplicate pages.
ghost use Rattle.std.specs.Prelude.{◌≡◌, ◌≤◌, ◌<◌, ◌+◌, ◌-◌, ◌*◌, ◌^◌, ◌++◌, ◌∷◌, [], length};
ghost use Rattle.bfs_base.specs.Lists.{times};
ghost use Rattle.bfs_pages.specs.Trees.{neighbours_in};
ghost use Rattle.bfs_values.specs.Values.{IsFragment, fragment_count, fragment_numbers, page_count, page_numbers, numbers_from, placed};
ghost use Rattle.bfs_dups.specs.Slots.{SameBut};
ghost use Rattle.bfs_dups.specs.Written.{IsLone};
ghost use Rattle.bfs_dups_add.specs.Written.{IsLast};

use bfs_dups::{free_all, insert_number, put_number};
use bfs_node::PAGE;

/// Writes two different numbers into a fragment of a page.
pub fn set_pair(page: &mut [u8], index: u64, a: u64, b: u64)
    requires page { length page.old ≡ 1024 }
    requires index { index < 16 }
    requires order { a < b }
    ensures good { IsFragment page.new index }
    ensures numbers { fragment_numbers page.new index ≡ a ∷ b ∷ [] }
    ensures others { SameBut page.old page.new (64 * index) (64 * index + 64) }
    ensures length { length page.new ≡ 1024 }
{
    let at = 64 * index as usize;
    put_number(page, at, 2);
    put_number(page, at + 8, a);
    put_number(page, at + 16, b);
}

/// Makes a page whose first fragment has two different numbers, and whose other fragments are free.
pub fn page_of_pair(page: &mut [u8], a: u64, b: u64)
    requires page { length page.old ≡ 1024 }
    requires order { a < b }
    ensures page { IsLone page.new 0 (a ∷ b ∷ []) }
    ensures length { length page.new ≡ 1024 }
{
    free_all(page);
    set_pair(page, 0, a, b);
}

/// Adds a number to a fragment of a page, before the place where it belongs.
pub fn widen_fragment(page: &mut [u8], index: u64, i: usize, number: u64)
    requires page { length page.old ≡ 1024 }
    requires fragment { IsFragment page.old index }
    requires room { fragment_count page.old index < 7 }
    requires inside { i ≤ fragment_count page.old index }
    requires place { placed number (fragment_numbers page.old index) ≡ numbers_from page.old (64 * index + 8) i ++ (number ∷ numbers_from page.old (64 * index + 8 + 8 * i) (fragment_count page.old index - i)) }
    requires absent { times number (fragment_numbers page.old index) ≡ 0 }
    ensures good { IsFragment page.new index }
    ensures numbers { fragment_numbers page.new index ≡ placed number (fragment_numbers page.old index) }
    ensures others { SameBut page.old page.new (64 * index) (64 * index + 64) }
    ensures length { length page.new ≡ 1024 }
{
    let at = 64 * index as usize;
    let mut old = [0u8; PAGE];
    old.copy_from_slice(page);
    insert_number(&old, at, page, at, (i, number));
}

/// Makes a duplicate page without neighbours, of the numbers of a fragment and one more.
pub fn page_of_fragment(old: &[u8], index: u64, i: usize, number: u64, page: &mut [u8])
    requires old { length old.now ≡ 1024 }
    requires fragment { IsFragment old.now index }
    requires inside { i ≤ fragment_count old.now index }
    requires place { placed number (fragment_numbers old.now index) ≡ numbers_from old.now (64 * index + 8) i ++ (number ∷ numbers_from old.now (64 * index + 8 + 8 * i) (fragment_count old.now index - i)) }
    requires absent { times number (fragment_numbers old.now index) ≡ 0 }
    requires page { length page.old ≡ 1024 }
    ensures page { IsLast page.new (placed number (fragment_numbers old.now index)) }
    ensures left { (neighbours_in page.new).0 ≡ 0 }
    ensures length { length page.new ≡ 1024 }
{
    put_number(page, 0, u64::MAX);
    put_number(page, 8, u64::MAX);
    insert_number(old, 64 * index as usize, page, 16, (i, number));
}

/// Makes a duplicate page of one number, with a page to its left.
pub fn page_of_number(left: u64, number: u64, page: &mut [u8])
    requires page { length page.old ≡ 1024 }
    ensures page { IsLast page.new (number ∷ []) }
    ensures left { 1 ≤ left → left < 2 ^ 63 → (neighbours_in page.new).0 ≡ left }
    ensures length { length page.new ≡ 1024 }
{
    put_number(page, 0, left);
    put_number(page, 8, u64::MAX);
    put_number(page, 16, 1);
    put_number(page, 24, number);
}

/// Writes the right link of a duplicate page.
pub fn set_next(page: &mut [u8], next: u64)
    requires page { length page.old ≡ 1024 }
    requires some { 1 ≤ next }
    requires next { next < 2 ^ 62 }
    ensures next { (neighbours_in page.new).1 ≡ next }
    ensures left { (neighbours_in page.new).0 ≡ (neighbours_in page.old).0 }
    ensures count { page_count page.new ≡ page_count page.old }
    ensures numbers { page_numbers page.new ≡ page_numbers page.old }
    ensures length { length page.new ≡ 1024 }
{
    put_number(page, 8, next);
}
