// The bytes of duplicate pages whose numbers or links change.
ghost use Rattle.std.specs.Prelude.{◌≡◌, ◌≤◌, ◌<◌, ◌+◌, ◌++◌, ◌^◌, ℕ, length};
ghost use Rattle.bfs_base.specs.Lists.{times, IsOnce};
ghost use Rattle.bfs_pages.specs.Trees.{neighbours_in};
ghost use Rattle.bfs_values.specs.Values.{IsDuplicates, page_count, page_numbers, in_order};

use bfs_dups::{copy_numbers, find_number, put_number, widen_page};
use bfs_values::number_at;

/// Adds the numbers of a duplicate page to those of another.
pub fn absorb(page: &mut [u8], from: &[u8])
    requires page { length page.old ≡ 1024 }
    requires from { length from.now ≡ 1024 }
    requires good { IsDuplicates page.old }
    requires other { IsDuplicates from.now }
    requires room { page_count page.old + page_count from.now ≤ 125 }
    ensures good { IsDuplicates page.new }
    ensures numbers { IsOnce (page_numbers from.now ++ page_numbers page.old) → page_numbers page.new ≡ in_order (page_numbers from.now ++ page_numbers page.old) }
    ensures links { neighbours_in page.new ≡ neighbours_in page.old }
    ensures length { length page.new ≡ 1024 }
{
    let mut left = number_at(from, 16) as usize;
    while left > 0 {
        left -= 1;
        let number = number_at(from, 24 + 8 * left);
        let count = number_at(page, 16) as usize;
        match find_number(page, 24, count, number) {
            Ok(_) => {}
            Err(i) => widen_page(page, i, number),
        }
    }
}

/// Copies the numbers of a duplicate page to another, in the place of its own.
pub fn take_numbers(page: &mut [u8], from: &[u8])
    requires page { length page.old ≡ 1024 }
    requires from { length from.now ≡ 1024 }
    requires good { IsDuplicates from.now }
    ensures good { IsDuplicates page.new }
    ensures numbers { page_numbers page.new ≡ page_numbers from.now }
    ensures links { neighbours_in page.new ≡ neighbours_in page.old }
    ensures length { length page.new ≡ 1024 }
{
    copy_numbers(from, 16, page, 16, number_at(from, 16) as usize + 1);
}

/// Gives a duplicate page the right link of another.
pub fn link_past(page: &mut [u8], gone: &[u8])
    requires page { length page.old ≡ 1024 }
    requires gone { length gone.now ≡ 1024 }
    ensures next { (neighbours_in page.new).1 ≡ (neighbours_in gone.now).1 }
    ensures left { (neighbours_in page.new).0 ≡ (neighbours_in page.old).0 }
    ensures count { page_count page.new ≡ page_count page.old }
    ensures numbers { page_numbers page.new ≡ page_numbers page.old }
    ensures length { length page.new ≡ 1024 }
{
    put_number(page, 8, number_at(gone, 8));
}

/// Writes the left link of a duplicate page.
pub fn set_left(page: &mut [u8], left: u64)
    requires page { length page.old ≡ 1024 }
    ensures next { (neighbours_in page.new).1 ≡ (neighbours_in page.old).1 }
    ensures left { 1 ≤ left → left < 2 ^ 63 → (neighbours_in page.new).0 ≡ left }
    ensures count { page_count page.new ≡ page_count page.old }
    ensures numbers { page_numbers page.new ≡ page_numbers page.old }
    ensures length { length page.new ≡ 1024 }
{
    put_number(page, 0, left);
}
