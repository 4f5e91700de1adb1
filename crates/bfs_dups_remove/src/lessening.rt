// Takes numbers out of fragments and duplicate pages.
ghost use Rattle.std.specs.Prelude.{◌≡◌, ◌≤◌, ◌<◌, ◌+◌, ◌*◌, ◌^◌, ◌∷◌, [], ℕ, length, None, IfSome};
ghost use Rattle.bfs_bytes.specs.Fields.{unsigned_at};
ghost use Rattle.bfs_pages.specs.Trees.{neighbours_in};
ghost use Rattle.bfs_values.specs.Values.{IsFragment, fragment_count, fragment_numbers, IsDuplicates, page_count, page_numbers, numbers_from};
ghost use Rattle.bfs_dups.specs.Slots.{list_count, SameBut};
ghost use Rattle.bfs_dups_remove.specs.Lessened.{without_number};

use bfs_dups::{copy_numbers, remove_number};
use bfs_node::PAGE;
use bfs_values::number_at;

/// Where plain numbers end: a link's type has the two upper bits.
const NUMBERS: u64 = 0x4000_0000_0000_0000;

/// Takes the number at a place out of a fragment of two or more.
pub fn narrow_fragment(page: &mut [u8], index: u64, i: usize)
    requires page { length page.old ≡ 1024 }
    requires fragment { IsFragment page.old index }
    requires some { 2 ≤ fragment_count page.old index }
    requires place { i < fragment_count page.old index }
    ensures good { IsFragment page.new index }
    ensures numbers { fragment_numbers page.new index ≡ without_number (unsigned_at 8 page.old (64 * index + 8 + 8 * i)) (fragment_numbers page.old index) }
    ensures others { SameBut page.old page.new (64 * index) (64 * index + 64) }
    ensures length { length page.new ≡ 1024 }
{
    let at = 64 * index as usize;
    let mut old = [0u8; PAGE];
    old.copy_from_slice(page);
    remove_number(&old, at, page, at, i);
}

/// Takes the number at a place out of a duplicate page of two or more.
pub fn narrow_page(page: &mut [u8], i: usize)
    requires page { length page.old ≡ 1024 }
    requires good { IsDuplicates page.old }
    requires some { 2 ≤ page_count page.old }
    requires place { i < page_count page.old }
    ensures good { IsDuplicates page.new }
    ensures numbers { page_numbers page.new ≡ without_number (unsigned_at 8 page.old (24 + 8 * i)) (page_numbers page.old) }
    ensures links { neighbours_in page.new ≡ neighbours_in page.old }
    ensures length { length page.new ≡ 1024 }
{
    let mut old = [0u8; PAGE];
    old.copy_from_slice(page);
    remove_number(&old, 16, page, 16, i);
}

/// The number of a list, where it has just one that can be plain.
pub fn lone_number(page: &[u8], at: usize) -> Option<u64>
    requires { at + 16 ≤ length page.now }
    ensures small { IfSome result (λ n. n < 2 ^ 62) }
    ensures only { IfSome result (λ n. numbers_from page.now (at + 8) (list_count page.now at) ≡ n ∷ []) }
    ensures none { result ≡ None → list_count page.now at ≡ 1 → 2 ^ 62 ≤ unsigned_at 8 page.now (at + 8) }
{
    let number = number_at(page, at + 8);
    if number_at(page, at) == 1 && number < NUMBERS {
        Some(number)
    } else {
        None
    }
}

/// Copies the numbers of a duplicate page of seven or fewer to a fragment of another page.
pub fn copy_list(from: &[u8], page: &mut [u8], index: u64)
    requires from { length from.now ≡ 1024 }
    requires good { IsDuplicates from.now }
    requires few { page_count from.now ≤ 7 }
    requires page { length page.old ≡ 1024 }
    requires index { index < 16 }
    ensures good { IsFragment page.new index }
    ensures numbers { fragment_numbers page.new index ≡ page_numbers from.now }
    ensures others { SameBut page.old page.new (64 * index) (64 * index + 64) }
    ensures length { length page.new ≡ 1024 }
{
    copy_numbers(
        from,
        16,
        page,
        64 * index as usize,
        number_at(from, 16) as usize + 1,
    );
}
