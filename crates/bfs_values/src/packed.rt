// Numbers of eight bytes that stand one behind another in a page.
ghost use Rattle.std.specs.Prelude.{◌≡◌, ◌≤◌, ◌+◌, ◌*◌, ◌++◌, ◌↔◌, length, OnOk, MatchOption};
ghost use Rattle.bfs_bytes.specs.Fields.{unsigned_at};
ghost use Rattle.bfs_values.specs.Values.{numbers_from, is_ascending, IsFragment, fragment_count, IsDuplicates, page_count};

use byteorder::{ByteOrder, LittleEndian};
use std::alloc::AllocError;

/// The number in the eight bytes from a place on.
#[tactic(auto, unfolding(bfs_bytes::specs::Fields::unsigned_at))]
pub fn number_at(page: &[u8], at: usize) -> u64
    requires { at + 8 ≤ length page.now }
    ensures { result ≡ unsigned_at 8 page.now at }
{
    LittleEndian::read_u64(&page[at..])
}

/// Whether each of so many numbers is less than the next.
pub fn ascends(page: &[u8], at: usize, count: usize) -> bool
    requires { at + 8 * count ≤ length page.now }
    ensures { result ≡ is_ascending (numbers_from page.now at count) }
{
    let mut i = 0;
    while i + 1 < count {
        if number_at(page, at + 8 * i) >= number_at(page, at + 8 * (i + 1)) {
            return false;
        }
        i += 1;
    }
    true
}

/// Adds so many numbers of a page to a list.
pub fn add_numbers(
    page: &[u8],
    at: usize,
    count: usize,
    numbers: &mut Vec<u64>,
) -> Result<(), AllocError>
    requires { at + 8 * count ≤ length page.now }
    ensures { OnOk result (numbers.new.items ≡ numbers.old.items ++ numbers_from page.now at count) }
{
    for i in 0..count {
        numbers.push(number_at(page, at + 8 * i))?;
    }
    Ok(())
}

/// How many numbers a fragment in use has, or None where it is none.
pub fn fragment_size(page: &[u8], index: u64) -> Option<usize>
    requires { length page.now ≡ 1024 }
    ensures { MatchOption result (¬ IsFragment page.now index) (λ n. IsFragment page.now index × (n ≡ fragment_count page.now index)) }
{
    if index >= 16 {
        return None;
    }
    let at = 64 * index as usize;
    let count = number_at(page, at);
    if count < 1 || count > 7 || !ascends(page, at + 8, count as usize) {
        return None;
    }
    Some(count as usize)
}

/// How many numbers a duplicate page has, or None where it is none.
pub fn duplicates_size(page: &[u8]) -> Option<usize>
    requires { length page.now ≡ 1024 }
    ensures { MatchOption result (¬ IsDuplicates page.now) (λ n. IsDuplicates page.now × (n ≡ page_count page.now)) }
{
    let count = number_at(page, 16);
    if count < 1 || count > 125 || !ascends(page, 24, count as usize) {
        return None;
    }
    Some(count as usize)
}
