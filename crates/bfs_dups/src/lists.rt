// Lists of numbers in a page: a count, and the numbers behind it.
ghost use Rattle.std.specs.Prelude.{◌≡◌, ◌≤◌, ◌<◌, ◌+◌, ◌-◌, ◌*◌, ◌++◌, ◌∷◌, length, true, MatchResult};
ghost use Rattle.bfs_base.specs.Lists.{times};
ghost use Rattle.bfs_bytes.specs.Fields.{unsigned_at};
ghost use Rattle.bfs_values.specs.Values.{numbers_from, is_ascending, placed};
ghost use Rattle.bfs_dups.specs.Slots.{list_count, SameBut};

use bfs_values::number_at;
use byteorder::{ByteOrder, LittleEndian};

/// Writes a number into the eight bytes from a place on.
pub fn put_number(page: &mut [u8], at: usize, number: u64)
    requires { at + 8 ≤ length page.old }
    ensures here { unsigned_at 8 page.new at ≡ number }
    ensures others { SameBut page.old page.new at (at + 8) }
    ensures length { length page.new ≡ length page.old }
{
    LittleEndian::write_u64(&mut page[at..], number);
}

/// Copies so many numbers of another page to a place.
pub fn copy_numbers(old: &[u8], from: usize, page: &mut [u8], to: usize, count: usize)
    requires from { from + 8 * count ≤ length old.now }
    requires to { to + 8 * count ≤ length page.old }
    ensures numbers { numbers_from page.new to count ≡ numbers_from old.now from count }
    ensures others { SameBut page.old page.new to (to + 8 * count) }
    ensures length { length page.new ≡ length page.old }
{
    for i in 0..count {
        put_number(page, to + 8 * i, number_at(old, from + 8 * i));
    }
}

/// Where a number stands among ascending ones, or before which of them it belongs.
pub fn find_number(page: &[u8], at: usize, count: usize, number: u64) -> Result<usize, usize>
    requires inside { at + 8 * count ≤ length page.now }
    ensures place { MatchResult result (λ i. (i < count) × (unsigned_at 8 page.now (at + 8 * i) ≡ number)) (λ i. (i ≤ count) × (placed number (numbers_from page.now at count) ≡ numbers_from page.now at i ++ (number ∷ numbers_from page.now (at + 8 * i) (count - i)))) }
    ensures absent { is_ascending (numbers_from page.now at count) ≡ true → MatchResult result (λ i. 1 ≤ times number (numbers_from page.now at count)) (λ i. times number (numbers_from page.now at count) ≡ 0) }
{
    let mut i = 0;
    while i < count {
        let other = number_at(page, at + 8 * i);
        if other == number {
            return Ok(i);
        }
        if other > number {
            return Err(i);
        }
        i += 1;
    }
    Err(i)
}

/// Writes the list at a place of another page with one number more.
pub fn insert_number(old: &[u8], from: usize, page: &mut [u8], to: usize, place: (usize, u64))
    requires old { from + 8 + 8 * list_count old.now from ≤ length old.now }
    requires small { length old.now ≤ 1024 }
    requires page { to + 8 + 8 * (list_count old.now from + 1) ≤ length page.old }
    requires place { place.0 ≤ list_count old.now from }
    ensures count { list_count page.new to ≡ list_count old.now from + 1 }
    ensures numbers { numbers_from page.new (to + 8) (list_count old.now from + 1) ≡ numbers_from old.now (from + 8) place.0 ++ (place.1 ∷ numbers_from old.now (from + 8 + 8 * place.0) (list_count old.now from - place.0)) }
    ensures others { SameBut page.old page.new to (to + 8 + 8 * (list_count old.now from + 1)) }
    ensures length { length page.new ≡ length page.old }
{
    let (i, number) = place;
    let count = number_at(old, from) as usize;
    put_number(page, to, count as u64 + 1);
    copy_numbers(old, from + 8, page, to + 8, i);
    put_number(page, to + 8 + 8 * i, number);
    copy_numbers(old, from + 8 + 8 * i, page, to + 8 + 8 * (i + 1), count - i);
}

/// Writes the list at a place of another page without the number at a place among its numbers.
pub fn remove_number(old: &[u8], from: usize, page: &mut [u8], to: usize, i: usize)
    requires old { from + 8 + 8 * list_count old.now from ≤ length old.now }
    requires small { length old.now ≤ 1024 }
    requires page { to + 8 + 8 * list_count old.now from ≤ length page.old }
    requires place { i < list_count old.now from }
    ensures count { list_count page.new to + 1 ≡ list_count old.now from }
    ensures numbers { numbers_from page.new (to + 8) (list_count old.now from - 1) ≡ numbers_from old.now (from + 8) i ++ numbers_from old.now (from + 8 + 8 * (i + 1)) (list_count old.now from - (i + 1)) }
    ensures others { SameBut page.old page.new to (to + 8 + 8 * list_count old.now from) }
    ensures length { length page.new ≡ length page.old }
{
    let count = number_at(old, from) as usize;
    put_number(page, to, count as u64 - 1);
    copy_numbers(old, from + 8, page, to + 8, i);
    copy_numbers(
        old,
        from + 8 + 8 * (i + 1),
        page,
        to + 8 + 8 * i,
        count - (i + 1),
    );
}
