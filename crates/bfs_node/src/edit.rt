// Changes the rows and the links of a page that is lent.
ghost use Rattle.std.specs.Prelude.{◌≡◌, ◌≤◌, ◌<◌, ◌+◌, ◌↔◌, [], length, take, drop, insert, remove, slice_set, IsTrue};
ghost use Rattle.bfs_bytes.specs.Fields.{Puts, signed64_bytes};
ghost use Rattle.bfs_node.specs.Page.{HasLayout, HasRoom, rows_of, row_in, key_of, keys_of, taken_by, links_of, null_links, blank_page};

use crate::NULL_LINKS;
use crate::read::{key_bytes, page_links, row_count, value_place};
use crate::write::{make_blank, make_part, make_with_row, make_without_row};
use bfs_bytes::put_i64;

/// Whether a page has room for one more row, with this key.
pub fn has_room(page: &[u8], key: &[u8]) -> bool
    requires { HasLayout page.now }
    ensures { IsTrue result ↔ HasRoom (rows_of page.now) key.now }
{
    let bytes = key_bytes(page);
    key.len() <= 1024 && (28 + bytes + key.len() + 7) / 8 * 8 + 10 * (row_count(page) + 1) <= 1024
}

/// How many bytes of a page no row takes: a row takes its key, two bytes for the key's end and eight for the
/// value, and the keys are filled up to a multiple of eight.
pub fn free_bytes(page: &[u8]) -> usize
    requires { HasLayout page.now }
    ensures { result + taken_by (length (rows_of page.now)) (length (keys_of (rows_of page.now))) ≡ 1024 }
{
    1024 - ((28 + key_bytes(page) + 7) / 8 * 8 + 10 * row_count(page))
}

/// Puts a row into a page, before the row at this place or behind the last one.
pub fn insert_row(page: &mut [u8], i: usize, key: &[u8], value: i64)
    requires page { HasLayout page.old }
    requires place { i ≤ length (rows_of page.old) }
    requires room { HasRoom (rows_of page.old) key.now }
    ensures page { HasLayout page.new }
    ensures rows { rows_of page.new ≡ insert (rows_of page.old) i (key.now, value) }
    ensures links { links_of page.new ≡ links_of page.old }
{
    let mut next = [0u8; 1024];
    make_with_row(page, i, key, value, &mut next);
    page.copy_from_slice(&next);
}

/// Takes a row out of a page.
pub fn remove_row(page: &mut [u8], i: usize)
    requires page { HasLayout page.old }
    requires place { i < length (rows_of page.old) }
    ensures page { HasLayout page.new }
    ensures rows { rows_of page.new ≡ remove (rows_of page.old) i }
    ensures links { links_of page.new ≡ links_of page.old }
{
    let mut next = [0u8; 1024];
    make_without_row(page, i, &mut next);
    page.copy_from_slice(&next);
}

/// Writes the value of the row at a place.
pub fn set_row_value(page: &mut [u8], i: usize, value: i64)
    requires page { HasLayout page.old }
    requires place { i < length (rows_of page.old) }
    ensures page { HasLayout page.new }
    ensures rows { rows_of page.new ≡ slice_set (rows_of page.old) i (key_of (row_in (rows_of page.old) i), value) }
    ensures links { links_of page.new ≡ links_of page.old }
{
    let at = value_place(page, i);
    put_i64(page, at, value);
}

/// Moves the rows from a place on, in their order, into another page, which gets three null links.
pub fn split_rows(page: &mut [u8], into: &mut [u8], at: usize)
    requires page { HasLayout page.old }
    requires into { length into.old ≡ 1024 }
    requires place { at ≤ length (rows_of page.old) }
    ensures page { HasLayout page.new }
    ensures rows { rows_of page.new ≡ take at (rows_of page.old) }
    ensures links { links_of page.new ≡ links_of page.old }
    ensures into { HasLayout into.new }
    ensures moved { rows_of into.new ≡ drop at (rows_of page.old) }
    ensures alone { links_of into.new ≡ null_links }
{
    let count = row_count(page);
    let mut front = [0u8; 1024];
    let mut back = [0u8; 1024];
    make_part(page, 0, at, page_links(page), &mut front);
    make_part(page, at, count, NULL_LINKS, &mut back);
    page.copy_from_slice(&front);
    into.copy_from_slice(&back);
}

/// Makes a page an empty leaf with three null links; every other byte is zero.
pub fn blank(page: &mut [u8])
    requires { length page.old ≡ 1024 }
    ensures bytes { page.new ≡ blank_page }
    ensures page { HasLayout page.new }
    ensures rows { rows_of page.new ≡ [] }
    ensures links { links_of page.new ≡ null_links }
{
    let mut next = [0u8; 1024];
    make_blank(&mut next);
    page.copy_from_slice(&next);
}

/// Writes the link to the left.
pub fn set_left_link(page: &mut [u8], link: i64)
    requires { length page.old ≡ 1024 }
    ensures puts { Puts 0 (signed64_bytes link) page.old page.new }
    ensures links { links_of page.new ≡ record (links_of page.old) { left = link } }
    ensures rows { rows_of page.new ≡ rows_of page.old }
    ensures page { HasLayout page.old → HasLayout page.new }
{
    put_i64(page, 0, link);
}

/// Writes the link to the right.
pub fn set_right_link(page: &mut [u8], link: i64)
    requires { length page.old ≡ 1024 }
    ensures puts { Puts 8 (signed64_bytes link) page.old page.new }
    ensures links { links_of page.new ≡ record (links_of page.old) { right = link } }
    ensures rows { rows_of page.new ≡ rows_of page.old }
    ensures page { HasLayout page.old → HasLayout page.new }
{
    put_i64(page, 8, link);
}

/// Writes the overflow link.
pub fn set_overflow_link(page: &mut [u8], link: i64)
    requires { length page.old ≡ 1024 }
    ensures puts { Puts 16 (signed64_bytes link) page.old page.new }
    ensures links { links_of page.new ≡ record (links_of page.old) { overflow = link } }
    ensures rows { rows_of page.new ≡ rows_of page.old }
    ensures page { HasLayout page.old → HasLayout page.new }
{
    put_i64(page, 16, link);
}
