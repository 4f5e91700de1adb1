// Reads the rows and the links of a page.
ghost use Rattle.std.specs.Prelude.{◌≡◌, ◌≤◌, ◌<◌, ◌+◌, ◌-◌, ◌*◌, length, take, drop};
ghost use Rattle.bfs_node.specs.Page.{HasLayout, base_at, count_at, key_bytes_at, end_at, start_at, rows_of, row_in, key_of, value_of, keys_of, left_of, right_of, overflow_of, links_of};

use crate::Links;
use bfs_bytes::{i64_at, u16_at};

/// How many rows a page has.
pub fn row_count(page: &[u8]) -> usize
    requires { HasLayout page.now }
    ensures { result ≡ length (rows_of page.now) }
{
    u16_at(page, 24) as usize
}

/// How many bytes the keys of a page have.
pub fn key_bytes(page: &[u8]) -> usize
    requires { HasLayout page.now }
    ensures field { result ≡ key_bytes_at page.now }
    ensures rows { result ≡ length (keys_of (rows_of page.now)) }
{
    u16_at(page, 26) as usize
}

/// Where the keys' ends begin.
fn ends_base(page: &[u8]) -> usize
    requires { HasLayout page.now }
    ensures { result ≡ base_at page.now }
{
    (28 + key_bytes(page) + 7) / 8 * 8
}

/// Where the key of a row ends, counted from the first key.
fn key_end(page: &[u8], i: usize) -> usize
    requires page { HasLayout page.now }
    requires place { i < count_at page.now }
    ensures end { result ≡ end_at page.now i }
    ensures within { result ≤ key_bytes_at page.now }
{
    u16_at(page, ends_base(page) + 2 * i) as usize
}

/// Where the key of a row starts, counted from the first key; of the place behind the last row, where that ends.
pub fn key_start(page: &[u8], i: usize) -> usize
    requires page { HasLayout page.now }
    requires place { i ≤ length (rows_of page.now) }
    ensures field { result ≡ start_at page.now i }
    ensures rows { result ≡ length (keys_of (take i (rows_of page.now))) }
{
    if i == 0 { 0 } else { key_end(page, i - 1) }
}

fn cut(page: &[u8], from: usize, to: usize) -> &[u8]
    requires order { from ≤ to }
    requires within { to ≤ length page.now }
    ensures { result.now ≡ take (to - from) (drop from page.now) }
{
    &page[from..to]
}

/// The key of the row at a place.
pub fn row_key(page: &[u8], i: usize) -> &[u8]
    requires page { HasLayout page.now }
    requires place { i < length (rows_of page.now) }
    ensures { result.now ≡ key_of (row_in (rows_of page.now) i) }
{
    cut(page, 28 + key_start(page, i), 28 + key_end(page, i))
}

/// Where the value of a row stands.
pub fn value_place(page: &[u8], i: usize) -> usize
    requires page { HasLayout page.now }
    requires place { i < length (rows_of page.now) }
    ensures place { result ≡ base_at page.now + 2 * count_at page.now + 8 * i }
    ensures within { result + 8 ≤ length page.now }
{
    ends_base(page) + 2 * row_count(page) + 8 * i
}

/// The value of the row at a place.
pub fn row_value(page: &[u8], i: usize) -> i64
    requires page { HasLayout page.now }
    requires place { i < length (rows_of page.now) }
    ensures { result ≡ value_of (row_in (rows_of page.now) i) }
{
    i64_at(page, value_place(page, i))
}

/// The page to the left, or -1. Of a free page, the next free one, or -1.
pub fn left_link(page: &[u8]) -> i64
    requires { length page.now ≡ 1024 }
    ensures { result ≡ left_of page.now }
{
    i64_at(page, 0)
}

/// The page to the right, or -1.
pub fn right_link(page: &[u8]) -> i64
    requires { length page.now ≡ 1024 }
    ensures { result ≡ right_of page.now }
{
    i64_at(page, 8)
}

/// The last child of an interior page; -1 of a leaf, and -2 of a free page.
pub fn overflow_link(page: &[u8]) -> i64
    requires { length page.now ≡ 1024 }
    ensures { result ≡ overflow_of page.now }
{
    i64_at(page, 16)
}

/// The three links.
pub fn page_links(page: &[u8]) -> Links
    requires { length page.now ≡ 1024 }
    ensures { result ≡ links_of page.now }
{
    Links {
        left: left_link(page),
        right: right_link(page),
        overflow: overflow_link(page),
    }
}
