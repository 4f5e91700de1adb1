// Makes pages of rows.
ghost use Rattle.std.specs.Prelude.{◌≡◌, ◌≤◌, ◌<◌, ◌+◌, ◌-◌, ◌*◌, List, [], ◌∷◌, ◌++◌, length, take, drop, insert, remove};
ghost use Rattle.bfs_bytes.specs.Fields.{Puts};
ghost use Rattle.bfs_node.specs.Page.{Row, HasLayout, HasRoom, rows_of, keys_of, links_of, base_of, taken_by, head_bytes, null_links};
ghost use Rattle.bfs_node.specs.Written.{part, two, Written, Holds};

use crate::read::{key_bytes, key_start, page_links, row_count, row_key, row_value};
use crate::{Links, NULL_LINKS};
use bfs_bytes::{put_bytes, put_i64, put_u16};

/// Where the ends of the keys begin in a page, and how many there are.
#[derive(Clone, Copy)]
struct Table {
    base: usize,
    count: usize,
}

/// Writes the links and both counts of a page that is to have so many rows.
fn begin(page: &mut [u8], links: Links, count: usize, bytes: usize) -> Table
    requires size { length page.old ≡ 1024 }
    requires fits { taken_by count bytes ≤ 1024 }
    ensures head { Puts 0 (head_bytes links count bytes) page.old page.new }
    ensures base { result.base ≡ base_of bytes }
    ensures count { result.count ≡ count }
    ensures size { length page.new ≡ 1024 }
    ensures links { links_of page.new ≡ links }
    ensures count_field { part page.new 24 2 ≡ two count }
    ensures bytes_field { part page.new 26 2 ≡ two bytes }
{
    put_i64(page, 0, links.left);
    put_i64(page, 8, links.right);
    put_i64(page, 16, links.overflow);
    put_u16(page, 24, count as u16);
    put_u16(page, 26, bytes as u16);
    Table {
        base: (28 + bytes + 7) / 8 * 8,
        count,
    }
}

/// Writes row j into a page, whose keys so far end at `end`, and gives where they end now.
fn write_row(page: &mut [u8], table: Table, j: usize, end: usize, key: &[u8], value: i64) -> usize
    requires page { length page.old ≡ 1024 }
    requires key { 28 + end + length key.now ≤ table.base }
    requires ends { table.base + 10 * table.count ≤ 1024 }
    requires place { j < table.count }
    ensures end { result ≡ end + length key.now }
    ensures head { part page.new 0 28 ≡ part page.old 0 28 }
    ensures size { length page.new ≡ 1024 }
    ensures written { (rows : List Row) → length rows ≡ j → length (keys_of rows) ≡ end
        → Written page.old table.base (table.base + 2 * table.count) rows
        → Written page.new table.base (table.base + 2 * table.count) (rows ++ (key.now, value) ∷ []) }
{
    put_bytes(page, 28 + end, key);
    let next = end + key.len();
    put_u16(page, table.base + 2 * j, next as u16);
    put_i64(page, table.base + 2 * table.count + 8 * j, value);
    next
}

/// Writes the rows of an old page from one place to another into a page, and gives where the keys end now.
/// The first becomes row `first` of the page, and its key begins at `end`.
fn copy_rows(
    old: &[u8],
    from: usize,
    to: usize,
    page: &mut [u8],
    table: Table,
    first: usize,
    end: usize,
) -> usize
    requires old { HasLayout old.now }
    requires order { from ≤ to }
    requires within { to ≤ length (rows_of old.now) }
    requires room { 28 + end + length (keys_of (take to (rows_of old.now))) ≤ table.base + length (keys_of (take from (rows_of old.now))) }
    requires ends { table.base + 10 * table.count ≤ 1024 }
    requires place { first + (to - from) ≤ table.count }
    requires page { length page.old ≡ 1024 }
    ensures end { result + length (keys_of (take from (rows_of old.now))) ≡ end + length (keys_of (take to (rows_of old.now))) }
    ensures head { part page.new 0 28 ≡ part page.old 0 28 }
    ensures size { length page.new ≡ 1024 }
    ensures written { (rows : List Row) → length rows ≡ first → length (keys_of rows) ≡ end
        → Written page.old table.base (table.base + 2 * table.count) rows
        → Written page.new table.base (table.base + 2 * table.count) (rows ++ take (to - from) (drop from (rows_of old.now))) }
{
    let mut e = end;
    for m in from..to {
        e = write_row(
            page,
            table,
            first + (m - from),
            e,
            row_key(old, m),
            row_value(old, m),
        );
    }
    e
}

/// Makes a page of the old one's rows with one more.
pub fn make_with_row(old: &[u8], i: usize, key: &[u8], value: i64, page: &mut [u8])
    requires old { HasLayout old.now }
    requires place { i ≤ length (rows_of old.now) }
    requires room { HasRoom (rows_of old.now) key.now }
    requires size { length page.old ≡ 1024 }
    ensures rows { Holds page.new (insert (rows_of old.now) i (key.now, value)) }
    ensures links { links_of page.new ≡ links_of old.now }
{
    let count = row_count(old);
    let bytes = key_bytes(old) + key.len();
    let table = begin(page, page_links(old), count + 1, bytes);
    let start = copy_rows(old, 0, i, page, table, 0, 0);
    let end = write_row(page, table, i, start, key, value);
    let _ = copy_rows(old, i, count, page, table, i + 1, end);
}

/// Makes a page of the old one's rows but one.
pub fn make_without_row(old: &[u8], i: usize, page: &mut [u8])
    requires old { HasLayout old.now }
    requires place { i < length (rows_of old.now) }
    requires size { length page.old ≡ 1024 }
    ensures rows { Holds page.new (remove (rows_of old.now) i) }
    ensures links { links_of page.new ≡ links_of old.now }
{
    let count = row_count(old);
    let bytes = key_bytes(old) - row_key(old, i).len();
    let table = begin(page, page_links(old), count - 1, bytes);
    let start = copy_rows(old, 0, i, page, table, 0, 0);
    let _ = copy_rows(old, i + 1, count, page, table, i, start);
}

/// Makes a page of some of the old one's rows, from one place to another, with these links.
pub fn make_part(old: &[u8], from: usize, to: usize, links: Links, page: &mut [u8])
    requires old { HasLayout old.now }
    requires order { from ≤ to }
    requires within { to ≤ length (rows_of old.now) }
    requires size { length page.old ≡ 1024 }
    ensures rows { Holds page.new (take (to - from) (drop from (rows_of old.now))) }
    ensures links { links_of page.new ≡ links }
{
    let bytes = key_start(old, to) - key_start(old, from);
    let table = begin(page, links, to - from, bytes);
    let _ = copy_rows(old, from, to, page, table, 0, 0);
}

/// Makes a page that was all zeros an empty leaf with three null links.
pub fn make_blank(page: &mut [u8])
    requires { length page.old ≡ 1024 }
    ensures rows { Holds page.new [] }
    ensures links { links_of page.new ≡ null_links }
    ensures head { Puts 0 (head_bytes null_links 0 0) page.old page.new }
{
    let _ = begin(page, NULL_LINKS, 0, 0);
}
