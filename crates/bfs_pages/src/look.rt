// Looks keys up in a page.
ghost use Rattle.std.specs.Prelude.{◌≡◌, ◌≤◌, ◌<◌, ℕ, length};
ghost use Rattle.bfs_node.specs.Page.{IsPage, HasLayout, rows_of, links_of};
ghost use Rattle.bfs_node.specs.Search.{IsSought, key_at};
ghost use Rattle.bfs_pages.specs.Answers.{IsChild, IsInteriorPage};
ghost use Rattle.bfs_pages.specs.Maps.{assoc};
ghost use Rattle.bfs_pages.specs.Order.{comes_before};
ghost use Rattle.bfs_pages.specs.Trees.{place_of, children_in};
ghost use Rattle.bfs_pages.specs.Ways.{KeysAscend, KeysRise, FirstAt, pick_of, link_at};

use crate::places::place;
use bfs_node::{KeyKind, compare, overflow_link, row_count, row_key, row_value, search};

/// Whether the key of a row is less than this one.
fn is_less(page: &[u8], kind: KeyKind, i: usize, key: &[u8]) -> bool
    requires page { IsPage kind page.now }
    requires row { i < length (rows_of page.now) }
    requires key { IsSought kind key.now }
    ensures { result ≡ comes_before kind (key_at (rows_of page.now) i) key.now }
{
    compare(kind, row_key(page, i), key).is_lt()
}

/// The place of the first row whose key is not less than this one. Keys of an interior page may be the same.
pub fn place_for(page: &[u8], kind: KeyKind, key: &[u8]) -> usize
    requires page { IsPage kind page.now }
    requires key { IsSought kind key.now }
    ensures inside { result ≤ length (rows_of page.now) }
    ensures first { KeysRise kind (rows_of page.now) → FirstAt kind (rows_of page.now) key.now result }
{
    let mut low = 0;
    let mut high = row_count(page);
    while low < high {
        let middle = low + (high - low) / 2;
        if is_less(page, kind, middle, key) {
            low = middle + 1;
        } else {
            high = middle;
        }
    }
    low
}

/// The value at a key of a leaf.
pub fn look_up(page: &[u8], kind: KeyKind, key: &[u8]) -> Option<i64>
    requires page { IsPage kind page.now }
    requires key { IsSought kind key.now }
    ensures { KeysAscend kind (rows_of page.now) → result ≡ assoc kind (rows_of page.now) key.now }
{
    match search(page, kind, key) {
        Ok(i) => Some(row_value(page, i)),
        Err(_) => None,
    }
}

/// The link to a child of an interior page: of the row at a place, or behind the last row the overflow link.
pub fn child_link(page: &[u8], i: usize) -> i64
    requires page { HasLayout page.now }
    ensures { result ≡ link_at (rows_of page.now) (links_of page.now).overflow i }
{
    if i < row_count(page) {
        row_value(page, i)
    } else {
        overflow_link(page)
    }
}

/// The child of an interior page that a key leads to.
pub fn child_for(page: &[u8], kind: KeyKind, key: &[u8]) -> u64
    requires page { IsPage kind page.now }
    requires key { IsSought kind key.now }
    ensures child { (size : ℕ) → IsInteriorPage kind size page.now → IsChild size result }
    ensures way { KeysRise kind (rows_of page.now) → pick_of kind (children_in (rows_of page.now)) (place_of (links_of page.now).overflow) key.now ≡ result }
{
    place(child_link(page, place_for(page, kind, key)))
}
