// Divides a full page, and puts the key between into the page above.
ghost use Rattle.std.specs.Prelude.{◌≡◌, ◌≤◌, ◌<◌, ◌+◌, ◌*◌, ◌^◌, ℕ, pos, length, take, drop, IsTrue};
ghost use Rattle.bfs_node.specs.Page.{HasLayout, HasRoom, rows_of, row_in, key_of, value_of, keys_of, links_of};
ghost use Rattle.bfs_insert.specs.Divided.{weight, bound_rows, bound_last, IsBetween, IsLeafSplit, IsInteriorSplit, IsRoomy, IsFullPage};
ghost use Rattle.bfs_pages.specs.Order.{Key};
ghost use Rattle.bfs_pages.specs.Ways.{KeysRise};
ghost use Rattle.bfs_node.specs.Search.{IsSought};
ghost use Rattle.bfs_node.specs.Page.{IsPage};

use bfs_node::{
    KeyKind, insert_row, overflow_link, remove_row, right_link, row_count, row_key, row_value,
    set_left_link, set_overflow_link, set_right_link, set_row_value, split_rows,
};
use bfs_pages::{child_link, place_for};

/// Where a full page is divided: the first row at which the rows up to it have at least 400 bytes, where each takes
/// its key and ten bytes.
pub fn middle_of(page: &[u8]) -> usize
    requires page { HasLayout page.now }
    ensures inside { result ≤ length (rows_of page.now) }
    ensures before { weight (take result (rows_of page.now)) < 400 }
    ensures reached { result < length (rows_of page.now) → 400 ≤ weight (take (result + 1) (rows_of page.now)) }
{
    let mut total = 0;
    for i in 0..row_count(page) {
        total += row_key(page, i).len() + 10;
        if total >= 400 {
            return i;
        }
    }
    row_count(page)
}

/// Makes a leaf two: the rows behind row i go to the page to the right of it.
pub fn divide_leaf(page: &mut [u8], into: &mut [u8], i: usize, at: i64, right: i64)
    requires page { HasLayout page.old }
    requires into { length into.old ≡ 1024 }
    requires row { i < length (rows_of page.old) }
    ensures page { HasLayout page.new }
    ensures rows { rows_of page.new ≡ take (i + 1) (rows_of page.old) }
    ensures links { links_of page.new ≡ record (links_of page.old) { right = right } }
    ensures into { HasLayout into.new }
    ensures moved { rows_of into.new ≡ drop (i + 1) (rows_of page.old) }
    ensures beside { links_of into.new ≡ record { left = at; right = (links_of page.old).right; overflow = (links_of page.old).overflow } }
{
    let next = right_link(page);
    let overflow = overflow_link(page);
    split_rows(page, into, i + 1);
    set_right_link(page, right);
    set_left_link(into, at);
    set_right_link(into, next);
    set_overflow_link(into, overflow);
}

/// Makes an interior page two: row i goes, its child becomes the last one, and the rows behind it go to the other
/// page.
pub fn divide_interior(page: &mut [u8], into: &mut [u8], i: usize)
    requires page { HasLayout page.old }
    requires into { length into.old ≡ 1024 }
    requires row { i < length (rows_of page.old) }
    ensures page { HasLayout page.new }
    ensures rows { rows_of page.new ≡ take i (rows_of page.old) }
    ensures links { links_of page.new ≡ record (links_of page.old) { overflow = value_of (row_in (rows_of page.old) i) } }
    ensures into { HasLayout into.new }
    ensures moved { rows_of into.new ≡ drop (i + 1) (rows_of page.old) }
    ensures last { (links_of into.new).overflow ≡ (links_of page.old).overflow }
{
    let overflow = overflow_link(page);
    let child = row_value(page, i);
    split_rows(page, into, i + 1);
    remove_row(page, i);
    set_overflow_link(page, child);
    set_overflow_link(into, overflow);
}

/// Puts a key into an interior page before row i, with that row's child, whose place a new page takes.
pub fn put_bound(page: &mut [u8], i: usize, bound: &[u8], right: i64)
    requires page { HasLayout page.old }
    requires place { i ≤ length (rows_of page.old) }
    requires room { HasRoom (rows_of page.old) bound.now }
    ensures page { HasLayout page.new }
    ensures left { (links_of page.new).left ≡ (links_of page.old).left }
    ensures right { (links_of page.new).right ≡ (links_of page.old).right }
    ensures rows { rows_of page.new ≡ bound_rows (rows_of page.old) (links_of page.old).overflow i bound.now right }
    ensures last { (links_of page.new).overflow ≡ bound_last (rows_of page.old) (links_of page.old).overflow i right }
{
    let child = child_link(page, i);
    if i < row_count(page) {
        insert_row(page, i, bound, child);
        set_row_value(page, i + 1, right);
    } else {
        insert_row(page, i, bound, child);
        set_overflow_link(page, right);
    }
}

/// Halves a full leaf, and puts the last key of its first half into the page above. Tells whether another key leads to
/// the first half.
pub fn halve_leaf(
    above: &mut [u8],
    below: &mut [u8],
    half: &mut [u8],
    kind: KeyKind,
    key: &[u8],
    places: (u64, u64),
) -> bool
    requires above { IsPage kind above.old }
    requires roomy { IsRoomy above.old }
    requires below { IsPage kind below.old }
    requires full { IsFullPage below.old }
    requires half { length half.old ≡ 1024 }
    requires key { IsSought kind key.now }
    requires at { places.0 < 2 ^ 63 }
    requires right { places.1 < 2 ^ 63 }
    requires some { 1 ≤ places.1 }
    ensures above { IsPage kind above.new }
    ensures below { IsPage kind below.new }
    ensures half { IsPage kind half.new }
    ensures below_roomy { IsRoomy below.new }
    ensures half_roomy { IsRoomy half.new }
    ensures above_left { (links_of above.new).left ≡ (links_of above.old).left }
    ensures above_right { (links_of above.new).right ≡ (links_of above.old).right }
    ensures below_links { links_of below.new ≡ record (links_of below.old) { right = pos places.1 } }
    ensures half_links { links_of half.new ≡ record { left = pos places.0; right = (links_of below.old).right; overflow = (links_of below.old).overflow } }
    ensures split { KeysRise kind (rows_of above.old) → KeysRise kind (rows_of below.old) → (sep : Key) × IsLeafSplit (rows_of below.old) (rows_of below.new) (rows_of half.new) sep × IsBetween kind above.old above.new places.1 key.now sep result }
{
    let middle = middle_of(below);
    let first = place_for(below, kind, key);
    let place = place_for(above, kind, key);
    put_bound(above, place, row_key(below, middle), places.1 as i64);
    divide_leaf(below, half, middle, places.0 as i64, places.1 as i64);
    first <= middle
}

/// Halves a full interior page, whose middle key goes to the page above. Tells whether another key leads to the first
/// half.
pub fn halve_interior(
    above: &mut [u8],
    below: &mut [u8],
    half: &mut [u8],
    kind: KeyKind,
    key: &[u8],
    right: u64,
) -> bool
    requires above { IsPage kind above.old }
    requires roomy { IsRoomy above.old }
    requires below { IsPage kind below.old }
    requires full { IsFullPage below.old }
    requires half { length half.old ≡ 1024 }
    requires key { IsSought kind key.now }
    requires right { right < 2 ^ 63 }
    requires some { 1 ≤ right }
    ensures above { IsPage kind above.new }
    ensures below { IsPage kind below.new }
    ensures half { IsPage kind half.new }
    ensures below_roomy { IsRoomy below.new }
    ensures half_roomy { IsRoomy half.new }
    ensures above_left { (links_of above.new).left ≡ (links_of above.old).left }
    ensures above_right { (links_of above.new).right ≡ (links_of above.old).right }
    ensures below_left { (links_of below.new).left ≡ (links_of below.old).left }
    ensures below_right { (links_of below.new).right ≡ (links_of below.old).right }
    ensures half_last { (links_of half.new).overflow ≡ (links_of below.old).overflow }
    ensures split { KeysRise kind (rows_of above.old) → KeysRise kind (rows_of below.old) → (sep : Key) × IsInteriorSplit (rows_of below.old) (rows_of below.new) (rows_of half.new) sep (links_of below.new).overflow × IsBetween kind above.old above.new right key.now sep result }
{
    let middle = middle_of(below);
    let first = place_for(below, kind, key);
    let place = place_for(above, kind, key);
    put_bound(above, place, row_key(below, middle), right as i64);
    divide_interior(below, half, middle);
    first <= middle
}
