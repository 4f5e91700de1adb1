// The order of keys, from left to right.
ghost use Rattle.std.specs.Prelude.{◌≡◌, ℕ, List, length, None, true, IfOk};
ghost use Rattle.bfs_base.specs.Keys.{IsTreeKind};
ghost use Rattle.bfs_node.specs.Page.{IsPage, IsKeyLength, rows_of};
ghost use Rattle.bfs_pages.specs.Order.{comes_before};
ghost use Rattle.bfs_finding.specs.Walks.{Met, rows_met};
ghost use Rattle.bfs_tree_check.specs.Ordered.{follows, IsLastKey, IsUpTo, IsOrdered};

use bfs_node::{KeyKind, compare, row_count, row_key};
use std::alloc::AllocError;

/// Is a key above another one?
fn is_above(kind: KeyKind, last: &[u8], key: &[u8]) -> bool
    requires kind { IsTreeKind kind }
    requires last { IsKeyLength kind (length last.now) }
    requires key { IsKeyLength kind (length key.now) }
    ensures { result ≡ comes_before kind last.now key.now }
{
    compare(kind, last, key).is_lt()
}

/// May a key come behind what was met last? No bytes stand for nothing. A row's key is above it, and a key of an interior page at least
/// that.
fn may_follow(kind: KeyKind, last: &[u8], key: &[u8], row: bool) -> bool
    requires kind { IsTreeKind kind }
    requires last { IsLastKey kind last.now }
    requires key { IsKeyLength kind (length key.now) }
    ensures { result ≡ follows kind last.now key.now row }
{
    let length = last.len();
    if length == 0 {
        return true;
    }
    if row {
        return is_above(kind, last, key);
    }
    !is_above(kind, key, last)
}

/// Goes on to a key, where it may come behind the last one.
pub fn go_on(kind: KeyKind, last: &mut Vec<u8>, key: &[u8], row: bool) -> Result<bool, AllocError>
    requires kind { IsTreeKind kind }
    requires last { IsLastKey kind last.old.items }
    requires key { IsKeyLength kind (length key.now) }
    ensures on { IfOk result (λ on. on ≡ follows kind last.old.items key.now row) }
    ensures last { IfOk result (λ on. on ≡ true → last.new.items ≡ key.now) }
{
    if !may_follow(kind, last.as_slice(), key, row) {
        return Ok(false);
    }
    last.clear();
    last.extend_from_slice(key)?;
    Ok(true)
}

/// The first row of a leaf that isn't above what was met before it.
pub fn order_rows(
    page: &[u8],
    kind: KeyKind,
    last: &mut Vec<u8>,
) -> Result<Option<usize>, AllocError>
    requires kind { IsTreeKind kind }
    requires page { IsPage kind page.now }
    requires last { IsLastKey kind last.old.items }
    ensures ordered { (at : ℕ) (front : List Met) → IsUpTo kind front last.old.items → IfOk result (IsOrdered kind at front (rows_met at 0 (rows_of page.now)) last.new.items) }
    ensures last { IfOk result (λ found. found ≡ None → IsLastKey kind last.new.items) }
{
    for i in 0..row_count(page) {
        match go_on(kind, last, row_key(page, i), true) {
            Ok(on) => {
                if !on {
                    return Ok(Some(i));
                }
            }
            Err(fault) => return Err(fault),
        }
    }
    Ok(None)
}
