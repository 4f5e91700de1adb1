// The ends of a range.
ghost use Rattle.std.specs.Prelude.{◌≡◌, ◌≤◌, length, IfSome};
ghost use Rattle.std.specs.Option.{option_copied};
ghost use Rattle.bfs_base.specs.Keys.{IsTreeKind};
ghost use Rattle.bfs_node.specs.Page.{IsPage, rows_of};
ghost use Rattle.bfs_node.specs.Search.{IsSought};
ghost use Rattle.bfs_pages.specs.Ways.{KeysAscend};
ghost use Rattle.bfs_range.specs.Ends.{least_of, low_end, EndsAt};

use bfs_node::{KeyKind, row_count, search};

/// A key that isn't greater than any key of its kind.
pub fn least_key(kind: KeyKind) -> &'static [u8]
    requires { IsTreeKind kind }
    ensures sought { IsSought kind result.now }
    ensures bytes { result.now ≡ least_of kind }
{
    match kind {
        KeyKind::Text => b"",
        KeyKind::I32 => b"\0\0\0\x80",
        KeyKind::U32 => b"\0\0\0\0",
        KeyKind::I64 => b"\0\0\0\0\0\0\0\x80",
        KeyKind::U64 => b"\0\0\0\0\0\0\0\0",
        KeyKind::F32 | KeyKind::F64 => unreachable!(),
    }
}

/// The lower end, or where there is none the least key.
pub fn low_or_least<'a>(kind: KeyKind, low: Option<&'a [u8]>) -> &'a [u8]
    requires kind { IsTreeKind kind }
    requires low { IfSome low (λ k. IsSought kind k.now) }
    ensures sought { IsSought kind result.now }
    ensures bytes { result.now ≡ low_end kind (option_copied low.entry) }
{
    match low {
        Some(key) => key,
        None => least_key(kind),
    }
}

/// The place of the first row whose key is above the upper end.
pub fn end_for(page: &[u8], kind: KeyKind, high: Option<&[u8]>) -> usize
    requires page { IsPage kind page.now }
    requires high { IfSome high (λ k. IsSought kind k.now) }
    ensures inside { result ≤ length (rows_of page.now) }
    ensures first { KeysAscend kind (rows_of page.now) → EndsAt kind (rows_of page.now) (option_copied high.entry) result }
{
    let count = row_count(page);
    match high {
        Some(key) => match search(page, kind, key) {
            Ok(i) => i + 1,
            Err(i) => i,
        },
        None => count,
    }
}
