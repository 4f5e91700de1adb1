// Is it a page?
ghost use Rattle.std.specs.Prelude.{◌≡◌, ◌≤◌, ◌+◌, ◌*◌, ◌↔◌, length, IsTrue, OnOk, IfErr};
ghost use Rattle.bfs_base.specs.Keys.{IsKey, IsTreeKind};
ghost use Rattle.bfs_node.specs.Faults.{IsPageRefusal};
ghost use Rattle.bfs_node.specs.Search.{IsSought};
ghost use Rattle.bfs_node.specs.Page.{IsPage, least_key, most_key, base_at, end_at};

use crate::{KeyKind, PageFault};
use bfs_bytes::u16_at;

/// How many bytes a key of the kind has, at least and at most.
fn key_lengths(kind: KeyKind) -> (usize, usize)
    requires { IsTreeKind kind }
    ensures least { result.0 ≡ least_key kind }
    ensures most { result.1 ≡ most_key kind }
{
    match kind {
        KeyKind::Text => (1, 255),
        KeyKind::I32 | KeyKind::U32 => (4, 4),
        KeyKind::I64 | KeyKind::U64 => (8, 8),
        KeyKind::F32 | KeyKind::F64 => unreachable!(),
    }
}

/// Where a key ends, counted from the first key.
fn end_of(page: &[u8], base: usize, j: usize) -> usize
    requires size { base + 2 * j + 2 ≤ length page.now }
    requires base { base ≡ base_at page.now }
    ensures { result ≡ end_at page.now j }
{
    u16_at(page, base + 2 * j) as usize
}

/// Refuses what is no page of this kind of keys, by the first condition that it breaks, and nothing else.
pub fn check(page: &[u8], kind: KeyKind) -> Result<(), PageFault>
    requires size { length page.now ≡ 1024 }
    requires kind { IsTreeKind kind }
    ensures ok { OnOk result (IsPage kind page.now) }
    ensures refused { IfErr result (IsPageRefusal kind page.now) }
{
    let count = u16_at(page, 24);
    let bytes = u16_at(page, 26);
    let keys = count as usize;
    let base = (28 + bytes as usize + 7) / 8 * 8;
    if base + 10 * keys > 1024 {
        return Err(PageFault::Bounds { count, bytes });
    }
    let (least, most) = key_lengths(kind);
    let mut start = 0usize;
    for j in 0..keys {
        let end = end_of(page, base, j);
        if end < start || end - start < least || most < end - start {
            return Err(PageFault::Ends { index: j });
        }
        start = end;
    }
    if start != bytes as usize {
        return Err(PageFault::Ends { index: keys });
    }
    Ok(())
}

/// Whether these bytes can be a key of the kind: text of 1 to 255 bytes, or the four or eight bytes of a number.
pub fn is_key(kind: KeyKind, key: &[u8]) -> bool
    ensures key { IsTrue result ↔ IsKey kind key.now }
    ensures sought { IsTrue result → IsSought kind key.now }
    ensures tree { IsTrue result → IsTreeKind kind }
{
    match kind {
        KeyKind::Text => 1 <= key.len() && key.len() <= 255,
        KeyKind::I32 | KeyKind::U32 => key.len() == 4,
        KeyKind::I64 | KeyKind::U64 => key.len() == 8,
        KeyKind::F32 | KeyKind::F64 => false,
    }
}
