// Looks a key up among the rows of a page.
ghost use Rattle.std.specs.Prelude.{◌≡◌, length, IfOk};
ghost use Rattle.bfs_base.specs.Keys.{key_cmp};
ghost use Rattle.bfs_node.specs.Page.{IsPage, IsKeyLength, rows_of};
ghost use Rattle.bfs_node.specs.Search.{IsSought, Ascends, IsPlace, IsInRows, key_at};

use crate::KeyKind;
use crate::read::{row_count, row_key};
use bfs_bytes::{i32_at, i64_at, u32_at};
use byteorder::{ByteOrder, LittleEndian};
use std::cmp::Ordering;

/// The order of a page's key and a key that is looked for.
#[tactic(auto, unfolding(bfs_base::specs::Keys::number_of, bfs_bytes::specs::Fields::unsigned_at, bfs_bytes::specs::Fields::signed32_at, bfs_bytes::specs::Fields::signed64_at))]
pub fn compare(kind: KeyKind, key: &[u8], sought: &[u8]) -> Ordering
    requires key { IsKeyLength kind (length key.now) }
    requires sought { IsSought kind sought.now }
    ensures { result ≡ key_cmp kind key.now sought.now }
{
    match kind {
        KeyKind::Text => key.cmp(sought),
        KeyKind::I32 => i32_at(key, 0).cmp(&i32_at(sought, 0)),
        KeyKind::U32 => u32_at(key, 0).cmp(&u32_at(sought, 0)),
        KeyKind::I64 => i64_at(key, 0).cmp(&i64_at(sought, 0)),
        KeyKind::U64 => LittleEndian::read_u64(key).cmp(&LittleEndian::read_u64(sought)),
        KeyKind::F32 | KeyKind::F64 => unreachable!(),
    }
}

/// The place of a key in a page whose keys strictly ascend, or the place where it would stand.
pub fn search(page: &[u8], kind: KeyKind, sought: &[u8]) -> Result<usize, usize>
    requires page { IsPage kind page.now }
    requires sought { IsSought kind sought.now }
    ensures inside { IsInRows (rows_of page.now) result }
    ensures key { IfOk result (λ i. key_at (rows_of page.now) i ≡ sought.now) }
    ensures place { Ascends kind (rows_of page.now) → IsPlace kind (rows_of page.now) sought.now result }
{
    let mut low = 0;
    let mut high = row_count(page);
    while low < high {
        let middle = low + (high - low) / 2;
        match compare(kind, row_key(page, middle), sought) {
            Ordering::Less => low = middle + 1,
            Ordering::Equal => return Ok(middle),
            Ordering::Greater => high = middle,
        }
    }
    Err(low)
}
