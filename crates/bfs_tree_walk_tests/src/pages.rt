// Pages of small trees in memory.
ghost use Rattle.std.specs.Prelude.{◌≡◌, IfOk, length};

use bfs_bytes::put_bytes;
use bfs_node::{Header, blank, has_room, insert_row, set_overflow_link};
use std::alloc::{AllocError, Global};

/// A page with one row, whose key is `m`.
pub(crate) fn page_of(value: i64, overflow: i64) -> [u8; 1024]
    ensures { length result ≡ 1024 }
{
    let mut page = [0u8; 1024];
    blank(&mut page);
    if has_room(&page, b"m") {
        insert_row(&mut page, 0, b"m", value);
    }
    set_overflow_link(&mut page, overflow);
    page
}

/// The header of a tree of one level, whose one leaf is at 1,024 and whose first free page is at this place.
fn header(free_pointer: i64) -> [u8; 1024]
    ensures { length result ≡ 1024 }
{
    let mut page = [0u8; 1024];
    let header = Header {
        magic: 0x69f6c2e8,
        node_size: 1024,
        levels: 1,
        data_type: 0,
        root_pointer: 1024,
        free_pointer,
        maximum_size: 3072,
    };
    header.print(&mut page);
    page
}

/// Three pages: the header, a leaf with one row, and a page with the mark of a free one.
pub(crate) fn tree(alloc: Global, size: usize, value: i64, free: i64) -> Result<Vec<u8>, AllocError>
    requires { size ≡ 3072 }
    ensures { IfOk result (λ v. length v.items ≡ 3072) }
{
    let mut bytes = vec![in alloc; 0u8; size]?;
    let slice = bytes.as_mut_slice();
    put_bytes(slice, 0, &header(free));
    put_bytes(slice, 1024, &page_of(value, -1));
    put_bytes(slice, 2048, &page_of(0, -2));
    Ok(bytes)
}
