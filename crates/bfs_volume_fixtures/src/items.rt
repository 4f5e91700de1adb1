// Items of small data.
ghost use Rattle.std.specs.Prelude.{◌≡◌, ◌≤◌, ◌+◌, length};

use bfs_bytes::{put_bytes, put_u16, put_u32};

/// An item of small data, with three bytes behind its name and one behind its bytes.
pub fn put_item(bytes: &mut [u8], at: usize, kind: u32, name: &[u8], value: &[u8])
    requires name { length name.now ≤ 255 }
    requires value { length value.now ≤ 255 }
    requires inside { at + 600 ≤ length bytes.old }
    ensures { length bytes.new ≡ length bytes.old }
{
    put_u32(bytes, at, kind);
    put_u16(bytes, at + 4, name.len() as u16);
    put_u16(bytes, at + 6, value.len() as u16);
    put_bytes(bytes, at + 8, name);
    put_bytes(bytes, at + 8 + name.len() + 3, value);
}
