// Changes of an area.
ghost use Rattle.std.specs.Prelude.{◌≡◌, ◌≤◌, ◌<◌, ◌↔◌, ◌+◌, ◌-◌, ◌++◌, List, length, take, drop, replicate, IsTrue, IsSome, IfSome};
ghost use Rattle.std.specs.Bool.{OnFalse};
ghost use Rattle.std.specs.Option.{option_map, option_and_then};
ghost use Rattle.bfs_bytes.specs.Fields.{Puts};
ghost use Rattle.bfs_smalldata.specs.Items.{Item, items_of, sizes_of, bytes_of};
ghost use Rattle.bfs_smalldata.specs.Edits.{named, before, without, with_item, IsFitting, StandsAt, IsClear};

use crate::walk::span_of;
use bfs_bytes::{put_bytes, put_u16, put_u32};

// Copies the bytes from one place to another, also where the two parts overlap.
fn move_part(area: &mut [u8], from: usize, to: usize, at: usize)
    requires order { from ≤ to }
    requires inside { to ≤ length area.old }
    requires room { at + (to - from) ≤ length area.old }
    ensures { Puts at (take (to - from) (drop from area.old)) area.old area.new }
{
    area.copy_within(from..to, at);
}

// Writes zeros from a place to the area's end.
fn clear(area: &mut [u8], from: usize)
    requires { from ≤ length area.old }
    ensures { area.new ≡ take from area.old ++ replicate (length area.old - from) 0 }
{
    area[from..].fill(0);
}

// Writes the bytes of one item.
fn write_item(area: &mut [u8], at: usize, kind: u32, name: &[u8], bytes: &[u8])
    requires name { length name.now < 65536 }
    requires bytes { length bytes.now < 65536 }
    requires inside { at + (8 + length name.now + 3 + length bytes.now + 1) ≤ length area.old }
    ensures { Puts at (bytes_of (record { kind = kind; name = name.now; bytes = bytes.now })) area.old area.new }
{
    let data = at + 8 + name.len() + 3;
    put_u32(area, at, kind);
    put_u16(area, at + 4, name.len() as u16);
    put_u16(area, at + 6, bytes.len() as u16);
    put_bytes(area, at + 8, name);
    put_bytes(area, at + 8 + name.len(), &[0; 3]);
    put_bytes(area, data, bytes);
    put_bytes(area, data + bytes.len(), &[0; 1]);
}

/// Puts an item in place of the first of its name, or behind the others where there is none. The free part
/// is zeros then.
pub fn put(area: &mut [u8], kind: u32, name: &[u8], bytes: &[u8])
    requires area { IsSome (items_of area.old) }
    requires fits { IsFitting area.old name.now (length bytes.now) }
    requires some { 1 ≤ length name.now }
    requires short { length name.now ≤ 255 }
    ensures items { items_of area.new ≡ option_map (with_item (record { kind = kind; name = name.now; bytes = bytes.now })) (items_of area.old) }
    // Its bytes stand behind the items before it, with zeros round its own.
    ensures written { IfSome (items_of area.old) (λ items. StandsAt (sizes_of (before name.now items)) (bytes_of (record { kind = kind; name = name.now; bytes = bytes.now })) area.new) }
    ensures free { IsClear area.new }
{
    let span = span_of(area, name);
    let behind = span.at + 8 + name.len() + 3 + bytes.len() + 1;
    move_part(area, span.next, span.end, behind);
    write_item(area, span.at, kind, name, bytes);
    clear(area, behind + (span.end - span.next));
}

/// Takes the first item with this name out, and closes the gap. The free part is zeros then. Was it there?
pub fn take(area: &mut [u8], name: &[u8]) -> bool
    requires { IsSome (items_of area.old) }
    ensures there { IsTrue result ↔ IsSome (option_and_then (named name.now) (items_of area.old)) }
    ensures items { items_of area.new ≡ option_map (without name.now) (items_of area.old) }
    ensures free { IsTrue result → IsClear area.new }
    ensures same { OnFalse result (area.new ≡ area.old) }
{
    let span = span_of(area, name);
    if span.at == span.next {
        return false;
    }
    move_part(area, span.next, span.end, span.at);
    clear(area, span.at + (span.end - span.next));
    true
}
