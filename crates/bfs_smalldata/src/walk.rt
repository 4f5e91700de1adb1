// Walks over the items of an area.
ghost use Rattle.std.specs.Prelude.{◌≡◌, ◌≤◌, ◌<◌, ◌↔◌, ◌+◌, ◌-◌, List, length, drop, Some, None, IsTrue, IsSome, IfSome, IfOk, IfErr};
ghost use Rattle.std.specs.Option.{option_and_then};
ghost use Rattle.std.specs.Str.{bytes_eq};
ghost use Rattle.bfs_smalldata.specs.Items.{items_of, sizes_of, name_size, data_size, size_in, item_in, GoesOn, RunsPast};
ghost use Rattle.bfs_smalldata.specs.Items.{Item as Content};
ghost use Rattle.bfs_smalldata.specs.Edits.{named, IsPlaceOf, Finds, HasRoom, IsFitting};
ghost use Rattle.bfs_smalldata.specs.Walk.{Stops, Spans};

use crate::{AreaFault, Item};
use bfs_bytes::{u16_at, u32_at};

// Does an item stand here?
#[tactic(auto, using(crate::proofs::Reading::unsigned_dropped))]
fn goes_on(area: &[u8], at: usize) -> bool
    requires { at ≤ length area.now }
    ensures { IsTrue result ↔ GoesOn (drop at area.now) }
{
    8 <= area.len() - at && 0 < u16_at(area, at + 4)
}

// How long the name of the item here is.
#[tactic(auto, using(crate::proofs::Reading::unsigned_dropped))]
fn name_size_at(area: &[u8], at: usize) -> usize
    requires { at + 8 ≤ length area.now }
    ensures value { result ≡ name_size (drop at area.now) }
    ensures bound { result < 65536 }
{
    usize::from(u16_at(area, at + 4))
}

// How many bytes the item here has.
#[tactic(auto, using(crate::proofs::Reading::unsigned_dropped))]
fn data_size_at(area: &[u8], at: usize) -> usize
    requires { at + 8 ≤ length area.now }
    ensures value { result ≡ data_size (drop at area.now) }
    ensures bound { result < 65536 }
{
    usize::from(u16_at(area, at + 6))
}

// How much of the area the item here takes.
fn size_at(area: &[u8], at: usize) -> usize
    requires { at + 8 ≤ length area.now }
    ensures { result ≡ size_in (drop at area.now) }
{
    8 + name_size_at(area, at) + 3 + data_size_at(area, at) + 1
}

/// Where the free part of an area begins: behind its last item.
pub fn list_end(area: &[u8]) -> Result<usize, AreaFault>
    ensures ok { IfOk result (λ end. (items : List Content) × (items_of area.now ≡ Some items) × (end ≡ sizes_of items)) }
    ensures err { IfErr result (λ fault. (items_of area.now ≡ None) × RunsPast area.now fault.at) }
{
    let mut at = 0;
    while goes_on(area, at) {
        let size = size_at(area, at);
        if area.len() - at < size {
            return Err(AreaFault { at });
        }
        at += size;
    }
    Ok(at)
}

// Does the item here have this name?
#[tactic(auto, using(crate::proofs::Reading::part_dropped))]
fn is_named(area: &[u8], at: usize, name: &[u8]) -> bool
    requires some { at + 8 ≤ length area.now }
    requires inside { at + size_in (drop at area.now) ≤ length area.now }
    ensures { result ≡ bytes_eq (item_in (drop at area.now)).name name.now }
{
    let size = name_size_at(area, at);
    &area[at + 8..at + 8 + size] == name
}

// Where the first item with this name stands, or where the list ends.
fn seek(area: &[u8], name: &[u8]) -> usize
    requires { IsSome (items_of area.now) }
    ensures inside { result ≤ length area.now }
    ensures stops { Stops area.now name.now result }
{
    let mut at = 0;
    while goes_on(area, at) {
        if is_named(area, at, name) {
            return at;
        }
        at += size_at(area, at);
    }
    at
}

// The end of a list without a fault.
fn end_of(area: &[u8]) -> usize
    requires { IsSome (items_of area.now) }
    ensures { IfSome (items_of area.now) (λ items. result ≡ sizes_of items) }
{
    match list_end(area) {
        Ok(end) => end,
        Err(_) => unreachable!(),
    }
}

/// An item with a name stands from one place to the next, or none does; where the list ends.
#[derive(Clone, Copy)]
pub struct Span {
    pub at: usize,
    pub next: usize,
    pub end: usize,
}

/// The first item with this name, and the end of the list.
pub fn span_of(area: &[u8], name: &[u8]) -> Span
    requires { IsSome (items_of area.now) }
    ensures { Spans area.now name.now result.at result.next result.end }
{
    let at = seek(area, name);
    let end = end_of(area);
    if goes_on(area, at) {
        let next = at + size_at(area, at);
        Span { at, next, end }
    } else {
        Span { at, next: at, end }
    }
}

// The place of the item here.
#[tactic(auto, using(crate::proofs::Reading::unsigned_dropped, crate::proofs::Reading::part_dropped))]
fn item_at(area: &[u8], at: usize) -> Item
    requires some { at + 8 ≤ length area.now }
    requires inside { at + size_in (drop at area.now) ≤ length area.now }
    ensures { IsPlaceOf area.now (item_in (drop at area.now)) result }
{
    Item {
        kind: u32_at(area, at),
        at: at + 8 + name_size_at(area, at) + 3,
        len: data_size_at(area, at),
    }
}

/// The first item with this name.
pub fn find(area: &[u8], name: &[u8]) -> Option<Item>
    requires { IsSome (items_of area.now) }
    ensures { Finds area.now (option_and_then (named name.now) (items_of area.now)) result }
{
    let at = seek(area, name);
    if goes_on(area, at) {
        Some(item_at(area, at))
    } else {
        None
    }
}

// Does an item of this name with so many bytes end inside the area, once one of the same name is out?
fn has_room(area: &[u8], name: &[u8], size: usize) -> bool
    requires { IsSome (items_of area.now) }
    ensures { IsTrue result ↔ HasRoom area.now name.now size }
{
    let span = span_of(area, name);
    let room = area.len() - (span.end - (span.next - span.at));
    12 + name.len() <= room && size <= room - (12 + name.len())
}

/// May an item of this name with so many bytes be put into the area? It ends inside the area, once one of the
/// same name is out, and its size can be told in two bytes.
pub fn fits(area: &[u8], name: &[u8], size: usize) -> bool
    requires { IsSome (items_of area.now) }
    ensures { IsTrue result ↔ IsFitting area.now name.now size }
{
    size < 65536 && has_room(area, name, size)
}
