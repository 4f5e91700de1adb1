// Attributes in the small data of an inode.
ghost use Rattle.std.specs.Prelude.{◌≡◌, ◌≤◌, ◌<◌, ◌↔◌, ◌+◌, ◌++◌, List, ℕ, length, drop, take, true, IsTrue, IsSome, IfSome, OnOk, IfOk};
ghost use Rattle.std.specs.List.{flat_map};
ghost use Rattle.bfs_smalldata.specs.Items.{items_of, name_size, size_in, item_in, GoesOn};
ghost use Rattle.bfs_sound.specs.Attributes.{is_name_item};
ghost use Rattle.bfs_attr.specs.SmallData.{IsSmall, item_rows};

use crate::rows::AttrItem;
use bfs_bytes::{u16_at, u32_at};
use bfs_smalldata::{find, list_end};
use bfs_tree::{AttributeRow, Bytes};
use std::alloc::{AllocError, Global};

/// The one byte that names the item with a node's own name.
pub(crate) const OWN_NAME: u8 = 0x13;

/// The type of that item.
pub(crate) const CSTR: u32 = 0x43535452;

/// What small data has of a name: an attribute; none; or an item runs past it; or there is no memory for the bytes.
#[derive(Debug, Drop)]
pub enum Small {
    Found(AttrItem),
    Missing,
    Broken,
    NoMemory,
}

/// Is an item of this type and name that with a node's own name?
pub(crate) fn is_own_name(kind: u32, name: &[u8]) -> bool
    ensures { (bytes : List ℕ) → result ≡ is_name_item (record { kind = kind; name = name.now; bytes = bytes }) }
{
    kind == CSTR && name == [OWN_NAME].as_slice()
}

/// The attribute with these bytes.
fn copied(alloc: Global, kind: u32, bytes: &[u8]) -> Result<AttrItem, AllocError>
    ensures { IfOk result (λ item. (item.kind ≡ kind) × (item.bytes ≡ bytes.now)) }
{
    Ok(AttrItem {
        kind,
        bytes: Bytes::from_slice(alloc, bytes)?,
    })
}

/// The attribute of a name in a list of items.
fn found_in(alloc: Global, area: &[u8], name: &[u8]) -> Small
    requires { IsSome (items_of area.now) }
    ensures { IsSmall area.now name.now result }
{
    match find(area, name) {
        None => Small::Missing,
        Some(place) => {
            if is_own_name(place.kind, name) {
                Small::Missing
            } else {
                match copied(alloc, place.kind, &area[place.at..place.at + place.len]) {
                    Ok(item) => Small::Found(item),
                    Err(_) => Small::NoMemory,
                }
            }
        }
    }
}

/// The attribute of a name in an area of small data.
pub(crate) fn small_attribute(alloc: Global, area: &[u8], name: &[u8]) -> Small
    ensures { IsSmall area.now name.now result }
{
    match list_end(area) {
        Ok(_) => found_in(alloc, area, name),
        Err(_) => Small::Broken,
    }
}

/// Does an item stand here?
#[tactic(auto, using(crate::proofs::Walked::unsigned_there))]
pub(crate) fn goes_on(area: &[u8], at: usize) -> bool
    requires { at ≤ length area.now }
    ensures { IsTrue result ↔ GoesOn (drop at area.now) }
{
    8 <= area.len() - at && 0 < u16_at(area, at + 4)
}

/// How much of the area the item here takes.
#[tactic(auto, using(crate::proofs::Walked::unsigned_there))]
pub(crate) fn size_at(area: &[u8], at: usize) -> usize
    requires { at + 8 ≤ length area.now }
    ensures { result ≡ size_in (drop at area.now) }
{
    8 + usize::from(u16_at(area, at + 4)) + 3 + usize::from(u16_at(area, at + 6)) + 1
}

/// Adds the row of the item here, where it is an attribute.
#[tactic(auto, using(crate::proofs::Walked::unsigned_there))]
fn push_row(
    alloc: Global,
    area: &[u8],
    at: usize,
    rows: &mut Vec<AttributeRow>,
) -> Result<(), AllocError>
    requires some { at + 8 ≤ length area.now }
    requires inside { at + size_in (drop at area.now) ≤ length area.now }
    ensures { OnOk result (rows.new.items ≡ rows.old.items ++ item_rows (item_in (drop at area.now))) }
{
    let kind = u32_at(area, at);
    let size = usize::from(u16_at(area, at + 4));
    let name = &area[at + 8..at + 8 + size];
    if is_own_name(kind, name) {
        return Ok(());
    }
    let name = Bytes::from_slice(alloc, name)?;
    rows.push(AttributeRow { kind, name })?;
    Ok(())
}

/// The rows of all attributes in a list of items, in their order.
pub(crate) fn small_rows(alloc: Global, area: &[u8]) -> Result<Vec<AttributeRow>, AllocError>
    requires { IsSome (items_of area.now) }
    ensures { IfOk result (λ rows. IfSome (items_of area.now) (λ items. rows.items ≡ flat_map item_rows items)) }
{
    let mut rows = Vec::new(alloc);
    let mut at = 0;
    while goes_on(area, at) {
        let size = size_at(area, at);
        push_row(alloc, area, at, &mut rows)?;
        at += size;
    }
    Ok(rows)
}
