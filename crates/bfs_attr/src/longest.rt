// The longest attribute in an area of small data.
ghost use Rattle.std.specs.Prelude.{◌≡◌, ◌≤◌, ◌+◌, nat_le, length, drop, not, IfSome, IsSome};
ghost use Rattle.std.specs.List.{filter};
ghost use Rattle.bfs_smalldata.specs.Items.{items_of, item_in, size_in};
ghost use Rattle.bfs_sound.specs.Attributes.{is_name_item};
ghost use Rattle.bfs_sound.specs.Need.{longest};
ghost use Rattle.bfs_attr.specs.Longest.{IsLongestAt, place_after};

use crate::small::{goes_on, is_own_name, size_at};
use bfs_bytes::{u16_at, u32_at};

/// Is the item here the node's own name?
#[tactic(auto, using(crate::proofs::Walked::unsigned_there))]
fn is_name_at(area: &[u8], at: usize) -> bool
    requires some { at + 8 ≤ length area.now }
    requires inside { at + size_in (drop at area.now) ≤ length area.now }
    ensures { result ≡ is_name_item (item_in (drop at area.now)) }
{
    let kind = u32_at(area, at);
    let size = usize::from(u16_at(area, at + 4));
    is_own_name(kind, &area[at + 8..at + 8 + size])
}

/// Of two items, does the second take as many bytes as the first, or more?
fn is_as_long(area: &[u8], first: usize, second: usize) -> bool
    requires first { first + 8 ≤ length area.now }
    requires second { second + 8 ≤ length area.now }
    ensures { result ≡ nat_le (size_in (drop first area.now)) (size_in (drop second area.now)) }
{
    let before = size_at(area, first);
    let behind = size_at(area, second);
    before <= behind
}

/// Where the longest attribute begins, of the one that was found and the item here.
fn longer_place(area: &[u8], found: Option<usize>, at: usize) -> Option<usize>
    requires some { at + 8 ≤ length area.now }
    requires inside { at + size_in (drop at area.now) ≤ length area.now }
    requires found { IfSome found (λ p. p + 8 ≤ length area.now) }
    ensures { result ≡ place_after area.now found at }
{
    if is_name_at(area, at) {
        return found;
    }
    match found {
        None => Some(at),
        Some(place) => {
            if is_as_long(area, place, at) {
                Some(at)
            } else {
                Some(place)
            }
        }
    }
}

/// Where the item of the longest attribute begins in a list of items, the last one among equals, or None where there is no attribute.
pub fn longest_attribute(area: &[u8]) -> Option<usize>
    requires { IsSome (items_of area.now) }
    ensures { IfSome (items_of area.now) (λ items. IsLongestAt area.now (longest (filter (λ item. not (is_name_item item)) items)) result) }
{
    let mut found = None;
    let mut at = 0;
    while goes_on(area, at) {
        let size = size_at(area, at);
        found = longer_place(area, found, at);
        at += size;
    }
    found
}
