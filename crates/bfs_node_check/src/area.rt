// The items of small data.
ghost use Rattle.std.specs.Prelude.{◌≡◌, ◌≤◌, ◌<◌, ◌↔◌, ◌+◌, List, length, drop, IsTrue, IsSome, IfSome, OnOk, IfErr};
ghost use Rattle.std.specs.List.{AllByRecursion};
ghost use Rattle.bfs_smalldata.specs.Items.{items_of, name_size, size_in, GoesOn};
ghost use Rattle.bfs_node_check.specs.Areas.{HasShortNames, IsShort, IsLongAt, IsWrongArea};

use bfs_bytes::u16_at;
use bfs_smalldata::list_end;

/// Does an item stand here?
#[tactic(auto, using(crate::proofs::Walked::unsigned_there))]
pub fn goes_on(area: &[u8], at: usize) -> bool
    requires { at ≤ length area.now }
    ensures { IsTrue result ↔ GoesOn (drop at area.now) }
{
    8 <= area.len() - at && 0 < u16_at(area, at + 4)
}

/// How long the name of the item here is.
#[tactic(auto, using(crate::proofs::Walked::unsigned_there))]
pub fn name_size_at(area: &[u8], at: usize) -> usize
    requires { at + 8 ≤ length area.now }
    ensures value { result ≡ name_size (drop at area.now) }
    ensures few { result < 65536 }
{
    usize::from(u16_at(area, at + 4))
}

/// How much of the area the item here takes.
#[tactic(auto, using(crate::proofs::Walked::unsigned_there))]
pub fn size_at(area: &[u8], at: usize) -> usize
    requires { at + 8 ≤ length area.now }
    ensures { result ≡ size_in (drop at area.now) }
{
    8 + usize::from(u16_at(area, at + 4)) + 3 + usize::from(u16_at(area, at + 6)) + 1
}

/// Has each item a name of at most 255 bytes? Else the place of the first that hasn't.
fn check_names(area: &[u8]) -> Result<(), usize>
    requires { IsSome (items_of area.now) }
    ensures short { OnOk result (IfSome (items_of area.now) (AllByRecursion IsShort)) }
    ensures long { IfErr result (IsLongAt area.now) }
{
    let mut at = 0;
    while goes_on(area, at) {
        let size = size_at(area, at);
        let name = name_size_at(area, at);
        if name > 255 {
            return Err(at);
        }
        at += size;
    }
    Ok(())
}

/// Is the area one of items, none of which runs past it, with names of at most 255 bytes? Else the place of the first item that is
/// wrong.
pub(crate) fn check_area(area: &[u8]) -> Result<(), usize>
    ensures sound { OnOk result (HasShortNames area.now) }
    ensures wrong { IfErr result (IsWrongArea area.now) }
{
    match list_end(area) {
        Ok(_) => {}
        Err(fault) => return Err(fault.at),
    }
    match check_names(area) {
        Ok(()) => Ok(()),
        Err(at) => Err(at),
    }
}
