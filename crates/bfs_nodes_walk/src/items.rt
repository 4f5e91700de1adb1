// The names of a node's items.
ghost use Rattle.std.specs.Prelude.{◌≡◌, ◌≤◌, ◌↔◌, ◌+◌, List, length, drop, pos, Some, IsTrue, IsSome, IfSome, OnOk, IfErr};
ghost use Rattle.bfs_smalldata.specs.Items.{items_of, size_in, item_in};
ghost use Rattle.bfs_smalldata.specs.Items.{Item as Content};
ghost use Rattle.bfs_smalldata.specs.Edits.{named, AreDistinct};
ghost use Rattle.bfs_sound.specs.Volumes.{Volume};
ghost use Rattle.bfs_finding.specs.NodeFaults.{area_of, IsAttributeFault};
ghost use Rattle.bfs_finding.specs.Ways.{IsReached};
ghost use Rattle.bfs_node_check.specs.Names.{IsNodeFault};

use bfs_finding::{Finding, InodePart};
use bfs_node_check::{NodeFault, goes_on, name_size_at, size_at};
use bfs_smalldata::{find, list_end};
use bfs_tree::Bytes;
use std::alloc::Global;

/// The finding on a name that stands twice.
pub(crate) fn repeated(alloc: Global, id: u64, name: &[u8]) -> NodeFault
    ensures { (v : Volume) → IsAttributeFault v id name.now → IsNodeFault v result }
{
    match Bytes::from_slice(alloc, name) {
        Ok(name) => NodeFault::Wrong(Finding::Attribute { id, name }),
        Err(_) => NodeFault::NoMemory,
    }
}

/// The finding on an item that runs past the area.
fn past_end(id: u64, at: usize) -> Finding
    requires { at ≤ 8192 }
    ensures { result ≡ Finding.Inode id InodePart.SmallData (pos at) }
{
    Finding::Inode {
        block: id,
        part: InodePart::SmallData,
        found: at as i64,
    }
}

/// Does no item run past the area?
pub(crate) fn check_list(area: &[u8], id: u64) -> Result<(), NodeFault>
    requires few { length area.now ≤ 8192 }
    ensures some { OnOk result (IsSome (items_of area.now)) }
    ensures wrong { (v : Volume) → area_of v id ≡ area.now → IsReached v id → IfErr result (IsNodeFault v) }
{
    match list_end(area) {
        Ok(_) => Ok(()),
        Err(fault) => Err(NodeFault::Wrong(past_end(id, fault.at))),
    }
}

/// The name of the item here.
fn name_at(area: &[u8], at: usize) -> &[u8]
    requires some { at + 8 ≤ length area.now }
    requires inside { at + size_in (drop at area.now) ≤ length area.now }
    ensures { result.now ≡ (item_in (drop at area.now)).name }
{
    let size = name_size_at(area, at);
    &area[at + 8..at + 8 + size]
}

/// Is an item of this name there?
fn is_there(area: &[u8], name: &[u8]) -> bool
    requires { IsSome (items_of area.now) }
    ensures { (items : List Content) → items_of area.now ≡ Some items → IsTrue result ↔ IsSome (named name.now items) }
{
    match find(area, name) {
        Some(_) => true,
        None => false,
    }
}

/// Has an item behind the one here its name?
fn is_again(area: &[u8], at: usize) -> bool
    requires some { at + 8 ≤ length area.now }
    requires inside { at + size_in (drop at area.now) ≤ length area.now }
    requires rest { IsSome (items_of (drop (at + size_in (drop at area.now)) area.now)) }
    ensures { (items : List Content) → items_of (drop (at + size_in (drop at area.now)) area.now) ≡ Some items → IsTrue result ↔ IsSome (named (item_in (drop at area.now)).name items) }
{
    let next = at + size_at(area, at);
    is_there(&area[next..], name_at(area, at))
}

/// Have no two items one name?
pub(crate) fn check_items(alloc: Global, area: &[u8], id: u64) -> Result<(), NodeFault>
    requires { IsSome (items_of area.now) }
    ensures distinct { OnOk result (IfSome (items_of area.now) AreDistinct) }
    ensures wrong { (v : Volume) → area_of v id ≡ area.now → IsReached v id → IfErr result (IsNodeFault v) }
{
    let mut at = 0;
    while goes_on(area, at) {
        let size = size_at(area, at);
        let again = is_again(area, at);
        if again {
            return Err(repeated(alloc, id, name_at(area, at)));
        }
        at += size;
    }
    Ok(())
}
